ghost use Rattle.std.specs.Prelude.{◌≡◌, ℕ, Some, true};
ghost use Rattle.object.specs.declared.command.Command.{Command};
ghost use Rattle.ballot.specs.Members.{is_member};
ghost use Rattle.ballot.specs.Rests.{rest_of_body};
ghost use Rattle.ballot.specs.declared.letter.Letter.{Letter};
ghost use Rattle.ballot.specs.declared.letter.LetterBody.{LetterBody};
ghost use Rattle.node.specs.Receiving.{IsFit};
ghost use Rattle.network.specs.Networks.{node_of, mail_of, front};
ghost use Rattle.agreement.specs.Runs.{IsWorld};
ghost use Rattle.agreement.specs.Worlds.{World};
ghost use Rattle.forgetting_hall.specs.Rests.{HallRest, ShowsWorld};

use agreement::every_world;
use forgetting::nodes_rest;
use node::deeds_are_shown;
use object::Object;

/// What is left of a letter in front of its mail a node may receive.
pub fn letters_fit<O: Object>()
    ensures { (h : HallRest O.Op O O.Reply) (w : World O.Op O.Reply) (n : ℕ)
        (l : Letter (Command O.Op)) (left : LetterBody (Command O.Op)) →
        IsWorld O.rules w → ShowsWorld O.rules h w → is_member h.network.members n ≡ true →
        front (mail_of h.network n) ≡ Some l → rest_of_body h.base l.body ≡ Some left →
        IsFit (node_of h.network n) left }
{
    every_world::<O>();
    nodes_rest::<O>();
    deeds_are_shown::<O>();
}
