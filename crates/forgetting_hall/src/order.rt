ghost use Rattle.std.specs.Prelude.{◌≡◌, ◌++◌, ℕ, List, [], length, true};
ghost use Rattle.std.specs.Option.{option_to_list};
ghost use Rattle.object.specs.Lists.{IsBeginning};
ghost use Rattle.object.specs.declared.command.Command.{Command};
ghost use Rattle.ballot.specs.Members.{is_member};
ghost use Rattle.node.specs.declared.deed.Deed.{Deed};
ghost use Rattle.agreement.specs.Chosen.{IsOrder};
ghost use Rattle.agreement.specs.Events.{event_of};
ghost use Rattle.agreement.specs.Runs.{IsWorld};
ghost use Rattle.agreement.specs.Steps.{Step};
ghost use Rattle.agreement.specs.Worlds.{World, opening};
ghost use Rattle.agreement.specs.declared.event.Event.{Event};
ghost use Rattle.forgetting_hall.specs.Effects.{TookEffect, effect_of, placed_by};
ghost use Rattle.forgetting_hall.specs.Rests.{HallRest, ShowsWorld, IsGoingOn};

use crate::laws::clusters_rest;
use agreement::every_world;
use ballot::ballot_laws;
use object::Object;

/// What took effect in a world begins its order (`begins`): at first nothing (`opening`), and with each event one
/// command more or none (`goes_on`), which is the one that a hall tells that shows the world (`told`), and counts
/// (`counted`).
pub fn effects_in_order<O: Object>()
    ensures opening { (members : List ℕ) → TookEffect {Op = O.Op} {Reply = O.Reply} (opening members) [] }
    ensures goes_on { (w v : World O.Op O.Reply) (e : Event O.Op) (order : List (Command O.Op)) →
        IsWorld O.rules w → Step O.rules w e v → TookEffect w order →
        TookEffect v (order ++ option_to_list (effect_of w e)) }
    ensures told { (h : HallRest O.Op O O.Reply) (w : World O.Op O.Reply) (n : ℕ) (d : Deed O.Op) →
        IsWorld O.rules w → ShowsWorld O.rules h w → is_member h.network.members n ≡ true →
        IsGoingOn d → effect_of w (event_of n d) ≡ placed_by h n d }
    ensures counted { (h : HallRest O.Op O O.Reply) (w : World O.Op O.Reply) (order : List (Command O.Op)) →
        IsWorld O.rules w → ShowsWorld O.rules h w → TookEffect w order →
        length order ≡ h.summary.placed }
    ensures begins { (w : World O.Op O.Reply) (order all : List (Command O.Op)) →
        IsWorld O.rules w → TookEffect w order → IsOrder w.cluster all → IsBeginning order all }
{
    ballot_laws();
    every_world::<O>();
    clusters_rest::<O>();
}
