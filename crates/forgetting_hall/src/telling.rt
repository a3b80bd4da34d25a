ghost use Rattle.std.specs.Prelude.{◌≡◌, ◌++◌, ◌<◌, ℕ, List, [], length, true};
ghost use Rattle.object.specs.declared.command.Command.{Command};
ghost use Rattle.ballot.specs.Members.{is_member};
ghost use Rattle.ballot.specs.declared.letter.Letter.{Letter};
ghost use Rattle.ballot.specs.declared.letter.LetterBody.{LetterBody};
ghost use Rattle.node.specs.declared.deed.Deed.{Deed};
ghost use Rattle.agreement.specs.Events.{event_of};
ghost use Rattle.agreement.specs.Runs.{most_events};
ghost use Rattle.agreement.specs.declared.event.Event.TheVariants.{Submit};
ghost use Rattle.forgetting_hall.specs.Effects.{placed_by};
ghost use Rattle.forgetting_hall.specs.Gathered.{gathered};
ghost use Rattle.forgetting_hall.specs.Halls.{ForgettingState, FollowsIn, FollowsLeft, ShowsStill, new_forgetting, rest_of_hall};
ghost use Rattle.forgetting_hall.specs.Rests.{IsGoingOn};
ghost use Rattle.forgetting_hall.specs.Telling.{HasTold, TellsOn};

use crate::halls::halls_rest;
use crate::order::effects_in_order;
use agreement::every_world;
use object::Object;

/// What a hall that gathers has told is what took effect, in the one order, and nothing else: at first nothing
/// (`opening`); a call that is no event tells nothing (`stays`), nor does one that hands in (`submits`) or receives
/// (`receives`); what takes effect as a node does something is gathered (`acts`), and told when it is taken (`takes`).
/// The hall counts as many as took effect (`counted`), and has the members that it had at first.
pub fn tells_in_order<O: Object>()
    ensures opening { (members : List ℕ) → HasTold O.rules members (record (new_forgetting O.rules members)
        { gathering = record { is_on = true; commands = [] } }) [] }
    ensures stays { (h z : ForgettingState O.Op O O.Reply) → ShowsStill O.rules h z
        → z.gathering ≡ h.gathering → TellsOn O.rules h z }
    ensures submits { (h z : ForgettingState O.Op O O.Reply) (n : ℕ) (c : Command O.Op) → h.taken < most_events
        → FollowsIn O.rules h (Submit n c) z → z.gathering ≡ h.gathering → TellsOn O.rules h z }
    ensures acts { (h z : ForgettingState O.Op O O.Reply) (n : ℕ) (d : Deed O.Op) → h.taken < most_events
        → is_member h.network.members n ≡ true → IsGoingOn d → FollowsIn O.rules h (event_of n d) z
        → z.gathering ≡ gathered (placed_by (rest_of_hall O.rules h) n d) h.gathering → TellsOn O.rules h z }
    ensures receives { (h z : ForgettingState O.Op O O.Reply) (n : ℕ) (l : Letter (Command O.Op))
        (left : LetterBody (Command O.Op)) → h.taken < most_events → FollowsLeft O.rules h n l left z
        → z.gathering ≡ h.gathering → TellsOn O.rules h z }
    ensures takes { (h : ForgettingState O.Op O O.Reply) (members : List ℕ) (told : List (Command O.Op))
        → HasTold O.rules members h told
        → HasTold O.rules members (record h { gathering = record h.gathering { commands = [] } })
        (told ++ h.gathering.commands) }
    ensures counted { (h : ForgettingState O.Op O O.Reply) (members : List ℕ) (told : List (Command O.Op))
        → HasTold O.rules members h told → h.summary.placed ≡ length (told ++ h.gathering.commands) }
{
    every_world::<O>();
    halls_rest::<O>();
    effects_in_order::<O>();
}
