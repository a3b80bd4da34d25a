ghost use Rattle.std.specs.Prelude.{◌≡◌, ◌<◌, ℕ, List, true, Some};
ghost use Rattle.object.specs.declared.command.Answer.{Answer};
ghost use Rattle.object.specs.declared.command.Command.{Command};
ghost use Rattle.object.specs.declared.command.Key.{Key};
ghost use Rattle.object.specs.Lists.{In};
ghost use Rattle.object.specs.Happenings.{is_submitted};
ghost use Rattle.ballot.specs.Members.{is_member};
ghost use Rattle.ballot.specs.declared.letter.Letter.{Letter};
ghost use Rattle.node.specs.Deeds.{outcome_of, IsAble};
ghost use Rattle.node.specs.Outcomes.{key_placed};
ghost use Rattle.node.specs.Receiving.{IsFit};
ghost use Rattle.node.specs.declared.deed.Deed.{Deed};
ghost use Rattle.network.specs.Networks.{node_of, mail_of, front, turn_of};
ghost use Rattle.agreement.specs.Runs.{most_events};
ghost use Rattle.agreement.specs.Steps.{IsItsOwn};
ghost use Rattle.agreement.specs.Events.{event_of};
ghost use Rattle.agreement.specs.declared.event.Event.{Event};
ghost use Rattle.agreement.specs.declared.event.Event.TheVariants.{Submit};
ghost use Rattle.hall.specs.Recorded.{RecordedState, untouched, asked, done, HasReceived, without_front_letter, repeated, IsOwnDeed};
ghost use Rattle.hall.specs.Shows.{IsShown, Follows, FollowsDelivery, ShowsOn};
ghost use Rattle.hall.specs.Explained.{IsExplained, IsBegun};
ghost use Rattle.hall.specs.HallLaws.{HallLaws};

use agreement::every_world;
use node::deeds_are_shown;
use object::Object;
use recorder::firsts_of_firsts;

/// What is so of all recorded nodes that show a world which events lead to. Untouched ones do (`untouched`). Where a node
/// is asked for a command, does something by itself or receives the letter in front of its mail, the event of that name
/// follows (`asks`, `acts`, `receives`); a letter that is lost or repeated is no event (`loses`, `repeats`). A world is
/// shown then, too (`next`, `delivered`, `still`), and nothing is taken back (`asked_on`, `acted_on`). A node may do by
/// itself what it is to do, and receive what is in its mail (`able`, `fit`); what it answers, and what it performs past
/// the reach, was submitted (`answered`, `placed`). And one order explains what happened (`explained`).
pub fn every_hall<O: Object>()
    ensures untouched { (members : List ℕ) → IsShown O.rules (untouched members) }
    ensures asks { (k : RecordedState O.Op O.Reply) (n : ℕ) (c : Command O.Op)
        → is_member k.network.members n ≡ true → IsItsOwn c k.past.happenings.submitted
        → Follows O.rules k (Submit n c) (asked O.rules k n c) }
    ensures acts { (k : RecordedState O.Op O.Reply) (n : ℕ) (d : Deed O.Op)
        → is_member k.network.members n ≡ true → k.taken < most_events → IsOwnDeed d
        → Follows O.rules k (event_of n d) (done O.rules k n d) }
    ensures receives { (k z : RecordedState O.Op O.Reply) (n : ℕ) (l : Letter (Command O.Op))
        → is_member k.network.members n ≡ true → front (mail_of k.network n) ≡ Some l
        → HasReceived k n l z → FollowsDelivery O.rules k l z }
    ensures loses { (k : RecordedState O.Op O.Reply) (n : ℕ) → ShowsOn k (without_front_letter k n) }
    ensures repeats { (k : RecordedState O.Op O.Reply) (n : ℕ) (l : Letter (Command O.Op))
        → front (mail_of k.network n) ≡ Some l → ShowsOn k (repeated k n l) }
    ensures next { (k z : RecordedState O.Op O.Reply) (e : Event O.Op)
        → Follows O.rules k e z → k.taken < most_events
        → IsShown O.rules k → IsShown O.rules z }
    ensures delivered { (k z : RecordedState O.Op O.Reply) (l : Letter (Command O.Op))
        → FollowsDelivery O.rules k l z → k.taken < most_events
        → IsShown O.rules k → IsShown O.rules z }
    ensures still { (k z : RecordedState O.Op O.Reply)
        → ShowsOn k z → IsShown O.rules k → IsShown O.rules z }
    ensures asked_on { (k : RecordedState O.Op O.Reply) (n : ℕ) (c : Command O.Op)
        → IsBegun k.past (asked O.rules k n c).past }
    ensures acted_on { (k : RecordedState O.Op O.Reply) (n : ℕ) (d : Deed O.Op)
        → IsShown O.rules k → IsBegun k.past (done O.rules k n d).past }
    ensures able { (k : RecordedState O.Op O.Reply) (n : ℕ) (d : Deed O.Op)
        → IsShown O.rules k → is_member k.network.members n ≡ true → k.taken < most_events
        → IsAble (node_of k.network n) d }
    ensures fit { (k : RecordedState O.Op O.Reply) (n : ℕ) (l : Letter (Command O.Op))
        → IsShown O.rules k → is_member k.network.members n ≡ true
        → front (mail_of k.network n) ≡ Some l → IsFit (node_of k.network n) l.body }
    ensures answered { (k : RecordedState O.Op O.Reply) (n : ℕ) (d : Deed O.Op)
        → IsShown O.rules k → is_member k.network.members n ≡ true → k.taken < most_events
        → IsOwnDeed d → (a : Answer O.Reply) → In a (turn_of O.rules k.network n d).answers
        → is_submitted a.to k.past.happenings.submitted ≡ true }
    ensures placed { (k : RecordedState O.Op O.Reply) (n : ℕ) (d : Deed O.Op)
        → IsShown O.rules k → is_member k.network.members n ≡ true → k.taken < most_events
        → IsOwnDeed d → (key : Key)
        → key_placed k.reach (outcome_of (node_of k.network n) d) ≡ Some key
        → is_submitted key k.past.happenings.submitted ≡ true }
    ensures explained { (k : RecordedState O.Op O.Reply)
        → IsShown O.rules k → IsExplained O.rules O.promise k.past }
{
    laws_below::<O>();
    O::keeps_promise();
}

/// The laws of the layers below on which a hall rests.
pub(crate) fn laws_below<O: Object>()
    ensures { HallLaws O.rules }
{
    every_world::<O>();
    deeds_are_shown::<O>();
    firsts_of_firsts::<O::Reply>();
}
