ghost use Rattle.std.specs.Prelude.{◌≡◌, ◌<◌, ◌≤◌, ◌^◌, ◌+◌, ℕ, true, Some, List, slice_get};
ghost use Rattle.std.specs.FinMap.{get};
ghost use Rattle.object.specs.declared.command.Answer.{Answer};
ghost use Rattle.object.specs.declared.command.Command.{Command};
ghost use Rattle.object.specs.declared.command.Key.{Key};
ghost use Rattle.object.specs.Lists.{In};
ghost use Rattle.object.specs.Keys.{KeysOnce};
ghost use Rattle.object.specs.Replays.{kept};
ghost use Rattle.object.specs.Happenings.{SubmittedOnce, IsTimeline, is_submitted};
ghost use Rattle.object.specs.Legal.{IsLegal, WasSubmitted};
ghost use Rattle.ballot.specs.Members.{is_member};
ghost use Rattle.ballot.specs.declared.letter.Letter.{Letter};
ghost use Rattle.agreement.specs.Nodes.{node};
ghost use Rattle.agreement.specs.declared.event.Event.{Event};
ghost use Rattle.agreement.specs.Worlds.{World, opening};
ghost use Rattle.agreement.specs.Steps.{Step};
ghost use Rattle.agreement.specs.Runs.{most_events, IsWorld, InEvery, AfterEach};
ghost use Rattle.agreement.specs.Showing.{HasNode, IsReceivable};
ghost use Rattle.agreement.specs.Chosen.{IsChosen};
ghost use Rattle.agreement.specs.Agreements.{HasOneCommand, KeepsChosen, DecidesChosen, ChoosesOne, StaysChosen};
ghost use Rattle.agreement.specs.OneOrder.{HasOneOrder, KeepsPromise, GoesOnFrom};
ghost use Rattle.agreement.specs.Told.{IsAnswered, IsGivenByReached};
ghost use Rattle.agreement.specs.Reached.{IsReached, HasPlaced};
ghost use Rattle.agreement.specs.Placing.{placed_after};

use ballot::ballot_laws;
use object::Object;

/// What is so of every world that events lead to, so that whoever keeps the nodes of one in another way may rely on it
/// without a `World`: it is a world to begin with and after each event (`opening`, `next`), and counts its events
/// (`counted`); its members have nodes whose boots are still to come (`nodes`, `boots`), which may receive each letter
/// that was sent (`letters`); a replica is at most at the slot after the reach, and what it knows to be decided is chosen
/// (`reach`, `decided`); and what `World::step` says of it (`one_command` and those below); what happened is one list in
/// time, no key submitted twice (`once`, `timeline`); each command that is chosen was submitted, and so was each key that
/// is answered (`chosen_known`, `answered_known`); each answer so far is one of an object that obeys what is kept of the
/// commands up to the reach (`given`), and what happened is legal for those (`legal_so_far`). Their keys go on with each
/// event: one more takes effect where a replica performs past the reach what isn't stale, and else none (`placed`); and
/// none stands twice (`placed_once`).
pub fn every_world<O: Object>()
    ensures opening { (members : List ℕ) → IsWorld O.rules (opening members) }
    ensures next { AfterEach O.rules (λ w v. w.taken < most_events → IsWorld O.rules v) }
    ensures counted { AfterEach O.rules (λ w v. v.taken ≡ w.taken + 1) }
    ensures nodes { InEvery O.rules (λ w. (n : ℕ) → is_member w.cluster.members n ≡ true →
        HasNode n w.cluster) }
    ensures boots { InEvery O.rules (λ w. (n : ℕ) → w.taken < most_events →
        (node w.cluster n).boot < 2 ^ 62) }
    ensures letters { InEvery O.rules (λ w. (i : ℕ) (l : Letter (Command O.Op)) →
        slice_get w.cluster.letters i ≡ Some l → IsReceivable w.cluster l) }
    ensures reach { InEvery O.rules (λ w. (n : ℕ) →
        (node w.cluster n).replica.slot_out ≤ w.reach + 1) }
    ensures decided { InEvery O.rules (λ w. (n s : ℕ) (c : Command O.Op) →
        get (node w.cluster n).replica.decisions s ≡ Some c → IsChosen w.cluster s c) }
    ensures one_command { InEvery O.rules (λ w. HasOneCommand w.cluster) }
    ensures keeps_chosen { InEvery O.rules (λ w. KeepsChosen w.cluster) }
    ensures decides_chosen { InEvery O.rules (λ w. DecidesChosen w.cluster) }
    ensures chooses_one { InEvery O.rules (λ w. ChoosesOne w.cluster) }
    ensures stays { AfterEach O.rules (λ w v. StaysChosen w.cluster v.cluster) }
    ensures one_order { InEvery O.rules (HasOneOrder O.rules) }
    ensures promised { InEvery O.rules (λ w. KeepsPromise O.promise w.cluster) }
    ensures once { InEvery O.rules (λ w. SubmittedOnce w.happenings.submitted) }
    ensures timeline { InEvery O.rules (λ w. IsTimeline w.happenings) }
    ensures chosen_known { InEvery O.rules (λ w. (s : ℕ) (c : Command O.Op) →
        IsChosen w.cluster s c → WasSubmitted c w.happenings.submitted) }
    ensures answered_known { InEvery O.rules (λ w. (a : Answer O.Reply) →
        In a w.happenings.answers → is_submitted a.to w.happenings.submitted ≡ true) }
    ensures given { InEvery O.rules (IsGivenByReached O.rules) }
    ensures legal_so_far { InEvery O.rules (λ w. (cs : List (Command O.Op)) →
        IsReached w cs → IsLegal O.rules w.happenings (kept cs)) }
    ensures placed { (w v : World O.Op O.Reply) (e : Event O.Op) (keys : List Key) →
        IsWorld O.rules w → Step O.rules w e v → HasPlaced w keys
        → HasPlaced v (placed_after w e keys) }
    ensures placed_once { InEvery O.rules (λ w. (keys : List Key) → HasPlaced w keys →
        KeysOnce (λ k. k) keys) }
    ensures answered { InEvery O.rules (IsAnswered O.rules) }
    ensures later { AfterEach O.rules GoesOnFrom }
{
    ballot_laws();
    O::keeps_promise();
}
