ghost use Rattle.std.specs.Prelude.{◌≡◌, ◌<◌, ◌≤◌, ◌+◌, ℕ, Bool, Some, None, Result, Err, OnOk};
ghost use Rattle.object.specs.declared.command.Act.{Act};
ghost use Rattle.object.specs.declared.command.Command.{Command};
ghost use Rattle.ballot.specs.Rests.{rest_of_body};
ghost use Rattle.ballot.specs.declared.letter.Letter.{Letter};
ghost use Rattle.ballot.specs.declared.letter.LetterBody.{LetterBody};
ghost use Rattle.node.specs.declared.deed.Deed.{Deed};
ghost use Rattle.node.specs.declared.deed.Deed.TheVariants.{Request};
ghost use Rattle.node.specs.declared.deed.Outcome.{Outcome};
ghost use Rattle.network.specs.Networks.{front};
ghost use Rattle.lean_network.specs.LeanNetworks.{lean_mail_of};
ghost use Rattle.lean_network.specs.declared.receipt.Receipt.{Receipt};
ghost use Rattle.agreement.specs.Events.{event_of};
ghost use Rattle.agreement.specs.declared.event.Event.TheVariants.{Submit};
ghost use Rattle.hall.specs.declared.error.HallError.{HallError};
ghost use Rattle.hall.specs.declared.error.HallError.TheVariants.{BadNumber};
ghost use Rattle.hall.specs.Halls.{tick_of};
ghost use Rattle.hall.specs.Refusals.{Refuses, RefusesOrIdles};
ghost use Rattle.forgetting_hall.specs.Calls.{TakesIn, IsNoEvent};
ghost use Rattle.forgetting_hall.specs.Halls.{ForgettingState, FollowsIn, FollowsLeft, ShowsStill, rest_of_hall};
ghost use Rattle.forgetting_hall.specs.Handing.{last_of, next_of, second_of};
ghost use Rattle.forgetting_hall.specs.Leading.{LeadsOn};
ghost use Rattle.forgetting_hall.specs.Refusing.{refusal_of_event, refusal_of_keyed, refusal_of_node, refusal_of_resubmit, refusal_of_submit, refusal_of_tick};
ghost use Rattle.forgetting_hall.specs.Rests.{IsReceivedRest, acted_rest, done_rest, forgotten_rest, let_go_rest, lost_rest, opened_as, opened_rest, repeated_rest};

use agreement::every_world;
use object::Object;

/// A hall leads on from each call to the next, also from one that is refused: nothing done keeps it (`stays`), as does one
/// call after another (`further`), and what is gathered or taken is no part of it (`gathers`). The other clauses are of a call
/// each, from what that call ensures.
pub fn leads_on<O: Object>()
    ensures stays { (h : ForgettingState O.Op O O.Reply) → LeadsOn O.rules h h }
    ensures further { (a b c : ForgettingState O.Op O O.Reply) →
        LeadsOn O.rules a b → LeadsOn O.rules b c → LeadsOn O.rules a c }
    ensures gathers { (h z : ForgettingState O.Op O O.Reply) →
        rest_of_hall O.rules z ≡ rest_of_hall O.rules h → LeadsOn O.rules h z }
    ensures submits { (h z : ForgettingState O.Op O O.Reply) (session : ℕ) (act : Act O.Op) (n : ℕ)
        (result : Result Unit HallError) →
        TakesIn O.rules n (next_of h session act) (refusal_of_submit h session act n) result h z →
        LeadsOn O.rules h z }
    ensures ticks { (h z : ForgettingState O.Op O O.Reply) (n : ℕ)
        (result : Result Unit HallError) →
        TakesIn O.rules n (tick_of (second_of h + 1)) (refusal_of_tick h n) result h z →
        LeadsOn O.rules h z }
    ensures hands_in { (h z : ForgettingState O.Op O O.Reply) (c : Command O.Op) (n : ℕ)
        (result : Result Unit HallError) →
        TakesIn O.rules n c (refusal_of_keyed h c.key n) result h z → LeadsOn O.rules h z }
    ensures resubmits { (h z : ForgettingState O.Op O O.Reply) (session n : ℕ)
        (result : Result Unit HallError) →
        OnOk result ((c : Command O.Op) → last_of h session ≡ Some c →
        rest_of_hall O.rules z ≡ acted_rest O.rules (rest_of_hall O.rules h) n (Request c)) →
        OnOk result ((c : Command O.Op) → last_of h session ≡ Some c →
        FollowsIn O.rules h (Submit n c) z) →
        RefusesOrIdles (refusal_of_resubmit h session n) (last_of h session ≡ None) result h z →
        LeadsOn O.rules h z }
    ensures acts { (h z : ForgettingState O.Op O O.Reply) (n : ℕ) (d : Deed O.Op)
        (result : Result Outcome HallError) →
        OnOk result (rest_of_hall O.rules z ≡ done_rest O.rules (rest_of_hall O.rules h) n d) →
        OnOk result (FollowsIn O.rules h (event_of n d) z) →
        Refuses (refusal_of_event h n) result h z → LeadsOn O.rules h z }
    ensures receives { (h z : ForgettingState O.Op O O.Reply) (n : ℕ)
        (result : Result Receipt HallError) →
        OnOk result ((l : Letter (Command O.Op)) (left : LetterBody (Command O.Op))
        → front (lean_mail_of h.network n) ≡ Some l → rest_of_body h.base l.body ≡ Some left
        → IsReceivedRest (rest_of_hall O.rules h) n l left (rest_of_hall O.rules z)) →
        OnOk result ((l : Letter (Command O.Op)) (left : LetterBody (Command O.Op))
        → front (lean_mail_of h.network n) ≡ Some l → rest_of_body h.base l.body ≡ Some left
        → FollowsLeft O.rules h n l left z) →
        OnOk result ((l : Letter (Command O.Op)) → front (lean_mail_of h.network n) ≡ Some l
        → rest_of_body h.base l.body ≡ None
        → rest_of_hall O.rules z ≡ lost_rest (rest_of_hall O.rules h) n) →
        OnOk result ((l : Letter (Command O.Op)) → front (lean_mail_of h.network n) ≡ Some l
        → rest_of_body h.base l.body ≡ None → ShowsStill O.rules h z) →
        RefusesOrIdles (refusal_of_event h n) (front (lean_mail_of h.network n) ≡ None) result h z →
        LeadsOn O.rules h z }
    ensures loses { (h z : ForgettingState O.Op O O.Reply) (n : ℕ)
        (result : Result Bool HallError) →
        IsNoEvent O.rules (lost_rest (rest_of_hall O.rules h) n) result h z → LeadsOn O.rules h z }
    ensures repeats { (h z : ForgettingState O.Op O O.Reply) (n : ℕ)
        (result : Result Bool HallError) →
        OnOk result ((l : Letter (Command O.Op)) → front (lean_mail_of h.network n) ≡ Some l
        → rest_of_hall O.rules z ≡ repeated_rest (rest_of_hall O.rules h) n l) →
        ShowsStill O.rules h z →
        RefusesOrIdles (refusal_of_node h n) (front (lean_mail_of h.network n) ≡ None) result h z →
        LeadsOn O.rules h z }
    ensures forgets { (h z : ForgettingState O.Op O O.Reply) →
        rest_of_hall O.rules z ≡ forgotten_rest (rest_of_hall O.rules h) z.base →
        ShowsStill O.rules h z → LeadsOn O.rules h z }
    ensures opens { (h z : ForgettingState O.Op O O.Reply) (result : Result ℕ HallError) →
        IsNoEvent O.rules (opened_rest (rest_of_hall O.rules h)) result h z → LeadsOn O.rules h z }
    ensures opens_as { (h z : ForgettingState O.Op O O.Reply) (session : ℕ)
        (result : Result Unit HallError) →
        IsNoEvent O.rules (opened_as (rest_of_hall O.rules h) session) result h z →
        (session ≤ h.opened → result ≡ Err BadNumber) → LeadsOn O.rules h z }
    ensures lets_go { (h z : ForgettingState O.Op O O.Reply) (session : ℕ) → 0 < session →
        rest_of_hall O.rules z ≡ let_go_rest (rest_of_hall O.rules h) session →
        ShowsStill O.rules h z → LeadsOn O.rules h z }
{
    every_world::<O>();
}
