ghost use Rattle.std.specs.Prelude.{◌≡◌, ◌++◌, ◌∷◌, [], ℕ, Some, None, Option, Result, OnOk, OnErr};
ghost use Rattle.object.specs.declared.command.Act.{Act};
ghost use Rattle.node.specs.declared.deed.Deed.{Deed};
ghost use Rattle.hall.specs.declared.error.HallError.{HallError};
ghost use Rattle.hall.specs.declared.ticket.NotedAct.{NotedAct};
ghost use Rattle.hall.specs.Acting.{Acts};
ghost use Rattle.hall.specs.Books.{IsNextKey};
ghost use Rattle.hall.specs.Explained.{IsBegun};
ghost use Rattle.hall.specs.Halls.{HallState, after_submit, after_tick, with_nodes};
ghost use Rattle.hall.specs.Recorded.{asked};
ghost use Rattle.hall.specs.Refusals.{Refuses, RefusesOrIdles};
ghost use Rattle.hall.specs.Tickets.{TicketState, last_command, last_noted, next_command, next_key};
ghost use Rattle.turns.specs.Going.{HallGoesOn};

use object::Object;

/// A hall goes on from each call to the next, also from one that is refused: nothing done keeps it (`stays`), as does one call
/// after another (`further`). The other clauses are of a call each, from what that call ensures.
pub fn halls_go_on<O: Object>()
    ensures stays { (h : HallState O.Op O.Reply) → HallGoesOn h h }
    ensures further { (a b c : HallState O.Op O.Reply) →
        HallGoesOn a b → HallGoesOn b c → HallGoesOn a c }
    ensures submits { (h z : HallState O.Op O.Reply) (t : TicketState O.Op O.Reply) (act : Act O.Op)
        (n : ℕ) (reason : Option HallError) (result : Result Unit HallError) →
        OnOk result (z ≡ after_submit O.rules h n (next_command t act)) →
        OnOk result (IsNextKey h.book (next_key t)) → IsBegun h.nodes.past z.nodes.past →
        Refuses reason result h z → HallGoesOn h z }
    ensures resubmits { (h z : HallState O.Op O.Reply) (t : TicketState O.Op O.Reply) (n : ℕ)
        (reason : Option HallError) (result : Result Unit HallError) →
        OnOk result ((noted : NotedAct O.Op O.Reply) → last_noted t ≡ Some noted →
        z ≡ with_nodes h (asked O.rules h.nodes n (last_command t noted.act))) →
        z.nodes.past ≡ h.nodes.past →
        RefusesOrIdles reason (last_noted t ≡ None) result h z → HallGoesOn h z }
    ensures ticks { (h z : HallState O.Op O.Reply) (second n : ℕ)
        (reason : Option HallError) (result : Result Unit HallError) →
        OnOk result (z ≡ after_tick O.rules h n second) → IsBegun h.nodes.past z.nodes.past →
        Refuses reason result h z → HallGoesOn h z }
    ensures acts { (h z : HallState O.Op O.Reply) (n : ℕ) (d : Deed O.Op)
        (result : Result Unit HallError) → Acts O.rules n d h z result → HallGoesOn h z }
    ensures opens { (h z : HallState O.Op O.Reply)
        (result : Result (TicketState O.Op O.Reply) HallError) →
        OnOk result (z ≡ record h { book = h.book ++ (0 ∷ []) }) →
        OnErr result (z ≡ h) → HallGoesOn h z }
{}
