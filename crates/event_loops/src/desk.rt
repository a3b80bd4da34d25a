ghost use Rattle.std.specs.Prelude.{◌≡◌, ◌+◌, ◌≤◌, ℕ, List, [], Option, Result, Ok, true, length, max, IfOk, OnOk, OnErr};
ghost use Rattle.object.specs.declared.command.Act.{Act};
ghost use Rattle.object.specs.declared.command.Command.{Command};
ghost use Rattle.bean_words.specs.declared.op.Op.{Op};
ghost use Rattle.hall.specs.declared.error.HallError.{HallError};
ghost use Rattle.event_loops.specs.Courses.{AllLead, Sight};
ghost use Rattle.event_loops.specs.Sessions.{next_session, opened_then};

use bean_words::Op;
use conversation::Desk;
use hall::HallError;
use object::Command;
use std::alloc::AllocError;
use turns::Watch;

/// The desk of a hall that loops share: sessions are opened and end there, seconds pass, and the nodes take their turns.
///
/// With each call all that was seen of the hall leads to what is seen then: so the hall that a server ends with goes on from
/// the one that it began with.
pub trait LoopDesk: Desk {
    // How many commands were handed in, as far as its hall counts them.
    ghost handed_in: { Self → List ℕ };

    // How many sessions were opened.
    ghost opened: { Self → ℕ };

    // The session that the next client gets, where one is free that was opened before.
    ghost free: { Self → Option ℕ };

    // The last second of the clock.
    ghost clock: { Self → ℕ };

    // How many commands were taken for a log, and which took effect since. A desk without a log gathers none.
    ghost taken: { Self → ℕ };

    ghost placed: { Self → List (Command Op) };

    // No node has anything left to do.
    ghost is_calm: { Self → Type 0 };

    // What is seen of its hall.
    ghost shows: { Self → Sight → Type 0 };

    // That what was seen leads to what is seen later.
    ghost leads: { Sight → Sight → Type 0 };

    /// Gives a client a session: one that is free, or else the next one, which is opened. A refusal changes neither.
    fn open_session(&mut self) -> Result<Self::Ticket, HallError>
        ensures new { IfOk result (λ t. Self.Ticket.keeping.IsOf t []) }
        ensures session { IfOk result (λ t. Self.Ticket.keeping.session t
            ≡ next_session (free self.old) (opened self.old)) }
        ensures opened { OnOk result (opened self.new ≡ opened_then (free self.old) (opened self.old)) }
        ensures err { OnErr result (opened self.new ≡ opened self.old) }
        ensures none_taken { OnErr result (free self.new ≡ free self.old) }
        ensures kept { OnErr result (handed_in self.new ≡ handed_in self.old) }
        ensures goes_on { AllLead leads (shows self.old) (shows self.new) };

    /// A ticket's session hands in nothing more under it. Another client may have the session later.
    fn see_off(&mut self, ticket: &Self::Ticket)
        ensures kept { handed_in self.new ≡ handed_in self.old }
        ensures goes_on { AllLead leads (shows self.old) (shows self.new) };

    /// What is handed in next is handed in at this node.
    fn stand_at(&mut self, node: u8)
        ensures kept { handed_in self.new ≡ handed_in self.old }
        ensures goes_on { AllLead leads (shows self.old) (shows self.new) };

    /// How many nodes there are.
    fn node_count(&self) -> u8;

    /// The last second of the clock that was handed in.
    fn last_second(&self) -> u64
        ensures { result ≡ clock self.now };

    /// Hands in that this second of the clock has come, at a node. The clock goes no further than there, and never back.
    fn tick(&mut self, second: u64, node: u8)
        ensures within { clock self.new ≤ max (clock self.old) second }
        ensures later { clock self.old ≤ clock self.new }
        ensures goes_on { AllLead leads (shows self.old) (shows self.new) };

    /// One turn of a node, which takes note of a round.
    fn take_turn(&mut self, watch: &mut Watch, round: u64)
        ensures kept { handed_in self.new ≡ handed_in self.old }
        ensures goes_on { AllLead leads (shows self.old) (shows self.new) };

    /// Takes the nodes' turns, from this one on, until none has anything to do. Answers false where something is left.
    fn settle(&mut self, first: u8) -> Result<bool, HallError>
        ensures calm { result ≡ Ok true → is_calm self.new }
        ensures kept { handed_in self.new ≡ handed_in self.old }
        ensures goes_on { AllLead leads (shows self.old) (shows self.new) };

    /// Hands in again what a session waits for, at a node, and nothing new.
    fn hand_in_again(&mut self, ticket: &Self::Ticket, node: u8)
        ensures kept { handed_in self.new ≡ handed_in self.old }
        ensures goes_on { AllLead leads (shows self.old) (shows self.new) };

    /// The next session that was answered, of those of which this wasn't told yet. Where there was no memory to note one, a loop
    /// finds its answer at the next second.
    fn next_answered(&mut self) -> Option<u32>
        ensures kept { handed_in self.new ≡ handed_in self.old }
        ensures goes_on { AllLead leads (shows self.old) (shows self.new) };

    /// How many commands took effect, of those that a log is to have: which were taken, and which were since. It counts all of
    /// them.
    fn placed_count(&self) -> u64
        ensures least { taken self.now + length (placed self.now) ≤ result };

    /// Takes the commands that took effect since this was called last, in the one order.
    fn take_placed(&mut self) -> Result<Vec<Command<Op>>, AllocError>
        ensures placed { IfOk result (λ commands. commands.items ≡ placed self.old) }
        ensures left { OnOk result (placed self.new ≡ []) }
        ensures taken { OnOk result (taken self.new ≡ taken self.old + length (placed self.old)) }
        ensures err { OnErr result ((placed self.new ≡ placed self.old) × (taken self.new ≡ taken self.old)) }
        ensures kept { handed_in self.new ≡ handed_in self.old }
        ensures goes_on { AllLead leads (shows self.old) (shows self.new) };

    // What is seen leads to itself, and on from where it has led to.
    ghost stays: { (s : Sight) → leads s s };

    ghost further: { (a b c : Sight) → leads a b → leads b c → leads a c };

    // So does what a session hands in.
    ghost submits_on: { (old new : Self) (ticket : Self.Ticket) (act : Act Op) (result : Result Unit HallError)
        → Self.submits old ticket act result new → AllLead leads (shows old) (shows new) };
}
