ghost use Rattle.std.specs.Prelude.{◌≡◌, Option, Result, is_some, IfOk, OnOk, OnErr};
ghost use Rattle.object.specs.declared.command.Act.{Act};
ghost use Rattle.bean_words.specs.declared.op.Op.{Op};
ghost use Rattle.bean_words.specs.declared.reply.Reply.{Reply};
ghost use Rattle.hall.specs.declared.error.HallError.{HallError};

use crate::session_ticket::SessionTicket;
use bean_words::Op;
use hall::HallError;
use object::Act;
use std::alloc::AllocError;

/// Where sessions hand in, and where answers are looked up: a hall under its lock.
pub trait Desk {
    /// What a session keeps of its acts.
    type Ticket: SessionTicket;

    // It before, the ticket, the act that its session submits next, the result, and it after.
    ghost submits: { Self → Self.Ticket → Act Op → Result Unit HallError → Self → Type 0 };

    // The reply that is there to be noted in a ticket.
    ghost to_note: { Self → Self.Ticket → Option Reply };

    /// The ticket's session hands in its next act.
    fn submit(&mut self, ticket: &mut Self::Ticket, act: Act<Op>) -> Result<(), HallError>
        ensures submitted { submits self.old ticket.old act result self.new }
        ensures ok { OnOk result (ticket.new ≡ Self.Ticket.keeping.with_act ticket.old act) }
        ensures kept { OnErr result (ticket.new ≡ ticket.old) };

    /// Notes the reply that is there in the ticket; false where there is none.
    fn note(&self, ticket: &mut Self::Ticket) -> Result<bool, AllocError>
        ensures does { IfOk result (λ does. does ≡ is_some (to_note self.now ticket.old)) }
        ensures noted { OnOk result (ticket.new
            ≡ Self.Ticket.keeping.with_noted ticket.old (to_note self.now ticket.old)) }
        ensures err { OnErr result (ticket.new ≡ ticket.old) };
}
