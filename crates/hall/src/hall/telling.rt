ghost use Rattle.std.specs.Prelude.{◌≡◌, None, is_some, length, map, drop, IsOk, IfOk, OnOk, OnErr};
ghost use Rattle.std.specs.Option.{option_copied};
ghost use Rattle.object.specs.Happenings.{SubmittedOnce};
ghost use Rattle.recorder.specs.Records.{commands_from};
ghost use Rattle.hall.specs.Books.{IsBooked};
ghost use Rattle.hall.specs.Explained.{IsExplained};
ghost use Rattle.hall.specs.Halls.{reply_to, to_note, chronicle_of};
ghost use Rattle.hall.specs.Tickets.{last_key, with_noted};

use super::Hall;
use crate::laws::every_hall;
use crate::ticket::Ticket;
use object::{Command, Object, Value};
use recorder::Chronicle;
use std::alloc::AllocError;

impl<O: Object> Hall<O> {
    /// The answer that was given here to the key of the ticket's last command. Where the ticket agrees with the hall, it is the
    /// answer to that command.
    pub fn take_answer(&self, ticket: &Ticket<O>) -> Option<&O::Reply>
        ensures answer { option_copied result ≡ reply_to self.now (last_key ticket.now) }
        ensures legal { IsExplained O.rules O.promise self.now.nodes.past }
    {
        every_hall::<O>();
        let key = ticket.last_key();
        self.nodes.recorder.answer_to(key)
    }

    /// Notes in the ticket a copy of the answer that was given here to the key of its last command; false where there is none,
    /// or it is noted.
    pub fn note(&self, ticket: &mut Ticket<O>) -> Result<bool, AllocError>
        ensures does { IfOk result (λ does. does ≡ is_some (to_note self.now ticket.old)) }
        ensures noted { OnOk result (ticket.new ≡ with_noted ticket.old (to_note self.now ticket.old)) }
        ensures err { OnErr result (ticket.new ≡ ticket.old) }
        ensures idle { to_note self.now ticket.old ≡ None → IsOk result }
    {
        if ticket.noted().is_some() {
            return Ok(false);
        }
        let Some(reply) = self.nodes.recorder.answer_to(ticket.last_key()) else {
            return Ok(false);
        };
        ticket.note(reply.copy()?);
        Ok(true)
    }

    /// How many commands took effect.
    pub fn placed_count(&self) -> u64
        ensures { result ≡ length self.now.nodes.past.order }
    {
        self.nodes.recorder.order().len() as u64
    }

    /// The commands that took effect, in the one order, but for so many of the first ones.
    pub fn placed_from(&self, count: u64) -> Result<Vec<Command<O::Op>>, AllocError>
        ensures commands { IfOk result (λ commands.
            commands.items ≡ commands_from count self.now.nodes.past) }
        ensures keys { map (λ c. c.key) (commands_from count self.now.nodes.past)
            ≡ drop count self.now.nodes.past.order }
    {
        self.nodes.recorder.placed_from(count as usize)
    }

    /// What happened, as a chronicle: what was submitted and answered so far, and the order of what took effect. That
    /// order explains it, no key was submitted twice, and the book counts what each session submitted.
    pub fn dump(&self) -> Result<Chronicle<O::Op, O::Reply>, AllocError>
        ensures dump { IfOk result (λ c. c ≡ chronicle_of self.now) }
        ensures legal { IsExplained O.rules O.promise self.now.nodes.past }
        ensures once { SubmittedOnce self.now.nodes.past.happenings.submitted }
        ensures booked { IsBooked self.now.book self.now.nodes.past.happenings.submitted
            self.now.nodes.taken }
    {
        every_hall::<O>();
        let (submitted, answers, order) = self.nodes.recorder.copies()?;
        let members = self.nodes.network.members();
        Ok(Chronicle::new(members, submitted, answers, order).unwrap())
    }
}
