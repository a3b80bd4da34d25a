ghost use Rattle.std.specs.Prelude.{◌≡◌};
ghost use Rattle.std.specs.Option.{option_copied};
ghost use Rattle.conversation.specs.Keeping.{Keeping, KeepsActs};

use bean_words::{Op, Reply};
use hall::Ticket;
use object::Object;

/// A session's own record of its acts and of the replies that were noted for them: of all, or of the last alone.
pub trait SessionTicket: Drop {
    ghost keeping: { Keeping Self };

    /// The number of the session.
    fn session(&self) -> u32
        ensures { result ≡ keeping.session self.now };

    /// The reply that is noted for its last act.
    fn noted(&self) -> Option<&Reply>
        ensures { option_copied result ≡ keeping.last_reply self.now };

    // It is of the acts that were handed in, with the replies that were noted.
    ghost keeps: { KeepsActs keeping };
}

impl<O: Object<Op = Op, Reply = Reply>> SessionTicket for Ticket<O> {
    ghost use Rattle.conversation.specs.Tickets.{keeping_all};
    ghost use Rattle.conversation.specs.TicketLaws.{keeps_all};

    ghost keeping = { keeping_all };

    fn session(&self) -> u32 {
        self.session()
    }

    fn noted(&self) -> Option<&Reply> {
        self.noted()
    }

    ghost keeps = { keeps_all };
}
