ghost use Rattle.std.specs.Prelude.{◌≡◌, ◌<◌, ◌≤◌, true, false, None, Err, length, IfOk};
ghost use Rattle.session.specs.Serving.{longest_piece};
ghost use Rattle.conversation.specs.declared.stage.Stage.TheVariants.{Looking, Leaving};
ghost use Rattle.conversation.specs.declared.link.Pause.TheVariants.{Later, Failed};
ghost use Rattle.conversation.specs.Talks.{HasSent, Looks, ending, leaving, wants_piece};
ghost use Rattle.conversation.specs.Desks.{HandsIn, Notes};
ghost use Rattle.conversation.specs.Links.{ConversesOver};

use crate::conversation::Conversation;
use crate::desk::Desk;
use crate::link::{Link, Pause};
use crate::session_ticket::SessionTicket;
use hall::HallError;
use std::alloc::AllocError;
use std::marker::Model;

/// A client at the other end of a link, and its conversation: what was given to the link, and then what waits to be written,
/// is what is told for what was taken of it.
#[derive(Drop)]
pub struct Client<L: Link, T: SessionTicket> {
    link: L,
    conversation: Conversation<T>,
}

impl<L: Link, T: SessionTicket> Model for Client<L, T> {
    ghost use Rattle.conversation.specs.Talks.{ConversationState};
    ghost use Rattle.conversation.specs.Links.{ConversesOver};

    ghost Value = { ConversationState T };

    ghost view = { λ c. c.conversation };

    ghost invariant = { λ c. ConversesOver T.keeping (L.taken c.link) (L.given c.link) c.conversation };
}

impl<L: Link, T: SessionTicket> Client<L, T> {
    /// A conversation over a link.
    pub fn new(link: L, conversation: Conversation<T>) -> Client<L, T>
        requires { ConversesOver T.keeping (L.taken link) (L.given link) conversation }
        ensures { result ≡ conversation }
    {
        Client { link, conversation }
    }

    /// Its link and its conversation.
    pub fn into_parts(self) -> (L, Conversation<T>)
        ensures talk { result.1 ≡ self }
        ensures converses { ConversesOver T.keeping (L.taken result.0) (L.given result.0) result.1 }
    {
        (self.link, self.conversation)
    }

    /// Its link.
    pub fn link(&self) -> &L
        ensures { ConversesOver T.keeping (L.taken result.now) (L.given result.now) self.now }
    {
        &self.link
    }

    /// Its conversation.
    pub fn conversation(&self) -> &Conversation<T>
        ensures { result.now ≡ self.now }
    {
        &self.conversation
    }

    /// Reads a piece of the client's bytes, where one is wanted, and says how many bytes it has; none where the input has ended.
    /// Where the link has failed, or memory is refused for the piece, the client is given up.
    pub fn read(&mut self, piece: &mut [u8]) -> Result<usize, Pause>
        requires some { 0 < length piece.old }
        requires few { length piece.old ≤ longest_piece }
        ensures idle { wants_piece self.old ≡ false → (result ≡ Ok 0) × (self.new ≡ self.old) }
        ensures fed { wants_piece self.old ≡ true →
            IfOk result (λ n. 0 < n → self.new.stage ≡ Looking) }
        ensures ended { wants_piece self.old ≡ true → IfOk result (λ n. n ≡ 0 → self.new ≡ ending self.old) }
        ensures later { result ≡ Err Later → self.new ≡ self.old }
        ensures failed { result ≡ Err Failed → self.new.stage ≡ Leaving None }
        ensures profile { self.new.session.profile ≡ self.old.session.profile }
        ensures ticket { self.new.ticket ≡ self.old.ticket }
    {
        if !self.conversation.wants_piece() {
            return Ok(0);
        }
        match self.link.read(piece) {
            Ok(0) => {
                self.conversation.end_input();
                Ok(0)
            }
            Ok(n) => match self.conversation.feed(&piece[..n]) {
                Ok(()) => Ok(n),
                Err(_) => Err(Pause::Failed),
            },
            Err(Pause::Later) => Err(Pause::Later),
            Err(Pause::Failed) => {
                self.conversation.leave();
                Err(Pause::Failed)
            }
        }
    }

    /// Writes what the link takes of what waits to be written, and says how many bytes. Where the link has failed, the client
    /// has gone.
    pub fn write(&mut self) -> Result<usize, Pause>
        ensures sent { IfOk result (λ n. HasSent n self.old self.new) }
        ensures later { result ≡ Err Later → self.new ≡ self.old }
        ensures failed { result ≡ Err Failed → self.new ≡ leaving self.old }
    {
        match self.link.write(self.conversation.unsent()) {
            Ok(n) => {
                self.conversation.sent(n);
                Ok(n)
            }
            Err(Pause::Later) => Err(Pause::Later),
            Err(Pause::Failed) => {
                self.conversation.leave();
                Err(Pause::Failed)
            }
        }
    }

    /// The client has gone.
    pub fn leave(&mut self)
        ensures { self.new ≡ leaving self.old }
    {
        self.conversation.leave();
    }

    /// Looks for the next request.
    pub fn look(&mut self) -> Result<(), AllocError>
        ensures { Looks self.old self.new result }
    {
        self.conversation.look()
    }

    /// Hands in at a desk what is to be handed in.
    pub fn hand_in<D: Desk<Ticket = T>>(&mut self, desk: &mut D) -> Result<(), HallError>
        ensures { HandsIn T.keeping D.submits desk.old desk.new self.old self.new result }
    {
        self.conversation.hand_in(desk)
    }

    /// Notes the answer to what was handed in, where it is there, and tells it.
    pub fn note<D: Desk<Ticket = T>>(&mut self, desk: &D) -> Result<bool, AllocError>
        ensures { Notes T.keeping (D.to_note desk.now self.old.ticket) self.old self.new result }
    {
        self.conversation.note(desk)
    }
}
