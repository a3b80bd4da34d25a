ghost use Rattle.std.specs.Prelude.{◌≡◌, ◌≤◌, ◌++◌, ℕ, List, [], true, None, length, take, drop, OnOk, OnErr, IfErr};
ghost use Rattle.object.specs.declared.command.Act.TheVariants.{Do, Close};
ghost use Rattle.session.specs.Serving.{longest_piece};
ghost use Rattle.conversation.specs.declared.stage.Stage.TheVariants.{Looking, Found, Leaving};
ghost use Rattle.conversation.specs.Talks.{HasSent, IsConversation, Looks, ending, first_talk, has_room, leaving, may_look, stage_after, wants_piece};
ghost use Rattle.conversation.specs.Conversing.{Converses, CarriesOn};
ghost use Rattle.conversation.specs.Desks.{AsksOp, HandsIn, Notes, closing};

use crate::desk::Desk;
use crate::session_ticket::SessionTicket;
use crate::stage::Stage;
use bean_codec::{Profile, Request};
use bean_words::Op;
use hall::HallError;
use object::Act;
use session::{End, Session};
use std::alloc::{AllocError, Global};
use std::marker::Model;
use std::mem::replace;

/// The most bytes of a piece.
pub const LONGEST_PIECE: usize = 4096;

/// While more bytes than these wait to be written, no request is looked for and no piece is wanted.
pub const LONGEST_UNSENT: usize = 65_536;

/// One client's conversation with its session, which does no IO and waits for nobody.
///
/// Pieces of the client's bytes are fed where they are wanted, and the next request is looked for where none is open. What is
/// found is handed in at a desk, and its answer is told once it is noted. What the client is to be told gathers until it is
/// sent. Once it has quit, or its input has ended, or it has gone, the session's end is handed in.
#[derive(Drop)]
pub struct Conversation<T: SessionTicket> {
    session: Session,
    ticket: T,
    stage: Stage,
    has_ended: bool,
}

impl<T: SessionTicket> Model for Conversation<T> {
    ghost use Rattle.conversation.specs.Talks.{ConversationState, IsConversation};

    ghost Value = { ConversationState T };

    ghost view = { λ c. record { session = c.session; ticket = c.ticket; stage = c.stage; has_ended = c.has_ended } };

    ghost invariant = { λ c. IsConversation (record { session = c.session; ticket = c.ticket; stage = c.stage; has_ended = c.has_ended }) };
}

impl<T: SessionTicket> Conversation<T> {
    /// The conversation of a session of the plain profile that has handed in nothing.
    pub fn new(alloc: Global, ticket: T) -> Conversation<T>
        requires { T.keeping.IsOf ticket [] }
        ensures first { result ≡ first_talk Profile.Plain ticket }
        ensures begins { Converses T.keeping [] [] result }
    {
        Conversation::speaking(Profile::Plain, alloc, ticket)
    }

    /// The conversation of a session of this profile that has handed in nothing.
    pub fn speaking(profile: Profile, alloc: Global, ticket: T) -> Conversation<T>
        requires { T.keeping.IsOf ticket [] }
        ensures first { result ≡ first_talk profile ticket }
        ensures begins { Converses T.keeping [] [] result }
    {
        Conversation {
            session: Session::speaking(profile, alloc),
            ticket,
            stage: Stage::Looking,
            has_ended: false,
        }
    }

    /// Where it stands.
    pub fn stage(&self) -> &Stage
        ensures stage { result.now ≡ self.now.stage }
        ensures bounded { IsConversation self.now }
    {
        &self.stage
    }

    /// What its session handed in, and which replies were noted for it.
    pub fn ticket(&self) -> &T
        ensures { result.now ≡ self.now.ticket }
    {
        &self.ticket
    }

    /// Gives its ticket up.
    pub fn into_ticket(self) -> T
        ensures { result ≡ self.ticket }
    {
        self.ticket
    }

    /// The next piece may be fed.
    pub fn wants_piece(&self) -> bool
        ensures { result ≡ wants_piece self.now }
    {
        matches!(self.stage, Stage::Reading) && self.has_room()
    }

    // So little waits to be written that it goes on.
    fn has_room(&self) -> bool
        ensures { result ≡ has_room self.now }
    {
        self.session.unsent().len() <= LONGEST_UNSENT
    }

    /// The next bytes of the client, where a piece is wanted. Where memory is refused for them the client is given up.
    pub fn feed(&mut self, piece: &[u8]) -> Result<(), AllocError>
        requires wanted { wants_piece self.old ≡ true }
        requires few { length piece.now ≤ longest_piece }
        ensures goes { (fed given : List ℕ) → Converses T.keeping fed given self.old
            → Converses T.keeping (fed ++ piece.now) given self.new }
        ensures ok { OnOk result (self.new.stage ≡ Looking) }
        ensures err { OnErr result (self.new.stage ≡ Leaving None) }
        ensures profile { self.new.session.profile ≡ self.old.session.profile }
        ensures ticket { self.new.ticket ≡ self.old.ticket }
        ensures ended { self.new.has_ended ≡ self.old.has_ended }
    {
        match self.session.feed(piece) {
            Ok(()) => {
                self.stage.go_to(Stage::Looking);
                Ok(())
            }
            Err(e) => {
                self.stage.go_to(Stage::Leaving(None));
                Err(e)
            }
        }
    }

    /// The client sends nothing more.
    pub fn end_input(&mut self)
        ensures goes { CarriesOn T.keeping self.old self.new }
        ensures ended { self.new ≡ ending self.old }
    {
        self.has_ended = true;
        self.stage.end_input();
    }

    /// The client has gone: it is told nothing more than what waits to be written, and is asked for nothing.
    pub fn leave(&mut self)
        ensures goes { CarriesOn T.keeping self.old self.new }
        ensures left { self.new ≡ leaving self.old }
    {
        self.stage.leave();
    }

    /// Looks for the next request, where none is open and not too much waits to be written. The faults before it are told.
    pub fn look(&mut self) -> Result<(), AllocError>
        ensures goes { CarriesOn T.keeping self.old self.new }
        ensures looks { Looks self.old self.new result }
    {
        if !self.may_look() {
            return Ok(());
        }
        let found = self.session.next_ask()?;
        self.stage.go_to(stage_after(found, self.has_ended));
        Ok(())
    }

    // The next request is looked for.
    fn may_look(&self) -> bool
        ensures { result ≡ may_look self.now }
    {
        matches!(self.stage, Stage::Looking) && self.has_room()
    }

    /// Hands in at a desk what is to be handed in: an operation that was found, or the session's end. An operation for which
    /// memory is refused is answered so; at another refusal, or where there is no memory for that answer, the client is given
    /// up. An end that is refused is handed in at a later call.
    pub fn hand_in<D: Desk<Ticket = T>>(&mut self, desk: &mut D) -> Result<(), HallError>
        ensures goes { CarriesOn T.keeping self.old self.new }
        ensures handed_in { HandsIn T.keeping D.submits desk.old desk.new self.old self.new result }
    {
        match replace(&mut self.stage, Stage::Leaving(None)) {
            Stage::Found(op) => self.hand_in_op(desk, op),
            Stage::Leaving(how) => self.hand_in_end(desk, how),
            stage => {
                self.stage.go_to(stage);
                Ok(())
            }
        }
    }

    /// Notes the answer to what was handed in, where it is there, and tells it; false where it isn't there. Where memory is
    /// refused it is told at a later call.
    pub fn note<D: Desk<Ticket = T>>(&mut self, desk: &D) -> Result<bool, AllocError>
        ensures goes { CarriesOn T.keeping self.old self.new }
        ensures noted { Notes T.keeping (D.to_note desk.now self.old.ticket) self.old self.new result }
    {
        if !matches!(self.stage, Stage::Asked) {
            return Ok(false);
        }
        desk.note(&mut self.ticket)?;
        let Some(reply) = self.ticket.noted() else {
            return Ok(false);
        };
        self.session.reply(reply)?;
        self.stage.go_to(Stage::Looking);
        Ok(true)
    }

    /// What the client is to be told and isn't sent yet.
    pub fn unsent(&self) -> &[u8]
        ensures { result.now ≡ self.now.session.unsent }
    {
        self.session.unsent()
    }

    /// So many bytes more are sent.
    pub fn sent(&mut self, n: usize)
        requires { n ≤ length self.old.session.unsent }
        ensures goes { (fed given : List ℕ) → Converses T.keeping fed given self.old
            → Converses T.keeping fed (given ++ take n self.old.session.unsent) self.new }
        ensures sent { HasSent n self.old self.new }
    {
        self.session.sent(n);
    }

    // Hands in an operation.
    fn hand_in_op<D: Desk<Ticket = T>>(&mut self, desk: &mut D, op: Op) -> Result<(), HallError>
        requires { self.old.session.is_open ≡ true }
        ensures ok { OnOk result (AsksOp T.keeping D.submits desk.old desk.new op self.old self.new) }
        ensures err { IfErr result (λ error. D.submits desk.old self.old.ticket (Do op) (Err error) desk.new
            × (self.new ≡ self.old)) }
    {
        match desk.submit(&mut self.ticket, Act::Do(op)) {
            Ok(()) => {
                self.stage.go_to(Stage::Asked);
                Ok(())
            }
            Err(HallError::OutOfMemory) => {
                self.session.refused()?;
                self.stage.go_to(Stage::Looking);
                Ok(())
            }
            Err(error) => Err(error),
        }
    }

    // Hands in the session's end.
    fn hand_in_end<D: Desk<Ticket = T>>(
        &mut self,
        desk: &mut D,
        how: Option<End>,
    ) -> Result<(), HallError>
        ensures ok { OnOk result (D.submits desk.old self.old.ticket Close (Ok tt) desk.new
            × (self.new ≡ closing T.keeping how self.old)) }
        ensures err { IfErr result (λ error. D.submits desk.old self.old.ticket Close (Err error) desk.new
            × (self.new ≡ record self.old { stage = Leaving how })) }
    {
        match desk.submit(&mut self.ticket, Act::Close) {
            Ok(()) => {
                self.stage.go_to(Stage::Left(how));
                Ok(())
            }
            Err(error) => {
                self.stage.go_to(Stage::Leaving(how));
                Err(error)
            }
        }
    }
}

// Where a conversation stands once this was found.
fn stage_after(found: Option<Request>, has_ended: bool) -> Stage
    ensures { result ≡ stage_after found has_ended }
{
    match found {
        Some(Request::Do(op)) => Stage::Found(op),
        Some(Request::Quit) => Stage::Leaving(Some(End::Quit)),
        None if has_ended => Stage::Leaving(Some(End::Eof)),
        None => Stage::Reading,
    }
}
