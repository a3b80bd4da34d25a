ghost use Rattle.std.specs.Prelude.{◌≡◌, ◌≢◌, ◌+◌, ◌-◌, ◌<◌, ◌^◌, ◌++◌, [], true, false, None, List, length, take, All, IfOk, IfSome, OnOk, OnErr};
ghost use Rattle.object.specs.declared.command.Key.{Key};
ghost use Rattle.event_loops.specs.Sessions.{opened_then};
ghost use Rattle.forgetting_hall.specs.Halls.{rest_of_hall};
ghost use Rattle.forgetting_hall.specs.Handing.{second_of, last_number_of};
ghost use Rattle.forgetting_hall.specs.Leading.{LeadsOn, TurnsOn};
ghost use Rattle.forgetting_hall.specs.Rests.{handed_in};
ghost use Rattle.loops.specs.Desks.{gathering_on};
ghost use Rattle.loops.specs.Lending.{IsEndAmong, behind_which, command_behind, has_ended, lent_behind, next_free, session_at};
ghost use Rattle.loops.specs.Taking.{HasTakenCount, HasTakenFor};

use crate::ends::{has_ended, note_ends};
use crate::lent_ticket::LentTicket;
use crate::steps;
use bean_words::{Op, Reply};
use conversation::{Desk, SessionTicket};
use event_loops::LoopDesk;
use forgetting_hall::{ForgettingHall, leads_on, tells_in_order};
use hall::HallError;
use object::{Act, Command, Key, Object, Value};
use std::alloc::{AllocError, Global};
use std::marker::Model;
use turns::{Watch, settle};

/// Once so many slots can be forgotten they are, also within a second.
const FORGOTTEN_AT_ONCE: u64 = 256;

/// The desk of a hall that forgets: where sessions hand in, and where slots are forgotten once every node has performed them.
///
/// The hall gathers what takes effect, to tell which sessions have ended, and for the log, where there is one. A session is used
/// again once its end has taken effect; with a log, once that is taken for it.
#[derive(Drop)]
pub(crate) struct ForgettingDesk<O: Object> {
    hall: ForgettingHall<O>,
    /// The node at which is handed in.
    node: u8,
    /// Sessions that were answered. The loops were told of so many of them.
    answered: Vec<u32>,
    told: usize,
    /// There is a log, and so many commands were taken for it.
    logs: bool,
    taken: u64,
    /// The ends of the sessions that are free: each took effect, and no client has had its session since.
    free: Vec<Key>,
}

impl<O: Object> Model for ForgettingDesk<O> {
    ghost use Rattle.std.specs.Coded.{codes};
    ghost use Rattle.object.specs.OnceOnly.{latest_code};
    ghost use Rattle.ballot.specs.Slots.{slots_code};
    ghost use Rattle.loops.specs.Desks.{LeanDesk};
    ghost use Rattle.loops.specs.Taking.{HasTakenFor};

    ghost Value = { LeanDesk O.Op O O.Reply };

    ghost coded = { Prim.hlevel (codes, slots_code, latest_code, O.code, O.Op.code, O.Reply.code) };

    ghost view = { λ d. record {
      hall = d.hall;
      node = d.node;
      logs = d.logs;
      taken = d.taken;
      free = d.free.items;
    } };

    ghost invariant = { λ d. HasTakenFor O.rules d.hall d.logs d.taken };
}

impl<O: Object> ForgettingDesk<O> {
    /// The desk of this hall, without a log.
    pub(crate) fn new(alloc: Global, hall: ForgettingHall<O>) -> ForgettingDesk<O>
        ensures { result ≡ record { hall = gathering_on hall; node = 1; logs = false; taken = 0; free = [] } }
    {
        let mut hall = hall;
        hall.gather();
        ForgettingDesk {
            hall,
            node: 1,
            answered: Vec::new(alloc),
            told: 0,
            logs: false,
            taken: 0,
            free: Vec::new(alloc),
        }
    }

    /// The same with a log, which has all that was taken of this hall: so many commands.
    pub(crate) fn logging(alloc: Global, hall: ForgettingHall<O>, taken: u64) -> ForgettingDesk<O>
        requires { HasTakenCount O.rules hall taken }
        ensures { result ≡ record { hall = hall; node = 1; logs = true; taken = taken; free = [] } }
    {
        ForgettingDesk {
            hall,
            node: 1,
            answered: Vec::new(alloc),
            told: 0,
            logs: true,
            taken,
            free: Vec::new(alloc),
        }
    }

    /// The hall.
    pub(crate) fn into_hall(self) -> ForgettingHall<O>
        ensures { result ≡ self.hall }
    {
        self.hall
    }

    // A client gets a session: that of the last end that is free, where nothing came behind it, or else a new one.
    fn lend(&mut self) -> Result<LentTicket, HallError>
        ensures lent { IfOk result (λ t. t ≡ lent_behind
            (behind_which (next_free self.old.hall self.old.free) self.old.hall.opened)) }
        ensures left { OnOk result (self.new.free ≡ take (length self.old.free - 1) self.old.free) }
        ensures opened { OnOk result (self.new.hall.opened
            ≡ opened_then (session_at (next_free self.old.hall self.old.free)) self.old.hall.opened) }
        ensures err { OnErr result (self.new ≡ self.old) }
        ensures goes_on { LeadsOn O.rules self.old.hall self.new.hall }
    {
        leads_on::<O>();
        let last = match self.next_free() {
            Some(last) => last,
            None => self.next_new()?,
        };
        let _ = self.free.pop();
        Ok(LentTicket::behind(last))
    }

    // The end of the session that is used again next, where one is free.
    fn next_free(&self) -> Option<Key>
        ensures free { result ≡ next_free self.now.hall self.now.free }
        ensures low { IfSome result (λ key. key.number < 2 ^ 62) }
    {
        let last = *self.free.last()?;
        if self.hall.last_number(last.session) == last.number {
            Some(last)
        } else {
            None
        }
    }

    // A new session, which has no command.
    fn next_new(&mut self) -> Result<Key, HallError>
        ensures key { IfOk result (λ key. key ≡ behind_which None self.old.hall.opened) }
        ensures opened { OnOk result (self.new.hall.opened ≡ self.old.hall.opened + 1) }
        ensures err { OnErr result (self.new ≡ self.old) }
        ensures free { self.new.free ≡ self.old.free }
        ensures goes_on { LeadsOn O.rules self.old.hall self.new.hall }
    {
        let session = steps::open_session(&mut self.hall)?;
        Ok(Key { session, number: 0 })
    }

    // Whoever had the session up to this key hands in nothing more. One that has ended is free once its end has taken effect;
    // one whose end the hall refused is let go of.
    fn give_back(&mut self, last: Key)
        ensures ended { has_ended self.old.hall last.session ≡ true → self.new ≡ self.old }
        ensures other { last_number_of self.old.hall last.session ≢ last.number → self.new ≡ self.old }
        ensures free { self.new.free ≡ self.old.free }
        ensures submitted { self.new.hall.summary.submitted ≡ self.old.hall.summary.submitted }
        ensures opened { self.new.hall.opened ≡ self.old.hall.opened }
        ensures goes_on { LeadsOn O.rules self.old.hall self.new.hall }
    {
        leads_on::<O>();
        let is_own = self.hall.last_number(last.session) == last.number;
        if is_own && !has_ended(&self.hall, last.session) {
            steps::let_go(&mut self.hall, last.session);
        }
    }

    // Without a log: looks at what took effect since for sessions that have ended, which are free then.
    fn note_ended(&mut self)
        ensures freed { (more : List Key) × (self.new.free ≡ self.old.free ++ more)
            × All (λ key. IsEndAmong self.old.hall.gathering.commands key) more }
        ensures logs { self.old.logs ≡ true → self.new ≡ self.old }
        ensures submitted { self.new.hall.summary.submitted ≡ self.old.hall.summary.submitted }
        ensures opened { self.new.hall.opened ≡ self.old.hall.opened }
        ensures goes_on { LeadsOn O.rules self.old.hall self.new.hall }
    {
        leads_on::<O>();
        if self.logs || self.hall.gathered_count() == 0 {
            return;
        }
        let _ = self.take_effects();
    }

    // Takes what took effect since this was called last, and counts it as taken. Sessions that have ended there are free then.
    fn take_effects(&mut self) -> Vec<Command<O::Op>>
        ensures effects { result.items ≡ self.old.hall.gathering.commands }
        ensures freed { (more : List Key) × (self.new.free ≡ self.old.free ++ more)
            × All (λ key. IsEndAmong self.old.hall.gathering.commands key) more }
        ensures left { self.new.hall.gathering.commands ≡ [] }
        ensures logs { self.new.logs ≡ self.old.logs }
        ensures taken { self.old.logs ≡ true →
            self.new.taken ≡ self.old.taken + length self.old.hall.gathering.commands }
        ensures submitted { self.new.hall.summary.submitted ≡ self.old.hall.summary.submitted }
        ensures opened { self.new.hall.opened ≡ self.old.hall.opened }
        ensures goes_on { LeadsOn O.rules self.old.hall self.new.hall }
    {
        tells_in_order::<O>();
        leads_on::<O>();
        let placed = self.hall.take_placed();
        let ForgettingDesk { hall, free, .. } = self;
        note_ends(hall, free, &placed);
        self.taken = self.hall.placed_count();
        placed
    }

    // The act is handed in behind this key, the last one of its session. What a client hands in first may come behind the end of
    // another one.
    fn submit_behind(&mut self, last: Key, is_first: bool, act: Act<O::Op>) -> Result<(), HallError>
        requires own { last_number_of self.old.hall last.session ≡ last.number }
        requires low { last.number < 2 ^ 62 }
        ensures ok { OnOk result (rest_of_hall O.rules self.new.hall
            ≡ handed_in O.rules (rest_of_hall O.rules self.old.hall) self.old.node (command_behind last act)) }
        ensures err { OnErr result (self.new ≡ self.old) }
        ensures free { self.new.free ≡ self.old.free }
        ensures goes_on { TurnsOn O.rules self.old.hall self.new.hall }
    {
        if is_first && last.number > 0 {
            steps::submit_behind(&mut self.hall, last, act, self.node)
        } else {
            steps::submit(&mut self.hall, last.session, act, self.node)
        }
    }
}

impl<O: Object<Op = Op, Reply = Reply>> Desk for ForgettingDesk<O> {
    type Ticket = LentTicket;

    ghost use Rattle.loops.specs.Desks.{HandsInLean};
    ghost use Rattle.loops.specs.Lending.{reply_since};

    ghost submits = { λ old ticket act result new. HandsInLean O.rules old ticket act result new };

    // The reply that the hall has for the ticket's last command, where it has handed in one.
    ghost to_note = { λ desk ticket. reply_since desk.hall ticket };

    /// The ticket's session hands in its next act. A ticket whose last number is not the hall's for its session is refused,
    /// so that the command has the number that the ticket counts for it, and the reply to that key is the reply to this act.
    fn submit(&mut self, ticket: &mut LentTicket, act: Act<Op>) -> Result<(), HallError> {
        let last = ticket.last_key();
        if self.hall.last_number(last.session) != last.number {
            return Err(HallError::BadNumber);
        }
        self.submit_behind(last, ticket.is_blank(), act)?;
        ticket.hand_in();
        Ok(())
    }

    fn note(&self, ticket: &mut LentTicket) -> Result<bool, AllocError> {
        if ticket.is_blank() {
            return Ok(false);
        }
        let Some(reply) = self.hall.reply_to(ticket.last_key()) else {
            return Ok(false);
        };
        ticket.note(reply.copy()?);
        Ok(true)
    }
}

impl<O: Object<Op = Op, Reply = Reply>> LoopDesk for ForgettingDesk<O> {
    ghost use Rattle.std.specs.Prelude.{ℕ, [], ◌∷◌, ◌≤◌, ◌+◌, length, if◌then◌else◌};
    ghost use Rattle.turns.specs.Working.{no_work};
    ghost use Rattle.forgetting_hall.specs.Working.{lean_work_of};
    ghost use Rattle.loops.specs.Desks.{IsShownBy, LeadsBy};
    ghost use Rattle.loops.specs.Lending.{next_free, session_at};
    ghost use Rattle.loops.specs.Taking.{for_log};
    ghost use Rattle.loops.specs.LeadingLaws.{leads_nowhere, leads_further, hands_lean};

    // By all sessions and the clock; beside that, how many sessions were opened.
    ghost handed_in = { λ desk. desk.hall.summary.submitted ∷ desk.hall.opened ∷ [] };

    ghost opened = { λ desk. desk.hall.opened };

    ghost free = { λ desk. session_at (next_free desk.hall desk.free) };

    ghost clock = { λ desk. second_of desk.hall };

    ghost taken = { λ desk. if desk.logs then desk.taken else 0 };

    ghost placed = { λ desk. for_log desk.logs desk.hall.gathering.commands };

    ghost is_calm = { λ desk. (n : ℕ) → 1 ≤ n → n ≤ length desk.hall.network.members
        → lean_work_of O.rules desk.hall n ≡ no_work };

    // The worlds that its hall shows, and that events lead from the one to the other.
    ghost shows = { λ desk s. IsShownBy O.rules desk.hall s.world };

    ghost leads = { λ s t. LeadsBy O.rules s.world t.world };

    fn open_session(&mut self) -> Result<LentTicket, HallError> {
        self.lend()
    }

    fn see_off(&mut self, ticket: &LentTicket) {
        self.give_back(ticket.last_key());
    }

    fn stand_at(&mut self, node: u8) {
        self.node = node;
    }

    fn node_count(&self) -> u8 {
        self.hall.members().count()
    }

    fn last_second(&self) -> u64 {
        self.hall.last_second()
    }

    // What there is to forget is forgotten before, so that seconds alone leave nothing behind.
    fn tick(&mut self, second: u64, node: u8) {
        steps::forget(&mut self.hall);
        steps::tick_to(&mut self.hall, second, node);
    }

    fn take_turn(&mut self, watch: &mut Watch, round: u64) {
        let _ = watch.take_turn(&mut self.hall, round);
    }

    fn settle(&mut self, first: u8) -> Result<bool, HallError> {
        if self.hall.lag() >= FORGOTTEN_AT_ONCE {
            steps::forget(&mut self.hall);
        }
        settle(&mut self.hall, first)
    }

    fn hand_in_again(&mut self, ticket: &LentTicket, node: u8) {
        steps::resubmit(&mut self.hall, ticket.session(), node);
    }

    fn next_answered(&mut self) -> Option<u32> {
        if self.told >= self.answered.len() {
            self.note_ended();
            self.answered = self.hall.take_answered();
            self.told = 0;
        }
        let session = *self.answered.get(self.told)?;
        self.told += 1;
        Some(session)
    }

    fn placed_count(&self) -> u64
        ensures least { (if self.now.logs then self.now.taken else 0)
            + length (for_log self.now.logs self.now.hall.gathering.commands) ≤ result }
        ensures exact { result ≡ (if self.now.logs then self.now.taken else 0)
            + length (for_log self.now.logs self.now.hall.gathering.commands) }
    {
        tells_in_order::<O>();
        if self.logs {
            self.hall.placed_count()
        } else {
            0
        }
    }

    fn take_placed(&mut self) -> Result<Vec<Command<Op>>, AllocError> {
        let mut placed = self.take_effects();
        if !self.logs {
            placed.clear();
        }
        Ok(placed)
    }

    ghost stays = { λ s. leads_nowhere O.rules s.world };

    ghost further = { λ a b c first next. leads_further O.rules a.world b.world c.world first next };

    ghost submits_on = { λ old new ticket act result does. hands_lean O.rules old new ticket act result does };
}
