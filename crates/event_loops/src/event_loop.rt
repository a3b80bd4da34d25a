ghost use Rattle.std.specs.Prelude.{◌≡◌, ◌≢◌, ◌≤◌, true, None, OnOk};

use crate::beginning::Beginning;
use crate::desk::LoopDesk;
use crate::fault::ServeFault;
use crate::house::House;
use crate::mailbox::{Mail, Mailbox};
use crate::seat::{Seat, Wish};
use crate::seats::Seats;
use crate::shared_log::SharedLog;
use crate::wire::Wire;
use backoff::Backoff;
use bean_codec::Profile;
use conversation::{Client, Conversation, LONGEST_PIECE};
use hall::HallError;
use journal::Kept;
use mio::net::TcpStream;
use mio::{Events, Interest, Poll, Token};
use std::alloc::Global;
use std::rt::Clock;
use std::sync::{Mutex, MutexGuard, Wait};
use std::thread::yield_now;
use std::time::Duration;

/// The waker's token. No client has this key.
pub(crate) const WAKER: Token = Token(usize::MAX);

/// So many events are looked at before what they bring is handed in.
const MOST_EVENTS: usize = 256;

/// So often a loop looks whether the lock is free before it sleeps until it is.
const LOOKS_AT_LOCK: u32 = 16;

/// So many milliseconds pass at first until a loop tries again what was refused for want of memory.
const FIRST_PAUSE: u64 = 10;

/// Where nobody is told anything, what takes effect is kept after so many seconds.
const MOST_UNKEPT: u64 = 16;

/// What loops have in common.
#[derive(Drop)]
pub(crate) struct Common<'a, R, D: LoopDesk, B: Beginning> {
    pub(crate) rt: &'a R,
    pub(crate) alloc: Global,
    pub(crate) house: &'a Mutex<House<D, B>>,
    pub(crate) mailboxes: &'a [Mailbox],
    /// Of who lets clients in.
    pub(crate) door: &'a Mailbox,
    pub(crate) nodes: u8,
    /// In which each client is spoken with.
    pub(crate) profile: Profile,
    pub(crate) log: &'a Option<SharedLog>,
}

impl<'a, R: Wait, D: LoopDesk, B: Beginning> Common<'a, R, D, B> {
    /// Wakes all, since no client comes any more.
    pub(crate) fn end_all(&self) {
        for mailbox in self.mailboxes {
            mailbox.end(self.rt);
        }
        self.door.end(self.rt);
    }

    /// Whether the log has failed, so that nobody is told anything more.
    pub(crate) fn has_failed(&self) -> bool {
        match self.log {
            Some(log) => log.has_failed(),
            None => false,
        }
    }
}

/// A loop over its clients.
#[derive(Drop)]
pub(crate) struct EventLoop<'a, R, D: LoopDesk, B: Beginning> {
    common: &'a Common<'a, R, D, B>,
    own: &'a Mailbox,
    /// Which of the loops it is, from 0.
    at: usize,
    seats: Seats<TcpStream, D::Ticket>,
    /// The keys of those with something to hand in.
    asking: Vec<usize>,
    /// The keys of those whose ask was answered.
    answered: Vec<usize>,
    /// The keys of those that it goes on with in the next turn.
    listed: Vec<usize>,
    /// What others are told once the lock is free: a session that was answered, and its loop.
    told: Vec<(u32, usize)>,
    /// Somebody is to be told something, or nothing was kept for long.
    owes: bool,
    /// How much of the log is kept: what rests on no more may be told.
    kept: Kept,
    piece: [u8; LONGEST_PIECE],
    second: Option<u64>,
    /// The nodes have something left to do.
    has_more: bool,
    /// Something was refused for want of memory in this turn.
    is_refused: bool,
    /// How long it sleeps at most where something was so in the last one.
    pause: Option<Duration>,
    backoff: Backoff,
    is_over: bool,
}

impl<'a, R: Wait + Clock, D: LoopDesk, B: Beginning> EventLoop<'a, R, D, B> {
    /// A loop without clients.
    pub(crate) fn new(
        common: &'a Common<'a, R, D, B>,
        own: &'a Mailbox,
        at: usize,
    ) -> EventLoop<'a, R, D, B> {
        let alloc = common.alloc;
        EventLoop {
            common,
            own,
            at,
            seats: Seats::new(alloc),
            asking: Vec::new(alloc),
            answered: Vec::new(alloc),
            listed: Vec::new(alloc),
            told: Vec::new(alloc),
            owes: false,
            kept: Kept::none(),
            piece: [0; LONGEST_PIECE],
            second: None,
            has_more: false,
            is_refused: false,
            pause: None,
            backoff: Backoff::new(FIRST_PAUSE),
            is_over: false,
        }
    }

    /// Serves its clients, until none is there and no more come. Where the log fails, nobody is told anything more.
    pub(crate) fn run(&mut self, mut poll: Poll) -> Result<(), ServeFault> {
        let mut events = Events::with_capacity(self.common.alloc, MOST_EVENTS)?;
        for _ in self.common.rt.forever() {
            let timeout = self.timeout();
            poll.poll(&mut events, timeout)?;
            let mail = self.own.take(self.common.rt, self.common.alloc);
            // whoever sees the log fail leaves mail after that
            if self.common.has_failed() {
                return Ok(());
            }
            if let Some(mail) = mail {
                self.read_mail(mail, &poll);
            }
            self.serve_listed();
            self.serve_reported(&events);
            self.meet()?;
            self.choose_pause();
            if self.is_over && self.seats.is_empty() {
                return Ok(());
            }
        }
        unreachable!()
    }

    // How long it may wait: not at all where there is something to go on with, and not for long where memory was refused.
    fn timeout(&self) -> Option<Duration> {
        if self.has_work() || !self.own.may_sleep() {
            Some(Duration::ZERO)
        } else {
            self.pause
        }
    }

    // A turn in which memory was refused is tried again soon, but later each time.
    fn choose_pause(&mut self) {
        if self.is_refused {
            self.pause = Some(self.backoff.next_pause());
        } else {
            self.pause = None;
            self.backoff.reset();
        }
        self.is_refused = false;
    }

    // Whether there is something to go on with.
    fn has_work(&self) -> bool {
        self.has_more || !self.listed.is_empty() || !self.asking.is_empty()
    }

    // Takes what others have left for it.
    fn read_mail(&mut self, mail: Mail, poll: &Poll) {
        for session in mail.answered.iter() {
            if let Some(key) = self.seats.key_of(*session) {
                self.is_refused |= self.answered.push(key).is_err();
            }
        }
        for stream in mail.streams {
            if self.take_in(stream, poll).is_none() {
                self.own.forget_one();
            }
        }
        self.second = mail.second;
        self.is_over = mail.is_over;
    }

    // Takes in a client. Where there is no room for it, or no session, its connection is closed.
    fn take_in(&mut self, stream: TcpStream, poll: &Poll) -> Option<()> {
        self.seats.make_room().ok()?;
        let ticket = self.lock().open_session(self.at).ok()?;
        let mut stream = stream;
        let token = Token(self.seats.next_key());
        let both = Interest::READABLE | Interest::WRITABLE;
        let registered = poll.registry().register(&mut stream, token, both);
        let common = self.common;
        let conversation = Conversation::speaking(common.profile, common.alloc, ticket);
        let mut seat = Seat::new(Client::new(Wire(stream), conversation));
        if registered.is_err() {
            seat.give_up();
        }
        let key = self.seats.take_in(seat).ok()?;
        self.go_on_with(key);
        Some(())
    }

    // Goes on with those that are listed.
    fn serve_listed(&mut self) {
        let listed = std::mem::replace(&mut self.listed, Vec::new(self.common.alloc));
        for key in listed {
            if let Some(seat) = self.seats.get_mut(key) {
                seat.is_listed = false;
            }
            self.go_on_with(key);
        }
    }

    // Goes on with those of which something is reported.
    fn serve_reported(&mut self, events: &Events) {
        for event in events.iter() {
            if event.token() != WAKER {
                let key = event.token().0;
                if let Some(seat) = self.seats.get_mut(key) {
                    seat.see(event);
                }
                self.go_on_with(key);
            }
        }
    }

    // Goes on with a client.
    fn go_on_with(&mut self, key: usize) {
        let Some(seat) = self.seats.get_mut(key) else {
            return;
        };
        if !seat.is_kept(self.kept) {
            // `meet` goes on with it
            return;
        }
        match seat.go_on(&mut self.piece, self.kept) {
            Wish::Wait => {}
            Wish::HandIn => self.is_refused |= !seat.put_on(&mut self.asking, key),
            Wish::GoOn => self.is_refused |= !seat.put_on(&mut self.listed, key),
            Wish::End => {
                self.seats.let_go(key);
                self.own.forget_one();
            }
        }
    }

    // Hands in what there is under one hold of the lock, and goes on with those that were answered, once what took effect is
    // kept.
    fn meet(&mut self) -> Result<(), ServeFault> {
        let has_mail = !self.answered.is_empty() || self.second.is_some();
        if !has_mail && !self.has_more && self.asking.is_empty() && self.pause.is_none() {
            return Ok(());
        }
        let count = self.confer();
        self.keep(count)?;
        self.tell_others();
        let asked = std::mem::replace(&mut self.asking, Vec::new(self.common.alloc));
        let answered = std::mem::replace(&mut self.answered, Vec::new(self.common.alloc));
        for key in asked {
            if let Some(seat) = self.seats.get_mut(key) {
                seat.is_listed = false;
            }
            self.go_on_with(key);
        }
        for key in answered {
            self.go_on_with(key);
        }
        Ok(())
    }

    // Has the log kept up to this count of commands, where somebody waits for that.
    fn keep(&mut self, count: u64) -> Result<(), ServeFault>
        ensures { OnOk result (self.old.owes ≡ true → self.old.common.now.log.now ≢ None →
            count ≤ self.new.kept) }
    {
        let common = self.common;
        let Some(log) = common.log else {
            return Ok(());
        };
        if !self.owes {
            return Ok(());
        }
        match log.keep(common.rt, common.house, count) {
            Ok(held) => {
                self.kept = held.kept;
                Ok(())
            }
            Err(fault) => {
                common.end_all();
                Err(fault)
            }
        }
    }

    // What is done under the lock: what there is is handed in, the nodes' turns are taken, and answers are noted. How many
    // commands have taken effect then.
    fn confer(&mut self) -> u64 {
        let mut house = self.lock();
        let second = self.second.take();
        if let Some(second) = second {
            self.pass_second(&mut house, second);
        }
        if second.is_some() || self.pause.is_some() {
            self.try_again();
        }
        self.hand_in(&mut house);
        let settled = house.settle(self.node());
        self.has_more = matches!(settled, Ok(false));
        self.is_refused |= settled.is_err();
        self.sort_answers(&mut house);
        self.note_answers(&house);
        self.see_off(&mut house, settled);
        let is_long = second.is_some_and(|second| second % MOST_UNKEPT == 0);
        self.owes = is_long || !self.answered.is_empty() || !self.told.is_empty();
        house.desk().placed_count()
    }

    // The node at which it hands in.
    fn node(&self) -> u8
        ensures { 1 ≤ result }
    {
        node_of_turn(self.common.nodes, self.at as u64)
    }

    // Hands in what there is.
    fn hand_in(&mut self, house: &mut House<D, B>) {
        house.stand_at(self.node());
        for key in self.asking.iter() {
            if let Some(seat) = self.seats.get_mut(*key) {
                house.hand_in(seat);
                self.is_refused |= seat.is_refused;
            }
        }
    }

    // Whose clients were answered: its own, or those of other loops.
    fn sort_answers(&mut self, house: &mut House<D, B>) {
        for _ in 0..u64::MAX {
            let Some((session, owner)) = house.next_answered() else {
                break;
            };
            if owner != self.at {
                let _ = self.told.push((session, owner));
            } else if let Some(key) = self.seats.key_of(session) {
                self.is_refused |= self.answered.push(key).is_err();
            }
        }
    }

    // Notes the answers to its own clients.
    fn note_answers(&mut self, house: &House<D, B>) {
        for key in self.answered.iter() {
            if let Some(seat) = self.seats.get_mut(*key) {
                self.is_refused |= seat.note(house.desk()).is_err();
            }
        }
    }

    // Sees off those that have left. Where no node has anything left to do, those that send nothing more wait
    // no longer; where a node was refused memory, all wait until the loop tries again.
    fn see_off(&mut self, house: &mut House<D, B>, settled: Result<bool, HallError>) {
        for key in self.asking.iter() {
            if let Some(seat) = self.seats.get_mut(*key) {
                match settled {
                    Ok(true) => seat.give_up_waiting(),
                    Ok(false) => {}
                    Err(_) => seat.is_refused = true,
                }
                house.see_off(seat);
            }
        }
    }

    // A second has passed: the loop that comes first hands it in. What clients wait for is handed in again.
    fn pass_second(&mut self, house: &mut House<D, B>, second: u64) {
        let node = node_of_turn(self.common.nodes, second);
        house.tick(second, node);
        for key in 0..self.seats.key_bound() {
            if let Some(seat) = self.seats.get_mut(key) {
                if seat.is_asked() {
                    house.hand_in_again(seat.ticket(), node);
                }
            }
        }
    }

    // What clients wait for is looked for once more, and what was refused for want of memory is tried again.
    fn try_again(&mut self) {
        for key in 0..self.seats.key_bound() {
            if let Some(seat) = self.seats.get_mut(key) {
                if seat.is_asked() {
                    self.is_refused |= self.answered.push(key).is_err();
                }
                if seat.is_refused {
                    seat.is_refused = false;
                    self.is_refused |= !seat.put_on(&mut self.asking, key);
                }
            }
        }
    }

    // Tells other loops whose clients were answered.
    fn tell_others(&mut self) {
        for (session, owner) in self.told.iter() {
            if let Some(mailbox) = self.common.mailboxes.get(*owner) {
                mailbox.answer(self.common.rt, *session);
            }
        }
        self.told.clear();
    }

    // Takes the lock. It looks for a while before it sleeps, and lets others go on meanwhile.
    fn lock(&self) -> MutexGuard<'a, House<D, B>> {
        let common = self.common;
        for _ in 0..LOOKS_AT_LOCK {
            if let Some(guard) = common.house.try_lock() {
                return guard;
            }
            yield_now();
        }
        common.house.lock(common.rt)
    }
}

// The node of so many whose turn this is: one after the other.
fn node_of_turn(nodes: u8, turn: u64) -> u8
    ensures first { 1 ≤ result }
    ensures last { 1 ≤ nodes → result ≤ nodes }
{
    (turn % u64::from(nodes.max(1))) as u8 + 1
}
