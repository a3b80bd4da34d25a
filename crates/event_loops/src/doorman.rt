ghost use Rattle.std.specs.Prelude.{◌≡◌, ◌↔◌, ◌-◌, true, None, Some, IfOk, IfSome};

use crate::clients::Clients;
use crate::fault::ServeFault;
use crate::mailbox::Mailbox;
use crate::troubles::{Trouble, trouble_of};
use backoff::Backoff;
use mio::net::{TcpListener, TcpStream};
use mio::{Events, Interest, Poll, Token};
use std::alloc::Global;
use std::io;
use std::io::{Eprint, ErrorKind};
use std::rt::Clock;
use std::sync::Wait;
use std::time::{Duration, Instant};

const LISTENER: Token = Token(1);

/// So many milliseconds pass at first until it tries again where the system was short of something.
const FIRST_PAUSE: u64 = 100;

/// Where the system is short of something, that is told again after so many seconds.
const TOLD_AGAIN: u64 = 60;

/// While a loop has fewer clients than these, no other one is begun.
const FEW: usize = 8;

/// Where clients come in, who are handed to the loops.
#[derive(Drop)]
pub(crate) struct Doorman {
    poll: Poll,
    listener: TcpListener,
    /// So many more are let in; none where there is no end.
    left: Option<u32>,
    /// It begins anew when somebody is let in.
    backoff: Backoff,
    /// When it was told last that the system is short of something.
    told_at: Option<Instant>,
}

impl Doorman {
    /// Lets in these clients.
    pub(crate) fn new(poll: Poll, clients: Clients) -> io::Result<Doorman>
        ensures { IfOk result (λ doorman. doorman.left ≡ clients.sessions) }
    {
        let left = clients.sessions;
        let mut listener = clients.listener;
        poll.registry()
            .register(&mut listener, LISTENER, Interest::READABLE)?;
        Ok(Doorman {
            poll,
            listener,
            left,
            backoff: Backoff::new(FIRST_PAUSE),
            told_at: None,
        })
    }

    /// Lets clients in, until as many have come as there was said, or no more may. Where the system is short of something,
    /// it tells that, and tries again after a pause.
    pub(crate) fn let_in<R: Wait + Clock + Eprint>(
        mut self,
        rt: &R,
        alloc: Global,
        loops: &[Mailbox],
        own: &Mailbox,
    ) -> Result<(), ServeFault> {
        let mut events = Events::with_capacity(alloc, 4)?;
        let mut timeout = Some(Duration::ZERO);
        for _ in rt.forever() {
            if !own.may_sleep() {
                return Ok(());
            }
            self.poll.poll(&mut events, timeout)?;
            timeout = match self.accept_all(rt, loops) {
                Ok(()) => None,
                Err(e) => match trouble_of(&e) {
                    Trouble::Listener => return Err(ServeFault::ListenFailed(e)),
                    Trouble::Shortage | Trouble::Connection => {
                        self.tell_shortage(rt, &e);
                        Some(self.backoff.next_pause())
                    }
                },
            };
            if self.is_full() {
                return Ok(());
            }
        }
        unreachable!()
    }

    // Whether as many have come as there was said.
    fn is_full(&self) -> bool
        ensures { (result ≡ true) ↔ self.now.left ≡ Some 0 }
    {
        self.left == Some(0)
    }

    // One more has come.
    fn count_one(&mut self)
        ensures counted { IfSome self.old.left (λ left. self.new.left ≡ Some (left - 1)) }
        ensures endless { self.old.left ≡ None → self.new.left ≡ None }
    {
        self.left = self.left.map(|left| left.saturating_sub(1));
    }

    // Accepts until none waits, or as many have come as there was said. A connection that went wrong before it was accepted
    // counts for nothing.
    fn accept_all<R: Wait>(&mut self, rt: &R, loops: &[Mailbox]) -> io::Result<()> {
        for _ in 0..u64::MAX {
            if self.is_full() {
                return Ok(());
            }
            match self.listener.accept() {
                Ok((stream, _)) => {
                    self.backoff.reset();
                    if sends_at_once(&stream).unwrap_or(false) {
                        self.count_one();
                        hand_over(rt, loops, stream);
                    }
                }
                Err(e) if e.kind() == ErrorKind::WouldBlock => return Ok(()),
                Err(e) => match trouble_of(&e) {
                    Trouble::Connection => {}
                    Trouble::Listener | Trouble::Shortage => return Err(e),
                },
            }
        }
        Ok(())
    }

    // Tells on standard error that no client can be let in, and why, unless it did within the last minute.
    fn tell_shortage<R: Clock + Eprint>(&mut self, rt: &R, error: &io::Error) {
        let passed = self.told_at.and_then(|at| at.elapsed(rt).ok());
        if passed.is_some_and(|passed| passed < Duration::from_secs(TOLD_AGAIN)) {
            return;
        }
        self.told_at = Instant::now(rt).ok();
        // where standard error has failed, nobody can be told
        let _ = eprintln!(rt; "beanpax: no client can be let in: {error}");
    }
}

// Hands the client to the first loop that has but few, or else to the one with the fewest: loops that have little to do wait
// more for the lock than they save.
fn hand_over<R: Wait>(rt: &R, loops: &[Mailbox], stream: TcpStream) {
    for mailbox in loops {
        if mailbox.clients() < FEW {
            mailbox.hand_over(rt, stream);
            return;
        }
    }
    let Some(fewest) = loops.iter().min_by_key(|mailbox| mailbox.clients()) else {
        return;
    };
    fewest.hand_over(rt, stream);
}

// Has the connection send each reply at once, and not hold it back until more can be sent. Answers whether it does, as read
// back from the system.
fn sends_at_once(stream: &TcpStream) -> io::Result<bool> {
    stream.set_nodelay(true)?;
    stream.nodelay()
}
