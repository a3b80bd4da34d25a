ghost use Rattle.std.specs.Prelude.{◌≡◌};

use mio::net::TcpStream;
use mio::{Registry, Token, Waker};
use std::alloc::Global;
use std::io;
use std::sync::atomic::{AtomicBool, AtomicUsize, Ordering};
use std::sync::{Mutex, Wait};

/// What other threads have for a loop.
#[derive(Drop)]
pub(crate) struct Mail {
    /// Clients that were let in.
    pub(crate) streams: Vec<TcpStream>,
    /// Sessions whose open ask was answered.
    pub(crate) answered: Vec<u32>,
    /// The last second that has passed, where one has since.
    pub(crate) second: Option<u64>,
    /// No client comes any more.
    pub(crate) is_over: bool,
}

impl Mail {
    fn none(alloc: Global) -> Mail {
        Mail {
            streams: Vec::new(alloc),
            answered: Vec::new(alloc),
            second: None,
            is_over: false,
        }
    }

    // All that there is. That no client comes any more stays known.
    fn take(&mut self, alloc: Global) -> Mail
        ensures all { result ≡ self.old }
        ensures over { self.new.is_over ≡ self.old.is_over }
    {
        let mut next = Mail::none(alloc);
        next.is_over = self.is_over;
        std::mem::replace(self, next)
    }
}

/// Where mail is left for a loop, which is woken where it sleeps.
#[derive(Drop)]
pub(crate) struct Mailbox {
    mail: Mutex<Mail>,
    /// There is mail.
    has_mail: AtomicBool,
    /// The loop looks at its mail before it sleeps.
    is_awake: AtomicBool,
    /// So many clients the loop has, or will have.
    clients: AtomicUsize,
    waker: Waker,
}

impl Mailbox {
    /// The mailbox of a loop that waits at this registry, under this token.
    pub(crate) fn new(alloc: Global, registry: &Registry, token: Token) -> io::Result<Mailbox> {
        Ok(Mailbox {
            mail: Mutex::new(Mail::none(alloc)),
            has_mail: AtomicBool::new(false),
            is_awake: AtomicBool::new(true),
            clients: AtomicUsize::new(0),
            waker: Waker::new(registry, token)?,
        })
    }

    /// Hands a client to the loop. Where there is no memory for that its connection is closed.
    pub(crate) fn hand_over<R: Wait>(&self, rt: &R, stream: TcpStream) {
        if self.mail.lock(rt).streams.push(stream).is_ok() {
            self.clients.fetch_add(1, Ordering::SeqCst);
            self.wake();
        }
    }

    /// The session's open ask was answered. Where there is no memory to say so, the loop finds it at the next second.
    pub(crate) fn answer<R: Wait>(&self, rt: &R, session: u32) {
        let _ = self.mail.lock(rt).answered.push(session);
        self.wake();
    }

    /// A second has passed.
    pub(crate) fn tick<R: Wait>(&self, rt: &R, second: u64) {
        self.mail.lock(rt).second = Some(second);
        self.wake();
    }

    /// No client comes any more.
    pub(crate) fn end<R: Wait>(&self, rt: &R) {
        self.mail.lock(rt).is_over = true;
        self.wake();
    }

    /// Whether none does.
    pub(crate) fn is_over<R: Wait>(&self, rt: &R) -> bool {
        self.mail.lock(rt).is_over
    }

    /// A client of the loop has gone.
    pub(crate) fn forget_one(&self) {
        self.clients.fetch_sub(1, Ordering::SeqCst);
    }

    /// So many clients the loop has, or will have.
    pub(crate) fn clients(&self) -> usize {
        self.clients.load(Ordering::SeqCst)
    }

    /// The loop is about to sleep; false where there is mail that it is to look at first.
    pub(crate) fn may_sleep(&self) -> bool {
        self.is_awake.store(false, Ordering::SeqCst);
        if self.has_mail.load(Ordering::SeqCst) {
            self.is_awake.store(true, Ordering::SeqCst);
            return false;
        }
        true
    }

    /// What there is for the loop, which it has then.
    pub(crate) fn take<R: Wait>(&self, rt: &R, alloc: Global) -> Option<Mail> {
        self.is_awake.store(true, Ordering::SeqCst);
        if !self.has_mail.swap(false, Ordering::SeqCst) {
            return None;
        }
        Some(self.mail.lock(rt).take(alloc))
    }

    // Wakes the loop, unless it is awake.
    fn wake(&self) {
        self.has_mail.store(true, Ordering::SeqCst);
        if !self.is_awake.swap(true, Ordering::SeqCst) {
            // where the system refuses that, the next second wakes it
            let _ = self.waker.wake();
        }
    }
}
