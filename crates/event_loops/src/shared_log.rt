ghost use Rattle.std.specs.Prelude.{◌≡◌, ◌≢◌, ◌≤◌, ◌+◌, ◌-◌, ◌^◌, [], length, min, IfOk, IfErr, IfSome, OnOk, Err};
ghost use Rattle.std.specs.Duration.{as_nanos};
ghost use Rattle.event_loops.specs.declared.shared_log.Durability.TheVariants.{Synced, Written};
ghost use Rattle.event_loops.specs.declared.fault.ServeFault.TheVariants.{OutOfMemory};

use crate::beginning::Beginning;
use crate::desk::LoopDesk;
use crate::fault::ServeFault;
use crate::house::House;
use backoff::Backoff;
use journal::{Journal, JournalFault, Kept};
use log_file::Locked;
use std::alloc::AllocError;
use std::fs::File;
use std::rt::Clock;
use std::sync::atomic::{AtomicBool, Ordering};
use std::sync::{Mutex, Wait};
use std::thread::sleep;
use std::time::Duration;

/// So many milliseconds pass at first until it is tried again where memory was refused.
const FIRST_PAUSE: u64 = 10;

/// A log for a server, and how it is kept.
#[derive(Drop)]
pub struct Logging {
    pub journal: Journal<Locked<File>>,
    /// How long what is answered may stay unsynced; zero where each answer waits until what took effect is kept.
    pub pause: Duration,
}

/// A log that the loops share. Who has its lock may take that of the house, and nobody does it the other way round.
#[derive(Drop)]
pub struct SharedLog {
    writing: Mutex<Writing>,
    pause: Duration,
    has_failed: AtomicBool,
}

/// The log, and why nothing more is kept, where that is so.
#[derive(Drop)]
struct Writing {
    journal: Journal<Locked<File>>,
    fault: Option<ServeFault>,
}

impl SharedLog {
    /// This log, of which nothing waits to be kept by the loops.
    pub fn new(logging: Logging) -> SharedLog {
        let Logging { journal, pause } = logging;
        SharedLog {
            writing: Mutex::new(Writing {
                journal,
                fault: None,
            }),
            pause,
            has_failed: AtomicBool::new(false),
        }
    }

    /// How long what is answered may stay unsynced.
    pub(crate) fn pause(&self) -> Duration
        ensures pause { result ≡ self.now.pause }
    {
        self.pause
    }

    /// Whether a write or a sync has failed. Then nobody is told anything more.
    pub(crate) fn has_failed(&self) -> bool {
        self.has_failed.load(Ordering::SeqCst)
    }

    /// Returns once so many of all commands are kept: synced, or written, where a sync may come later. So are all others
    /// then that took effect before. Where memory is refused it is tried again, until it is there.
    pub(crate) fn keep<R: Wait + Clock, D: LoopDesk, B: Beginning>(
        &self,
        rt: &R,
        house: &Mutex<House<D, B>>,
        count: u64,
    ) -> Result<Held, ServeFault>
        ensures kept { IfOk result (λ held. count ≤ held.kept) }
        ensures synced { as_nanos self.now.pause ≡ 0 → IfOk result (λ held. held.how ≡ Synced) }
        ensures patient { IfErr result (λ fault. fault ≢ OutOfMemory) }
    {
        self.keep_as(rt, house, count, self.durability())
    }

    /// Returns once so many of all commands are synced.
    pub(crate) fn sync<R: Wait + Clock, D: LoopDesk, B: Beginning>(
        &self,
        rt: &R,
        house: &Mutex<House<D, B>>,
        count: u64,
    ) -> Result<Held, ServeFault>
        ensures kept { IfOk result (λ held. count ≤ held.kept) }
        ensures synced { IfOk result (λ held. held.how ≡ Synced) }
        ensures patient { IfErr result (λ fault. fault ≢ OutOfMemory) }
    {
        self.keep_as(rt, house, count, Durability::Synced)
    }

    // What an answer waits for.
    fn durability(&self) -> Durability
        ensures { as_nanos self.now.pause ≡ 0 → result ≡ Synced }
    {
        if self.pause.is_zero() {
            Durability::Synced
        } else {
            Durability::Written
        }
    }

    // Returns once so many of all commands are kept in this way.
    fn keep_as<R: Wait + Clock, D: LoopDesk, B: Beginning>(
        &self,
        rt: &R,
        house: &Mutex<House<D, B>>,
        count: u64,
        durability: Durability,
    ) -> Result<Held, ServeFault>
        ensures kept { IfOk result (λ held. count ≤ held.kept) }
        ensures how { IfOk result (λ held. held.how ≡ durability) }
        ensures patient { IfErr result (λ fault. fault ≢ OutOfMemory) }
    {
        let mut writing = self.writing.lock(rt);
        let mut backoff = Backoff::new(FIRST_PAUSE);
        for _ in rt.forever() {
            let held = writing.held(durability);
            if held.kept.upto() >= count {
                return Ok(held);
            }
            match writing.keep_next(rt, house, durability) {
                Ok(()) => {}
                Err(ServeFault::OutOfMemory) => sleep(rt, backoff.next_pause()),
                Err(fault) => {
                    writing.fault = Some(fault);
                    self.has_failed.store(true, Ordering::SeqCst);
                    return Err(fault);
                }
            }
        }
        unreachable!()
    }
}

/// What has become of a command that is kept.
#[derive(Clone, Copy, Debug, PartialEq, Eq)]
pub(crate) enum Durability {
    /// It is written to the log's file. A power cut may still lose it.
    Written,
    /// It is synced.
    Synced,
}

/// That so many of all commands are kept, and how.
#[derive(Clone, Copy, Debug, PartialEq, Eq)]
pub(crate) struct Held {
    pub(crate) kept: Kept,
    pub(crate) how: Durability,
}

impl Writing {
    // How many commands are kept in this way.
    fn held(&self, durability: Durability) -> Held
        ensures how { result.how ≡ durability }
        ensures synced { durability ≡ Synced → result.kept ≡ self.now.journal.synced }
        ensures written { durability ≡ Written → result.kept ≡ self.now.journal.written }
    {
        let kept = match durability {
            Durability::Written => self.journal.written(),
            Durability::Synced => self.journal.synced(),
        };
        Held {
            kept,
            how: durability,
        }
    }

    // What has taken effect since comes next in the log.
    fn take_up<D: LoopDesk, B: Beginning>(
        &mut self,
        house: &mut House<D, B>,
    ) -> Result<(), AllocError>
        requires idle { self.old.journal.waiting ≡ [] }
        ensures all { OnOk result (self.new.journal.waiting ≡ D.placed house.old) }
        ensures counted { OnOk result (self.new.journal.due
            ≡ min (self.old.journal.due + length (D.placed house.old)) (2 ^ 64 - 1)) }
    {
        let placed = house.take_placed()?;
        self.journal.put(placed);
        Ok(())
    }

    // Keeps what waits, with what has taken effect since, where nothing waited.
    fn keep_next<R: Wait, D: LoopDesk, B: Beginning>(
        &mut self,
        rt: &R,
        house: &Mutex<House<D, B>>,
        durability: Durability,
    ) -> Result<(), ServeFault>
        ensures failed { IfSome self.old.fault (λ fault. result ≡ Err fault) }
        ensures written { OnOk result (self.new.journal.written ≡ self.new.journal.due) }
        ensures synced { OnOk result (durability ≡ Synced →
            self.new.journal.synced ≡ self.new.journal.due) }
        ensures none_waits { OnOk result (self.new.journal.waiting ≡ []) }
    {
        match self.fault {
            Some(fault) => return Err(fault),
            None => {}
        }
        if self.journal.is_idle() {
            let mut house = house.lock(rt);
            self.take_up(&mut house)?;
        }
        let before = self.held(durability);
        match self.keep_waiting(durability) {
            Ok(()) => {}
            Err(fault) => return Err(fault_of(fault)),
        }
        if self.held(durability) == before {
            // somebody waits for a command that the hall doesn't have
            return Err(ServeFault::BadNumber);
        }
        Ok(())
    }

    // Writes what waits, and has it synced, where it is to be.
    fn keep_waiting(&mut self, durability: Durability) -> Result<(), JournalFault>
        ensures written { OnOk result (self.new.journal.written ≡ self.new.journal.due) }
        ensures synced { OnOk result (durability ≡ Synced →
            self.new.journal.synced ≡ self.new.journal.due) }
        ensures none_waits { OnOk result (self.new.journal.waiting ≡ []) }
        ensures fault { self.new.fault ≡ self.old.fault }
    {
        match durability {
            Durability::Written => self.journal.write(),
            Durability::Synced => self.journal.keep(),
        }
    }
}

// What is told of a log's fault.
fn fault_of(fault: JournalFault) -> ServeFault {
    match fault {
        JournalFault::OutOfMemory => ServeFault::OutOfMemory,
        JournalFault::TooLong | JournalFault::Unkept(_) => ServeFault::LogFailed(fault),
    }
}
