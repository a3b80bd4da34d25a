ghost use Rattle.std.specs.Prelude.{◌≡◌, All, IfNone, IfOk, IfSome, IsOk, Contains, Err, vec_len};
ghost use Rattle.event_loops.specs.Courses.{AllLead};
ghost use Rattle.event_loops.specs.LoopCounts.{IsLoopCount};

use crate::beginning::Beginning;
use crate::clients::Clients;
use crate::clock::run_clock;
use crate::desk::LoopDesk;
use crate::doorman::Doorman;
use crate::event_loop::{Common, EventLoop, WAKER};
use crate::fault::ServeFault;
use crate::house::House;
use crate::mailbox::Mailbox;
use crate::shared_log::SharedLog;
use crate::syncs::{keep_all, run_syncs};
use counted_hall::Seconds;
use mio::Poll;
use std::alloc::Global;
use std::io::Eprint;
use std::marker::Brand;
use std::net::Net;
use std::rt::Clock;
use std::sync::{Mutex, Wait};
use std::thread;
use std::thread::{JoinHandle, Scope, Threads};

/// What a server takes of the machine.
pub trait Host: Net + Clock + Eprint + Threads + Wait + AllocGlobal + Sync {}

impl<R: Net + Clock + Eprint + Threads + Wait + AllocGlobal + Sync> Host for R {}

/// How a server serves: these clients, by so many loops, 1 to 64, and with this log, where it has one.
#[derive(Drop)]
pub struct Terms {
    pub clients: Clients,
    pub loops: u32,
    pub log: Option<SharedLog>,
}

/// Serves clients at a desk. It gives the desk back, and what went wrong, where something did. All threads have ended then.
/// The desk goes on from the one that came in.
pub fn serve_desk<D, T, R>(
    rt: &R,
    desk: D,
    seconds: T,
    terms: Terms,
) -> Result<(D, Option<ServeFault>), ServeFault>
where
    D: LoopDesk + Send + Drop,
    D::Ticket: Send,
    T: Seconds + Send + Drop,
    R: Host,
    requires loops { IsLoopCount terms.loops }
    ensures goes_on { IfOk result (λ served. AllLead D.leads (D.shows desk) (D.shows served.0)) }
{
    serve_from::<D, Brand, T, R>(rt, desk, seconds, terms)
}

// The same, from what it showed in the beginning.
fn serve_from<D, B, T, R>(
    rt: &R,
    desk: D,
    seconds: T,
    terms: Terms,
) -> Result<(D, Option<ServeFault>), ServeFault>
where
    D: LoopDesk + Send + Drop,
    B: Beginning + Send + Sync,
    D::Ticket: Send,
    T: Seconds + Send + Drop,
    R: Host,
    requires loops { IsLoopCount terms.loops }
    requires begun { AllLead D.leads B.began (D.shows desk) }
    ensures goes_on { IfOk result (λ served. AllLead D.leads B.began (D.shows served.0)) }
{
    let alloc = rt.alloc();
    let nodes = desk.node_count();
    let profile = terms.clients.profile;
    let Terms {
        clients,
        loops,
        log,
    } = terms;
    let Room { polls, mailboxes } = Room::new(rt, alloc, loops)?;
    let door = Poll::new(rt)?;
    let own = Mailbox::new(alloc, door.registry(), WAKER)?;
    let doorman = Doorman::new(door, clients)?;
    let mut house: House<D, B> = House::new(alloc, desk);
    house.begin();
    let house = Mutex::new(house);
    let fault = serve_all(
        &Common {
            rt,
            alloc,
            house: &house,
            mailboxes: mailboxes.as_slice(),
            door: &own,
            nodes,
            profile,
            log: &log,
        },
        polls,
        doorman,
        seconds,
    );
    Ok((house.into_inner().into_desk(), fault))
}

// What loops wait at, and where mail is left for them.
#[derive(Drop)]
struct Room {
    polls: Vec<Poll>,
    mailboxes: Vec<Mailbox>,
}

impl Room {
    // Room for so many loops.
    fn new<R: Net>(rt: &R, alloc: Global, loops: u32) -> Result<Room, ServeFault>
        ensures polls { IfOk result (λ room. vec_len room.polls ≡ loops) }
        ensures mailboxes { IfOk result (λ room. vec_len room.mailboxes ≡ loops) }
    {
        let mut polls = Vec::new(alloc);
        let mut mailboxes = Vec::new(alloc);
        for _at in 0..loops {
            let poll = Poll::new(rt)?;
            let mailbox = Mailbox::new(alloc, poll.registry(), WAKER)?;
            mailboxes
                .push(mailbox)
                .map_err(|_| ServeFault::OutOfMemory)?;
            polls.push(poll).map_err(|_| ServeFault::OutOfMemory)?;
        }
        Ok(Room { polls, mailboxes })
    }
}

// Runs a thread for each loop, one for the clock, and one that syncs the log, where that is to be done from time to time; and
// lets clients in. All threads have ended when it returns, and all that took effect is kept.
fn serve_all<'s, D, B, T, R>(
    common: &'s Common<'s, R, D, B>,
    polls: Vec<Poll>,
    doorman: Doorman,
    seconds: T,
) -> Option<ServeFault>
where
    D: LoopDesk + Send,
    B: Beginning + Send + Sync,
    D::Ticket: Send,
    T: Seconds + Send + Drop + 's,
    R: Clock + Eprint + Threads + Wait + Sync,
{
    thread::scope(
        thread::scope_env(),
        common.rt,
        move |scope| -> Option<ServeFault> { serve_in(scope, common, polls, doorman, seconds) },
    )
}

// The same in a scope of threads.
fn serve_in<'s, E, D, B, T, R>(
    scope: &Scope<'s, E>,
    common: &'s Common<'s, R, D, B>,
    polls: Vec<Poll>,
    doorman: Doorman,
    seconds: T,
) -> Option<ServeFault>
where
    D: LoopDesk + Send,
    B: Beginning + Send + Sync,
    D::Ticket: Send,
    T: Seconds + Send + Drop + 's,
    R: Clock + Eprint + Threads + Wait + Sync,
{
    let mut threads = Vec::new(common.alloc);
    let mut others = Vec::new(common.alloc);
    let started = start_all(scope, common, polls, seconds, &mut threads, &mut others);
    let let_in = match started {
        Ok(()) => doorman.let_in(common.rt, common.alloc, common.mailboxes, common.door),
        Err(fault) => Err(fault),
    };
    for mailbox in common.mailboxes {
        mailbox.end(common.rt);
    }
    let ended = join_all(common.rt, threads);
    common.door.end(common.rt);
    let others = join_all(common.rt, others);
    first_fault(&[let_in, ended, others, keep_all(common)])
}

// The first of these faults, where there is one.
fn first_fault(ended: &[Result<(), ServeFault>]) -> Option<ServeFault>
    ensures none { IfNone result (All IsOk ended.now) }
    ensures some { IfSome result (λ fault. Contains ended.now (Err fault)) }
{
    for end in ended {
        if let Err(fault) = end {
            return Some(*fault);
        }
    }
    None
}

// Waits until all of these threads have ended.
fn join_all<R: Threads + Wait>(
    rt: &R,
    threads: Vec<JoinHandle<Result<(), ServeFault>>>,
) -> Result<(), ServeFault> {
    let mut ended = Ok(());
    for thread in threads {
        let result = thread.join(rt);
        if ended.is_ok() {
            ended = result;
        }
    }
    ended
}

// Starts all threads: those of the loops, and the others.
fn start_all<'s, E, D, B, T, R>(
    scope: &Scope<'s, E>,
    common: &'s Common<'s, R, D, B>,
    polls: Vec<Poll>,
    seconds: T,
    threads: &mut Vec<JoinHandle<Result<(), ServeFault>>>,
    others: &mut Vec<JoinHandle<Result<(), ServeFault>>>,
) -> Result<(), ServeFault>
where
    D: LoopDesk + Send,
    B: Beginning + Send + Sync,
    D::Ticket: Send,
    T: Seconds + Send + Drop + 's,
    R: Clock + Threads + Wait + Sync,
{
    start_loops(scope, common, polls, threads)?;
    start_others(scope, common, seconds, others)
}

// Starts a thread for each loop.
fn start_loops<'s, E, D, B, R>(
    scope: &Scope<'s, E>,
    common: &'s Common<'s, R, D, B>,
    polls: Vec<Poll>,
    threads: &mut Vec<JoinHandle<Result<(), ServeFault>>>,
) -> Result<(), ServeFault>
where
    D: LoopDesk + Send,
    B: Beginning + Send + Sync,
    D::Ticket: Send,
    R: Clock + Threads + Wait + Sync,
{
    for poll in polls {
        let at = threads.len();
        let Ok(thread) = scope.spawn(move || run_loop(common, poll, at)) else {
            return Err(ServeFault::ThreadFailed);
        };
        threads.push(thread).map_err(|_| ServeFault::OutOfMemory)?;
    }
    Ok(())
}

// Starts the thread of the clock, and that which syncs the log, where one is to.
fn start_others<'s, E, D, B, T, R>(
    scope: &Scope<'s, E>,
    common: &'s Common<'s, R, D, B>,
    seconds: T,
    threads: &mut Vec<JoinHandle<Result<(), ServeFault>>>,
) -> Result<(), ServeFault>
where
    D: LoopDesk + Send,
    B: Beginning + Send + Sync,
    D::Ticket: Send,
    T: Seconds + Send + Drop + 's,
    R: Clock + Threads + Wait + Sync,
{
    let clock = scope.spawn(move || run_clock(common.rt, common.mailboxes, common.door, seconds));
    let clock = clock.map_err(|_| ServeFault::ThreadFailed)?;
    threads.push(clock).map_err(|_| ServeFault::OutOfMemory)?;
    match common.log {
        Some(log) if !log.pause().is_zero() => {
            let pause = log.pause();
            let syncs = scope.spawn(move || run_syncs(common, pause));
            let syncs = syncs.map_err(|_| ServeFault::ThreadFailed)?;
            threads.push(syncs).map_err(|_| ServeFault::OutOfMemory)
        }
        _ => Ok(()),
    }
}

// What the thread of a loop does.
fn run_loop<R: Wait + Clock, D: LoopDesk, B: Beginning>(
    common: &Common<'_, R, D, B>,
    poll: Poll,
    at: usize,
) -> Result<(), ServeFault> {
    let Some(own) = common.mailboxes.get(at) else {
        return Ok(());
    };
    EventLoop::new(common, own, at).run(poll)
}
