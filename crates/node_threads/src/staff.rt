ghost use Rattle.std.specs.Prelude.{◌≡◌, ◌≢◌, ◌+◌, ◌≤◌, ◌<◌, ◌-◌, ◌^◌, None, Some, Err, IfSome, OnOk, OnErr, vec_len, vec_capacity};
ghost use Rattle.node_threads.specs.Clusters.{HaveRoom, LeavesAccept};
ghost use Rattle.node_threads.specs.Rings.{node_after};
ghost use Rattle.node_threads.specs.declared.cluster_error.ClusterError.TheVariants.{BadNumber, ListenFailed, OutOfMemory, ThreadFailed};

use crate::accept::Accept;
use crate::attending::Desk;
use crate::clock::run_clock;
use crate::cluster_error::ClusterError;
use crate::faults::Faults;
use crate::gate::Gate;
use crate::node_thread::run_node;
use crate::shared::Shared;
use crate::tally::Tally;
use crate::worker::Worker;
use bean_words::{Op, Reply};
use counted_hall::Seconds;
use crossbeam_channel::{Receiver, Sender};
use object::Object;
use session::{ByteIn, ByteOut, Failed};
use std::alloc::Global;
use std::rt::Clock;
use std::sync::Wait;
use std::sync::ledger::Ledger;
use std::thread;
use std::thread::{JoinHandle, Scope, Threads};

/// What the threads of a cluster have in common.
#[derive(Drop)]
pub(crate) struct Common<'s, O: Object, S: Ledger, C: Ledger, I, W, R, H> {
    pub(crate) rt: &'s R,
    pub(crate) alloc: Global,
    pub(crate) shared: &'s Shared<O, S, C>,
    pub(crate) clients: &'s Receiver<(I, W), Global>,
    pub(crate) rig: &'s H,
}

impl<
    's,
    O: Object<Op = Op, Reply = Reply>,
    S: Ledger,
    C: Ledger,
    I: ByteIn + Drop,
    W: ByteOut + Drop,
    R: Wait,
    H: Gate + Faults,
> Common<'s, O, S, C, I, W, R, H> {
    // What the thread of a worker does.
    fn work(&self, worker: Worker<O, S, C>, desk: Desk) -> Worker<O, S, C> {
        worker.serve_clients(
            self.rt,
            self.alloc,
            self.shared,
            self.clients,
            desk,
            self.rig,
        )
    }

    // Where the first worker stands. Worker k hands in at node 1 + k mod N of N nodes.
    fn first_desk(&self) -> Desk
        ensures worker { result.worker ≡ 1 }
        ensures node { result.node ≡ node_after (vec_len self.now.shared.now.places.nodes) 1 }
    {
        Desk {
            worker: 1,
            node: self.shared.next_node(1),
        }
    }

    // Where the next worker stands.
    fn desk_after(&self, desk: Desk) -> Desk
        requires { desk.worker < 2 ^ 32 - 1 }
        ensures worker { result.worker ≡ desk.worker + 1 }
        ensures node { result.node
            ≡ node_after (vec_len self.now.shared.now.places.nodes) desk.node }
    {
        Desk {
            worker: desk.worker + 1,
            node: self.shared.next_node(desk.node),
        }
    }
}

/// Where clients come in, and where they are handed to the workers.
#[derive(Drop)]
pub(crate) struct Door<A: Accept> {
    pub(crate) accept: A,
    pub(crate) clients: Sender<(A::R, A::W), Global>,
}

impl<A: Accept + Drop> Door<A> {
    // Hands in clients until no more are accepted, and answers what accepts them, as it is then. One for whom there is no
    // memory ends unanswered.
    fn let_in<R: Wait>(self, rt: &R) -> (A, Option<ClusterError>)
        ensures fault { IfSome result.1 (λ fault. fault ≡ ListenFailed) }
        ensures clients { LeavesAccept A.Accept self.accept result.0 result.1 }
    {
        let Door {
            mut accept,
            clients,
        } = self;
        for _ in rt.forever() {
            match accept.next() {
                Ok(Some(client)) => {
                    let _ = clients.send(rt, client);
                }
                Ok(None) => return (accept, None),
                Err(Failed) => return (accept, Some(ClusterError::ListenFailed)),
            }
        }
        unreachable!()
    }

    // Lets nobody in any more.
    fn shut(self) -> A
        ensures { result ≡ self.accept }
    {
        let Door { accept, clients: _ } = self;
        accept
    }
}

/// What the threads of a cluster leave when they have ended: what the workers have brought back, what accepted clients,
/// as it was then, and what went wrong, where something did.
#[derive(Drop)]
pub(crate) struct Finished<O: Object, S: Ledger, C: Ledger, A> {
    pub(crate) tally: Tally<O, S, C>,
    pub(crate) accept: A,
    pub(crate) fault: Option<ClusterError>,
}

/// Runs all threads of a cluster: they have ended when it returns. It answers those of the nodes and the clock, too.
pub(crate) fn run_threads<
    's,
    O: Object<Op = Op, Reply = Reply> + Send,
    S: Ledger + Send + Sync,
    C: Ledger + Send + Sync,
    A: Accept + Drop,
    T: Seconds + Send + Drop + 's,
    R: Threads + Wait + Clock + Sync,
    H: Gate + Faults + Sync,
>(
    common: &'s Common<'s, O, S, C, A::R, A::W, R, H>,
    nodes: u8,
    seconds: T,
    workers: u32,
    tally: Tally<O, S, C>,
    door: Door<A>,
    crew: Vec<JoinHandle<()>>,
) -> (Finished<O, S, C, A>, Vec<JoinHandle<()>>)
    requires room { HaveRoom nodes workers tally.sessions tally.commands tally.tickets crew }
    ensures session_parts { result.0.tally.sessions.parts ≡ tally.sessions.parts }
    ensures command_parts { result.0.tally.commands.parts ≡ tally.commands.parts }
    ensures crew { result.0.fault ≡ None → vec_len result.1 ≡ vec_len crew + nodes + 1 }
    ensures all { result.0.fault ≡ None →
        vec_len result.0.tally.tickets ≡ vec_len tally.tickets + workers }
    ensures clients { LeavesAccept A.Accept door.accept result.0.accept result.0.fault }
    ensures fault { result.0.fault ≢ Some BadNumber }
    ensures memory { result.0.fault ≢ Some OutOfMemory }
{
    thread::scope(
        thread::scope_env(),
        common.rt,
        move |scope| -> (Finished<O, S, C, A>, Vec<JoinHandle<()>>)
            requires room { HaveRoom nodes workers tally.sessions tally.commands
                tally.tickets crew }
            ensures session_parts { result.0.tally.sessions.parts ≡ tally.sessions.parts }
            ensures command_parts { result.0.tally.commands.parts ≡ tally.commands.parts }
            ensures crew { result.0.fault ≡ None → vec_len result.1 ≡ vec_len crew + nodes + 1 }
            ensures all { result.0.fault ≡ None →
                vec_len result.0.tally.tickets ≡ vec_len tally.tickets + workers }
            ensures clients { LeavesAccept A.Accept door.accept result.0.accept result.0.fault }
            ensures fault { result.0.fault ≢ Some BadNumber }
            ensures memory { result.0.fault ≢ Some OutOfMemory }
        {
            let mut crew = crew;
            let started = start_nodes_and_clock(scope, common, nodes, seconds, &mut crew);
            let finished = match started {
                Ok(()) => run_workers(scope, common, common.first_desk(), workers, tally, door),
                Err(fault) => Finished {
                    tally,
                    accept: door.shut(),
                    fault: Some(fault),
                },
            };
            common.shared.end();
            (finished, crew)
        },
    )
}

// Starts a thread for each node, and one for the clock.
fn start_nodes_and_clock<
    's,
    E,
    O: Object<Op = Op, Reply = Reply> + Send,
    S: Ledger + Send + Sync,
    C: Ledger + Send + Sync,
    I: Send,
    W: Send,
    T: Seconds + Send + Drop + 's,
    R: Wait + Clock + Sync,
    H: Gate + Faults + Sync,
>(
    scope: &Scope<'s, E>,
    common: &'s Common<'s, O, S, C, I, W, R, H>,
    nodes: u8,
    seconds: T,
    crew: &mut Vec<JoinHandle<()>>,
) -> Result<(), ClusterError>
    requires room { vec_len crew.old + nodes + 1 ≤ vec_capacity crew.old }
    ensures all { OnOk result (vec_len crew.new ≡ vec_len crew.old + nodes + 1) }
    ensures fault { OnErr result (result ≡ Err ThreadFailed) }
{
    let Common {
        rt,
        shared,
        rig,
        ..
    } = common;
    for before in 0..nodes {
        let node = before + 1;
        let Ok(thread) = scope.spawn(move || run_node(*rt, *shared, node, *rig)) else {
            return Err(ClusterError::ThreadFailed);
        };
        crew.push_reserved(thread);
    }
    let Ok(thread) = scope.spawn(move || run_clock(*rt, *shared, seconds, *rig)) else {
        return Err(ClusterError::ThreadFailed);
    };
    crew.push_reserved(thread);
    Ok(())
}

// Starts a thread for each worker from this one on, lets clients in, and waits until all workers have come back.
fn run_workers<
    's,
    E,
    O: Object<Op = Op, Reply = Reply> + Send,
    S: Ledger + Send + Sync,
    C: Ledger + Send + Sync,
    A: Accept + Drop,
    R: Threads + Wait + Clock + Sync,
    H: Gate + Faults + Sync,
>(
    scope: &Scope<'s, E>,
    common: &'s Common<'s, O, S, C, A::R, A::W, R, H>,
    desk: Desk,
    workers: u32,
    mut tally: Tally<O, S, C>,
    door: Door<A>,
) -> Finished<O, S, C, A>
    requires few { workers ≤ 64 }
    requires number { desk.worker ≤ workers + 1 }
    requires session_parts { workers + 1 < desk.worker + tally.sessions.parts }
    requires command_parts { workers + 1 < desk.worker + tally.commands.parts }
    requires room { vec_len tally.tickets + workers + 1 ≤ vec_capacity tally.tickets + desk.worker }
    ensures session_parts { result.tally.sessions.parts ≡ tally.sessions.parts }
    ensures command_parts { result.tally.commands.parts ≡ tally.commands.parts }
    ensures room { vec_capacity result.tally.tickets ≡ vec_capacity tally.tickets }
    ensures count { vec_len result.tally.tickets + desk.worker
        ≤ vec_len tally.tickets + workers + 1 }
    ensures all { result.fault ≡ None → vec_len result.tally.tickets + desk.worker
        ≡ vec_len tally.tickets + workers + 1 }
    ensures clients { LeavesAccept A.Accept door.accept result.accept result.fault }
    ensures fault { result.fault ≢ Some BadNumber }
    ensures memory { result.fault ≢ Some OutOfMemory }
{
    if desk.worker > workers {
        let (accept, fault) = door.let_in(common.rt);
        return Finished {
            tally,
            accept,
            fault,
        };
    }
    let worker = tally.send_out(common.alloc);
    match scope.spawn(move || common.work(worker, desk)) {
        Ok(handle) => {
            let next = common.desk_after(desk);
            let mut finished = run_workers(scope, common, next, workers, tally, door);
            finished.tally.take_in(handle.join(common.rt));
            finished
        }
        Err(refused) => {
            let accept = door.shut();
            let work = refused.value;
            tally.take_in(work());
            Finished {
                tally,
                accept,
                fault: Some(ClusterError::ThreadFailed),
            }
        }
    }
}
