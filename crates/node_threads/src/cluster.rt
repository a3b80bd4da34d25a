ghost use Rattle.std.specs.Prelude.{◌≡◌, ◌≢◌, ◌+◌, ◌≤◌, [], Some, IfOk, length, vec_capacity};
ghost use Rattle.node_threads.specs.declared.cluster_error.ClusterError.TheVariants.{BadNumber, OutOfMemory};
ghost use Rattle.counted_hall.specs.Accounts.{all_tickets};
ghost use Rattle.node_threads.specs.Clusters.{IsAccountedFor, IsWorkerCount, LeavesCluster};
ghost use Rattle.counted_hall.specs.Counting.{CountsNone, HaveAllParts};

use crate::accept::Accept;
use crate::cluster_error::ClusterError;
use crate::faults::{Faults, NoFaults};
use crate::gate::Gate;
use crate::places::WaitingPlaces;
use crate::rig::Rig;
use crate::shared::Shared;
use crate::staff::{Common, Door, Finished, run_threads};
use crate::tally::Tally;
use bean_words::{Op, Reply};
use counted_hall::{Seconds, are_its_tickets};
use crossbeam_channel::{Receiver, Sender};
use hall::{Hall, Ticket};
use object::Object;
use std::alloc::{AllocError, Global};
use std::marker::Brand;
use std::rt::Clock;
use std::sync::Wait;
use std::sync::ledger::{Blank, Ledger};
use std::thread::{JoinHandle, Threads};

/// What is left when a cluster has ended: its hall, the tickets of its sessions, a list for each worker, what accepted its
/// clients, and what went wrong, where something did.
#[derive(Drop)]
pub struct Ended<O: Object, A> {
    pub hall: Hall<O>,
    pub tickets: Vec<Vec<Ticket<O>>>,
    pub accept: A,
    pub fault: Option<ClusterError>,
}

/// Serves the clients that are accepted, over the nodes of this hall: each node, the clock and each worker has a thread.
/// It returns when no client more is accepted and all were served; all threads have ended then.
pub fn run_cluster<
    O: Object<Op = Op, Reply = Reply> + Send,
    A: Accept + Drop,
    T: Seconds + Send + Drop,
    G: Gate + Sync,
    R: Threads + Wait + Clock + Sync,
>(
    rt: &R,
    alloc: Global,
    hall: Hall<O>,
    accept: A,
    seconds: T,
    workers: u32,
    gate: &G,
) -> Ended<O, A>
    requires none { hall.book ≡ [] }
    requires workers { IsWorkerCount workers }
    ensures left { LeavesCluster A.Accept hall result.hall accept result.accept
        result.tickets.items workers result.fault }
{
    run_cluster_faulty(rt, alloc, hall, accept, seconds, workers, gate, &NoFaults)
}

/// Does the same while mishaps befall the nodes: before each turn of a node one is chosen.
pub fn run_cluster_faulty<
    O: Object<Op = Op, Reply = Reply> + Send,
    A: Accept + Drop,
    T: Seconds + Send + Drop,
    G: Gate + Sync,
    F: Faults + Sync,
    R: Threads + Wait + Clock + Sync,
>(
    rt: &R,
    alloc: Global,
    hall: Hall<O>,
    accept: A,
    seconds: T,
    workers: u32,
    gate: &G,
    faults: &F,
) -> Ended<O, A>
    requires none { hall.book ≡ [] }
    requires workers { IsWorkerCount workers }
    ensures left { LeavesCluster A.Accept hall result.hall accept result.accept
        result.tickets.items workers result.fault }
{
    let Ok(room) = Room::new(alloc, &hall, workers) else {
        return Ended {
            hall,
            tickets: Vec::new(alloc),
            accept,
            fault: Some(ClusterError::OutOfMemory),
        };
    };
    let parts = u64::from(workers) + 1;
    let outside = Outside {
        accept,
        seconds,
        rig: &Rig { gate, faults },
    };
    run_counted::<O, Brand, Brand, A, T, Rig<'_, G, F>, R>(
        rt,
        alloc,
        hall,
        room,
        outside,
        workers,
        Blank::new(parts),
        Blank::new(parts),
    )
}

// What a cluster takes memory for before it takes a client.
#[derive(Drop)]
struct Room<O: Object, A: Accept> {
    places: WaitingPlaces,
    tickets: Vec<Vec<Ticket<O>>>,
    crew: Vec<JoinHandle<()>>,
    sender: Sender<(A::R, A::W), Global>,
    receiver: Receiver<(A::R, A::W), Global>,
}

impl<O: Object, A: Accept> Room<O, A> {
    // Room for the nodes of this hall and so many workers.
    fn new(alloc: Global, hall: &Hall<O>, workers: u32) -> Result<Room<O, A>, AllocError>
        ensures tickets { IfOk result (λ room. room.tickets.items ≡ []) }
        ensures room { IfOk result (λ room. workers ≤ vec_capacity room.tickets) }
        ensures crew { IfOk result (λ room. room.crew.items ≡ []) }
        ensures crew_room { IfOk result (λ room.
            length hall.now.nodes.network.members + 1 ≤ vec_capacity room.crew) }
    {
        let (sender, receiver) = crossbeam_channel::bounded(alloc, workers as usize)?;
        let nodes = hall.members().count();
        Ok(Room {
            places: WaitingPlaces::new(alloc, nodes, workers)?,
            tickets: Vec::with_capacity(alloc, workers as usize)?,
            crew: Vec::with_capacity(alloc, usize::from(nodes) + 1)?,
            sender,
            receiver,
        })
    }
}

// What comes from outside: clients, the seconds of the clock, and what a test hangs in.
#[derive(Drop)]
struct Outside<'a, A, T, H> {
    accept: A,
    seconds: T,
    rig: &'a H,
}

// Runs the cluster over counts of sessions and of commands.
fn run_counted<
    O: Object<Op = Op, Reply = Reply> + Send,
    S: Ledger + Send + Sync,
    C: Ledger + Send + Sync,
    A: Accept + Drop,
    T: Seconds + Send + Drop,
    H: Gate + Faults + Sync,
    R: Threads + Wait + Clock + Sync,
>(
    rt: &R,
    alloc: Global,
    hall: Hall<O>,
    room: Room<O, A>,
    outside: Outside<'_, A, T, H>,
    workers: u32,
    sessions: Blank,
    commands: Blank,
) -> Ended<O, A>
    requires none { CountsNone S.Ledger C.Ledger hall.book sessions commands }
    requires few { workers ≤ 64 }
    requires tickets { room.tickets.items ≡ [] }
    requires room { workers ≤ vec_capacity room.tickets }
    requires crew { room.crew.items ≡ [] }
    requires crew_room { length hall.nodes.network.members + 1 ≤ vec_capacity room.crew }
    requires session_parts { S.parts ≡ workers + 1 }
    requires command_parts { C.parts ≡ workers + 1 }
    ensures left { LeavesCluster A.Accept hall result.hall outside.entry.accept result.accept
        result.tickets.items workers result.fault }
    ensures memory { result.fault ≢ Some OutOfMemory }
{
    let nodes = hall.members().count();
    let Room {
        places,
        tickets,
        crew,
        sender,
        receiver,
    } = room;
    let (shared, sessions, commands) = Shared::<O, S, C>::new(
        alloc, hall, places, sessions, commands,
    );
    let tally = Tally::new(tickets, sessions, commands);
    let common = Common {
        rt,
        alloc,
        shared: &shared,
        clients: &receiver,
        rig: outside.rig,
    };
    let door = Door {
        accept: outside.accept,
        clients: sender,
    };
    let (finished, _crew) = run_threads(
        &common,
        nodes,
        outside.seconds,
        workers,
        tally,
        door,
        crew,
    );
    end(shared, finished)
}

// Compares what the workers have brought back with the hall.
fn end<O: Object, S: Ledger, C: Ledger, A>(
    shared: Shared<O, S, C>,
    finished: Finished<O, S, C, A>,
) -> Ended<O, A>
    requires all { HaveAllParts S.Ledger C.Ledger finished.tally.sessions finished.tally.commands }
    requires fault { finished.fault ≢ Some BadNumber }
    requires memory { finished.fault ≢ Some OutOfMemory }
    ensures accounted { IsAccountedFor result.hall (all_tickets result.tickets.items) result.fault }
    ensures memory { result.fault ≢ Some OutOfMemory }
    ensures tickets { result.tickets ≡ finished.tally.tickets }
    ensures accept { result.accept ≡ finished.accept }
    ensures same { result.fault ≢ Some BadNumber → result.fault ≡ finished.fault }
{
    let Finished {
        tally,
        accept,
        fault,
    } = finished;
    let Tally {
        tickets,
        mut sessions,
        mut commands,
    } = tally;
    let (hall, mut marks) = shared.into_hall(&mut sessions, &mut commands);
    let fault = if are_its_tickets(&hall, tickets.as_slice(), marks.as_mut_slice()) {
        fault
    } else {
        Some(ClusterError::BadNumber)
    };
    Ended {
        hall,
        tickets,
        accept,
        fault,
    }
}
