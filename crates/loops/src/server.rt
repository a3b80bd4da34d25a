ghost use Rattle.std.specs.Prelude.{◌≡◌, [], IfOk};
ghost use Rattle.event_loops.specs.LoopCounts.{IsLoopCount};
ghost use Rattle.loops.specs.Comparing.{AllCompared};
ghost use Rattle.loops.specs.Desks.{LeanGoesOn};
ghost use Rattle.loops.specs.Taking.{HasTakenCount};
ghost use Rattle.turns.specs.Going.{HallGoesOn};

use crate::forgetting_desk::ForgettingDesk;
use crate::hall_desk::HallDesk;
use bean_words::{Op, Reply};
use counted_hall::Seconds;
use event_loops::{Clients, Host, Logging, ServeFault, SharedLog, Terms, serve_desk};
use forgetting_hall::ForgettingHall;
use hall::{Hall, Ticket};
use object::Object;

/// A hall that keeps all, and the tickets of the sessions that ended there before.
#[derive(Drop)]
pub struct KeptHall<O: Object> {
    pub hall: Hall<O>,
    pub tickets: Vec<Ticket<O>>,
}

/// What is left when a server has ended: its hall, and what went wrong, where something did.
#[derive(Drop)]
pub struct Served<O: Object> {
    pub hall: Hall<O>,
    /// A mark for each session, set where its ticket agreed with the hall at its end.
    pub compared: Vec<bool>,
    /// So many acts those tickets have.
    pub acts: u64,
    pub fault: Option<ServeFault>,
}

/// The same of a server whose hall forgets.
#[derive(Drop)]
pub struct ServedForgetting<O: Object> {
    pub hall: ForgettingHall<O>,
    pub fault: Option<ServeFault>,
}

/// Serves clients by so many loops, 1 to 64, over a hall that keeps all. It returns when as many as there was said have left;
/// all threads have ended then.
pub fn serve_clients<O: Object<Op = Op, Reply = Reply> + Send, T: Seconds + Send + Drop, R: Host>(
    rt: &R,
    hall: Hall<O>,
    clients: Clients,
    seconds: T,
    loops: u32,
) -> Result<Served<O>, ServeFault>
    requires none { hall.book ≡ [] }
    requires loops { IsLoopCount loops }
    ensures served { IfOk result (λ s.
        AllCompared s.hall.book s.compared.items s.acts s.fault) }
    ensures goes_on { IfOk result (λ s. HallGoesOn hall s.hall) }
{
    let desk = HallDesk::new(rt.alloc(), hall);
    let terms = Terms {
        clients,
        loops,
        log: None,
    };
    serve_whole(rt, desk, seconds, terms)
}

/// The same over a hall that goes on from a log, which is kept as by `serve_logged`. Each session of the log needs a mark,
/// too.
pub fn serve_again<O: Object<Op = Op, Reply = Reply> + Send, T: Seconds + Send + Drop, R: Host>(
    rt: &R,
    kept: KeptHall<O>,
    logging: Logging,
    clients: Clients,
    seconds: T,
    loops: u32,
) -> Result<Served<O>, ServeFault>
    requires loops { IsLoopCount loops }
    ensures served { IfOk result (λ s.
        AllCompared s.hall.book s.compared.items s.acts s.fault) }
    ensures goes_on { IfOk result (λ s. HallGoesOn kept.hall s.hall) }
{
    let KeptHall { hall, tickets } = kept;
    let desk = HallDesk::over(rt.alloc(), hall, tickets.as_slice())?;
    let terms = Terms {
        clients,
        loops,
        log: Some(SharedLog::new(logging)),
    };
    serve_whole(rt, desk, seconds, terms)
}

// Serves clients over a hall that keeps all.
fn serve_whole<O: Object<Op = Op, Reply = Reply> + Send, T: Seconds + Send + Drop, R: Host>(
    rt: &R,
    desk: HallDesk<O>,
    seconds: T,
    terms: Terms,
) -> Result<Served<O>, ServeFault>
    requires loops { IsLoopCount terms.loops }
    ensures served { IfOk result (λ s.
        AllCompared s.hall.book s.compared.items s.acts s.fault) }
    ensures goes_on { IfOk result (λ s. HallGoesOn desk.hall s.hall) }
{
    let (desk, fault) = serve_desk(rt, desk, seconds, terms)?;
    let (hall, compared, acts, agree) = desk.into_hall();
    if agree {
        return Ok(Served {
            hall,
            compared,
            acts,
            fault,
        });
    }
    Ok(Served {
        hall,
        compared,
        acts,
        fault: Some(fault.unwrap_or(ServeFault::BadNumber)),
    })
}

/// The same over a hall that forgets. What a client is told is what the hall had for its session's last command at that
/// time.
pub fn serve_forgetting<
    O: Object<Op = Op, Reply = Reply> + Send,
    T: Seconds + Send + Drop,
    R: Host,
>(
    rt: &R,
    hall: ForgettingHall<O>,
    clients: Clients,
    seconds: T,
    loops: u32,
) -> Result<ServedForgetting<O>, ServeFault>
    requires loops { IsLoopCount loops }
    ensures goes_on { IfOk result (λ s. LeanGoesOn O.rules hall s.hall) }
{
    let desk = ForgettingDesk::new(rt.alloc(), hall);
    let terms = Terms {
        clients,
        loops,
        log: None,
    };
    serve_lean(rt, desk, seconds, terms)
}

/// The same, where a log is kept of what takes effect from now on: it has what took effect in the hall before. Nobody is told
/// anything before all that took effect until then is kept there. Where the log fails, nobody is told anything more, and the
/// server ends.
pub fn serve_logged<O: Object<Op = Op, Reply = Reply> + Send, T: Seconds + Send + Drop, R: Host>(
    rt: &R,
    hall: ForgettingHall<O>,
    logging: Logging,
    clients: Clients,
    seconds: T,
    loops: u32,
) -> Result<ServedForgetting<O>, ServeFault>
    requires loops { IsLoopCount loops }
    requires in_step { HasTakenCount O.rules hall logging.journal.synced }
    ensures goes_on { IfOk result (λ s. LeanGoesOn O.rules hall s.hall) }
{
    let taken = logging.journal.synced().upto();
    let desk = ForgettingDesk::logging(rt.alloc(), hall, taken);
    let terms = Terms {
        clients,
        loops,
        log: Some(SharedLog::new(logging)),
    };
    serve_lean(rt, desk, seconds, terms)
}

// Serves clients over a hall that forgets.
fn serve_lean<O: Object<Op = Op, Reply = Reply> + Send, T: Seconds + Send + Drop, R: Host>(
    rt: &R,
    desk: ForgettingDesk<O>,
    seconds: T,
    terms: Terms,
) -> Result<ServedForgetting<O>, ServeFault>
    requires loops { IsLoopCount terms.loops }
    ensures goes_on { IfOk result (λ s. LeanGoesOn O.rules desk.hall s.hall) }
{
    let (desk, fault) = serve_desk(rt, desk, seconds, terms)?;
    let hall = desk.into_hall();
    Ok(ServedForgetting { hall, fault })
}
