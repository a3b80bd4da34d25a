use crate::body::Body;
use crate::name::Name;
use object::Value;
use std::alloc::AllocError;

/// What a session may ask of a queue. Seconds are counted from the queue's clock.
#[derive(Drop, PartialEq, Eq)]
pub enum Op {
    /// A new job in the used tube. The least priority is the most urgent; it is ready after `delay` seconds, and
    /// who reserves it has it for `ttr` seconds, 1 at least.
    Put {
        pri: u32,
        delay: u32,
        ttr: u32,
        body: Body,
    },
    /// Later jobs go into this tube.
    Use(Name),
    /// Jobs of this tube may be reserved too.
    Watch(Name),
    /// Jobs of this tube may not be reserved from now on, unless it is the only one that is watched.
    Ignore(Name),
    /// The best job, waited for without end, or for so many seconds.
    Reserve {
        seconds: Option<u32>,
    },
    /// The end of the job with this id.
    Delete(u64),
    /// The time to run of the job with this id begins anew.
    Touch(u64),
    /// The job goes back, under a new priority, and is ready after `delay` seconds.
    Release {
        id: u64,
        pri: u32,
        delay: u32,
    },
    /// The job is laid aside, under a new priority, until it is kicked.
    Bury {
        id: u64,
        pri: u32,
    },
    /// At most so many jobs of the used tube are ready again: buried ones, or else delayed ones.
    Kick(u32),
    /// The job with this id is ready again, if it is buried or delayed.
    KickJob(u64),
    /// The job with this id, whatever its tube, unless a session has it.
    ReserveJob(u64),
    /// The job with this id.
    Peek(u64),
    /// The next ready job of the used tube.
    PeekReady,
    /// The delayed job of the used tube that is ready first.
    PeekDelayed,
    /// The job of the used tube that was buried first.
    PeekBuried,
    /// All tubes.
    ListTubes,
    /// The used tube.
    ListTubeUsed,
    /// The watched tubes.
    ListTubesWatched,
    /// No job of the tube is reserved for so many seconds; it is paused no longer where they are none.
    Pause {
        tube: Name,
        seconds: u32,
    },
    /// What has happened to the job with this id.
    StatsJob(u64),
    /// What was done with this tube, and how many jobs and sessions it has.
    StatsTube(Name),
    /// How many jobs and sessions there are, and how often each operation was carried out.
    Stats,
}

impl Value for Op {
    ghost use Rattle.std.proofs.Common.{rules};
    ghost use Rattle.std.proofs.lemmas.Grind.{common_steps};
    ghost use Rattle.std.specs.Prelude.{◌≡◌, true};
    ghost use Rattle.bean_words.specs.contracts.op.OpPartialEq.TheImpl as of_op;
    ghost use Rattle.bean_words.specs.declared.op.Op.{Op};

    // Each kind of operation is compared with all by itself: together they have too many cases.
    ghost exact = { λ x. elim x as (λ x. (y : Op) → of_op.ghosts.eq x y ≡ true → x ≡ y) [
      | Op.Put pri delay ttr body ↦ Prim.grind (rules, common_steps)
      | Op.Use tube ↦ Prim.grind (rules, common_steps)
      | Op.Watch tube ↦ Prim.grind (rules, common_steps)
      | Op.Ignore tube ↦ Prim.grind (rules, common_steps)
      | Op.Reserve seconds ↦ Prim.grind (rules, common_steps)
      | Op.Delete id ↦ Prim.grind (rules, common_steps)
      | Op.Touch id ↦ Prim.grind (rules, common_steps)
      | Op.Release id pri delay ↦ Prim.grind (rules, common_steps)
      | Op.Bury id pri ↦ Prim.grind (rules, common_steps)
      | Op.Kick bound ↦ Prim.grind (rules, common_steps)
      | Op.KickJob id ↦ Prim.grind (rules, common_steps)
      | Op.ReserveJob id ↦ Prim.grind (rules, common_steps)
      | Op.Peek id ↦ Prim.grind (rules, common_steps)
      | Op.PeekReady ↦ Prim.grind (rules, common_steps)
      | Op.PeekDelayed ↦ Prim.grind (rules, common_steps)
      | Op.PeekBuried ↦ Prim.grind (rules, common_steps)
      | Op.ListTubes ↦ Prim.grind (rules, common_steps)
      | Op.ListTubeUsed ↦ Prim.grind (rules, common_steps)
      | Op.ListTubesWatched ↦ Prim.grind (rules, common_steps)
      | Op.Pause tube seconds ↦ Prim.grind (rules, common_steps)
      | Op.StatsJob id ↦ Prim.grind (rules, common_steps)
      | Op.StatsTube tube ↦ Prim.grind (rules, common_steps)
      | Op.Stats ↦ Prim.grind (rules, common_steps)
    ] };

    fn copy(&self) -> Result<Self, AllocError> {
        Ok(match self {
            Op::Put {
                pri,
                delay,
                ttr,
                body,
            } => Op::Put {
                pri: *pri,
                delay: *delay,
                ttr: *ttr,
                body: body.copy()?,
            },
            Op::Use(tube) => Op::Use(tube.copy()?),
            Op::Watch(tube) => Op::Watch(tube.copy()?),
            Op::Ignore(tube) => Op::Ignore(tube.copy()?),
            Op::Reserve { seconds } => Op::Reserve { seconds: *seconds },
            Op::Delete(id) => Op::Delete(*id),
            Op::Touch(id) => Op::Touch(*id),
            Op::Release { id, pri, delay } => Op::Release {
                id: *id,
                pri: *pri,
                delay: *delay,
            },
            Op::Bury { id, pri } => Op::Bury { id: *id, pri: *pri },
            Op::Kick(bound) => Op::Kick(*bound),
            Op::KickJob(id) => Op::KickJob(*id),
            Op::ReserveJob(id) => Op::ReserveJob(*id),
            Op::Peek(id) => Op::Peek(*id),
            Op::PeekReady => Op::PeekReady,
            Op::PeekDelayed => Op::PeekDelayed,
            Op::PeekBuried => Op::PeekBuried,
            Op::ListTubes => Op::ListTubes,
            Op::ListTubeUsed => Op::ListTubeUsed,
            Op::ListTubesWatched => Op::ListTubesWatched,
            Op::Pause { tube, seconds } => Op::Pause {
                tube: tube.copy()?,
                seconds: *seconds,
            },
            Op::StatsJob(id) => Op::StatsJob(*id),
            Op::StatsTube(tube) => Op::StatsTube(tube.copy()?),
            Op::Stats => Op::Stats,
        })
    }
}
