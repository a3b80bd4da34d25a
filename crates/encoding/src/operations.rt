ghost use Rattle.std.specs.Prelude.{◌≡◌, ◌++◌, OnOk};
ghost use Rattle.encoding.specs.Formats.{Format, Gives};
ghost use Rattle.encoding.specs.Operations.{op_kind, args_bytes, FitsOp, op_of, job_op_of, tube_op_of, look_of, op_format};

use crate::encode::Encode;
use crate::fault::DecodeFault;
use bean_words::{Body, Name, Op};
use std::alloc::{AllocError, Global};

// Which operation it is.
#[tactic(auto, unfolding(crate::specs::Operations::op_kind))]
fn kind_of(op: &Op) -> u8
    ensures { result ≡ op_kind op.now }
{
    match op {
        Op::Put { .. } => 0,
        Op::Use(_) => 1,
        Op::Watch(_) => 2,
        Op::Ignore(_) => 3,
        Op::Reserve { .. } => 4,
        Op::Delete(_) => 5,
        Op::Touch(_) => 6,
        Op::Release { .. } => 7,
        Op::Bury { .. } => 8,
        Op::Kick(_) => 9,
        Op::KickJob(_) => 10,
        Op::ReserveJob(_) => 11,
        Op::Peek(_) => 12,
        Op::PeekReady => 13,
        Op::PeekDelayed => 14,
        Op::PeekBuried => 15,
        Op::ListTubes => 16,
        Op::ListTubeUsed => 17,
        Op::ListTubesWatched => 18,
        Op::Pause { .. } => 19,
        Op::StatsJob(_) => 20,
        Op::StatsTube(_) => 21,
        Op::Stats => 22,
    }
}

// Appends what belongs to it.
#[tactic(auto, unfolding(crate::specs::Operations::args_bytes, crate::specs::Operations::FitsOp))]
fn encode_args(op: &Op, out: &mut Vec<u8>) -> Result<(), AllocError>
    ensures ok { OnOk result (out.new.items ≡ out.old.items ++ args_bytes op.now) }
    ensures fits { OnOk result (FitsOp op.now) }
{
    match op {
        Op::Put {
            pri,
            delay,
            ttr,
            body,
        } => {
            pri.encode(out)?;
            delay.encode(out)?;
            ttr.encode(out)?;
            body.encode(out)
        }
        Op::Use(tube) | Op::Watch(tube) | Op::Ignore(tube) | Op::StatsTube(tube) => tube.encode(
            out,
        ),
        Op::Reserve { seconds } => seconds.encode(out),
        Op::Delete(id) | Op::Touch(id) | Op::KickJob(id) => id.encode(out),
        Op::ReserveJob(id) | Op::Peek(id) | Op::StatsJob(id) => id.encode(out),
        Op::Release { id, pri, delay } => (*id, (*pri, *delay)).encode(out),
        Op::Bury { id, pri } => (*id, *pri).encode(out),
        Op::Kick(bound) => bound.encode(out),
        Op::Pause { tube, seconds } => {
            tube.encode(out)?;
            seconds.encode(out)
        }
        Op::PeekReady | Op::PeekDelayed | Op::PeekBuried | Op::Stats => Ok(()),
        Op::ListTubes | Op::ListTubeUsed | Op::ListTubesWatched => Ok(()),
    }
}

// An operation that looks, of this kind.
#[tactic(auto, unfolding(crate::specs::Operations::look_of))]
fn decode_look(kind: u8, alloc: Global, bytes: &[u8]) -> Result<(Op, &[u8]), DecodeFault>
    ensures { Gives (λ x. (x.0, x.1.now)) result (look_of kind bytes.now) }
{
    match kind {
        12 => {
            let (id, rest) = u64::decode(alloc, bytes)?;
            Ok((Op::Peek(id), rest))
        }
        13 => Ok((Op::PeekReady, bytes)),
        14 => Ok((Op::PeekDelayed, bytes)),
        15 => Ok((Op::PeekBuried, bytes)),
        16 => Ok((Op::ListTubes, bytes)),
        17 => Ok((Op::ListTubeUsed, bytes)),
        18 => Ok((Op::ListTubesWatched, bytes)),
        20 => {
            let (id, rest) = u64::decode(alloc, bytes)?;
            Ok((Op::StatsJob(id), rest))
        }
        21 => {
            let (tube, rest) = Name::decode(alloc, bytes)?;
            Ok((Op::StatsTube(tube), rest))
        }
        22 => Ok((Op::Stats, bytes)),
        _ => Err(DecodeFault::Malformed),
    }
}

// Or one of a tube.
#[tactic(auto, unfolding(crate::specs::Operations::tube_op_of))]
fn decode_tube_op(kind: u8, alloc: Global, bytes: &[u8]) -> Result<(Op, &[u8]), DecodeFault>
    ensures { Gives (λ x. (x.0, x.1.now)) result (tube_op_of kind bytes.now) }
{
    match kind {
        1 => {
            let (tube, rest) = Name::decode(alloc, bytes)?;
            Ok((Op::Use(tube), rest))
        }
        2 => {
            let (tube, rest) = Name::decode(alloc, bytes)?;
            Ok((Op::Watch(tube), rest))
        }
        3 => {
            let (tube, rest) = Name::decode(alloc, bytes)?;
            Ok((Op::Ignore(tube), rest))
        }
        19 => {
            let ((tube, seconds), rest) = <(Name, u32)>::decode(alloc, bytes)?;
            Ok((Op::Pause { tube, seconds }, rest))
        }
        _ => decode_look(kind, alloc, bytes),
    }
}

// Or one of a job by its id.
#[tactic(auto, unfolding(crate::specs::Operations::job_op_of))]
fn decode_job_op(kind: u8, alloc: Global, bytes: &[u8]) -> Result<(Op, &[u8]), DecodeFault>
    ensures { Gives (λ x. (x.0, x.1.now)) result (job_op_of kind bytes.now) }
{
    match kind {
        5 => {
            let (id, rest) = u64::decode(alloc, bytes)?;
            Ok((Op::Delete(id), rest))
        }
        6 => {
            let (id, rest) = u64::decode(alloc, bytes)?;
            Ok((Op::Touch(id), rest))
        }
        7 => {
            let ((id, (pri, delay)), rest) = <(u64, (u32, u32))>::decode(alloc, bytes)?;
            Ok((Op::Release { id, pri, delay }, rest))
        }
        8 => {
            let ((id, pri), rest) = <(u64, u32)>::decode(alloc, bytes)?;
            Ok((Op::Bury { id, pri }, rest))
        }
        10 => {
            let (id, rest) = u64::decode(alloc, bytes)?;
            Ok((Op::KickJob(id), rest))
        }
        11 => {
            let (id, rest) = u64::decode(alloc, bytes)?;
            Ok((Op::ReserveJob(id), rest))
        }
        _ => decode_tube_op(kind, alloc, bytes),
    }
}

// Or one of those.
#[tactic(auto, unfolding(crate::specs::Operations::op_of))]
fn decode_op(kind: u8, alloc: Global, bytes: &[u8]) -> Result<(Op, &[u8]), DecodeFault>
    ensures { Gives (λ x. (x.0, x.1.now)) result (op_of kind bytes.now) }
{
    match kind {
        0 => {
            let (numbers, rest) = <(u32, (u32, u32))>::decode(alloc, bytes)?;
            let (body, rest) = Body::decode(alloc, rest)?;
            let (pri, (delay, ttr)) = numbers;
            Ok((
                Op::Put {
                    pri,
                    delay,
                    ttr,
                    body,
                },
                rest,
            ))
        }
        4 => {
            let (seconds, rest) = <Option<u32>>::decode(alloc, bytes)?;
            Ok((Op::Reserve { seconds }, rest))
        }
        9 => {
            let (bound, rest) = u32::decode(alloc, bytes)?;
            Ok((Op::Kick(bound), rest))
        }
        _ => decode_job_op(kind, alloc, bytes),
    }
}

impl Encode for Op {
    ghost format = { op_format };

    #[tactic(auto, unfolding(crate::specs::Operations::op_bytes))]
    fn encode(&self, out: &mut Vec<u8>) -> Result<(), AllocError> {
        out.push(kind_of(self))?;
        encode_args(self, out)
    }

    #[tactic(auto, unfolding(crate::specs::Operations::op_at))]
    fn decode(alloc: Global, bytes: &[u8]) -> Result<(Op, &[u8]), DecodeFault> {
        match bytes {
            [] => Err(DecodeFault::Malformed),
            [kind, rest @ ..] => decode_op(*kind, alloc, rest),
        }
    }
}
