ghost use Rattle.std.specs.Prelude.{◌∷◌, [], codes, decimal, OnOk};
ghost use Rattle.object.specs.Results.{WritesAtEnd};
ghost use Rattle.bean_words.specs.Names.{IsName};
ghost use Rattle.chronicle_text.specs.Acts.{op_words, act_words};
ghost use Rattle.chronicle_text.specs.Lines.{spaced, body_word};
ghost use Rattle.chronicle_text.specs.Values.{IsActValue, IsOpValue};
ghost use Rattle.hex.specs.Hex.{IsBytes};

use crate::append::{append_body, append_count, append_number, append_two, append_word};
use bean_words::{Body, Name, Op};
use object::Act;
use std::alloc::AllocError;

/// Writes the words for an act at the end, each after a space. Where memory runs out, a part of them may stand there.
#[tactic(auto, unfolding(crate::specs::Acts::act_words))]
pub fn append_act(act: &Act<Op>, out: &mut Vec<u8>) -> Result<(), AllocError>
    ensures ok { WritesAtEnd result out.old out.new (spaced (act_words act.now)) }
    ensures value { OnOk result (IsActValue act.now) }
{
    match act {
        Act::Do(op) => append_op(op, out),
        Act::Close => append_word(b"close", out),
        Act::Tick => append_word(b"tick", out),
    }
}

/// Writes the words for an operation at the end, each after a space. Where memory runs out, a part of them may stand there.
#[tactic(auto, unfolding(crate::specs::Acts::op_words))]
fn append_op(op: &Op, out: &mut Vec<u8>) -> Result<(), AllocError>
    ensures ok { WritesAtEnd result out.old out.new (spaced (op_words op.now)) }
    ensures value { OnOk result (IsOpValue op.now) }
{
    match op {
        Op::Put {
            pri,
            delay,
            ttr,
            body,
        } => append_put(*pri, *delay, *ttr, body, out),
        Op::Use(tube) => append_two(b"use", tube.as_slice(), out),
        Op::Watch(tube) => append_two(b"watch", tube.as_slice(), out),
        Op::Ignore(tube) => append_two(b"ignore", tube.as_slice(), out),
        Op::Reserve { seconds: None } => append_word(b"reserve", out),
        Op::Reserve {
            seconds: Some(seconds),
        } => append_count(b"reserve-with-timeout", *seconds as u64, out),
        Op::Delete(id) => append_count(b"delete", *id, out),
        Op::Touch(id) => append_count(b"touch", *id, out),
        Op::Release { id, pri, delay } => append_release(*id, *pri, *delay, out),
        Op::Bury { id, pri } => append_bury(*id, *pri, out),
        Op::Kick(bound) => append_count(b"kick", *bound as u64, out),
        Op::KickJob(id) => append_count(b"kick-job", *id, out),
        Op::Peek(id) => append_count(b"peek", *id, out),
        Op::PeekReady => append_word(b"peek-ready", out),
        Op::PeekDelayed => append_word(b"peek-delayed", out),
        Op::PeekBuried => append_word(b"peek-buried", out),
        Op::ListTubes => append_word(b"list-tubes", out),
        Op::ListTubeUsed => append_word(b"list-tube-used", out),
        Op::ListTubesWatched => append_word(b"list-tubes-watched", out),
        Op::Pause { tube, seconds } => append_pause(tube, *seconds, out),
        Op::ReserveJob(id) => append_count(b"reserve-job", *id, out),
        Op::StatsJob(id) => append_count(b"stats-job", *id, out),
        Op::StatsTube(tube) => append_two(b"stats-tube", tube.as_slice(), out),
        Op::Stats => append_word(b"stats", out),
    }
}

/// A put, with the job's body.
fn append_put(
    pri: u32,
    delay: u32,
    ttr: u32,
    body: &Body,
    out: &mut Vec<u8>,
) -> Result<(), AllocError>
    ensures ok { WritesAtEnd result out.old out.new (spaced
        (codes "put" ∷ decimal pri ∷ decimal delay ∷ decimal ttr ∷ body_word body.now ∷ [])) }
    ensures value { OnOk result (IsBytes body.now) }
{
    append_count(b"put", pri as u64, out)?;
    append_number(delay as u64, out)?;
    append_number(ttr as u64, out)?;
    append_body(body.as_slice(), out)
}

/// A release, with the job's new priority and delay.
fn append_release(id: u64, pri: u32, delay: u32, out: &mut Vec<u8>) -> Result<(), AllocError>
    ensures ok { WritesAtEnd result out.old out.new
        (spaced (codes "release" ∷ decimal id ∷ decimal pri ∷ decimal delay ∷ [])) }
{
    append_count(b"release", id, out)?;
    append_number(pri as u64, out)?;
    append_number(delay as u64, out)
}

/// A bury, with the job's new priority.
fn append_bury(id: u64, pri: u32, out: &mut Vec<u8>) -> Result<(), AllocError>
    ensures ok { WritesAtEnd result out.old out.new
        (spaced (codes "bury" ∷ decimal id ∷ decimal pri ∷ [])) }
{
    append_count(b"bury", id, out)?;
    append_number(pri as u64, out)
}

/// A pause of a tube, with its seconds.
fn append_pause(tube: &Name, seconds: u32, out: &mut Vec<u8>) -> Result<(), AllocError>
    ensures ok { WritesAtEnd result out.old out.new
        (spaced (codes "pause-tube" ∷ tube.now ∷ decimal seconds ∷ [])) }
    ensures value { OnOk result (IsName tube.now) }
{
    append_two(b"pause-tube", tube.as_slice(), out)?;
    append_number(seconds as u64, out)
}
