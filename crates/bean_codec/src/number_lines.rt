ghost use Rattle.std.specs.Prelude.{◌≡◌};
ghost use Rattle.bean_codec.specs.Arguments as arguments;

use crate::line::Meaning;
use crate::number::{u32_of, u64_of};
use crate::request::Request;
use crate::words::Words;
use bean_words::Op;

/// The request, where no word follows.
#[tactic(auto, unfolding(crate::specs::Arguments::alone))]
pub fn alone(mut words: Words<'_>, request: Request) -> Option<Meaning>
    ensures { result ≡ arguments.alone request words.entry }
{
    if words.next().is_some() {
        return None;
    }
    Some(Meaning::Whole(request))
}

/// `<id>`
#[tactic(auto, unfolding(crate::specs::Arguments::one_id))]
fn one_id(mut words: Words<'_>) -> Option<u64>
    ensures { result ≡ arguments.one_id words.entry }
{
    let id = words.next()?;
    if words.next().is_some() {
        return None;
    }
    u64_of(id)
}

/// `<number>`
#[tactic(auto, unfolding(crate::specs::Arguments::one_number))]
fn one_number(mut words: Words<'_>) -> Option<u32>
    ensures { result ≡ arguments.one_number words.entry }
{
    let number = words.next()?;
    if words.next().is_some() {
        return None;
    }
    u32_of(number)
}

/// `put <pri> <delay> <ttr> <bytes>`
#[tactic(auto, unfolding(crate::specs::Arguments::put_line))]
pub fn put_line(mut words: Words<'_>) -> Option<Meaning>
    ensures { result ≡ arguments.put_line words.entry }
{
    let pri = words.next()?;
    let delay = words.next()?;
    let ttr = words.next()?;
    let size = words.next()?;
    if words.next().is_some() {
        return None;
    }
    let pri = u32_of(pri)?;
    let delay = u32_of(delay)?;
    let ttr = u32_of(ttr)?;
    let size = u32_of(size)?;
    Some(Meaning::WithBody {
        pri,
        delay,
        ttr,
        size,
    })
}

/// `release <id> <pri> <delay>`
#[tactic(auto, unfolding(crate::specs::Arguments::release_line))]
pub fn release_line(mut words: Words<'_>) -> Option<Meaning>
    ensures { result ≡ arguments.release_line words.entry }
{
    let id = words.next()?;
    let pri = words.next()?;
    let delay = words.next()?;
    if words.next().is_some() {
        return None;
    }
    let id = u64_of(id)?;
    let pri = u32_of(pri)?;
    let delay = u32_of(delay)?;
    Some(Meaning::Whole(Request::Do(Op::Release { id, pri, delay })))
}

/// `bury <id> <pri>`
#[tactic(auto, unfolding(crate::specs::Arguments::bury_line))]
pub fn bury_line(mut words: Words<'_>) -> Option<Meaning>
    ensures { result ≡ arguments.bury_line words.entry }
{
    let id = words.next()?;
    let pri = words.next()?;
    if words.next().is_some() {
        return None;
    }
    let id = u64_of(id)?;
    let pri = u32_of(pri)?;
    Some(Meaning::Whole(Request::Do(Op::Bury { id, pri })))
}

/// `reserve-with-timeout <seconds>`
#[tactic(auto, unfolding(crate::specs::Arguments::reserve_line))]
pub fn reserve_line(words: Words<'_>) -> Option<Meaning>
    ensures { result ≡ arguments.reserve_line words.entry }
{
    let seconds = Some(one_number(words)?);
    Some(Meaning::Whole(Request::Do(Op::Reserve { seconds })))
}

/// `kick <bound>`
#[tactic(auto, unfolding(crate::specs::Arguments::kick_line))]
pub fn kick_line(words: Words<'_>) -> Option<Meaning>
    ensures { result ≡ arguments.kick_line words.entry }
{
    let bound = one_number(words)?;
    Some(Meaning::Whole(Request::Do(Op::Kick(bound))))
}

/// `delete <id>`
#[tactic(auto, unfolding(crate::specs::Arguments::delete_line))]
pub fn delete_line(words: Words<'_>) -> Option<Meaning>
    ensures { result ≡ arguments.delete_line words.entry }
{
    let id = one_id(words)?;
    Some(Meaning::Whole(Request::Do(Op::Delete(id))))
}

/// `touch <id>`
#[tactic(auto, unfolding(crate::specs::Arguments::touch_line))]
pub fn touch_line(words: Words<'_>) -> Option<Meaning>
    ensures { result ≡ arguments.touch_line words.entry }
{
    let id = one_id(words)?;
    Some(Meaning::Whole(Request::Do(Op::Touch(id))))
}

/// `kick-job <id>`
#[tactic(auto, unfolding(crate::specs::Arguments::kick_job_line))]
pub fn kick_job_line(words: Words<'_>) -> Option<Meaning>
    ensures { result ≡ arguments.kick_job_line words.entry }
{
    let id = one_id(words)?;
    Some(Meaning::Whole(Request::Do(Op::KickJob(id))))
}

/// `peek <id>`
#[tactic(auto, unfolding(crate::specs::Arguments::peek_line))]
pub fn peek_line(words: Words<'_>) -> Option<Meaning>
    ensures { result ≡ arguments.peek_line words.entry }
{
    let id = one_id(words)?;
    Some(Meaning::Whole(Request::Do(Op::Peek(id))))
}

/// `reserve-job <id>`
#[tactic(auto, unfolding(crate::specs::Arguments::reserve_job_line))]
pub fn reserve_job_line(words: Words<'_>) -> Option<Meaning>
    ensures { result ≡ arguments.reserve_job_line words.entry }
{
    let id = one_id(words)?;
    Some(Meaning::Whole(Request::Do(Op::ReserveJob(id))))
}

/// `stats-job <id>`
#[tactic(auto, unfolding(crate::specs::Arguments::stats_job_line))]
pub fn stats_job_line(words: Words<'_>) -> Option<Meaning>
    ensures { result ≡ arguments.stats_job_line words.entry }
{
    let id = one_id(words)?;
    Some(Meaning::Whole(Request::Do(Op::StatsJob(id))))
}
