ghost use Rattle.std.specs.Prelude.{◌≡◌, IfOk, OnErr};
ghost use Rattle.bean_codec.specs.Grammar as grammar;
ghost use Rattle.bean_codec.specs.Arguments as arguments;
ghost use Rattle.bean_codec.specs.Memory.{HasName, LineHasName};

use crate::command::{CommandName, command_of};
use crate::name_lines::{ignore_line, pause_line, stats_tube_line, use_line, watch_line};
use crate::number_lines::{
    alone, bury_line, delete_line, kick_job_line, kick_line, peek_line, put_line, release_line,
    reserve_job_line, reserve_line, stats_job_line, touch_line,
};
use crate::profile::Profile;
use crate::request::{Fault, Request};
use crate::words::Words;
use bean_words::Op;
use std::alloc::{AllocError, Global};

/// The most bytes of a line with its CR LF.
pub const LONGEST_LINE: usize = 224;

/// What a line says by itself.
#[derive(Drop)]
pub enum Meaning {
    /// All of a request.
    Whole(Request),
    /// A put, whose body of `size` bytes follows.
    WithBody {
        pri: u32,
        delay: u32,
        ttr: u32,
        size: u32,
    },
}

/// What a line, without its CR LF, says by itself.
#[tactic(auto, unfolding(crate::specs::Grammar::meaning))]
pub fn meaning_of(
    profile: Profile,
    alloc: Global,
    line: &[u8],
) -> Result<Result<Meaning, Fault>, AllocError>
    ensures says { IfOk result (λ says. says ≡ grammar.meaning profile line.now) }
    ensures memory { OnErr result (LineHasName (grammar.meaning profile line.now)) }
{
    if line.len() > LONGEST_LINE - 2 {
        return Ok(Err(Fault::BadFormat));
    }
    match line.first() {
        None | Some(b' ') => Ok(Err(Fault::UnknownCommand)),
        Some(_) => command_line(profile, alloc, Words::new(line)),
    }
}

/// The first word names the command.
#[tactic(auto, unfolding(crate::specs::Grammar::command_line))]
fn command_line(
    profile: Profile,
    alloc: Global,
    mut words: Words<'_>,
) -> Result<Result<Meaning, Fault>, AllocError>
    ensures says { IfOk result (λ says. says ≡ grammar.command_line profile words.entry) }
    ensures memory { OnErr result (LineHasName (grammar.command_line profile words.entry)) }
{
    let Some(first) = words.next() else {
        return Ok(Err(Fault::UnknownCommand));
    };
    let Some(command) = command_of(profile, first) else {
        return Ok(Err(Fault::UnknownCommand));
    };
    let meaning = line_of(alloc, command, words)?;
    Ok(meaning.ok_or(Fault::BadFormat))
}

/// What the words after the first one make of the command.
#[tactic(auto, unfolding(crate::specs::Arguments::line_of))]
pub fn line_of(
    alloc: Global,
    command: CommandName,
    words: Words<'_>,
) -> Result<Option<Meaning>, AllocError>
    ensures says { IfOk result (λ says. says ≡ arguments.line_of command words.entry) }
    ensures memory { OnErr result (HasName (arguments.line_of command words.entry)) }
{
    match command {
        CommandName::Put => Ok(put_line(words)),
        CommandName::Use => use_line(alloc, words),
        CommandName::Watch => watch_line(alloc, words),
        CommandName::Ignore => ignore_line(alloc, words),
        CommandName::Reserve => Ok(alone(words, Request::Do(Op::Reserve { seconds: None }))),
        CommandName::ReserveWithTimeout => Ok(reserve_line(words)),
        CommandName::Delete => Ok(delete_line(words)),
        CommandName::Touch => Ok(touch_line(words)),
        CommandName::Release => Ok(release_line(words)),
        CommandName::Bury => Ok(bury_line(words)),
        CommandName::Kick => Ok(kick_line(words)),
        CommandName::KickJob => Ok(kick_job_line(words)),
        CommandName::Peek => Ok(peek_line(words)),
        CommandName::PeekReady => Ok(alone(words, Request::Do(Op::PeekReady))),
        CommandName::PeekDelayed => Ok(alone(words, Request::Do(Op::PeekDelayed))),
        CommandName::PeekBuried => Ok(alone(words, Request::Do(Op::PeekBuried))),
        CommandName::ListTubes => Ok(alone(words, Request::Do(Op::ListTubes))),
        CommandName::ListTubeUsed => Ok(alone(words, Request::Do(Op::ListTubeUsed))),
        CommandName::ListTubesWatched => Ok(alone(words, Request::Do(Op::ListTubesWatched))),
        CommandName::PauseTube => pause_line(alloc, words),
        CommandName::Quit => Ok(alone(words, Request::Quit)),
        CommandName::ReserveJob => Ok(reserve_job_line(words)),
        CommandName::StatsJob => Ok(stats_job_line(words)),
        CommandName::StatsTube => stats_tube_line(alloc, words),
        CommandName::Stats => Ok(alone(words, Request::Do(Op::Stats))),
    }
}
