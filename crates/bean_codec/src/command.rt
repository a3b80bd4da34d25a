ghost use Rattle.std.specs.Prelude.{◌≡◌};
ghost use Rattle.bean_codec.specs.Commands as commands;

use crate::profile::Profile;

/// What the first word of a line names.
#[derive(Clone, Copy, PartialEq, Eq, Debug)]
pub enum CommandName {
    Put,
    Use,
    Watch,
    Ignore,
    Reserve,
    ReserveWithTimeout,
    Delete,
    Touch,
    Release,
    Bury,
    Kick,
    KickJob,
    Peek,
    PeekReady,
    PeekDelayed,
    PeekBuried,
    ListTubes,
    ListTubeUsed,
    ListTubesWatched,
    PauseTube,
    Quit,
    ReserveJob,
    StatsJob,
    StatsTube,
    Stats,
}

/// The command that this word names.
#[tactic(auto, unfolding(crate::specs::Commands::command_of))]
pub fn command_of(profile: Profile, word: &[u8]) -> Option<CommandName>
    ensures { result ≡ commands.command_of profile word.now }
{
    match profile {
        Profile::Plain => plain_command(word),
        Profile::Extended => plain_command(word).or(stats_command(word)),
    }
}

/// The commands of every profile.
#[tactic(auto, unfolding(crate::specs::Commands::plain_command))]
fn plain_command(word: &[u8]) -> Option<CommandName>
    ensures { result ≡ commands.plain_command word.now }
{
    job_command(word)
        .or(tube_command(word))
        .or(look_command(word))
}

/// The commands of the extended profile alone.
#[tactic(auto, unfolding(crate::specs::Commands::stats_command))]
fn stats_command(word: &[u8]) -> Option<CommandName>
    ensures { result ≡ commands.stats_command word.now }
{
    if word == b"reserve-job".as_slice() {
        Some(CommandName::ReserveJob)
    } else if word == b"stats-job".as_slice() {
        Some(CommandName::StatsJob)
    } else if word == b"stats-tube".as_slice() {
        Some(CommandName::StatsTube)
    } else if word == b"stats".as_slice() {
        Some(CommandName::Stats)
    } else {
        None
    }
}

/// The commands that make, take or change jobs.
#[tactic(auto, unfolding(crate::specs::Commands::job_command))]
fn job_command(word: &[u8]) -> Option<CommandName>
    ensures { result ≡ commands.job_command word.now }
{
    if word == b"put".as_slice() {
        Some(CommandName::Put)
    } else if word == b"reserve".as_slice() {
        Some(CommandName::Reserve)
    } else if word == b"reserve-with-timeout".as_slice() {
        Some(CommandName::ReserveWithTimeout)
    } else if word == b"delete".as_slice() {
        Some(CommandName::Delete)
    } else if word == b"touch".as_slice() {
        Some(CommandName::Touch)
    } else if word == b"release".as_slice() {
        Some(CommandName::Release)
    } else if word == b"bury".as_slice() {
        Some(CommandName::Bury)
    } else if word == b"kick".as_slice() {
        Some(CommandName::Kick)
    } else if word == b"kick-job".as_slice() {
        Some(CommandName::KickJob)
    } else {
        None
    }
}

/// The commands that are about tubes.
#[tactic(auto, unfolding(crate::specs::Commands::tube_command))]
fn tube_command(word: &[u8]) -> Option<CommandName>
    ensures { result ≡ commands.tube_command word.now }
{
    if word == b"use".as_slice() {
        Some(CommandName::Use)
    } else if word == b"watch".as_slice() {
        Some(CommandName::Watch)
    } else if word == b"ignore".as_slice() {
        Some(CommandName::Ignore)
    } else if word == b"list-tubes".as_slice() {
        Some(CommandName::ListTubes)
    } else if word == b"list-tube-used".as_slice() {
        Some(CommandName::ListTubeUsed)
    } else if word == b"list-tubes-watched".as_slice() {
        Some(CommandName::ListTubesWatched)
    } else if word == b"pause-tube".as_slice() {
        Some(CommandName::PauseTube)
    } else {
        None
    }
}

/// The commands that look at jobs, and the last one.
#[tactic(auto, unfolding(crate::specs::Commands::look_command))]
fn look_command(word: &[u8]) -> Option<CommandName>
    ensures { result ≡ commands.look_command word.now }
{
    if word == b"peek".as_slice() {
        Some(CommandName::Peek)
    } else if word == b"peek-ready".as_slice() {
        Some(CommandName::PeekReady)
    } else if word == b"peek-delayed".as_slice() {
        Some(CommandName::PeekDelayed)
    } else if word == b"peek-buried".as_slice() {
        Some(CommandName::PeekBuried)
    } else if word == b"quit".as_slice() {
        Some(CommandName::Quit)
    } else {
        None
    }
}
