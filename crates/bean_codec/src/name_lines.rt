ghost use Rattle.std.specs.Prelude.{◌≡◌, List, ℕ, Some, IfOk, OnErr};
ghost use Rattle.bean_codec.specs.Arguments as arguments;
ghost use Rattle.bean_codec.specs.Memory.{HasName};
ghost use Rattle.bean_codec.specs.TubeNames as tube_names;

use crate::line::Meaning;
use crate::number::u32_of;
use crate::request::Request;
use crate::words::Words;
use bean_words::{Name, Op};
use std::alloc::{AllocError, Global};

/// The name that the word is.
pub fn name_of(alloc: Global, word: &[u8]) -> Result<Option<Name>, AllocError>
    ensures name { IfOk result (λ name. name ≡ tube_names.name_of word.now) }
    ensures memory { OnErr result ((name : List ℕ) × (tube_names.name_of word.now ≡ Some name)) }
{
    Name::new(alloc, word)
}

/// `<tube>`
#[tactic(auto, unfolding(crate::specs::Arguments::one_name))]
fn one_name(alloc: Global, mut words: Words<'_>) -> Result<Option<Name>, AllocError>
    ensures name { IfOk result (λ name. name ≡ arguments.one_name words.entry) }
    ensures memory { OnErr result ((name : List ℕ) × (arguments.one_name words.entry ≡ Some name)) }
{
    let Some(tube) = words.next() else {
        return Ok(None);
    };
    if words.next().is_some() {
        return Ok(None);
    }
    name_of(alloc, tube)
}

/// `use <tube>`
#[tactic(auto, unfolding(crate::specs::Arguments::use_line))]
pub fn use_line(alloc: Global, words: Words<'_>) -> Result<Option<Meaning>, AllocError>
    ensures says { IfOk result (λ says. says ≡ arguments.use_line words.entry) }
    ensures memory { OnErr result (HasName (arguments.use_line words.entry)) }
{
    let Some(tube) = one_name(alloc, words)? else {
        return Ok(None);
    };
    Ok(Some(Meaning::Whole(Request::Do(Op::Use(tube)))))
}

/// `watch <tube>`
#[tactic(auto, unfolding(crate::specs::Arguments::watch_line))]
pub fn watch_line(alloc: Global, words: Words<'_>) -> Result<Option<Meaning>, AllocError>
    ensures says { IfOk result (λ says. says ≡ arguments.watch_line words.entry) }
    ensures memory { OnErr result (HasName (arguments.watch_line words.entry)) }
{
    let Some(tube) = one_name(alloc, words)? else {
        return Ok(None);
    };
    Ok(Some(Meaning::Whole(Request::Do(Op::Watch(tube)))))
}

/// `ignore <tube>`
#[tactic(auto, unfolding(crate::specs::Arguments::ignore_line))]
pub fn ignore_line(alloc: Global, words: Words<'_>) -> Result<Option<Meaning>, AllocError>
    ensures says { IfOk result (λ says. says ≡ arguments.ignore_line words.entry) }
    ensures memory { OnErr result (HasName (arguments.ignore_line words.entry)) }
{
    let Some(tube) = one_name(alloc, words)? else {
        return Ok(None);
    };
    Ok(Some(Meaning::Whole(Request::Do(Op::Ignore(tube)))))
}

/// `stats-tube <tube>`
#[tactic(auto, unfolding(crate::specs::Arguments::stats_tube_line))]
pub fn stats_tube_line(alloc: Global, words: Words<'_>) -> Result<Option<Meaning>, AllocError>
    ensures says { IfOk result (λ says. says ≡ arguments.stats_tube_line words.entry) }
    ensures memory { OnErr result (HasName (arguments.stats_tube_line words.entry)) }
{
    let Some(tube) = one_name(alloc, words)? else {
        return Ok(None);
    };
    Ok(Some(Meaning::Whole(Request::Do(Op::StatsTube(tube)))))
}

/// `pause-tube <tube> <seconds>`
#[tactic(auto, unfolding(crate::specs::Arguments::pause_line))]
pub fn pause_line(alloc: Global, mut words: Words<'_>) -> Result<Option<Meaning>, AllocError>
    ensures says { IfOk result (λ says. says ≡ arguments.pause_line words.entry) }
    ensures memory { OnErr result (HasName (arguments.pause_line words.entry)) }
{
    let (Some(tube), Some(seconds)) = (words.next(), words.next()) else {
        return Ok(None);
    };
    if words.next().is_some() {
        return Ok(None);
    }
    // A line with a wrong number takes no memory.
    let Some(seconds) = u32_of(seconds) else {
        return Ok(None);
    };
    let Some(tube) = name_of(alloc, tube)? else {
        return Ok(None);
    };
    Ok(Some(Meaning::Whole(Request::Do(Op::Pause { tube, seconds }))))
}
