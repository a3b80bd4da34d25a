ghost use Rattle.std.specs.Prelude.{◌≡◌, ◌++◌, ◌↔◌, IfOk, IsTrue};
ghost use Rattle.object.specs.Lists.{IsBeginning};
ghost use Rattle.object.specs.Results.{AddsAtEnd};
ghost use Rattle.command_log.specs.Lines.{Heads, HeadsIn, IsHead};
ghost use Rattle.command_log.specs.Reading.{EndsInHead};
ghost use Rattle.command_log.specs.Spelling.{told_head};
ghost use Rattle.command_log.specs.Text.{first_chain, head_line, log_name};

use crate::chain::Chain;
use crate::version::LogVersion;
use ballot::Members;
use chronicle_text::{Entry, append_numbers, read_entry};
use std::alloc::{AllocError, Global};

/// The head of a log.
#[derive(Clone, Copy)]
pub struct LogHead {
    pub(crate) version: LogVersion,
    pub(crate) members: Members,
}

/// Writes the head of a log of version 2 at the end, and tells how the first command's line is chained. Where memory runs out,
/// nothing is written.
#[tactic(auto, unfolding(crate::specs::Text::head_line, chronicle_text::specs::Lines::line))]
pub fn write_head(members: Members, out: &mut Vec<u8>) -> Result<Chain, AllocError>
    ensures ok { AddsAtEnd result out.old out.new (head_line LogVersion.Two members) }
    ensures chain { IfOk result (λ chain. chain ≡ first_chain LogVersion.Two members) }
{
    let alloc = *out.allocator();
    let mut line = Vec::new(alloc);
    line.extend_from_slice(LogVersion::Two.name())?;
    append_numbers(members.weights(), &mut line)?;
    line.extend_from_slice(b"\n")?;
    let chain = Chain::behind_head(alloc, LogVersion::Two, &line)?;
    out.extend_from_slice(&line)?;
    Ok(chain)
}

/// The head that the line is.
pub(crate) fn read_head(alloc: Global, line: &[u8]) -> Result<Option<LogHead>, AllocError>
    ensures { IfOk result (λ head. Heads line.now head) }
{
    if let Some(members) = members_in(alloc, LogVersion::Two, line)? {
        let version = LogVersion::Two;
        return Ok(Some(LogHead { version, members }));
    }
    let Some(members) = members_in(alloc, LogVersion::One, line)? else {
        return Ok(None);
    };
    let version = LogVersion::One;
    Ok(Some(LogHead { version, members }))
}

// The members whose head in this version the line is. A dump's line of weights has the same words behind its name.
fn members_in(
    alloc: Global,
    version: LogVersion,
    line: &[u8],
) -> Result<Option<Members>, AllocError>
    ensures { IfOk result (λ members. HeadsIn version line.now members) }
{
    let Some(weights) = line.strip_prefix(version.name()) else {
        return Ok(None);
    };
    let mut dumped = Vec::new(alloc);
    dumped.extend_from_slice(b"weights")?;
    dumped.extend_from_slice(weights)?;
    Ok(told_head(read_entry(alloc, &dumped)?))
}

// The members whose weights the entry tells.
fn told_head(read: Option<Entry>) -> Option<Members>
    ensures { result ≡ told_head read }
{
    let Entry::Weights(members) = read? else {
        return None;
    };
    Some(members)
}

/// Whether the text is a beginning of a head, and not all of it. Such a text goes on with a line feed, with a weight that
/// begins, or within the words that each head of its version begins with.
pub(crate) fn begins_head(alloc: Global, text: &[u8]) -> Result<bool, AllocError>
    ensures { IfOk result (λ begins. IsTrue begins ↔ EndsInHead text.now) }
{
    if begins_name(LogVersion::One, text) || begins_name(LogVersion::Two, text) {
        return Ok(true);
    }
    if is_head_with(alloc, text, b"\n")? {
        return Ok(true);
    }
    is_head_with(alloc, text, b"1\n")
}

// Whether a head of this version goes on so.
fn begins_name(version: LogVersion, text: &[u8]) -> bool
    ensures { IsTrue result ↔ IsBeginning text.now (log_name version) }
{
    version.name().starts_with(text)
}

// Whether the text with this end is a head.
fn is_head_with(alloc: Global, text: &[u8], end: &[u8]) -> Result<bool, AllocError>
    ensures { IfOk result (λ is. IsTrue is ↔ IsHead (text.now ++ end.now)) }
{
    let mut line = Vec::new(alloc);
    line.extend_from_slice(text)?;
    line.extend_from_slice(end)?;
    Ok(read_head(alloc, &line)?.is_some())
}
