ghost use Rattle.std.specs.Prelude.{◌≡◌, ◌↔◌, ◌++◌, IfOk, IfErr, IsErrOf, IsTrue, OnOk};
ghost use Rattle.object.specs.Results.{AddsAtEnd};
ghost use Rattle.chronicle_text.specs.Values.{IsCommandValue};
ghost use Rattle.command_log.specs.Faults.{IsWriteFault};
ghost use Rattle.command_log.specs.Lines.{IsLogged, IsRightLogLine, HasClientBody, HoldsCommand, TellsCommand};
ghost use Rattle.command_log.specs.Spelling.{told_command};
ghost use Rattle.command_log.specs.Text.{command_words, chain_behind, line_of_command};

use crate::chain::Chain;
use crate::faults::WriteFault;
use crate::sum::{SUM_END, end_with, sum_at_end, sum_of};
use crate::version::LogVersion;
use bean_words::Op;
use chronicle_text::{Entry, append_act, append_number, read_entry};
use itoa::Buffer;
use object::Command;
use std::alloc::{AllocError, Global};

/// How many bytes the words for a command have at most. Those for a client's longest command, a put of 65535 bytes, have
/// 131138.
pub const MAX_WORDS: usize = 131_190;

/// How many bytes a line has at most: such words, two sums, each after a space, and the line feed.
pub const MAX_LINE: usize = 131_209;

/// A line that was read.
#[derive(Drop)]
pub struct LogLine {
    pub(crate) chain: Chain,
    pub(crate) command: Command<Op>,
    /// How the line behind it is chained.
    pub(crate) next: Chain,
}

impl LogLine {
    /// Whether it follows lines behind which the next is chained so.
    pub(crate) fn follows(&self, chain: Chain) -> bool
        ensures { IsTrue result ↔ (self.now.chain ≡ chain) }
    {
        self.chain == chain
    }
}

/// Writes the line of a command at the end, and tells how the next line is chained. At a fault nothing is written. No command
/// of a client is too long.
#[tactic(auto, using(crate::proofs::Sizes::client_short), unfolding(crate::specs::Text::sum_end))]
pub fn write_command(
    chain: Chain,
    command: &Command<Op>,
    out: &mut Vec<u8>,
) -> Result<Chain, WriteFault>
    ensures ok { AddsAtEnd result out.old out.new (line_of_command chain command.now) }
    ensures next { IfOk result (λ next. next ≡ chain_behind chain command.now) }
    ensures logged { OnOk result (IsLogged command.now) }
    ensures fault { IfErr result (IsWriteFault command.now) }
    ensures fits { HasClientBody command.now.act → IsErrOf result WriteFault.TooLong → ⊥ }
{
    let alloc = *out.allocator();
    let mut line = Vec::new(alloc);
    append_words(command, &mut line)?;
    if line.len() > MAX_WORDS {
        return Err(WriteFault::TooLong);
    }
    chain.append(&mut line)?;
    let sum = sum_of(alloc, &line)?;
    let end = end_with(alloc, sum)?;
    line.extend_from_slice(&end)?;
    out.extend_from_slice(&line)?;
    Ok(chain.behind(sum))
}

// Writes the words for a command at the end. Where memory runs out, a part of them may stand there.
#[tactic(auto, unfolding(crate::specs::Text::command_words))]
fn append_words(command: &Command<Op>, out: &mut Vec<u8>) -> Result<(), AllocError>
    ensures ok { OnOk result (out.new.items ≡ out.old.items ++ command_words command.now) }
    ensures value { OnOk result (IsCommandValue command.now) }
{
    let key = command.key();
    let mut digits = Buffer::new();
    out.extend_from_slice(digits.format(key.session).as_bytes())?;
    append_number(key.number, out)?;
    append_act(command.act(), out)
}

/// What the line keeps in a log of this version, whatever stands before it.
pub(crate) fn read_line(
    alloc: Global,
    version: LogVersion,
    line: &[u8],
) -> Result<Option<LogLine>, AllocError>
    ensures { IfOk result (λ read. HoldsCommand version line.now read) }
{
    let Some(sum) = sum_at_end(alloc, line)? else {
        return Ok(None);
    };
    let words = &line[..line.len().saturating_sub(SUM_END)];
    let Some(chain) = Chain::at_end(version, words) else {
        return Ok(None);
    };
    let words = &words[..words.len().saturating_sub(chain.len())];
    if words.len() > MAX_WORDS {
        return Ok(None);
    }
    let Some(command) = command_of(alloc, words)? else {
        return Ok(None);
    };
    let next = chain.behind(sum);
    Ok(Some(LogLine {
        chain,
        command,
        next,
    }))
}

/// Whether the line is right, whatever its version and its words are.
pub(crate) fn is_right(alloc: Global, line: &[u8]) -> Result<bool, AllocError>
    ensures { IfOk result (λ right. IsTrue right ↔ IsRightLogLine line.now) }
{
    if line.len() > MAX_LINE {
        return Ok(false);
    }
    Ok(sum_at_end(alloc, line)?.is_some())
}

// The command that the words tell. With an S in front they are its line in a dump.
fn command_of(alloc: Global, words: &[u8]) -> Result<Option<Command<Op>>, AllocError>
    ensures { IfOk result (λ command. TellsCommand words.now command) }
{
    let mut dumped = Vec::new(alloc);
    dumped.extend_from_slice(b"S ")?;
    dumped.extend_from_slice(words)?;
    dumped.extend_from_slice(b"\n")?;
    Ok(told_command(read_entry(alloc, &dumped)?))
}

// The command whose submission the entry tells.
fn told_command(read: Option<Entry>) -> Option<Command<Op>>
    ensures { result ≡ told_command read }
{
    let Entry::Submitted(command) = read? else {
        return None;
    };
    Some(command)
}
