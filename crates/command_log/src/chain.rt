ghost use Rattle.std.specs.Prelude.{◌≡◌, ◌++◌, length, IfOk, IsTrue, ◌↔◌, OnOk};
ghost use Rattle.command_log.specs.Lines.{EndsInChain, is_plain_word};
ghost use Rattle.command_log.specs.Text.{chain_words, head_chain, next_chain};

use crate::sum::sum_of;
use crate::version::LogVersion;
use chronicle_text::append_word;
use std::alloc::{AllocError, Global};

// How many bytes stand there for a sum: a space, and eight digits.
const CHAINED: usize = 9;

/// How a line is chained to the line before it.
#[derive(Clone, Copy, Debug, PartialEq, Eq)]
pub enum Chain {
    /// Not at all, as each line of version 1.
    Unchained,
    /// It tells that line's sum, which is this one.
    After([u8; 8]),
}

impl Chain {
    /// How the line behind this head is chained.
    pub(crate) fn behind_head(
        alloc: Global,
        version: LogVersion,
        head: &[u8],
    ) -> Result<Chain, AllocError>
        ensures { IfOk result (λ chain. chain ≡ head_chain version head.now) }
    {
        match version {
            LogVersion::One => Ok(Chain::Unchained),
            LogVersion::Two => Ok(Chain::After(sum_of(alloc, head)?)),
        }
    }

    /// How the line behind one with this sum is chained.
    pub(crate) fn behind(self, sum: [u8; 8]) -> Chain
        ensures { result ≡ next_chain self sum }
    {
        match self {
            Chain::Unchained => Chain::Unchained,
            Chain::After(_) => Chain::After(sum),
        }
    }

    /// Writes at the end what a line says of the line before it. Where memory runs out, a part of it may stand there.
    pub(crate) fn append(self, out: &mut Vec<u8>) -> Result<(), AllocError>
        ensures { OnOk result (out.new.items ≡ out.old.items ++ chain_words self) }
    {
        match self {
            Chain::Unchained => Ok(()),
            Chain::After(sum) => append_word(&sum, out),
        }
    }

    /// How many bytes a line has for this.
    pub(crate) fn len(self) -> usize
        ensures { result ≡ length (chain_words self) }
    {
        match self {
            Chain::Unchained => 0,
            Chain::After(_) => CHAINED,
        }
    }

    /// What the last words of a line say of the line before it.
    pub(crate) fn at_end(version: LogVersion, words: &[u8]) -> Option<Chain>
        ensures { EndsInChain version words.now result }
    {
        match version {
            LogVersion::One => Some(Chain::Unchained),
            LogVersion::Two => sum_at_end(words),
        }
    }
}

// The sum of the line before it that a line of version 2 tells.
fn sum_at_end(words: &[u8]) -> Option<Chain>
    ensures { EndsInChain LogVersion.Two words.now result }
{
    if words.len() < CHAINED {
        return None;
    }
    let (_, last) = words.split_at(words.len() - CHAINED);
    let word = last.strip_prefix(b" ".as_slice())?;
    if !is_plain_word(word) {
        return None;
    }
    let mut sum = [0; 8];
    sum.copy_from_slice(word);
    Some(Chain::After(sum))
}

// Whether neither a space nor a line feed stands in it.
fn is_plain_word(bytes: &[u8]) -> bool
    ensures { result ≡ is_plain_word bytes.now }
{
    bytes.iter().all(|b| *b != b' ' && *b != b'\n')
}
