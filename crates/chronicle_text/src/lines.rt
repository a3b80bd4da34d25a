ghost use Rattle.std.specs.Prelude.{◌++◌, ◌∷◌, [], decimal, OnOk};
ghost use Rattle.object.specs.Results.{WritesAtEnd};
ghost use Rattle.chronicle_text.specs.Dump.{submission_line, answer_line, order_line, version_line, members_line, weights_line, end_line};
ghost use Rattle.chronicle_text.specs.Lines.{spaced};
ghost use Rattle.chronicle_text.specs.Values.{IsAnswerValue, IsCommandValue, IsKeyValue};

use crate::acts::append_act;
use crate::append::{append_number, append_numbers};
use crate::replies::append_reply;
use crate::version::Version;
use bean_words::{Op, Reply};
use object::{Answer, Command, Key};
use std::alloc::AllocError;

/// Writes a letter and a key at the end, each word of the key after a space. Where memory runs out, a part of them may
/// stand there.
fn append_key(letter: &[u8], key: Key, out: &mut Vec<u8>) -> Result<(), AllocError>
    ensures ok { WritesAtEnd result out.old out.new
        (letter.now ++ spaced (decimal key.session ∷ decimal key.number ∷ [])) }
    ensures value { IsKeyValue key }
{
    out.extend_from_slice(letter)?;
    append_number(key.session as u64, out)?;
    append_number(key.number, out)
}

/// Writes the line for a command that was submitted at the end. Where memory runs out, a part of it may stand there.
#[tactic(auto, unfolding(crate::specs::Dump::submission_line, crate::specs::Lines::line))]
pub fn append_submission(command: &Command<Op>, out: &mut Vec<u8>) -> Result<(), AllocError>
    ensures ok { WritesAtEnd result out.old out.new (submission_line command.now) }
    ensures value { OnOk result (IsCommandValue command.now) }
{
    append_key(b"S", command.key(), out)?;
    append_act(command.act(), out)?;
    out.extend_from_slice(b"\n")
}

/// Writes the line for an answer at the end. Where memory runs out, a part of it may stand there.
#[tactic(auto, unfolding(crate::specs::Dump::answer_line, crate::specs::Lines::line))]
pub fn append_answer(answer: &Answer<Reply>, out: &mut Vec<u8>) -> Result<(), AllocError>
    ensures ok { WritesAtEnd result out.old out.new (answer_line answer.now) }
    ensures value { OnOk result (IsAnswerValue answer.now) }
{
    append_key(b"A", answer.to, out)?;
    append_reply(&answer.reply, out)?;
    out.extend_from_slice(b"\n")
}

/// Writes the line for a command that counted at the end. Where memory runs out, a part of it may stand there.
#[tactic(auto, unfolding(crate::specs::Dump::order_line, crate::specs::Lines::line))]
pub fn append_place(key: Key, out: &mut Vec<u8>) -> Result<(), AllocError>
    ensures ok { WritesAtEnd result out.old out.new (order_line key) }
    ensures value { IsKeyValue key }
{
    append_key(b"O", key, out)?;
    out.extend_from_slice(b"\n")
}

/// Writes the first line, with the version, at the end. Where memory runs out, nothing is written.
#[tactic(auto, unfolding(crate::specs::Dump::version_line, crate::specs::Lines::line))]
pub fn append_version(version: Version, out: &mut Vec<u8>) -> Result<(), AllocError>
    ensures ok { WritesAtEnd result out.old out.new (version_line version) }
{
    match version {
        Version::One => out.extend_from_slice(b"beanpax-dump 1\n"),
        Version::Two => out.extend_from_slice(b"beanpax-dump 2\n"),
    }
}

/// Writes the line for the count of members at the end. Where memory runs out, a part of it may stand there.
#[tactic(auto, unfolding(crate::specs::Dump::members_line, crate::specs::Lines::line))]
pub fn append_members(count: u8, out: &mut Vec<u8>) -> Result<(), AllocError>
    ensures ok { WritesAtEnd result out.old out.new (members_line count) }
{
    out.extend_from_slice(b"members")?;
    append_number(count as u64, out)?;
    out.extend_from_slice(b"\n")
}

/// Writes the line for the weights of members at the end. Where memory runs out, a part of it may stand there.
#[tactic(auto, unfolding(crate::specs::Dump::weights_line, crate::specs::Lines::line))]
pub fn append_weights(weights: &[u32], out: &mut Vec<u8>) -> Result<(), AllocError>
    ensures ok { WritesAtEnd result out.old out.new (weights_line weights.now) }
{
    out.extend_from_slice(b"weights")?;
    append_numbers(weights, out)?;
    out.extend_from_slice(b"\n")
}

/// Writes the last line at the end. Where memory runs out, nothing is written.
#[tactic(auto, unfolding(crate::specs::Dump::end_line, crate::specs::Lines::line))]
pub fn append_end(out: &mut Vec<u8>) -> Result<(), AllocError>
    ensures ok { WritesAtEnd result out.old out.new end_line }
{
    out.extend_from_slice(b"end\n")
}
