ghost use Rattle.std.specs.Prelude.{◌<◌, ◌≤◌, ◌+◌, length, vec_len, vec_capacity, decimal, OnErr};
ghost use Rattle.object.specs.Results.{AddsAtEnd, WritesAtEnd};
ghost use Rattle.bean_codec.specs.Lines.{line_text};
ghost use Rattle.bean_codec.specs.Replies.{count_text};

use itoa::Buffer;
use std::alloc::AllocError;

/// Writes the digits of a number at the end.
pub fn append_number(number: u64, out: &mut Vec<u8>) -> Result<(), AllocError>
    ensures ok { AddsAtEnd result out.old out.new (decimal number) }
    ensures full { OnErr result (vec_capacity out.old < vec_len out.old + length (decimal number)) }
    ensures room { vec_capacity out.old ≤ vec_capacity out.new }
{
    let mut digits = Buffer::new();
    out.extend_from_slice(digits.format(number).as_bytes())
}

/// Writes a line at the end. Where memory runs out, a part of it may stand there.
pub fn append_line(text: &[u8], out: &mut Vec<u8>) -> Result<(), AllocError>
    ensures ok { WritesAtEnd result out.old out.new (line_text text.now) }
    ensures full { OnErr result
        (vec_capacity out.old < vec_len out.old + length (line_text text.now)) }
{
    out.extend_from_slice(text)?;
    out.extend_from_slice(b"\r\n")
}

/// Writes a line of a word and a number at the end. Where memory runs out, a part of it may stand there.
#[tactic(auto, unfolding(crate::specs::Replies::count_text))]
pub fn append_count(word: &[u8], number: u64, out: &mut Vec<u8>) -> Result<(), AllocError>
    ensures ok { WritesAtEnd result out.old out.new (count_text word.now number) }
    ensures full { OnErr result
        (vec_capacity out.old < vec_len out.old + length (count_text word.now number)) }
    ensures room { vec_capacity out.old ≤ vec_capacity out.new }
{
    out.extend_from_slice(word)?;
    out.extend_from_slice(b" ")?;
    append_number(number, out)?;
    out.extend_from_slice(b"\r\n")
}
