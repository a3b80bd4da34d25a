ghost use Rattle.std.specs.Prelude.{◌∷◌, [], map, decimal, OnOk};
ghost use Rattle.std.specs.List.{AllByRecursion};
ghost use Rattle.object.specs.Results.{WritesAtEnd};
ghost use Rattle.hex.specs.Hex.{IsBytes};
ghost use Rattle.bean_words.specs.Names.{IsName};
ghost use Rattle.chronicle_text.specs.Lines.{after_space, spaced, body_word};

use bean_words::Name;
use itoa::Buffer;
use std::alloc::AllocError;

/// Writes a word at the end, after a space. Where memory runs out, a part of it may stand there.
pub fn append_word(word: &[u8], out: &mut Vec<u8>) -> Result<(), AllocError>
    ensures ok { WritesAtEnd result out.old out.new (after_space word.now) }
{
    out.extend_from_slice(b" ")?;
    out.extend_from_slice(word)
}

/// Writes the digits of a number at the end, after a space. Where memory runs out, a part of it may stand there.
pub fn append_number(number: u64, out: &mut Vec<u8>) -> Result<(), AllocError>
    ensures ok { WritesAtEnd result out.old out.new (after_space (decimal number)) }
{
    let mut digits = Buffer::new();
    append_word(digits.format(number).as_bytes(), out)
}

/// Writes the word for a body at the end, after a space. Where memory runs out, a part of it may stand there.
#[tactic(auto, unfolding(crate::specs::Lines::body_word))]
pub fn append_body(body: &[u8], out: &mut Vec<u8>) -> Result<(), AllocError>
    ensures ok { WritesAtEnd result out.old out.new (after_space (body_word body.now)) }
    ensures value { IsBytes body.now }
{
    if body.is_empty() {
        return append_word(b"-", out);
    }
    let digits = hex::encode(*out.allocator(), body)?;
    append_word(digits.as_bytes(), out)
}

/// Writes two words at the end, each after a space. Where memory runs out, a part of them may stand there.
pub fn append_two(first: &[u8], second: &[u8], out: &mut Vec<u8>) -> Result<(), AllocError>
    ensures ok { WritesAtEnd result out.old out.new (spaced (first.now ∷ second.now ∷ [])) }
{
    append_word(first, out)?;
    append_word(second, out)
}

/// Writes a word and a number at the end, each after a space. Where memory runs out, a part of them may stand there.
pub fn append_count(word: &[u8], number: u64, out: &mut Vec<u8>) -> Result<(), AllocError>
    ensures ok { WritesAtEnd result out.old out.new (spaced (word.now ∷ decimal number ∷ [])) }
{
    append_word(word, out)?;
    append_number(number, out)
}

/// Writes a word, the id of a job and its body at the end, each after a space. Where memory runs out, a part of them may
/// stand there.
pub fn append_job(word: &[u8], id: u64, body: &[u8], out: &mut Vec<u8>) -> Result<(), AllocError>
    ensures ok { WritesAtEnd result out.old out.new
        (spaced (word.now ∷ decimal id ∷ body_word body.now ∷ [])) }
    ensures value { OnOk result (IsBytes body.now) }
{
    append_word(word, out)?;
    append_number(id, out)?;
    append_body(body, out)
}

/// Writes the digits of numbers at the end, each after a space. Where memory runs out, a part of them may stand there.
pub fn append_numbers(numbers: &[u32], out: &mut Vec<u8>) -> Result<(), AllocError>
    ensures ok { WritesAtEnd result out.old out.new (spaced (map decimal numbers.now)) }
{
    for number in numbers {
        append_number(*number as u64, out)?;
    }
    Ok(())
}

/// Writes words at the end, each after a space. Where memory runs out, a part of them may stand there.
pub fn append_names(names: &[Name], out: &mut Vec<u8>) -> Result<(), AllocError>
    ensures ok { WritesAtEnd result out.old out.new (spaced names.now) }
    ensures value { OnOk result (AllByRecursion IsName names.now) }
{
    for name in names {
        append_word(name.as_slice(), out)?;
    }
    Ok(())
}
