ghost use Rattle.std.specs.Prelude.{◌≡◌, ◌++◌, codes, IfOk};
ghost use Rattle.chronicle_text.specs.Lines.{after_space};
ghost use Rattle.command_log.specs.Lines.{EndsInSum};
ghost use Rattle.command_log.specs.Text.{sum_word};

use chronicle_text::append_word;
use sha1::Sha1;
use std::alloc::{AllocError, Global};

/// How many bytes stand behind the words of a line: a space, eight digits and the line feed.
pub(crate) const SUM_END: usize = 10;

/// The sum of words.
#[tactic(auto, unfolding(crate::specs::Text::sum_word))]
pub(crate) fn sum_of(alloc: Global, words: &[u8]) -> Result<[u8; 8], AllocError>
    ensures { IfOk result (λ sum. sum ≡ sum_word words.now) }
{
    let digest = Sha1::digest(words);
    let digits = hex::encode(alloc, &digest[..4])?;
    let mut sum = [0; 8];
    sum.copy_from_slice(digits.as_bytes());
    Ok(sum)
}

/// What stands behind words with this sum: the sum after a space, and the line feed.
pub(crate) fn end_with(alloc: Global, sum: [u8; 8]) -> Result<Vec<u8>, AllocError>
    ensures { IfOk result (λ end. end.items ≡ after_space sum ++ codes "\n") }
{
    let mut end = Vec::new(alloc);
    append_word(&sum, &mut end)?;
    end.extend_from_slice(b"\n")?;
    Ok(end)
}

/// The sum with which a line ends, where it is that of the words before it.
pub(crate) fn sum_at_end(alloc: Global, line: &[u8]) -> Result<Option<[u8; 8]>, AllocError>
    ensures { IfOk result (λ sum. EndsInSum line.now sum) }
{
    if line.len() < SUM_END {
        return Ok(None);
    }
    let (words, end) = line.split_at(line.len() - SUM_END);
    let sum = sum_of(alloc, words)?;
    let right = end_with(alloc, sum)?;
    if right.as_slice() != end {
        return Ok(None);
    }
    Ok(Some(sum))
}
