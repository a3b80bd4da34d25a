ghost use Rattle.std.specs.Prelude.{◌≡◌, ◌≢◌, ℕ, List, decimal, true, IfOk, IfSome, IsNone};
ghost use Rattle.ballot.specs.Members.{is_weight};
ghost use Rattle.options.specs.Weights.{AreWeightsIn};

use ballot::Members;
use itoa::Buffer;
use std::alloc::{AllocError, Global};

/// The members whose weights the text writes, where it writes some: numbers without leading zeros, parted by commas.
pub(crate) fn members_in(alloc: Global, text: &str) -> Result<Option<Members>, AllocError>
    ensures { IfOk result (AreWeightsIn text.now) }
{
    let words: Vec<&str> = text.split(',').collect(alloc)?;
    let mut weights = Vec::new(alloc);
    for word in &words {
        let Some(weight) = weight_in(word) else {
            return Ok(None);
        };
        weights.push(weight)?;
    }
    Ok(Members::weighted(&weights))
}

// The weight that the word writes.
fn weight_in(word: &str) -> Option<u32>
    ensures some { IfSome result (λ weight. decimal weight ≡ word.now) }
    ensures none { IsNone result → (weight : ℕ) → is_weight weight ≡ true → decimal weight ≢ word.now }
{
    let weight = word.parse().ok()?;
    let mut digits = Buffer::new();
    if digits.format(weight) == word {
        Some(weight)
    } else {
        None
    }
}
