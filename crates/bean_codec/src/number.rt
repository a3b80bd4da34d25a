ghost use Rattle.std.specs.Prelude.{◌≡◌};
ghost use Rattle.bean_codec.specs.Numbers as numbers;

use std::str;

/// The number that a word of digits writes. `parse` takes a plus too, which no number has.
#[tactic(auto, unfolding(crate::specs::Numbers::number_below))]
pub fn u64_of(word: &[u8]) -> Option<u64>
    ensures { result ≡ numbers.u64_of word.now }
{
    if word.starts_with(b"+") {
        return None;
    }
    str::from_utf8(word).ok()?.parse().ok()
}

/// The same for a number of 32 bits.
#[tactic(auto, unfolding(crate::specs::Numbers::number_below))]
pub fn u32_of(word: &[u8]) -> Option<u32>
    ensures { result ≡ numbers.u32_of word.now }
{
    u32::try_from(u64_of(word)?).ok()
}
