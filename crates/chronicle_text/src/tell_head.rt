ghost use Rattle.std.specs.Prelude.{◌≡◌, IfOk};
ghost use Rattle.chronicle_text.specs.Told as told;

use crate::entry::Entry;
use crate::version::Version;
use ballot::Members;
use bean_codec::{Words, u32_of, u64_of};
use std::alloc::{AllocError, Global};

/// The version that the words tell.
#[tactic(auto, unfolding(crate::specs::Told::version_of_words))]
pub fn version_of_words(mut words: Words<'_>) -> Option<Entry>
    ensures { result ≡ told.version_of_words words.entry }
{
    let word = words.next()?;
    if word == b"1".as_slice() {
        Some(Entry::Version(Version::One))
    } else if word == b"2".as_slice() {
        Some(Entry::Version(Version::Two))
    } else {
        None
    }
}

/// How many members the words tell.
#[tactic(auto, unfolding(crate::specs::Told::members_of_words))]
pub fn members_of_words(mut words: Words<'_>) -> Option<Entry>
    ensures { result ≡ told.members_of_words words.entry }
{
    let count = u64_of(words.next()?)?;
    if count < 1 || count > 7 {
        return None;
    }
    Some(Entry::Members(count as u8))
}

/// The weights that the words tell.
#[tactic(auto, unfolding(crate::specs::Told::weights_of))]
pub fn weights_of(alloc: Global, words: Words<'_>) -> Result<Option<Entry>, AllocError>
    ensures { IfOk result (λ entry. entry ≡ told.weights_of words.entry) }
{
    let mut weights = Vec::new(alloc);
    for word in words {
        let Some(weight) = u32_of(word) else {
            return Ok(None);
        };
        weights.push(weight)?;
    }
    Ok(weighted(&weights))
}

// The weights, where members can have them.
fn weighted(weights: &[u32]) -> Option<Entry>
    ensures { result ≡ told.weighted weights.now }
{
    let members = Members::weighted(weights)?;
    Some(Entry::Weights(members))
}
