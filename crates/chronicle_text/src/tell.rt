ghost use Rattle.std.specs.Prelude.{◌≡◌, IfOk};
ghost use Rattle.chronicle_text.specs.Told as told;

use crate::entry::Entry;
use crate::tell_acts::act_of;
use crate::tell_head::{members_of_words, version_of_words, weights_of};
use crate::tell_replies::reply_of;
use bean_codec::{Words, u32_of, u64_of};
use bean_words::Op;
use object::{Act, Answer, Command, Key};
use std::alloc::{AllocError, Global};

/// What the words of a line tell, where they are those of a line as it is written.
#[tactic(auto, unfolding(crate::specs::Told::entry_of_words))]
pub fn entry_of_words(alloc: Global, mut words: Words<'_>) -> Result<Option<Entry>, AllocError>
    ensures { IfOk result (λ entry. entry ≡ told.entry_of_words words.entry) }
{
    let Some(first) = words.next() else {
        return Ok(None);
    };
    if first == b"beanpax-dump".as_slice() {
        return Ok(version_of_words(words));
    }
    if first == b"end".as_slice() {
        return Ok(Some(Entry::End));
    }
    if first == b"members".as_slice() {
        return Ok(members_of_words(words));
    }
    if first == b"weights".as_slice() {
        return weights_of(alloc, words);
    }
    keyed_entry(alloc, first, words)
}

// What a line with a key tells.
#[tactic(auto, unfolding(crate::specs::Told::keyed_entry))]
fn keyed_entry(
    alloc: Global,
    letter: &[u8],
    mut words: Words<'_>,
) -> Result<Option<Entry>, AllocError>
    ensures { IfOk result (λ entry. entry ≡ told.keyed_entry letter.now words.entry) }
{
    let Some(session) = words.next() else {
        return Ok(None);
    };
    let Some(number) = words.next() else {
        return Ok(None);
    };
    let Some(key) = key_of(session, number) else {
        return Ok(None);
    };
    entry_under(alloc, letter, key, words)
}

// The key that two words tell.
#[tactic(auto, unfolding(crate::specs::Told::key_of))]
fn key_of(session: &[u8], number: &[u8]) -> Option<Key>
    ensures { result ≡ told.key_of session.now number.now }
{
    let session = u32_of(session)?;
    let number = u64_of(number)?;
    Some(Key { session, number })
}

// What the words after the key tell, by the line's first word.
#[tactic(auto, unfolding(crate::specs::Told::entry_under))]
fn entry_under(
    alloc: Global,
    letter: &[u8],
    key: Key,
    words: Words<'_>,
) -> Result<Option<Entry>, AllocError>
    ensures { IfOk result (λ entry. entry ≡ told.entry_under letter.now key words.entry) }
{
    if letter == b"S".as_slice() {
        let Some(act) = act_of(alloc, words)? else {
            return Ok(None);
        };
        return Ok(submitted_of(key, act));
    }
    if letter == b"A".as_slice() {
        let Some(reply) = reply_of(alloc, words)? else {
            return Ok(None);
        };
        return Ok(Some(Entry::Answered(Answer { to: key, reply })));
    }
    if letter == b"O".as_slice() {
        return Ok(Some(Entry::Placed(key)));
    }
    Ok(None)
}

// The command, unless the key may not ask for the act.
fn submitted_of(key: Key, act: Act<Op>) -> Option<Entry>
    ensures { result ≡ told.submitted_of key act }
{
    let command = Command::new(key, act)?;
    Some(Entry::Submitted(command))
}
