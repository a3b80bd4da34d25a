ghost use Rattle.std.specs.Prelude.{◌≡◌, [], IfOk};
ghost use Rattle.chronicle_text.specs.Told as told;

use crate::tell_acts::body_of;
use bean_codec::{Words, name_of, u64_of};
use bean_words::{Body, Names, Reply};
use std::alloc::{AllocError, Global};

/// The reply that the words tell.
#[tactic(auto, unfolding(crate::specs::Told::reply_of))]
pub fn reply_of(alloc: Global, mut words: Words<'_>) -> Result<Option<Reply>, AllocError>
    ensures { IfOk result (λ reply. reply ≡ told.reply_of words.entry) }
{
    let Some(first) = words.next() else {
        return Ok(None);
    };
    if first == b"OK".as_slice() {
        return Ok(names_of(alloc, words)?.map(Reply::Tubes));
    }
    other_reply(alloc, first, words)
}

// The reply of the words, but for a list of tubes.
#[tactic(auto, unfolding(crate::specs::Told::other_reply))]
fn other_reply(
    alloc: Global,
    first: &[u8],
    mut words: Words<'_>,
) -> Result<Option<Reply>, AllocError>
    ensures { IfOk result (λ reply. reply ≡ told.other_reply first.now words.entry) }
{
    let Some(second) = words.next() else {
        return Ok(lone_reply(first));
    };
    let Some(third) = words.next() else {
        return reply_with(alloc, first, second);
    };
    job_reply(alloc, first, second, third)
}

// The reply of this word alone.
#[tactic(auto, unfolding(crate::specs::Told::lone_reply))]
fn lone_reply(word: &[u8]) -> Option<Reply>
    ensures { result ≡ told.lone_reply word.now }
{
    if word == b"NOT_IGNORED".as_slice() {
        Some(Reply::NotIgnored)
    } else if word == b"DEADLINE_SOON".as_slice() {
        Some(Reply::DeadlineSoon)
    } else if word == b"TIMED_OUT".as_slice() {
        Some(Reply::TimedOut)
    } else if word == b"DELETED".as_slice() {
        Some(Reply::Deleted)
    } else if word == b"NOT_FOUND".as_slice() {
        Some(Reply::NotFound)
    } else if word == b"RELEASED".as_slice() {
        Some(Reply::Released)
    } else if word == b"BURIED".as_slice() {
        Some(Reply::Buried)
    } else if word == b"TOUCHED".as_slice() {
        Some(Reply::Touched)
    } else if word == b"KICKED".as_slice() {
        Some(Reply::Kicked)
    } else if word == b"PAUSED".as_slice() {
        Some(Reply::Paused)
    } else if word == b"INTERNAL_ERROR".as_slice() {
        Some(Reply::InternalError)
    } else {
        None
    }
}

// The reply of two words.
#[tactic(auto, unfolding(crate::specs::Told::reply_with))]
fn reply_with(alloc: Global, word: &[u8], second: &[u8]) -> Result<Option<Reply>, AllocError>
    ensures { IfOk result (λ reply. reply ≡ told.reply_with word.now second.now) }
{
    if word == b"USING".as_slice() {
        let Some(tube) = name_of(alloc, second)? else {
            return Ok(None);
        };
        return Ok(Some(Reply::Using(tube)));
    }
    if word == b"DATA".as_slice() {
        let Some(text) = body_of(alloc, second)? else {
            return Ok(None);
        };
        return Ok(Some(Reply::Data(text)));
    }
    let Some(number) = u64_of(second) else {
        return Ok(None);
    };
    Ok(number_reply(word, number))
}

// The reply of a word and a number.
#[tactic(auto, unfolding(crate::specs::Told::number_reply))]
fn number_reply(word: &[u8], number: u64) -> Option<Reply>
    ensures { result ≡ told.number_reply word.now number }
{
    if word == b"INSERTED".as_slice() {
        Some(Reply::Inserted(number))
    } else if word == b"WATCHING".as_slice() {
        Some(Reply::Watching(number))
    } else if word == b"KICKED".as_slice() {
        Some(Reply::KickedCount(number))
    } else {
        None
    }
}

// The reply of a word and a job, by the words for it.
#[tactic(auto, unfolding(crate::specs::Told::job_reply))]
fn job_reply(
    alloc: Global,
    word: &[u8],
    id: &[u8],
    body: &[u8],
) -> Result<Option<Reply>, AllocError>
    ensures { IfOk result (λ reply. reply ≡ told.job_reply word.now id.now body.now) }
{
    let Some(id) = u64_of(id) else {
        return Ok(None);
    };
    let Some(body) = body_of(alloc, body)? else {
        return Ok(None);
    };
    Ok(job_with(word, id, body))
}

// The reply of a word and a job.
#[tactic(auto, unfolding(crate::specs::Told::job_with))]
fn job_with(word: &[u8], id: u64, body: Body) -> Option<Reply>
    ensures { result ≡ told.job_with word.now id body }
{
    if word == b"RESERVED".as_slice() {
        Some(Reply::Reserved { id, body })
    } else if word == b"FOUND".as_slice() {
        Some(Reply::Found { id, body })
    } else {
        None
    }
}

// The names that the words are, where each is one.
fn names_of(alloc: Global, words: Words<'_>) -> Result<Option<Names>, AllocError>
    ensures { IfOk result (λ names. names ≡ told.names_after [] words.entry) }
{
    let mut names = Names::new(alloc);
    for word in words {
        let Some(name) = name_of(alloc, word)? else {
            return Ok(None);
        };
        names.push(name)?;
    }
    Ok(Some(names))
}
