ghost use Rattle.std.specs.Prelude.{◌≡◌, IfOk};
ghost use Rattle.chronicle_text.specs.Told as told;

use bean_codec::{CommandName, Meaning, Profile, Request, Words, command_of, line_of, u32_of};
use bean_words::{Body, Op};
use hex::FromHexError;
use object::Act;
use std::alloc::{AllocError, Global};

/// The act that the words tell, in the profile that knows most.
#[tactic(auto, unfolding(crate::specs::Told::act_of))]
pub fn act_of(alloc: Global, mut words: Words<'_>) -> Result<Option<Act<Op>>, AllocError>
    ensures { IfOk result (λ act. act ≡ told.act_of words.entry) }
{
    let Some(first) = words.next() else {
        return Ok(None);
    };
    if first == b"tick".as_slice() {
        return Ok(Some(Act::Tick));
    }
    if first == b"close".as_slice() {
        return Ok(Some(Act::Close));
    }
    act_with(alloc, command_of(Profile::Extended, first), words)
}

// The act that the words after the command tell. A put has its body in its line; all else is as in
// a request.
#[tactic(auto, unfolding(crate::specs::Told::act_with))]
fn act_with(
    alloc: Global,
    command: Option<CommandName>,
    words: Words<'_>,
) -> Result<Option<Act<Op>>, AllocError>
    ensures { IfOk result (λ act. act ≡ told.act_with command words.entry) }
{
    match command {
        None => Ok(None),
        Some(CommandName::Put) => put_of(alloc, words),
        Some(command) => Ok(line_of(alloc, command, words)?.and_then(act_in)),
    }
}

// The operation that a request asks for.
fn act_in(meaning: Meaning) -> Option<Act<Op>>
    ensures { result ≡ told.act_in meaning }
{
    match meaning {
        Meaning::Whole(Request::Do(op)) => Some(Act::Do(op)),
        Meaning::Whole(Request::Quit) | Meaning::WithBody { .. } => None,
    }
}

// A put, but for its first word.
#[tactic(auto, unfolding(crate::specs::Told::put_of))]
fn put_of(alloc: Global, mut words: Words<'_>) -> Result<Option<Act<Op>>, AllocError>
    ensures { IfOk result (λ act. act ≡ told.put_of words.entry) }
{
    let (Some(pri), Some(delay), Some(ttr), Some(body)) = (
        words.next(),
        words.next(),
        words.next(),
        words.next(),
    ) else {
        return Ok(None);
    };
    if words.next().is_some() {
        return Ok(None);
    }
    let (Some(pri), Some(delay), Some(ttr)) = (u32_of(pri), u32_of(delay), u32_of(ttr)) else {
        return Ok(None);
    };
    let Some(body) = body_of(alloc, body)? else {
        return Ok(None);
    };
    Ok(Some(Act::Do(Op::Put {
        pri,
        delay,
        ttr,
        body,
    })))
}

/// The body that the word tells: two digits a byte, or a hyphen where it is empty.
#[tactic(auto, unfolding(crate::specs::Told::body_of))]
pub fn body_of(alloc: Global, word: &[u8]) -> Result<Option<Body>, AllocError>
    ensures { IfOk result (λ body. body ≡ told.body_of word.now) }
{
    if word == b"-".as_slice() {
        return Ok(Some(Body::new(alloc, b"".as_slice())?));
    }
    match hex::decode(alloc, word) {
        Ok(bytes) => Ok(Some(Body::new(alloc, bytes.as_slice())?)),
        Err(FromHexError::OutOfMemory) => Err(AllocError),
        Err(_) => Ok(None),
    }
}
