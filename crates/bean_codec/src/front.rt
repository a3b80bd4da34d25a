ghost use Rattle.std.specs.Prelude.{◌≡◌, ℕ, ◌+◌, ◌<◌, ◌≤◌, ◌^◌, List, ◌++◌, length, take, drop, IfOk, IfSome, OnErr};
ghost use Rattle.bean_codec.specs.declared.reader.Want.TheVariants as wants;
ghost use Rattle.bean_codec.specs.Grammar.{Item, put_item, longest_body};
ghost use Rattle.bean_codec.specs.Memory.{TakesMemory};
ghost use Rattle.bean_codec.specs.Reads.{item_read, IfMore, IfDrop, BeginsWith, CompletesFront, DropsBig, TellsItem, TellsMore, TellsDrop, IsDue, IsRestDue, longest_unfinished};

use crate::line::{LONGEST_LINE, Meaning, meaning_of};
use crate::profile::Profile;
use crate::reader::{Read, Want};
use crate::request::{Fault, Request};
use bean_words::{Body, Op};
use bstr::ByteSlice;
use std::alloc::{AllocError, Global};

/// The most bytes of a body.
const LONGEST_BODY: u32 = 65535;

/// The item at the front of the bytes, or how much may be dropped of one that is too long.
pub fn read_line(profile: Profile, alloc: Global, bytes: &[u8]) -> Result<Read, AllocError>
    ensures item { IfOk result (TellsItem profile wants.Line bytes.now) }
    ensures more { IfOk result (TellsMore profile wants.Line bytes.now) }
    ensures drop { IfOk result (TellsDrop profile wants.Line bytes.now) }
    ensures due { IfOk result (IsDue profile wants.Line bytes.now) }
    ensures bound { IfOk result (λ read. IfMore read (length bytes.now ≤ longest_unfinished)) }
    ensures memory { OnErr result
        ((found : Item × ℕ) × TakesMemory found.0 × BeginsWith profile bytes.now found) }
{
    let front = &bytes[..bytes.len().min(LONGEST_LINE)];
    let Some(end) = front.find(b"\r\n") else {
        if bytes.len() < LONGEST_LINE {
            return Ok(Read::More);
        }
        let used = LONGEST_LINE - 1;
        let want = Want::Rest;
        return Ok(Read::Drop { used, want });
    };
    let start = end + 2;
    let meaning = meaning_of(profile, alloc, &bytes[..end])?;
    complete(alloc, meaning, start, &bytes[start..])
}

/// The item that a line of this meaning makes with the front of the rest, which begins at `start`.
fn complete(
    alloc: Global,
    meaning: Result<Meaning, Fault>,
    start: usize,
    rest: &[u8],
) -> Result<Read, AllocError>
    requires { start + length rest.now < 2 ^ 64 }
    ensures item { IfOk result (λ read. IfSome (item_read read)
        (CompletesFront meaning start rest.now)) }
    ensures more { IfOk result (λ read. IfMore read
        ((found : Item × ℕ) → ¬ CompletesFront meaning start rest.now found)) }
    ensures bound { IfOk result (λ read. IfMore read (length rest.now ≤ longest_body + 1)) }
    ensures drop { IfOk result (λ read. IfDrop read (λ used want.
        (used ≡ start) × DropsBig meaning want)) }
    ensures due { IfOk result (IsRestDue meaning rest.now) }
    ensures memory { OnErr result ((put : Item × ℕ) × TakesMemory put.0 ×
        CompletesFront meaning start rest.now put) }
{
    match meaning {
        Ok(Meaning::Whole(request)) => Ok(Read::Request {
            request,
            used: start,
        }),
        Ok(
            Meaning::WithBody {
                pri,
                delay,
                ttr,
                size,
            },
        ) => complete_put(alloc, pri, delay, ttr, size, start, rest),
        Err(fault) => Ok(Read::Bad { fault, used: start }),
    }
}

/// The same of a put line: its body and two bytes stand at the front of the rest.
#[tactic(auto, unfolding(crate::specs::Grammar::put_item))]
fn complete_put(
    alloc: Global,
    pri: u32,
    delay: u32,
    ttr: u32,
    size: u32,
    start: usize,
    rest: &[u8],
) -> Result<Read, AllocError>
    requires { start + length rest.now < 2 ^ 64 }
    ensures item { IfOk result (λ read. IfSome (item_read read) (λ found.
        (found ≡ (put_item pri delay ttr size (take (size + 2) rest.now), start + (size + 2)))
        × (size + 2 ≤ length rest.now) × (size ≤ longest_body))) }
    ensures more { IfOk result (λ read. IfMore read
        ((length rest.now < size + 2) × (size ≤ longest_body))) }
    ensures drop { IfOk result (λ read. IfDrop read (λ used want.
        (used ≡ start) × (want ≡ wants.Big (size + 2)) × (longest_body < size))) }
    ensures memory { OnErr result
        (TakesMemory (put_item pri delay ttr size (take (size + 2) rest.now))
        × (size + 2 ≤ length rest.now)) }
{
    if size > LONGEST_BODY {
        let want = Want::Big(size as u64 + 2);
        return Ok(Read::Drop { used: start, want });
    }
    let body_len = size as usize;
    let taken = body_len + 2;
    if rest.len() < taken {
        return Ok(Read::More);
    }
    let used = start + taken;
    let (body, after) = rest[..taken].split_at(body_len);
    if after != b"\r\n".as_slice() {
        let fault = Fault::ExpectedCrlf;
        return Ok(Read::Bad { fault, used });
    }
    let body = Body::new(alloc, body)?;
    let request = Request::Do(Op::Put {
        pri,
        delay,
        ttr,
        body,
    });
    Ok(Read::Request { request, used })
}
