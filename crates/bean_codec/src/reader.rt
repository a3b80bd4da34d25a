ghost use Rattle.std.specs.Prelude.{◌≡◌};
ghost use Rattle.bean_codec.specs.Reads.{TellsFront};

use crate::dropped::{read_big, read_rest};
use crate::front::read_line;
use crate::profile::Profile;
use crate::request::{Fault, Request};
use std::alloc::{AllocError, Global};

/// What a reader waits for.
#[derive(Clone, Copy, PartialEq, Eq, Debug)]
pub enum Want {
    /// The line of the next request.
    Line,
    /// The rest of a line that is too long.
    Rest,
    /// So many bytes, which end a put whose body is too large.
    Big(u64),
}

/// What a reader found at the front of the bytes.
#[derive(Drop, PartialEq, Eq)]
pub enum Read {
    /// No more than the beginning of an item.
    More,
    /// The beginning of an item, of which the first `used` bytes need not be kept.
    Drop { used: usize, want: Want },
    /// A request, which takes `used` bytes.
    Request { request: Request, used: usize },
    /// A text that is no request, and takes `used` bytes.
    Bad { fault: Fault, used: usize },
}

/// The request of the plain profile at the front of the bytes, or the fault of the text that stands there. What follows
/// it isn't looked at.
///
/// The reader waits for `Want::Line` at first, and after a request or a fault. Where bytes are dropped
/// it waits for what it is told then, and the bytes after them come next.
pub fn read_request(alloc: Global, want: Want, bytes: &[u8]) -> Result<Read, AllocError>
    ensures { TellsFront Profile.Plain want bytes.now result }
{
    read_request_in(Profile::Plain, alloc, want, bytes)
}

/// The same of this profile.
pub fn read_request_in(
    profile: Profile,
    alloc: Global,
    want: Want,
    bytes: &[u8],
) -> Result<Read, AllocError>
    ensures { TellsFront profile want bytes.now result }
{
    match want {
        Want::Line => read_line(profile, alloc, bytes),
        Want::Rest => Ok(read_rest(bytes)),
        Want::Big(left) => Ok(read_big(left, bytes)),
    }
}
