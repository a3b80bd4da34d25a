ghost use Rattle.std.specs.Prelude.{◌≡◌, ℕ, ◌≤◌, ◌-◌, length, Some};
ghost use Rattle.bean_codec.specs.declared.profile.Profile.{Profile};
ghost use Rattle.bean_codec.specs.declared.reader.Want.TheVariants as wants;
ghost use Rattle.bean_codec.specs.Reads.{IfMore, IsBeforeCr, TellsItem, TellsMore, TellsDrop, IsDue};

use crate::reader::{Read, Want};
use crate::request::Fault;
use bstr::ByteSlice;

/// What ends a line that is too long, or how much of it may be dropped.
pub fn read_rest(bytes: &[u8]) -> Read
    ensures item { (profile : Profile) → TellsItem profile wants.Rest bytes.now result }
    ensures more { (profile : Profile) → TellsMore profile wants.Rest bytes.now result }
    ensures drop { (profile : Profile) → TellsDrop profile wants.Rest bytes.now result }
    ensures due { (profile : Profile) → IsDue profile wants.Rest bytes.now result }
    ensures bound { IfMore result (length bytes.now ≤ 1) }
{
    let Some(end) = bytes.find(b"\r\n") else {
        let used = len_without_cr(bytes);
        if used == 0 {
            return Read::More;
        }
        let want = Want::Rest;
        return Read::Drop { used, want };
    };
    let fault = Fault::BadFormat;
    let used = end + 2;
    Read::Bad { fault, used }
}

/// How many bytes stand there, but for a carriage return at the end.
fn len_without_cr(bytes: &[u8]) -> usize
    ensures { IsBeforeCr bytes.now result }
{
    match bytes.last() {
        Some(b'\r') => bytes.len() - 1,
        _ => bytes.len(),
    }
}

/// What ends a put whose body is too large, or how much of it may be dropped.
pub fn read_big(left: u64, bytes: &[u8]) -> Read
    ensures item { (profile : Profile) → TellsItem profile (wants.Big left) bytes.now result }
    ensures more { (profile : Profile) → TellsMore profile (wants.Big left) bytes.now result }
    ensures drop { (profile : Profile) → TellsDrop profile (wants.Big left) bytes.now result }
    ensures due { (profile : Profile) → IsDue profile (wants.Big left) bytes.now result }
    ensures bound { IfMore result (length bytes.now ≤ 0) }
{
    let here = bytes.len() as u64;
    if left <= here {
        let fault = Fault::JobTooBig;
        let used = left as usize;
        return Read::Bad { fault, used };
    }
    if bytes.is_empty() {
        return Read::More;
    }
    let used = bytes.len();
    let want = Want::Big(left - here);
    Read::Drop { used, want }
}
