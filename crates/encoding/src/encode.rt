ghost use Rattle.std.specs.Prelude.{◌≡◌, ◌++◌, OnOk};
ghost use Rattle.std.specs.Int.{w32, w64};
ghost use Rattle.encoding.specs.Formats.{Format, Gives};
ghost use Rattle.encoding.specs.Numbers.{u32_format, u64_format};

use crate::fault::DecodeFault;
use std::alloc::{AllocError, Global};

/// A value that is written in bytes in one way, and read from them.
///
/// `format` says how: what is read was written so, and what was written is read again, whatever follows it.
pub trait Encode: Drop + Sized {
    ghost format: { Format Self };

    /// Appends its bytes. Where memory is refused, some of them may stand there.
    fn encode(&self, out: &mut Vec<u8>) -> Result<(), AllocError>
        ensures ok { OnOk result (out.new.items ≡ out.old.items ++ format.bytes self.now) }
        ensures fits { OnOk result (format.Fits self.now) };

    /// The value at the front of the bytes, with those behind it.
    fn decode(alloc: Global, bytes: &[u8]) -> Result<(Self, &[u8]), DecodeFault>
        ensures { Gives (λ x. (x.0, x.1.now)) result (format.at bytes.now) };
}

impl Encode for u8 {
    ghost use Rattle.encoding.specs.Variants.{byte};

    ghost format = { byte };

    fn encode(&self, out: &mut Vec<u8>) -> Result<(), AllocError> {
        Ok(out.push(*self)?)
    }

    fn decode(_: Global, bytes: &[u8]) -> Result<(u8, &[u8]), DecodeFault> {
        match bytes {
            [] => Err(DecodeFault::Malformed),
            [byte, rest @ ..] => Ok((*byte, rest)),
        }
    }
}

impl Encode for u32 {
    ghost format = { u32_format };

    fn encode(&self, out: &mut Vec<u8>) -> Result<(), AllocError> {
        out.extend_from_slice(&self.to_be_bytes())
    }

    fn decode(_: Global, bytes: &[u8]) -> Result<(u32, &[u8]), DecodeFault> {
        if bytes.len() < 4 {
            return Err(DecodeFault::Malformed);
        }
        let (front, rest) = bytes.split_at(4);
        let number = u32::from_be_bytes([front[0], front[1], front[2], front[3]]);
        Ok((number, rest))
    }
}

impl Encode for u64 {
    ghost format = { u64_format };

    fn encode(&self, out: &mut Vec<u8>) -> Result<(), AllocError> {
        out.extend_from_slice(&self.to_be_bytes())
    }

    fn decode(_: Global, bytes: &[u8]) -> Result<(u64, &[u8]), DecodeFault> {
        if bytes.len() < 8 {
            return Err(DecodeFault::Malformed);
        }
        let (front, rest) = bytes.split_at(8);
        let number = u64::from_be_bytes([
            front[0], front[1], front[2], front[3], front[4], front[5], front[6], front[7],
        ]);
        Ok((number, rest))
    }
}

impl<A: Encode, B: Encode> Encode for (A, B) {
    ghost use Rattle.encoding.specs.Joined.{both};

    ghost format = { both A.format B.format };

    fn encode(&self, out: &mut Vec<u8>) -> Result<(), AllocError> {
        self.0.encode(out)?;
        self.1.encode(out)
    }

    fn decode(alloc: Global, bytes: &[u8]) -> Result<((A, B), &[u8]), DecodeFault> {
        let (a, rest) = A::decode(alloc, bytes)?;
        let (b, rest) = B::decode(alloc, rest)?;
        Ok(((a, b), rest))
    }
}
