ghost use Rattle.std.specs.Prelude.{◌≡◌, ◌++◌, OnOk};
ghost use Rattle.encoding.specs.Formats.{Format, Gives};
ghost use Rattle.encoding.specs.Joined.{sized};
ghost use Rattle.encoding.specs.Words.{name_format, optional};

use crate::encode::Encode;
use crate::fault::DecodeFault;
use bean_words::{Body, Name};
use std::alloc::{AllocError, Global};

// Appends bytes behind their number.
fn encode_sized(bytes: &[u8], out: &mut Vec<u8>) -> Result<(), AllocError>
    ensures ok { OnOk result (out.new.items ≡ out.old.items ++ sized.bytes bytes.now) }
    ensures fits { OnOk result (sized.Fits bytes.now) }
{
    (bytes.len() as u64).encode(out)?;
    out.extend_from_slice(bytes)
}

// The bytes at the front, behind their number, and those behind them.
fn decode_sized(alloc: Global, bytes: &[u8]) -> Result<(&[u8], &[u8]), DecodeFault>
    ensures { Gives (λ x. (x.0.now, x.1.now)) result (sized.at bytes.now) }
{
    let (len, rest) = u64::decode(alloc, bytes)?;
    if (rest.len() as u64) < len {
        return Err(DecodeFault::Malformed);
    }
    Ok(rest.split_at(len as usize))
}

impl Encode for Body {
    ghost format = { sized };

    fn encode(&self, out: &mut Vec<u8>) -> Result<(), AllocError> {
        encode_sized(self.as_slice(), out)
    }

    fn decode(alloc: Global, bytes: &[u8]) -> Result<(Body, &[u8]), DecodeFault> {
        let (front, rest) = decode_sized(alloc, bytes)?;
        Ok((Body::new(alloc, front)?, rest))
    }
}

impl Encode for Name {
    ghost format = { name_format };

    fn encode(&self, out: &mut Vec<u8>) -> Result<(), AllocError> {
        encode_sized(self.as_slice(), out)
    }

    fn decode(alloc: Global, bytes: &[u8]) -> Result<(Name, &[u8]), DecodeFault> {
        let (front, rest) = decode_sized(alloc, bytes)?;
        let name = Name::new(alloc, front)?.ok_or(DecodeFault::Malformed)?;
        Ok((name, rest))
    }
}

impl<T: Encode> Encode for Option<T> {
    ghost format = { optional T.format };

    fn encode(&self, out: &mut Vec<u8>) -> Result<(), AllocError> {
        match self {
            None => Ok(out.push(0)?),
            Some(value) => {
                out.push(1)?;
                value.encode(out)
            }
        }
    }

    fn decode(alloc: Global, bytes: &[u8]) -> Result<(Option<T>, &[u8]), DecodeFault> {
        match bytes {
            [0, rest @ ..] => Ok((None, rest)),
            [1, rest @ ..] => {
                let (value, rest) = T::decode(alloc, rest)?;
                Ok((Some(value), rest))
            }
            _ => Err(DecodeFault::Malformed),
        }
    }
}
