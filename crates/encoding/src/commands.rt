ghost use Rattle.std.specs.Prelude.{◌≡◌, ◌++◌, OnOk};
ghost use Rattle.encoding.specs.Formats.{Format, Gives};
ghost use Rattle.encoding.specs.Commands.{key_format, act_format, command_format};

use crate::encode::Encode;
use crate::fault::DecodeFault;
use object::{Act, Command, Key};
use std::alloc::{AllocError, Global};

impl Encode for Key {
    ghost format = { key_format };

    fn encode(&self, out: &mut Vec<u8>) -> Result<(), AllocError> {
        self.session.encode(out)?;
        self.number.encode(out)
    }

    fn decode(alloc: Global, bytes: &[u8]) -> Result<(Key, &[u8]), DecodeFault> {
        let (session, rest) = u32::decode(alloc, bytes)?;
        let (number, rest) = u64::decode(alloc, rest)?;
        Ok((Key { session, number }, rest))
    }
}

impl<Op: Encode> Encode for Act<Op> {
    ghost format = { act_format Op.format };

    fn encode(&self, out: &mut Vec<u8>) -> Result<(), AllocError> {
        match self {
            Act::Do(op) => {
                out.push(0)?;
                op.encode(out)
            }
            Act::Close => Ok(out.push(1)?),
            Act::Tick => Ok(out.push(2)?),
        }
    }

    fn decode(alloc: Global, bytes: &[u8]) -> Result<(Act<Op>, &[u8]), DecodeFault> {
        match bytes {
            [0, rest @ ..] => {
                let (op, rest) = Op::decode(alloc, rest)?;
                Ok((Act::Do(op), rest))
            }
            [1, rest @ ..] => Ok((Act::Close, rest)),
            [2, rest @ ..] => Ok((Act::Tick, rest)),
            _ => Err(DecodeFault::Malformed),
        }
    }
}

impl<Op: Encode> Encode for Command<Op> {
    ghost format = { command_format Op.format };

    fn encode(&self, out: &mut Vec<u8>) -> Result<(), AllocError> {
        self.key().encode(out)?;
        self.act().encode(out)
    }

    fn decode(alloc: Global, bytes: &[u8]) -> Result<(Command<Op>, &[u8]), DecodeFault> {
        let (key, rest) = Key::decode(alloc, bytes)?;
        let (act, rest) = Act::decode(alloc, rest)?;
        let command = Command::new(key, act).ok_or(DecodeFault::Malformed)?;
        Ok((command, rest))
    }
}
