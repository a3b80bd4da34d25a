ghost use Rattle.std.specs.Prelude.{◌≡◌, ◌<◌, ℕ, List, length, IfOk, IfErr};
ghost use Rattle.command_log.specs.Progress.{HasRead};
ghost use Rattle.log_file.specs.Faults.{IsFaultOf, IsReadFault};
ghost use Rattle.log_file.specs.Reads.{IsRecovered, ReadsAll};

use crate::bytes::read_some;
use crate::faults::ReadFault;
use bean_words::Op;
use command_log::{LogReader, Whole};
use object::Command;
use std::alloc::Global;
use std::io::Read;

/// How many bytes a read asks for.
const PIECE_LEN: usize = 65_536;

/// What was read of a log.
#[derive(Drop)]
pub struct Recovered {
    /// The log that stands whole at the beginning.
    pub whole: Whole,
    /// Its commands, in their order.
    pub commands: Vec<Command<Op>>,
    /// How many bytes stand behind it. They may be cut off.
    pub behind: u64,
}

/// Reads a log to the end of its bytes.
pub fn read_log<R: Read>(alloc: Global, reader: &mut R) -> Result<Recovered, ReadFault>
    ensures ok { IfOk result (λ recovered.
        ReadsAll (R.remaining reader.old) (R.remaining reader.new) (λ text. IsRecovered text recovered)) }
    ensures fault { IfErr result (IsReadFault (R.remaining reader.old) (R.remaining reader.new)) }
{
    let mut piece = Vec::new(alloc);
    piece.resize(PIECE_LEN, 0)?;
    read_by(alloc, reader, piece.as_mut_slice())
}

// Reads a log to the end of its bytes, through this piece.
fn read_by<R: Read>(alloc: Global, reader: &mut R, piece: &mut [u8]) -> Result<Recovered, ReadFault>
    requires { 0 < length piece.old }
    ensures ok { IfOk result (λ recovered.
        ReadsAll (R.remaining reader.old) (R.remaining reader.new) (λ text. IsRecovered text recovered)) }
    ensures fault { IfErr result (IsReadFault (R.remaining reader.old) (R.remaining reader.new)) }
{
    let mut commands = Vec::new(alloc);
    let mut log = LogReader::new(alloc);
    let mut bytes = 0u64;
    loop {
        let n = read_some(reader, piece)?;
        if n == 0 {
            return finish_log(log, commands, bytes);
        }
        let Some(more) = bytes.checked_add(n as u64) else {
            return Err(ReadFault::TooLong);
        };
        bytes = more;
        log = log.feed(&piece[..n], &mut commands)?;
    }
}

// What was read, at the end of so many bytes.
fn finish_log(
    log: LogReader,
    commands: Vec<Command<Op>>,
    bytes: u64,
) -> Result<Recovered, ReadFault>
    ensures ok { IfOk result (λ recovered. (text : List ℕ) → HasRead log text commands.items
        → bytes ≡ length text → IsRecovered text recovered) }
    ensures fault { IfErr result (λ fault. (text : List ℕ) → HasRead log text commands.items
        → IsFaultOf text fault) }
{
    match log.finish() {
        Ok(whole) => Ok(Recovered {
            whole,
            commands,
            // The log is a beginning of what was read.
            behind: bytes.saturating_sub(whole.bytes),
        }),
        Err(fault) => Err(ReadFault::NoLog(fault)),
    }
}
