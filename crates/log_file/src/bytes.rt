ghost use Rattle.std.specs.Prelude.{◌≡◌, ◌<◌, ℕ, List, IfOk, IfErr, IfSome, IsErrOf, OnOk, OnErr, length};
ghost use Rattle.std.specs.Io.{ReadsAtMost, WritesAtMost};
ghost use Rattle.std.specs.Io.KnownBytes.{Keeps, ReadConsumes, WriteAppends};
ghost use Rattle.log_file.specs.Bytes.{AppendsPart, WritesBatch};
ghost use Rattle.log_file.specs.Faults.{IsOfReading, IsOfSyncing};

use crate::durable::Durable;
use crate::faults::{KeepFault, ReadFault};
use std::io;
use std::io::{ErrorKind, Read, Write};

/// Writes all the bytes, or fails after some first ones.
pub(crate) fn write_all<W: Write>(writer: &mut W, bytes: &[u8]) -> io::Result<()>
    ensures written { WritesBatch (W.contents writer.old) (W.contents writer.new) bytes.now result }
    ensures part { OnErr result (AppendsPart (W.contents writer.old) (W.contents writer.new) bytes.now) }
{
    let mut written = 0;
    while written < bytes.len() {
        written += write_some(writer, &bytes[written..])?;
    }
    Ok(())
}

/// Keeps all that was written, and looks whether the writer holds so many bytes.
pub(crate) fn sync_all<W: Durable>(writer: &mut W, len: u64) -> Result<(), KeepFault>
    ensures bytes { Keeps (W.contents writer.old) (W.contents writer.new) }
    ensures kept { OnOk result (Keeps (W.contents writer.new) (W.kept writer.new)) }
    ensures held { OnOk result (IfSome (W.contents writer.new) (λ held. length held ≡ len)) }
    ensures fault { IfErr result (IsOfSyncing (W.contents writer.new) len) }
    ensures tried { IsErrOf result KeepFault.HasFailed → ⊥ }
{
    writer.sync().map_err(KeepFault::SyncFailed)?;
    let size = writer.size().map_err(KeepFault::SyncFailed)?;
    if size != len {
        return Err(KeepFault::Changed);
    }
    Ok(())
}

// One write, tried again where it is interrupted. It takes a byte at least, where there is one.
fn write_some<W: Write>(writer: &mut W, bytes: &[u8]) -> io::Result<usize>
    ensures bound { WritesAtMost result bytes.now }
    ensures some { IfOk result (λ n. 0 < length bytes.now → 0 < n) }
    ensures bytes { WriteAppends (W.contents writer.old) (W.contents writer.new) result bytes.now }
{
    for _ in 0..u64::MAX {
        match writer.write(bytes) {
            Ok(0) if !bytes.is_empty() => return Err(io::Error::from(ErrorKind::WriteZero)),
            Ok(n) => return Ok(n),
            Err(e) if e.kind() == ErrorKind::Interrupted => {}
            Err(e) => return Err(e),
        }
    }
    Err(io::Error::from(ErrorKind::Interrupted))
}

/// One read, tried again where it is interrupted.
pub(crate) fn read_some<R: Read>(reader: &mut R, piece: &mut [u8]) -> Result<usize, ReadFault>
    ensures bound { ReadsAtMost result piece.new }
    ensures bytes { ReadConsumes (R.remaining reader.old) (R.remaining reader.new) result piece.new }
    ensures fault { IfErr result IsOfReading }
{
    for _ in 0..u64::MAX {
        match reader.read(piece) {
            Ok(n) => return Ok(n),
            Err(e) if e.kind() == ErrorKind::Interrupted => {}
            Err(e) => return Err(ReadFault::ReadFailed(e)),
        }
    }
    Err(ReadFault::ReadFailed(io::Error::from(ErrorKind::Interrupted)))
}
