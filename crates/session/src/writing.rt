ghost use Rattle.std.specs.Prelude.{◌≡◌, ◌<◌, false, IfOk, length};
ghost use Rattle.std.specs.Io.{WritesAtMost};
ghost use Rattle.std.specs.Io.KnownBytes.{WriteAppends};
ghost use Rattle.session.specs.StreamStates.{WritesAll};

use crate::streams::{ByteOut, Failed};
use std::io::{ErrorKind, Write};

/// A writer of std's as a writer of bytes. An interrupted write is tried again, and one that takes
/// nothing has failed.
#[derive(Drop)]
pub struct Writing<W> {
    writer: W,
    failed: bool,
}

impl<W: Write> Writing<W> {
    pub fn new(writer: W) -> Writing<W>
        ensures contents { ⟦<Writing<W> as ByteOut>⟧.contents result ≡ W.contents writer }
        ensures not_failed { ⟦<Writing<W> as ByteOut>⟧.has_failed result ≡ false }
    {
        Writing {
            writer,
            failed: false,
        }
    }
}

impl<W: Write> ByteOut for Writing<W> {
    ghost contents = { λ s. W.contents s.writer };

    ghost has_failed = { λ s. s.failed };

    fn write(&mut self, bytes: &[u8]) -> Result<usize, Failed> {
        if self.failed {
            return Err(Failed);
        }
        match write_uninterrupted(&mut self.writer, bytes) {
            Ok(n) => Ok(n),
            Err(e) => {
                self.failed = true;
                Err(e)
            }
        }
    }
}

// One write, tried again where it is interrupted.
fn write_uninterrupted<W: Write>(writer: &mut W, bytes: &[u8]) -> Result<usize, Failed>
    ensures bound { WritesAtMost result bytes.now }
    ensures some { IfOk result (λ n. 0 < length bytes.now → 0 < n) }
    ensures bytes { WriteAppends (W.contents writer.old) (W.contents writer.new) result bytes.now }
{
    for _ in 0..u64::MAX {
        match writer.write(bytes) {
            Ok(0) if !bytes.is_empty() => return Err(Failed),
            Ok(n) => return Ok(n),
            Err(e) if e.kind() == ErrorKind::Interrupted => {}
            Err(_) => return Err(Failed),
        }
    }
    Err(Failed)
}

/// Writes all the bytes, or fails after some first ones.
pub fn write_all<W: ByteOut>(writer: &mut W, bytes: &[u8]) -> Result<(), Failed>
    ensures written { WritesAll W.ByteOut writer.old writer.new bytes.now result }
{
    let mut written = 0;
    while written < bytes.len() {
        written += writer.write(&bytes[written..])?;
    }
    Ok(())
}
