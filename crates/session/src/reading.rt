ghost use Rattle.std.specs.Prelude.{◌≡◌, false};
ghost use Rattle.std.specs.Io.{ReadsAtMost};
ghost use Rattle.std.specs.Io.KnownBytes.{ReadConsumes};

use crate::streams::{ByteIn, Failed};
use std::io::{ErrorKind, Read};

/// A reader of std's as a reader of bytes. An interrupted read is tried again.
#[derive(Drop)]
pub struct Reading<R> {
    reader: R,
    failed: bool,
    ended: bool,
}

impl<R: Read> Reading<R> {
    pub fn new(reader: R) -> Reading<R>
        ensures remaining { ⟦<Reading<R> as ByteIn>⟧.remaining result ≡ R.remaining reader }
        ensures not_failed { ⟦<Reading<R> as ByteIn>⟧.has_failed result ≡ false }
        ensures not_ended { ⟦<Reading<R> as ByteIn>⟧.has_ended result ≡ false }
    {
        Reading {
            reader,
            failed: false,
            ended: false,
        }
    }
}

impl<R: Read> ByteIn for Reading<R> {
    ghost remaining = { λ s. R.remaining s.reader };

    ghost has_failed = { λ s. s.failed };

    ghost has_ended = { λ s. s.ended };

    fn read(&mut self, buf: &mut [u8]) -> Result<usize, Failed> {
        if self.failed {
            return Err(Failed);
        }
        match read_uninterrupted(&mut self.reader, buf) {
            Ok(n) => {
                if n == 0 && !buf.is_empty() {
                    self.ended = true;
                }
                Ok(n)
            }
            Err(e) => {
                self.failed = true;
                Err(e)
            }
        }
    }
}

// One read, tried again where it is interrupted.
fn read_uninterrupted<R: Read>(reader: &mut R, buf: &mut [u8]) -> Result<usize, Failed>
    ensures bound { ReadsAtMost result buf.new }
    ensures bytes { ReadConsumes (R.remaining reader.old) (R.remaining reader.new) result buf.new }
{
    for _ in 0..u64::MAX {
        match reader.read(buf) {
            Ok(n) => return Ok(n),
            Err(e) if e.kind() == ErrorKind::Interrupted => {}
            Err(_) => return Err(Failed),
        }
    }
    Err(Failed)
}
