//! Streams over memory, for tests: they go in pieces, and fail where they are told to.
ghost use Rattle.std.specs.Prelude.{◌≡◌, ◌<◌, ◌≤◌, ◌+◌, ◌||◌, false, [], Some, length, IfOk};
ghost use Rattle.std.specs.Io.{ReadsAtMost, WritesAtMost};
ghost use Rattle.std.specs.Io.KnownBytes.{ReadConsumes, WriteAppends};
ghost use Rattle.session.specs.Streams.{finds_end, FailsForGood};

use crate::streams::{ByteIn, ByteOut, Failed};
use std::alloc::Global;

/// What follows the last byte of a `PieceReader`.
#[derive(Clone, Copy, Debug, PartialEq, Eq)]
pub enum Ending {
    /// The end.
    End,
    /// A failure.
    Failure,
}

/// Gives the bytes of a slice, at most `piece_len` of them a read, and then its ending.
#[derive(Drop)]
pub struct PieceReader<'a> {
    rest: &'a [u8],
    pub piece_len: usize,
    pub ending: Ending,
    failed: bool,
    ended: bool,
    ghost moves: { 0 < piece_len },
}

impl<'a> PieceReader<'a> {
    pub fn new(bytes: &'a [u8], piece_len: usize, ending: Ending) -> PieceReader<'a>
        requires { 0 < piece_len }
        ensures piece_len { result.piece_len ≡ piece_len }
        ensures ending { result.ending ≡ ending }
        ensures remaining { ⟦<PieceReader<'a> as ByteIn>⟧.remaining result ≡ Some bytes.entry.now }
        ensures not_failed { ⟦<PieceReader<'a> as ByteIn>⟧.has_failed result ≡ false }
        ensures not_ended { ⟦<PieceReader<'a> as ByteIn>⟧.has_ended result ≡ false }
    {
        PieceReader {
            rest: bytes,
            piece_len,
            ending,
            failed: false,
            ended: false,
        }
    }
}

impl ByteIn for PieceReader<'_> {
    ghost remaining = { λ s. Some s.rest.now };

    ghost has_failed = { λ s. s.failed };

    ghost has_ended = { λ s. s.ended };

    fn read(&mut self, buf: &mut [u8]) -> Result<usize, Failed>
        ensures bound { ReadsAtMost result buf.new }
        ensures bytes { ReadConsumes (Some self.old.rest.now) (Some self.new.rest.now) result buf.new }
        ensures end { self.new.ended ≡ (self.old.ended || finds_end result buf.new) }
        ensures piece { IfOk result (λ n. n ≤ self.old.piece_len) }
        ensures piece_len { self.new.piece_len ≡ self.old.piece_len }
        ensures fails { FailsForGood self.old.failed self.new.failed result }
    {
        if self.failed {
            return Err(Failed);
        }
        let n = buf.len().min(self.rest.len()).min(self.piece_len);
        if n == 0 && !buf.is_empty() {
            match self.ending {
                Ending::End => self.ended = true,
                Ending::Failure => {
                    self.failed = true;
                    return Err(Failed);
                }
            }
        }
        let (piece, rest) = self.rest.split_at(n);
        buf[..n].copy_from_slice(piece);
        self.rest = rest;
        Ok(n)
    }
}

/// Keeps the bytes that are written, at most `piece_len` of them a write, and fails for want of room.
#[derive(Drop)]
pub struct PieceWriter {
    bytes: Vec<u8>,
    pub piece_len: usize,
    pub room: usize,
    failed: bool,
}

impl PieceWriter {
    /// A writer with room for so many bytes.
    pub fn new(alloc: Global, piece_len: usize, room: usize) -> PieceWriter
        ensures piece_len { result.piece_len ≡ piece_len }
        ensures room { result.room ≡ room }
        ensures contents { ⟦<PieceWriter as ByteOut>⟧.contents result ≡ Some [] }
        ensures not_failed { ⟦<PieceWriter as ByteOut>⟧.has_failed result ≡ false }
    {
        PieceWriter {
            bytes: Vec::new(alloc),
            piece_len,
            room,
            failed: false,
        }
    }

    /// What was written.
    pub fn bytes(&self) -> &[u8]
        ensures { ⟦<PieceWriter as ByteOut>⟧.contents self.now ≡ Some result.now }
    {
        self.bytes.as_slice()
    }
}

impl ByteOut for PieceWriter {
    ghost contents = { λ s. Some s.bytes.items };

    ghost has_failed = { λ s. s.failed };

    fn write(&mut self, bytes: &[u8]) -> Result<usize, Failed>
        ensures bound { WritesAtMost result bytes.now }
        ensures some { IfOk result (λ n. 0 < length bytes.now → 0 < n) }
        ensures bytes { WriteAppends (Some self.old.bytes.items) (Some self.new.bytes.items) result bytes.now }
        ensures piece { IfOk result (λ n. n ≤ self.old.piece_len) }
        ensures piece_len { self.new.piece_len ≡ self.old.piece_len }
        ensures room { IfOk result (λ n. self.new.room + n ≡ self.old.room) }
        ensures fails { FailsForGood self.old.failed self.new.failed result }
    {
        if self.failed {
            return Err(Failed);
        }
        let n = bytes.len().min(self.piece_len).min(self.room);
        if n == 0 && !bytes.is_empty() {
            self.failed = true;
            return Err(Failed);
        }
        match self.bytes.extend_from_slice(&bytes[..n]) {
            Ok(()) => {
                self.room -= n;
                Ok(n)
            }
            Err(_) => {
                self.failed = true;
                Err(Failed)
            }
        }
    }
}
