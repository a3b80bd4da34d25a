ghost use Rattle.std.specs.Prelude.{◌≡◌, ℕ, Bool, true, false, Option, IfSome, IsErrOf, OnOk};
ghost use Rattle.std.specs.Io.{ReadsAtMost};
ghost use Rattle.std.specs.Io.KnownBytes.{Keeps};
ghost use Rattle.log_file.specs.Bytes.{CutsTo, ReadsFrom};

use crate::durable::Durable;
use std::fs::{File, TryLockError};
use std::io;
use std::os::unix::fs::FileExt;

/// What a log can be kept in, as a file is: it has a lock that one opener alone gets, its bytes are read from any of them
/// on, and cut off behind a length.
pub trait Storage: Durable {
    // Whether it grants us its lock, where that is known. It doesn't where another opener has the lock.
    ghost grants_lock: { Self → Option Bool };

    /// Takes its lock, which is ours then until it is closed.
    fn take_lock(&self) -> Result<(), TryLockError>
        ensures ours { OnOk result (IfSome (grants_lock self.now) (λ grants. grants ≡ true)) }
        ensures held { IsErrOf result TryLockError.WouldBlock
            → IfSome (grants_lock self.now) (λ grants. grants ≡ false) };

    /// Reads some of the bytes behind so many first ones, none only where none stand there.
    fn read_from(&self, piece: &mut [u8], from: u64) -> io::Result<usize>
        ensures bound { ReadsAtMost result piece.new }
        ensures bytes { ReadsFrom (Self.contents self.now) from result piece.new };

    /// Cuts off what stands behind so many bytes, and returns once these are kept, or fails.
    fn cut(&mut self, bytes: u64) -> io::Result<()>
        ensures bytes { OnOk result (CutsTo (Self.contents self.old) (Self.contents self.new) bytes) }
        ensures kept { OnOk result (Keeps (Self.contents self.new) (Self.kept self.new)) };
}

impl Storage for File {
    ghost grants_lock = { λ _. None };

    ghost use Rattle.std.specs.Prelude.{None};

    fn take_lock(&self) -> Result<(), TryLockError> {
        self.try_lock()
    }

    fn read_from(&self, piece: &mut [u8], from: u64) -> io::Result<usize> {
        self.read_at(piece, from)
    }

    fn cut(&mut self, bytes: u64) -> io::Result<()> {
        self.set_len(bytes)?;
        self.sync_all()
    }
}
