ghost use Rattle.std.specs.Prelude.{◌≡◌, ℕ, List, true, false, Some, IfOk, IfErr, IfSome, OnOk};
ghost use Rattle.std.specs.Io.KnownBytes.{Keeps};
ghost use Rattle.log_file.specs.Bytes.{CutsTo};
ghost use Rattle.log_file.specs.Faults.{IsOfLocking};
ghost use Rattle.log_file.specs.Opening.{IsReadOf};

use crate::durable::Durable;
use crate::faults::{OpenFault, ReadFault};
use crate::reader::{Recovered, read_log};
use crate::storage::Storage;
use crate::stored::Stored;
use std::alloc::Global;
use std::fs::TryLockError;
use std::io;
use std::io::Write;
use std::marker::Model;

/// A file whose lock is ours, until it is closed. It is made by `lock` alone, so that whoever has one has the lock.
#[derive(Drop)]
pub struct Locked<F> {
    file: F,
}

impl<F> Model for Locked<F> {
    ghost Value = { F };

    ghost view = { λ locked. locked.file };
}

/// A file whose lock isn't ours, as it was, and why.
#[derive(Drop)]
pub struct Unlocked<F> {
    pub file: F,
    pub fault: OpenFault,
}

impl<F: Drop> From<Unlocked<F>> for OpenFault {
    ghost from_gives = { λ unlocked fault. fault ≡ unlocked.fault };

    ghost use Rattle.std.specs.Prelude.{◌≡◌};

    fn from(unlocked: Unlocked<F>) -> OpenFault {
        unlocked.fault
    }
}

impl<F: Storage> Locked<F> {
    /// Takes the file's lock, or hands the file back.
    pub fn lock(file: F) -> Result<Locked<F>, Unlocked<F>>
        ensures ours { OnOk result (IfSome (F.grants_lock file) (λ grants. grants ≡ true)) }
        ensures ok { IfOk result (λ locked. locked ≡ file) }
        ensures err { IfErr result (λ unlocked. unlocked.file ≡ file) }
        ensures fault { IfErr result (λ unlocked. IsOfLocking (F.grants_lock file) unlocked.fault) }
    {
        match file.take_lock() {
            Ok(()) => Ok(Locked { file }),
            Err(TryLockError::WouldBlock) => Err(Unlocked {
                file,
                fault: OpenFault::Locked,
            }),
            Err(TryLockError::Error(e)) => Err(Unlocked {
                file,
                fault: OpenFault::FileFailed(e),
            }),
        }
    }

    /// Reads the log at its beginning.
    pub(crate) fn read_log(&self, alloc: Global) -> Result<Recovered, ReadFault>
        ensures { (text : List ℕ) → F.contents self.now ≡ Some text → IsReadOf text result }
    {
        read_log(alloc, &mut Stored::new(&self.file))
    }

    /// Cuts off what stands behind so many bytes, and returns once these are kept, or fails.
    pub(crate) fn cut(&mut self, bytes: u64) -> io::Result<()>
        ensures bytes { OnOk result (CutsTo (F.contents self.old) (F.contents self.new) bytes) }
        ensures kept { OnOk result (Keeps (F.contents self.new) (F.kept self.new)) }
    {
        self.file.cut(bytes)
    }
}

impl<F: Storage> Write for Locked<F> {
    ghost contents = { λ locked. F.contents locked };

    fn write(&mut self, buf: &[u8]) -> io::Result<usize> {
        self.file.write(buf)
    }

    fn flush(&mut self) -> io::Result<()> {
        self.file.flush()
    }
}

impl<F: Storage> Durable for Locked<F> {
    ghost kept = { λ locked. F.kept locked };

    fn sync(&mut self) -> io::Result<()> {
        self.file.sync()
    }

    fn size(&self) -> io::Result<u64> {
        self.file.size()
    }
}
