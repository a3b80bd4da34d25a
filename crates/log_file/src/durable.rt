ghost use Rattle.std.specs.Prelude.{◌≡◌, ℕ, List, length, Option, IfOk, IfSome, OnOk};
ghost use Rattle.std.specs.Io.KnownBytes.{Keeps};

use std::fs::File;
use std::io;
use std::io::Write;

/// A writer that can be told to keep what was written.
pub trait Durable: Write {
    // The bytes that stay whatever happens, where they are known.
    ghost kept: { Self → Option (List ℕ) };

    /// Returns once all that was written is kept, or fails.
    fn sync(&mut self) -> io::Result<()>
        ensures bytes { Keeps (Self.contents self.old) (Self.contents self.new) }
        ensures kept { OnOk result (Keeps (Self.contents self.new) (kept self.new)) };

    /// How many bytes it holds.
    fn size(&self) -> io::Result<u64>
        ensures { IfOk result (λ n. IfSome (Self.contents self.now) (λ held. n ≡ length held)) };
}

impl Durable for File {
    ghost kept = { λ _. None };

    ghost use Rattle.std.specs.Prelude.{None};

    fn sync(&mut self) -> io::Result<()> {
        self.sync_data()
    }

    fn size(&self) -> io::Result<u64> {
        Ok(self.metadata()?.len())
    }
}
