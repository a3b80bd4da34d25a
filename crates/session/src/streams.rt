ghost use Rattle.std.specs.Prelude.{◌≡◌, ℕ, Bool, List, Option, ◌||◌, ◌<◌, length, IfOk};
ghost use Rattle.std.specs.Io.{ReadsAtMost, WritesAtMost};
ghost use Rattle.std.specs.Io.KnownBytes.{ReadConsumes, WriteAppends};
ghost use Rattle.session.specs.Streams.{finds_end, FailsForGood};

/// A read or a write failed.
#[derive(Clone, Copy, Debug, PartialEq, Eq)]
pub struct Failed;

/// Where bytes come from.
///
/// From its first failure on, a reader fails at every call.
pub trait ByteIn {
    // The bytes that reads will give from here on, where they are known.
    ghost remaining: { Self → Option (List ℕ) };

    ghost has_failed: { Self → Bool };

    // A read with room for a byte gave none.
    ghost has_ended: { Self → Bool };

    /// Puts the next bytes at the front of `buf`, and says how many.
    fn read(&mut self, buf: &mut [u8]) -> Result<usize, Failed>
        ensures bound { ReadsAtMost result buf.new }
        ensures bytes { ReadConsumes (remaining self.old) (remaining self.new) result buf.new }
        ensures end { has_ended self.new ≡ (has_ended self.old || finds_end result buf.new) }
        ensures fails { FailsForGood (has_failed self.old) (has_failed self.new) result };
}

/// Where bytes go.
///
/// From its first failure on, a writer fails at every call.
pub trait ByteOut {
    // The bytes that the writer holds, where they are known.
    ghost contents: { Self → Option (List ℕ) };

    ghost has_failed: { Self → Bool };

    /// Takes some first bytes, and says how many: at least one, where there is one.
    fn write(&mut self, bytes: &[u8]) -> Result<usize, Failed>
        ensures bound { WritesAtMost result bytes.now }
        ensures some { IfOk result (λ n. 0 < length bytes.now → 0 < n) }
        ensures bytes { WriteAppends (contents self.old) (contents self.new) result bytes.now }
        ensures fails { FailsForGood (has_failed self.old) (has_failed self.new) result };
}
