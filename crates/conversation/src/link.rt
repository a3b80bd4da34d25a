ghost use Rattle.std.specs.Prelude.{◌≡◌, ℕ, List, Option};
ghost use Rattle.std.specs.Io.{ReadsAtMost, WritesAtMost};
ghost use Rattle.conversation.specs.Links.{Moves};

/// Why no byte was moved.
#[derive(Clone, Copy, Debug, PartialEq, Eq)]
pub enum Pause {
    /// The link would have to wait.
    Later,
    /// The link has failed, or memory was refused.
    Failed,
}

/// Where a client's bytes come from and go to, without waiting.
pub trait Link {
    // All bytes that were read of it so far, where they are known.
    ghost taken: { Self → Option (List ℕ) };

    // All bytes that were written to it so far, where they are known.
    ghost given: { Self → Option (List ℕ) };

    /// Puts the next bytes at the front of `buf`, and says how many: none at the end.
    fn read(&mut self, buf: &mut [u8]) -> Result<usize, Pause>
        ensures bound { ReadsAtMost result buf.new }
        ensures taken { Moves (taken self.old) (taken self.new) result buf.new }
        ensures given { given self.new ≡ given self.old };

    /// Takes some first bytes, and says how many.
    fn write(&mut self, bytes: &[u8]) -> Result<usize, Pause>
        ensures bound { WritesAtMost result bytes.now }
        ensures given { Moves (given self.old) (given self.new) result bytes.now }
        ensures taken { taken self.new ≡ taken self.old };
}
