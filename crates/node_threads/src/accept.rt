ghost use Rattle.std.specs.Prelude.{◌≡◌, ◌≢◌, Bool, true, None, Ok, OnOk, OnErr};

use session::{ByteIn, ByteOut, Failed};

/// Where clients come from.
pub trait Accept {
    /// Where the bytes of a client come from.
    type R: ByteIn + Send + Drop;

    /// And where its replies go.
    type W: ByteOut + Send + Drop;

    // A call failed.
    ghost has_failed: { Self → Bool };

    // A call gave none.
    ghost has_ended: { Self → Bool };

    /// Waits for the next client; none at its end.
    fn next(&mut self) -> Result<Option<(Self::R, Self::W)>, Failed>
        ensures ok { OnOk result (has_failed self.new ≡ has_failed self.old) }
        ensures err { OnErr result (has_failed self.new ≡ true) }
        ensures none { result ≡ Ok None → has_ended self.new ≡ true }
        ensures goes_on { result ≢ Ok None → has_ended self.new ≡ has_ended self.old };
}
