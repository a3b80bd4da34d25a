ghost use Rattle.std.specs.Prelude.{◌≡◌, ℕ, List, Option};
ghost use Rattle.std.specs.Io.{ReadsAtMost, WritesAtMost};
ghost use Rattle.conversation.specs.Links.{Moves};

use mio::net::TcpStream;
use std::io;
use std::io::{Read, Write};

/// A connection's bytes.
pub trait Stream: Drop {
    // All bytes that were read of it so far, where they are known.
    ghost taken: { Self → Option (List ℕ) };

    // All bytes that were written to it so far, where they are known.
    ghost given: { Self → Option (List ℕ) };

    /// Puts the next bytes at the front of `buf`, and says how many: none at the end.
    fn read(&mut self, buf: &mut [u8]) -> io::Result<usize>
        ensures bound { ReadsAtMost result buf.new }
        ensures taken { Moves (taken self.old) (taken self.new) result buf.new }
        ensures given { given self.new ≡ given self.old };

    /// Takes some first bytes, and says how many.
    fn write(&mut self, bytes: &[u8]) -> io::Result<usize>
        ensures bound { WritesAtMost result bytes.now }
        ensures given { Moves (given self.old) (given self.new) result bytes.now }
        ensures taken { taken self.new ≡ taken self.old };
}

// What a socket takes and gives no clause can say: these two calls hand through to it.
impl Stream for TcpStream {
    ghost use Rattle.std.specs.Prelude.{None};

    ghost taken = { λ _. None };

    ghost given = { λ _. None };

    fn read(&mut self, buf: &mut [u8]) -> io::Result<usize> {
        Read::read(self, buf)
    }

    fn write(&mut self, bytes: &[u8]) -> io::Result<usize> {
        Write::write(self, bytes)
    }
}
