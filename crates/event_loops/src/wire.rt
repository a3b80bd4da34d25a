use crate::stream::Stream;
use conversation::{Link, Pause};
use std::io::ErrorKind;

/// A client's link over a connection that never waits.
#[derive(Drop)]
pub struct Wire<S: Stream>(pub S);

impl<S: Stream> Link for Wire<S> {
    ghost taken = { λ wire. S.taken wire.0 };

    ghost given = { λ wire. S.given wire.0 };

    fn read(&mut self, buf: &mut [u8]) -> Result<usize, Pause> {
        for _ in 0..u64::MAX {
            match self.0.read(buf) {
                Ok(n) => return Ok(n),
                Err(e) if e.kind() == ErrorKind::WouldBlock => return Err(Pause::Later),
                Err(e) if e.kind() == ErrorKind::Interrupted => {}
                Err(_) => return Err(Pause::Failed),
            }
        }
        Err(Pause::Failed)
    }

    fn write(&mut self, bytes: &[u8]) -> Result<usize, Pause> {
        for _ in 0..u64::MAX {
            match self.0.write(bytes) {
                Ok(n) => return Ok(n),
                Err(e) if e.kind() == ErrorKind::WouldBlock => return Err(Pause::Later),
                Err(e) if e.kind() == ErrorKind::Interrupted => {}
                Err(_) => return Err(Pause::Failed),
            }
        }
        Err(Pause::Failed)
    }
}
