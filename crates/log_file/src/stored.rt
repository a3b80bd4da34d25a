ghost use Rattle.std.specs.Prelude.{◌≡◌};

use crate::storage::Storage;
use std::io;
use std::io::{ErrorKind, Read};

/// Reads what is stored, from its first byte on. Nothing of it is changed.
#[derive(Drop)]
pub(crate) struct Stored<'a, F> {
    storage: &'a F,
    at: u64,
}

impl<'a, F: Storage> Stored<'a, F> {
    /// Of all that is stored there nothing is read as yet.
    pub(crate) fn new(storage: &'a F) -> Stored<'a, F>
        ensures storage { result.storage.now ≡ storage.now }
        ensures at { result.at ≡ 0 }
    {
        Stored { storage, at: 0 }
    }
}

impl<'a, F: Storage> Read for Stored<'a, F> {
    ghost use Rattle.log_file.specs.Bytes.{known_from};

    ghost remaining = { λ stored. known_from (F.contents stored.storage.now) stored.at };

    fn read(&mut self, buf: &mut [u8]) -> io::Result<usize> {
        let n = self.storage.read_from(buf, self.at)?;
        let Some(at) = self.at.checked_add(n as u64) else {
            return Err(io::Error::from(ErrorKind::FileTooLarge));
        };
        self.at = at;
        Ok(n)
    }
}
