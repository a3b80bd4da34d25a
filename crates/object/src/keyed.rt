ghost use Rattle.std.specs.Prelude.{◌≡◌};
ghost use Rattle.object.specs.declared.command.Key.{Key};
ghost use Rattle.object.specs.Answers.{answered_key};
ghost use Rattle.object.specs.Happenings.{submitted_key};

use crate::command::{Answer, Command, Key, Submission};

/// Values that stand under a key, by which they are looked up.
pub trait Keyed {
    ghost key_of: { Self → Key };

    /// Its key.
    fn key(&self) -> Key
        ensures { result ≡ key_of self.now };
}

impl<Op> Keyed for Command<Op> {
    ghost key_of = { λ c. c.key };

    fn key(&self) -> Key {
        self.key()
    }
}

/// A submission stands under its command's key.
impl<Op> Keyed for Submission<Op> {
    ghost key_of = { submitted_key };

    fn key(&self) -> Key {
        self.command.key()
    }
}

/// An answer stands under the key that it answers.
impl<Reply> Keyed for Answer<Reply> {
    ghost key_of = { answered_key };

    fn key(&self) -> Key {
        self.to
    }
}

/// A key stands under itself.
impl Keyed for Key {
    ghost key_of = { λ key. key };

    fn key(&self) -> Key {
        *self
    }
}
