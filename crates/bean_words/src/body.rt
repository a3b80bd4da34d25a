ghost use Rattle.std.specs.Prelude.{◌≡◌, IfOk, true};

use crate::shared_bytes::SharedBytes;
use object::Value;
use std::alloc::{AllocError, Global};
use std::marker::Model;

/// The bytes of a job. They are stored once: copies share them.
#[derive(Drop, PartialEq, Eq)]
pub struct Body {
    bytes: SharedBytes,
}

impl Model for Body {
    ghost use Rattle.std.specs.Prelude.{List, ℕ};

    ghost Value = { List ℕ };

    ghost view = { λ b. b.bytes };

    ghost inverse = { λ b. record { bytes = b } };
}

impl Body {
    /// A body of these bytes, which are copied.
    pub fn new(alloc: Global, bytes: &[u8]) -> Result<Body, AllocError>
        ensures { IfOk result (λ b. b ≡ bytes.now) }
    {
        Ok(Body {
            bytes: SharedBytes::new(alloc, bytes)?,
        })
    }

    /// The bytes.
    pub fn as_slice(&self) -> &[u8]
        ensures { result.now ≡ self.now }
    {
        self.bytes.as_slice()
    }
}

impl Value for Body {
    ghost use Rattle.std.proofs.Common.{rules};
    ghost use Rattle.std.proofs.lemmas.Grind.{common_steps};

    ghost exact = { Prim.grind (rules, common_steps) };

    fn copy(&self) -> Result<Self, AllocError> {
        Ok(Body {
            bytes: self.bytes.share()?,
        })
    }
}
