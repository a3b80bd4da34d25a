ghost use Rattle.std.specs.Prelude.{◌≡◌, ◌↔◌, IfOk, OnErr, SomeIff, IsTrue, true, codes};
ghost use Rattle.bean_words.specs.Names.{IsName, IsNameByte, AreNameBytes};

use crate::name_bytes::NameBytes;
use object::Value;
use std::alloc::{AllocError, Global};
use std::marker::Model;

/// The name of a tube. Copies share its bytes.
///
/// It has 1 to 200 bytes, each a letter, a digit or one of `-+/;.$_()`, and does not begin with `-`.
#[derive(Drop, PartialEq, Eq, PartialOrd, Ord, Hash)]
pub struct Name {
    bytes: NameBytes,
}

impl Model for Name {
    ghost use Rattle.std.specs.Prelude.{List, ℕ};
    ghost use Rattle.bean_words.specs.Names.{IsName};

    ghost Value = { List ℕ };

    ghost view = { λ n. n.bytes };

    ghost invariant = { λ n. IsName n.bytes };

    ghost inverse = { λ n. record { bytes = n } };
}

/// Whether a name may have the byte.
fn is_name_byte(byte: u8) -> bool
    ensures { IsTrue result ↔ IsNameByte byte }
{
    byte.is_ascii_alphanumeric() || b"-+/;.$_()".contains(&byte)
}

/// Whether a name may have each of the bytes.
fn are_name_bytes(bytes: &[u8]) -> bool
    ensures { IsTrue result ↔ AreNameBytes bytes.now }
{
    bytes.iter().all(|byte| is_name_byte(*byte))
}

/// Whether the bytes are the name of a tube.
fn is_name(bytes: &[u8]) -> bool
    ensures { IsTrue result ↔ IsName bytes.now }
{
    match bytes.first() {
        Some(first) if *first != b'-' => bytes.len() <= 200 && are_name_bytes(bytes),
        _ => false,
    }
}

impl Name {
    /// The name of these bytes, which are copied, where they keep the rule.
    pub fn new(alloc: Global, bytes: &[u8]) -> Result<Option<Name>, AllocError>
        ensures rule { IfOk result (λ name. SomeIff name (IsName bytes.now) bytes.now) }
        ensures memory { OnErr result (IsName bytes.now) }
    {
        if !is_name(bytes) {
            return Ok(None);
        }
        Ok(Some(Name {
            bytes: NameBytes::new(alloc, bytes)?,
        }))
    }

    /// The tube that every session uses and watches at first, `default`. It takes no memory.
    pub fn default_tube() -> Name
        ensures { result ≡ codes "default" }
    {
        Name {
            bytes: NameBytes::of_default(),
        }
    }

    /// The bytes.
    pub fn as_slice(&self) -> &[u8]
        ensures bytes { result.now ≡ self.now }
        ensures rule { IsName self.now }
    {
        self.bytes.as_slice()
    }
}

impl Value for Name {
    ghost use Rattle.std.proofs.Common.{rules};
    ghost use Rattle.std.proofs.lemmas.Grind.{common_steps};

    ghost exact = { Prim.grind (rules, common_steps) };

    fn copy(&self) -> Result<Self, AllocError> {
        Ok(Name {
            bytes: self.bytes.share()?,
        })
    }
}
