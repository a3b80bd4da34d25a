ghost use Rattle.std.specs.Prelude.{◌≡◌, IfOk, true};

use std::alloc::{AllocError, Global};

/// Data that is copied and compared exactly: requests, replies, and all that is sent between nodes.
pub trait Value: Eq + Drop + Sized {
    /// The same value once more. It fails for want of memory alone.
    fn copy(&self) -> Result<Self, AllocError>
        ensures { IfOk result (λ v. v ≡ self.now) };

    ghost exact: { (x y : Self) → Self.eq x y ≡ true → x ≡ y };
}

impl<V: Value> Value for Option<V> {
    ghost use Rattle.std.proofs.Common.{rules};
    ghost use Rattle.std.proofs.lemmas.Grind.{common_steps};

    ghost exact = { Prim.grind (rules, common_steps, V.exact) };

    fn copy(&self) -> Result<Self, AllocError> {
        match self {
            None => Ok(None),
            Some(value) => Ok(Some(value.copy()?)),
        }
    }
}

/// The values once more, in the same order. It fails for want of memory alone.
pub fn copies_of<V: Value>(alloc: Global, values: &[V]) -> Result<Vec<V>, AllocError>
    ensures { IfOk result (λ copies. copies.items ≡ values.now) }
{
    let mut copies = Vec::new(alloc);
    for value in values {
        copies.push(value.copy()?)?;
    }
    Ok(copies)
}
