ghost use Rattle.std.specs.Prelude.{◌≡◌, true};

use ballot::Ballot;
use object::Value;
use std::alloc::AllocError;

/// What was accepted in a slot: a value, and the ballot under which it was.
#[derive(Drop, PartialEq, Eq)]
pub struct Accepted<C> {
    pub ballot: Ballot,
    pub value: C,
}

impl<C: Value> Value for Accepted<C> {
    ghost use Rattle.std.proofs.Common.{rules};
    ghost use Rattle.std.proofs.lemmas.Grind.{common_steps};

    ghost exact = { Prim.grind (rules, common_steps, C.exact) };

    fn copy(&self) -> Result<Self, AllocError> {
        Ok(Accepted {
            ballot: self.ballot,
            value: self.value.copy()?,
        })
    }
}
