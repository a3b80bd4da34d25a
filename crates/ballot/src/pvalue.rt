ghost use Rattle.std.specs.Prelude.{◌≡◌, ◌++◌, ◌∷◌, [], IfOk, true};
ghost use Rattle.object.specs.Results.{Becomes};

use crate::ballot::Ballot;
use crate::slot::Slot;
use object::{Value, copies_of};
use std::alloc::{AllocError, Global};
use std::marker::Model;

/// A value for a slot, under a ballot.
#[derive(Drop, PartialEq, Eq)]
pub struct Pvalue<C> {
    pub ballot: Ballot,
    pub slot: Slot,
    pub value: C,
}

impl<C: Value> Value for Pvalue<C> {
    ghost use Rattle.std.proofs.Common.{rules};
    ghost use Rattle.std.proofs.lemmas.Grind.{common_steps};

    ghost exact = { Prim.grind (rules, common_steps, C.exact) };

    fn copy(&self) -> Result<Self, AllocError> {
        Ok(Pvalue {
            ballot: self.ballot,
            slot: self.slot,
            value: self.value.copy()?,
        })
    }
}

/// Pvalues in an order: what an acceptor reports, or a scout gathers.
#[derive(Drop)]
pub struct Pvalues<C> {
    items: Vec<Pvalue<C>>,
}

impl<C> Model for Pvalues<C> {
    ghost use Rattle.std.specs.Prelude.{List};
    ghost use Rattle.ballot.specs.declared.pvalue.Pvalue.{Pvalue};

    ghost Value = { List (Pvalue C) };

    ghost view = { λ p. p.items.items };
}

impl<C> Pvalues<C> {
    /// None.
    pub fn new(alloc: Global) -> Self
        ensures { result ≡ [] }
    {
        Pvalues {
            items: Vec::new(alloc),
        }
    }

    /// These.
    pub fn from_vec(items: Vec<Pvalue<C>>) -> Self
        ensures { result ≡ items.items }
    {
        Pvalues { items }
    }

    /// The pvalues, as they were put in.
    pub fn into_vec(self) -> Vec<Pvalue<C>>
        ensures { result.items ≡ self }
    {
        self.items
    }

    /// The pvalues.
    pub fn as_slice(&self) -> &[Pvalue<C>]
        ensures { result.now ≡ self.now }
    {
        self.items.as_slice()
    }

    /// Puts one more at the end.
    pub fn push(&mut self, pvalue: Pvalue<C>) -> Result<(), AllocError>
    where
        C: Drop,
        ensures ok { Becomes result self.old self.new (self.old ++ pvalue ∷ []) }
    {
        self.items.push(pvalue)?;
        Ok(())
    }
}

impl<C: PartialEq> PartialEq for Pvalues<C> {
    ghost use Rattle.ballot.specs.PvalueLaws.{same_lists, same_lists-per};

    ghost eq = { λ x y. same_lists C.eq x y };

    ghost laws = { same_lists-per C.laws };

    #[tactic(auto, unfolding(crate::specs::PvalueLaws::same_lists))]
    fn eq(&self, other: &Self) -> bool {
        self.items == other.items
    }
}

impl<C: Eq> Eq for Pvalues<C> {
    ghost use Rattle.ballot.specs.PvalueLaws.{same_lists-equiv};

    ghost laws = { same_lists-equiv C.Eq.laws };
}

impl<C: Value> Value for Pvalues<C> {
    ghost use Rattle.ballot.specs.PvalueLaws.{same_lists-exact};

    ghost exact = { same_lists-exact C.exact };

    fn copy(&self) -> Result<Self, AllocError> {
        let items = copies_of(*self.items.allocator(), &self.items)?;
        Ok(Pvalues { items })
    }
}
