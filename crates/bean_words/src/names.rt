ghost use Rattle.std.specs.Prelude.{◌≡◌, ◌++◌, ◌∷◌, [], IfOk, true};
ghost use Rattle.object.specs.Results.{Becomes};

use crate::name::Name;
use object::Value;
use std::alloc::{AllocError, Global};
use std::marker::Model;

/// Names of tubes, in an order.
#[derive(Drop)]
pub struct Names {
    items: Vec<Name>,
}

impl Model for Names {
    ghost use Rattle.std.specs.Prelude.{List, ℕ};

    ghost Value = { List (List ℕ) };

    ghost view = { λ n. n.items.items };
}

impl Names {
    /// None.
    pub fn new(alloc: Global) -> Names
        ensures { result ≡ [] }
    {
        Names {
            items: Vec::new(alloc),
        }
    }

    /// These.
    pub fn from_vec(items: Vec<Name>) -> Names
        ensures { result ≡ items.items }
    {
        Names { items }
    }

    /// Copies of these.
    pub fn copy_of(alloc: Global, names: &[Name]) -> Result<Names, AllocError>
        ensures { IfOk result (λ copies. copies ≡ names.now) }
    {
        let mut items = Vec::new(alloc);
        for name in names {
            items.push(name.copy()?)?;
        }
        Ok(Names { items })
    }

    /// The names.
    pub fn as_slice(&self) -> &[Name]
        ensures { result.now ≡ self.now }
    {
        self.items.as_slice()
    }

    /// Puts one more at the end.
    pub fn push(&mut self, name: Name) -> Result<(), AllocError>
        ensures ok { Becomes result self.old self.new (self.old ++ name ∷ []) }
    {
        self.items.push(name)?;
        Ok(())
    }
}

impl PartialEq for Names {
    ghost use Rattle.bean_words.specs.NameLists.{same_names, same_names-per};

    ghost eq = { same_names };

    ghost laws = { same_names-per };

    #[tactic(auto, unfolding(crate::specs::NameLists::same_names))]
    fn eq(&self, other: &Self) -> bool {
        self.items == other.items
    }
}

impl Eq for Names {
    ghost use Rattle.bean_words.specs.NameLists.{same_names-equiv};

    ghost laws = { same_names-equiv };
}

impl Value for Names {
    ghost use Rattle.bean_words.specs.NameLists.{same_names-exact};

    ghost exact = { same_names-exact };

    fn copy(&self) -> Result<Self, AllocError> {
        Names::copy_of(*self.items.allocator(), self.items.as_slice())
    }
}
