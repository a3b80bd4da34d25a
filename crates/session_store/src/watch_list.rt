ghost use Rattle.std.specs.Prelude.{◌≡◌, ◌∷◌, [], IfOk, OnOk, OnErr, length};
ghost use Rattle.job_store.specs.LookUps.{is_among};
ghost use Rattle.session_store.specs.WatchLists.{is_alone, joined, left_out};

use bean_words::Name;
use indexmap::IndexSet;
use std::alloc::{AllocError, Global};
use std::marker::Model;

/// The tubes that a session watches, in the order in which they came. None stands twice.
#[derive(Drop)]
pub struct WatchList {
    names: IndexSet<Name>,
}

impl Model for WatchList {
    ghost use Rattle.std.specs.Prelude.{List, ℕ};

    ghost Value = { List (List ℕ) };

    ghost view = { λ w. w.names.keys };
}

impl WatchList {
    /// One tube alone.
    pub(crate) fn only(alloc: Global, name: Name) -> Result<WatchList, AllocError>
        ensures { IfOk result (λ watched. watched ≡ name ∷ []) }
    {
        let mut names = IndexSet::new(alloc);
        names.insert(name)?;
        Ok(WatchList { names })
    }

    /// The names, as a set.
    pub fn as_set(&self) -> &IndexSet<Name>
        ensures { result.now.keys ≡ self.now }
    {
        &self.names
    }

    /// The names, in their order.
    pub fn as_slice(&self) -> &[Name]
        ensures { result.now ≡ self.now }
    {
        self.names.as_slice()
    }

    /// How many there are.
    pub fn len(&self) -> usize
        ensures { result ≡ length self.now }
    {
        self.names.as_slice().len()
    }

    /// Whether the tube is watched.
    pub fn contains(&self, name: &Name) -> bool
        ensures { result ≡ is_among name.now self.now }
    {
        self.names.contains(name)
    }

    /// Whether the tube is watched alone.
    pub fn is_only(&self, name: &Name) -> bool
        ensures { result ≡ is_alone name.now self.now }
    {
        match self.names.as_slice() {
            [only] => name == only,
            _ => false,
        }
    }

    /// Puts a tube last, if it is new.
    pub(crate) fn insert(&mut self, name: Name) -> Result<(), AllocError>
        ensures ok { OnOk result (self.new ≡ joined name self.old) }
        ensures err { OnErr result (self.new ≡ self.old) }
    {
        self.names.insert(name)?;
        Ok(())
    }

    /// Takes a tube out.
    pub(crate) fn remove(&mut self, name: &Name)
        ensures { self.new ≡ left_out name.now self.old }
    {
        self.names.retain(|watched| name != watched);
    }
}
