ghost use Rattle.std.specs.Prelude.{◌≡◌, []};
ghost use Rattle.std.specs.Map.{lookup, remove_entry};
ghost use Rattle.std.specs.BTreeMap.{insert_entry, is_at};
ghost use Rattle.bean_words.specs.Names.{name_cmp};
ghost use Rattle.session_store.specs.Drafts.{DraftsState, IsKept, KeepsDraft, TakesDraftBack};
ghost use Rattle.tube_store.specs.NameSteps.{AreByName};

use crate::name_step::{NameStep, change_value, take_steps_back};
use crate::value_change::{To, ValueChange};
use bean_words::Name;
use std::alloc::{AllocError, Global};
use std::collections::BTreeMap;
use std::marker::Model;

/// A value for each of some tubes. Changes can be taken back until they are kept, and that takes no memory.
#[derive(Drop)]
pub struct NameDraft<V: Copy> {
    values: BTreeMap<Name, V>,
    steps: Vec<NameStep<V>>,
}

impl<V: Copy> Model for NameDraft<V> {
    ghost use Rattle.std.specs.Prelude.{ℕ, List};
    ghost use Rattle.session_store.specs.Drafts.{Draft};
    ghost use Rattle.tube_store.specs.NameSteps.{before_steps, AreByName};

    ghost Value = { Draft (List (List ℕ × V)) };

    ghost view = { λ d. record { now = d.values.entries; before = before_steps d.steps.items d.values.entries } };

    ghost invariant = { λ d. AreByName d.values.entries };
}

impl<V: Copy> NameDraft<V> {
    /// No tube has a value.
    pub fn new(alloc: Global) -> NameDraft<V>
        ensures { IsKept result [] }
    {
        NameDraft {
            values: BTreeMap::new(alloc),
            steps: Vec::new(alloc),
        }
    }

    /// The value of a tube. It takes no memory.
    pub fn get(&self, tube: &Name) -> Option<V>
        ensures value { result ≡ lookup (is_at (name_cmp tube.now)) self.now.now }
        ensures ordered { AreByName self.now.now }
    {
        self.values.get(tube).copied()
    }

    /// Gives a tube this value. For one that has a value it takes memory for a step alone, whose room is kept for later ones.
    pub fn set(&mut self, tube: &Name, value: V) -> Result<(), AllocError>
        ensures drafts { DraftsState self.old self.new
            (insert_entry name_cmp self.old.now tube.now value) result }
        ensures ordered { AreByName self.old.now }
    {
        self.change(tube, To { value })
    }

    /// Makes a change of a tube's value. For one that has a value it takes memory for a step alone, whose room is kept for
    /// later ones.
    pub fn change<C: ValueChange<V>>(&mut self, tube: &Name, change: C) -> Result<(), AllocError>
        ensures drafts { DraftsState self.old self.new
            (insert_entry name_cmp self.old.now tube.now
            (C.after change (lookup (is_at (name_cmp tube.now)) self.old.now))) result }
        ensures ordered { AreByName self.old.now }
    {
        change_value(&mut self.values, &mut self.steps, tube, change)
    }

    /// Keeps all changes, and takes out the value of a tube. That can't be taken back, and takes no memory.
    pub fn forget_for_good(&mut self, tube: &Name)
        ensures kept { IsKept self.new (remove_entry (is_at (name_cmp tube.now)) self.old.now) }
        ensures ordered { AreByName self.old.now }
    {
        self.steps.clear();
        self.values.remove(tube);
    }

    /// Keeps all changes.
    pub fn keep(&mut self)
        ensures { KeepsDraft self.old self.new }
    {
        self.steps.clear();
    }

    /// Takes back all changes since they were kept last.
    pub fn take_back(&mut self)
        ensures { TakesDraftBack self.old self.new }
    {
        take_steps_back(&mut self.values, &mut self.steps);
    }
}
