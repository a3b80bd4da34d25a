ghost use Rattle.std.specs.Prelude.{◌≡◌, ℕ, List, [], true, IsTrue, OnOk};
ghost use Rattle.std.specs.List.{list_any};
ghost use Rattle.object.specs.Lists.{In};
ghost use Rattle.bean_words.specs.NameSets.{AddsOnly, AddsAll};
ghost use Rattle.session_store.specs.Lines.{AllStand, StillStand};
ghost use Rattle.session_store.specs.TubeSets.{tube_set};
ghost use Rattle.session_store.specs.Rolls.{HaveAll, IsEnrolled, IsOn, is_named, names_tube};

use crate::session::SessionState;
use bean_words::{Name, add_name};
use object::Value;
use std::alloc::{AllocError, Global};
use std::collections::{BTreeMap, BTreeSet};

/// For each tube the sessions that use or watch it. A roll may also have some that no longer do.
#[derive(Drop)]
pub(crate) struct Rolls {
    alloc: Global,
    rolls: BTreeMap<Name, BTreeSet<u32>>,
}

/// Whether a session uses or watches the tube, if it is there.
fn names_tube(sessions: &BTreeMap<u32, SessionState>, tube: &Name, number: u32) -> bool
    ensures { result ≡ names_tube tube.now sessions.now.entries number }
{
    match sessions.get(&number) {
        Some(session) => session.has_tube(tube),
        None => false,
    }
}

/// Whether one of the roll uses or watches the tube.
fn has_one(roll: &BTreeSet<u32>, sessions: &BTreeMap<u32, SessionState>, tube: &Name) -> bool
    ensures { result ≡ list_any (names_tube tube.now sessions.now.entries) roll.now.keys }
{
    for number in roll {
        if names_tube(sessions, tube, *number) {
            return true;
        }
    }
    false
}

/// Puts a tube among the names, if a session uses or watches it.
fn add_named(
    names: &mut BTreeSet<Name>,
    tube: &Name,
    rolls: &Rolls,
    sessions: &BTreeMap<u32, SessionState>,
) -> Result<(), AllocError>
    requires { AllStand (IsEnrolled rolls.now) sessions.now.entries }
    ensures added { AddsOnly (λ t. is_named t sessions.now.entries ≡ true) names.old.keys
        names.new.keys }
    ensures there { OnOk result (is_named tube.now sessions.now.entries ≡ true
        → In tube.now names.new.keys) }
{
    if !rolls.has_named(sessions, tube) {
        return Ok(());
    }
    add_name(names, tube)
}

impl Rolls {
    /// No rolls.
    pub fn new(alloc: Global) -> Rolls {
        Rolls {
            alloc,
            rolls: BTreeMap::new(alloc),
        }
    }

    /// Puts a session on the roll of a tube.
    pub fn enrol(&mut self, tube: &Name, number: u32) -> Result<(), AllocError>
        ensures grown { HaveAll self.old self.new }
        ensures on { OnOk result (IsOn tube.now self.new number) }
    {
        if let Some(roll) = self.rolls.get_mut(tube) {
            roll.insert(number)?;
            return Ok(());
        }
        let mut roll = BTreeSet::new(self.alloc);
        roll.insert(number)?;
        self.rolls.insert(tube.copy()?, roll)?;
        Ok(())
    }

    /// Takes a session from the roll of a tube, and tells whether that leaves none.
    fn take_from(&mut self, tube: &Name, number: u32) -> bool
        ensures stays { (t : List ℕ) (x : ℕ) → (t ≡ tube.now → number ≡ x → ⊥)
            → IsOn t self.old x → IsOn t self.new x }
        ensures none { IsTrue result → (tube_set tube.now self.new.rolls).keys ≡ [] }
    {
        match self.rolls.get_mut(tube) {
            Some(roll) => {
                roll.remove(&number);
                roll.is_empty()
            }
            None => false,
        }
    }

    /// Takes a session from the roll of a tube, and the roll away where that leaves none.
    fn take_out(&mut self, tube: &Name, number: u32)
        ensures { (t : List ℕ) (x : ℕ) → (t ≡ tube.now → number ≡ x → ⊥)
            → IsOn t self.old x → IsOn t self.new x }
    {
        if self.take_from(tube, number) {
            self.rolls.remove(tube);
        }
    }

    /// Takes a session from the roll of a tube, unless it still uses or watches that.
    pub fn strike(&mut self, sessions: &BTreeMap<u32, SessionState>, tube: &Name, number: u32)
        ensures { StillStand (IsEnrolled self.old) (IsEnrolled self.new) sessions.now.entries }
    {
        if !names_tube(sessions, tube, number) {
            self.take_out(tube, number);
        }
    }

    /// Whether a session uses or watches the tube.
    pub fn has_named(&self, sessions: &BTreeMap<u32, SessionState>, tube: &Name) -> bool
        requires { AllStand (IsEnrolled self.now) sessions.now.entries }
        ensures { result ≡ is_named tube.now sessions.now.entries }
    {
        match self.rolls.get(tube) {
            Some(roll) => has_one(roll, sessions, tube),
            None => false,
        }
    }

    /// Puts the tubes that sessions use or watch among the names.
    pub fn add_tubes(
        &self,
        sessions: &BTreeMap<u32, SessionState>,
        names: &mut BTreeSet<Name>,
    ) -> Result<(), AllocError>
        requires { AllStand (IsEnrolled self.now) sessions.now.entries }
        ensures { AddsAll (λ tube. is_named tube sessions.now.entries ≡ true) names.old.keys
            names.new.keys result }
    {
        for (tube, _) in &self.rolls {
            add_named(names, tube, self, sessions)?;
        }
        Ok(())
    }
}
