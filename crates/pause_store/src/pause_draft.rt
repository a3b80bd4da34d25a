ghost use Rattle.std.specs.Prelude.{◌≡◌, ◌<◌, ◌≤◌, ◌^◌, ◌∷◌, ◌⊎◌, ◌↔◌, ℕ, List, true, IfSome, IfNone, OnOk};
ghost use Rattle.object.specs.Lists.{In};
ghost use Rattle.bean_words.specs.NameSets.{AddsAll};
ghost use Rattle.session_store.specs.Drafts.{DraftsState, IsKept, KeepsDraft, TakesDraftBack};
ghost use Rattle.pause_store.specs.declared.pause.Pause.{Pause};
ghost use Rattle.pause_store.specs.Pauses.{none_paused, is_paused, pause_end, paused_for, at_second, left_at, tubes_over, DropsOver, HasEnds};

use crate::pause::Pause;
use bean_words::Name;
use indexmap::IndexSet;
use object::Value;
use std::alloc::{AllocError, Global};
use std::collections::BTreeSet;
use std::marker::Model;
use tube_store::NameDraft;

/// The pauses of tubes, whose changes can be taken back until they are kept. That takes no memory.
#[derive(Drop)]
pub struct PauseDraft {
    /// The second at which each tube's pause is over. It may be over already, until changes are kept.
    seconds: NameDraft<u64>,
    /// The pauses of `seconds`, now and before the changes, by the second at which they are over, and perhaps others.
    ends: BTreeSet<Pause>,
    second: u64,
    /// The second of what was kept last.
    kept: u64,
}

impl Model for PauseDraft {
    ghost use Rattle.session_store.specs.Drafts.{Draft};
    ghost use Rattle.pause_store.specs.Pauses.{PauseState, pauses_at, IsComplete};

    ghost Value = { Draft PauseState };

    ghost view = { λ d. record {
      now = pauses_at d.second d.seconds.now;
      before = pauses_at d.kept d.seconds.before;
    } };

    ghost invariant = { λ d. IsComplete d.kept d.second d.ends.keys d.seconds };
}

/// Adds the place of a pause to the ends.
fn note_end(ends: &mut BTreeSet<Pause>, tube: &Name, until: u64) -> Result<(), AllocError>
    ensures grown { (p : Pause) → In p ends.old.keys → In p ends.new.keys }
    ensures ok { OnOk result (In (record { until = until; tube = tube.now }) ends.new.keys) }
{
    ends.insert(Pause {
        until,
        tube: tube.copy()?,
    })?;
    Ok(())
}

/// Whether a pause that isn't over at this second ends there.
fn is_end(seconds: &NameDraft<u64>, second: u64, end: &Pause) -> bool
    ensures { (result ≡ true)
        ↔ In (end.now.tube, end.now.until) (left_at second seconds.now.now) }
{
    if end.until <= second {
        return false;
    }
    match seconds.get(&end.tube) {
        Some(until) => until == end.until,
        None => false,
    }
}

/// Adds the tubes of pauses that are over at this second, and weren't at an earlier one. It looks at no end that comes
/// later, but for one.
fn add_tubes_over(
    seconds: &NameDraft<u64>,
    ends: &BTreeSet<Pause>,
    earlier: u64,
    second: u64,
    tubes: &mut IndexSet<Name>,
) -> Result<(), AllocError>
    requires { HasEnds earlier ends.now.keys seconds.now.now }
    ensures { AddsAll (λ tube. In tube (tubes_over second (left_at earlier seconds.now.now)))
        tubes.old.keys tubes.new.keys result }
{
    for end in ends {
        if end.until > second {
            break;
        }
        if is_end(seconds, earlier, end) {
            tubes.insert(end.tube.copy()?)?;
        }
    }
    Ok(())
}

/// Takes the first end out, if it is over at this second.
fn pop_over(ends: &mut BTreeSet<Pause>, second: u64) -> Option<Pause>
    ensures some { IfSome result (λ p. (p.until ≤ second) × (ends.old.keys ≡ p ∷ ends.new.keys)) }
    ensures none { IfNone result (ends.new.keys ≡ ends.old.keys) }
{
    match ends.first() {
        Some(end) if end.until <= second => ends.pop_first(),
        _ => None,
    }
}

/// Takes the second of a tube out, if it is over at this one.
fn drop_over(seconds: &mut NameDraft<u64>, tube: &Name, second: u64)
    requires { seconds.old.before ≡ seconds.old.now }
    ensures dropped { DropsOver second seconds.old.now seconds.new.now }
    ensures kept { seconds.new.before ≡ seconds.new.now }
{
    match seconds.get(tube) {
        Some(until) if until <= second => seconds.forget_for_good(tube),
        _ => {}
    }
}

/// Takes out what is over at this second.
fn drop_all_over(seconds: &mut NameDraft<u64>, ends: &mut BTreeSet<Pause>, second: u64)
    requires kept { seconds.old.before ≡ seconds.old.now }
    requires ends { HasEnds second ends.old.keys seconds.old.now }
    ensures dropped { DropsOver second seconds.old.now seconds.new.now }
    ensures kept { seconds.new.before ≡ seconds.new.now }
    ensures ends { HasEnds second ends.new.keys seconds.new.now }
{
    'over: while let Some(end) = pop_over(ends, second) {
        drop_over(seconds, &end.tube, second);
    }
}

impl PauseDraft {
    /// No tube is paused.
    pub fn new(alloc: Global) -> PauseDraft
        ensures { IsKept result none_paused }
    {
        PauseDraft {
            seconds: NameDraft::new(alloc),
            ends: BTreeSet::new(alloc),
            second: 0,
            kept: 0,
        }
    }

    /// The second that it is.
    pub fn second(&self) -> u64
        ensures second { result ≡ self.now.now.second }
        ensures in_range { result ≤ 2 ^ 40 }
    {
        self.second
    }

    /// Whether a tube is paused. It takes no memory.
    pub fn is_paused(&self, tube: &Name) -> bool
        ensures { result ≡ is_paused tube.now self.now.now.pauses }
    {
        match self.seconds.get(tube) {
            Some(until) => until > self.second,
            None => false,
        }
    }

    /// The second at which the pause of a tube is over, and 0 where it isn't paused. It takes no memory.
    pub fn end(&self, tube: &Name) -> u64
        ensures { result ≡ pause_end tube.now self.now.now.pauses }
    {
        match self.seconds.get(tube) {
            Some(until) => { if until > self.second { until } else { 0 } }
            None => 0,
        }
    }

    /// Pauses a tube for so many seconds from now on, or no longer where they are none.
    pub fn pause_for(&mut self, tube: &Name, seconds: u32) -> Result<(), AllocError>
        ensures { DraftsState self.old self.new (paused_for tube.now seconds self.old.now) result }
    {
        let until = self.second + u64::from(seconds);
        note_end(&mut self.ends, tube, until)?;
        self.seconds.set(tube, until)
    }

    /// It is a later second: each pause that is over by it is gone, and each other stays as it was.
    pub fn pass(&mut self, second: u64)
        requires later { self.old.now.second ≤ second }
        requires in_range { second ≤ 2 ^ 40 }
        ensures now { self.new.now ≡ at_second second self.old.now }
        ensures each { (p : List ℕ × ℕ) → In p self.new.now.pauses
            ↔ (In p self.old.now.pauses × (second < p.1)) }
        ensures before { self.new.before ≡ self.old.before }
    {
        self.second = second;
    }

    /// Adds the tubes whose pauses are over at this second. It doesn't go over the others.
    pub fn add_over(&self, second: u64, tubes: &mut IndexSet<Name>) -> Result<(), AllocError>
        ensures grown { (tube : List ℕ) → In tube tubes.old.keys → In tube tubes.new.keys }
        ensures over { OnOk result ((tube : List ℕ)
            → In tube (tubes_over second self.now.now.pauses) → In tube tubes.new.keys) }
        ensures no_others { (tube : List ℕ) → In tube tubes.new.keys → In tube tubes.old.keys
            ⊎ In tube (tubes_over second self.now.now.pauses) }
    {
        add_tubes_over(&self.seconds, &self.ends, self.second, second, tubes)
    }

    /// Keeps all changes.
    pub fn keep(&mut self)
        ensures { KeepsDraft self.old self.new }
    {
        self.seconds.keep();
        self.kept = self.second;
        drop_all_over(&mut self.seconds, &mut self.ends, self.second);
    }

    /// Takes back all changes since they were kept last.
    pub fn take_back(&mut self)
        ensures { TakesDraftBack self.old self.new }
    {
        self.seconds.take_back();
        self.second = self.kept;
    }
}
