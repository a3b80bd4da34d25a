ghost use Rattle.std.specs.Prelude.{◌≡◌, ◌+◌, ◌<◌, ◌≤◌, ◌^◌, ◌↔◌, ℕ, length, map, slice_get, Some, IsNone, IsTrue, IfSome, IfOk, IfErr, OnOk};
ghost use Rattle.std.specs.BTreeMap.{get};
ghost use Rattle.object.specs.Keys.{key_cmp};
ghost use Rattle.object.specs.Lists.{In};
ghost use Rattle.chronicle.specs.Checking.{AreRightPlaces, AreRightLines};
ghost use Rattle.chronicle.specs.CheckFaults.{IsWrongHappening};
ghost use Rattle.recorder.specs.Chronicles.{IsChronicle};
ghost use Rattle.chronicle_text.specs.Dump.{first_line};
ghost use Rattle.chronicle_text.specs.Happenings.{happenings};
ghost use Rattle.chronicle.specs.Replaying.{HasFirstPlaces, placed};
ghost use Rattle.chronicle.specs.Walks.{IsReplayed, HasWalked, IsMisplaced, IsNotGiven, NoneIsDue, IsHappeningFault};

use crate::check_fault::{CheckFault, What};
use crate::replay::Given;
use bean_queue::one_answer;
use bean_words::{Op, Reply};
use chronicle_text::first_line;
use object::{Answer, Key, Submission, Value};
use recorder::Chronicle;
use std::collections::BTreeMap;

/// What the lines of submissions and answers are looked up in.
#[derive(Drop)]
pub(crate) struct Replayed {
    /// The index of the first submission of each key.
    pub(crate) firsts: BTreeMap<Key, usize>,
    /// The place of each key in the order.
    pub(crate) places: BTreeMap<Key, usize>,
    /// The queue's answers.
    pub(crate) given: Vec<Given>,
    /// The index of the queue's answer to each key.
    pub(crate) answers: BTreeMap<Key, usize>,
}

/// How many submissions and answers are looked through.
#[derive(Clone, Copy)]
pub(crate) struct Walk {
    pub(crate) submitted: usize,
    pub(crate) answered: usize,
    /// One more than the greatest place of these answers, or 0.
    pub(crate) reach: usize,
}

impl Replayed {
    /// Whether a submission is the first of its key and has no place below the reach, or what is wrong.
    fn check_submission(&self, index: usize, key: Key, reach: usize) -> Result<(), What>
        ensures first { OnOk result (get key_cmp self.now.firsts key ≡ Some index) }
        ensures later { OnOk result ((n : ℕ) → get key_cmp self.now.places key ≡ Some n
            → reach ≤ n) }
        ensures err { IfErr result (IsMisplaced self.now index key reach) }
    {
        if self.firsts.get(&key).copied() != Some(index) {
            return Err(What::SubmittedTwice);
        }
        match self.places.get(&key) {
            Some(place) if *place < reach => Err(What::PlacedTooEarly),
            _ => Ok(()),
        }
    }

    /// The place of the command that brought this answer, where the queue gives it.
    fn place_of_answer(&self, answer: &Answer<Reply>) -> Result<usize, What>
        requires { HasFirstPlaces (λ g. g.answer.to) self.now.given.items self.now.answers }
        ensures ok { IfOk result (λ place.
            In (record { place = place; answer = answer.now }) (map placed self.now.given.items)) }
        ensures err { IfErr result (IsNotGiven self.now answer.now) }
    {
        let Some(index) = self.answers.get(&answer.to) else {
            return Err(What::NotTheQueuesAnswer);
        };
        let given = &self.given[*index];
        if is_same(&given.answer, answer) {
            Ok(given.place)
        } else {
            Err(What::NotTheQueuesAnswer)
        }
    }
}

/// Whether two values are one.
fn is_same<V: Value>(a: &V, b: &V) -> bool
    ensures { IsTrue result ↔ (a.now ≡ b.now) }
{
    a == b
}

impl Walk {
    /// One line more, where there is one; or what is wrong with it.
    fn next(self, chronicle: &Chronicle<Op, Reply>, replayed: &Replayed) -> Result<Walk, What>
        requires replayed { IsReplayed chronicle.now replayed.now }
        requires order { AreRightPlaces chronicle.now chronicle.now.order }
        requires walked { HasWalked chronicle.now self }
        requires more { self.submitted + self.answered
            < length chronicle.now.submitted + length chronicle.now.answers }
        ensures ok { IfOk result (HasWalked chronicle.now) }
        ensures count { IfOk result (λ w.
            w.submitted + w.answered ≡ self.submitted + self.answered + 1) }
        ensures err { IfErr result
            (IsWrongHappening chronicle.now
            (first_line chronicle.now + (self.submitted + self.answered))) }
    {
        one_answer();
        match self.due(chronicle) {
            Some(submission) => {
                replayed.check_submission(self.submitted, submission.command.key(), self.reach)?;
                Ok(Walk {
                    submitted: self.submitted + 1,
                    ..self
                })
            }
            None => {
                // The place is one of the order, so the reach is no more than its length.
                let _places = chronicle.order().len();
                let place = replayed.place_of_answer(&chronicle.answers()[self.answered])?;
                Ok(Walk {
                    answered: self.answered + 1,
                    reach: self.reach.max(place + 1),
                    ..self
                })
            }
        }
    }

    /// The submission that is next, unless an answer comes before it.
    fn due(self, chronicle: &Chronicle<Op, Reply>) -> Option<&Submission<Op>>
        ensures some { IfSome result (λ s.
            slice_get chronicle.now.submitted self.submitted ≡ Some s.now) }
        ensures now { IfSome result (λ s. s.now.after ≤ self.answered) }
        ensures room { IfSome result (λ _. self.submitted + 1 < 2 ^ 64) }
        ensures none { IsNone result → NoneIsDue chronicle.now self }
        ensures kept { IsChronicle chronicle.now }
    {
        match chronicle.submitted().get(self.submitted) {
            Some(submission) if submission.after <= self.answered => Some(submission),
            _ => None,
        }
    }
}

/// Looks through what happened, or tells the first wrong line.
pub(crate) fn check_happenings(
    chronicle: &Chronicle<Op, Reply>,
    replayed: &Replayed,
) -> Result<(), CheckFault>
    requires replayed { IsReplayed chronicle.now replayed.now }
    requires order { AreRightPlaces chronicle.now chronicle.now.order }
    ensures right { OnOk result (AreRightLines chronicle.now
        (happenings chronicle.now.submitted chronicle.now.answers)) }
    ensures at { IfErr result (IsHappeningFault chronicle.now) }
    ensures kept { IsChronicle chronicle.now }
{
    let count = chronicle.submitted().len() + chronicle.answers().len();
    let first_line = first_line(chronicle);
    let mut walk = Walk {
        submitted: 0,
        answered: 0,
        reach: 0,
    };
    for line in 0..count {
        walk = match walk.next(chronicle, replayed) {
            Ok(next) => next,
            Err(what) => return Err(CheckFault::At(first_line + line as u64, what)),
        };
    }
    Ok(())
}
