ghost use Rattle.std.specs.Prelude.{◌≡◌, ◌↔◌, ℕ, List, ◌≤◌, ◌^◌, nat_lt, not, true, None, IfOk};
ghost use Rattle.object.specs.Lists.{In};
ghost use Rattle.pause_store.specs.Pauses.{tubes_over};
ghost use Rattle.bean_queue.specs.Effects.{released, forgotten, second_begun, second_passed};
ghost use Rattle.bean_queue.specs.Turns.{serve, serve_turn};
ghost use Rattle.bean_queue.specs.Calls.{DraftsOutcome, DraftsWaking};
ghost use Rattle.bean_queue.specs.Tubes.{all_tubes};

use crate::logic::Logic;
use crate::ready_again::{make_due_ready, release_held};
use bean_words::{Name, Reply};
use indexmap::IndexSet;
use job_store::JobMap;
use object::Answer;
use std::alloc::{AllocError, Global};

impl<M: JobMap> Logic<M> {
    /// Lets a second come, and tells the tubes of the jobs that it makes ready.
    fn at_second(&mut self, alloc: Global, second: u64) -> Result<IndexSet<Name>, AllocError>
        requires later { self.old.now.now ≤ second }
        requires in_range { second ≤ 2 ^ 40 }
        ensures second { DraftsWaking (λ s. s.jobs) self.old self.new
            (second_begun second self.old.now) result }
        ensures over { IfOk result (λ tubes. (tube : List ℕ)
            → In tube (tubes_over second self.old.now.pauses) → In tube tubes.keys) }
    {
        let timeouts = &mut self.counters.counts.timeouts;
        let mut woken = make_due_ready(alloc, &mut self.jobs, second, timeouts)?;
        self.pauses.add_over(second, &mut woken)?;
        self.pauses.pass(second);
        self.counters.now = second;
        Ok(woken)
    }

    /// Whether the second isn't above now.
    pub fn has_come(&self, second: u64) -> bool
        ensures { result ≡ not (nat_lt self.now.now.now second) }
    {
        second <= self.counters.now
    }

    /// Lets a second above now come, where nothing is left to give, and tells the tubes whose pauses are over by it.
    #[tactic(auto, unfolding(crate::specs::Turns::serve))]
    pub fn pass(
        &mut self,
        alloc: Global,
        second: u64,
        answers: &mut Vec<Answer<Reply>>,
    ) -> Result<IndexSet<Name>, AllocError>
        requires later { nat_lt self.old.now.now second ≡ true }
        requires in_range { second ≤ 2 ^ 40 }
        requires calm { serve_turn self.old.now ≡ None }
        ensures passed { DraftsOutcome self.old self.new answers.old.items answers.new.items
            (second_passed second self.old.now) result }
        ensures over { IfOk result (λ tubes. (tube : List ℕ)
            → In tube tubes.keys ↔ In tube (tubes_over second self.old.now.pauses)) }
    {
        let mut over = IndexSet::new(alloc);
        self.pauses.add_over(second, &mut over)?;
        let woken = self.at_second(alloc, second)?;
        self.serve(woken.as_slice(), answers)?;
        self.tell_deadlines(alloc, answers)?;
        self.tell_timeouts(answers)?;
        Ok(over)
    }

    /// Ends the wait of a session, makes its jobs ready, and tells their tubes.
    fn give_back(&mut self, alloc: Global, session: u32) -> Result<IndexSet<Name>, AllocError>
        ensures { DraftsWaking (λ s. s.jobs) self.old self.new (released session self.old.now)
            result }
    {
        let woken = release_held(alloc, &mut self.jobs, session)?;
        self.sessions.set_wait(session, None)?;
        Ok(woken)
    }

    /// Gives the jobs of a session back, to others that wait, where nothing was left to give before.
    #[tactic(auto, unfolding(crate::specs::Turns::serve))]
    pub fn release_all(
        &mut self,
        alloc: Global,
        session: u32,
        answers: &mut Vec<Answer<Reply>>,
    ) -> Result<(), AllocError>
        requires { serve_turn self.old.now ≡ None }
        ensures { DraftsOutcome self.old self.new answers.old.items answers.new.items
            (serve (released session self.old.now)) result }
    {
        let woken = self.give_back(alloc, session)?;
        self.serve(woken.as_slice(), answers)
    }

    /// Forgets a session, and the counts of tubes that it leaves, and tells whether all tubes are still there.
    pub fn forget(&mut self, session: u32) -> bool
        ensures state { self.new.now ≡ forgotten session self.old.now }
        ensures stay { result ≡ true → all_tubes self.new.now ≡ all_tubes self.old.now }
    {
        self.numbers_rise();
        match self.sessions.remove_for_good(session) {
            Some(gone) => {
                let used = self.settle(&gone.used);
                let watched = self.settle_all(gone.watched.as_slice());
                used && watched
            }
            None => true,
        }
    }
}
