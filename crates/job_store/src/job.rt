ghost use Rattle.std.specs.Prelude.{◌≡◌, true};

use crate::history::History;
use crate::state::State;
use bean_words::{Body, Name};
use object::Value;
use std::alloc::AllocError;

/// A piece of work.
#[derive(Drop, PartialEq, Eq)]
pub struct Job {
    pub tube: Name,
    /// The least is the most urgent.
    pub pri: u32,
    /// How many seconds a session may work on it.
    pub ttr: u32,
    pub body: Body,
    pub state: State,
    pub history: History,
}

impl Value for Job {
    ghost use Rattle.std.proofs.Common.{rules};
    ghost use Rattle.std.proofs.lemmas.Grind.{common_steps};
    ghost use Rattle.std.specs.Prelude.{Bool, ◌&&◌, ◌==◌, bytes_eq};
    ghost use Rattle.job_store.specs.contracts.history.HistoryPartialEq.TheImpl as of_history;
    ghost use Rattle.job_store.specs.contracts.state.StatePartialEq.TheImpl as of_state;
    ghost use Rattle.job_store.specs.declared.history.History.{History};
    ghost use Rattle.job_store.specs.declared.job.Job.{Job};
    ghost use Rattle.job_store.specs.declared.state.State.{State};

    // The state and the history are compared each by itself: together they have too many cases.
    ghost exact = { let states : (x y : State) → of_state.ghosts.eq x y ≡ true → x ≡ y = Prim.grind (rules, common_steps) in
        let histories : (x y : History) → of_history.ghosts.eq x y ≡ true → x ≡ y = Prim.grind (rules, common_steps) in
        let jobs : (x y : Job) (s h : Bool) → (s ≡ true → x.state ≡ y.state) → (h ≡ true → x.history ≡ y.history)
        → (bytes_eq x.tube y.tube && (x.pri == y.pri && (x.ttr == y.ttr && (bytes_eq x.body y.body && (s && h))))) ≡ true
        → x ≡ y = Prim.grind (rules, common_steps) in
        λ x y. jobs x y (of_state.ghosts.eq x.state y.state) (of_history.ghosts.eq x.history y.history)
        (states x.state y.state) (histories x.history y.history) };

    fn copy(&self) -> Result<Self, AllocError> {
        Ok(Job {
            tube: self.tube.copy()?,
            pri: self.pri,
            ttr: self.ttr,
            body: self.body.copy()?,
            state: self.state,
            history: self.history,
        })
    }
}
