use crate::mark::Mark;
use crate::state::State;

/// What becomes of the job at an id: its priority, its state, and what goes into its history.
#[derive(Clone, Copy)]
pub struct Change {
    pub id: u64,
    pub pri: u32,
    pub state: State,
    pub mark: Mark,
}
