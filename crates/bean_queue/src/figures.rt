use job_store::Tally;

/// What is told of a tube, in numbers.
#[derive(Clone, Copy)]
pub(crate) struct TubeFigures {
    /// Its jobs.
    pub tally: Tally,
    /// How many jobs were put into it.
    pub puts: u64,
    /// How many sessions use it, watch it, and wait for its jobs.
    pub using: u64,
    pub watching: u64,
    pub waiting: u64,
    /// How many of its jobs were deleted.
    pub deletes: u64,
    /// How often it was paused.
    pub pauses: u64,
    /// For how many seconds it is paused, and how many of them are left; 0 where it isn't.
    pub pause: u64,
    pub pause_left: u64,
}

/// What is told of the queue beside its jobs and how often each operation was carried out, in numbers.
#[derive(Clone, Copy)]
pub(crate) struct QueueFigures {
    /// How many jobs' time to run was over.
    pub timeouts: u64,
    /// How many jobs were put.
    pub puts: u64,
    pub tubes: u64,
    pub sessions: u64,
    /// How many sessions have put a job, have asked for one, and wait for one.
    pub producers: u64,
    pub workers: u64,
    pub waiting: u64,
    /// The second that it is.
    pub second: u64,
}
