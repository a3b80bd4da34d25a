/// What of a change goes into a job's history.
#[derive(Clone, Copy, Debug)]
pub enum Mark {
    /// The change isn't counted.
    Nothing,
    /// A session gets the job.
    Reserved,
    /// Its time to run is over.
    TimedOut,
    /// Its session gives it back, with this delay in seconds.
    Released { delay: u32 },
    /// Its session lays it aside.
    Buried,
    /// It is kicked.
    Kicked,
}
