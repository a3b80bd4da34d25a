ghost use Rattle.std.specs.Prelude.{◌≡◌};
ghost use Rattle.bean_queue.specs.Counting.{and_more, nothing_counted, with_op_counted, and_timeouts};

use bean_words::Op;

/// How often each operation was carried out, and how often the time to run of a job was over. Each count stays at the
/// greatest number of its type.
#[derive(Clone, Copy)]
pub(crate) struct Counts {
    pub put: u64,
    pub peek: u64,
    pub peek_ready: u64,
    pub peek_delayed: u64,
    pub peek_buried: u64,
    pub reserve: u64,
    pub reserve_with_timeout: u64,
    pub delete: u64,
    pub release: u64,
    pub use_tube: u64,
    pub watch: u64,
    pub ignore: u64,
    pub bury: u64,
    pub kick: u64,
    pub touch: u64,
    pub stats: u64,
    pub stats_job: u64,
    pub stats_tube: u64,
    pub list_tubes: u64,
    pub list_tube_used: u64,
    pub list_tubes_watched: u64,
    pub pause_tube: u64,
    pub timeouts: u64,
}

/// So many more.
fn more(count: u64, by: u64) -> u64
    ensures { result ≡ and_more by count }
{
    count.saturating_add(by)
}

impl Counts {
    /// Nothing is counted yet.
    pub fn new() -> Counts
        ensures { result ≡ nothing_counted }
    {
        Counts {
            put: 0,
            peek: 0,
            peek_ready: 0,
            peek_delayed: 0,
            peek_buried: 0,
            reserve: 0,
            reserve_with_timeout: 0,
            delete: 0,
            release: 0,
            use_tube: 0,
            watch: 0,
            ignore: 0,
            bury: 0,
            kick: 0,
            touch: 0,
            stats: 0,
            stats_job: 0,
            stats_tube: 0,
            list_tubes: 0,
            list_tube_used: 0,
            list_tubes_watched: 0,
            pause_tube: 0,
            timeouts: 0,
        }
    }

    /// Counts an operation.
    pub fn note(&mut self, op: &Op)
        ensures { self.new ≡ with_op_counted op.now self.old }
    {
        match op {
            Op::Put { .. } => self.put = more(self.put, 1),
            Op::Peek(_) => self.peek = more(self.peek, 1),
            Op::PeekReady => self.peek_ready = more(self.peek_ready, 1),
            Op::PeekDelayed => self.peek_delayed = more(self.peek_delayed, 1),
            Op::PeekBuried => self.peek_buried = more(self.peek_buried, 1),
            Op::Reserve { seconds: None } => self.reserve = more(self.reserve, 1),
            Op::Reserve { seconds: Some(_) } => self.reserve_with_timeout = more(
                self.reserve_with_timeout,
                1,
            ),
            Op::Delete(_) => self.delete = more(self.delete, 1),
            Op::Release { .. } => self.release = more(self.release, 1),
            Op::Use(_) => self.use_tube = more(self.use_tube, 1),
            Op::Watch(_) => self.watch = more(self.watch, 1),
            Op::Ignore(_) => self.ignore = more(self.ignore, 1),
            Op::Bury { .. } => self.bury = more(self.bury, 1),
            Op::Kick(_) => self.kick = more(self.kick, 1),
            Op::Touch(_) => self.touch = more(self.touch, 1),
            Op::Stats => self.stats = more(self.stats, 1),
            Op::StatsJob(_) => self.stats_job = more(self.stats_job, 1),
            Op::StatsTube(_) => self.stats_tube = more(self.stats_tube, 1),
            Op::ListTubes => self.list_tubes = more(self.list_tubes, 1),
            Op::ListTubeUsed => self.list_tube_used = more(self.list_tube_used, 1),
            Op::ListTubesWatched => self.list_tubes_watched = more(self.list_tubes_watched, 1),
            Op::Pause { .. } => self.pause_tube = more(self.pause_tube, 1),
            Op::KickJob(_) | Op::ReserveJob(_) => {}
        }
    }

    /// Counts so many jobs whose time to run is over.
    pub fn note_timeouts(&mut self, jobs: u64)
        ensures { self.new ≡ and_timeouts jobs self.old }
    {
        self.timeouts = more(self.timeouts, jobs);
    }
}
