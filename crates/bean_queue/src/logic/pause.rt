ghost use Rattle.std.specs.Prelude.{◌≡◌};
ghost use Rattle.job_store.specs.LookUps.{is_among};
ghost use Rattle.bean_queue.specs.Rows.{pause_row};
ghost use Rattle.bean_queue.specs.Tubes.{all_tubes};
ghost use Rattle.bean_queue.specs.Calls.{DraftsRow};

use crate::logic::Logic;
use bean_words::{Name, Reply};
use job_store::JobMap;
use std::alloc::AllocError;
use tube_store::TubeMark;

impl<M: JobMap> Logic<M> {
    /// Whether the tube is one that list-tubes names. It takes no memory.
    pub fn is_tube(&self, tube: &Name) -> bool
        ensures { result ≡ is_among tube.now (all_tubes self.now.now) }
    {
        if *tube == Name::default_tube() {
            return true;
        }
        if self.sessions.has_named(tube) {
            return true;
        }
        self.jobs.map().has_jobs(tube)
    }

    /// Pauses a tube for so many seconds, or no longer where they are none.
    #[tactic(auto, unfolding(crate::specs::Rows::pause_row))]
    pub fn pause_tube(&mut self, tube: &Name, seconds: u32) -> Result<Reply, AllocError>
        ensures { DraftsRow self.old self.new (pause_row self.old.now tube.now seconds) result }
    {
        if !self.is_tube(tube) {
            return Ok(Reply::NotFound);
        }
        self.tubes.mark(tube, TubeMark::Paused { seconds })?;
        self.pauses.pause_for(tube, seconds)?;
        Ok(Reply::Paused)
    }
}
