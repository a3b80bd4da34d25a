ghost use Rattle.std.specs.Prelude.{◌≡◌, ◌^◌, false, IsSome, IfOk};
ghost use Rattle.std.specs.Option.{option_to_list};
ghost use Rattle.job_store.specs.Entries.{Rising, value_at};
ghost use Rattle.bean_queue.specs.Reserving.{is_reserve};
ghost use Rattle.bean_queue.specs.Woken.{tube_of, woken_by};

use crate::logic::Logic;
use bean_words::{Name, Op};
use job_store::JobMap;
use object::{Key, Value};
use std::alloc::AllocError;

impl<M: JobMap> Logic<M> {
    /// The tube of the job at an id, if there is one.
    pub fn tube_of(&self, id: u64) -> Result<Option<Name>, AllocError>
        ensures { IfOk result (λ tube. option_to_list tube ≡ tube_of (value_at id self.now.now.jobs)) }
    {
        match self.jobs.map().get(id) {
            Some(job) => Ok(Some(job.tube.copy()?)),
            None => Ok(None),
        }
    }

    /// The tube in which an operation other than a reserve may make jobs ready, if there is one.
    pub fn woken_by(&self, key: Key, op: &Op) -> Result<Option<Name>, AllocError>
        requires there { IsSome (value_at key.session self.now.now.sessions) }
        requires waking { is_reserve op.now ≡ false }
        ensures tube { IfOk result (λ tube. option_to_list tube ≡ woken_by op.now key self.now.now) }
        ensures ids_rise { Rising 0 (2 ^ 64) self.now.now.jobs }
        ensures numbers_rise { Rising 0 (2 ^ 32) self.now.now.sessions }
    {
        // The maps are looked at for a clause alone: their keys rise.
        let _ = self.jobs.map();
        let _ = self.sessions.map();
        match op {
            Op::Put { .. } | Op::Kick(_) => Ok(Some(self.used(key.session)?)),
            Op::Pause { tube, .. } => Ok(Some(tube.copy()?)),
            Op::Release { id, .. } => self.tube_of(*id),
            Op::KickJob(id) => self.tube_of(*id),
            _ => Ok(None),
        }
    }
}
