ghost use Rattle.std.specs.Prelude.{◌≡◌, true, IfOk, IfSome};
ghost use Rattle.std.specs.Option.{option_to_list};
ghost use Rattle.bean_queue.specs.Queue.{used_by};
ghost use Rattle.bean_queue.specs.Tubes.{all_tubes};
ghost use Rattle.bean_queue.specs.Staying.{brings_tube, left_by, AreTubes, IsListedBefore, IsStillListed};

use crate::logic::Logic;
use bean_words::{Name, Names, Op};
use job_store::JobMap;
use object::{Key, Value};
use std::alloc::AllocError;

/// The names of all tubes before an operation, and the one of them that it may take away.
#[derive(Drop)]
pub struct Listed {
    names: Names,
    left: Option<Name>,
}

impl<M: JobMap> Logic<M> {
    /// Whether an operation brings a tube: it uses or watches one that isn't there.
    fn brings_tube(&self, op: &Op) -> bool
        ensures { result ≡ brings_tube op.now (all_tubes self.now.now) }
    {
        match op {
            Op::Use(tube) | Op::Watch(tube) => !self.is_tube(tube),
            _ => false,
        }
    }

    /// The tube that a session uses, or would use if it were made.
    fn used_or_default(&self, session: u32) -> Result<Name, AllocError>
        ensures { IfOk result (λ name. name ≡ used_by self.now.now session) }
    {
        match self.sessions.map().get(&session) {
            Some(session) => session.used.copy(),
            None => Ok(Name::default_tube()),
        }
    }

    /// The tube that an operation may take away, if there is one.
    fn left_by(&self, key: Key, op: &Op) -> Result<Option<Name>, AllocError>
        ensures { IfOk result (λ tube. option_to_list tube ≡ left_by op.now key self.now.now) }
    {
        match op {
            Op::Use(_) => Ok(Some(self.used_or_default(key.session)?)),
            Op::Ignore(tube) => Ok(Some(tube.copy()?)),
            Op::Delete(id) => self.tube_of(*id),
            _ => Ok(None),
        }
    }

    /// The names of all tubes before an operation, unless it brings one.
    pub fn listed_before(
        &self,
        names: Names,
        key: Key,
        op: &Op,
    ) -> Result<Option<Listed>, AllocError>
        requires { names ≡ all_tubes self.now.now }
        ensures { IfOk result
            (λ listed. IfSome listed (IsListedBefore op.now key self.now.now)) }
    {
        self.numbers_rise();
        if self.brings_tube(op) {
            return Ok(None);
        }
        let left = self.left_by(key, op)?;
        Ok(Some(Listed { names, left }))
    }

    /// Whether the tube that there may be is one that list-tubes names.
    fn is_still_tube(&self, left: &Option<Name>) -> bool
        ensures { result ≡ true → AreTubes (option_to_list left.now) self.now.now }
    {
        match left {
            Some(tube) => self.is_tube(tube),
            None => true,
        }
    }

    /// The names that were listed before an operation, if the tube that it might have taken away is still there.
    pub fn still_listed(&self, before: Option<Listed>) -> Option<Names>
        ensures { IfSome result (IsStillListed self.now.now before) }
    {
        let listed = before?;
        if self.is_still_tube(&listed.left) {
            Some(listed.names)
        } else {
            None
        }
    }
}
