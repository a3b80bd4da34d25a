ghost use Rattle.std.specs.Prelude.{◌≡◌};

use super::ForgettingHall;
use object::{Answer, Object};
use std::alloc::AllocError;
use std::mem::replace;

impl<O: Object> ForgettingHall<O> {
    /// The sessions that were answered since this was asked last, as far as there was memory to note them. They are kept
    /// until then. It takes no memory.
    ///
    /// No clause says which sessions they are. So a caller looks at `reply` of each, and from time to time, as once a second,
    /// at that of each session that waits: there a reply is found whose session was not noted.
    pub fn take_answered(&mut self) -> Vec<u32>
        ensures { self.new ≡ self.old }
    {
        replace(&mut self.answered, Vec::new(self.alloc))
    }
}

// Notes the sessions of these answers. Where memory is refused it notes no more.
pub(super) fn note<R>(answered: &mut Vec<u32>, given: &[Answer<R>]) -> Result<(), AllocError> {
    answered.reserve(given.len())?;
    for answer in given {
        answered.push(answer.to.session)?;
    }
    Ok(())
}
