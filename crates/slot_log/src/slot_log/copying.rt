ghost use Rattle.std.specs.Prelude.{◌≡◌, ◌+◌, ◌≤◌, IfOk};
ghost use Rattle.std.specs.VecDeque.{deque_len, deque_capacity};

use super::SlotLog;
use object::{Keyed, Value};
use std::alloc::{AllocError, Global};
use std::collections::VecDeque;

impl<C: Value + Keyed> SlotLog<C> {
    /// The same log once more.
    pub fn copy(&self) -> Result<SlotLog<C>, AllocError>
        ensures { IfOk result (λ copy. copy ≡ self.now) }
    {
        let requests = copy_requests(self.alloc, &self.requests, self.proposals.len())?;
        Ok(SlotLog {
            slot_in: self.slot_in,
            slot_out: self.slot_out,
            requests,
            proposals: self.proposals.copy()?,
            decisions: self.decisions.copy()?,
            front_rank: self.front_rank,
            places: self.places.copy()?,
            alloc: self.alloc,
        })
    }
}

// The same requests once more, with room for so many others.
fn copy_requests<C: Value>(
    alloc: Global,
    requests: &VecDeque<C>,
    others: usize,
) -> Result<VecDeque<C>, AllocError>
    ensures items { IfOk result (λ copy. copy.items ≡ requests.now.items) }
    ensures room { IfOk result (λ copy. deque_len copy + others ≤ deque_capacity copy) }
{
    let mut copy = VecDeque::new(alloc);
    for request in requests {
        copy.push_back(request.copy()?)?;
    }
    copy.reserve(others)?;
    Ok(copy)
}
