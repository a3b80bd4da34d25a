ghost use Rattle.std.specs.Prelude.{◌≡◌, IfOk};

use super::Leader;
use ballot::SlotMap;
use object::Value;
use scout_commander::{Commander, Scout};
use std::alloc::{AllocError, Global};

impl<C: Value> Leader<C> {
    /// The same leader once more.
    pub fn copy(&self) -> Result<Leader<C>, AllocError>
        ensures { IfOk result (λ copy. copy ≡ self.now) }
    {
        let proposals = self.proposals.copy()?;
        let scout = copy_scout(&self.scout)?;
        let commanders = copy_commanders(self.alloc, &self.commanders)?;
        Ok(Leader {
            members: self.members,
            node: self.node,
            boot: self.boot,
            ballot: self.ballot,
            active: self.active,
            proposals,
            scout,
            commanders,
            alloc: self.alloc,
        })
    }
}

// The same scout once more, if there is one.
fn copy_scout<C: Value>(scout: &Option<Scout<C>>) -> Result<Option<Scout<C>>, AllocError>
    ensures { IfOk result (λ copy. copy ≡ scout.now) }
{
    match scout {
        None => Ok(None),
        Some(scout) => Ok(Some(scout.copy()?)),
    }
}

// The same commanders once more.
fn copy_commanders<C: Value>(
    alloc: Global,
    commanders: &SlotMap<Commander<C>>,
) -> Result<SlotMap<Commander<C>>, AllocError>
    ensures { IfOk result (λ copy. copy ≡ commanders.now) }
{
    let mut copy = SlotMap::new(alloc);
    let entries = commanders.entries();
    for (slot, commander) in entries {
        copy.insert(*slot, commander.copy()?)?;
    }
    Ok(copy)
}
