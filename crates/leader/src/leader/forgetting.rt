ghost use Rattle.std.specs.Prelude.{◌≡◌, option_map};
ghost use Rattle.scout_commander.specs.Rests.{rest_of_scout};
ghost use Rattle.leader.specs.Rests.{rest_of_leader};

use super::Leader;
use object::Value;
use scout_commander::Scout;

impl<C: Value> Leader<C> {
    /// Forgets the slots below the base: what is proposed for them, their commanders, and what its scout gathered of
    /// them. Its ballot stays, and whom it heard. It takes no memory.
    pub fn forget(&mut self, base: u64)
        ensures { self.new ≡ rest_of_leader base self.old }
    {
        self.proposals.forget(base);
        self.commanders.forget(base);
        forget_of_scout(&mut self.scout, base);
    }
}

// Forgets what the scout, if one stands, gathered of the slots below the base.
fn forget_of_scout<C: Value>(scout: &mut Option<Scout<C>>, base: u64)
    ensures { scout.new ≡ option_map (rest_of_scout base) scout.old }
{
    if let Some(scout) = scout {
        scout.forget(base);
    }
}
