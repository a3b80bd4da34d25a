ghost use Rattle.std.specs.Prelude.{◌≡◌, ◌<◌, ◌≤◌, ◌+◌, ◌-◌, ◌*◌, ◌^◌, true, IfOk, IfErr, IsErrOf, OnErr};
ghost use Rattle.ballot.specs.Members.{is_member};
ghost use Rattle.host.specs.CatchingUp.{TakesOver};
ghost use Rattle.host.specs.Counting.{most_host_events};
ghost use Rattle.host.specs.Storing.{back_view};

use super::Host;
use super::bases::lowest_asked;
use crate::catch_up::CatchUp;
use crate::event_count::EventCount;
use crate::host_fault::HostFault;
use crate::kept::Account;
use crate::stored::Stored;
use ballot::{Members, Slot};
use node::LeanNode;
use object::{Object, Once};
use std::alloc::Global;
use std::collections::VecDeque;

// So often a host may begin anew.
const LAST_BOOT: u64 = 1 << 62;

impl<O: Object> Host<O> {
    /// Goes on at a later slot with the object of a snapshot, which has obeyed what was decided before. What it has
    /// proposed for the slots before it asks for again; but where the object has obeyed any of that, or what was put
    /// aside speaks of an earlier slot, nothing is done. What it sends goes under the new base from then on. It takes no
    /// memory.
    pub fn catch_up(&mut self, slot: Slot, object: Once<O>) -> Result<CatchUp, HostFault>
        ensures ok { IfOk result (λ caught. TakesOver caught slot object self.old self.new) }
        ensures exhausted { IfErr result (λ fault. (fault ≡ HostFault.EventsExhausted)
            × (most_host_events < self.old.taken
            + 2 * (slot - self.old.shown.holding.state.replica.slot_out))) }
        ensures err { OnErr result (self.new ≡ self.old) }
    {
        let Some(skipped) = slot.number().checked_sub(self.slot_out()) else {
            return Ok(CatchUp::Behind);
        };
        if lowest_asked(slot.number(), &self.aside) < slot.number() {
            return Ok(CatchUp::Awaited);
        }
        if !self.node.has_proposed_in_vain(slot, &object) {
            return Ok(CatchUp::Proposed);
        }
        self.events = self.events.plus(2 * skipped)?;
        self.node.catch_up(slot, object);
        self.base = slot.number();
        Ok(CatchUp::Done)
    }

    /// The host that begins anew with what was stored and with a snapshot, and the account for its journal. Its boot is
    /// the next one, which has to be stored before the host sends anything. It had so many events before, at most.
    pub fn come_back(
        alloc: Global,
        members: Members,
        number: u8,
        stored: Stored<O::Op>,
        slot: Slot,
        object: Once<O>,
        events: u64,
    ) -> Result<(Host<O>, Account), HostFault>
        requires { is_member members number ≡ true }
        ensures host { IfOk result (λ both. both.0
            ≡ back_view members number stored slot object events) }
        ensures account { IfOk result (λ both. (both.1.boot ≡ stored.boot + 1)
            × (both.1.written ≡ 0) × (both.1.kept ≡ 0)) }
        ensures older { IsErrOf result HostFault.SnapshotTooOld → slot < stored.base }
        ensures boots { IsErrOf result HostFault.BootsExhausted → 2 ^ 62 ≤ stored.boot }
        ensures exhausted { IsErrOf result HostFault.EventsExhausted →
            most_host_events < events + (1 + 2 * slot) }
        ensures well { IfOk result (λ both. (stored.base ≤ slot) × (stored.boot < 2 ^ 62)) }
        ensures memory { IsErrOf result HostFault.OutOfMemory → ⊥ }
    {
        if slot.number() < stored.base() {
            return Err(HostFault::SnapshotTooOld);
        }
        if stored.boot() >= LAST_BOOT {
            return Err(HostFault::BootsExhausted);
        }
        let events = EventCount::new().plus(events)?.plus(1 + 2 * slot.number())?;
        let boot = stored.boot() + 1;
        let acceptor = stored.into_acceptor();
        let host = Host {
            node: LeanNode::come_back(alloc, members, number, acceptor, boot, slot, object),
            number,
            base: slot.number(),
            aside: VecDeque::new(alloc),
            voted: 0,
            events,
        };
        Ok((host, Account::new(boot)))
    }
}
