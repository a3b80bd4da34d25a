ghost use Rattle.std.specs.Prelude.{◌≡◌, ◌≤◌, ◌<◌, ◌+◌, IfOk, IfErr};
ghost use Rattle.host.specs.Counting.{most_host_events};
ghost use Rattle.host.specs.declared.host_fault.HostFault.TheVariants.{EventsExhausted};

use crate::host_fault::HostFault;
use std::marker::Model;

// So many events one host may have.
const MOST: u64 = 1 << 45;

/// How many events there were at a host, which are never too many.
#[derive(Clone, Copy, Debug)]
pub(crate) struct EventCount {
    count: u64,
}

impl Model for EventCount {
    ghost use Rattle.std.specs.Prelude.{ℕ, ◌≤◌};
    ghost use Rattle.host.specs.Counting.{most_host_events};

    ghost Value = { ℕ };

    ghost view = { λ e. e.count };

    ghost invariant = { λ e. e.count ≤ most_host_events };

    ghost inverse = { λ n. record { count = n } };
}

impl EventCount {
    /// There was none.
    pub(crate) fn new() -> EventCount
        ensures { result ≡ 0 }
    {
        EventCount { count: 0 }
    }

    /// How many.
    pub(crate) fn count(self) -> u64
        ensures count { result ≡ self }
        ensures most { result ≤ most_host_events }
    {
        self.count
    }

    /// With so many more, where these aren't too many.
    pub(crate) fn plus(self, more: u64) -> Result<EventCount, HostFault>
        ensures ok { IfOk result (λ sum. sum ≡ self + more) }
        ensures err { IfErr result (λ fault.
            (fault ≡ EventsExhausted) × (most_host_events < self + more)) }
        ensures within { self ≤ most_host_events }
        ensures one { IfErr result (λ fault. more ≡ 1 → self ≡ most_host_events) }
    {
        if MOST - self.count < more {
            return Err(HostFault::EventsExhausted);
        }
        Ok(EventCount {
            count: self.count + more,
        })
    }
}
