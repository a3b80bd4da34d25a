ghost use Rattle.std.specs.Prelude.{◌≡◌, ◌↔◌, ◌+◌, ◌-◌, ◌*◌, ◌<◌, ◌≤◌, ◌^◌, None, IfNone, IfSome};
ghost use Rattle.std.specs.Duration.{as_nanos};

use hall::LAST_SECOND;
use loops::Seconds;
use std::rt::Clock;
use std::thread;
use std::time::{Duration, Instant};

/// The seconds since a start, from the one behind the last before it on, none left out. Where one comes
/// too late, the next ones come sooner.
#[derive(Drop)]
pub(crate) struct ClockSeconds<'a, R> {
    clock: &'a R,
    start: Option<Instant>,
    // The last second before the start.
    before: u64,
    second: u64,
}

impl<'a, R: Clock> ClockSeconds<'a, R> {
    /// They begin now: 1, 2, 3 and so on.
    pub(crate) fn new(clock: &'a R) -> ClockSeconds<'a, R>
        ensures before { result.before ≡ 0 }
        ensures second { result.second ≡ 0 }
    {
        ClockSeconds::after(clock, 0)
    }

    /// They begin now, behind this one.
    pub(crate) fn after(clock: &'a R, last: u64) -> ClockSeconds<'a, R>
        ensures before { result.before ≡ last }
        ensures second { result.second ≡ last }
    {
        ClockSeconds {
            clock,
            start: Instant::now(clock).ok(),
            before: last,
            second: last,
        }
    }

    // How much time has passed since the start, where the clock can be read.
    fn passed(&self) -> Option<Duration> {
        self.start?.elapsed(self.clock).ok()
    }

    // How long it is until the next second when so much time has passed: a second where that isn't
    // known.
    fn until_next(&self, passed: Option<Duration>) -> Duration
        requires { self.now.second < 2 ^ 40 }
        ensures known { IfSome passed (λ passed. as_nanos result
            ≡ (self.now.second + 1 - self.now.before) * 1000000000 - as_nanos passed) }
        ensures unknown { IfNone passed (as_nanos result ≡ 1000000000) }
    {
        match passed {
            Some(passed) => {
                let until = (self.second + 1).saturating_sub(self.before);
                Duration::from_secs(until).saturating_sub(passed)
            }
            None => Duration::from_secs(1),
        }
    }
}

impl<'a, R: Clock> Seconds for ClockSeconds<'a, R> {
    fn next(&mut self) -> Option<u64>
        ensures ended { result ≡ None ↔ 2 ^ 40 ≤ self.old.second }
        ensures next { IfSome result (λ second. second ≡ self.old.second + 1) }
        ensures told { IfSome result (λ second. self.new.second ≡ second) }
        ensures before { self.new.before ≡ self.old.before }
    {
        if self.second >= LAST_SECOND {
            return None;
        }
        thread::sleep(self.clock, self.until_next(self.passed()));
        self.second += 1;
        Some(self.second)
    }
}
