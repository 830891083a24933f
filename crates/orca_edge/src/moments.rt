//! The clock of an inbox, and how long a turn may wait.

ghost use Rattle.std.specs.Prelude.{◌≡◌, ◌≤◌, ◌/◌, ◌^◌, ◌-◌, ◌+◌, pos, min, max, nat_le, false, IfOk};
ghost use Rattle.std.specs.Option.{option_map_or};
ghost use Rattle.std.specs.Duration.{as_nanos};
ghost use Rattle.orca_edge.specs.Waits.{IsTimely};
ghost use Rattle.orca_edge.specs.declared.moments.TheConstants.{LONGEST_STEP};

use std::io;
use std::rt::Clock;
use std::time::Duration;

/// How long before a moment no wait for events goes on, in microseconds. Its limit is rounded up to
/// whole milliseconds, and the system ends it late by up to a thousandth of it.
pub(crate) const LEAD: u64 = 1_300;

/// The longest wait for events where there is a moment to wait for, in microseconds. A longer one
/// might end too late.
pub(crate) const LONGEST_STEP: u64 = 200_000;

/// The longest sleep between two looks at the streams, in microseconds. Bytes that come
/// meanwhile wait for its end.
pub(crate) const NAP: u64 = 300;

/// How long before a moment no sleep goes on, in microseconds. The system lets a sleep end 50
/// microseconds late, so that it can wake several sleepers at once, and takes some 10 more to wake
/// one. The 20 or so that are left are spent on looking, which costs a processor little.
pub(crate) const MARGIN: u64 = 80;

/// A wait for events that has no end, in the milliseconds of poll(2).
pub(crate) const FOREVER: i32 = -1;

/// A clock, what it showed at the start, and the last moment that was answered, in microseconds.
#[derive(Drop)]
pub(crate) struct Watch<'a, R> {
    pub rt: &'a R,
    pub origin: u64,
    pub last: u64,
}

/// How one turn of a poll waits, in microseconds.
#[derive(Clone, Copy)]
pub(crate) enum Wait {
    /// For events of the streams, with no end.
    Forever,
    /// For events of the streams, up to so long.
    Events(u64),
    /// By a sleep of so long.
    Sleep(u64),
    /// Not at all: the moment is so near that the turns go on without a rest.
    Look,
}

impl<R: Clock> Watch<'_, R> {
    /// The moment now. It is never below the last one that was answered.
    pub(crate) fn moment(&self) -> io::Result<u64>
        ensures { IfOk result (λ at. self.now.last ≤ at) }
    {
        Ok(self.moment_at(self.rt.monotonic()?))
    }

    /// The moment at which the clock shows this.
    fn moment_at(&self, shown: Duration) -> u64
        ensures { let now = min (as_nanos shown / 1000) (2 ^ 64 - 1) in
            result ≡ max self.now.last (now - self.now.origin) }
    {
        let now = microseconds(shown);
        self.last.max(now.saturating_sub(self.origin))
    }
}

/// What a clock shows, in microseconds.
pub(crate) fn microseconds(shown: Duration) -> u64
    ensures { result ≡ min (as_nanos shown / 1000) (2 ^ 64 - 1) }
{
    u64::try_from(shown.as_micros()).unwrap_or(u64::MAX)
}

/// Whether the moment to wait for has come.
pub(crate) fn has_come(until: Option<u64>, now: u64) -> bool
    ensures { result ≡ option_map_or (λ moment. nat_le moment now) until false }
{
    match until {
        Some(moment) => moment <= now,
        None => false,
    }
}

/// So many microseconds in milliseconds, rounded up, so that a short wait is one.
pub(crate) fn milliseconds(micros: u64) -> i32
    ensures { micros ≤ LONGEST_STEP → result ≡ pos ((micros + 999) / 1000) }
{
    ((micros.min(LONGEST_STEP) + 999) / 1000) as i32
}

/// How a turn may wait: for events, then by a sleep, and then not at all, the nearer the moment is.
pub(crate) fn wait_of(until: Option<u64>, now: u64) -> Wait
    ensures { IsTimely until now result }
{
    let Some(moment) = until else {
        return Wait::Forever;
    };
    let left = moment.saturating_sub(now);
    if left > LEAD {
        Wait::Events((left - LEAD).min(LONGEST_STEP))
    } else if left > MARGIN {
        Wait::Sleep((left - MARGIN).min(NAP))
    } else {
        Wait::Look
    }
}
