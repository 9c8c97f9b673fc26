//! The time for which a link tries to reach its host.
ghost use Rattle.std.specs.Prelude.{◌≡◌, ◌≤◌};
ghost use Rattle.oram_client.specs.Reconnect.{elapsed, time_left};

use crate::dialer::Trouble;

/// Returns the time between two readings of the clock, or 0 if one of them failed.
pub(crate) fn elapsed(begin: Option<u64>, now: Option<u64>) -> u64
    ensures { result ≡ elapsed begin now }
{
    match (begin, now) {
        (Some(begin), Some(now)) => now.saturating_sub(begin),
        _ => 0,
    }
}

/// Returns how much time is left of the reconnect timeout after `trouble`: none if the trouble won't pass.
pub(crate) fn time_left(
    reconnect_timeout: u64,
    begin: Option<u64>,
    left: u64,
    trouble: Trouble,
    now: Option<u64>,
) -> u64
    ensures left { result ≡ time_left reconnect_timeout begin left trouble now }
    ensures most { result ≤ left }
{
    if trouble.may_pass() {
        left.min(reconnect_timeout.saturating_sub(elapsed(begin, now)))
    } else {
        0
    }
}
