//! The progress of what takes long.

ghost use Rattle.std.specs.Prelude.{◌≡◌, ◌≤◌, ◌↔◌, IsTrue, IfOk, string_bytes};
ghost use Rattle.oram_settings.specs.Progress as spec;

use std::alloc::{AllocError, Global};

/// What takes long. All of it is counted in records.
#[derive(Clone, Copy, Debug, PartialEq, Eq)]
pub enum LongWork {
    /// A formatting.
    Formatting,
    /// A check of all records.
    Checking,
    /// An export of all blocks.
    Exporting,
}

impl LongWork {
    fn name(self) -> &'static str
        ensures { result.now ≡ spec.name self }
    {
        match self {
            LongWork::Formatting => "formatting",
            LongWork::Checking => "checking",
            LongWork::Exporting => "exporting",
        }
    }
}

/// Returns how much is done, in percent: 100, if there is nothing to do.
pub fn percent(done: u64, of: u64) -> u64
    ensures { result ≡ spec.percent done of }
{
    if of <= done {
        return 100;
    }
    (u128::from(done) * 100 / u128::from(of)) as u64
}

/// Returns in how many whole seconds the rest will be done, at the pace of the `milliseconds` so far.
fn seconds_left(done: u64, of: u64, milliseconds: u64) -> u64
    ensures { result ≡ spec.seconds_left done of milliseconds }
{
    let rest = of.saturating_sub(done);
    let left = u128::from(milliseconds) * u128::from(rest) / u128::from(done.max(1)) / 1_000;
    u64::try_from(left).unwrap_or(u64::MAX)
}

/// For how many milliseconds the work has to go on before its text says how long the rest takes.
const SOONEST_ESTIMATE: u64 = 1_000;

/// Returns a text that says how far the work has come.
fn so_far(alloc: Global, work: LongWork, done: u64, of: u64) -> Result<String, AllocError>
    ensures { IfOk result (λ text. string_bytes text ≡ spec.so_far work done of) }
{
    let name = work.name();
    let percent = percent(done, of);
    format!(in alloc; "{name}: {percent} % ({done} of {of} records)")
}

/// Returns a text that says how far the work has come, and how long the rest takes.
fn with_time_left(
    alloc: Global,
    work: LongWork,
    done: u64,
    of: u64,
    milliseconds: u64,
) -> Result<String, AllocError>
    ensures { IfOk result (λ text. string_bytes text ≡ spec.with_time_left work done of milliseconds) }
{
    let name = work.name();
    let percent = percent(done, of);
    let left = seconds_left(done, of, milliseconds);
    format!(in alloc; "{name}: {percent} % ({done} of {of} records), {left} s left")
}

/// Returns a text that says how far the work has come, and after its first second also how long the rest takes.
pub fn progress_text(
    alloc: Global,
    work: LongWork,
    done: u64,
    of: u64,
    milliseconds: u64,
) -> Result<String, AllocError>
    ensures { IfOk result (λ text. string_bytes text ≡ spec.progress_text work done of milliseconds) }
{
    if milliseconds < SOONEST_ESTIMATE {
        so_far(alloc, work, done, of)
    } else {
        with_time_left(alloc, work, done, of, milliseconds)
    }
}

/// Returns at how many percent a text is due after one at `percent`.
fn next_due(percent: u64, step: u64) -> u64
    ensures { result ≡ spec.next_due percent step }
{
    let next = percent.saturating_add(step);
    if percent < 100 { next.min(100) } else { next }
}

/// Says when a text is due again: each time that `step` more percent are done, and at 100 percent.
#[derive(Clone, Copy, Debug, PartialEq, Eq)]
pub struct Meter {
    /// The step, in percent.
    pub step: u64,
    /// At how many percent a text is due next.
    pub next: u64,
}

impl Meter {
    /// Returns a meter that is due at once, and then after each step.
    pub fn new(step: u64) -> Meter
        ensures { result ≡ record { step = step; next = 0 } }
    {
        Meter { step, next: 0 }
    }

    /// Returns whether a text is due, now that `percent` percent are done.
    pub fn is_due(&mut self, percent: u64) -> bool
        ensures due { IsTrue result ↔ (self.old.next ≤ percent) }
        // If it is due, it is due again once a further step or all is done; if it isn't, nothing changes.
        ensures next { self.new ≡ spec.meter_after self.old percent }
    {
        if percent < self.next {
            return false;
        }
        self.next = next_due(percent, self.step);
        true
    }
}
