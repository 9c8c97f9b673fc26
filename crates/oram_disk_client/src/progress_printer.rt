//! Prints how far work has come that takes long.

use oram_settings::{LongWork, Meter, percent, progress_text};
use std::io;
use std::io::IsTerminal;
use std::rt::Clock;
use std::time::{Duration, Instant};

/// Prints on standard error how far some work has come: on a terminal in one line that it overwrites, else in a new line for
/// each tenth.
#[derive(Drop)]
pub(crate) struct ProgressPrinter<'a, R> {
    rt: &'a R,
    work: LongWork,
    /// When the work began, unless the clock couldn't be read then.
    begun: Option<Instant>,
    on_terminal: bool,
    meter: Meter,
}

impl<'a> ProgressPrinter<'a, HostRuntime> {
    /// Begins to print how far `work` has come, which begins now.
    pub(crate) fn new(rt: &'a HostRuntime, work: LongWork) -> ProgressPrinter<'a, HostRuntime> {
        let on_terminal = rt.stderr().is_terminal();
        ProgressPrinter {
            rt,
            work,
            begun: Instant::now(rt).ok(),
            on_terminal,
            meter: Meter::new(if on_terminal { 1 } else { 10 }),
        }
    }
}

impl<'a, R: Clock> ProgressPrinter<'a, R> {
    /// Returns for how many milliseconds the work has gone on. If the clock can't be read, it returns 0, for which
    /// [`progress_text`] estimates no time.
    fn milliseconds(&self) -> u64 {
        let passed = self
            .begun
            .and_then(|begun| begun.elapsed(self.rt).ok())
            .unwrap_or(Duration::ZERO);
        u64::try_from(passed.as_millis()).unwrap_or(u64::MAX)
    }
}

impl<'a, R: Clock + Eprint + AllocGlobal> ProgressPrinter<'a, R> {
    fn print(&self, done: u64, of: u64) -> io::Result<()> {
        let alloc = self.rt.alloc();
        let text = progress_text(alloc, self.work, done, of, self.milliseconds())?;
        let text = text.as_str();
        let line = if !self.on_terminal {
            format!(in alloc; "oramdisk: {text}\n")?
        } else if done < of {
            // The next line, even that of a fault, is written over this one.
            format!(in alloc; "{text}\x1b[K\r")?
        } else {
            format!(in alloc; "{text}\x1b[K\n")?
        };
        self.rt.eprint(line.as_str())
    }

    /// Prints that so much is done, if a line is due.
    pub(crate) fn report(&mut self, done: u64, of: u64) {
        if self.meter.is_due(percent(done, of)) {
            let _passed_over = self.print(done, of);
        }
    }
}
