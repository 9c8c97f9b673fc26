//! A link that simulates faults.
ghost use Rattle.std.specs.Prelude.{◌≡◌};
ghost use Rattle.oram_session.specs.Links.{is_due};

use crate::link::{Link, LinkFault};
use std::alloc::Global;
use std::marker::Model;

/// A link over another link that simulates faults, for tests: from a given call on, some calls in a row answer `Io`.
#[derive(Debug, Drop)]
pub struct FaultLink<L> {
    inner: L,
    at: u64,
    times: u64,
    after: bool,
    calls: u64,
    faults: u64,
}

impl<L> Model for FaultLink<L> {
    ghost use Rattle.oram_session.specs.Links.{Faulty};

    ghost Value = { Faulty L };

    ghost view = { λ l. record { inner = l.inner; at = l.at; times = l.times; after = l.after; calls = l.calls; faults = l.faults } };
}

impl<L> FaultLink<L> {
    /// Makes a link whose calls from number `at` on, `times` of them, answer `Io`; calls count from 0. With `after`,
    /// such a call still calls the link below and drops the outcome; without it, it doesn't.
    pub fn new(inner: L, at: u64, times: u64, after: bool) -> FaultLink<L>
        ensures { result ≡ record { inner = inner; at = at; times = times; after = after; calls = 0; faults = 0 } }
    {
        FaultLink {
            inner,
            at,
            times,
            after,
            calls: 0,
            faults: 0,
        }
    }

    /// Returns the number of calls; the count stops at `u64::MAX`.
    pub fn calls(&self) -> u64
        ensures { result ≡ self.now.calls }
    {
        self.calls
    }

    /// Returns whether the next call gets a fault.
    fn is_due(&self) -> bool
        ensures { result ≡ is_due self.now }
    {
        self.at <= self.calls && self.calls - self.at < self.times
    }
}

impl<L: Link> Link for FaultLink<L> {
    ghost use Rattle.oram_session.specs.Links.{FaultyCall};

    ghost calls = { λ l body outcome m. FaultyCall L.calls l body outcome m };

    ghost fault_count = { λ l. l.faults };

    fn call(&mut self, alloc: Global, body: &[u8]) -> Result<Vec<u8>, LinkFault> {
        let due = self.is_due();
        self.calls = self.calls.saturating_add(1);
        if due {
            if self.after {
                let _dropped = self.inner.call(alloc, body);
            }
            self.faults = self.faults.saturating_add(1);
            return Err(LinkFault::Io);
        }
        let result = self.inner.call(alloc, body);
        if result.is_err() {
            self.faults = self.faults.saturating_add(1);
        }
        result
    }

    fn faults(&self) -> u64 {
        self.faults
    }

    ghost counts = { λ l m body outcome h. h.faults };
}
