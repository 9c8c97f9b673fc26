//! Answers that are still to come.
ghost use Rattle.std.specs.Prelude.{◌≡◌, false, IsTrue};
ghost use Rattle.oram_rounds.specs.Batches.{texts};

use std::collections::VecDeque;
use std::marker::Model;

/// FETCHes that were sent before the core asks for them, whose answers are still to come.
#[derive(Drop)]
pub(crate) struct Arrivals {
    /// The next one first.
    pub(crate) due: VecDeque<Vec<u8>>,
    /// Whether memory ran out for an answer. No later one is put ahead then, since those ahead follow one another.
    pub(crate) is_full: bool,
    /// Whether the batch has broken off, so that no answer comes any more.
    pub(crate) is_broken: bool,
}

impl Model for Arrivals {
    ghost use Rattle.oram_rounds.specs.Arrivals.{Awaited};
    ghost use Rattle.oram_rounds.specs.Batches.{texts};

    ghost Value = { Awaited };

    ghost view = { λ a. record { due = texts a.due.items; full = a.is_full; broken = a.is_broken } };
}

impl Arrivals {
    /// Returns that the answers to all of these FETCHes are still to come.
    pub(crate) fn of(fetches: Vec<Vec<u8>>) -> Arrivals
        ensures { result ≡ record { due = texts fetches.items; full = false; broken = false } }
    {
        Arrivals {
            due: VecDeque::from_vec(fetches),
            is_full: false,
            is_broken: false,
        }
    }

    /// Returns whether the next answer is the one to this FETCH.
    pub(crate) fn is_next(&self, fetch: &[u8]) -> bool
        ensures { IsTrue result → self.now.broken ≡ false }
    {
        match self.due.front() {
            Some(next) => !self.is_broken && next.as_slice() == fetch,
            None => false,
        }
    }
}
