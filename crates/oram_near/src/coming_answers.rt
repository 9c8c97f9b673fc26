//! How far a batch has come whose answers are taken one by one.
ghost use Rattle.std.specs.Prelude.{◌≡◌, ◌++◌, [], ◌∷◌, MatchOption, drop};
ghost use Rattle.oram_rounds.specs.Batches.{texts};
ghost use Rattle.oram_near.specs.ComingAnswers.{no_coming};

use std::alloc::Global;
use std::marker::Model;

/// What is still to come of a batch of FETCHes of levels and STOREs behind them.
#[derive(Drop)]
pub(crate) struct ComingAnswers {
    /// The FETCHes of the batch.
    fetches: Vec<Vec<u8>>,
    /// How many of them the host has answered.
    answered: usize,
    /// Once the host has answered all STOREs: the answers to those STOREs that the caller hasn't asked for yet.
    ready: Vec<Vec<u8>>,
}

impl Model for ComingAnswers {
    ghost use Rattle.std.specs.Prelude.{◌≤◌, drop, length};
    ghost use Rattle.oram_rounds.specs.Batches.{texts};
    ghost use Rattle.oram_near.specs.ComingAnswers.{Coming};

    ghost Value = { Coming };

    ghost view = { λ c. record { fetches = drop c.answered (texts c.fetches.items); ready = texts c.ready.items } };

    ghost invariant = { λ c. c.answered ≤ length c.fetches.items };
}

impl ComingAnswers {
    /// Nothing is to come.
    pub(crate) fn none(alloc: Global) -> ComingAnswers
        ensures { result ≡ no_coming }
    {
        ComingAnswers {
            fetches: Vec::new(alloc),
            answered: 0,
            ready: Vec::new(alloc),
        }
    }

    /// The answers to these FETCHes are to come, and then those to STOREs.
    pub(crate) fn of(alloc: Global, fetches: Vec<Vec<u8>>) -> ComingAnswers
        ensures { result ≡ record { fetches = texts fetches.items; ready = [] } }
    {
        ComingAnswers {
            fetches,
            answered: 0,
            ready: Vec::new(alloc),
        }
    }

    /// Returns the FETCHes that the host hasn't answered yet.
    pub(crate) fn fetches(&self) -> &[Vec<u8>]
        ensures { texts result.now ≡ self.now.fetches }
    {
        &self.fetches[self.answered..]
    }

    /// Goes on behind the first FETCH that the host hasn't answered yet, if there is one.
    pub(crate) fn pass(&mut self)
        ensures { self.new ≡ record self.old { fetches = drop 1 self.old.fetches } }
    {
        if self.answered < self.fetches.len() {
            self.answered += 1;
        }
    }

    /// These are the answers to the STOREs.
    pub(crate) fn make_ready(&mut self, ready: Vec<Vec<u8>>)
        ensures { self.new ≡ record self.old { ready = texts ready.items } }
    {
        self.ready = ready;
    }

    /// Takes one of the answers to the STOREs that are ready.
    pub(crate) fn take_ready(&mut self) -> Option<Vec<u8>>
        ensures fetches { self.new.fetches ≡ self.old.fetches }
        ensures ready { MatchOption result ((self.old.ready ≡ []) × (self.new ≡ self.old)) (λ answer. self.old.ready ≡ self.new.ready ++ answer.items ∷ []) }
    {
        self.ready.pop()
    }
}
