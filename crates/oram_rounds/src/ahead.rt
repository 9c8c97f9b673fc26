//! Answers that have come before the core asks for them.
ghost use Rattle.std.specs.Prelude.{◌≡◌, ◌↔◌, ◌∷◌, ◌++◌, [], IsTrue, MatchOption, Ok, OnErr, OnOk, length};
ghost use Rattle.oram_rounds.specs.Batches.{answered, texts};
ghost use Rattle.oram_rounds.specs.Rounds.{IsFirstAhead};

use std::alloc::{AllocError, Global};
use std::collections::VecDeque;
use std::marker::Model;

/// FETCHes that were sent before the core asked for them, each with its answer, the next one first.
#[derive(Drop)]
pub struct FetchedAhead {
    fetches: VecDeque<Vec<u8>>,
    answers: VecDeque<Vec<u8>>,
}

impl Model for FetchedAhead {
    ghost use Rattle.std.specs.Prelude.{◌≡◌, List, length};
    ghost use Rattle.oram_link_laws.specs.Runs.{Exchange};
    ghost use Rattle.oram_rounds.specs.Batches.{answered, texts};

    ghost Value = { List Exchange };

    ghost view = { λ a. answered (texts a.fetches.items) (texts a.answers.items) };

    ghost invariant = { λ a. length a.fetches.items ≡ length a.answers.items };
}

impl FetchedAhead {
    /// Returns an empty list of FETCHes.
    pub fn none(alloc: Global) -> FetchedAhead
        ensures { result ≡ [] }
    {
        FetchedAhead {
            fetches: VecDeque::new(alloc),
            answers: VecDeque::new(alloc),
        }
    }

    /// Returns these FETCHes with their answers.
    pub fn of(fetches: Vec<Vec<u8>>, answers: Vec<Vec<u8>>) -> FetchedAhead
        requires { length fetches.items ≡ length answers.items }
        ensures { result ≡ answered (texts fetches.items) (texts answers.items) }
    {
        FetchedAhead {
            fetches: VecDeque::from_vec(fetches),
            answers: VecDeque::from_vec(answers),
        }
    }

    /// Takes out the answer to the next FETCH, if it is this one.
    pub fn take(&mut self, fetch: &[u8]) -> Option<Vec<u8>>
        ensures { MatchOption result ((self.new ≡ self.old) × ¬ IsFirstAhead self.old fetch.now) (λ answer. self.old ≡ (fetch.now, Ok answer.items) ∷ self.new) }
    {
        if self.fetches.front()?.as_slice() != fetch {
            return None;
        }
        let answer = self.answers.pop_front()?;
        self.fetches.pop_front();
        Some(answer)
    }

    /// Adds a FETCH with its answer behind the others. If memory runs out, the list stays as it is.
    pub fn push(&mut self, fetch: Vec<u8>, answer: Vec<u8>) -> Result<(), AllocError>
        ensures ok { OnOk result (self.new ≡ self.old ++ (fetch.items, Ok answer.items) ∷ []) }
        ensures err { OnErr result (self.new ≡ self.old) }
    {
        self.fetches.reserve(1)?;
        self.answers.reserve(1)?;
        self.fetches.push_back_reserved(fetch);
        self.answers.push_back_reserved(answer);
        Ok(())
    }

    /// Returns whether the next FETCH is this one.
    pub fn is_first(&self, fetch: &[u8]) -> bool
        ensures { IsTrue result ↔ IsFirstAhead self.now fetch.now }
    {
        match self.fetches.front() {
            Some(first) => first.as_slice() == fetch,
            None => false,
        }
    }
}
