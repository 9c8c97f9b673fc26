//! A tape from a list.
ghost use Rattle.std.specs.Prelude.{◌≡◌, slice_index};

use crate::tape::Tape;
use std::alloc::{AllocError, Global};

/// If each ticket has `count` words, word j of ticket t is the list's element `t * count + j`. After the end of the list
/// all words are 0.
#[derive(Debug, Drop)]
pub struct ListTape {
    pub words: Vec<u64>,
}

impl ListTape {
    /// Returns the word at any index, which is 0 after the end of the list.
    fn word(&self, place: u128) -> u64
        ensures { result ≡ slice_index self.now.words.items place }
    {
        let Ok(place) = usize::try_from(place) else {
            return 0;
        };
        self.words.get(place).copied().unwrap_or(0)
    }
}

impl Tape for ListTape {
    ghost use Rattle.oram_session.specs.Tapes.{list_words};

    ghost words = { λ tape. list_words tape.words.items };

    fn draw(&mut self, alloc: Global, ticket: u64, count: usize) -> Result<Vec<u64>, AllocError> {
        let start = u128::from(ticket) * count as u128;
        let mut drawn = Vec::with_capacity(alloc, count)?;
        for j in 0..count {
            drawn.push(self.word(start + j as u128))?;
        }
        Ok(drawn)
    }
}
