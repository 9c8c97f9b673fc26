//! A tape from the stream cipher ChaCha20.

use crate::tape::Tape;
use rand_chacha::ChaCha20Rng;
use rand_core::{SeedableRng, utils};
use std::alloc::{AllocError, Global};
use std::fmt;

/// The words of the generator ChaCha20 (RFC 8439) under one key, in stream 0. Two of the generator's words of 32 bits
/// make one word of the tape, the low half first. Each ticket has two words for each tree.
#[derive(Clone, Copy)]
pub struct ChaChaTape {
    pub key: [u8; 32],
    /// The number of trees of the device, from 1 to 14.
    pub trees: u8,
}

// Doesn't show the key.
impl fmt::Debug for ChaChaTape {
    fn fmt<W: fmt::Write>(&self, f: &mut fmt::Formatter<W>) -> fmt::Result {
        f.write_str("ChaChaTape { .. }")
    }
}

impl Tape for ChaChaTape {
    ghost use Rattle.oram_session.specs.Tapes.{chacha_words};

    ghost words = { λ tape. chacha_words tape.key tape.trees };

    // Sets the generator to the ticket's first word, so that it draws no words before that.
    fn draw(&mut self, alloc: Global, ticket: u64, count: usize) -> Result<Vec<u64>, AllocError> {
        let mut generator = ChaCha20Rng::from_seed(self.key);
        generator.set_word_pos(4 * u128::from(self.trees) * u128::from(ticket));
        let mut drawn = Vec::with_capacity(alloc, count)?;
        for _ in 0..count {
            drawn.push(utils::next_u64_via_u32(&mut generator))?;
        }
        Ok(drawn)
    }
}
