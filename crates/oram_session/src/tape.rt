//! Tapes, which give the words of each command.
ghost use Rattle.std.specs.Prelude.{◌≡◌, ℕ, List, IfOk};

use std::alloc::{AllocError, Global};

/// A tape: gives the words of each ticket.
pub trait Tape {
    /// The first words of a ticket, given its number and how many words.
    ghost words: { Self → ℕ → ℕ → List ℕ };

    /// Returns the first `count` words of a ticket. They are the same at each call.
    fn draw(&mut self, alloc: Global, ticket: u64, count: usize) -> Result<Vec<u64>, AllocError>
        ensures words { IfOk result (λ w. w.items ≡ words self.old ticket count) }
        ensures same { words self.new ≡ words self.old };
}
