//! A list of 64-bit words on the heap.
ghost use Rattle.std.specs.Prelude.{◌≡◌, ◌↔◌, ℕ, List, [], length, nat_eq, IfOk, IsTrue};
ghost use Rattle.std.specs.Cmp.Lexicographic.{pointwise, nat_list_eq_equiv};
ghost use Rattle.std.specs.Cmp.{partial_equiv_from_equiv};

use std::alloc::{AllocError, Global};
use std::marker::Model;

/// 64-bit words on the heap.
#[derive(Debug, Drop)]
pub struct Words {
    items: Vec<u64>,
}

impl Model for Words {
    ghost Value = { List ℕ };

    ghost view = { λ w. w.items.items };
}

impl PartialEq for Words {
    ghost eq = { pointwise nat_eq };

    ghost laws = { partial_equiv_from_equiv nat_list_eq_equiv };

    fn eq(&self, other: &Words) -> bool {
        self.as_slice() == other.as_slice()
    }
}

impl Eq for Words {
    ghost laws = { nat_list_eq_equiv };
}

impl Words {
    /// Takes over a vector as it is, without copying it.
    pub fn from_vec(items: Vec<u64>) -> Words
        ensures { result ≡ items.items }
    {
        Words { items }
    }

    /// Copies `words` to the heap. Fails only if memory runs out.
    pub fn copy(alloc: Global, words: &[u64]) -> Result<Words, AllocError>
        ensures { IfOk result (λ copied. copied ≡ words.now) }
    {
        let items = words.to_vec(alloc)?;
        Ok(Words { items })
    }

    /// Gives the vector back.
    pub fn into_vec(self) -> Vec<u64>
        ensures { result.items ≡ self }
    {
        let Words { items } = self;
        items
    }

    pub fn as_slice(&self) -> &[u64]
        ensures { result.now ≡ self.now }
    {
        self.items.as_slice()
    }

    pub fn len(&self) -> usize
        ensures { result ≡ length self.now }
    {
        self.items.len()
    }

    pub fn is_empty(&self) -> bool
        ensures { IsTrue result ↔ (self.now ≡ []) }
    {
        self.items.is_empty()
    }
}
