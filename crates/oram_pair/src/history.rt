//! Notes that only contracts read.
ghost use Rattle.std.specs.Prelude.{◌≡◌, List, [], ◌∷◌};
ghost use Rattle.std.specs.Borrow.{ftrue};
ghost use Rattle.oram_pair.specs.Notes.{Note, note_of};

use std::marker::{Model, PhantomData};

/// What was done while a pair was made, and whether the system did it, the newest first. It takes no bytes at run time.
#[derive(Drop)]
pub struct History {
    marker: PhantomData<u8>,
    pub ghost notes: { List Note },
}

impl Model for History {
    ghost also_owns = { λ _. ftrue };
}

impl History {
    pub(crate) fn new() -> History
        ensures { result.notes ≡ [] }
    {
        History {
            marker: PhantomData,
        }
    }

    /// Adds a note. `_numbers` stand for the deed, its name, what was found and whether it was done. There are no bytes to note.
    pub(crate) fn note(&mut self, _numbers: &[u64], _bytes: &[u8])
        ensures { self.new.notes ≡ note_of _numbers.now _bytes.now ∷ self.old.notes }
    {}
}
