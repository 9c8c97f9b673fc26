//! A list of calls that only contracts read.
ghost use Rattle.std.specs.Prelude.{◌≡◌, List, [], ◌∷◌};
ghost use Rattle.std.specs.Borrow.{ftrue};
ghost use Rattle.oram_redo.specs.Note.{Call, call_of};

use std::marker::{Model, PhantomData};

/// The calls that were made on a pair of files, with their results, the newest first. It takes no bytes at run time.
#[derive(Drop)]
pub struct CallHistory {
    marker: PhantomData<u8>,
    pub ghost calls: { List Call },
}

impl Model for CallHistory {
    ghost also_owns = { λ _. ftrue };
}

impl CallHistory {
    pub(crate) fn new() -> CallHistory
        ensures { result.calls ≡ [] }
    {
        CallHistory {
            marker: PhantomData,
        }
    }

    /// Notes a call. `_numbers` are the fields of a `Call` in their order, without its bytes.
    pub(crate) fn note(&mut self, _numbers: &[u64], _bytes: &[u8])
        ensures { self.new.calls ≡ call_of _numbers.now _bytes.now ∷ self.old.calls }
    {}
}
