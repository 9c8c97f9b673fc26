//! What two files were at first, which only contracts read.
ghost use Rattle.std.specs.Prelude.{◌≡◌};
ghost use Rattle.std.specs.Borrow.{ftrue};
ghost use Rattle.oram_redo.specs.Opened.{Opened};

use std::marker::{Model, PhantomData};

/// What a file of records and its log held when a pair was made of them, and what of it no sync had covered. It takes no bytes at run time,
/// and no code can read it.
#[derive(Drop)]
pub struct Origin {
    marker: PhantomData<u8>,
    pub ghost held: { Opened },
}

impl Model for Origin {
    ghost also_owns = { λ _. ftrue };
}

impl Origin {
    /// Returns an origin, whatever the files are.
    pub(crate) fn new() -> Origin
        ghost held: { Opened }
        ensures { result.held ≡ held }
    {
        Origin {
            marker: PhantomData,
        }
    }
}
