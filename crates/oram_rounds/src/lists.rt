//! Lists of bodies.
ghost use Rattle.std.specs.Prelude.{◌≡◌, [], ◌∷◌, ◌++◌, OnOk, OnErr};

use std::alloc::AllocError;

/// Adds a body to a list. If memory runs out, the list stays as it is.
pub(crate) fn push(bodies: &mut Vec<Vec<u8>>, body: Vec<u8>) -> Result<(), AllocError>
    ensures ok { OnOk result (bodies.new.items ≡ bodies.old.items ++ body ∷ []) }
    ensures err { OnErr result (bodies.new.items ≡ bodies.old.items) }
{
    match bodies.push(body) {
        Ok(()) => Ok(()),
        Err(error) => Err(AllocError::from(error)),
    }
}
