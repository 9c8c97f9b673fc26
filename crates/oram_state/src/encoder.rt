//! Writes a core to its file.

ghost use Rattle.std.specs.Prelude.{◌≡◌, IfOk};
ghost use Rattle.oram_core.specs.Parts.{parts_of};
ghost use Rattle.oram_state.specs.DecodedCore.{IsSaved};
ghost use Rattle.oram_state.specs.StateBytes.{state_file};

use crate::writer::write_state;
use oram_bucket::Sealer;
use oram_core::Core;
use std::alloc::{AllocError, Global};

/// Returns the file of a core, whether idle, at work, stalled or failed, in the second version. Fails only if memory
/// runs out.
///
/// A device with more than one block to a leaf has no file, only fields: `decode_state` refuses the text that this returns
/// for it.
pub fn encode_state<S: Sealer>(alloc: Global, core: &Core<S>) -> Result<Vec<u8>, AllocError>
    // A file belongs to only one core, so reading it gives this core again.
    ensures saved { core.now.device.leaf_load ≡ 1 → IfOk result (λ file.
        IsSaved file.items (S.cipher core.now.sealer).overhead core.now.device core.now.state) }
    ensures spelled { IfOk result (λ file. file.items
        ≡ state_file 2 (S.cipher core.now.sealer).overhead (parts_of core.now.device core.now.state)) }
{
    let parts = core.parts(alloc)?;
    write_state(alloc, core.overhead() as u32, &parts)
}
