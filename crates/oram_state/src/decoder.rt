//! Reads a core from its file, or from the fields of the file.

ghost use Rattle.std.specs.Prelude.{◌≡◌, ◌⊎◌, IfOk, IfErr};
ghost use Rattle.oram_geometry.specs.declared.Sizes.{Sizes};
ghost use Rattle.oram_semantics.specs.State.{State};
ghost use Rattle.oram_state.specs.DecodedCore.{AreSavedFields, IsFaultIn, IsSaved};

use crate::fault::StateFault;
use crate::reader::{read_bare_fields, read_state};
use crate::saved::Saved;
use oram_bucket::Sealer;
use oram_core::Core;
use std::alloc::Global;

/// Makes the core whose file this is, under the sealer that it was saved with. Also reads files of the first version,
/// which exist only for idle and failed cores.
///
/// Fails with the first fault of the file, and with `Content` if the file has another overhead than the sealer, or parts
/// that can't be a core's, or a device with more than one block to a leaf.
pub fn decode_state<S: Sealer>(alloc: Global, sealer: S, file: &[u8]) -> Result<Core<S>, StateFault>
    ensures sealer { IfOk result (λ c. c.sealer ≡ sealer) }
    ensures core { IfOk result (λ c. IsSaved file.now (S.cipher sealer).overhead c.device c.state) }
    // It returns the core that was saved, unless memory runs out.
    ensures same { (d : Sizes) (s : State) → IsSaved file.now (S.cipher sealer).overhead d s
        → IfOk result (λ c. (c.device ≡ d) × (c.state ≡ s)) }
    ensures only { (d : Sizes) (s : State) → IsSaved file.now (S.cipher sealer).overhead d s
        → IfErr result (λ fault. fault ≡ StateFault.OutOfMemory) }
    ensures first { IfErr result (λ fault. IsFaultIn file.now (S.cipher sealer).overhead fault) }
{
    let Saved { overhead, parts } = read_state(alloc, file)?;
    if overhead as usize != sealer.overhead() {
        return Err(StateFault::Content);
    }
    Ok(Core::from_parts(alloc, sealer, parts)?)
}

/// Makes the core whose fields these are, with the table between those that
/// [`encode_around_table`](crate::encode_around_table) returns, under the sealer that it was saved with. A device may have any
/// leaf load.
///
/// Fails with `Content` if the fields have another overhead than the sealer, or parts that can't be a core's, and with
/// `OutOfMemory` if memory runs out.
pub fn decode_fields<S: Sealer>(
    alloc: Global,
    sealer: S,
    fields: &[u8],
) -> Result<Core<S>, StateFault>
    ensures sealer { IfOk result (λ c. c.sealer ≡ sealer) }
    ensures core { IfOk result (λ c. AreSavedFields fields.now (S.cipher sealer).overhead c.device c.state) }
    // It returns the core that was saved, unless memory runs out.
    ensures same { (d : Sizes) (s : State) → AreSavedFields fields.now (S.cipher sealer).overhead d s
        → IfOk result (λ c. (c.device ≡ d) × (c.state ≡ s)) }
    ensures only { (d : Sizes) (s : State) → AreSavedFields fields.now (S.cipher sealer).overhead d s
        → IfErr result (λ fault. fault ≡ StateFault.OutOfMemory) }
    ensures fault { IfErr result (λ fault. (fault ≡ StateFault.Content) ⊎ (fault ≡ StateFault.OutOfMemory)) }
{
    let Saved { overhead, parts } = read_bare_fields(alloc, fields)?;
    if overhead as usize != sealer.overhead() {
        return Err(StateFault::Content);
    }
    Ok(Core::from_parts(alloc, sealer, parts)?)
}
