//! The fields of a core's file around its table, so that whoever keeps them need not copy the table.

ghost use Rattle.std.specs.Prelude.{◌≡◌, IfOk};
ghost use Rattle.oram_state.specs.AroundTable.{after_table, before_len, before_table};
ghost use Rattle.oram_state.specs.DecodedCore.{AreSavedFields};
ghost use Rattle.oram_state.specs.StateBytes.{with_table};

use crate::writer::{HEAD_LEN, REASON_LEN, write_after_table, write_before_table};
use oram_bucket::Sealer;
use oram_core::{Core, Reason};
use std::alloc::{AllocError, Global};

/// The number of bytes of an entry of a table.
const ENTRY_LEN: usize = 4;

/// The fields of a core, as its file in the second version has them between the length and the digest, without the table.
#[derive(Drop)]
pub struct AroundTable {
    /// The fields before the table.
    pub before: Vec<u8>,
    /// The fields after the table.
    pub after: Vec<u8>,
}

/// Returns the fields of a core around its table. With the table between them they are for a file that has a checksum of its own,
/// since nothing in them detects a changed byte. Fails only if memory runs out.
pub fn encode_around_table<S: Sealer>(
    alloc: Global,
    core: &Core<S>,
) -> Result<AroundTable, AllocError>
    // Fields belong to only one core, so reading them gives this core again.
    ensures saved { IfOk result (λ around. AreSavedFields (with_table around.before.items core.now.state.table around.after.items)
        (S.cipher core.now.sealer).overhead core.now.device core.now.state) }
    ensures before { IfOk result (λ around. around.before.items
        ≡ before_table (S.cipher core.now.sealer).overhead core.now.device core.now.state) }
    ensures after { IfOk result (λ around. around.after.items ≡ after_table core.now.device core.now.state) }
{
    let parts = core.parts_without_table(alloc)?;
    let before = write_before_table(alloc, core.overhead() as u32, &parts)?;
    let after = write_after_table(alloc, &parts)?;
    Ok(AroundTable { before, after })
}

/// Returns how many bytes the fields before the table have.
fn before_len(failure: Option<Reason>) -> usize
    ensures { result ≡ before_len failure }
{
    match failure {
        Some(_) => HEAD_LEN + REASON_LEN,
        None => HEAD_LEN,
    }
}

/// Returns the fields before the table and those after it, where `fields` are all fields of the core.
pub fn split_around_table<'a, S: Sealer>(fields: &'a [u8], core: &Core<S>) -> (&'a [u8], &'a [u8])
    requires { AreSavedFields fields.now (S.cipher core.now.sealer).overhead core.now.device core.now.state }
    ensures before { result.0.now ≡ before_table (S.cipher core.now.sealer).overhead core.now.device core.now.state }
    ensures after { result.1.now ≡ after_table core.now.device core.now.state }
{
    let (before, rest) = fields.split_at(before_len(core.failure()));
    let (_, after) = rest.split_at(ENTRY_LEN * core.table().len());
    (before, after)
}
