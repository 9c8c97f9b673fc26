//! What commands write that wait in a core, and the STOREs that wait beside it.
ghost use Rattle.std.specs.Prelude.{◌≡◌, ◌⊎◌, ◌↔◌, ℕ, List, [], Ok, IsOk, IsTrue, OnOk};
ghost use Rattle.std.specs.List.{FoldsTo, flat_map};
ghost use Rattle.oram_link_laws.specs.Runs.{Exchange};
ghost use Rattle.oram_rounds.specs.Batches.{BatchOutcome, texts};
ghost use Rattle.oram_rounds.specs.Rounds.{AreDone};
ghost use Rattle.oram_export.specs.Images.{writes_of};

use crate::blocks::{BlockSink, SinkStop};
use crate::read_fault::ReadFault;
use oram_core::{Command, Pending};
use oram_rounds::BatchLink;
use oram_wire::is_done;
use std::alloc::Global;

/// Puts what a command writes into a sink, if it writes. `zeros` is a block of zeros.
fn put_written<K: BlockSink>(sink: &mut K, command: &Command, zeros: &[u8]) -> Result<(), SinkStop>
    ensures { OnOk result (FoldsTo K.takes sink.old (writes_of zeros.now command.now) sink.new) }
{
    match command {
        Command::Read(_) => Ok(()),
        Command::Write(address, bytes) => sink.put(*address, bytes.as_slice()),
        Command::Discard(address) => sink.put(*address, zeros),
    }
}

/// Puts what commands write into a sink, in their order. `zeros` is a block of zeros.
pub(crate) fn put_waiting<K: BlockSink>(
    sink: &mut K,
    waiting: &[Pending],
    zeros: &[u8],
) -> Result<(), SinkStop>
    ensures { OnOk result (FoldsTo K.takes sink.old (flat_map (λ p. writes_of zeros.now p.command) waiting.now) sink.new) }
{
    for pending in waiting {
        put_written(sink, &pending.command, zeros)?;
    }
    Ok(())
}

/// Returns whether each answer says that the host has done what it was asked.
fn are_done(answers: &[Vec<u8>]) -> bool
    ensures { IsTrue result ↔ AreDone (texts answers.now) }
{
    for answer in answers {
        if !is_done(answer) {
            return false;
        }
    }
    true
}

/// Sends STOREs to the host that it may not have carried out yet, in their order, before a disk is read. Sends nothing if there are none.
/// Fails with `BadAnswer` if the host doesn't say of each that it is done.
pub fn send_stores<B: BatchLink>(
    alloc: Global,
    link: &mut B,
    stores: &[Vec<u8>],
) -> Result<(), ReadFault>
    ensures none { texts stores.now ≡ [] → IsOk result × (link.new ≡ link.old) }
    ensures sent { OnOk result ((link.new ≡ link.old) ⊎ ((answers : List (List ℕ)) × (exchanges : List Exchange)
        × B.batches link.old (texts stores.now) (Ok answers) exchanges link.new × AreDone answers)) }
{
    if stores.is_empty() {
        return Ok(());
    }
    let answers = link.call_all(alloc, stores, &[])?;
    if are_done(&answers) {
        Ok(())
    } else {
        Err(ReadFault::BadAnswer)
    }
}
