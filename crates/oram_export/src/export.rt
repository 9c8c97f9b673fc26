//! The blocks of a disk.
ghost use Rattle.std.specs.Prelude.{◌≡◌, ◌≢◌, Err, IfOk, None, OnErr};
ghost use Rattle.oram_core.specs.Core.{scheme_of};
ghost use Rattle.oram_export.specs.Export.{IsExport, to_read};
ghost use Rattle.oram_export.specs.Reading.{HasAsked};
ghost use Rattle.oram_export.specs.declared.read_fault.ReadFault.TheVariants.{Failed};

use crate::blocks::{BlockSink, BucketOpener, put_blocks};
use crate::check::{live_parts, tree_to_read};
use crate::findings::TreeFindings;
use crate::read_fault::ReadFault;
use crate::tree_reading::{ReadingWatch, read_tree};
use crate::waiting::put_waiting;
use oram_bucket::Sealer;
use oram_core::Core;
use oram_pipeline::PipelinedLink;
use std::alloc::Global;

/// Reads the records of a core's tree 0, checks them, and puts the blocks of those that are what was stored into the sink, then the blocks
/// that the client itself keeps in the tree's stash, and then what the commands write that wait in the core, in their order. The trees
/// of maps aren't read. Returns what was found in the tree. The host has to have carried out what the core has sent
/// ([`send_stores`](crate::send_stores)).
///
/// `sealer` opens what the core's sealer has sealed. Fails with `Failed` if the core has failed. After any other fault the sink has taken
/// some of the blocks.
pub fn export_disk<S: Sealer, B: PipelinedLink, K: BlockSink, W: ReadingWatch>(
    alloc: Global,
    core: &Core<S>,
    sealer: &S,
    link: &mut B,
    sink: &mut K,
    watch: &mut W,
) -> Result<TreeFindings, ReadFault>
    requires { S.cipher sealer.now ≡ S.cipher core.now.sealer }
    ensures ok { let v = scheme_of S.cipher core.now in
        IfOk result (λ findings. IsExport B.batches K.takes v core.now.state (link.old, sink.old) findings (link.new, sink.new)) }
    ensures failed { core.now.state.failure ≢ None → (result ≡ Err Failed) × (link.new ≡ link.old) × (sink.new ≡ sink.old) }
    ensures asked { let v = scheme_of S.cipher core.now in
        OnErr result (HasAsked B.batches B.asks (to_read v core.now.state 0) link.old link.new) }
{
    let parts = live_parts(alloc, core)?;
    let zeros = vec![in alloc; 0u8; core.device().block_bytes()]?;
    let to_read = tree_to_read(core, 0, &parts.trees[0]);
    let opener = BucketOpener {
        sealer,
        device: core.device(),
    };
    let findings = read_tree(alloc, link, &to_read, &opener, sink, watch)?;
    put_blocks(sink, &parts.trees[0].stash)?;
    put_waiting(sink, &parts.waiting, &zeros)?;
    Ok(findings)
}
