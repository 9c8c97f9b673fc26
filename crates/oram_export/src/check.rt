//! All trees of a disk.
ghost use Rattle.std.specs.Prelude.{◌≡◌, ◌≢◌, ◌<◌, ◌≤◌, ◌++◌, ◌∷◌, [], Err, IfOk, None, OnErr, OnOk, length, map};
ghost use Rattle.oram_geometry.specs.Sizes.{trees_of};
ghost use Rattle.oram_tree.specs.Parts.{parts_of};
ghost use Rattle.oram_core.specs.Core.{scheme_of};
ghost use Rattle.oram_core.specs.Parts.{pending_of};
ghost use Rattle.oram_export.specs.Export.{to_read, tree_in};
ghost use Rattle.oram_export.specs.Reading.{AreRead, HasAskedTrees};
ghost use Rattle.oram_export.specs.declared.read_fault.ReadFault.TheVariants.{Failed};

use crate::findings::TreeFindings;
use crate::read_fault::ReadFault;
use crate::tree_reading::{ReadingWatch, TreeToRead, read_tree};
use crate::visitor::NoVisit;
use oram_bucket::Sealer;
use oram_core::{Core, Parts, Pending};
use oram_pipeline::PipelinedLink;
use oram_tree::TreeParts;
use std::alloc::{AllocError, Global};

/// What a reading needs of a core: the parts of its trees, from tree 0 on, and the commands that wait, the oldest first.
#[derive(Debug, Drop)]
pub(crate) struct LiveParts {
    pub(crate) trees: Vec<TreeParts>,
    pub(crate) waiting: Vec<Pending>,
}

/// Returns these parts of a core, unless it has failed.
pub(crate) fn live_parts<S: Sealer>(alloc: Global, core: &Core<S>) -> Result<LiveParts, ReadFault>
    ensures trees { IfOk result (λ parts. parts.trees.items ≡ map parts_of core.now.state.trees) }
    ensures waiting { IfOk result (λ parts. parts.waiting.items ≡ map pending_of core.now.state.queue) }
    ensures count { IfOk result (λ parts. length parts.trees.items ≡ trees_of core.now.device) }
    ensures failed { core.now.state.failure ≢ None → result ≡ Err Failed }
    ensures alive { OnOk result (core.now.state.failure ≡ None) }
{
    if core.failure().is_some() {
        return Err(ReadFault::Failed);
    }
    let Parts { trees, waiting, .. } = core.parts(alloc)?;
    Ok(LiveParts { trees, waiting })
}

/// Returns what is to be read of a core's tree with these parts.
pub(crate) fn tree_to_read<S: Sealer>(core: &Core<S>, tree: u8, parts: &TreeParts) -> TreeToRead
    requires tree { tree < trees_of core.now.device }
    requires parts { parts.now ≡ parts_of (tree_in core.now.state tree) }
    ensures read { result ≡ to_read (scheme_of S.cipher core.now) core.now.state tree }
    ensures fits { (result.depth ≤ 24) × (64 < result.record_len) × (result.record_len < 1048575) }
{
    let device = core.device();
    TreeToRead {
        tree,
        depth: device.depth(tree),
        record_len: device.record_len(core.overhead()),
        root: parts.root,
    }
}

/// Reads the records of all trees of a core's disk, from tree 0 on, checks them, and returns what it found in each tree. The host has to
/// have carried out what the core has sent ([`send_stores`]). Commands may wait in the core.
///
/// Fails with `Failed` if the core has failed; it asks the host for nothing then.
pub fn check_disk<S: Sealer, B: PipelinedLink, W: ReadingWatch>(
    alloc: Global,
    core: &Core<S>,
    link: &mut B,
    watch: &mut W,
) -> Result<Vec<TreeFindings>, ReadFault>
    ensures count { IfOk result (λ found. length found.items ≡ trees_of core.now.device) }
    ensures read { IfOk result (λ found. AreRead B.batches (to_read (scheme_of S.cipher core.now) core.now.state) 0 link.old found.items link.new) }
    ensures asked { OnErr result (HasAskedTrees B.batches B.asks (to_read (scheme_of S.cipher core.now) core.now.state) link.old link.new) }
    ensures failed { core.now.state.failure ≢ None → (result ≡ Err Failed) × (link.new ≡ link.old) }
{
    let parts = live_parts(alloc, core)?;
    let mut found = Vec::new(alloc);
    for tree in 0..core.device().trees() {
        let to_read = tree_to_read(core, tree, &parts.trees[tree as usize]);
        let findings = read_tree(alloc, link, &to_read, &NoVisit, &mut (), watch)?;
        push(&mut found, findings)?;
    }
    Ok(found)
}

/// Adds the findings of a tree to a list.
fn push(found: &mut Vec<TreeFindings>, findings: TreeFindings) -> Result<(), AllocError>
    ensures { OnOk result (found.new.items ≡ found.old.items ++ findings ∷ []) }
{
    match found.push(findings) {
        Ok(()) => Ok(()),
        Err(error) => Err(AllocError::from(error)),
    }
}
