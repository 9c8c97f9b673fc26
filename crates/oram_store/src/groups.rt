//! STOREs and PUTs that are committed together, in one batch of the redo log.
ghost use Rattle.std.specs.Prelude.{◌≡◌, ◌≤◌, ◌↔◌, All, IfOk, IsTrue, OnOk, length, map, false, true};
ghost use Rattle.std.specs.List.{list_any};
ghost use Rattle.oram_layout.specs.Trees.{Trees};
ghost use Rattle.oram_redo.specs.Batch.{patches_of};
ghost use Rattle.oram_store.specs.Groups.{AnswersInTurn, FitsTree, HoldGroupCells, HoldsCellsOf, IsOfTrees, change_patches, group_patches, is_store, message_of};
ghost use Rattle.oram_store.specs.KeptRecords.{Changes, IsSoundFile, LeavesRecords};
ghost use Rattle.oram_store.specs.RecordFile.{Calls, Commits};
ghost use Rattle.oram_wire.specs.declared.host_messages.HostAnswer.{HostAnswer};

use crate::batches::{cell_of, cells_of, node_batch, path_batch};
use crate::cells::{write_if_missing, write_missing};
use crate::faults::StoreFault;
use crate::record_file::RecordFile;
use oram_layout::Tree;
use oram_redo::{FilePair, Patch};
use std::alloc::{AllocError, Global};

/// The most messages of a group. The longest ones, of a mebibyte each, still fit in an empty log together.
pub(crate) const MOST_TOGETHER: usize = 32;

/// A STORE of a path from one level on, with its tree.
#[derive(Clone, Copy)]
pub(crate) struct PathStore<'a> {
    /// The number of the tree.
    pub(crate) number: u8,
    pub(crate) tree: Tree,
    /// The first level that is replaced; 0 for a whole path.
    pub(crate) first: u8,
    pub(crate) leaf: u32,
    /// The records of the path from that level on, the one nearest to the root first.
    pub(crate) records: &'a [u8],
}

/// A PUT, with its tree.
#[derive(Clone, Copy)]
pub(crate) struct NodePut<'a> {
    /// The number of the tree.
    pub(crate) number: u8,
    pub(crate) tree: Tree,
    pub(crate) node: u32,
    /// The record of the node.
    pub(crate) bytes: &'a [u8],
}

/// A message that changes records.
#[derive(Clone, Copy)]
pub(crate) enum Change<'a> {
    /// A STORE of a whole path.
    Store(PathStore<'a>),
    /// A STORE of levels.
    StoreLevels(PathStore<'a>),
    Put(NodePut<'a>),
}

fn is_store(change: &Change<'_>) -> bool
    ensures { result ≡ is_store (message_of change.now) }
{
    match change {
        Change::Store(_) | Change::StoreLevels(_) => true,
        Change::Put(_) => false,
    }
}

/// Returns whether one of these messages is a STORE.
fn has_store(changes: &[Change<'_>]) -> bool
    ensures { result ≡ list_any is_store (map message_of changes.now) }
{
    for change in changes {
        if is_store(change) {
            return true;
        }
    }
    false
}

/// Returns whether messages are carried out together: there are at least two, with a STORE among them. PUTs alone aren't, because those
/// of a formatting become durable thousands at a time.
pub(crate) fn go_together(changes: &[Change<'_>]) -> bool
    ensures { IsTrue result ↔ ((2 ≤ length changes.now) × (list_any is_store (map message_of changes.now) ≡ true)) }
{
    changes.len() >= 2 && has_store(changes)
}

/// Returns the cells of a message: its records, each after the byte that says that it is there.
fn change_cells(alloc: Global, change: &Change<'_>) -> Result<Vec<u8>, AllocError>
    requires { FitsTree change.now }
    ensures { IfOk result (λ cells. HoldsCellsOf cells.items change.now) }
{
    match change {
        Change::Store(store) | Change::StoreLevels(store) => {
            cells_of(alloc, &store.tree, store.first, store.records)
        }
        Change::Put(put) => cell_of(alloc, put.bytes),
    }
}

/// Returns the cells of each message of a group.
fn group_cells(alloc: Global, changes: &[Change<'_>]) -> Result<Vec<Vec<u8>>, AllocError>
    requires { All FitsTree changes.now }
    ensures { IfOk result (λ cells. HoldGroupCells cells.items changes.now) }
{
    let mut cells = Vec::with_capacity(alloc, changes.len())?;
    for change in changes {
        cells.push(change_cells(alloc, change)?)?;
    }
    Ok(cells)
}

/// Returns the batch of a message.
fn change_batch<'a>(
    alloc: Global,
    change: &Change<'_>,
    cells: &'a [u8],
) -> Result<Vec<Patch<'a>>, AllocError>
    requires fits { FitsTree change.now }
    requires cells { HoldsCellsOf cells.now change.now }
    ensures { IfOk result (λ batch. patches_of batch.items ≡ change_patches change.now) }
{
    match change {
        Change::Store(store) | Change::StoreLevels(store) => {
            path_batch(alloc, &store.tree, store.leaf, store.first, cells)
        }
        Change::Put(put) => node_batch(alloc, &put.tree, put.node, cells),
    }
}

/// Returns the batch of a group: the patches of each message, in their order.
fn group_batch<'a>(
    alloc: Global,
    changes: &[Change<'_>],
    cells: &'a [Vec<u8>],
) -> Result<Vec<Patch<'a>>, AllocError>
    requires fits { All FitsTree changes.now }
    requires cells { HoldGroupCells cells.now changes.now }
    ensures { IfOk result (λ batch. patches_of batch.items ≡ group_patches changes.now) }
{
    let mut batch = Vec::new(alloc);
    for (index, change) in changes.iter().enumerate() {
        let mut patches = change_batch(alloc, change, &cells[index])?;
        batch.append(&mut patches)?;
    }
    Ok(batch)
}

/// Commits the records of a group.
fn commit_group<F: FilePair>(
    alloc: Global,
    file: &mut RecordFile<F>,
    changes: &[Change<'_>],
) -> Result<(), StoreFault>
    requires fits { All FitsTree changes.now }
    requires few { length changes.now ≤ 32 }
    ensures commits { Commits F.model (group_patches changes.now) result file.old file.new }
    ensures calls { Calls F.model result file.old file.new }
    ensures running { OnOk result (file.new.has_stopped ≡ false) }
{
    let cells = group_cells(alloc, changes)?;
    let batch = group_batch(alloc, changes, &cells)?;
    file.commit(alloc, &batch)
}

/// Writes those records of a message whose nodes have none yet, but doesn't set the bytes that will say that they are there.
fn write_missing_of_change<F: FilePair>(
    alloc: Global,
    file: &mut RecordFile<F>,
    change: &Change<'_>,
) -> Result<(), StoreFault>
    requires { FitsTree change.now }
    ensures kept { (trees : Trees) → IsOfTrees trees change.now → IsSoundFile F.model trees file.old → F.model.is_honest file.new.files
        → LeavesRecords F.model trees file.old file.new }
    ensures calls { Calls F.model result file.old file.new }
{
    match change {
        Change::Store(store) | Change::StoreLevels(store) => {
            let tree = &store.tree;
            write_missing(alloc, file, tree, store.leaf, store.first, store.records)
        }
        Change::Put(put) => write_if_missing(alloc, file, &put.tree, put.node, put.bytes),
    }
}

/// Writes those records of a group whose nodes have none yet, in the same way.
fn write_missing_of_group<F: FilePair>(
    alloc: Global,
    file: &mut RecordFile<F>,
    changes: &[Change<'_>],
) -> Result<(), StoreFault>
    requires { All FitsTree changes.now }
    ensures kept { (trees : Trees) → All (IsOfTrees trees) changes.now → IsSoundFile F.model trees file.old → F.model.is_honest file.new.files
        → LeavesRecords F.model trees file.old file.new }
    ensures calls { Calls F.model result file.old file.new }
{
    for change in changes {
        write_missing_of_change(alloc, file, change)?;
    }
    Ok(())
}

/// Replaces the records that the messages of a group have: all of them, or none.
pub(crate) fn change_group<F: FilePair>(
    alloc: Global,
    file: &mut RecordFile<F>,
    changes: &[Change<'_>],
) -> Result<(), StoreFault>
    requires fits { All FitsTree changes.now }
    requires few { length changes.now ≤ 32 }
    ensures changes { (trees : Trees) → All (IsOfTrees trees) changes.now → IsSoundFile F.model trees file.old → F.model.is_honest file.new.files
        → Changes F.model trees (λ old new. AnswersInTurn trees old (map message_of changes.now) HostAnswer.Done new) result file.old file.new }
    ensures calls { Calls F.model result file.old file.new }
    ensures running { OnOk result (file.new.has_stopped ≡ false) }
{
    write_missing_of_group(alloc, file, changes)?;
    commit_group(alloc, file, changes)
}
