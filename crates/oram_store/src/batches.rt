//! The batches that requests commit.
ghost use Rattle.std.specs.Prelude.{◌≡◌, ◌+◌, ◌*◌, ◌^◌, ◌<◌, ◌≤◌, ◌∷◌, [], length, IfOk};
ghost use Rattle.oram_layout.specs.Changes.{level_patches, marks, record_patch};
ghost use Rattle.oram_layout.specs.Limits.{levels_from, nodes_of};
ghost use Rattle.oram_layout.specs.Trees.{sizes_of};
ghost use Rattle.oram_redo.specs.Batch.{patches_of};
ghost use Rattle.oram_store.specs.Batches.{HoldsCells};

use crate::cells::THERE;
use oram_layout::Tree;
use oram_redo::Patch;
use std::alloc::{AllocError, Global};

/// Returns a record after the byte that says that it is there.
pub(crate) fn cell_of(alloc: Global, bytes: &[u8]) -> Result<Vec<u8>, AllocError>
    ensures { IfOk result (λ cell. cell.items ≡ 1 ∷ bytes.now) }
{
    let mut cell = Vec::with_capacity(alloc, bytes.len() + 1)?;
    cell.push(THERE)?;
    cell.extend_from_slice(bytes)?;
    Ok(cell)
}

/// Returns the records of a path from level `first` on, each after the byte that says that it is there.
pub(crate) fn cells_of(
    alloc: Global,
    tree: &Tree,
    first: u8,
    records: &[u8],
) -> Result<Vec<u8>, AllocError>
    requires first { first ≤ tree.now.shape.depth }
    requires whole { length records.now ≡ levels_from (sizes_of tree.now.shape) first * tree.now.shape.record_len }
    ensures len { IfOk result (λ cells. length cells.items ≡ levels_from (sizes_of tree.now.shape) first * (tree.now.shape.record_len + 1)) }
    ensures cells { IfOk result (λ cells. HoldsCells cells.items tree.now.shape.record_len records.now (levels_from (sizes_of tree.now.shape) first)) }
{
    let len = tree.shape.record_len as usize;
    let levels = usize::from(tree.shape.levels_from(first));
    let mut cells = Vec::with_capacity(alloc, levels * (len + 1))?;
    for level in 0..levels {
        cells.push(THERE)?;
        cells.extend_from_slice(&records[level * len..(level + 1) * len])?;
    }
    Ok(cells)
}

/// Returns the batch of a STORE that begins at level `first`, with one patch for each level from there on.
pub(crate) fn path_batch<'a>(
    alloc: Global,
    tree: &Tree,
    leaf: u32,
    first: u8,
    cells: &'a [u8],
) -> Result<Vec<Patch<'a>>, AllocError>
    requires leaf { leaf < 2 ^ tree.now.shape.depth }
    requires first { first ≤ tree.now.shape.depth }
    requires whole { length cells.now ≡ levels_from (sizes_of tree.now.shape) first * (tree.now.shape.record_len + 1) }
    ensures { IfOk result (λ batch. (records : _) → HoldsCells cells.now tree.now.shape.record_len records (levels_from (sizes_of tree.now.shape) first)
        → patches_of batch.items ≡ level_patches tree.now leaf first records 0 (levels_from (sizes_of tree.now.shape) first)) }
{
    let width = tree.shape.record_len as usize + 1;
    let mut batch = Vec::new(alloc);
    for index in 0..tree.shape.levels_from(first) {
        let start = index as usize * width;
        batch.push(Patch {
            at: tree.cell_at(tree.shape.node_at(leaf, first + index)),
            bytes: &cells[start..start + width],
        })?;
    }
    Ok(batch)
}

/// Returns the batch of a PUT, with the patch of its node.
pub(crate) fn node_batch<'a>(
    alloc: Global,
    tree: &Tree,
    node: u32,
    cell: &'a [u8],
) -> Result<Vec<Patch<'a>>, AllocError>
    requires { node < nodes_of (sizes_of tree.now.shape) }
    ensures { IfOk result (λ batch. (bytes : _) → cell.now ≡ 1 ∷ bytes → patches_of batch.items ≡ record_patch tree.now node bytes ∷ []) }
{
    let mut batch = Vec::with_capacity(alloc, 1)?;
    batch.push(Patch {
        at: tree.cell_at(node),
        bytes: cell,
    })?;
    Ok(batch)
}

/// Returns the batch that says that the records of these cells are there.
pub(crate) fn marks_of(alloc: Global, cells: &[u64]) -> Result<Vec<Patch<'static>>, AllocError>
    ensures { IfOk result (λ batch. patches_of batch.items ≡ marks cells.now) }
{
    let mut batch = Vec::with_capacity(alloc, cells.len())?;
    for cell in cells {
        batch.push(Patch {
            at: *cell,
            bytes: &[THERE],
        })?;
    }
    Ok(batch)
}
