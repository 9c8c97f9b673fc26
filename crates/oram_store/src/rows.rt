//! Reads the records of nodes in a row.
//!
//! The cells of a tree lie side by side, so one read of the file gives those of all the nodes.
ghost use Rattle.std.specs.Prelude.{◌≡◌, ◌+◌, ◌*◌, ◌<◌, ◌≤◌, ◌++◌, ℕ, List, false, length, IfOk, OnOk};
ghost use Rattle.oram_host.specs.Path.{FitsAnswer};
ghost use Rattle.oram_layout.specs.Limits.{nodes_of};
ghost use Rattle.oram_layout.specs.Trees.{sizes_of};
ghost use Rattle.oram_records.specs.Messages.{row_text, rows_text};
ghost use Rattle.oram_redo.specs.declared.file_pair.FileKind.TheVariants.{Records};
ghost use Rattle.oram_store.specs.Batches.{records_of_tree};
ghost use Rattle.oram_store.specs.RecordFile.{Calls, ReadsOnly};
ghost use Rattle.oram_store.specs.Rows.{row_in, rows_in, rows_of};
ghost use Rattle.oram_wire.specs.HostMessages.{payload_answer};

use crate::cells::THERE;
use crate::faults::StoreFault;
use crate::record_file::RecordFile;
use oram_layout::Tree;
use oram_redo::FilePair;
use oram_wire::GOOD;
use std::alloc::{AllocError, Global};

/// The row of a node that has no record.
const MISSING: u8 = 0;

/// Appends the row of a node to `rows`. A record's row is the beginning of its cell.
fn push_row(cell: &[u8], record_len: usize, rows: &mut Vec<u8>) -> Result<(), AllocError>
    requires { record_len < length cell.now }
    ensures { OnOk result (rows.new.items ≡ rows.old.items ++ row_text (row_in record_len cell.now)) }
{
    if cell[0] == THERE {
        rows.extend_from_slice(&cell[..record_len + 1])?;
    } else {
        rows.push(MISSING)?;
    }
    Ok(())
}

/// Appends the rows of nodes to `rows`. `cells` has their cells, of `width` bytes each.
fn push_rows(
    cells: &[u8],
    width: usize,
    record_len: usize,
    rows: &mut Vec<u8>,
) -> Result<(), AllocError>
    requires wide { record_len < width }
    ensures { OnOk result ((n : _) → length cells.now ≡ n * width → rows.new.items ≡ rows.old.items ++ rows_text (rows_in record_len width n cells.now)) }
{
    for cell in cells.chunks_exact(width) {
        push_row(cell, record_len, rows)?;
    }
    Ok(())
}

/// Returns the byte of a good answer, and then the rows of `count` nodes from `first` on.
pub(crate) fn read_rows<F: FilePair>(
    alloc: Global,
    file: &mut RecordFile<F>,
    tree: &Tree,
    first: u32,
    count: u32,
) -> Result<Vec<u8>, StoreFault>
    requires some { 0 < count }
    requires within { first + count ≤ nodes_of (sizes_of tree.now.shape) }
    requires few { 1 + count * (tree.now.shape.record_len + 1) ≤ 1048576 }
    ensures fits { IfOk result (λ v. (rows : List ℕ) × (v.items ≡ payload_answer rows) × FitsAnswer rows) }
    ensures rows { IfOk result (λ v. F.model.is_honest file.new.files
        → v.items ≡ payload_answer (rows_text (rows_of (records_of_tree tree.now (F.model.seen file.old.files Records)) 0 first count))) }
    ensures reads { ReadsOnly F.model file.old file.new }
    ensures calls { Calls F.model result file.old file.new }
    ensures running { OnOk result (file.new.has_stopped ≡ false) }
{
    let (width, len) = (tree.cell_len(), tree.shape.record_len as usize);
    let cells = file.read(alloc, tree.cell_at(first), count as usize * width)?;
    let mut answer = Vec::with_capacity(alloc, 1 + count as usize * (len + 1))?;
    answer.push(GOOD)?;
    push_rows(&cells, width, len, &mut answer)?;
    Ok(answer)
}
