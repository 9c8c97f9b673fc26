//! Reads and writes the cells of trees, by node.
ghost use Rattle.std.specs.Prelude.{◌≡◌, ◌+◌, ◌*◌, ◌^◌, ◌<◌, ◌≤◌, ◌↔◌, ℕ, List, Some, None, true, false, IsTrue, length, IfOk, IfSome, MatchOption, OnOk};
ghost use Rattle.oram_host.specs.Path.{FitsAnswer, IsBehind};
ghost use Rattle.oram_layout.specs.Limits.{levels_from, nodes_of};
ghost use Rattle.oram_layout.specs.Records.{IsPathOf, LacksOn, record_in};
ghost use Rattle.oram_layout.specs.Trees.{Trees, cell_at, sizes_of, tree_at};
ghost use Rattle.oram_redo.specs.declared.file_pair.FileKind.TheVariants.{Records};
ghost use Rattle.oram_store.specs.Batches.{LevelsOnto, RecordOnto, records_of_tree};
ghost use Rattle.oram_store.specs.KeptRecords.{IsSoundFile, LeavesRecords};
ghost use Rattle.oram_store.specs.LevelsAnswers.{GivesLevels};
ghost use Rattle.oram_store.specs.RecordFile.{Calls, ReadsOnly};
ghost use Rattle.oram_wire.specs.HostMessages.{payload_answer};

use crate::faults::StoreFault;
use crate::record_file::RecordFile;
use oram_layout::Tree;
use oram_redo::FilePair;
use oram_wire::GOOD;
use std::alloc::Global;

/// The byte that says that a cell has a record.
pub(crate) const THERE: u8 = 1;

/// Returns whether a node has a record.
pub(crate) fn has_record<F: FilePair>(
    alloc: Global,
    file: &mut RecordFile<F>,
    tree: &Tree,
    node: u32,
) -> Result<bool, StoreFault>
    requires { node < nodes_of (sizes_of tree.now.shape) }
    ensures found { IfOk result (λ found. F.model.is_honest file.new.files → IsTrue found ↔ (F.model.seen file.old.files Records (cell_at tree.now node) ≡ 1)) }
    ensures reads { ReadsOnly F.model file.old file.new }
    ensures calls { Calls F.model result file.old file.new }
    ensures running { OnOk result (file.new.has_stopped ≡ false) }
{
    let first = file.read(alloc, tree.cell_at(node), 1)?;
    Ok(first[0] == THERE)
}

/// Reads the record of a node, and appends it to `bytes`, which isn't empty. Returns whether the node has one; if not, the bytes that
/// were appended have no meaning.
///
/// The cell is read at once. Its mark, which comes first, is read to the place of the last byte of `bytes`, which is put back then: so
/// the record needn't be moved.
fn read_record<F: FilePair>(
    file: &mut RecordFile<F>,
    tree: &Tree,
    node: u32,
    bytes: &mut Vec<u8>,
) -> Result<bool, StoreFault>
    requires node { node < nodes_of (sizes_of tree.now.shape) }
    requires begun { 0 < length bytes.old.items }
    ensures found { IfOk result (λ found. RecordOnto ((found ≡ true) × F.model.is_honest file.new.files) tree.now node (F.model.seen file.old.files Records)
        bytes.old.items bytes.new.items) }
    ensures missing { IfOk result (λ found. found ≡ false → F.model.is_honest file.new.files → record_in (Some tree.now) node (F.model.seen file.old.files Records) ≡ None) }
    ensures reads { ReadsOnly F.model file.old file.new }
    ensures calls { Calls F.model result file.old file.new }
    ensures running { OnOk result (file.new.has_stopped ≡ false) }
{
    let start = bytes.len() - 1;
    let last = bytes[start];
    bytes.truncate(start);
    let len = tree.shape.record_len as usize;
    file.read_onto(tree.cell_at(node), len + 1, bytes)?;
    let mark = bytes[start];
    bytes[start] = last;
    Ok(mark == THERE)
}

/// Reads the records of a path from level `first` to level `last`, up to the first level whose node has none, and appends them to
/// `bytes`, which isn't empty. Returns how many they are.
pub(crate) fn read_levels<F: FilePair>(
    file: &mut RecordFile<F>,
    tree: &Tree,
    leaf: u32,
    first: u8,
    last: u8,
    bytes: &mut Vec<u8>,
) -> Result<u8, StoreFault>
    requires leaf { leaf < 2 ^ tree.now.shape.depth }
    requires first { first ≤ last }
    requires last { last ≤ tree.now.shape.depth }
    requires begun { 0 < length bytes.old.items }
    ensures levels { IfOk result (λ count. LevelsOnto (F.model.is_honest file.new.files) tree.now leaf first last count (F.model.seen file.old.files Records)
        bytes.old.items bytes.new.items) }
    ensures reads { ReadsOnly F.model file.old file.new }
    ensures calls { Calls F.model result file.old file.new }
    ensures running { OnOk result (file.new.has_stopped ≡ false) }
{
    let levels = last + 1 - first;
    for count in 0..levels {
        let node = tree.shape.node_at(leaf, first + count);
        let read = bytes.len();
        if !read_record(file, tree, node, bytes)? {
            bytes.truncate(read);
            return Ok(count);
        }
    }
    Ok(levels)
}

/// Returns the byte of a good answer, and then the payload of an answer to a FETCH of levels.
pub(crate) fn read_levels_answer<F: FilePair>(
    alloc: Global,
    file: &mut RecordFile<F>,
    tree: &Tree,
    leaf: u32,
    first: u8,
    last: u8,
) -> Result<Vec<u8>, StoreFault>
    requires leaf { leaf < 2 ^ tree.now.shape.depth }
    requires first { first ≤ last }
    requires last { last ≤ tree.now.shape.depth }
    ensures fits { IfOk result (λ v. (payload : List ℕ) × (v.items ≡ payload_answer payload) × FitsAnswer payload) }
    ensures levels { IfOk result (λ v. F.model.is_honest file.new.files → (payload : List ℕ) × (v.items ≡ payload_answer payload)
        × GivesLevels (records_of_tree tree.now (F.model.seen file.old.files Records)) 0 (sizes_of tree.now.shape) leaf first last payload) }
    ensures reads { ReadsOnly F.model file.old file.new }
    ensures calls { Calls F.model result file.old file.new }
    ensures running { OnOk result (file.new.has_stopped ≡ false) }
{
    let levels = usize::from(last + 1 - first);
    let mut answer = Vec::with_capacity(alloc, 2 + levels * tree.shape.record_len as usize)?;
    answer.extend_from_slice(&[GOOD, 0])?;
    let count = read_levels(file, tree, leaf, first, last, &mut answer)?;
    answer[1] = count;
    Ok(answer)
}

/// Returns `front` and then the records of a path, root first, or `None` if one of them is missing.
pub(crate) fn read_path<F: FilePair>(
    alloc: Global,
    file: &mut RecordFile<F>,
    tree: &Tree,
    leaf: u32,
    front: &[u8],
) -> Result<Option<Vec<u8>>, StoreFault>
    requires leaf { leaf < 2 ^ tree.now.shape.depth }
    requires one { length front.now ≡ 1 }
    ensures fits { IfOk result (λ found. IfSome found (λ v. IsBehind front.now FitsAnswer v.items)) }
    ensures path { let records = records_of_tree tree.now (F.model.seen file.old.files Records) in
        IfOk result (λ found. F.model.is_honest file.new.files → MatchOption found
        (LacksOn records 0 (sizes_of tree.now.shape) leaf)
        (λ v. IsBehind front.now (IsPathOf records 0 (sizes_of tree.now.shape) leaf) v.items)) }
    ensures reads { ReadsOnly F.model file.old file.new }
    ensures calls { Calls F.model result file.old file.new }
    ensures running { OnOk result (file.new.has_stopped ≡ false) }
{
    let depth = tree.shape.depth;
    let mut bytes = Vec::with_capacity(alloc, front.len() + tree.shape.path_len())?;
    bytes.extend_from_slice(front)?;
    let count = read_levels(file, tree, leaf, 0, depth, &mut bytes)?;
    if count <= depth {
        return Ok(None);
    }
    Ok(Some(bytes))
}

/// If a node has no record, writes one into its cell, but doesn't set the byte that will say that it is there.
pub(crate) fn write_if_missing<F: FilePair>(
    alloc: Global,
    file: &mut RecordFile<F>,
    tree: &Tree,
    node: u32,
    bytes: &[u8],
) -> Result<(), StoreFault>
    requires node { node < nodes_of (sizes_of tree.now.shape) }
    requires whole { length bytes.now ≡ tree.now.shape.record_len }
    ensures kept { (trees : Trees) (number : ℕ) → tree_at trees number ≡ Some tree.now → IsSoundFile F.model trees file.old → F.model.is_honest file.new.files
        → LeavesRecords F.model trees file.old file.new }
    ensures calls { Calls F.model result file.old file.new }
    ensures running { OnOk result (file.new.has_stopped ≡ false) }
{
    if has_record(alloc, file, tree, node)? {
        return Ok(());
    }
    file.write_loose(tree.cell_at(node) + 1, bytes)
}

/// Writes the records of those nodes of a path, from level `first` on, that have none, in the same way. So a lack of room shows before
/// the log takes the path.
pub(crate) fn write_missing<F: FilePair>(
    alloc: Global,
    file: &mut RecordFile<F>,
    tree: &Tree,
    leaf: u32,
    first: u8,
    records: &[u8],
) -> Result<(), StoreFault>
    requires leaf { leaf < 2 ^ tree.now.shape.depth }
    requires first { first ≤ tree.now.shape.depth }
    requires whole { length records.now ≡ levels_from (sizes_of tree.now.shape) first * tree.now.shape.record_len }
    ensures kept { (trees : Trees) (number : ℕ) → tree_at trees number ≡ Some tree.now → IsSoundFile F.model trees file.old → F.model.is_honest file.new.files
        → LeavesRecords F.model trees file.old file.new }
    ensures calls { Calls F.model result file.old file.new }
{
    let len = tree.shape.record_len as usize;
    for index in 0..tree.shape.levels_from(first) {
        let node = tree.shape.node_at(leaf, first + index);
        let start = index as usize * len;
        write_if_missing(alloc, file, tree, node, &records[start..start + len])?;
    }
    Ok(())
}
