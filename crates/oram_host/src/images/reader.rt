//! Reads an image.

ghost use Rattle.std.specs.Prelude.{◌≤◌, IfErr, IfOk, OnOk};
ghost use Rattle.std.specs.Ordering.{nat_cmp};
ghost use Rattle.std.specs.BTreeMap.{IsOrdered};
ghost use Rattle.std.specs.List.{AllByRecursion};
ghost use Rattle.std.specs.Io.KnownBytes.{Consumes, IsAtEnd};
ghost use Rattle.oram_host.specs.Image.{entries_text, image, kept_text, record_text, tree_text};
ghost use Rattle.oram_host.specs.ImageReader.{IsFirstFault, host_in, next_entries, next_kept, next_record, next_tree};
ghost use Rattle.oram_host.specs.Host.{IsRecordOf};
ghost use Rattle.oram_host.specs.Transfers.{TakesFrom};
ghost use Rattle.oram_host.specs.Trees.{AreTrees, IsTree, host_of, kept_by};

use super::ImageFault;
use super::fields::{read_byte, read_bytes, read_end, read_letters, read_number, read_version};
use crate::trees::{Tree, is_shape, node_count};
use oram_bytes::Bytes;
use std::alloc::Global;
use std::collections::BTreeMap;
use std::io::Read;

/// The greatest number of trees that a host can have.
const MOST_TREES: u32 = 256;

/// Reads a node's number, which must be at least `least` and below `nodes`, and its record.
fn load_record<R: Read>(
    alloc: Global,
    reader: &mut R,
    least: u32,
    nodes: u32,
    record_len: u32,
) -> Result<(u32, Bytes), ImageFault>
    ensures ok { IfOk result (λ e. Consumes (R.remaining reader.old) (R.remaining reader.new)
        (record_text e)) }
    ensures rises { IfOk result (λ e. least ≤ e.0) }
    ensures record { IfOk result (λ e. IsRecordOf nodes record_len e) }
    ensures consumed { TakesFrom (R.remaining reader.old) (R.remaining reader.new) }
    ensures fault { IfErr result (λ why.
        IsFirstFault (next_record nodes record_len least) why (R.remaining reader.old)) }
{
    let node = read_number(reader)?;
    if node < least || node >= nodes {
        return Err(ImageFault::Content);
    }
    let mut bytes = vec![in alloc; 0; record_len as usize]?;
    read_bytes(reader, bytes.as_mut_slice())?;
    Ok((node, Bytes::from_vec(bytes)))
}

/// Reads the number of records of a tree with `nodes` nodes, and the records.
fn load_records<R: Read>(
    alloc: Global,
    reader: &mut R,
    nodes: u32,
    record_len: u32,
) -> Result<BTreeMap<u32, Bytes>, ImageFault>
    ensures ok { IfOk result (λ m. Consumes (R.remaining reader.old) (R.remaining reader.new)
        (entries_text record_text m.entries)) }
    ensures ordered { IfOk result (λ m. IsOrdered nat_cmp m) }
    ensures each { IfOk result (λ m. AllByRecursion (IsRecordOf nodes record_len) m.entries) }
    ensures consumed { TakesFrom (R.remaining reader.old) (R.remaining reader.new) }
    ensures fault { IfErr result (λ why. IsFirstFault
        (next_entries nodes (next_record nodes record_len)) why (R.remaining reader.old)) }
{
    let count = read_number(reader)?;
    if count > nodes {
        return Err(ImageFault::Content);
    }
    let mut records = BTreeMap::new(alloc);
    let mut least = 0;
    for _ in 0..count {
        let (node, bytes) = load_record(alloc, reader, least, nodes, record_len)?;
        records.insert(node, bytes)?;
        least = node + 1;
    }
    Ok(records)
}

/// Reads the shape of a tree and its records.
fn load_kept<R: Read>(alloc: Global, reader: &mut R) -> Result<Tree, ImageFault>
    ensures ok { IfOk result (λ tree. Consumes (R.remaining reader.old) (R.remaining reader.new)
        (kept_text (kept_by tree))) }
    ensures tree { IfOk result (λ tree. IsTree tree) }
    ensures consumed { TakesFrom (R.remaining reader.old) (R.remaining reader.new) }
    ensures fault { IfErr result (λ why. IsFirstFault next_kept why (R.remaining reader.old)) }
{
    let depth = read_byte(reader)?;
    let record_len = read_number(reader)?;
    if !is_shape(depth, record_len) {
        return Err(ImageFault::Content);
    }
    let records = load_records(alloc, reader, node_count(depth), record_len)?;
    Ok(Tree {
        depth,
        record_len,
        records,
    })
}

/// Reads the number of a tree, which must be at least `least`, and the tree.
fn load_tree<R: Read>(alloc: Global, reader: &mut R, least: u16) -> Result<(u8, Tree), ImageFault>
    ensures ok { IfOk result (λ e. Consumes (R.remaining reader.old) (R.remaining reader.new)
        (tree_text (e.0, kept_by e.1))) }
    ensures rises { IfOk result (λ e. least ≤ e.0) }
    ensures tree { IfOk result (λ e. IsTree e.1) }
    ensures consumed { TakesFrom (R.remaining reader.old) (R.remaining reader.new) }
    ensures fault { IfErr result (λ why.
        IsFirstFault (next_tree least) why (R.remaining reader.old)) }
{
    let number = read_byte(reader)?;
    if u16::from(number) < least {
        return Err(ImageFault::Content);
    }
    let tree = load_kept(alloc, reader)?;
    Ok((number, tree))
}

/// Reads the number of trees, and the trees.
fn load_each_tree<R: Read>(alloc: Global, reader: &mut R) -> Result<BTreeMap<u8, Tree>, ImageFault>
    ensures ok { IfOk result (λ m. Consumes (R.remaining reader.old) (R.remaining reader.new)
        (entries_text tree_text (host_of m))) }
    ensures trees { IfOk result (λ m. AreTrees m) }
    ensures consumed { TakesFrom (R.remaining reader.old) (R.remaining reader.new) }
    ensures fault { IfErr result (λ why. IsFirstFault (next_entries 256 next_tree) why
        (R.remaining reader.old)) }
{
    let count = read_number(reader)?;
    if count > MOST_TREES {
        return Err(ImageFault::Content);
    }
    let mut trees = BTreeMap::new(alloc);
    let mut least = 0;
    for _ in 0..count {
        let (number, tree) = load_tree(alloc, reader, least)?;
        trees.insert(number, tree)?;
        least = u16::from(number) + 1;
    }
    Ok(trees)
}

/// Reads the image of trees. The reader must hold nothing after it.
pub(crate) fn load_trees<R: Read>(
    alloc: Global,
    reader: &mut R,
) -> Result<BTreeMap<u8, Tree>, ImageFault>
    ensures ok { IfOk result (λ m. Consumes (R.remaining reader.old) (R.remaining reader.new)
        (image (host_of m))) }
    ensures end { OnOk result (IsAtEnd (R.remaining reader.new)) }
    ensures trees { IfOk result (λ m. AreTrees m) }
    ensures consumed { TakesFrom (R.remaining reader.old) (R.remaining reader.new) }
    ensures fault { IfErr result (λ why. IsFirstFault host_in why (R.remaining reader.old)) }
{
    read_letters(reader)?;
    read_version(reader)?;
    let trees = load_each_tree(alloc, reader)?;
    read_end(reader)?;
    Ok(trees)
}
