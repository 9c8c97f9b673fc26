//! Writes an image.

ghost use Rattle.std.specs.Prelude.{◌≡◌, ◌++◌, length, IfErr, OnOk};
ghost use Rattle.std.specs.List.{flat_map};
ghost use Rattle.std.specs.Io.KnownBytes.{Appends};
ghost use Rattle.oram_host.specs.Image.{image, record_text, tree_text};
ghost use Rattle.oram_host.specs.Transfers.{Begins};
ghost use Rattle.oram_host.specs.Trees.{AreTrees, IsTree, host_of, kept_by, records_in};

use super::{ImageFault, MAGIC, VERSION};
use crate::trees::Tree;
use byteorder::{BigEndian, ByteOrder};
use oram_bytes::Bytes;
use oram_wire::WriteFault;
use std::collections::BTreeMap;
use std::io::Write;

/// Writes the bytes. If the writer fails, it has taken a beginning of them.
fn write<W: Write>(writer: &mut W, bytes: &[u8]) -> Result<(), ImageFault>
    ensures ok { OnOk result (Appends (W.contents writer.old) (W.contents writer.new) bytes.now) }
    ensures begun { Begins (W.contents writer.old) (W.contents writer.new) bytes.now }
    ensures fault { IfErr result (λ f. f ≡ ImageFault.Io) }
{
    match oram_wire::write(writer, bytes) {
        Ok(()) => Ok(()),
        Err(WriteFault) => Err(ImageFault::Io),
    }
}

fn save_record<W: Write>(writer: &mut W, node: u32, bytes: &[u8]) -> Result<(), ImageFault>
    ensures ok { OnOk result (Appends (W.contents writer.old) (W.contents writer.new) (record_text
        (node, bytes.now))) }
    ensures begun { Begins (W.contents writer.old) (W.contents writer.new) (record_text
        (node, bytes.now)) }
    ensures fault { IfErr result (λ f. f ≡ ImageFault.Io) }
{
    let mut head = [0; 4];
    BigEndian::write_u32(&mut head, node);
    write(writer, &head)?;
    write(writer, bytes)
}

fn save_records<W: Write>(writer: &mut W, records: &BTreeMap<u32, Bytes>) -> Result<(), ImageFault>
    ensures ok { OnOk result (Appends (W.contents writer.old) (W.contents writer.new)
        (flat_map record_text (records_in records.now))) }
    ensures begun { Begins (W.contents writer.old) (W.contents writer.new)
        (flat_map record_text (records_in records.now)) }
    ensures fault { IfErr result (λ f. f ≡ ImageFault.Io) }
{
    for (node, bytes) in records.iter() {
        if !bytes.is_empty() {
            save_record(writer, *node, bytes.as_slice())?;
        }
    }
    Ok(())
}

fn save_tree<W: Write>(writer: &mut W, number: u8, tree: &Tree) -> Result<(), ImageFault>
    requires { IsTree tree.now }
    ensures ok { OnOk result (Appends (W.contents writer.old) (W.contents writer.new) (tree_text
        (number, kept_by tree.now))) }
    ensures begun { Begins (W.contents writer.old) (W.contents writer.new) (tree_text
        (number, kept_by tree.now)) }
    ensures fault { IfErr result (λ f. f ≡ ImageFault.Io) }
{
    let mut head = [number, tree.depth, 0, 0, 0, 0, 0, 0, 0, 0];
    BigEndian::write_u32(&mut head[2..], tree.record_len);
    BigEndian::write_u32(&mut head[6..], tree.count());
    write(writer, &head)?;
    save_records(writer, &tree.records)
}

/// Writes the image of the trees.
pub(crate) fn save_trees<W: Write>(
    writer: &mut W,
    trees: &BTreeMap<u8, Tree>,
) -> Result<(), ImageFault>
    requires { AreTrees trees.now }
    ensures ok { OnOk result (Appends (W.contents writer.old) (W.contents writer.new) (image
        (host_of trees.now))) }
    ensures begun { Begins (W.contents writer.old) (W.contents writer.new) (image
        (host_of trees.now)) }
    ensures fault { IfErr result (λ f. f ≡ ImageFault.Io) }
{
    let mut head = [0; 8];
    BigEndian::write_u32(&mut head, VERSION);
    BigEndian::write_u32(&mut head[4..], trees.len() as u32);
    write(writer, &MAGIC)?;
    write(writer, &head)?;
    for (number, tree) in trees.iter() {
        save_tree(writer, *number, tree)?;
    }
    Ok(())
}
