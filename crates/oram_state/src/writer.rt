//! Writes a file.

ghost use Rattle.std.specs.Prelude.{◌≡◌, ◌≤◌, ◌<◌, ◌^◌, ◌++◌, length, take, drop, All, IfOk, OnOk};
ghost use Rattle.std.specs.List.{flat_map};
ghost use Rattle.oram_state.specs.declared.frame.TheConstants.{LENGTH_END};
ghost use Rattle.oram_state.specs.StateBytes.{after_text, before_text, block_text, body, command_text, device_text, failure_text, fields_text, half, head_text, long, pending_text, reason_text, rest_text, short, state_file, tree_text, work_fields, work_of};
ghost use Rattle.oram_state.specs.WellSized.{CommandFits, FitsFields, HasCounts, IsLong};

use crate::frame::{FRAME_LEN, LENGTH_END, MAGIC, VERSION_END};
use crate::mode::Mode;
use crate::work::{DISCARD, READ, WRITE};
use oram_bucket::Block;
use oram_core::{Command, Parts, Pending, Reason};
use oram_geometry::Device;
use oram_hash::DIGEST_LEN;
use oram_tree::TreeParts;
use sha2::{Digest, Sha256};
use std::alloc::{AllocError, Global};

/// The version of the files that this crate writes.
pub(crate) const VERSION: u32 = 2;

/// The number of bytes of the fields that don't depend on the mode: a device, an overhead, a mode, tickets and a nonce.
pub(crate) const HEAD_LEN: usize = 24 + 4 + 1 + 8 + 8;

/// The number of bytes that say why a core failed.
pub(crate) const REASON_LEN: usize = 4;

/// Returns the file of a core with these parts, whose sealer has this overhead. Allocates once.
pub(crate) fn write_state(
    alloc: Global,
    overhead: u32,
    parts: &Parts,
) -> Result<Vec<u8>, AllocError>
    requires { HasCounts parts.now }
    ensures spelled { IfOk result (λ file. file.items ≡ state_file 2 overhead parts.now) }
    ensures fit { IfOk result (λ file. FitsFields parts.now) }
{
    let mut file = write_body(alloc, overhead, parts)?;
    let digest = Sha256::digest(file.as_slice());
    file.extend_from_slice(&digest)?;
    Ok(file)
}

/// Returns the fields before the table of a core with these parts, whose sealer has this overhead. Allocates once.
pub(crate) fn write_before_table(
    alloc: Global,
    overhead: u32,
    parts: &Parts,
) -> Result<Vec<u8>, AllocError>
    ensures spelled { IfOk result (λ fields. fields.items ≡ before_text overhead parts.now) }
    ensures fit { IfOk result (λ fields. IsLong parts.now.nonce) }
{
    let mut fields = Vec::with_capacity(alloc, HEAD_LEN + REASON_LEN)?;
    push_head(&mut fields, overhead, parts)?;
    push_failure(&mut fields, parts.failure)?;
    Ok(fields)
}

/// Returns the fields after the table of a core with these parts. Allocates once.
pub(crate) fn write_after_table(alloc: Global, parts: &Parts) -> Result<Vec<u8>, AllocError>
    requires { HasCounts parts.now }
    ensures spelled { IfOk result (λ fields. fields.items ≡ after_text parts.now) }
    ensures roots { IfOk result (λ fields. All (λ t. length t.root ≡ 32) parts.now.trees) }
    ensures waiting { IfOk result (λ fields. All CommandFits parts.now.waiting) }
{
    let mut fields = Vec::with_capacity(alloc, room_after_table(parts))?;
    push_after_table(&mut fields, parts)?;
    Ok(fields)
}

/// Writes all of the file except its digest. Fills in the length last, when it is known.
fn write_body(alloc: Global, overhead: u32, parts: &Parts) -> Result<Vec<u8>, AllocError>
    requires { HasCounts parts.now }
    ensures spelled { IfOk result (λ file. file.items ≡ body 2 (fields_text overhead parts.now)) }
    ensures fit { IfOk result (λ file. FitsFields parts.now) }
{
    let mut file = Vec::with_capacity(alloc, room(parts))?;
    file.extend_from_slice(&MAGIC)?;
    push_short(&mut file, VERSION)?;
    push_long(&mut file, 0)?;
    push_head(&mut file, overhead, parts)?;
    push_rest(&mut file, parts)?;
    let len = (file.len() + DIGEST_LEN) as u64;
    set_length(&mut file, len);
    Ok(file)
}

/// Overwrites the length of a file.
fn set_length(file: &mut [u8], len: u64)
    requires { LENGTH_END ≤ length file.old }
    ensures { file.new ≡ take 12 file.old ++ (long len ++ drop 20 file.old) }
{
    file[VERSION_END..LENGTH_END].copy_from_slice(&len.to_be_bytes());
}

/// Returns a number of bytes that is enough for the file of these parts.
fn room(parts: &Parts) -> usize {
    (FRAME_LEN + HEAD_LEN + REASON_LEN)
        .saturating_add(parts.table.len().saturating_mul(4))
        .saturating_add(room_after_table(parts))
}

/// Returns a number of bytes that is enough for the fields of these parts after the table.
fn room_after_table(parts: &Parts) -> usize {
    let block_bytes = parts.device.block_bytes();
    let mut room = 0usize;
    for tree in &parts.trees {
        let blocks = tree.stash.len().saturating_mul(8 + block_bytes);
        room = room.saturating_add(DIGEST_LEN + 4).saturating_add(blocks);
    }
    if parts.waiting.is_empty() {
        return room;
    }
    let pending_len = 9 + 16 * parts.device.trees() as usize + block_bytes;
    room.saturating_add(parts.waiting.len().saturating_mul(pending_len))
        .saturating_add(16 + block_bytes)
        .saturating_add(parts.message.len())
}

#[tactic(auto, unfolding(crate::specs::StateBytes::half))]
fn push_half(out: &mut Vec<u8>, number: u16) -> Result<(), AllocError>
    ensures { OnOk result (out.new.items ≡ out.old.items ++ half number) }
{
    out.extend_from_slice(&number.to_be_bytes())
}

#[tactic(auto, unfolding(crate::specs::StateBytes::short))]
fn push_short(out: &mut Vec<u8>, number: u32) -> Result<(), AllocError>
    ensures { OnOk result (out.new.items ≡ out.old.items ++ short number) }
{
    out.extend_from_slice(&number.to_be_bytes())
}

#[tactic(auto, unfolding(crate::specs::StateBytes::long))]
fn push_long(out: &mut Vec<u8>, number: u64) -> Result<(), AllocError>
    ensures { OnOk result (out.new.items ≡ out.old.items ++ long number) }
{
    out.extend_from_slice(&number.to_be_bytes())
}

fn push_device(out: &mut Vec<u8>, device: &Device) -> Result<(), AllocError>
    ensures { OnOk result (out.new.items ≡ out.old.items ++ device_text device.now) }
{
    prove!(0 < device.trees());
    push_short(out, device.blocks_in(0))?;
    push_short(out, device.block_bytes() as u32)?;
    push_half(out, (device.leaf_load() - 1) as u16)?;
    push_half(out, device.slots() as u16)?;
    push_short(out, device.top() as u32)?;
    push_long(out, device.lifetime())
}

fn push_head(out: &mut Vec<u8>, overhead: u32, parts: &Parts) -> Result<(), AllocError>
    ensures spelled { OnOk result (out.new.items ≡ out.old.items ++ head_text overhead parts.now) }
    ensures fit { OnOk result (IsLong parts.now.nonce) }
{
    push_device(out, &parts.device)?;
    push_short(out, overhead)?;
    out.push(Mode::of(parts).number())?;
    push_long(out, parts.tickets)?;
    push_long(out, parts.nonce)
}

fn push_rest(out: &mut Vec<u8>, parts: &Parts) -> Result<(), AllocError>
    requires { HasCounts parts.now }
    ensures spelled { OnOk result (out.new.items ≡ out.old.items ++ rest_text parts.now) }
    ensures roots { OnOk result (All (λ t. length t.root ≡ 32) parts.now.trees) }
    ensures waiting { OnOk result (All CommandFits parts.now.waiting) }
{
    push_failure(out, parts.failure)?;
    push_shorts(out, &parts.table)?;
    push_after_table(out, parts)
}

fn push_failure(out: &mut Vec<u8>, failure: Option<Reason>) -> Result<(), AllocError>
    ensures { OnOk result (out.new.items ≡ out.old.items ++ failure_text failure) }
{
    match failure {
        Some(why) => push_reason(out, why),
        None => Ok(()),
    }
}

fn push_after_table(out: &mut Vec<u8>, parts: &Parts) -> Result<(), AllocError>
    requires { HasCounts parts.now }
    ensures spelled { OnOk result (out.new.items ≡ out.old.items ++ after_text parts.now) }
    ensures roots { OnOk result (All (λ t. length t.root ≡ 32) parts.now.trees) }
    ensures waiting { OnOk result (All CommandFits parts.now.waiting) }
{
    push_trees(out, &parts.trees)?;
    if !parts.waiting.is_empty() {
        push_work(out, parts)?;
    }
    Ok(())
}

fn push_reason(out: &mut Vec<u8>, why: Reason) -> Result<(), AllocError>
    ensures { OnOk result (out.new.items ≡ out.old.items ++ reason_text why) }
{
    let bytes = match why {
        Reason::Malformed => [1, 0, 0, 0],
        Reason::Tampered(tree, level) => [2, tree, level, 0],
        Reason::HostRefused(code) => [3, 0, 0, code],
    };
    out.extend_from_slice(&bytes)
}

fn push_shorts(out: &mut Vec<u8>, numbers: &[u32]) -> Result<(), AllocError>
    ensures { OnOk result (out.new.items ≡ out.old.items ++ flat_map short numbers.now) }
{
    for number in numbers {
        push_short(out, *number)?;
    }
    Ok(())
}

fn push_longs(out: &mut Vec<u8>, numbers: &[u64]) -> Result<(), AllocError>
    ensures spelled { OnOk result (out.new.items ≡ out.old.items ++ flat_map long numbers.now) }
    ensures fit { OnOk result (All IsLong numbers.now) }
{
    for number in numbers {
        push_long(out, *number)?;
    }
    Ok(())
}

fn push_block(out: &mut Vec<u8>, block: &Block) -> Result<(), AllocError>
    ensures { OnOk result (out.new.items ≡ out.old.items ++ block_text block.now) }
{
    push_short(out, block.address)?;
    push_short(out, block.leaf)?;
    out.extend_from_slice(&block.content)
}

fn push_blocks(out: &mut Vec<u8>, blocks: &[Block]) -> Result<(), AllocError>
    ensures { OnOk result (out.new.items ≡ out.old.items ++ flat_map block_text blocks.now) }
{
    for block in blocks {
        push_block(out, block)?;
    }
    Ok(())
}

fn push_tree(out: &mut Vec<u8>, tree: &TreeParts) -> Result<(), AllocError>
    requires { length tree.now.stash < 2 ^ 32 }
    ensures spelled { OnOk result (out.new.items ≡ out.old.items ++ tree_text tree.now) }
    ensures root { OnOk result (length tree.now.root ≡ 32) }
{
    out.extend_from_slice(&tree.root)?;
    push_short(out, tree.stash.len() as u32)?;
    push_blocks(out, &tree.stash)
}

fn push_trees(out: &mut Vec<u8>, trees: &[TreeParts]) -> Result<(), AllocError>
    requires { All (λ t. length t.stash < 2 ^ 32) trees.now }
    ensures spelled { OnOk result (out.new.items ≡ out.old.items ++ flat_map tree_text trees.now) }
    ensures roots { OnOk result (All (λ t. length t.root ≡ 32) trees.now) }
{
    for tree in trees {
        push_tree(out, tree)?;
    }
    Ok(())
}

fn push_command(out: &mut Vec<u8>, command: &Command) -> Result<(), AllocError>
    ensures { OnOk result (out.new.items ≡ out.old.items ++ command_text command.now) }
{
    match command {
        Command::Read(address) => {
            out.push(READ)?;
            push_short(out, *address)
        }
        Command::Write(address, content) => {
            out.push(WRITE)?;
            push_short(out, *address)?;
            out.extend_from_slice(content.as_slice())
        }
        Command::Discard(address) => {
            out.push(DISCARD)?;
            push_short(out, *address)
        }
    }
}

fn push_pending(out: &mut Vec<u8>, pending: &Pending) -> Result<(), AllocError>
    ensures spelled { OnOk result (out.new.items ≡ out.old.items ++ pending_text pending.now) }
    ensures fit { OnOk result (CommandFits pending.now) }
{
    push_short(out, pending.session)?;
    push_command(out, &pending.command)?;
    push_longs(out, pending.words.as_slice())
}

fn push_pendings(out: &mut Vec<u8>, waiting: &[Pending]) -> Result<(), AllocError>
    ensures spelled { OnOk result (out.new.items ≡ out.old.items ++ flat_map pending_text waiting.now) }
    ensures fit { OnOk result (All CommandFits waiting.now) }
{
    for pending in waiting {
        push_pending(out, pending)?;
    }
    Ok(())
}

fn push_work(out: &mut Vec<u8>, parts: &Parts) -> Result<(), AllocError>
    requires { HasCounts parts.now }
    ensures spelled { OnOk result (out.new.items ≡ out.old.items ++ work_fields (work_of parts.now)) }
    ensures fit { OnOk result (All CommandFits parts.now.waiting) }
{
    push_short(out, parts.waiting.len() as u32)?;
    push_pendings(out, &parts.waiting)?;
    push_short(out, parts.entry_number)?;
    push_short(out, parts.held_entry)?;
    out.extend_from_slice(parts.held_data.as_slice())?;
    push_short(out, parts.message.len() as u32)?;
    out.extend_from_slice(parts.message.as_slice())
}
