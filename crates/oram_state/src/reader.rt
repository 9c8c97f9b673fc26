//! Reads a file.

ghost use Rattle.std.specs.Prelude.{◌≡◌, ◌⊎◌, ℕ, IfErr, IfOk, Ok};
ghost use Rattle.oram_core.specs.Parts.{Parts as PartsValue};
ghost use Rattle.oram_state.specs.WellSized.{AreFieldsOf, IsFileOf};
ghost use Rattle.oram_state.specs.Parser.{Gives, next_head, next_saved, saved_in, state_in};

use crate::fault::StateFault;
use crate::fields::{read_byte, read_long, read_short, read_shorts};
use crate::frame::open;
use crate::kept::{read_device, read_failure, read_trees};
use crate::mode::Mode;
use crate::saved::{Head, Saved};
use crate::work::read_work_in;
use crate::writer::VERSION;
use oram_core::Parts;
use std::alloc::Global;

#[tactic(auto, unfolding(crate::specs::Parser::next_head))]
fn read_head(bytes: &[u8], version: u32) -> Result<(Head, &[u8]), StateFault>
    ensures { Gives (λ x. (x.0, x.1.now)) result (next_head version bytes.now) }
{
    let (device, rest) = read_device(bytes)?;
    let (overhead, rest) = read_short(rest)?;
    let (byte, rest) = read_byte(rest)?;
    let mode = Mode::read(version, byte)?;
    let (tickets, rest) = read_long(rest)?;
    let (nonce, rest) = read_long(rest)?;
    Ok((
        Head {
            device,
            overhead,
            mode,
            tickets,
            nonce,
        },
        rest,
    ))
}

#[tactic(auto, unfolding(crate::specs::Parser::next_saved))]
fn read_saved(alloc: Global, bytes: &[u8], version: u32) -> Result<(Saved, &[u8]), StateFault>
    ensures { Gives (λ x. (x.0, x.1.now)) result (next_saved version bytes.now) }
{
    let (head, rest) = read_head(bytes, version)?;
    let device = head.device;
    let (failure, rest) = read_failure(rest, head.mode)?;
    let (entries, count) = match failure {
        Some(_) => (0, 0),
        None => (device.blocks_in(device.trees() - 1), device.trees()),
    };
    let (table, rest) = read_shorts(alloc, rest, entries)?;
    let (trees, rest) = read_trees(alloc, rest, &device, count)?;
    let (work, rest) = read_work_in(alloc, rest, &device, head.mode)?;
    let parts = Parts {
        device,
        tickets: head.tickets,
        nonce: head.nonce,
        table,
        trees,
        failure,
        waiting: work.waiting,
        entry_number: work.entry_number,
        held_entry: work.held_entry,
        held_data: work.held_data,
        message: work.message,
        stalled: head.mode == Mode::Stalled,
    };
    let overhead = head.overhead;
    Ok((Saved { overhead, parts }, rest))
}

/// Reads the fields of a file of this version, with nothing after them.
#[tactic(auto, unfolding(crate::specs::Parser::saved_in))]
fn read_fields(alloc: Global, bytes: &[u8], version: u32) -> Result<Saved, StateFault>
    ensures { Gives (λ saved. saved) result (saved_in version bytes.now) }
{
    let (saved, rest) = read_saved(alloc, bytes, version)?;
    if !rest.is_empty() {
        return Err(StateFault::Content);
    }
    Ok(saved)
}

/// Reads a file: its frame and then its fields. No file has a device with more than one block to a leaf.
#[tactic(auto, unfolding(crate::specs::Parser::state_in))]
fn read_file(alloc: Global, file: &[u8]) -> Result<Saved, StateFault>
    ensures { Gives (λ saved. saved) result (state_in file.now) }
{
    let (version, fields) = open(file)?;
    let saved = read_fields(alloc, fields, version)?;
    if saved.parts.device.leaf_load() != 1 {
        return Err(StateFault::Content);
    }
    Ok(saved)
}

/// Reads a file of either version.
pub(crate) fn read_state(alloc: Global, file: &[u8]) -> Result<Saved, StateFault>
    // What it returns is what the file was written from.
    ensures found { IfOk result (λ saved. (version : ℕ)
        × IsFileOf file.now version saved.overhead saved.parts) }
    // It reads each file, unless memory runs out.
    ensures only { (version overhead : ℕ) (p : PartsValue) → IsFileOf file.now version overhead p
        → Gives (λ saved. saved) result (Ok (record { overhead = overhead; parts = p })) }
    // It returns the first fault.
    ensures exact { Gives (λ saved. saved) result (state_in file.now) }
{
    read_file(alloc, file)
}

/// Reads the fields of a file of the second version, without a frame around them.
pub(crate) fn read_bare_fields(alloc: Global, fields: &[u8]) -> Result<Saved, StateFault>
    // What it returns is what the fields were written from.
    ensures found { IfOk result (λ saved. AreFieldsOf fields.now saved.overhead saved.parts) }
    // It reads all fields, unless memory runs out.
    ensures only { (overhead : ℕ) (p : PartsValue) → AreFieldsOf fields.now overhead p
        → Gives (λ saved. saved) result (Ok (record { overhead = overhead; parts = p })) }
    ensures fault { IfErr result (λ fault. (fault ≡ StateFault.Content) ⊎ (fault ≡ StateFault.OutOfMemory)) }
{
    read_fields(alloc, fields, VERSION)
}
