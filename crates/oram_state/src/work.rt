//! Reads the fields of a core at work: the commands without a reply, and how far the first of them has come.

ghost use Rattle.std.specs.Prelude.{◌≡◌, ◌<◌, ◌*◌, IfOk};
ghost use Rattle.oram_geometry.specs.Sizes.{trees_of};
ghost use Rattle.oram_state.specs.WellSized as specs;
ghost use Rattle.oram_state.specs.Parser.{Gives, many, next_command, next_data, next_message, next_pending, next_step, next_waiting, next_work, next_work_in};

use crate::fault::StateFault;
use crate::fields::{read_byte, read_bytes, read_longs, read_short};
use crate::mode::Mode;
use crate::saved::Work;
use oram_bytes::{Bytes, Words};
use oram_core::{Command, MOST_WAITING, Pending};
use oram_geometry::Device;
use std::alloc::Global;

/// The first bytes of commands: these say what the command asks for.
pub(crate) const READ: u8 = 0x11;

pub(crate) const WRITE: u8 = 0x12;

pub(crate) const DISCARD: u8 = 0x13;

/// Reads the rest of the command with this first byte and address: a WRITE has data after the address.
#[tactic(auto, unfolding(crate::specs::Parser::next_data))]
fn read_data<'a>(
    alloc: Global,
    bytes: &'a [u8],
    device: &Device,
    op: u8,
    address: u32,
) -> Result<(Command, &'a [u8]), StateFault>
    ensures { Gives (λ x. (x.0, x.1.now)) result (next_data device.now op address bytes.now) }
{
    match op {
        READ => Ok((Command::Read(address), bytes)),
        WRITE => {
            let (data, rest) = read_bytes(bytes, device.block_bytes())?;
            let data = Bytes::copy(alloc, data)?;
            Ok((Command::Write(address, data), rest))
        }
        DISCARD => Ok((Command::Discard(address), bytes)),
        _ => Err(StateFault::Content),
    }
}

#[tactic(auto, unfolding(crate::specs::Parser::next_command))]
fn read_command<'a>(
    alloc: Global,
    bytes: &'a [u8],
    device: &Device,
) -> Result<(Command, &'a [u8]), StateFault>
    ensures { Gives (λ x. (x.0, x.1.now)) result (next_command device.now bytes.now) }
{
    let (op, rest) = read_byte(bytes)?;
    let (address, rest) = read_short(rest)?;
    read_data(alloc, rest, device, op, address)
}

#[tactic(auto, unfolding(crate::specs::Parser::next_pending))]
fn read_pending<'a>(
    alloc: Global,
    bytes: &'a [u8],
    device: &Device,
) -> Result<(Pending, &'a [u8]), StateFault>
    ensures { Gives (λ x. (x.0, x.1.now)) result (next_pending device.now bytes.now) }
{
    let (session, rest) = read_short(bytes)?;
    let (command, rest) = read_command(alloc, rest, device)?;
    let (words, rest) = read_longs(alloc, rest, 2 * u32::from(device.trees()))?;
    let words = Words::from_vec(words);
    Ok((
        Pending {
            session,
            command,
            words,
        },
        rest,
    ))
}

fn read_pendings<'a>(
    alloc: Global,
    bytes: &'a [u8],
    device: &Device,
    count: u32,
) -> Result<(Vec<Pending>, &'a [u8]), StateFault>
    ensures { Gives (λ x. (x.0.items, x.1.now)) result (many (next_pending device.now) count bytes.now) }
{
    let mut waiting = Vec::with_capacity(alloc, count as usize)?;
    let mut rest = bytes;
    for _ in 0..count {
        let (pending, after) = read_pending(alloc, rest, device)?;
        waiting.push(pending)?;
        rest = after;
    }
    Ok((waiting, rest))
}

/// Reads the commands without a reply, from 1 to 64.
#[tactic(auto, unfolding(crate::specs::Parser::next_waiting))]
fn read_waiting<'a>(
    alloc: Global,
    bytes: &'a [u8],
    device: &Device,
) -> Result<(Vec<Pending>, &'a [u8]), StateFault>
    ensures { Gives (λ x. (x.0.items, x.1.now)) result (next_waiting device.now bytes.now) }
{
    let (count, rest) = read_short(bytes)?;
    if count < 1 || count as usize > MOST_WAITING {
        return Err(StateFault::Content);
    }
    read_pendings(alloc, rest, device, count)
}

/// Reads which of the first command's messages is outstanding, counted from 0.
#[tactic(auto, unfolding(crate::specs::Parser::next_step))]
fn read_step<'a>(bytes: &'a [u8], device: &Device) -> Result<(u32, &'a [u8]), StateFault>
    ensures exact { Gives (λ x. (x.0, x.1.now)) result (next_step device.now bytes.now) }
    ensures below { IfOk result (λ x. x.0 < 2 * trees_of device.now) }
{
    let (r, rest) = read_short(bytes)?;
    if r >= 2 * u32::from(device.trees()) {
        return Err(StateFault::Content);
    }
    Ok((r, rest))
}

#[tactic(auto, unfolding(crate::specs::Parser::next_message))]
fn read_message(alloc: Global, bytes: &[u8]) -> Result<(Bytes, &[u8]), StateFault>
    ensures { Gives (λ x. (x.0, x.1.now)) result (next_message bytes.now) }
{
    let (len, rest) = read_short(bytes)?;
    let (message, rest) = read_bytes(rest, len as usize)?;
    Ok((Bytes::copy(alloc, message)?, rest))
}

#[tactic(auto, unfolding(crate::specs::Parser::next_work))]
fn read_work<'a>(
    alloc: Global,
    bytes: &'a [u8],
    device: &Device,
) -> Result<(Work, &'a [u8]), StateFault>
    ensures { Gives (λ x. (x.0, x.1.now)) result (next_work device.now bytes.now) }
{
    let (waiting, rest) = read_waiting(alloc, bytes, device)?;
    let (r, rest) = read_step(rest, device)?;
    let (held_entry, rest) = read_short(rest)?;
    let (held_data, rest) = read_bytes(rest, held_len(device, r))?;
    let held_data = Bytes::copy(alloc, held_data)?;
    let (message, rest) = read_message(alloc, rest)?;
    Ok((
        Work {
            waiting,
            entry_number: r,
            held_entry,
            held_data,
            message,
        },
        rest,
    ))
}

/// Reads the work of a core in this mode. A core that is idle or failed has none.
#[tactic(auto, unfolding(crate::specs::Parser::next_work_in))]
pub(crate) fn read_work_in<'a>(
    alloc: Global,
    bytes: &'a [u8],
    device: &Device,
    mode: Mode,
) -> Result<(Work, &'a [u8]), StateFault>
    ensures { Gives (λ x. (x.0, x.1.now)) result (next_work_in device.now mode bytes.now) }
{
    match mode {
        Mode::Idle | Mode::Failed => Ok((no_work(alloc), bytes)),
        Mode::Waiting | Mode::Stalled => read_work(alloc, bytes, device),
    }
}

/// Returns the number of bytes of the data that is held while message `r` of a command is outstanding: a block's at the
/// last message, and else none.
fn held_len(device: &Device, r: u32) -> usize
    requires { r < 2 * trees_of device.now }
    ensures { result ≡ specs.held_len device.now r }
{
    let entries = 2 * u32::from(device.trees());
    if r + 1 == entries {
        device.block_bytes()
    } else {
        0
    }
}

fn no_work(alloc: Global) -> Work
    ensures { result ≡ specs.no_work }
{
    Work {
        waiting: Vec::new(alloc),
        entry_number: 0,
        held_entry: 0,
        held_data: Bytes::from_vec(Vec::new(alloc)),
        message: Bytes::from_vec(Vec::new(alloc)),
    }
}
