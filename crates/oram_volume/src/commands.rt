//! The commands of a list of operations.

ghost use Rattle.std.specs.Prelude.{◌≡◌, ◌⊎◌, ◌+◌, ◌/◌, ◌∷◌, ◌++◌, ◌<◌, ◌≤◌, ◌^◌, [], All, drop, length, slice_index_or, IfOk};
ghost use Rattle.oram_nbd.specs.Operations.{IsWhole, len_of, place_of};
ghost use Rattle.oram_nbd.specs.declared.operations.Operation.{Operation};
ghost use Rattle.oram_volume.specs.RangeCommands.{commands_of, rest_of};

use oram_bytes::Bytes;
use oram_core::{Command, MOST_WAITING};
use oram_nbd::Operation;
use std::alloc::{AllocError, Global};

/// How far a list of operations was turned into commands: all operations before `operation`, and `block` blocks of that
/// one.
#[derive(Clone, Copy, Debug)]
pub(crate) struct Cursor {
    pub(crate) operation: usize,
    pub(crate) block: u64,
}

/// Returns the command of one block of an operation, the block with this number.
fn command_at(
    alloc: Global,
    block: u64,
    operation: &Operation,
    number: u64,
) -> Result<Command, AllocError>
    requires block { 0 < block }
    requires whole { IsWhole block operation.now }
    requires bound { place_of operation.now + len_of operation.now < 2 ^ 63 }
    requires numbers { place_of operation.now / block + len_of operation.now / block < 2 ^ 32 }
    requires within { number < len_of operation.now / block }
    ensures { IfOk result (λ c. drop number (commands_of block operation.now) ≡ c ∷ drop (number + 1) (commands_of block operation.now)) }
{
    let address = (operation.place() / block + number) as u32;
    match operation {
        Operation::Read { .. } => Ok(Command::Read(address)),
        Operation::Zero { .. } => Ok(Command::Discard(address)),
        Operation::Write { payload, .. } => {
            let start = (block * number) as usize;
            let bytes = Bytes::copy(alloc, &payload.as_slice()[start..start + block as usize])?;
            Ok(Command::Write(address, bytes))
        }
    }
}

/// Passes over operations whose blocks have all been turned into commands.
fn pass_over(block: u64, operations: &[Operation], cursor: &mut Cursor)
    requires block { 0 < block }
    requires whole { All (IsWhole block) operations.now }
    ensures same { rest_of block operations.now cursor.new.operation cursor.new.block ≡ rest_of block operations.now cursor.old.operation cursor.old.block }
    ensures within { (op : Operation) → cursor.new.operation < length operations.now → cursor.new.block < len_of (slice_index_or operations.now cursor.new.operation op) / block }
{
    while cursor.operation < operations.len()
        && cursor.block >= operations[cursor.operation].len() / block
    {
        cursor.operation += 1;
        cursor.block = 0;
    }
}

/// Returns the commands of the next round, from the cursor on: as many as may wait at a core, or all that are left.
pub(crate) fn next_round(
    alloc: Global,
    block: u64,
    operations: &[Operation],
    cursor: &mut Cursor,
) -> Result<Vec<Command>, AllocError>
    requires block { 0 < block }
    requires whole { All (IsWhole block) operations.now }
    requires bound { All (λ op. place_of op + len_of op < 2 ^ 63) operations.now }
    requires numbers { All (λ op. place_of op / block + len_of op / block < 2 ^ 32) operations.now }
    ensures next { IfOk result (λ v. rest_of block operations.now cursor.old.operation cursor.old.block ≡ v.items ++ rest_of block operations.now cursor.new.operation cursor.new.block) }
    ensures full { IfOk result (λ v. (length v.items ≡ MOST_WAITING) ⊎ (rest_of block operations.now cursor.new.operation cursor.new.block ≡ [])) }
    ensures most { IfOk result (λ v. length v.items ≤ MOST_WAITING) }
    ensures end { IfOk result (λ v. v.items ≡ [] → rest_of block operations.now cursor.new.operation cursor.new.block ≡ []) }
{
    let mut commands = Vec::with_capacity(alloc, MOST_WAITING)?;
    for _number in 0..MOST_WAITING {
        pass_over(block, operations, cursor);
        if cursor.operation >= operations.len() {
            return Ok(commands);
        }
        let command = command_at(alloc, block, &operations[cursor.operation], cursor.block)?;
        commands.push(command)?;
        cursor.block += 1;
    }
    Ok(commands)
}
