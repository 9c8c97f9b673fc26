//! The first FETCHes of the commands that wait.
ghost use Rattle.std.specs.Prelude.{◌≡◌, ◌+◌, ◌-◌, ◌<◌, ◌≤◌, ◌^◌, All, IfOk, drop, length, slice_index, take};
ghost use Rattle.oram_geometry.specs.Sizes.{blocks_in, depth_of, trees_of};
ghost use Rattle.oram_wire.specs.ListOfBodies.{bodies_in};
ghost use Rattle.oram_semantics.specs.Agree.{IsAllowed};
ghost use Rattle.oram_semantics.specs.Moves.{fetch_at};
ghost use Rattle.oram_semantics.specs.NextFetches.{fetch_bodies, first_fetches, next_fetches, table_after};
ghost use Rattle.oram_core.specs.InTurn.{SoundCoresAreInTurn};
ghost use Rattle.oram_core.specs.PlainSteps.{fetch_of};

use crate::machine::Core;
use crate::path_access::{leaf_for, new_leaf};
use oram_bucket::Sealer;
use oram_geometry::Device;
use oram_semantics::Submission;
use oram_wire::{HEADER_LEN, fetch_header};
use std::alloc::{AllocError, Global};
use std::collections::VecDeque;

/// Returns the entry that the table will have for `block` once the commands of the queue from index `from` up to `to`
/// have had the answers to their first FETCHes: the newest of them with this block has given it a new leaf.
fn entry_after(
    device: &Device,
    table: &[u32],
    queue: &VecDeque<Submission>,
    from: usize,
    to: usize,
    block: u32,
) -> u32
    requires sized { length table.now ≡ blocks_in device.now (trees_of device.now - 1) }
    requires map_entries { All (λ e. e ≤ 2 ^ depth_of device.now (trees_of device.now - 1)) table.now }
    requires allowed { All (IsAllowed device.now) queue.now.items }
    requires block { block < length table.now }
    requires from { from ≤ to }
    requires to { to ≤ length queue.now.items }
    ensures value { result ≡ slice_index (table_after device.now table.now (drop from (take to queue.now.items))) block }
    ensures range { result ≤ 2 ^ depth_of device.now (trees_of device.now - 1) }
{
    let tree = device.trees() - 1;
    let mut entry = table[block as usize];
    for at in from..to {
        let earlier = &queue[at];
        if device.address_in(tree, earlier.command.address()) == block {
            entry = new_leaf(device, tree, earlier) + 1;
        }
    }
    entry
}

/// Makes the body of the first FETCH of a command for whose block the table has `entry`.
fn first_body(
    alloc: Global,
    device: &Device,
    submission: &Submission,
    entry: u32,
) -> Result<Vec<u8>, AllocError>
    requires allowed { IsAllowed device.now submission.now }
    requires entry { entry ≤ 2 ^ depth_of device.now (trees_of device.now - 1) }
    ensures { IfOk result (λ v. v.items ≡ fetch_of (fetch_at device.now 0 entry submission.now)) }
{
    let tree = device.trees() - 1;
    let leaf = leaf_for(device, tree, entry, submission.words.as_slice());
    let mut body = Vec::with_capacity(alloc, HEADER_LEN)?;
    body.extend_from_slice(&fetch_header(tree, leaf))?;
    Ok(body)
}

/// Makes the bodies of the first FETCHes of the commands of the queue from index `from` on.
fn first_bodies(
    alloc: Global,
    device: &Device,
    table: &[u32],
    queue: &VecDeque<Submission>,
    from: usize,
) -> Result<Vec<Vec<u8>>, AllocError>
    requires sized { length table.now ≡ blocks_in device.now (trees_of device.now - 1) }
    requires map_entries { All (λ e. e ≤ 2 ^ depth_of device.now (trees_of device.now - 1)) table.now }
    requires allowed { All (IsAllowed device.now) queue.now.items }
    requires from { from ≤ length queue.now.items }
    ensures { IfOk result (λ v. bodies_in v.items ≡ fetch_bodies (first_fetches device.now table.now (drop from queue.now.items))) }
{
    let tree = device.trees() - 1;
    let mut bodies = Vec::new(alloc);
    for at in from..queue.len() {
        let submission = &queue[at];
        let block = device.address_in(tree, submission.command.address());
        let entry = entry_after(device, table, queue, from, at, block);
        bodies.push(first_body(alloc, device, submission, entry)?)?;
    }
    Ok(bodies)
}

impl<S: Sealer> Core<S> {
    /// Returns the bodies of the first FETCHes of the commands that wait, in the order of the commands. The first of them is
    /// that of the oldest command, until its answer has come. The core will send each of these FETCHes in its turn unless it
    /// fails, so a caller may ask the host for them ahead. Takes time that grows with the square of the number of these
    /// commands.
    pub fn next_fetches(&self, alloc: Global) -> Result<Vec<Vec<u8>>, AllocError>
        ensures { IfOk result (λ v. bodies_in v.items ≡ fetch_bodies (next_fetches self.now.device self.now.state)) }
    {
        if self.queue.is_empty() {
            return Ok(Vec::new(alloc));
        }
        let begun = if self.entry_number == 0 { 0 } else { 1 };
        first_bodies(alloc, &self.device, &self.table, &self.queue, begun)
    }
}

/// A law about definitions: every core is in turn. While a command waits, the first of the core's next FETCHes is outstanding,
/// or no FETCH of the last tree is, and the next FETCHes are FETCHes of paths of the last tree. [`Core::device`] says that a
/// core is sound.
pub fn sound_cores_are_in_turn()
    ensures { SoundCoresAreInTurn }
{}
