//! Checks whether parts can be those of a core.
ghost use Rattle.std.specs.Prelude.{◌≡◌, ◌↔◌, ◌+◌, ◌-◌, ◌*◌, ◌<◌, ◌≤◌, ◌^◌, ◌==◌, Some, All, IsTrue};
ghost use Rattle.oram_geometry.specs.Sizes.{trees_of, blocks_in};
ghost use Rattle.oram_wire.specs.HostMessages.{fetch_body};
ghost use Rattle.oram_semantics.specs.Agree.{IsAllowed};
ghost use Rattle.oram_semantics.specs.Nonces.{formatted, buckets_below, next_nonce};
ghost use Rattle.oram_core.specs.Core.{IsAtWork, IsReasonOf, IsResting, IsStoreOf, most_map_entry};
ghost use Rattle.oram_core.specs.Validity.{AreWaiting, HasMessage, HasTable, HoldsNothing, IsEnded, IsFitting, IsWorking};
ghost use Rattle.oram_core.specs.Parts.{state_of, submission_at};

use super::{Parts, Pending};
use crate::machine::MOST_WAITING;
use crate::path_access::leaf_for;
use oram_geometry::Device;
use oram_semantics::{Command, Reason};
use oram_wire::HostView;

/// Returns whether a reason names a tree of the device and a level of that tree, or a code of the host.
fn is_reason(device: &Device, reason: Reason) -> bool
    ensures { IsTrue result ↔ IsReasonOf device.now reason }
{
    match reason {
        Reason::Malformed => true,
        Reason::Tampered(tree, level) => tree < device.trees() && level <= device.depth(tree),
        Reason::HostRefused(code) => 0 < code && code < 8,
    }
}

/// Returns whether no command is being carried out.
fn is_resting(parts: &Parts) -> bool
    ensures { IsTrue result ↔ IsResting (state_of parts.now) }
{
    parts.entry_number == 0
        && parts.held_entry == 0
        && parts.held_data.is_empty()
        && parts.message.is_empty()
        && !parts.stalled
}

/// Returns whether these can be the parts of a core that failed for `reason`, which holds nothing else.
fn is_ended(parts: &Parts, reason: Reason) -> bool
    ensures { IsTrue result ↔ IsEnded parts.now reason }
{
    is_reason(&parts.device, reason) && holds_nothing(parts) && is_resting(parts)
}

/// Returns whether the parts have no table, no trees and no commands.
fn holds_nothing(parts: &Parts) -> bool
    ensures { IsTrue result ↔ HoldsNothing parts.now }
{
    parts.table.is_empty() && parts.trees.is_empty() && parts.waiting.is_empty()
}

/// Returns whether the table has an entry for each block of the last tree, and none that is too great for its leaves.
fn is_table(device: &Device, table: &[u32]) -> bool
    ensures { IsTrue result ↔ HasTable device.now table.now }
{
    let last = device.trees() - 1;
    let most = 1u32 << device.depth(last);
    table.len() == device.blocks_in(last) as usize && table.iter().all(|entry| *entry <= most)
}

/// Returns whether the device allows the command.
fn is_allowed(device: &Device, pending: &Pending) -> bool
    ensures { IsTrue result ↔ IsAllowed device.now (submission_at 0 pending.now) }
{
    let is_long = match &pending.command {
        Command::Write(_, bytes) => bytes.len() == device.block_bytes(),
        Command::Read(_) | Command::Discard(_) => true,
    };
    pending.command.address() < device.blocks_in(0)
        && is_long
        && pending.words.len() == 2 * usize::from(device.trees())
}

/// Returns whether the device allows all of these commands.
fn are_allowed(device: &Device, waiting: &[Pending]) -> bool
    ensures { IsTrue result ↔ All (λ p. IsAllowed device.now (submission_at 0 p)) waiting.now }
{
    waiting.iter().all(|pending| is_allowed(device, pending))
}

/// Returns whether at most 64 commands wait, no more than were accepted, and the device allows each.
fn are_waiting(parts: &Parts) -> bool
    ensures { IsTrue result ↔ AreWaiting parts.now }
{
    parts.waiting.len() <= MOST_WAITING
        && parts.waiting.len() as u64 <= parts.tickets
        && are_allowed(&parts.device, &parts.waiting)
}

/// Returns the greatest map entry that can be held at this stage of a command.
fn most_map_entry(device: &Device, entry_number: u32) -> u32
    requires { entry_number < 2 * trees_of device.now }
    ensures { result ≡ most_map_entry device.now entry_number }
{
    let trees = u32::from(device.trees());
    if entry_number == 0 || entry_number + 1 == 2 * trees {
        return 0;
    }
    1 << device.depth((trees - 1 - (entry_number + entry_number % 2) / 2) as u8)
}

/// Returns whether `message` is the FETCH of this path.
fn is_fetch(message: &[u8], tree: u8, leaf: u32) -> bool
    ensures { IsTrue result ↔ (message.now ≡ fetch_body tree leaf) }
{
    match HostView::read(message) {
        Ok(
            HostView::Fetch {
                tree: requested_tree,
                leaf: requested_leaf,
            },
        ) => requested_tree == tree && requested_leaf == leaf,
        _ => false,
    }
}

/// Returns whether `message` is the STORE of some path of `tree`.
fn is_store(message: &[u8], device: &Device, overhead: usize, tree: u8) -> bool
    requires tree { tree < trees_of device.now }
    requires overhead { overhead ≤ 64 }
    ensures { IsTrue result ↔ IsStoreOf device.now overhead tree message.now }
{
    match HostView::read(message) {
        Ok(
            HostView::Store {
                tree: requested_tree,
                leaf,
                records,
            },
        ) => {
            let depth = device.depth(tree);
            let path_len = (usize::from(depth) + 1) * device.record_len(overhead);
            requested_tree == tree && leaf < 1 << depth && records.len() == path_len
        }
        _ => false,
    }
}

/// Returns whether the outstanding message is the one that the oldest command has at this stage.
fn is_message(parts: &Parts, oldest: &Pending, overhead: usize) -> bool
    requires entry_number { parts.now.entry_number < 2 * trees_of parts.now.device }
    requires table { HasTable parts.now.device parts.now.table }
    requires map_entry { parts.now.held_entry ≤ most_map_entry parts.now.device parts.now.entry_number }
    requires allowed { IsAllowed parts.now.device (submission_at 0 oldest.now) }
    requires overhead { overhead ≤ 64 }
    ensures { IsTrue result ↔ HasMessage parts.now.device overhead (state_of parts.now) (submission_at 0 oldest.now) }
{
    let tree = parts.device.trees() - 1 - (parts.entry_number / 2) as u8;
    if parts.entry_number % 2 == 1 {
        return is_store(parts.message.as_slice(), &parts.device, overhead, tree);
    }
    let map_entry = match parts.entry_number {
        0 => parts.table[parts.device.address_in(tree, oldest.command.address()) as usize],
        _ => parts.held_entry,
    };
    let leaf = leaf_for(&parts.device, tree, map_entry, oldest.words.as_slice());
    is_fetch(parts.message.as_slice(), tree, leaf)
}

/// Returns whether the parts that change while a command is carried out can be those of the oldest command.
fn is_at_work(parts: &Parts, oldest: &Pending, overhead: usize) -> bool
    requires table { HasTable parts.now.device parts.now.table }
    requires allowed { IsAllowed parts.now.device (submission_at 0 oldest.now) }
    requires overhead { overhead ≤ 64 }
    ensures { IsTrue result ↔ IsAtWork parts.now.device overhead (state_of parts.now) (submission_at 0 oldest.now) }
{
    let trees = u32::from(parts.device.trees());
    if parts.entry_number >= 2 * trees
        || parts.held_entry > most_map_entry(&parts.device, parts.entry_number)
    {
        return false;
    }
    let held_len = match parts.entry_number + 1 == 2 * trees {
        true => parts.device.block_bytes(),
        false => 0,
    };
    parts.held_data.len() == held_len && is_message(parts, oldest, overhead)
}

/// Returns the number of buckets that the formatting seals.
fn formatted(device: &Device) -> u64
    ensures { result ≡ formatted device.now }
{
    let mut buckets = 0;
    for tree in 0..device.trees() {
        buckets += (2u64 << device.depth(tree)) - 1;
    }
    buckets
}

/// Returns the number of buckets on one command's paths in the trees from `first` on.
fn path_buckets(device: &Device, first: u8) -> u64
    requires { first ≤ trees_of device.now }
    ensures { result ≡ buckets_below device.now (trees_of device.now) - buckets_below device.now first }
{
    let mut buckets = 0;
    for tree in first..device.trees() {
        buckets += u64::from(device.depth(tree)) + 1;
    }
    buckets
}

/// Returns the nonce for the next bucket, if `answered` commands have their replies and message `entry_number` of the
/// next one is outstanding.
fn next_nonce(device: &Device, answered: u64, entry_number: u32) -> u64
    requires answered { answered ≤ 2 ^ 40 }
    requires entry_number { entry_number < 2 * trees_of device.now }
    ensures { result ≡ next_nonce device.now answered entry_number }
{
    let unstored = device.trees() - ((entry_number + 1) / 2) as u8;
    formatted(device) + answered * path_buckets(device, 0) + path_buckets(device, unstored)
}

/// Returns whether these can be the parts of a core that hasn't failed, without looking at the stashes.
fn is_working(parts: &Parts, overhead: usize) -> bool
    requires tickets { parts.now.tickets ≤ parts.now.device.lifetime }
    requires overhead { overhead ≤ 64 }
    ensures { IsTrue result ↔ IsWorking overhead parts.now }
{
    let device = &parts.device;
    if !is_table(device, &parts.table)
        || parts.trees.len() != usize::from(device.trees())
        || !are_waiting(parts)
    {
        return false;
    }
    let is_right = match parts.waiting.first() {
        None => is_resting(parts),
        Some(oldest) => is_at_work(parts, oldest, overhead),
    };
    let answered = parts.tickets - parts.waiting.len() as u64;
    is_right && parts.nonce == next_nonce(device, answered, parts.entry_number)
}

/// Returns whether these can be the parts of a core, without looking at the blocks of the stashes.
pub(super) fn is_fitting(parts: &Parts, overhead: usize) -> bool
    requires tickets { parts.now.tickets ≤ parts.now.device.lifetime }
    requires overhead { overhead ≤ 64 }
    ensures { IsTrue result ↔ IsFitting overhead parts.now parts.now.failure }
{
    match parts.failure {
        Some(reason) => is_ended(parts, reason),
        None => is_working(parts, overhead),
    }
}
