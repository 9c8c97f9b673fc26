//! The status of a disk.

ghost use Rattle.std.specs.Prelude.{◌≡◌, ◌≤◌, IfOk, string_bytes};
ghost use Rattle.oram_geometry.specs.Sizes.{depth_of};
ghost use Rattle.oram_settings.specs.NearRecords.{near_len};
ghost use Rattle.oram_settings.specs.Status as spec;

use crate::amounts::counted;
use crate::near_records::near_len;
use oram_bucket::Sealer;
use oram_core::{Core, Reason};
use serde::Serialize;
use std::alloc::{AllocError, Global};

/// The status of a disk, according to its kept state.
#[derive(Clone, Copy, Debug, PartialEq, Eq)]
pub struct Status {
    pub blocks: u64,
    pub block_bytes: u64,
    /// The number of trees in which its blocks and its position maps lie.
    pub trees: u8,
    /// The number of blocks in the stashes of its trees, which the client keeps itself.
    pub stash: u64,
    /// The number of bytes of its near records, which the client keeps itself.
    pub near: u64,
    /// The number of accesses: one for each command that was accepted, including those that wait.
    pub accesses: u64,
    /// The greatest number of accesses that a disk ever makes.
    pub lifetime: u64,
    /// The number of commands that have no reply yet.
    pub waiting: u64,
    pub failure: Option<Reason>,
}

/// Returns the number of blocks in the stashes of all trees.
#[tactic(auto, unfolding(crate::specs::Status::stashed_below))]
fn stashed<S: Sealer>(core: &Core<S>) -> u64
    ensures { result ≡ spec.stashed core.now.device core.now.state }
{
    let mut blocks = 0u64;
    for tree in 0..core.device().trees() {
        blocks = blocks.saturating_add(core.stash_len(tree) as u64);
    }
    blocks
}

/// Returns the status of the disk of a core, which has so many near levels.
pub fn status_of<S: Sealer>(core: &Core<S>, levels: u8) -> Status
    requires { levels ≤ depth_of core.now.device 0 }
    ensures { result ≡ spec.stands_as core.now.device (near_len core.now.device (S.cipher core.now.sealer).overhead levels) core.now.state }
{
    let device = core.device();
    let trees = device.trees();
    prove!(0 < trees);
    Status {
        blocks: u64::from(device.blocks_in(0)),
        block_bytes: device.block_bytes() as u64,
        trees,
        stash: stashed(core),
        near: near_len(device, core.overhead(), levels),
        accesses: core.next_ticket(),
        lifetime: device.lifetime(),
        waiting: core.waiting() as u64,
        failure: core.failure(),
    }
}

/// Returns what is said of a failure, or that there is none.
pub fn failure_text(alloc: Global, failure: Option<Reason>) -> Result<String, AllocError>
    ensures { IfOk result (λ text. string_bytes text ≡ spec.failing failure) }
{
    match failure {
        None => String::from_str(alloc, "it is sound"),
        Some(Reason::Malformed) => {
            String::from_str(alloc, "it has failed: what the host answered is no answer")
        }
        Some(Reason::Tampered(tree, level)) => format!(in alloc;
            "it has failed: in tree {tree} the record at level {level} of a path wasn't the one that was stored last"
        ),
        Some(Reason::HostRefused(code)) => format!(in alloc;
            "it has failed: the host refused a message, with code {code}"
        ),
    }
}

/// Returns the lines that describe the status of a disk.
pub fn report(alloc: Global, status: &Status) -> Result<String, AllocError>
    ensures { IfOk result (λ text. string_bytes text ≡ spec.report status.now) }
{
    let size = status.blocks.saturating_mul(status.block_bytes);
    let blocks = counted(alloc, status.blocks, "block")?;
    let blocks = blocks.as_str();
    let block_bytes = status.block_bytes;
    let trees = status.trees;
    let stash = counted(alloc, status.stash, "block")?;
    let stash = stash.as_str();
    let near = counted(alloc, status.near, "byte")?;
    let near = near.as_str();
    let accesses = status.accesses;
    let left = status.lifetime.saturating_sub(accesses);
    let waiting = status.waiting;
    let failing = failure_text(alloc, status.failure)?;
    let failing = failing.as_str();
    format!(in alloc;
        "size: {size} bytes, {blocks} of {block_bytes}\ntrees: {trees}\nstash: {stash}\nnear: {near}\naccesses: {accesses} made, {left} left\nwaiting: {waiting}\nstate: {failing}\n"
    )
}

/// The status of a disk as `status --json` shows it. The names of its members are part of what users rely on.
#[derive(Drop, Serialize)]
struct JsonReport<'a> {
    used: bool,
    size: u64,
    blocks: u64,
    block: u64,
    trees: u8,
    stash: u64,
    near: u64,
    accesses: u64,
    accesses_left: u64,
    waiting: u64,
    failed: bool,
    /// Why the disk has failed, if it has.
    failure: Option<&'a str>,
}

/// Returns the status of a disk as one line of JSON (RFC 8259): whether another process uses the disk, what [`report`] tells,
/// and why it has failed, if it has.
pub fn report_json(
    alloc: Global,
    status: &Status,
    is_used: bool,
    failure: Option<&str>,
) -> Result<String, AllocError> {
    let report = JsonReport {
        used: is_used,
        size: status.blocks.saturating_mul(status.block_bytes),
        blocks: status.blocks,
        block: status.block_bytes,
        trees: status.trees,
        stash: status.stash,
        near: status.near,
        accesses: status.accesses,
        accesses_left: status.lifetime.saturating_sub(status.accesses),
        waiting: status.waiting,
        failed: failure.is_some(),
        failure,
    };
    let Ok(line) = serde_json::to_string(alloc, &report) else {
        return Err(AllocError);
    };
    let line = line.as_str();
    format!(in alloc; "{line}\n")
}
