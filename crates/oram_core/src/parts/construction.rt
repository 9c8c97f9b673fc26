//! Makes a core from its parts.
ghost use Rattle.std.specs.Prelude.{◌≡◌, ◌-◌, ◌≤◌, ◌<◌, ◌^◌, length, IfOk, IsOk, Err};
ghost use Rattle.oram_geometry.specs.Sizes.{IsDevice, trees_of};
ghost use Rattle.oram_core.specs.Validity.{AreTrees};
ghost use Rattle.oram_core.specs.Parts.{AreParts, state_of, submissions_from, trees_from};

use super::validity::is_fitting;
use super::{Parts, Pending};
use crate::changes::NotedChanges;
use crate::machine::Core;
use oram_bucket::Sealer;
use oram_geometry::Device;
use oram_semantics::Submission;
use oram_tree::{PartsFault, Tree, TreeParts};
use std::alloc::{AllocError, Global};
use std::collections::VecDeque;

/// Makes the trees of a device from their parts. Fails with `Content` if they can't be the parts of these trees.
fn trees_of(alloc: Global, device: &Device, parts: Vec<TreeParts>) -> Result<Vec<Tree>, PartsFault>
    requires { length parts.items ≤ trees_of device.now }
    ensures ranges { IsDevice device.now }
    ensures made { IfOk result (λ v. v.items ≡ trees_from 0 parts.items) }
    ensures fits { IsOk result → AreTrees device.now 0 parts.items }
    ensures content { result ≡ Err PartsFault.Content → ¬ AreTrees device.now 0 parts.items }
{
    let mut trees = Vec::with_capacity(alloc, usize::from(device.trees()))?;
    let mut number = 0;
    for parts in parts {
        let tree = Tree::from_parts(alloc, device, number, parts)?;
        if let Err(refused) = trees.push(tree) {
            return Err(AllocError::from(refused).into());
        }
        number += 1;
    }
    Ok(trees)
}

/// Returns the commands with their tickets, which are the last ones of the `accepted` tickets.
fn queue_of(
    alloc: Global,
    accepted: u64,
    waiting: Vec<Pending>,
) -> Result<VecDeque<Submission>, AllocError>
    requires begun { length waiting.items ≤ accepted }
    requires few { accepted < 2 ^ 63 }
    ensures { IfOk result (λ q. q.items ≡ submissions_from (accepted - length waiting.items) waiting.items) }
{
    let mut queue = VecDeque::with_capacity(alloc, waiting.len())?;
    let mut ticket = accepted - waiting.len() as u64;
    for pending in waiting {
        queue.push_back(Submission {
            session: pending.session,
            ticket,
            command: pending.command,
            words: pending.words,
        })?;
        ticket += 1;
    }
    Ok(queue)
}

impl<S: Sealer> Core<S> {
    /// Makes the core that has these parts, or fails with `Content` if they can't be those of a core with this sealer.
    /// Doesn't copy the blocks, the table or the message.
    pub fn from_parts(alloc: Global, sealer: S, parts: Parts) -> Result<Core<S>, PartsFault>
        ensures device { IfOk result (λ c. c.device ≡ parts.device) }
        ensures sealer { IfOk result (λ c. c.sealer ≡ sealer) }
        ensures state { IfOk result (λ c. c.state ≡ state_of parts) }
        ensures fits { IsOk result → AreParts (S.cipher sealer).overhead parts }
        ensures content { result ≡ Err PartsFault.Content → ¬ AreParts (S.cipher sealer).overhead parts }
    {
        if parts.tickets > parts.device.lifetime() {
            return Err(PartsFault::Content);
        }
        if !is_fitting(&parts, sealer.overhead()) {
            return Err(PartsFault::Content);
        }
        let Parts {
            device,
            tickets,
            nonce,
            table,
            trees,
            failure,
            waiting,
            entry_number: r,
            held_entry,
            held_data,
            message,
            stalled,
        } = parts;
        let trees = trees_of(alloc, &device, trees)?;
        let noted = NotedChanges::any(alloc)?;
        Ok(Core {
            device,
            sealer,
            table,
            trees,
            next: tickets,
            nonce,
            queue: queue_of(alloc, tickets, waiting)?,
            entry_number: r as u8,
            held_entry,
            held_data,
            message,
            lost: stalled,
            failure,
            noted,
        })
    }
}
