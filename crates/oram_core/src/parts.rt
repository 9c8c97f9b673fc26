//! The parts of a core that a client keeps in its state file.
ghost use Rattle.std.specs.Prelude.{◌≡◌, [], map, All, IfOk};
ghost use Rattle.oram_bucket.specs.Cell.{IsRising};
ghost use Rattle.oram_tree.specs.Parts.{parts_of as tree_parts};
ghost use Rattle.oram_core.specs.Parts.{AreParts, parts_of, pending_of, state_of};

mod construction;
mod validity;

use crate::machine::Core;
use oram_bucket::Sealer;
use oram_bytes::{Bytes, Words};
use oram_geometry::Device;
use oram_semantics::{Command, Reason, Submission};
use oram_tree::{Tree, TreeParts};
use std::alloc::{AllocError, Global};
use std::collections::VecDeque;
use std::marker::Model;

/// A command without a reply. Its ticket follows from its index among these commands and from the number of accepted
/// commands.
#[derive(Debug, Drop, PartialEq, Eq)]
pub struct Pending {
    pub session: u32,
    pub command: Command,
    /// Two words of the tape for each tree.
    pub words: Words,
}

/// The parts of a core that a client keeps, except the sealer. No command waits in an idle core, and a failed one has
/// neither commands nor a table nor trees. Fields that have no meaning then are empty, 0 or false.
#[derive(Debug, Drop)]
pub struct Parts {
    pub device: Device,
    /// The number of accepted commands.
    pub tickets: u64,
    /// The nonce for the next bucket to be sealed.
    pub nonce: u64,
    /// For each block of the last tree: 0, or the leaf that the block is mapped to plus one.
    pub table: Vec<u32>,
    /// The trees, from tree 0, which holds the data, to the last one.
    pub trees: Vec<TreeParts>,
    pub failure: Option<Reason>,
    /// The commands without a reply, the oldest first; at most 64.
    pub waiting: Vec<Pending>,
    /// Which of the oldest of these commands' messages is outstanding, counted from 0. A command has a FETCH and a STORE
    /// for each tree, from the last tree to tree 0.
    pub entry_number: u32,
    /// The map entry of the oldest command's block in the tree whose path is fetched next, or was fetched last; 0 at the
    /// first FETCH and at the last STORE.
    pub held_entry: u32,
    /// At the last STORE, the data of the block of tree 0 as it was read.
    pub held_data: Bytes,
    /// The message that was sent last.
    pub message: Bytes,
    /// Whether the message sent last counts as lost.
    pub stalled: bool,
}

impl Model for Parts {
    ghost use Rattle.oram_core.specs.Parts.{Parts as PartsValue};

    ghost Value = { PartsValue };

    ghost view = { λ p. record {
      device = p.device;
      tickets = p.tickets;
      nonce = p.nonce;
      table = p.table.items;
      trees = p.trees.items;
      failure = p.failure;
      waiting = p.waiting.items;
      entry_number = p.entry_number;
      held_entry = p.held_entry;
      held_data = p.held_data;
      message = p.message;
      stalled = p.stalled;
    } };
}

/// Copies the commands, without their tickets.
fn pendings(alloc: Global, queue: &VecDeque<Submission>) -> Result<Vec<Pending>, AllocError>
    ensures { IfOk result (λ v. v.items ≡ map pending_of queue.now.items) }
{
    let mut waiting = Vec::with_capacity(alloc, queue.len())?;
    for at in 0..queue.len() {
        let submission = &queue[at];
        waiting.push(Pending {
            session: submission.session,
            command: submission.command.copy(alloc)?,
            words: Words::copy(alloc, submission.words.as_slice())?,
        })?;
    }
    Ok(waiting)
}

/// Returns the parts of the trees, with copies of their blocks.
fn trees_parts(alloc: Global, trees: &[Tree]) -> Result<Vec<TreeParts>, AllocError>
    ensures same { IfOk result (λ v. v.items ≡ map tree_parts trees.now) }
    ensures rising { IfOk result (λ v. All (λ t. IsRising t.stash) v.items) }
{
    let mut parts = Vec::with_capacity(alloc, trees.len())?;
    for tree in trees {
        parts.push(tree.parts(alloc)?)?;
    }
    Ok(parts)
}

/// Copies the table.
fn table_copy(alloc: Global, table: &[u32]) -> Result<Vec<u32>, AllocError>
    ensures { IfOk result (λ v. v.items ≡ table.now) }
{
    let mut copy = Vec::with_capacity(alloc, table.len())?;
    copy.extend_from_slice(table)?;
    Ok(copy)
}

impl<S: Sealer> Core<S> {
    /// Returns the number of bytes that the core's sealer adds to a bucket.
    pub fn overhead(&self) -> usize
        ensures { result ≡ (S.cipher self.now.sealer).overhead }
    {
        self.sealer.overhead()
    }

    /// Returns, for each block of the last tree, 0 or the leaf that the block is mapped to plus one.
    pub fn table(&self) -> &[u32]
        ensures { result.now ≡ self.now.state.table }
    {
        &self.table
    }

    /// Returns copies of the parts that a client keeps. `from_parts` makes the same core from them. Fails only if
    /// memory runs out.
    pub fn parts(&self, alloc: Global) -> Result<Parts, AllocError>
        ensures same { IfOk result (λ p. p ≡ parts_of self.now.device self.now.state) }
        ensures right { IfOk result (λ p. AreParts (S.cipher self.now.sealer).overhead p) }
        ensures again { IfOk result (λ p. state_of p ≡ self.now.state) }
    {
        let mut parts = self.parts_without_table(alloc)?;
        parts.table = table_copy(alloc, &self.table)?;
        Ok(parts)
    }

    /// Returns copies of the parts that a client keeps, but of the table none: its place is empty. So the copies don't grow with
    /// the table, which [`Core::table`] lends. Fails only if memory runs out.
    pub fn parts_without_table(&self, alloc: Global) -> Result<Parts, AllocError>
        ensures same { IfOk result (λ p. p ≡ record (parts_of self.now.device self.now.state) { table = [] }) }
        ensures right { IfOk result (λ p. AreParts (S.cipher self.now.sealer).overhead (record p { table = self.now.state.table })) }
        ensures again { IfOk result (λ p. state_of (record p { table = self.now.state.table }) ≡ self.now.state) }
    {
        let trees = trees_parts(alloc, &self.trees)?;
        self.parts_beside(alloc, trees)
    }

    /// Returns the core's parts without its table, with these parts of its trees.
    fn parts_beside(&self, alloc: Global, trees: Vec<TreeParts>) -> Result<Parts, AllocError>
        requires { trees.items ≡ map tree_parts self.now.state.trees }
        ensures { IfOk result (λ p. p ≡ record (parts_of self.now.device self.now.state) { table = [] }) }
    {
        Ok(Parts {
            device: self.device.copy(),
            tickets: self.next,
            nonce: self.nonce,
            table: Vec::new(alloc),
            trees,
            failure: self.failure,
            waiting: pendings(alloc, &self.queue)?,
            entry_number: u32::from(self.entry_number),
            held_entry: self.held_entry,
            held_data: Bytes::copy(alloc, self.held_data.as_slice())?,
            message: Bytes::copy(alloc, self.message.as_slice())?,
            stalled: self.lost,
        })
    }
}
