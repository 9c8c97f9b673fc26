//! The access that a command makes to a tree.
ghost use Rattle.std.specs.Prelude.{◌≡◌, ◌+◌, ◌-◌, ◌*◌, ◌%◌, ◌<◌, ◌≤◌, ◌^◌, ℕ, List, ◌∷◌, length, replicate, slice_index, slice_range, ◌==◌, if◌then◌else◌};
ghost use Rattle.std.specs.Int.{w32, from_be_bytes};
ghost use Rattle.oram_geometry.specs.Sizes.{trees_of, depth_of, blocks_in, fanout, leaf_of};
ghost use Rattle.oram_tree.specs.Edits.{IsEditOf, edited_content};
ghost use Rattle.oram_semantics.specs.Blocks.{block_after, next_map_entry};
ghost use Rattle.oram_semantics.specs.Content.{block_of, new_leaf, entry_tree};
ghost use Rattle.oram_semantics.specs.Messages.{requested};
ghost use Rattle.oram_semantics.specs.Progress.Status.{Waiting};
ghost use Rattle.oram_semantics.specs.State.{status_in};
ghost use Rattle.oram_semantics.specs.declared.events.Submission.{Submission};
ghost use Rattle.oram_semantics.specs.Agree.{IsAllowed};

use crate::machine::Core;
use crate::messages::leaf_named;
use byteorder::{BigEndian, ByteOrder};
use oram_bucket::Sealer;
use oram_geometry::Device;
use oram_semantics::{Command, Submission};
use oram_tree::Edit;

/// The access that the oldest command makes to a tree.
#[derive(Clone, Copy)]
pub(crate) struct PathAccess {
    pub tree: u8,
    pub block: u32,
    /// The leaf whose path was fetched.
    pub leaf: u32,
    /// The leaf that the block gets.
    pub new_leaf: u32,
}

/// Returns the entry that `map_block`, a block of `tree`, has for the command's block in the tree below: 0, or its leaf
/// plus one. Returns 0 for tree 0, which is no map.
pub(crate) fn map_entry_below(
    device: &Device,
    tree: u8,
    submission: &Submission,
    map_block: &[u8],
) -> u32
    requires tree { tree < trees_of device.now }
    requires allowed { IsAllowed device.now submission.now }
    requires whole { length map_block.now ≡ device.now.block_bytes }
    ensures { result ≡ next_map_entry device.now tree submission.now map_block.now }
{
    match tree {
        0 => 0,
        tree => entry_in(map_block, entry_of(device, tree - 1, submission)),
    }
}

/// Returns the entry of a map block with this index.
fn entry_in(map_block: &[u8], index: usize) -> u32
    requires { 4 * index + 4 ≤ length map_block.now }
    ensures { result ≡ from_be_bytes w32 (slice_range map_block.now (4 * index) (4 * index + 4)) }
{
    BigEndian::read_u32(&map_block[4 * index..4 * index + 4])
}

/// Returns the index of the entry that a map block has for the command's block in the tree `below`.
fn entry_of(device: &Device, below: u8, submission: &Submission) -> usize
    requires tree { below < trees_of device.now }
    requires allowed { IsAllowed device.now submission.now }
    ensures value { result ≡ block_of device.now below submission.now % fanout device.now }
    ensures range { result < fanout device.now }
{
    device.address_in(below, submission.command.address()) as usize % device.fanout()
}

/// Returns the leaf that the command's new word names in `tree`.
pub(crate) fn new_leaf(device: &Device, tree: u8, submission: &Submission) -> u32
    requires tree { tree < trees_of device.now }
    requires allowed { IsAllowed device.now submission.now }
    ensures value { result ≡ new_leaf device.now tree submission.now }
    ensures range { result < 2 ^ depth_of device.now tree }
{
    device.leaf_of(tree, submission.words.as_slice()[2 * usize::from(tree) + 1])
}

/// Returns the leaf whose path a command with these words fetches in `tree`. `map_entry` is the map entry of the command's
/// block; if it is 0, the command's spare word names the leaf.
pub(crate) fn leaf_for(device: &Device, tree: u8, map_entry: u32, words: &[u64]) -> u32
    requires tree { tree < trees_of device.now }
    requires map_entry { map_entry ≤ 2 ^ depth_of device.now tree }
    requires words { length words.now ≡ 2 * trees_of device.now }
    ensures value { result ≡ (if map_entry == 0 then leaf_of device.now tree (slice_index words.now (2 * tree)) else map_entry - 1) }
    ensures range { result < 2 ^ depth_of device.now tree }
{
    match map_entry {
        0 => device.leaf_of(tree, words[2 * usize::from(tree)]),
        map_entry => map_entry - 1,
    }
}

/// Zeros for a block of any size.
static ZEROS: [u8; 4096] = [0; 4096];

/// Returns the data of a discarded block.
fn zeros(device: &Device) -> &'static [u8]
    ensures { result.now ≡ replicate device.now.block_bytes 0 }
{
    &ZEROS[..device.block_bytes()]
}

/// Returns the edit that a command makes in `tree`: in tree 0 the command's own change; in a map tree, an entry for the
/// new leaf of the command's block in the tree below.
pub(crate) fn edit_for<'a>(device: &Device, tree: u8, submission: &'a Submission) -> Edit<'a>
    requires tree { tree < trees_of device.now }
    requires allowed { IsAllowed device.now submission.now }
    ensures edit { IsEditOf device.now tree result }
    ensures block { (bytes : List ℕ) → edited_content result bytes ≡ block_after device.now tree submission.now bytes }
{
    match tree {
        0 => match &submission.command {
            Command::Read(_) => Edit::Keep,
            Command::Write(_, bytes) => Edit::Replace(bytes.as_slice()),
            Command::Discard(_) => Edit::Replace(zeros(device)),
        },
        tree => Edit::Entry(
            entry_of(device, tree - 1, submission),
            new_leaf(device, tree - 1, submission) + 1,
        ),
    }
}

impl<S: Sealer> Core<S> {
    /// Returns the tree that the outstanding message is for.
    pub(crate) fn tree_at_work(&self) -> u8
        ensures value { result ≡ entry_tree self.now.device self.now.state.entry_number }
        ensures range { result < trees_of self.now.device }
    {
        self.device.trees() - 1 - self.entry_number / 2
    }

    /// Returns the oldest command without a reply.
    pub(crate) fn oldest(&self) -> &Submission
        requires { 0 < length self.now.state.queue }
        ensures first { (x : Submission) (rest : List Submission) → self.now.state.queue ≡ x ∷ rest → result.now ≡ x }
        ensures allowed { IsAllowed self.now.device result.now }
    {
        &self.queue[0]
    }

    /// Returns the access for which the outstanding FETCH was sent.
    pub(crate) fn path_access(&self) -> PathAccess
        requires { status_in self.now.state ≡ Waiting }
        ensures tree { result.tree ≡ entry_tree self.now.device self.now.state.entry_number }
        ensures leaf { result.leaf ≡ (requested self.now.state.message).leaf }
        ensures oldest { (x : Submission) (rest : List Submission) → self.now.state.queue ≡ x ∷ rest
            → (result.block ≡ block_of self.now.device result.tree x) × (result.new_leaf ≡ new_leaf self.now.device result.tree x) }
        ensures ranges { (result.tree < trees_of self.now.device) × (result.block < blocks_in self.now.device result.tree)
            × (result.leaf < 2 ^ depth_of self.now.device result.tree) × (result.new_leaf < 2 ^ depth_of self.now.device result.tree) }
    {
        let tree = self.tree_at_work();
        let submission = self.oldest();
        PathAccess {
            tree,
            block: self.device.address_in(tree, submission.command.address()),
            leaf: leaf_named(self.message.as_slice()),
            new_leaf: new_leaf(&self.device, tree, submission),
        }
    }
}
