//! The core has received a path: it changes the oldest command's block and stores the path again.
ghost use Rattle.std.specs.Prelude.{◌≡◌, ◌+◌, ◌-◌, ◌*◌, ◌%◌, ◌<◌, ◌≤◌, ◌^◌, ℕ, List, [], ◌∷◌, length, IfOk, None, OnErr, slice_set, ◌==◌, if◌then◌else◌};
ghost use Rattle.oram_geometry.specs.Sizes.{trees_of, depth_of, blocks_in};
ghost use Rattle.oram_hash.specs.Path.{path_of};
ghost use Rattle.oram_hash.specs.Tree.{IsPathOf};
ghost use Rattle.oram_semantics.specs.Answers.Outcome.{Good};
ghost use Rattle.oram_semantics.specs.declared.events.Reason.TheVariants as reason;
ghost use Rattle.oram_semantics.specs.declared.events.Note.TheVariants as note;
ghost use Rattle.oram_wire.specs.HostMessages.{store_body};
ghost use Rattle.oram_semantics.specs.Content.{block_of, new_leaf, entry_tree};
ghost use Rattle.oram_semantics.specs.Messages.{requested};
ghost use Rattle.oram_semantics.specs.Moves.{Fits, MovesTo, on_answer};
ghost use Rattle.oram_semantics.specs.Blocks.{next_map_entry, kept_of};
ghost use Rattle.oram_semantics.specs.Progress.Status.{Waiting};
ghost use Rattle.oram_semantics.specs.Run.{shown_by};
ghost use Rattle.oram_semantics.specs.State.{World, status_in};
ghost use Rattle.oram_semantics.specs.declared.events.Submission.{Submission};
ghost use Rattle.oram_core.specs.Core.{IsPathStore, IsSameDevice, NotesChanges, scheme_of};
ghost use Rattle.oram_core.specs.Changes.{AreNoted, NotesFew};
ghost use Rattle.oram_core.specs.Steps.{Heard};
ghost use Rattle.oram_core.specs.AnswerMeaning.{IsUseOf};
ghost use Rattle.oram_core.specs.PlainSteps.{done, failed_by, stored_by, is_misled};
ghost use Rattle.oram_core.specs.Rooms.{IsRoom};

use crate::changes::NotedChanges;
use crate::machine::Core;
use crate::messages::{MessageCopies, Room, begun_store};
use crate::path_access::{PathAccess, edit_for, map_entry_below};
use oram_bucket::Sealer;
use oram_bytes::Bytes;
use oram_hash::PathView;
use oram_semantics::{Note, Reaction, Reason};
use oram_tree::{AccessRequest, Lookup, TreeFault};
use oram_wire::HEADER_LEN;
use std::alloc::{AllocError, Global};

/// At a command's first access, enters the new leaf of its block into the table, and notes that this entry changes.
fn set_map_entry(
    table: &mut Vec<u32>,
    noted: &mut NotedChanges,
    entry_number: u8,
    block: u32,
    leaf: u32,
)
    requires block { entry_number ≡ 0 → block < length table.old.items }
    requires leaf { leaf < 2 ^ 24 }
    ensures set { table.new.items ≡ (if entry_number == 0 then slice_set table.old.items block (leaf + 1) else table.old.items) }
    ensures noted { (since : List ℕ) → AreNoted noted.old since table.old.items → AreNoted noted.new since table.new.items }
    ensures few { NotesFew noted.old noted.new }
{
    if entry_number == 0 {
        noted.note(block);
        table[block as usize] = leaf + 1;
    }
}

/// Returns the data to keep for the reply: that of the block in tree 0, and nothing in a map tree.
fn kept_for_reply(alloc: Global, tree: u8, before: Vec<u8>) -> Bytes
    ensures { result ≡ kept_of tree before.items }
{
    match tree {
        0 => Bytes::from_vec(before),
        _ => Bytes::from_vec(Vec::new(alloc)),
    }
}

impl<S: Sealer> Core<S> {
    /// Takes the path that the oldest command fetched: reads or changes its block, gives the block a new leaf, and sends the
    /// path back. Fails the device if the path can't be read, or the position map is wrong.
    pub(crate) fn store(
        &mut self,
        alloc: Global,
        path: &PathView<'_>,
    ) -> Result<Reaction, AllocError>
        requires waiting { status_in self.old.state ≡ Waiting }
        requires entry_number { self.old.state.entry_number % 2 ≡ 0 }
        requires path { let v = scheme_of S.cipher self.old in let s = self.old.state in
            path.now ≡ path_of v.device (entry_tree v.device s.entry_number) (requested s.message).leaf v.cipher.overhead path.now.bytes }
        ensures kept { IsSameDevice self.old self.new }
        ensures noted { NotesChanges self.old self.new }
        ensures few { self.new.state.failure ≡ None → NotesFew self.old.noted self.new.noted }
        ensures moves { let v = scheme_of S.cipher self.old in let s = self.old.state in
            (w : World) → Fits v s w → IsPathOf (w.records (entry_tree v.device s.entry_number)) path.now
            → IfOk result (λ r. MovesTo v s w (on_answer v s w Waiting Good) (shown_by r) self.new.state) }
        ensures heard { IfOk result (λ r. Heard (scheme_of S.cipher self.old) self.old.state (done r self.new.state)) }
        ensures uses { IfOk result (λ r. IsUseOf (scheme_of S.cipher self.old) self.old.state path.now r.note) }
        ensures err { OnErr result (self.new ≡ self.old) }
    {
        let path_access = self.path_access();
        let levels = usize::from(self.device.depth(path_access.tree)) + 1;
        let path_len = levels * self.device.record_len(self.sealer.overhead());
        let room = Room::new(alloc, HEADER_LEN + path_len, self.queue.len())?;
        let mut message = begun_store(alloc, path_access.tree, path_access.leaf, path_len)?;
        let request = AccessRequest {
            address: path_access.block,
            old_leaf: path_access.leaf,
            new_leaf: path_access.new_leaf,
            nonce: self.nonce,
        };
        let looked = self.trees[usize::from(path_access.tree)].access_to(
            alloc,
            &self.device,
            &self.sealer,
            path,
            request,
            edit_for(&self.device, path_access.tree, &self.queue[0]),
            &mut message,
        );
        match looked {
            Ok(lookup) => Ok(self.adopt_access(alloc, path_access, lookup, message, room)),
            Err(fault) => match fault {
                TreeFault::Unreadable => {
                    let reason = Reason::Tampered(path_access.tree, 0);
                    let replies = room.fail(&self.queue);
                    Ok(self.fail(alloc, reason, replies))
                }
                TreeFault::OutOfMemory => Err(AllocError),
            },
        }
    }

    /// Returns whether the position map is wrong: it names a block that wasn't found, or the entry that it has for the tree
    /// below is no leaf there.
    fn is_misled(&self, path_access: &PathAccess, found: bool, map_entry: u32) -> bool
        requires healthy { self.now.state.failure ≡ None }
        requires tree { path_access.now.tree ≡ entry_tree self.now.device self.now.state.entry_number }
        requires range { path_access.now.tree < trees_of self.now.device }
        requires block { path_access.now.block < blocks_in self.now.device path_access.now.tree }
        ensures { (x : Submission) (before : List ℕ) → path_access.now.block ≡ block_of self.now.device path_access.now.tree x
            → map_entry ≡ next_map_entry self.now.device path_access.now.tree x before
            → result ≡ is_misled (scheme_of S.cipher self.now) self.now.state x found before }
    {
        let expected = match self.entry_number {
            0 => self.table[path_access.block as usize],
            _ => self.held_entry,
        };
        let is_missing = expected != 0 && !found;
        let is_no_leaf = path_access.tree > 0
            && map_entry > 1 << self.device.depth(path_access.tree - 1);
        is_missing || is_no_leaf
    }

    /// Goes on after an access to a tree: stores the path, or fails the device if the position map is wrong.
    fn adopt_access(
        &mut self,
        alloc: Global,
        path_access: PathAccess,
        lookup: Lookup,
        message: Vec<u8>,
        room: Room,
    ) -> Reaction
        requires waiting { status_in self.old.state ≡ Waiting }
        requires entry_number { self.old.state.entry_number % 2 ≡ 0 }
        requires tree { path_access.tree ≡ entry_tree self.old.device self.old.state.entry_number }
        requires leaf { path_access.leaf ≡ (requested self.old.state.message).leaf }
        requires oldest { (x : Submission) (rest : List Submission) → self.old.state.queue ≡ x ∷ rest
            → (path_access.block ≡ block_of self.old.device path_access.tree x) × (path_access.new_leaf ≡ new_leaf self.old.device path_access.tree x) }
        requires ranges { (path_access.tree < trees_of self.old.device) × (path_access.block < blocks_in self.old.device path_access.tree)
            × (path_access.leaf < 2 ^ depth_of self.old.device path_access.tree) × (path_access.new_leaf < 2 ^ depth_of self.old.device path_access.tree) }
        requires whole { length lookup.before.items ≡ self.old.device.block_bytes }
        requires message { IsPathStore self.old.device (S.cipher self.old.sealer).overhead path_access.tree path_access.leaf message.items }
        requires room { IsRoom (length message.items) (length self.old.state.queue) room }
        ensures kept { IsSameDevice self.old self.new }
        ensures noted { NotesChanges self.old self.new }
        ensures few { self.new.state.failure ≡ None → NotesFew self.old.noted self.new.noted }
        ensures ok { let v = scheme_of S.cipher self.old in let s = self.old.state in
            (x : Submission) (rest : List Submission) (records : List ℕ) → s.queue ≡ x ∷ rest
            → message.items ≡ store_body path_access.tree path_access.leaf records
            → done result self.new.state ≡ (if is_misled v s x lookup.found lookup.before.items
            then failed_by s (reason.Tampered (entry_tree v.device s.entry_number) 0)
            else stored_by v s x lookup.before.items records) }
    {
        let Lookup { before, found } = lookup;
        let map_entry = map_entry_below(&self.device, path_access.tree, self.oldest(), &before);
        if self.is_misled(&path_access, found, map_entry) {
            let replies = room.fail(&self.queue);
            return self.fail(alloc, Reason::Tampered(path_access.tree, 0), replies);
        }
        self.commit(alloc, path_access, before, map_entry, room.send(message))
    }

    /// Sends the path of an access to the host, and changes the state accordingly.
    fn commit(
        &mut self,
        alloc: Global,
        path_access: PathAccess,
        before: Vec<u8>,
        map_entry: u32,
        sending: MessageCopies,
    ) -> Reaction
        requires waiting { status_in self.old.state ≡ Waiting }
        requires entry_number { self.old.state.entry_number % 2 ≡ 0 }
        requires tree { path_access.tree ≡ entry_tree self.old.device self.old.state.entry_number }
        requires whole { length before.items ≡ self.old.device.block_bytes }
        requires sending { IsPathStore self.old.device (S.cipher self.old.sealer).overhead path_access.tree (requested self.old.state.message).leaf sending.kept
            × (sending.sends.items ≡ sending.kept ∷ []) }
        requires oldest { (x : Submission) (rest : List Submission) → self.old.state.queue ≡ x ∷ rest
            → (path_access.block ≡ block_of self.old.device path_access.tree x) × (path_access.new_leaf ≡ new_leaf self.old.device path_access.tree x)
            × (map_entry ≡ next_map_entry self.old.device path_access.tree x before.items) }
        requires block { path_access.block < blocks_in self.old.device path_access.tree }
        requires leaf { path_access.new_leaf < 2 ^ depth_of self.old.device path_access.tree }
        requires map_entry { map_entry ≤ 2 ^ depth_of self.old.device (path_access.tree - 1) }
        ensures kept { IsSameDevice self.old self.new }
        ensures noted { NotesChanges self.old self.new }
        ensures few { NotesFew self.old.noted self.new.noted }
        ensures ok { let s = self.old.state in
            done result self.new.state ≡ record {
              note = note.Taken;
              replies = [];
              sends = sending.kept ∷ [];
              state = record s {
                table = if s.entry_number == 0 then slice_set s.table path_access.block (path_access.new_leaf + 1) else s.table;
                nonce = s.nonce + (depth_of self.old.device path_access.tree + 1);
                entry_number = s.entry_number + 1;
                held_entry = map_entry;
                held_data = kept_of path_access.tree before.items;
                message = sending.kept;
              };
            } }
    {
        set_map_entry(
            &mut self.table,
            &mut self.noted,
            self.entry_number,
            path_access.block,
            path_access.new_leaf,
        );
        self.nonce += u64::from(self.device.depth(path_access.tree)) + 1;
        self.entry_number += 1;
        self.held_entry = map_entry;
        self.held_data = kept_for_reply(alloc, path_access.tree, before);
        let MessageCopies { kept, sends } = sending;
        self.message = kept;
        Reaction {
            note: Note::Taken,
            replies: Vec::new(alloc),
            sends,
        }
    }
}
