//! What a PUT does: it replaces the record of a node that has one, or adds a record that waits to be committed.
ghost use Rattle.std.specs.Prelude.{◌≡◌, ◌≢◌, ◌⊎◌, ◌<◌, ◌+◌, Contains, [], ℕ, length, false, None, Some, Err, IfErr, IfOk, IsSome, IsSomeAnd, MatchResult, OnErr, OnOk};
ghost use Rattle.oram_host.specs.Refusals.{code_of};
ghost use Rattle.oram_layout.specs.Limits.{nodes_of};
ghost use Rattle.oram_layout.specs.Trees.{cell_at, sizes_of, tree_at};
ghost use Rattle.oram_store.specs.Answers.{answer_by};
ghost use Rattle.oram_store.specs.Crashes.{CommitsPuts, Serves};
ghost use Rattle.oram_store.specs.Groups.{FitsNode, IsOfTrees, message_of};
ghost use Rattle.oram_store.specs.KeptRecords.{IsSound};
ghost use Rattle.oram_store.specs.Messages.{OfHost};
ghost use Rattle.oram_store.specs.RecordFile.{Calls, IsReason, Runs};
ghost use Rattle.oram_store.specs.Refusals.{IsRefused, refusal_by};
ghost use Rattle.oram_store.specs.declared.groups.Change.{Change};
ghost use Rattle.oram_wire.specs.declared.host_messages.HostAnswer.{HostAnswer};
ghost use Rattle.oram_wire.specs.declared.host_messages.HostRequest.{HostRequest};

use crate::cells::has_record;
use crate::faults::StoreFault;
use crate::groups::NodePut;
use crate::store::{FileStore, MOST_PENDING, commit_record};
use oram_host::HostRefusal;
use oram_layout::Tree;
use oram_redo::{FileKind, FilePair};

impl<F: FilePair> FileStore<F> {
    /// Returns a PUT with its tree, or why the trees refuse it.
    pub(crate) fn accepted_put<'a>(
        &self,
        number: u8,
        node: u32,
        bytes: &'a [u8],
    ) -> Result<NodePut<'a>, HostRefusal>
        ensures message { IfOk result (λ put. message_of (Change.Put put) ≡ OfHost (HostRequest.Put number node bytes.now)) }
        ensures fits { IfOk result (λ put. FitsNode put × IsOfTrees self.now.trees (Change.Put put)) }
        ensures allowed { OnOk result (refusal_by self.now.trees (HostRequest.Put number node bytes.now) ≡ None) }
        ensures refused { IfErr result (λ why. refusal_by self.now.trees (HostRequest.Put number node bytes.now) ≡ Some why) }
        ensures code { IfErr result (λ why. code_of why ≢ 6) }
    {
        let tree = self.changeable_tree(number)?;
        if node >= tree.shape.nodes() {
            return Err(HostRefusal::BadNode);
        }
        if bytes.len() != tree.shape.record_len as usize {
            return Err(HostRefusal::BadLength);
        }
        Ok(NodePut {
            number,
            tree,
            node,
            bytes,
        })
    }

    /// Carries out a PUT.
    pub(crate) fn put(&mut self, number: u8, node: u32, bytes: &[u8]) -> Result<(), HostRefusal>
        ensures allowed { OnOk result (refusal_by self.old.trees (HostRequest.Put number node bytes.now) ≡ None) }
        ensures refused { IfErr result (IsRefused self.old.trees (HostRequest.Put number node bytes.now)) }
        ensures untouched { IsSome (refusal_by self.old.trees (HostRequest.Put number node bytes.now)) → self.new ≡ self.old }
        ensures trees { self.new.trees ≡ self.old.trees }
        ensures serves { F.model.is_honest self.new.file.files → IsSound F.model self.old → MatchResult result
            (λ _. Serves F.model (HostRequest.Put number node bytes.now) HostAnswer.Done self.old self.new)
            (λ why. Serves F.model (HostRequest.Put number node bytes.now) (HostAnswer.Refused (code_of why)) self.old self.new) }
        ensures runs { Runs F.model self.old.file self.new.file }
        ensures running { OnOk result (self.new.file.has_stopped ≡ false) }
        ensures failure { result ≡ Err HostRefusal.OutOfMemory → IsSomeAnd self.new.failure (IsReason F.model self.old.file self.new.file) }
    {
        let put = self.accepted_put(number, node, bytes)?;
        match self.put_record(&put.tree, put.node, put.bytes) {
            Ok(()) => Ok(()),
            Err(fault) => Err(self.refuse(fault)),
        }
    }

    /// Commits the pending PUTs if there are too many, or if one of them is for this cell.
    fn make_room(&mut self, cell: u64) -> Result<(), StoreFault>
        ensures room { OnOk result (length self.new.pending < 4096) }
        ensures fresh { OnOk result (Contains self.new.pending cell → ⊥) }
        ensures stays { OnOk result ((self.new ≡ self.old) ⊎ (self.new.pending ≡ [])) }
        ensures commits_puts { IsSound F.model self.old → CommitsPuts F.model self.old self.new }
        ensures trees { self.new.trees ≡ self.old.trees }
        ensures calls { Calls F.model result self.old.file self.new.file }
    {
        if self.pending.len() >= MOST_PENDING || self.pending.contains(&cell) {
            return self.commit_puts();
        }
        Ok(())
    }

    /// Puts a record. If the node has one already, it commits the new one at once; if not, the new one waits to be
    /// committed.
    fn put_record(&mut self, tree: &Tree, node: u32, bytes: &[u8]) -> Result<(), StoreFault>
        requires node { node < nodes_of (sizes_of tree.now.shape) }
        requires whole { length bytes.now ≡ tree.now.shape.record_len }
        ensures serves { (number : ℕ) → tree_at self.old.trees number ≡ Some tree.now → F.model.is_honest self.new.file.files → IsSound F.model self.old → Serves F.model (HostRequest.Put number node bytes.now) (answer_by result) self.old self.new }
        ensures trees { self.new.trees ≡ self.old.trees }
        ensures calls { Calls F.model result self.old.file self.new.file }
        ensures running { OnOk result (self.new.file.has_stopped ≡ false) }
    {
        self.make_room(tree.cell_at(node))?;
        self.put_in_cell(tree, node, bytes)
    }

    /// Puts a record into a cell for which no record waits.
    fn put_in_cell(&mut self, tree: &Tree, node: u32, bytes: &[u8]) -> Result<(), StoreFault>
        requires node { node < nodes_of (sizes_of tree.now.shape) }
        requires whole { length bytes.now ≡ tree.now.shape.record_len }
        requires room { length self.old.pending < 4096 }
        ensures serves { (number : ℕ) → tree_at self.old.trees number ≡ Some tree.now → F.model.is_honest self.new.file.files → IsSound F.model self.old
            → (Contains self.old.pending (cell_at tree.now node) → ⊥)
            → Serves F.model (HostRequest.Put number node bytes.now) (answer_by result) self.old self.new }
        ensures trees { self.new.trees ≡ self.old.trees }
        ensures calls { Calls F.model result self.old.file self.new.file }
        ensures running { OnOk result (self.new.file.has_stopped ≡ false) }
    {
        if has_record(self.alloc, &mut self.file, tree, node)? {
            self.replace_record(tree, node, bytes)
        } else {
            self.add_record(tree, node, bytes)
        }
    }

    /// Replaces the record of a node.
    fn replace_record(&mut self, tree: &Tree, node: u32, bytes: &[u8]) -> Result<(), StoreFault>
        requires node { node < nodes_of (sizes_of tree.now.shape) }
        requires whole { length bytes.now ≡ tree.now.shape.record_len }
        ensures serves { (number : ℕ) → tree_at self.old.trees number ≡ Some tree.now → IsSound F.model self.old → Serves F.model (HostRequest.Put number node bytes.now) (answer_by result) self.old self.new }
        ensures trees { self.new.trees ≡ self.old.trees }
        ensures calls { Calls F.model result self.old.file self.new.file }
        ensures running { OnOk result (self.new.file.has_stopped ≡ false) }
    {
        self.commit_puts()?;
        commit_record(self.alloc, &mut self.file, tree, node, bytes)
    }

    /// Writes a record into a cell that has none, and for which none waits. Then this record waits to be committed.
    fn add_record(&mut self, tree: &Tree, node: u32, bytes: &[u8]) -> Result<(), StoreFault>
        requires node { node < nodes_of (sizes_of tree.now.shape) }
        requires whole { length bytes.now ≡ tree.now.shape.record_len }
        requires room { length self.old.pending < 4096 }
        ensures serves { (number : ℕ) → tree_at self.old.trees number ≡ Some tree.now → IsSound F.model self.old
            → (Contains self.old.pending (cell_at tree.now node) → ⊥) → F.model.seen self.old.file.files FileKind.Records (cell_at tree.now node) ≢ 1 → Serves F.model (HostRequest.Put number node bytes.now) (answer_by result) self.old self.new }
        ensures trees { self.new.trees ≡ self.old.trees }
        ensures calls { Calls F.model result self.old.file self.new.file }
        ensures running { OnOk result (self.new.file.has_stopped ≡ false) }
    {
        let cell = tree.cell_at(node);
        self.file.write_loose(cell + 1, bytes)?;
        self.pending.push(cell)?;
        Ok(())
    }
}
