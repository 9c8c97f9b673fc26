//! What the messages about some levels of a path do.
ghost use Rattle.std.specs.Prelude.{◌≡◌, ◌≢◌, ◌≤◌, ◌<◌, ◌^◌, [], ℕ, List, false, None, Some, Err, IfErr, IfOk, IsSome, IsSomeAnd, MatchResult, OnOk};
ghost use Rattle.oram_host.specs.Path.{FitsAnswer};
ghost use Rattle.oram_host.specs.Refusals.{code_of};
ghost use Rattle.oram_layout.specs.Limits.{TreeShape};
ghost use Rattle.oram_layout.specs.Trees.{shape_at, sizes_of, tree_at};
ghost use Rattle.oram_levels.specs.Messages.{FetchLevels, StoreLevels};
ghost use Rattle.oram_store.specs.Crashes.{CommitsPuts};
ghost use Rattle.oram_store.specs.Groups.{FitsPath, IsOfTrees, message_of};
ghost use Rattle.oram_store.specs.KeptRecords.{IsSound, records_of};
ghost use Rattle.oram_store.specs.LevelsAnswers.{GivesLevels, MayRefuseLevels, ServesLevels, levels_refusal};
ghost use Rattle.oram_store.specs.Messages.{OfLevels};
ghost use Rattle.oram_store.specs.RecordFile.{Calls, IsReason, Runs};
ghost use Rattle.oram_store.specs.declared.groups.Change.{Change};
ghost use Rattle.oram_wire.specs.HostMessages.{payload_answer};
ghost use Rattle.oram_wire.specs.declared.host_messages.HostAnswer.{HostAnswer};

use crate::cells::read_levels_answer;
use crate::faults::StoreFault;
use crate::groups::{Change, PathStore};
use crate::store::FileStore;
use oram_host::HostRefusal;
use oram_layout::Tree;
use oram_redo::FilePair;

impl<F: FilePair> FileStore<F> {
    /// Commits the pending PUTs, and returns the byte of a good answer and then the payload that the records of some levels make.
    fn commit_puts_and_fetch_levels(
        &mut self,
        tree: &Tree,
        first: u8,
        last: u8,
        leaf: u32,
    ) -> Result<Vec<u8>, StoreFault>
        requires leaf { leaf < 2 ^ tree.now.shape.depth }
        requires first { first ≤ last }
        requires last { last ≤ tree.now.shape.depth }
        ensures fits { IfOk result (λ v. (payload : List ℕ) × (v.items ≡ payload_answer payload) × FitsAnswer payload) }
        ensures commits { IsSound F.model self.old → CommitsPuts F.model self.old self.new }
        ensures levels { IfOk result (λ v. (number : ℕ) → tree_at self.old.trees number ≡ Some tree.now → F.model.is_honest self.new.file.files → IsSound F.model self.old
            → (payload : List ℕ) × (v.items ≡ payload_answer payload) × GivesLevels (records_of F.model self.old) number (sizes_of tree.now.shape) leaf first last payload) }
        ensures none_pending { OnOk result (self.new.pending ≡ []) }
        ensures trees { self.new.trees ≡ self.old.trees }
        ensures calls { Calls F.model result self.old.file self.new.file }
        ensures running { OnOk result (self.new.file.has_stopped ≡ false) }
    {
        self.commit_puts()?;
        read_levels_answer(self.alloc, &mut self.file, tree, leaf, first, last)
    }

    /// Carries out a FETCH of levels: returns the byte of a good answer, and then its payload.
    pub(crate) fn fetch_levels(
        &mut self,
        number: u8,
        first: u8,
        last: u8,
        leaf: u32,
    ) -> Result<Vec<u8>, HostRefusal>
        ensures ok { IfOk result (λ v. (payload : List ℕ) × (v.items ≡ payload_answer payload) × FitsAnswer payload) }
        ensures allowed { OnOk result (levels_refusal self.old.trees (FetchLevels number first last leaf) ≡ None) }
        ensures refused { IfErr result (MayRefuseLevels self.old.trees (FetchLevels number first last leaf)) }
        ensures untouched { IsSome (levels_refusal self.old.trees (FetchLevels number first last leaf)) → self.new ≡ self.old }
        ensures trees { self.new.trees ≡ self.old.trees }
        ensures none_pending { OnOk result (self.new.pending ≡ []) }
        ensures commits { IsSound F.model self.old → CommitsPuts F.model self.old self.new }
        ensures levels { IfOk result (λ v. F.model.is_honest self.new.file.files → IsSound F.model self.old
            → (payload : List ℕ) × (v.items ≡ payload_answer payload) × (s : TreeShape) × (shape_at self.old.trees number ≡ Some s)
            × GivesLevels (records_of F.model self.old) number s leaf first last payload) }
        ensures runs { Runs F.model self.old.file self.new.file }
        ensures running { OnOk result (self.new.file.has_stopped ≡ false) }
        ensures failure { result ≡ Err HostRefusal.OutOfMemory → IsSomeAnd self.new.failure (IsReason F.model self.old.file self.new.file) }
    {
        let Some(tree) = self.tree_of(number) else {
            return Err(HostRefusal::NoShape);
        };
        if leaf >= tree.shape.leaves() {
            return Err(HostRefusal::BadLeaf);
        }
        if last > tree.shape.depth {
            return Err(HostRefusal::BadNode);
        }
        if first > last {
            return Err(HostRefusal::BadLength);
        }
        match self.commit_puts_and_fetch_levels(&tree, first, last, leaf) {
            Ok(answer) => Ok(answer),
            Err(fault) => Err(self.refuse(fault)),
        }
    }

    /// Returns a STORE of levels with its tree, or why the trees refuse it.
    pub(crate) fn accepted_levels<'a>(
        &self,
        number: u8,
        first: u8,
        leaf: u32,
        records: &'a [u8],
    ) -> Result<PathStore<'a>, HostRefusal>
        ensures message { IfOk result (λ store. message_of (Change.StoreLevels store) ≡ OfLevels (StoreLevels number first leaf records.now)) }
        ensures fits { IfOk result (λ store. FitsPath store × IsOfTrees self.now.trees (Change.StoreLevels store)) }
        ensures allowed { OnOk result (levels_refusal self.now.trees (StoreLevels number first leaf records.now) ≡ None) }
        ensures refused { IfErr result (λ why. levels_refusal self.now.trees (StoreLevels number first leaf records.now) ≡ Some why) }
        ensures code { IfErr result (λ why. code_of why ≢ 6) }
    {
        let tree = self.changeable_tree(number)?;
        if leaf >= tree.shape.leaves() {
            return Err(HostRefusal::BadLeaf);
        }
        if first > tree.shape.depth {
            return Err(HostRefusal::BadNode);
        }
        let levels = usize::from(tree.shape.levels_from(first));
        if records.len() != levels * tree.shape.record_len as usize {
            return Err(HostRefusal::BadLength);
        }
        Ok(PathStore {
            number,
            tree,
            first,
            leaf,
            records,
        })
    }

    /// Carries out a STORE of levels: a group of one.
    pub(crate) fn store_levels(
        &mut self,
        number: u8,
        first: u8,
        leaf: u32,
        records: &[u8],
    ) -> Result<(), HostRefusal>
        ensures allowed { OnOk result (levels_refusal self.old.trees (StoreLevels number first leaf records.now) ≡ None) }
        ensures refused { IfErr result (MayRefuseLevels self.old.trees (StoreLevels number first leaf records.now)) }
        ensures untouched { IsSome (levels_refusal self.old.trees (StoreLevels number first leaf records.now)) → self.new ≡ self.old }
        ensures trees { self.new.trees ≡ self.old.trees }
        ensures none_pending { OnOk result (self.new.pending ≡ []) }
        ensures serves { F.model.is_honest self.new.file.files → IsSound F.model self.old → MatchResult result
            (λ _. ServesLevels F.model (StoreLevels number first leaf records.now) HostAnswer.Done self.old self.new)
            (λ why. ServesLevels F.model (StoreLevels number first leaf records.now) (HostAnswer.Refused (code_of why)) self.old self.new) }
        ensures runs { Runs F.model self.old.file self.new.file }
        ensures running { OnOk result (self.new.file.has_stopped ≡ false) }
        ensures failure { result ≡ Err HostRefusal.OutOfMemory → IsSomeAnd self.new.failure (IsReason F.model self.old.file self.new.file) }
    {
        let store = self.accepted_levels(number, first, leaf, records)?;
        self.change_together(&[Change::StoreLevels(store)])
    }
}
