//! The store: its trees, and what each request does to their records.
ghost use Rattle.std.specs.Prelude.{All, map, ◌≡◌, ◌≢◌, Contains, MatchOption, ◌⊎◌, ◌≤◌, ◌<◌, ◌+◌, ◌*◌, ◌^◌, ◌∷◌, ◌↔◌, [], ℕ, length, IsTrue, false, None, Option, Some, IfErr, IfOk, IfSome, IsOk, IsSome, IsSomeAnd, MatchResult, OnErr, OnOk};
ghost use Rattle.oram_host.specs.Path.{FitsAnswer, IsBehind};
ghost use Rattle.oram_host.specs.Refusals.{code_of};
ghost use Rattle.oram_layout.specs.Changes.{marks, record_patch};
ghost use Rattle.oram_layout.specs.Header.{entry_at, entry_bytes};
ghost use Rattle.oram_host.specs.declared.refusals.HostRefusal.{HostRefusal};
ghost use Rattle.oram_layout.specs.Limits.{TreeShape, nodes_of};
ghost use Rattle.oram_layout.specs.Trees.{cell_at, sizes_of, tree_at};
ghost use Rattle.oram_store.specs.Answers.{answer_by};
ghost use Rattle.oram_store.specs.Close.{Closes};
ghost use Rattle.oram_store.specs.Crashes.{CommitsPuts, Serves};
ghost use Rattle.oram_store.specs.Groups.{FitsTree, IsOfTrees, ServesGroup, message_of};
ghost use Rattle.oram_store.specs.KeptRecords.{IsSound};
ghost use Rattle.oram_store.specs.Messages.{OfHost};
ghost use Rattle.oram_store.specs.PendingCells.{AreCells};
ghost use Rattle.oram_store.specs.Reasons.{IsReasonFor, ReportsWhy};
ghost use Rattle.oram_store.specs.Refusals.{IsRefused, ChangesTrees, by_changeable, is_fixed, refusal_by};
ghost use Rattle.oram_redo.specs.Redo.{end_of};
ghost use Rattle.oram_store.specs.RecordFile.{Calls, Commits, IsReason, Runs, bounds};
ghost use Rattle.oram_store.specs.declared.groups.Change.{Change};
ghost use Rattle.oram_wire.specs.declared.host_messages.HostAnswer.{HostAnswer};
ghost use Rattle.oram_wire.specs.declared.host_messages.HostRequest.{HostRequest};

mod levels;
mod puts;
mod records;

use crate::batches::{cell_of, marks_of};
use crate::cells::read_path;
use crate::faults::StoreFault;
use crate::groups::{Change, PathStore, change_group};
use crate::record_file::RecordFile;
use oram_host::HostRefusal;
use oram_layout::{Shape, Tree, entry_place, next_base};
use oram_redo::{FileKind, FilePair, Patch};
use std::alloc::Global;
use std::marker::Model;

/// The tree in which the formatting of a disk puts the disk's identity, before it makes the disk's own trees.
pub const DISK_IDENTITY_TREE: u8 = 255;

/// The greatest number of records of a formatting that are committed together.
const MOST_PENDING: usize = 4_096;

/// A bucket server that keeps its records in a file.
#[derive(Drop)]
pub struct FileStore<F: FilePair> {
    alloc: Global,
    file: RecordFile<F>,
    /// The trees by number, as the file's header has them.
    trees: Vec<Option<Tree>>,
    /// The cells whose records were PUT and whose first bytes aren't set yet.
    pending: Vec<u64>,
    /// Why there was no room, the last time that a request or `commit_puts` found none.
    failure: Option<StoreFault>,
}

impl<F: FilePair> Model for FileStore<F> {
    ghost use Rattle.oram_store.specs.KeptRecords.{StoreValue};
    ghost use Rattle.oram_store.specs.PendingCells.{AreCells};
    ghost use Rattle.std.specs.Prelude.{◌≡◌, length};

    ghost Value = { StoreValue F };

    ghost view = { λ s. record { file = s.file; trees = s.trees.items; pending = s.pending.items; failure = s.failure } };

    ghost invariant = { λ s. (length s.trees.items ≡ 256) × AreCells s.pending.items };
}

/// Commits the marks which say that the records of these cells are there.
fn commit_marks<F: FilePair>(
    alloc: Global,
    file: &mut RecordFile<F>,
    cells: &[u64],
) -> Result<(), StoreFault>
    requires { AreCells cells.now }
    ensures commits { Commits F.model (marks cells.now) result file.old file.new }
    ensures calls { Calls F.model result file.old file.new }
    ensures running { OnOk result (file.new.has_stopped ≡ false) }
{
    let batch = marks_of(alloc, cells)?;
    file.commit(alloc, &batch)
}

/// Commits one patch.
fn commit_one<F: FilePair>(
    alloc: Global,
    file: &mut RecordFile<F>,
    at: u64,
    bytes: &[u8],
) -> Result<(), StoreFault>
    requires within { at + length bytes.now ≤ 2 ^ 62 }
    requires short { length bytes.now ≤ 2 ^ 21 }
    ensures commits { Commits F.model ((at, bytes.now) ∷ []) result file.old file.new }
    ensures calls { Calls F.model result file.old file.new }
    ensures running { OnOk result (file.new.has_stopped ≡ false) }
{
    file.commit(alloc, &[Patch { at, bytes }])
}

/// Commits a new record for a node that has one.
fn commit_record<F: FilePair>(
    alloc: Global,
    file: &mut RecordFile<F>,
    tree: &Tree,
    node: u32,
    bytes: &[u8],
) -> Result<(), StoreFault>
    requires node { node < nodes_of (sizes_of tree.now.shape) }
    requires whole { length bytes.now ≡ tree.now.shape.record_len }
    ensures commits { Commits F.model (record_patch tree.now node bytes.now ∷ []) result file.old file.new }
    ensures calls { Calls F.model result file.old file.new }
    ensures running { OnOk result (file.new.has_stopped ≡ false) }
{
    let cell = cell_of(alloc, bytes)?;
    commit_one(alloc, file, tree.cell_at(node), &cell)
}

/// Commits the entry of a tree.
fn commit_entry<F: FilePair>(
    alloc: Global,
    file: &mut RecordFile<F>,
    number: u8,
    tree: &Tree,
) -> Result<(), StoreFault>
    ensures commits { Commits F.model ((entry_at number, entry_bytes (Some tree.now)) ∷ []) result file.old file.new }
    ensures calls { Calls F.model result file.old file.new }
    ensures running { OnOk result (file.new.has_stopped ≡ false) }
{
    commit_one(alloc, file, entry_place(number), &tree.entry())
}

impl<F: FilePair> FileStore<F> {
    /// Returns a store over a file that was opened.
    pub(crate) fn new(alloc: Global, file: RecordFile<F>, trees: Vec<Option<Tree>>) -> FileStore<F>
        requires { length trees.items ≡ 256 }
        ensures { result ≡ record { file = file; trees = trees.items; pending = []; failure = None } }
    {
        FileStore {
            alloc,
            file,
            trees,
            pending: Vec::new(alloc),
            failure: None,
        }
    }

    fn tree_of(&self, number: u8) -> Option<Tree>
        ensures { result ≡ tree_at self.now.trees number }
    {
        self.trees[usize::from(number)]
    }

    /// Returns whether the records of a tree stay as they are. Those with a disk's identity do, once the disk has a tree of its
    /// own: so whoever formats a second disk here can't take the first one's identity away.
    fn is_fixed(&self, number: u8) -> bool
        ensures { result ≡ is_fixed self.now.trees number }
    {
        number == DISK_IDENTITY_TREE && self.tree_of(0).is_some()
    }

    /// Returns why there was no room, the last time that a request was refused with code 8 or `commit_puts` failed. After
    /// `Io` and `Closed` the file has to be opened again.
    pub fn failure(&self) -> Option<StoreFault>
        ensures { result ≡ self.now.failure }
    {
        self.failure
    }

    /// Returns the number of the system's error for which a call of the files failed last, if the system gave one.
    pub fn errno(&self) -> Option<i32> {
        self.file.errno()
    }

    /// Keeps the reason why there is no room, and returns the refusal.
    fn refuse(&mut self, fault: StoreFault) -> HostRefusal
        ensures why { result ≡ HostRefusal.OutOfMemory }
        ensures kept { self.new ≡ record self.old { failure = Some fault } }
    {
        self.failure = Some(fault);
        HostRefusal::OutOfMemory
    }

    /// Makes durable the records that a formatting has put so far. After `Err`, none of them is, and they still wait to be
    /// committed.
    pub fn commit_puts(&mut self) -> Result<(), StoreFault>
        ensures none { self.old.pending ≡ [] → IsOk result × (self.new ≡ self.old) }
        ensures none_pending { OnOk result (self.new.pending ≡ []) }
        ensures trees { self.new.trees ≡ self.old.trees }
        ensures commits_puts { IsSound F.model self.old → CommitsPuts F.model self.old self.new }
        ensures failure { MatchResult result (λ _. self.new.failure ≡ self.old.failure) (λ fault. self.new.failure ≡ Some fault) }
        ensures calls { Calls F.model result self.old.file self.new.file }
    {
        if self.pending.is_empty() {
            return Ok(());
        }
        match commit_marks(self.alloc, &mut self.file, &self.pending) {
            Ok(()) => {
                self.pending.clear();
                Ok(())
            }
            Err(fault) => {
                self.failure = Some(fault);
                Err(fault)
            }
        }
    }

    /// Commits the pending PUTs, and returns `front` and then the records of a path. Returns `None` if a record is
    /// missing.
    fn commit_puts_and_fetch(
        &mut self,
        tree: &Tree,
        leaf: u32,
        front: &[u8],
    ) -> Result<Option<Vec<u8>>, StoreFault>
        requires leaf { leaf < 2 ^ tree.now.shape.depth }
        requires one { length front.now ≡ 1 }
        ensures fits { IfOk result (λ found. IfSome found (λ v. IsBehind front.now FitsAnswer v.items)) }
        ensures serves { (number : ℕ) → tree_at self.old.trees number ≡ Some tree.now → F.model.is_honest self.new.file.files → IsSound F.model self.old → MatchResult result
            (λ found. MatchOption found (Serves F.model (HostRequest.Fetch number leaf) (HostAnswer.Refused 6) self.old self.new)
            (λ v. IsBehind front.now (λ bytes. Serves F.model (HostRequest.Fetch number leaf) (HostAnswer.Payload bytes) self.old self.new) v.items))
            (λ _. Serves F.model (HostRequest.Fetch number leaf) (HostAnswer.Refused 8) self.old self.new) }
        ensures none_pending { OnOk result (self.new.pending ≡ []) }
        ensures trees { self.new.trees ≡ self.old.trees }
        ensures calls { Calls F.model result self.old.file self.new.file }
        ensures running { OnOk result (self.new.file.has_stopped ≡ false) }
    {
        self.commit_puts()?;
        read_path(self.alloc, &mut self.file, tree, leaf, front)
    }

    /// Returns `front` and then the records of a path.
    pub(crate) fn fetch(
        &mut self,
        number: u8,
        leaf: u32,
        front: &[u8],
    ) -> Result<Vec<u8>, HostRefusal>
        requires { length front.now ≡ 1 }
        ensures ok { IfOk result (λ v. IsBehind front.now FitsAnswer v.items) }
        ensures allowed { OnOk result (refusal_by self.old.trees (HostRequest.Fetch number leaf) ≡ None) }
        ensures refused { IfErr result (IsRefused self.old.trees (HostRequest.Fetch number leaf)) }
        ensures untouched { IsSome (refusal_by self.old.trees (HostRequest.Fetch number leaf)) → self.new ≡ self.old }
        ensures trees { self.new.trees ≡ self.old.trees }
        ensures none_pending { OnOk result (self.new.pending ≡ []) }
        ensures serves { F.model.is_honest self.new.file.files → IsSound F.model self.old → MatchResult result
            (λ v. IsBehind front.now (λ bytes. Serves F.model (HostRequest.Fetch number leaf) (HostAnswer.Payload bytes) self.old self.new) v.items)
            (λ why. Serves F.model (HostRequest.Fetch number leaf) (HostAnswer.Refused (code_of why)) self.old self.new) }
        ensures runs { Runs F.model self.old.file self.new.file }
        ensures running { OnOk result (self.new.file.has_stopped ≡ false) }
        ensures failure { result ≡ Err HostRefusal.OutOfMemory → IsSomeAnd self.new.failure (IsReason F.model self.old.file self.new.file) }
    {
        let Some(tree) = self.tree_of(number) else {
            return Err(HostRefusal::NoShape);
        };
        if leaf >= tree.shape.leaves() {
            return Err(HostRefusal::BadLeaf);
        }
        match self.commit_puts_and_fetch(&tree, leaf, front) {
            Ok(Some(bytes)) => Ok(bytes),
            Ok(None) => Err(HostRefusal::Missing),
            Err(fault) => Err(self.refuse(fault)),
        }
    }

    /// Commits the pending PUTs, and replaces the records that the messages of a group have.
    fn commit_puts_and_change(&mut self, changes: &[Change<'_>]) -> Result<(), StoreFault>
        requires fits { All FitsTree changes.now }
        requires few { length changes.now ≤ 32 }
        ensures serves { All (IsOfTrees self.old.trees) changes.now → F.model.is_honest self.new.file.files → IsSound F.model self.old
            → ServesGroup F.model (map message_of changes.now) (answer_by result) self.old self.new }
        ensures none_pending { OnOk result (self.new.pending ≡ []) }
        ensures trees { self.new.trees ≡ self.old.trees }
        ensures calls { Calls F.model result self.old.file self.new.file }
        ensures running { OnOk result (self.new.file.has_stopped ≡ false) }
    {
        self.commit_puts()?;
        change_group(self.alloc, &mut self.file, changes)
    }

    /// Carries out STOREs and PUTs that the trees don't refuse: all of them, or none if there is no room.
    pub(crate) fn change_together(&mut self, changes: &[Change<'_>]) -> Result<(), HostRefusal>
        requires fits { All FitsTree changes.now }
        requires few { length changes.now ≤ 32 }
        ensures refused { IfErr result (λ why. why ≡ HostRefusal.OutOfMemory) }
        ensures trees { self.new.trees ≡ self.old.trees }
        ensures none_pending { OnOk result (self.new.pending ≡ []) }
        ensures serves { All (IsOfTrees self.old.trees) changes.now → F.model.is_honest self.new.file.files → IsSound F.model self.old → MatchResult result
            (λ _. ServesGroup F.model (map message_of changes.now) HostAnswer.Done self.old self.new)
            (λ why. ServesGroup F.model (map message_of changes.now) (HostAnswer.Refused (code_of why)) self.old self.new) }
        ensures runs { Runs F.model self.old.file self.new.file }
        ensures running { OnOk result (self.new.file.has_stopped ≡ false) }
        ensures failure { OnErr result (IsSomeAnd self.new.failure (IsReason F.model self.old.file self.new.file)) }
    {
        match self.commit_puts_and_change(changes) {
            Ok(()) => Ok(()),
            Err(fault) => Err(self.refuse(fault)),
        }
    }

    /// Returns a tree whose records can be changed, or why its records can't.
    pub(crate) fn changeable_tree(&self, number: u8) -> Result<Tree, HostRefusal>
        ensures of { IfOk result (λ tree. tree_at self.now.trees number ≡ Some tree) }
        ensures not_fixed { OnOk result (is_fixed self.now.trees number ≡ false) }
        ensures refused { IfErr result (λ why. (rest : TreeShape → Option HostRefusal) → by_changeable self.now.trees number rest ≡ Some why) }
        ensures code { IfErr result (λ why. code_of why ≢ 6) }
    {
        let Some(tree) = self.tree_of(number) else {
            return Err(HostRefusal::NoShape);
        };
        if self.is_fixed(number) {
            return Err(HostRefusal::ShapeTaken);
        }
        Ok(tree)
    }

    /// Returns a STORE with its tree, or why the trees refuse it.
    pub(crate) fn accepted_store<'a>(
        &self,
        number: u8,
        leaf: u32,
        records: &'a [u8],
    ) -> Result<PathStore<'a>, HostRefusal>
        ensures message { IfOk result (λ store. message_of (Change.Store store) ≡ OfHost (HostRequest.Store number leaf records.now)) }
        ensures fits { IfOk result (λ store. FitsTree (Change.Store store) × IsOfTrees self.now.trees (Change.Store store)) }
        ensures allowed { OnOk result (refusal_by self.now.trees (HostRequest.Store number leaf records.now) ≡ None) }
        ensures refused { IfErr result (λ why. refusal_by self.now.trees (HostRequest.Store number leaf records.now) ≡ Some why) }
        ensures code { IfErr result (λ why. code_of why ≢ 6) }
    {
        self.accepted_levels(number, 0, leaf, records)
    }

    /// Carries out a STORE: a group of one.
    pub(crate) fn store(&mut self, number: u8, leaf: u32, records: &[u8]) -> Result<(), HostRefusal>
        ensures allowed { OnOk result (refusal_by self.old.trees (HostRequest.Store number leaf records.now) ≡ None) }
        ensures refused { IfErr result (IsRefused self.old.trees (HostRequest.Store number leaf records.now)) }
        ensures untouched { IsSome (refusal_by self.old.trees (HostRequest.Store number leaf records.now)) → self.new ≡ self.old }
        ensures trees { self.new.trees ≡ self.old.trees }
        ensures none_pending { OnOk result (self.new.pending ≡ []) }
        ensures serves { F.model.is_honest self.new.file.files → IsSound F.model self.old → MatchResult result
            (λ _. Serves F.model (HostRequest.Store number leaf records.now) HostAnswer.Done self.old self.new)
            (λ why. Serves F.model (HostRequest.Store number leaf records.now) (HostAnswer.Refused (code_of why)) self.old self.new) }
        ensures runs { Runs F.model self.old.file self.new.file }
        ensures running { OnOk result (self.new.file.has_stopped ≡ false) }
        ensures failure { result ≡ Err HostRefusal.OutOfMemory → IsSomeAnd self.new.failure (IsReason F.model self.old.file self.new.file) }
    {
        let store = self.accepted_store(number, leaf, records)?;
        self.change_together(&[Change::Store(store)])
    }

    pub(crate) fn shape(
        &mut self,
        number: u8,
        depth: u8,
        record_len: u32,
    ) -> Result<(), HostRefusal>
        ensures allowed { OnOk result (refusal_by self.old.trees (HostRequest.Shape number depth record_len) ≡ None) }
        ensures refused { IfErr result (IsRefused self.old.trees (HostRequest.Shape number depth record_len)) }
        ensures untouched { IsSome (refusal_by self.old.trees (HostRequest.Shape number depth record_len)) → self.new ≡ self.old }
        ensures after { OnOk result (ChangesTrees self.old.trees (HostRequest.Shape number depth record_len) self.new.trees) }
        ensures same { OnErr result (self.new.trees ≡ self.old.trees) }
        ensures none_pending { OnOk result (self.new.pending ≡ []) }
        ensures serves { F.model.is_honest self.new.file.files → IsSound F.model self.old → MatchResult result
            (λ _. Serves F.model (HostRequest.Shape number depth record_len) HostAnswer.Done self.old self.new)
            (λ why. Serves F.model (HostRequest.Shape number depth record_len) (HostAnswer.Refused (code_of why)) self.old self.new) }
        ensures runs { Runs F.model self.old.file self.new.file }
        ensures running { OnOk result (self.new.file.has_stopped ≡ false) }
        ensures failure { result ≡ Err HostRefusal.OutOfMemory → ReportsWhy F.model self.old self.new (HostRequest.Shape number depth record_len) }
    {
        let Some(shape) = Shape::new(depth, record_len) else {
            return Err(HostRefusal::BadLength);
        };
        if self.tree_of(number).is_some() {
            return Err(HostRefusal::ShapeTaken);
        }
        match self.commit_puts_and_add(number, shape) {
            Ok(()) => Ok(()),
            Err(fault) => Err(self.refuse(fault)),
        }
    }

    /// Commits the pending PUTs, and adds a tree after all others.
    fn commit_puts_and_add(&mut self, number: u8, shape: Shape) -> Result<(), StoreFault>
        requires { tree_at self.old.trees number ≡ None }
        ensures serves { IsSound F.model self.old → Serves F.model (HostRequest.Shape number shape.depth shape.record_len) (answer_by result) self.old self.new }
        ensures after { OnOk result (ChangesTrees self.old.trees (HostRequest.Shape number shape.depth shape.record_len) self.new.trees) }
        ensures same { OnErr result (self.new.trees ≡ self.old.trees) }
        ensures none_pending { OnOk result (self.new.pending ≡ []) }
        ensures runs { Runs F.model self.old.file self.new.file }
        ensures running { OnOk result (self.new.file.has_stopped ≡ false) }
        ensures reason { IfErr result (IsReasonFor F.model self.old self.new (HostRequest.Shape number shape.depth shape.record_len)) }
    {
        self.commit_puts()?;
        let Some(tree) = Tree::place(shape, next_base(&self.trees)) else {
            return Err(StoreFault::NoRoom);
        };
        commit_entry(self.alloc, &mut self.file, number, &tree)?;
        self.trees[usize::from(number)] = Some(tree);
        Ok(())
    }
}

impl<F: FilePair> FileStore<F> {
    /// Returns whether the log has no entries.
    pub(crate) fn has_empty_log(&self) -> bool
        ensures { IsTrue result ↔ (end_of self.now.file.redo ≡ bounds.log_start) }
    {
        self.file.has_empty_log()
    }

    /// Commits the pending PUTs, syncs the records and empties the log, so that the next opening has nothing to replay. After
    /// `Ok` all records are on the disk, in their places.
    pub fn empty_log(&mut self) -> Result<(), StoreFault>
        ensures none_pending { OnOk result (self.new.pending ≡ []) }
        ensures trees { self.new.trees ≡ self.old.trees }
        ensures commits_puts { IsSound F.model self.old → CommitsPuts F.model self.old self.new }
        ensures failure { OnOk result (self.new.failure ≡ self.old.failure) }
        ensures closes { Closes F.model result self.old self.new.file }
    {
        self.commit_puts()?;
        self.file.restart()
    }
}
