//! What a request for the records of nodes in a row does.
ghost use Rattle.std.specs.Prelude.{◌≡◌, ◌≤◌, ◌<◌, ◌+◌, ◌*◌, ◌↔◌, [], ℕ, List, false, None, Some, Err, IfErr, IfOk, IsSome, IsSomeAnd, IsTrue, OnOk};
ghost use Rattle.oram_host.specs.Path.{FitsAnswer};
ghost use Rattle.oram_layout.specs.Limits.{nodes_of};
ghost use Rattle.oram_layout.specs.Trees.{sizes_of, tree_at};
ghost use Rattle.oram_records.specs.Messages.{rows_text};
ghost use Rattle.oram_store.specs.Crashes.{CommitsPuts};
ghost use Rattle.oram_store.specs.KeptRecords.{IsSound, records_of};
ghost use Rattle.oram_store.specs.RecordFile.{Calls, IsReason, Runs};
ghost use Rattle.oram_store.specs.RecordsAnswers.{MayRefuse, fits_answer, records_refusal};
ghost use Rattle.oram_store.specs.Rows.{rows_of};
ghost use Rattle.oram_wire.specs.HostMessages.{payload_answer};

use crate::faults::StoreFault;
use crate::rows::read_rows;
use crate::store::FileStore;
use oram_host::HostRefusal;
use oram_layout::{Shape, Tree};
use oram_records::{RecordsRequest, most_rows};
use oram_redo::FilePair;

/// Returns whether the nodes that a request names are nodes of a tree of this shape.
fn has_nodes(shape: &Shape, request: RecordsRequest) -> bool
    ensures { IsTrue result ↔ (request.first + request.count ≤ nodes_of (sizes_of shape.now)) }
{
    u64::from(request.first) + u64::from(request.count) <= u64::from(shape.nodes())
}

/// Returns whether a request names a node, and its answer fits in a frame.
fn fits_answer(shape: &Shape, request: RecordsRequest) -> bool
    ensures { result ≡ fits_answer (sizes_of shape.now) request.count }
{
    request.count > 0 && request.count as usize <= most_rows(shape.record_len as usize)
}

impl<F: FilePair> FileStore<F> {
    /// Commits the pending PUTs, and returns the byte of a good answer and then the rows of the nodes that a request names.
    fn commit_puts_and_read_rows(
        &mut self,
        tree: &Tree,
        request: RecordsRequest,
    ) -> Result<Vec<u8>, StoreFault>
        requires some { 0 < request.count }
        requires within { request.first + request.count ≤ nodes_of (sizes_of tree.now.shape) }
        requires few { 1 + request.count * (tree.now.shape.record_len + 1) ≤ 1048576 }
        ensures fits { IfOk result (λ v. (rows : List ℕ) × (v.items ≡ payload_answer rows) × FitsAnswer rows) }
        ensures commits { IsSound F.model self.old → CommitsPuts F.model self.old self.new }
        ensures rows { IfOk result (λ v. tree_at self.old.trees request.tree ≡ Some tree.now → F.model.is_honest self.new.file.files → IsSound F.model self.old
            → v.items ≡ payload_answer (rows_text (rows_of (records_of F.model self.old) request.tree request.first request.count))) }
        ensures none_pending { OnOk result (self.new.pending ≡ []) }
        ensures trees { self.new.trees ≡ self.old.trees }
        ensures calls { Calls F.model result self.old.file self.new.file }
        ensures running { OnOk result (self.new.file.has_stopped ≡ false) }
    {
        self.commit_puts()?;
        read_rows(
            self.alloc,
            &mut self.file,
            tree,
            request.first,
            request.count,
        )
    }

    /// Returns the byte of a good answer, and then the rows of the nodes that a request names.
    pub(crate) fn records(&mut self, request: RecordsRequest) -> Result<Vec<u8>, HostRefusal>
        ensures ok { IfOk result (λ v. (rows : List ℕ) × (v.items ≡ payload_answer rows) × FitsAnswer rows) }
        ensures allowed { OnOk result (records_refusal self.old.trees request ≡ None) }
        ensures refused { IfErr result (MayRefuse self.old.trees request) }
        ensures untouched { IsSome (records_refusal self.old.trees request) → self.new ≡ self.old }
        ensures trees { self.new.trees ≡ self.old.trees }
        ensures none_pending { OnOk result (self.new.pending ≡ []) }
        ensures commits { IsSound F.model self.old → CommitsPuts F.model self.old self.new }
        ensures rows { IfOk result (λ v. F.model.is_honest self.new.file.files → IsSound F.model self.old
            → v.items ≡ payload_answer (rows_text (rows_of (records_of F.model self.old) request.tree request.first request.count))) }
        ensures runs { Runs F.model self.old.file self.new.file }
        ensures running { OnOk result (self.new.file.has_stopped ≡ false) }
        ensures failure { result ≡ Err HostRefusal.OutOfMemory → IsSomeAnd self.new.failure (IsReason F.model self.old.file self.new.file) }
    {
        let Some(tree) = self.tree_of(request.tree) else {
            return Err(HostRefusal::NoShape);
        };
        if !has_nodes(&tree.shape, request) {
            return Err(HostRefusal::BadNode);
        }
        if !fits_answer(&tree.shape, request) {
            return Err(HostRefusal::BadLength);
        }
        match self.commit_puts_and_read_rows(&tree, request) {
            Ok(answer) => Ok(answer),
            Err(fault) => Err(self.refuse(fault)),
        }
    }
}
