//! The answers of a store to the messages about some levels of a path.
ghost use Rattle.std.specs.Prelude.{◌≡◌, IfOk, OnErr};
ghost use Rattle.oram_levels.specs.Messages.{FetchLevels, StoreLevels, message_of};
ghost use Rattle.oram_store.specs.LevelsAnswers.{AnswersLevels};
ghost use Rattle.oram_store.specs.RecordFile.{Runs};
ghost use Rattle.oram_wire.specs.FrameStream.{IsBody};
ghost use Rattle.oram_wire.specs.HostBodies.{IsAnswer};
ghost use Rattle.oram_wire.specs.HostMessages.{answer_body};
ghost use Rattle.oram_wire.specs.declared.host_messages.HostAnswer.{HostAnswer};

use crate::store::FileStore;
use oram_levels::LevelsRequest;
use oram_redo::FilePair;
use oram_wire::{GOOD, REFUSED};
use std::alloc::{AllocError, Global};

impl<F: FilePair> FileStore<F> {
    /// Returns the bytes of the answer to a FETCH of levels.
    ///
    /// It allocates a short answer before it serves the request; if that fails, it serves nothing.
    fn answer_fetch_levels(
        &mut self,
        alloc: Global,
        tree: u8,
        first: u8,
        last: u8,
        leaf: u32,
    ) -> Result<Vec<u8>, AllocError>
        ensures ok { IfOk result (λ v. (answer : HostAnswer) × IsAnswer answer × (v.items ≡ answer_body answer)
            × AnswersLevels F.model (FetchLevels tree first last leaf) answer self.old self.new) }
        ensures runs { Runs F.model self.old.file self.new.file }
        ensures fits { IfOk result (λ v. IsBody v.items) }
        ensures err { OnErr result (self.new ≡ self.old) }
    {
        let mut short = Vec::with_capacity(alloc, 2)?;
        match self.fetch_levels(tree, first, last, leaf) {
            Ok(answer) => return Ok(answer),
            Err(why) => short.extend_from_slice(&[REFUSED, why.code()])?,
        }
        Ok(short)
    }

    /// Returns the bytes of the answer to a STORE of levels. If there is no memory for them, it stores nothing.
    fn answer_store_levels(
        &mut self,
        alloc: Global,
        tree: u8,
        first: u8,
        leaf: u32,
        records: &[u8],
    ) -> Result<Vec<u8>, AllocError>
        ensures ok { IfOk result (λ v. (answer : HostAnswer) × IsAnswer answer × (v.items ≡ answer_body answer)
            × AnswersLevels F.model (StoreLevels tree first leaf records.now) answer self.old self.new) }
        ensures runs { Runs F.model self.old.file self.new.file }
        ensures fits { IfOk result (λ v. IsBody v.items) }
        ensures err { OnErr result (self.new ≡ self.old) }
    {
        let mut answer = Vec::with_capacity(alloc, 2)?;
        match self.store_levels(tree, first, leaf, records) {
            Ok(()) => answer.extend_from_slice(&[GOOD])?,
            Err(why) => answer.extend_from_slice(&[REFUSED, why.code()])?,
        }
        Ok(answer)
    }

    /// Returns the bytes of the answer to a message about some levels of a path.
    pub(crate) fn answer_levels(
        &mut self,
        alloc: Global,
        request: LevelsRequest<'_>,
    ) -> Result<Vec<u8>, AllocError>
        ensures ok { IfOk result (λ v. (answer : HostAnswer) × IsAnswer answer × (v.items ≡ answer_body answer)
            × AnswersLevels F.model (message_of request.entry) answer self.old self.new) }
        ensures runs { Runs F.model self.old.file self.new.file }
        ensures fits { IfOk result (λ v. IsBody v.items) }
        ensures err { OnErr result (self.new ≡ self.old) }
    {
        match request {
            LevelsRequest::Fetch {
                tree,
                first,
                last,
                leaf,
            } => self.answer_fetch_levels(alloc, tree, first, last, leaf),
            LevelsRequest::Store {
                tree,
                first,
                leaf,
                records,
            } => self.answer_store_levels(alloc, tree, first, leaf, records),
        }
    }
}
