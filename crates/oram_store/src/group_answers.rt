//! The answers of a store to messages that have arrived together.
ghost use Rattle.std.specs.Prelude.{◌≡◌, ◌≤◌, ◌<◌, All, IfOk, IfSome, IsSome, List, OnErr, length, map, take};
ghost use Rattle.oram_levels.specs.Messages.{message_of as levels_message};
ghost use Rattle.oram_store.specs.FirstAnswers.{AnswersFirst};
ghost use Rattle.oram_store.specs.Groups.{AreAtFront, FitsTree, IsAcceptedChange, IsOfTrees, message_of};
ghost use Rattle.oram_store.specs.Messages.{Message, OfHost, OfLevels, body_of};
ghost use Rattle.oram_store.specs.RecordFile.{Runs};
ghost use Rattle.oram_wire.specs.FrameStream.{IsBody};
ghost use Rattle.oram_wire.specs.HostBodies.{IsAnswer, request_of};
ghost use Rattle.oram_wire.specs.HostMessages.{answer_body};
ghost use Rattle.oram_wire.specs.ListOfBodies.{bodies_in};
ghost use Rattle.oram_wire.specs.declared.host_messages.HostAnswer.{HostAnswer};

use crate::groups::{Change, MOST_TOGETHER, go_together};
use crate::store::FileStore;
use oram_levels::LevelsRequest;
use oram_redo::FilePair;
use oram_wire::{GOOD, HostView, REFUSED};
use std::alloc::{AllocError, Global};

impl<F: FilePair> FileStore<F> {
    /// Returns the STORE or the PUT that a request is, if the trees don't refuse it.
    fn accepted<'a>(&self, request: HostView<'a>) -> Option<Change<'a>>
        ensures message { IfSome result (λ change. message_of change ≡ OfHost (request_of request.entry)) }
        ensures fits { IfSome result (λ change. FitsTree change × IsOfTrees self.now.trees change) }
        ensures accepted { IfSome result (λ change. IsAcceptedChange self.now.trees (message_of change)) }
        ensures all { IsAcceptedChange self.now.trees (OfHost (request_of request.entry)) → IsSome result }
    {
        match request {
            HostView::Store {
                tree,
                leaf,
                records,
            } => match self.accepted_store(tree, leaf, records) {
                Ok(store) => Some(Change::Store(store)),
                Err(_) => None,
            },
            HostView::Put { tree, node, bytes } => match self.accepted_put(tree, node, bytes) {
                Ok(put) => Some(Change::Put(put)),
                Err(_) => None,
            },
            HostView::Fetch { .. } | HostView::Shape { .. } => None,
        }
    }

    /// Returns the STORE of levels that a request is, if the trees don't refuse it.
    fn accepted_of_levels<'a>(&self, request: LevelsRequest<'a>) -> Option<Change<'a>>
        ensures message { IfSome result (λ change. message_of change ≡ OfLevels (levels_message request.entry)) }
        ensures fits { IfSome result (λ change. FitsTree change × IsOfTrees self.now.trees change) }
        ensures accepted { IfSome result (λ change. IsAcceptedChange self.now.trees (message_of change)) }
        ensures all { IsAcceptedChange self.now.trees (OfLevels (levels_message request.entry)) → IsSome result }
    {
        match request {
            LevelsRequest::Store {
                tree,
                first,
                leaf,
                records,
            } => match self.accepted_levels(tree, first, leaf, records) {
                Ok(store) => Some(Change::StoreLevels(store)),
                Err(_) => None,
            },
            LevelsRequest::Fetch { .. } => None,
        }
    }

    /// Returns the STORE or the PUT in a body, if the body has one that the trees don't refuse.
    fn change_in<'a>(&self, body: &'a [u8]) -> Option<Change<'a>>
        ensures body { IfSome result (λ change. body.now ≡ body_of (message_of change)) }
        ensures fits { IfSome result (λ change. FitsTree change × IsOfTrees self.now.trees change) }
        ensures accepted { IfSome result (λ change. IsAcceptedChange self.now.trees (message_of change)) }
        ensures all { (message : Message) → IsAcceptedChange self.now.trees message → body.now ≡ body_of message → IsSome result }
    {
        if let Ok(request) = HostView::read(body) {
            return self.accepted(request);
        }
        match LevelsRequest::decode(body) {
            Ok(request) => self.accepted_of_levels(request),
            Err(_) => None,
        }
    }

    /// Returns the STOREs and PUTs at the front of a list of bodies that the trees don't refuse, up to 32.
    fn changes_in<'a>(
        &self,
        alloc: Global,
        bodies: &'a [Vec<u8>],
    ) -> Result<Vec<Change<'a>>, AllocError>
        ensures few { IfOk result (λ changes. (length changes.items ≤ 32) × (length changes.items ≤ length bodies.now)) }
        ensures fits { IfOk result (λ changes. All FitsTree changes.items) }
        ensures of { IfOk result (λ changes. All (IsOfTrees self.now.trees) changes.items) }
        ensures bodies { IfOk result (λ changes. map body_of (map message_of changes.items) ≡ take (length changes.items) (bodies_in bodies.now)) }
        ensures accepted { IfOk result (λ changes. All (IsAcceptedChange self.now.trees) (map message_of changes.items)) }
        ensures all { IfOk result (λ changes. (messages : List Message) → map body_of messages ≡ take (length messages) (bodies_in bodies.now)
            → All (IsAcceptedChange self.now.trees) messages → length messages ≤ 32 → length messages ≤ length changes.items) }
    {
        let mut changes = Vec::new(alloc);
        for body in bodies {
            if changes.len() >= MOST_TOGETHER {
                return Ok(changes);
            }
            let Some(change) = self.change_in(body) else {
                return Ok(changes);
            };
            changes.push(change)?;
        }
        Ok(changes)
    }

    /// Answers the first message of a list. If that is a STORE, of a path or of levels, or a PUT, the STOREs and PUTs right behind it are carried out with it, in
    /// one batch of the redo log: up to 32 messages, and only such as the trees don't refuse. All of them are durable then, or none is
    /// carried out. But PUTs without a STORE among them are answered one by one. Returns the number of messages that were answered, and
    /// the bytes of the answer, which each of them gets.
    ///
    /// If memory runs out before it serves a message, it serves none.
    pub fn answer_group(
        &mut self,
        alloc: Global,
        bodies: &[Vec<u8>],
    ) -> Result<(usize, Vec<u8>), AllocError>
        requires { 0 < length bodies.now }
        ensures count { IfOk result (λ r. (0 < r.0) × (r.0 ≤ length bodies.now)) }
        ensures ok { IfOk result (λ r. (answer : HostAnswer) × IsAnswer answer × (r.1.items ≡ answer_body answer)
            × AnswersFirst F.model (take r.0 (bodies_in bodies.now)) answer self.old self.new) }
        // No message that can go with the first ones is left out.
        ensures all { IfOk result (λ r. (messages : List Message) → AreAtFront self.old.trees (bodies_in bodies.now) messages → length messages ≤ r.0) }
        ensures runs { Runs F.model self.old.file self.new.file }
        // The answer fits in a frame.
        ensures fits { IfOk result (λ r. IsBody r.1.items) }
        ensures err { OnErr result (self.new ≡ self.old) }
    {
        let changes = self.changes_in(alloc, bodies)?;
        if !go_together(&changes) {
            return Ok((1, self.answer(alloc, &bodies[0])?));
        }
        let mut answer = Vec::with_capacity(alloc, 2)?;
        match self.change_together(&changes) {
            Ok(()) => answer.extend_from_slice(&[GOOD])?,
            Err(why) => answer.extend_from_slice(&[REFUSED, why.code()])?,
        }
        Ok((changes.len(), answer))
    }
}
