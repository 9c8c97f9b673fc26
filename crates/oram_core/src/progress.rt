//! The host has stored a path: the core fetches the next path, or replies to the oldest command.
ghost use Rattle.std.specs.Prelude.{◌≡◌, ◌+◌, ◌-◌, ◌*◌, ◌%◌, ◌<◌, List, [], ◌∷◌, length, IfOk, OnOk, OnErr, None, drop, ◌==◌};
ghost use Rattle.oram_geometry.specs.Sizes.{trees_of};
ghost use Rattle.oram_semantics.specs.Answers.Outcome.{Good};
ghost use Rattle.oram_semantics.specs.declared.events.Note.TheVariants as note;
ghost use Rattle.oram_semantics.specs.Moves.{Fits, MovesTo, on_answer, fetch_at};
ghost use Rattle.oram_semantics.specs.Blocks.{body_from};
ghost use Rattle.oram_semantics.specs.Progress.Status.{Waiting};
ghost use Rattle.oram_semantics.specs.Run.{shown_by};
ghost use Rattle.oram_semantics.specs.State.{World, status_in};
ghost use Rattle.oram_semantics.specs.declared.events.Submission.{Submission};
ghost use Rattle.oram_core.specs.Core.{IsSameDevice, NotesChanges, scheme_of};
ghost use Rattle.oram_core.specs.Steps.{Heard};
ghost use Rattle.oram_core.specs.PlainSteps.{done, fetched_by, finished_by, first_message, fetch_of};

use crate::machine::Core;
use crate::messages::MessageCopies;
use crate::path_access::leaf_for;
use oram_bucket::Sealer;
use oram_bytes::Bytes;
use oram_semantics::{Command, Note, Reaction, Reply, ReplyBody, Submission};
use std::alloc::{AllocError, Global};
use std::collections::VecDeque;
use std::mem;

/// Makes the reply to a command, given its block's data before the command.
fn reply_to(submission: &Submission, before: Bytes) -> Reply
    ensures { result ≡ record { session = submission.now.session; ticket = submission.now.ticket; body = body_from before submission.now.command } }
{
    let body = match submission.command {
        Command::Read(_) => ReplyBody::Data(before),
        Command::Write(..) | Command::Discard(_) => ReplyBody::Done,
    };
    Reply {
        session: submission.session,
        ticket: submission.ticket,
        body,
    }
}

/// Takes the oldest command out of the queue and makes the reply to it.
fn replied(
    alloc: Global,
    queue: &mut VecDeque<Submission>,
    before: &mut Bytes,
) -> Result<Vec<Reply>, AllocError>
    requires { 0 < length queue.old.items }
    ensures ok { OnOk result (before.new ≡ []) }
    ensures queue { OnOk result (queue.new.items ≡ drop 1 queue.old.items) }
    ensures replies { (x : Submission) (rest : List Submission) → queue.old.items ≡ x ∷ rest → IfOk result (λ v.
        v.items ≡ (record { session = x.session; ticket = x.ticket; body = body_from before.old x.command }) ∷ []) }
    ensures err { OnErr result ((queue.new.items ≡ queue.old.items) × (before.new ≡ before.old)) }
{
    let mut replies = Vec::with_capacity(alloc, 1)?;
    let data = mem::replace(before, Bytes::from_vec(Vec::new(alloc)));
    match queue.pop_front() {
        Some(oldest) => {
            if replies.push(reply_to(&oldest, data)).is_err() {
                unreachable!()
            }
            Ok(replies)
        }
        None => unreachable!(),
    }
}

impl<S: Sealer> Core<S> {
    /// Goes on after the host has stored a path.
    pub(crate) fn proceed(&mut self, alloc: Global) -> Result<Reaction, AllocError>
        requires waiting { status_in self.old.state ≡ Waiting }
        requires entry_number { self.old.state.entry_number % 2 ≡ 1 }
        ensures kept { IsSameDevice self.old self.new }
        ensures noted { NotesChanges self.old self.new }
        ensures quiet { self.new.noted ≡ self.old.noted }
        ensures moves { let v = scheme_of S.cipher self.old in let s = self.old.state in
            (w : World) → Fits v s w
            → IfOk result (λ r. MovesTo v s w (on_answer v s w Waiting Good) (shown_by r) self.new.state) }
        ensures heard { IfOk result (λ r. Heard (scheme_of S.cipher self.old) self.old.state (done r self.new.state)) }
        ensures taken { IfOk result (λ r. r.note ≡ note.Taken) }
        ensures err { OnErr result (self.new ≡ self.old) }
    {
        if usize::from(self.entry_number) + 1 == 2 * usize::from(self.device.trees()) {
            self.finish(alloc)
        } else {
            self.fetch_next(alloc)
        }
    }

    /// Makes the FETCH of the path in the next tree that the map names.
    fn next_fetch(&self, alloc: Global) -> Result<MessageCopies, AllocError>
        requires waiting { status_in self.now.state ≡ Waiting }
        requires entry_number { self.now.state.entry_number % 2 ≡ 1 }
        requires more { self.now.state.entry_number + 1 < 2 * trees_of self.now.device }
        ensures kept { (x : Submission) (rest : List Submission) → self.now.state.queue ≡ x ∷ rest
            → IfOk result (λ s. s.kept ≡ fetch_of (fetch_at self.now.device (self.now.state.entry_number + 1) self.now.state.held_entry x)) }
        ensures sends { IfOk result (λ s. s.sends.items ≡ s.kept ∷ []) }
    {
        let tree = self.device.trees() - 1 - (self.entry_number + 1) / 2;
        let leaf = leaf_for(
            &self.device,
            tree,
            self.held_entry,
            self.oldest().words.as_slice(),
        );
        MessageCopies::fetch(alloc, tree, leaf)
    }

    /// Fetches the path in the next tree that the map names for the block.
    fn fetch_next(&mut self, alloc: Global) -> Result<Reaction, AllocError>
        requires waiting { status_in self.old.state ≡ Waiting }
        requires entry_number { self.old.state.entry_number % 2 ≡ 1 }
        requires more { self.old.state.entry_number + 1 < 2 * trees_of self.old.device }
        ensures kept { IsSameDevice self.old self.new }
        ensures noted { NotesChanges self.old self.new }
        ensures quiet { self.new.noted ≡ self.old.noted }
        ensures ok { (x : Submission) (rest : List Submission) → self.old.state.queue ≡ x ∷ rest
            → IfOk result (λ r. done r self.new.state ≡ fetched_by (scheme_of S.cipher self.old) self.old.state x) }
        ensures err { OnErr result (self.new ≡ self.old) }
    {
        let MessageCopies { kept, sends } = self.next_fetch(alloc)?;
        self.entry_number += 1;
        self.message = kept;
        Ok(Reaction {
            note: Note::Taken,
            replies: Vec::new(alloc),
            sends,
        })
    }

    /// Replies to the oldest command, whose last path is stored, and begins the next command.
    fn finish(&mut self, alloc: Global) -> Result<Reaction, AllocError>
        requires waiting { status_in self.old.state ≡ Waiting }
        requires last { self.old.state.entry_number + 1 ≡ 2 * trees_of self.old.device }
        ensures kept { IsSameDevice self.old self.new }
        ensures noted { NotesChanges self.old self.new }
        ensures quiet { self.new.noted ≡ self.old.noted }
        ensures ok { (x : Submission) (rest : List Submission) → self.old.state.queue ≡ x ∷ rest
            → IfOk result (λ r. done r self.new.state ≡ finished_by (scheme_of S.cipher self.old) self.old.state x rest) }
        ensures err { OnErr result (self.new ≡ self.old) }
    {
        match self.queue.get(1) {
            Some(next) => {
                let sending = self.first_fetch(alloc, next)?;
                self.finish_before_next(alloc, sending)
            }
            None => self.finish_last(alloc),
        }
    }

    fn finish_before_next(
        &mut self,
        alloc: Global,
        sending: MessageCopies,
    ) -> Result<Reaction, AllocError>
        requires waiting { status_in self.old.state ≡ Waiting }
        requires last { self.old.state.entry_number + 1 ≡ 2 * trees_of self.old.device }
        requires next { let v = scheme_of S.cipher self.old in
            (x y : Submission) (rest : List Submission) → self.old.state.queue ≡ x ∷ y ∷ rest
            → sending.kept ≡ first_message v.device self.old.state y }
        requires sends { sending.sends.items ≡ sending.kept ∷ [] }
        requires more { 1 < length self.old.state.queue }
        ensures kept { IsSameDevice self.old self.new }
        ensures noted { NotesChanges self.old self.new }
        ensures quiet { self.new.noted ≡ self.old.noted }
        ensures ok { (x : Submission) (rest : List Submission) → self.old.state.queue ≡ x ∷ rest
            → IfOk result (λ r. done r self.new.state ≡ finished_by (scheme_of S.cipher self.old) self.old.state x rest) }
        ensures err { OnErr result (self.new ≡ self.old) }
    {
        let replies = replied(alloc, &mut self.queue, &mut self.held_data)?;
        let MessageCopies { kept, sends } = sending;
        self.entry_number = 0;
        self.held_entry = 0;
        self.message = kept;
        Ok(Reaction {
            note: Note::Taken,
            replies,
            sends,
        })
    }

    fn finish_last(&mut self, alloc: Global) -> Result<Reaction, AllocError>
        requires waiting { status_in self.old.state ≡ Waiting }
        requires last { self.old.state.entry_number + 1 ≡ 2 * trees_of self.old.device }
        requires alone { length self.old.state.queue ≡ 1 }
        ensures kept { IsSameDevice self.old self.new }
        ensures noted { NotesChanges self.old self.new }
        ensures quiet { self.new.noted ≡ self.old.noted }
        ensures ok { (x : Submission) (rest : List Submission) → self.old.state.queue ≡ x ∷ rest
            → IfOk result (λ r. done r self.new.state ≡ finished_by (scheme_of S.cipher self.old) self.old.state x rest) }
        ensures err { OnErr result (self.new ≡ self.old) }
    {
        let replies = replied(alloc, &mut self.queue, &mut self.held_data)?;
        self.entry_number = 0;
        self.held_entry = 0;
        self.message = Bytes::from_vec(Vec::new(alloc));
        Ok(Reaction {
            note: Note::Taken,
            replies,
            sends: Vec::new(alloc),
        })
    }
}
