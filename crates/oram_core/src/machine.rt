//! The core and its steps.
ghost use Rattle.std.specs.Prelude.{◌≡◌, ◌==◌, ◌+◌, ◌*◌, ◌%◌, ◌<◌, true, false, [], ◌∷◌, ◌++◌, length, IsOk, IfOk, OnErr, Option, Some, None, slice_index_or};
ghost use Rattle.oram_geometry.specs.Sizes.{trees_of};
ghost use Rattle.oram_semantics.specs.Run.{refusal_of, is_over, is_waiting, shown_by};
ghost use Rattle.oram_semantics.specs.Progress.Status.{Waiting};
ghost use Rattle.oram_semantics.specs.declared.events.Note.TheVariants as note;
ghost use Rattle.oram_semantics.specs.State.{no_tree, status_in};
ghost use Rattle.oram_semantics.specs.Moves.{leaf_for};
ghost use Rattle.oram_semantics.specs.Agree.{IsAllowed};
ghost use Rattle.oram_core.specs.Changes.{NotesFew};
ghost use Rattle.oram_core.specs.Core.{CoreValue, IsSound, IsNoAnswer, IsSameDevice, NotesChanges, scheme_of};
ghost use Rattle.oram_core.specs.Steps.{Steps};
ghost use Rattle.oram_core.specs.PlainSteps.{is_idle, is_stalled, Done, plain_step, is_free_note, done, accepted_by, stalled_by, resent_by, first_message};

use crate::changes::NotedChanges;
use crate::messages::MessageCopies;
use crate::path_access::leaf_for;
use oram_bucket::Sealer;
use oram_bytes::{Bytes, Words};
use oram_geometry::Device;
use oram_semantics::{Command, Event, Note, Reaction, Reason, Refusal, Submission};
use oram_tree::Tree;
use std::alloc::{AllocError, Global};
use std::collections::VecDeque;
use std::marker::Model;

/// The greatest number of commands that can wait for a reply.
pub const MOST_WAITING: usize = 64;

/// The core of a device: takes events, and returns what to reply and what to send.
#[derive(Drop)]
pub struct Core<S: Sealer> {
    pub(crate) device: Device,
    pub(crate) sealer: S,
    /// For each block of the last tree: 0, or the leaf that the block is mapped to plus one.
    pub(crate) table: Vec<u32>,
    /// The trees, from tree 0, which holds the data, to the last one.
    pub(crate) trees: Vec<Tree>,
    /// The next ticket.
    pub(crate) next: u64,
    /// The nonce for the next bucket to be sealed.
    pub(crate) nonce: u64,
    /// The commands without a reply, the oldest first.
    pub(crate) queue: VecDeque<Submission>,
    /// Which of the oldest command's messages is outstanding, counted from 0. A command has a FETCH and a STORE for each
    /// tree, from the last tree to tree 0.
    pub(crate) entry_number: u8,
    /// The map entry of the oldest command's block in the tree whose path is fetched next, or was fetched last: 0, or
    /// the block's leaf plus one.
    pub(crate) held_entry: u32,
    /// The data of the block of tree 0 as it was read, until the reply goes out.
    pub(crate) held_data: Bytes,
    /// The message that was sent last.
    pub(crate) message: Bytes,
    /// Whether the message sent last counts as lost.
    pub(crate) lost: bool,
    pub(crate) failure: Option<Reason>,
    /// The entries of the table that may have changed since the changes were last forgotten.
    pub(crate) noted: NotedChanges,
}

impl<S: Sealer> Model for Core<S> {
    ghost use Rattle.oram_core.specs.Changes.{NotesFew};
    ghost use Rattle.oram_core.specs.Core.{CoreValue, IsSound};

    ghost Value = { CoreValue S };

    ghost view = { λ c. record {
      device = c.device;
      sealer = c.sealer;
      state = record {
        table = c.table.items;
        trees = c.trees.items;
        next = c.next;
        nonce = c.nonce;
        queue = c.queue.items;
        entry_number = c.entry_number;
        held_entry = c.held_entry;
        held_data = c.held_data;
        message = c.message;
        lost = c.lost;
        failure = c.failure;
      };
      noted = c.noted;
    } };

    ghost invariant = { λ c. IsSound c.device (S.cipher c.sealer).overhead (record {
      table = c.table.items;
      trees = c.trees.items;
      next = c.next;
      nonce = c.nonce;
      queue = c.queue.items;
      entry_number = c.entry_number;
      held_entry = c.held_entry;
      held_data = c.held_data;
      message = c.message;
      lost = c.lost;
      failure = c.failure;
    }) };
}

impl<S: Sealer> Core<S> {
    /// Returns the device.
    pub fn device(&self) -> &Device
        ensures value { result.now ≡ self.now.device }
        // A core is always sound, so any caller can learn this here.
        ensures sound { IsSound self.now.device (S.cipher self.now.sealer).overhead self.now.state }
    {
        &self.device
    }

    /// Returns the ticket of the next accepted command, which is the number of commands accepted so far.
    pub fn next_ticket(&self) -> u64
        ensures { result ≡ self.now.state.next }
    {
        self.next
    }

    /// Returns the nonce for the next bucket to be sealed, which is the number of buckets sealed so far.
    pub fn next_nonce(&self) -> u64
        ensures { result ≡ self.now.state.nonce }
    {
        self.nonce
    }

    /// Returns the number of accepted commands that have no reply.
    pub fn waiting(&self) -> usize
        ensures { result ≡ length self.now.state.queue }
    {
        self.queue.len()
    }

    /// Returns whether every accepted command has its reply, and the device hasn't failed.
    pub fn is_idle(&self) -> bool
        ensures { result ≡ is_idle (status_in self.now.state) }
    {
        self.queue.is_empty() && self.failure.is_none()
    }

    /// Returns whether a STORE is outstanding.
    pub fn is_storing(&self) -> bool
        ensures { result ≡ (self.now.state.entry_number % 2 == 1) }
    {
        self.entry_number % 2 == 1
    }

    /// Returns the number of blocks in the stash of `tree`, or 0 once the device has failed and forgotten its trees.
    pub fn stash_len(&self, tree: u8) -> usize
        requires { tree < trees_of self.now.device }
        ensures { result ≡ length (slice_index_or self.now.state.trees tree no_tree).stash }
    {
        self.trees.get(usize::from(tree)).map_or(0, Tree::stash_len)
    }

    /// Returns why the device failed, if it did.
    pub fn failure(&self) -> Option<Reason>
        ensures { result ≡ self.now.state.failure }
    {
        self.failure
    }

    /// Returns whether a message is outstanding and doesn't count as lost.
    fn is_waiting(&self) -> bool
        ensures { result ≡ is_waiting (status_in self.now.state) }
    {
        !self.lost && !self.queue.is_empty() && self.failure.is_none()
    }

    /// Returns whether the message sent last counts as lost.
    fn is_stalled(&self) -> bool
        ensures { result ≡ is_stalled (status_in self.now.state) }
    {
        self.lost && !self.queue.is_empty() && self.failure.is_none()
    }

    /// Makes one step: takes an event and returns the reaction to it. If memory runs out, the core is unchanged, and the
    /// caller can make the same step again. A step notes at most one entry of the table that changes.
    pub fn step(&mut self, alloc: Global, event: &Event) -> Result<Reaction, AllocError>
        ensures kept { IsSameDevice self.old self.new }
        ensures noted { NotesChanges self.old self.new }
        ensures quiet { IsNoAnswer event.now → self.new.noted ≡ self.old.noted }
        ensures few { self.new.state.failure ≡ None → NotesFew self.old.noted self.new.noted }
        ensures promise { let v = scheme_of S.cipher self.old in
            IfOk result (λ r. Steps v self.old.state event.now (shown_by r) self.new.state) }
        ensures free { let v = scheme_of S.cipher self.old in
            (d : Done) → plain_step v self.old.state event.now ≡ Some d → is_free_note d.note ≡ true → IsOk result }
        ensures err { OnErr result (self.new ≡ self.old) }
    {
        match event {
            Event::Submit {
                session,
                command,
                words,
            } => match self.refusal(command, words) {
                Some(refusal) => Ok(Reaction::only(alloc, Note::Refused(refusal))),
                None => self.accept(alloc, *session, command, words),
            },
            Event::Answer(bytes) if self.is_waiting() => self.take_answer(alloc, bytes.as_slice()),
            Event::Lost | Event::Reopen if self.is_waiting() => Ok(self.stall(alloc)),
            Event::Retry if self.is_stalled() => self.resend(alloc),
            Event::Answer(_) | Event::Lost | Event::Reopen | Event::Retry => {
                Ok(Reaction::only(alloc, Note::Unexpected))
            }
        }
    }

    /// Returns the first reason to refuse the command, if there is one.
    fn refusal(&self, command: &Command, words: &Words) -> Option<Refusal>
        ensures { let s = self.now.state in
            result ≡ refusal_of self.now.device (is_over (status_in s)) (length s.queue) s.next command.now words.now }
    {
        if self.failure.is_some() {
            return Some(Refusal::Failed);
        }
        if command.address() >= self.device.blocks_in(0) {
            return Some(Refusal::BadAddress);
        }
        if let Command::Write(_, bytes) = command {
            if bytes.len() != self.device.block_bytes() {
                return Some(Refusal::BadLength);
            }
        }
        if words.as_slice().len() != 2 * usize::from(self.device.trees()) {
            return Some(Refusal::BadWords);
        }
        if self.queue.len() >= MOST_WAITING {
            return Some(Refusal::Busy);
        }
        if self.next >= self.device.lifetime() {
            return Some(Refusal::Exhausted);
        }
        None
    }

    /// Accepts a command that there is no reason to refuse.
    fn accept(
        &mut self,
        alloc: Global,
        session: u32,
        command: &Command,
        words: &Words,
    ) -> Result<Reaction, AllocError>
        requires { let s = self.old.state in
            refusal_of self.old.device (is_over (status_in s)) (length s.queue) s.next command.now words.now ≡ None }
        ensures kept { IsSameDevice self.old self.new }
        ensures noted { NotesChanges self.old self.new }
        ensures quiet { self.new.noted ≡ self.old.noted }
        ensures ok { let v = scheme_of S.cipher self.old in let s = self.old.state in
            IfOk result (λ r. done r self.new.state
            ≡ accepted_by v s (record { session = session; ticket = s.next; command = command.now; words = words.now })) }
        ensures err { OnErr result (self.new ≡ self.old) }
    {
        let submission = Submission {
            session,
            ticket: self.next,
            command: command.copy(alloc)?,
            words: Words::copy(alloc, words.as_slice())?,
        };
        if self.queue.is_empty() {
            self.begin(alloc, submission)
        } else {
            self.enqueue(alloc, submission)
        }
    }

    /// Begins a command on an idle core: sends the FETCH of its first path.
    fn begin(&mut self, alloc: Global, submission: Submission) -> Result<Reaction, AllocError>
        requires allowed { IsAllowed self.old.device submission }
        requires ticket { submission.ticket ≡ self.old.state.next }
        requires healthy { self.old.state.failure ≡ None }
        requires idle { length self.old.state.queue ≡ 0 }
        requires lifetime { self.old.state.next < self.old.device.lifetime }
        ensures kept { IsSameDevice self.old self.new }
        ensures noted { NotesChanges self.old self.new }
        ensures quiet { self.new.noted ≡ self.old.noted }
        ensures ok { let s = self.old.state in let m = first_message self.old.device s submission in
            IfOk result (λ r. done r self.new.state ≡ record {
              note = note.Accepted s.next;
              replies = [];
              sends = m ∷ [];
              state = record s { next = s.next + 1; queue = s.queue ++ submission ∷ []; message = m };
            }) }
        ensures err { OnErr result (self.new ≡ self.old) }
    {
        let ticket = self.next;
        let MessageCopies { kept, sends } = self.first_fetch(alloc, &submission)?;
        self.queue.push_back(submission)?;
        self.message = kept;
        self.next += 1;
        Ok(Reaction {
            note: Note::Accepted(ticket),
            replies: Vec::new(alloc),
            sends,
        })
    }

    /// Adds a command to the queue, after those that wait already.
    fn enqueue(&mut self, alloc: Global, submission: Submission) -> Result<Reaction, AllocError>
        requires allowed { IsAllowed self.old.device submission }
        requires ticket { submission.ticket ≡ self.old.state.next }
        requires some { 0 < length self.old.state.queue }
        requires few { length self.old.state.queue < 64 }
        requires lifetime { self.old.state.next < self.old.device.lifetime }
        ensures kept { IsSameDevice self.old self.new }
        ensures noted { NotesChanges self.old self.new }
        ensures quiet { self.new.noted ≡ self.old.noted }
        ensures ok { let s = self.old.state in
            IfOk result (λ r. done r self.new.state ≡ record {
              note = note.Accepted s.next;
              replies = [];
              sends = [];
              state = record s { next = s.next + 1; queue = s.queue ++ submission ∷ [] };
            }) }
        ensures err { OnErr result (self.new ≡ self.old) }
    {
        let ticket = self.next;
        self.queue.push_back(submission)?;
        self.next += 1;
        Ok(Reaction {
            note: Note::Accepted(ticket),
            replies: Vec::new(alloc),
            sends: Vec::new(alloc),
        })
    }

    /// Makes the first FETCH of a command, in the last tree, whose map is the table.
    pub(crate) fn first_fetch(
        &self,
        alloc: Global,
        submission: &Submission,
    ) -> Result<MessageCopies, AllocError>
        requires healthy { self.now.state.failure ≡ None }
        requires allowed { IsAllowed self.now.device submission.now }
        ensures kept { let v = scheme_of S.cipher self.now in
            IfOk result (λ s. s.kept ≡ first_message v.device self.now.state submission.now) }
        ensures sends { let v = scheme_of S.cipher self.now in
            IfOk result (λ s. s.sends.items ≡ first_message v.device self.now.state submission.now ∷ []) }
    {
        let tree = self.device.trees() - 1;
        let block = self.device.address_in(tree, submission.command.address());
        let map_entry = self.table[block as usize];
        let leaf = leaf_for(&self.device, tree, map_entry, submission.words.as_slice());
        MessageCopies::fetch(alloc, tree, leaf)
    }

    /// Counts the outstanding message as lost.
    pub(crate) fn stall(&mut self, alloc: Global) -> Reaction
        requires { status_in self.old.state ≡ Waiting }
        ensures kept { IsSameDevice self.old self.new }
        ensures noted { NotesChanges self.old self.new }
        ensures quiet { self.new.noted ≡ self.old.noted }
        ensures ok { done result self.new.state ≡ stalled_by self.old.state }
    {
        self.lost = true;
        Reaction::only(alloc, Note::Stalled)
    }

    /// Sends the message that counts as lost again, byte for byte.
    fn resend(&mut self, alloc: Global) -> Result<Reaction, AllocError>
        ensures kept { IsSameDevice self.old self.new }
        ensures noted { NotesChanges self.old self.new }
        ensures quiet { self.new.noted ≡ self.old.noted }
        ensures ok { IfOk result (λ r. done r self.new.state ≡ resent_by self.old.state) }
        ensures err { OnErr result (self.new ≡ self.old) }
    {
        let mut sends = Vec::with_capacity(alloc, 1)?;
        sends.push(Bytes::copy(alloc, self.message.as_slice())?)?;
        self.lost = false;
        Ok(Reaction {
            note: Note::Resent,
            replies: Vec::new(alloc),
            sends,
        })
    }
}
