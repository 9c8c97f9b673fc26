//! What a core does with the host's answers.
ghost use Rattle.std.specs.Prelude.{◌≡◌, ◌≢◌, ◌-◌, ◌<◌, false, map, IsOk, IfOk, None, OnErr};
ghost use Rattle.oram_semantics.specs.Answers.{outcome_of, pair_in};
ghost use Rattle.oram_semantics.specs.Events.{failed_reply};
ghost use Rattle.oram_semantics.specs.Messages.{requested};
ghost use Rattle.oram_semantics.specs.Moves.{Fits, MovesTo, on_answer};
ghost use Rattle.oram_semantics.specs.Progress.Status.{Waiting};
ghost use Rattle.oram_semantics.specs.Run.{shown_by};
ghost use Rattle.oram_semantics.specs.State.{World, status_in};
ghost use Rattle.oram_core.specs.Changes.{NotesFew};
ghost use Rattle.oram_core.specs.Core.{IsReasonOf, IsSameDevice, NotesChanges, scheme_of};
ghost use Rattle.oram_core.specs.Steps.{Heard};
ghost use Rattle.oram_core.specs.AnswerMeaning.{IsVerdict};
ghost use Rattle.oram_core.specs.PlainSteps.{done, stalled_by, failed_by};
ghost use Rattle.oram_wire.specs.HostMessages.{no_room_answer};

use crate::machine::Core;
use crate::messages::failed_replies;
use crate::verdicts::Verdict;
use oram_bucket::Sealer;
use oram_bytes::Bytes;
use oram_semantics::{Note, Reaction, Reason, Reply};
use std::alloc::{AllocError, Global};

impl<S: Sealer> Core<S> {
    /// Takes the host's answer to the outstanding message. If memory runs out, the core is unchanged.
    pub(crate) fn take_answer(
        &mut self,
        alloc: Global,
        bytes: &[u8],
    ) -> Result<Reaction, AllocError>
        requires { status_in self.old.state ≡ Waiting }
        ensures kept { IsSameDevice self.old self.new }
        ensures noted { NotesChanges self.old self.new }
        ensures few { self.new.state.failure ≡ None → NotesFew self.old.noted self.new.noted }
        ensures moves { let v = scheme_of S.cipher self.old in let s = self.old.state in
            (w : World) → Fits v s w → pair_in v w.records (requested s.message) bytes.now ≡ false
            → IfOk result (λ r. let outcome = outcome_of v w.records (requested s.message) bytes.now in
            MovesTo v s w (on_answer v s w Waiting outcome) (shown_by r) self.new.state) }
        ensures heard { let v = scheme_of S.cipher self.old in
            bytes.now ≢ no_room_answer → IfOk result (λ r. Heard v self.old.state (done r self.new.state)) }
        ensures verdict { let v = scheme_of S.cipher self.old in
            bytes.now ≢ no_room_answer → IfOk result (λ r. IsVerdict v self.old.state bytes.now r.note) }
        ensures no_room { bytes.now ≡ no_room_answer → IfOk result (λ r. done r self.new.state ≡ stalled_by self.old.state) }
        ensures free { bytes.now ≡ no_room_answer → IsOk result }
        ensures err { OnErr result (self.new ≡ self.old) }
    {
        match self.verdict(bytes) {
            Verdict::Path(path) => self.store(alloc, &path),
            Verdict::Stored => self.proceed(alloc),
            Verdict::NoRoom => Ok(self.stall(alloc)),
            Verdict::Bad(reason) => {
                let replies = failed_replies(alloc, &self.queue)?;
                Ok(self.fail(alloc, reason, replies))
            }
        }
    }

    /// Fails the device: forgets the table, the trees and the commands, and returns the given replies, which say of
    /// each command that it failed.
    pub(crate) fn fail(&mut self, alloc: Global, reason: Reason, replies: Vec<Reply>) -> Reaction
        requires replies { replies.items ≡ map failed_reply self.old.state.queue }
        requires reason { IsReasonOf self.old.device reason }
        ensures kept { IsSameDevice self.old self.new }
        ensures noted { NotesChanges self.old self.new }
        ensures ok { done result self.new.state ≡ failed_by self.old.state reason }
    {
        self.noted.note_any();
        self.table = Vec::new(alloc);
        self.trees = Vec::new(alloc);
        self.queue.clear();
        self.entry_number = 0;
        self.held_entry = 0;
        self.held_data = Bytes::from_vec(Vec::new(alloc));
        self.message = Bytes::from_vec(Vec::new(alloc));
        self.lost = false;
        self.failure = Some(reason);
        Reaction {
            note: Note::FailedNow(reason),
            replies,
            sends: Vec::new(alloc),
        }
    }
}
