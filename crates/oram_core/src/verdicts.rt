//! Judges an answer to the outstanding message.
ghost use Rattle.std.specs.Prelude.{◌≡◌, ◌≢◌, ◌↔◌, ◌%◌, false, IfOk};
ghost use Rattle.oram_semantics.specs.Answers.{pair_in};
ghost use Rattle.oram_semantics.specs.Messages.{requested};
ghost use Rattle.oram_semantics.specs.Moves.{Fits};
ghost use Rattle.oram_semantics.specs.Progress.Status.{Waiting};
ghost use Rattle.oram_semantics.specs.State.{World, status_in};
ghost use Rattle.oram_core.specs.Core.{IsSound, scheme_of};
ghost use Rattle.oram_core.specs.AnswerMeaning.{IsChecked, path_now};
ghost use Rattle.oram_core.specs.Verdicts.{Means, Tells, refusal_in};
ghost use Rattle.oram_wire.specs.HostMessages.{no_room_answer, payload_answer};

use crate::machine::Core;
use crate::messages::leaf_named;
use oram_bucket::Sealer;
use oram_hash::{HashFault, PathView};
use oram_semantics::Reason;
use oram_wire::{GOOD, REFUSED};

/// The verdict on an answer to the outstanding message.
pub(crate) enum Verdict<'a> {
    /// The records of the requested path, as they were last stored.
    Path(PathView<'a>),
    /// The host has stored the path.
    Stored,
    /// The host has no room; the message counts as lost.
    NoRoom,
    /// The answer isn't good, for this reason.
    Bad(Reason),
}

/// Returns the code from 1 to 8 of a refusal by the host, if the answer is one.
fn refusal_in(bytes: &[u8]) -> Option<u8>
    ensures { result ≡ refusal_in bytes.now }
{
    if bytes.len() != 2 {
        return None;
    }
    if bytes[0] != REFUSED {
        return None;
    }
    if bytes[1] == 0 {
        return None;
    }
    if bytes[1] > 8 {
        return None;
    }
    Some(bytes[1])
}

impl<S: Sealer> Core<S> {
    /// Judges an answer to the outstanding message.
    pub(crate) fn verdict<'a>(&self, bytes: &'a [u8]) -> Verdict<'a>
        requires { status_in self.now.state ≡ Waiting }
        ensures means { let v = scheme_of S.cipher self.now in let s = self.now.state in
            (w : World) → Fits v s w → pair_in v w.records (requested s.message) bytes.now ≡ false → Means v s w bytes.now result }
        ensures tells { Tells (scheme_of S.cipher self.now) self.now.state bytes.now result }
        ensures no_room { (result ≡ Verdict.NoRoom) ↔ (bytes.now ≡ no_room_answer) }
    {
        if let Some(code) = refusal_in(bytes) {
            return match code {
                8 => Verdict::NoRoom,
                code => Verdict::Bad(Reason::HostRefused(code)),
            };
        }
        if bytes.is_empty() {
            return Verdict::Bad(Reason::Malformed);
        }
        if bytes[0] != GOOD {
            return Verdict::Bad(Reason::Malformed);
        }
        self.payload_verdict(&bytes[1..])
    }

    /// Judges an answer that begins with [`GOOD`], by the bytes after it.
    fn payload_verdict<'a>(&self, records: &'a [u8]) -> Verdict<'a>
        requires { status_in self.now.state ≡ Waiting }
        ensures means { let v = scheme_of S.cipher self.now in let s = self.now.state in
            (w : World) → Fits v s w → pair_in v w.records (requested s.message) (payload_answer records.now) ≡ false → Means v s w (payload_answer records.now) result }
        ensures tells { Tells (scheme_of S.cipher self.now) self.now.state (payload_answer records.now) result }
        ensures room { result ≢ Verdict.NoRoom }
    {
        if self.entry_number % 2 == 0 {
            return self.path_verdict(records);
        }
        if records.is_empty() {
            return Verdict::Stored;
        }
        Verdict::Bad(Reason::Malformed)
    }

    /// Judges the records that answer a FETCH.
    fn path_verdict<'a>(&self, records: &'a [u8]) -> Verdict<'a>
        requires waiting { status_in self.now.state ≡ Waiting }
        requires entry_number { self.now.state.entry_number % 2 ≡ 0 }
        ensures means { let v = scheme_of S.cipher self.now in let s = self.now.state in
            (w : World) → Fits v s w → pair_in v w.records (requested s.message) (payload_answer records.now) ≡ false → Means v s w (payload_answer records.now) result }
        ensures tells { Tells (scheme_of S.cipher self.now) self.now.state (payload_answer records.now) result }
        ensures room { result ≢ Verdict.NoRoom }
    {
        match self.checked(records) {
            Ok(path) => Verdict::Path(path),
            Err(HashFault::Length) => Verdict::Bad(Reason::Malformed),
            Err(HashFault::Tampered(level)) => {
                Verdict::Bad(Reason::Tampered(self.tree_at_work(), level))
            }
        }
    }

    /// Checks these records as the requested path, against the root digest of its tree.
    fn checked<'a>(&self, records: &'a [u8]) -> Result<PathView<'a>, HashFault>
        requires { status_in self.now.state ≡ Waiting }
        ensures sound { IsSound self.now.device (S.cipher self.now.sealer).overhead self.now.state }
        ensures checked { IsChecked (scheme_of S.cipher self.now) self.now.state records.now result }
        ensures view { IfOk result (λ p. p ≡ path_now (scheme_of S.cipher self.now) self.now.state records.now) }
    {
        let tree = self.tree_at_work();
        let leaf = leaf_named(self.message.as_slice());
        let overhead = self.sealer.overhead();
        self.trees[usize::from(tree)].check(&self.device, leaf, overhead, records)
    }
}
