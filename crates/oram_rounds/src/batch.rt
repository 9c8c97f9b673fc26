//! Links that carry several messages at once.
ghost use Rattle.std.specs.Prelude.{◌≡◌, ℕ, List, ◌++◌, IfOk};
ghost use Rattle.oram_session.specs.Outcome.{outcome_of};
ghost use Rattle.oram_link_laws.specs.Runs.{Exchange};
ghost use Rattle.oram_rounds.specs.Batches.{BatchOutcome, batch_outcome_of, texts};
ghost use Rattle.oram_rounds.specs.Law.{AreBatches, LearningSendsNothing};
ghost use Rattle.oram_rounds.specs.LinkNotes.{AreRecordsTold, BatchesAreTold, LearningCountsAnew, LinkNote};
ghost use Rattle.oram_rounds.specs.Streams.{BeginsBatch, EndsAsBatch, GivesNext};

use crate::keeper::LinkRecords;
use oram_session::LinkFault;
use std::alloc::{AllocError, Global};

/// A link to a host that sends several messages before it reads their answers.
///
/// Such a link may have something to remember beyond the end of its process: a note, and records, of which few change between two
/// keepings. Whoever keeps the process writes both into the same text, and then tells the link the check of the process.
pub trait BatchLink {
    /// Whether a batch of these bodies, from the first value, may have this outcome and these exchanges with the host, and
    /// lead to the second value.
    ghost batches: { Self → List (List ℕ) → BatchOutcome → List Exchange → Self → Type 0 };

    /// Whether the first value may have sent these bodies in one batch, given these answers to the first of them, and be the second value
    /// now.
    ghost streams: { Self → List (List ℕ) → List (List ℕ) → Self → Type 0 };

    /// What the link wants to have kept with its process.
    ghost notes: { Self → LinkNote };

    /// Whether the link tells of each of its records that differs from these bytes.
    ghost tells: { Self → List ℕ → Type 0 };

    /// Whether the first value may become the second one when the link learns that the process was kept, with the link's note, and
    /// has this check.
    ghost learns: { Self → ℕ → Self → Type 0 };

    /// Sends the bodies of `first` and then those of `last` to the host, in this order, and returns their answers in the same
    /// order. Fails if an answer is missing; the host may then have received any of the bodies, and some of them more than
    /// once.
    fn call_all(
        &mut self,
        alloc: Global,
        first: &[Vec<u8>],
        last: &[Vec<u8>],
    ) -> Result<Vec<Vec<u8>>, LinkFault>
        ensures { (exchanges : List Exchange) × batches self.old (texts first.now ++ texts last.now) (batch_outcome_of result) exchanges self.new };

    /// Sends the bodies of `first` and then those of `last` to the host, as [`call_all`](BatchLink::call_all) does, if that can be done at
    /// once, and returns whether it was. It doesn't wait for their answers: [`next_answer`](BatchLink::next_answer) has to be called for each of
    /// them, before anything else is done with the link, until it fails or all are given. If it returns `false`, nothing is awaited. The host
    /// may have received some of the bodies even then.
    fn begin(&mut self, alloc: Global, first: &[Vec<u8>], last: &[Vec<u8>]) -> bool
        ensures { BeginsBatch batches streams self.old (texts first.now ++ texts last.now) result self.new };

    /// Returns the answer to the next body of the batch that was begun, which is `body`. Fails if it doesn't come. Then the answers to the
    /// bodies behind it don't come either, and the batch isn't sent again: the host may have received any of its bodies.
    fn next_answer(&mut self, alloc: Global, body: &[u8]) -> Result<Vec<u8>, LinkFault>
        ensures { GivesNext batches streams self.old body.now (outcome_of result) self.new };

    /// Returns the link's note, which may be empty.
    fn note(&self, alloc: Global) -> Result<Vec<u8>, AllocError>
        ensures { IfOk result (λ note. note.items ≡ (notes self.now).text) };

    /// Returns the link's records, of which there may be none.
    fn records(&self) -> LinkRecords<'_>
        ensures bytes { result.bytes.now ≡ (notes self.now).records }
        ensures told { (old : List ℕ) → tells self.now old → AreRecordsTold result.changes old result.bytes.now };

    /// Tells the link that the process was kept, with the link's note and its records, and that its check is `check`. Sends nothing.
    fn learn_kept(&mut self, check: u64)
        ensures { learns self.old check self.new };

    // The exchanges are those of the bodies, and the last ones have the answers.
    ghost are_batches: { AreBatches batches };

    // A batch whose answers were all given one by one is a batch as any other.
    ghost ends_as_batch: { EndsAsBatch batches streams };

    // When the link learns that the process was kept, it does no more than in a batch of no messages.
    ghost learning_sends_nothing: { LearningSendsNothing batches learns };

    // The link tells of each record that differs from those that were kept last.
    ghost batches_are_told: { BatchesAreTold notes tells batches };

    ghost learning_counts_anew: { LearningCountsAnew notes tells learns };
}
