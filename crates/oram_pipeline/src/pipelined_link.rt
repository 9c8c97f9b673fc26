//! Links whose messages can be sent ahead of their answers.
ghost use Rattle.std.specs.Prelude.{ℕ, List};
ghost use Rattle.oram_rounds.specs.Batches.{batch_outcome_of, texts};
ghost use Rattle.oram_pipeline.specs.Pipelines.{EndsBatch};

use oram_rounds::BatchLink;
use oram_session::LinkFault;
use std::alloc::Global;

/// A link to a host that can send the messages of a batch before their answers are wanted, which HTTP calls pipelining.
///
/// One call of [`ask`](PipelinedLink::ask) and then one of [`answers`](PipelinedLink::answers), with the same messages, are a batch as
/// that of [`BatchLink::call_all`]. If the link does anything else in between, the answers are lost.
pub trait PipelinedLink: BatchLink {
    /// Whether the first value may become the second one when it is asked to send these messages ahead.
    ghost asks: { Self → List (List ℕ) → Self → Type 0 };

    /// Sends messages to the host, in their order, if that can be done at once, and reads nothing. It doesn't fail: `answers` sends them
    /// if this couldn't, and returns the fault if there was one.
    fn ask(&mut self, alloc: Global, bodies: &[Vec<u8>])
        ensures { asks self.old (texts bodies.now) self.new };

    /// Returns the answers to the messages that the call of `ask` before this one had, in their order. Fails if an answer is missing; the
    /// host may then have received any of the messages, and some of them more than once.
    fn answers(&mut self, alloc: Global, bodies: &[Vec<u8>]) -> Result<Vec<Vec<u8>>, LinkFault>
        ensures { EndsBatch Self.batches asks (texts bodies.now) self.old (batch_outcome_of result) self.new };
}
