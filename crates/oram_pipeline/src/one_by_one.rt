//! A link that carries one message after the other sends none ahead.
use crate::pipelined_link::PipelinedLink;
use oram_rounds::{BatchLink, OneByOne};
use oram_session::{Link, LinkFault};
use std::alloc::Global;

impl<L: Link> PipelinedLink for OneByOne<L> {
    ghost use Rattle.std.specs.Prelude.{◌≡◌};

    ghost asks = { λ l bodies k. k ≡ l };

    /// Sends nothing: `answers` sends each message, since the one before it has to be answered first.
    fn ask(&mut self, _alloc: Global, _bodies: &[Vec<u8>]) {}

    fn answers(&mut self, alloc: Global, bodies: &[Vec<u8>]) -> Result<Vec<Vec<u8>>, LinkFault> {
        self.call_all(alloc, &[], bodies)
    }
}
