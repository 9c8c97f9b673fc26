//! What was answered over a connection.

ghost use Rattle.std.specs.Prelude.{◌≡◌, ◌∷◌, []};

use oram_store::StoreFault;

/// What was answered over a connection. The numbers stop at `u64::MAX`.
#[derive(Clone, Copy, Debug, PartialEq, Eq)]
pub struct Tally {
    /// The number of messages.
    pub messages: u64,
    /// The number of bytes of their frames.
    pub received: u64,
    /// The number of bytes of the frames of the answers.
    pub sent: u64,
    /// Why the store had no room, the last time that it had none.
    pub failure: Option<StoreFault>,
}

impl Tally {
    ghost use Rattle.oram_disk_host.specs.Tallies.{Counts, frame_len, none};
    ghost use Rattle.oram_wire.specs.ListOfBodies.{bodies_in};

    /// Returns the tally before the first message.
    pub fn new() -> Tally
        ensures { result ≡ none }
    {
        Tally {
            messages: 0,
            received: 0,
            sent: 0,
            failure: None,
        }
    }

    /// Returns the number of bytes of the frame of a body.
    fn frame_len(body: &[u8]) -> u64
        ensures { result ≡ frame_len body.now }
    {
        (body.len() as u64).saturating_add(4)
    }

    /// Returns the tally with one more message and its answer.
    pub fn with(&self, body: &[u8], answer: &[u8]) -> Tally
        ensures counts { Counts self.now (body.now ∷ []) answer.now result }
        ensures failure { result.failure ≡ self.now.failure }
    {
        Tally {
            messages: self.messages.saturating_add(1),
            received: self.received.saturating_add(Tally::frame_len(body)),
            sent: self.sent.saturating_add(Tally::frame_len(answer)),
            failure: self.failure,
        }
    }

    /// Returns the tally with more messages, each with the same answer.
    pub(crate) fn with_each(&self, bodies: &[Vec<u8>], answer: &[u8]) -> Tally
        ensures counts { Counts self.now (bodies_in bodies.now) answer.now result }
        ensures failure { result.failure ≡ self.now.failure }
    {
        let mut tally = *self;
        for body in bodies {
            tally = tally.with(body, answer);
        }
        tally
    }
}
