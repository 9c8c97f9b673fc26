//! A store as the sink that takes the messages of a formatting.

use crate::store::FileStore;
use oram_host::HostRefusal;
use oram_redo::FilePair;
use oram_wire::{HostAnswer, Sink, SinkFault};

// The sink hands each body to the store. Its contract doesn't say what the store keeps then.
impl<F: FilePair> Sink for FileStore<F> {
    ghost use Rattle.std.specs.Prelude.{⊤};

    ghost putting = { λ _ _ _. ⊤ };

    ghost refusing = { λ _ _ _ _. ⊤ };

    fn put(&mut self, body: &[u8]) -> Result<(), SinkFault> {
        match self.handle(body) {
            HostAnswer::Done => Ok(()),
            HostAnswer::Refused(code) if code == HostRefusal::OutOfMemory.code() => {
                Err(SinkFault::OutOfMemory)
            }
            HostAnswer::Payload(_) | HostAnswer::Refused(_) => Err(SinkFault::Refused),
        }
    }
}
