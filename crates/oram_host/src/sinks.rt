//! A server as the sink that takes the messages of its own formatting.

ghost use Rattle.std.specs.Prelude.{OnOk, IfErr};

use crate::server::Server;
use oram_wire::{HostAnswer, Sink, SinkFault};

/// The code with which a server says that it is out of memory.
const NO_ROOM: u8 = 8;

// The sink hands each body to the server.
impl Sink for Server {
    ghost use Rattle.std.specs.Prelude.{◌≡◌, Some};
    ghost use Rattle.oram_wire.specs.declared.host_messages.HostAnswer.{HostAnswer};
    ghost use Rattle.oram_wire.specs.declared.host_messages.HostAnswer.TheVariants.{Done};
    ghost use Rattle.oram_host.specs.Service.{Serves, fault_by};

    ghost putting = { λ old body new. Serves old body Done new };

    ghost refusing = { λ old body fault new. (answer : HostAnswer) × Serves old body answer new × (fault_by answer ≡ Some fault) };

    fn put(&mut self, body: &[u8]) -> Result<(), SinkFault> {
        match self.handle(body) {
            HostAnswer::Done => Ok(()),
            HostAnswer::Refused(NO_ROOM) => Err(SinkFault::OutOfMemory),
            HostAnswer::Payload(_) | HostAnswer::Refused(_) => Err(SinkFault::Refused),
        }
    }
}
