//! The trait of bucket servers.
ghost use Rattle.std.specs.Prelude.{◌≡◌, ℕ, List, IfOk, OnErr};
ghost use Rattle.oram_wire.specs.FrameStream.{IsBody};
ghost use Rattle.oram_wire.specs.HostMessages.{answer_body};
ghost use Rattle.oram_wire.specs.HostBodies.{IsAnswer};
ghost use Rattle.oram_wire.specs.declared.host_messages.HostAnswer.{HostAnswer};

use crate::server::Server;
use std::alloc::{AllocError, Global};

/// A server that answers the requests of a client, one after the other.
pub trait BucketServer {
    /// Whether a server in the first state may give this answer to a body of these bytes, and be in the second state
    /// afterwards.
    ghost serves: { Self → List ℕ → HostAnswer → Self → Type 0 };

    /// Returns the bytes of the answer to the body of a request. If there is no memory to answer, it serves nothing.
    fn respond(&mut self, alloc: Global, body: &[u8]) -> Result<Vec<u8>, AllocError>
        ensures ok { IfOk result (λ v. (answer : HostAnswer) × serves self.old body.now answer self.new
            × IsAnswer answer × (v.items ≡ answer_body answer)) }
        // The answer fits in a frame.
        ensures fits { IfOk result (λ v. IsBody v.items) }
        ensures err { OnErr result (self.new ≡ self.old) };
}

impl BucketServer for Server {
    ghost use Rattle.oram_host.specs.Service.{Serves};

    ghost serves = { λ host body answer after. Serves host body answer after };

    fn respond(&mut self, alloc: Global, body: &[u8]) -> Result<Vec<u8>, AllocError> {
        self.answer(alloc, body)
    }
}
