//! Sinks, which take the messages that format a host.

ghost use Rattle.std.specs.Prelude.{◌≡◌, List, ℕ, [], ◌∷◌, ◌++◌, OnOk, OnErr, IfErr};
ghost use Rattle.oram_wire.specs.ListOfBodies.{bodies_in};

use std::alloc::{AllocError, Global};
use std::marker::Model;

/// Why a sink didn't take a body.
#[derive(Clone, Copy, Debug, PartialEq, Eq)]
pub enum SinkFault {
    /// The host gave an answer other than that it is done.
    Refused,
    /// The link to the host failed.
    Link,
    /// Memory ran out.
    OutOfMemory,
}

/// A sink takes the messages that format a host, one body after the other.
pub trait Sink {
    ghost use Rattle.oram_wire.specs.declared.sinks.SinkFault.{SinkFault};

    /// The relation of the sink before and after it takes a body.
    ghost putting: { Self → List ℕ → Self → Type 0 };

    /// The relation of the sink before and after it refuses a body with a fault.
    ghost refusing: { Self → List ℕ → SinkFault → Self → Type 0 };

    fn put(&mut self, body: &[u8]) -> Result<(), SinkFault>
        ensures taken { OnOk result (putting self.old body.now self.new) }
        ensures refused { IfErr result (λ fault. refusing self.old body.now fault self.new) };
}

/// A sink that keeps the bodies in order.
#[derive(Drop)]
pub struct ListSink {
    alloc: Global,
    bodies: Vec<Vec<u8>>,
}

impl Model for ListSink {
    ghost use Rattle.std.specs.Prelude.{List, ℕ};
    ghost use Rattle.oram_wire.specs.ListOfBodies.{bodies_in};

    ghost Value = { List (List ℕ) };

    ghost view = { λ s. bodies_in s.bodies.items };
}

impl ListSink {
    pub fn new(alloc: Global) -> ListSink
        ensures { result ≡ [] }
    {
        ListSink {
            alloc,
            bodies: Vec::new(alloc),
        }
    }

    /// Returns the bodies that were put, in order.
    pub fn bodies(&self) -> &[Vec<u8>]
        ensures { bodies_in result.now ≡ self.now }
    {
        self.bodies.as_slice()
    }

    /// Returns the bodies that were put, in order.
    pub fn into_bodies(self) -> Vec<Vec<u8>>
        ensures { bodies_in result.items ≡ self }
    {
        self.bodies
    }

    fn keep(&mut self, body: &[u8]) -> Result<(), AllocError>
        ensures ok { OnOk result (self.new ≡ self.old ++ body.now ∷ []) }
        ensures err { OnErr result (self.new ≡ self.old) }
    {
        let copy = body.to_vec(self.alloc)?;
        self.bodies.push(copy)?;
        Ok(())
    }
}

impl Sink for ListSink {
    ghost use Rattle.oram_wire.specs.declared.sinks.SinkFault.TheVariants.{OutOfMemory};

    ghost putting = { λ old body new. new ≡ old ++ body ∷ [] };

    ghost refusing = { λ old body fault new. (new ≡ old) × (fault ≡ OutOfMemory) };

    fn put(&mut self, body: &[u8]) -> Result<(), SinkFault>
        ensures taken { OnOk result (self.new ≡ self.old ++ body.now ∷ []) }
        ensures refused { IfErr result (λ fault. (self.new ≡ self.old) × (fault ≡ SinkFault.OutOfMemory)) }
    {
        match self.keep(body) {
            Ok(()) => Ok(()),
            Err(_) => Err(SinkFault::OutOfMemory),
        }
    }
}
