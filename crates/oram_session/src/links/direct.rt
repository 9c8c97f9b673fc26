//! A link to a server in memory.
ghost use Rattle.std.specs.Prelude.{◌≡◌};

use crate::link::{Link, LinkFault};
use oram_host::Server;
use std::alloc::Global;
use std::marker::Model;

/// A link that owns its server. A call fails only if memory runs out, and then the server is unchanged.
#[derive(Debug, Drop)]
pub struct Direct {
    server: Server,
    faults: u64,
}

impl Model for Direct {
    ghost use Rattle.oram_session.specs.Links.{ToServer};

    ghost Value = { ToServer };

    ghost view = { λ l. record { host = l.server; faults = l.faults } };
}

impl Direct {
    /// Makes a link to this server. Allocates nothing.
    pub fn new(_alloc: Global, server: Server) -> Direct
        ensures { result ≡ record { host = server; faults = 0 } }
    {
        Direct { server, faults: 0 }
    }

    /// Gives the server back, as the calls have changed it.
    pub fn into_server(self) -> Server
        ensures { result ≡ self.host }
    {
        self.server
    }
}

impl Link for Direct {
    ghost use Rattle.oram_session.specs.Links.{DirectCall};

    ghost calls = { DirectCall };

    ghost fault_count = { λ l. l.faults };

    fn call(&mut self, alloc: Global, body: &[u8]) -> Result<Vec<u8>, LinkFault> {
        match self.server.answer(alloc, body) {
            Ok(bytes) => Ok(bytes),
            Err(_) => {
                self.faults = self.faults.saturating_add(1);
                Err(LinkFault::OutOfMemory)
            }
        }
    }

    fn faults(&self) -> u64 {
        self.faults
    }

    ghost counts = { λ l m body outcome h. h.faults };
}
