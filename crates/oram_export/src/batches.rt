//! The requests for the records of a tree, in batches.
ghost use Rattle.std.specs.Prelude.{◌≡◌, ◌<◌, ◌++◌, ◌∷◌, [], IfOk, OnOk};
ghost use Rattle.oram_rounds.specs.Batches.{texts};
ghost use Rattle.oram_export.specs.Requests.{IsRequests, batch_at as bodies_of, batch_count as batches_in, request_at as body_of, request_count as requests_in};

use oram_records::RecordsRequest;
use std::alloc::{AllocError, Global};

/// How many requests go to the host before the first of their answers is read, at most. These answers have 16 MiB at most.
const MOST_IN_FLIGHT: u64 = 16;

/// The requests for the records of a tree: each asks for `most` of its nodes, and the last one for those that are left.
#[derive(Clone, Copy, Debug)]
pub(crate) struct Requests {
    pub(crate) tree: u8,
    pub(crate) nodes: u64,
    pub(crate) most: u64,
}

impl Requests {
    /// Returns the number of requests.
    fn count(&self) -> u64
        requires { IsRequests self.now }
        ensures { result ≡ requests_in self.now }
    {
        self.nodes.div_ceil(self.most)
    }

    /// Returns the number of batches in which they go to the host.
    pub(crate) fn batch_count(&self) -> u64
        requires { IsRequests self.now }
        ensures { result ≡ batches_in self.now }
    {
        self.count().div_ceil(MOST_IN_FLIGHT)
    }

    /// Returns a request, encoded.
    fn request(&self, alloc: Global, index: u64) -> Result<Vec<u8>, AllocError>
        requires requests { IsRequests self.now }
        requires index { index < requests_in self.now }
        ensures { IfOk result (λ body. body.items ≡ body_of self.now index) }
    {
        let first = index * self.most;
        let request = RecordsRequest {
            tree: self.tree,
            first: first as u32,
            count: self.most.min(self.nodes - first) as u32,
        };
        request.encode().to_vec(alloc)
    }

    /// Returns the requests of a batch, encoded.
    pub(crate) fn batch(&self, alloc: Global, index: u64) -> Result<Vec<Vec<u8>>, AllocError>
        requires requests { IsRequests self.now }
        requires index { index < batches_in self.now }
        ensures { IfOk result (λ bodies. texts bodies.items ≡ bodies_of self.now index) }
    {
        let first = index * MOST_IN_FLIGHT;
        let count = MOST_IN_FLIGHT.min(self.count() - first);
        let mut bodies = Vec::new(alloc);
        for at in 0..count {
            push(&mut bodies, self.request(alloc, first + at)?)?;
        }
        Ok(bodies)
    }
}

/// Adds a body to a list.
fn push(bodies: &mut Vec<Vec<u8>>, body: Vec<u8>) -> Result<(), AllocError>
    ensures { OnOk result (bodies.new.items ≡ bodies.old.items ++ body ∷ []) }
{
    match bodies.push(body) {
        Ok(()) => Ok(()),
        Err(error) => Err(AllocError::from(error)),
    }
}
