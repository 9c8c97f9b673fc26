//! The server of a bucket host, in memory.

ghost use Rattle.std.specs.Prelude.{◌≡◌, ◌<◌, ◌≤◌, ◌^◌, ◌⊎◌, ◌↔◌, [], length, true, false, IfErr, IfOk, IsTrue, OnErr, OnOk, None, Some, MatchBool, MatchOption, MatchResult};
ghost use Rattle.std.specs.Io.KnownBytes.{Appends, Consumes, IsAtEnd};
ghost use Rattle.oram_host.specs.Image.{image};
ghost use Rattle.oram_host.specs.ImageReader.{IsFirstFault, fault_number, host_in};
ghost use Rattle.oram_host.specs.Host.{Host, IsHost};
ghost use Rattle.oram_host.specs.Flips.{IsByteless, IsFlipped};
ghost use Rattle.oram_host.specs.Answers.{Answers, IsFetched, IsPut, IsShaped, IsStored};
ghost use Rattle.oram_host.specs.Path.{FitsAnswer, IsBehind};
ghost use Rattle.oram_host.specs.Refusals.{Refuses, code_of};
ghost use Rattle.oram_host.specs.Service.{Serves, StandsFor};
ghost use Rattle.oram_host.specs.Swaps.{IsSwapped, LacksPair};
ghost use Rattle.oram_host.specs.Transfers.{Begins, TakesFrom};
ghost use Rattle.oram_wire.specs.FrameStream.{IsBody};
ghost use Rattle.oram_wire.specs.HostMessages.{answer_body, request_body};
ghost use Rattle.oram_wire.specs.HostBodies.{HasNumbers, IsAnswer, IsMisfit, names_request, request_of};

use crate::images::{ImageFault, load_trees, save_trees};
use crate::refusals::HostRefusal;
use crate::swaps::swap_records;
use crate::trees::{Tree, copied_trees, is_shape};
use oram_bytes::Bytes;
use oram_wire::{GOOD, HostAnswer, HostRequest, HostView, REFUSED, WireFault};
use std::alloc::{AllocError, Global};
use std::collections::BTreeMap;
use std::io::{Read, Write};
use std::marker::Model;

/// A bucket host in memory. It takes memory only for the records that it is given, however large the shapes are.
#[derive(Debug, Drop)]
pub struct Server {
    alloc: Global,
    trees: BTreeMap<u8, Tree>,
}

/// The outcome of a request that was carried out.
enum Served {
    /// The bytes that come first, and then the records that the request asks for.
    Records(Vec<u8>),
    Done,
}

impl Model for Server {
    ghost use Rattle.oram_host.specs.Host.{Host};

    ghost Value = { Host };

    ghost use Rattle.oram_host.specs.Trees.{AreTrees, host_of};

    ghost view = { λ s. host_of s.trees };

    ghost invariant = { λ s. AreTrees s.trees };
}

/// Returns a tree and a node of these numbers, or `None` if a number is too great for one.
fn place(tree: u64, node: u64) -> Option<(u8, u32)>
    ensures { MatchOption result ((256 ≤ tree) ⊎ (2 ^ 32 ≤ node)) (λ p. (p.0 ≡ tree) × (p.1 ≡ node)) }
{
    let tree = u8::try_from(tree).ok()?;
    let node = u32::try_from(node).ok()?;
    Some((tree, node))
}

impl Server {
    ghost use Rattle.oram_wire.specs.declared.host_messages.HostRequest.{HostRequest};

    /// Returns a host without trees.
    pub fn new(alloc: Global) -> Server
        ensures { result ≡ [] }
    {
        Server {
            alloc,
            trees: BTreeMap::new(alloc),
        }
    }

    /// Returns `front` and then the records of a path.
    fn fetch(&self, tree: u8, leaf: u32, front: &[u8]) -> Result<Vec<u8>, HostRefusal>
        requires { length front.now ≤ 1 }
        ensures { MatchResult result
            (λ v. IsBehind front.now (λ bytes. IsFetched self.now tree leaf bytes × FitsAnswer bytes) v.items)
            (Refuses self.now (HostRequest.Fetch tree leaf)) }
    {
        let Some(kept) = self.trees.get(&tree) else {
            return Err(HostRefusal::NoShape);
        };
        kept.fetch(self.alloc, leaf, front)
    }

    fn store(&mut self, tree: u8, leaf: u32, records: &[u8]) -> Result<(), HostRefusal>
        ensures { MatchResult result (λ _. IsStored self.old tree leaf records.now self.new)
            (λ why. Refuses self.old (HostRequest.Store tree leaf records.now) why
            × (self.new ≡ self.old)) }
    {
        let alloc = self.alloc;
        let Some(kept) = self.trees.get_mut(&tree) else {
            return Err(HostRefusal::NoShape);
        };
        kept.store(alloc, leaf, records)
    }

    fn put(&mut self, tree: u8, node: u32, bytes: &[u8]) -> Result<(), HostRefusal>
        ensures { MatchResult result (λ _. IsPut self.old tree node bytes.now self.new)
            (λ why. Refuses self.old (HostRequest.Put tree node bytes.now) why
            × (self.new ≡ self.old)) }
    {
        let alloc = self.alloc;
        let Some(kept) = self.trees.get_mut(&tree) else {
            return Err(HostRefusal::NoShape);
        };
        kept.put(alloc, node, bytes)
    }

    fn shape(&mut self, tree: u8, depth: u8, record_len: u32) -> Result<(), HostRefusal>
        ensures { MatchResult result (λ _. IsShaped self.old tree depth record_len self.new)
            (λ why. Refuses self.old (HostRequest.Shape tree depth record_len) why
            × (self.new ≡ self.old)) }
    {
        if !is_shape(depth, record_len) {
            return Err(HostRefusal::BadLength);
        }
        if self.trees.contains_key(&tree) {
            return Err(HostRefusal::ShapeTaken);
        }
        let bare = Tree {
            depth,
            record_len,
            records: BTreeMap::new(self.alloc),
        };
        self.trees.insert(tree, bare)?;
        Ok(())
    }

    /// Carries out a request. If it asks for records, they come after `front`.
    fn serve(&mut self, request: HostView<'_>, front: &[u8]) -> Result<Served, HostRefusal>
        requires { length front.now ≤ 1 }
        ensures { MatchResult result (λ served. StandsFor front.now served (λ answer.
            Answers self.old (request_of request.entry) answer self.new × IsAnswer answer × IsBody (answer_body answer)))
            (λ why. Refuses self.old (request_of request.entry) why × (self.new ≡ self.old)) }
    {
        match request {
            HostView::Fetch { tree, leaf } => {
                let records = self.fetch(tree, leaf, front)?;
                Ok(Served::Records(records))
            }
            HostView::Store {
                tree,
                leaf,
                records,
            } => {
                self.store(tree, leaf, records)?;
                Ok(Served::Done)
            }
            HostView::Put { tree, node, bytes } => {
                self.put(tree, node, bytes)?;
                Ok(Served::Done)
            }
            HostView::Shape {
                tree,
                depth,
                record_len,
            } => {
                self.shape(tree, depth, record_len)?;
                Ok(Served::Done)
            }
        }
    }

    /// Carries out the request in a body. If it asks for records, they come after `front`.
    fn serve_body(&mut self, body: &[u8], front: &[u8]) -> Result<Served, HostRefusal>
        requires { length front.now ≤ 1 }
        ensures { MatchResult result (λ served. StandsFor front.now served (λ answer.
            Serves self.old body.now answer self.new × IsAnswer answer × IsBody (answer_body answer)))
            (λ why. Serves self.old body.now (HostAnswer.Refused (code_of why)) self.new
            × (self.new ≡ self.old)) }
    {
        match HostView::read(body) {
            Ok(request) => self.serve(request, front),
            Err(WireFault::Op) => Err(HostRefusal::BadOp),
            Err(_) => Err(HostRefusal::BadLength),
        }
    }

    /// Answers the body of a request. A request that it refuses changes nothing.
    pub fn handle(&mut self, body: &[u8]) -> HostAnswer
        ensures request { (message : HostRequest) → HasNumbers message
            → body.now ≡ request_body message → Answers self.old message result self.new }

        // A body that isn't a request is refused.
        ensures op { names_request body.now ≡ false → (result ≡ HostAnswer.Refused 7)
            × (self.new ≡ self.old) }
        ensures misfit { IsMisfit body.now → (result ≡ HostAnswer.Refused 4)
            × (self.new ≡ self.old) }

        // The answer can be written as a body.
        ensures spelled { IsAnswer result }
    {
        match self.serve_body(body, &[]) {
            Ok(Served::Records(records)) => HostAnswer::Payload(Bytes::from_vec(records)),
            Ok(Served::Done) => HostAnswer::Done,
            Err(why) => HostAnswer::Refused(why.code()),
        }
    }

    /// Returns the bytes of the answer that `handle` would give to the body of a request. The records are in one vector
    /// with the byte before them, so they are copied only once.
    ///
    /// It allocates a short answer before it serves the request; if that fails, it serves nothing.
    pub fn answer(&mut self, alloc: Global, body: &[u8]) -> Result<Vec<u8>, AllocError>
        ensures ok { IfOk result (λ v. (answer : HostAnswer) × Serves self.old body.now answer self.new
            × IsAnswer answer × (v.items ≡ answer_body answer)) }
        // The answer fits in a frame.
        ensures fits { IfOk result (λ v. IsBody v.items) }
        ensures err { OnErr result (self.new ≡ self.old) }
    {
        let mut short = Vec::with_capacity(alloc, 2)?;
        match self.serve_body(body, &[GOOD]) {
            Ok(Served::Records(answer)) => Ok(answer),
            Ok(Served::Done) => {
                short.extend_from_slice(&[GOOD])?;
                Ok(short)
            }
            Err(why) => {
                short.extend_from_slice(&[REFUSED, why.code()])?;
                Ok(short)
            }
        }
    }

    /// Returns a server that keeps the same records.
    pub fn copy(&self, alloc: Global) -> Result<Server, AllocError>
        ensures { IfOk result (λ copied. copied ≡ self.now) }
    {
        let trees = copied_trees(alloc, &self.trees)?;
        Ok(Server { alloc, trees })
    }

    /// Flips the lowest bit of a byte of a node's record, and returns whether there is such a byte. Allocates nothing.
    pub fn flip(&mut self, tree: u64, node: u64, offset: u64) -> bool
        ensures { MatchBool result (IsFlipped self.old tree node offset self.new)
            (IsByteless self.old tree node offset × (self.new ≡ self.old)) }
    {
        let alloc = self.alloc;
        let Ok(tree) = u8::try_from(tree) else {
            return false;
        };
        let Ok(node) = u32::try_from(node) else {
            return false;
        };
        let Some(kept) = self.trees.get_mut(&tree) else {
            return false;
        };
        kept.flip(alloc, node, offset)
    }

    /// Exchanges two stored records, and returns whether both exist and have the same length. Allocates nothing.
    pub fn swap(&mut self, tree_a: u64, node_a: u64, tree_b: u64, node_b: u64) -> bool
        ensures swapped { MatchBool result (IsSwapped self.old tree_a node_a tree_b node_b self.new)
            (LacksPair self.old tree_a node_a tree_b node_b × (self.new ≡ self.old)) }
        ensures same { tree_a ≡ tree_b → node_a ≡ node_b → self.new ≡ self.old }
    {
        let alloc = self.alloc;
        let Some(a) = place(tree_a, node_a) else {
            return false;
        };
        let Some(b) = place(tree_b, node_b) else {
            return false;
        };
        swap_records(alloc, &mut self.trees, a.0, a.1, b.0, b.1)
    }

    /// Reads an image, and returns the server that was saved. The reader must hold nothing after the image. The image
    /// is read from front to back; of several faults, the first is returned.
    pub fn load_image<R: Read>(alloc: Global, reader: &mut R) -> Result<Server, ImageFault>
        ensures ok { IfOk result (λ server. Consumes (R.remaining reader.old) (R.remaining reader.new)
            (image server)) }
        ensures end { OnOk result (IsAtEnd (R.remaining reader.new)) }
        ensures host { IfOk result (λ server. IsHost server) }
        ensures consumed { TakesFrom (R.remaining reader.old) (R.remaining reader.new) }

        // The image of a host is read as that host, unless the reader fails or memory runs out.
        ensures saved { (host : Host) → IsHost host → R.remaining reader.old ≡ Some (image host)
            → MatchResult result (λ server. server ≡ host) (λ why. fault_number why ≡ None) }
        ensures fault { IfErr result (λ why. IsFirstFault host_in why (R.remaining reader.old)) }
    {
        let trees = load_trees(alloc, reader)?;
        Ok(Server { alloc, trees })
    }

    /// Writes the image of what the server keeps. Allocates nothing. It retries an interrupted write; a writer that
    /// takes no byte has failed.
    pub fn save_image<W: Write>(&self, writer: &mut W) -> Result<(), ImageFault>
        ensures ok { OnOk result (Appends (W.contents writer.old) (W.contents writer.new)
            (image self.now)) }
        ensures begun { Begins (W.contents writer.old) (W.contents writer.new) (image self.now) }
        ensures host { IsHost self.now }
        ensures fault { IfErr result (λ f. f ≡ ImageFault.Io) }
    {
        save_trees(writer, &self.trees)
    }
}
