//! The messages that go to the bucket host, and the host's answers.

ghost use Rattle.std.specs.Prelude.{◌≡◌, ◌≢◌, ◌↔◌, ◌⊎◌, ◌<◌, ◌∷◌, [], ◌++◌, IsTrue, false, ℕ, List, length, IfOk, IfErr, IsErrOf, IsOkAnd, MatchResult};
ghost use Rattle.std.specs.Int.{w32, to_be_bytes};
ghost use Rattle.oram_wire.specs.HostMessages.{answer_body, done_answer, fetch_body, request_body, shape_body, store_body};
ghost use Rattle.oram_wire.specs.HostBodies.{request_of, names_request, names_answer, IsMisfit, IsOverlong, HasNoCode, HasNumbers, IsAnswer};

use crate::faults::WireFault;
use byteorder::{BigEndian, ByteOrder};
use oram_bytes::Bytes;
use std::alloc::{AllocError, Global};

const FETCH: u8 = 1;

const STORE: u8 = 2;

const PUT: u8 = 3;

const SHAPE: u8 = 4;

/// The first byte of the answer to a request that the host has carried out.
pub const GOOD: u8 = 0x80;

/// The first byte of a refusal.
pub const REFUSED: u8 = 0x81;

/// Returns whether an answer is the one byte that says that the host is done.
pub fn is_done(answer: &[u8]) -> bool
    ensures { IsTrue result ↔ (answer.now ≡ done_answer) }
{
    answer == [GOOD].as_slice()
}

/// A message to the bucket host. The records of a STORE are those of the path from the root to a leaf, root first.
#[derive(Debug, Drop, PartialEq, Eq)]
pub enum HostRequest {
    /// Asks for the records of a path.
    Fetch {
        tree: u8,
        leaf: u32,
    },
    /// Replaces the records of a path.
    Store {
        tree: u8,
        leaf: u32,
        records: Bytes,
    },
    /// Replaces the record of one node.
    Put {
        tree: u8,
        node: u32,
        bytes: Bytes,
    },
    /// Gives a tree its depth and the length of its records.
    Shape {
        tree: u8,
        depth: u8,
        record_len: u32,
    },
}

/// A message to the bucket host, whose bytes are borrowed from the body that it was read from.
#[derive(Clone, Copy, Debug)]
pub enum HostView<'a> {
    /// Asks for the records of a path.
    Fetch {
        tree: u8,
        leaf: u32,
    },
    /// Replaces the records of a path.
    Store {
        tree: u8,
        leaf: u32,
        records: &'a [u8],
    },
    /// Replaces the record of one node.
    Put {
        tree: u8,
        node: u32,
        bytes: &'a [u8],
    },
    /// Gives a tree its depth and the length of its records.
    Shape {
        tree: u8,
        depth: u8,
        record_len: u32,
    },
}

/// The answer of the bucket host to a message.
#[derive(Debug, Drop, PartialEq, Eq)]
pub enum HostAnswer {
    /// The records of a path, root first.
    Payload(Bytes),
    /// The host has carried out the request.
    Done,
    /// The host has refused the request, with a code from 1 to 8.
    Refused(u8),
}

/// The number of bytes of a FETCH, and of a STORE before its records.
pub const HEADER_LEN: usize = 6;

/// Returns a header: the first byte, the tree and a number.
fn header(op: u8, tree: u8, number: u32) -> [u8; HEADER_LEN]
    ensures { result ≡ (op ∷ tree ∷ []) ++ to_be_bytes w32 number }
{
    let mut header = [op, tree, 0, 0, 0, 0];
    BigEndian::write_u32(&mut header[2..], number);
    header
}

/// Returns the body of a FETCH.
pub fn fetch_header(tree: u8, leaf: u32) -> [u8; HEADER_LEN]
    ensures { result ≡ fetch_body tree leaf }
{
    header(FETCH, tree, leaf)
}

/// Returns the body of a STORE up to its records.
pub fn store_header(tree: u8, leaf: u32) -> [u8; HEADER_LEN]
    ensures { (records : List ℕ) → result ++ records ≡ store_body tree leaf records }
{
    header(STORE, tree, leaf)
}

/// Returns the body that consists of a header and `bytes`.
fn message(
    alloc: Global,
    op: u8,
    tree: u8,
    number: u32,
    bytes: &[u8],
) -> Result<Vec<u8>, AllocError>
    ensures { IfOk result (λ v. v.items ≡ (op ∷ tree ∷ []) ++ to_be_bytes w32 number ++ bytes.now) }
{
    let mut body = Vec::with_capacity(alloc, HEADER_LEN + bytes.len())?;
    body.extend_from_slice(&header(op, tree, number))?;
    body.extend_from_slice(bytes)?;
    Ok(body)
}

/// Returns the body of a SHAPE.
fn shape(alloc: Global, tree: u8, depth: u8, record_len: u32) -> Result<Vec<u8>, AllocError>
    ensures { IfOk result (λ v. v.items ≡ shape_body tree depth record_len) }
{
    let mut body = [SHAPE, tree, depth, 0, 0, 0, 0];
    BigEndian::write_u32(&mut body[3..], record_len);
    body.to_vec(alloc)
}

impl HostRequest {
    /// Encodes the message as a body. Fails only if memory runs out.
    pub fn encode(&self, alloc: Global) -> Result<Vec<u8>, AllocError>
        ensures { IfOk result (λ v. v.items ≡ request_body self.now) }
    {
        match self {
            HostRequest::Fetch { tree, leaf } => message(alloc, FETCH, *tree, *leaf, &[]),
            HostRequest::Store {
                tree,
                leaf,
                records,
            } => message(alloc, STORE, *tree, *leaf, records.as_slice()),
            HostRequest::Put { tree, node, bytes } => {
                message(alloc, PUT, *tree, *node, bytes.as_slice())
            }
            HostRequest::Shape {
                tree,
                depth,
                record_len,
            } => shape(alloc, *tree, *depth, *record_len),
        }
    }

    /// Decodes a body as a message. Doesn't check the number of bytes of the records; the host does.
    pub fn decode(alloc: Global, body: &[u8]) -> Result<HostRequest, WireFault>
        ensures found { IfOk result (λ message. body.now ≡ request_body message) }
        // It decodes each request's body as that request, unless memory runs out.
        ensures only { (message : HostRequest) → HasNumbers message
            → body.now ≡ request_body message
            → MatchResult result (λ read. read ≡ message) (λ f. f ≡ WireFault.OutOfMemory) }

        ensures op { IsErrOf result WireFault.Op ↔ (names_request body.now ≡ false) }
        ensures length { IsErrOf result WireFault.Length ↔ IsMisfit body.now }
        ensures code { IfErr result (λ f. f ≢ WireFault.Code) }
    {
        let view = HostView::read(body)?;
        Ok(view.to_request(alloc)?)
    }
}

/// Reads the tree and the number that follow a first byte, and returns them with the rest of the fields.
fn place_in(fields: &[u8]) -> Result<(u8, u32, &[u8]), WireFault>
    ensures found { IfOk result (λ p. fields.now ≡ (p.0 ∷ []) ++ to_be_bytes w32 p.1 ++ p.2.now) }
    ensures fault { IfErr result (λ f. (f ≡ WireFault.Length) × (length fields.now < 5)) }
{
    if fields.len() < 5 {
        return Err(WireFault::Length);
    }
    Ok((fields[0], BigEndian::read_u32(&fields[1..5]), &fields[5..]))
}

impl<'a> HostView<'a> {
    ghost use Rattle.oram_wire.specs.declared.host_messages.HostRequest.{HostRequest};

    /// Reads a body as a message. Fails with `Op` if the first byte names no request, and else with `Length` if the
    /// body is too short or too long.
    pub fn read(body: &'a [u8]) -> Result<HostView<'a>, WireFault>
        ensures found { IfOk result (λ view. body.now ≡ request_body (request_of view)) }
        // It reads each request's body as that request.
        ensures only { (message : HostRequest) → HasNumbers message
            → body.now ≡ request_body message
            → IsOkAnd result (λ view. request_of view ≡ message) }

        ensures op { IsErrOf result WireFault.Op ↔ (names_request body.now ≡ false) }
        ensures length { IsErrOf result WireFault.Length ↔ IsMisfit body.now }
        ensures faults { IfErr result (λ f. (f ≡ WireFault.Op) ⊎ (f ≡ WireFault.Length)) }
    {
        let [op, fields @ ..] = body else {
            return Err(WireFault::Op);
        };
        match *op {
            FETCH => {
                let (tree, leaf, rest) = place_in(fields)?;
                if !rest.is_empty() {
                    return Err(WireFault::Length);
                }
                Ok(HostView::Fetch { tree, leaf })
            }
            STORE => {
                let (tree, leaf, records) = place_in(fields)?;
                Ok(HostView::Store {
                    tree,
                    leaf,
                    records,
                })
            }
            PUT => {
                let (tree, node, bytes) = place_in(fields)?;
                Ok(HostView::Put { tree, node, bytes })
            }
            SHAPE => {
                if fields.len() != 6 {
                    return Err(WireFault::Length);
                }
                Ok(HostView::Shape {
                    tree: fields[0],
                    depth: fields[1],
                    record_len: BigEndian::read_u32(&fields[2..]),
                })
            }
            _ => Err(WireFault::Op),
        }
    }

    /// Copies the bytes to make an owned message. Fails only if memory runs out.
    pub fn to_request(&self, alloc: Global) -> Result<HostRequest, AllocError>
        ensures { IfOk result (λ message. message ≡ request_of self.now) }
    {
        Ok(match *self {
            HostView::Fetch { tree, leaf } => HostRequest::Fetch { tree, leaf },
            HostView::Store {
                tree,
                leaf,
                records,
            } => HostRequest::Store {
                tree,
                leaf,
                records: Bytes::copy(alloc, records)?,
            },
            HostView::Put { tree, node, bytes } => HostRequest::Put {
                tree,
                node,
                bytes: Bytes::copy(alloc, bytes)?,
            },
            HostView::Shape {
                tree,
                depth,
                record_len,
            } => HostRequest::Shape {
                tree,
                depth,
                record_len,
            },
        })
    }
}

impl HostAnswer {
    /// Encodes the answer as a body. Requires a payload that isn't empty, since it would be read as `Done`, and a code
    /// from 1 to 8, since no other can be read.
    pub fn encode(&self, alloc: Global) -> Result<Vec<u8>, AllocError>
        requires { IsAnswer self.now }
        ensures { IfOk result (λ v. v.items ≡ answer_body self.now) }
    {
        match self {
            HostAnswer::Payload(bytes) => {
                let payload = bytes.as_slice();
                let mut body = Vec::with_capacity(alloc, 1 + payload.len())?;
                body.push(GOOD)?;
                body.extend_from_slice(payload)?;
                Ok(body)
            }
            HostAnswer::Done => [GOOD].to_vec(alloc),
            HostAnswer::Refused(code) => [REFUSED, *code].to_vec(alloc),
        }
    }

    /// Decodes a body as an answer.
    pub fn decode(alloc: Global, body: &[u8]) -> Result<HostAnswer, WireFault>
        ensures found { IfOk result (λ answer. IsAnswer answer × (body.now ≡ answer_body answer)) }
        // It decodes each answer's body as that answer, unless memory runs out.
        ensures only { (answer : HostAnswer) → IsAnswer answer → body.now ≡ answer_body answer
            → MatchResult result (λ read. read ≡ answer) (λ f. f ≡ WireFault.OutOfMemory) }

        ensures op { IsErrOf result WireFault.Op ↔ (names_answer body.now ≡ false) }
        ensures length { IsErrOf result WireFault.Length ↔ IsOverlong body.now }
        ensures code { IsErrOf result WireFault.Code ↔ HasNoCode body.now }
    {
        match body {
            [GOOD] => Ok(HostAnswer::Done),
            [GOOD, payload @ ..] => Ok(HostAnswer::Payload(Bytes::copy(alloc, payload)?)),
            [REFUSED, code] => match *code {
                1..=8 => Ok(HostAnswer::Refused(*code)),
                _ => Err(WireFault::Code),
            },
            [REFUSED, ..] => Err(WireFault::Length),
            _ => Err(WireFault::Op),
        }
    }
}
