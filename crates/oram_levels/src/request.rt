//! The two requests.
ghost use Rattle.std.specs.Prelude.{◌≡◌, ◌↔◌, ◌⊎◌, ◌++◌, false, ℕ, List, IfOk, IfErr, IsErrOf, IsOkAnd};
ghost use Rattle.oram_levels.specs.Messages.{HasNumbers, IsMisfit, LevelsMessage, fetch_levels_body, levels_body, message_of, names_levels, store_levels_body};

use byteorder::{BigEndian, ByteOrder};
use oram_wire::WireFault;
use std::alloc::{AllocError, Global};

/// The first byte of a FETCH of levels.
const FETCH: u8 = 6;

/// The first byte of a STORE of levels.
const STORE: u8 = 7;

/// The number of bytes of a FETCH of levels.
pub const FETCH_LEVELS_LEN: usize = 8;

/// The number of bytes of a STORE of levels before its records.
pub const STORE_HEADER_LEN: usize = 7;

/// A request about some levels of a path, whose records are borrowed from the body that it was read from.
#[derive(Clone, Copy, Debug)]
pub enum LevelsRequest<'a> {
    /// Asks for the records of a path from level `first` to level `last`.
    Fetch {
        tree: u8,
        first: u8,
        last: u8,
        leaf: u32,
    },
    /// Replaces the records of a path from level `first` to that of the leaf. `records` has them, the one of level `first` first.
    Store {
        tree: u8,
        first: u8,
        leaf: u32,
        records: &'a [u8],
    },
}

/// Returns the body of a FETCH of levels.
pub fn fetch_levels(tree: u8, first: u8, last: u8, leaf: u32) -> [u8; FETCH_LEVELS_LEN]
    ensures { result ≡ fetch_levels_body tree first last leaf }
{
    let mut body = [FETCH, tree, first, last, 0, 0, 0, 0];
    BigEndian::write_u32(&mut body[4..], leaf);
    body
}

/// Returns the body of a STORE of levels up to its records.
pub fn store_levels_header(tree: u8, first: u8, leaf: u32) -> [u8; STORE_HEADER_LEN]
    ensures { (records : List ℕ) → result ++ records ≡ store_levels_body tree first leaf records }
{
    let mut header = [STORE, tree, first, 0, 0, 0, 0];
    BigEndian::write_u32(&mut header[3..], leaf);
    header
}

/// Returns the body of a STORE of levels.
fn store_levels(
    alloc: Global,
    tree: u8,
    first: u8,
    leaf: u32,
    records: &[u8],
) -> Result<Vec<u8>, AllocError>
    ensures { IfOk result (λ body. body.items ≡ store_levels_body tree first leaf records.now) }
{
    let mut body = Vec::with_capacity(alloc, STORE_HEADER_LEN + records.len())?;
    body.extend_from_slice(&store_levels_header(tree, first, leaf))?;
    body.extend_from_slice(records)?;
    Ok(body)
}

impl<'a> LevelsRequest<'a> {
    /// Encodes the request as a body. Fails only if memory runs out.
    pub fn encode(&self, alloc: Global) -> Result<Vec<u8>, AllocError>
        ensures { IfOk result (λ body. body.items ≡ levels_body (message_of self.now)) }
    {
        match *self {
            LevelsRequest::Fetch {
                tree,
                first,
                last,
                leaf,
            } => fetch_levels(tree, first, last, leaf).to_vec(alloc),
            LevelsRequest::Store {
                tree,
                first,
                leaf,
                records,
            } => store_levels(alloc, tree, first, leaf, records),
        }
    }

    /// Decodes a body. Fails with `Op` if its first byte names neither request, and else with `Length` if it is too short or too long.
    /// Doesn't look at the numbers of the levels and of the bytes of the records; the host does.
    pub fn decode(body: &'a [u8]) -> Result<LevelsRequest<'a>, WireFault>
        ensures found { IfOk result (λ request. body.now ≡ levels_body (message_of request)) }
        // It decodes each request's body as that request.
        ensures only { (message : LevelsMessage) → HasNumbers message → body.now ≡ levels_body message
            → IsOkAnd result (λ request. message_of request ≡ message) }

        ensures op { IsErrOf result WireFault.Op ↔ (names_levels body.now ≡ false) }
        ensures length { IsErrOf result WireFault.Length ↔ IsMisfit body.now }
        ensures faults { IfErr result (λ fault. (fault ≡ WireFault.Op) ⊎ (fault ≡ WireFault.Length)) }
    {
        match body {
            [FETCH, tree, first, last, fields @ ..] if fields.len() == 4 => {
                Ok(LevelsRequest::Fetch {
                    tree: *tree,
                    first: *first,
                    last: *last,
                    leaf: BigEndian::read_u32(fields),
                })
            }
            [STORE, tree, first, fields @ ..] if fields.len() >= 4 => {
                Ok(LevelsRequest::Store {
                    tree: *tree,
                    first: *first,
                    leaf: BigEndian::read_u32(fields),
                    records: &fields[4..],
                })
            }
            [FETCH | STORE, ..] => Err(WireFault::Length),
            _ => Err(WireFault::Op),
        }
    }
}
