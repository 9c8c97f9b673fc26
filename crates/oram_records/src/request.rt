//! The request.
ghost use Rattle.std.specs.Prelude.{◌≡◌, ◌≢◌, ◌⊎◌, ◌↔◌, ◌<◌, ◌^◌, ◌++◌, ◌∷◌, [], ℕ, List, Ok, IfOk, IfErr, IsErrOf, length};
ghost use Rattle.std.specs.Int.{w32, to_be_bytes};
ghost use Rattle.oram_records.specs.Messages.{HasNumbers, IsMisfit, names_records, records_body};

use byteorder::{BigEndian, ByteOrder};
use oram_wire::WireFault;

/// The first byte of the request.
const RECORDS: u8 = 5;

/// The second byte of the request: the records are those that the host has now.
const NOW: u8 = 0;

/// The number of bytes of the request.
pub const REQUEST_LEN: usize = 11;

/// Asks for the records of nodes in a row of one tree, as the host has them now.
#[derive(Clone, Copy, Debug, PartialEq, Eq)]
pub struct RecordsRequest {
    pub tree: u8,
    /// The first node.
    pub first: u32,
    /// How many nodes.
    pub count: u32,
}

/// Returns the two numbers that eight bytes encode.
fn numbers_in(bytes: &[u8]) -> (u32, u32)
    requires { length bytes.now ≡ 8 }
    ensures { bytes.now ≡ to_be_bytes w32 result.0 ++ to_be_bytes w32 result.1 }
{
    (BigEndian::read_u32(bytes), BigEndian::read_u32(&bytes[4..]))
}

impl RecordsRequest {
    /// Encodes the request as a body.
    pub fn encode(&self) -> [u8; REQUEST_LEN]
        ensures { result ≡ records_body self.now }
    {
        let mut body = [0; REQUEST_LEN];
        body[0] = RECORDS;
        body[1] = NOW;
        body[2] = self.tree;
        BigEndian::write_u32(&mut body[3..7], self.first);
        BigEndian::write_u32(&mut body[7..], self.count);
        body
    }

    /// Decodes a body. Fails with `Op` if its first byte names another message, and else with `Length` if it isn't as long as a
    /// request, or asks for other records than those that the host has now.
    pub fn decode(body: &[u8]) -> Result<RecordsRequest, WireFault>
        ensures found { IfOk result (λ request. body.now ≡ records_body request) }
        ensures only { (request : RecordsRequest) → HasNumbers request → body.now ≡ records_body request → result ≡ Ok request }
        ensures op { IsErrOf result WireFault.Op ↔ (¬ names_records body.now) }
        ensures length { IsErrOf result WireFault.Length ↔ IsMisfit body.now }
        ensures faults { IfErr result (λ fault. (fault ≡ WireFault.Op) ⊎ (fault ≡ WireFault.Length)) }
    {
        match body {
            [RECORDS, NOW, tree, numbers @ ..] if numbers.len() == 8 => {
                let (first, count) = numbers_in(numbers);
                Ok(RecordsRequest {
                    tree: *tree,
                    first,
                    count,
                })
            }
            [RECORDS, ..] => Err(WireFault::Length),
            _ => Err(WireFault::Op),
        }
    }
}
