//! The messages that a user sends to the daemon in a session, and the replies.

ghost use Rattle.std.specs.Prelude.{◌≡◌, ◌≢◌, ◌↔◌, ◌<◌, ◌∷◌, ◌++◌, false, length, IfOk, IfErr, IsErrOf, MatchResult};
ghost use Rattle.std.specs.Int.{w32, to_be_bytes};
ghost use Rattle.oram_wire.specs.SessionMessages.{session_request_body, session_reply_body};
ghost use Rattle.oram_wire.specs.SessionBodies.{names_session_request, names_session_reply, IsSessionMisfit, IsReplyMisfit, HasNoReplyCode, HasAddress, IsSessionReply};

use crate::faults::WireFault;
use byteorder::{BigEndian, ByteOrder};
use oram_bytes::Bytes;
use std::alloc::{AllocError, Global};

const READ: u8 = 0x11;

const WRITE: u8 = 0x12;

const DISCARD: u8 = 0x13;

const DATA: u8 = 0x90;

const DONE: u8 = 0x91;

const REFUSED: u8 = 0x92;

/// The code with which the daemon refuses a request because the device has failed.
pub const DEVICE_FAILED: u8 = 6;

/// The code with which the daemon refuses a body that is no request.
pub const BAD_REQUEST: u8 = 7;

/// A user's request to the daemon.
#[derive(Debug, Drop, PartialEq, Eq)]
pub enum SessionRequest {
    /// Asks for the bytes of a block.
    Read { address: u32 },
    /// Replaces the bytes of a block.
    Write { address: u32, bytes: Bytes },
    /// Replaces the bytes of a block by zeros.
    Discard { address: u32 },
}

/// The daemon's reply to a request.
#[derive(Debug, Drop, PartialEq, Eq)]
pub enum SessionReply {
    /// The bytes of the block that was read.
    Data(Bytes),
    /// The block was written or discarded.
    Done,
    /// The request was refused, with a code from 1 to 7: 1 a bad address, 2 a bad length, 3 bad words, 4 busy,
    /// 5 exhausted, 6 `DEVICE_FAILED`, 7 `BAD_REQUEST`.
    Refused(u8),
}

/// Returns a body: the first byte, an address, and then `bytes`.
fn message(alloc: Global, op: u8, address: u32, bytes: &[u8]) -> Result<Vec<u8>, AllocError>
    ensures { IfOk result (λ v. v.items ≡ op ∷ to_be_bytes w32 address ++ bytes.now) }
{
    let mut header = [op, 0, 0, 0, 0];
    BigEndian::write_u32(&mut header[1..], address);
    let mut body = Vec::with_capacity(alloc, header.len() + bytes.len())?;
    body.extend_from_slice(&header)?;
    body.extend_from_slice(bytes)?;
    Ok(body)
}

/// Reads the address that follows a first byte, and returns it with the rest of the fields.
fn address_in(fields: &[u8]) -> Result<(u32, &[u8]), WireFault>
    ensures found { IfOk result (λ p. fields.now ≡ to_be_bytes w32 p.0 ++ p.1.now) }
    ensures fault { IfErr result (λ f. (f ≡ WireFault.Length) × (length fields.now < 4)) }
{
    if fields.len() < 4 {
        return Err(WireFault::Length);
    }
    let (address, rest) = fields.split_at(4);
    Ok((BigEndian::read_u32(address), rest))
}

/// Reads the address that follows a first byte, if nothing follows it.
fn only_address(fields: &[u8]) -> Result<u32, WireFault>
    ensures found { IfOk result (λ address. fields.now ≡ to_be_bytes w32 address) }
    ensures fault { IfErr result (λ f. (f ≡ WireFault.Length) × (length fields.now ≢ 4)) }
{
    let (address, rest) = address_in(fields)?;
    if !rest.is_empty() {
        return Err(WireFault::Length);
    }
    Ok(address)
}

impl SessionRequest {
    /// Encodes the message as a body. Fails only if memory runs out.
    pub fn encode(&self, alloc: Global) -> Result<Vec<u8>, AllocError>
        ensures { IfOk result (λ v. v.items ≡ session_request_body self.now) }
    {
        match self {
            SessionRequest::Read { address } => message(alloc, READ, *address, &[]),
            SessionRequest::Write { address, bytes } => {
                message(alloc, WRITE, *address, bytes.as_slice())
            }
            SessionRequest::Discard { address } => message(alloc, DISCARD, *address, &[]),
        }
    }

    /// Decodes a body as a message. Doesn't check how many bytes a WRITE has; the device does.
    pub fn decode(alloc: Global, body: &[u8]) -> Result<SessionRequest, WireFault>
        ensures found { IfOk result (λ message. body.now ≡ session_request_body message) }
        // It decodes each request's body as that request, unless memory runs out.
        ensures only { (message : SessionRequest) → HasAddress message
            → body.now ≡ session_request_body message
            → MatchResult result (λ read. read ≡ message) (λ f. f ≡ WireFault.OutOfMemory) }

        ensures op { IsErrOf result WireFault.Op ↔ (names_session_request body.now ≡ false) }
        ensures length { IsErrOf result WireFault.Length ↔ IsSessionMisfit body.now }
        ensures code { IfErr result (λ f. f ≢ WireFault.Code) }
    {
        let [op, fields @ ..] = body else {
            return Err(WireFault::Op);
        };
        match *op {
            READ => {
                let address = only_address(fields)?;
                Ok(SessionRequest::Read { address })
            }
            WRITE => {
                let (address, rest) = address_in(fields)?;
                let bytes = Bytes::copy(alloc, rest)?;
                Ok(SessionRequest::Write { address, bytes })
            }
            DISCARD => {
                let address = only_address(fields)?;
                Ok(SessionRequest::Discard { address })
            }
            _ => Err(WireFault::Op),
        }
    }
}

impl SessionReply {
    /// Encodes the reply as a body. Requires a code from 1 to 7, since no other can be read.
    pub fn encode(&self, alloc: Global) -> Result<Vec<u8>, AllocError>
        requires { IsSessionReply self.now }
        ensures { IfOk result (λ v. v.items ≡ session_reply_body self.now) }
    {
        match self {
            SessionReply::Data(bytes) => {
                let data = bytes.as_slice();
                let mut body = Vec::with_capacity(alloc, 1 + data.len())?;
                body.push(DATA)?;
                body.extend_from_slice(data)?;
                Ok(body)
            }
            SessionReply::Done => [DONE].to_vec(alloc),
            SessionReply::Refused(code) => [REFUSED, *code].to_vec(alloc),
        }
    }

    /// Decodes a body as a reply.
    pub fn decode(alloc: Global, body: &[u8]) -> Result<SessionReply, WireFault>
        ensures found { IfOk result (λ reply.
            IsSessionReply reply × (body.now ≡ session_reply_body reply)) }
        // It decodes each reply's body as that reply, unless memory runs out.
        ensures only { (reply : SessionReply) → IsSessionReply reply
            → body.now ≡ session_reply_body reply
            → MatchResult result (λ read. read ≡ reply) (λ f. f ≡ WireFault.OutOfMemory) }

        ensures op { IsErrOf result WireFault.Op ↔ (names_session_reply body.now ≡ false) }
        ensures length { IsErrOf result WireFault.Length ↔ IsReplyMisfit body.now }
        ensures code { IsErrOf result WireFault.Code ↔ HasNoReplyCode body.now }
    {
        match body {
            [DATA, data @ ..] => Ok(SessionReply::Data(Bytes::copy(alloc, data)?)),
            [DONE] => Ok(SessionReply::Done),
            [REFUSED, code] => match *code {
                1..=7 => Ok(SessionReply::Refused(*code)),
                _ => Err(WireFault::Code),
            },
            [DONE | REFUSED, ..] => Err(WireFault::Length),
            _ => Err(WireFault::Op),
        }
    }
}
