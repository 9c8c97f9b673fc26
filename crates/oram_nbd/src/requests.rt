//! Requests.

ghost use Rattle.std.specs.Prelude.{◌≡◌, IfSome, IfOk, Some};
ghost use Rattle.oram_nbd.specs.Messages.{command_code, payload_len, request_text, IsRequest, HasOwnCode};

use crate::numbers::{front_u16, front_u32, front_u64};
use std::alloc::{AllocError, Global};

const MAGIC: u32 = 0x2560_9513;

/// The command of a request.
#[derive(Clone, Copy, Debug, PartialEq, Eq)]
pub enum Command {
    Read,
    Write,
    Disconnect,
    Flush,
    Trim,
    WriteZeroes,
    /// A command that is not served.
    Other(u16),
}

impl Command {
    /// Returns the command with the number `code`.
    pub fn of(code: u16) -> Command
        ensures code { command_code result ≡ code }
        ensures own_code { HasOwnCode result }
    {
        match code {
            0 => Command::Read,
            1 => Command::Write,
            2 => Command::Disconnect,
            3 => Command::Flush,
            4 => Command::Trim,
            6 => Command::WriteZeroes,
            _ => Command::Other(code),
        }
    }

    /// Returns the number of the command.
    pub fn code(self) -> u16
        ensures { result ≡ command_code self }
    {
        match self {
            Command::Read => 0,
            Command::Write => 1,
            Command::Disconnect => 2,
            Command::Flush => 3,
            Command::Trim => 4,
            Command::WriteZeroes => 6,
            Command::Other(code) => code,
        }
    }
}

/// A request, without the bytes of a write.
#[derive(Clone, Copy, Debug, PartialEq, Eq)]
pub struct Request {
    pub command: Command,
    pub flags: u16,
    /// The client's name for the request, which the reply repeats.
    pub cookie: u64,
    pub offset: u64,
    pub length: u32,
}

impl Request {
    /// The number of bytes of a request.
    pub const BYTES: usize = 28;

    /// Flag: the reply comes only once the write is durable.
    pub const FUA: u16 = 1;

    /// Flag: zeroes have to be written, not discarded.
    pub const NO_HOLE: u16 = 2;

    /// Reads a request. Returns `None` if the bytes aren't one.
    pub fn decode(bytes: &[u8]) -> Option<Request>
        ensures found { IfSome result (λ r. IsRequest r × (bytes.now ≡ request_text r)) }
        // The bytes of a request are always read as that request.
        ensures only { (r : Request) → IsRequest r → bytes.now ≡ request_text r → result ≡ Some r }
    {
        let (magic, rest) = front_u32(bytes)?;
        let (flags, rest) = front_u16(rest)?;
        let (code, rest) = front_u16(rest)?;
        let (cookie, rest) = front_u64(rest)?;
        let (offset, rest) = front_u64(rest)?;
        let (length, rest) = front_u32(rest)?;
        if magic != MAGIC || !rest.is_empty() {
            return None;
        }
        Some(Request {
            command: Command::of(code),
            flags,
            cookie,
            offset,
            length,
        })
    }

    /// Returns the number of bytes that follow the request.
    pub fn payload_len(&self) -> u32
        ensures { result ≡ payload_len self.now.command self.now.length }
    {
        match self.command {
            Command::Write => self.length,
            _ => 0,
        }
    }

    /// Returns the bytes of the request.
    pub fn encode(&self, alloc: Global) -> Result<Vec<u8>, AllocError>
        ensures { IfOk result (λ v. v.items ≡ request_text self.now) }
    {
        let mut text = Vec::with_capacity(alloc, Request::BYTES)?;
        text.extend_from_slice(&MAGIC.to_be_bytes())?;
        text.extend_from_slice(&self.flags.to_be_bytes())?;
        text.extend_from_slice(&self.command.code().to_be_bytes())?;
        text.extend_from_slice(&self.cookie.to_be_bytes())?;
        text.extend_from_slice(&self.offset.to_be_bytes())?;
        text.extend_from_slice(&self.length.to_be_bytes())?;
        Ok(text)
    }
}
