//! Options of the handshake, and the kinds of replies to them.

ghost use Rattle.std.specs.Prelude.{◌≡◌, List, IfSome, IfNone, IfOk, Some};
ghost use Rattle.oram_nbd.specs.Options.{kind_code, option_code, option_head, IsHead, IsMalformed, IsOption, Wants};

use crate::numbers::{front_u16, front_u32, front_u64};
use std::alloc::{AllocError, Global};

const MAGIC: u64 = 0x4948_4156_454F_5054;

/// An option that a client sends in the handshake.
#[derive(Clone, Copy, Debug, PartialEq, Eq)]
pub enum HandshakeOption {
    ExportName,
    Abort,
    List,
    Info,
    Go,
    /// An option that isn't served.
    Other(u32),
}

impl HandshakeOption {
    /// Returns the option with the number `code`.
    pub fn of(code: u32) -> HandshakeOption
        ensures code { option_code result ≡ code }
        ensures known { IsOption result }
    {
        match code {
            1 => HandshakeOption::ExportName,
            2 => HandshakeOption::Abort,
            3 => HandshakeOption::List,
            6 => HandshakeOption::Info,
            7 => HandshakeOption::Go,
            _ => HandshakeOption::Other(code),
        }
    }

    /// Returns the number of the option.
    pub fn code(self) -> u32
        ensures { result ≡ option_code self }
    {
        match self {
            HandshakeOption::ExportName => 1,
            HandshakeOption::Abort => 2,
            HandshakeOption::List => 3,
            HandshakeOption::Info => 6,
            HandshakeOption::Go => 7,
            HandshakeOption::Other(code) => code,
        }
    }
}

/// The head of an option: which option it is, and how many bytes it carries.
#[derive(Clone, Copy, Debug, PartialEq, Eq)]
pub struct OptionHead {
    pub option: HandshakeOption,
    pub length: u32,
}

impl OptionHead {
    /// The number of bytes of a head.
    pub const BYTES: usize = 16;

    /// Reads a head. Returns `None` if the bytes aren't one.
    pub fn decode(bytes: &[u8]) -> Option<OptionHead>
        ensures found { IfSome result (λ h. IsHead h × (bytes.now ≡ option_head h.option h.length)) }
        // The bytes of a head are always read as that head.
        ensures only { (h : OptionHead) → IsHead h → bytes.now ≡ option_head h.option h.length → result ≡ Some h }
    {
        let (magic, rest) = front_u64(bytes)?;
        let (code, rest) = front_u32(rest)?;
        let (length, rest) = front_u32(rest)?;
        if magic != MAGIC || !rest.is_empty() {
            return None;
        }
        Some(OptionHead {
            option: HandshakeOption::of(code),
            length,
        })
    }

    /// Returns the bytes of the head.
    pub fn encode(&self, alloc: Global) -> Result<Vec<u8>, AllocError>
        ensures { IfOk result (λ v. v.items ≡ option_head self.now.option self.now.length) }
    {
        let mut text = Vec::with_capacity(alloc, OptionHead::BYTES)?;
        text.extend_from_slice(&MAGIC.to_be_bytes())?;
        text.extend_from_slice(&self.option.code().to_be_bytes())?;
        text.extend_from_slice(&self.length.to_be_bytes())?;
        Ok(text)
    }
}

/// The kind of a reply to an option.
#[derive(Clone, Copy, Debug, PartialEq, Eq)]
pub enum ReplyKind {
    Ack,
    Server,
    Info,
    Unsupported,
    Invalid,
    Unknown,
    TooBig,
}

impl ReplyKind {
    /// Returns the protocol's number of the kind.
    pub fn code(self) -> u32
        ensures { result ≡ kind_code self }
    {
        match self {
            ReplyKind::Ack => 1,
            ReplyKind::Server => 2,
            ReplyKind::Info => 3,
            ReplyKind::Unsupported => 0x8000_0001,
            ReplyKind::Invalid => 0x8000_0003,
            ReplyKind::Unknown => 0x8000_0006,
            ReplyKind::TooBig => 0x8000_0009,
        }
    }
}

/// Returns the name that an INFO or a GO asks for. Their content is the length of the name in four bytes, the name, a
/// count in two bytes, and two more bytes for each piece of information that they request. Returns `None` if the
/// content is malformed.
pub fn wanted_name(content: &[u8]) -> Option<&[u8]>
    ensures found { IfSome result (λ name. Wants content.now name.now) }
    ensures none { IfNone result (IsMalformed content.now) }
{
    let (length, rest) = front_u32(content)?;
    let length = length as usize;
    if rest.len() < length {
        return None;
    }
    let (name, rest) = rest.split_at(length);
    let (count, requested) = front_u16(rest)?;
    if requested.len() != 2 * usize::from(count) {
        return None;
    }
    Some(name)
}
