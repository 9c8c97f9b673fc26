//! The answers of a server to the options of a handshake.

ghost use Rattle.std.specs.Prelude.{◌≡◌, ◌<◌, ◌≤◌, ◌^◌, ◌++◌, List, [], length, IfOk, OnOk, IsTrue, ◌↔◌, MatchOption};
ghost use Rattle.oram_nbd.specs.Handshake.{block_text, described, export_text, export_value, list_text, name_text, refused, size_text, Answers, Describes, IsNamed};
ghost use Rattle.oram_nbd.specs.Options.{option_reply, option_reply_head};
ghost use Rattle.oram_nbd.specs.declared.TheConstants.{LONGEST_NAME};

use crate::LONGEST_PAYLOAD;
use crate::options::{HandshakeOption, ReplyKind, wanted_name};
use byteorder::{BigEndian, ByteOrder};
use std::alloc::{AllocError, Global};

const REPLY_MAGIC: u64 = 0x0003_E889_0455_65A9;

/// The flags of an export: it has flags, and serves FLUSH, FUA, TRIM and WRITE_ZEROES.
const EXPORT_FLAGS: u16 = 1 | 4 | 8 | 32 | 64;

/// How a handshake ends.
#[derive(Clone, Copy, Debug, PartialEq, Eq)]
pub enum Agreement {
    /// Requests follow.
    Transmission,
    /// The client has left.
    Gone,
}

/// The answer to an option, and how it ends the handshake. Without `ends` the handshake goes on.
#[derive(Debug, Drop)]
pub(crate) struct Answer {
    pub(crate) text: Vec<u8>,
    pub(crate) ends: Option<Agreement>,
}

impl Answer {
    fn ending(text: Vec<u8>, agreement: Agreement) -> Answer
        ensures text { result.text.items ≡ text.items }
        ensures ends { result.ends ≡ Some agreement }
    {
        Answer {
            text,
            ends: Some(agreement),
        }
    }

    fn going_on(text: Vec<u8>) -> Answer
        ensures text { result.text.items ≡ text.items }
        ensures ends { result.ends ≡ None }
    {
        Answer { text, ends: None }
    }
}

/// What a server says about an export.
#[derive(Clone, Copy, Debug)]
pub struct Export<'a> {
    pub name: &'a [u8],
    /// The size of the export, in bytes.
    pub size: u64,
    /// The least number of bytes of a request, to a multiple of which its offset and its length should be: a power of two up to
    /// 64 KiB. Requests for other ranges are served too.
    pub minimum: u32,
    /// The preferred number of bytes of a request: a power of two from 512 to 32 MiB, because some clients leave if it
    /// is any other number.
    pub preferred: u32,
}

/// Returns the head of a reply to an option, whose body has `length` bytes.
fn reply_head(option: HandshakeOption, kind: ReplyKind, length: u32) -> [u8; 20]
    ensures { result ≡ option_reply_head option kind length }
{
    let mut head = [0; 20];
    BigEndian::write_u64(&mut head, REPLY_MAGIC);
    BigEndian::write_u32(&mut head[8..], option.code());
    BigEndian::write_u32(&mut head[12..], kind.code());
    BigEndian::write_u32(&mut head[16..], length);
    head
}

/// Appends a reply to an option.
fn push_reply(
    text: &mut Vec<u8>,
    option: HandshakeOption,
    kind: ReplyKind,
    body: &[u8],
) -> Result<(), AllocError>
    requires { length body.now < 2 ^ 32 }
    ensures { OnOk result (text.new.items ≡ text.old.items ++ option_reply option kind body.now) }
{
    let head = reply_head(option, kind, body.len() as u32);
    text.extend_from_slice(&head)?;
    text.extend_from_slice(body)?;
    Ok(())
}

/// Returns a reply without a body.
pub(crate) fn bare_reply(
    alloc: Global,
    option: HandshakeOption,
    kind: ReplyKind,
) -> Result<Vec<u8>, AllocError>
    ensures { IfOk result (λ v. v.items ≡ refused option kind) }
{
    let mut text = Vec::new(alloc);
    push_reply(&mut text, option, kind, &[])?;
    Ok(text)
}

impl Export<'_> {
    /// Returns whether a name asks for the export. The empty name does, because there is only one.
    fn is_named(&self, name: &[u8]) -> bool
        ensures { IsTrue result ↔ IsNamed self.now.name.now name.now }
    {
        name.is_empty() || name == self.name
    }

    /// Returns the answer to EXPORT_NAME.
    fn export_text(&self, alloc: Global, zeroes: bool) -> Result<Vec<u8>, AllocError>
        ensures { IfOk result (λ v. v.items ≡ export_text self.now.size zeroes) }
    {
        let mut text = Vec::new(alloc);
        text.extend_from_slice(&self.size.to_be_bytes())?;
        text.extend_from_slice(&EXPORT_FLAGS.to_be_bytes())?;
        if zeroes {
            text.extend_from_slice(&[0; 124])?;
        }
        Ok(text)
    }

    /// Returns the size and the flags, in the form that INFO and GO report.
    fn size_info(&self, alloc: Global) -> Result<Vec<u8>, AllocError>
        ensures { IfOk result (λ v. v.items ≡ size_text self.now.size) }
    {
        let mut text = Vec::new(alloc);
        text.extend_from_slice(&[0, 0])?;
        text.extend_from_slice(&self.size.to_be_bytes())?;
        text.extend_from_slice(&EXPORT_FLAGS.to_be_bytes())?;
        Ok(text)
    }

    /// Returns the least, the preferred and the greatest length of a request.
    fn block_info(&self, alloc: Global) -> Result<Vec<u8>, AllocError>
        ensures { IfOk result (λ v. v.items ≡ block_text self.now.minimum self.now.preferred) }
    {
        let mut text = Vec::new(alloc);
        text.extend_from_slice(&[0, 3])?;
        text.extend_from_slice(&self.minimum.to_be_bytes())?;
        text.extend_from_slice(&self.preferred.to_be_bytes())?;
        text.extend_from_slice(&LONGEST_PAYLOAD.to_be_bytes())?;
        Ok(text)
    }

    /// Returns the name, after its length.
    fn listed(&self, alloc: Global) -> Result<Vec<u8>, AllocError>
        requires { length self.now.name.now ≤ LONGEST_NAME }
        ensures { IfOk result (λ v. v.items ≡ name_text self.now.name.now) }
    {
        let length = self.name.len() as u32;
        let mut text = Vec::new(alloc);
        text.extend_from_slice(&length.to_be_bytes())?;
        text.extend_from_slice(self.name)?;
        Ok(text)
    }

    /// Returns the answer to LIST.
    fn list(&self, alloc: Global, content: &[u8]) -> Result<Vec<u8>, AllocError>
        requires { length self.now.name.now ≤ LONGEST_NAME }
        ensures { IfOk result (λ v. v.items ≡ list_text self.now.name.now content.now) }
    {
        if !content.is_empty() {
            return bare_reply(alloc, HandshakeOption::List, ReplyKind::Invalid);
        }
        let name = self.listed(alloc)?;
        let mut text = Vec::new(alloc);
        push_reply(&mut text, HandshakeOption::List, ReplyKind::Server, &name)?;
        push_reply(&mut text, HandshakeOption::List, ReplyKind::Ack, &[])?;
        Ok(text)
    }

    /// Returns everything that INFO and GO report about the export.
    fn described(&self, alloc: Global, option: HandshakeOption) -> Result<Vec<u8>, AllocError>
        ensures { IfOk result (λ v. v.items ≡ described self.now.size self.now.minimum self.now.preferred option) }
    {
        let size = self.size_info(alloc)?;
        let block = self.block_info(alloc)?;
        let mut text = Vec::new(alloc);
        push_reply(&mut text, option, ReplyKind::Info, &size)?;
        push_reply(&mut text, option, ReplyKind::Info, &block)?;
        push_reply(&mut text, option, ReplyKind::Ack, &[])?;
        Ok(text)
    }

    /// Returns the answer to INFO or GO, and whether they ask for this export.
    fn describe(
        &self,
        alloc: Global,
        option: HandshakeOption,
        content: &[u8],
    ) -> Result<(Vec<u8>, bool), AllocError>
        ensures { IfOk result (λ p. Describes (export_value self.now.name.now self.now.size self.now.minimum self.now.preferred) option content.now p.0.items p.1) }
    {
        let Some(name) = wanted_name(content) else {
            let text = bare_reply(alloc, option, ReplyKind::Invalid)?;
            return Ok((text, false));
        };
        if !self.is_named(name) {
            let text = bare_reply(alloc, option, ReplyKind::Unknown)?;
            return Ok((text, false));
        }
        let text = self.described(alloc, option)?;
        Ok((text, true))
    }

    /// Returns the answer to an option, or `None` for an EXPORT_NAME that asks for another export.
    pub(crate) fn answer(
        &self,
        alloc: Global,
        option: HandshakeOption,
        content: &[u8],
        zeroes: bool,
    ) -> Result<Option<Answer>, AllocError>
        requires { length self.now.name.now ≤ LONGEST_NAME }
        ensures { IfOk result (λ answer. MatchOption answer
            ((option ≡ HandshakeOption.ExportName) × (IsNamed self.now.name.now content.now → ⊥))
            (λ a. Answers (export_value self.now.name.now self.now.size self.now.minimum self.now.preferred) zeroes option content.now a.text.items a.ends)) }
    {
        match option {
            HandshakeOption::ExportName => {
                if !self.is_named(content) {
                    return Ok(None);
                }
                let text = self.export_text(alloc, zeroes)?;
                Ok(Some(Answer::ending(text, Agreement::Transmission)))
            }
            HandshakeOption::Abort => {
                let text = bare_reply(alloc, option, ReplyKind::Ack)?;
                Ok(Some(Answer::ending(text, Agreement::Gone)))
            }
            HandshakeOption::List => {
                let text = self.list(alloc, content)?;
                Ok(Some(Answer::going_on(text)))
            }
            HandshakeOption::Info => {
                let (text, _found) = self.describe(alloc, option, content)?;
                Ok(Some(Answer::going_on(text)))
            }
            HandshakeOption::Go => {
                let (text, found) = self.describe(alloc, option, content)?;
                if found {
                    return Ok(Some(Answer::ending(text, Agreement::Transmission)));
                }
                Ok(Some(Answer::going_on(text)))
            }
            HandshakeOption::Other(_) => {
                let text = bare_reply(alloc, option, ReplyKind::Unsupported)?;
                Ok(Some(Answer::going_on(text)))
            }
        }
    }
}
