//! Simple replies.

ghost use Rattle.std.specs.Prelude.{◌≡◌, ◌<◌, ℕ, List, length, IfErr, OnOk};
ghost use Rattle.std.specs.Io.KnownBytes.{Appends};
ghost use Rattle.oram_nbd.specs.Batches.{answers_text, refusals_text, reply_if};
ghost use Rattle.oram_nbd.specs.Messages.{reply_head, reply_text};
ghost use Rattle.oram_nbd.specs.Messages.SimpleReply.{Done, Refused};
ghost use Rattle.oram_nbd.specs.Streams.{IsBegunText};

use crate::faults::{NbdError, NbdFault};
use crate::requests::Request;
use crate::service::{refusal, request_at};
use crate::streams::put;
use byteorder::{BigEndian, ByteOrder};
use oram_bytes::Bytes;
use std::io::Write;

const MAGIC: u32 = 0x6744_6698;

/// The number of bytes of a reply before those of a read.
const HEAD: usize = 16;

/// Returns the head of the reply to the request with this cookie, which is refused if there is an error.
fn head_of(cookie: u64, error: Option<NbdError>) -> [u8; HEAD]
    ensures { (bytes : List ℕ) → result ≡ reply_head cookie (reply_if error (Done bytes)) }
{
    let number = match error {
        None => 0,
        Some(error) => error.number(),
    };
    let mut head = [0; HEAD];
    BigEndian::write_u32(&mut head, MAGIC);
    BigEndian::write_u32(&mut head[4..], number);
    BigEndian::write_u64(&mut head[8..], cookie);
    head
}

/// Writes the reply to the request with this cookie: the error if there is one, and else these bytes.
fn put_reply<W: Write>(
    writer: &mut W,
    cookie: u64,
    error: Option<NbdError>,
    bytes: &[u8],
) -> Result<(), NbdFault>
    ensures ok { OnOk result (Appends (W.contents writer.old) (W.contents writer.new) (reply_text cookie (reply_if error (Done bytes.now)))) }
    ensures err { IfErr result (λ fault. (fault ≡ NbdFault.Write)
        × IsBegunText (W.contents writer.old) (W.contents writer.new) (reply_text cookie (reply_if error (Done bytes.now)))) }
{
    let head = head_of(cookie, error);
    match error {
        None => put(writer, &head, bytes),
        Some(_) => put(writer, &head, &[]),
    }
}

/// Writes the replies to requests for which the device gave these bytes.
pub(crate) fn put_answers<W: Write>(
    writer: &mut W,
    size: u64,
    requests: &[Request],
    given: &[Bytes],
) -> Result<(), NbdFault>
    requires { length given.now ≡ length requests.now }
    ensures ok { OnOk result (Appends (W.contents writer.old) (W.contents writer.new) (answers_text size requests.now given.now)) }
    ensures err { IfErr result (λ fault. (fault ≡ NbdFault.Write)
        × IsBegunText (W.contents writer.old) (W.contents writer.new) (answers_text size requests.now given.now)) }
{
    for i in 0..requests.len() {
        let request = request_at(requests, i);
        let bytes = given[i].as_slice();
        put_reply(writer, request.cookie, refusal(&request, size), bytes)?;
    }
    Ok(())
}

/// Returns why a request is refused: for its own reason if there is one, and else for this one.
fn error_of(refused: Option<NbdError>, error: NbdError) -> NbdError
    ensures { Refused result ≡ reply_if refused (Refused error) }
{
    match refused {
        Some(why) => why,
        None => error,
    }
}

/// Refuses requests: each for its own reason if it has one, and otherwise with this error.
pub(crate) fn put_refusals<W: Write>(
    writer: &mut W,
    size: u64,
    requests: &[Request],
    error: NbdError,
) -> Result<(), NbdFault>
    ensures ok { OnOk result (Appends (W.contents writer.old) (W.contents writer.new) (refusals_text size requests.now error)) }
    ensures err { IfErr result (λ fault. (fault ≡ NbdFault.Write)
        × IsBegunText (W.contents writer.old) (W.contents writer.new) (refusals_text size requests.now error)) }
{
    for i in 0..requests.len() {
        let request = request_at(requests, i);
        let why = error_of(refusal(&request, size), error);
        put_reply(writer, request.cookie, Some(why), &[])?;
    }
    Ok(())
}
