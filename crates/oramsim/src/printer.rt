//! The text that the run of a script prints.
ghost use Rattle.std.specs.Prelude.{◌≡◌, Some, IfOk};
ghost use Rattle.std.specs.String.{string_bytes};
ghost use Rattle.oram_semantics.specs.Run.{shown_by};
ghost use Rattle.oramsim.specs.Printer.{refusal_text, reason_text, note_text, reply_line, send_text, ready_text, shape_text, error_text};
ghost use Rattle.oramsim.specs.Printer as spec;

use byteorder::{BigEndian, ByteOrder};
use oram_geometry::ShapeFault;
use oram_semantics::{Note, Reaction, Reason, Refusal, Reply, ReplyBody};
use std::alloc::{AllocError, Global};
use std::fmt;

/// How many bytes of a message say what it asks for: its kind, its tree and its leaf.
const HEAD: usize = 6;

/// The kind of a message that fetches a path.
const FETCH: u8 = 1;

#[derive(Drop)]
struct RefusalText(Refusal);

impl fmt::Display for RefusalText {
    ghost output = { λ x. Some (refusal_text x.0) };

    fn fmt<W: fmt::Write>(&self, f: &mut fmt::Formatter<W>) -> fmt::Result {
        match self.0 {
            Refusal::BadAddress => write!(f, "1 address"),
            Refusal::BadLength => write!(f, "2 length"),
            Refusal::BadWords => write!(f, "3 words"),
            Refusal::Busy => write!(f, "4 busy"),
            Refusal::Exhausted => write!(f, "5 exhausted"),
            Refusal::Failed => write!(f, "6 failed"),
        }
    }
}

#[derive(Drop)]
struct ReasonText(Reason);

impl fmt::Display for ReasonText {
    ghost output = { λ x. Some (reason_text x.0) };

    fn fmt<W: fmt::Write>(&self, f: &mut fmt::Formatter<W>) -> fmt::Result {
        match self.0 {
            Reason::Malformed => write!(f, "malformed"),
            Reason::Tampered(tree, level) => write!(f, "tampered {tree} {level}"),
            Reason::HostRefused(code) => write!(f, "host {code}"),
        }
    }
}

/// The line of a note. A note that an answer was taken, or a message sent again, has no line.
#[derive(Drop)]
struct NoteText(Note);

impl fmt::Display for NoteText {
    ghost output = { λ x. Some (note_text x.0) };

    fn fmt<W: fmt::Write>(&self, f: &mut fmt::Formatter<W>) -> fmt::Result {
        match self.0 {
            Note::Accepted(ticket) => writeln!(f, "accepted {ticket}"),
            Note::Refused(refusal) => {
                let refusal = RefusalText(refusal);
                writeln!(f, "refused {refusal}")
            }
            Note::Taken | Note::Resent => Ok(()),
            Note::Stalled => writeln!(f, "stalled"),
            Note::FailedNow(reason) => {
                let reason = ReasonText(reason);
                writeln!(f, "failed {reason}")
            }
            Note::Unexpected => writeln!(f, "unexpected"),
        }
    }
}

/// Returns what a reply says.
fn body_text(alloc: Global, body: &ReplyBody) -> Result<String, AllocError>
    ensures { IfOk result (λ text. string_bytes text ≡ spec.body_text body.now) }
{
    match body {
        ReplyBody::Data(bytes) => {
            let digits = hex::encode(alloc, bytes.as_slice())?;
            format!(in alloc; "data {}", digits.as_str())
        }
        ReplyBody::Done => format!(in alloc; "done"),
        ReplyBody::Failed => format!(in alloc; "failed"),
    }
}

/// The line of a reply, which `says` this.
#[derive(Drop)]
struct ReplyText<'a> {
    session: u32,
    ticket: u64,
    says: &'a str,
}

impl fmt::Display for ReplyText<'_> {
    ghost output = { λ x. Some (reply_line x.session x.ticket x.says.now) };

    fn fmt<W: fmt::Write>(&self, f: &mut fmt::Formatter<W>) -> fmt::Result {
        let session = self.session;
        let ticket = self.ticket;
        let says = self.says;
        writeln!(f, "reply {session} {ticket} {says}")
    }
}

/// Returns the line of a reply.
fn reply_text(alloc: Global, reply: &Reply) -> Result<String, AllocError>
    ensures { IfOk result (λ text. string_bytes text ≡ spec.reply_text reply.now) }
{
    let body = body_text(alloc, &reply.body)?;
    let text = ReplyText {
        session: reply.session,
        ticket: reply.ticket,
        says: body.as_str(),
    };
    format!(in alloc; "{text}")
}

/// The line of a message to the server, which shows its first six bytes.
#[derive(Drop)]
struct SendText<'a>(&'a [u8]);

impl fmt::Display for SendText<'_> {
    ghost output = { λ x. Some (send_text x.0.now) };

    fn fmt<W: fmt::Write>(&self, f: &mut fmt::Formatter<W>) -> fmt::Result {
        if self.0.len() < HEAD {
            return Ok(());
        }
        let tree = self.0[1];
        let leaf = BigEndian::read_u32(&self.0[2..HEAD]);
        if self.0[0] == FETCH {
            writeln!(f, "fetch {tree} {leaf}")
        } else {
            writeln!(f, "store {tree} {leaf}")
        }
    }
}

/// Returns the text of a reaction: a line for its note, for each reply and for its message.
pub fn reaction_text(alloc: Global, reaction: &Reaction) -> Result<String, AllocError>
    ensures { IfOk result (λ text. string_bytes text ≡ spec.reaction_text (shown_by reaction.now)) }
{
    let mut text = format!(in alloc; "{}", NoteText(reaction.note))?;
    for reply in &reaction.replies {
        let line = reply_text(alloc, reply)?;
        text.push_str(line.as_str())?;
    }
    for message in &reaction.sends {
        let line = format!(in alloc; "{}", SendText(message.as_slice()))?;
        text.push_str(line.as_str())?;
    }
    Ok(text)
}

/// The line for a shape fault.
#[derive(Drop)]
pub struct FaultText(pub ShapeFault);

impl fmt::Display for FaultText {
    ghost output = { λ x. Some (shape_text x.0) };

    fn fmt<W: fmt::Write>(&self, f: &mut fmt::Formatter<W>) -> fmt::Result {
        let number = self.0.number();
        writeln!(f, "shape {number}")
    }
}

/// The line for a new device, with the number of its trees.
#[derive(Drop)]
pub struct ReadyText(pub u8);

impl fmt::Display for ReadyText {
    ghost output = { λ x. Some (ready_text x.0) };

    fn fmt<W: fmt::Write>(&self, f: &mut fmt::Formatter<W>) -> fmt::Result {
        let trees = self.0;
        writeln!(f, "ready {trees}")
    }
}

/// The line for a line that a script can't have, with its number.
#[derive(Drop)]
pub struct ErrorText(pub u64);

impl fmt::Display for ErrorText {
    ghost output = { λ x. Some (error_text x.0) };

    fn fmt<W: fmt::Write>(&self, f: &mut fmt::Formatter<W>) -> fmt::Result {
        let number = self.0;
        writeln!(f, "error line {number}")
    }
}
