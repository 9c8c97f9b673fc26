//! The fixed newstyle handshake.

ghost use Rattle.std.specs.Prelude.{◌≡◌, ℕ, [], ◌≤◌, Option, length, IfOk, IfErr, MatchOption, None};
ghost use Rattle.std.specs.Int.{w32, to_be_bytes};
ghost use Rattle.std.specs.Io.KnownBytes.{Appends, Consumes};
ghost use Rattle.oram_wire.specs.FrameIo.{GivesEnd};
ghost use Rattle.oram_nbd.specs.Streams.{streams, Misses};
ghost use Rattle.oram_nbd.specs.Options.{option_head, IsHead};
ghost use Rattle.oram_nbd.specs.Handshake.{export_value, greeting, AreClientFlags};
ghost use Rattle.oram_nbd.specs.declared.TheConstants.{LONGEST_NAME};
ghost use Rattle.oram_nbd.specs.Negotiation.{AnsweredOption, HasAgreed, IsAnsweredOption, IsNoOption, IsUnfinishedOption, StopsAt, StopsGreeting, StopsNegotiating};

use crate::faults::NbdFault;
use crate::handshake::{Agreement, Export, bare_reply};
use crate::numbers::number_u32;
use crate::options::{HandshakeOption, OptionHead, ReplyKind};
use crate::streams::{next_head, send, skip};
use crate::{LONGEST_OPTION, MOST_OPTIONS};
use oram_wire::{fill, read_body};
use std::alloc::Global;
use std::io::{Read, Write};

/// The greeting of a server: its letters, the letters that options begin with, and its flags. The flags say that it
/// speaks the fixed newstyle, and that it supports clients that want no zeroes.
const GREETING: [u8; 18] = *b"NBDMAGICIHAVEOPT\0\x03";

/// A client's flag: it speaks the fixed newstyle. One that doesn't set it is served in the same way, as it only sends EXPORT_NAME.
const FIXED_NEWSTYLE: u32 = 1;

/// A client's flag: it wants no zeroes after the answer to EXPORT_NAME.
const NO_ZEROES: u32 = 2;

/// Both flags.
const BOTH: u32 = 3;

/// Greets a client, and returns whether zeroes have to follow the answer to EXPORT_NAME.
fn greet<R: Read, W: Write>(reader: &mut R, writer: &mut W) -> Result<bool, NbdFault>
    ensures ok { IfOk result (λ zeroes. (flags : ℕ) × AreClientFlags flags zeroes
        × Consumes (R.remaining reader.old) (R.remaining reader.new) (to_be_bytes w32 flags)
        × Appends (W.contents writer.old) (W.contents writer.new) greeting) }
    ensures err { IfErr result (λ fault. StopsGreeting fault
        (streams (R.remaining reader.old) (W.contents writer.old)) (streams (R.remaining reader.new) (W.contents writer.new))) }
{
    send(writer, &GREETING, &[])?;
    let mut flags = [0; 4];
    if fill(reader, &mut flags)? < flags.len() {
        return Err(NbdFault::Truncated);
    }
    match number_u32(flags) {
        0 | FIXED_NEWSTYLE => Ok(true),
        NO_ZEROES | BOTH => Ok(false),
        _ => Err(NbdFault::UnknownFlags),
    }
}

/// Reads the head of the next option. Returns `None` at the end of the input.
fn next_option<R: Read>(reader: &mut R) -> Result<Option<OptionHead>, NbdFault>
    ensures ok { IfOk result (λ next. MatchOption next
        (GivesEnd (R.remaining reader.old) (R.remaining reader.new))
        (λ h. IsHead h × Consumes (R.remaining reader.old) (R.remaining reader.new) (option_head h.option h.length))) }
    ensures err { IfErr result (λ fault. Misses IsUnfinishedOption IsNoOption fault (R.remaining reader.old) (R.remaining reader.new)) }
{
    let mut head = [0u8; OptionHead::BYTES];
    if !next_head(reader, &mut head)? {
        return Ok(None);
    }
    match OptionHead::decode(&head) {
        Some(option) => Ok(Some(option)),
        None => Err(NbdFault::Magic),
    }
}

/// Reads what an option carries, and answers it. Returns how the handshake ends, if it doesn't go on.
fn take_option<R: Read, W: Write>(
    alloc: Global,
    reader: &mut R,
    writer: &mut W,
    export: &Export<'_>,
    zeroes: bool,
    head: OptionHead,
) -> Result<Option<Agreement>, NbdFault>
    requires head { IsHead head }
    requires name { length export.now.name.now ≤ LONGEST_NAME }
    ensures ok { IfOk result (λ ends. (x : AnsweredOption) × (x.option ≡ head.option) × (length x.content ≡ head.length)
        × IsAnsweredOption (export_value export.now.name.now export.now.size export.now.minimum export.now.preferred) zeroes x ends
        × Consumes (R.remaining reader.old) (R.remaining reader.new) x.content
        × Appends (W.contents writer.old) (W.contents writer.new) x.answer) }
    ensures err { IfErr result (λ fault. StopsAt (export_value export.now.name.now export.now.size export.now.minimum export.now.preferred) zeroes head fault
        (streams (R.remaining reader.old) (W.contents writer.old)) (streams (R.remaining reader.new) (W.contents writer.new))) }
{
    if head.length > LONGEST_OPTION {
        skip(reader, u64::from(head.length))?;
        // The option is longer than the export's name, so it asks for another export. A client would take any reply to
        // EXPORT_NAME for the size of the export.
        if head.option == HandshakeOption::ExportName {
            return Err(NbdFault::UnknownExport);
        }
        let answer = bare_reply(alloc, head.option, ReplyKind::TooBig)?;
        send(writer, &answer, &[])?;
        return Ok(None);
    }
    let content = read_body(alloc, reader, head.length as usize)?;
    let Some(answer) = export.answer(alloc, head.option, &content, zeroes)? else {
        return Err(NbdFault::UnknownExport);
    };
    send(writer, &answer.text, &[])?;
    Ok(answer.ends)
}

/// Agrees with a client on the export.
///
/// It refuses an option that carries more than `LONGEST_OPTION` bytes, and skips these bytes. If such an option is an
/// EXPORT_NAME, it then fails with `UnknownExport`, as it does for each name that isn't the export's. It fails with
/// `TooManyOptions` after `MOST_OPTIONS` options that don't end the handshake.
pub fn negotiate<R: Read, W: Write>(
    alloc: Global,
    reader: &mut R,
    writer: &mut W,
    export: &Export<'_>,
) -> Result<Agreement, NbdFault>
    requires { length export.now.name.now ≤ LONGEST_NAME }
    ensures ok { IfOk result (λ agreement. HasAgreed (export_value export.now.name.now export.now.size export.now.minimum export.now.preferred) agreement
        (streams (R.remaining reader.old) (W.contents writer.old)) (streams (R.remaining reader.new) (W.contents writer.new))) }
    ensures err { IfErr result (λ fault. StopsNegotiating (export_value export.now.name.now export.now.size export.now.minimum export.now.preferred) fault
        (streams (R.remaining reader.old) (W.contents writer.old)) (streams (R.remaining reader.new) (W.contents writer.new))) }
{
    let zeroes = greet(reader, writer)?;
    for _ in 0..MOST_OPTIONS {
        let Some(head) = next_option(reader)? else {
            return Ok(Agreement::Gone);
        };
        if let Some(agreement) = take_option(alloc, reader, writer, export, zeroes, head)? {
            return Ok(agreement);
        }
    }
    Err(NbdFault::TooManyOptions)
}
