//! A session: takes request frames from a reader, and writes reply frames to a writer, with the core in between.
ghost use Rattle.std.specs.Prelude.{◌≡◌, ◌⊎◌, ℕ, ◌*◌, [], take, IfOk, IfErr, IsErrOf, OnOk, OnErr};
ghost use Rattle.std.specs.Io.KnownBytes.{Appends};
ghost use Rattle.oram_geometry.specs.Sizes.{IsDevice, trees_of};
ghost use Rattle.oram_wire.specs.FrameStream.{IsBody, frame};
ghost use Rattle.oram_wire.specs.SessionMessages.{session_reply_body};
ghost use Rattle.oram_wire.specs.SessionBodies.{IsSessionReply};
ghost use Rattle.oram_semantics.specs.Run.{shown_by};
ghost use Rattle.oram_semantics.specs.declared.events.Event.TheVariants.{Submit};
ghost use Rattle.oram_core.specs.Core.{IsSameDevice, scheme_of};
ghost use Rattle.oram_core.specs.PlainSteps.{done};
ghost use Rattle.oram_core.specs.Steps.{Steps};
ghost use Rattle.oram_session.specs.CoreWork.{HasNoWork, IsBegun};
ghost use Rattle.oram_session.specs.Turns.{Turn, IsTurn, IsStuck, IsCutTurn};
ghost use Rattle.oram_session.specs.Sessions.{EndsSession, LeavesCore};

use crate::exchanges::carry_out;
use crate::link::Link;
use crate::requests::{command_in, session_reply};
use crate::tape::Tape;
use oram_bucket::Sealer;
use oram_bytes::Words;
use oram_core::{Command, Core, Event, Note, Reaction};
use oram_host::{ServeFault, put_body};
use oram_wire::{BAD_REQUEST, SessionReply, next_frame};
use std::alloc::{AllocError, Global};
use std::io::{Read, Write};

/// Submits a command with the tape's words of the next ticket.
pub fn submit<S: Sealer, T: Tape>(
    alloc: Global,
    core: &mut Core<S>,
    tape: &mut T,
    session: u32,
    command: Command,
) -> Result<Reaction, AllocError>
    requires { HasNoWork core.old.state }
    ensures kept { IsSameDevice core.old core.new }
    ensures ok { let v = scheme_of S.cipher core.old in
        IfOk result (λ r. Steps v core.old.state
        (Submit session command (T.words tape.old core.old.state.next (2 * trees_of core.old.device))) (shown_by r) core.new.state) }
    ensures begun { IfOk result (λ r. IsBegun core.old.state r.note (done r core.new.state)) }
    ensures ranges { IsDevice core.old.device }
    ensures tape { T.words tape.new ≡ T.words tape.old }
    ensures err { OnErr result (core.new ≡ core.old) }
{
    let count = 2 * usize::from(core.device().trees());
    let words = Words::from_vec(tape.draw(alloc, core.next_ticket(), count)?);
    let event = Event::Submit {
        session,
        command,
        words,
    };
    core.step(alloc, &event)
}

/// Answers one request.
fn take_turn<S: Sealer, L: Link, T: Tape>(
    alloc: Global,
    core: &mut Core<S>,
    link: &mut L,
    tape: &mut T,
    session: u32,
    body: &[u8],
) -> Result<SessionReply, ServeFault>
    requires { HasNoWork core.old.state }
    ensures kept { IsSameDevice core.old core.new }
    ensures ok { let v = scheme_of S.cipher core.old in
        IfOk result (λ reply. (turn : Turn) × (turn.body ≡ body.now) × (turn.reply ≡ reply)
        × IsTurn v L.calls (T.words tape.old) session (core.old.state, link.old) turn (core.new.state, link.new)) }
    ensures no_work { OnOk result (HasNoWork core.new.state) }
    ensures spelled { IfOk result (λ reply. IsSessionReply reply × IsBody (session_reply_body reply)) }
    ensures stalled { let v = scheme_of S.cipher core.old in
        IsErrOf result ServeFault.Stalled
        → IsStuck v L.calls (T.words tape.old) session (core.old.state, link.old) body.now (core.new.state, link.new) }
    ensures memory { let v = scheme_of S.cipher core.old in
        IsErrOf result ServeFault.OutOfMemory → ((core.new ≡ core.old) × (link.new ≡ link.old))
        ⊎ IsCutTurn v L.calls (T.words tape.old) session (core.old.state, link.old) body.now (core.new.state, link.new) }
    ensures tape { T.words tape.new ≡ T.words tape.old }
    ensures fault { IfErr result (λ e. (e ≡ ServeFault.Stalled) ⊎ (e ≡ ServeFault.OutOfMemory)) }
{
    let Some(command) = command_in(alloc, body)? else {
        return Ok(SessionReply::Refused(BAD_REQUEST));
    };
    let reaction = submit(alloc, core, tape, session, command)?;
    match reaction.note {
        Note::Accepted(_) => {
            let reply = carry_out(alloc, core, link, reaction)?;
            Ok(session_reply(reply.body))
        }
        Note::Refused(why) => Ok(SessionReply::Refused(why.number())),
        Note::Taken | Note::Stalled | Note::FailedNow(_) | Note::Resent | Note::Unexpected => {
            unreachable!()
        }
    }
}

/// Writes a reply as a frame and flushes it.
fn put_reply<W: Write>(
    alloc: Global,
    writer: &mut W,
    reply: &SessionReply,
) -> Result<(), ServeFault>
    requires reply { IsSessionReply reply.now }
    requires fits { IsBody (session_reply_body reply.now) }
    ensures ok { OnOk result (Appends (W.contents writer.old) (W.contents writer.new)
        (frame (session_reply_body reply.now))) }
    ensures write { IsErrOf result ServeFault.Write → (count : ℕ)
        × Appends (W.contents writer.old) (W.contents writer.new) (take count (frame (session_reply_body reply.now))) }
    ensures memory { IsErrOf result ServeFault.OutOfMemory
        → Appends (W.contents writer.old) (W.contents writer.new) [] }
    ensures fault { IfErr result (λ e. (e ≡ ServeFault.Write) ⊎ (e ≡ ServeFault.OutOfMemory)) }
{
    let body = reply.encode(alloc)?;
    put_body(writer, &body)
}

/// Answers each request frame in turn until the input ends, and returns the number of requests. Call only with a core
/// that is idle or has failed.
///
/// A command takes the words of its ticket from the tape, two for each tree of the device. If a call of the link has a
/// fault, or finds the host without room, it is made again, at most three times. Each reply is flushed before the next
/// frame is read. After the faults `Stalled` and `OutOfMemory` a command may still be at work; after any other end the
/// core is idle or has failed.
pub fn serve<S: Sealer, R: Read, W: Write, L: Link, T: Tape>(
    alloc: Global,
    reader: &mut R,
    writer: &mut W,
    core: &mut Core<S>,
    link: &mut L,
    tape: &mut T,
    session: u32,
) -> Result<u64, ServeFault>
    requires { HasNoWork core.old.state }
    ensures kept { IsSameDevice core.old core.new }
    ensures no_work { LeavesCore result core.new.state }
    ensures tape { T.words tape.new ≡ T.words tape.old }
    ensures ends { EndsSession (scheme_of S.cipher core.old) L.calls (T.words tape.old) session
        (record { state = (core.old.state, link.old); unread = R.remaining reader.old; written = W.contents writer.old })
        (record { state = (core.new.state, link.new); unread = R.remaining reader.new; written = W.contents writer.new })
        result }
{
    for served in 0..u64::MAX {
        let Some(body) = next_frame(alloc, reader)? else {
            return Ok(served);
        };
        let reply = take_turn(alloc, core, link, tape, session, &body)?;
        put_reply(alloc, writer, &reply)?;
    }
    Err(ServeFault::Read)
}
