//! What a session asks of the core, and what it replies to the user.
ghost use Rattle.std.specs.Prelude.{◌≡◌, IfOk, IfErr, MatchOption};
ghost use Rattle.oram_session.specs.Requests.{IsRequest, IsNoRequest, command_of, session_reply};
ghost use Rattle.oram_wire.specs.declared.session_messages.SessionRequest.{SessionRequest};
ghost use Rattle.oram_wire.specs.SessionBodies.{HasAddress};

use oram_core::{Command, ReplyBody};
use oram_host::ServeFault;
use oram_wire::{DEVICE_FAILED, SessionReply, SessionRequest, WireFault};
use std::alloc::Global;

/// Returns the command that a request asks for.
fn command_of(request: SessionRequest) -> Command
    ensures command { result ≡ command_of request }
    ensures address { HasAddress request }
{
    match request {
        SessionRequest::Read { address } => Command::Read(address),
        SessionRequest::Write { address, bytes } => Command::Write(address, bytes),
        SessionRequest::Discard { address } => Command::Discard(address),
    }
}

/// Returns the command that a body asks for, or `None` if the body is no request. Fails only if memory runs out.
pub fn command_in(alloc: Global, body: &[u8]) -> Result<Option<Command>, ServeFault>
    ensures ok { IfOk result (λ found. MatchOption found (IsNoRequest body.now)
        (λ command. (message : SessionRequest) × IsRequest body.now message × (command ≡ command_of message))) }
    ensures err { IfErr result (λ f. f ≡ ServeFault.OutOfMemory) }
{
    match SessionRequest::decode(alloc, body) {
        Ok(request) => Ok(Some(command_of(request))),
        Err(WireFault::OutOfMemory) => Err(ServeFault::OutOfMemory),
        Err(WireFault::Op | WireFault::Length | WireFault::Code) => Ok(None),
    }
}

/// Returns what a session replies to the user for a reply of the core.
pub fn session_reply(body: ReplyBody) -> SessionReply
    ensures { result ≡ session_reply body }
{
    match body {
        ReplyBody::Data(bytes) => SessionReply::Data(bytes),
        ReplyBody::Done => SessionReply::Done,
        ReplyBody::Failed => SessionReply::Refused(DEVICE_FAILED),
    }
}
