//! A link that serves its own server, over a connection to itself.
ghost use Rattle.std.specs.Prelude.{◌≡◌, ◌≢◌, ◌<◌, ◌≤◌, length, MatchBool, IsSome, IfOk, IfErr, IsErrOf, OnOk, OnErr, IfSome, None};
ghost use Rattle.std.specs.Io.KnownBytes.{Appends};
ghost use Rattle.oram_wire.specs.FrameStream.{frame};
ghost use Rattle.oram_wire.specs.HostMessages.{answer_body};
ghost use Rattle.oram_wire.specs.FrameIo.{GivesFrame};
ghost use Rattle.oram_wire.specs.declared.host_messages.HostAnswer.{HostAnswer};
ghost use Rattle.oram_session.specs.Outcome.{outcome_of};
ghost use Rattle.oram_session.specs.Loopback.{AsksOnce, Carries, IsHandled, IsReturned, longest_frame};

use super::frames::{receive, send};
use crate::link::{Link, LinkFault};
use oram_host::Server;
use std::alloc::Global;
use std::io::{Read, Write};
use std::marker::Model;
use std::net::{
    Ipv4Addr, Net, OpenListener, OpenStream, SocketAddr, SocketAddrV4, TcpListener, TcpStream,
};

/// The number of bytes of the longest frame that goes over the link. The system can buffer such a frame before anyone
/// reads it.
const LONGEST_FRAME: usize = 16_384;

/// The number of bytes of the length at a frame's front.
const HEAD: usize = 4;

/// A link that owns its server and both ends of a connection to it on this machine. A call asks at one end and serves
/// the other, so nothing else has to run.
///
/// A message or an answer whose frame has more than 16,384 bytes gives the fault `TooLarge`, and the connection stays
/// open. Any other fault closes both ends, so that no bytes of that call are left in them, and the next call opens a
/// new connection.
#[derive(Drop)]
pub struct LoopLink<R: Net> {
    rt: R,
    server: Server,
    /// The near end, which asks, and the far end, which answers.
    ends: Option<(R::Stream, R::Stream)>,
    faults: u64,
}

impl<R: Net> Model for LoopLink<R> {
    ghost use Rattle.oram_session.specs.Loopback.{ToItself};

    ghost Value = { ToItself R.Stream };

    ghost view = { λ l. record { host = l.server; ends = l.ends; faults = l.faults } };
}

/// Opens a connection and returns both ends, the near one first. Checks that the accepted connection is this one.
fn connected<R: Net>(rt: &R) -> Result<(R::Stream, R::Stream), LinkFault>
    ensures { IfErr result (λ fault. fault ≡ LinkFault.Io) }
{
    let anywhere = SocketAddr::V4(SocketAddrV4::new(Ipv4Addr::LOCALHOST, 0));
    let listener = TcpListener::bind(rt, anywhere)?;
    let near = TcpStream::connect(rt, listener.local_addr()?)?;
    let (far, from) = listener.accept()?;
    if from != near.local_addr()? {
        return Err(LinkFault::Io);
    }
    near.set_nodelay(true)?;
    far.set_nodelay(true)?;
    Ok((near, far))
}

/// Returns whether a body's frame is too long for the link.
fn is_too_large(body: &[u8]) -> bool
    ensures { MatchBool result (longest_frame < length (frame body.now)) (length (frame body.now) ≤ longest_frame) }
{
    body.len() > LONGEST_FRAME - HEAD
}

/// Sends a message to the far end, and returns the server's answer to the message that arrives there.
fn ask<S: Read + Write>(
    alloc: Global,
    server: &mut Server,
    near: &mut S,
    far: &mut S,
    body: &[u8],
) -> Result<Vec<u8>, LinkFault>
    ensures ok { IfOk result (λ v. (answer : HostAnswer) × (v.items ≡ answer_body answer)
        × IsHandled S.remaining S.contents server.old (near.old, far.old) body.now answer server.new (near.new, far.new)) }
    ensures err { OnErr result (server.new ≡ server.old) }
    ensures fault { IfErr result (λ fault. fault ≢ LinkFault.TooLarge) }
{
    send(alloc, near, body)?;
    let received = receive(alloc, far)?;
    Ok(server.answer(alloc, &received)?)
}

/// Sends an answer back to the near end, and returns the bytes that arrive there.
fn give_back<S: Read + Write>(
    alloc: Global,
    near: &mut S,
    far: &mut S,
    answer: &[u8],
) -> Result<Vec<u8>, LinkFault>
    ensures fits { OnOk result (length (frame answer.now) ≤ longest_frame) }
    ensures wrote { OnOk result (Appends (S.contents far.old) (S.contents far.new) (frame answer.now)) }
    ensures read { IfOk result (λ v. GivesFrame (S.remaining near.old) (S.remaining near.new) v.items) }
    ensures large { IsErrOf result LinkFault.TooLarge
        → (longest_frame < length (frame answer.now)) × (near.new ≡ near.old) × (far.new ≡ far.old) }
{
    if is_too_large(answer) {
        return Err(LinkFault::TooLarge);
    }
    send(alloc, far, answer)?;
    receive(alloc, near)
}

/// Sends a message to the far end and its answer back to the near end.
fn cross<S: Read + Write>(
    alloc: Global,
    server: &mut Server,
    near: &mut S,
    far: &mut S,
    body: &[u8],
) -> Result<Vec<u8>, LinkFault>
    ensures ok { IfOk result (λ v. (answer : HostAnswer) × (mid : S × S)
        × IsHandled S.remaining S.contents server.old (near.old, far.old) body.now answer server.new mid
        × IsReturned S.remaining S.contents mid answer v.items (near.new, far.new)) }
    ensures large { IsErrOf result LinkFault.TooLarge → (answer : HostAnswer)
        × IsHandled S.remaining S.contents server.old (near.old, far.old) body.now answer server.new (near.new, far.new)
        × (longest_frame < length (frame (answer_body answer))) }
    ensures err { OnErr result (AsksOnce server.old server.new) }
{
    let answer = ask(alloc, server, near, far, body)?;
    give_back(alloc, near, far, &answer)
}

impl<R: Net> LoopLink<R> {
    /// Makes a link to this server and opens a connection on this machine. Fails with `Io` if no connection can be
    /// opened.
    pub fn open(rt: R, _alloc: Global, server: Server) -> Result<LoopLink<R>, LinkFault>
    where
        R: Drop,
        ensures ok { IfOk result (λ l. (l.host ≡ server) × IsSome l.ends × (l.faults ≡ 0)) }
        ensures err { IfErr result (λ fault. fault ≡ LinkFault.Io) }
    {
        let ends = connected(&rt)?;
        Ok(LoopLink {
            rt,
            server,
            ends: Some(ends),
            faults: 0,
        })
    }

    /// Takes the ends of the connection, or opens a new one.
    fn take_ends(&mut self) -> Result<(R::Stream, R::Stream), LinkFault>
        ensures host { self.new.host ≡ self.old.host }
        ensures faults { self.new.faults ≡ self.old.faults }
        ensures none { self.new.ends ≡ None }
        ensures ok { IfOk result (λ ends. IfSome self.old.ends (λ those. ends ≡ those)) }
        ensures err { IfErr result (λ fault. (fault ≡ LinkFault.Io) × (self.old.ends ≡ None)) }
    {
        match self.ends.take() {
            Some(ends) => Ok(ends),
            None => connected(&self.rt),
        }
    }

    /// Sends a message and returns its answer, without counting faults.
    fn pass(&mut self, alloc: Global, body: &[u8]) -> Result<Vec<u8>, LinkFault>
        ensures faults { self.new.faults ≡ self.old.faults }
        ensures answer { Carries R.Stream.remaining R.Stream.contents self.old body.now (outcome_of result) self.new }
    {
        if is_too_large(body) {
            return Err(LinkFault::TooLarge);
        }
        let (mut near, mut far) = self.take_ends()?;
        match cross(alloc, &mut self.server, &mut near, &mut far, body) {
            Ok(bytes) => {
                self.ends = Some((near, far));
                Ok(bytes)
            }
            Err(LinkFault::TooLarge) => {
                self.ends = Some((near, far));
                Err(LinkFault::TooLarge)
            }
            Err(LinkFault::OutOfMemory) => Err(LinkFault::OutOfMemory),
            Err(LinkFault::Io | LinkFault::Closed | LinkFault::TooLong) => Err(LinkFault::Io),
        }
    }
}

impl<R: Net> Link for LoopLink<R> {
    ghost use Rattle.oram_session.specs.Loopback.{LoopCall};

    ghost calls = { λ l body outcome m. LoopCall R.Stream.remaining R.Stream.contents l body outcome m };

    ghost fault_count = { λ l. l.faults };

    fn call(&mut self, alloc: Global, body: &[u8]) -> Result<Vec<u8>, LinkFault> {
        let outcome = self.pass(alloc, body);
        if outcome.is_err() {
            self.faults = self.faults.saturating_add(1);
        }
        outcome
    }

    fn faults(&self) -> u64 {
        self.faults
    }

    ghost counts = { λ l m body outcome h. h.faults };
}
