//! How a connection to a host is opened, what can be wrong with a host, and who is notified of it.
ghost use Rattle.std.specs.Prelude.{◌≡◌, ◌++◌, ◌+◌, ◌<◌, ℕ, List, Option, length, IfOk, IfErr};
ghost use Rattle.oram_client.specs.Attempts.{Attempt, DialersAreBatches, attempt_of};
ghost use Rattle.oram_link_laws.specs.Runs.{Exchange};
ghost use Rattle.oram_rounds.specs.Batches.{texts};
ghost use Rattle.oram_client.specs.Pipelined.{EndsCarrying, IsSending};
ghost use Rattle.oram_client.specs.Streaming.{BeginsOver, CountsAnswers, EndsCarried, GivesOver};

use crate::awaited::{Progress, Sending};
use oram_cli::SocketFault;
use oram_session::LinkFault;
use oram_stamps::Mismatch;
use std::alloc::{AllocError, Global};
use std::io;

/// Why a host gives no useful answer.
#[derive(Clone, Copy, Debug, PartialEq, Eq)]
pub enum Trouble {
    /// No connection could be opened, or it broke, or the host was silent for too long; or memory ran out here.
    OutOfReach(LinkFault),
    /// The host has no room.
    NoRoom,
    /// The host keeps another disk.
    AnotherDisk,
    /// The host keeps no disk that has an identity.
    NoDisk,
    /// The host has stored what a newer state of the disk has sent than the one that this process goes on from.
    OlderState,
    /// The host shows an older file of the disk than it has shown before.
    OlderHost,
    /// The host shows no stamps that were made with the disk's key.
    NoStamps,
}

impl Trouble {
    ghost use Rattle.std.specs.Prelude.{◌≡◌};
    ghost use Rattle.oram_client.specs.Dialer.{fault_of, lacks_memory, may_pass};

    /// Returns whether the trouble may pass if one waits. A host that keeps another disk goes on doing so, and what it keeps doesn't
    /// come to fit this process.
    pub fn may_pass(self) -> bool
        ensures { result ≡ may_pass self }
    {
        match self {
            Trouble::OutOfReach(_) | Trouble::NoRoom => true,
            Trouble::AnotherDisk
            | Trouble::NoDisk
            | Trouble::OlderState
            | Trouble::OlderHost
            | Trouble::NoStamps => false,
        }
    }

    /// Returns whether nothing is wrong with the host, but this program has no memory for what it sends or receives.
    pub fn lacks_memory(self) -> bool
        ensures { result ≡ lacks_memory self }
    {
        match self {
            Trouble::OutOfReach(LinkFault::OutOfMemory) => true,
            _ => false,
        }
    }

    /// Returns the fault that a link reports to its caller for this trouble.
    pub fn fault(self) -> LinkFault
        ensures { result ≡ fault_of self }
    {
        match self {
            Trouble::OutOfReach(fault) => fault,
            _ => LinkFault::Closed,
        }
    }
}

impl From<Mismatch> for Trouble {
    ghost use Rattle.std.specs.Prelude.{◌≡◌};
    ghost use Rattle.oram_client.specs.Dialer.{mismatch_trouble};

    ghost from_gives = { λ why trouble. trouble ≡ mismatch_trouble why };

    fn from(why: Mismatch) -> Trouble {
        match why {
            Mismatch::OlderState => Trouble::OlderState,
            Mismatch::OlderHost => Trouble::OlderHost,
        }
    }
}

impl From<LinkFault> for Trouble {
    ghost use Rattle.std.specs.Prelude.{◌≡◌};
    ghost use Rattle.oram_client.specs.declared.dialer.Trouble.TheVariants.{OutOfReach};

    ghost from_gives = { λ fault trouble. trouble ≡ OutOfReach fault };

    fn from(fault: LinkFault) -> Trouble {
        Trouble::OutOfReach(fault)
    }
}

impl From<AllocError> for Trouble {
    ghost use Rattle.std.specs.Prelude.{◌≡◌};
    ghost use Rattle.oram_client.specs.declared.dialer.Trouble.TheVariants.{OutOfReach};
    ghost use Rattle.oram_session.specs.declared.link.LinkFault.TheVariants.{OutOfMemory};

    ghost from_gives = { λ _ trouble. trouble ≡ OutOfReach OutOfMemory };

    fn from(_error: AllocError) -> Trouble {
        Trouble::OutOfReach(LinkFault::OutOfMemory)
    }
}

impl From<io::Error> for Trouble {
    ghost use Rattle.std.specs.IoError.{error_kind};
    ghost use Rattle.std.specs.Prelude.{◌≡◌};
    ghost use Rattle.oram_cli.specs.Sockets.{socket_fault};
    ghost use Rattle.oram_client.specs.Dialer.{link_fault};
    ghost use Rattle.oram_client.specs.declared.dialer.Trouble.TheVariants.{OutOfReach};

    ghost from_gives = { λ error trouble. trouble ≡ OutOfReach (link_fault (socket_fault (error_kind error))) };

    fn from(error: io::Error) -> Trouble {
        Trouble::from(SocketFault::from(error))
    }
}

impl From<SocketFault> for Trouble {
    ghost use Rattle.std.specs.Prelude.{◌≡◌};
    ghost use Rattle.oram_client.specs.Dialer.{link_fault};
    ghost use Rattle.oram_client.specs.declared.dialer.Trouble.TheVariants.{OutOfReach};

    ghost from_gives = { λ fault trouble. trouble ≡ OutOfReach (link_fault fault) };

    fn from(fault: SocketFault) -> Trouble {
        Trouble::OutOfReach(match fault {
            SocketFault::Failed => LinkFault::Io,
            SocketFault::OutOfMemory => LinkFault::OutOfMemory,
        })
    }
}

/// The times that a host may take, in milliseconds.
#[derive(Clone, Copy, Debug, PartialEq, Eq)]
pub struct Limits {
    /// To accept a connection and answer the greeting.
    pub opening: u64,
    /// To take or give the next bytes over an open connection.
    pub silence: u64,
    /// To take all messages of a batch over an open connection and to answer them. So a host that gives a byte now and then, and
    /// is never silent for long, holds a batch no longer than that.
    pub batch: u64,
}

/// Opens connections to a host and carries batches of messages over them, and has the clock that measures the waiting.
///
/// A dialer may have something to remember beyond the end of its process, as a [`BatchLink`](oram_rounds::BatchLink) may.
pub trait Dial {
    ghost use Rattle.oram_client.specs.Attempts.{Attempt, DialersAreBatches};
    ghost use Rattle.oram_client.specs.declared.awaited.Progress.{Progress};
    ghost use Rattle.oram_client.specs.declared.dialer.Limits.{Limits};
    ghost use Rattle.oram_client.specs.declared.dialer.Trouble.{Trouble};

    /// A connection. It is used until a batch over it has a fault.
    type Line: Drop;

    /// `opens old limits line new`: a try within `limits` may open `line`, and turns the dialer from `old` into `new`.
    ghost opens: { Self → Limits → Self.Line → Self → Type 0 };

    /// `fails old limits trouble new`: a try within `limits` may fail with `trouble`, and turns the dialer from `old`
    /// into `new`.
    ghost fails: { Self → Limits → Trouble → Self → Type 0 };

    /// `pauses old milliseconds new`: a pause of `milliseconds` turns the dialer from `old` into `new`.
    ghost pauses: { Self → ℕ → Self → Type 0 };

    /// `reads old now new`: reading the clock may give `now`, which is `None` if the clock fails, and turns the dialer
    /// from `old` into `new`.
    ghost reads: { Self → Option ℕ → Self → Type 0 };

    /// `carries old line bodies outcome exchanges new line'`: a batch of these bodies over `line` may have this outcome and these
    /// exchanges with the host. It turns the dialer from `old` into `new`, and the connection into `line'`.
    ghost carries: { Self → Self.Line → List (List ℕ) → Attempt → List Exchange → Self → Self.Line → Type 0 };

    /// `asks dialer line bodies line'`: these messages were sent ahead of their answers over `line`, which became `line'`.
    ghost asks: { Self → Self.Line → List (List ℕ) → Self.Line → Type 0 };

    /// `streams old line bodies answers progress new line'`: these bodies were sent in one batch over `line`, these answers were given to the
    /// first of them, and the batch has come that far. The dialer has turned from `old` into `new`, and the connection into `line'`.
    ghost streams: { Self → Self.Line → List (List ℕ) → List (List ℕ) → Progress → Self → Self.Line → Type 0 };

    /// The bytes that the dialer wants to have kept with its process.
    ghost notes: { Self → List ℕ };

    /// Whether the first value may become the second one when the dialer learns that the process was kept, with the dialer's note,
    /// and has this check.
    ghost learns: { Self → ℕ → Self → Type 0 };

    /// Tries once to open a connection.
    fn dial(&mut self, alloc: Global, limits: Limits) -> Result<Self::Line, Trouble>
        ensures ok { IfOk result (λ line. opens self.old limits line self.new) }
        ensures err { IfErr result (λ trouble. fails self.old limits trouble self.new) };

    /// Sends the bodies of `first` and then those of `last` over a connection that this dialer has opened, in this order, and returns
    /// their answers in the same order. It fails if an answer is missing; the host may then have received any of the bodies.
    fn carry(
        &mut self,
        alloc: Global,
        line: &mut Self::Line,
        first: &[Vec<u8>],
        last: &[Vec<u8>],
    ) -> Result<Vec<Vec<u8>>, Trouble>
        ensures { (exchanges : List Exchange) × carries self.old line.old (texts first.now ++ texts last.now) (attempt_of result) exchanges self.new line.new };

    /// Sends the messages of a batch over a connection that this dialer has opened, and reads nothing. If they have to go otherwise,
    /// nothing is sent. If sending fails, that is the outcome of the batch.
    fn ask(&self, alloc: Global, line: Self::Line, bodies: &[Vec<u8>]) -> Sending<Self::Line>
        ensures { IsSending asks carries self.now line (texts bodies.now) result };

    /// Returns the answers to the messages that `ask` has just sent over a connection, in their order.
    fn hear(
        &self,
        alloc: Global,
        line: &mut Self::Line,
        bodies: &[Vec<u8>],
    ) -> Result<Vec<Vec<u8>>, Trouble>
        ensures { EndsCarrying asks carries self.now (texts bodies.now) line.old (attempt_of result) line.new };

    /// Sends the bodies of `first` and then those of `last` over a connection that this dialer has opened, as [`carry`](Dial::carry) does,
    /// and returns how far the batch has come. It gives no answers: [`next_answer`](Dial::next_answer) has to be called for each of the
    /// bodies, before anything else is done with the connection. There is at least one of them. If it fails, that is the outcome of the
    /// batch.
    fn begin(
        &mut self,
        alloc: Global,
        line: &mut Self::Line,
        first: &[Vec<u8>],
        last: &[Vec<u8>],
    ) -> Result<Progress, Trouble>
        requires { 0 < length first.now + length last.now }
        ensures { BeginsOver carries streams self.old line.old (texts first.now ++ texts last.now) result self.new line.new };

    /// Returns the answer to the next body of the batch that was begun over a connection, which is `body`. Fails if it doesn't come; then
    /// the connection isn't used again.
    fn next_answer(
        &mut self,
        alloc: Global,
        line: &mut Self::Line,
        progress: &mut Progress,
        body: &[u8],
    ) -> Result<Vec<u8>, Trouble>
        ensures { GivesOver carries streams self.old line.old progress.old body.now result self.new line.new progress.new };

    /// Returns the dialer's note, which may be empty.
    fn note(&self, alloc: Global) -> Result<Vec<u8>, AllocError>
        ensures { IfOk result (λ note. note.items ≡ notes self.now) };

    /// Tells the dialer that the process was kept, with the dialer's note, and that its check is `check`. Sends nothing.
    fn learn_kept(&mut self, check: u64)
        ensures { learns self.old check self.new };

    // The exchanges are those of the bodies, and the last ones have the answers.
    ghost are_batches: { DialersAreBatches carries };

    // How far a batch has come says how many answers are to be given.
    ghost counts_answers: { CountsAnswers streams };

    // A batch whose answers were all given one by one is a batch as any other.
    ghost ends_carried: { EndsCarried carries streams };

    /// Waits for `milliseconds`.
    fn pause(&mut self, milliseconds: u64)
        ensures { pauses self.old milliseconds self.new };

    /// Returns the milliseconds since some fixed moment, by a monotonic clock; `None` if the clock can't be read.
    fn now(&mut self) -> Option<u64>
        ensures { reads self.old result self.new };
}

/// Is notified when the host is lost, when it has no room, and when it answers again. Each trouble is reported once
/// until the host has answered again.
pub trait HostWatch {
    fn lost(&mut self);

    fn full(&mut self);

    fn back(&mut self);
}
