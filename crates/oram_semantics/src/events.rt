//! The events that a core takes, its reactions, and the commands that wait in between.
ghost use Rattle.std.specs.Prelude.{◌≡◌, [], IfOk};
ghost use Rattle.oram_semantics.specs.Events.{address_of, refusal_number};

use oram_bytes::{Bytes, Words};
use std::alloc::{AllocError, Global};

/// A command: what a session asks of a block of the device.
#[derive(Debug, Drop, PartialEq, Eq)]
pub enum Command {
    /// Reads the block with this address.
    Read(u32),
    /// Replaces the data of the block with this address by these bytes, as many as a block has.
    Write(u32, Bytes),
    /// Replaces the data of the block with this address by zeros. To the host it looks like a read.
    Discard(u32),
}

impl Command {
    /// Returns the address of the block.
    pub fn address(&self) -> u32
        ensures { result ≡ address_of self.now }
    {
        match self {
            Command::Read(address) | Command::Write(address, _) | Command::Discard(address) =>
                *address,
        }
    }

    /// Copies the command. Fails only if memory runs out.
    pub fn copy(&self, alloc: Global) -> Result<Command, AllocError>
        ensures { IfOk result (λ c. c ≡ self.now) }
    {
        match self {
            Command::Read(address) => Ok(Command::Read(*address)),
            Command::Write(address, bytes) => Ok(Command::Write(
                *address,
                Bytes::copy(alloc, bytes.as_slice())?,
            )),
            Command::Discard(address) => Ok(Command::Discard(*address)),
        }
    }
}

/// An event that a core takes.
#[derive(Debug, Drop, PartialEq, Eq)]
pub enum Event {
    /// A session submits a command, with two words of the tape for each tree: the words for tree i are its spare word,
    /// at index 2i, and then its new word.
    Submit {
        session: u32,
        command: Command,
        words: Words,
    },
    /// The host answers with these bytes.
    Answer(Bytes),
    /// The message that waits for an answer counts as lost.
    Lost,
    /// The core was read back from where it was kept, so the message that waits for an answer counts as lost.
    Reopen,
    /// The core should send a lost message again.
    Retry,
}

/// Why a command is refused: the first reason that applies.
#[derive(Clone, Copy, Debug, PartialEq, Eq)]
pub enum Refusal {
    /// The device has no block with this address.
    BadAddress,
    /// The data isn't as long as a block.
    BadLength,
    /// The number of words isn't two for each tree.
    BadWords,
    /// As many commands wait for a reply as may wait.
    Busy,
    /// The device has accepted as many commands as its lifetime allows.
    Exhausted,
    /// The device has failed for good.
    Failed,
}

impl Refusal {
    /// Returns the number by which programs and sessions name the refusal, from 1.
    pub fn number(self) -> u8
        ensures { result ≡ refusal_number self }
    {
        match self {
            Refusal::BadAddress => 1,
            Refusal::BadLength => 2,
            Refusal::BadWords => 3,
            Refusal::Busy => 4,
            Refusal::Exhausted => 5,
            Refusal::Failed => 6,
        }
    }
}

/// Why a device failed.
#[derive(Clone, Copy, Debug, PartialEq, Eq)]
pub enum Reason {
    /// The host's answer doesn't have the form of an answer to the message.
    Malformed,
    /// In this tree, the record at this level of the answer isn't the one last stored. All records nearer the root are.
    Tampered(u8, u8),
    /// The host refused the message with this code, from 1 to 7.
    HostRefused(u8),
}

/// What a core does with an event.
#[derive(Clone, Copy, Debug, PartialEq, Eq)]
pub enum Note {
    /// The command is accepted and has this ticket; tickets count from 0.
    Accepted(u64),
    Refused(Refusal),
    /// The answer was good.
    Taken,
    /// The last message waits to be sent again: it was lost, or the host had no room.
    Stalled,
    /// The answer wasn't good, and the device has failed for this reason.
    FailedNow(Reason),
    /// The core has sent the lost message again, byte for byte.
    Resent,
    /// The core doesn't expect this event, and nothing changes.
    Unexpected,
}

/// The content of a reply to a command.
#[derive(Debug, Drop, PartialEq, Eq)]
pub enum ReplyBody {
    /// The data of the block, which was read.
    Data(Bytes),
    /// The block was written or discarded.
    Done,
    /// The device failed first. Whether the block has changed is unknown.
    Failed,
}

/// The reply to an accepted command.
#[derive(Debug, Drop, PartialEq, Eq)]
pub struct Reply {
    pub session: u32,
    pub ticket: u64,
    pub body: ReplyBody,
}

/// The reaction of a core to an event.
#[derive(Debug, Drop)]
pub struct Reaction {
    pub note: Note,
    /// The replies, in increasing order of ticket.
    pub replies: Vec<Reply>,
    /// The bodies of messages for the host, at most one.
    pub sends: Vec<Bytes>,
}

impl Reaction {
    /// Makes a reaction that is only a note.
    pub fn only(alloc: Global, note: Note) -> Reaction
        ensures note { result.note ≡ note }
        ensures replies { result.replies.items ≡ [] }
        ensures sends { result.sends.items ≡ [] }
    {
        Reaction {
            note,
            replies: Vec::new(alloc),
            sends: Vec::new(alloc),
        }
    }
}

/// An accepted command, with its ticket and its words of the tape.
#[derive(Debug, Drop)]
pub struct Submission {
    pub session: u32,
    pub ticket: u64,
    pub command: Command,
    pub words: Words,
}
