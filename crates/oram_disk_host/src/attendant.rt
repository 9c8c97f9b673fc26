//! How long a connection may let the host wait, and which connection comes first.

ghost use Rattle.std.specs.Prelude.{◌≡◌, None, IsSome, OnErr, OnOk};

use crate::connection::EarlyEnd;
use oram_host::ServeFault;
use oram_sockets::{Attendant, Direction, Marks};
use std::cell::Cell;
use std::io;
use std::io::{Error, ErrorKind};
use std::time::Duration;

/// How long a connection may be silent in the middle of a message, or leave an answer unread, in seconds.
const LONGEST_SILENCE: u64 = 60;

/// After how many seconds without a message a connection counts as quiet.
const QUIET_AFTER: u64 = 5;

/// Lets a connection be idle for as long as nobody else connects, and silent in the middle of a message for a minute. Between two
/// messages, reading ends once after some seconds, so that the host can use the quiet.
///
/// The newest connection comes first. If the owner's connection freezes, the host can't tell it from an idle one, and
/// the owner must be able to reach the disk over another connection at once.
#[derive(Debug, Drop)]
pub(crate) struct HostAttendant {
    is_within_message: Cell<bool>,
    /// Whether there was a message since the connection was last quiet.
    is_stirred: Cell<bool>,
    /// Whether the connection has just been quiet, and nobody has asked for that yet.
    is_quiet: Cell<bool>,
    ended: Cell<Option<EarlyEnd>>,
}

impl HostAttendant {
    pub(crate) fn new() -> HostAttendant {
        HostAttendant {
            is_within_message: Cell::new(false),
            is_stirred: Cell::new(false),
            is_quiet: Cell::new(false),
            ended: Cell::new(None),
        }
    }

    /// Returns whether reading has ended only because the connection is quiet. Then it can be read again: it is between two
    /// messages.
    pub(crate) fn ends_quiet(&self) -> bool {
        self.is_quiet.replace(false)
    }

    /// Returns why the connection ended before its input did, if that is so.
    pub(crate) fn early_end(&self, served: Result<(), ServeFault>) -> Option<EarlyEnd>
        ensures ok { OnOk served (result ≡ None) }
        ensures err { OnErr served (IsSome result) }
    {
        match served {
            Ok(()) => None,
            Err(fault) => Some(self.ended.get().unwrap_or(EarlyEnd::Fault(fault))),
        }
    }
}

impl Attendant for HostAttendant {
    fn limit(&self, direction: Direction) -> io::Result<Option<Duration>> {
        let seconds = if direction == Direction::Writing || self.is_within_message.get() {
            Some(LONGEST_SILENCE)
        } else if self.is_stirred.get() {
            Some(QUIET_AFTER)
        } else {
            None
        };
        Ok(seconds.map(Duration::from_secs))
    }

    fn waited_out(&self) -> Error {
        if self.is_within_message.get() {
            self.ended.set(Some(EarlyEnd::Silent));
        } else {
            self.is_stirred.set(false);
            self.is_quiet.set(true);
        }
        Error::from(ErrorKind::TimedOut)
    }

    fn others_wait(&self) -> io::Result<()> {
        self.ended.set(Some(EarlyEnd::Displaced));
        Err(Error::from(ErrorKind::ConnectionAborted))
    }
}

impl Marks for HostAttendant {
    fn within_message(&self) {
        self.is_within_message.set(true);
        self.is_stirred.set(true);
    }

    fn answered(&self) {
        self.is_within_message.set(false);
    }
}
