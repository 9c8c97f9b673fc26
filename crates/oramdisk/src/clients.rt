//! The disk has one NBD client at a time. Time limits keep a client that stalls from holding it forever, and other
//! clients are turned away.

use oram_disk_host::time;
use oram_nbd::ClientWatch;
use oram_sockets::{Attendant, Direction, Listener, Look, Peer};
use std::cell::Cell;
use std::io::{Error, ErrorKind};
use std::rt::Clock;
use std::time::{Duration, Instant};
use std::{fmt, io};

/// How long a client may take for its handshake, in seconds.
const LONGEST_HANDSHAKE: u64 = 10;

/// How long a client may leave a reply unread, in seconds.
const LONGEST_UNREAD: u64 = 60;

/// Why the disk dismissed a client.
#[derive(Clone, Copy, Debug, PartialEq, Eq)]
pub(crate) enum Dismissal {
    NoHandshake,
    Unread,
}

impl fmt::Display for Dismissal {
    fn fmt<W: fmt::Write>(&self, f: &mut fmt::Formatter<W>) -> fmt::Result {
        f.write_str(match self {
            Dismissal::NoHandshake => "it made no handshake within ten seconds",
            Dismissal::Unread => "it left a reply unread for a minute",
        })
    }
}

/// Watches over a client. The client has ten seconds for its handshake, and may then be idle for as long as it likes,
/// but has to read each reply within a minute. Meanwhile the attendant turns other clients away, with a line on standard error:
/// at once, or after the round at work.
#[derive(Drop)]
pub(crate) struct ClientAttendant<'r, 'l, R> {
    rt: &'r R,
    listener: &'l Listener,
    handshake_until: Cell<Option<Instant>>,
    dismissal: Cell<Option<Dismissal>>,
}

impl<'r, 'l, R: Clock> ClientAttendant<'r, 'l, R> {
    /// Makes the attendant of a client that has just connected. Allocates nothing.
    pub(crate) fn new(rt: &'r R, listener: &'l Listener) -> io::Result<ClientAttendant<'r, 'l, R>> {
        let until = Instant::now(rt)?.checked_add(Duration::from_secs(LONGEST_HANDSHAKE));
        Ok(ClientAttendant {
            rt,
            listener,
            handshake_until: Cell::new(until),
            dismissal: Cell::new(None),
        })
    }

    /// Returns why the disk dismissed the client, if it did.
    pub(crate) fn dismissal(&self) -> Option<Dismissal> {
        self.dismissal.get()
    }
}

impl<'r, 'l, R: Clock + Eprint + AllocGlobal> ClientAttendant<'r, 'l, R> {
    /// Prints a line about a client that is turned away.
    fn print(&self, peer: Peer) -> io::Result<()> {
        let at = time(self.rt)?;
        let line = format!(in self.rt.alloc();
            "oramdisk: {peer} at {at}, turned away: the disk has a client\n"
        )?;
        self.rt.eprint(line.as_str())
    }
}

impl<'r, 'l, R: Clock + Eprint + AllocGlobal> Attendant for ClientAttendant<'r, 'l, R> {
    fn limit(&self, direction: Direction) -> io::Result<Option<Duration>> {
        // What a client that is dismissed has left unread isn't waited for a second time, when its writer is dropped.
        if self.dismissal.get().is_some() {
            return Ok(Some(Duration::ZERO));
        }
        match (self.handshake_until.get(), direction) {
            (Some(until), _) => {
                Ok(Some(until.saturating_duration_since(Instant::now(self.rt)?)))
            }
            (None, Direction::Reading) => Ok(None),
            (None, Direction::Writing) => Ok(Some(Duration::from_secs(LONGEST_UNREAD))),
        }
    }

    fn waited_out(&self) -> Error {
        let dismissal = match self.handshake_until.get() {
            Some(_) => Dismissal::NoHandshake,
            None => Dismissal::Unread,
        };
        self.dismissal.set(Some(dismissal));
        Error::from(ErrorKind::TimedOut)
    }

    // The listener doesn't block while a client is served.
    fn others_wait(&self) -> io::Result<()> {
        for _ in 0..u64::MAX {
            let Ok((_closed, peer)) = self.listener.accept() else {
                return Ok(());
            };
            let _passed_over = self.print(peer);
        }
        Ok(())
    }
}

/// Watches over a client while its requests are carried out.
#[derive(Drop)]
pub(crate) struct ClientLook<'a, 'r, 'l, R> {
    pub(crate) attendant: &'a ClientAttendant<'r, 'l, R>,
    pub(crate) look: Look,
}

impl<'a, 'r, 'l, R: Clock + Eprint + AllocGlobal> ClientWatch for ClientLook<'a, 'r, 'l, R> {
    fn agreed(&mut self) {
        self.attendant.handshake_until.set(None);
    }

    // If the system can't tell, the call goes on.
    fn goes_on(&mut self) -> bool {
        let Ok(seen) = self.look.look() else {
            return true;
        };
        if seen.others_wait {
            let _passed_over = self.attendant.others_wait();
        }
        !seen.has_left
    }
}
