//! A look at a connection and its listener that doesn't wait.

use crate::watched::{CONNECTION, LISTENER};
use mio::unix::SourceFd;
use mio::{Events, Interest, Poll};
use std::alloc::Global;
use std::io;
use std::net::Net;
use std::os::fd::RawFd;
use std::time::Duration;

/// What a look has seen since the one before.
#[derive(Clone, Copy, Debug, PartialEq, Eq)]
pub struct Seen {
    /// The other side of the connection sends nothing more.
    pub has_left: bool,
    /// Somebody has connected to the listener.
    pub others_wait: bool,
}

/// Looks at a connection and at the listener that it came from.
#[derive(Drop)]
pub struct Look {
    poll: Poll,
    events: Events,
}

impl Look {
    /// Makes the look. Both sockets have to stay open as long as it is used.
    pub fn new<R: Net>(
        rt: &R,
        alloc: Global,
        connection: RawFd,
        listener: RawFd,
    ) -> io::Result<Look> {
        let poll = Poll::new(rt)?;
        for (socket, token) in [(connection, CONNECTION), (listener, LISTENER)] {
            poll.registry()
                .register(&mut SourceFd(&socket), token, Interest::READABLE)?;
        }
        Ok(Look {
            poll,
            events: Events::with_capacity(alloc, 2)?,
        })
    }

    /// Looks once, without waiting.
    pub fn look(&mut self) -> io::Result<Seen> {
        self.poll.poll(&mut self.events, Some(Duration::ZERO))?;
        let mut seen = Seen {
            has_left: false,
            others_wait: false,
        };
        for event in self.events.iter() {
            if event.token() == CONNECTION {
                seen.has_left |= event.is_read_closed();
            } else {
                seen.others_wait = true;
            }
        }
        Ok(seen)
    }
}
