//! The bytes that go over the wire between the client and its bucket host, and between a user and the client's daemon:
//! message bodies and their frames.
//!
//! A body is a request to the host, the host's answer, a user's request to the daemon, or the daemon's reply. A frame
//! is a body after its length in four bytes. `Frames` takes a stream of frames in pieces of any size; `next_frame`
//! reads one frame from a reader, and `put_frame` writes one to a writer. These two use `fill`, `read_body` and
//! `write`, which also serve messages with other framing.
#![tactic(auto)]

mod faults;
mod frame_io;
mod frames;
mod host_messages;
mod session_messages;
mod sinks;

pub use faults::WireFault;
pub use frame_io::{
    FrameFault, WriteFault, fill, next_frame, next_frame_within, put_frame, read_body, write,
};
pub use frames::{Fed, Frames};
pub use host_messages::{
    GOOD, HEADER_LEN, HostAnswer, HostRequest, HostView, REFUSED, fetch_header, is_done,
    store_header,
};
pub use session_messages::{BAD_REQUEST, DEVICE_FAILED, SessionReply, SessionRequest};
pub use sinks::{ListSink, Sink, SinkFault};

/// The number of bytes of the longest body that a frame can have.
pub const LONGEST_BODY: usize = 1_048_576;
