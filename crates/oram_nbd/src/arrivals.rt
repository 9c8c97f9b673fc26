//! What has arrived of a client's requests.

ghost use Rattle.std.specs.Prelude.{◌↔◌, IsTrue};
ghost use Rattle.oram_nbd.specs.Service.{BeginsWithRequest};

use crate::requests::Request;
use std::io::{BufReader, Read};

/// A reader that shows which bytes it has received and not handed out yet. These only decide which requests go into one batch.
pub trait Arrived {
    /// Returns bytes that were received and weren't read yet, in their order. There may be more than these.
    fn arrived(&self) -> &[u8];
}

/// What a buffered reader has in its buffer.
impl<R: Read> Arrived for BufReader<R> {
    fn arrived(&self) -> &[u8] {
        self.buffer()
    }
}

/// All of a text in memory.
impl Arrived for &[u8] {
    fn arrived(&self) -> &[u8] {
        self
    }
}

/// Returns whether what has arrived begins with a whole request, with the bytes of its write.
pub(crate) fn has_request(arrived: &[u8]) -> bool
    ensures { IsTrue result ↔ BeginsWithRequest arrived.now }
{
    if arrived.len() < Request::BYTES {
        return false;
    }
    match Request::decode(&arrived[..Request::BYTES]) {
        Some(request) => arrived.len() - Request::BYTES >= request.payload_len() as usize,
        None => false,
    }
}
