//! Which requests are refused, and what the others ask for.

ghost use Rattle.std.specs.Prelude.{◌≡◌, ◌∷◌, ◌++◌, List, true, false, ◌+◌, ◌<◌, ◌≢◌, All, None, length, nat_le, slice_index_or};
ghost use Rattle.oram_nbd.specs.Service.{refusal_of};
ghost use Rattle.oram_nbd.specs.declared.requests.Request.{Request};

use crate::LONGEST_PAYLOAD;
use crate::faults::NbdError;
use crate::requests::{Command, Request};

/// Returns the reason to refuse a request on a device of `size` bytes, or `None`. Doesn't ask the device. The known flags are
/// the lowest bits, so a greater number has an unknown flag.
pub(crate) fn refusal(request: &Request, size: u64) -> Option<NbdError>
    ensures { result ≡ refusal_of size request.now }
{
    let greatest_flags = match request.command {
        Command::WriteZeroes => Request::FUA | Request::NO_HOLE,
        _ => Request::FUA,
    };
    if request.flags > greatest_flags {
        return Some(NbdError::Invalid);
    }
    let is_long = request.length > LONGEST_PAYLOAD;
    let is_outside = !is_within(size, request.offset, request.length);
    match request.command {
        Command::Flush | Command::Disconnect => None,
        Command::Other(_) => Some(NbdError::Invalid),
        Command::Read | Command::Write if is_long => Some(NbdError::Invalid),
        Command::Read | Command::Trim if is_outside => Some(NbdError::Invalid),
        Command::Write | Command::WriteZeroes if is_outside => Some(NbdError::NoSpace),
        _ => None,
    }
}

/// Returns whether a range lies within `size` bytes.
fn is_within(size: u64, offset: u64, count: u32) -> bool
    ensures { result ≡ nat_le (offset + count) size }
{
    offset <= size && u64::from(count) <= size - offset
}

/// Returns the request at a place among others.
pub(crate) fn request_at(requests: &[Request], place: usize) -> Request
    requires { place < length requests.now }
    ensures { result ≡ slice_index_or requests.now place result }
{
    requests[place]
}

/// Returns whether some request isn't refused.
pub(crate) fn is_any_accepted(requests: &[Request], size: u64) -> bool
    ensures yes { result ≡ true → (before after : List Request) × (r : Request) × (requests.now ≡ before ++ r ∷ after) × (refusal_of size r ≡ None) }
    ensures no { result ≡ false → All (λ r. refusal_of size r ≢ None) requests.now }
{
    for i in 0..requests.len() {
        let request = request_at(requests, i);
        if refusal(&request, size).is_none() {
            return true;
        }
    }
    false
}
