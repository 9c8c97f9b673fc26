//! CHECKPOINT and SUMMARY.
ghost use Rattle.std.specs.Prelude.{◌≡◌, ◌↔◌, ◌⊎◌, ◌++◌, false, ℕ, List, IfOk, IfErr, IsErrOf, IsOkAnd};
ghost use Rattle.oram_wire.specs.FrameStream.{IsBody};
ghost use Rattle.oram_checkpoints.specs.Messages.{CheckpointMessage, IsMessage, IsMisfit, checkpoint_body, message_body, message_of, names_message};

use crate::answer::split_summary;
use oram_wire::WireFault;
use std::alloc::{AllocError, Global};

/// The first byte of CHECKPOINT.
const CHECKPOINT: u8 = 8;

/// The first byte of SUMMARY.
const SUMMARY: u8 = 9;

/// The body of SUMMARY.
pub const SUMMARY_BODY: [u8; 1] = [SUMMARY];

/// The number of bytes of CHECKPOINT before its summary.
pub const CHECKPOINT_HEADER_LEN: usize = 9;

/// The greatest number of bytes of a summary: half a frame. A summary has up to 64 blocks of 4,096 bytes, which take half of that. So it
/// always fits into one message, and a later version of it can have more.
pub const LONGEST_SUMMARY: usize = 524_288;

/// A request about checkpoints, whose summary is borrowed from the body that it was read from.
#[derive(Clone, Copy, Debug)]
pub enum CheckpointRequest<'a> {
    /// Leaves the number and the summary of a checkpoint at the host.
    Checkpoint { number: u64, summary: &'a [u8] },
    /// Asks for the number and the summary of the last checkpoint.
    Summary,
}

/// Returns the body of CHECKPOINT up to its summary.
pub fn checkpoint_header(number: u64) -> [u8; CHECKPOINT_HEADER_LEN]
    ensures { (summary : List ℕ) → result ++ summary ≡ checkpoint_body number summary }
{
    let mut header = [CHECKPOINT, 0, 0, 0, 0, 0, 0, 0, 0];
    header[1..].copy_from_slice(&number.to_be_bytes());
    header
}

/// Returns the body of CHECKPOINT.
fn checkpoint(alloc: Global, number: u64, summary: &[u8]) -> Result<Vec<u8>, AllocError>
    ensures { IfOk result (λ body. body.items ≡ checkpoint_body number summary.now) }
{
    let mut body = Vec::with_capacity(alloc, CHECKPOINT_HEADER_LEN + summary.len())?;
    body.extend_from_slice(&checkpoint_header(number))?;
    body.extend_from_slice(summary)?;
    Ok(body)
}

impl<'a> CheckpointRequest<'a> {
    /// Encodes the request as a body. Its summary has at most [`LONGEST_SUMMARY`] bytes. Fails only if memory runs out.
    pub fn encode(&self, alloc: Global) -> Result<Vec<u8>, AllocError>
        requires { IsMessage (message_of self.now) }
        ensures body { IfOk result (λ body. body.items ≡ message_body (message_of self.now)) }
        ensures fits { IfOk result (λ body. IsBody body.items) }
    {
        match *self {
            CheckpointRequest::Checkpoint { number, summary } => checkpoint(alloc, number, summary),
            CheckpointRequest::Summary => SUMMARY_BODY.to_vec(alloc),
        }
    }

    /// Decodes a body. Fails with `Op` if its first byte names neither request, and else with `Length` if it is too short or too long: a
    /// summary has at most [`LONGEST_SUMMARY`] bytes. Doesn't look at the number and at the bytes of the summary.
    pub fn decode(body: &'a [u8]) -> Result<CheckpointRequest<'a>, WireFault>
        ensures found { IfOk result (λ request. IsMessage (message_of request) × (body.now ≡ message_body (message_of request))) }
        // It decodes each request's body as that request.
        ensures only { (message : CheckpointMessage) → IsMessage message → body.now ≡ message_body message
            → IsOkAnd result (λ request. message_of request ≡ message) }

        ensures op { IsErrOf result WireFault.Op ↔ (names_message body.now ≡ false) }
        ensures length { IsErrOf result WireFault.Length ↔ IsMisfit body.now }
        ensures faults { IfErr result (λ fault. (fault ≡ WireFault.Op) ⊎ (fault ≡ WireFault.Length)) }
    {
        match body {
            [CHECKPOINT, fields @ ..] => match split_summary(fields) {
                Some((number, summary)) => Ok(CheckpointRequest::Checkpoint { number, summary }),
                None => Err(WireFault::Length),
            },
            [SUMMARY] => Ok(CheckpointRequest::Summary),
            [SUMMARY, ..] => Err(WireFault::Length),
            _ => Err(WireFault::Op),
        }
    }
}
