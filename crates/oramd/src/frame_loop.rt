//! Session frames in hexadecimal digits, answered by a device that is made for them.

ghost use Rattle.std.specs.Prelude.{◌≡◌, ◌⊎◌, ℕ, [], length, List, Ok, Err, IfErr, IfOk, IsErrOf, OnOk};
ghost use Rattle.hex.specs.Hex.{decode_of};
ghost use Rattle.hex.specs.declared.error.FromHexError.{FromHexError};
ghost use Rattle.oram_wire.specs.FrameStream.{IsBroken, IsUnfinished};
ghost use Rattle.oramd.specs.FrameLoop.{HasAnsweredFrames, IsUnansweredFor};
ghost use Rattle.oramd.specs.FrameLoop as spec;

use crate::faults::Fault;
use crate::formatted_state::made_device;
use hex::FromHexError;
use oram_bucket::PlainSeal;
use oram_session::{ChaChaTape, Link, ServeFault, format_device, serve};
use std::alloc::Global;

/// Decodes hexadecimal digits. Fails with [`Fault::Hex`] if `digits` aren't hexadecimal.
pub fn bytes_of(alloc: Global, digits: &str) -> Result<Vec<u8>, Fault>
    ensures ok { IfOk result (λ bytes. decode_of digits.now ≡ Ok bytes.items) }
    ensures hex { IsErrOf result Fault.Hex → (why : FromHexError) × (decode_of digits.now ≡ Err why) }
    ensures fault { IfErr result (λ fault. (fault ≡ Fault.Hex) ⊎ (fault ≡ Fault.OutOfMemory)) }
{
    match hex::decode(alloc, digits) {
        Ok(bytes) => Ok(bytes),
        Err(FromHexError::OutOfMemory) => Err(Fault::OutOfMemory),
        Err(_) => Err(Fault::Hex),
    }
}

/// Returns what the end of the frames means to the program.
fn after_frames(ended: Result<u64, ServeFault>) -> Result<(), Fault>
    ensures { result ≡ spec.after_frames ended }
{
    match ended {
        Ok(_) => Ok(()),
        Err(ServeFault::Read | ServeFault::Frame | ServeFault::Truncated) => Err(Fault::Hex),
        Err(ServeFault::Stalled) => Err(Fault::Stalled),
        Err(ServeFault::Write | ServeFault::OutOfMemory) => Err(Fault::OutOfMemory),
    }
}

/// Formats a device of 64 blocks of 16 bytes, unsealed, over a link to a host without trees, and answers the session
/// frames in `frames`. It appends the frames of the replies to `replies`.
pub fn answer_frames<L: Link>(
    alloc: Global,
    link: &mut L,
    frames: &[u8],
    replies: &mut Vec<u8>,
) -> Result<(), Fault>
    // All frames were answered.
    ensures ok { OnOk result (HasAnsweredFrames L.calls
        (record { state = link.old; unread = Some frames.now; written = Some replies.old.items })
        []
        (record { state = link.new; unread = Some []; written = Some replies.new.items })) }
    // The frames before one that is too long or cut short were answered.
    ensures hex { IsErrOf result Fault.Hex → (part unread : List ℕ) × (IsUnfinished part ⊎ ((length part ≡ 4) × IsBroken part))
        × HasAnsweredFrames L.calls
        (record { state = link.old; unread = Some frames.now; written = Some replies.old.items })
        part
        (record { state = link.new; unread = Some unread; written = Some replies.new.items }) }
    // All other faults come from the formatting or the serving.
    ensures fault { IfErr result (λ fault. IsUnansweredFor fault) }
{
    let device = made_device(64, 16, 4, 64, 100)?;
    let mut core = format_device(alloc, device, PlainSeal, link)?;
    let trees = core.device().trees();
    let key = [0; 32];
    let mut tape = ChaChaTape { key, trees };
    let mut reader = frames;
    let ended = serve(alloc, &mut reader, replies, &mut core, link, &mut tape, 0);
    after_frames(ended)
}
