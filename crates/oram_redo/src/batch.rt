//! Patches, and their bytes in the log.
ghost use Rattle.std.specs.Prelude.{◌≡◌, ◌<◌, ◌^◌, ◌↔◌, ◌++◌, [], ◌∷◌, All, length, IfNone, IfOk, IfSome, IsTrue, OnOk, slice_index};
ghost use Rattle.oram_redo.specs.Batch.{patch_of, patches_of};
ghost use Rattle.oram_redo.specs.Log.{check_bytes, entries, entry, length_bytes, place_and_length, place_bytes};

use std::alloc::{AllocError, Global};
use std::hash::{DefaultHasher, Hasher};

/// The number of bytes in an entry before those of its patch: the gate, the place and the length.
pub const HEAD_LEN: usize = 13;

/// The number of bytes of an entry's checksum, which come after those of its patch.
pub const CHECK_LEN: usize = 8;

/// The gate of an entry that counts.
pub const OPEN: u8 = 255;

/// The gate after the last entry. The log ends at any byte but `OPEN`, but only this one is written there. It differs from `OPEN`
/// in four bits, and in four from 0, which is what a read returns where a log was cut off.
pub const SHUT: u8 = 15;

/// Bytes to write at a place of the records' file.
#[derive(Clone, Copy, Debug)]
pub struct Patch<'a> {
    pub at: u64,
    pub bytes: &'a [u8],
}

/// The place and the length in an entry, which come before the bytes of its patch.
#[derive(Clone, Copy, Debug)]
pub struct Head {
    pub at: u64,
    pub len: u32,
}

/// Returns the number of bytes of the batch's entries and of a shut gate after them.
fn room_of(batch: &[Patch]) -> usize {
    let mut room = 1usize;
    for patch in batch {
        room = room
            .saturating_add(HEAD_LEN + CHECK_LEN)
            .saturating_add(patch.bytes.len());
    }
    room
}

/// Returns the checksum of a text, which tells whether it is still the one that was written.
#[tactic(auto, unfolding(crate::specs::Log::check_bytes))]
pub fn check_of(text: &[u8]) -> [u8; 8]
    ensures { result ≡ check_bytes text.now }
{
    let mut hasher = DefaultHasher::new();
    hasher.write(text);
    hasher.finish().to_le_bytes()
}

/// Returns whether `check` is the checksum of what an entry says.
pub fn is_check_of(check: &[u8], text: &[u8]) -> bool
    ensures { IsTrue result ↔ (check.now ≡ check_bytes text.now) }
{
    let own = check_of(text);
    check == &own[..]
}

/// Adds the entry of a patch to those before it.
fn push_entry(body: &mut Vec<u8>, patch: &Patch) -> Result<(), AllocError>
    requires { length patch.now.bytes.now < 2 ^ 32 }
    ensures { OnOk result (body.new.items ≡ body.old.items ++ entry (patch_of patch.now)) }
{
    body.push(OPEN)?;
    let start = body.len();
    body.extend_from_slice(&patch.at.to_le_bytes())?;
    body.extend_from_slice(&(patch.bytes.len() as u32).to_le_bytes())?;
    body.extend_from_slice(patch.bytes)?;
    let check = check_of(&body[start..]);
    body.extend_from_slice(&check)?;
    Ok(())
}

/// Returns the batch's entries, and a shut gate after them.
pub fn body_of(alloc: Global, batch: &[Patch]) -> Result<Vec<u8>, AllocError>
    requires { All (λ p. length p.1 < 2 ^ 32) (patches_of batch.now) }
    ensures { IfOk result (λ body. body.items ≡ entries (patches_of batch.now) ++ 15 ∷ []) }
{
    let mut body = Vec::with_capacity(alloc, room_of(batch))?;
    for patch in batch {
        push_entry(&mut body, patch)?;
    }
    body.push(SHUT)?;
    Ok(body)
}

/// Returns the head in the first bytes of an entry, or `None` if its gate is shut.
pub fn head_of(bytes: &[u8]) -> Option<Head>
    requires { length bytes.now ≡ HEAD_LEN }
    ensures shut { IfNone result (slice_index bytes.now 0 ≡ 255 → ⊥) }
    ensures open { IfSome result (λ head. bytes.now ≡ 255 ∷ place_and_length head.at head.len) }
    ensures in_range { IfSome result (λ head. (head.at < 2 ^ 64) × (head.len < 2 ^ 32)) }
{
    if bytes[0] != OPEN {
        return None;
    }
    Some(Head {
        at: place_in(&bytes[1..9]),
        len: length_in(&bytes[9..13]),
    })
}

fn place_in(bytes: &[u8]) -> u64
    requires { length bytes.now ≡ 8 }
    ensures { place_bytes result ≡ bytes.now }
{
    u64::from_le_bytes([
        bytes[0], bytes[1], bytes[2], bytes[3], bytes[4], bytes[5], bytes[6], bytes[7],
    ])
}

fn length_in(bytes: &[u8]) -> u32
    requires { length bytes.now ≡ 4 }
    ensures { length_bytes result ≡ bytes.now }
{
    u32::from_le_bytes([bytes[0], bytes[1], bytes[2], bytes[3]])
}
