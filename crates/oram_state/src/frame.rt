//! The frame around a file's fields: letters, version and length before them, and a digest after them.

ghost use Rattle.std.specs.Prelude.{◌≡◌, ◌≤◌, length, slice_range};
ghost use Rattle.std.specs.Int.{w32, w64, from_be_bytes};
ghost use Rattle.oram_state.specs.declared.frame.TheConstants.{LENGTH_END, VERSION_END};
ghost use Rattle.oram_state.specs.Parser.{Gives, fields_in};

use crate::fault::StateFault;
use byteorder::{BigEndian, ByteOrder};
use oram_hash::DIGEST_LEN;
use sha2::{Digest, Sha256};

pub(crate) const MAGIC: [u8; 8] = *b"PATHORAM";

/// The offsets at which the version ends and the length ends. The fields begin after the length.
pub(crate) const VERSION_END: usize = 12;

pub(crate) const LENGTH_END: usize = 20;

/// The number of bytes of a file without its fields.
pub(crate) const FRAME_LEN: usize = LENGTH_END + DIGEST_LEN;

/// Checks a file's frame, and returns the file's version and its fields.
#[tactic(auto, unfolding(crate::specs::Parser::fields_in))]
pub(crate) fn open(file: &[u8]) -> Result<(u32, &[u8]), StateFault>
    ensures { Gives (λ x. (x.0, x.1.now)) result (fields_in file.now) }
{
    if !file.starts_with(&MAGIC) {
        return Err(StateFault::Magic);
    }
    if file.len() < VERSION_END {
        return Err(StateFault::Length);
    }
    let version = stated_version(file);
    if version != 1 && version != 2 {
        return Err(StateFault::Version);
    }
    if file.len() < FRAME_LEN || stated_length(file) != file.len() as u64 {
        return Err(StateFault::Length);
    }
    let (text, digest) = file.split_at(file.len() - DIGEST_LEN);
    if digest != Sha256::digest(text).as_slice() {
        return Err(StateFault::Digest);
    }
    Ok((version, &text[LENGTH_END..]))
}

/// Returns the length that a file says it has.
fn stated_length(file: &[u8]) -> u64
    requires { LENGTH_END ≤ length file.now }
    ensures { result ≡ from_be_bytes w64 (slice_range file.now 12 20) }
{
    BigEndian::read_u64(&file[VERSION_END..LENGTH_END])
}

/// Returns the version that a file says it has.
fn stated_version(file: &[u8]) -> u32
    requires { VERSION_END ≤ length file.now }
    ensures { result ≡ from_be_bytes w32 (slice_range file.now 8 12) }
{
    BigEndian::read_u32(&file[MAGIC.len()..VERSION_END])
}
