//! The keys of a formatting, and the identity of its disk.
ghost use Rattle.std.specs.Prelude.{◌≡◌, codes};
ghost use Rattle.oram_client.specs.Keys.{derived_key};
ghost use Rattle.oram_client.specs.Keys as spec;

use oram_stamps::StampKey;
use sha2::{Digest, Sha256};
use std::fmt;

/// A value drawn once for each formatting, so that no two formattings have keys in common.
#[derive(Clone, Copy, Debug, PartialEq, Eq)]
pub struct Salt(pub [u8; 32]);

/// The key of a disk, from its settings.
#[derive(Clone, Copy)]
pub struct DiskKey(pub [u8; 32]);

// The key is not shown.
impl fmt::Debug for DiskKey {
    fn fmt<W: fmt::Write>(&self, f: &mut fmt::Formatter<W>) -> fmt::Result {
        f.write_str("DiskKey(..)")
    }
}

/// The key that seals a formatting's buckets.
#[derive(Clone, Copy)]
pub struct SealerKey(pub [u8; 32]);

// The key is not shown.
impl fmt::Debug for SealerKey {
    fn fmt<W: fmt::Write>(&self, f: &mut fmt::Formatter<W>) -> fmt::Result {
        f.write_str("SealerKey(..)")
    }
}

/// The key of a formatting's tape.
#[derive(Clone, Copy)]
pub struct TapeKey(pub [u8; 32]);

// The key is not shown.
impl fmt::Debug for TapeKey {
    fn fmt<W: fmt::Write>(&self, f: &mut fmt::Formatter<W>) -> fmt::Result {
        f.write_str("TapeKey(..)")
    }
}

/// A value that shows whether a key is the one that a disk was formatted with. The key can't be
/// computed from it.
#[derive(Clone, Copy, Debug, PartialEq, Eq)]
pub struct KeyCheck(pub [u8; 32]);

/// The name of a disk at its host. It is new with each formatting, and no key can be computed from
/// it.
#[derive(Clone, Copy, Debug, PartialEq, Eq)]
pub struct Identity(pub [u8; 32]);

/// Derives the key for a purpose by one step of SHA-256 (NIST SP 800-56C rev. 2, 4.1, option 1).
fn derived(key: &DiskKey, purpose: &[u8], salt: &Salt) -> [u8; 32]
    ensures { result ≡ derived_key key.now.0 purpose.now salt.now.0 }
{
    let mut hasher = Sha256::new();
    hasher.update(1u32.to_be_bytes());
    hasher.update(key.0);
    hasher.update(purpose);
    hasher.update(salt.0);
    hasher.finalize()
}

/// Derives the key that seals the buckets of the formatting with this salt.
pub fn sealer_key(key: &DiskKey, salt: &Salt) -> SealerKey
    ensures { result.0 ≡ spec.bucket_key key.now.0 salt.now.0 }
{
    SealerKey(derived(key, b"vidlaqe bucket key", salt))
}

/// Derives the key of the tape of the formatting with this salt.
pub fn tape_key(key: &DiskKey, salt: &Salt) -> TapeKey
    ensures { result.0 ≡ spec.tape_key key.now.0 salt.now.0 }
{
    TapeKey(derived(key, b"vidlaqe tape key", salt))
}

/// Derives the key of the stamps of the formatting with this salt.
pub fn stamp_key(key: &DiskKey, salt: &Salt) -> StampKey
    ensures { result.0 ≡ spec.stamp_key key.now.0 salt.now.0 }
{
    StampKey(derived(key, b"vidlaqe stamp key", salt))
}

/// Computes the key check of the formatting with this salt.
pub fn key_check(key: &DiskKey, salt: &Salt) -> KeyCheck
    ensures { result.0 ≡ spec.key_check key.now.0 salt.now.0 }
{
    KeyCheck(derived(key, b"vidlaqe key check", salt))
}

/// Computes the identity of the disk of the formatting with this salt.
pub fn disk_identity(key: &DiskKey, salt: &Salt) -> Identity
    ensures { result.0 ≡ spec.identity key.now.0 salt.now.0 }
{
    Identity(derived(key, b"vidlaqe disk identity", salt))
}
