//! The keys that a disk is opened with.
ghost use Rattle.std.specs.Prelude.{◌≡◌, ◌↔◌, IfOk, IsOk};
ghost use Rattle.oram_client.specs.Keys as spec;

use crate::disk_head::Head;
use crate::keys::{
    DiskKey, Identity, SealerKey, TapeKey, disk_identity, key_check, sealer_key, stamp_key,
    tape_key,
};
use oram_stamps::StampKey;
use thiserror::Error;

/// The keys of a formatting, and the identity of its disk.
#[derive(Clone, Copy, Debug)]
pub struct Keys {
    pub sealer: SealerKey,
    pub tape: TapeKey,
    pub stamps: StampKey,
    pub identity: Identity,
}

/// The disk was formatted with another key.
#[derive(Clone, Copy, Debug, PartialEq, Eq, Error)]
#[error("the key is not the disk's")]
pub struct WrongKey;

/// Returns the keys of the disk with this head. Fails if it was formatted with another key.
pub fn keys_for(key: &DiskKey, head: &Head) -> Result<Keys, WrongKey>
    ensures right { IsOk result ↔ (spec.key_check key.now.0 head.now.salt.0 ≡ head.now.key_check.0) }
    ensures sealer { IfOk result (λ keys. keys.sealer.0 ≡ spec.bucket_key key.now.0 head.now.salt.0) }
    ensures tape { IfOk result (λ keys. keys.tape.0 ≡ spec.tape_key key.now.0 head.now.salt.0) }
    ensures stamps { IfOk result (λ keys. keys.stamps.0 ≡ spec.stamp_key key.now.0 head.now.salt.0) }
    ensures identity { IfOk result (λ keys. keys.identity.0 ≡ spec.identity key.now.0 head.now.salt.0) }
{
    if key_check(key, &head.salt) != head.key_check {
        return Err(WrongKey);
    }
    Ok(Keys {
        sealer: sealer_key(key, &head.salt),
        tape: tape_key(key, &head.salt),
        stamps: stamp_key(key, &head.salt),
        identity: disk_identity(key, &head.salt),
    })
}
