//! A bucket as the host keeps it: encoded and then sealed.
ghost use Rattle.std.specs.Prelude.{◌≡◌, ◌+◌, ◌<◌, ◌++◌, length, map, vec_len, List, IfOk, OnOk, OnErr, MatchResult};
ghost use Rattle.oram_geometry.specs.Sizes.{trees_of, bucket_len};
ghost use Rattle.oram_bucket.specs.Cell.{Cell};
ghost use Rattle.oram_bucket.specs.Bucket.{IsBucketOf, spelling};
ghost use Rattle.oram_bucket.specs.SealedBlocks.{Reads};
ghost use Rattle.oram_bucket.specs.OpenedBytes.{IsOpened};

use crate::block::Block;
use crate::codec::{BucketFault, decode_bucket, encode_bucket, write_bucket};
use crate::sealer::{OpenFault, Sealer};
use oram_geometry::Device;
use std::alloc::{AllocError, Global};

/// Encodes `blocks` as a bucket of `tree` and seals it under `nonce`. Fails only if memory runs out.
pub fn seal_bucket<S: Sealer>(
    alloc: Global,
    sealer: &S,
    device: &Device,
    tree: u8,
    nonce: u64,
    blocks: &[Block],
) -> Result<Vec<u8>, AllocError>
    requires tree { tree < trees_of device.now }
    requires bucket { IsBucketOf device.now tree blocks.now }
    ensures sealed { IfOk result (λ v.
        v.items ≡ (S.cipher sealer.now).sealing nonce (spelling device.now blocks.now)) }
    ensures len { IfOk result (λ v. length v.items ≡ (S.cipher sealer.now).overhead + bucket_len device.now) }
    ensures opens { IfOk result (λ v.
        Reads (S.cipher sealer.now).opening device.now tree v.items blocks.now) }
{
    let plain = encode_bucket(alloc, device, tree, blocks)?;
    sealer.seal(alloc, nonce, &plain)
}

/// Appends the sealed bytes of a bucket with `blocks` to `out`. On a failure, `out` has the same bytes as before.
///
/// It overwrites `plain` with the unsealed bytes, so that many buckets can share one vector.
pub fn seal_bucket_to<S: Sealer>(
    alloc: Global,
    sealer: &S,
    device: &Device,
    tree: u8,
    nonce: u64,
    blocks: &[&Block],
    plain: &mut Vec<u8>,
    out: &mut Vec<u8>,
) -> Result<(), AllocError>
    requires tree { tree < trees_of device.now }
    requires bucket { IsBucketOf device.now tree (map (λ b. b.now) blocks.now) }
    ensures sealed { OnOk result (out.new.items ≡ out.old.items
        ++ (S.cipher sealer.now).sealing nonce (spelling device.now (map (λ b. b.now) blocks.now))) }
    ensures len { OnOk result
        (vec_len out.new ≡ vec_len out.old + ((S.cipher sealer.now).overhead + bucket_len device.now)) }
    ensures opens { OnOk result (let cells = map (λ b. b.now) blocks.now in
        Reads (S.cipher sealer.now).opening device.now tree
        ((S.cipher sealer.now).sealing nonce (spelling device.now cells)) cells) }
    ensures err { OnErr result (out.new.items ≡ out.old.items) }
{
    write_bucket(device, tree, blocks, plain)?;
    sealer.seal_to(alloc, nonce, plain, out)
}

/// Opens a sealed bucket of `tree` and returns its blocks.
///
/// Also returns `Broken` if the opened bytes are no bucket of the tree.
pub fn open_bucket<S: Sealer>(
    alloc: Global,
    sealer: &S,
    device: &Device,
    tree: u8,
    sealed: &[u8],
) -> Result<Vec<Block>, OpenFault>
    requires { tree < trees_of device.now }
    ensures ok { IfOk result (λ v.
        Reads (S.cipher sealer.now).opening device.now tree sealed.now v.items) }
    ensures only { (cells : List Cell) →
        Reads (S.cipher sealer.now).opening device.now tree sealed.now cells →
        MatchResult result (λ v. v.items ≡ cells) (λ f. f ≡ OpenFault.OutOfMemory) }
    ensures opened { IsOpened device.now tree ((S.cipher sealer.now).opening sealed.now) result }
{
    let plain = sealer.open(alloc, sealed)?;
    let blocks = decode_bucket(alloc, device, tree, &plain)?;
    Ok(blocks)
}

impl From<BucketFault> for OpenFault {
    ghost use Rattle.oram_bucket.specs.Fault.{opening_fault};

    ghost from_gives = { λ fault f. f ≡ opening_fault fault };

    fn from(fault: BucketFault) -> Self {
        match fault {
            BucketFault::OutOfMemory => OpenFault::OutOfMemory,
            _ => OpenFault::Broken,
        }
    }
}
