//! The records of a subtree of empty buckets.
ghost use Rattle.std.specs.Prelude.{◌≡◌, ◌+◌, ◌*◌, ◌^◌, ◌≤◌, ◌++◌, ℕ, length, IfOk, OnOk, OnErr, if◌then◌else◌};
ghost use Rattle.sha2.specs.Sha256.{sha256};
ghost use Rattle.oram_tree.specs.Content.{node_count};
ghost use Rattle.oram_tree.specs.Subtree.{root_record};
ghost use Rattle.oram_empty.specs.EmptyRecords.{IsExtended};
ghost use Rattle.oram_empty.specs.SubtreePaths.{in_order, linked, subtree_path};

use crate::nonces::node_count;
use oram_bucket::Sealer;
use oram_hash::{DIGEST_LEN, node_digest};
use std::alloc::{AllocError, Global};

/// The number of bytes of the two digests that end a record.
pub(crate) const DIGESTS_LEN: usize = 2 * DIGEST_LEN;

/// The digests that end a leaf's record: zeros.
const NO_DIGESTS: [u8; DIGESTS_LEN] = [0; DIGESTS_LEN];

/// Appends a record to `out`: `plain` sealed under `nonce`, and the digests of the children. If memory runs out, `out` may have some more
/// bytes behind those that it had.
pub(crate) fn append_record<S: Sealer>(
    alloc: Global,
    sealer: &S,
    plain: &[u8],
    nonce: u64,
    digests: &[u8],
    out: &mut Vec<u8>,
) -> Result<(), AllocError>
    ensures ok { OnOk result (out.new.items ≡ out.old.items
        ++ ((S.cipher sealer.now).sealing nonce plain.now ++ digests.now)) }
    ensures err { OnErr result (IsExtended out.old.items out.new.items) }
{
    sealer.seal_to(alloc, nonce, plain, out)?;
    out.extend_from_slice(digests)
}

/// Returns the digests of two children, the left child's first. `first_is_left` says which of them is the left child's.
fn in_order(
    first_is_left: bool,
    first: &[u8; DIGEST_LEN],
    second: &[u8; DIGEST_LEN],
) -> [u8; DIGESTS_LEN]
    ensures { result ≡ in_order first_is_left first.now second.now }
{
    if first_is_left {
        return both(first, second);
    }
    both(second, first)
}

/// Returns two digests, one behind the other.
fn both(left: &[u8; DIGEST_LEN], right: &[u8; DIGEST_LEN]) -> [u8; DIGESTS_LEN]
    ensures { result ≡ left.now ++ right.now }
{
    let mut digests = NO_DIGESTS;
    digests[..DIGEST_LEN].copy_from_slice(left);
    digests[DIGEST_LEN..].copy_from_slice(right);
    digests
}

/// Makes a record in place of what `scratch` had, and returns its digest.
fn record_digest<S: Sealer>(
    alloc: Global,
    sealer: &S,
    plain: &[u8],
    nonce: u64,
    digests: &[u8; DIGESTS_LEN],
    scratch: &mut Vec<u8>,
) -> Result<[u8; DIGEST_LEN], AllocError>
    ensures { IfOk result (λ digest. digest ≡ sha256 ((S.cipher sealer.now).sealing nonce plain.now ++ digests.now)) }
{
    scratch.clear();
    append_record(alloc, sealer, plain, nonce, digests, scratch)?;
    Ok(node_digest(scratch))
}

/// Returns the digest of the record at the top of a subtree of this height, whose nonces begin at `nonce`. Makes and hashes each record of
/// the subtree once, in `scratch`, whose bytes don't count.
fn subtree_digest<S: Sealer>(
    alloc: Global,
    sealer: &S,
    plain: &[u8],
    height: u8,
    nonce: u64,
    scratch: &mut Vec<u8>,
) -> Result<[u8; DIGEST_LEN], AllocError>
    requires height { height ≤ 24 }
    requires nonces { nonce + node_count height ≤ 2 ^ 64 }
    ensures { let seal = λ (n : ℕ). (S.cipher sealer.now).sealing n plain.now in
        IfOk result (λ digest. digest ≡ sha256 (root_record seal height nonce)) }
{
    if height == 0 {
        return record_digest(alloc, sealer, plain, nonce, &NO_DIGESTS, scratch);
    }
    let below = node_count(height - 1);
    let left = subtree_digest(alloc, sealer, plain, height - 1, nonce, scratch)?;
    let right = subtree_digest(alloc, sealer, plain, height - 1, nonce + below, scratch)?;
    let nonce = nonce + 2 * below;
    record_digest(alloc, sealer, plain, nonce, &both(&left, &right), scratch)
}

/// Appends the record at the top of a subtree of this height, whose nonces begin at `nonce`. Makes each record of the subtree once, and
/// hashes each but this one once, in `scratch`, whose bytes don't count. If memory runs out, `out` may have some more bytes behind those
/// that it had.
pub(crate) fn append_root_record<S: Sealer>(
    alloc: Global,
    sealer: &S,
    plain: &[u8],
    height: u8,
    nonce: u64,
    scratch: &mut Vec<u8>,
    out: &mut Vec<u8>,
) -> Result<(), AllocError>
    requires height { height ≤ 24 }
    requires nonces { nonce + node_count height ≤ 2 ^ 64 }
    ensures ok { let seal = λ (n : ℕ). (S.cipher sealer.now).sealing n plain.now in
        OnOk result (out.new.items ≡ out.old.items ++ root_record seal height nonce) }
    ensures err { OnErr result (IsExtended out.old.items out.new.items) }
{
    if height == 0 {
        return append_record(alloc, sealer, plain, nonce, &NO_DIGESTS, out);
    }
    let lower = height - 1;
    let below = node_count(lower);
    let left = subtree_digest(alloc, sealer, plain, lower, nonce, scratch)?;
    let right = subtree_digest(alloc, sealer, plain, lower, nonce + below, scratch)?;
    let digests = both(&left, &right);
    append_record(alloc, sealer, plain, nonce + 2 * below, &digests, out)
}

/// Returns the nonces at which the subtrees of two children begin: first that of the child on the leaf's path, and then the other's.
fn child_nonces(goes_left: bool, left: u64, right: u64) -> (u64, u64)
    ensures on { result.0 ≡ (if goes_left then left else right) }
    ensures off { result.1 ≡ (if goes_left then right else left) }
{
    if goes_left {
        return (left, right);
    }
    (right, left)
}

/// Writes into the first record the digests of its children's records. The second record is that of the child on the path, the left one if
/// `goes_left`; `other` is the digest of the other child's record.
fn link(records: &mut [u8], record_len: usize, goes_left: bool, other: &[u8; DIGEST_LEN])
    requires digests { 64 ≤ record_len }
    requires two { 2 * record_len ≤ length records.old }
    ensures { records.new ≡ linked record_len goes_left other.now records.old }
{
    let next = node_digest(&records[record_len..2 * record_len]);
    let digests = in_order(goes_left, &next, other);
    records[record_len - DIGESTS_LEN..record_len].copy_from_slice(&digests);
}

/// Appends the records of a leaf's path in a subtree of this height, whose nonces begin at `nonce`, top first. Makes each record of the
/// subtree once, and hashes each but the top one once. Those off the path it makes in `scratch`, whose bytes don't count. If memory runs
/// out, `path` may have some more bytes behind those that it had.
pub(crate) fn append_subtree_path<S: Sealer>(
    alloc: Global,
    sealer: &S,
    plain: &[u8],
    height: u8,
    nonce: u64,
    leaf: u32,
    scratch: &mut Vec<u8>,
    path: &mut Vec<u8>,
) -> Result<(), AllocError>
    requires height { height ≤ 24 }
    requires nonces { nonce + node_count height ≤ 2 ^ 64 }
    ensures ok { let seal = λ (n : ℕ). (S.cipher sealer.now).sealing n plain.now in
        OnOk result (path.new.items ≡ path.old.items ++ subtree_path seal height nonce leaf) }
    ensures err { OnErr result (IsExtended path.old.items path.new.items) }
{
    if height == 0 {
        return append_record(alloc, sealer, plain, nonce, &NO_DIGESTS, path);
    }
    let below = node_count(height - 1);
    let goes_left = (leaf >> (height - 1)) % 2 == 0;
    let (on_path, off_path) = child_nonces(goes_left, nonce, nonce + below);
    let start = path.len();
    append_record(alloc, sealer, plain, nonce + 2 * below, &NO_DIGESTS, path)?;
    let record_len = path.len() - start;
    append_subtree_path(
        alloc,
        sealer,
        plain,
        height - 1,
        on_path,
        leaf,
        scratch,
        path,
    )?;
    let other = subtree_digest(alloc, sealer, plain, height - 1, off_path, scratch)?;
    link(&mut path[start..], record_len, goes_left, &other);
    Ok(())
}
