//! Makes the records that replace a path.
ghost use Rattle.std.specs.Prelude.{All, map, vec_len, ◌++◌, ◌≡◌, ◌≤◌, ◌<◌, ◌+◌, ℕ, List, length, IfOk, OnOk, OnErr};
ghost use Rattle.sha2.specs.Sha256.{sha256};
ghost use Rattle.oram_hash.specs.Path.{digests_at, record_over};
ghost use Rattle.oram_hash.specs.Rebuild.{IsJoined, IsRebuilt, StandsRebuilt};

use crate::{DIGEST_LEN, PathView, node_digest};
use std::alloc::{AllocError, Global};

impl<'a> PathView<'a> {
    /// Appends to `out` the two digests that end the path's record at `level`, or zeros at the leaf's level.
    pub fn append_digests(&self, level: u8, out: &mut Vec<u8>) -> Result<(), AllocError>
        requires { level ≤ self.now.depth }
        ensures ok { OnOk result (out.new.items ≡ out.old.items ++ digests_at self.now level) }
        ensures err { OnErr result (out.new.items ≡ out.old.items) }
    {
        out.extend_from_slice(self.digests(level))
    }

    /// Links the path's new records, which are given root first: from the leaf up, writes into each record the digest of
    /// the next one. Returns the new root digest. Hashes each record once.
    pub fn relink(&self, records: &mut [u8]) -> [u8; 32]
        requires { (parts : List (List ℕ)) × IsJoined self.now parts records.old }
        ensures rebuilt { (parts : List (List ℕ)) → IsJoined self.now parts records.old
            → IsRebuilt self.now parts records.new result }
        ensures stands { StandsRebuilt self.now records.new result }
    {
        let mut digest = node_digest(&records[self.depth as usize * self.record_len..]);
        for level in (0..self.depth).rev() {
            let start = level as usize * self.record_len;
            digest = self.link(level, &digest, &mut records[start..start + self.record_len]);
        }
        digest
    }

    /// Writes `below`, the digest of the path's next record, into the record at `level`, and returns that record's
    /// digest.
    fn link(&self, level: u8, below: &[u8; 32], bytes: &mut [u8]) -> [u8; 32]
        requires level { level < self.now.depth }
        requires len { length bytes.old ≡ self.now.record_len }
        ensures linked { (part : List ℕ) → bytes.old ≡ part ++ digests_at self.now level
            → bytes.new ≡ record_over self.now level part below.now }
        ensures digest { result ≡ sha256 bytes.new }
    {
        let right_start = self.record_len - DIGEST_LEN;
        let left_start = right_start - DIGEST_LEN;
        if self.goes_left(level) {
            bytes[left_start..right_start].copy_from_slice(below);
        } else {
            bytes[right_start..].copy_from_slice(below);
        }
        node_digest(bytes)
    }
}

/// Makes the path's new records, root first, from new sealed buckets, with the siblings' digests unchanged. Also returns
/// the new root digest. Hashes each new record once and allocates once. Fails only if memory runs out.
pub fn rebuild(
    alloc: Global,
    path: &PathView<'_>,
    sealed: &[Vec<u8>],
) -> Result<(Vec<u8>, [u8; 32]), AllocError>
    requires levels { length sealed.now ≡ path.now.depth + 1 }
    requires lengths { All (λ part. vec_len part + 64 ≡ path.now.record_len) sealed.now }
    ensures rebuilt { IfOk result (λ r. IsRebuilt path.now (map (λ part. part.items) sealed.now) r.0.items r.1) }
    ensures stands { IfOk result (λ r. StandsRebuilt path.now r.0.items r.1) }
{
    let mut records = joined(alloc, path, sealed)?;
    let root = path.relink(&mut records);
    Ok((records, root))
}

/// Joins the new sealed buckets with the path's digests, without linking the records yet.
fn joined(alloc: Global, path: &PathView<'_>, sealed: &[Vec<u8>]) -> Result<Vec<u8>, AllocError>
    requires levels { length sealed.now ≡ path.now.depth + 1 }
    requires lengths { All (λ part. vec_len part + 64 ≡ path.now.record_len) sealed.now }
    ensures { IfOk result (λ v. IsJoined path.now (map (λ part. part.items) sealed.now) v.items) }
{
    let mut records = Vec::with_capacity(alloc, path.bytes.len())?;
    for level in 0..path.depth + 1 {
        records.extend_from_slice(&sealed[level as usize])?;
        path.append_digests(level, &mut records)?;
    }
    Ok(records)
}
