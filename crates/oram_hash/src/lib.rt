//! The hash tree over a device's records: checks a path against the root digest, and links the records that replace it.
//!
//! A record is a sealed bucket, then the digests of the left child and of the right child; at a leaf both digests are
//! zeros. A node's digest is the SHA-256 (FIPS 180-4) of its record. So the root digest, which the client keeps, commits
//! to every record of the tree (Path ORAM, CCS 2013, on integrity).
#![tactic(auto)]

ghost use Rattle.std.specs.Prelude.{◌≡◌};
ghost use Rattle.sha2.specs.Sha256.{sha256};

mod path_rebuild;
mod view;

pub use path_rebuild::rebuild;
use sha2::{Digest, Sha256};
pub use view::{PathView, check_path};

/// The number of bytes of a digest.
pub const DIGEST_LEN: usize = 32;

/// The number of bytes of the two digests that end a record.
const DIGESTS_LEN: usize = 2 * DIGEST_LEN;

/// The zeros that a leaf's record has in place of a child's digest.
pub const NO_DIGEST: [u8; DIGEST_LEN] = [0; DIGEST_LEN];

/// Why bytes aren't the path that belongs to a root digest.
#[derive(Clone, Copy, PartialEq, Eq, Debug)]
pub enum HashFault {
    /// The number of bytes isn't that of the path's records.
    Length,
    /// The record at this level doesn't have its expected digest. All records nearer the root have theirs.
    Tampered(u8),
}

/// Returns the digest of a record.
pub fn node_digest(bytes: &[u8]) -> [u8; DIGEST_LEN]
    ensures { result ≡ sha256 bytes.now }
{
    Sha256::digest(bytes)
}
