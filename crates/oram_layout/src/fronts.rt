//! The first bytes of a bucket file: its letters, and how those of other files are told.
ghost use Rattle.std.specs.Prelude.{◌≡◌, ◌<◌, ◌↔◌, All, IsTrue, take};
ghost use Rattle.oram_layout.specs.Fronts.{IfOurs, IsNewer, IsOlder, sqlite_letters};
ghost use Rattle.oram_layout.specs.Header.{letters};
ghost use Rattle.oram_pair.specs.Fronts.{IsFront};
ghost use Rattle.oram_pair.specs.declared.fronts.Identity.{Identity};

use oram_pair::{Identity, LETTERS_LEN, PairLetters, eight_bytes_in, identity_in};

/// The number of bytes at the beginning of a file that name its kind. A version in eight bytes comes after them.
const NAME_LEN: usize = 8;

/// The version of both files.
const VERSION: u64 = 3;

/// What a bucket file begins with, and its log.
pub const LETTERS: PairLetters = PairLetters {
    records: *b"VIDLAQEB\x03\0\0\0\0\0\0\0",
    log: *b"VIDLAQEL\x03\0\0\0\0\0\0\0",
};

const SQLITE_LETTERS: [u8; 16] = *b"SQLite format 3\0";

/// What a file is, by its first bytes.
#[derive(Clone, Copy, Debug, PartialEq, Eq)]
pub enum Front {
    /// A bucket file of this version.
    Ours(Identity),
    /// A bucket file of a later version.
    NewerVersion,
    /// A bucket file of an earlier version.
    OlderVersion,
    /// A SQLite database, in which an earlier version kept its buckets.
    Sqlite,
    /// Only zeros, or no bytes at all.
    Empty,
    /// Something else.
    Another,
}

/// Returns what a file is, by its first 32 bytes, or by all of its bytes if it has fewer.
pub fn read_front(bytes: &[u8]) -> Front
    ensures ours { IfOurs result (λ identity. IsFront letters identity bytes.now) }
    ensures read_again { (identity : Identity) → IsFront letters identity bytes.now → result ≡ Front.Ours identity }
    ensures newer { (result ≡ Front.NewerVersion) ↔ IsNewer bytes.now }
    ensures older { (result ≡ Front.OlderVersion) ↔ IsOlder bytes.now }
    ensures sqlite { (result ≡ Front.Sqlite) ↔ (take 16 bytes.now ≡ sqlite_letters) }
    ensures empty { (result ≡ Front.Empty) ↔ All (λ byte. byte ≡ 0) bytes.now }
{
    if is_blank(bytes) {
        Front::Empty
    } else if bytes.starts_with(&SQLITE_LETTERS) {
        Front::Sqlite
    } else if let Some(identity) = identity_in(&LETTERS.records, bytes) {
        Front::Ours(identity)
    } else if is_newer(bytes) {
        Front::NewerVersion
    } else if is_older(bytes) {
        Front::OlderVersion
    } else {
        Front::Another
    }
}

fn is_newer(bytes: &[u8]) -> bool
    ensures { IsTrue result ↔ IsNewer bytes.now }
{
    if bytes.len() < LETTERS_LEN || !bytes.starts_with(&LETTERS.records[..NAME_LEN]) {
        return false;
    }
    eight_bytes_in(&bytes[NAME_LEN..LETTERS_LEN]) > VERSION
}

fn is_older(bytes: &[u8]) -> bool
    ensures { IsTrue result ↔ IsOlder bytes.now }
{
    if bytes.len() < LETTERS_LEN || !bytes.starts_with(&LETTERS.records[..NAME_LEN]) {
        return false;
    }
    eight_bytes_in(&bytes[NAME_LEN..LETTERS_LEN]) < VERSION
}

/// Returns whether each byte is 0.
pub fn is_blank(bytes: &[u8]) -> bool
    ensures { IsTrue result ↔ All (λ byte. byte ≡ 0) bytes.now }
{
    bytes.iter().all(|byte| *byte == 0)
}
