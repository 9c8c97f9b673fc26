//! The tag of a message.
ghost use Rattle.std.specs.Prelude.{◌≡◌, ◌≤◌, ◌++◌, length, map, bit_xor};
ghost use Rattle.sha2.specs.Sha256.{sha256};
ghost use Rattle.oram_hmac.specs.Hmac.{hmac, key_block, padded};

use sha2::{Digest, Sha256};

/// The number of bytes of a tag.
pub const TAG_LEN: usize = 32;

/// The number of bytes that SHA-256 takes at a time.
const BLOCK_LEN: usize = 64;

/// The byte that is XORed with those of the key for the inner digest.
const INNER: u8 = 0x36;

/// The byte that is XORed with those of the key for the outer digest.
const OUTER: u8 = 0x5c;

/// Returns a key with zeros behind it, in as many bytes as a block has.
fn padded(key: &[u8]) -> [u8; BLOCK_LEN]
    requires { length key.now ≤ BLOCK_LEN }
    ensures { result ≡ padded key.now }
{
    let mut block = [0; BLOCK_LEN];
    block[..key.len()].copy_from_slice(key);
    block
}

/// Returns the key as a block. The digest of a key that is longer than a block takes its place.
fn key_block(key: &[u8]) -> [u8; BLOCK_LEN]
    ensures { result ≡ key_block key.now }
{
    if key.len() <= BLOCK_LEN {
        padded(key)
    } else {
        padded(&Sha256::digest(key))
    }
}

/// Returns the bytes of a block, each XORed with `byte`.
fn xored(block: &[u8; BLOCK_LEN], byte: u8) -> [u8; BLOCK_LEN]
    ensures { result ≡ map (λ b. bit_xor b byte) block.now }
{
    let mut masked = [0; BLOCK_LEN];
    for i in 0..BLOCK_LEN {
        masked[i] = block[i] ^ byte;
    }
    masked
}

/// Returns the digest of a block followed by a text.
fn digest_of(block: [u8; BLOCK_LEN], text: &[u8]) -> [u8; TAG_LEN]
    ensures { result ≡ sha256 (block ++ text.now) }
{
    let mut hasher = Sha256::new();
    hasher.update(block);
    hasher.update(text);
    hasher.finalize()
}

/// Returns the tag of a message under a key of any length. Allocates nothing.
pub fn hmac_sha256(key: &[u8], message: &[u8]) -> [u8; TAG_LEN]
    ensures { result ≡ hmac key.now message.now }
{
    let block = key_block(key);
    let inner = digest_of(xored(&block, INNER), message);
    digest_of(xored(&block, OUTER), &inner)
}
