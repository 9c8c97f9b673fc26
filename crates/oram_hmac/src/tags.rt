//! Whether a tag is that of a message.
ghost use Rattle.std.specs.Prelude.{◌≡◌, ◌≢◌, MatchBool};
ghost use Rattle.oram_hmac.specs.Hmac.{hmac};

use crate::mac::{TAG_LEN, hmac_sha256};

/// Returns whether both tags are the same. It looks at all of their bytes, whatever they are, so the time that it takes doesn't tell
/// where they first differ.
fn are_same(one: &[u8; TAG_LEN], other: &[u8; TAG_LEN]) -> bool
    ensures { MatchBool result (one.now ≡ other.now) (one.now ≢ other.now) }
{
    let mut difference = 0;
    for i in 0..TAG_LEN {
        difference |= one[i] ^ other[i];
    }
    difference == 0
}

/// Returns whether `tag` is the tag of a message under a key. It looks at all of the tag's bytes.
pub fn is_tag_of(tag: &[u8; TAG_LEN], key: &[u8], message: &[u8]) -> bool
    ensures { MatchBool result (tag.now ≡ hmac key.now message.now) (tag.now ≢ hmac key.now message.now) }
{
    are_same(tag, &hmac_sha256(key, message))
}
