//! Laws about tags.
ghost use Rattle.oram_hmac.specs.Laws.{KeysHaveTagsOfTheirOwn, MessagesHaveTagsOfTheirOwn, TagExample};

/// A law about definitions: two messages that differ have different tags under one key, or two texts with one SHA-256 digest are known.
pub fn messages_have_tags_of_their_own()
    ensures { MessagesHaveTagsOfTheirOwn }
{}

/// A law about definitions: under two keys that differ, of at most 64 bytes and of one length, any two messages have different tags, or
/// two texts with one SHA-256 digest are known.
pub fn keys_have_tags_of_their_own()
    ensures { KeysHaveTagsOfTheirOwn }
{}

/// An example for both laws.
pub fn tag_example()
    ensures { TagExample }
{}
