//! How the pairs of one kind are laid out.

use oram_redo::Bounds;

/// What each of the two files begins with: eight bytes that name its kind, and a version in eight bytes, the low byte first.
#[derive(Clone, Copy, Debug, PartialEq, Eq)]
pub struct PairLetters {
    pub records: [u8; 16],
    pub log: [u8; 16],
}

/// How the pairs of one kind are laid out.
#[derive(Clone, Copy, Debug, PartialEq, Eq)]
pub struct PairFormat {
    pub letters: PairLetters,
    /// Where the log's entries and the records stand in their files. Both begin behind the front, at byte 4,096 or later.
    pub bounds: Bounds,
}
