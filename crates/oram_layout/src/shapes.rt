//! The shape of a tree.
ghost use Rattle.std.specs.Prelude.{◌≤◌, ◌<◌, ◌+◌, ◌-◌, ◌*◌, ◌^◌, ◌≡◌, true, false, MatchOption};
ghost use Rattle.oram_host.specs.ImageReader.{is_shape};
ghost use Rattle.oram_host.specs.Path.{node_on};

use oram_wire::{HEADER_LEN, LONGEST_BODY};

/// The greatest depth of a tree that a host keeps.
const DEEPEST: u8 = 24;

/// The depth of a tree, and the length of each of its records in bytes.
#[derive(Clone, Copy, Debug, PartialEq, Eq)]
pub struct Shape {
    pub depth: u8,
    pub record_len: u32,
    ghost deep: { depth ≤ 24 },
    ghost filled: { 0 < record_len },
    ghost fits: { (depth + 1) * record_len + 6 ≤ 1_048_576 },
}

impl Shape {
    ghost use Rattle.oram_layout.specs.Limits.{levels_from};
    ghost use Rattle.oram_layout.specs.Trees.{sizes_of};

    /// Returns a shape, or `None` if no tree may have it. A STORE of one of a tree's paths has to
    /// fit in a frame.
    pub fn new(depth: u8, record_len: u32) -> Option<Shape>
        ensures { MatchOption result (is_shape depth record_len ≡ false) (λ s. (is_shape depth record_len ≡ true) × (s.depth ≡ depth) × (s.record_len ≡ record_len)) }
    {
        if depth > DEEPEST || record_len == 0 {
            return None;
        }
        if (depth as usize + 1) * record_len as usize + HEADER_LEN > LONGEST_BODY {
            return None;
        }
        Some(Shape { depth, record_len })
    }

    /// Returns the number of leaves of a tree.
    pub fn leaves(&self) -> u32
        ensures { result ≡ 2 ^ self.now.depth }
    {
        1 << self.depth
    }

    /// Returns the number of nodes of a tree.
    pub fn nodes(&self) -> u32
        ensures { result ≡ 2 ^ (self.now.depth + 1) - 1 }
    {
        (1 << (self.depth + 1)) - 1
    }

    /// Returns the number of bytes of the records of a path.
    pub fn path_len(&self) -> usize
        ensures { result ≡ (self.now.depth + 1) * self.now.record_len }
    {
        (self.depth as usize + 1) * self.record_len as usize
    }

    /// Returns how many levels a path has from level `first` on.
    pub fn levels_from(&self, first: u8) -> u8
        requires { first ≤ self.now.depth }
        ensures { result ≡ levels_from (sizes_of self.now) first }
    {
        self.depth + 1 - first
    }

    /// Returns the node at a level of a leaf's path.
    pub fn node_at(&self, leaf: u32, level: u8) -> u32
        requires leaf { leaf < 2 ^ self.now.depth }
        requires level { level ≤ self.now.depth }
        ensures place { result ≡ node_on self.now.depth leaf level }
        ensures within { result < 2 ^ (self.now.depth + 1) - 1 }
    {
        (1 << level) - 1 + (leaf >> (self.depth - level))
    }
}
