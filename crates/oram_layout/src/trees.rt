//! A tree of a bucket file: its shape, and where its cells are.
ghost use Rattle.std.specs.Prelude.{◌≡◌, ◌<◌, ◌≤◌, ◌+◌, ◌-◌, ◌*◌, ◌/◌, ◌^◌, ◌∷◌, ◌++◌, MatchOption, Some};

use crate::shapes::Shape;
use oram_redo::check_of;

/// The offset in the file by which the cells of all trees must end. Operating systems allow no longer files.
pub const CELLS_END: u64 = 1 << 62;

/// The offset at which the first tree's cells begin.
pub const CELLS_AT: u64 = 8192;

/// The length of an entry of the header, in bytes.
pub const ENTRY_LEN: usize = 16;

/// A tree of a bucket file.
#[derive(Clone, Copy, Debug, PartialEq, Eq)]
pub struct Tree {
    pub shape: Shape,
    /// The offset of the tree's first cell.
    pub base: u64,
    ghost within: { base + (2 ^ (shape.depth + 1) - 1) * (2 * ((shape.record_len + 2) / 2)) ≤ 2 ^ 62 },
}

impl Tree {
    ghost use Rattle.oram_layout.specs.Header.{entry_bytes, four_bytes};
    ghost use Rattle.oram_pair.specs.Fronts.{eight_bytes};
    ghost use Rattle.oram_layout.specs.Limits.{cell_len, cells_len, nodes_of};
    ghost use Rattle.oram_layout.specs.Trees.{cell_at, end_of, sizes_of};

    /// Returns a tree whose cells begin at `base`, or `None` if they would end after [`CELLS_END`].
    pub fn place(shape: Shape, base: u64) -> Option<Tree>
        ensures { MatchOption result (CELLS_END < base + cells_len (sizes_of shape)) (λ tree. (tree.shape ≡ shape) × (tree.base ≡ base)) }
    {
        let len = u64::from(shape.nodes()) * cell_len_of(shape.record_len);
        if base > CELLS_END || len > CELLS_END - base {
            return None;
        }
        Some(Tree { shape, base })
    }

    /// Returns the number of bytes of a cell of the tree.
    pub fn cell_len(&self) -> usize
        ensures { result ≡ cell_len self.now.shape.record_len }
    {
        cell_len_of(self.shape.record_len) as usize
    }

    /// Returns the offset of a node's cell. The cell of the next node comes right after it.
    pub fn cell_at(&self, node: u32) -> u64
        requires { node < nodes_of (sizes_of self.now.shape) }
        ensures place { result ≡ cell_at self.now node }
        ensures within { result + cell_len self.now.shape.record_len ≤ CELLS_END }
    {
        self.base + u64::from(node) * cell_len_of(self.shape.record_len)
    }

    /// Returns the offset at which the tree's cells end.
    pub fn end(&self) -> u64
        ensures place { result ≡ end_of self.now }
        ensures within { result ≤ CELLS_END }
    {
        self.base + u64::from(self.shape.nodes()) * cell_len_of(self.shape.record_len)
    }

    // Returns what the tree's entry says: the depth, the length of a record, and the place of the first cell.
    fn said(&self) -> [u8; 13]
        ensures { result ≡ self.now.shape.depth ∷ (four_bytes self.now.shape.record_len ++ eight_bytes self.now.base) }
    {
        let len = self.shape.record_len.to_le_bytes();
        let base = self.base.to_le_bytes();
        [
            self.shape.depth,
            len[0],
            len[1],
            len[2],
            len[3],
            base[0],
            base[1],
            base[2],
            base[3],
            base[4],
            base[5],
            base[6],
            base[7],
        ]
    }

    /// Returns the tree's entry in the header.
    pub fn entry(&self) -> [u8; 16]
        ensures { result ≡ entry_bytes (Some self.now) }
    {
        let said = self.said();
        let check = check_of(&said);
        [
            1, said[0], check[0], check[1], said[1], said[2], said[3], said[4], said[5], said[6],
            said[7], said[8], said[9], said[10], said[11], said[12],
        ]
    }
}

// Returns the length of the cell for a record of `record_len` bytes, an even number.
fn cell_len_of(record_len: u32) -> u64
    ensures { result ≡ 2 * ((record_len + 2) / 2) }
{
    (u64::from(record_len) + 2) / 2 * 2
}
