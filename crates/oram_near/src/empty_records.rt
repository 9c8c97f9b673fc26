//! The records that a formatting makes.
ghost use Rattle.std.specs.Prelude.{◌≡◌, ◌+◌, ◌-◌, ◌^◌, ◌<◌, ◌≤◌, ◌++◌, ℕ, List, OnOk, length};
ghost use Rattle.oram_geometry.specs.declared.Sizes.{Sizes};
ghost use Rattle.oram_geometry.specs.Sizes.{depth_of, trees_of};
ghost use Rattle.oram_near.specs.EmptyRecords.{AreEmptyRecords, records_from};

use std::alloc::{AllocError, Global};

/// Makes the records of a formatting anew.
///
/// A formatting sends nothing, so the host has no record of a node that no STORE has reached. The client makes such a record itself,
/// each time the same. For that it may keep bytes that never change, behind its near records: the *rest*.
pub trait EmptyRecords {
    /// The device that was formatted.
    ghost device: { Self → Sizes };

    /// The number of bytes of a record.
    ghost record_len: { Self → ℕ };

    /// The number of bytes of the rest.
    ghost rest_len: { Self → ℕ };

    /// The record at a level of a leaf's path of a tree, as it is made with a rest: rest, tree, leaf, level.
    ghost record_at: { Self → List ℕ → ℕ → ℕ → ℕ → List ℕ };

    /// Appends the records of a leaf's path from level `first` down to the leaf, one behind the other. Fails only if memory runs out.
    fn append_path(
        &self,
        alloc: Global,
        rest: &[u8],
        tree: u8,
        leaf: u32,
        first: u8,
        path: &mut Vec<u8>,
    ) -> Result<(), AllocError>
        requires rest { length rest.now ≡ rest_len self.now }
        requires tree { tree < trees_of (device self.now) }
        requires leaf { leaf < 2 ^ depth_of (device self.now) tree }
        requires first { first ≤ depth_of (device self.now) tree }
        ensures { OnOk result (path.new.items ≡ path.old.items ++ records_from (record_at self.now rest.now tree leaf) first (depth_of (device self.now) tree + 1 - first)) };

    /// Appends the record at a level of a leaf's path. Fails only if memory runs out.
    fn append_record(
        &self,
        alloc: Global,
        rest: &[u8],
        tree: u8,
        leaf: u32,
        level: u8,
        out: &mut Vec<u8>,
    ) -> Result<(), AllocError>
        requires rest { length rest.now ≡ rest_len self.now }
        requires tree { tree < trees_of (device self.now) }
        requires leaf { leaf < 2 ^ depth_of (device self.now) tree }
        requires level { level ≤ depth_of (device self.now) tree }
        ensures { OnOk result (out.new.items ≡ out.old.items ++ record_at self.now rest.now tree leaf level) };

    // With any rest, each node has one record, whichever leaf's path it is on, and each record has the same length.
    ghost are_empty_records: { (maker : Self) (rest : List ℕ) → length rest ≡ rest_len maker → AreEmptyRecords (device maker) (record_len maker) (record_at maker rest) };
}
