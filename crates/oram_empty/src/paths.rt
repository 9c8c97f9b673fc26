//! Makes the paths of a formatting.
ghost use Rattle.std.specs.Prelude.{◌≡◌, ◌+◌, ◌-◌, ◌*◌, ◌^◌, ◌<◌, ◌≤◌, ◌++◌, [], length, OnOk, OnErr};
ghost use Rattle.oram_geometry.specs.Sizes.{trees_of, depth_of, record_len_of};
ghost use Rattle.oram_bucket.specs.Bucket.{spelling};
ghost use Rattle.oram_empty.specs.EmptyRecords.{IsExtended, IsLonger, empty_path, empty_record};
ghost use Rattle.oram_empty.specs.KeptDigests.{AreOfFormatting, made_path, made_record, upper_record};

use crate::digests::{EmptyDigests, LOW_LEVELS};
use crate::nonces::{begins_at, node_count};
use crate::records::{append_record, append_root_record, append_subtree_path};
use oram_bucket::{Block, Sealer, encode_bucket};
use std::alloc::{AllocError, Global};

impl<'a> EmptyDigests<'a> {
    /// Appends the record of the node at `level` of a leaf's path, which is an upper node. `plain` is the empty bucket. If memory runs out,
    /// `path` may have some more bytes behind those that it had.
    fn append_upper<S: Sealer>(
        &self,
        alloc: Global,
        sealer: &S,
        plain: &[u8],
        tree: u8,
        leaf: u32,
        level: u8,
        path: &mut Vec<u8>,
    ) -> Result<(), AllocError>
        requires plain { plain.now ≡ spelling self.now.device [] }
        requires tree { tree < trees_of self.now.device }
        requires leaf { leaf < 2 ^ depth_of self.now.device tree }
        requires level { level + 3 < depth_of self.now.device tree }
        ensures ok { OnOk result (path.new.items ≡ path.old.items
            ++ upper_record (S.cipher sealer.now) self.now tree leaf level) }
        ensures len { OnOk result (length (upper_record (S.cipher sealer.now) self.now tree leaf level)
            ≡ record_len_of self.now.device (S.cipher sealer.now).overhead) }
        ensures err { OnErr result (IsExtended path.old.items path.new.items) }
    {
        let device = self.device();
        let below = node_count(device.depth(tree) - (level + 1));
        let nonce = begins_at(device, tree, leaf, level) + 2 * below;
        let digests = self.children(tree, device.node_on(tree, leaf, level));
        append_record(alloc, sealer, plain, nonce, digests, path)
    }

    /// Appends the records of a leaf's path from `first` on. If memory runs out, `path` may have some more bytes behind those that it had.
    fn append_records<S: Sealer>(
        &self,
        alloc: Global,
        sealer: &S,
        tree: u8,
        leaf: u32,
        first: u8,
        path: &mut Vec<u8>,
    ) -> Result<(), AllocError>
        requires tree { tree < trees_of self.now.device }
        requires leaf { leaf < 2 ^ depth_of self.now.device tree }
        requires first { first ≤ depth_of self.now.device tree }
        ensures made { OnOk result (path.new.items ≡ path.old.items ++ made_path (S.cipher sealer.now) self.now tree leaf first) }
        ensures len { let count = depth_of self.now.device tree + 1 - first in
            OnOk result (IsLonger (count * record_len_of self.now.device (S.cipher sealer.now).overhead) path.old.items path.new.items) }
        ensures err { OnErr result (IsExtended path.old.items path.new.items) }
    {
        let no_blocks: [Block; 0] = [];
        let plain = encode_bucket(alloc, self.device(), tree, &no_blocks)?;
        let depth = self.device().depth(tree);
        let record_len = self.device().record_len(sealer.overhead());
        path.reserve(usize::from(depth + 1 - first) * record_len)?;
        let low = first.max(depth.saturating_sub(LOW_LEVELS));
        for level in first..low {
            self.append_upper(alloc, sealer, &plain, tree, leaf, level, path)?;
        }
        let nonce = begins_at(self.device(), tree, leaf, low);
        let mut scratch = Vec::with_capacity(alloc, record_len)?;
        append_subtree_path(
            alloc,
            sealer,
            &plain,
            depth - low,
            nonce,
            leaf,
            &mut scratch,
            path,
        )
    }

    /// Appends the records that a client makes for a leaf's path of a tree, from level `first` down to the leaf, one behind the other. These
    /// are the records of the formatting if the digests are; `sealer` is that of the formatting.
    ///
    /// The records of upper nodes get the digests that are kept. For those below, it makes each record of one subtree once, and hashes none
    /// of them twice; this subtree has 15 nodes at most. If memory runs out, `path` is as it was.
    pub fn append_path<S: Sealer>(
        &self,
        alloc: Global,
        sealer: &S,
        tree: u8,
        leaf: u32,
        first: u8,
        path: &mut Vec<u8>,
    ) -> Result<(), AllocError>
        requires tree { tree < trees_of self.now.device }
        requires leaf { leaf < 2 ^ depth_of self.now.device tree }
        requires first { first ≤ depth_of self.now.device tree }
        // What it appends are the records that the digests give for upper nodes, and those of the formatting for the nodes below.
        ensures made { OnOk result (path.new.items ≡ path.old.items ++ made_path (S.cipher sealer.now) self.now tree leaf first) }
        // With the digests of the formatting these are all records of the formatting.
        ensures formatted { OnOk result (AreOfFormatting (S.cipher sealer.now) self.now
            → path.new.items ≡ path.old.items ++ empty_path (S.cipher sealer.now) self.now.device tree leaf first) }
        // Whatever the digests are, each of these records has the same length.
        ensures len { let count = depth_of self.now.device tree + 1 - first in
            OnOk result (IsLonger (count * record_len_of self.now.device (S.cipher sealer.now).overhead) path.old.items path.new.items) }
        ensures err { OnErr result (path.new.items ≡ path.old.items) }
    {
        let before = path.len();
        match self.append_records(alloc, sealer, tree, leaf, first, path) {
            Ok(()) => Ok(()),
            Err(fault) => {
                path.truncate(before);
                Err(fault)
            }
        }
    }

    /// Appends the record of the node at `level` of a leaf's path, which is no upper node. `plain` is the empty bucket. If memory runs out,
    /// `out` may have some more bytes behind those that it had.
    fn append_low<S: Sealer>(
        &self,
        alloc: Global,
        sealer: &S,
        plain: &[u8],
        tree: u8,
        leaf: u32,
        level: u8,
        out: &mut Vec<u8>,
    ) -> Result<(), AllocError>
        requires plain { plain.now ≡ spelling self.now.device [] }
        requires tree { tree < trees_of self.now.device }
        requires leaf { leaf < 2 ^ depth_of self.now.device tree }
        requires level { level ≤ depth_of self.now.device tree }
        ensures ok { OnOk result (out.new.items ≡ out.old.items
            ++ empty_record (S.cipher sealer.now) self.now.device tree leaf level) }
        ensures err { OnErr result (IsExtended out.old.items out.new.items) }
    {
        let device = self.device();
        let height = device.depth(tree) - level;
        let nonce = begins_at(device, tree, leaf, level);
        let mut scratch = Vec::new(alloc);
        append_root_record(alloc, sealer, plain, height, nonce, &mut scratch, out)
    }

    /// Appends the record of the node at `level` of a leaf's path. If memory runs out, `out` may have some more bytes behind those that it
    /// had.
    fn append_made<S: Sealer>(
        &self,
        alloc: Global,
        sealer: &S,
        tree: u8,
        leaf: u32,
        level: u8,
        out: &mut Vec<u8>,
    ) -> Result<(), AllocError>
        requires tree { tree < trees_of self.now.device }
        requires leaf { leaf < 2 ^ depth_of self.now.device tree }
        requires level { level ≤ depth_of self.now.device tree }
        ensures ok { OnOk result (out.new.items ≡ out.old.items ++ made_record (S.cipher sealer.now) self.now tree leaf level) }
        ensures err { OnErr result (IsExtended out.old.items out.new.items) }
    {
        let no_blocks: [Block; 0] = [];
        let plain = encode_bucket(alloc, self.device(), tree, &no_blocks)?;
        if level < self.device().depth(tree).saturating_sub(LOW_LEVELS) {
            return self.append_upper(alloc, sealer, &plain, tree, leaf, level, out);
        }
        self.append_low(alloc, sealer, &plain, tree, leaf, level, out)
    }

    /// Appends the record that a client makes for the node at `level` of a leaf's path of a tree. It is that of the formatting if the digests
    /// are; `sealer` is that of the formatting.
    ///
    /// The record of an upper node gets the digests that are kept. For a node below it makes each record of the node's subtree once, which has
    /// 15 nodes at most. If memory runs out, `out` is as it was.
    pub fn append_record<S: Sealer>(
        &self,
        alloc: Global,
        sealer: &S,
        tree: u8,
        leaf: u32,
        level: u8,
        out: &mut Vec<u8>,
    ) -> Result<(), AllocError>
        requires tree { tree < trees_of self.now.device }
        requires leaf { leaf < 2 ^ depth_of self.now.device tree }
        requires level { level ≤ depth_of self.now.device tree }
        ensures made { OnOk result (out.new.items ≡ out.old.items ++ made_record (S.cipher sealer.now) self.now tree leaf level) }
        ensures err { OnErr result (out.new.items ≡ out.old.items) }
    {
        let before = out.len();
        match self.append_made(alloc, sealer, tree, leaf, level, out) {
            Ok(()) => Ok(()),
            Err(fault) => {
                out.truncate(before);
                Err(fault)
            }
        }
    }
}
