//! The client's part of one tree: the stash and the digest of the root's record.
//!
//! An access reads the path of a block's leaf into the stash, gives the block a new leaf, reads or changes its data,
//! and moves blocks back to the path (Path ORAM, CCS 2013, section 3). It makes the records that are to replace the
//! path's. The layer above sends them, and knows the leaf of each block.
#![tactic(auto)]

ghost use Rattle.std.specs.Prelude.{◌≡◌, ◌≢◌, ◌⊎◌, ◌↔◌, ◌+◌, ◌^◌, ◌<◌, ◌≤◌, ℕ, List, [], ◌++◌, Err, IsOk, IfOk, OnOk, OnErr, IfErr, MatchResult, All, length};
ghost use Rattle.oram_geometry.specs.Sizes.{trees_of, blocks_in, depth_of};
ghost use Rattle.oram_hash.specs.Path.{path_of, with_bytes, HasLength, IsAccepted, IsTamperedAt};
ghost use Rattle.oram_hash.specs.Tree.{Collides, IsPathOf, IsStored};
ghost use Rattle.oram_hash.specs.Verdict.{IsFaultOf};
ghost use Rattle.oram_bucket.specs.Bucket.{IsBlockOf};
ghost use Rattle.oram_bucket.specs.SealedBlocks.{Reads};
ghost use Rattle.oram_tree.specs.Content.{Map, node_count};
ghost use Rattle.oram_tree.specs.State.{IsStoredWith};
ghost use Rattle.oram_tree.specs.Edits.{edited_block, IsEditOf};
ghost use Rattle.oram_tree.specs.Access.{IsAtOrAbsent, IsNear, IsReadable, IsLookup, IsRewritten, IsUpdate};
ghost use Rattle.oram_tree.specs.Format.{PutsAll, IsFormat, IsBegun, IsBrokenOff};

mod edits;
mod faults;
mod parts;
mod path_blocks;
mod path_rewrite;
mod tree_format;

pub use edits::Edit;
pub use faults::{FormatFault, PartsFault, TreeFault};
use oram_bucket::Sealer;
use oram_geometry::Device;
use oram_hash::{DIGEST_LEN, HashFault, PathView, check_path};
use oram_stash::Stash;
use oram_wire::{Sink, SinkFault};
pub use parts::{TreeParts, parts_make_their_tree};
use path_rewrite::rewrite;
pub use path_rewrite::{Access, AccessRequest, Lookup};
use std::alloc::Global;
use std::marker::Model;
use tree_format::format_tree;

/// A tree as its client knows it: its number, the digest of its root's record, and its stash.
#[derive(Debug, Drop)]
pub struct Tree {
    number: u8,
    root: [u8; DIGEST_LEN],
    stash: Stash,
}

impl Model for Tree {
    ghost use Rattle.oram_tree.specs.State.{State};

    ghost Value = { State };

    ghost view = { λ t. record { number = t.number; root = t.root; stash = t.stash } };
}

impl Tree {
    /// Formats a tree of empty buckets by messages to a sink: the tree's SHAPE, and then the PUTs of its nodes'
    /// records in post order (the left subtree, the right subtree, the root). Meanwhile it keeps one digest per level.
    pub fn format<S: Sealer, K: Sink>(
        alloc: Global,
        device: &Device,
        number: u8,
        sealer: &S,
        nonce: u64,
        sink: &mut K,
    ) -> Result<Tree, FormatFault>
        requires number { number < trees_of device.now }
        requires nonces { nonce + node_count (depth_of device.now number) ≤ 2 ^ 64 }
        ensures memory { result ≢ Err (FormatFault.Sink SinkFault.OutOfMemory) }
        ensures number { IfOk result (λ t. t.number ≡ number) }
        ensures stash { IfOk result (λ t. t.stash ≡ []) }
        ensures made { IfOk result (λ t. (bodies : List (List ℕ))
            × PutsAll K.putting sink.old bodies sink.new
            × IsFormat (S.cipher sealer.now)
            device.now nonce t bodies) }
        ensures broken_off { IfErr result (λ fault. IsBrokenOff K.putting K.refusing
            (IsBegun (S.cipher sealer.now) device.now nonce number)
            sink.old fault sink.new) }
    {
        let root = format_tree(alloc, device, number, sealer, nonce, sink)?;
        Ok(Tree {
            number,
            root,
            stash: Stash::new(alloc),
        })
    }

    /// Returns the digest of the root's record.
    pub fn root(&self) -> &[u8; DIGEST_LEN]
        ensures { result.now ≡ self.now.root }
    {
        &self.root
    }

    /// Returns the number of blocks in the stash.
    pub fn stash_len(&self) -> usize
        ensures { result ≡ length self.now.stash }
    {
        self.stash.len()
    }

    /// Takes `bytes` as the records of a path of the tree, root first, and checks them against the tree's root digest.
    ///
    /// Fails with `Length` if the number of bytes is wrong, and with `Tampered` at the first level, from the root on,
    /// whose record doesn't have its expected digest.
    pub fn check<'a>(
        &self,
        device: &Device,
        leaf: u32,
        overhead: usize,
        bytes: &'a [u8],
    ) -> Result<PathView<'a>, HashFault>
        requires number { self.now.number < trees_of device.now }
        requires leaf { leaf < 2 ^ depth_of device.now self.now.number }
        requires overhead { overhead ≤ 64 }
        ensures view { IfOk result (λ v.
            v ≡ path_of device.now self.now.number leaf overhead bytes.now) }

        ensures accepted { let p = path_of device.now self.now.number leaf overhead bytes.now in
            IsOk result ↔ IsAccepted p self.now.root }
        ensures length { let p = path_of device.now self.now.number leaf overhead bytes.now in
            (result ≡ Err HashFault.Length) ↔ (¬ HasLength p) }
        ensures tampered { let p = path_of device.now self.now.number leaf overhead bytes.now in
            (level : ℕ) → (result ≡ Err (HashFault.Tampered level)) ↔ IsTamperedAt p self.now.root level }

        // The verdict compared with the records of any stored tree that has this root digest.
        ensures judged { let p = path_of device.now self.now.number leaf overhead bytes.now in
            (records : ℕ → List ℕ) → IsStored p.depth p.record_len self.now.root records
            → MatchResult result (λ _. IsPathOf records p) (IsFaultOf records p) ⊎ Collides records p }
    {
        check_path(device, self.number, leaf, overhead, &self.root, bytes)
    }

    /// Reads, changes or makes the block `address`, gives it `new_leaf`, and evicts blocks to the path of `old_leaf`.
    /// `path` is what `check` returned for `old_leaf`. On a failure, the tree is unchanged.
    pub fn access<S: Sealer>(
        &mut self,
        alloc: Global,
        device: &Device,
        sealer: &S,
        path: &PathView<'_>,
        address: u32,
        old_leaf: u32,
        new_leaf: u32,
        nonce: u64,
        edit: Edit<'_>,
    ) -> Result<Access, TreeFault>
        requires number { self.old.number < trees_of device.now }
        requires path { path.now ≡ path_of device.now self.old.number old_leaf
            (S.cipher sealer.now).overhead path.now.bytes }
        requires address { address < blocks_in device.now self.old.number }
        requires old_leaf { old_leaf < 2 ^ depth_of device.now self.old.number }
        requires new_leaf { new_leaf < 2 ^ depth_of device.now self.old.number }
        requires nonces { nonce + depth_of device.now self.old.number < 2 ^ 64 }
        requires edit { IsEditOf device.now self.old.number edit }
        requires blocks { All (IsBlockOf device.now self.old.number) self.old.stash }

        ensures err { OnErr result (self.new ≡ self.old) }
        ensures number { self.new.number ≡ self.old.number }
        ensures blocks { All (IsBlockOf device.now self.old.number) self.new.stash }

        // It reads each readable path, unless memory runs out, and fails on any other.
        ensures unreadable { let reads = Reads (S.cipher sealer.now).opening device.now self.old.number in
            result ≡ Err TreeFault.Unreadable → ¬ IsReadable reads path.now self.old.stash }
        ensures readable { let reads = Reads (S.cipher sealer.now).opening device.now self.old.number in
            OnOk result (IsReadable reads path.now self.old.stash) }

        ensures lookup { let reads = Reads (S.cipher sealer.now).opening device.now self.old.number in
            IfOk result (λ a. IsLookup (IsNear reads path.now self.old.stash)
            device.now.block_bytes address a.found a.before.items) }
        ensures data_len { IfOk result (λ a. length a.before.items ≡ device.now.block_bytes) }

        // The new buckets and the new stash are the outcome of an eviction; the buckets are sealed under rising nonces.
        ensures whole { IfOk result (λ a. HasLength (with_bytes path.now a.records.items)) }
        ensures written { IfOk result (λ a.
            IsRewritten (record { device = device.now; tree = self.old.number; cipher = S.cipher sealer.now; path = path.now; nonce = nonce })
            self.old.stash (with_bytes path.now a.records.items)
            (edited_block address new_leaf edit.entry a.before.items) self.new.stash) }

        // The effect on any stored tree that has the path, and on the map that this tree and the stash hold.
        ensures updates { let cipher = S.cipher sealer.now in
            (records : ℕ → List ℕ) (content : Map)
            → IsStoredWith cipher.opening cipher.overhead device.now self.old records content
            → IsPathOf records path.now → IsAtOrAbsent content address old_leaf
            → MatchResult result (λ a. IsUpdate (record {
              device = device.now;
              cipher = cipher;
              path = path.now;
              written = with_bytes path.now a.records.items;
              records = records;
              content = content;
              block = edited_block address new_leaf edit.entry a.before.items;
              found = a.found;
              before = a.before.items;
              after = self.new;
            }))
            (λ f. f ≡ TreeFault.OutOfMemory) }
    {
        let request = AccessRequest {
            address,
            old_leaf,
            new_leaf,
            nonce,
        };
        let mut records = Vec::new(alloc);
        let Lookup { before, found } = self.access_to(
            alloc,
            device,
            sealer,
            path,
            request,
            edit,
            &mut records,
        )?;
        Ok(Access {
            before,
            found,
            records,
        })
    }

    /// Does the same as `access`, but appends the new records to `out`. On a failure, `out` is unchanged as well.
    pub fn access_to<S: Sealer>(
        &mut self,
        alloc: Global,
        device: &Device,
        sealer: &S,
        path: &PathView<'_>,
        request: AccessRequest,
        edit: Edit<'_>,
        out: &mut Vec<u8>,
    ) -> Result<Lookup, TreeFault>
        requires number { self.old.number < trees_of device.now }
        requires path { path.now ≡ path_of device.now self.old.number request.old_leaf
            (S.cipher sealer.now).overhead path.now.bytes }
        requires address { request.address < blocks_in device.now self.old.number }
        requires old_leaf { request.old_leaf < 2 ^ depth_of device.now self.old.number }
        requires new_leaf { request.new_leaf < 2 ^ depth_of device.now self.old.number }
        requires nonces { request.nonce + depth_of device.now self.old.number < 2 ^ 64 }
        requires edit { IsEditOf device.now self.old.number edit }
        requires blocks { All (IsBlockOf device.now self.old.number) self.old.stash }

        ensures err { OnErr result (self.new ≡ self.old) }
        ensures out_err { OnErr result (out.new.items ≡ out.old.items) }
        ensures number { self.new.number ≡ self.old.number }
        ensures blocks { All (IsBlockOf device.now self.old.number) self.new.stash }

        // It reads each readable path, unless memory runs out, and fails on any other.
        ensures unreadable { let reads = Reads (S.cipher sealer.now).opening device.now self.old.number in
            result ≡ Err TreeFault.Unreadable → ¬ IsReadable reads path.now self.old.stash }
        ensures readable { let reads = Reads (S.cipher sealer.now).opening device.now self.old.number in
            OnOk result (IsReadable reads path.now self.old.stash) }

        ensures lookup { let reads = Reads (S.cipher sealer.now).opening device.now self.old.number in
            IfOk result (λ a. IsLookup (IsNear reads path.now self.old.stash)
            device.now.block_bytes request.address a.found a.before.items) }
        ensures data_len { IfOk result (λ a. length a.before.items ≡ device.now.block_bytes) }

        // The records that `out` gained: the new buckets and the new stash are the outcome of an eviction; the buckets
        // are sealed under rising nonces.
        ensures appends { OnOk result ((gained : List ℕ) × (out.new.items ≡ out.old.items ++ gained)) }
        ensures whole { OnOk result ((gained : List ℕ) → out.new.items ≡ out.old.items ++ gained
            → HasLength (with_bytes path.now gained)) }
        ensures written { IfOk result (λ a. (gained : List ℕ) → out.new.items ≡ out.old.items ++ gained
            → IsRewritten (record { device = device.now; tree = self.old.number; cipher = S.cipher sealer.now; path = path.now; nonce = request.nonce })
            self.old.stash (with_bytes path.now gained)
            (edited_block request.address request.new_leaf edit.entry a.before.items) self.new.stash) }

        // The effect on any stored tree that has the path, and on the map that this tree and the stash hold.
        ensures updates { let cipher = S.cipher sealer.now in
            (records : ℕ → List ℕ) (content : Map)
            → IsStoredWith cipher.opening cipher.overhead device.now self.old records content
            → IsPathOf records path.now → IsAtOrAbsent content request.address request.old_leaf
            → MatchResult result (λ a. (gained : List ℕ) → out.new.items ≡ out.old.items ++ gained
            → IsUpdate (record {
              device = device.now;
              cipher = cipher;
              path = path.now;
              written = with_bytes path.now gained;
              records = records;
              content = content;
              block = edited_block request.address request.new_leaf edit.entry a.before.items;
              found = a.found;
              before = a.before.items;
              after = self.new;
            }))
            (λ f. f ≡ TreeFault.OutOfMemory) }
    {
        prove!(self.number < device.trees());
        let (lookup, root) = rewrite(
            alloc,
            device,
            self.number,
            sealer,
            path,
            &mut self.stash,
            request,
            edit,
            out,
        )?;
        self.root = root;
        Ok(lookup)
    }
}
