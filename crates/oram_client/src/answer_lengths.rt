//! How long the answers of a disk's host are.
ghost use Rattle.std.specs.Prelude.{◌≡◌, ◌<◌, ◌≤◌};
ghost use Rattle.oram_geometry.specs.Sizes.{trees_of};
ghost use Rattle.oram_client.specs.AnswerLengths.{longest_answer, longest_to_fetch, longest_to_levels, longest_to_records, path_answer_len, rows_answer_len};

use crate::identity::{IDENTITY_TREE, STAMP_TREE};
use oram_bucket::Sealer;
use oram_core::Core;
use oram_geometry::Device;
use oram_records::RecordsRequest;
use oram_wire::LONGEST_BODY;
use std::marker::Model;

/// The length of the answer with a disk's identity.
pub(crate) const IDENTITY_ANSWER: usize = 33;

/// The length of the answer with the host's stamps.
const STAMPS_ANSWER: usize = 97;

/// The length of a refusal.
pub(crate) const REFUSAL: usize = 2;

/// The first byte of a FETCH.
const FETCH: u8 = 1;

/// The first byte of a FETCH of levels.
const FETCH_LEVELS: u8 = 6;

/// Returns the length of an answer with a path of a tree.
pub(crate) fn path_answer_len(device: &Device, overhead: usize, tree: u8) -> usize
    requires tree { tree < trees_of device.now }
    requires overhead { overhead ≤ 64 }
    ensures value { result ≡ path_answer_len device.now overhead tree }
    ensures fits { result ≤ LONGEST_BODY }
{
    let levels = usize::from(device.depth(tree)) + 1;
    1 + levels * device.record_len(overhead)
}

/// How long the answers of a disk's host are.
#[derive(Debug, Drop)]
pub struct AnswerLengths {
    device: Device,
    overhead: usize,
}

impl Model for AnswerLengths {
    ghost use Rattle.std.specs.Prelude.{◌≤◌};
    ghost use Rattle.oram_client.specs.AnswerLengths.{DiskSizes};

    ghost Value = { DiskSizes };

    ghost view = { λ l. record { device = l.device; overhead = l.overhead } };

    ghost invariant = { λ l. l.overhead ≤ 64 };
}

impl AnswerLengths {
    /// Returns how long the answers of the host of a disk are. The disk's sealer adds `overhead` bytes to a bucket.
    pub fn new(device: Device, overhead: usize) -> AnswerLengths
        requires { overhead ≤ 64 }
        ensures { result ≡ record { device = device; overhead = overhead } }
    {
        AnswerLengths { device, overhead }
    }

    /// Returns how long the answers of the host of a core's disk are.
    pub fn of<S: Sealer>(core: &Core<S>) -> AnswerLengths
        ensures { result ≡ record { device = core.now.device; overhead = (S.cipher core.now.sealer).overhead } }
    {
        AnswerLengths::new(core.device().copy(), core.overhead())
    }

    /// Returns a copy.
    pub(crate) fn copy(&self) -> AnswerLengths
        ensures { result ≡ self.now }
    {
        AnswerLengths {
            device: self.device.copy(),
            overhead: self.overhead,
        }
    }

    /// Returns the length of the longest answer to a FETCH of a path of a tree.
    fn longest_to_fetch(&self, tree: u8) -> usize
        ensures value { result ≡ longest_to_fetch self.now tree }
        ensures fits { result ≤ LONGEST_BODY }
    {
        match tree {
            _ if tree < self.device.trees() => path_answer_len(&self.device, self.overhead, tree),
            IDENTITY_TREE => IDENTITY_ANSWER,
            STAMP_TREE => STAMPS_ANSWER,
            _ => REFUSAL,
        }
    }

    /// Returns the length of the longest answer to a FETCH of levels of a tree: that with all levels of a path, and a byte that counts them.
    fn longest_to_levels(&self, tree: u8) -> usize
        ensures value { result ≡ longest_to_levels self.now tree }
        ensures fits { result ≤ LONGEST_BODY }
    {
        if tree < self.device.trees() {
            (1 + path_answer_len(&self.device, self.overhead, tree)).min(LONGEST_BODY)
        } else {
            REFUSAL
        }
    }

    /// Returns the length of an answer with the rows of `count` nodes, if all have a record.
    fn rows_answer_len(&self, count: u32) -> usize
        ensures { result ≡ rows_answer_len self.now count }
    {
        1 + count as usize * (1 + self.device.record_len(self.overhead))
    }

    /// Returns the length of the longest answer to a RECORDS for `count` nodes of a tree.
    fn longest_to_records(&self, tree: u8, count: u32) -> usize
        ensures value { result ≡ longest_to_records self.now tree count }
        ensures fits { result ≤ LONGEST_BODY }
    {
        if tree < self.device.trees() {
            self.rows_answer_len(count).min(LONGEST_BODY).max(REFUSAL)
        } else {
            REFUSAL
        }
    }

    /// Returns the length of the longest answer to a message.
    pub fn longest(&self, message: &[u8]) -> usize
        ensures value { result ≡ longest_answer self.now message.now }
        ensures fits { result ≤ LONGEST_BODY }
    {
        match message {
            [FETCH, tree, ..] => self.longest_to_fetch(*tree),
            [FETCH_LEVELS, tree, ..] => self.longest_to_levels(*tree),
            _ => match RecordsRequest::decode(message) {
                Ok(request) => self.longest_to_records(request.tree, request.count),
                Err(_) => REFUSAL,
            },
        }
    }
}
