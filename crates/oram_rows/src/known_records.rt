//! The records that a client has itself, or can make.
ghost use Rattle.std.specs.Prelude.{◌≡◌, ◌≢◌, ◌+◌, ◌*◌, ◌^◌, ◌<◌, ◌≤◌, ◌++◌, ◌↔◌, ℕ, List, Some, IfOk, IsTrue, OnOk, MatchOption, [], length, slice_index_or};
ghost use Rattle.std.specs.Option.{option_copied};
ghost use Rattle.oram_geometry.specs.Path.{node_on};
ghost use Rattle.oram_geometry.specs.Sizes.{depth_of, trees_of};
ghost use Rattle.oram_near.specs.EmptyRecords.{made_with};
ghost use Rattle.oram_near.specs.Near.{near_record, rest_of};
ghost use Rattle.oram_near.specs.NearLevels.{nodes_of};
ghost use Rattle.oram_records.specs.Messages.{row_text};
ghost use Rattle.oram_rounds.specs.Batches.{batch_outcome_of, texts};
ghost use Rattle.oram_rows.specs.Rows.{AreCompleted, HasRows, IsCompleted, IsMadeRow, IsOfDevice, IsWholeAnswer, IsWholeRow, client_of};
ghost use Rattle.oram_rows.specs.RowsLink.{IsGiven};
ghost use Rattle.oram_tree.specs.Content.{node_count};
ghost use Rattle.oram_wire.specs.HostMessages.{payload_answer};

use oram_geometry::Device;
use oram_near::{EmptyRecords, NearRecords};
use oram_records::{RecordsRequest, split_row};
use oram_session::LinkFault;
use oram_wire::{GOOD, LONGEST_BODY};
use std::alloc::{AllocError, Global};
use std::marker::Model;

/// The first byte of the row of a node that has a record, which follows.
const PRESENT: u8 = 1;

/// A node of a tree, by its level and a leaf below it.
#[derive(Clone, Copy)]
struct NodePlace {
    leaf: u32,
    level: u8,
}

/// What a client has of a device's records beside its host, which has carried out all STOREs: the near records, and what makes the records of
/// the formatting.
#[derive(Drop)]
pub(crate) struct KnownRecords<E: EmptyRecords> {
    empty: E,
    device: Device,
    near: NearRecords,
}

impl<E: EmptyRecords> Model for KnownRecords<E> {
    ghost use Rattle.std.specs.Prelude.{◌≡◌, ◌≤◌, length};
    ghost use Rattle.oram_geometry.specs.Sizes.{depth_of};
    ghost use Rattle.oram_near.specs.Near.{rest_of};
    ghost use Rattle.oram_rows.specs.Rows.{KnownValue};

    ghost Value = { KnownValue E };

    ghost view = { λ k. record { empty = record { maker = k.empty; rest = rest_of k.near }; device = k.device; near = k.near } };

    ghost invariant = { λ k. (E.device k.empty ≡ k.device) × (E.record_len k.empty ≡ k.near.record_len) × (k.near.levels ≤ depth_of k.device 0)
        × (length (rest_of k.near) ≡ E.rest_len k.empty) };
}

/// Returns the number of near nodes of tree 0.
fn near_nodes(levels: u8) -> u32
    requires { levels ≤ 24 }
    ensures value { result ≡ nodes_of levels }
    ensures few { result < 2 ^ 24 }
{
    (1 << levels) - 1
}

/// Returns the number of nodes of a tree of this depth.
fn node_count(depth: u8) -> u64
    requires { depth ≤ 24 }
    ensures value { result ≡ node_count depth }
    ensures few { result < 2 ^ 25 }
{
    (2 << depth) - 1
}

/// Returns the payload of an answer, or `None` if it is a refusal or no answer.
fn payload_of(answer: &[u8]) -> Option<&[u8]>
    ensures { MatchOption result ((text : List ℕ) → answer.now ≢ payload_answer text) (λ payload. answer.now ≡ payload_answer payload.now) }
{
    let (op, payload) = answer.split_first()?;
    if *op != GOOD {
        return None;
    }
    Some(payload)
}

/// Returns the level of a node, and a leaf below it, the leftmost one.
fn place_of(device: &Device, tree: u8, node: u32) -> NodePlace
    requires tree { tree < trees_of device.now }
    requires node { node < node_count (depth_of device.now tree) }
    ensures level { result.level ≤ depth_of device.now tree }
    ensures leaf { result.leaf < 2 ^ depth_of device.now tree }
    ensures there { node_on (depth_of device.now tree) result.leaf result.level ≡ node }
{
    let depth = device.depth(tree);
    let level = (node + 1).ilog2() as u8;
    let leaf = (node + 1 - (1 << level)) << (depth - level);
    NodePlace { leaf, level }
}

impl<E: EmptyRecords> KnownRecords<E> {
    /// Takes the near records of a device, and what makes the records of its formatting. The rest behind the near records is what `empty` needs.
    pub(crate) fn new(empty: E, device: Device, near: NearRecords) -> KnownRecords<E>
        requires device { E.device empty ≡ device }
        requires record_len { E.record_len empty ≡ near.record_len }
        requires levels { near.levels ≤ depth_of device 0 }
        requires rest { length (rest_of near) ≡ E.rest_len empty }
        ensures { result ≡ record { empty = record { maker = empty; rest = rest_of near }; device = device; near = near } }
    {
        KnownRecords {
            empty,
            device,
            near,
        }
    }

    /// Returns the number of bytes of a record.
    fn record_len(&self) -> usize
        ensures value { result ≡ self.now.near.record_len }
        ensures few { result < 2 ^ 32 }
    {
        self.near.record_len()
    }

    /// Returns the number of bytes of the whole answer to a request.
    fn whole_len(&self, request: RecordsRequest) -> usize
        requires { IsOfDevice self.now.device self.now.near.record_len request }
        ensures { result ≡ 1 + request.count * (self.now.near.record_len + 1) }
    {
        1 + request.count as usize * (self.record_len() + 1)
    }

    /// Returns whether the client keeps the record of a node itself.
    fn is_near(&self, tree: u8, node: u32) -> bool
        ensures { IsTrue result ↔ ((tree ≡ 0) × (node < nodes_of self.now.near.levels)) }
    {
        tree == 0 && node < near_nodes(self.near.levels())
    }

    /// Returns the near record of a node.
    fn near_record(&self, node: u32) -> &[u8]
        requires { node < nodes_of self.now.near.levels }
        ensures value { result.now ≡ near_record self.now.near node }
        ensures whole { length result.now ≡ self.now.near.record_len }
    {
        let len = self.near.record_len();
        let start = node as usize * len;
        &self.near.bytes()[start..start + len]
    }

    /// Appends the record that the formatting made for a node. Fails only if memory runs out.
    fn append_made(
        &self,
        alloc: Global,
        tree: u8,
        node: u32,
        out: &mut Vec<u8>,
    ) -> Result<(), AllocError>
        requires tree { tree < trees_of self.now.device }
        requires node { node < node_count (depth_of self.now.device tree) }
        ensures { OnOk result ((r : List ℕ) × (out.new.items ≡ out.old.items ++ r) × IsMadeRow (client_of (made_with E.record_at) self.now) tree node r) }
    {
        let NodePlace { leaf, level } = place_of(&self.device, tree, node);
        self.empty
            .append_record(alloc, self.near.rest(), tree, leaf, level, out)
    }

    /// Appends the record of a node, given the host's row for it. Fails only if memory runs out.
    fn append_whole(
        &self,
        alloc: Global,
        tree: u8,
        node: u32,
        row: Option<&[u8]>,
        out: &mut Vec<u8>,
    ) -> Result<(), AllocError>
        requires tree { tree < trees_of self.now.device }
        requires node { node < node_count (depth_of self.now.device tree) }
        ensures { OnOk result ((r : List ℕ) × (out.new.items ≡ out.old.items ++ r) × IsWholeRow (client_of (made_with E.record_at) self.now) tree node (option_copied row.entry) r) }
    {
        if self.is_near(tree, node) {
            return out.extend_from_slice(self.near_record(node));
        }
        match row {
            Some(stored) => out.extend_from_slice(stored),
            None => self.append_made(alloc, tree, node, out),
        }
    }

    /// Appends the row of a node with its record, given the host's row for it. Fails only if memory runs out.
    fn append_row(
        &self,
        alloc: Global,
        tree: u8,
        node: u32,
        row: Option<&[u8]>,
        out: &mut Vec<u8>,
    ) -> Result<(), AllocError>
        requires tree { tree < trees_of self.now.device }
        requires node { node < node_count (depth_of self.now.device tree) }
        ensures { OnOk result ((r : List ℕ) × (out.new.items ≡ out.old.items ++ row_text (Some r)) × IsWholeRow (client_of (made_with E.record_at) self.now) tree node (option_copied row.entry) r) }
    {
        out.push(PRESENT)?;
        self.append_whole(alloc, tree, node, row, out)
    }

    /// Returns the whole answer to a request in place of an answer with its rows, or `None` if the answer hasn't these rows. Fails only if
    /// memory runs out.
    fn whole_answer(
        &self,
        alloc: Global,
        request: RecordsRequest,
        answer: &[u8],
    ) -> Result<Option<Vec<u8>>, AllocError>
        requires { IsOfDevice self.now.device self.now.near.record_len request }
        ensures { IfOk result (λ given. MatchOption given (HasRows self.now.near.record_len request answer.now → ⊥)
            (λ whole. (has : HasRows self.now.near.record_len request answer.now) × IsWholeAnswer (client_of (made_with E.record_at) self.now) request has.rows whole.items)) }
    {
        let Some(text) = payload_of(answer) else {
            return Ok(None);
        };
        let record_len = self.record_len();
        let mut whole = Vec::with_capacity(alloc, self.whole_len(request))?;
        whole.push(GOOD)?;
        let mut rest = text;
        for at in 0..request.count {
            let Some((row, behind)) = split_row(rest, record_len) else {
                return Ok(None);
            };
            self.append_row(alloc, request.tree, request.first + at, row, &mut whole)?;
            rest = behind;
        }
        if rest.is_empty() {
            Ok(Some(whole))
        } else {
            Ok(None)
        }
    }

    /// Returns whether a request names nodes of one of the device's trees, and an answer with a record for each of them fits into a frame.
    fn has_nodes(&self, request: RecordsRequest) -> bool
        ensures { IsTrue result ↔ IsOfDevice self.now.device self.now.near.record_len request }
    {
        if request.tree >= self.device.trees() {
            return false;
        }
        let (first, count) = (u64::from(request.first), u64::from(request.count));
        let row_len = self.record_len() as u64 + 1;
        first + count <= node_count(self.device.depth(request.tree))
            && 1 + count * row_len <= LONGEST_BODY as u64
    }

    /// Completes the answer to a body. Fails only if memory runs out.
    fn complete(&self, alloc: Global, body: &[u8], answer: Vec<u8>) -> Result<Vec<u8>, AllocError>
        ensures { IfOk result (λ given. IsCompleted (client_of (made_with E.record_at) self.now) body.now answer.items given.items) }
    {
        let Ok(request) = RecordsRequest::decode(body) else {
            return Ok(answer);
        };
        if !self.has_nodes(request) {
            return Ok(answer);
        }
        match self.whole_answer(alloc, request, &answer)? {
            Some(whole) => Ok(whole),
            None => Ok(answer),
        }
    }

    /// Completes the answers to the bodies of `first` and then to those of `last`, if there are as many. Fails only if memory runs out.
    fn complete_all(
        &self,
        alloc: Global,
        first: &[Vec<u8>],
        last: &[Vec<u8>],
        answers: Vec<Vec<u8>>,
    ) -> Result<Vec<Vec<u8>>, AllocError>
        ensures { IfOk result (λ given. length answers.items ≡ length (texts first.now ++ texts last.now)
            → AreCompleted (client_of (made_with E.record_at) self.now) (texts first.now ++ texts last.now) (texts answers.items) (texts given.items)) }
    {
        let mut given = Vec::with_capacity(alloc, answers.len())?;
        for answer in answers {
            let body = body_at(first, last, given.len());
            given.push(self.complete(alloc, body, answer)?)?;
        }
        Ok(given)
    }

    /// Completes what a link has returned for the bodies of `first` and then those of `last`.
    pub(crate) fn complete_outcome(
        &self,
        alloc: Global,
        first: &[Vec<u8>],
        last: &[Vec<u8>],
        outcome: Result<Vec<Vec<u8>>, LinkFault>,
    ) -> Result<Vec<Vec<u8>>, LinkFault>
        ensures { let bodies = texts first.now ++ texts last.now in
            IfOk (batch_outcome_of outcome) (λ answers. length answers ≡ length bodies)
            → IsGiven (client_of (made_with E.record_at) self.now) bodies (batch_outcome_of outcome) (batch_outcome_of result) }
    {
        let answers = outcome?;
        Ok(self.complete_all(alloc, first, last, answers)?)
    }
}

/// Returns one of the bodies of `first`, or of those of `last` behind them, or no bytes if there are fewer.
fn body_at<'a>(first: &'a [Vec<u8>], last: &'a [Vec<u8>], index: usize) -> &'a [u8]
    ensures { result.now ≡ slice_index_or (texts first.now ++ texts last.now) index [] }
{
    match first.get(index) {
        Some(body) => body,
        None => match last.get(index - first.len()) {
            Some(body) => body,
            None => &[],
        },
    }
}
