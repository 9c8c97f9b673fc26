//! All records of one tree.
ghost use Rattle.std.specs.Prelude.{◌≡◌, ◌-◌, ◌^◌, ◌<◌, ◌≤◌, ◌*◌, ◌+◌, min, List, IfOk, OnOk, OnErr, drop, length};
ghost use Rattle.std.specs.List.{FoldsTo, flat_map};
ghost use Rattle.oram_rounds.specs.Batches.{texts};
ghost use Rattle.oram_scan.specs.Laws.{Row};
ghost use Rattle.oram_scan.specs.Scan.{node_count};
ghost use Rattle.oram_export.specs.Reading.{HasAsked, IsRead, sound_in};
ghost use Rattle.oram_export.specs.Requests.{AsksNext, IsRequests, requests_for};
ghost use Rattle.oram_export.specs.Stages.{IsFurther, IsUnderWay, TakesRows, stage_of};

use crate::batches::Requests;
use crate::findings::TreeFindings;
use crate::progress::{TreeProgress, take_answer};
use crate::read_fault::ReadFault;
use crate::visitor::RecordVisitor;
use oram_hash::DIGEST_LEN;
use oram_pipeline::PipelinedLink;
use oram_records::most_rows;
use std::alloc::Global;

/// Is told how far a reading has come.
pub trait ReadingWatch {
    /// Is called after the rows of `nodes` more nodes were read.
    fn read(&mut self, nodes: u64);
}

/// A tree whose records are to be read: its number and its depth, 24 at most, the length of its records, and the digest of its
/// root's record. A record has more than 64 bytes, and less than 1,048,575, so that a row with one fits into an answer.
#[derive(Clone, Copy, Debug, PartialEq, Eq)]
pub struct TreeToRead {
    pub tree: u8,
    pub depth: u8,
    pub record_len: usize,
    pub root: [u8; DIGEST_LEN],
}

/// Returns the requests for the records of a tree.
fn requests_of(tree: &TreeToRead) -> Requests
    requires depth { tree.now.depth ≤ 24 }
    requires long { 64 < tree.now.record_len }
    requires short { tree.now.record_len < 1048575 }
    ensures { result ≡ requests_for tree.now.tree tree.now.depth tree.now.record_len }
{
    Requests {
        tree: tree.tree,
        nodes: (2 << tree.depth) - 1,
        most: most_rows(tree.record_len) as u64,
    }
}

/// Takes the answers to requests for `most` nodes each, or for those that are left. Each is dropped as soon as it was taken.
fn take_answers<T, V: RecordVisitor<T>>(
    alloc: Global,
    progress: &mut TreeProgress,
    visitor: &V,
    target: &mut T,
    record_len: usize,
    requests: &Requests,
    answers: Vec<Vec<u8>>,
) -> Result<(), ReadFault>
    requires nodes { requests.now.nodes ≡ node_count progress.old.scan.depth }
    requires within { progress.old.scan.node ≤ requests.now.nodes }
    requires under_way { IsUnderWay progress.old }
    ensures ok { OnOk result (TakesRows (V.sees visitor.now) record_len (stage_of progress.old target.old)
        (flat_map (drop 1) (texts answers.items)) (stage_of progress.new target.new)) }
    ensures next { OnOk result (IsFurther progress.old progress.new
        (min (length (texts answers.items) * requests.now.most) (requests.now.nodes - progress.old.scan.node))) }
{
    for answer in answers {
        let count = requests.most.min(requests.nodes - progress.scan.node());
        take_answer(alloc, progress, visitor, target, record_len, count, &answer)?;
    }
    Ok(())
}

/// Asks for the next batch of records, if there are more batches, and returns its requests.
fn ask_next<B: PipelinedLink>(
    alloc: Global,
    link: &mut B,
    requests: &Requests,
    index: u64,
) -> Result<Vec<Vec<u8>>, ReadFault>
    requires requests { IsRequests requests.now }
    ensures ok { IfOk result (λ bodies. AsksNext B.asks requests.now index link.old (texts bodies.items) link.new) }
    ensures err { OnErr result (link.new ≡ link.old) }
{
    if index >= requests.batch_count() {
        return Ok(Vec::new(alloc));
    }
    let bodies = requests.batch(alloc, index)?;
    link.ask(alloc, &bodies);
    Ok(bodies)
}

/// Reads all records of a tree over a link to the host, checks each of them against the digest above it, and tells the visitor of those
/// that are what was stored. Returns how many records of each level are sound, changed, missing, or can't be checked.
///
/// Each request asks for as many records as fit into an answer, and 16 requests go to the host before their answers are read. The next 16
/// go there before these answers are worked through, so that the host sends meanwhile. Which requests these are depends on the tree's
/// number and depth and on the length of its records, and on nothing else.
pub fn read_tree<B: PipelinedLink, T, V: RecordVisitor<T>, W: ReadingWatch>(
    alloc: Global,
    link: &mut B,
    tree: &TreeToRead,
    visitor: &V,
    target: &mut T,
    watch: &mut W,
) -> Result<TreeFindings, ReadFault>
    requires depth { tree.now.depth ≤ 24 }
    requires long { 64 < tree.now.record_len }
    requires short { tree.now.record_len < 1048575 }
    ensures ok { IfOk result (λ findings. (rows : List Row) × IsRead B.batches tree.now link.old rows findings link.new
        × FoldsTo (V.sees visitor.now) target.old (sound_in rows) target.new) }
    ensures err { OnErr result (HasAsked B.batches B.asks tree.now link.old link.new) }
{
    let requests = requests_of(tree);
    let mut progress = TreeProgress::new(alloc, tree.depth, tree.record_len, &tree.root)?;
    let mut bodies = ask_next(alloc, link, &requests, 0)?;
    for index in 0..requests.batch_count() {
        let before = progress.scan.node();
        let answers = link.answers(alloc, &bodies)?;
        bodies = ask_next(alloc, link, &requests, index + 1)?;
        take_answers(
            alloc,
            &mut progress,
            visitor,
            target,
            tree.record_len,
            &requests,
            answers,
        )?;
        watch.read(progress.scan.node() - before);
    }
    Ok(progress.findings)
}
