//! One answer of the host, row by row.
ghost use Rattle.std.specs.Prelude.{◌≡◌, ◌⊎◌, ◌+◌, ◌<◌, ◌≤◌, ◌++◌, ℕ, List, Err, IfErr, IfOk, OnOk, Some, length, replicate};
ghost use Rattle.oram_wire.specs.HostMessages.{payload_answer, refusal_answer};
ghost use Rattle.oram_scan.specs.Scan.{begun, node_count};
ghost use Rattle.oram_scan.specs.declared.tree_scan.Finding.{Finding as FindingOf};
ghost use Rattle.oram_scan.specs.declared.tree_scan.Finding.TheVariants.{Sound};
ghost use Rattle.oram_export.specs.Findings.{none_found};
ghost use Rattle.oram_export.specs.Stages.{IsFurther, IsUnderWay, PassesNode, SeesRow, TakesRow, TakesRows, stage_of};
ghost use Rattle.oram_export.specs.declared.read_fault.ReadFault.TheVariants.{BadAnswer, Refused};

use crate::findings::TreeFindings;
use crate::read_fault::ReadFault;
use crate::visitor::{RecordVisitor, VisitFault};
use oram_records::split_row;
use oram_scan::{Finding, TreeScan};
use oram_wire::{GOOD, REFUSED};
use std::alloc::{AllocError, Global};

/// How far the reading of a tree has come, and what it has found.
#[derive(Debug, Drop)]
pub(crate) struct TreeProgress {
    pub(crate) scan: TreeScan,
    pub(crate) findings: TreeFindings,
}

impl TreeProgress {
    /// Begins to read a tree with this depth, whose records have `record_len` bytes. `root` is the digest of the root's record.
    pub(crate) fn new(
        alloc: Global,
        depth: u8,
        record_len: usize,
        root: &[u8; 32],
    ) -> Result<TreeProgress, AllocError>
        requires depth { depth ≤ 24 }
        requires len { 64 < record_len }
        ensures scan { IfOk result (λ progress. progress.scan ≡ begun depth record_len root.now) }
        ensures findings { IfOk result (λ progress. progress.findings ≡ replicate (depth + 1) none_found) }
    {
        Ok(TreeProgress {
            scan: TreeScan::new(alloc, depth, record_len, root)?,
            findings: TreeFindings::none_yet(alloc, depth)?,
        })
    }
}

/// Passes over the next node, which has no record.
fn pass_node(progress: &mut TreeProgress) -> Result<(), AllocError>
    requires next { progress.old.scan.node < node_count progress.old.scan.depth }
    requires under_way { IsUnderWay progress.old }
    ensures ok { OnOk result (PassesNode progress.old progress.new) }
{
    let node = progress.scan.node();
    progress.scan.pass()?;
    progress.findings.count(node, None);
    Ok(())
}

/// Tells the visitor of a record if it is the one that was stored.
fn tell<T, V: RecordVisitor<T>>(
    alloc: Global,
    visitor: &V,
    target: &mut T,
    record_bytes: &[u8],
    finding: Finding,
) -> Result<(), VisitFault>
    requires { finding ≡ Sound → 64 < length record_bytes.now }
    ensures { OnOk result (SeesRow (V.sees visitor.now) target.old (Some (record_bytes.now, finding)) target.new) }
{
    match finding {
        Finding::Sound => visitor.see(alloc, target, record_bytes),
        _ => Ok(()),
    }
}

/// Takes the record of the next node.
fn take_record<T, V: RecordVisitor<T>>(
    alloc: Global,
    progress: &mut TreeProgress,
    visitor: &V,
    target: &mut T,
    record_bytes: &[u8],
) -> Result<(), ReadFault>
    requires next { progress.old.scan.node < node_count progress.old.scan.depth }
    requires under_way { IsUnderWay progress.old }
    ensures ok { OnOk result ((finding : FindingOf)
        × TakesRow (V.sees visitor.now) (stage_of progress.old target.old) (Some (record_bytes.now, finding)) (stage_of progress.new target.new)) }
{
    let node = progress.scan.node();
    let finding = progress.scan.take(record_bytes)?;
    tell(alloc, visitor, target, record_bytes, finding)?;
    progress.findings.count(node, Some(finding));
    Ok(())
}

/// Takes the row of the next node, with which `text` begins, and returns the text after it.
fn take_row<'a, T, V: RecordVisitor<T>>(
    alloc: Global,
    progress: &mut TreeProgress,
    visitor: &V,
    target: &mut T,
    record_len: usize,
    text: &'a [u8],
) -> Result<&'a [u8], ReadFault>
    requires next { progress.old.scan.node < node_count progress.old.scan.depth }
    requires under_way { IsUnderWay progress.old }
    ensures ok { IfOk result (λ rest. (row : List ℕ) × (text.now ≡ row ++ rest.now)
        × TakesRows (V.sees visitor.now) record_len (stage_of progress.old target.old) row (stage_of progress.new target.new)) }
    ensures next { OnOk result (IsFurther progress.old progress.new 1) }
{
    match split_row(text, record_len) {
        None => Err(ReadFault::BadAnswer),
        Some((None, rest)) => {
            pass_node(progress)?;
            Ok(rest)
        }
        Some((Some(record), rest)) => {
            take_record(alloc, progress, visitor, target, record)?;
            Ok(rest)
        }
    }
}

/// Takes the rows of the next `count` nodes. They have to be all of the text.
fn take_rows<T, V: RecordVisitor<T>>(
    alloc: Global,
    progress: &mut TreeProgress,
    visitor: &V,
    target: &mut T,
    record_len: usize,
    count: u64,
    text: &[u8],
) -> Result<(), ReadFault>
    requires room { progress.old.scan.node + count ≤ node_count progress.old.scan.depth }
    requires under_way { IsUnderWay progress.old }
    ensures ok { OnOk result
        (TakesRows (V.sees visitor.now) record_len (stage_of progress.old target.old) text.now (stage_of progress.new target.new)) }
    ensures next { OnOk result (IsFurther progress.old progress.new count) }
{
    let mut rest = text;
    for _ in 0..count {
        rest = take_row(alloc, progress, visitor, target, record_len, rest)?;
    }
    if rest.is_empty() {
        Ok(())
    } else {
        Err(ReadFault::BadAnswer)
    }
}

/// Returns the payload of an answer of the host, or says that it refuses.
fn payload_of(answer: &[u8]) -> Result<&[u8], ReadFault>
    ensures ok { IfOk result (λ payload. answer.now ≡ payload_answer payload.now) }
    ensures refused { (code : ℕ) → result ≡ Err (Refused code) → answer.now ≡ refusal_answer code }
    ensures faults { IfErr result (λ fault. (fault ≡ BadAnswer) ⊎ ((code : ℕ) × (fault ≡ Refused code))) }
{
    match answer {
        [GOOD, payload @ ..] => Ok(payload),
        [REFUSED, code] => Err(ReadFault::Refused(*code)),
        _ => Err(ReadFault::BadAnswer),
    }
}

/// Takes the host's answer to a request for the next `count` nodes: each record that is the one that was stored goes to the visitor, and
/// all are counted. The answer has to have exactly one row for each of these nodes.
pub(crate) fn take_answer<T, V: RecordVisitor<T>>(
    alloc: Global,
    progress: &mut TreeProgress,
    visitor: &V,
    target: &mut T,
    record_len: usize,
    count: u64,
    answer: &[u8],
) -> Result<(), ReadFault>
    requires room { progress.old.scan.node + count ≤ node_count progress.old.scan.depth }
    requires under_way { IsUnderWay progress.old }
    ensures ok { OnOk result ((text : List ℕ) × (answer.now ≡ payload_answer text)
        × TakesRows (V.sees visitor.now) record_len (stage_of progress.old target.old) text (stage_of progress.new target.new)) }
    ensures next { OnOk result (IsFurther progress.old progress.new count) }
{
    let text = payload_of(answer)?;
    take_rows(alloc, progress, visitor, target, record_len, count, text)
}
