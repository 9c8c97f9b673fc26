//! What a check or an export says of what it found.

use oram_export::{LevelFindings, TreeFindings};
use oram_settings::{counted, size_text};
use std::alloc::{AllocError, Global};

/// How many records of a disk there are, and how many are lost.
#[derive(Clone, Copy, Debug, PartialEq, Eq)]
pub(crate) struct Counts {
    pub(crate) records: u64,
    pub(crate) lost: u64,
}

impl Counts {
    /// Counts the records of one tree.
    pub(crate) fn of(tree: &TreeFindings) -> Counts {
        let levels = u32::try_from(tree.levels().len()).unwrap_or(u32::MAX);
        Counts {
            records: 2u64.saturating_pow(levels).saturating_sub(1),
            lost: tree.lost(),
        }
    }

    /// Counts the records of some trees.
    pub(crate) fn of_all(trees: &[TreeFindings]) -> Counts {
        let mut counts = Counts {
            records: 0,
            lost: 0,
        };
        for tree in trees {
            let more = Counts::of(tree);
            counts.records = counts.records.saturating_add(more.records);
            counts.lost = counts.lost.saturating_add(more.lost);
        }
        counts
    }
}

/// Appends `, COUNT WHAT` to a text, unless the count is 0.
fn push_count(alloc: Global, text: &mut String, count: u64, what: &str) -> Result<(), AllocError> {
    if count == 0 {
        return Ok(());
    }
    text.push_str(", ")?;
    text.push_str(format!(in alloc; "{count}")?.as_str())?;
    text.push_str(" ")?;
    text.push_str(what)
}

/// Returns the line of a level that has lost records.
fn level_line(alloc: Global, number: usize, level: &LevelFindings) -> Result<String, AllocError> {
    let sound = level.sound;
    let mut line = format!(in alloc; "  level {number}: {sound} sound")?;
    push_count(alloc, &mut line, level.changed, "changed")?;
    push_count(alloc, &mut line, level.missing, "missing")?;
    push_count(
        alloc,
        &mut line,
        level.unchecked,
        "below one of these, which can't be checked",
    )?;
    line.push_str("\n")?;
    Ok(line)
}

/// Appends the lines of a tree: how many records it has, and each level that has lost some.
fn push_tree(
    alloc: Global,
    text: &mut String,
    number: usize,
    tree: &TreeFindings,
) -> Result<(), AllocError> {
    let Counts { records, lost } = Counts::of(tree);
    let records = counted(alloc, records, "record")?;
    let records = records.as_str();
    let line = if lost == 0 {
        format!(in alloc; "tree {number}: {records}, all sound\n")?
    } else {
        format!(in alloc; "tree {number}: {records}, {lost} lost\n")?
    };
    text.push_str(line.as_str())?;
    for (number, level) in tree.levels().iter().enumerate() {
        if level.changed != 0 || level.missing != 0 || level.unchecked != 0 {
            text.push_str(level_line(alloc, number, level)?.as_str())?;
        }
    }
    Ok(())
}

/// Returns whether records are lost, but none of tree 0, which has the disk's data.
fn has_lost_maps_alone(trees: &[TreeFindings]) -> bool {
    match trees.split_first() {
        Some((data, maps)) => data.lost() == 0 && Counts::of_all(maps).lost != 0,
        None => false,
    }
}

/// Returns what a check prints: for each tree how many records it has and, if some are lost, at which levels they are.
pub(crate) fn findings_text(alloc: Global, trees: &[TreeFindings]) -> Result<String, AllocError> {
    let mut text = String::new(alloc);
    for (number, tree) in trees.iter().enumerate() {
        push_tree(alloc, &mut text, number, tree)?;
    }
    if has_lost_maps_alone(trees) {
        text.push_str("all data is in tree 0, so an export loses nothing\n")?;
    }
    Ok(text)
}

/// Returns what is said of the records that are lost at a host.
pub(crate) fn lost_text(alloc: Global, host: &str, counts: Counts) -> Result<String, AllocError> {
    let Counts { records, lost } = counts;
    format!(in alloc; "the host at {host} has lost {lost} of {records} records of the disk")
}

/// Returns what is said of the blocks that an export would save.
pub(crate) fn saved_text(alloc: Global, blocks: u64) -> Result<String, AllocError> {
    let blocks = counted(alloc, blocks, "block")?;
    let blocks = blocks.as_str();
    format!(in alloc;
        "an export would save {blocks} that were written; all others are zeros, or lost\n"
    )
}

/// Returns what is said of an export of a disk of `size` bytes, all of whose records are sound. `image` says where it went.
pub(crate) fn exported_text(
    alloc: Global,
    size: u64,
    image: &str,
    records: u64,
) -> Result<String, AllocError> {
    let size = size_text(alloc, size)?;
    let size = size.as_str();
    format!(in alloc; "oramdisk: exported {size} to {image}: all {records} records are sound\n")
}
