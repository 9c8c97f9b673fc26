//! Which pages of a part have bytes that may have changed.
ghost use Rattle.std.specs.Prelude.{◌≡◌, ◌⊎◌, ◌<◌, ◌≤◌, ◌^◌, ℕ, All, IfOk, OnOk, length};
ghost use Rattle.std.specs.List.{Contains};
ghost use Rattle.std.specs.List.Sorted.{IsNonDecreasing, IsPermutation, IsStrictlyIncreasing};
ghost use Rattle.oram_kept.specs.Pages.{AddsRange, AreToldPages, IsPageOf};

use crate::pages::BYTES;
use crate::text::ChangedRecords;
use std::alloc::{AllocError, Global};

/// The pages from `first` on and before `end`.
#[derive(Clone, Copy, Debug)]
struct PageRange {
    first: usize,
    end: usize,
}

/// Returns the pages that have bytes of a record. Each record has `record_len` bytes.
fn pages_of(record_len: u32, index: u32) -> PageRange
    ensures inside { (j : ℕ) → result.first ≤ j → j < result.end → IsPageOf record_len index j }
    ensures all { (j : ℕ) → IsPageOf record_len index j → (result.first ≤ j) × (j < result.end) }
{
    let len = record_len as usize;
    let start = index as usize * len;
    PageRange {
        first: start / BYTES,
        end: (start + len).div_ceil(BYTES),
    }
}

/// Copies these indexes in rising order.
fn rising(alloc: Global, indexes: &[u32]) -> Result<Vec<u32>, AllocError>
    ensures same { IfOk result (λ all. IsPermutation indexes.now all.items) }
    ensures rising { IfOk result (λ all. IsNonDecreasing all.items) }
{
    let mut all = indexes.to_vec(alloc)?;
    all.sort_unstable();
    Ok(all)
}

/// Returns the least index that is greater than all of these, which rise.
fn next_index(pages: &[usize]) -> usize
    requires rising { IsStrictlyIncreasing pages.now }
    requires small { All (λ j. j < 2 ^ 32) pages.now }
    ensures above { All (λ j. j < result) pages.now }
    ensures least { (j : ℕ) → j < result → (last : ℕ) × Contains pages.now last × (j ≤ last) }
{
    match pages.last() {
        Some(last) => last + 1,
        None => 0,
    }
}

/// Puts those pages of a range behind these that are greater than the last of these.
fn add_range(range: PageRange, pages: &mut Vec<usize>) -> Result<(), AllocError>
    requires rising { IsStrictlyIncreasing pages.old.items }
    requires small { All (λ j. j < 2 ^ 32) pages.old.items }
    ensures { OnOk result (AddsRange range.first range.end pages.old.items pages.new.items) }
{
    let first = range.first.max(next_index(pages));
    for page in first..range.end {
        pages.push(page)?;
    }
    Ok(())
}

/// Returns which of `count` pages have bytes of the records with these indexes: the index of each once, in rising order. Each record has
/// `record_len` bytes.
fn pages_with(
    alloc: Global,
    count: usize,
    record_len: u32,
    indexes: &[u32],
) -> Result<Vec<usize>, AllocError>
    requires { count < 2 ^ 32 }
    ensures { IfOk result (λ pages. AreToldPages (ChangedRecords.At record_len indexes.entry) count pages.items) }
{
    let sorted = rising(alloc, indexes)?;
    let mut pages = Vec::new(alloc);
    for index in &sorted {
        let range = pages_of(record_len, *index);
        let end = range.end.min(count);
        add_range(PageRange { end, ..range }, &mut pages)?;
    }
    Ok(pages)
}

/// Returns the indexes of `count` pages.
fn all_pages(alloc: Global, count: usize) -> Result<Vec<usize>, AllocError>
    requires { count < 2 ^ 32 }
    ensures { IfOk result (λ pages. AreToldPages ChangedRecords.Any count pages.items) }
{
    let mut pages = Vec::new(alloc);
    let range = PageRange {
        first: 0,
        end: count,
    };
    add_range(range, &mut pages)?;
    Ok(pages)
}

/// Returns which of `count` pages have bytes of records that may have changed: the index of each once, in rising order.
pub(crate) fn told_pages(
    alloc: Global,
    count: usize,
    changes: ChangedRecords<'_>,
) -> Result<Vec<usize>, AllocError>
    requires { count < 2 ^ 32 }
    ensures { IfOk result (λ pages. AreToldPages changes.entry count pages.items) }
{
    let ChangedRecords::At {
        record_len,
        indexes,
    } = changes
    else {
        return all_pages(alloc, count);
    };
    pages_with(alloc, count, record_len, indexes)
}
