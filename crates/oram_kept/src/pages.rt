//! The pages of the parts of a text that stand in pages: its table and its records.
ghost use Rattle.std.specs.Prelude.{◌≡◌, ◌↔◌, ◌<◌, ◌+◌, ◌*◌, ◌^◌, ◌++◌, All, IfOk, IsTrue, OnOk, length};
ghost use Rattle.oram_kept.specs.Layout.{bytes_on, page_at, page_of, pages_for};
ghost use Rattle.oram_kept.specs.Pages.{AddsToldPages, bytes_of, patches_at, patches_of};
ghost use Rattle.oram_kept.specs.Text.{table_bytes};
ghost use Rattle.oram_redo.specs.Log.{check_bytes};

use crate::text::ChangedRecords;
use crate::told::told_pages;
use oram_redo::check_of;
use std::alloc::{AllocError, Global};

/// How many bytes of a part a page has room for.
pub(crate) const BYTES: usize = 1_016;

/// How many numbers of a table a page has room for.
const NUMBERS: usize = BYTES / NUMBER_LEN;

/// The length of a number of a table in bytes.
pub(crate) const NUMBER_LEN: usize = 4;

/// The length of a page in bytes.
pub(crate) const PAGE_LEN: usize = 1_024;

/// Where the first page of the table begins.
pub(crate) const TABLE_AT: u64 = 8_192;

/// A page, and its place in the file.
#[derive(Drop)]
pub(crate) struct Page {
    pub(crate) at: u64,
    pub(crate) bytes: Vec<u8>,
}

/// A part of a text that stands in pages.
#[derive(Clone, Copy, Debug)]
pub(crate) enum PagedPart<'a> {
    /// The numbers of a table, each in four bytes.
    Table(&'a [u32]),
    /// The bytes of records.
    Records(&'a [u8]),
}

/// Returns how many pages it takes to hold this number of bytes.
pub(crate) fn pages_for(bytes: usize) -> usize
    ensures { result ≡ pages_for bytes }
{
    bytes.div_ceil(BYTES)
}

/// Returns the place of a page, if the first page stands at `start`.
pub(crate) fn page_at(start: u64, index: usize) -> u64
    requires start { start < 2 ^ 62 }
    requires index { index < 2 ^ 32 }
    ensures { result ≡ page_at start index }
{
    start + (index * PAGE_LEN) as u64
}

/// Returns the numbers on a page.
fn numbers_on(table: &[u32], index: usize) -> &[u32]
    requires { index < 2 ^ 32 }
    ensures { table_bytes result.now ≡ bytes_on (table_bytes table.now) index }
{
    match table.get(index * NUMBERS..) {
        Some(rest) => &rest[..rest.len().min(NUMBERS)],
        None => &[],
    }
}

/// Returns the bytes on a page.
fn bytes_on(bytes: &[u8], index: usize) -> &[u8]
    requires { index < 2 ^ 32 }
    ensures { result.now ≡ bytes_on bytes.now index }
{
    match bytes.get(index * BYTES..) {
        Some(rest) => &rest[..rest.len().min(BYTES)],
        None => &[],
    }
}

/// Returns whether these bytes are the checksum of a text.
pub(crate) fn is_check_of(check: &[u8], text: &[u8]) -> bool
    ensures { IsTrue result ↔ (check.now ≡ check_bytes text.now) }
{
    check == &check_of(text)[..]
}

/// Returns these numbers in four bytes each, the high byte first, with room for a page.
#[tactic(auto, unfolding(crate::specs::Text::number_bytes))]
fn copy_numbers(alloc: Global, numbers: &[u32]) -> Result<Vec<u8>, AllocError>
    ensures { IfOk result (λ bytes. bytes.items ≡ table_bytes numbers.now) }
{
    let mut bytes = Vec::with_capacity(alloc, PAGE_LEN)?;
    for number in numbers {
        bytes.extend_from_slice(&number.to_be_bytes())?;
    }
    Ok(bytes)
}

/// Copies these bytes, with room for a page.
fn copy_bytes(alloc: Global, bytes: &[u8]) -> Result<Vec<u8>, AllocError>
    ensures { IfOk result (λ copied. copied.items ≡ bytes.now) }
{
    let mut copied = Vec::with_capacity(alloc, PAGE_LEN)?;
    copied.extend_from_slice(bytes)?;
    Ok(copied)
}

impl PagedPart<'_> {
    /// Returns the length of the part in bytes.
    fn len(self) -> usize
        requires { length (bytes_of self) < 2 ^ 62 }
        ensures { result ≡ length (bytes_of self.entry) }
    {
        match self {
            PagedPart::Table(table) => table.len() * NUMBER_LEN,
            PagedPart::Records(records) => records.len(),
        }
    }

    /// Copies the bytes of the part that are on a page.
    fn copy_of(self, alloc: Global, index: usize) -> Result<Vec<u8>, AllocError>
        requires { index < 2 ^ 32 }
        ensures { IfOk result (λ bytes. bytes.items ≡ bytes_on (bytes_of self.entry) index) }
    {
        match self {
            PagedPart::Table(table) => copy_numbers(alloc, numbers_on(table, index)),
            PagedPart::Records(records) => copy_bytes(alloc, bytes_on(records, index)),
        }
    }

    /// Returns a page of the part.
    fn page(self, alloc: Global, index: usize) -> Result<Vec<u8>, AllocError>
        requires { index < 2 ^ 32 }
        ensures { IfOk result (λ page. page.items ≡ page_of (bytes_on (bytes_of self.entry) index)) }
    {
        let mut page = self.copy_of(alloc, index)?;
        let check = check_of(&page);
        page.extend_from_slice(&check)?;
        Ok(page)
    }

    /// Puts the pages of the part with these indexes behind the others. The first page of the part stands at `start`.
    fn add_pages(
        self,
        alloc: Global,
        start: u64,
        indexes: &[usize],
        pages: &mut Vec<Page>,
    ) -> Result<(), AllocError>
        requires start { start < 2 ^ 62 }
        requires indexes { All (λ i. i < 2 ^ 32) indexes.now }
        ensures { OnOk result (patches_of pages.new.items ≡ patches_of pages.old.items ++ patches_at start (bytes_of self.entry) indexes.now) }
    {
        for index in indexes {
            pages.push(Page {
                at: page_at(start, *index),
                bytes: self.page(alloc, *index)?,
            })?;
        }
        Ok(())
    }

    /// Puts the pages of the part that have records that may have changed behind the others. The first page of the part stands at `start`.
    pub(crate) fn add_told_pages(
        self,
        alloc: Global,
        start: u64,
        changes: ChangedRecords<'_>,
        pages: &mut Vec<Page>,
    ) -> Result<(), AllocError>
        requires start { start < 2 ^ 62 }
        requires len { length (bytes_of self) < 2 ^ 40 }
        ensures { OnOk result (AddsToldPages changes.entry (bytes_of self.entry) start (patches_of pages.old.items) (patches_of pages.new.items)) }
    {
        let told = told_pages(alloc, pages_for(self.len()), changes)?;
        self.add_pages(alloc, start, &told, pages)
    }
}
