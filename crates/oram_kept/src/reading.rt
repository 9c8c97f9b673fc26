//! Reads a text back from the bytes of the file.
ghost use Rattle.std.specs.Prelude.{◌≡◌, ◌<◌, ◌≤◌, ◌+◌, ◌*◌, ◌-◌, ◌^◌, ◌++◌, ℕ, List, All, IfOk, IfSome, None, Ok, OnOk, length, min};
ghost use Rattle.oram_kept.specs.Layout.{HasPages, HasTable, Holds, page_at, page_of, pages_for};
ghost use Rattle.oram_kept.specs.Reading.{HasBody, HasNoPages, Says, SaysRoom, head_bytes, parts_around};
ghost use Rattle.oram_kept.specs.Text.{Parts, number_bytes, table_bytes};
ghost use Rattle.oram_redo.specs.Content.{Content, Has};

use crate::head::Head;
use crate::pages::{BYTES, NUMBER_LEN, PAGE_LEN, is_check_of, pages_for};
use crate::text::{check_of, fit};
use std::alloc::{AllocError, Global};

/// The length of a page's checksum in bytes.
const CHECK_LEN: usize = 8;

/// What stands around the table of a text.
#[derive(Debug, Drop)]
pub struct Around {
    pub before: Vec<u8>,
    pub after: Vec<u8>,
}

/// A text that was read.
#[derive(Debug, Drop)]
pub struct Text {
    pub table: Vec<u32>,
    /// The bytes of the records, one record after the other.
    pub records: Vec<u8>,
    /// What stands around the table.
    pub around: Around,
}

/// Returns the number in four bytes, the high byte first.
#[tactic(auto, unfolding(crate::specs::Text::number_bytes))]
fn number_in(bytes: &[u8]) -> u32
    requires { length bytes.now ≡ 4 }
    ensures { number_bytes result ≡ bytes.now }
{
    u32::from_be_bytes([bytes[0], bytes[1], bytes[2], bytes[3]])
}

/// Appends the numbers in these bytes to a table. A number has four bytes, the high one first.
fn push_numbers(bytes: &[u8], table: &mut Vec<u32>) -> Result<(), AllocError>
    requires { (count : ℕ) × (length bytes.now ≡ 4 * count) }
    ensures { OnOk result ((added : List ℕ) × (table.new.items ≡ table.old.items ++ added) × (table_bytes added ≡ bytes.now)) }
{
    for number in bytes.chunks_exact(NUMBER_LEN) {
        table.push(number_in(number))?;
    }
    Ok(())
}

/// Returns the bytes on a page, or `None` if the checksum behind them isn't theirs.
fn sound_bytes(page: &[u8]) -> Option<&[u8]>
    requires { 8 ≤ length page.now }
    ensures found { IfSome result (λ bytes. page_of bytes.now ≡ page.now) }
    ensures none { result ≡ None → (bytes : List ℕ) → page_of bytes ≡ page.now → ⊥ }
{
    let (bytes, sum) = page.split_at(page.len() - CHECK_LEN);
    if !is_check_of(sum, bytes) {
        return None;
    }
    Some(bytes)
}

/// Returns the bytes on the page with this index, of the pages of `len` bytes, or `None` if the page isn't sound.
fn bytes_in(pages: &[u8], len: usize, index: usize) -> Option<&[u8]>
    requires few { len < 2 ^ 40 }
    requires whole { length pages.now ≡ pages_for len * 1024 }
    requires within { index < pages_for len }
    ensures long { IfSome result (λ bytes. length bytes.now ≡ min (len - index * 1016) 1016) }
    ensures found { IfSome result (λ bytes. (start : ℕ) (c : Content) → Has pages.now start c → Has (page_of bytes.now) (page_at start index) c) }
    ensures none { result ≡ None → (start : ℕ) (c : Content) → Has pages.now start c → HasNoPages len start c }
{
    let at = index * PAGE_LEN;
    let on_page = (len - index * BYTES).min(BYTES);
    sound_bytes(&pages[at..at + on_page + CHECK_LEN])
}

/// Reads a table of `count` numbers from its pages. Returns `None` if one of the pages isn't sound.
fn table_in(alloc: Global, pages: &[u8], count: usize) -> Result<Option<Vec<u32>>, AllocError>
    requires few { count < 2 ^ 32 }
    requires whole { length pages.now ≡ pages_for (4 * count) * 1024 }
    ensures long { IfOk result (λ read. IfSome read (λ table. length table.items ≡ count)) }
    ensures found { IfOk result (λ read. IfSome read (λ table. (c : Content) → Has pages.now 8192 c → HasTable table.items c)) }
    ensures none { result ≡ Ok None → (c : Content) → Has pages.now 8192 c → HasNoPages (4 * count) 8192 c }
{
    let len = NUMBER_LEN * count;
    let mut table = Vec::with_capacity(alloc, count)?;
    for index in 0..pages_for(len) {
        let Some(bytes) = bytes_in(pages, len, index) else {
            return Ok(None);
        };
        push_numbers(bytes, &mut table)?;
    }
    Ok(Some(table))
}

/// Takes the bytes of records, `len` in all, from their pages: moves them together, so that there is no second copy of them. Returns `None` if
/// one of the pages isn't sound.
fn records_in(mut pages: Vec<u8>, len: usize) -> Option<Vec<u8>>
    requires few { len < 2 ^ 32 }
    requires whole { length pages.items ≡ pages_for len * 1024 }
    ensures long { IfSome result (λ records. length records.items ≡ len) }
    ensures found { IfSome result (λ records. (start : ℕ) (c : Content) → Has pages.items start c → HasPages records.items start c) }
    ensures none { result ≡ None → (start : ℕ) (c : Content) → Has pages.items start c → HasNoPages len start c }
{
    for index in 0..pages_for(len) {
        let on_page = (len - index * BYTES).min(BYTES);
        let at = index * PAGE_LEN;
        if sound_bytes(&pages[at..at + on_page + CHECK_LEN]).is_none() {
            return None;
        }
        pages.copy_within(at..at + on_page, index * BYTES);
    }
    pages.truncate(len);
    Some(pages)
}

/// Reads a text from what stands behind its head: the pages of its table, those of its records, and the two texts. Returns `None` if no text
/// stands there, as far as the checksums tell.
pub(crate) fn text_in(
    alloc: Global,
    head: &Head,
    table_pages: &[u8],
    record_pages: Vec<u8>,
    texts: &[u8],
) -> Result<Option<Text>, AllocError>
    requires room { SaysRoom head.now }
    requires small { head.now.check < 2 ^ 64 }
    requires table { length table_pages.now ≡ pages_for (4 * head.now.table) * 1024 }
    requires records { length record_pages.items ≡ pages_for head.now.records * 1024 }
    requires texts { length texts.now ≡ head.now.before + head.now.after }
    ensures found { IfOk result (λ read. IfSome read (λ text. Says head.now (parts_around text.table.items text.records.items text.around)
        × ((c : Content) → Has (head_bytes head.now) 4096 c → HasBody head.now table_pages.now record_pages.items texts.now c
        → Holds (parts_around text.table.items text.records.items text.around) c))) }
    ensures none { result ≡ Ok None → (c : Content) → HasBody head.now table_pages.now record_pages.items texts.now c → (p : Parts) → Says head.now p → Holds p c → ⊥ }
{
    let Some(table) = table_in(alloc, table_pages, head.table as usize)? else {
        return Ok(None);
    };
    fit(&table);
    let Some(records) = records_in(record_pages, head.records as usize) else {
        return Ok(None);
    };
    let (before, after) = texts.split_at(head.before as usize);
    if check_of(&[], before, after) != head.check {
        return Ok(None);
    }
    let around = Around {
        before: before.to_vec(alloc)?,
        after: after.to_vec(alloc)?,
    };
    Ok(Some(Text {
        table,
        records,
        around,
    }))
}
