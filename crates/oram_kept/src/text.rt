//! A text with a table of numbers and with records in it, and what the file's head says of it.
ghost use Rattle.std.specs.Prelude.{◌≡◌, ◌↔◌, ◌<◌, ◌^◌, ◌++◌, ◌+◌, All, IfOk, IsTrue, length};
ghost use Rattle.oram_kept.specs.Layout.{HaveRoom, after_at, before_at, check_of, head_of, records_at};
ghost use Rattle.oram_kept.specs.Pages.{as_records, parts_of};

use crate::head::Head;
use crate::pages::{NUMBER_LEN, TABLE_AT, page_at, pages_for};
use std::alloc::{AllocError, Global};
use std::hash::{DefaultHasher, Hasher};

/// The numbers of a table that may have changed since it was kept last.
#[derive(Clone, Copy, Debug)]
pub enum ChangedNumbers<'a> {
    /// Any of them.
    Any,
    /// Those at these indexes. An index may stand here more than once.
    At(&'a [u32]),
}

impl<'a> ChangedNumbers<'a> {
    /// Returns the numbers as records of four bytes each.
    pub(crate) fn as_records(self) -> ChangedRecords<'a>
        ensures { result ≡ as_records self.entry }
    {
        match self {
            ChangedNumbers::Any => ChangedRecords::Any,
            ChangedNumbers::At(indexes) => ChangedRecords::At {
                record_len: NUMBER_LEN as u32,
                indexes,
            },
        }
    }
}

/// The records of a text that may have changed since they were kept last.
#[derive(Clone, Copy, Debug)]
pub enum ChangedRecords<'a> {
    /// Any of them.
    Any,
    /// Those with these indexes. An index may stand here more than once.
    At {
        /// The length of each record in bytes.
        record_len: u32,
        indexes: &'a [u32],
    },
}

/// The parts of a text: what stands before its table, the numbers of the table, what stands behind it, and the records.
#[derive(Clone, Copy, Debug)]
pub struct TextParts<'a> {
    /// The first bytes of the text. They are apart from those that follow so that nobody has to copy the two together.
    pub title: &'a [u8],
    /// The other bytes before the table.
    pub before: &'a [u8],
    pub table: &'a [u32],
    /// The numbers of the table that may differ from those of the table that was kept last.
    pub changes: ChangedNumbers<'a>,
    pub after: &'a [u8],
    /// The bytes of the records, one record after the other. The text ends with them.
    pub records: &'a [u8],
    /// The records that may differ from those that were kept last. If that isn't `Any`, the table is as long as the one that was kept last.
    pub changed_records: ChangedRecords<'a>,
}

/// Returns the checksum of the text before a table, which has a title and more bytes, and of the text behind the table.
#[tactic(auto, using(crate::proofs::Checks::checked_in_parts))]
pub fn check_of(title: &[u8], before: &[u8], after: &[u8]) -> u64
    ensures value { result ≡ check_of (title.now ++ before.now) after.now }
    ensures small { result < 2 ^ 64 }
{
    let mut hasher = DefaultHasher::new();
    hasher.write(title);
    hasher.write(before);
    hasher.write(after);
    hasher.finish()
}

/// Each number of a table has room in four bytes.
pub(crate) fn fit(_table: &[u32])
    ensures { All (λ n. n < 2 ^ 32) _table.now }
{}

impl TextParts<'_> {
    /// Lends the parts for as long as this borrow lasts.
    pub(crate) fn lent(&self) -> TextParts<'_>
        ensures parts { parts_of result ≡ parts_of self.now }
        ensures pieces { (result.title.now ≡ self.now.title.now) × (result.before.now ≡ self.now.before.now) }
    {
        TextParts {
            title: self.title,
            before: self.before,
            table: self.table,
            changes: self.changes,
            after: self.after,
            records: self.records,
            changed_records: self.changed_records,
        }
    }

    /// Returns whether each part has fewer than 2^32 bytes or numbers, as the file has room for.
    pub(crate) fn have_room(&self) -> bool
        ensures { IsTrue result ↔ HaveRoom (parts_of self.now) }
    {
        fit(self.table);
        let most = u32::MAX as usize;
        self.title.len() <= most
            && self.before.len() <= most - self.title.len()
            && self.table.len() <= most
            && self.after.len() <= most
            && self.records.len() <= most
    }

    /// Returns how many bytes stand before the table.
    fn before_len(&self) -> u64
        requires { HaveRoom (parts_of self.now) }
        ensures { result ≡ length (parts_of self.now).before }
    {
        (self.title.len() + self.before.len()) as u64
    }

    /// Returns the place of the bytes between the title and the table.
    pub(crate) fn behind_title_at(&self) -> u64
        requires { HaveRoom (parts_of self.now) }
        ensures { result ≡ before_at (parts_of self.now) + length self.now.title.now }
    {
        self.before_at() + self.title.len() as u64
    }

    /// Returns the place of the first page of the records.
    pub(crate) fn records_at(&self) -> u64
        requires { HaveRoom (parts_of self.now) }
        ensures { result ≡ records_at (parts_of self.now).table }
    {
        page_at(TABLE_AT, pages_for(self.table.len() * NUMBER_LEN))
    }

    /// Returns the place of the text before the table.
    pub(crate) fn before_at(&self) -> u64
        requires { HaveRoom (parts_of self.now) }
        ensures { result ≡ before_at (parts_of self.now) }
    {
        page_at(self.records_at(), pages_for(self.records.len()))
    }

    /// Returns the place of the text behind the table.
    pub(crate) fn after_at(&self) -> u64
        requires { HaveRoom (parts_of self.now) }
        ensures { result ≡ after_at (parts_of self.now) }
    {
        self.before_at() + self.before_len()
    }

    /// Returns the bytes of the head.
    pub(crate) fn head(&self, alloc: Global) -> Result<Vec<u8>, AllocError>
        requires { HaveRoom (parts_of self.now) }
        ensures { IfOk result (λ head. head.items ≡ head_of (parts_of self.now)) }
    {
        let head = Head {
            before: self.before_len(),
            table: self.table.len() as u64,
            after: self.after.len() as u64,
            records: self.records.len() as u64,
            check: check_of(self.title, self.before, self.after),
        };
        head.encode(alloc)
    }
}
