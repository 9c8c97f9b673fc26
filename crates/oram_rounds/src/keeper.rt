//! Where a process keeps what has to outlive it.
ghost use Rattle.std.specs.Prelude.{◌≡◌, ◌⊎◌, [], ℕ, List, OnOk, OnErr};
ghost use Rattle.oram_core.specs.Changes.{AreTold};
ghost use Rattle.oram_rounds.specs.KeptParts.{text_of};
ghost use Rattle.oram_rounds.specs.LinkNotes.{AreRecordsTold};

use oram_core::TableChanges;
use std::fmt;

/// Nothing new could be kept: what is read back is what was handed over, or what was there before.
#[derive(Clone, Copy, Debug, PartialEq, Eq)]
pub struct KeepError;

impl fmt::Display for KeepError {
    fn fmt<W: fmt::Write>(&self, f: &mut fmt::Formatter<W>) -> fmt::Result {
        f.write_str("the state could not be kept")
    }
}

/// Which of a link's records may differ from those that were kept last.
#[derive(Clone, Copy, Debug)]
pub enum RecordChanges<'a> {
    /// Any of them.
    Any,
    /// Those with these numbers, which count the records from 0 on. Each record has `len` bytes. A number may stand here more than once.
    Records { len: u32, numbers: &'a [u32] },
}

/// The records that a link wants to have kept with its process, one behind the other.
#[derive(Clone, Copy)]
pub struct LinkRecords<'a> {
    pub bytes: &'a [u8],
    pub changes: RecordChanges<'a>,
}

impl<'a> LinkRecords<'a> {
    /// Returns no records, as a link has them that has nothing more to keep than its note.
    pub fn none() -> LinkRecords<'a>
        ensures bytes { result.bytes.now ≡ [] }
        ensures any { result.changes ≡ RecordChanges.Any }
    {
        LinkRecords {
            bytes: &[],
            changes: RecordChanges::Any,
        }
    }
}

/// The text that is kept of a process, in four parts, so that nobody has to copy the table or the records.
#[derive(Clone, Copy)]
pub struct KeptParts<'a> {
    /// What stands before the core's table.
    pub before: &'a [u8],
    /// The core's table. The text has each of its entries in four bytes, big-endian.
    pub table: &'a [u32],
    /// The entries of the table that may differ from those of the table that was kept last.
    pub changes: TableChanges<'a>,
    /// What stands between the table and the records.
    pub after: &'a [u8],
    /// The records of the process's link, with which the text ends.
    pub records: LinkRecords<'a>,
}

/// A place for the newest text of one process.
pub trait Keeper {
    /// Whether these bytes may be read back now.
    ghost reads_back: { Self → List ℕ → Type 0 };

    /// The table that was kept last.
    ghost kept_table: { Self → List ℕ };

    /// The records that were kept last.
    ghost kept_records: { Self → List ℕ };

    /// Keeps this text in place of the one before. Once it returns `Ok`, it is read back, and nothing else is. Only the entries and
    /// the records that the text tells of may differ from those of the table and from the records that were kept last, so nobody has
    /// to look for them. After an error they are still counted from those.
    fn keep(&mut self, text: &KeptParts<'_>) -> Result<(), KeepError>
        requires table { AreTold text.now.changes (kept_table self.old) text.now.table.now }
        requires records { AreRecordsTold text.now.records.changes (kept_records self.old) text.now.records.bytes.now }
        ensures there { OnOk result (reads_back self.new (text_of text.now)) }
        ensures only { OnOk result ((bytes : List ℕ) → reads_back self.new bytes → bytes ≡ text_of text.now) }
        ensures failed { OnErr result ((bytes : List ℕ) → reads_back self.new bytes → (bytes ≡ text_of text.now) ⊎ reads_back self.old bytes) }
        ensures table { OnOk result (kept_table self.new ≡ text.now.table.now) }
        ensures table_before { OnErr result (kept_table self.new ≡ kept_table self.old) }
        ensures records { OnOk result (kept_records self.new ≡ text.now.records.bytes.now) }
        ensures records_before { OnErr result (kept_records self.new ≡ kept_records self.old) };
}
