//! A keeper that keeps the process of a disk in a pair of files.
ghost use Rattle.std.specs.Prelude.{◌≡◌, ◌⊎◌, ◌∷◌, [], ℕ, List, length, IfErr, IfOk, OnErr, OnOk, true};
ghost use Rattle.oram_core.specs.Changes.{AreTold};
ghost use Rattle.oram_keeper.specs.Process.{IsFoundIn, IsNotRead, IsTextOf, MayReadBack, found_text, kept_records, kept_table};
ghost use Rattle.oram_kept.specs.Keeper.{FindsOneOf, Knows};
ghost use Rattle.oram_kept.specs.Kept.{Finds, bounds};
ghost use Rattle.oram_kept.specs.Opening.{FindsSame};
ghost use Rattle.oram_kept.specs.Pages.{AreTold as AreToldNumbers, AreToldRecords, StayInPlace};
ghost use Rattle.oram_kept.specs.Text.{Parts};
ghost use Rattle.oram_redo.specs.FilePair.{ComesAfter, LeavesOnly};
ghost use Rattle.oram_rounds.specs.KeptParts.{text_of};
ghost use Rattle.oram_rounds.specs.LinkNotes.{AreRecordsTold};
ghost use Rattle.oram_state.specs.StateBytes.{with_table};

use crate::found_process::{FoundProcess, fit};
use oram_core::TableChanges;
use oram_kept::{ChangedNumbers, ChangedRecords, OpenError, Text, TextKeeper, TextParts};
use oram_pair::Generation;
use oram_redo::{FilePair, RedoError};
use oram_rounds::{KeepError, Keeper, KeptParts, RecordChanges};
use std::alloc::{AllocError, Global};
use std::fmt;
use std::marker::Model;

/// Keeps a process in a pair of files, behind a title. Once a keeping has failed, each later one fails and does nothing: the files then
/// hold the process that failed or the one before it, and have to be opened again.
#[derive(Drop)]
pub struct PairKeeper<F: FilePair> {
    texts: TextKeeper<F>,
    /// The first bytes of each text.
    title: Vec<u8>,
    /// Why a process was not kept, if one wasn't.
    failure: Option<KeepFailure>,
}

impl<F: FilePair> Model for PairKeeper<F> {
    ghost use Rattle.oram_keeper.specs.Process.{PairKeeperState};

    ghost Value = { PairKeeperState F };

    ghost view = { λ k. record { keeper = k.texts; title = k.title.items } };
}

/// Why a process was not kept.
#[derive(Clone, Copy, Debug, PartialEq, Eq)]
pub struct KeepFailure {
    pub error: RedoError,
    /// The number of the system's error, if the system gave one.
    pub errno: Option<i32>,
}

/// Why no process was opened.
#[derive(Clone, Copy, Debug, PartialEq, Eq)]
pub enum KeeperFault {
    /// The files could not be read, or hold no text that is whole.
    Files(OpenError),
    /// The files hold a text that has fewer bytes before its table than a title.
    NoTitle,
    OutOfMemory,
}

impl fmt::Display for KeeperFault {
    fn fmt<W: fmt::Write>(&self, f: &mut fmt::Formatter<W>) -> fmt::Result {
        match self {
            KeeperFault::Files(error) => error.fmt(f),
            KeeperFault::NoTitle => f.write_str("the file holds another text"),
            KeeperFault::OutOfMemory => f.write_str("out of memory"),
        }
    }
}

impl From<OpenError> for KeeperFault {
    ghost use Rattle.oram_keeper.specs.declared.pair_keeper.KeeperFault.TheVariants.{Files};

    ghost from_gives = { λ error fault. fault ≡ Files error };

    fn from(error: OpenError) -> KeeperFault {
        KeeperFault::Files(error)
    }
}

impl From<AllocError> for KeeperFault {
    ghost use Rattle.oram_keeper.specs.declared.pair_keeper.KeeperFault.TheVariants.{OutOfMemory};

    ghost from_gives = { λ _ fault. fault ≡ OutOfMemory };

    fn from(_error: AllocError) -> KeeperFault {
        KeeperFault::OutOfMemory
    }
}

/// Returns the text of a process: the table's numbers in four bytes each, the high byte first, between the two texts around it.
fn process_text(
    alloc: Global,
    before: &[u8],
    table: &[u32],
    after: &[u8],
) -> Result<Vec<u8>, AllocError>
    ensures { IfOk result (λ text. text.items ≡ with_table before.now table.now after.now) }
{
    let len = table
        .len()
        .saturating_mul(4)
        .saturating_add(before.len())
        .saturating_add(after.len());
    let mut text = Vec::with_capacity(alloc, len)?;
    text.extend_from_slice(before)?;
    for number in table {
        text.extend_from_slice(&number.to_be_bytes())?;
    }
    text.extend_from_slice(after)?;
    Ok(text)
}

/// Returns the numbers of a table that have changed where these entries of it have.
fn changed_numbers(changes: TableChanges<'_>) -> ChangedNumbers<'_>
    ensures { (old new : List ℕ) → AreTold changes.entry old new → AreToldNumbers result old new }
{
    match changes {
        TableChanges::Any => ChangedNumbers::Any,
        TableChanges::Blocks(blocks) => ChangedNumbers::At(blocks),
    }
}

/// Returns the records of a text that have changed where these entries of its table and these records have. If any entry may have, so may any
/// record: then the table may have another length than before, and the records another place.
fn changed_records<'a>(changes: TableChanges<'a>, records: RecordChanges<'a>) -> ChangedRecords<'a>
    ensures told { (old new : List ℕ) → AreRecordsTold records.entry old new → AreToldRecords result old new }
    ensures place { (old new : List ℕ) → AreTold changes.entry old new → StayInPlace result old new }
{
    match (changes, records) {
        (TableChanges::Any, _) | (_, RecordChanges::Any) => ChangedRecords::Any,
        (TableChanges::Blocks(_), RecordChanges::Records { len, numbers }) => ChangedRecords::At {
            record_len: len,
            indexes: numbers,
        },
    }
}

impl<F: FilePair + Drop> PairKeeper<F> {
    /// Opens the files of a process, as a crash or an end has left them, and returns the process, too. The first `title_len` bytes of what
    /// the files hold are the title. Their fronts say this generation of the log.
    pub fn open(
        alloc: Global,
        files: F,
        generation: Generation,
        title_len: usize,
    ) -> Result<(PairKeeper<F>, FoundProcess), KeeperFault>
        // The text is the one that the files hold, and the only one that is read back from then on.
        ensures text { IfOk result (λ opened. (p : Parts) × (opened.0.keeper.texts ≡ p ∷ []) × IsTextOf opened.0.title (found_text opened.1) p
            × (F.model.is_honest opened.0.keeper.kept.files → Finds bounds p (F.model.seen files))) }
        // Its table is the one that was kept last.
        ensures table { IfOk result (λ opened. (p : Parts) × IsFoundIn opened.1 p × (p.table ≡ kept_table opened.0)) }
        // Its records are those that were kept last.
        ensures records { IfOk result (λ opened. opened.1.records.items ≡ kept_records opened.0) }
        ensures title { IfOk result (λ opened. length opened.0.title ≡ title_len) }
        ensures knows { IfOk result (λ opened. F.model.is_honest opened.0.keeper.kept.files → Knows F.model opened.0.keeper) }

        // A crash at any moment leaves what an earlier one might have left, or files with the same text.
        ensures any_moment { IfOk result (λ opened. F.model.is_honest opened.0.keeper.kept.files
            → LeavesOnly F.model files opened.0.keeper.kept.files (λ c. F.model.may_leave files c ⊎ FindsSame (F.model.seen files) c)) }
        ensures err { IfErr result (IsNotRead F.model title_len files) }
    {
        let (texts, text) = TextKeeper::open(alloc, files, generation)?;
        let Text {
            table,
            around,
            records,
        } = text;
        if around.before.len() < title_len {
            return Err(KeeperFault::NoTitle);
        }
        let (title, rest) = around.before.split_at(title_len);
        let numbers: &[u32] = &table;
        fit(numbers);
        let found = FoundProcess {
            text: process_text(alloc, rest, numbers, &around.after)?,
            records,
            table_at: rest.len(),
            table_len: numbers.len(),
        };
        let title = title.to_vec(alloc)?;
        let keeper = PairKeeper {
            texts,
            title,
            failure: None,
        };
        Ok((keeper, found))
    }
}

impl<F: FilePair> PairKeeper<F> {
    /// Returns the title, which is the same in each text.
    pub fn title(&self) -> &[u8]
        ensures { result.now ≡ self.now.title }
    {
        &self.title
    }

    /// Returns why a process could not be kept, once one couldn't.
    pub fn failure(&self) -> Option<KeepFailure> {
        self.failure
    }
}

impl<F: FilePair> Keeper for PairKeeper<F> {
    ghost use Rattle.oram_keeper.specs.Process.{MayReadBack, kept_records, kept_table};

    ghost reads_back = { MayReadBack };

    ghost kept_table = { kept_table };

    ghost kept_records = { kept_records };

    /// Keeps the process in the files, and writes of its table and of its records only the pages that may have changed. A crash at any
    /// moment leaves it or one that might have been found before, whole.
    fn keep(&mut self, text: &KeptParts<'_>) -> Result<(), KeepError>
        requires table { AreTold text.now.changes (kept_table self.old) text.now.table.now }
        requires records { AreRecordsTold text.now.records.changes (kept_records self.old) text.now.records.bytes.now }
        ensures there { OnOk result (MayReadBack self.new (text_of text.now)) }
        ensures only { OnOk result ((bytes : List ℕ) → MayReadBack self.new bytes → bytes ≡ text_of text.now) }
        ensures failed { OnErr result ((bytes : List ℕ) → MayReadBack self.new bytes → (bytes ≡ text_of text.now) ⊎ MayReadBack self.old bytes) }
        ensures table { OnOk result (kept_table self.new ≡ text.now.table.now) }
        ensures table_before { OnErr result (kept_table self.new ≡ kept_table self.old) }
        ensures records { OnOk result (kept_records self.new ≡ text.now.records.bytes.now) }
        ensures records_before { OnErr result (kept_records self.new ≡ kept_records self.old) }
        ensures knows { Knows F.model self.old.keeper → Knows F.model self.new.keeper }
        ensures any_moment { Knows F.model self.old.keeper → (p : Parts) × IsTextOf self.old.title (text_of text.now) p
            × LeavesOnly F.model self.old.keeper.kept.files self.new.keeper.kept.files (FindsOneOf (p ∷ self.old.keeper.texts)) }
        ensures title { self.new.title ≡ self.old.title }
        ensures stops { OnErr result (self.new.keeper.kept.has_stopped ≡ true) }
        ensures after { ComesAfter F.model self.old.keeper.kept.files self.new.keeper.kept.files }
    {
        let parts = TextParts {
            title: &self.title,
            before: text.before,
            table: text.table,
            changes: changed_numbers(text.changes),
            after: text.after,
            records: text.records.bytes,
            changed_records: changed_records(text.changes, text.records.changes),
        };
        match self.texts.keep(&parts) {
            Ok(()) => Ok(()),
            Err(error) => {
                let errno = self.texts.errno();
                self.failure = self.failure.or(Some(KeepFailure { error, errno }));
                Err(KeepError)
            }
        }
    }
}
