//! A text that is kept in a pair of files.
ghost use Rattle.std.specs.Prelude.{◌≡◌, ◌⊎◌, ◌<◌, ◌≤◌, ◌+◌, ◌^◌, ◌++◌, ◌∷◌, [], ℕ, All, List, IfErr, IfOk, IsErr, IsErrOf, OnErr, OnOk, false, length, true};
ghost use Rattle.oram_kept.specs.Kept.{FindsEither, Keeps, StandsEither, bounds};
ghost use Rattle.oram_kept.specs.Layout.{HasRecords, HasTable, HaveRoom, Holds, head_of};
ghost use Rattle.oram_kept.specs.Text.{Parts};
ghost use Rattle.oram_kept.specs.Pages.{AreTold, AreToldRecords, AreWritten, StayInPlace, batch_for, parts_of, patches_of as pages_of};
ghost use Rattle.oram_redo.specs.Batch.{patches_of};
ghost use Rattle.oram_redo.specs.Content.{Agrees, Content};
ghost use Rattle.oram_redo.specs.FilePair.{ComesAfter, Contents, HasFailed, LeavesOnly, Rises, WritesNothing};
ghost use Rattle.oram_redo.specs.Log.{Fits, StandsFor, entries, put_all};
ghost use Rattle.oram_redo.specs.Redo.{IsCrashConsistent, bounds_of, end_of};
ghost use Rattle.oram_redo.specs.declared.file_pair.FileKind.TheVariants.{Log, Records};

use crate::head::HEAD_AT;
use crate::pages::{Page, PagedPart, TABLE_AT};
use crate::reading::Text;
use crate::text::{ChangedNumbers, ChangedRecords, TextParts};
use crate::text_history::TextHistory;
use oram_pair::{Generation, PairFormat, PairLetters};
use oram_redo::{Bounds, FileKind, FilePair, Patch, Redo, RedoError};
use std::alloc::{AllocError, Global};
use std::marker::Model;

/// Where the log and the text stand in their files.
const BOUNDS: Bounds = Bounds {
    log_start: 1 << 12,
    log_end: 1 << 40,
    records_end: 1 << 62,
};

/// How the pair of files of a text is laid out: the letters of its two files, with the version 2, and its bounds.
pub const FORMAT: PairFormat = PairFormat {
    letters: PairLetters {
        records: *b"VIDLAQEC\x02\0\0\0\0\0\0\0",
        log: *b"VIDLAQCL\x02\0\0\0\0\0\0\0",
    },
    bounds: BOUNDS,
};

/// How long the log's entries may be before a keeping, in bytes. A longer log is emptied first.
const LONG: u64 = 1 << 26;

/// A text that is kept in a pair of files.
#[derive(Drop)]
pub struct KeptText<F: FilePair> {
    alloc: Global,
    files: F,
    redo: Redo,
    /// The generation of the log, which both fronts say. No clause says what fronts hold.
    generation: Generation,
    /// The text that was kept last. Only contracts read it.
    last: TextHistory,
    /// Whether a call has failed, so that the files have to be opened again.
    has_stopped: bool,
}

impl<F: FilePair> Model for KeptText<F> {
    ghost use Rattle.std.specs.Prelude.{◌≡◌};
    ghost use Rattle.oram_kept.specs.Kept.{KeptValue, bounds, newest_records, newest_table};
    ghost use Rattle.oram_redo.specs.Redo.{bounds_of};

    ghost Value = { KeptValue F };

    ghost view = { λ k. record { files = k.files; redo = k.redo; table = newest_table k.last.texts; records = newest_records k.last.texts; has_stopped = k.has_stopped } };

    ghost invariant = { λ k. bounds_of k.redo ≡ bounds };
}

/// What a keeping changes besides the two texts around the table.
#[derive(Drop)]
struct Change {
    pages: Vec<Page>,
    head: Vec<u8>,
}

/// Returns what a text changes in the file, if these numbers of its table and these records may have changed.
fn change_for(
    alloc: Global,
    text: &TextParts<'_>,
    changes: ChangedNumbers<'_>,
    changed_records: ChangedRecords<'_>,
) -> Result<Change, RedoError>
    ensures room { OnOk result (HaveRoom (parts_of text.now)) }
    ensures pages { IfOk result (λ change. AreWritten changes.entry changed_records.entry (parts_of text.now) (pages_of change.pages.items)) }
    ensures head { IfOk result (λ change. change.head.items ≡ head_of (parts_of text.now)) }
    ensures errors { IfErr result (λ e. (e ≡ RedoError.Memory) ⊎ (e ≡ RedoError.LogFull)) }
    ensures full { IsErrOf result RedoError.LogFull → HaveRoom (parts_of text.now) → ⊥ }
{
    if !text.have_room() {
        return Err(RedoError::LogFull);
    }
    let table = PagedPart::Table(text.table);
    let records = PagedPart::Records(text.records);
    let mut pages = Vec::new(alloc);
    table.add_told_pages(alloc, TABLE_AT, changes.as_records(), &mut pages)?;
    records.add_told_pages(alloc, text.records_at(), changed_records, &mut pages)?;
    let head = text.head(alloc)?;
    Ok(Change { pages, head })
}

impl Change {
    /// Returns the batch of a keeping: the pages that change, and behind them the patches of the texts around the table and of the head.
    fn batch_of<'a>(
        &'a self,
        alloc: Global,
        text: TextParts<'a>,
    ) -> Result<Vec<Patch<'a>>, AllocError>
        requires { HaveRoom (parts_of text) }
        ensures { IfOk result (λ batch. patches_of batch.items ≡ batch_for (pages_of self.now.pages.items) (parts_of text.entry) text.entry.title.now text.entry.before.now self.now.head.items) }
    {
        let mut batch = Vec::with_capacity(alloc, self.pages.len().saturating_add(4))?;
        for page in &self.pages {
            batch.push(Patch {
                at: page.at,
                bytes: &page.bytes,
            })?;
        }
        batch.push(Patch {
            at: text.before_at(),
            bytes: text.title,
        })?;
        batch.push(Patch {
            at: text.behind_title_at(),
            bytes: text.before,
        })?;
        batch.push(Patch {
            at: text.after_at(),
            bytes: text.after,
        })?;
        batch.push(Patch {
            at: HEAD_AT,
            bytes: &self.head,
        })?;
        Ok(batch)
    }
}

/// Writes the patches of a batch to their places in the file of records. Nothing is synced.
fn write_all<F: FilePair>(files: &mut F, batch: &[Patch]) -> Result<(), RedoError>
    ensures records { OnOk result (Agrees (F.model.seen files.new Records) (put_all (patches_of batch.now) (F.model.seen files.old Records))) }
    ensures log { Agrees (F.model.seen files.new Log) (F.model.seen files.old Log) }
    ensures failed { IsErrOf result RedoError.Failed → HasFailed F.model files.old files.new }
    ensures no_room { IsErrOf result RedoError.NoRoom → Rises F.model.shortages files.old files.new }
    ensures errors { IfErr result (λ e. (e ≡ RedoError.NoRoom) ⊎ (e ≡ RedoError.Failed)) }
    ensures after { ComesAfter F.model files.old files.new }
{
    for patch in batch {
        files.write_at(FileKind::Records, patch.at, patch.bytes)?;
    }
    Ok(())
}

/// Writes the first text of new files, whose log has no entries, to its places. Nothing is synced: a crash may leave any part of it, and there is
/// nothing yet that could be lost.
pub fn write_first<F: FilePair>(
    alloc: Global,
    files: &mut F,
    text: &TextParts<'_>,
) -> Result<(), RedoError>
    ensures holds { OnOk result (Holds (parts_of text.now) (F.model.seen files.new Records)) }
    ensures front { OnOk result ((i : ℕ) → i < bounds.log_start → F.model.seen files.new Records i ≡ F.model.seen files.old Records i) }
    ensures log { Agrees (F.model.seen files.new Log) (F.model.seen files.old Log) }
    ensures failed { IsErrOf result RedoError.Failed → HasFailed F.model files.old files.new }
    ensures no_room { IsErrOf result RedoError.NoRoom → Rises F.model.shortages files.old files.new }
    ensures damaged { IsErrOf result RedoError.Damaged → ⊥ }
    ensures full { IsErrOf result RedoError.LogFull → HaveRoom (parts_of text.now) → ⊥ }
    ensures after { ComesAfter F.model files.old files.new }
{
    let change = change_for(alloc, text, ChangedNumbers::Any, ChangedRecords::Any)?;
    let batch = change.batch_of(alloc, text.lent())?;
    write_all(files, &batch)
}

/// Empties the log if it is long.
fn shorten<F: FilePair>(files: &mut F, redo: &mut Redo) -> Result<(), RedoError>
    ensures consistent { IsCrashConsistent F.model redo.old [] files.old → OnOk result (IsCrashConsistent F.model redo.new [] files.new) }
    ensures records { Agrees (F.model.seen files.new Records) (F.model.seen files.old Records) }
    ensures any_moment { IsCrashConsistent F.model redo.old [] files.old
        → LeavesOnly F.model files.old files.new (StandsFor (bounds_of redo.old) [] (F.model.seen files.old Records)) }
    ensures bounds { bounds_of redo.new ≡ bounds_of redo.old }
    ensures short { OnOk result (end_of redo.new ≤ (bounds_of redo.old).log_start + 2 ^ 26) }
    ensures failed { IfErr result (λ e. (e ≡ RedoError.Failed) × HasFailed F.model files.old files.new) }
    ensures after { ComesAfter F.model files.old files.new }
{
    if redo.log_len() <= LONG {
        return Ok(());
    }
    redo.restart(files)
}

/// Before the first entry of a log, begins a new generation of it, so that a copy of the log without entries is told from the log that has them.
fn begin<F: FilePair>(
    files: &mut F,
    redo: &Redo,
    generation: &mut Generation,
) -> Result<(), RedoError>
    ensures nothing_written { WritesNothing F.model files.old files.new }
    ensures failed { IsErrOf result RedoError.Failed → HasFailed F.model files.old files.new }
    ensures no_room { IsErrOf result RedoError.NoRoom → Rises F.model.shortages files.old files.new }
    ensures errors { IfErr result (λ e. (e ≡ RedoError.NoRoom) ⊎ (e ≡ RedoError.Failed)) }
    ensures after { ComesAfter F.model files.old files.new }
{
    if !redo.is_empty() {
        return Ok(());
    }
    generation.begin_next(&FORMAT.letters, files)
}

/// Commits a batch, after it has emptied a log that is long. A crash at any moment leaves all of the batch or nothing of it.
fn commit<F: FilePair>(
    alloc: Global,
    files: &mut F,
    redo: &mut Redo,
    generation: &mut Generation,
    batch: &[Patch],
) -> Result<(), RedoError>
    requires { All (Fits (bounds_of redo.old)) (patches_of batch.now) }
    ensures consistent { IsCrashConsistent F.model redo.old [] files.old → OnOk result (IsCrashConsistent F.model redo.new [] files.new) }
    ensures records { OnOk result (Agrees (F.model.seen files.new Records) (put_all (patches_of batch.now) (F.model.seen files.old Records))) }
    ensures any_moment { IsCrashConsistent F.model redo.old [] files.old
        → LeavesOnly F.model files.old files.new (StandsEither (bounds_of redo.old) (F.model.seen files.old Records) (put_all (patches_of batch.now) (F.model.seen files.old Records))) }
    ensures bounds { bounds_of redo.new ≡ bounds_of redo.old }
    ensures failed { IsErrOf result RedoError.Failed → HasFailed F.model files.old files.new }
    ensures no_room { IsErrOf result RedoError.NoRoom → Rises F.model.shortages files.old files.new }
    ensures damaged { IsErrOf result RedoError.Damaged → ⊥ }
    ensures full { IsErrOf result RedoError.LogFull → (bounds_of redo.old).log_end ≤ (bounds_of redo.old).log_start + 2 ^ 26 + length (entries (patches_of batch.now)) }
    ensures after { ComesAfter F.model files.old files.new }
{
    shorten(files, redo)?;
    begin(files, redo, generation)?;
    redo.commit(alloc, files, batch)
}

impl<F: FilePair> KeptText<F> {
    /// Makes what keeps a text of opened files, whose log has this generation, and of the text that was read from them, which is
    /// returned, too.
    pub(crate) fn over(
        alloc: Global,
        files: F,
        redo: Redo,
        generation: Generation,
        text: Text,
    ) -> (KeptText<F>, Text)
        requires { bounds_of redo ≡ bounds }
        ensures { result ≡ (record { files = files; redo = redo; table = text.table.items; records = text.records.items; has_stopped = false }, text) }
    {
        let mut last = TextHistory::new();
        let around = &text.around;
        last.note(
            &[],
            &around.before,
            &text.table,
            &around.after,
            &text.records,
        );
        let kept = KeptText {
            alloc,
            files,
            redo,
            generation,
            last,
            has_stopped: false,
        };
        (kept, text)
    }
}

impl<F: FilePair> KeptText<F> {
    /// Returns the number of the system's error for which a call of the files failed last, if the system gave one.
    pub fn errno(&self) -> Option<i32> {
        self.files.errno()
    }

    /// Returns whether a call has failed, so that nothing more is kept until the files are opened again.
    pub fn has_stopped(&self) -> bool
        ensures { result ≡ self.now.has_stopped }
    {
        self.has_stopped
    }

    /// Writes a text over the one before.
    fn put(&mut self, text: &TextParts<'_>) -> Result<(), RedoError>
        requires table { AreTold text.now.changes self.old.table text.now.table.now }
        requires records { AreToldRecords text.now.changed_records self.old.records text.now.records.now }
        requires place { StayInPlace text.now.changed_records self.old.table text.now.table.now }
        ensures ok { IsCrashConsistent F.model self.old.redo [] self.old.files → HasTable self.old.table (F.model.seen self.old.files Records)
            → HasRecords self.old.table self.old.records (F.model.seen self.old.files Records)
            → OnOk result (Keeps F.model (parts_of text.now) (record self.new { table = text.now.table.now; records = text.now.records.now })) }
        ensures table { self.new.table ≡ self.old.table }
        ensures records { self.new.records ≡ self.old.records }
        ensures any_moment { (p : Parts) → Keeps F.model p self.old
            → LeavesOnly F.model self.old.files self.new.files (FindsEither bounds p (parts_of text.now)) }
        ensures failed { IsErrOf result RedoError.Failed → HasFailed F.model self.old.files self.new.files }
        ensures no_room { IsErrOf result RedoError.NoRoom → Rises F.model.shortages self.old.files self.new.files }
        ensures damaged { IsErrOf result RedoError.Damaged → ⊥ }
        ensures full { IsErrOf result RedoError.LogFull → HaveRoom (parts_of text.now) → ⊥ }
        ensures after { ComesAfter F.model self.old.files self.new.files }
        ensures stopped { self.new.has_stopped ≡ self.old.has_stopped }
    {
        let alloc = self.alloc;
        let change = change_for(alloc, text, text.changes, text.changed_records)?;
        let batch = change.batch_of(alloc, text.lent())?;
        let (redo, generation) = (&mut self.redo, &mut self.generation);
        commit(alloc, &mut self.files, redo, generation, &batch)
    }

    /// Keeps a text in place of the one before. The text tells which numbers of its table and which of its records may have changed: this
    /// writes the pages with these, and the texts around the table. It never looks at the other pages.
    ///
    /// A crash at any moment leaves files with the text of before or with this one, and once this returns `Ok`, only with this one. After an
    /// error nothing more is kept: the files have to be opened again, and hold one of the two.
    pub fn keep(&mut self, text: &TextParts<'_>) -> Result<(), RedoError>
        requires table { AreTold text.now.changes self.old.table text.now.table.now }
        requires records { AreToldRecords text.now.changed_records self.old.records text.now.records.now }
        requires place { StayInPlace text.now.changed_records self.old.table text.now.table.now }
        ensures table { OnOk result (self.new.table ≡ text.now.table.now) }
        ensures table_before { OnErr result (self.new.table ≡ self.old.table) }
        ensures records { OnOk result (self.new.records ≡ text.now.records.now) }
        ensures records_before { OnErr result (self.new.records ≡ self.old.records) }
        ensures ok { (p : Parts) → Keeps F.model p self.old → OnOk result (Keeps F.model (parts_of text.now) self.new) }
        ensures any_moment { (p : Parts) → Keeps F.model p self.old
            → LeavesOnly F.model self.old.files self.new.files (FindsEither bounds p (parts_of text.now)) }
        // After an error, too, a crash leaves one of the two.
        ensures either { (p : Parts) → Keeps F.model p self.old → (c : Contents) → F.model.may_leave self.new.files c → FindsEither bounds p (parts_of text.now) c }
        ensures goes_on { OnOk result (self.new.has_stopped ≡ false) }
        ensures stops { OnErr result (self.new.has_stopped ≡ true) }
        ensures stays { self.old.has_stopped ≡ true → IsErr result × (self.new ≡ self.old) }

        // An error of the files comes only if a call of them has failed, then or before, or found no room.
        ensures failed { IsErrOf result RedoError.Failed → (self.old.has_stopped ≡ true) ⊎ HasFailed F.model self.old.files self.new.files }
        ensures no_room { IsErrOf result RedoError.NoRoom → Rises F.model.shortages self.old.files self.new.files }
        ensures damaged { IsErrOf result RedoError.Damaged → ⊥ }
        ensures full { IsErrOf result RedoError.LogFull → HaveRoom (parts_of text.now) → ⊥ }
        ensures after { ComesAfter F.model self.old.files self.new.files }
    {
        if self.has_stopped {
            return Err(RedoError::Failed);
        }
        match self.put(text) {
            Ok(()) => {
                self.last.note_text(text);
                Ok(())
            }
            Err(error) => {
                self.has_stopped = true;
                Err(error)
            }
        }
    }
}
