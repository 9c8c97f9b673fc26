//! The file of records with its redo log: what is read and written, and what stops it.
//!
//! Each call of the redo log is in a function of its own, because a proof carries along what is known about each call.
ghost use Rattle.std.specs.Prelude.{◌≡◌, ◌⊎◌, ◌+◌, ◌<◌, ◌≤◌, ◌∷◌, ◌↔◌, [], All, IsTrue, true, false, length, IfErr, IfOk, IsErrOf, MatchResult, OnErr, OnOk};
ghost use Rattle.oram_redo.specs.Batch.{patches_of};
ghost use Rattle.oram_redo.specs.Content.{Agrees, bytes_at, put};
ghost use Rattle.oram_redo.specs.FilePair.{ReadOnto, Rises};
ghost use Rattle.oram_redo.specs.Log.{AgreesBut, Fits, entries, put_all};
ghost use Rattle.oram_redo.specs.Redo.{bounds_of, end_of};
ghost use Rattle.oram_store.specs.RecordFile.{Calls, Commits, IsSteady, MayHave, Passes, ReadsOnly, bounds};
ghost use Rattle.oram_redo.specs.declared.file_pair.FileKind.TheVariants.{Records};

use crate::faults::StoreFault;
use oram_layout::LETTERS;
use oram_pair::{Generation, PairFormat};
use oram_redo::{Bounds, FilePair, Patch, Redo, RedoError};
use std::alloc::Global;
use std::marker::Model;

/// The bounds of the log and of the records in the two files.
pub(crate) const BOUNDS: Bounds = Bounds {
    log_start: 1 << 12,
    log_end: 1 << 26,
    records_end: 1 << 62,
};

/// How the two files are laid out.
pub(crate) const FORMAT: PairFormat = PairFormat {
    letters: LETTERS,
    bounds: BOUNDS,
};

/// A file of records with its redo log.
#[derive(Drop)]
pub(crate) struct RecordFile<F: FilePair> {
    files: F,
    redo: Redo,
    /// The generation of the log, which both fronts say. No clause says what fronts hold.
    generation: Generation,
    /// Whether, since the last sync of the records, a patch was written that the log doesn't have.
    is_loose: bool,
    /// Whether a call of the files has failed, so that they have to be opened again.
    has_stopped: bool,
}

impl<F: FilePair> Model for RecordFile<F> {
    ghost use Rattle.std.specs.Prelude.{◌≡◌};
    ghost use Rattle.oram_redo.specs.Redo.{bounds_of};
    ghost use Rattle.oram_store.specs.RecordFile.{FileValue, bounds};

    ghost Value = { FileValue F };

    ghost view = { λ f. record { files = f.files; redo = f.redo; is_loose = f.is_loose; has_stopped = f.has_stopped } };

    ghost invariant = { λ f. bounds_of f.redo ≡ bounds };
}

impl<F: FilePair> RecordFile<F> {
    /// Returns a record file over files that were opened, with their log, which has this generation.
    pub(crate) fn new(files: F, redo: Redo, generation: Generation) -> RecordFile<F>
        requires { bounds_of redo ≡ bounds }
        ensures { result ≡ record { files = files; redo = redo; is_loose = false; has_stopped = false } }
    {
        RecordFile {
            files,
            redo,
            generation,
            is_loose: false,
            has_stopped: false,
        }
    }

    /// Returns the number of the system's error for which a call of the files failed last, if the system gave one.
    pub(crate) fn errno(&self) -> Option<i32> {
        self.files.errno()
    }

    /// Returns the store's fault for an error of the redo log. Most errors stop the file.
    fn stopped_by(&mut self, error: RedoError) -> StoreFault
        ensures memory { error ≡ RedoError.Memory → (result ≡ StoreFault.OutOfMemory) × (self.new ≡ self.old) }
        ensures no_room { error ≡ RedoError.NoRoom → (result ≡ StoreFault.NoRoom) × (self.new ≡ self.old) }
        ensures others { (error ≡ RedoError.Failed) ⊎ (error ≡ RedoError.LogFull) ⊎ (error ≡ RedoError.Damaged)
            → (result ≡ StoreFault.Io) × (self.new ≡ record self.old { has_stopped = true }) }
        ensures files { self.new.files ≡ self.old.files }
        ensures redo { self.new.redo ≡ self.old.redo }
        ensures loose { self.new.is_loose ≡ self.old.is_loose }
    {
        match error {
            RedoError::Memory => StoreFault::OutOfMemory,
            RedoError::NoRoom => StoreFault::NoRoom,
            RedoError::Failed | RedoError::LogFull | RedoError::Damaged => {
                self.has_stopped = true;
                StoreFault::Io
            }
        }
    }

    /// Reads `len` bytes of the records.
    pub(crate) fn read(&mut self, alloc: Global, at: u64, len: usize) -> Result<Vec<u8>, StoreFault>
        ensures len { IfOk result (λ bytes. length bytes.items ≡ len) }
        ensures bytes { IfOk result (λ bytes. F.model.is_honest self.new.files → bytes.items ≡ bytes_at len at (F.model.seen self.old.files Records)) }
        ensures reads { ReadsOnly F.model self.old self.new }
        ensures calls { Calls F.model result self.old self.new }
        ensures running { OnOk result (self.new.has_stopped ≡ false) }
    {
        if self.has_stopped {
            return Err(StoreFault::Closed);
        }
        match self.redo.read(alloc, &mut self.files, at, len) {
            Ok(bytes) => Ok(bytes),
            Err(error) => Err(self.stopped_by(error)),
        }
    }

    /// Reads `len` bytes of the records, and appends them to `bytes`.
    pub(crate) fn read_onto(
        &mut self,
        at: u64,
        len: usize,
        bytes: &mut Vec<u8>,
    ) -> Result<(), StoreFault>
        ensures bytes { OnOk result (ReadOnto len at (F.model.seen self.old.files Records) (F.model.is_honest self.new.files) bytes.old.items bytes.new.items) }
        ensures reads { ReadsOnly F.model self.old self.new }
        ensures calls { Calls F.model result self.old self.new }
        ensures running { OnOk result (self.new.has_stopped ≡ false) }
    {
        if self.has_stopped {
            return Err(StoreFault::Closed);
        }
        match self.redo.read_onto(&mut self.files, at, len, bytes) {
            Ok(()) => Ok(()),
            Err(error) => Err(self.stopped_by(error)),
        }
    }

    /// Writes a patch that doesn't count yet. After `Err`, part of it may be written.
    pub(crate) fn write_loose(&mut self, at: u64, bytes: &[u8]) -> Result<(), StoreFault>
        ensures passes { (loose : _) → IsSteady F.model self.old loose
            → Passes F.model ((at, bytes.now) ∷ loose)
            (λ r. AgreesBut ((at, bytes.now) ∷ loose) r (F.model.seen self.old.files Records)) self.old self.new }
        ensures written { OnOk result (Agrees (F.model.seen self.new.files Records) (put bytes.now at (F.model.seen self.old.files Records))) }
        ensures elsewhere { AgreesBut ((at, bytes.now) ∷ []) (F.model.seen self.new.files Records) (F.model.seen self.old.files Records) }
        ensures calls { Calls F.model result self.old self.new }
        ensures running { OnOk result (self.new.has_stopped ≡ false) }
    {
        if self.has_stopped {
            return Err(StoreFault::Closed);
        }
        self.is_loose = true;
        match self.redo.write_loose(&mut self.files, at, bytes) {
            Ok(()) => Ok(()),
            Err(error) => Err(self.stopped_by(error)),
        }
    }

    /// Returns whether the log has no entries.
    pub(crate) fn has_empty_log(&self) -> bool
        ensures { IsTrue result ↔ (end_of self.now.redo ≡ bounds.log_start) }
    {
        self.redo.is_empty()
    }

    /// Makes everything that was written durable, and empties the log. A log that had entries begins a new generation, so that
    /// a copy of it from before is told from it.
    pub(crate) fn restart(&mut self) -> Result<(), StoreFault>
        ensures passes { (loose : _) → IsSteady F.model self.old loose
            → Passes F.model [] (λ r. AgreesBut loose r (F.model.seen self.old.files Records)) self.old self.new }
        ensures empty { OnOk result (end_of self.new.redo ≡ bounds.log_start) }
        ensures sure { OnOk result (self.new.is_loose ≡ false) }
        ensures same { Agrees (F.model.seen self.new.files Records) (F.model.seen self.old.files Records) }
        ensures errors { IfErr result (λ fault. (fault ≡ StoreFault.NoRoom) ⊎ (fault ≡ StoreFault.Io) ⊎ (fault ≡ StoreFault.Closed)) }
        ensures no_room { IsErrOf result StoreFault.NoRoom → end_of self.new.redo ≡ bounds.log_start }
        ensures calls { Calls F.model result self.old self.new }
        ensures running { OnOk result (self.new.has_stopped ≡ false) }
    {
        if self.has_empty_log() {
            return self.settle();
        }
        self.begin_anew()
    }

    /// Makes everything that was written durable, empties the log, and begins a new generation.
    fn begin_anew(&mut self) -> Result<(), StoreFault>
        ensures passes { (loose : _) → IsSteady F.model self.old loose
            → Passes F.model [] (λ r. AgreesBut loose r (F.model.seen self.old.files Records)) self.old self.new }
        ensures empty { OnOk result (end_of self.new.redo ≡ bounds.log_start) }
        ensures sure { OnOk result (self.new.is_loose ≡ false) }
        ensures same { Agrees (F.model.seen self.new.files Records) (F.model.seen self.old.files Records) }
        ensures errors { IfErr result (λ fault. (fault ≡ StoreFault.NoRoom) ⊎ (fault ≡ StoreFault.Io) ⊎ (fault ≡ StoreFault.Closed)) }
        ensures no_room { IsErrOf result StoreFault.NoRoom → end_of self.new.redo ≡ bounds.log_start }
        ensures calls { Calls F.model result self.old self.new }
        ensures running { OnOk result (self.new.has_stopped ≡ false) }
    {
        self.settle()?;
        self.begin_generation()
    }

    /// Makes everything that was written durable, and empties the log.
    fn settle(&mut self) -> Result<(), StoreFault>
        ensures passes { (loose : _) → IsSteady F.model self.old loose
            → Passes F.model [] (λ r. AgreesBut loose r (F.model.seen self.old.files Records)) self.old self.new }
        ensures empty { OnOk result (end_of self.new.redo ≡ bounds.log_start) }
        ensures sure { OnOk result (self.new.is_loose ≡ false) }
        ensures same { Agrees (F.model.seen self.new.files Records) (F.model.seen self.old.files Records) }
        ensures errors { IfErr result (λ fault. (fault ≡ StoreFault.Io) ⊎ (fault ≡ StoreFault.Closed)) }
        ensures calls { Calls F.model result self.old self.new }
        ensures running { OnOk result (self.new.has_stopped ≡ false) }
    {
        if self.has_stopped {
            return Err(StoreFault::Closed);
        }
        match self.redo.restart(&mut self.files) {
            Ok(()) => {
                self.is_loose = false;
                Ok(())
            }
            Err(error) => Err(self.stopped_by(error)),
        }
    }

    /// Has both fronts say that the log, which has no entries, begins a new generation. If there is no room, the file goes on, and the next call
    /// tries again.
    fn begin_generation(&mut self) -> Result<(), StoreFault>
        ensures reads { ReadsOnly F.model self.old self.new }
        ensures errors { IfErr result (λ fault. (fault ≡ StoreFault.NoRoom) ⊎ (fault ≡ StoreFault.Io) ⊎ (fault ≡ StoreFault.Closed)) }
        ensures calls { Calls F.model result self.old self.new }
        ensures running { OnOk result (self.new.has_stopped ≡ false) }
    {
        if self.has_stopped {
            return Err(StoreFault::Closed);
        }
        match self.generation.begin_next(&LETTERS, &mut self.files) {
            Ok(()) => Ok(()),
            Err(error) => Err(self.stopped_by(error)),
        }
    }

    /// Makes the loose patches durable. Before the first entry of a log, it begins a new generation, so that a copy of the empty
    /// log is told from the log that has entries.
    fn make_sure(&mut self) -> Result<(), StoreFault>
        ensures passes { (loose : _) → IsSteady F.model self.old loose
            → Passes F.model [] (λ r. AgreesBut loose r (F.model.seen self.old.files Records)) self.old self.new }
        ensures sure { OnOk result (self.new.is_loose ≡ false) }
        ensures same { Agrees (F.model.seen self.new.files Records) (F.model.seen self.old.files Records) }
        ensures errors { IfErr result (λ fault. (fault ≡ StoreFault.NoRoom) ⊎ (fault ≡ StoreFault.Io) ⊎ (fault ≡ StoreFault.Closed)) }
        ensures no_room { IsErrOf result StoreFault.NoRoom → end_of self.new.redo ≡ bounds.log_start }
        ensures calls { Calls F.model result self.old self.new }
    {
        if self.is_loose {
            return self.begin_anew();
        }
        if self.has_empty_log() {
            return self.begin_generation();
        }
        Ok(())
    }

    /// Commits a batch, and returns whether the log had room for it, and its disk had.
    fn commit_if_room(&mut self, alloc: Global, batch: &[Patch]) -> Result<bool, StoreFault>
        requires { All (Fits bounds) (patches_of batch.now) }
        ensures passes { IsSteady F.model self.old []
            → Passes F.model []
            (MayHave F.model (MatchResult result (λ fits. fits ≡ true) (λ _. self.new.has_stopped ≡ true)) (patches_of batch.now) self.old) self.old self.new }
        ensures done { IfOk result (λ fits. fits ≡ true → Agrees (F.model.seen self.new.files Records) (put_all (patches_of batch.now) (F.model.seen self.old.files Records))) }
        ensures full { IfOk result (λ fits. fits ≡ false
            → (bounds.log_end ≤ end_of self.old.redo + length (entries (patches_of batch.now))) ⊎ Rises F.model.shortages self.old.files self.new.files) }
        ensures end_stays { IfOk result (λ fits. fits ≡ false → end_of self.new.redo ≡ end_of self.old.redo) }
        ensures not_done { IfOk result (λ fits. fits ≡ false → Agrees (F.model.seen self.new.files Records) (F.model.seen self.old.files Records)) }
        ensures refused { OnErr result (self.new.has_stopped ≡ false → Agrees (F.model.seen self.new.files Records) (F.model.seen self.old.files Records)) }
        ensures room { IsErrOf result StoreFault.NoRoom → ⊥ }
        ensures calls { Calls F.model result self.old self.new }
        ensures running { OnOk result (self.new.has_stopped ≡ false) }
    {
        if self.has_stopped {
            return Err(StoreFault::Closed);
        }
        match self.redo.commit(alloc, &mut self.files, batch) {
            Ok(()) => Ok(true),
            Err(RedoError::LogFull) => Ok(false),
            Err(RedoError::NoRoom) => Ok(false),
            Err(RedoError::Memory) => Err(StoreFault::OutOfMemory),
            Err(error @ (RedoError::Failed | RedoError::Damaged)) => Err(self.stopped_by(error)),
        }
    }

    /// Commits a batch that fits in an empty log. If the log has no room for it, the log is begun anew: its first bytes have
    /// room even on a full disk, since the file has them already.
    fn commit_sure(&mut self, alloc: Global, batch: &[Patch]) -> Result<(), StoreFault>
        requires fits { All (Fits bounds) (patches_of batch.now) }
        requires short { bounds.log_start + length (entries (patches_of batch.now)) < bounds.log_end }
        ensures passes { IsSteady F.model self.old []
            → Passes F.model []
            (MayHave F.model (OnErr result (self.new.has_stopped ≡ true)) (patches_of batch.now) self.old) self.old self.new }
        ensures done { OnOk result (Agrees (F.model.seen self.new.files Records) (put_all (patches_of batch.now) (F.model.seen self.old.files Records))) }
        ensures undone { OnErr result (self.new.has_stopped ≡ false → Agrees (F.model.seen self.new.files Records) (F.model.seen self.old.files Records)) }
        ensures no_room { IsErrOf result StoreFault.NoRoom → end_of self.new.redo ≡ bounds.log_start }
        ensures calls { Calls F.model result self.old self.new }
        ensures running { OnOk result (self.new.has_stopped ≡ false) }
    {
        if self.commit_if_room(alloc, batch)? {
            return Ok(());
        }
        self.restart()?;
        if self.commit_if_room(alloc, batch)? {
            return Ok(());
        }
        // An empty log isn't full, so it's the disk that is.
        Err(StoreFault::NoRoom)
    }

    /// Commits a batch that fits in an empty log: all of it. After `Err` nothing is committed, unless the file has
    /// stopped. It finds no room only if the log is empty.
    pub(crate) fn commit(&mut self, alloc: Global, batch: &[Patch]) -> Result<(), StoreFault>
        requires fits { All (Fits bounds) (patches_of batch.now) }
        requires short { bounds.log_start + length (entries (patches_of batch.now)) < bounds.log_end }
        ensures commits { Commits F.model (patches_of batch.now) result self.old self.new }
        ensures no_room { IsErrOf result StoreFault.NoRoom → end_of self.new.redo ≡ bounds.log_start }
        ensures calls { Calls F.model result self.old self.new }
        ensures running { OnOk result (self.new.has_stopped ≡ false) }
    {
        self.make_sure()?;
        self.commit_sure(alloc, batch)
    }
}
