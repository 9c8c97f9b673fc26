//! A pair of files in memory, for which contracts say what a crash may leave.
ghost use Rattle.std.specs.Prelude.{◌≡◌, ◌⊎◌, ◌+◌, ℕ, [], ◌∷◌, ◌++◌, length, drop, IfOk, IsTrue, OnErr, OnOk, ◌↔◌};
ghost use Rattle.std.proofs.Common.{inl, refl};
ghost use Rattle.oram_redo.specs.Content.{Agrees, bytes_at, put};
ghost use Rattle.oram_redo.specs.FilePair.{Same, Wrote};
ghost use Rattle.oram_redo.specs.Memory.{HadLeft, IsCopy, IsOutside, MayLeave, byte_of, contents_of, only_held};

use crate::{FileKind, FilePair, RedoError};
use std::alloc::{AllocError, Global};

/// A range of a file that was written, and that no sync has covered.
#[derive(Clone, Copy, Debug)]
pub struct Range {
    pub file: FileKind,
    pub at: usize,
    pub len: usize,
}

/// What a pair holds at one moment.
#[derive(Drop)]
pub struct Snapshot {
    pub records: Vec<u8>,
    pub log: Vec<u8>,
    pub unsynced: Vec<Range>,
}

/// Two files in memory. The pair keeps a copy of what it held at each past moment.
#[derive(Drop)]
pub struct MemoryPair {
    alloc: Global,
    held: Snapshot,
    past: Vec<Snapshot>,
}

// Returns the bytes of a file after `bytes` are written at a place, with zeros before them where the file was shorter.
fn overwritten(alloc: Global, old: &[u8], at: usize, bytes: &[u8]) -> Result<Vec<u8>, AllocError>
    ensures { IfOk result (λ new. Agrees (byte_of new.items) (put bytes.now at (byte_of old.now))) }
{
    let mut new = old.to_vec(alloc)?;
    new.resize(at, 0)?;
    new.extend_from_slice(bytes)?;
    let end = new.len();
    if end >= old.len() {
        return Ok(new);
    }
    new.extend_from_slice(&old[end..])?;
    Ok(new)
}

// Returns the byte at `at + i`, or 0 past the end.
fn byte_at(file: &[u8], at: usize, i: usize) -> u8
    ensures { result ≡ byte_of file.now (at + i) }
{
    let Some(place) = at.checked_add(i) else {
        return 0;
    };
    if place < file.len() { file[place] } else { 0 }
}

// Returns `len` bytes of a file from a place on, with zeros past its end.
fn bytes_from(alloc: Global, file: &[u8], at: u64, len: usize) -> Result<Vec<u8>, AllocError>
    ensures bytes { IfOk result (λ bytes. bytes.items ≡ bytes_at len at (byte_of file.now)) }
    ensures len { IfOk result (λ bytes. length bytes.items ≡ len) }
{
    let mut bytes = Vec::new(alloc);
    for i in 0..len {
        bytes.push(byte_at(file, at as usize, i))?;
    }
    Ok(bytes)
}

fn copy_of(alloc: Global, held: &Snapshot) -> Result<Snapshot, AllocError>
    ensures { IfOk result (IsCopy held.now) }
{
    Ok(Snapshot {
        records: held.records.to_vec(alloc)?,
        log: held.log.to_vec(alloc)?,
        unsynced: held.unsynced.to_vec(alloc)?,
    })
}

// Returns what the pair holds after a write.
fn written(
    alloc: Global,
    held: &Snapshot,
    file: FileKind,
    at: u64,
    bytes: &[u8],
) -> Result<Snapshot, AllocError>
    ensures contents { IfOk result (λ next. Wrote file at bytes.now (contents_of held.now) (contents_of next)) }
    ensures unsynced { IfOk result (λ next. next.unsynced.items ≡ held.now.unsynced.items
        ++ record { file = file; at = at; len = length bytes.now } ∷ []) }
{
    let at = at as usize;
    let mut unsynced = held.unsynced.to_vec(alloc)?;
    unsynced.push(Range {
        file,
        at,
        len: bytes.len(),
    })?;
    match file {
        FileKind::Records => Ok(Snapshot {
            records: overwritten(alloc, &held.records, at, bytes)?,
            log: held.log.to_vec(alloc)?,
            unsynced,
        }),
        FileKind::Log => Ok(Snapshot {
            records: held.records.to_vec(alloc)?,
            log: overwritten(alloc, &held.log, at, bytes)?,
            unsynced,
        }),
    }
}

fn is_of_another(range: &Range, file: FileKind) -> bool
    ensures { IsTrue result ↔ (range.now.file ≡ file → ⊥) }
{
    range.file != file
}

// Returns the ranges of the other file.
fn ranges_but(alloc: Global, ranges: &[Range], file: FileKind) -> Result<Vec<Range>, AllocError>
    ensures synced { IfOk result (λ kept. (i : ℕ) → IsOutside kept.items file i) }
    ensures fewer { IfOk result (λ kept. (other : _) (i : ℕ) → IsOutside ranges.now other i → IsOutside kept.items other i) }
{
    let mut kept = Vec::new(alloc);
    for range in ranges {
        if is_of_another(range, file) {
            kept.push(*range)?;
        }
    }
    Ok(kept)
}

// Returns what the pair holds after a sync.
fn synced(alloc: Global, held: &Snapshot, file: FileKind) -> Result<Snapshot, AllocError>
    ensures contents { IfOk result (λ next. Same (contents_of next) (contents_of held.now)) }
    ensures synced { IfOk result (λ next. (i : ℕ) → IsOutside next.unsynced.items file i) }
    ensures fewer { IfOk result (λ next. (other : _) (i : ℕ) → IsOutside held.now.unsynced.items other i → IsOutside next.unsynced.items other i) }
{
    Ok(Snapshot {
        records: held.records.to_vec(alloc)?,
        log: held.log.to_vec(alloc)?,
        unsynced: ranges_but(alloc, &held.unsynced, file)?,
    })
}

// Replaces what the pair holds, and adds a copy of the old content to its past.
fn replace(
    alloc: Global,
    held: &mut Snapshot,
    past: &mut Vec<Snapshot>,
    next: Snapshot,
) -> Result<(), AllocError>
    ensures ok { OnOk result (held.new ≡ next) }
    ensures err { OnErr result (held.new ≡ held.old) }
    ensures past { OnOk result ((copy : _) × IsCopy held.old copy × (past.new.items ≡ past.old.items ++ copy ∷ [])) }
    ensures past_err { OnErr result (past.new.items ≡ past.old.items) }
{
    past.push(copy_of(alloc, held)?)?;
    *held = next;
    Ok(())
}

impl MemoryPair {
    ghost use Rattle.oram_redo.specs.Memory.{seen_of};

    /// Returns two empty files.
    pub fn new(alloc: Global) -> Self
        ensures { (file : _) (i : ℕ) → seen_of result file i ≡ 0 }
    {
        MemoryPair {
            alloc,
            held: Snapshot {
                records: Vec::new(alloc),
                log: Vec::new(alloc),
                unsynced: Vec::new(alloc),
            },
            past: Vec::new(alloc),
        }
    }
}

impl FilePair for MemoryPair {
    // Memory may run out at any call, so nothing is known of failures and shortages.
    ghost model = { record {
      seen = λ m. contents_of m.held;
      may_leave = λ m. MayLeave m.held;
      moment = λ m. length m.past.items;
      left_since = λ m t c. MayLeave m.held c ⊎ HadLeft (drop t m.past.items) c;
      is_honest = λ m. Unit {0};
      failures = λ m n. Unit {0};
      shortages = λ m n. Unit {0};
    } };

    ghost counts_now = { λ m t c le now. inl now };

    ghost whole = { λ m file i outside. refl };

    ghost only_now = { λ m c left. only_held m.past.items m.held c left };

    fn read_onto(
        &mut self,
        file: FileKind,
        at: u64,
        len: usize,
        bytes: &mut Vec<u8>,
    ) -> Result<(), RedoError> {
        let read = match file {
            FileKind::Records => bytes_from(self.alloc, &self.held.records, at, len)?,
            FileKind::Log => bytes_from(self.alloc, &self.held.log, at, len)?,
        };
        bytes.extend_from_slice(&read)?;
        Ok(())
    }

    fn write_at(&mut self, file: FileKind, at: u64, bytes: &[u8]) -> Result<(), RedoError> {
        let Ok(next) = written(self.alloc, &self.held, file, at, bytes) else {
            return Err(RedoError::NoRoom);
        };
        match replace(self.alloc, &mut self.held, &mut self.past, next) {
            Ok(()) => Ok(()),
            Err(_) => Err(RedoError::NoRoom),
        }
    }

    fn sync(&mut self, file: FileKind) -> Result<(), RedoError> {
        let Ok(next) = synced(self.alloc, &self.held, file) else {
            return Err(RedoError::Failed);
        };
        match replace(self.alloc, &mut self.held, &mut self.past, next) {
            Ok(()) => Ok(()),
            Err(_) => Err(RedoError::Failed),
        }
    }

    /// Only syncs the file: a pair in memory has no fronts.
    fn write_front(&mut self, file: FileKind, _at: u64, _bytes: &[u8]) -> Result<(), RedoError> {
        self.sync(file)
    }

    fn errno(&self) -> Option<i32> {
        None
    }
}
