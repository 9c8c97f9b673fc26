//! The two files as the redo log sees them.
ghost use Rattle.std.specs.Prelude.{◌≡◌, ◌⊎◌, ◌≤◌, ℕ, length, IfErr, OnOk};
ghost use Rattle.oram_redo.specs.FilePair.{ComesAfter, Contents, FileModel, Follows, HasCause, IsSure, ReadOnto, Same, TimeGoesOn, Torn, Wrote};

use crate::RedoError;

/// One of the two files.
#[derive(Clone, Copy, Debug, PartialEq, Eq)]
pub enum FileKind {
    Records,
    Log,
}

/// A file of records and a log beside it. Both are sparse: what was never written reads as zeros.
///
/// Between two syncs, a crash may leave any bytes in the places that were written. After a sync of a file has failed,
/// no later sync of it may return `Ok`, since the writes that the failed one had to cover may be lost.
pub trait FilePair {
    /// What contracts say of the two files.
    ghost model: { FileModel Self };

    /// Reads `len` bytes and appends them to `bytes`; holes and places past the end read as zeros. After `Err`, any
    /// bytes may have been appended.
    fn read_onto(
        &mut self,
        file: FileKind,
        at: u64,
        len: usize,
        bytes: &mut Vec<u8>,
    ) -> Result<(), RedoError>
        ensures bytes { OnOk result (ReadOnto len at (model.seen self.old file) (model.is_honest self.new) bytes.old.items bytes.new.items) }
        ensures seen { Same (model.seen self.new) (model.seen self.old) }
        ensures crash { (c : Contents) → model.may_leave self.new c → model.may_leave self.old c }
        ensures time { TimeGoesOn model self.old self.new }
        ensures after { ComesAfter model self.old self.new }
        ensures cause { HasCause model self.old self.new result }
        ensures errors { IfErr result (λ e. (e ≡ RedoError.Memory) ⊎ (e ≡ RedoError.Failed)) };

    /// Writes the bytes. Until the file is synced, a crash may leave any bytes in their place. After `Err`, a read may
    /// return any bytes there.
    fn write_at(&mut self, file: FileKind, at: u64, bytes: &[u8]) -> Result<(), RedoError>
        ensures written { OnOk result (Wrote file at bytes.now (model.seen self.old) (model.seen self.new)) }
        ensures torn { Torn file at (length bytes.now) (model.seen self.old) (model.seen self.new) }
        ensures crash { Follows (Torn file at (length bytes.now)) (model.may_leave self.old) (model.may_leave self.new) }
        ensures time { TimeGoesOn model self.old self.new }
        ensures after { ComesAfter model self.old self.new }
        ensures cause { HasCause model self.old self.new result }
        ensures errors { IfErr result (λ e. (e ≡ RedoError.NoRoom) ⊎ (e ≡ RedoError.Failed)) };

    /// Syncs a file. After `Ok`, a crash leaves of that file what a read returns.
    fn sync(&mut self, file: FileKind) -> Result<(), RedoError>
        ensures sure { OnOk result (IsSure model file self.new) }
        ensures seen { Same (model.seen self.new) (model.seen self.old) }
        ensures crash { (c : Contents) → model.may_leave self.new c → model.may_leave self.old c }
        ensures time { TimeGoesOn model self.old self.new }
        ensures after { ComesAfter model self.old self.new }
        ensures cause { HasCause model self.old self.new result }
        ensures errors { IfErr result (λ e. e ≡ RedoError.Failed) };

    /// Writes bytes into the front of a file, and syncs the file. Its front is a range of places that the other methods are never
    /// called for, so what it holds is no part of `seen`, and no contract says it. A pair may write into the front of the records too, from
    /// `LENGTH_AT` on. If there is no room for the bytes, any part of them
    /// may be written, and the call may be made again.
    fn write_front(&mut self, file: FileKind, at: u64, bytes: &[u8]) -> Result<(), RedoError>
        ensures sure { OnOk result (IsSure model file self.new) }
        ensures seen { Same (model.seen self.new) (model.seen self.old) }
        ensures crash { (c : Contents) → model.may_leave self.new c → model.may_leave self.old c }
        ensures time { TimeGoesOn model self.old self.new }
        ensures after { ComesAfter model self.old self.new }
        ensures cause { HasCause model self.old self.new result }
        ensures errors { IfErr result (λ e. (e ≡ RedoError.NoRoom) ⊎ (e ≡ RedoError.Failed)) };

    /// Returns the number of the system's error for which a call failed last, if the system gave one.
    fn errno(&self) -> Option<i32>;

    /// What a crash may leave now also counts as what a crash since any earlier moment might have left.
    ghost counts_now: { (files : Self) (t : ℕ) (c : Contents) → t ≤ model.moment files → model.may_leave files c → model.left_since files t c };

    /// A crash may leave everything that was written.
    ghost whole: { (files : Self) → model.may_leave files (model.seen files) };

    /// What a crash since the current moment might have left is what a crash may leave now.
    ghost only_now: { (files : Self) (c : Contents) → model.left_since files (model.moment files) c → model.may_leave files c };
}
