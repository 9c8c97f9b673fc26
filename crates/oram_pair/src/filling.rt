//! What a new pair is filled with before it gets its names.
ghost use Rattle.std.specs.Prelude.{◌≡◌, ◌⊎◌, ℕ, IfErr, IsErrOf, OnOk};
ghost use Rattle.oram_pair.specs.Filling.{AreNew, IsFilledPair, IsFilling};
ghost use Rattle.oram_pair.specs.declared.fronts.Identity.{Identity};
ghost use Rattle.oram_redo.specs.FilePair.{ComesAfter, Contents, HasCause, HasFailed, IsSure, Rises, Same};

use crate::faults::PairFault;
use crate::format::PairFormat;
use crate::fronts::{Identity, front_of};
use crate::generations::Generation;
use oram_redo::{FileKind, FilePair, RedoError, SHUT};

/// What a new pair is filled with before it gets its names. Its files have their fronts then, and a log without entries, and they are
/// synced after the filling.
///
/// A filling writes behind the fronts, and its log never has an entry: so what is left of a making that was broken off at any moment is known
/// as such, and the next making takes it away. If the log had an entry meanwhile, it would be taken for a used one, which only a person may
/// take away.
pub trait Fill {
    /// Which contents a filling may make of those of new files.
    ghost fills: { Self → Contents → Contents → Type 0 };

    /// Fills new files. After `Err` they are taken away.
    fn fill<F: FilePair>(&self, format: &PairFormat, files: &mut F) -> Result<(), PairFault>
        requires { (identity : Identity) × AreNew format.now identity (F.model.seen files.old) }
        ensures filled { OnOk result (fills self.now (F.model.seen files.old) (F.model.seen files.new)) }
        ensures kept { OnOk result (IsFilling format.now (F.model.seen files.old) (F.model.seen files.new)) }
        ensures no_room { IsErrOf result PairFault.NoRoom → Rises F.model.shortages files.old files.new }
        ensures failed { IsErrOf result PairFault.Io → HasFailed F.model files.old files.new }
        ensures after { ComesAfter F.model files.old files.new };
}

/// Writes the fronts of two empty files with this identity, and the first gate of the log, and syncs both files. So from then on they are known
/// as a new pair, also after a loss of power.
pub fn begin_files<F: FilePair>(
    format: &PairFormat,
    identity: &Identity,
    files: &mut F,
) -> Result<(), RedoError>
    requires empty { (file : _) (i : ℕ) → F.model.seen files.old file i ≡ 0 }
    ensures new { OnOk result (AreNew format.now identity.now (F.model.seen files.new)) }
    ensures sure { OnOk result ((file : _) → IsSure F.model file files.new) }
    ensures cause { HasCause F.model files.old files.new result }
    ensures errors { IfErr result (λ e. (e ≡ RedoError.NoRoom) ⊎ (e ≡ RedoError.Failed)) }
    ensures after { ComesAfter F.model files.old files.new }
{
    files.write_at(FileKind::Log, 0, &front_of(&format.letters.log, identity))?;
    files.write_at(
        FileKind::Records,
        0,
        &front_of(&format.letters.records, identity),
    )?;
    files.write_at(FileKind::Log, format.bounds.log_start, &[SHUT])?;
    files.sync(FileKind::Log)?;
    files.sync(FileKind::Records)
}

/// Has the fronts of both files say a generation after the one before it, so that both fields of each are sound. This also syncs the files.
fn say_first<F: FilePair>(
    format: &PairFormat,
    first: &Generation,
    files: &mut F,
) -> Result<(), RedoError>
    ensures seen { Same (F.model.seen files.new) (F.model.seen files.old) }
    ensures sure { OnOk result ((file : _) → IsSure F.model file files.new) }
    ensures cause { HasCause F.model files.old files.new result }
    ensures errors { IfErr result (λ e. (e ≡ RedoError.NoRoom) ⊎ (e ≡ RedoError.Failed)) }
    ensures after { ComesAfter F.model files.old files.new }
{
    first.before().say(&format.letters, files)?;
    first.say(&format.letters, files)
}

/// Makes two empty files a pair: writes their fronts, fills them, and then has their fronts say this generation, which also syncs
/// them.
pub fn fill_files<F: FilePair, W: Fill>(
    format: &PairFormat,
    first: &Generation,
    filling: &W,
    files: &mut F,
) -> Result<(), PairFault>
    requires empty { (file : _) (i : ℕ) → F.model.seen files.old file i ≡ 0 }
    ensures filled { OnOk result (IsFilledPair F.model format.now first.now.identity (W.fills filling.now) files.new) }
    ensures no_room { IsErrOf result PairFault.NoRoom → Rises F.model.shortages files.old files.new }
    ensures failed { IsErrOf result PairFault.Io → HasFailed F.model files.old files.new }
    ensures after { ComesAfter F.model files.old files.new }
{
    begin_files(format, &first.identity, files)?;
    filling.fill(format, files)?;
    say_first(format, first, files)?;
    Ok(())
}
