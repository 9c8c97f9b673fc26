//! The files that keep a disk's process: how they are made, opened, and read beside a process that has them open.
ghost use Rattle.std.specs.Prelude.{◌≡◌, ◌∷◌, [], IfOk, length};
ghost use Rattle.oram_keeper.specs.Process.{IsFoundIn, IsTextOf, found_text, kept_records, kept_table};
ghost use Rattle.oram_kept.specs.Text.{Parts};

use crate::first_process::FirstProcess;
use crate::found_process::FoundProcess;
use crate::pair_keeper::{KeeperFault, PairKeeper};
use oram_kept::FORMAT;
use oram_pair::{PairFault, copy_files, make_pair, open_files};
use oram_redo::{Syncs, SystemPair};
use oram_rounds::KeptParts;
use std::alloc::Global;

/// How often files are read that a process has open meanwhile, before they count as damaged.
const LOOKS: u32 = 8;

/// How far a log grows ahead of what is written, in bytes: as far as its entries get before it is emptied.
const LOG_ROOM: u64 = 1 << 26;

/// Why the files of a process aren't opened.
#[derive(Clone, Copy, Debug, PartialEq, Eq)]
pub enum OpenFault {
    /// They are no such pair, or another process has them open, or one of them can't be opened.
    Pair(PairFault),
    /// They are such a pair, but no process was read from them.
    Keeper(KeeperFault),
}

impl From<PairFault> for OpenFault {
    fn from(fault: PairFault) -> OpenFault {
        OpenFault::Pair(fault)
    }
}

impl From<KeeperFault> for OpenFault {
    fn from(fault: KeeperFault) -> OpenFault {
        OpenFault::Keeper(fault)
    }
}

/// Makes the files of a disk at a path, with its first process behind a title. Never opens or changes a file that is there
/// ([`make_pair`]). Afterwards they are on the disk, and locked by nobody.
pub fn make_kept(
    rt: &HostRuntime,
    alloc: Global,
    path: &str,
    title: &[u8],
    text: &KeptParts<'_>,
) -> Result<(), PairFault> {
    let first = FirstProcess {
        alloc,
        title,
        text: *text,
    };
    make_pair(rt, alloc, path, &FORMAT, &first)?;
    Ok(())
}

/// Refuses a path where [`make_kept`] would refuse to make the files of a disk, and changes nothing.
pub fn check_free(rt: &HostRuntime, alloc: Global, path: &str) -> Result<(), PairFault> {
    oram_pair::check_free(rt, alloc, path, &FORMAT)
}

/// Opens the files of a disk at a path, and locks them. Returns their keeper, and the process behind a title of `title_len` bytes.
/// Without `syncs`, what is kept outlives the end of the process, and not a loss of power.
pub fn open_kept(
    rt: &HostRuntime,
    alloc: Global,
    path: &str,
    title_len: usize,
    syncs: Syncs,
) -> Result<(PairKeeper<SystemPair>, FoundProcess), OpenFault>
    ensures text { IfOk result (λ opened. (p : Parts) × (opened.0.keeper.texts ≡ p ∷ []) × IsTextOf opened.0.title (found_text opened.1) p) }
    ensures table { IfOk result (λ opened. (p : Parts) × IsFoundIn opened.1 p × (p.table ≡ kept_table opened.0)) }
    ensures records { IfOk result (λ opened. opened.1.records.items ≡ kept_records opened.0) }
    ensures title { IfOk result (λ opened. length opened.0.title ≡ title_len) }
{
    let pair = open_files(rt, alloc, path, &FORMAT)?;
    let files = SystemPair::new(pair.records, pair.log, LOG_ROOM, syncs);
    Ok(PairKeeper::open(alloc, files, pair.generation, title_len)?)
}

/// What was read of a disk's files.
#[derive(Drop)]
pub struct ReadProcess {
    pub title: Vec<u8>,
    pub process: FoundProcess,
}

/// Reads the files of a disk at a path once.
fn read_once(
    rt: &HostRuntime,
    alloc: Global,
    path: &str,
    title_len: usize,
) -> Result<ReadProcess, OpenFault> {
    let pair = copy_files(rt, alloc, path, &FORMAT)?;
    let files = SystemPair::of_copies(pair.records, pair.log);
    let (keeper, process) = PairKeeper::open(alloc, files, pair.generation, title_len)?;
    let title = keeper.title().to_vec(alloc).map_err(KeeperFault::from)?;
    Ok(ReadProcess { title, process })
}

/// Returns whether files that are read while a process writes them may give this fault, although they are sound.
fn may_pass(fault: &OpenFault) -> bool {
    matches!(
        fault,
        OpenFault::Pair(
            PairFault::LogOlder
                | PairFault::LogNewer
                | PairFault::Damaged
                | PairFault::LogDamaged
                | PairFault::CutShort
        ) | OpenFault::Keeper(KeeperFault::Files(_))
    )
}

/// Reads the process that the files of a disk at a path keep, behind a title of `title_len` bytes. It locks nothing and changes nothing, so it works
/// also while another process keeps the disk: then it finds a process that was kept meanwhile. Files that aren't sound are read again, a
/// few times, in case they were read while the log was begun anew.
pub fn read_kept(
    rt: &HostRuntime,
    alloc: Global,
    path: &str,
    title_len: usize,
) -> Result<ReadProcess, OpenFault> {
    for _ in 1..LOOKS {
        match read_once(rt, alloc, path, title_len) {
            Err(fault) if may_pass(&fault) => {}
            read => return read,
        }
    }
    read_once(rt, alloc, path, title_len)
}
