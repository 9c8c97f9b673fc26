//! How the two files of a new pair are made.
//!
//! They are made under other names, locked and filled, and then get their own names: the log first. So whenever the process or the
//! machine ends, there is no file at the pair's path, or the whole pair is there. What was left by a making that was broken off is taken
//! away, and nothing else is: anything else at one of the four names is refused.
ghost use Rattle.std.specs.Prelude.{◌≡◌, ◌≢◌, ◌⊎◌, ◌↔◌, Err, IfOk, IsOk, OnErr, OnOk, []};
ghost use Rattle.oram_pair.specs.Filling.{IsFilledPair};
ghost use Rattle.oram_pair.specs.Making.{Grows, HasFile, HasLog, IsCareful, IsFilled, IsHeld, IsMade, IsOurs, IsReady, MakingExample, NeverLeavesHalf, notes_of};

use crate::faults::PairFault;
use crate::filling::Fill;
use crate::format::PairFormat;
use crate::fronts::Identity;
use crate::generations::Generation;
use crate::leftovers::Found;
use crate::names::PairName;
use crate::new_pair::NewPair;
use oram_redo::{FilePair, SystemPair};
use std::alloc::Global;
use std::fs::File;
use std::io;
use std::random::RandomSource;

/// What looks at the four names have found.
#[derive(Clone, Copy, Debug, PartialEq, Eq)]
pub struct Place {
    pub file: Found,
    pub log: Found,
    pub new_file: Found,
    pub new_log: Found,
}

/// Refuses a place where a pair can't be made, since there is something else at one of its names.
pub fn check_place(place: &Place) -> Result<(), PairFault>
    ensures free { IsOk result ↔ ((place.now.file ≡ Found.Nothing) × (place.now.log ≢ Found.Another) × (place.now.new_file ≢ Found.Another) × (place.now.new_log ≢ Found.Another)) }
    ensures exists { (result ≡ Err PairFault.Exists) ↔ (place.now.file ≢ Found.Nothing) }
    ensures log { (result ≡ Err PairFault.LogWithoutFile) ↔ ((place.now.file ≡ Found.Nothing) × (place.now.log ≡ Found.Another)) }
    ensures new_file { (result ≡ Err PairFault.NewFileTaken) ↔ ((place.now.file ≡ Found.Nothing) × (place.now.log ≢ Found.Another) × (place.now.new_file ≡ Found.Another)) }
    ensures new_log { (result ≡ Err PairFault.NewLogTaken) ↔ ((place.now.file ≡ Found.Nothing) × (place.now.log ≢ Found.Another) × (place.now.new_file ≢ Found.Another) × (place.now.new_log ≡ Found.Another)) }
{
    match place {
        Place {
            file: Found::Leftover | Found::Another,
            ..
        } => Err(PairFault::Exists),
        Place {
            log: Found::Another,
            ..
        } => Err(PairFault::LogWithoutFile),
        Place {
            new_file: Found::Another,
            ..
        } => Err(PairFault::NewFileTaken),
        Place {
            new_log: Found::Another,
            ..
        } => Err(PairFault::NewLogTaken),
        _ => Ok(()),
    }
}

/// Makes the file of a new pair and its log beside it, of this format and with this filling, and returns the two, open and locked, and the generation
/// that their fronts say. It never opens or changes a file that is there: if there is anything at the path, it fails with `Exists`; if there
/// is something else where it makes the two, with `LogWithoutFile`, `NewFileTaken` or `NewLogTaken` ([`check_place`]); and if another process
/// is making the same pair, with `Busy`.
///
/// Whenever the process or the machine ends during this, there is nothing at the path, or the whole pair ([`never_leaves_half`]). What is left of a
/// making that was broken off is taken away by the next one.
pub fn make_pair<W: Fill>(
    rt: &HostRuntime,
    alloc: Global,
    path: &str,
    format: &PairFormat,
    filling: &W,
) -> Result<(SystemPair, Generation), PairFault>
    ensures filled { IfOk result (λ made. IsFilledPair ⟦<SystemPair as FilePair>⟧.model format.now made.1.identity (W.fills filling.now) made.0) }
    ensures first { IfOk result (λ made. made.1.number ≡ 1) }
{
    let mut pair = NewPair::new(rt, alloc, path, format)?;
    let first = Generation::first(new_identity(rt)?);
    let files = make_noted(&mut pair, format, &first, filling)?;
    Ok((files, first))
}

/// Refuses a path where [`make_pair`] would refuse to make a pair of this format, and changes nothing.
pub fn check_free(
    rt: &HostRuntime,
    alloc: Global,
    path: &str,
    format: &PairFormat,
) -> Result<(), PairFault> {
    let mut pair = NewPair::new(rt, alloc, path, format)?;
    check_place(&look_at_all(&mut pair)?)
}

fn new_identity(rt: &HostRuntime) -> io::Result<Identity> {
    let mut identity = [0; 16];
    rt.fill_bytes(&mut identity)?;
    Ok(Identity(identity))
}

/// Makes the two files of a pair, whose fronts say this generation. If this fails, it takes away again what it has made, as far as that can
/// be done; what stays, the next making takes away.
fn make_noted<W: Fill>(
    pair: &mut NewPair<'_>,
    format: &PairFormat,
    first: &Generation,
    filling: &W,
) -> Result<SystemPair, PairFault>
    requires new { notes_of pair.old ≡ [] }
    ensures careful { IsCareful (notes_of pair.new) }
    ensures made { OnOk result (IsMade (notes_of pair.new)) }
    ensures filled { IfOk result (IsFilledPair ⟦<SystemPair as FilePair>⟧.model format.now first.now.identity (W.fills filling.now)) }
{
    check_place(&look_at_all(pair)?)?;
    let records = begin(pair)?;
    match make_named(pair, records, format, first, filling) {
        Ok(files) => with_folder_synced(pair, files),
        Err(fault) => {
            let _gone = pair.take(PairName::NewFile);
            Err(fault)
        }
    }
}

/// Syncs the folder of files that have their names, and returns the files.
fn with_folder_synced(pair: &mut NewPair<'_>, files: SystemPair) -> Result<SystemPair, PairFault>
    requires careful { IsCareful (notes_of pair.old) }
    requires file { HasFile (notes_of pair.old) }
    ensures careful { IsCareful (notes_of pair.new) }
    ensures made { OnOk result (IsMade (notes_of pair.new)) }
    ensures same { IfOk result (λ synced. synced ≡ files) }
{
    match pair.sync_folder() {
        Ok(()) => Ok(files),
        Err(error) => Err(error.into()),
    }
}

/// Looks at the four names, and changes nothing.
fn look_at_all(pair: &mut NewPair<'_>) -> Result<Place, PairFault>
    requires careful { IsCareful (notes_of pair.old) }
    ensures careful { IsCareful (notes_of pair.new) }
    ensures no_log { HasLog (notes_of pair.new) → HasLog (notes_of pair.old) }
{
    Ok(Place {
        file: pair.look(PairName::File)?,
        log: pair.look(PairName::Log)?,
        new_file: pair.look(PairName::NewFile)?,
        new_log: pair.look(PairName::NewLog)?,
    })
}

/// Makes the new file, and locks it.
fn begin(pair: &mut NewPair<'_>) -> Result<File, PairFault>
    requires careful { IsCareful (notes_of pair.old) }
    ensures careful { IsCareful (notes_of pair.new) }
    ensures held { OnOk result (IsHeld (notes_of pair.new)) }
    ensures ours { OnOk result (IsOurs PairName.NewFile (notes_of pair.new)) }
    ensures no_log { HasLog (notes_of pair.new) → HasLog (notes_of pair.old) }
{
    clear_new_file(pair)?;
    let file = pair.make(PairName::NewFile)?;
    pair.lock(&file)?;
    Ok(file)
}

/// Takes away a new file that was left, unless another process has it locked.
fn clear_new_file(pair: &mut NewPair<'_>) -> Result<(), PairFault>
    requires careful { IsCareful (notes_of pair.old) }
    ensures careful { IsCareful (notes_of pair.new) }
    ensures no_log { HasLog (notes_of pair.new) → HasLog (notes_of pair.old) }
{
    match pair.look(PairName::NewFile)? {
        Found::Nothing => Ok(()),
        Found::Leftover => {
            let _locked = pair.lock_leftover()?;
            Ok(pair.take(PairName::NewFile)?)
        }
        Found::Another => Err(PairFault::NewFileTaken),
    }
}

/// Takes away what was left at the name of a log, its own or the one under which it is made.
fn clear(pair: &mut NewPair<'_>, name: PairName, taken: PairFault) -> Result<(), PairFault>
    requires careful { IsCareful (notes_of pair.old) }
    requires log { (name ≡ PairName.Log) ⊎ (name ≡ PairName.NewLog) }
    requires unnamed { HasLog (notes_of pair.old) → ⊥ }
    ensures careful { IsCareful (notes_of pair.new) }
    ensures grows { Grows (notes_of pair.old) (notes_of pair.new) }
    ensures no_log { HasLog (notes_of pair.new) → HasLog (notes_of pair.old) }
    ensures others { (other : PairName) → other ≢ name → IsOurs other (notes_of pair.old) → IsOurs other (notes_of pair.new) }
{
    match pair.look(name)? {
        Found::Nothing => Ok(()),
        Found::Leftover => Ok(pair.take(name)?),
        Found::Another => Err(taken),
    }
}

/// Makes the log beside a new file that is locked, and gives both their names: the log first, and then the folder is synced. After `Err` the new file
/// still has the name under which it was made.
fn make_named<W: Fill>(
    pair: &mut NewPair<'_>,
    records: File,
    format: &PairFormat,
    first: &Generation,
    filling: &W,
) -> Result<SystemPair, PairFault>
    requires careful { IsCareful (notes_of pair.old) }
    requires held { IsHeld (notes_of pair.old) }
    requires ours { IsOurs PairName.NewFile (notes_of pair.old) }
    requires unnamed { HasLog (notes_of pair.old) → ⊥ }
    ensures careful { IsCareful (notes_of pair.new) }
    ensures file { OnOk result (HasFile (notes_of pair.new)) }
    ensures left { OnErr result (IsOurs PairName.NewFile (notes_of pair.new)) }
    ensures filled { IfOk result (IsFilledPair ⟦<SystemPair as FilePair>⟧.model format.now first.now.identity (W.fills filling.now)) }
{
    let files = make_log(pair, records, format, first, filling)?;
    pair.sync_folder()?;
    give_name(pair, PairName::NewFile, PairName::File, PairFault::Exists)?;
    Ok(files)
}

/// Makes the log beside a new file that is locked, fills both, and gives the log its name. First it looks again at the name of the file:
/// another process may have made the same pair before the new file was locked.
fn make_log<W: Fill>(
    pair: &mut NewPair<'_>,
    records: File,
    format: &PairFormat,
    first: &Generation,
    filling: &W,
) -> Result<SystemPair, PairFault>
    requires careful { IsCareful (notes_of pair.old) }
    requires held { IsHeld (notes_of pair.old) }
    requires ours { IsOurs PairName.NewFile (notes_of pair.old) }
    requires unnamed { HasLog (notes_of pair.old) → ⊥ }
    ensures careful { IsCareful (notes_of pair.new) }
    ensures log { OnOk result (HasLog (notes_of pair.new)) }
    ensures ours { IsOurs PairName.NewFile (notes_of pair.new) }
    ensures filled { IfOk result (IsFilledPair ⟦<SystemPair as FilePair>⟧.model format.now first.now.identity (W.fills filling.now)) }
{
    if pair.look(PairName::File)? != Found::Nothing {
        return Err(PairFault::Exists);
    }
    clear(pair, PairName::NewLog, PairFault::NewLogTaken)?;
    let log = pair.make(PairName::NewLog)?;
    match fill_and_name_log(pair, records, log, format, first, filling) {
        Ok(files) => Ok(files),
        Err(fault) => {
            let _gone = pair.take(PairName::NewLog);
            Err(fault)
        }
    }
}

/// Fills two new files, and gives the log its name. After `Err` the new log still has the name under which it was made.
fn fill_and_name_log<W: Fill>(
    pair: &mut NewPair<'_>,
    records: File,
    log: File,
    format: &PairFormat,
    first: &Generation,
    filling: &W,
) -> Result<SystemPair, PairFault>
    requires careful { IsCareful (notes_of pair.old) }
    requires held { IsHeld (notes_of pair.old) }
    requires ours { IsOurs PairName.NewLog (notes_of pair.old) }
    requires file { IsOurs PairName.NewFile (notes_of pair.old) }
    requires unnamed { HasLog (notes_of pair.old) → ⊥ }
    ensures careful { IsCareful (notes_of pair.new) }
    ensures log { OnOk result (HasLog (notes_of pair.new)) }
    ensures ours { OnErr result (IsOurs PairName.NewLog (notes_of pair.new)) }
    ensures file { IsOurs PairName.NewFile (notes_of pair.new) }
    ensures filled { IfOk result (IsFilledPair ⟦<SystemPair as FilePair>⟧.model format.now first.now.identity (W.fills filling.now)) }
{
    let files = pair.fill(records, log, format, first, filling)?;
    clear(pair, PairName::Log, PairFault::LogWithoutFile)?;
    name_log(pair)?;
    Ok(files)
}

/// Gives the log its name.
fn name_log(pair: &mut NewPair<'_>) -> Result<(), PairFault>
    requires careful { IsCareful (notes_of pair.old) }
    requires filled { IsFilled (notes_of pair.old) }
    requires ours { IsOurs PairName.NewLog (notes_of pair.old) }
    ensures careful { IsCareful (notes_of pair.new) }
    ensures log { OnOk result (HasLog (notes_of pair.new)) }
    ensures ours { OnErr result (IsOurs PairName.NewLog (notes_of pair.new)) }
    ensures file { IsOurs PairName.NewFile (notes_of pair.old) → IsOurs PairName.NewFile (notes_of pair.new) }
{
    give_name(
        pair,
        PairName::NewLog,
        PairName::Log,
        PairFault::LogWithoutFile,
    )
}

/// Gives a new file its own name, unless there is something of that name. Then it fails with `taken`. After `Err` the new file still has the name
/// under which it was made.
fn give_name(
    pair: &mut NewPair<'_>,
    from: PairName,
    to: PairName,
    taken: PairFault,
) -> Result<(), PairFault>
    requires careful { IsCareful (notes_of pair.old) }
    requires new { (from ≡ PairName.NewFile) ⊎ (from ≡ PairName.NewLog) }
    requires ready { to ≡ PairName.File → IsReady (notes_of pair.old) }
    requires ours { IsOurs from (notes_of pair.old) }
    ensures careful { IsCareful (notes_of pair.new) }
    ensures file { OnOk result (to ≡ PairName.File → HasFile (notes_of pair.new)) }
    ensures log { OnOk result (to ≡ PairName.Log → IsFilled (notes_of pair.old) → HasLog (notes_of pair.new)) }
    ensures left { OnErr result (IsOurs from (notes_of pair.new)) }
    ensures others { (other : PairName) → other ≢ from → IsOurs other (notes_of pair.old) → IsOurs other (notes_of pair.new) }
{
    if pair.link(from, to, taken)? {
        // If this fails, the new file keeps its other name, too, and the next making takes that away.
        let _gone = pair.take(from);
        return Ok(());
    }
    // A file system without links: here another program may give a file this name between the look and the renaming.
    if pair.look(to)? != Found::Nothing {
        return Err(taken);
    }
    Ok(pair.rename(from, to)?)
}

/// A law about definitions: a making whose deeds were all allowed leaves no half of a pair, whenever it ends.
pub fn never_leaves_half()
    ensures law { NeverLeavesHalf }
    ensures example { MakingExample }
{}
