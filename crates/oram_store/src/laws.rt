//! Laws of the definitions, as contracts of functions that do nothing, and one run from empty files, whose promise
//! rests on no premise that might never hold.
ghost use Rattle.std.specs.Prelude.{◌≡◌, ℕ, List, [], ◌∷◌, false, length, true, IfErr, IfOk, IfSome};
ghost use Rattle.oram_layout.specs.Records.{AreKept};
ghost use Rattle.oram_layout.specs.Trees.{sizes_of};
ghost use Rattle.oram_redo.specs.FilePair.{Contents};
ghost use Rattle.oram_store.specs.Answers.{IsKeptAtOnce};
ghost use Rattle.oram_store.specs.Crashes.{Serves};
ghost use Rattle.oram_store.specs.GroupRuns.{AnswersGroups, AreRequests, Group, GroupsInTurn, RunsInTurn, both_done};
ghost use Rattle.oram_store.specs.Groups.{AreCarriedOut};
ghost use Rattle.oram_store.specs.KeptRecords.{Holds, IsSound, StoreValue, records_of, sure_records};
ghost use Rattle.oram_store.specs.Laws.{HoldsPath, IdentityStays, no_records};
ghost use Rattle.oram_store.specs.Messages.{OfHost};
ghost use Rattle.oram_store.specs.NewFiles.{NewFilesStand};
ghost use Rattle.oram_store.specs.OpenOutcomes.{IsNotOpened};
ghost use Rattle.oram_store.specs.Openings.{LosesNothing};
ghost use Rattle.oram_store.specs.RecordFile.{Finds, Runs};
ghost use Rattle.oram_store.specs.Refusals.{RespondsWith};
ghost use Rattle.oram_store.specs.Reopened.{IsFoundAgain, IsOpenedOver};
ghost use Rattle.oram_wire.specs.HostBodies.{HasNumbers};
ghost use Rattle.oram_wire.specs.declared.host_messages.HostAnswer.{HostAnswer};

use crate::creation::create;
use crate::faults::StoreFault;
use crate::store::FileStore;
use oram_bytes::Bytes;
use oram_layout::Shape;
use oram_pair::{Generation, Identity};
use oram_redo::FilePair;
use oram_wire::{HostAnswer, HostRequest, is_done as says_done};
use std::alloc::{AllocError, Global};

/// A crash between two calls leaves files in which the sure records are found.
pub fn found_again<F: FilePair>(store: &FileStore<F>)
    ensures { IsSound F.model store.now → (c : Contents) → F.model.may_leave store.now.file.files c
        → Finds (F.model.seen store.now.file.files) (Holds store.now.trees (sure_records F.model store.now)) c }
{}

/// Once a disk has its first tree, no request changes the disk's identity, whatever the store answers.
pub fn identity_stays()
    ensures { IdentityStays }
{}

/// From before the log of a store is renewed until the store is opened, whatever a loss of power leaves stands for the same records, if it
/// did before. That holds however the opening ends; `last` is what the pair of files is then.
pub fn opening_loses_nothing<F: FilePair + Drop>(
    alloc: Global,
    files: F,
    generation: Generation,
) -> Result<FileStore<F>, StoreFault>
    ensures opened { IfOk result (λ store. F.model.is_honest store.file.files → LosesNothing F.model files store.file.files) }
    ensures not_opened { IfErr result (λ why. (last : F) × IsNotOpened F.model why files last × (F.model.is_honest last → LosesNothing F.model files last)) }
{
    FileStore::over(alloc, files, generation)
}

/// Messages that a store answers group by group are answered as if each had come alone, one after the other. A crash at any moment finds
/// the messages of some first groups carried out, and none of the others.
pub fn groups_in_turn<F: FilePair>(store: &FileStore<F>)
    ensures { (groups : List Group) (new : StoreValue F) → AreRequests groups → AnswersGroups F.model groups store.now new
        → F.model.is_honest new.file.files → IsSound F.model store.now → GroupsInTurn F.model groups store.now new }
{}

/// A store has answered some groups, `first`, and its file hasn't stopped. Then a crash comes, at once or while it answers `others`. A store that
/// is opened over the files that the crash leaves has what `first` and some groups of `others` make, and nothing of the rest. Only of PUTs
/// that were answered without a STORE, those may be missing that still wait to be committed.
pub fn answered_is_found_again<F: FilePair>(store: &FileStore<F>)
    ensures { (first others : List Group) (at new again : StoreValue F) (c : Contents) → AreRequests first → AreRequests others
        → AnswersGroups F.model first store.now at → AnswersGroups F.model others at new → at.file.has_stopped ≡ false
        → F.model.is_honest new.file.files → IsSound F.model store.now → F.model.left_since new.file.files (F.model.moment at.file.files) c
        → IsOpenedOver F.model c again → IsFoundAgain F.model first others store.now again }
{}

/// The files of a new store meet the premises of [`open_pair`](crate::open_pair), and so they do once their log has the entry of a first
/// tree.
pub fn new_files_stand()
    ensures { (identity : Identity) (whole : length identity.0 ≡ 16) → NewFilesStand identity whole }
{}

/// Makes a store of empty files, gives it a tree, and stores the records of one path. Each crash from then on leaves
/// files in which these records are found, and no others. Returns `None` if the store refused one of the two requests.
pub fn first_life<F: FilePair + Drop>(
    alloc: Global,
    mut files: F,
    identity: &Identity,
    tree: u8,
    shape: Shape,
    leaf: u32,
    records: Bytes,
) -> Result<Option<FileStore<F>>, StoreFault>
    requires { (file : _) (i : ℕ) → F.model.seen files file i ≡ 0 }
    ensures { IfOk result (λ stored. IfSome stored (λ store. F.model.is_honest store.file.files → (c : Contents) → F.model.may_leave store.file.files c
        → Finds (F.model.seen store.file.files) (HoldsPath store.trees tree (sizes_of shape) leaf records) c)) }
{
    create(&mut files, identity)?;
    let mut store = FileStore::over(alloc, files, Generation::first(*identity))?;
    if !is_stored(alloc, &mut store, tree, shape, leaf, records)? {
        return Ok(None);
    }
    Ok(Some(store))
}

/// Gives a store a tree, stores the records of one path, and returns whether both were done.
fn is_stored<F: FilePair>(
    alloc: Global,
    store: &mut FileStore<F>,
    tree: u8,
    shape: Shape,
    leaf: u32,
    records: Bytes,
) -> Result<bool, AllocError>
    ensures found { IfOk result (λ stored. stored ≡ true → F.model.is_honest store.new.file.files → IsSound F.model store.old → AreKept no_records (records_of F.model store.old)
        → (c : Contents) → F.model.may_leave store.new.file.files c → Finds (F.model.seen store.new.file.files) (HoldsPath store.new.trees tree (sizes_of shape) leaf records) c) }
    ensures runs { Runs F.model store.old.file store.new.file }
{
    let shaping = HostRequest::Shape {
        tree,
        depth: shape.depth,
        record_len: shape.record_len,
    };
    if !is_done(alloc, store, &shaping)? {
        return Ok(false);
    }
    let storing = HostRequest::Store {
        tree,
        leaf,
        records,
    };
    is_done(alloc, store, &storing)
}

/// Sends a request to a store, and returns whether it was done.
fn is_done<F: FilePair>(
    alloc: Global,
    store: &mut FileStore<F>,
    request: &HostRequest,
) -> Result<bool, AllocError>
    requires { HasNumbers request.now }
    ensures responds { IfOk result (λ done. done ≡ true → RespondsWith store.old.trees request.now HostAnswer.Done store.new.trees) }
    ensures goes_on { IfOk result (λ done. done ≡ true → store.new.file.has_stopped ≡ false) }
    ensures committed { IfOk result (λ done. done ≡ true → IsKeptAtOnce request.now → store.new.pending ≡ []) }
    ensures serves { IfOk result (λ done. done ≡ true → F.model.is_honest store.new.file.files → IsSound F.model store.old
        → Serves F.model request.now HostAnswer.Done store.old store.new) }
    ensures runs { Runs F.model store.old.file store.new.file }
{
    let body = request.encode(alloc)?;
    match store.handle(&body) {
        HostAnswer::Done => Ok(true),
        HostAnswer::Payload(_) | HostAnswer::Refused(_) => Ok(false),
    }
}

/// Makes a store of empty files, gives it a tree, and has it answer two requests that have arrived together. If it has answered both as done,
/// in one group, the run meets the premises of [`groups_in_turn`]; and each crash from then on leaves files in which both are carried out,
/// and nothing else. Returns `None` if the store refused the tree, or did otherwise with the two: for two STOREs into the tree it doesn't,
/// as long as there is room.
pub fn first_group<F: FilePair + Drop>(
    alloc: Global,
    files: F,
    identity: &Identity,
    tree: u8,
    shape: Shape,
    first: &HostRequest,
    second: &HostRequest,
) -> Result<Option<FileStore<F>>, StoreFault>
    requires empty { (file : _) (i : ℕ) → F.model.seen files file i ≡ 0 }
    requires numbers { HasNumbers first.now × HasNumbers second.now }
    ensures run { IfOk result (λ answered. IfSome answered (λ store. F.model.is_honest store.file.files
        → (before : StoreValue F) × RunsInTurn F.model (both_done first.now second.now) before store)) }
    ensures found { IfOk result (λ answered. IfSome answered (λ store. F.model.is_honest store.file.files → (c : Contents) → F.model.may_leave store.file.files c
        → Finds (F.model.seen store.file.files) (AreCarriedOut store.trees no_records (OfHost first.now ∷ OfHost second.now ∷ [])) c)) }
{
    let Some(mut store) = first_tree(alloc, files, identity, tree, shape)? else {
        return Ok(None);
    };
    if !are_done_together(alloc, &mut store, first, second)? {
        return Ok(None);
    }
    Ok(Some(store))
}

/// Makes a store of empty files, and gives it a tree. Returns `None` if the store refused that.
fn first_tree<F: FilePair + Drop>(
    alloc: Global,
    mut files: F,
    identity: &Identity,
    tree: u8,
    shape: Shape,
) -> Result<Option<FileStore<F>>, StoreFault>
    requires { (file : _) (i : ℕ) → F.model.seen files file i ≡ 0 }
    ensures sound { IfOk result (λ made. IfSome made (λ store. F.model.is_honest store.file.files → IsSound F.model store)) }
    ensures blank { IfOk result (λ made. IfSome made (λ store. F.model.is_honest store.file.files → AreKept no_records (records_of F.model store))) }
{
    create(&mut files, identity)?;
    let mut store = FileStore::over(alloc, files, Generation::first(*identity))?;
    let shaping = HostRequest::Shape {
        tree,
        depth: shape.depth,
        record_len: shape.record_len,
    };
    if !is_done(alloc, &mut store, &shaping)? {
        return Ok(None);
    }
    Ok(Some(store))
}

/// Has a store answer two requests that have arrived together, and returns whether it has answered both as done, in one group.
fn are_done_together<F: FilePair>(
    alloc: Global,
    store: &mut FileStore<F>,
    first: &HostRequest,
    second: &HostRequest,
) -> Result<bool, AllocError>
    requires { HasNumbers first.now × HasNumbers second.now }
    ensures run { IfOk result (λ done. done ≡ true → F.model.is_honest store.new.file.files → IsSound F.model store.old
        → RunsInTurn F.model (both_done first.now second.now) store.old store.new) }
    ensures found { IfOk result (λ done. done ≡ true → F.model.is_honest store.new.file.files → IsSound F.model store.old → AreKept no_records (records_of F.model store.old)
        → (c : Contents) → F.model.may_leave store.new.file.files c
        → Finds (F.model.seen store.new.file.files) (AreCarriedOut store.new.trees no_records (OfHost first.now ∷ OfHost second.now ∷ [])) c) }
    ensures runs { Runs F.model store.old.file store.new.file }
{
    let bodies = [first.encode(alloc)?, second.encode(alloc)?];
    let (count, answer) = store.answer_group(alloc, &bodies)?;
    Ok(count == 2 && says_done(&answer))
}
