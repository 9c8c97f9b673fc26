//! A law of the definitions, as a contract of a function that does nothing, and one connection to a new store, which meets its premises.
ghost use Rattle.std.specs.Prelude.{◌≡◌, ℕ, IfOk};
ghost use Rattle.oram_disk_host.specs.Hosts.{HostedValue};
ghost use Rattle.oram_disk_host.specs.Lasting.{AnswersLast};
ghost use Rattle.oram_disk_host.specs.Serving.{EndsServing};
ghost use Rattle.oram_store.specs.KeptRecords.{IsSound};

use crate::disk_watch::DiskWatch;
use crate::serving::answer_messages;
use crate::tallied_store::TalliedStore;
use oram_host::ServeFault;
use oram_pair::{Generation, Identity};
use oram_redo::FilePair;
use oram_sockets::Arrived;
use oram_store::{FileStore, StoreFault, create};
use std::alloc::Global;
use std::io::{Read, Write};

/// What a host has answered over a connection lasts: whenever a crash comes, the files that it leaves, opened again, have what the messages
/// make that were answered before it, and perhaps what some of the next ones make, none in part. Only of PUTs that were answered without a
/// STORE, those may be missing that still wait to be committed.
pub fn answers_last<F: FilePair>(store: &FileStore<F>)
    ensures { AnswersLast F.model }
{}

/// Makes a store of empty files, and serves one connection from it. So the premises of [`answers_last`] hold of it, if its messages are
/// requests. Returns the store, and how the connection ended.
pub fn first_connection<'a, R: Read + Arrived, W: Write, F: FilePair + Drop, D: DiskWatch>(
    alloc: Global,
    mut files: F,
    identity: &Identity,
    reader: &mut R,
    writer: &mut W,
    disk: &'a D,
) -> Result<(TalliedStore<'a, F, D>, Result<(), ServeFault>), StoreFault>
    requires { (file : _) (i : ℕ) → F.model.seen files file i ≡ 0 }
    ensures { IfOk result (λ served. (begun : HostedValue F) × EndsServing F.model
        (record { state = begun; unread = R.remaining reader.old; written = W.contents writer.old })
        (record { state = served.0; unread = R.remaining reader.new; written = W.contents writer.new }) served.1
        × (F.model.is_honest served.0.store.file.files → IsSound F.model begun.store)) }
{
    create(&mut files, identity)?;
    let store = FileStore::over(alloc, files, Generation::first(*identity))?;
    let mut hosted = TalliedStore::new(store, disk);
    let served = answer_messages(alloc, reader, writer, &mut hosted);
    Ok((hosted, served))
}
