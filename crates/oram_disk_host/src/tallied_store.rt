//! A store that is served, and the tally of a connection to it.

ghost use Rattle.std.specs.Prelude.{◌≡◌, ◌≢◌, ◌≤◌, ◌<◌, ◌⊎◌, [], false, length, take, IfOk, IsSome, OnErr};
ghost use Rattle.oram_layout.specs.Records.{AreKept};
ghost use Rattle.oram_store.specs.Crashes.{CommitsPutsWhole};
ghost use Rattle.oram_store.specs.KeptRecords.{IsSound, records_of};
ghost use Rattle.oram_wire.specs.FrameStream.{IsBody};
ghost use Rattle.oram_wire.specs.HostBodies.{IsAnswer};
ghost use Rattle.oram_wire.specs.HostMessages.{answer_body};
ghost use Rattle.oram_wire.specs.ListOfBodies.{bodies_in};
ghost use Rattle.oram_wire.specs.declared.host_messages.HostAnswer.{HostAnswer};
ghost use Rattle.oram_disk_host.specs.Hosts.{Serves, is_lost};
ghost use Rattle.oram_disk_host.specs.Tallies.{none};

use crate::disk_watch::{DiskNews, DiskWatch, disk_news};
use crate::tally::Tally;
use oram_host::HostRefusal;
use oram_redo::FilePair;
use oram_store::{FileStore, StoreFault};
use oram_wire::{REFUSED, is_done};
use std::alloc::{AllocError, Global};
use std::marker::Model;

/// A store that is served, one connection after the other.
#[derive(Drop)]
pub struct TalliedStore<'a, F: FilePair, W> {
    store: FileStore<F>,
    tally: Tally,
    /// Is told how the store's disk is.
    disk: &'a W,
    /// Whether a request was carried out that changes something, since the log was last emptied.
    is_changed: bool,
}

impl<'a, F: FilePair, W> Model for TalliedStore<'a, F, W> {
    ghost use Rattle.oram_disk_host.specs.Hosts.{HostedValue};

    ghost Value = { HostedValue F };

    ghost view = { λ h. record { store = h.store; tally = h.tally } };
}

impl<'a, F: FilePair, W> TalliedStore<'a, F, W> {
    /// Returns a store before its first connection.
    pub fn new(store: FileStore<F>, disk: &'a W) -> TalliedStore<'a, F, W>
        ensures { (result.store ≡ store) × (result.tally ≡ none) }
    {
        TalliedStore {
            store,
            tally: Tally::new(),
            disk,
            is_changed: false,
        }
    }

    /// Begins the tally of a connection.
    pub fn begin(&mut self)
        ensures { (self.new.store ≡ self.old.store) × (self.new.tally ≡ none) }
    {
        self.tally = Tally::new();
    }

    /// Returns the tally of the connection so far.
    pub fn tally(&self) -> Tally
        ensures { result ≡ self.now.tally }
    {
        self.tally
    }

    /// Makes durable the records that a formatting has put so far, and if anything was changed, empties the log, so that the next
    /// start has nothing to replay. If that fails, the tally says why.
    ///
    /// A log to which nothing was added stays as it is: on a file system that copies on write there may be no room even to empty
    /// it, and the records can still be read then.
    pub fn empty_log(&mut self)
        ensures none_pending_or_why { (self.new.store.pending ≡ []) ⊎ IsSome self.new.tally.failure }
        ensures trees { self.new.store.trees ≡ self.old.store.trees }
        ensures sound { IsSound F.model self.old.store → self.new.store.file.has_stopped ≡ false → IsSound F.model self.new.store }
        ensures records { IsSound F.model self.old.store → self.new.store.file.has_stopped ≡ false
            → AreKept (records_of F.model self.old.store) (records_of F.model self.new.store) }
        ensures any_moment { IsSound F.model self.old.store → CommitsPutsWhole F.model self.old.store self.new.store }
        ensures messages { self.new.tally.messages ≡ self.old.tally.messages }
        ensures received { self.new.tally.received ≡ self.old.tally.received }
        ensures sent { self.new.tally.sent ≡ self.old.tally.sent }
    {
        let done = if self.is_changed {
            self.store.empty_log()
        } else {
            self.store.commit_puts()
        };
        self.is_changed = false;
        if let Err(fault) = done {
            // If the disk has failed before, the tally says so already.
            if fault != StoreFault::Closed || self.tally.failure.is_none() {
                self.tally.failure = Some(fault);
            }
        }
    }

    /// Returns the number of the system's error for which a call of the files failed last, if the system gave one.
    pub fn errno(&self) -> Option<i32> {
        self.store.errno()
    }

    /// Returns whether the disk has failed, so that the file has to be opened again.
    pub fn has_failed(&self) -> bool
        ensures { result ≡ is_lost self.now.tally.failure }
    {
        matches!(
            self.tally.failure,
            Some(StoreFault::Io | StoreFault::Closed)
        )
    }

    /// Returns why there was no room, if `answer` says that there is none, or else the reason that the tally has
    /// already.
    fn failure(&self, answer: &[u8]) -> Option<StoreFault>
        ensures full { answer.now ≡ answer_body (HostAnswer.Refused 8) → result ≡ self.now.store.failure }
        ensures spare { answer.now ≢ answer_body (HostAnswer.Refused 8) → result ≡ self.now.tally.failure }
    {
        if answer == [REFUSED, HostRefusal::OutOfMemory.code()].as_slice() {
            self.store.failure()
        } else {
            self.tally.failure
        }
    }
}

/// Tells `disk` what an answer says of it.
fn tell<W: DiskWatch>(disk: &W, answer: &[u8], failure: Option<StoreFault>) {
    match disk_news(answer, failure) {
        Some(DiskNews::Full) => disk.full(),
        Some(DiskNews::Stored) => disk.stored(),
        Some(DiskNews::Failed) => disk.failed(),
        None => {}
    }
}

impl<'a, F: FilePair, W: DiskWatch> TalliedStore<'a, F, W> {
    /// Answers the first message of a list, with the STOREs and PUTs behind it that are committed with it. Returns how many messages were
    /// answered, and the bytes of the answer, which each of them gets. If there is no memory to answer, it serves none of them.
    ///
    /// Once the disk has failed, it answers nothing more, so that the connection ends and the file is opened again. Its last answer
    /// isn't written any more (`AnswerWriter`).
    pub fn respond(
        &mut self,
        alloc: Global,
        bodies: &[Vec<u8>],
    ) -> Result<(usize, Vec<u8>), AllocError>
        requires { 0 < length bodies.now }
        ensures count { IfOk result (λ r. (0 < r.0) × (r.0 ≤ length bodies.now)) }
        ensures ok { IfOk result (λ r. (answer : HostAnswer) × IsAnswer answer × (r.1.items ≡ answer_body answer)
            × Serves F.model self.old (take r.0 (bodies_in bodies.now)) answer self.new) }
        // The answer fits in a frame.
        ensures fits { IfOk result (λ r. IsBody r.1.items) }
        ensures err { OnErr result (self.new ≡ self.old) }
    {
        if self.has_failed() {
            return Err(AllocError);
        }
        let (count, answer) = self.store.answer_group(alloc, bodies)?;
        let failure = self.failure(&answer);
        self.tally = self.tally.with_each(&bodies[..count], &answer);
        self.tally.failure = failure;
        tell(self.disk, &answer, failure);
        self.is_changed |= is_done(&answer);
        Ok((count, answer))
    }
}
