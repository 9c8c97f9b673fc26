//! A link that keeps near records.
ghost use Rattle.std.specs.Prelude.{◌≡◌, ◌+◌, ◌-◌, ◌*◌, ◌^◌, ◌<◌, ◌≤◌, ◌⊎◌, ◌++◌, [], IfErr, IfOk, OnOk, ℕ, List, MatchResult, Option, drop, if◌then◌else◌, is_some, length, map, take};
ghost use Rattle.std.specs.Option.{option_copied};
ghost use Rattle.std.specs.List.{AllByRecursion};
ghost use Rattle.oram_geometry.specs.Sizes.{depth_of, trees_of};
ghost use Rattle.oram_wire.specs.HostMessages.{payload_answer};
ghost use Rattle.oram_link_laws.specs.Runs.{Exchange};
ghost use Rattle.oram_rounds.specs.Batches.{batch_outcome_of, texts};
ghost use Rattle.oram_near.specs.Completion.{IsCompleted, IsUnlaidPath, IsWholePath};
ghost use Rattle.oram_near.specs.EmptyRecords.{made_with, of_maker, records_from};
ghost use Rattle.oram_near.specs.Near.{AreTold, Near, nothing_noted, records_on, rest_of};
ghost use Rattle.oram_rounds.specs.LinkNotes.{AreRecordsTold};
ghost use Rattle.oram_near.specs.ComingAnswers.{no_coming};
ghost use Rattle.oram_near.specs.NearCalls.{AreAnswered, ArePathBodies, FitsTogether, IsAnswered, IsRefusal, NearBatch, NearValue, TakesUnsure, client_of, store_answers};
ghost use Rattle.oram_near.specs.NearLevels.{near_len};
ghost use Rattle.oram_near.specs.NearStreams.{HearsStores, NearBatches, NearStreams, fault_of};
ghost use Rattle.oram_near.specs.PathRequests.{FetchPath, IsOfDevice, StorePath, first_far, path_body, request_of};
ghost use Rattle.oram_rounds.specs.Streams.{BeginsBatch, GivesNext};
ghost use Rattle.oram_session.specs.Outcome.{outcome_of};

use crate::answers::{far_records, refusal_in, refused_with, store_answer};
use crate::coming_answers::ComingAnswers;
use crate::empty_records::EmptyRecords;
use crate::hearing::{hear, pass_over, store_answers};
use crate::near_changes::NearChanges;
use crate::near_records::NearRecords;
use crate::overlay::lay_over;
use crate::path_message::{PathMessage, first_far, path_len};
use crate::requests::{
    encode_each, forget_repeated, hold, is_in_order, read_all, read_batch, store_each,
};
use oram_geometry::Device;
use oram_rounds::{BatchLink, LinkRecords, RecordChanges};
use oram_session::LinkFault;
use oram_wire::GOOD;
use std::alloc::{AllocError, Global};
use std::marker::Model;

/// A link for FETCHes and STOREs of whole paths of a device, over a link to a host that has the far records only.
///
/// The client keeps the near records itself, and makes those records anew that the host doesn't have.
#[derive(Drop)]
pub struct NearLink<B, E: EmptyRecords> {
    pub(crate) inner: B,
    empty: E,
    pub(crate) device: Device,
    pub(crate) near: NearRecords,
    /// The STOREs of levels that the host may or may not have carried out, the oldest first.
    pub(crate) unsure: Vec<Vec<u8>>,
    /// How far a batch has come whose answers are taken one by one.
    pub(crate) coming: ComingAnswers,
}

/// What a link for whole paths consists of: the link below, what makes the records of the formatting, the device and the near records.
#[derive(Drop)]
pub struct NearParts<B, E> {
    pub inner: B,
    pub empty: E,
    pub device: Device,
    pub near: NearRecords,
}

impl<B, E: EmptyRecords> Model for NearLink<B, E> {
    ghost use Rattle.std.specs.Prelude.{◌≡◌, ◌≤◌, length, map};
    ghost use Rattle.std.specs.List.{AllByRecursion};
    ghost use Rattle.oram_geometry.specs.Sizes.{depth_of};
    ghost use Rattle.oram_rounds.specs.Batches.{texts};
    ghost use Rattle.oram_near.specs.EmptyRecords.{WithRest};
    ghost use Rattle.oram_near.specs.Near.{rest_of};
    ghost use Rattle.oram_near.specs.NearCalls.{NearValue};
    ghost use Rattle.oram_near.specs.PathRequests.{IsFarStoreBody, store_in};

    ghost Value = { NearValue B (WithRest E) };

    ghost view = { λ l. record { inner = l.inner; empty = record { maker = l.empty; rest = rest_of l.near }; device = l.device; near = l.near; unsure = map store_in (texts l.unsure.items); coming = l.coming } };

    ghost invariant = { λ l. (E.device l.empty ≡ l.device) × (E.record_len l.empty ≡ l.near.record_len) × (l.near.levels ≤ depth_of l.device 0)
        × AllByRecursion (IsFarStoreBody l.device l.near.levels l.near.record_len) (texts l.unsure.items) × (length (rest_of l.near) ≡ E.rest_len l.empty) };
}

/// Returns how changes of near records are told to whoever keeps them. Each record has `record_len` bytes.
fn told_changes(changes: NearChanges<'_>, record_len: usize) -> RecordChanges<'_>
    requires some { 0 < record_len }
    requires few { record_len < 2 ^ 32 }
    ensures { (old : List ℕ) (near : Near) → near.record_len ≡ record_len → AreTold changes.entry old near
        → AreRecordsTold result old near.bytes }
{
    match changes {
        NearChanges::Any => RecordChanges::Any,
        NearChanges::Nodes(numbers) => RecordChanges::Records {
            len: record_len as u32,
            numbers,
        },
    }
}

impl<B, E: EmptyRecords> NearLink<B, E> {
    /// Makes a link for a device. Nothing is unsure. The near records are those of this device, and so are those of the formatting. The
    /// rest behind the near records is what `empty` needs.
    pub fn new(
        alloc: Global,
        inner: B,
        empty: E,
        device: Device,
        near: NearRecords,
    ) -> NearLink<B, E>
        requires device { E.device empty ≡ device }
        requires record_len { E.record_len empty ≡ near.record_len }
        requires levels { near.levels ≤ depth_of device 0 }
        requires rest { length (rest_of near) ≡ E.rest_len empty }
        ensures { result ≡ record { inner = inner; empty = record { maker = empty; rest = rest_of near }; device = device; near = near; unsure = []; coming = no_coming } }
    {
        NearLink {
            inner,
            empty,
            device,
            near,
            unsure: Vec::new(alloc),
            coming: ComingAnswers::none(alloc),
        }
    }

    /// Makes a link for a new process, which was given these STOREs as those that the host may not have carried out. Their near records
    /// are put in place, and they count as unsure. Fails with `Closed` if one of them is neither a FETCH nor a STORE of a whole path of
    /// the device; FETCHes are passed over.
    pub fn with_unsure(
        alloc: Global,
        inner: B,
        empty: E,
        device: Device,
        near: NearRecords,
        stores: &[Vec<u8>],
    ) -> Result<NearLink<B, E>, LinkFault>
    where
        B: Drop,
        E: Drop,
        requires device { E.device empty ≡ device }
        requires record_len { E.record_len empty ≡ near.record_len }
        requires levels { near.levels ≤ depth_of device 0 }
        requires rest { length (rest_of near) ≡ E.rest_len empty }
        ensures ok { IfOk result (λ l. TakesUnsure (record { inner = inner; empty = record { maker = empty; rest = rest_of near }; device = device; near = near; unsure = []; coming = no_coming }) (texts stores.now) l) }
        ensures err { IfErr result (λ fault. (fault ≡ LinkFault.OutOfMemory) ⊎ ((fault ≡ LinkFault.Closed) × ¬ ArePathBodies device near.record_len (texts stores.now))) }
    {
        let mut link = NearLink::new(alloc, inner, empty, device, near);
        link.take_unsure(alloc, stores)?;
        Ok(link)
    }

    /// Returns the link below.
    pub fn inner(&self) -> &B
        ensures { result.now ≡ self.now.inner }
    {
        &self.inner
    }

    /// Takes the link apart.
    pub fn into_parts(self) -> NearParts<B, E>
        ensures inner { result.inner ≡ self.inner }
        ensures empty { result.empty ≡ self.empty.maker }
        ensures device { result.device ≡ self.device }
        ensures near { result.near ≡ self.near }
        ensures fits { FitsTogether (of_maker E.device) (of_maker E.record_len) self }
        ensures rest { self.empty.rest ≡ rest_of self.near }
        ensures rest_len { length self.empty.rest ≡ E.rest_len self.empty.maker }
    {
        let NearLink {
            inner,
            empty,
            device,
            near,
            ..
        } = self;
        NearParts {
            inner,
            empty,
            device,
            near,
        }
    }

    /// Returns the near records.
    pub fn near(&self) -> &NearRecords
        ensures value { result.now ≡ self.now.near }
        ensures rest { self.now.empty.rest ≡ rest_of self.now.near }
        ensures rest_len { length self.now.empty.rest ≡ E.rest_len self.now.empty.maker }
        ensures fits { FitsTogether (of_maker E.device) (of_maker E.record_len) self.now }
    {
        &self.near
    }

    /// Forgets which near records have changed: from now on they are counted from the records as they are.
    pub fn forget_changes(&mut self)
        ensures { self.new ≡ record self.old { near = record self.old.near { noted = nothing_noted } } }
    {
        self.near.forget_changes();
    }

    /// Puts the near records of STOREs in place that were kept, and counts these STOREs as unsure. Fails with `Closed` if one of the
    /// messages is neither a FETCH nor a STORE of a whole path of the device. If it fails, nothing changes.
    fn take_unsure(&mut self, alloc: Global, stores: &[Vec<u8>]) -> Result<(), LinkFault>
        ensures ok { OnOk result (TakesUnsure self.old (texts stores.now) self.new) }
        ensures err { IfErr result (λ fault. (self.new ≡ self.old)
            × ((fault ≡ LinkFault.OutOfMemory) ⊎ ((fault ≡ LinkFault.Closed) × ¬ ArePathBodies self.old.device self.old.near.record_len (texts stores.now)))) }
    {
        let (record_len, levels) = (self.near.record_len(), self.near.levels());
        let requests = read_all(alloc, &self.device, record_len, stores, &[])?;
        let messages = encode_each(alloc, &self.device, record_len, levels, &requests)?;
        self.unsure.reserve(messages.len())?;
        store_each(&self.device, &mut self.near, &requests);
        hold(&mut self.unsure, messages);
        Ok(())
    }

    /// Appends the near records of a leaf's path to a path. Fails only if memory runs out.
    fn append_near(&self, tree: u8, leaf: u32, path: &mut Vec<u8>) -> Result<(), AllocError>
        requires { leaf < 2 ^ depth_of self.now.device tree }
        ensures ok { OnOk result (path.new.items ≡ path.old.items ++ records_on (depth_of self.now.device tree) leaf (first_far self.now.near.levels tree) self.now.near.record_len self.now.near.bytes) }
        ensures whole { near_len self.now.near.levels self.now.near.record_len ≤ length self.now.near.bytes }
    {
        if tree != 0 {
            // For the proof alone: the call's contract says how many bytes the near records have.
            let _near = self.near.bytes();
            return Ok(());
        }
        self.near.append_path(&self.device, leaf, path)
    }

    /// Appends the records of the formatting from a level down to the leaf to a path. Fails only if memory runs out.
    fn append_empty(
        &self,
        alloc: Global,
        tree: u8,
        leaf: u32,
        from: u8,
        path: &mut Vec<u8>,
    ) -> Result<(), AllocError>
        requires tree { tree < trees_of self.now.device }
        requires leaf { leaf < 2 ^ depth_of self.now.device tree }
        ensures { OnOk result (path.new.items ≡ path.old.items ++ records_from (made_with E.record_at self.now.empty tree leaf) from (depth_of self.now.device tree + 1 - from)) }
    {
        if from > self.device.depth(tree) {
            return Ok(());
        }
        self.empty
            .append_path(alloc, self.near.rest(), tree, leaf, from, path)
    }

    /// Returns the byte of a good answer and the path of a leaf, before the unsure STOREs are laid over it. `records` has the records
    /// of the first `count` far levels. Fails only if memory runs out.
    fn unlaid(
        &self,
        alloc: Global,
        tree: u8,
        leaf: u32,
        count: u8,
        records: &[u8],
    ) -> Result<Vec<u8>, AllocError>
        requires tree { tree < trees_of self.now.device }
        requires leaf { leaf < 2 ^ depth_of self.now.device tree }
        requires few { first_far self.now.near.levels tree + count ≤ depth_of self.now.device tree + 1 }
        requires whole { length records.now ≡ count * self.now.near.record_len }
        ensures { IfOk result (λ answer. (path : List ℕ) × (answer.items ≡ payload_answer path) × IsUnlaidPath (client_of (made_with E.record_at) self.now) tree leaf count records.now path) }
    {
        let from = first_far(self.near.levels(), tree) + count;
        let len = path_len(&self.device, self.near.record_len(), tree);
        let mut answer = Vec::with_capacity(alloc, 1 + len)?;
        answer.push(GOOD)?;
        self.append_near(tree, leaf, &mut answer)?;
        answer.extend_from_slice(records)?;
        self.append_empty(alloc, tree, leaf, from, &mut answer)?;
        Ok(answer)
    }

    /// Returns the answer to the FETCH of a whole path, if the host has answered with the records of the first `count` far levels.
    /// Fails only if memory runs out.
    fn complete_with(
        &self,
        alloc: Global,
        tree: u8,
        leaf: u32,
        count: u8,
        records: &[u8],
    ) -> Result<Vec<u8>, AllocError>
        requires tree { tree < trees_of self.now.device }
        requires leaf { leaf < 2 ^ depth_of self.now.device tree }
        requires few { first_far self.now.near.levels tree + count ≤ depth_of self.now.device tree + 1 }
        requires whole { length records.now ≡ count * self.now.near.record_len }
        ensures { IfOk result (λ answer. (path : List ℕ) × IsWholePath (client_of (made_with E.record_at) self.now) tree leaf count records.now path × (answer.items ≡ payload_answer path)) }
    {
        let mut answer = self.unlaid(alloc, tree, leaf, count, records)?;
        lay_over(
            &self.device,
            self.near.record_len(),
            self.near.levels(),
            tree,
            leaf,
            &self.unsure,
            &mut answer,
        );
        Ok(answer)
    }

    /// Returns the answer to the FETCH of a whole path, given the host's answer to the FETCH of its far levels. Fails only if memory
    /// runs out.
    pub(crate) fn complete(
        &self,
        alloc: Global,
        tree: u8,
        leaf: u32,
        answer: &[u8],
    ) -> Result<Vec<u8>, AllocError>
        requires tree { tree < trees_of self.now.device }
        requires leaf { leaf < 2 ^ depth_of self.now.device tree }
        ensures { IfOk result (λ given. IsCompleted (client_of (made_with E.record_at) self.now) tree leaf answer.now given.items) }
    {
        let first = first_far(self.near.levels(), tree);
        let most = self.device.depth(tree) + 1 - first;
        match far_records(answer, self.near.record_len(), most) {
            Some((count, records)) => self.complete_with(alloc, tree, leaf, count, records),
            None => refused_with(alloc, answer),
        }
    }

    /// Returns what a request is answered, given the host's answer, and an answer with which the host has refused a STORE of the batch
    /// or an unsure one, if it has. Fails only if memory runs out.
    fn answer_one(
        &self,
        alloc: Global,
        request: &PathMessage<'_>,
        answer: &[u8],
        refusal: Option<&[u8]>,
    ) -> Result<Vec<u8>, AllocError>
        requires { IsOfDevice self.now.device self.now.near.record_len (request_of request.now) }
        ensures { IfOk result (λ given. IsAnswered (client_of (made_with E.record_at) self.now) (option_copied refusal.entry) (request_of request.now) answer.now given.items) }
    {
        match *request {
            PathMessage::Fetch { tree, leaf } => self.complete(alloc, tree, leaf, answer),
            PathMessage::Store { .. } => store_answer(alloc, refusal),
        }
    }

    /// Returns what the requests of a batch are answered. Fails only if memory runs out.
    fn answer_each(
        &self,
        alloc: Global,
        requests: &[PathMessage<'_>],
        answers: &[Vec<u8>],
        refusal: Option<&[u8]>,
    ) -> Result<Vec<Vec<u8>>, AllocError>
        requires paths { AllByRecursion (IsOfDevice self.now.device self.now.near.record_len) (map request_of requests.now) }
        requires count { length answers.now ≡ length requests.now }
        ensures { IfOk result (λ given. AreAnswered (client_of (made_with E.record_at) self.now) (option_copied refusal.entry) (map request_of requests.now) (texts answers.now) (texts given.items)) }
    {
        let mut given = Vec::with_capacity(alloc, requests.len())?;
        for i in 0..requests.len() {
            given.push(self.answer_one(alloc, &requests[i], &answers[i], refusal)?)?;
        }
        Ok(given)
    }

    /// Forgets the unsure STOREs, unless the host has refused one of them.
    pub(crate) fn settle(&mut self, refused: bool)
        ensures { self.new ≡ record self.old { unsure = (if refused then self.old.unsure else []) } }
    {
        if refused {
            return;
        }
        self.unsure.clear();
    }

    /// Returns what the requests of a batch are answered, now that the host has answered the unsure STOREs that were `before` the batch,
    /// and the batch. If it has refused none of the STOREs, none is unsure from now on. Fails only if memory runs out, and then all
    /// stay unsure.
    fn give(
        &mut self,
        alloc: Global,
        requests: &[PathMessage<'_>],
        answers: &[Vec<u8>],
        before: usize,
    ) -> Result<Vec<Vec<u8>>, AllocError>
        requires paths { AllByRecursion (IsOfDevice self.old.device self.old.near.record_len) (map request_of requests.now) }
        requires count { length answers.now ≡ before + length requests.now }
        ensures same { self.new ≡ record self.old { unsure = self.new.unsure } }
        ensures gives { MatchResult result (λ given. (refusal : Option (List ℕ)) × IsRefusal (take before (texts answers.now) ++ store_answers (map request_of requests.now) (drop before (texts answers.now))) refusal
            × AreAnswered (client_of (made_with E.record_at) self.old) refusal (map request_of requests.now) (drop before (texts answers.now)) (texts given.items)
            × (self.new.unsure ≡ (if is_some refusal then self.old.unsure else [])))
            (λ _. self.new.unsure ≡ self.old.unsure) }
    {
        let (acks, answers) = answers.split_at(before);
        let refusal = refusal_in(acks, requests, answers);
        let given = self.answer_each(alloc, requests, answers, refusal)?;
        self.settle(refusal.is_some());
        Ok(given)
    }
}

impl<B: BatchLink, E: EmptyRecords> NearLink<B, E> {
    /// Sends the messages about far levels that go with a batch, behind the unsure STOREs, and completes the answers. If each unsure STORE is in
    /// the batch again, it isn't sent twice.
    fn send(
        &mut self,
        alloc: Global,
        first: &[Vec<u8>],
        last: &[Vec<u8>],
    ) -> Result<Vec<Vec<u8>>, LinkFault>
        ensures { (exchanges : List Exchange) × (below : List Exchange)
            × NearBatch B.batches (made_with E.record_at) self.old (texts first.now ++ texts last.now) (batch_outcome_of result) exchanges below self.new }
    {
        let (record_len, levels) = (self.near.record_len(), self.near.levels());
        let requests = read_all(alloc, &self.device, record_len, first, last)?;
        if !is_in_order(&requests) {
            return Err(LinkFault::Closed);
        }
        let messages = encode_each(alloc, &self.device, record_len, levels, &requests)?;
        self.unsure.reserve(messages.len())?;
        forget_repeated(&mut self.unsure, &messages);
        let before = self.unsure.len();
        store_each(&self.device, &mut self.near, &requests);
        let outcome = self.inner.call_all(alloc, &self.unsure, &messages);
        hold(&mut self.unsure, messages);
        match outcome {
            Ok(answers) => Ok(self.give(alloc, &requests, &answers, before)?),
            Err(fault) => Err(fault),
        }
    }
}

impl<B: BatchLink, E: EmptyRecords> BatchLink for NearLink<B, E> {
    ghost use Rattle.std.specs.Prelude.{◌≡◌, List};
    ghost use Rattle.oram_link_laws.specs.Runs.{Exchange};
    ghost use Rattle.oram_near.specs.EmptyRecords.{made_with};
    ghost use Rattle.oram_near.specs.BatchExchanges.{counts_anew, goes_on_telling, learnt_nothing_sent, near_are_batches};
    ghost use Rattle.oram_near.specs.Near.{AreNoted, nothing_noted};
    ghost use Rattle.oram_near.specs.NearCalls.{NearBatch};
    ghost use Rattle.oram_near.specs.NearStreams.{NearStreams};
    ghost use Rattle.oram_near.specs.StreamsEnd.{streams_end};

    ghost batches = { λ l bodies o exchanges m. (below : List Exchange) × NearBatch B.batches (made_with E.record_at) l bodies o exchanges below m };

    ghost streams = { λ l bodies answers k. NearStreams B.batches B.streams (made_with E.record_at) l bodies answers k };

    ghost notes = { λ l. record { text = (B.notes l.inner).text; records = l.near.bytes } };

    ghost tells = { λ l old. AreNoted old l.near };

    ghost learns = { λ l check m. B.learns l.inner check m.inner × (m ≡ record l { inner = m.inner; near = record l.near { noted = nothing_noted } }) };

    fn call_all(
        &mut self,
        alloc: Global,
        first: &[Vec<u8>],
        last: &[Vec<u8>],
    ) -> Result<Vec<Vec<u8>>, LinkFault> {
        self.send(alloc, first, last)
    }

    /// Begins a batch only if `first` has FETCHes of whole paths and `last` has STOREs, and no other STOREs are unsure.
    fn begin(&mut self, alloc: Global, first: &[Vec<u8>], last: &[Vec<u8>]) -> bool {
        self.begin_batch(alloc, first, last)
    }

    /// Completes the host's answer to a FETCH. When the first STORE's answer is asked for, it takes the host's answers to all STOREs: if the host
    /// has refused one of them, each is answered with that refusal, and all stay unsure.
    fn next_answer(&mut self, alloc: Global, body: &[u8]) -> Result<Vec<u8>, LinkFault> {
        match PathMessage::read(&self.device, self.near.record_len(), body) {
            Some(PathMessage::Fetch { tree, leaf }) => self.next_fetched(alloc, tree, leaf),
            Some(PathMessage::Store { .. }) => self.next_stored(alloc),
            None => Err(LinkFault::Closed),
        }
    }

    /// Returns the note of the link below.
    fn note(&self, alloc: Global) -> Result<Vec<u8>, AllocError> {
        self.inner.note(alloc)
    }

    /// Returns the near records, and which of them have changed since the link last learned that its process was kept. Those of the link
    /// below aren't among them: it may have none.
    fn records(&self) -> LinkRecords<'_> {
        LinkRecords {
            bytes: self.near.bytes(),
            changes: told_changes(self.near.changes(), self.near.record_len()),
        }
    }

    /// Tells the link below. From now on the changes of the near records are counted from the records as they are.
    fn learn_kept(&mut self, check: u64) {
        self.inner.learn_kept(check);
        self.near.forget_changes();
    }

    ghost are_batches = { λ l m bodies o exchanges h. near_are_batches B.batches (made_with E.record_at) l m bodies o exchanges h };

    ghost ends_as_batch = { λ l m bodies answers h count. streams_end B.batches B.streams (made_with E.record_at) B.ends_as_batch l m bodies answers h count };

    ghost learning_sends_nothing = { λ l m check learnt.
        learnt_nothing_sent B.batches (made_with E.record_at) l m (B.learning_sends_nothing l.inner m.inner check learnt.0) learnt.1 };

    ghost batches_are_told = { λ l m bodies o exchanges old some h told. goes_on_telling B.batches (made_with E.record_at) l m bodies o exchanges old some h told };

    ghost learning_counts_anew = { λ l m check learnt. counts_anew B.batches (made_with E.record_at) l m learnt.1 };
}
