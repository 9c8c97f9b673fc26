//! A batch of a link with near records whose answers are taken one by one.
ghost use Rattle.std.specs.Prelude.{◌≡◌, ◌^◌, ◌<◌, ◌++◌, ℕ, List};
ghost use Rattle.oram_geometry.specs.Sizes.{depth_of, trees_of};
ghost use Rattle.oram_session.specs.Outcome.{outcome_of};
ghost use Rattle.oram_rounds.specs.Batches.{texts};
ghost use Rattle.oram_rounds.specs.Streams.{BeginsBatch, GivesNext};
ghost use Rattle.oram_near.specs.EmptyRecords.{made_with};
ghost use Rattle.oram_near.specs.NearStreams.{HearsStores, NearBatches, NearStreams, fault_of};
ghost use Rattle.oram_near.specs.PathRequests.{FetchPath, StorePath, path_body};

use crate::coming_answers::ComingAnswers;
use crate::empty_records::EmptyRecords;
use crate::hearing::{hear, pass_over, store_answers};
use crate::near_link::NearLink;
use crate::requests::{forget_repeated, read_batch, store_each};
use oram_rounds::BatchLink;
use oram_session::LinkFault;
use std::alloc::Global;

impl<B: BatchLink, E: EmptyRecords> NearLink<B, E> {
    /// Begins a batch of FETCHes, which are `first`, and of STOREs behind them. Nothing is sent if unsure STOREs would have to go before it,
    /// or if a body is another message, or if memory runs out. If the link below doesn't begin the batch, it may still have sent some of the
    /// STOREs: so all of them are unsure then, and their near records are in place.
    pub(crate) fn begin_batch(&mut self, alloc: Global, first: &[Vec<u8>], last: &[Vec<u8>]) -> bool
        ensures { BeginsBatch (NearBatches B.batches B.streams (made_with E.record_at)) (NearStreams B.batches B.streams (made_with E.record_at)) self.old (texts first.now ++ texts last.now) result self.new }
    {
        let (record_len, levels) = (self.near.record_len(), self.near.levels());
        let Ok(batch) = read_batch(alloc, &self.device, record_len, levels, first, last) else {
            return false;
        };
        forget_repeated(&mut self.unsure, &batch.stores);
        if !self.unsure.is_empty() {
            return false;
        }
        store_each(&self.device, &mut self.near, &batch.requests);
        let begun = self.inner.begin(alloc, &batch.fetches, &batch.stores);
        self.unsure = batch.stores;
        self.coming = ComingAnswers::of(alloc, batch.fetches);
        begun
    }

    /// Returns the answer to the FETCH of a path that comes next in the batch that was begun. If memory runs out, it takes the host's answers
    /// to the rest of the batch too, since the link below has to be asked for all of them.
    pub(crate) fn next_fetched(
        &mut self,
        alloc: Global,
        tree: u8,
        leaf: u32,
    ) -> Result<Vec<u8>, LinkFault>
        requires tree { tree < trees_of self.old.device }
        requires leaf { leaf < 2 ^ depth_of self.old.device tree }
        ensures { GivesNext (NearBatches B.batches B.streams (made_with E.record_at)) (NearStreams B.batches B.streams (made_with E.record_at)) self.old (path_body (FetchPath tree leaf)) (outcome_of result) self.new }
    {
        let Some(message) = self.coming.fetches().first() else {
            return Err(LinkFault::Closed);
        };
        let answer = self.inner.next_answer(alloc, message)?;
        self.coming.pass();
        let Ok(given) = self.complete(alloc, tree, leaf, &answer) else {
            pass_over(alloc, &mut self.inner, self.coming.fetches(), &self.unsure);
            return Err(LinkFault::OutOfMemory);
        };
        Ok(given)
    }

    /// Takes the host's answers to all STOREs of the batch that was begun, and makes those ready that the STOREs are given. If the host has
    /// refused none of them, none is unsure from now on.
    fn hear_stores(&mut self, alloc: Global) -> Result<(), LinkFault>
        ensures { HearsStores B.batches B.streams (made_with E.record_at) self.old (fault_of result) self.new }
    {
        let refusal = hear(alloc, &mut self.inner, &self.unsure)?;
        let ready = store_answers(alloc, &refusal, self.unsure.len())?;
        let refused = refusal.is_some();
        self.coming.make_ready(ready);
        self.settle(refused);
        Ok(())
    }

    /// Returns the answer to the STORE that comes next in the batch that was begun.
    pub(crate) fn next_stored(&mut self, alloc: Global) -> Result<Vec<u8>, LinkFault>
        ensures { (tree leaf : ℕ) (records : List ℕ) → GivesNext (NearBatches B.batches B.streams (made_with E.record_at)) (NearStreams B.batches B.streams (made_with E.record_at)) self.old (path_body (StorePath tree leaf records)) (outcome_of result) self.new }
    {
        if let Some(answer) = self.coming.take_ready() {
            return Ok(answer);
        }
        self.hear_stores(alloc)?;
        let Some(answer) = self.coming.take_ready() else {
            return Err(LinkFault::Closed);
        };
        Ok(answer)
    }
}
