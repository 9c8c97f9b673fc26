//! A link that holds STOREs back.
ghost use Rattle.std.specs.Prelude.{◌≡◌, ◌≢◌, ◌↔◌, ◌+◌, ◌*◌, ◌^◌, ◌<◌, [], ◌∷◌, ◌++◌, ◌⊎◌, ℕ, List, Ok, drop, false, true, IfOk, IsTrue, MatchOption, MatchResult, OnOk, OnErr, length};
ghost use Rattle.std.specs.List.{AllByRecursion};
ghost use Rattle.oram_geometry.specs.Sizes.{depth_of, trees_of};
ghost use Rattle.oram_wire.specs.HostMessages.{done_answer, fetch_body};
ghost use Rattle.oram_session.specs.Outcome.{outcome_of};
ghost use Rattle.oram_link_laws.specs.Repair.{IsAmong};
ghost use Rattle.oram_link_laws.specs.Runs.{Exchange};
ghost use Rattle.oram_rounds.specs.Arrivals.{AreArriving, EndsAcks, IsAnsweredHere, ended};
ghost use Rattle.oram_rounds.specs.Batches.{texts};
ghost use Rattle.oram_rounds.specs.LinkNotes.{AreRecordsTold};
ghost use Rattle.oram_rounds.specs.Overlay.{AreOverlaid, IsOverlaid};
ghost use Rattle.oram_rounds.specs.PathMessages.{ArePathStores, IsPathFetch, IsPathStore};
ghost use Rattle.oram_rounds.specs.Rounds.{AreDone, Does, IsFirstAhead, Round, WentAhead, refused_with, waiting};

use crate::ahead::FetchedAhead;
use crate::answers::{are_done, first_refusal, lay_over_each, receive_acks, refused_with};
use crate::arrivals::Arrivals;
use crate::batch::BatchLink;
use crate::keeper::LinkRecords;
use crate::lists::push;
use crate::overlay::lay_over;
use crate::path_messages::{are_path_fetches, are_path_stores, fetched_path, is_path_store};
use oram_geometry::Device;
use oram_session::{Link, LinkFault};
use oram_wire::GOOD;
use std::alloc::{AllocError, Global};
use std::marker::Model;

/// A link for one device, over a link that carries batches.
///
/// It answers a STORE at once and holds it back. With a FETCH it sends the STOREs that are kept ([`RoundLink::keep`]). The
/// answer is what the host will have once it has carried out all STOREs so far. If the host refuses a STORE, the core
/// receives that refusal as the answer to its FETCH. A core at work sends no other messages; the link declines them.
///
/// FETCHes that the core will ask for may go ahead together ([`RoundLink::go_ahead`]). Then each of them is answered without
/// waiting for the host.
#[derive(Drop)]
pub struct RoundLink<B> {
    inner: B,
    device: Device,
    record_len: usize,
    /// The STOREs that the host hasn't acknowledged, the oldest first.
    stores: Vec<Vec<u8>>,
    /// How many of them are kept; those are the oldest.
    kept: usize,
    ahead: FetchedAhead,
    faults: u64,
    /// Whether the host has carried out all STOREs of the batch that was begun last. If it hasn't, the next batch is sent by
    /// [`RoundLink::go_ahead`], which tries until it has.
    is_settled: bool,
}

impl<B> Model for RoundLink<B> {
    ghost use Rattle.std.specs.Prelude.{◌<◌, ◌≤◌, ◌^◌, drop, length, take};
    ghost use Rattle.oram_rounds.specs.Batches.{texts};
    ghost use Rattle.oram_rounds.specs.PathMessages.{ArePathStores};
    ghost use Rattle.oram_rounds.specs.Rounds.{Round};

    ghost Value = { Round B };

    ghost view = { λ l. record { inner = l.inner; device = l.device; record_len = l.record_len; kept = texts (take l.kept l.stores.items); held = texts (drop l.kept l.stores.items); ahead = l.ahead; faults = l.faults } };

    ghost invariant = { λ l. (l.record_len < 2 ^ 32) × (l.kept ≤ length l.stores.items) × ArePathStores l.device l.record_len (texts (take l.kept l.stores.items)) × ArePathStores l.device l.record_len (texts (drop l.kept l.stores.items)) };
}

impl<B> RoundLink<B> {
    /// Makes a link for a device whose records have `record_len` bytes, at which no STOREs wait.
    pub fn new(alloc: Global, inner: B, device: Device, record_len: usize) -> RoundLink<B>
        requires { record_len < 2 ^ 32 }
        ensures { result ≡ record { inner = inner; device = device; record_len = record_len; kept = []; held = []; ahead = []; faults = 0 } }
    {
        RoundLink {
            inner,
            device,
            record_len,
            stores: Vec::new(alloc),
            kept: 0,
            ahead: FetchedAhead::none(alloc),
            faults: 0,
            is_settled: true,
        }
    }

    /// Makes a link at which these STOREs wait and are kept, the oldest first. Returns `None` if one of them isn't a STORE
    /// of a whole path of the device.
    pub fn with_kept(
        alloc: Global,
        inner: B,
        device: Device,
        record_len: usize,
        stores: Vec<Vec<u8>>,
    ) -> Option<RoundLink<B>>
    where
        B: Drop,
        requires { record_len < 2 ^ 32 }
        ensures { MatchOption result (¬ ArePathStores device record_len (texts stores.items))
            (λ l. l ≡ record { inner = inner; device = device; record_len = record_len; kept = texts stores.items; held = []; ahead = []; faults = 0 }) }
    {
        if !are_path_stores(&device, record_len, &stores) {
            return None;
        }
        let kept = stores.len();
        Some(RoundLink {
            inner,
            device,
            record_len,
            stores,
            kept,
            ahead: FetchedAhead::none(alloc),
            faults: 0,
            is_settled: true,
        })
    }

    /// Returns the link below, which carries the batches.
    pub fn inner(&self) -> &B
        ensures { result.now ≡ self.now.inner }
    {
        &self.inner
    }

    /// Returns the STOREs that are kept and that the host hasn't acknowledged, the oldest first.
    pub fn kept(&self) -> &[Vec<u8>]
        ensures { texts result.now ≡ self.now.kept }
    {
        let kept = self.kept;
        &self.stores[..kept]
    }

    /// Returns the STOREs that aren't kept yet, the oldest first.
    pub fn held(&self) -> &[Vec<u8>]
        ensures { texts result.now ≡ self.now.held }
    {
        let kept = self.kept;
        &self.stores[kept..]
    }

    /// Returns all STOREs that the host hasn't acknowledged, the oldest first.
    pub fn waiting(&self) -> &[Vec<u8>]
        ensures { texts result.now ≡ waiting self.now }
    {
        &self.stores
    }

    /// Forgets the STOREs that are kept, since the host has carried them out.
    fn forget_kept(&mut self)
        ensures { self.new ≡ record self.old { kept = [] } }
    {
        self.stores.rotate_left(self.kept);
        self.stores.truncate(self.stores.len() - self.kept);
        self.kept = 0;
    }

    /// Returns the answer to a FETCH, with the records of the STOREs that aren't kept yet laid over it.
    fn overlaid(&self, tree: u8, leaf: u32, mut answer: Vec<u8>) -> Vec<u8>
        requires tree { tree < trees_of self.now.device }
        requires leaf { leaf < 2 ^ depth_of self.now.device tree }
        ensures { IsOverlaid self.now.device self.now.record_len tree leaf self.now.held answer.items result.items }
    {
        let kept = self.kept;
        lay_over(
            &self.device,
            self.record_len,
            tree,
            leaf,
            &self.stores[kept..],
            &mut answer,
        );
        answer
    }

    /// Returns the answer to a FETCH, with the records of the STOREs that are kept laid over it.
    fn kept_over(&self, tree: u8, leaf: u32, mut answer: Vec<u8>) -> Vec<u8>
        requires tree { tree < trees_of self.now.device }
        requires leaf { leaf < 2 ^ depth_of self.now.device tree }
        ensures { IsOverlaid self.now.device self.now.record_len tree leaf self.now.kept answer.items result.items }
    {
        let stores = self.kept();
        lay_over(
            &self.device,
            self.record_len,
            tree,
            leaf,
            stores,
            &mut answer,
        );
        answer
    }

    /// Lays the records of the STOREs that are kept over the answer to each of these FETCHes.
    fn lay_kept(&self, fetches: &[Vec<u8>], answers: &mut [Vec<u8>])
        requires paths { AllByRecursion (IsPathFetch self.now.device) (texts fetches.now) }
        requires count { length answers.old ≡ length fetches.now }
        ensures { AreOverlaid self.now.device self.now.record_len self.now.kept (texts fetches.now) (texts answers.old) (texts answers.new) }
    {
        let kept = self.kept;
        lay_over_each(
            &self.device,
            self.record_len,
            &self.stores[..kept],
            fetches,
            answers,
        );
    }

    /// Adds a STORE to those that wait.
    fn hold(&mut self, alloc: Global, body: &[u8]) -> Result<Vec<u8>, LinkFault>
        requires { IsPathStore self.old.device self.old.record_len body.now }
        ensures { MatchResult result (λ answer. (answer.items ≡ done_answer) × (self.new ≡ record self.old { held = self.old.held ++ body.now ∷ [] })) (λ fault. (fault ≡ LinkFault.OutOfMemory) × (self.new ≡ self.old)) }
    {
        let answer = [GOOD].to_vec(alloc)?;
        push(&mut self.stores, body.to_vec(alloc)?)?;
        Ok(answer)
    }
}

impl<B: BatchLink> RoundLink<B> {
    /// Returns the note that the link below wants to have kept.
    pub fn note(&self, alloc: Global) -> Result<Vec<u8>, AllocError>
        ensures { IfOk result (λ note. note.items ≡ (B.notes self.now.inner).text) }
    {
        self.inner.note(alloc)
    }

    /// Returns the records that the link below wants to have kept.
    pub fn records(&self) -> LinkRecords<'_>
        ensures bytes { result.bytes.now ≡ (B.notes self.now.inner).records }
        ensures told { (old : List ℕ) → B.tells self.now.inner old → AreRecordsTold result.changes old result.bytes.now }
    {
        self.inner.records()
    }

    /// Notes that all STOREs that wait are kept, in a process with this check, so they leave with the next FETCH. Forgets
    /// what went ahead, and tells the link below.
    pub fn keep(&mut self, alloc: Global, check: u64)
        ensures kept { self.new ≡ record self.old { inner = self.new.inner; kept = self.old.kept ++ self.old.held; held = []; ahead = [] } }
        ensures told { B.learns self.old.inner check self.new.inner }
    {
        self.ahead = FetchedAhead::none(alloc); // It lacks what these STOREs change.
        self.kept = self.stores.len();
        self.inner.learn_kept(check);
    }

    /// Begins a batch of FETCHes, before the core asks for them, and of the STOREs that are kept behind them, and returns whether it did. Then
    /// [`RoundLink::answers`] takes in the answers as they come, and [`RoundLink::settle`] has to be called behind it. If it returns `false`,
    /// no answer is to come.
    pub(crate) fn begin_ahead(&mut self, alloc: Global, fetches: &[Vec<u8>]) -> bool
        requires { self.old.ahead ≡ [] }
        ensures same { self.new ≡ record self.old { inner = self.new.inner } }
        ensures begun { IsTrue result → (texts fetches.now ≢ []) × AllByRecursion (IsPathFetch self.old.device) (texts fetches.now)
            × B.streams self.old.inner (texts fetches.now ++ self.old.kept) [] self.new.inner }
        ensures broken { ¬ IsTrue result → (self.new ≡ self.old) ⊎ ((exchanges : List Exchange) × WentAhead B.batches self.old (texts fetches.now) exchanges self.new) }
    {
        if !self.is_settled || fetches.is_empty() || !are_path_fetches(&self.device, fetches) {
            return false;
        }
        let kept = self.kept;
        self.inner.begin(alloc, fetches, &self.stores[..kept])
    }

    /// Puts a FETCH ahead with its answer, unless memory runs out, or did so for an earlier one.
    fn put_ahead(&mut self, arrivals: &mut Arrivals, fetch: Vec<u8>, answer: Vec<u8>)
        ensures { ((arrivals.old.full ≡ false) × (arrivals.new ≡ arrivals.old) × (self.new ≡ record self.old { ahead = self.old.ahead ++ (fetch.items, Ok answer.items) ∷ [] }))
            ⊎ ((arrivals.new ≡ record arrivals.old { full = true }) × (self.new ≡ self.old)) }
    {
        if arrivals.is_full {
            return;
        }
        if self.ahead.push(fetch, answer).is_err() {
            arrivals.is_full = true;
        }
    }

    /// Receives the answer to the next FETCH that is due, and puts it ahead with the records of the STOREs that are kept laid over it.
    fn receive(&mut self, alloc: Global, arrivals: &mut Arrivals)
        requires { AllByRecursion (IsPathFetch self.old.device) arrivals.old.due }
        ensures same { self.new ≡ record self.old { inner = self.new.inner; ahead = self.new.ahead } }
        ensures due { arrivals.new.due ≡ drop 1 arrivals.old.due }
        ensures arriving { (l : Round B) (fetches : List (List ℕ)) (put : List Exchange) → arrivals.old.broken ≡ false → AreArriving B.batches B.streams l fetches put arrivals.old self.old
            → (more : List Exchange) × AreArriving B.batches B.streams l fetches (put ++ more) arrivals.new self.new
            × (self.new ≡ record self.old { inner = self.new.inner; ahead = self.old.ahead ++ more }) }
    {
        let Some(fetch) = arrivals.due.pop_front() else {
            return;
        };
        let Some((tree, leaf)) = fetched_path(&self.device, &fetch) else {
            unreachable!()
        };
        match self.inner.next_answer(alloc, &fetch) {
            Ok(answer) => {
                let laid = self.kept_over(tree, leaf, answer);
                self.put_ahead(arrivals, fetch, laid);
            }
            Err(_) => arrivals.is_broken = true,
        }
    }

    /// Receives all answers to FETCHes that are still to come, unless the batch breaks off.
    fn receive_all(&mut self, alloc: Global, arrivals: &mut Arrivals)
        requires { AllByRecursion (IsPathFetch self.old.device) arrivals.old.due }
        ensures same { self.new ≡ record self.old { inner = self.new.inner; ahead = self.new.ahead } }
        ensures arriving { (l : Round B) (fetches : List (List ℕ)) (put : List Exchange) → AreArriving B.batches B.streams l fetches put arrivals.old self.old
            → (more : List Exchange) × AreArriving B.batches B.streams l fetches (put ++ more) arrivals.new self.new
            × (self.new ≡ record self.old { inner = self.new.inner; ahead = self.old.ahead ++ more }) }
        ensures all { arrivals.new.broken ≡ false → arrivals.new.due ≡ [] }
    {
        while !arrivals.is_broken && !arrivals.due.is_empty() {
            self.receive(alloc, arrivals);
        }
    }

    /// Ends a batch that was begun: receives the answers that are still to come. The FETCHes whose answers weren't taken yet are ahead
    /// afterwards. If the host has carried out all STOREs that were kept, these are forgotten.
    pub(crate) fn settle(&mut self, alloc: Global, mut arrivals: Arrivals)
        requires { AllByRecursion (IsPathFetch self.old.device) arrivals.due }
        ensures { (l : Round B) (fetches : List (List ℕ)) (put : List Exchange) → fetches ≢ [] → AllByRecursion (IsPathFetch l.device) fetches → l.held ≡ []
            → AreArriving B.batches B.streams l fetches put arrivals self.old
            → (exchanges more : List Exchange) × WentAhead B.batches l fetches exchanges (record l { inner = self.new.inner; kept = self.new.kept; ahead = put ++ more })
            × (self.new ≡ ended self.old self.new.inner self.new.kept more) }
    {
        self.receive_all(alloc, &mut arrivals);
        self.is_settled = false;
        if arrivals.is_broken {
            return;
        }
        let kept = self.kept;
        if receive_acks(alloc, &mut self.inner, &self.stores[..kept]) {
            self.forget_kept();
            self.is_settled = true;
        }
    }

    /// Returns whether a message is answered without the host: it is a STORE, or the first FETCH ahead. If it is the FETCH whose answer is
    /// to come next, that answer is received first.
    pub(crate) fn answers(&mut self, alloc: Global, arrivals: &mut Arrivals, message: &[u8]) -> bool
        requires { AllByRecursion (IsPathFetch self.old.device) arrivals.old.due }
        ensures same { self.new ≡ record self.old { inner = self.new.inner; ahead = self.new.ahead } }
        ensures due { AllByRecursion (IsPathFetch self.old.device) arrivals.new.due }
        ensures here { IsTrue result → IsAnsweredHere self.new message.now }
        ensures arriving { (l : Round B) (fetches : List (List ℕ)) (put : List Exchange) → AreArriving B.batches B.streams l fetches put arrivals.old self.old
            → (more : List Exchange) × AreArriving B.batches B.streams l fetches (put ++ more) arrivals.new self.new
            × (self.new ≡ record self.old { inner = self.new.inner; ahead = self.old.ahead ++ more }) }
    {
        if arrivals.is_next(message) {
            self.receive(alloc, arrivals);
        }
        self.ahead.is_first(message) || is_path_store(&self.device, self.record_len, message)
    }

    /// Sends FETCHes before the core asks for them, and the STOREs that are kept behind them, all at once. So the host's answers to
    /// the FETCHes come while the STOREs are still being written. The records of these STOREs are laid over the answers: that is what
    /// the host would answer now, once it has carried them out. Later calls with these FETCHes, in this order, are answered from
    /// there. What went ahead before is forgotten. Sends nothing if there are no FETCHes.
    ///
    /// Nothing is ahead afterwards if the batch has a fault, if the host refuses a STORE, if memory runs out, or if a body
    /// isn't a FETCH of a path of the device. Then each FETCH is sent when the core asks for it.
    pub fn go_ahead(&mut self, alloc: Global, fetches: Vec<Vec<u8>>)
        ensures { (exchanges : List Exchange) × WentAhead B.batches self.old (texts fetches.items) exchanges self.new }
    {
        self.ahead = FetchedAhead::none(alloc);
        if fetches.is_empty() {
            return; // The STOREs leave with the next FETCH.
        }
        if !are_path_fetches(&self.device, &fetches) {
            return;
        }
        let kept = self.kept;
        let Ok(mut answers) = self.inner.call_all(alloc, &fetches, &self.stores[..kept]) else {
            return;
        };
        let count = fetches.len();
        if are_done(&answers[count..]) {
            answers.truncate(count);
            self.lay_kept(&fetches, &mut answers);
            self.forget_kept();
            self.is_settled = true;
            self.ahead = FetchedAhead::of(fetches, answers);
        }
    }

    /// Answers a FETCH from what went ahead, if it is the next one there, and else sends it after the STOREs that are kept.
    fn fetch_next(
        &mut self,
        alloc: Global,
        tree: u8,
        leaf: u32,
        body: &[u8],
    ) -> Result<Vec<u8>, LinkFault>
        requires tree { tree < trees_of self.old.device }
        requires leaf { leaf < 2 ^ depth_of self.old.device tree }
        requires body { body.now ≡ fetch_body tree leaf }
        ensures same { self.new ≡ record self.old { inner = self.new.inner; kept = self.new.kept; ahead = self.new.ahead } }
        ensures call { (exchanges : List Exchange) × Does B.batches self.old.device self.old.record_len self.old body.now (outcome_of result) exchanges self.new }
    {
        match self.ahead.take(body) {
            Some(answer) => Ok(self.overlaid(tree, leaf, answer)),
            None => self.fetch(alloc, tree, leaf, body),
        }
    }

    /// Sends a FETCH that isn't the next one ahead after the STOREs that are kept.
    fn fetch(
        &mut self,
        alloc: Global,
        tree: u8,
        leaf: u32,
        body: &[u8],
    ) -> Result<Vec<u8>, LinkFault>
        requires tree { tree < trees_of self.old.device }
        requires leaf { leaf < 2 ^ depth_of self.old.device tree }
        requires body { body.now ≡ fetch_body tree leaf }
        requires first { ¬ IsFirstAhead self.old.ahead body.now }
        ensures same { self.new ≡ record self.old { inner = self.new.inner; kept = self.new.kept } }
        ensures call { (exchanges : List Exchange) × Does B.batches self.old.device self.old.record_len self.old body.now (outcome_of result) exchanges self.new }
    {
        let kept = self.kept;
        let last = [body.to_vec(alloc)?];
        let mut answers = self.inner.call_all(alloc, &self.stores[..kept], &last)?;
        let Some(answer) = answers.pop() else {
            unreachable!()
        };
        if let Some(refusal) = first_refusal(answers) {
            return Ok(refused_with(refusal));
        }
        self.forget_kept();
        Ok(self.overlaid(tree, leaf, answer))
    }

    /// Passes a message on, without counting faults. Declines with `Closed` what is neither a FETCH nor a STORE of a path of
    /// the device.
    fn pass(&mut self, alloc: Global, body: &[u8]) -> Result<Vec<u8>, LinkFault>
        ensures same { self.new ≡ record self.old { inner = self.new.inner; kept = self.new.kept; held = self.new.held; ahead = self.new.ahead } }
        ensures call { (exchanges : List Exchange) × Does B.batches self.old.device self.old.record_len self.old body.now (outcome_of result) exchanges self.new }
    {
        if is_path_store(&self.device, self.record_len, body) {
            return self.hold(alloc, body);
        }
        match fetched_path(&self.device, body) {
            Some((tree, leaf)) => self.fetch_next(alloc, tree, leaf, body),
            None => Err(LinkFault::Closed),
        }
    }
}

impl<B: BatchLink> Link for RoundLink<B> {
    ghost use Rattle.oram_link_laws.specs.Runs.{Exchange};
    ghost use Rattle.oram_rounds.specs.Rounds.{IsCounted};

    ghost calls = { λ l body outcome m. IsCounted B.batches l body outcome m };

    ghost fault_count = { λ l. l.faults };

    fn call(&mut self, alloc: Global, body: &[u8]) -> Result<Vec<u8>, LinkFault> {
        let outcome = self.pass(alloc, body);
        if outcome.is_err() {
            self.faults = self.faults.saturating_add(1);
        }
        outcome
    }

    fn faults(&self) -> u64 {
        self.faults
    }

    ghost counts = { λ l m body outcome h. h.faults };
}
