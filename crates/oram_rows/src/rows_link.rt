//! A link that completes the answers to requests for rows.
ghost use Rattle.std.specs.Prelude.{◌≡◌};
ghost use Rattle.oram_rows.specs.RowsLink.{over};

use crate::known_records::KnownRecords;
use oram_near::{EmptyRecords, NearLink, NearParts};
use oram_pipeline::PipelinedLink;
use oram_rounds::{BatchLink, LinkRecords};
use oram_session::LinkFault;
use std::alloc::{AllocError, Global};
use std::marker::Model;

/// A link that passes each message on, and completes the answers to RECORDS.
#[derive(Drop)]
pub struct RowsLink<B, E: EmptyRecords> {
    inner: B,
    known: KnownRecords<E>,
}

impl<B, E: EmptyRecords> Model for RowsLink<B, E> {
    ghost use Rattle.oram_rows.specs.RowsLink.{RowsValue};

    ghost Value = { RowsValue B E };

    ghost view = { λ l. record { inner = l.inner; known = l.known } };
}

impl<B, E: EmptyRecords> RowsLink<B, E> {
    /// Takes a link for whole paths, whose host has carried out all STOREs. From now on messages go to the link below that one as they are.
    pub fn over(link: NearLink<B, E>) -> RowsLink<B, E>
        ensures { result ≡ over link }
    {
        let NearParts {
            inner,
            empty,
            device,
            near,
        } = link.into_parts();
        RowsLink {
            inner,
            known: KnownRecords::new(empty, device, near),
        }
    }

    /// Returns the link below.
    pub fn inner(&self) -> &B
        ensures { result.now ≡ self.now.inner }
    {
        &self.inner
    }
}

impl<B: BatchLink, E: EmptyRecords> BatchLink for RowsLink<B, E> {
    ghost use Rattle.std.specs.Prelude.{◌≡◌};
    ghost use Rattle.oram_near.specs.EmptyRecords.{made_with};
    ghost use Rattle.oram_rows.specs.BatchExchanges.{learnt_nothing_sent, rows_are_batches};
    ghost use Rattle.oram_rows.specs.RowsLink.{RowsBatch};

    ghost batches = { λ l bodies o exchanges m. RowsBatch B.batches (made_with E.record_at) l bodies o exchanges m };

    ghost streams = { λ l bodies answers m. ⊥ };

    ghost notes = { λ l. B.notes l.inner };

    ghost tells = { λ l old. B.tells l.inner old };

    ghost learns = { λ l check m. B.learns l.inner check m.inner × (m.known ≡ l.known) };

    fn call_all(
        &mut self,
        alloc: Global,
        first: &[Vec<u8>],
        last: &[Vec<u8>],
    ) -> Result<Vec<Vec<u8>>, LinkFault> {
        let outcome = self.inner.call_all(alloc, first, last);
        self.known.complete_outcome(alloc, first, last, outcome)
    }

    /// Sends nothing: a whole reading goes ahead by [`ask`](PipelinedLink::ask).
    fn begin(&mut self, _alloc: Global, _first: &[Vec<u8>], _last: &[Vec<u8>]) -> bool {
        false
    }

    /// Fails: no batch is ever begun here.
    fn next_answer(&mut self, _alloc: Global, _body: &[u8]) -> Result<Vec<u8>, LinkFault> {
        Err(LinkFault::Closed)
    }

    fn note(&self, alloc: Global) -> Result<Vec<u8>, AllocError> {
        self.inner.note(alloc)
    }

    fn records(&self) -> LinkRecords<'_> {
        self.inner.records()
    }

    fn learn_kept(&mut self, check: u64) {
        self.inner.learn_kept(check);
    }

    ghost are_batches = { λ l m bodies o exchanges h. rows_are_batches B.batches (made_with E.record_at) B.are_batches l m bodies o exchanges h };

    ghost ends_as_batch = { λ l m bodies answers h count. absurd h };

    ghost learning_sends_nothing = { λ l m check learnt.
        learnt_nothing_sent B.batches (made_with E.record_at) l m (B.learning_sends_nothing l.inner m.inner check learnt.0) learnt.1 };

    ghost batches_are_told = { λ l m bodies o exchanges old some h told. B.batches_are_told l.inner m.inner bodies h.outcome h.below old some h.sent told };

    ghost learning_counts_anew = { λ l m check learnt. B.learning_counts_anew l.inner m.inner check learnt.0 };
}

impl<B: PipelinedLink, E: EmptyRecords> PipelinedLink for RowsLink<B, E> {
    ghost use Rattle.std.specs.Prelude.{◌≡◌};

    ghost asks = { λ l bodies k. B.asks l.inner bodies k.inner × (k.known ≡ l.known) };

    fn ask(&mut self, alloc: Global, bodies: &[Vec<u8>]) {
        self.inner.ask(alloc, bodies);
    }

    fn answers(&mut self, alloc: Global, bodies: &[Vec<u8>]) -> Result<Vec<Vec<u8>>, LinkFault> {
        let outcome = self.inner.answers(alloc, bodies);
        self.known.complete_outcome(alloc, &[], bodies, outcome)
    }
}
