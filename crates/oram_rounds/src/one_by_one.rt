//! A batch over a link that carries one message after the other.
ghost use Rattle.std.specs.Prelude.{◌≡◌, [], ◌∷◌, ◌++◌, List, length, map, IfOk, OnErr};
ghost use Rattle.oram_link_laws.specs.Repair.{AreAmong};
ghost use Rattle.oram_link_laws.specs.Runs.{Exchange, LinkRun, bodies_of};
ghost use Rattle.oram_rounds.specs.Batches.{IsBatch, answered, texts};

use crate::batch::BatchLink;
use crate::keeper::LinkRecords;
use crate::lists::push;
use oram_session::{Link, LinkFault};
use std::alloc::{AllocError, Global};

/// Sends each message of a batch over a link once the one before it is answered. It saves no round trip. It stops at the
/// first fault, and doesn't send the messages after it. If a batch's answers are taken one by one, each message is sent when its answer is
/// asked for.
#[derive(Debug, Drop)]
pub struct OneByOne<L> {
    pub link: L,
}

/// Sends each of the bodies and returns their answers, in a list with room for `more` further ones. That room is made before
/// the first body is sent: if there is no memory for it, nothing is sent.
fn call_each<L: Link>(
    alloc: Global,
    link: &mut L,
    bodies: &[Vec<u8>],
    more: usize,
) -> Result<Vec<Vec<u8>>, LinkFault>
    ensures count { IfOk result (λ answers. length (texts answers.items) ≡ length (texts bodies.now)) }
    ensures ok { IfOk result (λ answers. LinkRun L.calls link.old (answered (texts bodies.now) (texts answers.items)) link.new) }
    ensures err { OnErr result ((exchanges : List Exchange) × LinkRun L.calls link.old exchanges link.new × AreAmong (bodies_of exchanges) (texts bodies.now)) }
{
    let mut answers = Vec::with_capacity(alloc, bodies.len().saturating_add(more))?;
    for body in bodies {
        let answer = link.call(alloc, body)?;
        push(&mut answers, answer)?;
    }
    Ok(answers)
}

impl<L: Link> BatchLink for OneByOne<L> {
    ghost use Rattle.std.specs.Prelude.{◌≡◌, ◌≤◌, [], length, ⊤};
    ghost use Rattle.std.proofs.Common.{inl, refl};
    ghost use Rattle.oram_link_laws.specs.Runs.{LinkRun};
    ghost use Rattle.oram_rounds.specs.Batches.{IsBatch, answered};

    ghost batches = { λ l bodies o exchanges m. LinkRun L.calls l.link exchanges m.link × IsBatch bodies o exchanges };

    ghost streams = { λ l bodies answers m. LinkRun L.calls l.link (answered bodies answers) m.link × (length answers ≤ length bodies) };

    ghost notes = { λ l. record { text = []; records = [] } };

    ghost tells = { λ l old. ⊤ };

    ghost learns = { λ l check m. m ≡ l };

    fn call_all(
        &mut self,
        alloc: Global,
        first: &[Vec<u8>],
        last: &[Vec<u8>],
    ) -> Result<Vec<Vec<u8>>, LinkFault> {
        let mut answers = call_each(alloc, &mut self.link, first, last.len())?;
        let mut later = call_each(alloc, &mut self.link, last, 0)?;
        answers.append(&mut later)?;
        Ok(answers)
    }

    fn begin(&mut self, _alloc: Global, _first: &[Vec<u8>], _last: &[Vec<u8>]) -> bool {
        true
    }

    fn next_answer(&mut self, alloc: Global, body: &[u8]) -> Result<Vec<u8>, LinkFault> {
        self.link.call(alloc, body)
    }

    /// Returns no bytes: this link has nothing to remember.
    fn note(&self, alloc: Global) -> Result<Vec<u8>, AllocError> {
        Ok(Vec::new(alloc))
    }

    fn records(&self) -> LinkRecords<'_> {
        LinkRecords::none()
    }

    fn learn_kept(&mut self, _check: u64) {}

    ghost are_batches = { λ l m bodies o exchanges h. h.1 };

    ghost ends_as_batch = { λ l m bodies answers h count. (answered bodies answers, (h.0, (count, [], tt, refl))) };

    ghost learning_sends_nothing = { λ l m check same. inl same };

    ghost batches_are_told = { λ l m bodies o exchanges old some h told. tt };

    ghost learning_counts_anew = { λ l m check same. tt };
}
