//! What a host's answers to FETCHes and STOREs say.
ghost use Rattle.std.specs.Prelude.{◌≡◌, ◌≢◌, ◌↔◌, ◌<◌, ◌^◌, ◌++◌, ℕ, List, IsTrue, MatchOption, length};
ghost use Rattle.std.specs.List.{AllByRecursion};
ghost use Rattle.oram_wire.specs.HostMessages.{done_answer};
ghost use Rattle.oram_link_laws.specs.Repair.{IsAmong};
ghost use Rattle.oram_rounds.specs.Arrivals.{EndsAcks};
ghost use Rattle.oram_rounds.specs.Batches.{texts};
ghost use Rattle.oram_rounds.specs.Overlay.{AreOverlaid};
ghost use Rattle.oram_rounds.specs.PathMessages.{ArePathStores, IsPathFetch};
ghost use Rattle.oram_rounds.specs.Rounds.{AreDone, refused_with};

use crate::batch::BatchLink;
use crate::overlay::lay_over;
use crate::path_messages::fetched_path;
use oram_geometry::Device;
use oram_wire::{REFUSED, is_done};
use std::alloc::Global;

/// Lays the records of STOREs over the answer to each of these FETCHes.
pub(crate) fn lay_over_each(
    device: &Device,
    record_len: usize,
    stores: &[Vec<u8>],
    fetches: &[Vec<u8>],
    answers: &mut [Vec<u8>],
)
    requires few { record_len < 2 ^ 32 }
    requires stores { ArePathStores device.now record_len (texts stores.now) }
    requires paths { AllByRecursion (IsPathFetch device.now) (texts fetches.now) }
    requires count { length answers.old ≡ length fetches.now }
    ensures { AreOverlaid device.now record_len (texts stores.now) (texts fetches.now) (texts answers.old) (texts answers.new) }
{
    for i in 0..fetches.len() {
        let Some((tree, leaf)) = fetched_path(device, &fetches[i]) else {
            unreachable!()
        };
        lay_over(device, record_len, tree, leaf, stores, &mut answers[i]);
    }
}

/// Returns whether each answer says that the host has done what it was asked.
pub(crate) fn are_done(answers: &[Vec<u8>]) -> bool
    ensures { IsTrue result ↔ AreDone (texts answers.now) }
{
    for answer in answers {
        if !is_done(answer) {
            return false;
        }
    }
    true
}

/// Returns the first answer that doesn't say that the host has done what it was asked.
pub(crate) fn first_refusal(mut answers: Vec<Vec<u8>>) -> Option<Vec<u8>>
    ensures { MatchOption result (AreDone (texts answers.items)) (λ refusal. IsAmong refusal.items (texts answers.items) × (refusal.items ≢ done_answer)) }
{
    for i in 0..answers.len() {
        if !is_done(&answers[i]) {
            return Some(answers.swap_remove(i));
        }
    }
    None
}

/// Returns what the core receives if this is the answer to a STORE: a refusal as it is, and no bytes for anything else.
pub(crate) fn refused_with(mut answer: Vec<u8>) -> Vec<u8>
    ensures { result.items ≡ refused_with answer.items }
{
    if answer.len() != 2 || answer[0] != REFUSED {
        answer.clear();
    }
    answer
}

/// Receives the answers to STOREs, which are the last messages of a batch, and returns whether the host has carried out all of them.
pub(crate) fn receive_acks<B: BatchLink>(alloc: Global, inner: &mut B, stores: &[Vec<u8>]) -> bool
    ensures { (l : B) (before given : List (List ℕ)) → length given ≡ length before → B.streams l (before ++ texts stores.now) given inner.old
        → (acks : List (List ℕ)) × EndsAcks B.batches B.streams l before (texts stores.now) given acks result inner.new }
{
    let mut done = true;
    for store in stores {
        match inner.next_answer(alloc, store) {
            Ok(answer) => done &= is_done(&answer),
            Err(_) => return false,
        }
    }
    done
}
