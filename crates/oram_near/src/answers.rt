//! The host's answers to a batch.
ghost use Rattle.std.specs.Prelude.{◌≡◌, ◌≢◌, ◌<◌, ◌≤◌, ◌^◌, ◌↔◌, ◌++◌, IfOk, IsTrue, MatchOption, drop, false, length, map, slice_index, true};
ghost use Rattle.std.specs.Option.{option_copied};
ghost use Rattle.oram_wire.specs.HostMessages.{done_answer};
ghost use Rattle.oram_link_laws.specs.Repair.{IsAmong};
ghost use Rattle.oram_rounds.specs.Batches.{texts};
ghost use Rattle.oram_rounds.specs.Rounds.{AreDone, refused_with};
ghost use Rattle.oram_near.specs.Completion.{gives_records};
ghost use Rattle.oram_near.specs.NearCalls.{IsRefusal, IsStoreRefusal, store_answer, store_answers};
ghost use Rattle.oram_near.specs.PathRequests.{request_of};

use crate::path_message::PathMessage;
use oram_levels::split_levels;
use oram_wire::{GOOD, REFUSED, is_done};
use std::alloc::{AllocError, Global};

/// Returns how many records an answer to a FETCH of levels has, and the records one behind the other. Returns `None` if it has no
/// records of this length, or more than `most`.
pub(crate) fn far_records(answer: &[u8], record_len: usize, most: u8) -> Option<(u8, &[u8])>
    requires { record_len < 2 ^ 32 }
    ensures { MatchOption result (gives_records record_len most answer.now ≡ false)
        (λ found. (gives_records record_len most answer.now ≡ true) × (found.0 ≡ slice_index answer.now 1) × (found.1.now ≡ drop 2 answer.now)) }
{
    let (op, payload) = answer.split_first()?;
    if *op != GOOD {
        return None;
    }
    let (count, records) = split_levels(payload, record_len)?;
    if count > most {
        return None;
    }
    Some((count, records))
}

/// Returns what is answered in place of an answer that isn't what was asked for: a refusal as it is, and no bytes for anything else.
/// Fails only if memory runs out.
pub(crate) fn refused_with(alloc: Global, answer: &[u8]) -> Result<Vec<u8>, AllocError>
    ensures { IfOk result (λ given. given.items ≡ refused_with answer.now) }
{
    if answer.len() != 2 || answer[0] != REFUSED {
        return Ok(Vec::new(alloc));
    }
    answer.to_vec(alloc)
}

/// Returns what a STORE is answered, if the host has refused a STORE with this answer, or none. Fails only if memory runs out.
pub(crate) fn store_answer(alloc: Global, refusal: Option<&[u8]>) -> Result<Vec<u8>, AllocError>
    ensures { IfOk result (λ given. given.items ≡ store_answer (option_copied refusal.entry)) }
{
    match refusal {
        Some(answer) => refused_with(alloc, answer),
        None => [GOOD].to_vec(alloc),
    }
}

/// Returns an answer that doesn't say that the host has done what it was asked, if there is one.
fn refusal_among(answers: &[Vec<u8>]) -> Option<&[u8]>
    ensures { IsRefusal (texts answers.now) (option_copied result) }
{
    for answer in answers {
        if !is_done(answer) {
            return Some(answer);
        }
    }
    None
}

/// Returns whether this is the answer to a STORE that the host hasn't carried out.
fn is_refused_store(request: &PathMessage<'_>, answer: &[u8]) -> bool
    ensures { IsTrue result ↔ IsStoreRefusal (request_of request.now) answer.now }
{
    match request {
        PathMessage::Store { .. } => !is_done(answer),
        PathMessage::Fetch { .. } => false,
    }
}

/// Returns an answer to one of the STOREs among some requests that doesn't say that the host has carried it out, if there is one.
fn refused_store<'a>(requests: &[PathMessage<'_>], answers: &'a [Vec<u8>]) -> Option<&'a [u8]>
    requires { length answers.now ≡ length requests.now }
    ensures { IsRefusal (store_answers (map request_of requests.now) (texts answers.now)) (option_copied result) }
{
    for i in 0..requests.len() {
        let answer = &answers[i];
        if is_refused_store(&requests[i], answer) {
            return Some(answer);
        }
    }
    None
}

/// Returns an answer to a STORE that doesn't say that the host has carried it out, if there is one: among `acks`, which are the answers
/// to STOREs, or among the answers to some requests.
pub(crate) fn refusal_in<'a>(
    acks: &'a [Vec<u8>],
    requests: &[PathMessage<'_>],
    answers: &'a [Vec<u8>],
) -> Option<&'a [u8]>
    requires { length answers.now ≡ length requests.now }
    ensures { IsRefusal (texts acks.now ++ store_answers (map request_of requests.now) (texts answers.now)) (option_copied result) }
{
    match refusal_among(acks) {
        Some(refusal) => Some(refusal),
        None => refused_store(requests, answers),
    }
}
