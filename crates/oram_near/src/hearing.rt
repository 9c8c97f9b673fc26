//! The host's answers to a batch, taken one by one.
ghost use Rattle.std.specs.Prelude.{◌≡◌, ◌++◌, [], ◌∷◌, ℕ, IfOk, List, length};
ghost use Rattle.std.specs.List.{AllByRecursion};
ghost use Rattle.oram_rounds.specs.Batches.{texts};
ghost use Rattle.oram_near.specs.NearCalls.{IsRefusal, store_answer};
ghost use Rattle.oram_near.specs.NearStreams.{Hears, PassesOver, bytes_of, heard_of};

use crate::answers::{refused_with, store_answer};
use oram_rounds::BatchLink;
use oram_session::LinkFault;
use oram_wire::is_done;
use std::alloc::{AllocError, Global};

/// Returns an answer, unless it says that the host has done what it was asked.
fn refusal_of(answer: Vec<u8>) -> Option<Vec<u8>>
    ensures { IsRefusal (answer.items ∷ []) (bytes_of result) }
{
    if is_done(&answer) {
        return None;
    }
    Some(answer)
}

/// Returns the refusal among some answers, if there is one, once one more answer has come.
fn first_refusal(refusal: Option<Vec<u8>>, answer: Vec<u8>) -> Option<Vec<u8>>
    ensures { (heard : List (List ℕ)) → IsRefusal heard (bytes_of refusal) → IsRefusal (heard ++ answer.items ∷ []) (bytes_of result) }
{
    match refusal {
        Some(first) => Some(first),
        None => refusal_of(answer),
    }
}

/// Takes the answers to messages that come next in a batch. Returns the first one that doesn't say that the host has done what it was asked,
/// if there is one.
pub(crate) fn hear<B: BatchLink>(
    alloc: Global,
    link: &mut B,
    messages: &[Vec<u8>],
) -> Result<Option<Vec<u8>>, LinkFault>
    ensures { Hears B.batches B.streams link.old (texts messages.now) (heard_of result) link.new }
{
    let mut refusal = None;
    for message in messages {
        let answer = link.next_answer(alloc, message)?;
        refusal = first_refusal(refusal, answer);
    }
    Ok(refusal)
}

/// Takes the answers to the rest of a batch, which nobody needs.
pub(crate) fn pass_over<B: BatchLink>(
    alloc: Global,
    link: &mut B,
    fetches: &[Vec<u8>],
    stores: &[Vec<u8>],
)
    ensures { PassesOver B.batches B.streams link.old (texts fetches.now ++ texts stores.now) link.new }
{
    if hear(alloc, link, fetches).is_err() {
        return;
    }
    let _heard = hear(alloc, link, stores);
}

/// Returns what a STORE is answered, if the host has refused one with this answer, or none. Fails only if memory runs out.
fn answer_to_store(alloc: Global, refusal: &Option<Vec<u8>>) -> Result<Vec<u8>, AllocError>
    ensures { IfOk result (λ given. given.items ≡ store_answer (bytes_of refusal.now)) }
{
    match refusal {
        Some(answer) => refused_with(alloc, answer),
        None => store_answer(alloc, None),
    }
}

/// Returns what so many STOREs of a batch are answered, if the host has refused one of them with this answer, or none. Fails only if memory
/// runs out.
pub(crate) fn store_answers(
    alloc: Global,
    refusal: &Option<Vec<u8>>,
    count: usize,
) -> Result<Vec<Vec<u8>>, AllocError>
    ensures count { IfOk result (λ answers. length answers.items ≡ count) }
    ensures same { IfOk result (λ answers. AllByRecursion (λ answer. answer ≡ store_answer (bytes_of refusal.now)) (texts answers.items)) }
{
    let mut answers = Vec::with_capacity(alloc, count)?;
    for _ in 0..count {
        answers.push(answer_to_store(alloc, refusal)?)?;
    }
    Ok(answers)
}
