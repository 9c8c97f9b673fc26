//! Introduces a disk to its host.
ghost use Rattle.std.specs.Prelude.{◌≡◌, ◌≢◌, ◌↔◌, ◌≤◌, [], ◌∷◌, ◌++◌, Ok, Err, List, IfErr, IfOk, IsTrue, MatchBool, OnOk};
ghost use Rattle.std.specs.List.{AllByRecursion};
ghost use Rattle.oram_wire.specs.HostMessages.{payload_answer};
ghost use Rattle.oram_session.specs.declared.link.LinkFault.{LinkFault};
ghost use Rattle.oram_link_laws.specs.Runs.{Exchange};
ghost use Rattle.oram_rounds.specs.Batches.{texts};
ghost use Rattle.oram_client.specs.Introduction.{AreDone, AreUndone, HasOther, IsAsked, IsIntroduced, IsOwned, IsUnasked, IsUnconfirmed, IsUnintroduced, IsUnowned, Says, ShowsOther, Suits, Turn, TurnsRun, has_no_record, identity_tree, introduction_fault, shapes, stamps_tree};

use crate::faults::IntroductionFault;
use crate::identity::{OwnTree, identity_question, identity_tree, shape_messages, stamps_tree};
use crate::keys::Identity;
use crate::no_room::is_no_room;
use oram_geometry::Device;
use oram_host::HostRefusal;
use oram_rounds::BatchLink;
use oram_stamps::StampKey;
use oram_wire::{GOOD, REFUSED, is_done};
use std::alloc::Global;

/// What a host has to answer to a message of an introduction.
#[derive(Clone, Copy, Debug, PartialEq, Eq)]
pub(crate) enum Wanted {
    /// That it is done.
    Done,
    /// That it is done, or that the tree has a shape already.
    Made,
}

/// Returns whether an answer is what is wanted.
fn suits(answer: &[u8], wanted: Wanted) -> bool
    ensures { MatchBool result (Suits wanted answer.now) (¬ Suits wanted answer.now) }
{
    if is_done(answer) {
        return true;
    }
    wanted == Wanted::Made && answer == [REFUSED, HostRefusal::ShapeTaken.code()].as_slice()
}

/// Returns the fault for an answer that isn't wanted.
fn said(answer: &[u8]) -> IntroductionFault
    ensures { Says answer.now result }
{
    if is_no_room(answer) {
        IntroductionFault::NoRoom
    } else {
        IntroductionFault::Refused
    }
}

/// Fails unless all of the answers are what is wanted.
fn check_answers(answers: &[Vec<u8>], wanted: Wanted) -> Result<(), IntroductionFault>
    ensures ok { OnOk result (AllByRecursion (Suits wanted) (texts answers.now)) }
    ensures err { IfErr result (λ fault. HasOther wanted (texts answers.now) fault) }
{
    for answer in answers {
        if !suits(answer, wanted) {
            return Err(said(answer));
        }
    }
    Ok(())
}

/// Sends messages, and returns their answers.
fn call<L: BatchLink>(
    alloc: Global,
    link: &mut L,
    bodies: &[Vec<u8>],
) -> Result<Vec<Vec<u8>>, IntroductionFault>
    ensures ok { IfOk result (λ answers. (exchanges : List Exchange) × L.batches link.old (texts bodies.now) (Ok (texts answers.items)) exchanges link.new) }
    ensures err { IfErr result (λ fault. (why : LinkFault) × (exchanges : List Exchange) × L.batches link.old (texts bodies.now) (Err why) exchanges link.new × (fault ≡ introduction_fault why)) }
{
    Ok(link.call_all(alloc, &[], bodies)?)
}

/// Sends messages and a last one behind them, and returns the answers to the former and the answer to the latter.
fn call_behind<L: BatchLink>(
    alloc: Global,
    link: &mut L,
    bodies: &[Vec<u8>],
    last: Vec<u8>,
) -> Result<(Vec<Vec<u8>>, Vec<u8>), IntroductionFault>
    ensures ok { IfOk result (λ answers. (exchanges : List Exchange) × L.batches link.old (texts bodies.now ++ last.items ∷ []) (Ok (texts answers.0.items ++ answers.1.items ∷ [])) exchanges link.new) }
    ensures err { IfErr result (λ fault. (why : LinkFault) × (exchanges : List Exchange) × L.batches link.old (texts bodies.now ++ last.items ∷ []) (Err why) exchanges link.new × (fault ≡ introduction_fault why)) }
{
    let mut answers = link.call_all(alloc, bodies, &[last])?;
    let Some(answer) = answers.pop() else {
        unreachable!()
    };
    Ok((answers, answer))
}

/// Asks the host to make trees, and sends it a question behind that. Returns its answer to the question.
fn ask<L: BatchLink>(
    alloc: Global,
    link: &mut L,
    makings: &[Vec<u8>],
    question: Vec<u8>,
) -> Result<Vec<u8>, IntroductionFault>
    ensures ok { IfOk result (λ answer. (turns : List Turn) × TurnsRun L.batches link.old turns link.new × IsAsked (texts makings.now) question.items answer.items turns) }
    ensures err { IfErr result (λ fault. (turns : List Turn) × TurnsRun L.batches link.old turns link.new × IsUnasked (texts makings.now) question.items turns fault) }
{
    let (made, answer) = call_behind(alloc, link, makings, question)?;
    check_answers(&made, Wanted::Made)?;
    Ok(answer)
}

/// Asks the host to do what these messages say.
fn put<L: BatchLink>(
    alloc: Global,
    link: &mut L,
    bodies: &[Vec<u8>],
) -> Result<(), IntroductionFault>
    ensures ok { OnOk result ((turns : List Turn) × TurnsRun L.batches link.old turns link.new × AreDone (texts bodies.now) turns) }
    ensures err { IfErr result (λ fault. (turns : List Turn) × TurnsRun L.batches link.old turns link.new × AreUndone (texts bodies.now) turns fault) }
{
    let answers = call(alloc, link, bodies)?;
    check_answers(&answers, Wanted::Done)?;
    Ok(())
}

/// Returns whether an answer has the records `kept`: `false` if it says that a node has no record. Fails with `other` if it has other records.
fn has_records(
    answer: &[u8],
    kept: &[u8],
    other: IntroductionFault,
) -> Result<bool, IntroductionFault>
    ensures ok { IfOk result (λ has. MatchBool has (answer.now ≡ payload_answer kept.now) (answer.now ≡ has_no_record)) }
    ensures err { IfErr result (λ fault. ShowsOther kept.now other answer.now fault) }
{
    match answer.split_first() {
        Some((&GOOD, records)) if records == kept => Ok(true),
        Some((&GOOD, _)) => Err(other),
        _ => {
            if answer == [REFUSED, HostRefusal::Missing.code()].as_slice() {
                Ok(false)
            } else {
                Err(said(answer))
            }
        }
    }
}

/// Has the host keep a tree beside those of the device. It is sent the tree's records only if a node of it has none. Fails with `other` if it
/// has other records there.
fn own<L: BatchLink>(
    alloc: Global,
    link: &mut L,
    tree: OwnTree,
    other: IntroductionFault,
) -> Result<(), IntroductionFault>
    ensures ok { OnOk result ((turns : List Turn) × TurnsRun L.batches link.old turns link.new × IsOwned tree turns) }
    ensures err { IfErr result (λ fault. (turns : List Turn) × TurnsRun L.batches link.old turns link.new × IsUnowned tree other turns fault) }
{
    let OwnTree {
        shape,
        question,
        kept,
        puts,
    } = tree;
    let answer = ask(alloc, link, &[shape], question)?;
    if has_records(&answer, &kept, other)? {
        return Ok(());
    }
    put(alloc, link, &puts)?;
    Ok(())
}

/// Returns whether an answer gives the bytes `kept`.
fn gives(answer: &[u8], kept: &[u8]) -> bool
    ensures { MatchBool result (answer.now ≡ payload_answer kept.now) (answer.now ≢ payload_answer kept.now) }
{
    match answer.split_first() {
        Some((&GOOD, rest)) => rest == kept,
        _ => false,
    }
}

/// Has the host make the trees of a device, and fails unless it then gives back the identity.
fn confirm<L: BatchLink>(
    alloc: Global,
    device: &Device,
    overhead: usize,
    identity: &Identity,
    link: &mut L,
) -> Result<(), IntroductionFault>
    requires { overhead ≤ 64 }
    ensures ok { OnOk result ((turns : List Turn) × TurnsRun L.batches link.old turns link.new
        × IsAsked (shapes device.now overhead) (identity_tree identity.now.0).question (payload_answer identity.now.0) turns) }
    ensures err { IfErr result (λ fault. (turns : List Turn) × TurnsRun L.batches link.old turns link.new × IsUnconfirmed device.now overhead identity.now.0 turns fault) }
{
    let makings = shape_messages(alloc, device, overhead)?;
    let question = identity_question(alloc)?;
    let answer = ask(alloc, link, &makings, question)?;
    if !gives(&answer, &identity.0) {
        return Err(IntroductionFault::NotStored);
    }
    Ok(())
}

/// Has the host keep the identity of the disk.
fn keep_identity<L: BatchLink>(
    alloc: Global,
    identity: &Identity,
    link: &mut L,
) -> Result<(), IntroductionFault>
    ensures ok { OnOk result ((turns : List Turn) × TurnsRun L.batches link.old turns link.new × IsOwned (identity_tree identity.now.0) turns) }
    ensures err { IfErr result (λ fault. (turns : List Turn) × TurnsRun L.batches link.old turns link.new × IsUnowned (identity_tree identity.now.0) IntroductionFault.Taken turns fault) }
{
    let tree = identity_tree(alloc, identity)?;
    own(alloc, link, tree, IntroductionFault::Taken)
}

/// Has the host keep the first stamps of the disk.
fn keep_stamps<L: BatchLink>(
    alloc: Global,
    stamps: &StampKey,
    link: &mut L,
) -> Result<(), IntroductionFault>
    ensures ok { OnOk result ((turns : List Turn) × TurnsRun L.batches link.old turns link.new × IsOwned (stamps_tree stamps.now.0) turns) }
    ensures err { IfErr result (λ fault. (turns : List Turn) × TurnsRun L.batches link.old turns link.new × IsUnowned (stamps_tree stamps.now.0) IntroductionFault.Used turns fault) }
{
    let tree = stamps_tree(alloc, stamps)?;
    own(alloc, link, tree, IntroductionFault::Used)
}

/// Introduces a disk to its host: afterwards the host knows the disk's identity, its first stamps, and the shapes of the device's trees, and
/// has no record of these trees. `overhead` is how many bytes the disk's sealer adds to a bucket.
///
/// A disk that was introduced before, or in part, is introduced once more: a host is sent only what it doesn't have yet. So this may be
/// called again after it was broken off anywhere, as long as the disk wasn't used. Nothing is sent to a host that keeps another disk
/// but the question for its identity, and nothing of the stamps to a host whose stamps say that the disk was used. A tree that has a
/// shape already has this one: only this disk's introduction gives shapes to the trees of a host that has its identity, and the
/// identity goes with one device.
///
/// A host may collect PUTs and make them durable in groups, but it has to finish all of them before it answers any other request. So once
/// the identity is fetched at the end, all of the introduction is on the host's disk.
pub fn introduce<L: BatchLink>(
    alloc: Global,
    device: &Device,
    overhead: usize,
    identity: &Identity,
    stamps: &StampKey,
    link: &mut L,
) -> Result<(), IntroductionFault>
    requires { overhead ≤ 64 }
    ensures ok { OnOk result ((turns : List Turn) × TurnsRun L.batches link.old turns link.new × IsIntroduced device.now overhead identity.now.0 stamps.now.0 turns) }

    // What was sent and answered up to a fault, and which fault it is.
    ensures err { IfErr result (λ fault. (turns : List Turn) × TurnsRun L.batches link.old turns link.new
        × IsUnintroduced device.now overhead identity.now.0 stamps.now.0 turns fault) }
{
    keep_identity(alloc, identity, link)?;
    keep_stamps(alloc, stamps, link)?;
    confirm(alloc, device, overhead, identity, link)?;
    Ok(())
}
