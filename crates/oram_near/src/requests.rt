//! The requests of a batch, and the messages that go to the host for them.
ghost use Rattle.std.specs.Prelude.{◌≡◌, ◌⊎◌, ◌≤◌, ◌<◌, ◌^◌, ◌+◌, ◌++◌, [], IfOk, IsTrue, MatchBool, MatchResult, filter, map, vec_capacity, vec_len};
ghost use Rattle.std.specs.List.{AllByRecursion, FoldsTo};
ghost use Rattle.oram_geometry.specs.Sizes.{depth_of};
ghost use Rattle.oram_levels.specs.Messages.{levels_body};
ghost use Rattle.oram_link_laws.specs.Repair.{IsAmong};
ghost use Rattle.oram_rounds.specs.Batches.{texts};
ghost use Rattle.oram_near.specs.Near.{Near, rest_of};
ghost use Rattle.oram_near.specs.NearCalls.{AreAgain, ArePathBodies, IsNoneOf, IsOneMissing, TakesNear, begins_as_store, is_in_order, phase_after};
ghost use Rattle.oram_near.specs.NearStreams.{IsFetch, IsReadBatch, IsStore};
ghost use Rattle.oram_near.specs.PathRequests.{IsOfDevice, far_of, path_body, request_of};

use crate::near_records::NearRecords;
use crate::path_message::PathMessage;
use oram_geometry::Device;
use oram_session::LinkFault;
use std::alloc::{AllocError, Global};

/// Reads bodies as FETCHes and STOREs of whole paths. Fails with `Closed` if one of them is no such message.
fn read_each<'a>(
    alloc: Global,
    device: &Device,
    record_len: usize,
    bodies: &'a [Vec<u8>],
) -> Result<Vec<PathMessage<'a>>, LinkFault>
    requires { record_len < 2 ^ 32 }
    ensures { MatchResult result (λ requests. (texts bodies.now ≡ map path_body (map request_of requests.items)) × AllByRecursion (IsOfDevice device.now record_len) (map request_of requests.items))
        (λ fault. (fault ≡ LinkFault.OutOfMemory) ⊎ ((fault ≡ LinkFault.Closed) × ¬ ArePathBodies device.now record_len (texts bodies.now))) }
{
    let mut requests = Vec::with_capacity(alloc, bodies.len())?;
    for body in bodies {
        let Some(request) = PathMessage::read(device, record_len, body) else {
            return Err(LinkFault::Closed);
        };
        if requests.push(request).is_err() {
            return Err(LinkFault::OutOfMemory);
        }
    }
    Ok(requests)
}

/// Reads the bodies of a batch as FETCHes and STOREs of whole paths. Fails with `Closed` if one of them is no such message.
pub(crate) fn read_all<'a>(
    alloc: Global,
    device: &Device,
    record_len: usize,
    first: &'a [Vec<u8>],
    last: &'a [Vec<u8>],
) -> Result<Vec<PathMessage<'a>>, LinkFault>
    requires { record_len < 2 ^ 32 }
    ensures { MatchResult result (λ requests. (texts first.now ++ texts last.now ≡ map path_body (map request_of requests.items)) × AllByRecursion (IsOfDevice device.now record_len) (map request_of requests.items))
        (λ fault. (fault ≡ LinkFault.OutOfMemory) ⊎ ((fault ≡ LinkFault.Closed) × ¬ ArePathBodies device.now record_len (texts first.now ++ texts last.now))) }
{
    let mut requests = read_each(alloc, device, record_len, first)?;
    let mut more = read_each(alloc, device, record_len, last)?;
    requests.append(&mut more)?;
    Ok(requests)
}

/// How far a batch has come: its STOREs stand together.
#[derive(Clone, Copy, Debug)]
enum Phase {
    /// No STORE has come yet.
    Before,
    /// The last request was a STORE.
    Within,
    /// A FETCH has come behind the STOREs.
    Behind,
}

/// Returns the phase after a request, or `None` if it may not come in this phase.
fn phase_after(phase: Phase, request: &PathMessage<'_>) -> Option<Phase>
    ensures { result ≡ phase_after phase (request_of request.now) }
{
    match (phase, *request) {
        (Phase::Before, PathMessage::Fetch { .. }) => Some(Phase::Before),
        (Phase::Before | Phase::Within, PathMessage::Store { .. }) => Some(Phase::Within),
        (Phase::Within | Phase::Behind, PathMessage::Fetch { .. }) => Some(Phase::Behind),
        (Phase::Behind, PathMessage::Store { .. }) => None,
    }
}

/// Returns whether no FETCH of a batch stands between two STOREs.
pub(crate) fn is_in_order(requests: &[PathMessage<'_>]) -> bool
    ensures { result ≡ is_in_order (map request_of requests.now) }
{
    let mut phase = Phase::Before;
    for request in requests {
        let Some(next) = phase_after(phase, request) else {
            return false;
        };
        phase = next;
    }
    true
}

/// Encodes the messages about far levels that go to the host for these requests. Fails only if memory runs out.
pub(crate) fn encode_each(
    alloc: Global,
    device: &Device,
    record_len: usize,
    levels: u8,
    requests: &[PathMessage<'_>],
) -> Result<Vec<Vec<u8>>, AllocError>
    requires few { record_len < 2 ^ 32 }
    requires levels { levels ≤ depth_of device.now 0 }
    requires paths { AllByRecursion (IsOfDevice device.now record_len) (map request_of requests.now) }
    ensures { IfOk result (λ messages. texts messages.items ≡ map levels_body (map (far_of device.now levels record_len) (map request_of requests.now))) }
{
    let mut messages = Vec::with_capacity(alloc, requests.len())?;
    for request in requests {
        messages.push(request.encode_far(alloc, device, record_len, levels)?)?;
    }
    Ok(messages)
}

/// Returns whether all requests are FETCHes.
fn are_fetches(requests: &[PathMessage<'_>]) -> bool
    ensures { IsTrue result → AllByRecursion IsFetch (map request_of requests.now) }
{
    for request in requests {
        if let PathMessage::Store { .. } = request {
            return false;
        }
    }
    true
}

/// Returns whether all requests are STOREs.
fn are_stores(requests: &[PathMessage<'_>]) -> bool
    ensures { IsTrue result → AllByRecursion IsStore (map request_of requests.now) }
{
    for request in requests {
        if let PathMessage::Fetch { .. } = request {
            return false;
        }
    }
    true
}

/// FETCHes, and STOREs behind them, that go to the host in one batch.
#[derive(Drop)]
pub(crate) struct FetchesAndStores<'a> {
    /// The messages about levels for the FETCHes.
    pub(crate) fetches: Vec<Vec<u8>>,
    /// The messages about levels for the STOREs.
    pub(crate) stores: Vec<Vec<u8>>,
    /// The STOREs.
    pub(crate) requests: Vec<PathMessage<'a>>,
}

/// Reads the bodies of `first` as FETCHes of whole paths and those of `last` as STOREs, and encodes the messages about levels. Fails with
/// `Closed` if one of them is no such message.
pub(crate) fn read_batch<'a>(
    alloc: Global,
    device: &Device,
    record_len: usize,
    levels: u8,
    first: &[Vec<u8>],
    last: &'a [Vec<u8>],
) -> Result<FetchesAndStores<'a>, LinkFault>
    requires few { record_len < 2 ^ 32 }
    requires levels { levels ≤ depth_of device.now 0 }
    ensures { IfOk result (λ batch. IsReadBatch device.now levels record_len (texts first.now) (texts last.now) (texts batch.fetches.items) (texts batch.stores.items) (map request_of batch.requests.items)) }
{
    let fetches = read_each(alloc, device, record_len, first)?;
    let requests = read_each(alloc, device, record_len, last)?;
    if are_fetches(&fetches) && are_stores(&requests) {
        let fetches = encode_each(alloc, device, record_len, levels, &fetches)?;
        let stores = encode_each(alloc, device, record_len, levels, &requests)?;
        return Ok(FetchesAndStores {
            fetches,
            stores,
            requests,
        });
    }
    Err(LinkFault::Closed)
}

/// Replaces the near records of a STORE's path, if it is one to tree 0.
fn store_one(device: &Device, near: &mut NearRecords, request: &PathMessage<'_>)
    requires levels { near.old.levels ≤ depth_of device.now 0 }
    requires path { IsOfDevice device.now near.old.record_len (request_of request.now) }
    ensures { TakesNear device.now near.old (request_of request.now) near.new }
{
    let PathMessage::Store {
        tree,
        leaf,
        records,
    } = *request
    else {
        return;
    };
    if tree == 0 {
        near.store(device, leaf, records);
    }
}

/// Replaces the near records of the paths of all STOREs to tree 0, in their order.
pub(crate) fn store_each(device: &Device, near: &mut NearRecords, requests: &[PathMessage<'_>])
    requires levels { near.old.levels ≤ depth_of device.now 0 }
    requires paths { AllByRecursion (IsOfDevice device.now near.old.record_len) (map request_of requests.now) }
    ensures stored { FoldsTo {P = Near} (TakesNear device.now) near.old (map request_of requests.now) near.new }
    ensures sizes { (near.new.levels ≡ near.old.levels) × (near.new.record_len ≡ near.old.record_len) }
    ensures rest { rest_of near.new ≡ rest_of near.old }
{
    for request in requests {
        store_one(device, near, request);
    }
}

/// The first byte of a STORE of levels.
const STORE: u8 = 7;

/// Returns whether a message is a STORE of levels, if it is one about levels.
fn is_store(message: &[u8]) -> bool
    ensures { result ≡ begins_as_store message.now }
{
    match message.first() {
        Some(op) => *op == STORE,
        None => false,
    }
}

/// Returns whether a message is one of these.
fn is_one_of(message: &[u8], messages: &[Vec<u8>]) -> bool
    ensures { MatchBool result (IsAmong message.now (texts messages.now)) (IsNoneOf message.now (texts messages.now)) }
{
    for other in messages {
        if other.as_slice() == message {
            return true;
        }
    }
    false
}

/// Returns whether each of these STOREs is one of the messages.
fn are_among(stores: &[Vec<u8>], messages: &[Vec<u8>]) -> bool
    ensures { MatchBool result (AreAgain (texts messages.now) (texts stores.now)) (IsOneMissing (texts messages.now) (texts stores.now)) }
{
    for store in stores {
        if !is_one_of(store, messages) {
            return false;
        }
    }
    true
}

/// Forgets STOREs if each of them is among the messages that are sent next.
pub(crate) fn forget_repeated(stores: &mut Vec<Vec<u8>>, messages: &[Vec<u8>])
    ensures room { vec_capacity stores.new ≡ vec_capacity stores.old }
    ensures few { vec_len stores.new ≤ vec_len stores.old }
    ensures value { ((stores.new.items ≡ stores.old.items) × IsOneMissing (texts messages.now) (texts stores.old.items)) ⊎ ((stores.new.items ≡ []) × AreAgain (texts messages.now) (texts stores.old.items)) }
{
    if are_among(stores, messages) {
        stores.clear();
    }
}

/// Moves the STOREs among the messages about levels behind other STOREs, which have room for them.
pub(crate) fn hold(stores: &mut Vec<Vec<u8>>, mut messages: Vec<Vec<u8>>)
    requires { vec_len stores.old + vec_len messages ≤ vec_capacity stores.old }
    ensures { texts stores.new.items ≡ texts stores.old.items ++ filter begins_as_store (texts messages.items) }
{
    messages.retain(|message| is_store(message));
    if stores.append(&mut messages).is_err() {
        unreachable!()
    }
}
