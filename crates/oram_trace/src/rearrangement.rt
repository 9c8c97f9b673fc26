//! Rearranges a tape so that two lists of addresses show a host the same paths.
//!
//! At most one ticket shows a place of the tape. So the places that one list of addresses shows can be mapped, ticket by
//! ticket, to those that another list of the same length shows. With independent uniform words, what the host sees then
//! has the same distribution for both lists.
ghost use Rattle.std.specs.Prelude.{◌≡◌, ◌≢◌, ℕ, ◌+◌, ◌*◌, ◌<◌, ◌≤◌, length, map, slice_index, All, AllPairs, Contains, IfOk, MatchOption, IsOkUnless, Err};
ghost use Rattle.oram_geometry.specs.Sizes.{trees_of, blocks_in};
ghost use Rattle.oram_trace.specs.TapeRearrangement.{tape_len, tree_of_place, shown_places, rest_without, places_of, arranged_places, IsRearrangement, NamesEachOnce, KeepsTrees, ShowsAlike, are_addresses, rearrange_fault, fault_number};

use oram_geometry::Device;
use std::alloc::{AllocError, Global};
use std::collections::BTreeMap;

/// The greatest number of addresses in a list that can be rearranged.
pub const MOST_ADDRESSES: usize = 1_000_000;

/// Why two lists of addresses can't be rearranged: the first fault in this order.
#[derive(Clone, Copy, Debug, PartialEq, Eq)]
pub enum RearrangeFault {
    /// One list is longer than the other.
    Lengths,
    /// An address is too great for a block of the device.
    Address,
    /// The lists are longer than [`MOST_ADDRESSES`].
    TooLong,
    /// The lists have no fault, but memory ran out.
    OutOfMemory,
}

impl RearrangeFault {
    /// Returns the number by which programs name the fault, from 1, or `None` for `OutOfMemory`.
    pub fn number(self) -> Option<u8>
        ensures { result ≡ fault_number self }
    {
        match self {
            RearrangeFault::Lengths => Some(1),
            RearrangeFault::Address => Some(2),
            RearrangeFault::TooLong => Some(3),
            RearrangeFault::OutOfMemory => None,
        }
    }
}

impl From<AllocError> for RearrangeFault {
    ghost use Rattle.oram_trace.specs.declared.rearrangement.RearrangeFault.TheVariants.{OutOfMemory};

    ghost from_gives = { λ _ f. f ≡ OutOfMemory };

    fn from(_: AllocError) -> Self {
        RearrangeFault::OutOfMemory
    }
}

/// Returns a list q that names each place of a tape with as many tickets as there are addresses. On the tape that has
/// the word of place q(j) at place j, the entries of `b` are those of `a` on the tape itself, whatever the words are.
/// q maps each place to one of the same tree: the place that `b` shows at a ticket to the one that `a` shows at it,
/// and the tree's other places, rising, to its other places in `a`.
pub fn rearrange(
    alloc: Global,
    device: &Device,
    a: &[u32],
    b: &[u32],
) -> Result<Vec<u64>, RearrangeFault>
    ensures described { IfOk result (λ q. IsRearrangement device.now a.now b.now q.items) }
    ensures once { IfOk result (λ q. NamesEachOnce (tape_len device.now (length a.now)) q.items) }
    ensures trees { IfOk result (λ q. KeepsTrees device.now q.items) }
    ensures alike { IfOk result (λ q. ShowsAlike device.now a.now b.now q.items) }

    // It returns the first fault, and prefers any fault to `OutOfMemory`.
    ensures fault { MatchOption (rearrange_fault device.now a.now b.now)
        (IsOkUnless result RearrangeFault.OutOfMemory) (λ f. result ≡ Err f) }
{
    if let Some(fault) = fault_of(device, a, b) {
        return Err(fault);
    }
    let mut order = vec![in alloc; 0; 2 * usize::from(device.trees()) * a.len()]?;
    for tree in 0..device.trees() {
        let from = arranged_places(alloc, device, b, tree)?;
        let to = arranged_places(alloc, device, a, tree)?;
        send(&mut order, &from, &to);
    }
    Ok(order)
}

/// Returns the first fault of two lists of addresses.
fn fault_of(device: &Device, a: &[u32], b: &[u32]) -> Option<RearrangeFault>
    ensures { result ≡ rearrange_fault device.now a.now b.now }
{
    if a.len() != b.len() {
        Some(RearrangeFault::Lengths)
    } else if !(are_addresses(device, a) && are_addresses(device, b)) {
        Some(RearrangeFault::Address)
    } else if a.len() > MOST_ADDRESSES {
        Some(RearrangeFault::TooLong)
    } else {
        None
    }
}

/// Returns whether each is the address of a block of the device.
fn are_addresses(device: &Device, addresses: &[u32]) -> bool
    ensures { result ≡ are_addresses device.now addresses.now }
{
    prove!(device.trees() > 0);
    let blocks = device.blocks_in(0);
    addresses.iter().all(|address| *address < blocks)
}

/// Returns the places of a tree: first the one that each ticket shows, by ticket, and then the others, rising.
fn arranged_places(
    alloc: Global,
    device: &Device,
    addresses: &[u32],
    tree: u8,
) -> Result<Vec<u64>, AllocError>
    requires tree { tree < trees_of device.now }
    requires addresses { All (λ a. a < blocks_in device.now 0) addresses.now }
    requires few { length addresses.now ≤ 1000000 }
    ensures { IfOk result (λ v. v.items ≡ arranged_places device.now addresses.now tree) }
{
    let mut places = shown_places(alloc, device, addresses, tree)?;
    let rest = places_without(alloc, device, &places, tree)?;
    places.extend_from_slice(&rest)?;
    Ok(places)
}

/// Returns the place that each ticket shows in a tree, by ticket.
fn shown_places(
    alloc: Global,
    device: &Device,
    addresses: &[u32],
    tree: u8,
) -> Result<Vec<u64>, AllocError>
    requires tree { tree < trees_of device.now }
    requires addresses { All (λ a. a < blocks_in device.now 0) addresses.now }
    requires few { length addresses.now ≤ 1000000 }
    ensures { IfOk result (λ v. v.items ≡ shown_places device.now addresses.now tree) }
{
    let words = 2 * u64::from(device.trees());
    let offset = 2 * u64::from(tree);
    let mut last_uses = BTreeMap::new(alloc);
    let mut places = Vec::with_capacity(alloc, 2 * addresses.len())?;
    for (index, address) in addresses.iter().enumerate() {
        let ticket = index as u64;
        let block = device.address_in(tree, *address);
        let place = match last_uses.insert(block, ticket)? {
            Some(last) => words * last + offset + 1,
            None => words * ticket + offset,
        };
        places.push(place)?;
    }
    Ok(places)
}

/// Returns the places of a tree that aren't in `places`, rising. The tape has as many tickets as there are `places`.
fn places_without(
    alloc: Global,
    device: &Device,
    places: &[u64],
    tree: u8,
) -> Result<Vec<u64>, AllocError>
    requires tree { tree < trees_of device.now }
    requires few { length places.now ≤ 1000000 }
    requires within { All (λ p. p < tape_len device.now (length places.now)) places.now }
    requires same_tree { All (λ p. tree_of_place device.now p ≡ tree) places.now }
    ensures { IfOk result (λ v. v.items ≡ rest_without places.now (places_of device.now tree (length places.now))) }
{
    let words = 2 * u64::from(device.trees());
    let offset = 2 * u64::from(tree);
    let mut is_among = vec![in alloc; false; 2 * places.len()]?;
    for place in places {
        is_among[(place / words * 2 + place % 2) as usize] = true;
    }
    let mut rest = Vec::with_capacity(alloc, places.len())?;
    for (index, is_among) in is_among.iter().enumerate() {
        if !is_among {
            let rank = index as u64;
            rest.push(words * (rank / 2) + offset + rank % 2)?;
        }
    }
    Ok(rest)
}

/// Writes each element of `to` to the index in `order` that the element of `from` at the same index gives.
fn send(order: &mut [u64], from: &[u64], to: &[u64])
    requires lengths { length from.now ≡ length to.now }
    requires within { All (λ p. p < length order.old) from.now }
    requires apart { AllPairs (λ p r. p ≢ r) from.now }
    ensures sent { map (slice_index order.new) from.now ≡ to.now }
    ensures others { (p : ℕ) → ¬ Contains from.now p → slice_index order.new p ≡ slice_index order.old p }
{
    for (place, target) in from.iter().zip(to) {
        order[*place as usize] = *target;
    }
}
