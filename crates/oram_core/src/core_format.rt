//! Formats a device.
ghost use Rattle.std.specs.Prelude.{◌≡◌, ◌≢◌, ◌+◌, ◌<◌, Err, IfOk, IfErr};
ghost use Rattle.oram_geometry.specs.Sizes.{trees_of};
ghost use Rattle.oram_tree.specs.Format.{IsBegun, IsBrokenOff};
ghost use Rattle.oram_semantics.specs.Formatting.{IsFormatBegun};
ghost use Rattle.oram_semantics.specs.Nonces.{formatted, formatted_below};
ghost use Rattle.oram_core.specs.Core.{scheme_with};
ghost use Rattle.oram_core.specs.Formatting.{AreMade, IsMade, IsNew};

use crate::changes::NotedChanges;
use crate::machine::Core;
use oram_bucket::Sealer;
use oram_bytes::Bytes;
use oram_geometry::Device;
use oram_tree::{FormatFault, Tree};
use oram_wire::{Sink, SinkFault};
use std::alloc::{AllocError, Global};
use std::collections::VecDeque;

/// The trees that are formatted so far, from tree 0 on, and the number of buckets that were sealed for them.
#[derive(Drop)]
struct Formatted {
    trees: Vec<Tree>,
    nonce: u64,
}

/// Formats the next tree and adds it to `so_far`.
fn format_next<S: Sealer, K: Sink>(
    alloc: Global,
    device: &Device,
    tree: u8,
    sealer: &S,
    sink: &mut K,
    so_far: &mut Formatted,
) -> Result<(), FormatFault>
    requires tree { tree < trees_of device.now }
    requires nonce { so_far.old.nonce ≡ formatted_below device.now tree }
    ensures memory { result ≢ Err (FormatFault.Sink SinkFault.OutOfMemory) }
    ensures nonce { IfOk result (λ _. so_far.new.nonce ≡ formatted_below device.now (tree + 1)) }
    ensures made { let v = scheme_with S.cipher device.now sealer.now in
        IfOk result (λ _. IsMade v K.putting sink.old tree so_far.old.trees.items so_far.new.trees.items sink.new) }
    ensures broken_off { IfErr result (λ fault. IsBrokenOff K.putting K.refusing
        (IsBegun (S.cipher sealer.now) device.now (formatted_below device.now tree) tree)
        sink.old fault sink.new) }
{
    let made = Tree::format(alloc, device, tree, sealer, so_far.nonce, sink)?;
    if let Err(refused) = so_far.trees.push(made) {
        return Err(AllocError::from(refused).into());
    }
    so_far.nonce += (2 << device.depth(tree)) - 1;
    Ok(())
}

/// Formats the trees of a device, from tree 0 on.
fn format_trees<S: Sealer, K: Sink>(
    alloc: Global,
    device: &Device,
    sealer: &S,
    sink: &mut K,
) -> Result<Formatted, FormatFault>
    ensures memory { result ≢ Err (FormatFault.Sink SinkFault.OutOfMemory) }
    ensures nonce { IfOk result (λ f. f.nonce ≡ formatted device.now) }
    ensures made { let v = scheme_with S.cipher device.now sealer.now in
        IfOk result (λ f. AreMade v K.putting sink.old (trees_of device.now) f.trees.items sink.new) }
    ensures broken_off { let v = scheme_with S.cipher device.now sealer.now in
        IfErr result (λ fault. IsBrokenOff K.putting K.refusing (IsFormatBegun v) sink.old fault sink.new) }
{
    let mut so_far = Formatted {
        trees: Vec::with_capacity(alloc, usize::from(device.trees()))?,
        nonce: 0,
    };
    for tree in 0..device.trees() {
        format_next(alloc, device, tree, sealer, sink, &mut so_far)?;
    }
    Ok(so_far)
}

impl<S: Sealer> Core<S> {
    /// Formats a device and returns its core. Sends the messages to the sink: for each tree its SHAPE, and a PUT of an
    /// empty bucket's record for each of its nodes.
    pub fn format<K: Sink>(
        alloc: Global,
        device: Device,
        sealer: S,
        sink: &mut K,
    ) -> Result<Core<S>, FormatFault>
        ensures memory { result ≢ Err (FormatFault.Sink SinkFault.OutOfMemory) }
        ensures device { IfOk result (λ c. c.device ≡ device) }
        ensures sealer { IfOk result (λ c. c.sealer ≡ sealer) }
        ensures made { let v = scheme_with S.cipher device sealer in
            IfOk result (λ c. IsNew v K.putting sink.old c.state sink.new) }
        ensures broken_off { let v = scheme_with S.cipher device sealer in
            IfErr result (λ fault. IsBrokenOff K.putting K.refusing (IsFormatBegun v) sink.old fault sink.new) }
    {
        let Formatted { trees, nonce } = format_trees(alloc, &device, &sealer, sink)?;
        let blocks = device.blocks_in(device.trees() - 1) as usize;
        let table = vec![in alloc; 0; blocks]?;
        let noted = NotedChanges::any(alloc)?;
        Ok(Core {
            device,
            sealer,
            table,
            trees,
            next: 0,
            nonce,
            queue: VecDeque::new(alloc),
            entry_number: 0,
            held_entry: 0,
            held_data: Bytes::from_vec(Vec::new(alloc)),
            message: Bytes::from_vec(Vec::new(alloc)),
            lost: false,
            failure: None,
            noted,
        })
    }
}
