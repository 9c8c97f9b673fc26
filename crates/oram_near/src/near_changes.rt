//! Which near records have changed, so that whoever keeps them need not look for the changes.
ghost use Rattle.std.specs.Prelude.{◌≡◌, ◌^◌, ◌<◌, ◌≤◌, [], ◌∷◌, IfOk, true};
ghost use Rattle.oram_geometry.specs.Sizes.{depth_of};
ghost use Rattle.oram_near.specs.Near.{HasRoomFor, NotesNodes, TellsOf, nothing_noted, path_nodes};

use oram_geometry::Device;
use std::alloc::{AllocError, Global};
use std::marker::Model;

/// For how many nodes a note has room: 64 paths with 24 near levels each have fewer.
const MOST_NOTED: usize = 2048;

/// The near records that may have changed.
#[derive(Clone, Copy, Debug)]
pub enum NearChanges<'a> {
    /// Any of them.
    Any,
    /// Those of these nodes. A node may stand here more than once.
    Nodes(&'a [u32]),
}

/// A note of the near records that may have changed.
#[derive(Drop)]
pub(crate) struct NotedNodes {
    /// Whether any record may have changed, whatever the nodes are.
    any: bool,
    nodes: Vec<u32>,
}

impl Model for NotedNodes {
    ghost use Rattle.std.specs.Prelude.{◌≤◌, vec_capacity};
    ghost use Rattle.oram_near.specs.Near.{Noted};

    ghost Value = { Noted };

    ghost view = { λ n. record { any = n.any; nodes = n.nodes.items } };

    ghost invariant = { λ n. 2048 ≤ vec_capacity n.nodes };
}

impl NotedNodes {
    /// Notes that any record may have changed. Fails only if memory runs out.
    pub(crate) fn any(alloc: Global) -> Result<NotedNodes, AllocError>
        ensures { IfOk result (λ noted. noted ≡ record { any = true; nodes = [] }) }
    {
        let nodes = Vec::with_capacity(alloc, MOST_NOTED)?;
        Ok(NotedNodes { any: true, nodes })
    }

    /// Notes that the record of a node changes, or that any may have changed if there is no room for the node.
    pub(crate) fn note(&mut self, node: u32)
        ensures noted { NotesNodes (node ∷ []) self.old self.new }
        ensures room { HasRoomFor 1 self.old self.new }
    {
        if self.nodes.len() == self.nodes.capacity() {
            self.any = true;
            return;
        }
        if self.nodes.push(node).is_err() {
            self.any = true;
        }
    }

    /// Notes that the records of a path's top levels change.
    pub(crate) fn note_path(&mut self, device: &Device, levels: u8, leaf: u32)
        requires levels { levels ≤ depth_of device.now 0 }
        requires leaf { leaf < 2 ^ depth_of device.now 0 }
        ensures noted { NotesNodes (path_nodes (depth_of device.now 0) leaf levels) self.old self.new }
        ensures room { HasRoomFor levels self.old self.new }
    {
        for level in 0..levels {
            self.note(device.node_on(0, leaf, level));
        }
    }

    /// Forgets all changes.
    pub(crate) fn forget(&mut self)
        ensures { self.new ≡ nothing_noted }
    {
        self.any = false;
        self.nodes.clear();
    }

    /// Returns which records may have changed.
    pub(crate) fn told(&self) -> NearChanges<'_>
        ensures { TellsOf self.now result }
    {
        if self.any {
            return NearChanges::Any;
        }
        NearChanges::Nodes(&self.nodes)
    }
}
