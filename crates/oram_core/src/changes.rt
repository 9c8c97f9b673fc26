//! The entries of a core's table that have changed, so that whoever keeps the table need not look for them.
ghost use Rattle.std.specs.Prelude.{◌≡◌, IfOk, List, ℕ, true};
ghost use Rattle.oram_core.specs.Changes.{AreNoted, AreTold, NotesBlock, NotesFew, TellsNoMore, nothing_noted};

use crate::machine::{Core, MOST_WAITING};
use oram_bucket::Sealer;
use std::alloc::{AllocError, Global};
use std::marker::Model;

/// The entries of a table that may have changed.
#[derive(Clone, Copy, Debug)]
pub enum TableChanges<'a> {
    /// Any of them.
    Any,
    /// Those of these blocks. A block may stand here more than once.
    Blocks(&'a [u32]),
}

/// A note of the entries that may have changed. It has room for as many blocks as commands can wait.
#[derive(Drop)]
pub(crate) struct NotedChanges {
    /// Whether any entry may have changed, whatever the blocks are.
    any: bool,
    blocks: Vec<u32>,
}

impl Model for NotedChanges {
    ghost use Rattle.std.specs.Prelude.{◌≤◌, vec_capacity};
    ghost use Rattle.oram_core.specs.Changes.{Noted};

    ghost Value = { Noted };

    ghost view = { λ n. record { any = n.any; blocks = n.blocks.items } };

    ghost invariant = { λ n. 64 ≤ vec_capacity n.blocks };
}

impl NotedChanges {
    /// Notes that any entry may have changed. Fails only if memory runs out.
    pub(crate) fn any(alloc: Global) -> Result<NotedChanges, AllocError>
        ensures { IfOk result (λ n. n.any ≡ true) }
    {
        let blocks = Vec::with_capacity(alloc, MOST_WAITING)?;
        Ok(NotedChanges { any: true, blocks })
    }

    /// Notes that the entry of a block changes, or that any entry may have changed if there is no room for the block.
    pub(crate) fn note(&mut self, block: u32)
        ensures noted { NotesBlock block self.old self.new }
        ensures few { NotesFew self.old self.new }
    {
        if self.blocks.len() == self.blocks.capacity() {
            self.any = true;
            return;
        }
        if self.blocks.push(block).is_err() {
            self.any = true;
        }
    }

    /// Notes that any entry may have changed.
    pub(crate) fn note_any(&mut self)
        ensures { self.new ≡ record self.old { any = true } }
    {
        self.any = true;
    }

    /// Forgets all changes.
    fn forget(&mut self)
        ensures { self.new ≡ nothing_noted }
    {
        self.any = false;
        self.blocks.clear();
    }

    /// Returns which entries may have changed.
    fn told(&self) -> TableChanges<'_>
        ensures enough { (old new : List ℕ) → AreNoted self.now old new → AreTold result old new }
        ensures no_more { TellsNoMore self.now result }
    {
        if self.any {
            return TableChanges::Any;
        }
        TableChanges::Blocks(&self.blocks)
    }
}

impl<S: Sealer> Core<S> {
    /// Returns the entries of the table that may have changed since the changes were last forgotten. They may be any if that
    /// was never done, if more have changed than there is room to note, or once the device has failed.
    pub fn changes(&self) -> TableChanges<'_>
        ensures enough { (table : List ℕ) → AreNoted self.now.noted table self.now.state.table → AreTold result table self.now.state.table }
        ensures no_more { TellsNoMore self.now.noted result }
    {
        self.noted.told()
    }

    /// Forgets which entries of the table have changed: from now on they are counted from the table as it is.
    pub fn forget_changes(&mut self)
        ensures { self.new ≡ record self.old { noted = nothing_noted } }
    {
        self.noted.forget();
    }

    /// Notes that any entry of the table may have changed.
    pub fn note_any_change(&mut self)
        ensures { self.new ≡ record self.old { noted = record self.old.noted { any = true } } }
    {
        self.noted.note_any();
    }
}
