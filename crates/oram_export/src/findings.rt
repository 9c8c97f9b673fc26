//! How many records of a tree are what was stored.
ghost use Rattle.std.specs.Prelude.{◌≡◌, ◌↔◌, ◌+◌, ◌<◌, ◌≤◌, ◌^◌, All, IsTrue, IfOk, length, sum_by, replicate};
ghost use Rattle.oram_export.specs.Findings.{IsCounted, IsLevelWhole, count_of, lost_of, none_found};

use oram_scan::Finding;
use std::alloc::{AllocError, Global};
use std::marker::Model;

/// What was found at the nodes of one level of a tree: how many of its records are what.
#[derive(Clone, Copy, Debug, PartialEq, Eq)]
pub struct LevelFindings {
    /// The record is the one that was stored.
    pub sound: u64,
    /// It isn't the one that was stored.
    pub changed: u64,
    /// The host has no record for the node.
    pub missing: u64,
    /// It can't be checked, since a record above it is changed or missing.
    pub unchecked: u64,
}

impl LevelFindings {
    /// Returns how many records of the level are lost: all but the sound ones.
    pub fn lost(&self) -> u64
        requires { lost_of self.now < 2 ^ 64 }
        ensures { result ≡ lost_of self.now }
    {
        self.changed + self.missing + self.unchecked
    }
}

/// What was found at the nodes of a tree, level by level.
#[derive(Debug, Drop)]
pub struct TreeFindings {
    levels: Vec<LevelFindings>,
}

impl Model for TreeFindings {
    ghost use Rattle.std.specs.Prelude.{◌<◌, ◌^◌, List, sum_by};
    ghost use Rattle.oram_export.specs.declared.findings.LevelFindings.{LevelFindings as Level};
    ghost use Rattle.oram_export.specs.Findings.{count_of};

    ghost Value = { List Level };

    ghost view = { λ f. f.levels.items };

    ghost invariant = { λ f. sum_by count_of f.levels.items < 2 ^ 32 };
}

impl TreeFindings {
    /// Returns findings about no record yet, of a tree with this depth, 24 at most.
    pub(crate) fn none_yet(alloc: Global, depth: u8) -> Result<TreeFindings, AllocError>
        requires { depth ≤ 24 }
        ensures { IfOk result (λ findings. findings ≡ replicate (depth + 1) none_found) }
    {
        let none_found = LevelFindings {
            sound: 0,
            changed: 0,
            missing: 0,
            unchecked: 0,
        };
        Ok(TreeFindings {
            levels: vec![in alloc; none_found; usize::from(depth) + 1]?,
        })
    }

    /// Counts a node's record, or that the node has none.
    pub(crate) fn count(&mut self, node: u64, finding: Option<Finding>)
        requires node { node < 2 ^ 25 }
        requires level { node + 1 < 2 ^ length self.old }
        requires few { sum_by count_of self.old + 1 < 2 ^ 32 }
        ensures { IsCounted self.old node finding self.new }
    {
        let level = &mut self.levels[(node + 1).ilog2() as usize];
        match finding {
            Some(Finding::Sound) => level.sound += 1,
            Some(Finding::Changed) => level.changed += 1,
            Some(Finding::Unchecked) => level.unchecked += 1,
            None => level.missing += 1,
        }
    }

    /// Returns what was found at each level, from the root down.
    pub fn levels(&self) -> &[LevelFindings]
        ensures { result.now ≡ self.now }
    {
        &self.levels
    }

    /// Returns whether each record is the one that was stored.
    pub fn is_whole(&self) -> bool
        ensures { IsTrue result ↔ All IsLevelWhole self.now }
    {
        self.levels.iter().all(|level| level.changed == 0
            && level.missing == 0
            && level.unchecked == 0)
    }

    /// Returns how many records of the tree are lost.
    pub fn lost(&self) -> u64
        ensures { result ≡ sum_by lost_of self.now }
    {
        let mut lost = 0;
        for level in &self.levels {
            lost += level.lost();
        }
        lost
    }
}
