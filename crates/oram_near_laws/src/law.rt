//! Laws about processes over a host of levels.
ghost use Rattle.oram_near.specs.EmptyRecords.{made_with, of_maker};
ghost use Rattle.oram_near_laws.specs.BesideLevels.{ActsOverLevelsAreSafe, RepliesOverLevelsAreTheArrays};
ghost use Rattle.oram_near_laws.specs.Example.{NextOverLevelsExample, ReadingOverLevelsExample};
ghost use Rattle.oram_near_laws.specs.NextProcess.{NextOverLevelsIsSafe};

use oram_near::EmptyRecords;
use oram_rounds::{BatchLink, Keeper};

/// A law about definitions: a process has a `NearLink`, and beside it stands a host of levels, which is honest or may lie. A host of whole
/// paths completes that host, and over it the process is safe. Then whatever the process does, a host of whole paths completes the host
/// of levels afterwards, too, and over this one the process is safe as `acts_are_safe` in `oram_rounds` says it.
pub fn acts_over_levels_are_safe<B: BatchLink, E: EmptyRecords, K: Keeper>()
    ensures { ActsOverLevelsAreSafe B.batches (made_with E.record_at) (of_maker E.device) (of_maker E.record_len) K.reads_back }
{}

/// A law about definitions: the replies that such a process gives are the array's, in the order of the commands. Where the host of levels may
/// lie the device may fail; then all other commands are answered as failed.
pub fn replies_over_levels_are_the_arrays<B: BatchLink, E: EmptyRecords, K: Keeper>()
    ensures { RepliesOverLevelsAreTheArrays B.batches (made_with E.record_at) (of_maker E.device) (of_maker E.record_len) K.reads_back }
{}

/// A law about definitions: a process kept itself, and its near records, and since then the host of levels has received FETCHes and some of the
/// STOREs that were kept. The next process begins with what is read back, and gives these STOREs to its link, as `NearLink::with_unsure` does.
/// Then a host of whole paths completes the host of levels for it, over which the new process is safe: so
/// [`acts_over_levels_are_safe`] goes on from there.
pub fn next_over_levels_is_safe<B: BatchLink, E: EmptyRecords, K: Keeper>()
    ensures { NextOverLevelsIsSafe B (made_with E.record_at) (of_maker E.device) (of_maker E.record_len) K.reads_back }
{}

/// A process that is about to read a block, over a host of levels that has no record, meets the premises of
/// [`acts_over_levels_are_safe`] and [`replies_over_levels_are_the_arrays`]: its FETCH goes ahead.
pub fn reading_over_levels_example()
    ensures { ReadingOverLevelsExample }
{}

/// That process, once it has kept itself and sent its FETCH, and the one after it meet the premises of [`next_over_levels_is_safe`].
pub fn next_over_levels_example()
    ensures { NextOverLevelsExample }
{}
