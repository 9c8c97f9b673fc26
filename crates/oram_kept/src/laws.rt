//! Laws of the definitions, as contracts of functions that do nothing, and one run from empty files, whose promise
//! rests on no premise that might never hold.
ghost use Rattle.std.specs.Prelude.{◌≡◌, IfOk};
ghost use Rattle.oram_kept.specs.Kept.{Finds, bounds};
ghost use Rattle.oram_kept.specs.Laws.{TextsAreOne, WrittenFilesHold};
ghost use Rattle.oram_kept.specs.Pages.{AreTold, AreToldRecords, StayInPlace, parts_of};
ghost use Rattle.oram_redo.specs.FilePair.{Contents};
ghost use Rattle.oram_redo.specs.declared.file_pair.FileKind.TheVariants.{Log};
ghost use Rattle.oram_kept.specs.Examples.{Rows};

use crate::kept_text::{KeptText, write_first};
use crate::opening::OpenError;
use crate::text::{ChangedNumbers, ChangedRecords, TextParts};
use oram_pair::Generation;
use oram_redo::FilePair;
use std::alloc::Global;

/// Writes a first text into files whose log has no entries, opens them, and keeps two other texts in its place, one after the other: of the
/// second anything may be new, and of the third what it tells. Whoever opens the files after a crash finds the third.
pub fn first_life<F: FilePair + Drop>(
    alloc: Global,
    mut files: F,
    generation: Generation,
    first: &TextParts<'_>,
    second: &TextParts<'_>,
    third: &TextParts<'_>,
) -> Result<KeptText<F>, OpenError>
    requires shut { F.model.seen files Log bounds.log_start ≡ 15 }
    requires changes { second.now.changes ≡ ChangedNumbers.Any }
    requires changed { second.now.changed_records ≡ ChangedRecords.Any }
    requires told { AreTold third.now.changes second.now.table.now third.now.table.now }
    requires told_records { AreToldRecords third.now.changed_records second.now.records.now third.now.records.now }
    requires place { StayInPlace third.now.changed_records second.now.table.now third.now.table.now }
    ensures { IfOk result (λ kept. F.model.is_honest kept.files → (c : Contents) → F.model.may_leave kept.files c → Finds bounds (parts_of third.now) c) }
{
    write_first(alloc, &mut files, first)?;
    let (mut kept, _text) = KeptText::open(alloc, files, generation)?;
    kept.keep(second)?;
    kept.keep(third)?;
    Ok(kept)
}

/// A law about definitions: files hold a text, their log has no entries, and both are synced. Then whoever opens them after a crash finds the text.
pub fn written_files_hold<F: FilePair>()
    ensures { WrittenFilesHold F.model }
{}

/// A law about definitions: a content holds at most one text.
pub fn one_text()
    ensures { TextsAreOne }
{}

/// Worked rows of the definitions.
pub fn rows()
    ensures { Rows }
{}
