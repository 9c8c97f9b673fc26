//! The first process of a disk, with which its new files are filled.
ghost use Rattle.std.specs.Prelude.{◌≡◌, ◌++◌};
ghost use Rattle.oram_keeper.specs.Process.{HoldsFirst};

use oram_kept::{ChangedNumbers, ChangedRecords, FORMAT, TextParts, write_first};
use oram_pair::{Fill, PairFault, PairFormat};
use oram_redo::{FilePair, RedoError};
use oram_rounds::KeptParts;
use std::alloc::Global;

/// The first process of a disk, behind its title. New files of [`FORMAT`] are filled with it.
#[derive(Drop)]
pub struct FirstProcess<'a> {
    pub alloc: Global,
    pub title: &'a [u8],
    pub text: KeptParts<'a>,
}

impl Fill for FirstProcess<'_> {
    ghost use Rattle.oram_keeper.specs.Process.{HoldsFirst};

    ghost fills = { λ first old new. HoldsFirst first new };

    fn fill<F: FilePair>(&self, format: &PairFormat, files: &mut F) -> Result<(), PairFault> {
        if format.bounds.log_start != FORMAT.bounds.log_start {
            return Err(PairFault::OtherKind(format.letters.records));
        }
        let parts = TextParts {
            title: self.title,
            before: self.text.before,
            table: self.text.table,
            changes: ChangedNumbers::Any,
            after: self.text.after,
            records: self.text.records.bytes,
            changed_records: ChangedRecords::Any,
        };
        match write_first(self.alloc, files, &parts) {
            Ok(()) => Ok(()),
            // A text that is too long for the format takes more memory than any process has.
            Err(RedoError::LogFull | RedoError::Memory) => Err(PairFault::OutOfMemory),
            Err(error) => Err(error.into()),
        }
    }
}
