//! Opens the files of a text.
ghost use Rattle.std.specs.Prelude.{◌≡◌, ◌⊎◌, [], IfErr, IfOk, IsErrOf, false};
ghost use Rattle.oram_kept.specs.Kept.{Finds, Keeps, bounds};
ghost use Rattle.oram_kept.specs.Layout.{Holds};
ghost use Rattle.oram_kept.specs.Opening.{FindsSame, IsNotOpened, ReadsText};
ghost use Rattle.oram_kept.specs.Reading.{Says, SaysRoom, head_bytes, parts_around};
ghost use Rattle.oram_kept.specs.Text.{Parts};
ghost use Rattle.oram_redo.specs.Content.{Has};
ghost use Rattle.oram_redo.specs.FilePair.{ComesAfter, LeavesOnly};
ghost use Rattle.oram_redo.specs.Redo.{IsCrashConsistent};
ghost use Rattle.oram_redo.specs.declared.file_pair.FileKind.TheVariants.{Records};

use crate::head::{HEAD_AT, HEAD_LEN, Head};
use crate::kept_text::{FORMAT, KeptText};
use crate::pages::TABLE_AT;
use crate::reading::{Text, text_in};
use oram_pair::Generation;
use oram_redo::{FilePair, Redo, RedoError, recover};
use std::alloc::{AllocError, Global};
use std::fmt;

/// Why no text was opened.
#[derive(Clone, Copy, Debug, PartialEq, Eq)]
pub enum OpenError {
    /// The redo log could not be read, or the records behind it.
    Files(RedoError),
    /// The file of records holds no text, as far as its checksums tell: it is something else, or has changed since it was kept.
    NoText,
}

impl fmt::Display for OpenError {
    fn fmt<W: fmt::Write>(&self, f: &mut fmt::Formatter<W>) -> fmt::Result {
        match self {
            OpenError::Files(error) => error.fmt(f),
            OpenError::NoText => f.write_str("the file holds no text that is whole"),
        }
    }
}

impl From<RedoError> for OpenError {
    ghost use Rattle.oram_kept.specs.declared.opening.OpenError.TheVariants.{Files};

    ghost from_gives = { λ error e. e ≡ Files error };

    fn from(error: RedoError) -> OpenError {
        OpenError::Files(error)
    }
}

impl From<AllocError> for OpenError {
    ghost use Rattle.oram_kept.specs.declared.opening.OpenError.TheVariants.{Files};
    ghost use Rattle.oram_redo.specs.declared.faults.RedoError.TheVariants.{Memory};

    ghost from_gives = { λ _ e. e ≡ Files Memory };

    fn from(_error: AllocError) -> OpenError {
        OpenError::Files(RedoError::Memory)
    }
}

/// Reads the text that the records hold.
fn read_text<F: FilePair>(alloc: Global, files: &mut F, redo: &Redo) -> Result<Text, OpenError>
    ensures found { IfOk result (λ text. F.model.is_honest files.new → Holds (parts_around text.table.items text.records.items text.around) (F.model.seen files.old Records)) }
    ensures none { IsErrOf result OpenError.NoText → F.model.is_honest files.new → (p : Parts) → Holds p (F.model.seen files.old Records) → ⊥ }
    ensures reads { ReadsText F.model redo.now result files.old files.new }
{
    let bytes = redo.read(alloc, files, HEAD_AT, HEAD_LEN)?;
    let Some(head) = Head::read(&bytes) else {
        return Err(OpenError::NoText);
    };
    let table_pages = redo.read(alloc, files, TABLE_AT, head.table_pages_len())?;
    let record_pages = redo.read(alloc, files, head.records_at(), head.record_pages_len())?;
    let texts = redo.read(alloc, files, head.texts_at(), head.texts_len())?;
    let Some(text) = text_in(alloc, &head, &table_pages, record_pages, &texts)? else {
        return Err(OpenError::NoText);
    };
    Ok(text)
}

impl<F: FilePair + Drop> KeptText<F> {
    /// Opens the files of a text, as a crash or an end has left them, and reads the text. Their fronts say this generation of the log. The log is empty then, so that a copy of it that was made before is told
    /// from the log that goes on.
    pub fn open(
        alloc: Global,
        mut files: F,
        generation: Generation,
    ) -> Result<(KeptText<F>, Text), OpenError>
        // It is the text that was kept last, and is kept again from then on.
        ensures found { IfOk result (λ opened. F.model.is_honest opened.0.files → Finds bounds (parts_around opened.0.table opened.0.records opened.1.around) (F.model.seen files)) }
        ensures kept { IfOk result (λ opened. F.model.is_honest opened.0.files → Keeps F.model (parts_around opened.0.table opened.0.records opened.1.around) opened.0) }
        ensures table { IfOk result (λ opened. opened.1.table.items ≡ opened.0.table) }
        ensures records { IfOk result (λ opened. opened.1.records.items ≡ opened.0.records) }
        ensures goes_on { IfOk result (λ opened. opened.0.has_stopped ≡ false) }

        // A crash at any moment leaves what an earlier one might have left, or files with the same text.
        ensures any_moment { IfOk result (λ opened. F.model.is_honest opened.0.files
            → LeavesOnly F.model files opened.0.files (λ c. F.model.may_leave files c ⊎ FindsSame (F.model.seen files) c)) }
        ensures after { IfOk result (λ opened. ComesAfter F.model files opened.0.files) }

        // On an error, the files are dropped. `NoText` comes only if they are those of no text.
        ensures err { IfErr result (λ why. (last : F) × IsNotOpened F.model why files last) }
    {
        let mut redo = recover(alloc, &mut files, FORMAT.bounds)?;
        let text = read_text(alloc, &mut files, &redo)?;
        redo.restart(&mut files)?;
        Ok(KeptText::over(alloc, files, redo, generation, text))
    }
}
