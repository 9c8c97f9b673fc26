//! Keeps one text after the other, with a note of those that may be found.
ghost use Rattle.std.specs.Prelude.{◌≡◌, ◌⊎◌, ◌∷◌, [], IfErr, IfOk, IsErrOf, OnErr, OnOk, false, true};
ghost use Rattle.oram_kept.specs.Keeper.{FindsOneOf, Knows};
ghost use Rattle.oram_kept.specs.Kept.{Finds, bounds};
ghost use Rattle.oram_kept.specs.Layout.{HaveRoom};
ghost use Rattle.oram_kept.specs.Opening.{FindsSame, IsNotOpened};
ghost use Rattle.oram_kept.specs.Pages.{AreTold, AreToldRecords, StayInPlace, parts_of};
ghost use Rattle.oram_kept.specs.Reading.{parts_around};
ghost use Rattle.oram_redo.specs.FilePair.{ComesAfter, HasFailed, LeavesOnly, Rises};

use crate::kept_text::KeptText;
use crate::opening::OpenError;
use crate::reading::Text;
use crate::text::TextParts;
use crate::text_history::TextHistory;
use oram_pair::Generation;
use oram_redo::{FilePair, RedoError};
use std::alloc::Global;
use std::marker::Model;

/// Keeps one text after the other in a pair of files.
#[derive(Drop)]
pub struct TextKeeper<F: FilePair> {
    kept: KeptText<F>,
    /// Which texts may be found from now on.
    history: TextHistory,
}

impl<F: FilePair> Model for TextKeeper<F> {
    ghost use Rattle.oram_kept.specs.Keeper.{KeeperValue};

    ghost Value = { KeeperValue F };

    ghost view = { λ k. record { kept = k.kept; texts = k.history.texts } };
}

impl<F: FilePair + Drop> TextKeeper<F> {
    /// Opens the files of a text, as [`KeptText::open`] does, and reads it.
    pub fn open(
        alloc: Global,
        files: F,
        generation: Generation,
    ) -> Result<(TextKeeper<F>, Text), OpenError>
        ensures texts { IfOk result (λ opened. opened.0.texts ≡ parts_around opened.0.kept.table opened.0.kept.records opened.1.around ∷ []) }
        ensures table { IfOk result (λ opened. opened.1.table.items ≡ opened.0.kept.table) }
        ensures records { IfOk result (λ opened. opened.1.records.items ≡ opened.0.kept.records) }
        ensures found { IfOk result (λ opened. F.model.is_honest opened.0.kept.files → Finds bounds (parts_around opened.0.kept.table opened.0.kept.records opened.1.around) (F.model.seen files)) }
        ensures knows { IfOk result (λ opened. F.model.is_honest opened.0.kept.files → Knows F.model opened.0) }

        // A crash at any moment leaves what an earlier one might have left, or files with the same text.
        ensures any_moment { IfOk result (λ opened. F.model.is_honest opened.0.kept.files
            → LeavesOnly F.model files opened.0.kept.files (λ c. F.model.may_leave files c ⊎ FindsSame (F.model.seen files) c)) }
        ensures err { IfErr result (λ why. (last : F) × IsNotOpened F.model why files last) }
    {
        let (kept, text) = KeptText::open(alloc, files, generation)?;
        let mut history = TextHistory::new();
        let around = &text.around;
        history.note(
            &[],
            &around.before,
            &text.table,
            &around.after,
            &text.records,
        );
        Ok((TextKeeper { kept, history }, text))
    }
}

impl<F: FilePair> TextKeeper<F> {
    /// Returns the number of the system's error for which a call of the files failed last, if the system gave one.
    pub fn errno(&self) -> Option<i32> {
        self.kept.errno()
    }

    /// Returns whether a call has failed, so that nothing more is kept until the files are opened again.
    pub fn has_stopped(&self) -> bool
        ensures { result ≡ self.now.kept.has_stopped }
    {
        self.kept.has_stopped()
    }

    /// Keeps a text in place of the one before, as [`KeptText::keep`] does. Once it returns `Ok`, this text alone is found. After an error this one
    /// may be found, or what might have been found before.
    pub fn keep(&mut self, text: &TextParts<'_>) -> Result<(), RedoError>
        requires table { AreTold text.now.changes self.old.kept.table text.now.table.now }
        requires records { AreToldRecords text.now.changed_records self.old.kept.records text.now.records.now }
        requires place { StayInPlace text.now.changed_records self.old.kept.table text.now.table.now }
        ensures table { OnOk result (self.new.kept.table ≡ text.now.table.now) }
        ensures table_before { OnErr result (self.new.kept.table ≡ self.old.kept.table) }
        ensures records { OnOk result (self.new.kept.records ≡ text.now.records.now) }
        ensures records_before { OnErr result (self.new.kept.records ≡ self.old.kept.records) }
        ensures texts { OnOk result (self.new.texts ≡ parts_of text.now ∷ []) }
        ensures tried { OnErr result (self.new.texts ≡ parts_of text.now ∷ self.old.texts) }
        ensures knows { Knows F.model self.old → Knows F.model self.new }

        // A crash at any moment leaves files with this text or with one of before.
        ensures any_moment { Knows F.model self.old → LeavesOnly F.model self.old.kept.files self.new.kept.files (FindsOneOf (parts_of text.now ∷ self.old.texts)) }
        ensures goes_on { OnOk result (self.new.kept.has_stopped ≡ false) }
        ensures stops { OnErr result (self.new.kept.has_stopped ≡ true) }
        ensures failed { IsErrOf result RedoError.Failed → (self.old.kept.has_stopped ≡ true) ⊎ HasFailed F.model self.old.kept.files self.new.kept.files }
        ensures no_room { IsErrOf result RedoError.NoRoom → Rises F.model.shortages self.old.kept.files self.new.kept.files }
        ensures damaged { IsErrOf result RedoError.Damaged → ⊥ }
        ensures full { IsErrOf result RedoError.LogFull → HaveRoom (parts_of text.now) → ⊥ }
        ensures after { ComesAfter F.model self.old.kept.files self.new.kept.files }
    {
        match self.kept.keep(text) {
            Ok(()) => {
                self.history.forget();
                self.history.note_text(text);
                Ok(())
            }
            Err(error) => {
                self.history.note_text(text);
                Err(error)
            }
        }
    }
}
