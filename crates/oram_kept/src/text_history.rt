//! A list of texts that only contracts read.
ghost use Rattle.std.specs.Prelude.{◌≡◌, ◌∷◌, ◌++◌, [], List};
ghost use Rattle.std.specs.Borrow.{ftrue};
ghost use Rattle.oram_kept.specs.Pages.{parts_of};
ghost use Rattle.oram_kept.specs.Text.{Parts};

use crate::text::TextParts;
use std::marker::{Model, PhantomData};

/// The texts that whoever opens the files may find, the newest first. It takes no bytes at run time.
#[derive(Drop)]
pub struct TextHistory {
    marker: PhantomData<u8>,
    pub ghost texts: { List Parts },
}

impl Model for TextHistory {
    ghost also_owns = { λ _. ftrue };
}

impl TextHistory {
    pub(crate) fn new() -> TextHistory
        ensures { result.texts ≡ [] }
    {
        TextHistory {
            marker: PhantomData,
        }
    }

    /// Notes that none of these texts may be found any more.
    pub(crate) fn forget(&mut self)
        ensures { self.new.texts ≡ [] }
    {}

    /// Notes a text that may be found.
    pub(crate) fn note(
        &mut self,
        _title: &[u8],
        _before: &[u8],
        _table: &[u32],
        _after: &[u8],
        _records: &[u8],
    )
        ensures { self.new.texts ≡ (record { before = _title.now ++ _before.now; table = _table.now; after = _after.now; records = _records.now }) ∷ self.old.texts }
    {}

    /// Notes a text with these parts that may be found.
    pub(crate) fn note_text(&mut self, text: &TextParts<'_>)
        ensures { self.new.texts ≡ parts_of text.now ∷ self.old.texts }
    {
        self.note(
            text.title,
            text.before,
            text.table,
            text.after,
            text.records,
        );
    }
}
