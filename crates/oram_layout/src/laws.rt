//! Laws of the layout, as contracts of functions that do nothing.
ghost use Rattle.oram_layout.specs.Laws.{AllPatchesFit, IsFileAtFirst, LevelsArePut, LooseKeepsRecords, MarkPutsRecord, MarkSharesBlock, MarksKeepFile, OffStaysOff, RecordIsPut, SameRecords, TreeIsAdded, TreesAreOne, UnmarkedIsOff};

/// A content that agrees with a bucket file's everywhere is a bucket file with the same records.
pub fn same_content()
    ensures { SameRecords }
{}

/// A header has only one list of trees.
pub fn one_list_of_trees()
    ensures { TreesAreOne }
{}

/// A front and then zeros are a bucket file without trees.
pub fn an_empty_file()
    ensures { IsFileAtFirst }
{}

/// A record's patch writes that record, and no other.
pub fn a_record_is_put()
    ensures { RecordIsPut }
{}

/// The patches of some levels of a path write their records, and no others.
pub fn levels_are_put()
    ensures { LevelsArePut }
{}

/// Patches that write outside of the records change no record, whatever a crash leaves of them.
pub fn loose_patches()
    ensures kept { LooseKeepsRecords }
    ensures off { UnmarkedIsOff }
    ensures more { OffStaysOff }
{}

/// Setting the marks puts the records that were written without them.
pub fn marked_records()
    ensures put { MarkPutsRecord }
    ensures file { MarksKeepFile }
{}

/// A tree's patch adds that tree, without records.
pub fn a_tree_is_added()
    ensures { TreeIsAdded }
{}

/// A cell's mark and the first byte of its record lie in one block of the disk.
pub fn a_mark_shares_a_block()
    ensures { MarkSharesBlock }
{}

/// Each patch that changes a bucket file fits in a redo log whose records end at `CELLS_END`.
pub fn patches_fit()
    ensures { AllPatchesFit }
{}
