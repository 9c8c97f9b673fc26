//! Laws about the records of a formatting.
ghost use Rattle.oram_empty.specs.Laws.{EmptyPathsAreTheTrees, FormatsPutEmptyRecords, FormattingExample, LowerLevelsAreTheTrees, MadeExample, MadeRecordsAreEmpty, MadeRecordsAreOfNodes, CollectionsHaveTheFormatting};

/// A law about definitions: the record that a formatting puts at each node is the empty record of that node.
pub fn formats_put_empty_records()
    ensures { FormatsPutEmptyRecords }
{}

/// A law about definitions: the empty records of a leaf's path are the path's records in the tree that a formatting makes.
pub fn empty_paths_are_the_trees()
    ensures { EmptyPathsAreTheTrees }
{}

/// A law about definitions: from any level on, the empty records of a leaf's path are those of the path's nodes in that tree.
pub fn lower_levels_are_the_trees()
    ensures { LowerLevelsAreTheTrees }
{}

/// A law about definitions: what was collected of all messages of a formatting has its digests, and the records of the near nodes.
pub fn collections_have_the_formatting()
    ensures { CollectionsHaveTheFormatting }
{}

/// An example for these laws: the formatting of a device with two trees.
pub fn formatting_example()
    ensures { FormattingExample }
{}

/// A law about definitions: whatever the digests are, a client makes one record for each node, and all these records have the same length.
pub fn made_records_are_of_nodes()
    ensures { MadeRecordsAreOfNodes }
{}

/// A law about definitions: with the digests of the formatting, the records that a client makes are those of the formatting.
pub fn made_records_are_empty()
    ensures { MadeRecordsAreEmpty }
{}

/// The digests of a formatting meet the premises of [`made_records_are_of_nodes`] and of [`made_records_are_empty`].
pub fn made_example()
    ensures { MadeExample }
{}
