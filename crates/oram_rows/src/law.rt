//! What the link is to a reading of a disk.
ghost use Rattle.oram_rows.specs.Examples.{RowsExample};
ghost use Rattle.oram_rows.specs.Law.{CompletedAnswersAreWhole};

/// A law about definitions: if a host answers a request for rows by what it has, the completed answer is that of a host which has the record
/// of each node: the near record, or what was stored, or the record of the formatting.
pub fn completed_answers_are_whole()
    ensures { CompletedAnswersAreWhole }
{}

/// A device of two blocks meets the premises of [`completed_answers_are_whole`]: its host has the record of one leaf alone.
pub fn rows_example()
    ensures { RowsExample }
{}
