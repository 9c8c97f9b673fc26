//! Laws about texts of summaries and their sealing.
ghost use Rattle.oram_summary.specs.Laws.{FormattingsShareNoStream, OpenedTextsHaveTheirTag, OtherKeysAreRefused, RightTagsOpen, SealedTextsOpen, SealingExample, SummariesShareNoStream, SummaryExample, TextsTellOfOneSummary};

/// A law about definitions: no text is that of two summaries.
pub fn texts_tell_of_one_summary()
    ensures { TextsTellOfOneSummary }
{}

/// A law about definitions: what was sealed opens to its text, and to no other one.
pub fn sealed_texts_open()
    ensures { SealedTextsOpen }
{}

/// A law about definitions: what opens has the tag of what it opens to.
pub fn opened_texts_have_their_tag()
    ensures { OpenedTextsHaveTheirTag }
{}

/// A law about definitions: bytes with a salt and a tag are a sealing exactly if the tag is that of the text that their stream shows.
pub fn right_tags_open()
    ensures { RightTagsOpen }
{}

/// A law about definitions: what was sealed under one key doesn't open under another one, or two texts with one SHA-256 digest are known.
pub fn other_keys_are_refused()
    ensures { OtherKeysAreRefused }
{}

/// A law about definitions: under one key and salt, two texts that differ are hidden under different keys of the stream, or two texts with
/// one SHA-256 digest are known.
pub fn summaries_share_no_stream()
    ensures { SummariesShareNoStream }
{}

/// A law about definitions: so are any two texts under different salts.
pub fn formattings_share_no_stream()
    ensures { FormattingsShareNoStream }
{}

/// An example for the laws about sealing: keys, salts and texts.
pub fn sealing_example()
    ensures { SealingExample }
{}

/// An example of a summary.
pub fn summary_example()
    ensures { SummaryExample }
{}
