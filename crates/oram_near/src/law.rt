//! What the link is to the link above it.
ghost use Rattle.oram_near.specs.EmptyRecords.{made_with, of_maker};
ghost use Rattle.oram_near.specs.Examples.{NearExample, ResumedExample, TwoLevelsExample};
ghost use Rattle.oram_near.specs.FormattedRecords.{CollectedBytesAreOfFormatting, CollectedExample};
ghost use Rattle.oram_near.specs.Law.{CompletesPaths, ResumesPaths};
ghost use Rattle.oram_near.specs.StreamExample.{StreamExample};

use crate::empty_records::EmptyRecords;
use oram_rounds::BatchLink;

/// A law about definitions: a host of whole paths completes the host of levels below a link, and the host of levels goes through the
/// exchanges of the link below. Then the host of whole paths goes through the exchanges of the batch, honestly if the other did, and
/// completes the host of levels afterwards. Use it to apply the laws about links to hosts of whole paths.
pub fn completes_paths<B: BatchLink, E: EmptyRecords>()
    ensures { CompletesPaths B.batches (made_with E.record_at) (of_maker E.device) (of_maker E.record_len) }
{}

/// A law about definitions: a process kept its near records, and STOREs among which are all that were unsure. Since then the host of levels
/// has received some of these STOREs, and FETCHes. Then a host of whole paths that has received the kept STOREs completes it for the link
/// of the next process, which [`NearLink::with_unsure`](crate::NearLink::with_unsure) makes.
pub fn resumes_paths<B: BatchLink, E: EmptyRecords>()
    ensures { ResumesPaths B (made_with E.record_at) (of_maker E.device) (of_maker E.record_len) }
{}

/// A device of one block over a host that has no record meets the premises of [`completes_paths`]: a FETCH is answered with the record
/// that the formatting makes, and with ones once a STORE of ones has gone to the host.
pub fn near_example()
    ensures { NearExample }
{}

/// A device of two blocks meets the premises of [`completes_paths`], where the client keeps the root's record: a STORE of one leaf's path
/// changes that record, and a FETCH of the other leaf's is answered with it, and with the leaf's record that the formatting makes.
pub fn two_levels_example()
    ensures { TwoLevelsExample }
{}

/// A FETCH and a STORE whose answers are taken one by one, over a device of one block whose host has no record: the FETCH is answered with what the
/// STORE has. That batch meets the premises of [`completes_paths`] if it breaks off before the STORE's answer, and else it ends as any other.
pub fn stream_example()
    ensures { StreamExample }
{}

/// A process that ended after it had sent a STORE meets the premises of [`resumes_paths`].
pub fn resumed_example()
    ensures { ResumedExample }
{}

/// A law about definitions: the bytes that a [`FormatSink`](oram_empty::FormatSink) has collected of a formatting are near records of the
/// formatting, and a rest with which [`FormattedRecords`](crate::FormattedRecords) makes the records of the formatting.
pub fn collected_bytes_are_of_formatting()
    ensures { CollectedBytesAreOfFormatting }
{}

/// What was collected of some formatting meets the premises of [`collected_bytes_are_of_formatting`].
pub fn collected_example()
    ensures { CollectedExample }
{}
