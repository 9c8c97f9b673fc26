//! Laws about the process that is found in a pair of files.
ghost use Rattle.oram_keeper.specs.Laws.{ChangesAreTold, FoundPairBegins, FoundProcessWasNoted};

use oram_redo::FilePair;
use oram_rounds::BatchLink;

/// A law about definitions: whatever a crash leaves of the files of a [`PairKeeper`](crate::PairKeeper), one text is found in them, and it is that
/// of a process that may be read back by the keeper.
pub fn found_process_was_noted<F: FilePair>()
    ensures { FoundProcessWasNoted F.model }
{}

/// A law about definitions: a process that begins with what [`PairKeeper::open`](crate::PairKeeper::open) has found begins as
/// `oram_rounds::begun_is_safe` requires, so it is as safe as the process before. Nothing else is read back at its beginning.
pub fn found_pair_begins<B: BatchLink, F: FilePair>()
    ensures { FoundPairBegins B F }
{}

/// A law about definitions: what [`PairKeeper`](crate::PairKeeper) requires of a text is met whenever a core's process is kept. A core that
/// was just made or read says that any entry of its table may have changed, and between two keepings it notes those that do.
pub fn changes_are_told<S, F: FilePair>()
    ensures { ChangesAreTold S F }
{}
