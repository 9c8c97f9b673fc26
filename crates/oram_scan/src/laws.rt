//! Laws about what a scan finds.
ghost use Rattle.oram_scan.specs.Blocks.{FoundBlocksAreTheContents, WholeTreesGiveTheContent};
ghost use Rattle.oram_scan.specs.Laws.{HonestScansAreSound, ScanExample, SoundRecordsAreTheTrees};

/// A law about definitions: each record that a scan finds sound is the one that was stored at its node, or a record came that differs
/// from the stored one and has the same SHA-256 digest.
pub fn sound_records_are_the_trees()
    ensures { SoundRecordsAreTheTrees }
{}

/// A law about definitions: a scan that is given the stored record of each node finds each of them sound.
pub fn honest_scans_are_sound()
    ensures { HonestScansAreSound }
{}

/// An example for both laws: a tree of three records.
pub fn scan_example()
    ensures { ScanExample }
{}

/// A law about definitions: the blocks that the buckets of all nodes and the stash hold, each at its address, with zeros elsewhere, are
/// what the tree holds.
pub fn whole_trees_give_the_content()
    ensures { WholeTreesGiveTheContent }
{}

/// A law about definitions: if the buckets of some nodes weren't read, each block that was found has what the tree holds at its address.
pub fn found_blocks_are_the_contents()
    ensures { FoundBlocksAreTheContents }
{}
