//! Laws about what a reading finds.
ghost use Rattle.oram_export.specs.Examples.{ExportExample, FoundBlocksExample};
ghost use Rattle.oram_export.specs.Laws.{ReadingsAreRight};

use oram_rounds::BatchLink;

/// A law about definitions: each record that a reading finds sound is the one that was stored, or it differs from that and has the same
/// SHA-256 digest. If the host gives the stored record of each node, all are found sound.
pub fn readings_are_right<B: BatchLink>()
    ensures { ReadingsAreRight B.batches }
{}

/// An example for what `export_disk` promises: a device of two blocks. One block is in the bucket, the other one in the stash.
pub fn export_example()
    ensures { ExportExample }
{}

/// The same device as an example for `whole_trees_give_the_content` and `found_blocks_are_the_contents` of `oram_scan`.
pub fn found_blocks_example()
    ensures { FoundBlocksExample }
{}
