//! Laws about what a volume holds, and about what outlasts it.
ghost use Rattle.oram_volume.specs.Examples.{NextProcessExample};
ghost use Rattle.oram_volume.specs.HeldArrays.{HeldDevicesHold};
ghost use Rattle.oram_volume.specs.NextProcess.{BegunDevicesHold, KeptBytesOutlast};

use oram_rounds::{BatchLink, Keeper};

/// A law about definitions: a process begins with the core of a device that a host keeps between two requests, as a formatting
/// leaves both (`new_devices_hold_zeros_beside` in `oram_link_laws`), and no STOREs wait. Then it holds the bytes of the
/// device's array beside this host. So what the calls of a [`Volume`](crate::Volume) promise of held bytes isn't vacuous.
pub fn held_devices_hold<B, K>()
    ensures { HeldDevicesHold B K }
{}

/// A law about definitions: a process begins with a file that was read back where another one had ended, as `acts_are_safe` and
/// `ends_are_safe` in `oram_rounds` describe it. Then it holds the bytes of one of two arrays beside the host: those from
/// before the last commands, or those after them.
pub fn begun_devices_hold<B, K>()
    ensures { BegunDevicesHold B K }
{}

/// A law about definitions: what a [`Volume`](crate::Volume) keeps outlasts its process. Once a call returns `Ok` it has kept
/// the bytes that it holds, and after an `Err` those or others (`goes` in [`BlockDevice`](oram_nbd::BlockDevice)). From then
/// on, wherever the process ends and whatever is read back, the next process holds the kept bytes: the ones or the others.
pub fn kept_bytes_outlast<B: BatchLink, K: Keeper>()
    ensures { KeptBytesOutlast B.batches K.reads_back }
{}

/// A process that begins with a device of one block as it was formatted, over a server in memory, meets the premises of
/// [`kept_bytes_outlast`], and what is read back where it ends meets those of [`begun_devices_hold`].
pub fn next_process_example()
    ensures { NextProcessExample }
{}
