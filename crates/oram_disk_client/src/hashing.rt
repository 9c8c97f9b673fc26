//! Hashes the empty records of a new disk, and keeps of them what its client needs.

ghost use Rattle.std.specs.Prelude.{◌≡◌, ◌≤◌, ◌++◌, IfOk};
ghost use Rattle.oram_geometry.specs.Sizes.{depth_of};
ghost use Rattle.oram_core.specs.Core.{scheme_with};
ghost use Rattle.oram_core.specs.Formatting.{IsNew};
ghost use Rattle.oram_empty.specs.Collecting.{Collection, Collects, blank};

use crate::progress_printer::ProgressPrinter;
use oram_bucket::Sealer;
use oram_core::Core;
use oram_disk_host::Fault;
use oram_empty::FormatSink;
use oram_geometry::Device;
use oram_settings::LongWork;
use oram_wire::{HostView, Sink, SinkFault};
use std::marker::Model;
use std::rt::Clock;

/// Returns the number of records of all trees of a device.
fn records_of(device: &Device) -> u64 {
    let mut records = 0u64;
    for tree in 0..device.trees() {
        records = records.saturating_add((2u64 << device.depth(tree)) - 1);
    }
    records
}

/// Takes the messages of a formatting as [`FormatSink`] does, and prints how many of the records have been hashed.
#[derive(Drop)]
struct ReportingSink<'a, R> {
    sink: FormatSink,
    printer: ProgressPrinter<'a, R>,
    /// How many records have been hashed, out of how many.
    hashed: u64,
    of: u64,
}

impl<'a, R> Model for ReportingSink<'a, R> {
    ghost use Rattle.oram_empty.specs.Collecting.{Collection};

    ghost Value = { Collection };

    ghost view = { λ s. s.sink };
}

impl<'a, R: Clock + Eprint + AllocGlobal> ReportingSink<'a, R> {
    /// Counts a message if it has a record.
    fn count(&mut self, body: &[u8])
        ensures { self.new ≡ self.old }
    {
        if let Ok(HostView::Put { .. }) = HostView::read(body) {
            self.hashed = self.hashed.saturating_add(1);
            self.printer.report(self.hashed, self.of);
        }
    }
}

impl<'a, R: Clock + Eprint + AllocGlobal> Sink for ReportingSink<'a, R> {
    ghost use Rattle.oram_empty.specs.Collecting.{Collects};

    ghost putting = { Collects };

    ghost refusing = { λ _ _ _ _. ⊥ };

    fn put(&mut self, body: &[u8]) -> Result<(), SinkFault> {
        self.sink.put(body)?;
        self.count(body);
        Ok(())
    }
}

/// Formats a device without sending anything, and prints the progress. Returns its core, and what a client keeps of the formatting: the
/// records of the top `near` levels of tree 0, and the digests behind them.
pub(crate) fn hashed<S: Sealer>(
    rt: &HostRuntime,
    device: Device,
    sealer: S,
    near: u8,
) -> Result<(Core<S>, Vec<u8>), Fault>
    requires { near ≤ depth_of device 0 }
    ensures device { IfOk result (λ made. made.0.device ≡ device) }
    ensures sealer { IfOk result (λ made. made.0.sealer ≡ sealer) }
    ensures made { let v = scheme_with S.cipher device sealer in
        IfOk result (λ made. (s : Collection) × IsNew v Collects (blank device v.cipher.overhead near) made.0.state s × (made.1.items ≡ s.records ++ s.digests)) }
{
    let alloc = rt.alloc();
    let mut sink = ReportingSink {
        sink: FormatSink::new(alloc, &device, sealer.overhead(), near)?,
        printer: ProgressPrinter::new(rt, LongWork::Formatting),
        hashed: 0,
        of: records_of(&device),
    };
    match Core::format(alloc, device, sealer, &mut sink) {
        Ok(core) => Ok((core, sink.sink.into_bytes())),
        // The sink refuses no message.
        Err(_) => Err(Fault::OutOfMemory),
    }
}
