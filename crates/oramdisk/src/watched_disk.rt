//! A disk that keeps its failure before it reports it.

ghost use Rattle.std.specs.Prelude.{◌≡◌, ◌↔◌, IsTrue};

use oram_bytes::Bytes;
use oram_nbd::{BlockDevice, ClientWatch, DiskFault, Operation};
use std::alloc::Global;

/// Records that a disk has failed.
pub(crate) trait FailureKeeper<D> {
    /// The keeper was told that the disk has failed.
    ghost told: { Self → Type 0 };

    /// Returns whether the keeper was told that the disk has failed.
    fn is_told(&self) -> bool
        ensures { IsTrue result ↔ told self.now };

    /// Records why the disk failed. Is called once, by whoever finds out that it has.
    fn keep_failure(&mut self, disk: &D)
        ensures { told self.new };
}

/// A disk that hands its failure to a keeper before it reports it to anybody: it counts as failed once the keeper was told.
#[derive(Drop)]
pub(crate) struct WatchedDisk<D: BlockDevice, F: FailureKeeper<D>> {
    pub(crate) disk: D,
    pub(crate) keeper: F,
}

impl<D: BlockDevice, F: FailureKeeper<D>> WatchedDisk<D, F> {
    /// Hands a failure to the keeper, if it hasn't done so yet.
    pub(crate) fn watch(&mut self)
        ensures same { self.new.disk ≡ self.old.disk }
        ensures told { D.failed self.old.disk → F.told self.new.keeper }
        ensures still_told { F.told self.old.keeper → F.told self.new.keeper }
    {
        if !self.keeper.is_told() && self.disk.has_failed() {
            self.keeper.keep_failure(&self.disk);
        }
    }
}

impl<D: BlockDevice, F: FailureKeeper<D>> BlockDevice for WatchedDisk<D, F> {
    ghost use Rattle.oram_nbd.specs.Beside.{HadWithin};

    ghost block_len = { λ d. D.block_len d.disk };

    ghost size = { λ d. D.size d.disk };

    ghost World = { D.World };

    ghost Event = { D.Event };

    ghost hears = { D.hears };

    ghost asked = { λ d blocks e. D.asked d.disk blocks e.disk };

    ghost had = { λ d events e. HadWithin D.had d.disk events e.disk };

    ghost holds = { λ may_lie d world bytes. D.holds may_lie d.disk world bytes };

    ghost kept = { λ may_lie d world saved bytes. D.kept may_lie d.disk world saved bytes };

    ghost failed = { λ d. D.failed d.disk × F.told d.keeper };

    ghost stops = { λ d e. D.stops d.disk e.disk };

    fn has_failed(&self) -> bool {
        self.keeper.is_told() && self.disk.has_failed()
    }

    fn block_bytes(&self) -> u32 {
        self.disk.block_bytes()
    }

    fn blocks(&self) -> u64 {
        self.disk.blocks()
    }

    fn carry_out<H: ClientWatch>(
        &mut self,
        alloc: Global,
        operations: &[Operation],
        watch: &mut H,
    ) -> Result<Vec<Bytes>, DiskFault> {
        let done = self.disk.carry_out(alloc, operations, watch);
        self.watch();
        done
    }
}
