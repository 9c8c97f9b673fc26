//! A device of whole blocks.

ghost use Rattle.std.specs.Prelude.{◌≡◌, ℕ, Bool, false, List, ◌*◌, ◌<◌, ◌^◌, ◌↔◌, All, length, map, IfOk, OnOk, IsErrOf, IsTrue, MatchResult};
ghost use Rattle.oram_nbd.specs.Accesses.{blocks_of};
ghost use Rattle.oram_nbd.specs.Beside.{GoesOn, HasArrays};
ghost use Rattle.oram_nbd.specs.Calls.{FailsByLies, IsCall, Saves};
ghost use Rattle.oram_nbd.specs.Operations.{AreBegun, IsWhole, IsWithin, TouchSomeByte, all_done, all_given, read_len};

use crate::client_watch::ClientWatch;
use crate::faults::DiskFault;
use crate::operations::Operation;
use oram_bytes::Bytes;
use std::alloc::Global;

/// A device of whole blocks, all of one length. Together with the world beside it, such as a host, it holds the array of its
/// blocks' bytes.
///
/// A call takes a list of operations, so a device may carry out many of them at once. After [`DiskFault::Stopped`] a
/// connection makes no more calls of it.
pub trait BlockDevice {
    /// The number of bytes of a block.
    ghost block_len: { Self → ℕ };

    /// The number of bytes of the device.
    ghost size: { Self → ℕ };

    /// The states of the world beside the device, such as a host.
    ghost World: { Type 0 };

    /// What passes between the device and the world.
    ghost Event: { Type 0 };

    /// A call of the device from one state to another has made accesses to these blocks, by their numbers, in this order. It
    /// has made no others.
    ghost asked: { Self → List ℕ → Self → Type 0 };

    /// An event leads the world from one state to another. The `Bool` says whether the world may lie.
    ghost hears: { Bool → World → Event → World → Type 0 };

    /// A call of the device from one state to another may have had these events.
    ghost had: { Self → List Event → Self → Type 0 };

    /// The device holds these bytes, block after block, beside this world. The `Bool` says whether the world may lie.
    ghost holds: { Bool → Self → World → List ℕ → Type 0 };

    /// Beside this world, the device holds the second array. The next process would hold it too, or the first one: it would
    /// begin with what outlasts this process.
    ghost kept: { Bool → Self → World → List ℕ → List ℕ → Type 0 };

    /// The device has failed for good: it acknowledges nothing more.
    ghost failed: { Self → Type 0 };

    /// A call that began at the first state and ended at the second has met what stops the device.
    ghost stops: { Self → Self → Type 0 };

    /// Returns whether the device has failed. Beside a world that doesn't lie, a device that holds an array hasn't.
    fn has_failed(&self) -> bool
        ensures value { IsTrue result ↔ failed self.now }
        ensures sound { (world : World) (bytes : List ℕ) → holds false self.now world bytes → failed self.now → ⊥ };

    fn block_bytes(&self) -> u32
        ensures value { result ≡ block_len self.now }
        ensures some { 0 < result };

    fn blocks(&self) -> u64
        ensures whole { block_len self.now * result ≡ size self.now }
        ensures bound { size self.now < 2 ^ 63 }
        ensures held { (may_lie : Bool) (world : World) (bytes : List ℕ) → holds may_lie self.now world bytes → length bytes ≡ size self.now };

    /// Carries out operations on whole blocks, one after the other, and returns what each of them read: nothing for one
    /// that reads nothing. After an `Err` the first ones are done, one may be done in part, and the others aren't begun.
    ///
    /// An `Ok` says that what was done is kept: the next process would hold it too. A list that touches no byte asks for
    /// nothing; then what was kept before still is. After an `Err` the next process would hold what it would have held before,
    /// or what some beginning of the operations leaves, perhaps not the one that the device itself holds.
    ///
    /// A device that carries out operations in rounds asks the watch between them whether it shall go on, and else returns
    /// [`DiskFault::Interrupted`].
    fn carry_out<H: ClientWatch>(
        &mut self,
        alloc: Global,
        operations: &[Operation],
        watch: &mut H,
    ) -> Result<Vec<Bytes>, DiskFault>
        requires whole { All (IsWhole (block_len self.old)) operations.now }
        requires within { All (IsWithin (size self.old)) operations.now }
        ensures len { IfOk result (λ given. map length given.items ≡ map read_len operations.now) }
        ensures goes { GoesOn had hears (HasArrays holds kept) self.old (λ may_lie old new. MatchResult result
            (λ given. (given.items ≡ all_given operations.now old.held) × (new.held ≡ all_done operations.now old.held))
            (λ _. AreBegun operations.now old.held new.held) × FailsByLies result may_lie
            × Saves result (TouchSomeByte operations.now) (AreBegun operations.now) old new) self.new }
        // An access to each block of each operation, in order. Which accesses these are doesn't depend on what the operations
        // are, nor on any byte.
        ensures asks { OnOk result (asked self.old (blocks_of (block_len self.old) operations.now) self.new) }
        ensures refused { OnOk result (failed self.old → ⊥) }
        // A device that has failed says so, whatever else it lacks.
        ensures told { failed self.old → IsErrOf result DiskFault.Failed }
        ensures call { IsCall block_len size failed (stops self.old self.new) self.old result self.new };
}
