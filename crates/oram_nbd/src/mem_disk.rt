//! A device in memory.

ghost use Rattle.std.specs.Prelude.{◌≡◌, ◌+◌, ◌*◌, ◌<◌, ◌≤◌, ◌^◌, [], length, IfOk, OnErr};

use crate::client_watch::ClientWatch;
use crate::disk::BlockDevice;
use crate::faults::DiskFault;
use crate::operations::Operation;
use oram_bytes::Bytes;
use std::alloc::{AllocError, Global};
use std::marker::Model;

/// A device whose bytes lie in memory.
#[derive(Debug, Drop)]
pub struct MemDisk {
    bytes: Vec<u8>,
    block_bytes: u32,
    blocks: u64,
}

impl Model for MemDisk {
    ghost use Rattle.oram_nbd.specs.MemBlocks.{MemBlocks, HasWholeBlocks};

    ghost Value = { MemBlocks };

    ghost view = { λ d. record { bytes = d.bytes.items; block_len = d.block_bytes; blocks = d.blocks } };

    ghost invariant = { λ d. HasWholeBlocks (record { bytes = d.bytes.items; block_len = d.block_bytes; blocks = d.blocks }) };
}

impl MemDisk {
    ghost use Rattle.oram_nbd.specs.Bytes.{written, zeroes};
    ghost use Rattle.oram_nbd.specs.Operations.{IsWithin, done_by, given_by};

    /// Returns a device of `blocks` blocks of zeroes, each of `block_bytes` bytes.
    pub fn new(alloc: Global, block_bytes: u32, blocks: u64) -> Result<MemDisk, AllocError>
        requires some { 0 < block_bytes }
        requires bound { block_bytes * blocks < 2 ^ 63 }
        ensures { IfOk result (λ d. d ≡ record { bytes = zeroes (block_bytes * blocks); block_len = block_bytes; blocks = blocks }) }
    {
        let size = u64::from(block_bytes) * blocks;
        let bytes = vec![in alloc; 0u8; size as usize]?;
        Ok(MemDisk {
            bytes,
            block_bytes,
            blocks,
        })
    }

    /// Replaces the bytes from `start` on.
    fn put(&mut self, start: usize, payload: &[u8])
        requires { start + length payload.now ≤ length self.old.bytes }
        ensures { self.new ≡ record self.old { bytes = written self.old.bytes start payload.now } }
    {
        self.bytes[start..start + payload.len()].copy_from_slice(payload);
    }

    /// Carries out one operation, and returns what it reads.
    fn apply(&mut self, alloc: Global, operation: &Operation) -> Result<Bytes, AllocError>
        requires { IsWithin (length self.old.bytes) operation.now }
        ensures ok { IfOk result (λ given. (given ≡ given_by operation.now self.old.bytes)
            × (self.new ≡ record self.old { bytes = done_by operation.now self.old.bytes })) }
        ensures err { OnErr result (self.new ≡ self.old) }
    {
        let at = operation.place() as usize;
        match operation {
            Operation::Read { count, .. } => {
                Bytes::copy(alloc, &self.bytes[at..at + *count as usize])
            }
            Operation::Write { payload, .. } => {
                self.put(at, payload.as_slice());
                Ok(Bytes::from_vec(Vec::new(alloc)))
            }
            Operation::Zero { count, .. } => {
                let none = vec![in alloc; 0u8; *count as usize]?;
                self.put(at, &none);
                Ok(Bytes::from_vec(Vec::new(alloc)))
            }
        }
    }
}

impl BlockDevice for MemDisk {
    ghost block_len = { λ d. d.block_len };

    ghost size = { λ d. length d.bytes };

    ghost World = { Unit {0} };

    ghost Event = { Unit {0} };

    ghost hears = { λ _ _ _ _. Unit {0} };

    // Nobody sees the accesses to memory.
    ghost asked = { λ _ _ _. Unit {0} };

    ghost had = { λ _ events _. events ≡ [] };

    ghost holds = { λ _ d _ bytes. bytes ≡ d.bytes };

    // The memory goes with its process, so no next process begins with it: what is kept is what the device holds.
    ghost kept = { λ _ d _ saved bytes. (saved ≡ d.bytes) × (bytes ≡ d.bytes) };

    ghost failed = { λ _. ⊥ };

    ghost stops = { λ _ _. ⊥ };

    fn has_failed(&self) -> bool {
        false
    }

    fn block_bytes(&self) -> u32 {
        self.block_bytes
    }

    fn blocks(&self) -> u64 {
        self.blocks
    }

    fn carry_out<H: ClientWatch>(
        &mut self,
        alloc: Global,
        operations: &[Operation],
        _watch: &mut H,
    ) -> Result<Vec<Bytes>, DiskFault> {
        let mut given = Vec::with_capacity(alloc, operations.len())?;
        for operation in operations {
            let bytes = self.apply(alloc, operation)?;
            if given.push(bytes).is_err() {
                return Err(DiskFault::OutOfMemory);
            }
        }
        Ok(given)
    }
}
