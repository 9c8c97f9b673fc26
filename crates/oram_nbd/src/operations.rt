//! Operations on the bytes of a device.

ghost use Rattle.std.specs.Prelude.{◌≡◌};
ghost use Rattle.oram_nbd.specs.Operations.{len_of, place_of};

use oram_bytes::Bytes;

/// One operation on the bytes of a device. Places and counts are numbers of bytes.
#[derive(Debug, Drop, PartialEq, Eq)]
pub enum Operation {
    /// Reads `count` bytes, from the byte `at` on.
    Read { at: u64, count: u64 },
    /// Replaces as many bytes as the payload has, from the byte `at` on.
    Write { at: u64, payload: Bytes },
    /// Makes `count` bytes zeroes, from the byte `at` on.
    Zero { at: u64, count: u64 },
}

impl Operation {
    /// Returns where the range of the operation begins.
    pub fn place(&self) -> u64
        ensures { result ≡ place_of self.now }
    {
        match self {
            Operation::Read { at, .. } | Operation::Write { at, .. } | Operation::Zero { at, .. } =>
                *at,
        }
    }

    /// Returns the number of bytes of its range.
    pub fn len(&self) -> u64
        ensures { result ≡ len_of self.now }
    {
        match self {
            Operation::Read { count, .. } | Operation::Zero { count, .. } => *count,
            Operation::Write { payload, .. } => payload.len() as u64,
        }
    }
}
