//! Where the bytes of a file are: in a file of the system, or in a copy of one in memory.
ghost use Rattle.std.specs.Prelude.{◌≤◌, length, IfOk};

use std::alloc::AllocError;
use std::fs::File;
use std::io::{self, ErrorKind};
use std::os::unix::fs::FileExt;

/// A file of the system, or a copy of its bytes. What is written to a copy reaches no file.
#[derive(Drop)]
pub(crate) enum FileBytes {
    File(File),
    Copy(Vec<u8>),
}

/// Reads into `bytes` from a place of a copy, and returns how many bytes there were.
fn read_copy(copy: &[u8], at: u64, bytes: &mut [u8]) -> usize
    ensures { result ≤ length bytes.new }
{
    let Ok(at) = usize::try_from(at) else {
        return 0;
    };
    let Some(rest) = copy.get(at..) else {
        return 0;
    };
    let len = rest.len().min(bytes.len());
    bytes[..len].copy_from_slice(&rest[..len]);
    len
}

/// Writes `bytes` to a place of a copy. If the copy ends before that place, zeros come between.
fn write_copy(copy: &mut Vec<u8>, at: usize, bytes: &[u8]) -> Result<(), AllocError> {
    if copy.len() < at {
        copy.resize(at, 0)?;
    }
    let inside = bytes.len().min(copy.len() - at);
    let (over, behind) = bytes.split_at(inside);
    copy[at..at + inside].copy_from_slice(over);
    copy.extend_from_slice(behind)
}

impl FileBytes {
    /// Reads into `bytes`, and returns how many bytes there were. There are none only at the end.
    pub(crate) fn read_at(&self, bytes: &mut [u8], at: u64) -> io::Result<usize>
        ensures { IfOk result (λ n. n ≤ length bytes.new) }
    {
        match self {
            FileBytes::File(file) => file.read_at(bytes, at),
            FileBytes::Copy(copy) => Ok(read_copy(copy, at, bytes)),
        }
    }

    /// Writes `bytes`, and returns how many of them were taken.
    pub(crate) fn write_at(&mut self, bytes: &[u8], at: u64) -> io::Result<usize>
        ensures { IfOk result (λ n. n ≤ length bytes.now) }
    {
        let copy = match self {
            FileBytes::File(file) => return file.write_at(bytes, at),
            FileBytes::Copy(copy) => copy,
        };
        let Ok(at) = usize::try_from(at) else {
            return Err(io::Error::from(ErrorKind::StorageFull));
        };
        match write_copy(copy, at, bytes) {
            Ok(()) => Ok(bytes.len()),
            Err(_) => Err(io::Error::from(ErrorKind::OutOfMemory)),
        }
    }

    /// Brings what was written to the disk. A copy has none.
    pub(crate) fn sync(&self) -> io::Result<()> {
        match self {
            FileBytes::File(file) => file.sync_data(),
            FileBytes::Copy(_) => Ok(()),
        }
    }

    pub(crate) fn len(&self) -> io::Result<u64> {
        match self {
            FileBytes::File(file) => Ok(file.metadata()?.len()),
            FileBytes::Copy(copy) => Ok(copy.len() as u64),
        }
    }

    /// Makes it shorter or, by zeros, longer. A copy stays as it is: behind its end reads give zeros anyway.
    pub(crate) fn set_len(&self, len: u64) -> io::Result<()> {
        match self {
            FileBytes::File(file) => file.set_len(len),
            FileBytes::Copy(_) => Ok(()),
        }
    }

    /// Writes zeros behind the end, and returns how many were taken. A copy doesn't need them.
    pub(crate) fn write_zeros(&self, zeros: &[u8], at: u64) -> io::Result<usize>
        ensures { IfOk result (λ n. n ≤ length zeros.now) }
    {
        match self {
            FileBytes::File(file) => file.write_at(zeros, at),
            FileBytes::Copy(_) => Ok(zeros.len()),
        }
    }
}
