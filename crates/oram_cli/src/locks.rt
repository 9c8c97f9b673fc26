//! The lock on a state, which one process at a time can hold.

ghost use Rattle.std.specs.Prelude.{◌≡◌, ◌++◌, codes, string_bytes, IfOk};
ghost use Rattle.oram_cli.specs.declared.locks.LockFault.TheVariants as lock;

use crate::file_faults::{FileFault, call_fault};
use crate::files::OWNERS_ALONE;
use std::alloc::Global;
use std::fs::{File, OpenOptions, TryLockError};
use std::io::ErrorKind;
use std::os::unix::fs::OpenOptionsExt;
use std::time::Duration;
use std::{io, thread};
use thiserror::Error;

/// How often a lock is tried that another process holds, and the pause between two tries, in milliseconds. A process that only looks
/// whether the lock is held holds it for a moment itself.
const TRIES: u32 = 5;

const PAUSE: u64 = 20;

/// Why a process can't lock a state.
#[derive(Debug, PartialEq, Eq, Drop, Error)]
pub enum LockFault {
    /// Another process holds the lock.
    #[error("in use by another process")]
    InUse,
    /// The lock file beside the state can't be created or locked.
    #[error("{0}")]
    File(FileFault),
}

impl From<FileFault> for LockFault {
    ghost from_gives = { λ why fault. fault ≡ lock.File why };

    fn from(why: FileFault) -> LockFault {
        LockFault::File(why)
    }
}

/// A lock on a state. Another process can take it once this is dropped, or once this process has
/// ended.
#[derive(Drop)]
pub struct StateLock {
    _file: File,
}

/// Returns the name of the lock file of a state.
fn lock_name(alloc: Global, state: &str) -> Result<String, FileFault>
    ensures { IfOk result (λ name. string_bytes name ≡ state.now ++ codes ".lock") }
{
    let mut name = String::from_str(alloc, state)?;
    name.push_str(".lock")?;
    Ok(name)
}

/// Opens the lock file, and creates it if it is missing. The file stays there, empty, after the
/// lock is released.
fn open_lock(rt: &HostRuntime, name: &str) -> io::Result<File> {
    let mut options = OpenOptions::new();
    options.write(true).create(true).mode(OWNERS_ALONE);
    options.open(rt, name)
}

/// Tries to lock a file as its only holder.
fn try_lock(rt: &HostRuntime, file: &File) -> Result<(), TryLockError> {
    for _ in 1..TRIES {
        match file.try_lock() {
            Err(TryLockError::WouldBlock) => thread::sleep(rt, Duration::from_millis(PAUSE)),
            tried => return tried,
        }
    }
    file.try_lock()
}

/// Returns whether another process holds the lock of the state in the file `state`. The lock file isn't made if it is missing.
pub fn is_locked(rt: &HostRuntime, state: &str) -> Result<bool, FileFault> {
    let alloc = rt.alloc();
    let name = lock_name(alloc, state)?;
    let file = match File::open(rt, name.as_str()) {
        Ok(file) => file,
        Err(error) if error.kind() == ErrorKind::NotFound => return Ok(false),
        Err(error) => return Err(call_fault(alloc, name.as_str(), &error)),
    };
    match file.try_lock_shared() {
        Ok(()) => Ok(false),
        Err(TryLockError::WouldBlock) => Ok(true),
        Err(TryLockError::Error(error)) => Err(call_fault(alloc, name.as_str(), &error)),
    }
}

/// Takes the lock of the state in the file `state`, which need not exist. Fails if another process holds it for longer
/// than a moment.
pub fn lock_state(rt: &HostRuntime, state: &str) -> Result<StateLock, LockFault> {
    let alloc = rt.alloc();
    let name = lock_name(alloc, state)?;
    let file = match open_lock(rt, name.as_str()) {
        Ok(file) => file,
        Err(error) => return Err(call_fault(alloc, name.as_str(), &error).into()),
    };
    match try_lock(rt, &file) {
        Ok(()) => Ok(StateLock { _file: file }),
        Err(TryLockError::WouldBlock) => Err(LockFault::InUse),
        Err(TryLockError::Error(error)) => Err(call_fault(alloc, name.as_str(), &error).into()),
    }
}
