//! Records why a disk failed, in a file beside its state. The state itself stays as it was kept, so that the disk can
//! be tried again.

ghost use Rattle.std.specs.Prelude.{◌≡◌, ◌⊎◌, IfErr, IfOk, MatchOption, string_bytes};
ghost use Rattle.oram_client.specs.NamedFiles.{IsFailedCall};
ghost use Rattle.oram_disk_client.specs.Serving.{failure_of};

use oram_cli::{AtomicFile, FileFault, file_fault};
use oram_client::{NamedFiles, read_if_there};
use oram_core::Reason;
use oram_disk_host::time;
use oram_settings::failure_text;
use std::alloc::{AllocError, Global};
use std::fs;
use std::io::ErrorKind;
use std::rt::{Clock, Files};

/// Returns the name of the file that says why the disk of a state failed.
fn failure_name(alloc: Global, state: &str) -> Result<String, AllocError>
    ensures { IfOk result (λ name. string_bytes name ≡ failure_of state.now) }
{
    let mut name = String::from_str(alloc, state)?;
    name.push_str(".failed")?;
    Ok(name)
}

/// Saves why and when the disk of a state failed.
pub fn keep_failure<R: Files + Clock + AllocGlobal>(
    rt: &R,
    state: &str,
    reason: Reason,
) -> Result<(), FileFault> {
    let alloc = rt.alloc();
    let why = failure_text(alloc, Some(reason))?;
    let when = time(rt)?;
    let text = format!(in alloc; "{why}, at {when}\n")?;
    AtomicFile::new(alloc, failure_name(alloc, state)?)?.save_bytes(rt, text.as_bytes())
}

/// Returns the line that says why and when the disk of a state failed; `None` if it hasn't. Only if the system says that there is
/// no such file, the disk hasn't failed: a file that can't be read is no missing one.
pub fn kept_failure<N: NamedFiles>(
    alloc: Global,
    files: &N,
    state: &str,
) -> Result<Option<Vec<u8>>, FileFault>
    ensures ok { IfOk result (λ line. MatchOption line (N.unread files.now (failure_of state.now) ErrorKind.NotFound) (λ bytes. N.gives files.now (failure_of state.now) bytes.items)) }
    ensures err { IfErr result (λ why. IsFailedCall (N.unread files.now) (failure_of state.now) why ⊎ (why ≡ FileFault.OutOfMemory)) }
{
    let name = failure_name(alloc, state)?;
    read_if_there(alloc, files, name.as_str())
}

/// Removes what is kept of a failure. Returns whether there was any.
pub(crate) fn forget_failure<R: Files + AllocGlobal>(
    rt: &R,
    state: &str,
) -> Result<bool, FileFault> {
    let name = failure_name(rt.alloc(), state)?;
    match fs::remove_file(rt, name.as_str()) {
        Ok(()) => Ok(true),
        Err(error) if error.kind() == ErrorKind::NotFound => Ok(false),
        Err(error) => Err(file_fault(name, &error)),
    }
}
