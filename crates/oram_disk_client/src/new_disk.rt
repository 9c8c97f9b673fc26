//! Makes a new folder with the first settings of a disk.

ghost use Rattle.std.specs.Fs.{asks_create_new, asks_write};
ghost use Rattle.std.specs.Prelude.{◌≡◌, ◌≤◌, ◌<◌, ◌+◌, ◌*◌, ℕ, true, IfSome};
ghost use Rattle.oram_settings.specs.Footprint.{overhead_of};
ghost use Rattle.oram_settings.specs.NearRecords.{IsNearLevels, near_len};
ghost use Rattle.oram_settings.specs.Settings.{IsDeviceOf, default_near, default_table};
ghost use Rattle.oram_settings.specs.Sizes.{IsSize};

use oram_cli::{FileFault, call_fault, file_fault, folder_of, sync_folder};
use oram_disk_host::{FIRST_SETTINGS, Fault, FaultKind};
use oram_geometry::Device;
use oram_settings::{
    DEFAULT_BLOCK, DEFAULT_LEAF_LOAD, DEFAULT_SLOTS, Sealing, default_near, default_table,
    device_of, disk_text, made_text, near_len, near_levels, overhead_of, read_size, size_mistake,
    stored_bytes,
};
use std::alloc::AllocError;
use std::fs::{DirBuilder, OpenFile, OpenOptions};
use std::io::{ErrorKind, Write};
use std::os::unix::fs::{DirBuilderExt, OpenOptionsExt};
use std::random::RandomSource;
use std::rt::Files;
use std::{fs, io};

/// Creates a folder for its owner alone.
fn create_folder<R: Files>(rt: &R, folder: &str) -> io::Result<()> {
    let mut builder = DirBuilder::new();
    builder.mode(0o700);
    builder.create(rt, folder)
}

/// Returns how a new file is opened: for its owner alone, and only if there is nothing of its name.
fn new_file_options() -> OpenOptions
    ensures write { asks_write result ≡ true }
    ensures new { asks_create_new result ≡ true }
{
    let mut options = OpenOptions::new();
    options.mode(0o600);
    options.write(true);
    options.create_new(true);
    options
}

/// Writes a text to a new file.
fn write_new<R: Files>(rt: &R, name: &str, text: &str) -> io::Result<()> {
    let mut file = new_file_options().open(rt, name)?;
    file.write_all(text.as_bytes())?;
    file.sync_all()
}

/// Removes a folder and the settings in it, as far as they are there.
fn remove_folder<R: Files>(rt: &R, folder: &str, host: &str, disk: &str) {
    let _may_not_be_there = fs::remove_file(rt, host);
    let _may_not_be_there = fs::remove_file(rt, disk);
    let _passed_over = fs::remove_dir(rt, folder);
}

/// Writes a new settings file.
fn write_settings<R: Files + AllocGlobal>(rt: &R, name: &str, text: &str) -> Result<(), FileFault> {
    match write_new(rt, name, text) {
        Ok(()) => Ok(()),
        Err(error) => Err(call_fault(rt.alloc(), name, &error)),
    }
}

/// Syncs a new folder and the one that it lies in, so that a loss of power removes no name from either.
fn sync_folders<R: Files + AllocGlobal>(rt: &R, folder: &str) -> Result<(), FileFault> {
    for place in [folder, folder_of(folder)] {
        if let Err(error) = sync_folder(rt, place) {
            return Err(call_fault(rt.alloc(), place, &error));
        }
    }
    Ok(())
}

/// Writes the settings of a new folder: those of its host to the file `host`, and `text` to the file `disk`. The key of the
/// disk is in `text` alone, so all of it is synced before anything is encrypted under that key.
fn fill_folder<R: Files + AllocGlobal>(
    rt: &R,
    folder: &str,
    host: &str,
    disk: &str,
    text: &str,
) -> Result<(), FileFault> {
    write_settings(rt, host, FIRST_SETTINGS)?;
    write_settings(rt, disk, text)?;
    sync_folders(rt, folder)
}

/// Rounds the size of a new disk up to whole blocks. Returns `None` if that is 2^64 bytes or more.
fn whole_size(size: u64) -> Option<u64>
    ensures whole { IfSome result (λ whole. (blocks : ℕ) × (whole ≡ blocks * DEFAULT_BLOCK)) }
    ensures least { IfSome result (λ whole. (size ≤ whole) × (whole < size + DEFAULT_BLOCK)) }
{
    let most = size.checked_add(DEFAULT_BLOCK - 1)?;
    Some(most / DEFAULT_BLOCK * DEFAULT_BLOCK)
}

/// A new disk: its size in bytes, the bytes that it takes at its host, those of its near records, and the text of its settings.
#[derive(Drop)]
struct FirstDisk {
    size: u64,
    stored: u64,
    near: u64,
    text: String,
}

/// Returns the size of a new disk and its device: the size that `word` says, rounded up to whole blocks. Returns `None` if it
/// isn't a size, is less than one block, which is taken for a mistake, or is the size of no device.
fn sized(word: &str) -> Option<(u64, Device)>
    ensures least { IfSome result (λ x. DEFAULT_BLOCK ≤ x.0) }
    ensures whole { IfSome result (λ x. (blocks : ℕ) × (x.0 ≡ blocks * DEFAULT_BLOCK)) }
    ensures said { IfSome result (λ x. (size : ℕ) × IsSize word.now size × (size ≤ x.0) × (x.0 < size + DEFAULT_BLOCK)) }
    ensures device { IfSome result (λ x. IsDeviceOf x.0 DEFAULT_BLOCK DEFAULT_SLOTS DEFAULT_LEAF_LOAD (default_table x.0 DEFAULT_BLOCK) x.1) }
{
    let size = read_size(word)?;
    if size < DEFAULT_BLOCK {
        return None;
    }
    let whole = whole_size(size)?;
    let device = device_of(
        whole,
        DEFAULT_BLOCK,
        DEFAULT_SLOTS,
        DEFAULT_LEAF_LOAD,
        default_table(whole, DEFAULT_BLOCK),
    )?;
    Some((whole, device))
}

/// Returns how many bytes the near records of a new disk of this size have.
fn first_near_len(device: &Device, size: u64) -> u64
    ensures { (levels : ℕ) × IsNearLevels device.now (overhead_of Sealing.ChaCha) (default_near size) levels
        × (result ≡ near_len device.now (overhead_of Sealing.ChaCha) levels) }
{
    let overhead = overhead_of(Sealing::ChaCha);
    let levels = near_levels(device, overhead, default_near(size));
    near_len(device, overhead, levels)
}

/// Makes a new disk with a random key. It has the size that `word` says, rounded up to whole blocks. Fails with
/// [`FaultKind::CommandLine`] if no disk is made with that size, and with [`Fault::Random`] if the system gives no random bytes.
fn first_disk<R: RandomSource + AllocGlobal>(rt: &R, word: &str) -> Result<FirstDisk, Fault> {
    let Some((size, device)) = sized(word) else {
        let mistake = size_mistake(rt.alloc(), word)?;
        return Err(Fault::About(FaultKind::CommandLine, mistake));
    };
    let mut key = [0; 32];
    if rt.fill_bytes(&mut key).is_err() {
        return Err(Fault::Random);
    }
    Ok(FirstDisk {
        size,
        stored: stored_bytes(&device, Sealing::ChaCha),
        near: first_near_len(&device, size),
        text: disk_text(rt.alloc(), size, &key)?,
    })
}

/// Returns the name of a folder without the slashes at its end, which would stand twice in the names of its files.
fn without_slash(folder: &str) -> &str {
    match folder.trim_end_matches('/') {
        "" => folder,
        name => name,
    }
}

/// Prints what was made, and what comes next.
fn print_made<R: Eprint + AllocGlobal>(
    rt: &R,
    folder: &str,
    disk: &FirstDisk,
) -> Result<(), AllocError> {
    let text = made_text(rt.alloc(), folder, disk.size, disk.stored, disk.near)?;
    let _passed_over = rt.eprint(text.as_str());
    Ok(())
}

/// Makes a folder with `host.toml` and `disk.toml` in it, for a disk of this size. Fails if the folder exists, and
/// leaves it as it is. If the folder can't be filled, it is removed again.
pub fn make_folder<R: Files + RandomSource + Eprint + AllocGlobal>(
    rt: &R,
    folder: String,
    size: &str,
) -> Result<(), Fault> {
    let alloc = rt.alloc();
    let folder = String::from_str(alloc, without_slash(folder.as_str()))?;
    let host = format!(in alloc; "{folder}/host.toml")?;
    let disk = format!(in alloc; "{folder}/disk.toml")?;
    let first = first_disk(rt, size)?;
    if let Err(error) = create_folder(rt, folder.as_str()) {
        return Err(if error.kind() == ErrorKind::AlreadyExists {
            Fault::About(FaultKind::Exists, folder)
        } else {
            file_fault(folder, &error).into()
        });
    }
    let text = first.text.as_str();
    let filled = fill_folder(rt, folder.as_str(), host.as_str(), disk.as_str(), text);
    if let Err(fault) = filled {
        remove_folder(rt, folder.as_str(), host.as_str(), disk.as_str());
        return Err(fault.into());
    }
    Ok(print_made(rt, folder.as_str(), &first)?)
}
