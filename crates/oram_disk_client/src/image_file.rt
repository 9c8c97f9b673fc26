//! The file that an export writes.
//!
//! It is written under another name first, or under none if the image goes to standard output. So nobody finds half an image.

ghost use Rattle.std.specs.Prelude.{◌≡◌, ◌++◌, IfOk, codes, string_bytes};

use oram_cli::{FileFault, call_fault, file_fault, folder_of, sync_folder};
use oram_export::{BlockSink, SinkStop};
use std::alloc::{AllocError, Global};
use std::fs::{File, OpenOptions};
use std::io::{ErrorKind, Write};
use std::os::unix::fs::{FileExt, OpenOptionsExt};
use std::{fs, io};

/// The name that stands for standard output.
const STANDARD_OUTPUT: &str = "-";

/// What standard output is called in a line.
const SAID_OUTPUT: &str = "standard output";

/// The mode of an image, which isn't encrypted.
const OWNERS_ALONE: u32 = 0o600;

/// The greatest number of bytes of a block.
const LONGEST_BLOCK: usize = 4096;

/// The length of the pieces in which an image is copied to standard output, in bytes.
const PIECE: usize = 1 << 18;

/// Returns a name with something after it.
fn with_ending(alloc: Global, name: &str, ending: &str) -> Result<String, AllocError>
    ensures { IfOk result (λ longer. string_bytes longer ≡ name.now ++ ending.now) }
{
    let mut longer = String::from_str(alloc, name)?;
    longer.push_str(ending)?;
    Ok(longer)
}

/// Makes a new file that only its owner may read and write.
fn new_file(rt: &HostRuntime, name: &str) -> io::Result<File> {
    let mut options = OpenOptions::new();
    options
        .read(true)
        .write(true)
        .create_new(true)
        .mode(OWNERS_ALONE);
    options.open(rt, name)
}

/// Where an image goes.
#[derive(Drop)]
enum Target {
    /// To a new file of this name.
    File(String),
    StandardOutput,
}

/// An image that is being written.
#[derive(Drop)]
pub(crate) struct ImageFile<'a> {
    rt: &'a HostRuntime,
    file: File,
    /// The name under which the file is, or was, written.
    unfinished: String,
    target: Target,
    /// Why a call on the file failed, if one did.
    fault: Option<FileFault>,
}

impl<'a> ImageFile<'a> {
    /// Begins the image of a disk of `size` bytes, which are zeros at first. If `image` is `-`, the image will go to standard
    /// output, and is kept in a file beside `state` until then, which has no name. Fails if there is a file `image`.
    pub(crate) fn begin(
        rt: &'a HostRuntime,
        image: String,
        state: &str,
        size: u64,
    ) -> Result<ImageFile<'a>, FileFault> {
        let alloc = rt.alloc();
        if image.as_str() == STANDARD_OUTPUT {
            let unfinished = with_ending(alloc, state, ".export")?;
            return ImageFile::unnamed(rt, unfinished, size);
        }
        check_free(rt, image.as_str())?;
        let unfinished = with_ending(alloc, image.as_str(), ".unfinished")?;
        let file = match new_file(rt, unfinished.as_str()) {
            Ok(file) => file,
            Err(error) => return Err(file_fault(unfinished, &error)),
        };
        ImageFile::with_size(rt, file, unfinished, Target::File(image), size)
    }

    /// Begins an image in a file that loses its name at once. Nobody else makes this file, since the disk is locked; one that an
    /// export has left that was killed is replaced.
    fn unnamed(rt: &'a HostRuntime, name: String, size: u64) -> Result<ImageFile<'a>, FileFault> {
        let _may_be_absent = fs::remove_file(rt, name.as_str());
        let file = match new_file(rt, name.as_str()) {
            Ok(file) => file,
            Err(error) => return Err(file_fault(name, &error)),
        };
        match fs::remove_file(rt, name.as_str()) {
            Ok(()) => ImageFile::with_size(rt, file, name, Target::StandardOutput, size),
            Err(error) => Err(file_fault(name, &error)),
        }
    }

    /// Gives a new file its size.
    fn with_size(
        rt: &'a HostRuntime,
        file: File,
        unfinished: String,
        target: Target,
        size: u64,
    ) -> Result<ImageFile<'a>, FileFault> {
        let image = ImageFile {
            rt,
            file,
            unfinished,
            target,
            fault: None,
        };
        match image.file.set_len(size) {
            Ok(()) => Ok(image),
            Err(error) => {
                let fault = image.fault_of(&error);
                image.discard();
                Err(fault)
            }
        }
    }

    /// Returns the fault for a call on the file that failed with `error`.
    fn fault_of(&self, error: &io::Error) -> FileFault {
        call_fault(self.rt.alloc(), self.unfinished.as_str(), error)
    }

    /// Takes back why a call on the file failed, if one did.
    pub(crate) fn take_fault(&mut self) -> Option<FileFault> {
        self.fault.take()
    }

    /// Removes what was written.
    pub(crate) fn discard(self) {
        if let Target::File(_) = &self.target {
            let _passed_over = fs::remove_file(self.rt, self.unfinished.as_str());
        }
    }

    /// Gives the image its name, or writes it to standard output. If that fails, removes what was written.
    pub(crate) fn finish(self) -> Result<(), FileFault> {
        let finished = match &self.target {
            Target::File(name) => self.name_it(name.as_str()),
            Target::StandardOutput => self.print(),
        };
        if finished.is_err() {
            self.discard();
        }
        finished
    }

    /// Syncs the file and gives it its name, unless there is a file of that name by now.
    fn name_it(&self, name: &str) -> Result<(), FileFault> {
        let alloc = self.rt.alloc();
        if let Err(error) = self.file.sync_all() {
            return Err(self.fault_of(&error));
        }
        if let Err(error) = link_or_rename(self.rt, self.unfinished.as_str(), name) {
            let missing = error.kind() == ErrorKind::NotFound;
            let about = if missing {
                self.unfinished.as_str()
            } else {
                name
            };
            return Err(call_fault(alloc, about, &error));
        }
        let folder = folder_of(name);
        match sync_folder(self.rt, folder) {
            Ok(()) => Ok(()),
            Err(error) => Err(call_fault(alloc, folder, &error)),
        }
    }

    /// Writes the image to standard output.
    fn print(&self) -> Result<(), FileFault> {
        match copy_to(&self.file, self.rt) {
            Ok(()) => Ok(()),
            Err(error) => Err(call_fault(self.rt.alloc(), SAID_OUTPUT, &error)),
        }
    }

    /// Writes data at a place, unless it is zeros and there are zeros.
    fn write(&self, at: u64, data: &[u8]) -> io::Result<()> {
        if is_zero(data) && reads_zeros(&self.file, at, data.len())? {
            return Ok(());
        }
        self.file.write_all_at(data, at)
    }
}

impl<'a> BlockSink for ImageFile<'a> {
    // No contract says what the system does.
    ghost takes = { λ _ _ _. Unit {0} };

    fn put(&mut self, address: u32, data: &[u8]) -> Result<(), SinkStop> {
        let at = u64::from(address).saturating_mul(data.len() as u64);
        match self.write(at, data) {
            Ok(()) => Ok(()),
            Err(error) => {
                self.fault = Some(self.fault_of(&error));
                Err(SinkStop)
            }
        }
    }
}

/// Returns what the place of an image is called in a line.
pub(crate) fn place_of(image: &str) -> &str {
    if image == STANDARD_OUTPUT {
        SAID_OUTPUT
    } else {
        image
    }
}

/// Fails if there is something of the name that an image is to have, or if that can't be found out.
pub(crate) fn check_free(rt: &HostRuntime, image: &str) -> Result<(), FileFault> {
    if image == STANDARD_OUTPUT {
        return Ok(());
    }
    let error = match fs::symlink_metadata(rt, image) {
        Ok(_) => io::Error::from(ErrorKind::AlreadyExists),
        Err(error) if error.kind() == ErrorKind::NotFound => return Ok(()),
        Err(error) => error,
    };
    Err(call_fault(rt.alloc(), image, &error))
}

/// Gives a file another name, unless there is something of that name.
///
/// A link is refused by the system if the name is taken. Some file systems have no links: there the name is looked up, and the file
/// renamed.
fn link_or_rename(rt: &HostRuntime, from: &str, to: &str) -> io::Result<()> {
    match fs::hard_link(rt, from, to) {
        Ok(()) => fs::remove_file(rt, from),
        Err(error) if error.kind() == ErrorKind::AlreadyExists => Err(error),
        Err(_) => {
            if fs::symlink_metadata(rt, to).is_ok() {
                return Err(io::Error::from(ErrorKind::AlreadyExists));
            }
            fs::rename(rt, from, to)
        }
    }
}

/// Returns whether all bytes are zeros.
fn is_zero(data: &[u8]) -> bool {
    data.iter().all(|byte| *byte == 0)
}

/// Returns whether a file surely has `len` zeros at a place, which are at most as many as the greatest block has bytes.
fn reads_zeros(file: &File, at: u64, len: usize) -> io::Result<bool> {
    let mut piece = [0; LONGEST_BLOCK];
    if len > piece.len() {
        return Ok(false);
    }
    let got = file.read_at(&mut piece[..len], at)?;
    Ok(got == len && is_zero(&piece))
}

/// Writes all of a file to standard output.
fn copy_to(file: &File, rt: &HostRuntime) -> io::Result<()> {
    let mut piece = vec![in rt.alloc(); 0u8; PIECE]?;
    let mut writer = rt.stdout();
    let mut at = 0u64;
    for _ in 0..u64::MAX {
        let got = file.read_at(&mut piece, at)?;
        if got == 0 {
            break;
        }
        writer.write_all(&piece[..got])?;
        at = at.saturating_add(got as u64);
    }
    writer.flush()
}
