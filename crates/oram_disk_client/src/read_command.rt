//! Reads a whole disk from its host: checks its records, or writes an image of what is in it.
//!
//! The disk is read as its state has it: the STOREs that the state still has are sent once more, and the commands that wait there aren't
//! carried out, but what they write is in the image. So nothing is accessed, nothing is kept, and a disk that has failed can be read too.
//!
//! The client keeps the near records itself, and the host has only those of the others that were stored since the disk was formatted. So the
//! host's answers are completed (`oram_rows`): the near records are those of the state, with those of its STOREs in their places.

ghost use Rattle.std.specs.Prelude.{◌≡◌, IfOk};
ghost use Rattle.oram_disk_client.specs.Reading.{IsWholeLink};
ghost use Rattle.oram_rounds.specs.Batches.{texts};

use crate::disk_files::{
    disk_in, formatted_levels, keys_in, process_for, read_disk as read_kept_disk,
};
use crate::findings_text::{Counts, exported_text, findings_text, saved_text};
use crate::host_asked::{PathLink, ask_host};
use crate::host_link::link_to;
use crate::image_file::{ImageFile, check_free, place_of};
use crate::progress_printer::ProgressPrinter;
use crate::reading_ends::{ExportEnd, export_end, lost_fault, read_fault, store_fault};
use crate::serving::{DiskSealer, LockedDisk, sealer_in};
use oram_bucket::Sealer;
use oram_cli::call_fault;
use oram_client::{Dial, HostWatch, Keys, ReconnectLink};
use oram_core::Core;
use oram_disk_host::{Fault, FaultKind};
use oram_export::{
    BlockSink, ReadFault, ReadingWatch, SinkStop, TreeFindings, check_disk as check_records,
    export_disk as export_blocks, send_stores,
};
use oram_near::{FormattedRecords, NearLink, NearRecords};
use oram_rounds::{BatchLink, KeptCore, record_len};
use oram_rows::RowsLink;
use oram_settings::{DiskSettings, LongWork};
use std::alloc::Global;
use std::rt::Clock;

/// What happens while a host that is lost is tried.
const MEANWHILE: &str = "and then reading goes on";

/// Prints how many records have been read.
#[derive(Drop)]
struct ReadingPrinter<'a, R> {
    printer: ProgressPrinter<'a, R>,
    done: u64,
    of: u64,
}

impl<'a, R: Clock + Eprint + AllocGlobal> ReadingWatch for ReadingPrinter<'a, R> {
    fn read(&mut self, records: u64) {
        self.done = self.done.saturating_add(records);
        self.printer.report(self.done, self.of);
    }
}

/// Counts the blocks that it is given.
#[derive(Drop)]
struct BlockCounter {
    blocks: u64,
}

impl BlockSink for BlockCounter {
    ghost takes = { λ _ _ _. Unit {0} };

    fn put(&mut self, _address: u32, _data: &[u8]) -> Result<(), SinkStop> {
        self.blocks = self.blocks.saturating_add(1);
        Ok(())
    }
}

/// Returns the number of records of the first `trees` trees of a disk.
fn records_in<S: Sealer>(core: &Core<S>, trees: u8) -> u64 {
    let device = core.device();
    let mut records = 0u64;
    for tree in 0..trees.min(device.trees()) {
        records = records.saturating_add((2 << device.depth(tree)) - 1);
    }
    records
}

/// A printer of how far `work` has come. The work reads `of` records in all.
fn reading_printer(rt: &HostRuntime, work: LongWork, of: u64) -> ReadingPrinter<'_, HostRuntime> {
    ReadingPrinter {
        printer: ProgressPrinter::new(rt, work),
        done: 0,
        of,
    }
}

/// The link over which a whole disk is read: it gives a record for each node, whether the host has it or not.
type WholeLink<S, D, W> = RowsLink<ReconnectLink<D, W>, FormattedRecords<S>>;

/// Has the host carry out the STOREs that a disk's state has, and puts their near records in place. Returns the link over which the disk is
/// read then.
fn whole_link<S: Sealer, D: Dial + Drop, W: HostWatch + Drop>(
    alloc: Global,
    mut link: PathLink<S, D, W>,
    settings: &DiskSettings,
    stores: &[Vec<u8>],
) -> Result<WholeLink<S, D, W>, Fault>
    ensures { IfOk result (λ whole. IsWholeLink ⟦<NearLink<ReconnectLink<D, W>, FormattedRecords<S>> as BatchLink>⟧.batches link (texts stores.now) whole) }
{
    match send_stores(alloc, &mut link, stores) {
        Ok(()) => Ok(RowsLink::over(link)),
        Err(fault) => Err(store_fault(alloc, fault, link.inner().trouble(), settings)),
    }
}

/// Asks the host whether it keeps this disk, compares its stamps with what is known of them, and has it carry out the STOREs that the
/// disk's state has. Returns the link over which the disk is read then. `records` are those of the state.
fn settle_host<S: Sealer, D: Dial + Drop, W: HostWatch + Drop>(
    alloc: Global,
    mut link: ReconnectLink<D, W>,
    settings: &DiskSettings,
    kept: &KeptCore<S>,
    sealer: S,
    records: Vec<u8>,
) -> Result<WholeLink<S, D, W>, Fault>
    requires { S.cipher sealer ≡ S.cipher kept.now.core.sealer }
{
    ask_host(alloc, &mut link, settings)?;
    let (core, device) = (&kept.core, kept.core.device());
    let levels = formatted_levels(alloc, core, records.len(), settings.state.as_str())?;
    let near = NearRecords::new(alloc, device, record_len(core), levels, records)?;
    let empty = FormattedRecords::new(device.copy(), sealer);
    let link = NearLink::new(alloc, link, empty, device.copy(), near);
    whole_link(alloc, link, settings, &kept.stores)
}

/// What is to be done with a whole disk.
#[derive(Drop)]
enum Reading {
    /// To check all records, and to say how many blocks could be saved if some are lost and `is_salvage`.
    Check { is_salvage: bool },
    /// To write an image of this name, and one that lacks what is lost if `is_salvage`.
    Export { image: String, is_salvage: bool },
}

/// Writes a text to standard output.
fn print(rt: &HostRuntime, text: &str) -> Result<(), Fault> {
    match rt.print(text) {
        Ok(()) => Ok(()),
        Err(error) => Err(call_fault(rt.alloc(), "standard output", &error).into()),
    }
}

/// A disk that is read as a whole: its core as its state has it, the sealer of its buckets, and its settings.
#[derive(Drop)]
struct WholeDisk<'a, S: Sealer> {
    core: &'a Core<S>,
    sealer: &'a S,
    settings: &'a DiskSettings,
}

/// Reads the blocks of a disk into a sink, and prints how far this has come, as that of `work`.
fn read_blocks<S: Sealer, D: Dial, W: HostWatch, K: BlockSink>(
    rt: &HostRuntime,
    disk: &WholeDisk<'_, S>,
    link: &mut WholeLink<S, D, W>,
    sink: &mut K,
    work: LongWork,
) -> Result<TreeFindings, ReadFault>
    requires { S.cipher disk.now.sealer.now ≡ S.cipher disk.now.core.now.sealer }
{
    let mut watch = reading_printer(rt, work, records_in(disk.core, 1));
    export_blocks(rt.alloc(), disk.core, disk.sealer, link, sink, &mut watch)
}

/// Prints how many blocks an export would save.
fn print_saved<S: Sealer, D: Dial, W: HostWatch>(
    rt: &HostRuntime,
    disk: &WholeDisk<'_, S>,
    link: &mut WholeLink<S, D, W>,
) -> Result<(), Fault>
    requires { S.cipher disk.now.sealer.now ≡ S.cipher disk.now.core.now.sealer }
{
    let alloc = rt.alloc();
    let mut counter = BlockCounter { blocks: 0 };
    match read_blocks(rt, disk, link, &mut counter, LongWork::Checking) {
        Ok(_) => print(rt, saved_text(alloc, counter.blocks)?.as_str()),
        Err(fault) => Err(read_fault(alloc, fault, link.inner().trouble(), disk.settings)),
    }
}

/// Reads all records of a disk.
fn read_records<S: Sealer, D: Dial, W: HostWatch>(
    rt: &HostRuntime,
    disk: &WholeDisk<'_, S>,
    link: &mut WholeLink<S, D, W>,
) -> Result<Vec<TreeFindings>, Fault> {
    let alloc = rt.alloc();
    let of = records_in(disk.core, disk.core.device().trees());
    let mut watch = reading_printer(rt, LongWork::Checking, of);
    match check_records(alloc, disk.core, link, &mut watch) {
        Ok(trees) => Ok(trees),
        Err(fault) => Err(read_fault(alloc, fault, link.inner().trouble(), disk.settings)),
    }
}

/// Checks all records of a disk, and prints what it found. If some are lost, and `is_salvage`, it prints how many blocks an export would
/// save, and in any case it fails with [`FaultKind::LostRecords`] after that.
fn check<S: Sealer, D: Dial, W: HostWatch>(
    rt: &HostRuntime,
    disk: &WholeDisk<'_, S>,
    link: &mut WholeLink<S, D, W>,
    is_salvage: bool,
) -> Result<(), Fault>
    requires { S.cipher disk.now.sealer.now ≡ S.cipher disk.now.core.now.sealer }
{
    let alloc = rt.alloc();
    let trees = read_records(rt, disk, link)?;
    print(rt, findings_text(alloc, &trees)?.as_str())?;
    let counts = Counts::of_all(&trees);
    if counts.lost == 0 {
        return Ok(());
    }
    if is_salvage {
        print_saved(rt, disk, link)?;
    }
    Err(lost_fault(alloc, FaultKind::LostRecords, disk.settings, counts))
}

/// Reads the blocks of a disk into an image.
fn fill_image<S: Sealer, D: Dial, W: HostWatch>(
    rt: &HostRuntime,
    disk: &WholeDisk<'_, S>,
    link: &mut WholeLink<S, D, W>,
    file: &mut ImageFile<'_>,
) -> Result<Counts, Fault>
    requires { S.cipher disk.now.sealer.now ≡ S.cipher disk.now.core.now.sealer }
{
    match read_blocks(rt, disk, link, file, LongWork::Exporting) {
        Ok(tree) => Ok(Counts::of(&tree)),
        Err(fault) => match file.take_fault() {
            Some(fault) => Err(fault.into()),
            None => Err(read_fault(rt.alloc(), fault, link.inner().trouble(), disk.settings)),
        },
    }
}

/// Gives an image its name or removes it, by what was found.
fn end_image(
    rt: &HostRuntime,
    settings: &DiskSettings,
    file: ImageFile<'_>,
    found: Result<Counts, Fault>,
    is_salvage: bool,
) -> Result<Counts, Fault> {
    let counts = match found {
        Ok(counts) => counts,
        Err(fault) => {
            file.discard();
            return Err(fault);
        }
    };
    match export_end(counts.lost, is_salvage) {
        ExportEnd::Given => file.finish()?,
        ExportEnd::GivenInPart => {
            file.finish()?;
            return Err(lost_fault(rt.alloc(), FaultKind::PartialImage, settings, counts));
        }
        ExportEnd::Discarded => {
            file.discard();
            return Err(lost_fault(rt.alloc(), FaultKind::LostRecords, settings, counts));
        }
    }
    Ok(counts)
}

/// Writes an image of a disk. Fails with [`FaultKind::LostRecords`] and leaves no image if records are lost, or with
/// [`FaultKind::PartialImage`] if the image is to lack what was in them.
fn export<S: Sealer, D: Dial, W: HostWatch>(
    rt: &HostRuntime,
    disk: &WholeDisk<'_, S>,
    link: &mut WholeLink<S, D, W>,
    image: String,
    is_salvage: bool,
) -> Result<(), Fault>
    requires { S.cipher disk.now.sealer.now ≡ S.cipher disk.now.core.now.sealer }
{
    let settings = disk.settings;
    let name = image.clone()?;
    let mut file = ImageFile::begin(rt, image, settings.state.as_str(), settings.size)?;
    let found = fill_image(rt, disk, link, &mut file);
    let counts = end_image(rt, settings, file, found, is_salvage)?;
    let place = place_of(name.as_str());
    let line = exported_text(rt.alloc(), settings.size, place, counts.records)?;
    let _passed_over = rt.eprint(line.as_str());
    Ok(())
}

/// Reads a disk, over the link to its host.
fn read_over<S: Sealer, D: Dial, W: HostWatch>(
    rt: &HostRuntime,
    disk: &WholeDisk<'_, S>,
    link: &mut WholeLink<S, D, W>,
    reading: Reading,
) -> Result<(), Fault>
    requires { S.cipher disk.now.sealer.now ≡ S.cipher disk.now.core.now.sealer }
{
    match reading {
        Reading::Check { is_salvage } => check(rt, disk, link, is_salvage),
        Reading::Export { image, is_salvage } => export(rt, disk, link, image, is_salvage),
    }
}

/// Reads a disk that was kept with these records, whose buckets `sealer` has sealed.
fn read_kept<S: Sealer + Copy>(
    rt: &HostRuntime,
    settings: &DiskSettings,
    keys: &Keys,
    kept: &KeptCore<S>,
    records: Vec<u8>,
    sealer: S,
    reading: Reading,
) -> Result<(), Fault>
    requires { S.cipher sealer ≡ S.cipher kept.now.core.sealer }
{
    let link = link_to(rt, settings, keys, kept, MEANWHILE)?;
    let mut link = settle_host(rt.alloc(), link, settings, kept, sealer, records)?;
    let disk = WholeDisk {
        core: &kept.core,
        sealer: &sealer,
        settings,
    };
    read_over(rt, &disk, &mut link, reading)
}

/// Reads the disk whose settings are in the file `name`, and whose lock this process holds.
fn read_disk(
    rt: &HostRuntime,
    name: &str,
    locked: &LockedDisk,
    reading: Reading,
) -> Result<(), Fault> {
    let alloc = rt.alloc();
    let settings = locked.settings();
    let state = settings.state.as_str();
    let kept = read_kept_disk(rt, state)?;
    let keys = keys_in(alloc, settings, &kept.head, name)?;
    match sealer_in(&kept.head, &keys) {
        DiskSealer::Plain(sealer) => {
            let process = process_for(alloc, settings, name, &kept, sealer)?;
            let records = kept.process.records;
            read_kept(rt, settings, &keys, &process, records, sealer, reading)
        }
        DiskSealer::ChaCha20(sealer) => {
            let process = process_for(alloc, settings, name, &kept, sealer)?;
            let records = kept.process.records;
            read_kept(rt, settings, &keys, &process, records, sealer, reading)
        }
    }
}

/// Checks all records of the disk whose settings are in the file `name` at its host, and prints for each tree how many there are and
/// which are lost. Fails with [`FaultKind::LostRecords`] after that if some are. If `is_salvage`, it prints then how many blocks
/// [`export_image`] would save, too.
pub fn check_host(rt: &HostRuntime, name: String, is_salvage: bool) -> Result<(), Fault> {
    let (settings, _) = disk_in(rt, name.as_str())?;
    let locked = LockedDisk::take(rt, settings)?;
    read_disk(rt, name.as_str(), &locked, Reading::Check { is_salvage })
}

/// Writes what is in the disk whose settings are in the file `name` to a new file `image`, or to standard output if that is `-`. If
/// records are lost at the host, fails with [`FaultKind::LostRecords`] and leaves no image, unless `is_salvage`: then the image has
/// zeros in place of what was in them, and it fails with [`FaultKind::PartialImage`].
pub fn export_image(
    rt: &HostRuntime,
    name: String,
    image: String,
    is_salvage: bool,
) -> Result<(), Fault> {
    let (settings, _) = disk_in(rt, name.as_str())?;
    check_free(rt, image.as_str())?;
    let locked = LockedDisk::take(rt, settings)?;
    read_disk(
        rt,
        name.as_str(),
        &locked,
        Reading::Export { image, is_salvage },
    )
}
