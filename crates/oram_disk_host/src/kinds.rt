//! The kinds of faults that end the program, with their lines and statuses.

ghost use Rattle.std.specs.Prelude.{◌≡◌};
ghost use Rattle.oram_disk_host.specs.Kinds as spec;

use oram_cli::{FileReason, HostFault};
use oram_settings::FixedKey;

/// Why the program ends, if that is about something with a name.
#[derive(Clone, Copy, Debug)]
pub enum FaultKind {
    /// The command line asks for nothing that the program can do. Instead of a name, it comes with what is wrong with the
    /// words, and perhaps how the program is used.
    CommandLine,
    /// A file doesn't have the settings that it must have. Instead of a name, it comes with which file it is, and what
    /// is wrong with it.
    Settings,
    /// The file or folder of this name can't be opened, read or written.
    File(FileReason),
    /// There is no file of this name with the state of a disk, so the disk may not be formatted yet.
    Unformatted,
    /// The program can't listen at this address.
    Address,
    /// The file of this name isn't a file of buckets.
    NotABucketFile,
    /// The file of buckets of this name is from an older version, or from a newer one.
    OlderFile,
    NewerFile,
    /// The log beside the file of buckets of this name is missing, or belongs to another file.
    WithoutLog,
    LogOfAnotherFile,
    /// The file of buckets of this name is missing, but something is at its log's name that no making of it has left.
    LogWithoutFile,
    /// The file of buckets of this name can't be made, since something is at the name under which it is made, or its log.
    NewFileTaken,
    NewLogTaken,
    /// The log beside the file of buckets of this name is older than the file, or newer.
    LogOlder,
    LogNewer,
    /// The file of buckets of this name is shorter than it was.
    CutShort,
    /// The file of this name holds something that no host writes.
    Damaged,
    /// The log beside the file of buckets of this name isn't as a host writes it.
    LogDamaged,
    /// Another process has the file of this name open.
    Busy,
    /// There is no file of buckets of this name.
    NoFile,
    /// There is a file of this name, although a new one was asked for.
    FileExists,
    /// There is something of this name already.
    Exists,
    /// There is a file of this name already, with the state of a disk or with something else.
    Formatted,
    /// The file of this name isn't a disk's state.
    NotADisk,
    /// The file of this name is a disk's state, but it was cut short or changed since it was written.
    DamagedState,
    /// The file of this name is the state of a disk, in an older format.
    OlderState,
    /// The file of this name is an old state of its disk. A newer one has replaced it, and the host's records belong to that
    /// one.
    ReplacedState,
    /// The key in the settings of this name isn't the one that the disk was formatted with.
    WrongKey,
    /// The value of a key in the settings isn't the one that the disk was formatted with. After the name of the settings comes
    /// what it was then.
    Changed(FixedKey),
    /// The disk can't use the host at this address.
    Host(HostFault),
    /// The host at this address shows an older file of the disk than it has shown before.
    OlderHost,
    /// The host at this address doesn't show the stamps of its disk.
    NoStamps,
    /// The state can't be kept in a file. After the file's name comes the step that failed, and why.
    StateNotKept,
    /// The state of a new disk can't be kept in a file. After the file's name comes the step that failed, and why. The disk's
    /// host has heard nothing of it.
    StateNotMade,
    /// The disk whose state is in the file of this name has made all its accesses.
    UsedUp,
    /// Another process uses the disk whose state is in the file of this name.
    InUse,
    /// The disk whose state is in the file of this name has failed.
    Failed,
    /// The disk whose state is in the file of this name has not failed.
    NotFailed,
    /// The host doesn't have all records as they were stored. Instead of a name, it comes with how many of them it lacks.
    LostRecords,
    /// An image lacks what was in records that the host doesn't have as they were stored. Instead of a name, it comes with how many
    /// these are.
    PartialImage,
    /// The host at this address gave an answer to a question about records that no host of this version gives.
    OtherAnswer,
}

/// Returns the text before the name, for a value that was changed.
fn changed(key: FixedKey) -> &'static str
    ensures { result.now ≡ spec.changed key }
{
    match key {
        FixedKey::Size => "oramdisk: size in ",
        FixedKey::Block => "oramdisk: block in ",
        FixedKey::Slots => "oramdisk: slots in ",
        FixedKey::LeafLoad => "oramdisk: leaf_load in ",
        FixedKey::Table => "oramdisk: table in ",
        FixedKey::Sealer => "oramdisk: sealer in ",
        FixedKey::Near => "oramdisk: near in ",
    }
}

/// Returns the text after the name of a file, for this reason.
fn file_rest(reason: FileReason) -> &'static str
    ensures { result.now ≡ spec.file_rest reason }
{
    match reason {
        FileReason::Missing => ": no such file or folder: see that its name is right\n",
        FileReason::Exists => " is there already: name another file\n",
        FileReason::NotPermitted => ": permission denied: see that you may read and write it\n",
        FileReason::DiskFull => ": the disk is full: make room on it\n",
        FileReason::Folder => " is a folder: name a file in it\n",
        FileReason::Other =>
            ": see that it is there and may be written, and that its disk has room\n",
    }
}

/// Returns the text after the address of a host.
fn host_rest(why: HostFault) -> &'static str
    ensures { result.now ≡ spec.host_rest why }
{
    match why {
        HostFault::NoRoom => " has no room: make room on its disk, and start again\n",
        HostFault::AnotherDisk =>
            " keeps another disk, and nothing was sent to it: see that the settings name the right host, and that it was started with its own file\n",
        HostFault::NoDisk =>
            " keeps no disk, and nothing was sent to it: see that the settings name the right host, and that it was started with its own file\n",
        HostFault::Taken => " keeps a disk already: name a new file at the host\n",
        HostFault::OutOfReach =>
            ": see that it runs there, and no other program, and that the way to it is open, and start again\n",
        HostFault::Refused => " doesn't take this disk: name a new file at the host\n",
    }
}

impl FaultKind {
    /// Returns the text before the name in the line.
    pub(crate) fn front(self) -> &'static str
        ensures { result.now ≡ spec.front self }
    {
        match self {
            FaultKind::Unformatted => "oramdisk: there is no state ",
            FaultKind::File(FileReason::Other) => "oramdisk: can't open, read or write ",
            FaultKind::Address => "oramdisk: can't listen at ",
            FaultKind::WithoutLog
            | FaultKind::LogOfAnotherFile
            | FaultKind::LogOlder
            | FaultKind::LogDamaged => "oramdisk: the log of ",
            FaultKind::LogWithoutFile | FaultKind::NoFile => "oramdisk: there is no file ",
            FaultKind::WrongKey => "oramdisk: the key in ",
            FaultKind::Changed(key) => changed(key),
            FaultKind::Host(HostFault::NoRoom)
            | FaultKind::Host(HostFault::AnotherDisk)
            | FaultKind::Host(HostFault::NoDisk)
            | FaultKind::Host(HostFault::Taken)
            | FaultKind::Host(HostFault::Refused)
            | FaultKind::OlderHost
            | FaultKind::NoStamps
            | FaultKind::OtherAnswer => "oramdisk: the host at ",
            FaultKind::Host(HostFault::OutOfReach) => "oramdisk: can't reach the host at ",
            FaultKind::StateNotKept | FaultKind::StateNotMade =>
                "oramdisk: can't keep the state in ",
            FaultKind::UsedUp | FaultKind::InUse | FaultKind::Failed | FaultKind::NotFailed =>
                "oramdisk: the disk of ",
            _ => "oramdisk: ",
        }
    }

    /// Returns the text after the name in the line.
    pub(crate) fn rest(self) -> &'static str
        ensures { result.now ≡ spec.rest self }
    {
        match self {
            FaultKind::CommandLine | FaultKind::Settings => "\n",
            FaultKind::Unformatted =>
                ": see that its place is mounted; if the disk isn't formatted yet, start its host, and then say oramdisk format\n",
            FaultKind::File(reason) => file_rest(reason),
            FaultKind::Address =>
                ": see that no other program listens there, that it is a place of this machine, and that you may use it\n",
            FaultKind::NotABucketFile =>
                " isn't a file of buckets, and is left as it is: name another file\n",
            FaultKind::OlderFile =>
                " is a file of an older version, and is left as it is: serve it with that version, or name another file, and format anew\n",
            FaultKind::NewerFile =>
                " is a file of buckets of a newer version, and is left as it is: serve it with that version\n",
            FaultKind::WithoutLog =>
                ", the file beside it with -log after its name, isn't there: put back the one that it was served with last\n",
            FaultKind::LogOfAnotherFile =>
                ", the file beside it with -log after its name, is another file's: put back the one that it was served with last\n",
            FaultKind::LogWithoutFile =>
                ", but a log is there, the file beside it with -log after its name: put the file back that the log belongs to, or take the log away\n",
            FaultKind::NewFileTaken =>
                ".unfinished is where the new file is made, and something else is there, which is left as it is: take it away\n",
            FaultKind::NewLogTaken =>
                "-log.unfinished is where the new log is made, and something else is there, which is left as it is: take it away\n",
            FaultKind::LogOlder =>
                ", the file beside it with -log after its name, is older than the file, and both are left as they are: put back the log that it was served with last\n",
            FaultKind::LogNewer =>
                " is older than its log, the file beside it with -log after its name, and both are left as they are: put back the file that was served last\n",
            FaultKind::CutShort =>
                " is shorter than it was, and is left as it is: put the whole file back\n",
            FaultKind::Damaged =>
                " is damaged, and is left as it is: name another file, and format anew\n",
            FaultKind::LogDamaged =>
                ", the file beside it with -log after its name, is damaged, and both are left as they are: put back copies of both that belong together, or name another file, and format anew\n",
            FaultKind::Busy => " is held by another process: end that one first\n",
            FaultKind::NoFile =>
                ": see that the settings are those of the right host, or say oramdisk host --new to make it\n",
            FaultKind::FileExists =>
                " is there already, and is left as it is: leave --new out to serve it\n",
            FaultKind::Exists => " is there already, and is left as it is: name another folder\n",
            FaultKind::Formatted =>
                " is there already, and is left as it is: to format anew, take it away, and name a new file at the host\n",
            FaultKind::NotADisk =>
                " isn't the state of a disk, and is left as it is: see that the settings name the right file\n",
            FaultKind::DamagedState =>
                ", or its log, the file beside it with -log after its name, is damaged, and both are left as they are: put back the newest copies of both, if there are any; oramdisk refuses older ones\n",
            FaultKind::OlderState =>
                " is the state of a disk of an older version, and is left as it is: serve it with that version, and copy what is in it to a new disk\n",
            FaultKind::ReplacedState =>
                " is an older state of its disk, and nothing was stored by it: put the newest one back; if a loss of power with sync = false took that one, the disk is lost\n",
            FaultKind::WrongKey =>
                " isn't this disk's: put the one back that it was formatted with\n",
            FaultKind::Changed(_) => " when the disk was formatted: put that back\n",
            FaultKind::Host(why) => host_rest(why),
            FaultKind::OlderHost =>
                " shows an older file of this disk than it has shown before, and nothing was stored there: have it serve its newest file; nothing is lost here\n",
            FaultKind::NoStamps =>
                " doesn't show what this disk has stored there, and nothing more was stored: have it serve the disk's own file, unchanged; nothing is lost here\n",
            FaultKind::StateNotKept =>
                ": see that its folder may be written and has room, and start again\n",
            FaultKind::StateNotMade =>
                ": see that its folder may be written and has room, and format again\n",
            FaultKind::UsedUp =>
                " has made all its accesses: say oramdisk export, and copy the image to a new disk\n",
            FaultKind::InUse => " is in use by another process: end that one first\n",
            FaultKind::Failed =>
                " has failed, and oramdisk status says why: see that its own host is reached, with its own file, and then say oramdisk retry; oramdisk check says what is lost at the host, and oramdisk export --salvage saves the rest\n",
            FaultKind::NotFailed =>
                " has not failed, and is left as it is: oramdisk serve serves it\n",
            FaultKind::LostRecords =>
                ": oramdisk export --salvage writes the rest of the disk to an image\n",
            FaultKind::PartialImage => ": what was in them reads as zeros in the image\n",
            FaultKind::OtherAnswer =>
                " gave an answer that no host of this version gives: have it run the same version of oramdisk\n",
        }
    }

    /// Returns the exit status.
    pub(crate) fn status(self) -> u8
        ensures { result ≡ spec.status self }
    {
        match self {
            FaultKind::CommandLine | FaultKind::Settings => 2,
            FaultKind::File(_) => 4,
            FaultKind::Address => 5,
            FaultKind::NotABucketFile => 6,
            FaultKind::CutShort | FaultKind::Damaged | FaultKind::LogDamaged => 7,
            FaultKind::Busy => 8,
            FaultKind::FileExists
            | FaultKind::NewFileTaken
            | FaultKind::NewLogTaken
            | FaultKind::Exists
            | FaultKind::Formatted => 9,
            FaultKind::NotADisk | FaultKind::DamagedState | FaultKind::OlderState => 10,
            FaultKind::Host(HostFault::OutOfReach) => 11,
            FaultKind::Host(HostFault::Taken) | FaultKind::Host(HostFault::Refused) => 12,
            FaultKind::StateNotKept | FaultKind::StateNotMade => 13,
            FaultKind::UsedUp => 14,
            FaultKind::InUse => 16,
            FaultKind::Failed => 17,
            FaultKind::NotFailed => 18,
            FaultKind::NoFile => 19,
            FaultKind::Host(HostFault::AnotherDisk) => 20,
            FaultKind::Host(HostFault::NoDisk) => 21,
            FaultKind::Host(HostFault::NoRoom) => 22,
            FaultKind::WrongKey => 23,
            FaultKind::Changed(_) => 24,
            FaultKind::OlderFile | FaultKind::NewerFile => 25,
            FaultKind::WithoutLog
            | FaultKind::LogOfAnotherFile
            | FaultKind::LogWithoutFile
            | FaultKind::LogOlder
            | FaultKind::LogNewer => 26,
            FaultKind::ReplacedState => 27,
            FaultKind::OlderHost => 29,
            FaultKind::NoStamps => 30,
            FaultKind::LostRecords | FaultKind::PartialImage => 31,
            FaultKind::OtherAnswer => 32,
            FaultKind::Unformatted => 28,
        }
    }
}
