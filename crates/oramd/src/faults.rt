//! Why the program ends early, and how it reports that.

ghost use Rattle.std.specs.Prelude.{◌≡◌, OnOk};
ghost use Rattle.std.specs.Io.KnownBytes.{Appends};
ghost use Rattle.oram_host.specs.Transfers.{Begins};
ghost use Rattle.oramd.specs.Faults.{IsFileFault, line_of, message_of, status_of};
ghost use Rattle.oramd.specs.declared.faults.Fault.TheVariants.{OutOfMemory};

use oram_cli::{FileFault, LockFault, SocketFault, put, put_both, put_number};
use oram_geometry::ShapeFault;
use oram_state::StateFault;
use oram_tree::FormatFault;
use oram_wire::{SinkFault, WriteFault};
use std::alloc::{AllocError, Global};
use std::io::Write;

/// Why the program ends early. Each fault has its own line.
#[derive(Debug, PartialEq, Eq, Drop)]
pub enum Fault {
    /// The words of the command line ask for nothing that the program can do.
    CommandLine,
    /// The digits are not hexadecimal, or their bytes are not whole frames.
    Hex,
    /// The settings file isn't one for this role.
    Settings,
    OutOfMemory,
    /// The file of this name can't be read or written, or exists although it must not.
    File(String),
    /// A socket failed.
    Socket,
    /// The settings' numbers make no device. The number says which one is the first that is out of its range.
    Shape(u8),
    /// The state file holds no core. The number says why.
    State(u8),
    /// The image file holds no host. The number says why.
    Image(u8),
    /// The host refused a message of the formatting.
    HostRefused,
    /// The host gave no answer to a message in four tries.
    Stalled,
    /// The device failed.
    Failed,
}

impl From<AllocError> for Fault {
    ghost from_gives = { λ _ fault. fault ≡ OutOfMemory };

    fn from(_error: AllocError) -> Fault {
        Fault::OutOfMemory
    }
}

impl From<FileFault> for Fault {
    ghost use Rattle.oramd.specs.LibraryFaults.{file_fault};

    ghost from_gives = { λ why fault. fault ≡ file_fault why };

    fn from(why: FileFault) -> Fault {
        match why {
            FileFault::File(name, _) => Fault::File(name),
            FileFault::OutOfMemory => Fault::OutOfMemory,
        }
    }
}

impl From<SocketFault> for Fault {
    ghost use Rattle.oramd.specs.LibraryFaults.{socket_fault};

    ghost from_gives = { λ why fault. fault ≡ socket_fault why };

    fn from(why: SocketFault) -> Fault {
        match why {
            SocketFault::Failed => Fault::Socket,
            SocketFault::OutOfMemory => Fault::OutOfMemory,
        }
    }
}

impl From<StateFault> for Fault {
    ghost use Rattle.oramd.specs.LibraryFaults.{state_fault};

    ghost from_gives = { λ why fault. fault ≡ state_fault why };

    fn from(why: StateFault) -> Fault {
        match why.number() {
            Some(number) => Fault::State(number),
            None => Fault::OutOfMemory,
        }
    }
}

impl From<ShapeFault> for Fault {
    ghost use Rattle.oramd.specs.LibraryFaults.{shape_fault};

    ghost from_gives = { λ why fault. fault ≡ shape_fault why };

    fn from(why: ShapeFault) -> Fault {
        Fault::Shape(why.number())
    }
}

impl From<FormatFault> for Fault {
    ghost use Rattle.oramd.specs.LibraryFaults.{format_fault};

    ghost from_gives = { λ why fault. fault ≡ format_fault why };

    fn from(why: FormatFault) -> Fault {
        match why {
            FormatFault::Sink(SinkFault::Refused) => Fault::HostRefused,
            FormatFault::Sink(SinkFault::Link) => Fault::Socket,
            FormatFault::Sink(SinkFault::OutOfMemory) | FormatFault::OutOfMemory => {
                Fault::OutOfMemory
            }
        }
    }
}

/// Makes the fault of the file `name`.
pub(crate) fn file_fault(alloc: Global, name: &str) -> Fault
    ensures { IsFileFault name.now result }
{
    match String::from_str(alloc, name) {
        Ok(name) => Fault::File(name),
        Err(_) => Fault::OutOfMemory,
    }
}

/// Returns the program's fault if it can't lock the state in the file `name`.
pub(crate) fn lock_fault(alloc: Global, name: &str, why: &LockFault) -> Fault
    ensures { IsFileFault name.now result }
{
    match why {
        LockFault::InUse | LockFault::File(FileFault::File(..)) => file_fault(alloc, name),
        LockFault::File(FileFault::OutOfMemory) => Fault::OutOfMemory,
    }
}

impl Fault {
    /// Returns the exit status.
    fn status(&self) -> u8
        ensures { result ≡ status_of self.now }
    {
        match self {
            Fault::CommandLine | Fault::Hex | Fault::Settings => 2,
            Fault::OutOfMemory => 3,
            Fault::File(_) | Fault::Socket => 4,
            Fault::Shape(_) | Fault::State(_) | Fault::Image(_) => 5,
            Fault::HostRefused | Fault::Stalled | Fault::Failed => 6,
        }
    }
}

/// Writes what the line says of a fault.
fn put_message<W: Write>(writer: &mut W, fault: &Fault) -> Result<(), WriteFault>
    ensures ok { OnOk result (Appends (W.contents writer.old) (W.contents writer.new) (message_of fault.now)) }
    ensures begun { Begins (W.contents writer.old) (W.contents writer.new) (message_of fault.now) }
{
    match fault {
        Fault::CommandLine => put(writer, b"bad command line"),
        Fault::Hex => put(writer, b"bad hex"),
        Fault::Settings => put(writer, b"bad settings"),
        Fault::OutOfMemory => put(writer, b"out of memory"),
        Fault::File(name) => put_both(writer, b"file ", name.as_bytes()),
        Fault::Socket => put(writer, b"socket"),
        Fault::Shape(number) => put_number(writer, b"shape ", *number),
        Fault::State(number) => put_number(writer, b"state ", *number),
        Fault::Image(number) => put_number(writer, b"image ", *number),
        Fault::HostRefused => put(writer, b"host refused"),
        Fault::Stalled => put(writer, b"stalled"),
        Fault::Failed => put(writer, b"failed"),
    }
}

/// Writes the line of a fault.
fn put_line<W: Write>(writer: &mut W, fault: &Fault) -> Result<(), WriteFault>
    ensures ok { OnOk result (Appends (W.contents writer.old) (W.contents writer.new) (line_of fault.now)) }
    ensures begun { Begins (W.contents writer.old) (W.contents writer.new) (line_of fault.now) }
{
    put(writer, b"oramd: ")?;
    put_message(writer, fault)?;
    put(writer, b"\n")
}

/// Writes the line of a fault, as far as the writer takes it, and returns the exit status. Allocates
/// nothing.
pub fn report<W: Write>(writer: &mut W, fault: &Fault) -> u8
    // The whole line, unless the writer failed.
    ensures line { Begins (W.contents writer.old) (W.contents writer.new) (line_of fault.now) }
    ensures status { result ≡ status_of fault.now }
{
    let _passed_over = put_line(writer, fault);
    fault.status()
}
