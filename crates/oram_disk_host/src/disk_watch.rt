//! Who is told how the disk of a host is, and what an answer tells of it.

ghost use Rattle.std.specs.Prelude.{◌≡◌, ◌≢◌, Some, None};
ghost use Rattle.oram_wire.specs.HostMessages.{answer_body};
ghost use Rattle.oram_wire.specs.declared.host_messages.HostAnswer.{HostAnswer};
ghost use Rattle.oram_disk_host.specs.DiskNews.{news_of};

use oram_host::HostRefusal;
use oram_store::StoreFault;
use oram_wire::{REFUSED, is_done};
use std::cell::Cell;
use std::io;
use std::io::{Error, ErrorKind, Write};

/// Is told how the disk of a host is, after each answer that tells something of it.
pub trait DiskWatch {
    /// A request found no room on the disk.
    fn full(&self);

    /// A request that changes something was carried out.
    fn stored(&self);

    /// A call of the system has failed, so that the file has to be opened again.
    fn failed(&self);
}

/// What an answer tells of the disk.
#[derive(Clone, Copy, Debug, PartialEq, Eq)]
pub enum DiskNews {
    Full,
    Stored,
    Failed,
}

/// Returns what the bytes of an answer tell of the disk. `failure` is why there was no room, if the answer says that there is
/// none. The answer `Done` is that to a request that changes something.
pub(crate) fn disk_news(answer: &[u8], failure: Option<StoreFault>) -> Option<DiskNews>
    ensures stored { answer.now ≡ answer_body HostAnswer.Done → result ≡ Some DiskNews.Stored }
    ensures refused { answer.now ≡ answer_body (HostAnswer.Refused 8) → result ≡ news_of failure }
    ensures other { answer.now ≢ answer_body HostAnswer.Done → answer.now ≢ answer_body (HostAnswer.Refused 8) → result ≡ None }
{
    if is_done(answer) {
        return Some(DiskNews::Stored);
    }
    if answer != [REFUSED, HostRefusal::OutOfMemory.code()].as_slice() {
        return None;
    }
    match failure {
        Some(StoreFault::NoRoom) => Some(DiskNews::Full),
        Some(StoreFault::Io | StoreFault::Closed) => Some(DiskNews::Failed),
        _ => None,
    }
}

/// Prints a line when the disk has no room, and when it has room again. Remembers whether it has failed.
#[derive(Drop)]
pub(crate) struct DiskPrinter<'a, R> {
    rt: &'a R,
    file: &'a str,
    is_full: Cell<bool>,
    has_failed: Cell<bool>,
}

impl<'a, R> DiskPrinter<'a, R> {
    /// Makes the printer for the disk of this file.
    pub(crate) fn new(rt: &'a R, file: &'a str) -> DiskPrinter<'a, R> {
        DiskPrinter {
            rt,
            file,
            is_full: Cell::new(false),
            has_failed: Cell::new(false),
        }
    }
}

impl<'a, R: Eprint + AllocGlobal> DiskPrinter<'a, R> {
    fn print(&self, what: &str) {
        let file = self.file;
        if let Ok(line) = format!(in self.rt.alloc(); "oramdisk: {file} {what}\n") {
            let _passed_over = self.rt.eprint(line.as_str());
        }
    }
}

impl<'a, R: Eprint + AllocGlobal> DiskWatch for DiskPrinter<'a, R> {
    fn full(&self) {
        if !self.is_full.get() {
            self.is_full.set(true);
            self.print("has no room: make room on its disk");
        }
    }

    fn stored(&self) {
        if self.is_full.get() {
            self.is_full.set(false);
            self.print("has room again");
        }
    }

    fn failed(&self) {
        self.has_failed.set(true);
    }
}

/// Writes the answers of a host. Once the host's disk has failed, it writes nothing: the connection ends, and the client isn't told
/// that there is no room.
#[derive(Drop)]
pub(crate) struct AnswerWriter<'a, W, R> {
    writer: W,
    disk: &'a DiskPrinter<'a, R>,
}

impl<'a, W: Drop, R> AnswerWriter<'a, W, R> {
    pub(crate) fn new(writer: W, disk: &'a DiskPrinter<'a, R>) -> AnswerWriter<'a, W, R> {
        AnswerWriter { writer, disk }
    }
}

impl<'a, W: Write, R> Write for AnswerWriter<'a, W, R> {
    ghost contents = { λ w. W.contents w.writer };

    fn write(&mut self, buf: &[u8]) -> io::Result<usize> {
        if self.disk.has_failed.get() {
            return Err(Error::from(ErrorKind::BrokenPipe));
        }
        self.writer.write(buf)
    }

    fn flush(&mut self) -> io::Result<()> {
        self.writer.flush()
    }
}
