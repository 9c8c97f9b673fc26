//! Loads and saves a host's image file.

use crate::faults::Fault;
use crate::loaders::load_host;
use oram_cli::AtomicFile;
use oram_host::Server;
use std::alloc::Global;
use std::io::{BufReader, BufWriter, ErrorKind, Write};
use std::rt::Files;
use std::{fs, io};

/// Loads the server from its image file. If there is no file, it makes a server without trees.
pub(crate) fn load_image<R: Files + AllocGlobal>(
    rt: &R,
    kept: &AtomicFile,
) -> Result<Server, Fault> {
    let file = match fs::open(rt, kept.name()) {
        Ok(file) => file,
        Err(error) => {
            return if error.kind() == ErrorKind::NotFound {
                Ok(Server::new(rt.alloc()))
            } else {
                Err(Fault::from(kept.fault(rt.alloc(), &error)))
            };
        }
    };
    match BufReader::new(rt.alloc(), file) {
        Ok(mut reader) => load_host(rt.alloc(), kept.name(), &mut reader),
        Err(_) => Err(Fault::OutOfMemory),
    }
}

fn write_image<R: Files + AllocGlobal>(
    rt: &R,
    kept: &AtomicFile,
    server: &Server,
) -> io::Result<()> {
    let mut file = kept.begin(rt)?;
    put_image(rt.alloc(), &mut file, server)?;
    kept.finish(rt, &file)
}

/// Replaces the image file by the image of `server`.
pub(crate) fn save_image<R: Files + AllocGlobal>(
    rt: &R,
    kept: &AtomicFile,
    server: &Server,
) -> Result<(), Fault> {
    match write_image(rt, kept, server) {
        Ok(()) => Ok(()),
        Err(error) => Err(Fault::from(kept.fault(rt.alloc(), &error))),
    }
}

/// Writes the image through a buffer, or without one if there is no memory for it.
fn put_image<W: Write>(alloc: Global, writer: &mut W, server: &Server) -> io::Result<()> {
    if let Ok(mut buffered) = BufWriter::new(alloc, &mut *writer) {
        return put_all(&mut buffered, server);
    }
    put_all(writer, server)
}

fn put_all<W: Write>(writer: &mut W, server: &Server) -> io::Result<()> {
    if server.save_image(writer).is_err() {
        return Err(io::Error::from(ErrorKind::Other));
    }
    writer.flush()
}
