//! What the program says when all goes well.

ghost use Rattle.std.specs.Prelude.{◌≡◌, IfOk, string_bytes};
ghost use Rattle.oram_settings.specs.Announcements as spec;

use crate::amounts::{amount_text, size_text};
use std::alloc::{AllocError, Global};

/// Returns what to do next, once the folder of a disk is made.
fn next_text(alloc: Global, folder: &str) -> Result<String, AllocError>
    ensures { IfOk result (λ text. string_bytes text ≡ spec.next_text folder.now) }
{
    format!(in alloc;
        "Next, once host.toml is at the rented machine, and a tunnel leads there (ssh -N -o StreamLocalBindUnlink=yes -L {folder}/buckets.sock:/home/you/buckets.sock you@rented):\n  there:  oramdisk host --new host.toml\n  here:   oramdisk format {folder}/disk.toml\n  here:   oramdisk serve {folder}/disk.toml\nClients of NBD then connect to nbd+unix:///?socket={folder}/disk.sock"
    )
}

/// Returns how many bytes the host stores of a disk at most, and how many its near records have.
fn room_text(alloc: Global, stored: u64, near: u64) -> Result<String, AllocError>
    ensures { IfOk result (λ text. string_bytes text ≡ spec.room_text stored near) }
{
    let stored = amount_text(alloc, stored)?;
    let stored = stored.as_str();
    let near = amount_text(alloc, near)?;
    let near = near.as_str();
    format!(in alloc;
        "its host will store up to about {stored} of it\noramdisk: the client keeps records of {near} itself"
    )
}

/// Returns what `new` prints once it has made the folder of a disk: what is in the folder, the commands that come next,
/// and where clients connect. `size` is the disk's size, `stored` is the most that its host will store of it, and `near` is what its near
/// records have; all are in bytes.
pub fn made_text(
    alloc: Global,
    folder: &str,
    size: u64,
    stored: u64,
    near: u64,
) -> Result<String, AllocError>
    ensures { IfOk result (λ text. string_bytes text ≡ spec.made_text folder.now size stored near) }
{
    let size = size_text(alloc, size)?;
    let size = size.as_str();
    let room = room_text(alloc, stored, near)?;
    let room = room.as_str();
    let next = next_text(alloc, folder)?;
    let next = next.as_str();
    format!(in alloc;
        "oramdisk: made {folder} for a disk of {size}: disk.toml with its key, which stays here, and host.toml for the rented machine\noramdisk: {room}\n{next}\n"
    )
}

/// Returns what is printed before a formatting begins: how many bytes of records it hashes.
pub fn begun_text(alloc: Global, stored: u64) -> Result<String, AllocError>
    ensures { IfOk result (λ text. string_bytes text ≡ spec.begun_text stored) }
{
    let stored = amount_text(alloc, stored)?;
    let stored = stored.as_str();
    format!(in alloc;
        "oramdisk: formatting: about {stored} of empty records are hashed here, and none of them is sent\n"
    )
}

/// Returns what a host prints when it serves a file of buckets at this address.
pub fn hosting_text(alloc: Global, file: &str, listen: &str) -> Result<String, AllocError>
    ensures { IfOk result (λ text. string_bytes text ≡ spec.hosting_text file.now listen.now) }
{
    format!(in alloc; "oramdisk: listening at {listen}, with the buckets in {file}\n")
}

/// Returns what `serve` prints once clients can connect at `uri` (NBD's uri.md) to a disk of `size` bytes.
pub fn serving_text(alloc: Global, size: u64, uri: &str) -> Result<String, AllocError>
    ensures { IfOk result (λ text. string_bytes text ≡ spec.serving_text size uri.now) }
{
    let size = size_text(alloc, size)?;
    let size = size.as_str();
    format!(in alloc; "oramdisk: serving a disk of {size} at {uri}\n")
}
