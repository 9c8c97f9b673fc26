//! The image of a host: a file that holds its trees.

ghost use Rattle.std.specs.Prelude.{◌≡◌, ◌↔◌, ◌<◌, ℕ, List, All, Ok};
ghost use Rattle.oram_host.specs.declared.images.ImageFault.TheVariants.{OutOfMemory};
ghost use Rattle.oram_host.specs.ImageReader.{fault_number, host_in};
ghost use Rattle.oram_host.specs.Host.{Host, IsHost};
ghost use Rattle.oram_host.specs.Image.{image};

mod fields;
mod reader;
mod writer;

pub(crate) use reader::load_trees;
use std::alloc::{AllocError, AllocFailed};
pub(crate) use writer::save_trees;

/// Why an image could not be saved or loaded.
#[derive(Clone, Copy, Debug, PartialEq, Eq)]
pub enum ImageFault {
    /// The file doesn't begin with the eight letters.
    Magic,
    /// The version isn't known.
    Version,
    /// The file ends too early, or goes on after the image.
    Length,
    /// The file holds something that no host keeps.
    Content,
    /// The reader or the writer failed.
    Io,
    /// There was not enough memory.
    OutOfMemory,
}

const MAGIC: [u8; 8] = *b"ORAMHOST";

const VERSION: u32 = 1;

/// A list of bytes is read as a host if and only if it is the image of that host.
pub fn images_are_exact()
    ensures { (text : List ℕ) (host : Host) → All (λ b. b < 256) text
        → (host_in text ≡ Ok host) ↔ (IsHost host × (text ≡ image host)) }
{}

impl ImageFault {
    /// Returns the number by which programs name the fault, from 1 to 4 in the order above. `Io` and
    /// `OutOfMemory` have none.
    pub fn number(self) -> Option<u8>
        ensures { result ≡ fault_number self }
    {
        match self {
            ImageFault::Magic => Some(1),
            ImageFault::Version => Some(2),
            ImageFault::Length => Some(3),
            ImageFault::Content => Some(4),
            ImageFault::Io | ImageFault::OutOfMemory => None,
        }
    }
}

impl From<AllocError> for ImageFault {
    ghost from_gives = { λ _ why. why ≡ OutOfMemory };

    fn from(_error: AllocError) -> ImageFault {
        ImageFault::OutOfMemory
    }
}

impl<T: Drop> From<AllocFailed<T>> for ImageFault {
    ghost from_gives = { λ _ why. why ≡ OutOfMemory };

    fn from(_error: AllocFailed<T>) -> ImageFault {
        ImageFault::OutOfMemory
    }
}
