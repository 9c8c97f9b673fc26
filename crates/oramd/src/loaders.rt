//! Loads what the program has kept.

ghost use Rattle.std.specs.Prelude.{◌≡◌, IfErr, IfOk, OnOk};
ghost use Rattle.std.specs.Io.KnownBytes.{Consumes, IsAtEnd};
ghost use Rattle.oram_host.specs.Host.{IsHost};
ghost use Rattle.oram_host.specs.Image.{image};
ghost use Rattle.oram_host.specs.ImageReader.{IsFirstFault, host_in};
ghost use Rattle.oram_host.specs.declared.images.ImageFault.{ImageFault};
ghost use Rattle.oram_state.specs.DecodedCore.{IsFaultIn, IsSaved};
ghost use Rattle.oram_state.specs.declared.fault.StateFault.{StateFault};
ghost use Rattle.oramd.specs.ImageFaults.{IsImageFault};
ghost use Rattle.oramd.specs.LibraryFaults.{state_fault};

use crate::faults::{Fault, file_fault};
use oram_bucket::Sealer;
use oram_core::Core;
use oram_host::{ImageFault, Server};
use oram_state::decode_state;
use std::alloc::Global;
use std::io::Read;

/// Returns the program's fault for a fault of the image in the file `name`.
fn image_fault(alloc: Global, name: &str, why: ImageFault) -> Fault
    ensures { IsImageFault name.now why result }
{
    match why.number() {
        Some(number) => Fault::Image(number),
        None => match why {
            ImageFault::Io => file_fault(alloc, name),
            _ => Fault::OutOfMemory,
        },
    }
}

/// Loads the server from its image in the file `name`. The image is all that the reader holds.
pub fn load_host<R: Read>(alloc: Global, name: &str, reader: &mut R) -> Result<Server, Fault>
    ensures ok { IfOk result (λ server. Consumes (R.remaining reader.old) (R.remaining reader.new) (image server)) }
    ensures end { OnOk result (IsAtEnd (R.remaining reader.new)) }
    ensures host { IfOk result (λ server. IsHost server) }
    ensures fault { IfErr result (λ fault. (why : ImageFault) × IsImageFault name.now why fault
        × IsFirstFault host_in why (R.remaining reader.old)) }
{
    match Server::load_image(alloc, reader) {
        Ok(server) => Ok(server),
        Err(why) => Err(image_fault(alloc, name, why)),
    }
}

/// Loads the core from a state file. `sealer` has to be the one that it was saved with.
pub fn load_core<S: Sealer>(alloc: Global, sealer: S, file: &[u8]) -> Result<Core<S>, Fault>
    ensures sealer { IfOk result (λ c. c.sealer ≡ sealer) }
    ensures core { IfOk result (λ c. IsSaved file.now (S.cipher sealer).overhead c.device c.state) }
    ensures fault { IfErr result (λ fault. (why : StateFault) × (fault ≡ state_fault why)
        × IsFaultIn file.now (S.cipher sealer).overhead why) }
{
    Ok(decode_state(alloc, sealer, file)?)
}
