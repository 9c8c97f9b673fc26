//! What the end of a connection means to the program, and how the program ends.

ghost use Rattle.std.specs.Prelude.{◌≡◌};
ghost use Rattle.oramd.specs.Endings as spec;

use crate::faults::Fault;
use oram_bucket::Sealer;
use oram_core::Core;
use oram_session::ServeFault;

/// Returns the fault with which the program ends if it can't go on after a connection has ended like this. A peer's
/// mistakes don't end the program.
pub fn after_serving(ended: Result<u64, ServeFault>) -> Result<(), Fault>
    ensures { result ≡ spec.after_serving ended }
{
    match ended {
        Ok(_)
        | Err(ServeFault::Read | ServeFault::Write | ServeFault::Frame | ServeFault::Truncated) =>
            Ok(()),
        Err(ServeFault::Stalled) => Err(Fault::Stalled),
        Err(ServeFault::OutOfMemory) => Err(Fault::OutOfMemory),
    }
}

/// Returns how the program ends after its sessions have ended and the state is saved. It reports a failed device only
/// if there is no other fault.
pub fn ending<S: Sealer>(core: &Core<S>, served: Result<(), Fault>) -> Result<(), Fault>
    ensures { result ≡ spec.ending served core.now.state.failure }
{
    served?;
    match core.failure() {
        Some(_) => Err(Fault::Failed),
        None => Ok(()),
    }
}
