//! The records of a device.
ghost use Rattle.std.specs.Prelude.{◌≡◌, ◌<◌, ◌^◌};
ghost use Rattle.oram_core.specs.Core.{scheme_of};
ghost use Rattle.oram_semantics.specs.Scheme as scheme;

use oram_bucket::Sealer;
use oram_core::Core;

/// Returns the number of bytes of a record of the core's device.
pub fn record_len<S: Sealer>(core: &Core<S>) -> usize
    ensures value { result ≡ scheme.record_len (scheme_of S.cipher core.now) }
    ensures few { result < 2 ^ 32 }
{
    core.device().record_len(core.overhead())
}
