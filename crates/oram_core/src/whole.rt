//! A whole run: a formatting, and a step for each event.
ghost use Rattle.std.specs.Prelude.{◌≡◌, ◌⊎◌, ℕ, false, List, [], ◌<◌, length, map, OnOk, OnErr};
ghost use Rattle.oram_trace.specs.Tape.{ArePlacesApart};
ghost use Rattle.oram_semantics.specs.Law.{StepsAlong};
ghost use Rattle.oram_semantics.specs.Nonces.{AreNoncesApart};
ghost use Rattle.oram_semantics.specs.Run.{AllRight, shown_by};
ghost use Rattle.oram_core.specs.Core.{scheme_of, scheme_with};
ghost use Rattle.oram_core.specs.Runs.{setting_by, IsCarriedOut, IsCutShort};

use crate::machine::Core;
use crate::outcome::Run;
use oram_bucket::Sealer;
use oram_geometry::Device;
use oram_semantics::{Event, Reaction};
use oram_wire::ListSink;
use std::alloc::{AllocError, Global};

/// Formats a device and makes a step for each event. Ends as soon as memory runs out.
pub fn run<S: Sealer>(alloc: Global, device: Device, sealer: S, events: &[Event]) -> Run
    // Each reply is that of the plain array, in the order of submission. Each message shows the word at a place of the
    // tape that the addresses alone determine. Both hold until an answer shows two records with the same digest.
    ensures right { let v = scheme_with S.cipher device sealer in
        AllRight (setting_by v result.format.items) [] events.now (map shown_by result.reactions.items) }
    // No two commands show the same place of the tape.
    ensures places { (addresses : List ℕ) → ArePlacesApart device addresses }
    // No nonce is used for two buckets.
    ensures nonces { AreNoncesApart device }
    ensures complete { result.out_of_memory ≡ false → length result.reactions.items ≡ length events.now }
    ensures formatted { let v = scheme_with S.cipher device sealer in
        IsCutShort v result ⊎ IsCarriedOut v events.now result }
{
    let mut sink = ListSink::new(alloc);
    let mut reactions = Vec::new(alloc);
    let Ok(mut core) = Core::format(alloc, device, sealer, &mut sink) else {
        return Run {
            format: sink.into_bodies(),
            reactions,
            out_of_memory: true,
        };
    };
    let stepped = step_all(alloc, &mut core, events, &mut reactions);
    Run {
        format: sink.into_bodies(),
        reactions,
        out_of_memory: stepped.is_err(),
    }
}

/// Makes a step for each event and collects the reactions.
fn step_all<S: Sealer>(
    alloc: Global,
    core: &mut Core<S>,
    events: &[Event],
    reactions: &mut Vec<Reaction>,
) -> Result<(), AllocError>
    requires { reactions.old.items ≡ [] }
    ensures along { let v = scheme_of S.cipher core.old in
        StepsAlong v core.old.state events.now (map shown_by reactions.new.items) }
    ensures complete { OnOk result (length reactions.new.items ≡ length events.now) }
    ensures fewer { OnErr result (length reactions.new.items < length events.now) }
{
    for event in events {
        let reaction = core.step(alloc, event)?;
        reactions.push(reaction)?;
    }
    Ok(())
}
