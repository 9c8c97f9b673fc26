//! Formats a device over a link to its host.
ghost use Rattle.std.specs.Prelude.{◌≡◌, ◌≢◌, [], ◌∷◌, Err, IfOk, IfErr};
ghost use Rattle.oram_tree.specs.Format.{IsBrokenOff};
ghost use Rattle.oram_semantics.specs.Formatting.{IsFormatBegun};
ghost use Rattle.oram_core.specs.Core.{scheme_with};
ghost use Rattle.oram_core.specs.Formatting.{IsNew};
ghost use Rattle.oram_session.specs.Formatting.{TakesMessage, RefusesMessage};

use crate::link::{Link, LinkFault};
use oram_bucket::Sealer;
use oram_core::Core;
use oram_geometry::Device;
use oram_tree::FormatFault;
use oram_wire::{Sink, SinkFault, is_done};
use std::alloc::Global;

/// A link as a sink for the messages that format its host.
struct LinkSink<'a, L> {
    alloc: Global,
    link: &'a mut L,
}

impl From<LinkFault> for SinkFault {
    ghost use Rattle.oram_session.specs.Formatting.{sink_fault};

    ghost from_gives = { λ why fault. fault ≡ sink_fault why };

    fn from(why: LinkFault) -> SinkFault {
        match why {
            LinkFault::OutOfMemory => SinkFault::OutOfMemory,
            _ => SinkFault::Link,
        }
    }
}

impl<L: Link> Sink for LinkSink<'_, L> {
    ghost putting = { λ old body new. (new.link.ghost_name ≡ old.link.ghost_name)
        × TakesMessage L.calls old.link.now body new.link.now };

    ghost refusing = { λ old body fault new. (new.link.ghost_name ≡ old.link.ghost_name)
        × RefusesMessage L.calls old.link.now body fault new.link.now };

    fn put(&mut self, body: &[u8]) -> Result<(), SinkFault> {
        let answer = self.link.call(self.alloc, body)?;
        if !is_done(&answer) {
            return Err(SinkFault::Refused);
        }
        Ok(())
    }
}

/// Formats a device on the host at the end of the link, and returns the device's core. Each message is one call, and the
/// host must answer it with `80` alone.
///
/// Any other answer gives the fault `Refused`, including the answer that the host has no room. A fault of the link gives
/// `Link`, except that out of memory is reported as such. The first fault ends the formatting, and the host keeps what it has
/// taken so far.
pub fn format_device<S: Sealer, L: Link>(
    alloc: Global,
    device: Device,
    sealer: S,
    link: &mut L,
) -> Result<Core<S>, FormatFault>
    ensures device { IfOk result (λ c. c.device ≡ device) }
    ensures sealer { IfOk result (λ c. c.sealer ≡ sealer) }

    // The messages that make the device's trees went over the link, the host took each, and the core is new.
    ensures made { let v = scheme_with S.cipher device sealer in
        IfOk result (λ c. IsNew v (TakesMessage L.calls) link.old c.state link.new) }

    // A beginning of these messages went over the link; then memory ran out elsewhere, or the next message wasn't taken.
    ensures broken_off { let v = scheme_with S.cipher device sealer in
        IfErr result (λ fault. IsBrokenOff (TakesMessage L.calls) (RefusesMessage L.calls) (IsFormatBegun v) link.old fault link.new) }
    ensures memory { result ≢ Err (FormatFault.Sink SinkFault.OutOfMemory) }
{
    let mut sink = LinkSink { alloc, link };
    let formatted = Core::format(alloc, device, sealer, &mut sink);
    let LinkSink { alloc: _, link } = sink;
    // The proof needs this use of the link.
    let _ = &*link;
    formatted
}
