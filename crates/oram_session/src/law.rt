//! Laws about sessions over honest hosts.
ghost use Rattle.oram_host.specs.Host.{Host};
ghost use Rattle.oram_session.specs.Honesty.{IsHonestLink, NewDevicesHoldZeros, SessionsAreTheArrays};
ghost use Rattle.oram_session.specs.Links.{DirectCall, FaultyCall};

use crate::link::Link;

/// A law about definitions: over a link to an honest host, the replies of a session are those of the plain array that
/// the device held, no command is refused because the device failed, and afterwards the device holds the array as the
/// commands change it.
pub fn sessions_are_the_arrays<L: Link>()
    ensures { SessionsAreTheArrays L.calls }
{}

/// A law about definitions: a device that was formatted over a link to an honest host which kept nothing before holds an
/// array of zeros.
pub fn new_devices_hold_zeros<L: Link>()
    ensures { NewDevicesHoldZeros L.calls }
{}

/// A law about definitions: a link to a server in memory leads to an honest host.
pub fn direct_links_are_honest()
    ensures { IsHonestLink DirectCall (λ l. l.host) }
{}

/// A law about definitions: a link with simulated faults is as honest as the link below it.
pub fn faulty_links_are_honest<L: Link>()
    ensures { (host_of : L → Host) → IsHonestLink L.calls host_of → IsHonestLink (FaultyCall L.calls) (λ l. host_of l.inner) }
{}
