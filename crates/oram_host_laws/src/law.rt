//! Laws about honest hosts.
ghost use Rattle.oram_host_laws.specs.Law.{HonestHostsServe, NewHostsServe};
ghost use Rattle.oram_host_laws.specs.AnyHost.{LyingHostsFail};

/// A law about definitions: over an honest host, a core that serves an array still serves it after any event, and
/// never fails.
pub fn honest_hosts_serve()
    ensures { HonestHostsServe }
{}

/// A law about definitions: over a host that kept nothing and took each message of the formatting, a new core serves an
/// array of zeros.
pub fn new_hosts_serve()
    ensures { NewHostsServe }
{}

/// A law about definitions: whatever a host answers, a core that serves an array still serves it or fails, unless an
/// answer shows two records with the same digest. The array is given by an honest host that receives the same
/// messages.
pub fn lying_hosts_fail()
    ensures { LyingHostsFail }
{}
