//! Laws about a host beside a link, about STOREs that are sent again, and about records that are laid over a path.
ghost use Rattle.oram_link_laws.specs.Examples.{DirectSessionsAreRun, DirectSessionsAreStreamed, MendingExample, NewDeviceExample, OverlayExample, ResendingExample, SessionExample, StreamExample};
ghost use Rattle.oram_link_laws.specs.Repair.{ResentStoresMend, ResentStoresMendRuns};
ghost use Rattle.oram_link_laws.specs.Overlay.{LaidOverIsFetchedLater};
ghost use Rattle.oram_link_laws.specs.ResentStores.{ResentExchangesLeaveTheSame, ResentStoresAreTaken, ResentStoresGoThrough, ResentStoresLeaveOneHost, ResentStoresLeaveTheSame};
ghost use Rattle.oram_link_laws.specs.Runs.{BesideGivesInside, HonestLinksAreRun, NewDevicesHoldZerosBeside, SessionsAreTheArraysBeside, SessionsBesideHeardHosts};
ghost use Rattle.oram_link_laws.specs.Streamed.{StreamedSessionsAreTheArrays, StreamsAreRun};

use oram_session::Link;
use std::io::{Read, Write};

/// A law about definitions: a host that carried out a beginning of a list of STOREs, and then the whole list, has the
/// same records as a host that carried out the list once. Use it if it is known that the host stopped once in the list;
/// otherwise use [`resent_stores_mend`].
pub fn resent_stores_leave_the_same()
    ensures { ResentStoresLeaveTheSame }
{}

/// A law about definitions: as in [`resent_stores_leave_the_same`], and the two hosts are equal if the entries of both are
/// sorted by number, as a server keeps them. Use it to compare hosts as values.
pub fn resent_stores_leave_one_host()
    ensures { ResentStoresLeaveOneHost }
{}

/// A law about definitions: a host carried out a beginning of a list of STOREs, and the list is sent again. The host
/// answers each STORE with the answer that it has carried it out, or with the refusal that memory ran out (code 8). Use it
/// to exclude every other answer.
pub fn resent_stores_are_taken()
    ensures { ResentStoresAreTaken }
{}

/// A law about definitions: a host that carried out a beginning of a list of STOREs can carry out the whole list, if a host
/// could do so before. Use it where the host after the list has to exist, so that another law isn't vacuous.
pub fn resent_stores_go_through()
    ensures { ResentStoresGoThrough }
{}

/// A law about definitions: as in [`resent_stores_leave_the_same`], for hosts beside exchanges in which each STORE was
/// acknowledged. Use it if the outcomes of a link's calls are known, and not what its host did.
pub fn resent_exchanges_leave_the_same()
    ensures { ResentExchangesLeaveTheSame }
{}

/// A law about definitions: a host received some STOREs of a list, in any order and each any number of times; each was
/// carried out, refused or lost. Once the host has carried out the whole list, in order, it has the same records as a
/// host that carried out the list once. Use it for what is sent again after a crash: a second crash, while the list is
/// sent again, leaves such a host.
pub fn resent_stores_mend()
    ensures { ResentStoresMend }
{}

/// A law about definitions: as in [`resent_stores_mend`], where the host received the STOREs in exchanges of a link and
/// is honest or may lie. Use it if the exchanges before the crash are known.
pub fn resent_stores_mend_runs()
    ensures { ResentStoresMendRuns }
{}

/// A law about definitions: a path was fetched, and then the host carried out STOREs. The fetched bytes, with the records
/// of these STOREs laid over them, oldest first, are what a FETCH of the path gives now. Use it for a FETCH that was sent
/// ahead of STOREs.
pub fn laid_over_is_fetched_later()
    ensures { LaidOverIsFetchedLater }
{}

/// A law about definitions: whatever the link is, if a host keeps what the device holds and is honest in the exchanges of
/// a session, the session's replies are those of the plain array, and afterwards the host keeps the array as the commands
/// change it. Use it in place of `oram_session::sessions_are_the_arrays` for a link whose value doesn't determine its
/// host, such as a link over sockets.
pub fn sessions_are_the_arrays_beside<L: Link>()
    ensures { SessionsAreTheArraysBeside L.calls }
{}

/// A law about definitions: whatever the link is, if a device was formatted over it, and a host kept nothing before and
/// acknowledged each message of the formatting, that host keeps what the device holds: an array of zeros. Use it to begin
/// with a new device where [`sessions_are_the_arrays_beside`] goes on.
pub fn new_devices_hold_zeros_beside<L: Link>()
    ensures { NewDevicesHoldZerosBeside L.calls }
{}

/// A law about definitions: if a function of the link's value gives the honest host behind it, that host is honest in the
/// exchanges of every session. Use it to meet the premise of [`sessions_are_the_arrays_beside`] for such a link.
pub fn honest_links_are_run<L: Link>()
    ensures { HonestLinksAreRun L.calls }
{}

/// A law about definitions: [`sessions_are_the_arrays_beside`] gives `oram_session::sessions_are_the_arrays`. Use it to
/// prove a law only for hosts beside a link, and to have it for hosts in a link's value too.
pub fn beside_gives_inside<L: Link>()
    ensures { BesideGivesInside L.calls }
{}

/// A law about definitions: a session beside a host that receives each message and may lie is a session over the pair of the
/// link and that host, and the host is a function of this pair. Use it to apply a law about links that asks for such a function
/// to a host beside the link.
pub fn sessions_beside_heard_hosts<L: Link>()
    ensures { SessionsBesideHeardHosts L.calls }
{}

/// A law about definitions: if the bytes that a link's reader has left are a server's answers to the messages, that
/// server is an honest host in the exchanges, whatever their outcomes. Use it for a [`StreamLink`](oram_session::StreamLink)
/// over a reader whose bytes are known.
pub fn streams_are_run<R: Read, W: Write>()
    ensures { StreamsAreRun R.remaining W.contents }
{}

/// A law about definitions: as in [`streams_are_run`], and the replies of a session over such a link are those of the
/// array that the server keeps.
pub fn streamed_sessions_are_the_arrays<R: Read, W: Write>()
    ensures { StreamedSessionsAreTheArrays R.remaining W.contents }
{}

/// A law about definitions: over a link to a server in memory, the server is an honest host in the exchanges of every
/// session. So each session over [`Direct`](oram_session::Direct) meets the premise of [`sessions_are_the_arrays_beside`].
pub fn direct_sessions_are_run()
    ensures { DirectSessionsAreRun }
{}

/// A law about definitions: a session over a server in memory, in which each call has an answer, is also a session over a
/// reader with the frames of these answers. So it meets the premises of [`streamed_sessions_are_the_arrays`].
pub fn direct_sessions_are_streamed()
    ensures { DirectSessionsAreStreamed }
{}

/// Two STOREs, with numbers, that meet the premises of the laws up to [`resent_exchanges_leave_the_same`]: the host
/// carried out the first one, and then both.
pub fn resending_example()
    ensures { ResendingExample }
{}

/// The same STOREs meet the premises of [`resent_stores_mend`] and [`resent_stores_mend_runs`]: the host received the
/// first one twice, and its first answer was lost.
pub fn mending_example()
    ensures { MendingExample }
{}

/// A path and a STORE to another leaf that meet the premises of [`laid_over_is_fetched_later`].
pub fn overlay_example()
    ensures { OverlayExample }
{}

/// One FETCH, over a reader with the frame of its answer, meets the premises of [`streams_are_run`].
pub fn stream_example()
    ensures { StreamExample }
{}

/// A device of one block, with numbers, that meets the premises of [`new_devices_hold_zeros_beside`]: it was formatted
/// over a server in memory.
pub fn new_device_example()
    ensures { NewDeviceExample }
{}

/// The same device, and a session, meet the premises of [`sessions_are_the_arrays_beside`] and
/// [`sessions_beside_heard_hosts`]: the host holds the new device, and the session has one body, which is no request.
pub fn session_example()
    ensures { SessionExample }
{}
