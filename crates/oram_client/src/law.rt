//! Laws about batches over connections that lead to one host.
ghost use Rattle.oram_client.specs.OneHost.{AnswersAreTheHosts, ExchangesAreOfOneHost, ExchangesAreOfTheTries, FaultsAreOfMemory, StreamBatchesAreRun, StreamBatchesReachTheHost, TwoTriesExample};
ghost use Rattle.oram_client.specs.Reconnect.{dialer_kind};
ghost use Rattle.oram_client.specs.StampedHost.{PathMessagesAreAboutOthers, StampedBatchExample, StampedBatchesReachTheHost};
ghost use Rattle.oram_client.specs.TreesApart.{TreesApartExample, TreesAreApart};

use crate::dialer::Dial;
use std::io::{Read, Write};

/// A law about definitions: the exchanges of a batch over a [`ReconnectLink`](crate::ReconnectLink) are those of its tries,
/// each a batch over one connection; of a batch whose answers are taken one by one there is one try. So if all connections lead to one host, which takes part in the exchanges of the tries,
/// one after the other, then that host takes part in those of the whole batch, and the laws about links and their hosts hold of
/// it.
pub fn exchanges_are_of_the_tries<D: Dial>()
    ensures { ExchangesAreOfTheTries (dialer_kind D.opens D.fails D.pauses D.reads D.carries) }
{}

/// A law about definitions: the answers that such a link gives are those of the host beside it, to all messages of the batch in
/// their order. In the tries before, the host may have received any of these messages, and no others. None of these answers
/// says that the host has no room, unless the link has given up, or they were taken one by one.
pub fn answers_are_the_hosts<D: Dial>()
    ensures { AnswersAreTheHosts (dialer_kind D.opens D.fails D.pauses D.reads D.carries) }
{}

/// A law about definitions: such a link returns a fault only if it has given up, or if memory ran out. A batch whose answers are taken one by
/// one may break off otherwise too; then its caller sends it again.
pub fn faults_are_of_memory<D: Dial>()
    ensures { FaultsAreOfMemory (dialer_kind D.opens D.fails D.pauses D.reads D.carries) }
{}

/// A law about definitions: all connections that a [`ReconnectLink`](crate::ReconnectLink) opens lead to one host, including
/// those that break off. Then the exchanges of a batch over it are those of that host, from connection to connection, and
/// afterwards the link leads to the host again.
pub fn exchanges_are_of_one_host<D: Dial>()
    ensures { ExchangesAreOfOneHost (dialer_kind D.opens D.fails D.pauses D.reads D.carries) }
{}

/// A law about definitions: a batch goes over a [`StreamBatches`](crate::StreamBatches) whose reader is known to give a host's
/// answers to the first messages, or a beginning of them. Then that host is honest in the exchanges of the batch, however the
/// batch ends. So a connection that breaks off leads to its host as [`exchanges_are_of_one_host`] requires.
pub fn stream_batches_reach_the_host<R: Read, W: Write>()
    ensures { StreamBatchesReachTheHost R.remaining W.contents }
{}

/// A law about definitions: a batch goes over a [`StreamBatches`](crate::StreamBatches) whose reader is known to give a
/// server's answers to the messages. Then that server is honest in the exchanges of the batch, even if the batch has a fault.
pub fn stream_batches_are_run<R: Read, W: Write>()
    ensures { StreamBatchesAreRun R.remaining W.contents }
{}

/// A STORE and a FETCH go to the host of a small device in one batch. The first connection breaks off after the answer to
/// the STORE, and the second one answers both. All connections lead to the host, so the premises of the laws about batches
/// over a link hold.
pub fn two_tries_example()
    ensures { TwoTriesExample }
{}

/// A law about definitions: a host that is honest in some exchanges is also honest in those of them that aren't about one of its trees,
/// whatever that tree keeps, and the other trees become the same.
pub fn trees_are_apart()
    ensures { TreesAreApart }
{}

/// A law about definitions: a batch that goes between its stamps, over a connection that leads to an honest host, has the exchanges of a
/// host to which no stamps were put, also if it stops since the host refuses the first stamp. So the laws about links and their hosts hold of a host without its stamps' tree.
pub fn stamped_batches_reach_the_host<S: Read + Write>()
    ensures { StampedBatchesReachTheHost S.remaining S.contents }
{}

/// A law about definitions: the FETCHes and STOREs of a device's paths are about other trees than the stamps', as
/// [`stamped_batches_reach_the_host`] requires.
pub fn path_messages_are_about_others()
    ensures { PathMessagesAreAboutOthers }
{}

/// A host with stamps is sent a stamp and a FETCH, and one without them the FETCH alone: the premises of [`trees_are_apart`] hold.
pub fn trees_apart_example()
    ensures { TreesApartExample }
{}

/// A FETCH goes between its stamps to a host of a small device: the premises of [`stamped_batches_reach_the_host`] hold.
pub fn stamped_batch_example()
    ensures { StampedBatchExample }
{}
