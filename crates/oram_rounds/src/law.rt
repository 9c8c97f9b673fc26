//! Laws about links that hold STOREs back, and about processes with such a link.
ghost use Rattle.oram_rounds.specs.AheadInTurn.{AheadIsNotSent, AheadStaysInTurn, NothingAheadIsInTurn};
ghost use Rattle.oram_rounds.specs.Start.{SubmittedToProcesses, HeldIsSafe, SubmittedIsSafe};
ghost use Rattle.oram_rounds.specs.ReadingExample.{ReadingProcessExample};
ghost use Rattle.oram_rounds.specs.Examples.{NewProcessExample, OneWaitsExample};
ghost use Rattle.oram_rounds.specs.Files.{FilesTellOfOneProcess};
ghost use Rattle.oram_rounds.specs.Law.{AheadIsOfTheHost, CallsAreOfTheHostLater};
ghost use Rattle.oram_rounds.specs.Process.{ActsAreSafe, BegunIsSafe, EndsAreSafe, RepliesAreTheArrays};

use crate::batch::BatchLink;
use crate::keeper::Keeper;

/// A law about definitions. Suppose that a host takes part in the exchanges of a call and still has to carry out some STOREs.
/// Then the call is answered as that host will answer after them, honest or not as the host is, and the same holds of the
/// STOREs that wait after the call. So what is proved of a core over a host holds over a link that holds STOREs back.
pub fn calls_are_of_the_host_later<B: BatchLink>()
    ensures { CallsAreOfTheHostLater B.batches }
{}

/// A law about definitions: sending FETCHes ahead doesn't change what the host will hold, and each answer that is ahead, with the
/// records of the STOREs behind it, is what the host gives once it has carried these out. So [`calls_are_of_the_host_later`] holds of the calls that are
/// answered from them.
pub fn ahead_is_of_the_host<B: BatchLink>()
    ensures { AheadIsOfTheHost B.batches }
{}

/// A law about definitions: what is ahead at the link of a process are some of the FETCHes that its core asks for next, one behind the other,
/// whatever the process does, over a host that is honest or may lie. So a FETCH is ahead only if the core will ask for
/// it. It rests on `cores_ask_in_turn` in `oram_semantics`.
pub fn ahead_stays_in_turn<B: BatchLink, K: Keeper>()
    ensures { AheadStaysInTurn B.batches K.reads_back }
{}

/// A law about definitions: that holds of every core while nothing is ahead, so [`ahead_stays_in_turn`] begins there. It rests
/// on `sound_cores_are_in_turn` in `oram_core`.
pub fn nothing_ahead_is_in_turn<B>()
    ensures { NothingAheadIsInTurn B }
{}

/// A law about definitions: if all FETCHes that a core asks for next are ahead, then the first of them is answered from there
/// when the core asks for it, and nothing is sent.
pub fn ahead_is_not_sent<B: BatchLink>()
    ensures { AheadIsNotSent B.batches }
{}

/// A server that keeps a record of zeros, and a STORE of ones that waits, meet the premises of [`calls_are_of_the_host_later`] and
/// [`ahead_is_of_the_host`]: a FETCH is answered with the ones, also if it goes ahead of the STORE.
pub fn one_waits_example()
    ensures { OneWaitsExample }
{}

/// A law about definitions: a process's file has one list of STOREs and one core. So [`decode_kept`](crate::decode_kept) gives
/// back the process that was kept, and no other.
pub fn files_tell_of_one_process()
    ensures { FilesTellOfOneProcess }
{}

/// A law about definitions: a process is safe that begins with the core of a device that a host keeps, as a formatting
/// leaves both (`new_devices_hold_zeros_beside` in `oram_link_laws`), if nothing but this core is read back.
pub fn held_is_safe<B: BatchLink, K: Keeper>()
    ensures { HeldIsSafe B K.reads_back }
{}

/// A law about definitions: commands are submitted to the core of a process, one after the other, as
/// [`submit_all`](crate::submit_all) does it. Then they are submitted to the process, as [`submitted_is_safe`] requires, and
/// its link and its keeper stay as they are.
pub fn submitted_to_processes<B, K>()
    ensures { SubmittedToProcesses B K }
{}

/// A law about definitions: commands are submitted to a process. Then the device will hold the array after those that the
/// core has accepted, and what is read back will hold the array before them.
pub fn submitted_is_safe<B: BatchLink, K: Keeper>()
    ensures { SubmittedIsSafe B K.reads_back }
{}

/// A law about definitions: whatever a process does after its commands were submitted, over a host that is honest or may lie,
/// the device will hold the array once the commands that wait are carried out, and so will what is read back; or what is read
/// back will hold the array from before the last keeping. Where the host may lie the device may fail instead.
pub fn acts_are_safe<B: BatchLink, K: Keeper>()
    ensures { ActsAreSafe B.batches K.reads_back }
{}

/// A law about definitions: wherever a process ends, what is read back will hold one array or the other, whatever the host has
/// received by then of the STOREs that are kept and of the FETCHes that go with them.
pub fn ends_are_safe<B: BatchLink, K: Keeper>()
    ensures { EndsAreSafe B.batches K.reads_back }
{}

/// A law about definitions: a process that begins with what was read back is safe. So, with [`acts_are_safe`] and
/// [`ends_are_safe`], every later process is.
pub fn begun_is_safe<B: BatchLink, K: Keeper>()
    ensures { BegunIsSafe B K.reads_back }
{}

/// A law about definitions: the replies that a process gives are the array's, in the order of the commands. Where the host
/// may lie the device may fail; then all other commands are answered as failed.
pub fn replies_are_the_arrays<B: BatchLink, K: Keeper>()
    ensures { RepliesAreTheArrays B.batches K.reads_back }
{}

/// A process that begins with a device as it was formatted, over a server in memory, meets the premises of the laws about
/// processes: it is safe, and keeps itself.
pub fn new_process_example()
    ensures { NewProcessExample }
{}

/// A process to which a read of a block is submitted, over a server in memory, meets the premises of the laws about processes
/// with commands: it is safe, and keeps itself, and its FETCH goes ahead. Its core has a file, with which the next process
/// begins.
pub fn reading_process_example()
    ensures { ReadingProcessExample }
{}
