//! Laws about all processes of a device, one after the other.
ghost use Rattle.oram_process_laws.specs.KeptCommands.{KeptCommandsFixMessages, NextFetchesAreOfCommands};
ghost use Rattle.oram_process_laws.specs.Lives.{LivesAreOneRun, MessagesAreOfOneRun};
ghost use Rattle.oram_process_laws.specs.LivesExample.{TwoLivesExample};
ghost use Rattle.oram_process_laws.specs.Replied.{OneTicketHasOneReply, RepliesAreOfOneRun};
ghost use Rattle.oram_process_laws.specs.WholeExample.{WholeExample};

use oram_rounds::{BatchLink, Keeper};

/// A law about definitions: whatever processes there are, each begun with what is read back where the one before ended, and
/// wherever each ends, one run leads from the formatted core to the core at each moment of each process. All that it
/// shows is right. What [`replies_are_of_one_run`] says of the replies goes beyond that, since the run leaves out what a
/// process did after its last keeping.
pub fn lives_are_one_run<B: BatchLink, K: Keeper>()
    ensures { LivesAreOneRun B.batches K.reads_back }
{}

/// A law about definitions: each message that leaves a process is one that the run has sent, or will send next: a STORE in the
/// file that is read back, the outstanding FETCH, or the first FETCH of a command that waits. Each STORE that has left any of
/// them is one that this run has sent. What is read back is a core that the run has reached, with all STOREs that may leave.
pub fn messages_are_of_one_run<B: BatchLink, K: Keeper>()
    ensures { MessagesAreOfOneRun B.batches K.reads_back }
{}

/// A law about definitions: each reply that any of these processes has given is to a command that this run has accepted. It is
/// the plain array's reply after the commands with lower tickets, or says that the device has failed. That holds also of the
/// replies that a process gave after its last keeping, though what it did then is no part of the run.
pub fn replies_are_of_one_run<B: BatchLink, K: Keeper>()
    ensures { RepliesAreOfOneRun B.batches K.reads_back }
{}

/// A law about definitions: so two replies with the same ticket are the same, whichever processes gave them, unless one of
/// them says that the device has failed.
pub fn one_ticket_has_one_reply()
    ensures { OneTicketHasOneReply }
{}

/// A law about definitions: if a run has no submission after some moment, all its messages are for the paths that the commands
/// from before and the tape fix, and a run that goes on from that moment has the same paths for these commands. In a round
/// nothing is submitted after the keeping. So the paths that a process has fetched when it ends in a round are those of the
/// commands that are read back, and the next process has the same ones to fetch.
pub fn kept_commands_fix_messages()
    ensures { KeptCommandsFixMessages }
{}

/// A law about definitions: the FETCHes that go ahead in a round, before the core asks for them, are messages of the commands
/// that the run has accepted. So their paths are fixed by these commands and the tape too, however the round goes on.
pub fn next_fetches_are_of_commands()
    ensures { NextFetchesAreOfCommands }
{}

/// Two processes over a server in memory meet the premises of the laws about lives. The first one begins with a device as it
/// was formatted, takes a read of its block, keeps itself and ends while its FETCH is sent. The second one begins with its
/// file, sends the FETCH ahead again, and its core asks for it then.
pub fn two_lives_example()
    ensures { TwoLivesExample }
{}

/// A whole command, over a server in memory, meets the premises of `acts_are_safe` and `replies_are_the_arrays` in
/// `oram_rounds` and of [`replies_are_of_one_run`]: the read of a block is submitted to the first process of a device, which is
/// safe, and kept, the host answers its FETCH, the core sends its STORE, and the process gives the array's reply.
pub fn whole_command_example()
    ensures { WholeExample }
{}
