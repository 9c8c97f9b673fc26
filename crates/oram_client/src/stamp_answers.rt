//! The answers to a batch's messages and to its stamps, read one by one.
ghost use Rattle.std.specs.Prelude.{◌≡◌, OnOk, IfErr};
ghost use Rattle.oram_client.specs.Stamped.{IsPutFor};
ghost use Rattle.oram_client.specs.StampedStreams.{CountsAnswer, HearsBegun, HearsOwn, HearsStamp};
ghost use Rattle.oram_wire.specs.HostMessages.{done_answer};

use crate::awaited::Progress;
use crate::dialer::Trouble;
use crate::no_room::is_no_room;
use crate::timed_link::TimedLink;
use oram_rounds::BatchLink;
use oram_session::LinkFault;
use oram_sockets::WriteDuplex;
use oram_wire::is_done;
use std::alloc::Global;
use std::io::Read;
use std::rt::Clock;

/// Returns what the answer to a message that puts a stamp comes to.
fn is_put(answer: &[u8]) -> Result<(), Trouble>
    ensures ok { OnOk result (answer.now ≡ done_answer) }
    ensures err { IfErr result (λ trouble. IsPutFor answer.now trouble) }
{
    if is_no_room(answer) {
        return Err(Trouble::NoRoom);
    }
    if !is_done(answer) {
        return Err(Trouble::NoStamps);
    }
    Ok(())
}

/// Reads the next answer over a connection, which is the one to a message that puts a stamp. Fails if the host hasn't put it.
pub(crate) fn hear_stamp<S: Read + WriteDuplex<S>, C: Clock>(
    alloc: Global,
    line: &mut TimedLink<S, C>,
    message: &[u8],
) -> Result<(), Trouble>
    ensures { HearsStamp S.remaining S.contents message.now line.old result line.new }
{
    match line.next_answer(alloc, message) {
        Ok(answer) => is_put(&answer),
        Err(fault) => Err(Trouble::OutOfReach(fault)),
    }
}

/// Reads the answer to the message that puts the stamp of a batch as begun, if it is still to be read.
pub(crate) fn hear_begun<S: Read + WriteDuplex<S>, C: Clock>(
    alloc: Global,
    line: &mut TimedLink<S, C>,
    progress: &mut Progress,
) -> Result<(), Trouble>
    ensures { HearsBegun S.remaining S.contents line.old progress.old result line.new progress.new }
{
    match progress.begun.take() {
        Some(begun) => hear_stamp(alloc, line, &begun),
        None => Ok(()),
    }
}

/// Notes that one of a batch's own messages has this answer.
fn count_answer(progress: &mut Progress, answer: &[u8])
    ensures { CountsAnswer progress.old answer.now progress.new }
{
    progress.left = progress.left.saturating_sub(1);
    if is_no_room(answer) {
        progress.no_room = true;
    }
}

/// Reads the answer to one of a batch's own messages.
pub(crate) fn hear_own<S: Read + WriteDuplex<S>, C: Clock>(
    alloc: Global,
    line: &mut TimedLink<S, C>,
    progress: &mut Progress,
    body: &[u8],
) -> Result<Vec<u8>, Trouble>
    ensures { HearsOwn S.remaining S.contents line.old progress.old body.now result line.new progress.new }
{
    match line.next_answer(alloc, body) {
        Ok(answer) => {
            count_answer(progress, &answer);
            Ok(answer)
        }
        Err(fault) => Err(Trouble::OutOfReach(fault)),
    }
}
