//! Answers of a host that has no room.
ghost use Rattle.std.specs.Prelude.{◌≡◌, ◌≢◌, MatchBool};
ghost use Rattle.oram_wire.specs.HostMessages.{no_room_answer};
ghost use Rattle.oram_link_laws.specs.Repair.{IsAmong};
ghost use Rattle.oram_rounds.specs.Batches.{texts};

use oram_host::HostRefusal;
use oram_wire::REFUSED;

/// Returns whether an answer says that the host has no room.
pub(crate) fn is_no_room(answer: &[u8]) -> bool
    ensures { MatchBool result (answer.now ≡ no_room_answer) (answer.now ≢ no_room_answer) }
{
    answer == [REFUSED, HostRefusal::OutOfMemory.code()].as_slice()
}

/// Returns whether one of the answers says that the host has no room.
pub(crate) fn has_no_room(answers: &[Vec<u8>]) -> bool
    ensures { MatchBool result (IsAmong no_room_answer (texts answers.now)) (¬ IsAmong no_room_answer (texts answers.now)) }
{
    for answer in answers {
        if is_no_room(answer) {
            return true;
        }
    }
    false
}
