//! The mode of a core: idle, failed, waiting or stalled.

ghost use Rattle.std.specs.Prelude.{◌≡◌};
ghost use Rattle.oram_state.specs.Parser.{Gives, mode_in};
ghost use Rattle.oram_state.specs.StateBytes.{mode_number, mode_of};

use crate::fault::StateFault;
use oram_core::Parts;

#[derive(Clone, Copy, Debug, PartialEq, Eq)]
pub(crate) enum Mode {
    /// No command waits for a reply.
    Idle,
    Failed,
    /// The message sent last waits for its answer.
    Waiting,
    /// The message sent last counts as lost.
    Stalled,
}

impl Mode {
    pub(crate) fn of(parts: &Parts) -> Mode
        ensures { result ≡ mode_of parts.now }
    {
        if parts.failure.is_some() {
            Mode::Failed
        } else if parts.waiting.is_empty() {
            Mode::Idle
        } else if parts.stalled {
            Mode::Stalled
        } else {
            Mode::Waiting
        }
    }

    pub(crate) fn number(self) -> u8
        ensures { result ≡ mode_number self }
    {
        match self {
            Mode::Idle => 0,
            Mode::Failed => 1,
            Mode::Waiting => 2,
            Mode::Stalled => 3,
        }
    }

    /// Returns the mode for this byte in a file of this version.
    pub(crate) fn read(version: u32, byte: u8) -> Result<Mode, StateFault>
        ensures { Gives (λ mode. mode) result (mode_in version byte) }
    {
        match (byte, version) {
            (0, _) => Ok(Mode::Idle),
            (1, _) => Ok(Mode::Failed),
            (2, 2) => Ok(Mode::Waiting),
            (3, 2) => Ok(Mode::Stalled),
            _ => Err(StateFault::Content),
        }
    }
}
