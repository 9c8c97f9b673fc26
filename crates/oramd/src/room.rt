//! Memory for saving a state, taken before there is anything to save.

ghost use Rattle.std.specs.Prelude.{◌≡◌, OnOk};

use oram_bucket::Sealer;
use oram_core::Core;
use oram_session::Tape;
use oram_state::encode_state;
use std::alloc::{AllocError, Global};

/// The number of commands that room is taken for at a time.
const COMMANDS: u32 = 64;

/// The bytes for what doesn't grow: a message, the command that waits for its answer, and the allocator's needs.
const MARGIN: usize = 3 << 20;

/// The bytes that the allocator needs besides each of two copies of a block.
const BESIDE_A_BLOCK: usize = 64;

/// Takes the room that saving the present state of this core needs.
fn room_for<S: Sealer>(alloc: Global, core: &Core<S>) -> Result<Vec<u8>, AllocError> {
    let file = encode_state(alloc, core)?;
    // The file, and the copy of the core's parts from which it is written.
    Vec::with_capacity(alloc, file.len().saturating_mul(4).saturating_add(MARGIN))
}

/// A tape that holds room for saving the state of its device, and takes more before a command that may need it.
///
/// A proxy saves its state when it ends, even if it ends because it is out of memory. Otherwise the next proxy would go on from
/// an old state, while the host's records are newer. So a command for which there is no room gets no words, and isn't accepted.
#[derive(Drop)]
pub(crate) struct RoomyTape<T> {
    tape: T,
    held: Vec<u8>,
    /// How many more commands there is room for.
    commands: u32,
    /// The bytes that a command may add to the saved state and to the copy of it.
    growth: usize,
}

impl<T: Drop> RoomyTape<T> {
    /// Takes the room that saving the present state of this core needs.
    pub(crate) fn new<S: Sealer>(
        alloc: Global,
        tape: T,
        core: &Core<S>,
    ) -> Result<RoomyTape<T>, AllocError> {
        let device = core.device();
        let block = device.block_bytes().saturating_add(BESIDE_A_BLOCK);
        Ok(RoomyTape {
            tape,
            held: room_for(alloc, core)?,
            commands: 0,
            // A command adds at most one block to the stash of each tree.
            growth: usize::from(device.trees()).saturating_mul(2 * block),
        })
    }

    /// Takes the room that saving the present state of this core needs, in place of all that it holds. What earlier commands
    /// might have added to the stashes has long left them, so between two sessions there is less to hold.
    pub(crate) fn renew<S: Sealer>(
        &mut self,
        alloc: Global,
        core: &Core<S>,
    ) -> Result<(), AllocError>
        ensures tape { self.new.tape ≡ self.old.tape }
    {
        self.held = room_for(alloc, core)?;
        self.commands = 0;
        Ok(())
    }

    /// Takes the room for [`COMMANDS`] further commands.
    fn grow(&mut self, alloc: Global) -> Result<(), AllocError>
        ensures tape { self.new.tape ≡ self.old.tape }
        ensures room { OnOk result (self.new.commands ≡ COMMANDS) }
    {
        let more = self.growth.saturating_mul(COMMANDS as usize);
        self.held = Vec::with_capacity(alloc, self.held.capacity().saturating_add(more))?;
        self.commands = COMMANDS;
        Ok(())
    }
}

impl<T: Tape + Drop> Tape for RoomyTape<T> {
    ghost words = { λ t. T.words t.tape };

    fn draw(&mut self, alloc: Global, ticket: u64, count: usize) -> Result<Vec<u64>, AllocError> {
        if self.commands == 0 {
            self.grow(alloc)?;
        }
        self.commands -= 1;
        self.tape.draw(alloc, ticket, count)
    }
}
