//! What is kept with a process of what it knows about its host's stamps.
//!
//! A note has the number of the keeping that it is kept by, and in the list of the stamps that the host may have, the place of the
//! one that it is known to have begun; each of these two numbers has eight bytes. The stamps follow, 16 bytes each, oldest first.
//! The first of them is the one that the host is known to have done. All numbers are big-endian.
ghost use Rattle.std.specs.Prelude.{◌≡◌, ◌++◌, [], ◌∷◌, ℕ, List, IfOk, IsErrOf, OnOk, OnErr};
ghost use Rattle.std.specs.List.{AllByRecursion, flat_map};
ghost use Rattle.oram_stamps.specs.Known.{Stamps};
ghost use Rattle.oram_stamps.specs.Note.{AreNotable, IsNote, known_from, note_text, restarted, text_of};
ghost use Rattle.oram_stamps.specs.Stamps.{AreNumbers, stamp_text};
ghost use Rattle.oram_stamps.specs.declared.stamp.Stamp.{Stamp};

use crate::known::Known;
use crate::stamp::{Stamp, next_number};
use std::alloc::{AllocError, Global};

/// Why some bytes can't be read as a note.
#[derive(Clone, Copy, Debug, PartialEq, Eq)]
pub enum NoteFault {
    /// They are no note.
    NotOurs,
    /// Memory ran out.
    OutOfMemory,
}

impl From<AllocError> for NoteFault {
    ghost use Rattle.oram_stamps.specs.declared.note.NoteFault.TheVariants.{OutOfMemory};

    ghost from_gives = { λ _ f. f ≡ OutOfMemory };

    fn from(_error: AllocError) -> NoteFault {
        NoteFault::OutOfMemory
    }
}

/// Adds stamps to a text.
fn push_stamps(text: &mut Vec<u8>, stamps: &[Stamp]) -> Result<(), AllocError>
    ensures added { OnOk result (text.new.items ≡ text.old.items ++ flat_map stamp_text stamps.now) }
    ensures fit { OnOk result (AllByRecursion AreNumbers stamps.now) }
{
    for stamp in stamps {
        stamp.push_to(text)?;
    }
    Ok(())
}

/// Returns the note of a process that is about to be kept. Fails only if memory runs out.
pub fn encode_note(alloc: Global, known: &Known) -> Result<Vec<u8>, AllocError>
    ensures text { IfOk result (λ v. v.items ≡ note_text known.now) }
    ensures notable { IfOk result (λ v. AreNotable known.now) }
{
    let mut note = Vec::new(alloc);
    note.extend_from_slice(&known.next_number().to_be_bytes())?;
    note.extend_from_slice(&known.begun_since_done().to_be_bytes())?;
    push_stamps(&mut note, known.since_done())?;
    Ok(note)
}

/// Adds a stamp to a list. If memory runs out, the list stays as it is.
fn push(stamps: &mut Vec<Stamp>, stamp: Stamp) -> Result<(), AllocError>
    ensures ok { OnOk result (stamps.new.items ≡ stamps.old.items ++ stamp ∷ []) }
    ensures err { OnErr result (stamps.new.items ≡ stamps.old.items) }
{
    match stamps.push(stamp) {
        Ok(()) => Ok(()),
        Err(error) => Err(AllocError::from(error)),
    }
}

/// Reads the stamps that take all of the bytes.
fn read_stamps(alloc: Global, bytes: &[u8]) -> Result<Vec<Stamp>, NoteFault>
    ensures ok { IfOk result (λ stamps. bytes.now ≡ flat_map stamp_text stamps.items) }
    ensures fit { IfOk result (λ stamps. AllByRecursion AreNumbers stamps.items) }
    ensures not_ours { IsErrOf result NoteFault.NotOurs → (stamps : List Stamp) → bytes.now ≡ flat_map stamp_text stamps → ⊥ }
{
    let mut stamps = Vec::new(alloc);
    let mut rest = bytes;
    for _ in 0..bytes.len() / 16 {
        let Some((stamp, behind)) = Stamp::read(rest) else {
            return Err(NoteFault::NotOurs);
        };
        push(&mut stamps, stamp)?;
        rest = behind;
    }
    if !rest.is_empty() {
        return Err(NoteFault::NotOurs);
    }
    Ok(stamps)
}

/// Reads the note of a process that was kept and has this check, and returns what the process knows that starts from
/// that file.
pub fn decode_note(alloc: Global, note: &[u8], check: u64) -> Result<Known, NoteFault>
    ensures ok { IfOk result (λ known. (number begun : ℕ) × (stamps : List Stamp) × (note.now ≡ text_of number begun stamps) × (known ≡ known_from number begun stamps check)) }
    ensures not_ours { IsErrOf result NoteFault.NotOurs → ¬ IsNote note.now }
    // Of the note of a process it makes what that process knew, and that the host may have the stamp of the file too.
    ensures same { (k : Stamps) → AreNotable k → note.now ≡ note_text k → IfOk result (λ known. known ≡ restarted k check) }
{
    let Some((number, rest)) = next_number(note) else {
        return Err(NoteFault::NotOurs);
    };
    let Some((begun, rest)) = next_number(rest) else {
        return Err(NoteFault::NotOurs);
    };
    let stamps = read_stamps(alloc, rest)?;
    Ok(Known::restarted(stamps, begun as usize, Stamp { number, check })?)
}
