//! What is found at a name at which a new pair is to have a file.
ghost use Rattle.std.specs.Prelude.{◌≡◌, ◌↔◌, All, IsTrue};
ghost use Rattle.oram_pair.specs.Notes.{found_of};
ghost use Rattle.oram_pair.specs.Leftovers.{HasNewFront, HasNoEntry, IsLeftover, IsNew, IsOfFirst};

use crate::format::PairFormat;
use crate::fronts::{Identity, identity_in};
use crate::generations::{WHOLE_FRONT_LEN, newest_in};
use oram_redo::{FileKind, SHUT};

/// How many bytes a file of nothing but zeros may have to count as a leftover. A new log grows by a mebibyte of zeros before anything else is
/// written into it.
pub(crate) const LONGEST_BLANK: usize = 1 << 20;

/// The first generation of a log. No entry is written into it: another generation begins before the first entry.
const FIRST: u64 = 1;

/// What is at a name.
#[derive(Clone, Copy, Debug, PartialEq, Eq)]
pub enum Found {
    Nothing,
    /// A file that the making of a pair has left, which was broken off.
    Leftover,
    /// Anything else: another file, a folder, a link, a pipe or a device.
    Another,
}

impl Found {
    /// Returns the number that stands for this in a note.
    pub(crate) fn number(self) -> u64
        ensures { found_of result ≡ self }
    {
        match self {
            Found::Nothing => 1,
            Found::Leftover => 2,
            Found::Another => 3,
        }
    }
}

/// Returns whether a file is what a making that was broken off may have left at the name of a file of this kind. `bytes` are the first ones of
/// the file, more than [`LONGEST_BLANK`] of them, or all that it has.
pub(crate) fn is_leftover(format: &PairFormat, kind: FileKind, bytes: &[u8]) -> bool
    ensures { IsTrue result ↔ IsLeftover kind format.now bytes.now }
{
    is_new(format, kind, bytes) || (bytes.len() <= LONGEST_BLANK && is_blank(bytes))
}

/// Returns whether a file begins as a new one does.
fn is_new(format: &PairFormat, kind: FileKind, bytes: &[u8]) -> bool
    ensures { IsTrue result ↔ IsNew kind format.now bytes.now }
{
    match kind {
        FileKind::Records => has_new_front(&format.letters.records, bytes),
        FileKind::Log => {
            has_new_front(&format.letters.log, bytes)
                && has_no_entry(format.bounds.log_start, bytes)
        }
    }
}

/// Returns whether each byte is 0.
fn is_blank(bytes: &[u8]) -> bool
    ensures { IsTrue result ↔ All (λ byte. byte ≡ 0) bytes.now }
{
    bytes.iter().all(|byte| *byte == 0)
}

fn has_new_front(letters: &[u8; 16], bytes: &[u8]) -> bool
    ensures { IsTrue result ↔ HasNewFront letters.now bytes.now }
{
    match identity_in(letters, bytes) {
        Some(identity) => is_of_first(letters, &identity, bytes),
        None => false,
    }
}

fn is_of_first(letters: &[u8; 16], identity: &Identity, bytes: &[u8]) -> bool
    ensures { IsTrue result ↔ IsOfFirst letters.now identity.now bytes.now }
{
    if bytes.len() < WHOLE_FRONT_LEN {
        return true;
    }
    match newest_in(letters, identity, bytes) {
        Some(newest) => newest.number <= FIRST,
        None => true,
    }
}

fn has_no_entry(gate_at: u64, bytes: &[u8]) -> bool
    ensures { IsTrue result ↔ HasNoEntry gate_at bytes.now }
{
    bytes.len() as u64 <= gate_at || matches!(bytes[gate_at as usize], 0 | SHUT)
}
