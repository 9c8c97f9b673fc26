//! The generation of a pair's log: how many times the log was begun. The fronts of both files say it, so that an older log
//! beside a newer file is told, and a newer log beside an older file.
ghost use Rattle.std.specs.Prelude.{◌≡◌, ◌⊎◌, ◌++◌, ◌<◌, ◌+◌, ◌-◌, ◌*◌, ◌%◌, ◌^◌, ℕ, length, None, IfErr, IfNone, IfSome, OnErr, OnOk};
ghost use Rattle.oram_pair.specs.Generations.{IsNewest, IsNewestOf, Says, field_bytes};
ghost use Rattle.oram_pair.specs.Fronts.{eight_bytes, front_bytes};
ghost use Rattle.oram_redo.specs.FilePair.{ComesAfter, HasCause, IsSure, WritesNothing};

use crate::format::PairLetters;
use crate::fronts::{Identity, front_of};
use crate::numbers::eight_bytes_in;
use oram_redo::{FilePair, RedoError, check_of, write_fronts};

/// The number of bytes at the beginning of a file that say what it is, and which generation of the log it has seen last.
pub const WHOLE_FRONT_LEN: usize = 64;

/// Where the first of the two fields begins, and the second.
const FIRST_AT: usize = 32;

const SECOND_AT: usize = 48;

/// The length of a field: a number and its checksum, of eight bytes each.
const FIELD_LEN: usize = 16;

/// A generation of the log, of the two files with this identity.
#[derive(Clone, Copy, Debug, PartialEq, Eq)]
pub struct Generation {
    pub identity: Identity,
    pub number: u64,
}

/// What the front of a file says of the log's generation.
#[derive(Clone, Copy, Debug, PartialEq, Eq)]
pub struct Newest {
    /// The greatest number that a sound field says.
    pub number: u64,
    /// Whether both fields are sound. A crash spoils one of them at most, while it is written.
    pub is_whole: bool,
}

/// Returns what the checksum of a generation's field is of.
fn text_of(letters: &[u8; 16], generation: &Generation) -> [u8; 40]
    ensures { result ≡ front_bytes letters.now generation.now.identity ++ eight_bytes generation.now.number }
{
    let mut text = [0; 40];
    text[..32].copy_from_slice(&front_of(letters, &generation.identity));
    text[32..].copy_from_slice(&generation.number.to_le_bytes());
    text
}

impl Generation {
    /// Returns the generation of the log of new files. Their fronts say the one before it, too, so both fields are sound.
    pub fn first(identity: Identity) -> Generation
        ensures { result ≡ record { identity = identity; number = 1 } }
    {
        Generation {
            identity,
            number: 1,
        }
    }

    /// Returns the generation before this one.
    pub fn before(&self) -> Generation
        ensures { result ≡ record { identity = self.now.identity; number = self.now.number - 1 } }
    {
        Generation {
            identity: self.identity,
            number: self.number.saturating_sub(1),
        }
    }

    /// Returns the generation after this one. No log gets as far as the last one.
    pub fn next(&self) -> Generation
        ensures { self.now.number + 1 < 2 ^ 64 → result ≡ record { identity = self.now.identity; number = self.now.number + 1 } }
    {
        Generation {
            identity: self.identity,
            number: self.number.saturating_add(1),
        }
    }

    /// Returns the place of this generation's field in both files. The field of the generation before is the other one, so a
    /// crash that tears this one leaves that.
    pub fn place(&self) -> u64
        ensures { result ≡ 32 + 16 * (self.now.number % 2) }
    {
        (FIRST_AT as u64) + (FIELD_LEN as u64) * (self.number % 2)
    }

    /// Returns the field that says this generation in the front of the file with these letters.
    pub fn field(&self, letters: &[u8; 16]) -> [u8; 16]
        ensures { result ≡ field_bytes letters.now self.now.identity self.now.number }
    {
        let mut field = [0; FIELD_LEN];
        field[..8].copy_from_slice(&self.number.to_le_bytes());
        field[8..].copy_from_slice(&check_of(&text_of(letters, self)));
        field
    }

    /// Has the fronts of both files say this generation, first that of the log, and syncs each of them. No clause says what fronts hold.
    pub fn say<F: FilePair>(&self, letters: &PairLetters, files: &mut F) -> Result<(), RedoError>
        ensures nothing_written { WritesNothing F.model files.old files.new }
        ensures sure { OnOk result ((file : _) → IsSure F.model file files.new) }
        ensures cause { HasCause F.model files.old files.new result }
        ensures errors { IfErr result (λ e. (e ≡ RedoError.NoRoom) ⊎ (e ≡ RedoError.Failed)) }
        ensures after { ComesAfter F.model files.old files.new }
    {
        let (log, records) = (self.field(&letters.log), self.field(&letters.records));
        write_fronts(files, self.place(), &log, &records)
    }

    /// Begins the next generation of a log that has no entries: has both fronts say it, and becomes it. The log's front says it first: so
    /// what a crash leaves is a file and a log of one generation, or a log without entries that is one ahead. After an error this is
    /// the generation that it was; if there was no room, the next call tries again.
    pub fn begin_next<F: FilePair>(
        &mut self,
        letters: &PairLetters,
        files: &mut F,
    ) -> Result<(), RedoError>
        ensures next { OnOk result (self.old.number + 1 < 2 ^ 64 → self.new ≡ record { identity = self.old.identity; number = self.old.number + 1 }) }
        ensures stays { OnErr result (self.new ≡ self.old) }
        ensures nothing_written { WritesNothing F.model files.old files.new }
        ensures sure { OnOk result ((file : _) → IsSure F.model file files.new) }
        ensures cause { HasCause F.model files.old files.new result }
        ensures errors { IfErr result (λ e. (e ≡ RedoError.NoRoom) ⊎ (e ≡ RedoError.Failed)) }
        ensures after { ComesAfter F.model files.old files.new }
    {
        let next = self.next();
        next.say(letters, files)?;
        *self = next;
        Ok(())
    }
}

/// Returns the number in a field of a file with these letters, if the field is sound.
fn number_in(letters: &[u8; 16], identity: &Identity, field: &[u8]) -> Option<u64>
    requires { length field.now ≡ 16 }
    ensures sound { IfSome result (λ number. (number < 2 ^ 64) × (field.now ≡ field_bytes letters.now identity.now number)) }
    ensures spoilt { IfNone result ((number : ℕ) → number < 2 ^ 64 → field.now ≡ field_bytes letters.now identity.now number → ⊥) }
{
    let number = eight_bytes_in(&field[..8]);
    let generation = Generation {
        identity: *identity,
        number,
    };
    if field == &generation.field(letters)[..] {
        Some(number)
    } else {
        None
    }
}

/// Returns what two fields say together.
fn newest_of(first: Option<u64>, second: Option<u64>) -> Option<Newest>
    ensures some { IfSome result (IsNewestOf first second) }
    ensures none { IfNone result ((first ≡ None) × (second ≡ None)) }
{
    match (first, second) {
        (Some(one), Some(other)) => Some(Newest {
            number: one.max(other),
            is_whole: true,
        }),
        (Some(number), None) | (None, Some(number)) => Some(Newest {
            number,
            is_whole: false,
        }),
        (None, None) => None,
    }
}

/// Returns what the front of a file with these letters and this identity says of the log's generation. Returns `None` if neither field
/// is sound, or `front` has fewer than 64 bytes.
pub fn newest_in(letters: &[u8; 16], identity: &Identity, front: &[u8]) -> Option<Newest>
    ensures newest { IfSome result (IsNewest letters.now identity.now front.now) }
    ensures none { IfNone result ((length front.now < 64) ⊎ ((number : ℕ) → Says letters.now identity.now front.now number → ⊥)) }
{
    if front.len() < WHOLE_FRONT_LEN {
        return None;
    }
    newest_of(
        number_in(letters, identity, &front[FIRST_AT..SECOND_AT]),
        number_in(letters, identity, &front[SECOND_AT..WHOLE_FRONT_LEN]),
    )
}
