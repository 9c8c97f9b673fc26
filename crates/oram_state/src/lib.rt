//! The state file of a client: the parts of a core that are kept between two runs of a program.
//!
//! A file begins with eight letters, a version and its own length, and ends with the SHA-256 digest (FIPS 180-4) of all
//! bytes before the digest. All numbers are big-endian. The fields between the length and the digest can also be written and
//! read alone, for a file that has a checksum of its own; they are written without the core's table, which may be large.
#![tactic(auto)]

ghost use Rattle.std.specs.Prelude.{◌≡◌, ◌↔◌, ◌<◌, ◌^◌, ℕ, List, All, Ok, length};
ghost use Rattle.oram_geometry.specs.declared.Sizes.{Sizes};
ghost use Rattle.oram_semantics.specs.State.{State};
ghost use Rattle.oram_core.specs.Parts.{Parts};
ghost use Rattle.oram_state.specs.AroundTable.{FieldsAreAroundTable};
ghost use Rattle.oram_state.specs.DecodedCore.{AreSavedFields, IsSaved};
ghost use Rattle.oram_state.specs.Parser.{state_in};
ghost use Rattle.oram_state.specs.WellSized.{IsFileOf};

mod around_table;
mod decoder;
mod encoder;
mod fault;
mod fields;
mod frame;
mod kept;
mod mode;
mod reader;
mod saved;
mod work;
mod writer;

pub use around_table::{AroundTable, encode_around_table, split_around_table};
pub use decoder::{decode_fields, decode_state};
pub use encoder::encode_state;
pub use fault::StateFault;

/// A law: reading a text of bytes gives a core's parts and a sealer's overhead exactly if the text is their file, in one
/// of the two versions.
pub fn files_are_exact()
    ensures { (text : List ℕ) (overhead : ℕ) (p : Parts) → All (λ b. b < 256) text → length text < 2 ^ 64
        → (state_in text ≡ Ok (record { overhead = overhead; parts = p }))
        ↔ ((version : ℕ) × IsFileOf text version overhead p) }
{}

/// A law: a text is the file of at most one core.
pub fn files_tell_of_one_core()
    ensures { (text : List ℕ) (overhead : ℕ) (d d' : Sizes) (s s' : State) → length text < 2 ^ 64
        → IsSaved text overhead d s → IsSaved text overhead d' s' → (d ≡ d') × (s ≡ s') }
{}

/// A law: a text is the fields of at most one core.
pub fn fields_tell_of_one_core()
    ensures { (text : List ℕ) (overhead : ℕ) (d d' : Sizes) (s s' : State) → AreSavedFields text overhead d s
        → AreSavedFields text overhead d' s' → (d ≡ d') × (s ≡ s') }
{}

/// A law: the fields of a core are those before its table, the table, and those after it.
pub fn fields_are_around_table()
    ensures { FieldsAreAroundTable }
{}
