//! The fields of a line.
ghost use Rattle.std.specs.Prelude.{◌≡◌, ◌==◌, ℕ, position, List, [], ◌∷◌, MatchOption};
ghost use Rattle.std.specs.Option.{option_copied};
ghost use Rattle.oramsim.specs.Lines.{fields_of, fields_left};

use std::marker::Model;

/// The fields of a line that are still to be read. One space separates two fields. It keeps no list of them, and finds
/// each when it is asked for.
#[derive(Drop)]
pub struct Fields<'a> {
    /// The bytes of these fields; `None` if no field is left.
    rest: Option<&'a [u8]>,
}

impl<'a> Model for Fields<'a> {
    ghost Value = { List (List ℕ) };

    ghost view = { λ f. fields_left (option_copied f.rest) };
}

/// Returns the position of the first space.
fn first_space(bytes: &[u8]) -> Option<usize>
    ensures { result ≡ position (λ b. b == 32) bytes.now }
{
    bytes.iter().position(|byte| *byte == b' ')
}

impl<'a> Fields<'a> {
    /// Returns all fields of a line.
    pub fn of(line: &'a [u8]) -> Fields<'a>
        ensures { result ≡ fields_of line.now }
    {
        Fields { rest: Some(line) }
    }

    /// Returns the first of these fields, and the fields after it.
    pub fn split_first(self) -> Option<(&'a [u8], Fields<'a>)>
        ensures { MatchOption result (self.entry ≡ []) (λ x. self.entry ≡ x.0.now ∷ x.1) }
    {
        let rest = self.rest?;
        match first_space(rest) {
            Some(at) => Some((
                &rest[..at],
                Fields {
                    rest: Some(&rest[at + 1..]),
                },
            )),
            None => Some((rest, Fields { rest: None })),
        }
    }
}
