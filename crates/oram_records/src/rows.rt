//! The payload of an answer: a row for each node.
ghost use Rattle.std.specs.Prelude.{◌≡◌, ◌≢◌, ◌+◌, ◌*◌, ◌<◌, ◌≤◌, ◌++◌, ◌∷◌, [], ℕ, List, Option, None, Some, IfSome, MatchOption, length};
ghost use Rattle.oram_records.specs.Messages.{row_text};

use oram_wire::LONGEST_BODY;

/// The first byte of the row of a node that has no record.
const MISSING: u8 = 0;

/// The first byte of the row of a node that has a record, which follows.
const PRESENT: u8 = 1;

/// Returns the greatest number of nodes whose records, of `record_len` bytes each, fit into one answer.
pub fn most_rows(record_len: usize) -> usize
    requires { record_len < 1048576 }
    ensures fit { 1 + result * (record_len + 1) ≤ 1048576 }
    ensures most { 1048576 < 1 + (result + 1) * (record_len + 1) }
{
    (LONGEST_BODY - 1) / (record_len + 1)
}

/// Splits the first row off the rows of nodes whose records have `record_len` bytes: returns the node's record, if it has one, and the
/// rows after it. Returns `None` if the text begins with no row.
pub fn split_row(text: &[u8], record_len: usize) -> Option<(Option<&[u8]>, &[u8])>
    ensures some { IfSome result (λ row. MatchOption row.0 (text.now ≡ row_text None ++ row.1.now)
        (λ bytes. (length bytes.now ≡ record_len) × (text.now ≡ row_text (Some bytes.now) ++ row.1.now))) }
    ensures none { result ≡ None → (row : Option (List ℕ)) (rest : List ℕ) → IfSome row (λ bytes. length bytes ≡ record_len) → text.now ≢ row_text row ++ rest }
{
    let (kind, rest) = text.split_first()?;
    match *kind {
        MISSING => Some((None, rest)),
        PRESENT if rest.len() >= record_len => {
            let (bytes, rest) = rest.split_at(record_len);
            Some((Some(bytes), rest))
        }
        _ => None,
    }
}
