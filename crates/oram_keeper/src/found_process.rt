//! A process that was found in files, and the table in it.
ghost use Rattle.std.specs.Prelude.{◌≡◌, ◌++◌, List, ℕ, IsTrue, All, ◌<◌, ◌^◌, length};
ghost use Rattle.std.specs.List.{flat_map};
ghost use Rattle.oram_keeper.specs.Process.{IsFoundIn};
ghost use Rattle.oram_kept.specs.Text.{Parts, number_bytes};

/// The text of a process that was found in files, and where its table stands.
#[derive(Drop)]
pub struct FoundProcess {
    /// The text up to its records.
    pub text: Vec<u8>,
    /// The records of the process's link, with which its text ends.
    pub records: Vec<u8>,
    /// How many bytes of the text stand before its table.
    pub table_at: usize,
    /// How many numbers the table has.
    pub table_len: usize,
}

/// Each number of a table has room in four bytes.
pub(crate) fn fit(_table: &[u32])
    ensures { All (λ n. n < 2 ^ 32) _table.now }
{}

/// Returns whether four bytes are this number, the high byte first.
#[tactic(auto, unfolding(oram_kept::specs::Text::number_bytes))]
fn are_of(four: &[u8], number: u32) -> bool
    requires { length four.now ≡ 4 }
    ensures { IsTrue result → number_bytes number ≡ four.now }
{
    u32::from_be_bytes([four[0], four[1], four[2], four[3]]) == number
}

/// Returns whether bytes begin with the numbers of a table.
fn begin_with(bytes: &[u8], table: &[u32]) -> bool
    ensures { IsTrue result → (rest : List ℕ) × (bytes.now ≡ flat_map number_bytes table.now ++ rest) }
{
    let mut rest = bytes;
    for number in table {
        let Some((four, behind)) = rest.split_at_checked(4) else {
            return false;
        };
        if !are_of(four, *number) {
            return false;
        }
        rest = behind;
    }
    true
}

impl FoundProcess {
    /// Returns whether this is the table in the text. Then whoever goes on with it has changed no entry since the text was kept.
    pub fn has_table(&self, table: &[u32]) -> bool
        ensures { (p : Parts) → IsFoundIn self.now p → IsTrue result → table.now ≡ p.table }
    {
        fit(table);
        match self.text.split_at_checked(self.table_at) {
            Some((_, rest)) => table.len() == self.table_len && begin_with(rest, table),
            None => false,
        }
    }
}
