//! The payload of the answer to a FETCH of levels.
ghost use Rattle.std.specs.Prelude.{◌≡◌, ◌≢◌, ◌*◌, ℕ, List, None, length, IfSome};
ghost use Rattle.oram_levels.specs.Messages.{levels_payload};

/// Returns how many records of `record_len` bytes a payload has, and the records one behind the other. Returns `None` if it isn't the
/// payload of such records.
pub fn split_levels(payload: &[u8], record_len: usize) -> Option<(u8, &[u8])>
    ensures some { IfSome result (λ found. (payload.now ≡ levels_payload found.0 found.1.now) × (length found.1.now ≡ found.0 * record_len)) }
    ensures none { result ≡ None → (count : ℕ) (records : List ℕ) → length records ≡ count * record_len → payload.now ≢ levels_payload count records }
{
    let (count, records) = payload.split_first()?;
    if records.len() as u128 != u128::from(*count) * record_len as u128 {
        return None;
    }
    Some((*count, records))
}
