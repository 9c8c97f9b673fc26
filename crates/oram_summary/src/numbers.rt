//! Numbers of a text, the most significant byte first.
ghost use Rattle.std.specs.Prelude.{◌≡◌, ◌++◌, ◌<◌, ◌^◌, ℕ, None, IfSome, OnOk, length, slice_index};
ghost use Rattle.std.specs.Int.{w64, to_be_bytes};
ghost use Rattle.std.specs.List.{flat_map};

use std::alloc::AllocError;

/// How many numbers a text begins with.
pub(crate) const COUNT: usize = 14;

/// Reads the number of eight bytes at the front, and returns the bytes after it. Returns `None` if there are fewer bytes.
fn split_long(bytes: &[u8]) -> Option<(u64, &[u8])>
    ensures some { IfSome result (λ x. bytes.now ≡ to_be_bytes w64 x.0 ++ x.1.now) }
    ensures fits { IfSome result (λ x. x.0 < 2 ^ 64) }
    ensures none { result ≡ None → length bytes.now < 8 }
{
    let (number, rest) = bytes.split_first_chunk::<8>()?;
    Some((u64::from_be_bytes(*number), rest))
}

/// Reads the numbers at the front of a text, and returns the bytes after them. Returns `None` if there are fewer bytes.
pub(crate) fn read_numbers<'a>(text: &'a [u8], numbers: &mut [u64; COUNT]) -> Option<&'a [u8]>
    ensures some { IfSome result (λ rest. text.now ≡ flat_map (to_be_bytes w64) numbers.new ++ rest.now) }
    ensures fit { (i : ℕ) → slice_index numbers.new i < 2 ^ 64 }
    ensures none { result ≡ None → length text.now < 112 }
{
    let mut rest = text;
    for i in 0..COUNT {
        let (number, after) = split_long(rest)?;
        numbers[i] = number;
        rest = after;
    }
    Some(rest)
}

/// Adds numbers to a text.
pub(crate) fn push_numbers(text: &mut Vec<u8>, numbers: &[u64; COUNT]) -> Result<(), AllocError>
    ensures { OnOk result (text.new.items ≡ text.old.items ++ flat_map (to_be_bytes w64) numbers.now) }
{
    for number in numbers {
        text.extend_from_slice(&number.to_be_bytes())?;
    }
    Ok(())
}
