//! Numbers at the front of some bytes.
ghost use Rattle.std.specs.Prelude.{◌≡◌, ◌++◌, ◌<◌, ◌^◌, None, IfSome, length};
ghost use Rattle.std.specs.Int.{w32, w64, to_be_bytes};

/// Reads the number of eight bytes at the front, and returns the bytes after it. Returns `None` if there are fewer bytes.
pub(crate) fn split_long(bytes: &[u8]) -> Option<(u64, &[u8])>
    ensures some { IfSome result (λ x. bytes.now ≡ to_be_bytes w64 x.0 ++ x.1.now) }
    ensures fits { IfSome result (λ x. x.0 < 2 ^ 64) }
    ensures none { result ≡ None → length bytes.now < 8 }
{
    let (number, rest) = bytes.split_first_chunk::<8>()?;
    Some((u64::from_be_bytes(*number), rest))
}

/// Reads the number of four bytes at the front, and returns the bytes after it. Returns `None` if there are fewer bytes.
pub(crate) fn split_short(bytes: &[u8]) -> Option<(u32, &[u8])>
    ensures some { IfSome result (λ x. bytes.now ≡ to_be_bytes w32 x.0 ++ x.1.now) }
    ensures fits { IfSome result (λ x. x.0 < 2 ^ 32) }
    ensures none { result ≡ None → length bytes.now < 4 }
{
    let (number, rest) = bytes.split_first_chunk::<4>()?;
    Some((u32::from_be_bytes(*number), rest))
}
