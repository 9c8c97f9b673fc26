//! Numbers in a message, the most significant byte first.

ghost use Rattle.std.specs.Prelude.{◌≡◌, ◌++◌, ◌<◌, length, IfSome, IfNone};
ghost use Rattle.std.specs.Int.{w16, w32, w64, to_be_bytes};

/// Returns the number in the first two bytes, and the bytes after them.
pub(crate) fn front_u16(bytes: &[u8]) -> Option<(u16, &[u8])>
    ensures found { IfSome result (λ p. bytes.now ≡ to_be_bytes w16 p.0 ++ p.1.now) }
    ensures none { IfNone result (length bytes.now < 2) }
{
    let [a, b, rest @ ..] = bytes else {
        return None;
    };
    Some((u16::from_be_bytes([*a, *b]), rest))
}

/// Returns the number in the first four bytes, and the bytes after them.
pub(crate) fn front_u32(bytes: &[u8]) -> Option<(u32, &[u8])>
    ensures found { IfSome result (λ p. bytes.now ≡ to_be_bytes w32 p.0 ++ p.1.now) }
    ensures none { IfNone result (length bytes.now < 4) }
{
    let [a, b, c, d, rest @ ..] = bytes else {
        return None;
    };
    Some((u32::from_be_bytes([*a, *b, *c, *d]), rest))
}

/// Returns the number in the first eight bytes, and the bytes after them.
pub(crate) fn front_u64(bytes: &[u8]) -> Option<(u64, &[u8])>
    ensures found { IfSome result (λ p. bytes.now ≡ to_be_bytes w64 p.0 ++ p.1.now) }
    ensures none { IfNone result (length bytes.now < 8) }
{
    let [a, b, c, d, e, f, g, h, rest @ ..] = bytes else {
        return None;
    };
    Some((u64::from_be_bytes([*a, *b, *c, *d, *e, *f, *g, *h]), rest))
}

/// Returns the number that four bytes encode.
pub(crate) fn number_u32(bytes: [u8; 4]) -> u32
    ensures { to_be_bytes w32 result ≡ bytes }
{
    u32::from_be_bytes(bytes)
}
