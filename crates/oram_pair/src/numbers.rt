//! Numbers in bytes, the low byte first.
ghost use Rattle.std.specs.Prelude.{◌≡◌, length};
ghost use Rattle.oram_pair.specs.Fronts.{eight_bytes};

/// Returns the number that eight bytes stand for.
pub fn eight_bytes_in(bytes: &[u8]) -> u64
    requires { length bytes.now ≡ 8 }
    ensures { eight_bytes result ≡ bytes.now }
{
    u64::from_le_bytes([
        bytes[0], bytes[1], bytes[2], bytes[3], bytes[4], bytes[5], bytes[6], bytes[7],
    ])
}
