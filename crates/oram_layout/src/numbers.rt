//! Numbers in bytes, the low byte first.
ghost use Rattle.std.specs.Prelude.{◌≡◌, length};
ghost use Rattle.oram_layout.specs.Header.{four_bytes};

pub fn four_bytes_in(bytes: &[u8]) -> u32
    requires { length bytes.now ≡ 4 }
    ensures { four_bytes result ≡ bytes.now }
{
    u32::from_le_bytes([bytes[0], bytes[1], bytes[2], bytes[3]])
}
