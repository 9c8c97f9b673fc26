//! Sizes as people write them.

ghost use Rattle.std.specs.Prelude.{ℕ, ◌≡◌, ◌<◌, ◌^◌, ◌≢◌, IfSome, None, decimal};
ghost use Rattle.oram_settings.specs.Sizes.{IsSize, IsSizeIn};

use oram_cli::begins_number;

/// The units of a size, each with its number of bytes. The last has no name.
const UNITS: [(&str, u64); 9] = [
    ("KiB", 1 << 10),
    ("MiB", 1 << 20),
    ("GiB", 1 << 30),
    ("TiB", 1 << 40),
    ("kB", 1_000),
    ("MB", 1_000_000),
    ("GB", 1_000_000_000),
    ("TB", 1_000_000_000_000),
    ("", 1),
];

/// Reads a number of at least 1, in decimal without leading zeros.
fn read_number(text: &str) -> Option<u64>
    ensures some { IfSome result (λ n. (0 < n) × (text.now ≡ decimal n)) }
    ensures none { result ≡ None → (n : ℕ) → 0 < n → n < 2 ^ 64 → text.now ≢ decimal n }
{
    if !begins_number(text) {
        return None;
    }
    text.parse().ok()
}

/// Reads a size in the unit with this name.
fn read_in(text: &str, unit: &str, bytes: u64) -> Option<u64>
    requires { 0 < bytes }
    ensures some { IfSome result (λ size. IsSizeIn (unit.now, bytes) text.now size) }
    ensures none { result ≡ None → (size : ℕ) → size < 2 ^ 64 → IsSizeIn (unit.now, bytes) text.now size → ⊥ }
{
    let digits = text.strip_suffix(unit)?;
    read_number(digits)?.checked_mul(bytes)
}

/// Reads a size such as `1GiB`, `512MiB`, `100MB` or `4096`: a number of units, from 1 on. Returns `None` if the text
/// isn't a size, or the size is 2^64 bytes or more.
pub fn read_size(text: &str) -> Option<u64>
    ensures some { IfSome result (λ size. IsSize text.now size) }
    ensures none { result ≡ None → (size : ℕ) → size < 2 ^ 64 → IsSize text.now size → ⊥ }
{
    for &(unit, bytes) in &UNITS {
        if let Some(size) = read_in(text, unit, bytes) {
            return Some(size);
        }
    }
    None
}
