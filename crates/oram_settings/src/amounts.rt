//! Amounts as people write them.

ghost use Rattle.std.specs.Prelude.{◌≡◌, ◌<◌, IfOk, option_map, string_bytes};
ghost use Rattle.oram_settings.specs.Amounts as spec;

use std::alloc::{AllocError, Global};

/// Returns a count and the name of what is counted, in the plural unless the count is one: `1 byte`, `2 bytes`.
pub fn counted(alloc: Global, count: u64, name: &str) -> Result<String, AllocError>
    ensures { IfOk result (λ text. string_bytes text ≡ spec.counted count name.now) }
{
    if count == 1 {
        format!(in alloc; "1 {name}")
    } else {
        format!(in alloc; "{count} {name}s")
    }
}

/// Returns how many steps of this size an amount is, rounded to the nearest whole number.
fn rounded(amount: u64, step: u64) -> u64
    requires { 0 < step }
    ensures { result ≡ spec.rounded amount step }
{
    amount.saturating_add(step / 2) / step
}

/// Returns an amount of bytes in tenths of a unit, and the unit: the first in which the amount is less than a thousand.
fn scaled(bytes: u64) -> (u64, &'static str)
    ensures tenths { result.0 ≡ (spec.scaled bytes).0 }
    ensures unit { result.1.now ≡ (spec.scaled bytes).1 }
{
    let kilo = rounded(bytes, 100);
    let mega = rounded(bytes, 100_000);
    let giga = rounded(bytes, 100_000_000);
    if kilo < 10_000 {
        (kilo, "kB")
    } else if mega < 10_000 {
        (mega, "MB")
    } else if giga < 10_000 {
        (giga, "GB")
    } else {
        (rounded(bytes, 100_000_000_000), "TB")
    }
}

/// Returns tenths of a unit, followed by the unit.
fn in_tenths(alloc: Global, tenths: u64, unit: &str) -> Result<String, AllocError>
    ensures { IfOk result (λ text. string_bytes text ≡ spec.in_tenths tenths unit.now) }
{
    let whole = tenths / 10;
    let tenth = tenths % 10;
    format!(in alloc; "{whole}.{tenth} {unit}")
}

/// Returns an amount of bytes as text: `512 bytes`, `4.1 kB`, `8.6 GB`. A unit is a thousand of the one before.
pub fn amount_text(alloc: Global, bytes: u64) -> Result<String, AllocError>
    ensures { IfOk result (λ text. string_bytes text ≡ spec.amount bytes) }
{
    if bytes < 1_000 {
        return counted(alloc, bytes, "byte");
    }
    let (tenths, unit) = scaled(bytes);
    in_tenths(alloc, tenths, unit)
}

/// The binary units, in bytes.
const KIB: u64 = 1 << 10;

const MIB: u64 = 1 << 20;

const GIB: u64 = 1 << 30;

const TIB: u64 = 1 << 40;

/// Returns a size as a whole number of a binary unit, and the name of that unit, which is the greatest one that divides
/// the size. KiB is used only for sizes below 1 MiB, where the number is short.
fn in_binary(size: u64) -> Option<(u64, &'static str)>
    ensures { option_map (λ p. (p.0, p.1.now)) result ≡ spec.in_binary size }
{
    if size == 0 {
        None
    } else if size % TIB == 0 {
        Some((size / TIB, "TiB"))
    } else if size % GIB == 0 {
        Some((size / GIB, "GiB"))
    } else if size % MIB == 0 {
        Some((size / MIB, "MiB"))
    } else if MIB < size {
        None
    } else if size % KIB == 0 {
        Some((size / KIB, "KiB"))
    } else {
        None
    }
}

/// Returns the size of a disk as people write it: `64 MiB` or `1 GiB` if it is a whole number of binary units, else as
/// an amount.
pub fn size_text(alloc: Global, size: u64) -> Result<String, AllocError>
    ensures { IfOk result (λ text. string_bytes text ≡ spec.size_text size) }
{
    match in_binary(size) {
        Some((count, unit)) => format!(in alloc; "{count} {unit}"),
        None => amount_text(alloc, size),
    }
}
