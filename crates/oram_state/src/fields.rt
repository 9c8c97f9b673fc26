//! Reads the fields of a file, one after the other: each function returns the field at the front and the bytes after it.

ghost use Rattle.std.specs.Prelude.{◌≡◌, length, IfOk};
ghost use Rattle.std.specs.Int.{w16, w32, w64};
ghost use Rattle.oram_state.specs.Parser.{Gives, many, next_byte, next_bytes, next_number};

use crate::fault::StateFault;
use byteorder::{BigEndian, ByteOrder};
use std::alloc::Global;

/// Reads `len` bytes.
#[tactic(auto, unfolding(crate::specs::Parser::next_bytes))]
pub(crate) fn read_bytes(bytes: &[u8], len: usize) -> Result<(&[u8], &[u8]), StateFault>
    ensures exact { Gives (λ x. (x.0.now, x.1.now)) result (next_bytes len bytes.now) }
    ensures whole { IfOk result (λ x. length x.0.now ≡ len) }
{
    if bytes.len() < len {
        return Err(StateFault::Content);
    }
    Ok(bytes.split_at(len))
}

#[tactic(auto, unfolding(crate::specs::Parser::next_byte))]
pub(crate) fn read_byte(bytes: &[u8]) -> Result<(u8, &[u8]), StateFault>
    ensures { Gives (λ x. (x.0, x.1.now)) result (next_byte bytes.now) }
{
    match bytes {
        [] => Err(StateFault::Content),
        [byte, rest @ ..] => Ok((*byte, rest)),
    }
}

#[tactic(auto, unfolding(crate::specs::Parser::next_number))]
pub(crate) fn read_half(bytes: &[u8]) -> Result<(u16, &[u8]), StateFault>
    ensures { Gives (λ x. (x.0, x.1.now)) result (next_number w16 bytes.now) }
{
    if bytes.len() < 2 {
        return Err(StateFault::Content);
    }
    let (front, rest) = bytes.split_at(2);
    Ok((BigEndian::read_u16(front), rest))
}

#[tactic(auto, unfolding(crate::specs::Parser::next_number))]
pub(crate) fn read_short(bytes: &[u8]) -> Result<(u32, &[u8]), StateFault>
    ensures { Gives (λ x. (x.0, x.1.now)) result (next_number w32 bytes.now) }
{
    if bytes.len() < 4 {
        return Err(StateFault::Content);
    }
    let (front, rest) = bytes.split_at(4);
    Ok((BigEndian::read_u32(front), rest))
}

#[tactic(auto, unfolding(crate::specs::Parser::next_number))]
pub(crate) fn read_long(bytes: &[u8]) -> Result<(u64, &[u8]), StateFault>
    ensures { Gives (λ x. (x.0, x.1.now)) result (next_number w64 bytes.now) }
{
    if bytes.len() < 8 {
        return Err(StateFault::Content);
    }
    let (front, rest) = bytes.split_at(8);
    Ok((BigEndian::read_u64(front), rest))
}

/// Reads `count` numbers of four bytes.
pub(crate) fn read_shorts(
    alloc: Global,
    bytes: &[u8],
    count: u32,
) -> Result<(Vec<u32>, &[u8]), StateFault>
    ensures { Gives (λ x. (x.0.items, x.1.now)) result (many (next_number w32) count bytes.now) }
{
    let mut numbers = Vec::new(alloc);
    let mut rest = bytes;
    for _ in 0..count {
        let (number, after) = read_short(rest)?;
        numbers.push(number)?;
        rest = after;
    }
    Ok((numbers, rest))
}

/// Reads `count` numbers of eight bytes.
pub(crate) fn read_longs(
    alloc: Global,
    bytes: &[u8],
    count: u32,
) -> Result<(Vec<u64>, &[u8]), StateFault>
    ensures { Gives (λ x. (x.0.items, x.1.now)) result (many (next_number w64) count bytes.now) }
{
    let mut numbers = Vec::with_capacity(alloc, count as usize)?;
    let mut rest = bytes;
    for _ in 0..count {
        let (number, after) = read_long(rest)?;
        numbers.push(number)?;
        rest = after;
    }
    Ok((numbers, rest))
}
