//! The lines of a script.
ghost use Rattle.std.specs.Prelude.{◌≡◌, ◌^◌, IfOk, Some};
ghost use Rattle.std.specs.Char.{is_ascii_digit};
ghost use Rattle.std.specs.List.{list_all};
ghost use Rattle.oramsim.specs.Lines.{has_leading_zero, is_numeral, number_below, numbers_below, hex_bytes, device_from, addressed, read_from, discard_from, write_from, raw_from, tamper_from, swap_from, named_line, line_from, line_of};
ghost use Rattle.oramsim.specs.Lines as spec;

use crate::fields::Fields;
use hex::FromHexError;
use oram_bytes::{Bytes, Words};
use oram_semantics::{Command, Event};
use std::alloc::{AllocError, Global};
use std::str;

/// What a line of a script asks for.
#[derive(Debug, Drop)]
pub enum Line {
    /// Makes a device of these sizes.
    Device {
        blocks: u64,
        block_bytes: u64,
        slots: u64,
        top: u64,
        lifetime: u64,
    },
    /// Gives the device this event. The server takes no part in it.
    CoreEvent(Event),
    /// Lets the server answer the outstanding message.
    Answer,
    /// Lets the server answer until no message is outstanding.
    Drain,
    /// Gives the server the outstanding message, and loses its answer.
    Late,
    /// Saves the device's core and reads it back. The outstanding message is lost with the old core.
    Reopen,
    /// Flips the lowest bit of a byte of a stored record.
    Tamper {
        tree: u64,
        node: u64,
        offset: u64,
    },
    /// Swaps two stored records.
    Swap {
        tree_a: u64,
        node_a: u64,
        tree_b: u64,
        node_b: u64,
    },
    /// Keeps a copy of the server, in place of an earlier one.
    Snapshot,
    /// Replaces the server by the copy that was kept.
    Restore,
}

fn is_padded(field: &[u8]) -> bool
    ensures { result ≡ has_leading_zero field.now }
{
    field.len() > 1 && field[0] == b'0'
}

fn is_of_digits(field: &[u8]) -> bool
    ensures { result ≡ list_all is_ascii_digit field.now }
{
    field.iter().all(|byte| byte.is_ascii_digit())
}

/// Returns whether a field is decimal digits without leading zeros.
fn is_plain(field: &[u8]) -> bool
    ensures { result ≡ is_numeral field.now }
{
    if field.is_empty() || is_padded(field) {
        return false;
    }
    is_of_digits(field)
}

#[tactic(auto, unfolding(crate::specs::Lines::number_below))]
fn long_number(field: &[u8]) -> Option<u64>
    ensures { result ≡ number_below (2 ^ 64) field.now }
{
    if !is_plain(field) {
        return None;
    }
    str::from_utf8(field).ok()?.parse::<u64>().ok()
}

#[tactic(auto, unfolding(crate::specs::Lines::number_below))]
fn short_number(field: &[u8]) -> Option<u32>
    ensures { result ≡ number_below (2 ^ 32) field.now }
{
    u32::try_from(long_number(field)?).ok()
}

/// Reads fields as words; `None` if one of them is not a number.
#[tactic(auto, unfolding(crate::specs::Lines::numbers_below))]
fn words_in(alloc: Global, fields: Fields) -> Result<Option<Words>, AllocError>
    ensures { IfOk result (λ o. o ≡ numbers_below (2 ^ 64) fields.entry) }
{
    let mut words = Vec::new(alloc);
    let mut left = fields;
    while let Some((field, behind)) = left.split_first() {
        let Some(word) = long_number(field) else {
            return Ok(None);
        };
        words.push(word)?;
        left = behind;
    }
    Ok(Some(Words::from_vec(words)))
}

/// Decodes the hexadecimal digits of a field; `None` if it is empty or isn't hexadecimal.
#[tactic(auto, unfolding(crate::specs::Lines::hex_bytes))]
fn bytes_in(alloc: Global, field: &[u8]) -> Result<Option<Bytes>, AllocError>
    ensures { IfOk result (λ o. o ≡ hex_bytes field.now) }
{
    if field.is_empty() {
        return Ok(None);
    }
    match hex::decode(alloc, field) {
        Ok(bytes) => Ok(Some(Bytes::from_vec(bytes))),
        Err(FromHexError::OutOfMemory) => Err(AllocError),
        Err(_) => Ok(None),
    }
}

#[tactic(auto, unfolding(crate::specs::Lines::device_from))]
fn device_in(fields: Fields) -> Option<Line>
    ensures { result ≡ device_from fields.entry }
{
    let (blocks, fields) = fields.split_first()?;
    let (block_bytes, fields) = fields.split_first()?;
    let (slots, fields) = fields.split_first()?;
    let (top, fields) = fields.split_first()?;
    let (lifetime, fields) = fields.split_first()?;
    if fields.split_first().is_some() {
        return None;
    }
    Some(Line::Device {
        blocks: long_number(blocks)?,
        block_bytes: long_number(block_bytes)?,
        slots: long_number(slots)?,
        top: long_number(top)?,
        lifetime: long_number(lifetime)?,
    })
}

/// Reads a session, an address and words, the fields of a command that brings no data.
#[tactic(auto, unfolding(crate::specs::Lines::addressed))]
fn addressed_in(alloc: Global, fields: Fields) -> Result<Option<(u32, u32, Words)>, AllocError>
    ensures { IfOk result (λ o. o ≡ addressed fields.entry) }
{
    let Some((session, fields)) = fields.split_first() else {
        return Ok(None);
    };
    let Some((address, words)) = fields.split_first() else {
        return Ok(None);
    };
    let (Some(session), Some(address)) = (short_number(session), short_number(address)) else {
        return Ok(None);
    };
    let Some(words) = words_in(alloc, words)? else {
        return Ok(None);
    };
    Ok(Some((session, address, words)))
}

#[tactic(auto, unfolding(crate::specs::Lines::read_from))]
fn read_in(alloc: Global, fields: Fields) -> Result<Option<Line>, AllocError>
    ensures { IfOk result (λ o. o ≡ read_from fields.entry) }
{
    let Some((session, address, words)) = addressed_in(alloc, fields)? else {
        return Ok(None);
    };
    Ok(Some(Line::CoreEvent(Event::Submit {
        session,
        command: Command::Read(address),
        words,
    })))
}

#[tactic(auto, unfolding(crate::specs::Lines::discard_from))]
fn discard_in(alloc: Global, fields: Fields) -> Result<Option<Line>, AllocError>
    ensures { IfOk result (λ o. o ≡ discard_from fields.entry) }
{
    let Some((session, address, words)) = addressed_in(alloc, fields)? else {
        return Ok(None);
    };
    Ok(Some(Line::CoreEvent(Event::Submit {
        session,
        command: Command::Discard(address),
        words,
    })))
}

#[tactic(auto, unfolding(crate::specs::Lines::write_from))]
fn write_in(alloc: Global, fields: Fields) -> Result<Option<Line>, AllocError>
    ensures { IfOk result (λ o. o ≡ write_from fields.entry) }
{
    let Some((session, fields)) = fields.split_first() else {
        return Ok(None);
    };
    let Some((address, fields)) = fields.split_first() else {
        return Ok(None);
    };
    let Some((bytes, words)) = fields.split_first() else {
        return Ok(None);
    };
    let (Some(session), Some(address)) = (short_number(session), short_number(address)) else {
        return Ok(None);
    };
    let Some(bytes) = bytes_in(alloc, bytes)? else {
        return Ok(None);
    };
    let Some(words) = words_in(alloc, words)? else {
        return Ok(None);
    };
    Ok(Some(Line::CoreEvent(Event::Submit {
        session,
        command: Command::Write(address, bytes),
        words,
    })))
}

#[tactic(auto, unfolding(crate::specs::Lines::raw_from))]
fn raw_in(alloc: Global, fields: Fields) -> Result<Option<Line>, AllocError>
    ensures { IfOk result (λ o. o ≡ raw_from fields.entry) }
{
    let Some((bytes, fields)) = fields.split_first() else {
        return Ok(None);
    };
    if fields.split_first().is_some() {
        return Ok(None);
    }
    let Some(bytes) = bytes_in(alloc, bytes)? else {
        return Ok(None);
    };
    Ok(Some(Line::CoreEvent(Event::Answer(bytes))))
}

#[tactic(auto, unfolding(crate::specs::Lines::tamper_from))]
fn tamper_in(fields: Fields) -> Option<Line>
    ensures { result ≡ tamper_from fields.entry }
{
    let (tree, fields) = fields.split_first()?;
    let (node, fields) = fields.split_first()?;
    let (offset, fields) = fields.split_first()?;
    if fields.split_first().is_some() {
        return None;
    }
    Some(Line::Tamper {
        tree: long_number(tree)?,
        node: long_number(node)?,
        offset: long_number(offset)?,
    })
}

#[tactic(auto, unfolding(crate::specs::Lines::swap_from))]
fn swap_in(fields: Fields) -> Option<Line>
    ensures { result ≡ swap_from fields.entry }
{
    let (tree_a, fields) = fields.split_first()?;
    let (node_a, fields) = fields.split_first()?;
    let (tree_b, fields) = fields.split_first()?;
    let (node_b, fields) = fields.split_first()?;
    if fields.split_first().is_some() {
        return None;
    }
    Some(Line::Swap {
        tree_a: long_number(tree_a)?,
        node_a: long_number(node_a)?,
        tree_b: long_number(tree_b)?,
        node_b: long_number(node_b)?,
    })
}

/// Returns the line that consists of this word alone.
#[tactic(auto, unfolding(crate::specs::Lines::named_line))]
fn word_line(word: &[u8]) -> Option<Line>
    ensures { result ≡ named_line word.now }
{
    if word == b"answer".as_slice() {
        Some(Line::Answer)
    } else if word == b"drain".as_slice() {
        Some(Line::Drain)
    } else if word == b"lost".as_slice() {
        Some(Line::CoreEvent(Event::Lost))
    } else if word == b"late".as_slice() {
        Some(Line::Late)
    } else if word == b"retry".as_slice() {
        Some(Line::CoreEvent(Event::Retry))
    } else if word == b"reopen".as_slice() {
        Some(Line::Reopen)
    } else if word == b"snapshot".as_slice() {
        Some(Line::Snapshot)
    } else if word == b"restore".as_slice() {
        Some(Line::Restore)
    } else {
        None
    }
}

/// Returns a line of one word.
fn alone(word: &[u8], fields: Fields) -> Option<Line>
    ensures { result ≡ spec.alone word.now fields.entry }
{
    match fields.split_first() {
        None => word_line(word),
        Some(_) => None,
    }
}

/// Returns the line that a word and the fields after it make.
#[tactic(auto, unfolding(crate::specs::Lines::line_from))]
fn command_in(alloc: Global, word: &[u8], fields: Fields) -> Result<Option<Line>, AllocError>
    ensures { IfOk result (λ o. o ≡ line_from word.now fields.entry) }
{
    if word == b"device".as_slice() {
        Ok(device_in(fields))
    } else if word == b"read".as_slice() {
        read_in(alloc, fields)
    } else if word == b"write".as_slice() {
        write_in(alloc, fields)
    } else if word == b"discard".as_slice() {
        discard_in(alloc, fields)
    } else if word == b"raw".as_slice() {
        raw_in(alloc, fields)
    } else if word == b"tamper".as_slice() {
        Ok(tamper_in(fields))
    } else if word == b"swap".as_slice() {
        Ok(swap_in(fields))
    } else {
        Ok(alone(word, fields))
    }
}

impl Line {
    /// Reads a line, which comes without the byte 0A at its end. Returns `None` if no script has such
    /// a line.
    pub fn read(alloc: Global, bytes: &[u8]) -> Result<Option<Line>, AllocError>
        ensures { IfOk result (λ o. o ≡ line_of bytes.now) }
    {
        match Fields::of(bytes).split_first() {
            Some((word, fields)) => command_in(alloc, word, fields),
            None => Ok(None),
        }
    }
}
