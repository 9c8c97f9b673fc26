//! Reads the values at the keys of a TOML table.

ghost use Rattle.std.specs.Prelude.{◌≡◌, ◌↔◌, ◌≤◌, Some, map, is_some, IsTrue, option_map, option_and_then, slice_index, string_bytes};
ghost use Rattle.std.specs.List.{list_all, list_any};
ghost use Rattle.std.specs.Str.{bytes_eq};
ghost use Rattle.clap.specs.Walk.{texts};
ghost use Rattle.toml.specs.Data.{as_integer, as_str, get_member};
ghost use Rattle.toml.specs.Parse.{parse_document};
ghost use Rattle.toml.specs.View.{table_view};
ghost use Rattle.oram_cli.specs.Tables.{Finds, HasHex, HasNumber, HasOnly, HasSealer, HasText, IsAddress, IsCount, IsName, IsPort, SpellsKey};

use crate::input::InputFault;
use hex::FromHex;
use std::alloc::Global;
use toml::Table;

/// Reads a TOML document. Fails with [`InputFault::Bad`] if the text isn't one.
pub fn table_of(alloc: Global, text: &str) -> Result<Table, InputFault>
    ensures { Finds table_view (λ t. parse_document text.now ≡ Some t) result }
{
    match toml::table_from_str(alloc, text) {
        Ok(table) => Ok(table),
        Err(error) => Err(if error.is_memory() {
            InputFault::OutOfMemory
        } else {
            InputFault::Bad
        }),
    }
}

/// Returns the text at a key.
fn text_at<'a>(table: &'a Table, key: &str) -> Option<&'a str>
    ensures { option_map (λ s. s.now) result ≡ option_and_then as_str (get_member key.now (table_view table.now)) }
{
    match table.get(key) {
        Some(value) => value.as_str(),
        None => None,
    }
}

/// Returns the integer at a key.
fn integer_at(table: &Table, key: &str) -> Option<i64>
    ensures { result ≡ option_and_then as_integer (get_member key.now (table_view table.now)) }
{
    match table.get(key) {
        Some(value) => value.as_integer(),
        None => None,
    }
}

/// Returns whether the table has a key.
pub fn has_key(table: &Table, key: &str) -> bool
    ensures { result ≡ is_some (get_member key.now (table_view table.now)) }
{
    table.contains_key(key)
}

/// Returns the number at a key, which must not be negative.
pub fn number_at(table: &Table, key: &str) -> Result<u64, InputFault>
    ensures { Finds (λ n. n) (HasNumber (table_view table.now) key.now) result }
{
    match integer_at(table, key) {
        Some(number) if 0 <= number => Ok(number as u64),
        _ => Err(InputFault::Bad),
    }
}

/// Returns the number at a key, from 1 to 1,000,000: of connections, or of seconds.
pub fn count_at(table: &Table, key: &str) -> Result<u64, InputFault>
    ensures { Finds (λ n. n) (λ n. HasNumber (table_view table.now) key.now n × IsCount n) result }
{
    let number = number_at(table, key)?;
    if 1 <= number && number <= 1_000_000 {
        Ok(number)
    } else {
        Err(InputFault::Bad)
    }
}

/// Returns whether a text begins with a digit other than 0.
pub fn begins_number(text: &str) -> bool
    ensures { IsTrue result ↔ ((49 ≤ slice_index text.now 0) × (slice_index text.now 0 ≤ 57)) }
{
    matches!(text.as_bytes(), [b'1'..=b'9', ..])
}

/// Returns whether a text is a port number of at least 1, in decimal without leading zeros.
fn is_port(text: &str) -> bool
    ensures { IsTrue result ↔ IsPort text.now }
{
    begins_number(text) && text.parse::<u16>().is_ok()
}

fn is_address(text: &str) -> bool
    ensures { IsTrue result ↔ IsAddress text.now }
{
    match text.strip_prefix("127.0.0.1:") {
        Some(port) => is_port(port),
        None => false,
    }
}

/// Returns the socket address at a key: `127.0.0.1:` and a port.
pub fn address_at<'a>(table: &'a Table, key: &str) -> Result<&'a str, InputFault>
    ensures { Finds (λ s. s.now) (λ s. HasText (table_view table.now) key.now s × IsAddress s) result }
{
    match text_at(table, key) {
        Some(text) if is_address(text) => Ok(text),
        _ => Err(InputFault::Bad),
    }
}

/// Returns the file name at a key, which must not be empty.
pub fn name_at<'a>(table: &'a Table, key: &str) -> Result<&'a str, InputFault>
    ensures { Finds (λ s. s.now) (λ s. HasText (table_view table.now) key.now s × IsName s) result }
{
    match text_at(table, key) {
        Some(text) if !text.is_empty() => Ok(text),
        _ => Err(InputFault::Bad),
    }
}

/// Returns the 32 bytes that a text spells in hexadecimal digits.
fn key_of(text: &str) -> Result<[u8; 32], InputFault>
    ensures { Finds (λ k. k) (SpellsKey text.now) result }
{
    <[u8; 32] as FromHex>::from_hex(text).map_err(|_| InputFault::Bad)
}

/// Returns the cipher key at a key of the table, which has it in hexadecimal digits.
pub fn key_at(table: &Table, key: &str) -> Result<[u8; 32], InputFault>
    ensures { Finds (λ k. k) (HasHex (table_view table.now) key.now) result }
{
    match text_at(table, key) {
        Some(text) => key_of(text),
        None => Err(InputFault::Bad),
    }
}

/// Returns the sealer's key, or none if the settings ask for the plain sealer, which leaves bytes
/// as they are.
pub fn sealer_in(table: &Table) -> Result<Option<[u8; 32]>, InputFault>
    ensures { Finds (λ k. k) (HasSealer (table_view table.now)) result }
{
    match text_at(table, "seal") {
        Some("plain") => {
            if has_key(table, "seal_key") {
                Err(InputFault::Bad)
            } else {
                Ok(None)
            }
        }
        Some("chacha") => Ok(Some(key_at(table, "seal_key")?)),
        _ => Err(InputFault::Bad),
    }
}

fn is_among(key: &str, keys: &[&str]) -> bool
    ensures { result ≡ list_any (λ k. bytes_eq k key.now) (texts keys.now) }
{
    keys.contains(&key)
}

fn are_among(table: &Table, keys: &[&str]) -> bool
    ensures { result ≡ list_all (λ key. list_any (λ k. bytes_eq k (string_bytes key)) (texts keys.now)) (map (λ e. e.0) table.now.entries) }
{
    table.keys().all(|key| is_among(key.as_str(), keys))
}

/// Returns whether the table has no keys except `keys`.
pub fn has_only(table: &Table, keys: &[&str]) -> bool
    ensures { IsTrue result ↔ HasOnly (texts keys.now) (table_view table.now) }
{
    are_among(table, keys)
}
