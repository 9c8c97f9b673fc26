//! Complaints about a settings file, for whoever wrote it.

use crate::disk_file::{DiskSettings, flag_at, place_at, sealing_at};
use crate::sizes::read_size;
use oram_cli::{count_at, key_at, name_at, number_at};
use std::alloc::{AllocError, Global};
use std::fmt;
use strsim::levenshtein;
use toml::Table;

/// The bytes of a sector. Some clients, such as the kernel's, round the size of a disk down to whole sectors.
pub const SECTOR: u64 = 512;

/// The kind of value that a setting must have.
#[derive(Clone, Copy, Debug, PartialEq, Eq)]
enum Kind {
    Bytes,
    Number,
    Seconds,
    Sealer,
    Key,
    Place,
    Name,
    Flag,
}

// In the form for a sentence that says what a value has to be.
impl fmt::Display for Kind {
    fn fmt<W: fmt::Write>(&self, f: &mut fmt::Formatter<W>) -> fmt::Result {
        f.write_str(match self {
            Kind::Bytes => "a whole number of bytes, without quotation marks and without a unit",
            Kind::Number => "a whole number, without quotation marks",
            Kind::Seconds => "a number of seconds from 1 to 1000000, without quotation marks",
            Kind::Sealer => "\"chacha\" or \"plain\"",
            Kind::Key => "64 hexadecimal digits in quotation marks",
            Kind::Place => {
                "\"127.0.0.1:PORT\", with a port from 1 to 65535, or \"unix:NAME\", with the name of a socket"
            }
            Kind::Name => "the name of a file in quotation marks",
            Kind::Flag => "true or false",
        })
    }
}

/// A key of a settings file, and the kind of value that it must have.
#[derive(Clone, Copy, Debug)]
struct Setting {
    key: &'static str,
    kind: Kind,
    /// Whether the setting has no default.
    is_required: bool,
}

/// The settings of a disk.
const DISK: [Setting; 13] = [
    Setting {
        key: "size",
        kind: Kind::Bytes,
        is_required: true,
    },
    Setting {
        key: "block",
        kind: Kind::Number,
        is_required: false,
    },
    Setting {
        key: "slots",
        kind: Kind::Number,
        is_required: false,
    },
    Setting {
        key: "leaf_load",
        kind: Kind::Number,
        is_required: false,
    },
    Setting {
        key: "table",
        kind: Kind::Number,
        is_required: false,
    },
    Setting {
        key: "sealer",
        kind: Kind::Sealer,
        is_required: false,
    },
    Setting {
        key: "near",
        kind: Kind::Bytes,
        is_required: false,
    },
    Setting {
        key: "key",
        kind: Kind::Key,
        is_required: true,
    },
    Setting {
        key: "host",
        kind: Kind::Place,
        is_required: true,
    },
    Setting {
        key: "listen",
        kind: Kind::Place,
        is_required: false,
    },
    Setting {
        key: "state",
        kind: Kind::Name,
        is_required: false,
    },
    Setting {
        key: "sync",
        kind: Kind::Flag,
        is_required: false,
    },
    Setting {
        key: "reconnect_timeout",
        kind: Kind::Seconds,
        is_required: false,
    },
];

/// The settings of a host.
const HOST: [Setting; 2] = [
    Setting {
        key: "listen",
        kind: Kind::Place,
        is_required: true,
    },
    Setting {
        key: "file",
        kind: Kind::Name,
        is_required: true,
    },
];

/// A settings file of one kind, and what tells it from one of the other kind.
#[derive(Clone, Copy, Debug)]
struct Form {
    settings: &'static [Setting],
    /// The settings of a file of the other kind.
    others: &'static [Setting],
    /// What a file of the other kind is, and which file to name in its place.
    other: &'static str,
}

const DISK_FORM: Form = Form {
    settings: &DISK,
    others: &HOST,
    other: "is a host's settings file: name the disk's, such as mydisk/disk.toml",
};

const HOST_FORM: Form = Form {
    settings: &HOST,
    others: &DISK,
    other: "is a disk's settings file, which the host doesn't need: name the host's, such as host.toml",
};

/// The greatest number of wrong letters in a key at which a complaint still says which key was meant.
const FEW_LETTERS: usize = 2;

/// Returns whether the value at a key is of its kind.
fn is_right(table: &Table, setting: Setting) -> bool {
    match setting.kind {
        Kind::Bytes | Kind::Number => number_at(table, setting.key).is_ok(),
        Kind::Seconds => count_at(table, setting.key).is_ok(),
        Kind::Sealer => sealing_at(table, setting.key).is_ok(),
        Kind::Key => key_at(table, setting.key).is_ok(),
        Kind::Place => place_at(table, setting.key).is_ok(),
        Kind::Name => name_at(table, setting.key).is_ok(),
        Kind::Flag => flag_at(table, setting.key).is_ok(),
    }
}

/// Returns whether a line sets this key.
fn sets(line: &str, key: &str) -> bool {
    match line.split_once('=') {
        Some((before, _)) => before.trim() == key,
        None => false,
    }
}

/// Returns the name of a file, with the line in it that sets a key, if there is one: `disk.toml, line 4`.
fn place_of(alloc: Global, name: &str, text: &str, key: &str) -> Result<String, AllocError> {
    let mut number = 0u64;
    for line in text.lines() {
        number = number.saturating_add(1);
        if sets(line, key) {
            return format!(in alloc; "{name}, line {number}");
        }
    }
    String::from_str(alloc, name)
}

/// Returns what a line has after its `=`, without a comment, spaces and quotation marks.
fn value_in(line: &str) -> Option<&str> {
    let (_key, after) = line.split_once('=')?;
    let value = match after.split_once('#') {
        Some((value, _comment)) => value,
        None => after,
    };
    Some(value.trim().trim_matches('"'))
}

/// Returns what a line sets its key to as people write sizes, such as `64MiB`, and how many bytes that is.
fn size_in(line: &str) -> Option<(&str, u64)> {
    let value = value_in(line)?;
    Some((value, read_size(value)?))
}

/// Returns the key of a disk whose value is a number of bytes, if the line sets such a key.
fn bytes_key(line: &str) -> Option<&'static str> {
    for setting in &DISK {
        if setting.kind == Kind::Bytes && sets(line, setting.key) {
            return Some(setting.key);
        }
    }
    None
}

/// Returns the complaint about the line with this number, which sets a number of bytes to an amount with a unit; `None` if it
/// doesn't.
fn size_complaint(
    alloc: Global,
    name: &str,
    text: &str,
    number: usize,
) -> Result<Option<String>, AllocError> {
    let Some(line) = text.lines().nth(number.saturating_sub(1)) else {
        return Ok(None);
    };
    let (Some(key), Some((value, size))) = (bytes_key(line), size_in(line)) else {
        return Ok(None);
    };
    let kind = Kind::Bytes;
    Ok(Some(format!(in alloc;
        "{name}, line {number}: {key} has to be {kind}: {size} for {value}"
    )?))
}

/// Returns how many letters of a word are wrong if it was meant for a key. What a key was called before has none.
fn wrong_letters(alloc: Global, word: &str, key: &str) -> Result<usize, AllocError> {
    if word == "patience" && key == "reconnect_timeout" {
        return Ok(0);
    }
    levenshtein(alloc, word, key)
}

/// Returns the key that a word was most likely meant for: the one with the fewest wrong letters, if they are few.
fn nearest_key(
    alloc: Global,
    word: &str,
    settings: &[Setting],
) -> Result<Option<&'static str>, AllocError> {
    let (mut nearest, mut fewest) = (None, FEW_LETTERS + 1);
    for setting in settings {
        let letters = wrong_letters(alloc, word, setting.key)?;
        if letters < fewest {
            (nearest, fewest) = (Some(setting.key), letters);
        }
    }
    Ok(nearest)
}

fn is_known(key: &str, settings: &[Setting]) -> bool {
    settings.iter().any(|setting| setting.key == key)
}

/// Returns a key of the table that belongs to no setting.
fn unknown_key<'a>(table: &'a Table, settings: &[Setting]) -> Option<&'a str> {
    for key in table.keys() {
        if !is_known(key.as_str(), settings) {
            return Some(key.as_str());
        }
    }
    None
}

/// Returns the keys of settings, as a sentence lists them: `listen, file`.
fn listed(alloc: Global, settings: &[Setting]) -> Result<String, AllocError> {
    let mut text = String::new(alloc);
    for setting in settings {
        if !text.is_empty() {
            text.push_str(", ")?;
        }
        text.push_str(setting.key)?;
    }
    Ok(text)
}

/// Returns the complaint that a key belongs to no setting, and which key may have been meant, or which keys there are.
fn unknown_key_complaint(
    alloc: Global,
    name: &str,
    text: &str,
    key: &str,
    settings: &[Setting],
) -> Result<String, AllocError> {
    let place = place_of(alloc, name, text, key)?;
    let place = place.as_str();
    match nearest_key(alloc, key, settings)? {
        Some(near) => format!(in alloc; "{place}: unknown key \"{key}\"; did you mean \"{near}\"?"),
        None => {
            let keys = listed(alloc, settings)?;
            let keys = keys.as_str();
            format!(in alloc; "{place}: unknown key \"{key}\"; the keys are {keys}")
        }
    }
}

/// Returns what is wrong at a setting's key, if anything is.
fn wrong_at(
    alloc: Global,
    name: &str,
    text: &str,
    table: &Table,
    setting: Setting,
) -> Result<Option<String>, AllocError> {
    let key = setting.key;
    let kind = setting.kind;
    if !table.contains_key(key) {
        if !setting.is_required {
            return Ok(None);
        }
        return Ok(Some(format!(in alloc;
            "{name}: missing key \"{key}\", which has to be {kind}"
        )?));
    }
    if is_right(table, setting) {
        return Ok(None);
    }
    let place = place_of(alloc, name, text, key)?;
    let place = place.as_str();
    let line = text.lines().find(|line| sets(line, key));
    match line.and_then(size_in) {
        Some((value, size)) if kind == Kind::Bytes => Ok(Some(format!(in alloc;
            "{place}: {key} has to be {kind}: {size} for {value}"
        )?)),
        _ => Ok(Some(format!(in alloc; "{place}: {key} has to be {kind}")?)),
    }
}

/// Returns what is wrong with a table in which each key belongs to one of these settings.
fn wrong_value(
    alloc: Global,
    name: &str,
    text: &str,
    table: &Table,
    settings: &[Setting],
) -> Result<String, AllocError> {
    for setting in settings {
        if let Some(wrong) = wrong_at(alloc, name, text, table, *setting)? {
            return Ok(wrong);
        }
    }
    String::from_str(alloc, name)
}

/// Returns the complaint that a text isn't a TOML document, with the line where it goes wrong. A size with a unit is no value of
/// TOML: then the complaint says how many bytes it is.
fn no_document(
    alloc: Global,
    name: &str,
    text: &str,
    error: &toml::de::Error,
) -> Result<String, AllocError> {
    let Some(span) = error.span() else {
        return Err(AllocError);
    };
    let before = text.as_bytes().get(..span.start).unwrap_or(&[]);
    let line = before
        .iter()
        .filter(|byte| **byte == b'\n')
        .count()
        .saturating_add(1);
    if let Some(complaint) = size_complaint(alloc, name, text, line)? {
        return Ok(complaint);
    }
    let why = error.message();
    format!(in alloc; "{name}, line {line}: {why}")
}

/// Returns what is wrong with the settings in the file `name`.
fn complaint(alloc: Global, name: &str, text: &str, form: Form) -> Result<String, AllocError> {
    let table = match toml::table_from_str(alloc, text) {
        Ok(table) => table,
        Err(error) => return no_document(alloc, name, text, &error),
    };
    match unknown_key(&table, form.settings) {
        Some(key) if is_known(key, form.others) => {
            let other = form.other;
            format!(in alloc; "{name} {other}")
        }
        Some(key) => unknown_key_complaint(alloc, name, text, key, form.settings),
        None => wrong_value(alloc, name, text, &table, form.settings),
    }
}

/// Returns what is wrong with the text of the file `name`, which isn't a disk's settings: the file, the line if it is
/// known, the key, and what its value has to be.
pub fn disk_complaint(alloc: Global, name: &str, text: &str) -> Result<String, AllocError> {
    complaint(alloc, name, text, DISK_FORM)
}

/// The settings whose numbers make the disk.
#[derive(Clone, Copy, Debug, PartialEq, Eq)]
enum Number {
    Block,
    Slots,
    LeafLoad,
    Size,
    Table,
}

// As the settings file spells its key.
impl fmt::Display for Number {
    fn fmt<W: fmt::Write>(&self, f: &mut fmt::Formatter<W>) -> fmt::Result {
        f.write_str(match self {
            Number::Block => "block",
            Number::Slots => "slots",
            Number::LeafLoad => "leaf_load",
            Number::Size => "size",
            Number::Table => "table",
        })
    }
}

/// Returns the greatest leaf load for which buckets of so many slots have room.
fn most_load(slots: u64) -> u64 {
    if slots < 4 {
        1
    } else {
        (slots.saturating_mul(5) / 4).min(8)
    }
}

/// Returns the greatest number of blocks of a disk with this leaf load, which the entries of a table can't exceed either.
fn most_blocks(leaf_load: u64) -> u64 {
    leaf_load.min(4) << 24
}

/// Returns the first of these settings that no disk can have. If the others are right, it is the table.
fn wrong_number(settings: &DiskSettings) -> Number {
    let block = settings.block;
    if block < 16 || 4096 < block || block % 4 != 0 {
        return Number::Block;
    }
    if settings.slots == 0 || 8 < settings.slots {
        return Number::Slots;
    }
    if settings.leaf_load == 0 || most_load(settings.slots) < settings.leaf_load {
        return Number::LeafLoad;
    }
    let blocks = settings.size / block;
    if settings.size % block != 0 || blocks == 0 || most_blocks(settings.leaf_load) < blocks {
        return Number::Size;
    }
    Number::Table
}

/// Returns what a leaf load has to be for buckets of so many slots.
fn load_range(alloc: Global, slots: u64) -> Result<String, AllocError> {
    let most = most_load(slots);
    if most == 1 {
        format!(in alloc; "1 with fewer than 4 slots")
    } else {
        format!(in alloc; "from 1 to {most} with {slots} slots")
    }
}

/// Returns what this number has to be, given the others.
fn range_of(alloc: Global, number: Number, settings: &DiskSettings) -> Result<String, AllocError> {
    let most = most_blocks(settings.leaf_load);
    match number {
        Number::Block => String::from_str(alloc, "a multiple of 4, from 16 to 4096"),
        Number::Slots => String::from_str(alloc, "from 1 to 8"),
        Number::LeafLoad => load_range(alloc, settings.slots),
        Number::Size => { format!(in alloc; "a whole number of blocks, from 1 to {most} of them") }
        Number::Table => format!(in alloc; "from 1 to {most}"),
    }
}

/// Returns what is wrong with the settings in the file `name`, whose numbers no disk can have: the file, the line if it is
/// known, the key, and what its value has to be.
pub fn numbers_complaint(
    alloc: Global,
    name: &str,
    text: &str,
    settings: &DiskSettings,
) -> Result<String, AllocError> {
    let number = wrong_number(settings);
    let key = format!(in alloc; "{number}")?;
    let key = key.as_str();
    let range = range_of(alloc, number, settings)?;
    let range = range.as_str();
    let place = place_of(alloc, name, text, key)?;
    let place = place.as_str();
    format!(in alloc; "{place}: {key} has to be {range}")
}

/// Returns the complaint that the size in the file `name` isn't a whole number of sectors.
pub fn sectors_complaint(alloc: Global, name: &str) -> Result<String, AllocError> {
    format!(in alloc;
        "{name}: size has to be a multiple of {SECTOR}, since clients count the bytes of a disk by so many"
    )
}

/// Returns what is wrong with the text of the file `name`, which isn't a host's settings.
pub fn host_complaint(alloc: Global, name: &str, text: &str) -> Result<String, AllocError> {
    complaint(alloc, name, text, HOST_FORM)
}
