//! The settings file of a disk.

ghost use Rattle.std.specs.Prelude.{◌≡◌, ◌≢◌, ◌↔◌, IsTrue, None, option_and_then, IfOk, IfSome, IsErrOf, codes, string_bytes};
ghost use Rattle.toml.specs.Data.{as_bool, get_member};
ghost use Rattle.toml.specs.View.{table_view};
ghost use Rattle.oram_cli.specs.Tables.{Finds, HasNumber, HasText, IsCount, IsName};
ghost use Rattle.oram_settings.specs.Settings.{HasFlag, HasSealing, IsDeviceOf, IsDisk, IsDocumentOf, IsPlace, IsSocket, OrDefault, default_leaf_load, default_near, default_table, first_text, sealing_name, settings_value};

use hex::encode;
use oram_cli::{
    InputFault, address_at, count_at, has_key, has_only, key_at, name_at, number_at, table_of,
};
use oram_geometry::Device;
use std::alloc::{AllocError, Global};
use std::fmt;
use toml::Table;

/// The greatest number of commands that a disk ever takes. It is the greatest that a device allows.
pub const LIFETIME: u64 = 1 << 40;

/// The default number of bytes of a block.
pub const DEFAULT_BLOCK: u64 = 4_096;

/// The default number of slots of a bucket.
pub const DEFAULT_SLOTS: u64 = 4;

/// The default for the leaf load where a bucket has enough slots for it.
pub const DEFAULT_LEAF_LOAD: u64 = 5;

/// The greatest default for `near`, in bytes: 64 MiB.
const MOST_NEAR: u64 = 1 << 26;

/// The default reconnect timeout in seconds.
const DEFAULT_RECONNECT_TIMEOUT: u64 = 600;

/// How buckets are sealed.
#[derive(Clone, Copy, Debug, PartialEq, Eq)]
pub enum Sealing {
    /// Not at all: the host can read what it keeps.
    Plain,
    /// With the keystream of ChaCha20 (RFC 8439).
    ChaCha,
}

/// The settings of a disk.
#[derive(Drop)]
pub struct DiskSettings {
    /// The size of the disk in bytes, a whole number of blocks.
    pub size: u64,
    /// The number of bytes of a block.
    pub block: u64,
    /// The number of slots of a bucket.
    pub slots: u64,
    /// The leaf load: for how many blocks a tree has a leaf.
    pub leaf_load: u64,
    /// The most entries that the client's own table may have, which a device calls `top`.
    pub table: u64,
    pub sealer: Sealing,
    /// How many bytes the near records may have, which the client keeps itself.
    pub near: u64,
    /// The key from which the disk's other keys are derived.
    pub key: [u8; 32],
    /// Where the host is reached: an address, or `unix:` and the name of a socket, relative to the folder of the settings.
    pub host: String,
    /// Where the disk is served: an address, or `unix:` and the name of a socket, relative to the folder of the
    /// settings.
    pub listen: String,
    /// The file in which the client's state is kept.
    pub state: String,
    /// Whether each state that is kept is synced before it counts.
    pub sync: bool,
    /// The reconnect timeout: for how many seconds the disk waits for a host that is out of reach.
    pub reconnect_timeout: u64,
}

// No key is shown.
impl fmt::Debug for DiskSettings {
    fn fmt<W: fmt::Write>(&self, f: &mut fmt::Formatter<W>) -> fmt::Result {
        f.write_str("DiskSettings { .. }")
    }
}

/// Returns the flag at a key.
fn flag_in(table: &Table, key: &str) -> Option<bool>
    ensures { result ≡ option_and_then as_bool (get_member key.now (table_view table.now)) }
{
    match table.get(key) {
        Some(value) => value.as_bool(),
        None => None,
    }
}

pub(crate) fn flag_at(table: &Table, key: &str) -> Result<bool, InputFault>
    ensures { Finds (λ b. b) (HasFlag (table_view table.now) key.now) result }
{
    match flag_in(table, key) {
        Some(flag) => Ok(flag),
        None => Err(InputFault::Bad),
    }
}

/// Returns how buckets are sealed, by its name.
fn sealing_named(name: &str) -> Option<Sealing>
    ensures some { IfSome result (λ s. name.now ≡ sealing_name s) }
    ensures none { result ≡ None → (s : Sealing) → name.now ≢ sealing_name s }
{
    match name {
        "plain" => Some(Sealing::Plain),
        "chacha" => Some(Sealing::ChaCha),
        _ => None,
    }
}

pub(crate) fn sealing_at(table: &Table, key: &str) -> Result<Sealing, InputFault>
    ensures { Finds (λ s. s) (HasSealing (table_view table.now) key.now) result }
{
    match sealing_named(name_at(table, key)?) {
        Some(sealing) => Ok(sealing),
        None => Err(InputFault::Bad),
    }
}

fn is_socket(text: &str) -> bool
    ensures { IsTrue result ↔ IsSocket text.now }
{
    match text.strip_prefix("unix:") {
        Some(path) => !path.is_empty(),
        None => false,
    }
}

/// Returns a place at which a program listens, or another one is reached: an address, or `unix:` and the name of a Unix socket.
pub fn place_at<'a>(table: &'a Table, key: &str) -> Result<&'a str, InputFault>
    ensures { Finds (λ s. s.now) (λ s. HasText (table_view table.now) key.now s × IsPlace s) result }
{
    let text = name_at(table, key)?;
    if is_socket(text) {
        Ok(text)
    } else {
        address_at(table, key)
    }
}

/// Returns the number at a key, or the default if the table doesn't have the key. The functions below do this for
/// values of other kinds.
fn number_or(table: &Table, key: &str, default: u64) -> Result<u64, InputFault>
    ensures { Finds (λ n. n) (OrDefault (table_view table.now) key.now default (HasNumber (table_view table.now) key.now)) result }
{
    if has_key(table, key) {
        number_at(table, key)
    } else {
        Ok(default)
    }
}

fn count_or(table: &Table, key: &str, default: u64) -> Result<u64, InputFault>
    ensures { Finds (λ n. n) (OrDefault (table_view table.now) key.now default (λ n. HasNumber (table_view table.now) key.now n × IsCount n)) result }
{
    if has_key(table, key) {
        count_at(table, key)
    } else {
        Ok(default)
    }
}

fn flag_or(table: &Table, key: &str, default: bool) -> Result<bool, InputFault>
    ensures { Finds (λ b. b) (OrDefault (table_view table.now) key.now default (HasFlag (table_view table.now) key.now)) result }
{
    if has_key(table, key) {
        flag_at(table, key)
    } else {
        Ok(default)
    }
}

fn sealing_or(table: &Table, key: &str, default: Sealing) -> Result<Sealing, InputFault>
    ensures { Finds (λ s. s) (OrDefault (table_view table.now) key.now default (HasSealing (table_view table.now) key.now)) result }
{
    if has_key(table, key) {
        sealing_at(table, key)
    } else {
        Ok(default)
    }
}

fn name_or<'a>(table: &'a Table, key: &str, default: &'a str) -> Result<&'a str, InputFault>
    ensures { Finds (λ s. s.now) (OrDefault (table_view table.now) key.now default.now (λ s. HasText (table_view table.now) key.now s × IsName s)) result }
{
    if has_key(table, key) {
        name_at(table, key)
    } else {
        Ok(default)
    }
}

fn place_or<'a>(table: &'a Table, key: &str, default: &'a str) -> Result<&'a str, InputFault>
    ensures { Finds (λ s. s.now) (OrDefault (table_view table.now) key.now default.now (λ s. HasText (table_view table.now) key.now s × IsPlace s)) result }
{
    if has_key(table, key) {
        place_at(table, key)
    } else {
        Ok(default)
    }
}

/// Returns the leaf load of a disk whose settings name none: more blocks to a leaf take buckets of four slots or more.
fn default_leaf_load(slots: u64) -> u64
    ensures { result ≡ default_leaf_load slots }
{
    if 4 <= slots { DEFAULT_LEAF_LOAD } else { 1 }
}

/// Returns the leaf load, or its default for buckets of so many slots.
fn leaf_load_or(table: &Table, slots: u64) -> Result<u64, InputFault>
    ensures { Finds (λ n. n) (OrDefault (table_view table.now) (codes "leaf_load") (default_leaf_load slots) (HasNumber (table_view table.now) (codes "leaf_load"))) result }
{
    number_or(table, "leaf_load", default_leaf_load(slots))
}

/// Returns the default for `table`: an entry for each of the disk's blocks, so that the disk has one tree.
pub fn default_table(size: u64, block: u64) -> u64
    ensures { result ≡ default_table size block }
{
    size.checked_div(block).unwrap_or(0)
}

/// Returns the default for `near`: 1/32 of the disk's size, and at most [`MOST_NEAR`].
pub fn default_near(size: u64) -> u64
    ensures { result ≡ default_near size }
{
    (size / 32).min(MOST_NEAR)
}

fn disk_in(alloc: Global, document: &Table) -> Result<DiskSettings, InputFault>
    ensures { Finds settings_value (IsDisk (table_view document.now)) result }
{
    if !has_only(
        document,
        &[
            "size",
            "block",
            "slots",
            "leaf_load",
            "table",
            "sealer",
            "near",
            "key",
            "host",
            "listen",
            "state",
            "sync",
            "reconnect_timeout",
        ],
    ) {
        return Err(InputFault::Bad);
    }
    let size = number_at(document, "size")?;
    let block = number_or(document, "block", DEFAULT_BLOCK)?;
    let slots = number_or(document, "slots", DEFAULT_SLOTS)?;
    let leaf_load = leaf_load_or(document, slots)?;
    let table = number_or(document, "table", default_table(size, block))?;
    let sealer = sealing_or(document, "sealer", Sealing::ChaCha)?;
    let near = number_or(document, "near", default_near(size))?;
    let key = key_at(document, "key")?;
    let host = place_at(document, "host")?;
    let listen = place_or(document, "listen", "unix:disk.sock")?;
    let state = name_or(document, "state", "disk.state")?;
    let sync = flag_or(document, "sync", true)?;
    let reconnect_timeout = count_or(document, "reconnect_timeout", DEFAULT_RECONNECT_TIMEOUT)?;
    Ok(DiskSettings {
        size,
        block,
        slots,
        leaf_load,
        table,
        sealer,
        near,
        key,
        host: String::from_str(alloc, host)?,
        listen: String::from_str(alloc, listen)?,
        state: String::from_str(alloc, state)?,
        sync,
        reconnect_timeout,
    })
}

/// Reads a disk's settings from a TOML document.
pub fn read_disk_settings(alloc: Global, text: &str) -> Result<DiskSettings, InputFault>
    // The text is a document whose table has these settings.
    ensures ok { IfOk result (λ s. IsDocumentOf text.now (settings_value s)) }
    // `Bad` comes only if the text is no such document for any settings.
    ensures bad { IsErrOf result InputFault.Bad → (s : _) → IsDocumentOf text.now s → ⊥ }
{
    let table = table_of(alloc, text)?;
    disk_in(alloc, &table)
}

/// Returns the device with this size in bytes, or `None` if that isn't a whole number of blocks, or no device can have
/// these numbers.
pub fn device_of(size: u64, block: u64, slots: u64, leaf_load: u64, table: u64) -> Option<Device>
    ensures some { IfSome result (λ d. IsDeviceOf size block slots leaf_load table d) }
    ensures none { result ≡ None → (d : _) → IsDeviceOf size block slots leaf_load table d → ⊥ }
{
    let blocks = size.checked_div(block)?;
    if size % block != 0 {
        return None;
    }
    Device::packed(blocks, block, slots, table, LIFETIME, leaf_load).ok()
}

/// Returns the text of a new disk's settings file. It sets the size in bytes and the key, which the caller draws at
/// random. The settings that have defaults are in it as comments.
pub fn disk_text(alloc: Global, size: u64, key: &[u8; 32]) -> Result<String, AllocError>
    ensures { IfOk result (λ text. string_bytes text ≡ first_text size key.now) }
{
    let key = encode(alloc, key)?;
    let key = key.as_str();
    let table = default_table(size, DEFAULT_BLOCK);
    let near = default_near(size);
    format!(in alloc;
        "# The disk's size in bytes. It is fixed once the disk is formatted.\nsize = {size}\n\n# Whoever has this key can read the disk. Without it nobody can.\nkey = \"{key}\"\n\n# Where the host is reached: your end of the tunnel, a socket in this folder, for you alone; or \"127.0.0.1:PORT\", for all users of\n# this machine.\nhost = \"unix:buckets.sock\"\n\n# Each line below shows what holds without it. To set another value, take away the \"# \" that the line begins with.\n\n# These six are fixed once the disk is formatted.\n# block = 4096               # the bytes of a block\n# slots = 4                  # how many blocks a bucket has room for\n# leaf_load = 5              # for how many blocks there is a leaf, which takes two buckets at the host; with fewer than 4 slots it is 1\n# table = {table}             # the most entries of the table that the client keeps; with one for each block the disk has one tree\n# sealer = \"chacha\"          # how buckets are sealed; \"plain\" hides nothing, and is only for trying things out\n# near = {near}            # the most bytes of the tree's top levels that the client itself keeps\n\n# These may be changed at any time.\n# listen = \"unix:disk.sock\"  # where the disk is served: a socket in this folder, for you alone; or \"127.0.0.1:PORT\", for all users of this machine\n# state = \"disk.state\"       # the file of the disk's state, in this folder\n# sync = true                # each state is synced before it counts\n# reconnect_timeout = 600    # for how many seconds the client waits for a host that doesn't answer\n"
    )
}
