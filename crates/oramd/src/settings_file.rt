//! Reads the settings file.

ghost use Rattle.std.specs.Prelude.{◌≡◌, IfOk, IsErrOf};
ghost use Rattle.toml.specs.View.{table_view};
ghost use Rattle.oram_cli.specs.Tables.{Finds};
ghost use Rattle.oramd.specs.Settings.{IsDocumentOf, IsSettings, settings_value};

use crate::command_line::Role;
use oram_cli::{
    InputFault, address_at, count_at, has_only, key_at, name_at, number_at, sealer_in, table_of,
};
use std::alloc::Global;
use std::fmt;
use toml::Table;

/// What a settings file says.
#[derive(Drop)]
pub enum Settings {
    /// The settings of a bucket host: where it listens, how many connections it serves, and the file for its buckets.
    Host {
        listen: String,
        connections: u64,
        image: String,
    },
    /// The settings for formatting a device: its host, the file for its state, its sealer and its five numbers.
    Format {
        host: String,
        state: String,
        /// The sealer's key, if buckets are sealed with ChaCha20.
        key: Option<[u8; 32]>,
        blocks: u64,
        block_bytes: u64,
        slots: u64,
        top: u64,
        lifetime: u64,
    },
    /// The settings of a proxy: where it listens, how many sessions it serves, and its device.
    Proxy {
        listen: String,
        connections: u64,
        host: String,
        state: String,
        /// The sealer's key, if buckets are sealed with ChaCha20.
        key: Option<[u8; 32]>,
        tape_key: [u8; 32],
    },
}

// Shows no key.
impl fmt::Debug for Settings {
    fn fmt<W: fmt::Write>(&self, f: &mut fmt::Formatter<W>) -> fmt::Result {
        f.write_str(match self {
            Settings::Host { .. } => "Host { .. }",
            Settings::Format { .. } => "Format { .. }",
            Settings::Proxy { .. } => "Proxy { .. }",
        })
    }
}

fn host_in(alloc: Global, table: &Table) -> Result<Settings, InputFault>
    ensures { Finds settings_value (IsSettings Role.Host (table_view table.now)) result }
{
    if !has_only(table, &["listen", "connections", "image"]) {
        return Err(InputFault::Bad);
    }
    let listen = address_at(table, "listen")?;
    let connections = count_at(table, "connections")?;
    let image = name_at(table, "image")?;
    Ok(Settings::Host {
        listen: String::from_str(alloc, listen)?,
        connections,
        image: String::from_str(alloc, image)?,
    })
}

fn format_in(alloc: Global, table: &Table) -> Result<Settings, InputFault>
    ensures { Finds settings_value (IsSettings Role.Format (table_view table.now)) result }
{
    if !has_only(
        table,
        &[
            "host",
            "state",
            "seal",
            "seal_key",
            "blocks",
            "block_bytes",
            "slots",
            "top",
            "lifetime",
        ],
    ) {
        return Err(InputFault::Bad);
    }
    let host = address_at(table, "host")?;
    let state = name_at(table, "state")?;
    let key = sealer_in(table)?;
    let blocks = number_at(table, "blocks")?;
    let block_bytes = number_at(table, "block_bytes")?;
    let slots = number_at(table, "slots")?;
    let top = number_at(table, "top")?;
    let lifetime = number_at(table, "lifetime")?;
    Ok(Settings::Format {
        host: String::from_str(alloc, host)?,
        state: String::from_str(alloc, state)?,
        key,
        blocks,
        block_bytes,
        slots,
        top,
        lifetime,
    })
}

fn proxy_in(alloc: Global, table: &Table) -> Result<Settings, InputFault>
    ensures { Finds settings_value (IsSettings Role.Proxy (table_view table.now)) result }
{
    if !has_only(
        table,
        &[
            "listen",
            "connections",
            "host",
            "state",
            "seal",
            "seal_key",
            "tape_key",
        ],
    ) {
        return Err(InputFault::Bad);
    }
    let listen = address_at(table, "listen")?;
    let connections = count_at(table, "connections")?;
    let host = address_at(table, "host")?;
    let state = name_at(table, "state")?;
    let key = sealer_in(table)?;
    let tape_key = key_at(table, "tape_key")?;
    Ok(Settings::Proxy {
        listen: String::from_str(alloc, listen)?,
        connections,
        host: String::from_str(alloc, host)?,
        state: String::from_str(alloc, state)?,
        key,
        tape_key,
    })
}

/// Reads the settings of a role from a TOML document. Fails with `Bad` if the text is no such document.
pub fn read_settings(alloc: Global, role: Role, text: &str) -> Result<Settings, InputFault>
    // The text is a document whose table has these settings.
    ensures ok { IfOk result (λ s. IsDocumentOf role text.now (settings_value s)) }
    // `Bad` comes only if the text is no document of any settings of the role.
    ensures bad { IsErrOf result InputFault.Bad → (s : _) → IsDocumentOf role text.now s → ⊥ }
{
    let table = table_of(alloc, text)?;
    match role {
        Role::Host => host_in(alloc, &table),
        Role::Format => format_in(alloc, &table),
        Role::Proxy => proxy_in(alloc, &table),
    }
}
