//! The host's settings file.

ghost use Rattle.std.specs.Prelude.{IfOk, IsErrOf};
ghost use Rattle.toml.specs.View.{table_view};
ghost use Rattle.oram_cli.specs.Tables.{Finds};
ghost use Rattle.oram_disk_host.specs.Settings.{IsDocumentOf, IsHost, settings_value};

use crate::faults::Fault;
use crate::kinds::FaultKind;
use oram_cli::{InputFault, has_only, name_at, table_of, text_in};
use oram_settings::place_at;
use std::alloc::Global;
use std::rt::Files;
use toml::Table;

/// The settings of a bucket host.
#[derive(Debug, Drop)]
pub struct HostSettings {
    /// Where the host listens: an address, or `unix:` and the name of a socket, relative to the folder of the settings.
    pub listen: String,
    /// The file in which the host keeps its buckets.
    pub file: String,
}

/// The settings that a new folder begins with.
pub const FIRST_SETTINGS: &str =
    "# Where the host listens: a socket in this folder, for you alone. Your own machine reaches it through a tunnel, as by\n# ssh -N -o StreamLocalBindUnlink=yes -L mydisk/buckets.sock:/home/you/buckets.sock you@rented.\n# With \"127.0.0.1:PORT\" all users of this machine can connect.\nlisten = \"unix:buckets.sock\"\n# The file of the buckets, relative to this folder; its log is beside it.\nfile = \"buckets\"\n";

fn host_in(alloc: Global, table: &Table) -> Result<HostSettings, InputFault>
    ensures { Finds settings_value (IsHost (table_view table.now)) result }
{
    if !has_only(table, &["listen", "file"]) {
        return Err(InputFault::Bad);
    }
    let listen = place_at(table, "listen")?;
    let file = name_at(table, "file")?;
    Ok(HostSettings {
        listen: String::from_str(alloc, listen)?,
        file: String::from_str(alloc, file)?,
    })
}

/// Reads a host's settings from a TOML document.
pub fn read_host_settings(alloc: Global, text: &str) -> Result<HostSettings, InputFault>
    // The text is a document whose table has these settings.
    ensures ok { IfOk result (λ s. IsDocumentOf text.now (settings_value s)) }
    // `Bad` comes only if the text is no such document for any settings.
    ensures bad { IsErrOf result InputFault.Bad → (s : _) → IsDocumentOf text.now s → ⊥ }
{
    let table = table_of(alloc, text)?;
    host_in(alloc, &table)
}

/// Reads a whole settings file, a host's or a disk's. Fails with [`FaultKind::Settings`] if it isn't text in UTF-8.
pub fn settings_text<R: Files + AllocGlobal>(rt: &R, name: &str) -> Result<String, Fault> {
    match text_in(rt, name)? {
        Some(text) => Ok(text),
        None => {
            let mistake = format!(in rt.alloc(); "{name} isn't text in UTF-8")?;
            Err(Fault::About(FaultKind::Settings, mistake))
        }
    }
}
