//! Names of files and places that are relative to other files.

ghost use Rattle.std.specs.Prelude.{◌≡◌, IfOk, string_bytes};
ghost use Rattle.oram_settings.specs.Places.{IsSeenFrom};
ghost use Rattle.std.specs.Path.{path_with_file_name};

use std::alloc::{AllocError, Global};
use std::path::Path;

/// Returns the path of a file whose name is relative to the folder of another. A name that begins with a slash stays as
/// it is.
pub fn relative_to(alloc: Global, file: &str, name: &str) -> Result<String, AllocError>
    ensures { IfOk result (λ path. string_bytes path ≡ path_with_file_name file.now name.now) }
{
    let path = Path::new(file).with_file_name(alloc, name)?;
    Ok(path.into_string())
}

/// Returns a place that the settings in a file name, as seen from the working directory. The name of a Unix socket is relative to
/// the folder of the file. An address stays as it is.
pub fn place_beside(alloc: Global, file: &str, place: &str) -> Result<String, AllocError>
    ensures { IfOk result (λ seen. IsSeenFrom file.now place.now (string_bytes seen)) }
{
    match place.strip_prefix("unix:") {
        Some(name) => {
            let path = relative_to(alloc, file, name)?;
            let path = path.as_str();
            format!(in alloc; "unix:{path}")
        }
        None => String::from_str(alloc, place),
    }
}
