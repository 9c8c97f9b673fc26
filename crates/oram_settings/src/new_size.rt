//! The size that a new disk is asked to have.

use crate::disk_file::DEFAULT_BLOCK;
use crate::sizes::read_size;
use std::alloc::{AllocError, Global};

/// Returns whether a word is a size once its unit is written out, such as `1G`.
fn lacks_letters(alloc: Global, word: &str) -> Result<bool, AllocError> {
    let whole = format!(in alloc; "{word}iB")?;
    Ok(read_size(whole.as_str()).is_some())
}

/// Returns why no disk is made with the size that a word says, and what to write in its place.
pub fn size_mistake(alloc: Global, word: &str) -> Result<String, AllocError> {
    match read_size(word) {
        Some(size) if size < DEFAULT_BLOCK => format!(in alloc;
            "a disk of {size} bytes would be smaller than one block, which has {DEFAULT_BLOCK}: name a size and its unit, such as 64MiB"
        ),
        Some(_) => format!(in alloc; "no disk has the size {word}: name one up to 256GiB"),
        None if lacks_letters(alloc, word)? => {
            format!(in alloc;
                "the size {word} has half a unit: write {word}iB, or {word}B for powers of ten"
            )
        }
        None => format!(in alloc;
            "{word} isn't a size: name a number and its unit, such as 512MiB or 1GiB"
        ),
    }
}
