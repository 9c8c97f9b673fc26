//! The change that an access makes to a block's data.
ghost use Rattle.std.specs.Prelude.{◌≡◌, ◌≤◌, ◌+◌, ◌*◌, length, IfOk};
ghost use Rattle.oram_tree.specs.Edits.{edited_content, with_entry, HasRoomFor};

use byteorder::{BigEndian, ByteOrder};
use std::alloc::{AllocError, Global};

/// The number of bytes of an entry of a map block.
const ENTRY_LEN: usize = 4;

/// The change that an access makes to a block's data.
#[derive(Clone, Copy, Debug)]
pub enum Edit<'a> {
    /// The data stays as it is.
    Keep,
    /// These bytes, as many as a block has, replace the data.
    Replace(&'a [u8]),
    /// In a map block, the entry with this index gets this value: a leaf of the tree below plus one, or 0.
    Entry(usize, u32),
}

/// Returns a block's data after an edit. Fails only if memory runs out.
pub(crate) fn apply(alloc: Global, edit: Edit<'_>, before: &[u8]) -> Result<Vec<u8>, AllocError>
    requires { HasRoomFor (length before.now) edit }
    ensures { IfOk result (λ v. v.items ≡ edited_content edit.entry before.now) }
{
    match edit {
        Edit::Keep => before.to_vec(alloc),
        Edit::Replace(bytes) => bytes.to_vec(alloc),
        Edit::Entry(index, value) => {
            let mut content = before.to_vec(alloc)?;
            write_entry(&mut content, index, value);
            Ok(content)
        }
    }
}

/// Changes one entry of a map block's data.
fn write_entry(content: &mut [u8], index: usize, value: u32)
    requires { 4 * index + 4 ≤ length content.old }
    ensures { content.new ≡ with_entry content.old index value }
{
    let start = ENTRY_LEN * index;
    BigEndian::write_u32(&mut content[start..start + ENTRY_LEN], value);
}
