//! The head of a disk: what its client keeps of it beside the process.
ghost use Rattle.std.specs.Prelude.{◌≡◌, ◌≢◌, [], ℕ, List, None, IfSome};
ghost use Rattle.oram_client.specs.Keys as keys;
ghost use Rattle.oram_client.specs.DiskHead.{IsHead, behind_letters, sealer_byte};
ghost use Rattle.oram_client.specs.declared.disk_head.Head.{Head};
ghost use Rattle.oram_client.specs.declared.disk_head.SealerKind.{SealerKind};

use crate::keys::{DiskKey, KeyCheck, Salt, key_check};

/// How the buckets of a disk are sealed.
#[derive(Clone, Copy, Debug, PartialEq, Eq)]
pub enum SealerKind {
    /// Not at all: the host can read what it keeps.
    Plain,
    /// With the stream of ChaCha20 (RFC 8439).
    ChaCha20,
}

impl SealerKind {
    /// Returns the byte for this sealer in a title.
    fn byte(self) -> u8
        ensures { result ≡ sealer_byte self }
    {
        match self {
            SealerKind::Plain => 0,
            SealerKind::ChaCha20 => 1,
        }
    }

    /// Returns the sealer that `byte` names.
    fn of(byte: u8) -> Option<SealerKind>
        ensures some { IfSome result (λ kind. byte ≡ sealer_byte kind) }
        ensures none { result ≡ None → (kind : SealerKind) → byte ≢ sealer_byte kind }
    {
        match byte {
            0 => Some(SealerKind::Plain),
            1 => Some(SealerKind::ChaCha20),
            _ => None,
        }
    }
}

/// What is kept of a disk, before what is kept of its process.
#[derive(Clone, Copy, Debug, PartialEq, Eq)]
pub struct Head {
    pub salt: Salt,
    pub key_check: KeyCheck,
    pub sealer: SealerKind,
}

impl Head {
    /// Makes the head of a disk that is formatted with this key, salt and sealer.
    pub fn new(key: &DiskKey, salt: Salt, sealer: SealerKind) -> Head
        ensures salt { result.salt ≡ salt }
        ensures key_check { result.key_check.0 ≡ keys.key_check key.now.0 salt.0 }
        ensures sealer { result.sealer ≡ sealer }
    {
        Head {
            salt,
            key_check: key_check(key, &salt),
            sealer,
        }
    }
}

/// Reads a head, and returns the bytes after it.
fn read_head(rest: &[u8]) -> Option<(Head, &[u8])>
    ensures some { IfSome result (λ x. rest.now ≡ behind_letters x.0 x.1.now) }
    ensures head { IfSome result (λ x. IsHead x.0) }
    ensures none { result ≡ None → (head : Head) (others : List ℕ) → IsHead head → rest.now ≢ behind_letters head others }
{
    let (salt, rest) = rest.split_first_chunk::<32>()?;
    let (check, rest) = rest.split_first_chunk::<32>()?;
    let (byte, rest) = rest.split_first()?;
    let head = Head {
        salt: Salt(*salt),
        key_check: KeyCheck(*check),
        sealer: SealerKind::of(*byte)?,
    };
    Some((head, rest))
}

/// The length of a title in bytes.
pub const TITLE_LEN: usize = 65;

/// Returns the title of a disk with this head, behind which its process is kept: the salt, the key check, and the byte of the sealer.
pub fn title_of(head: &Head) -> [u8; TITLE_LEN]
    ensures { result ≡ behind_letters head.now [] }
{
    let mut title = [0; TITLE_LEN];
    title[..32].copy_from_slice(&head.salt.0);
    title[32..64].copy_from_slice(&head.key_check.0);
    title[64] = head.sealer.byte();
    title
}

/// Returns the head in a title, or `None` if it is the title of no disk.
pub fn head_in(title: &[u8]) -> Option<Head>
    ensures some { IfSome result (λ head. IsHead head × (title.now ≡ behind_letters head [])) }
    ensures none { result ≡ None → (head : Head) → IsHead head → title.now ≢ behind_letters head [] }
{
    let (head, rest) = read_head(title)?;
    if !rest.is_empty() {
        return None;
    }
    Some(head)
}
