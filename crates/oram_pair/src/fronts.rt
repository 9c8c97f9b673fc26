//! The first bytes of the two files: letters that say what the file is, a version, and an identity that the two share.
ghost use Rattle.std.specs.Prelude.{◌≡◌, IfSome, Some};
ghost use Rattle.oram_pair.specs.Fronts.{IsFront, front_bytes};
ghost use Rattle.oram_pair.specs.declared.fronts.Identity.{Identity};

/// The number of bytes at the beginning of a file that say what it is.
pub const FRONT_LEN: usize = 32;

/// The number of these bytes that are letters and version.
pub const LETTERS_LEN: usize = 16;

/// Bytes that a file shares with its log, and with no other file.
#[derive(Clone, Copy, Debug, PartialEq, Eq)]
pub struct Identity(pub [u8; 16]);

/// Returns the first bytes of a file with these letters and this identity.
pub fn front_of(letters: &[u8; 16], identity: &Identity) -> [u8; 32]
    ensures { result ≡ front_bytes letters.now identity.now }
{
    let mut front = [0; FRONT_LEN];
    front[..LETTERS_LEN].copy_from_slice(letters);
    front[LETTERS_LEN..].copy_from_slice(&identity.0);
    front
}

/// Returns the identity in the first bytes of a file, or `None` if the file doesn't begin with these letters and an identity.
pub fn identity_in(letters: &[u8; 16], bytes: &[u8]) -> Option<Identity>
    ensures found { IfSome result (λ identity. IsFront letters.now identity bytes.now) }
    ensures read_again { (identity : Identity) → IsFront letters.now identity bytes.now → result ≡ Some identity }
{
    if bytes.len() < FRONT_LEN || !bytes.starts_with(letters) {
        return None;
    }
    let mut identity = [0; 16];
    identity.copy_from_slice(&bytes[LETTERS_LEN..FRONT_LEN]);
    Some(Identity(identity))
}
