//! Reads the fields of an image, one after the other.

ghost use Rattle.std.specs.Prelude.{◌≡◌, ◌<◌, ◌≤◌, ◌∷◌, [], length, take, codes, IfErr, IfOk, OnOk};
ghost use Rattle.std.specs.Int.{w32, to_be_bytes};
ghost use Rattle.std.specs.Io.KnownBytes.{Consumes, IsAtEnd};
ghost use Rattle.oram_host.specs.ImageReader.{IsFirstFault, after_end, after_letters, after_version, next_byte, next_bytes, next_number};
ghost use Rattle.oram_host.specs.Transfers.{TakesFrom};

use super::{ImageFault, MAGIC, VERSION};
use byteorder::{BigEndian, ByteOrder};
use std::io::Read;

/// Reads until the buffer is full or the input ends, and returns the number of bytes that it read.
fn fill<R: Read>(reader: &mut R, buf: &mut [u8]) -> Result<usize, ImageFault>
    ensures within { IfOk result (λ n. n ≤ length buf.new) }
    ensures ok { IfOk result (λ n. Consumes (R.remaining reader.old) (R.remaining reader.new)
        (take n buf.new)) }
    ensures end { IfOk result (λ n. n < length buf.new → IsAtEnd (R.remaining reader.new)) }
    ensures consumed { TakesFrom (R.remaining reader.old) (R.remaining reader.new) }
    ensures fault { IfErr result (λ why. why ≡ ImageFault.Io) }
{
    match oram_wire::fill(reader, buf) {
        Ok(filled) => Ok(filled),
        Err(_) => Err(ImageFault::Io),
    }
}

/// Fills the buffer. Fails with `Length` if the input ends before that.
pub(super) fn read_bytes<R: Read>(reader: &mut R, buf: &mut [u8]) -> Result<(), ImageFault>
    ensures ok { OnOk result (Consumes (R.remaining reader.old) (R.remaining reader.new) buf.new) }
    ensures consumed { TakesFrom (R.remaining reader.old) (R.remaining reader.new) }
    ensures fault { IfErr result (λ why.
        IsFirstFault (next_bytes (length buf.new)) why (R.remaining reader.old)) }
{
    if fill(reader, buf)? < buf.len() {
        return Err(ImageFault::Length);
    }
    Ok(())
}

pub(super) fn read_byte<R: Read>(reader: &mut R) -> Result<u8, ImageFault>
    ensures ok { IfOk result (λ b. Consumes (R.remaining reader.old) (R.remaining reader.new)
        (b ∷ [])) }
    ensures consumed { TakesFrom (R.remaining reader.old) (R.remaining reader.new) }
    ensures fault { IfErr result (λ why. IsFirstFault next_byte why (R.remaining reader.old)) }
{
    let mut buf = [0; 1];
    read_bytes(reader, &mut buf)?;
    Ok(buf[0])
}

/// Returns the number that four bytes encode, the most significant byte first.
fn number_of(bytes: &[u8]) -> u32
    requires { length bytes.now ≡ 4 }
    ensures { to_be_bytes w32 result ≡ bytes.now }
{
    BigEndian::read_u32(bytes)
}

pub(super) fn read_number<R: Read>(reader: &mut R) -> Result<u32, ImageFault>
    ensures ok { IfOk result (λ n. Consumes (R.remaining reader.old) (R.remaining reader.new)
        (to_be_bytes w32 n)) }
    ensures consumed { TakesFrom (R.remaining reader.old) (R.remaining reader.new) }
    ensures fault { IfErr result (λ why. IsFirstFault next_number why (R.remaining reader.old)) }
{
    let mut buf = [0; 4];
    read_bytes(reader, &mut buf)?;
    Ok(number_of(&buf))
}

/// Reads the eight letters.
pub(super) fn read_letters<R: Read>(reader: &mut R) -> Result<(), ImageFault>
    ensures ok { OnOk result (Consumes (R.remaining reader.old) (R.remaining reader.new)
        (codes "ORAMHOST")) }
    ensures consumed { TakesFrom (R.remaining reader.old) (R.remaining reader.new) }
    ensures fault { IfErr result (λ why. IsFirstFault after_letters why (R.remaining reader.old)) }
{
    let mut buf = [0; 8];
    if fill(reader, &mut buf)? < buf.len() || buf != MAGIC {
        return Err(ImageFault::Magic);
    }
    Ok(())
}

/// Reads the version, which must be 1.
pub(super) fn read_version<R: Read>(reader: &mut R) -> Result<(), ImageFault>
    ensures ok { OnOk result (Consumes (R.remaining reader.old) (R.remaining reader.new)
        (to_be_bytes w32 1)) }
    ensures consumed { TakesFrom (R.remaining reader.old) (R.remaining reader.new) }
    ensures fault { IfErr result (λ why. IsFirstFault after_version why (R.remaining reader.old)) }
{
    if read_number(reader)? != VERSION {
        return Err(ImageFault::Version);
    }
    Ok(())
}

/// Fails with `Length` unless the input ends here.
pub(super) fn read_end<R: Read>(reader: &mut R) -> Result<(), ImageFault>
    ensures ok { OnOk result (Consumes (R.remaining reader.old) (R.remaining reader.new) []) }
    ensures end { OnOk result (IsAtEnd (R.remaining reader.new)) }
    ensures consumed { TakesFrom (R.remaining reader.old) (R.remaining reader.new) }
    ensures fault { IfErr result (λ why. IsFirstFault after_end why (R.remaining reader.old)) }
{
    if fill(reader, &mut [0; 1])? > 0 {
        return Err(ImageFault::Length);
    }
    Ok(())
}
