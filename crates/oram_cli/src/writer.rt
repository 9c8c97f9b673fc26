//! Writing texts to a writer that may fail.

ghost use Rattle.std.specs.Prelude.{◌++◌, decimal, OnOk};
ghost use Rattle.std.specs.Io.KnownBytes.{Appends};
ghost use Rattle.oram_host.specs.Transfers.{Begins};

use oram_wire::{WriteFault, write};
use std::io::Write;

/// Writes a text. If the writer fails, it has taken a beginning of the text.
pub fn put<W: Write>(writer: &mut W, text: &[u8]) -> Result<(), WriteFault>
    ensures ok { OnOk result (Appends (W.contents writer.old) (W.contents writer.new) text.now) }
    ensures begun { Begins (W.contents writer.old) (W.contents writer.new) text.now }
{
    write(writer, text)
}

/// Writes two texts, one after the other.
pub fn put_both<W: Write>(writer: &mut W, front: &[u8], rest: &[u8]) -> Result<(), WriteFault>
    ensures ok { OnOk result (Appends (W.contents writer.old) (W.contents writer.new) (front.now ++ rest.now)) }
    ensures begun { Begins (W.contents writer.old) (W.contents writer.new) (front.now ++ rest.now) }
{
    put(writer, front)?;
    put(writer, rest)
}

/// Writes a text between two others.
pub fn put_between<W: Write>(
    writer: &mut W,
    front: &[u8],
    text: &[u8],
    rest: &[u8],
) -> Result<(), WriteFault>
    ensures ok { OnOk result (Appends (W.contents writer.old) (W.contents writer.new) (front.now ++ text.now ++ rest.now)) }
    ensures begun { Begins (W.contents writer.old) (W.contents writer.new) (front.now ++ text.now ++ rest.now) }
{
    put_both(writer, front, text)?;
    put(writer, rest)
}

/// Writes a text, and then a number in decimal.
pub fn put_number<W: Write>(writer: &mut W, front: &[u8], number: u8) -> Result<(), WriteFault>
    ensures ok { OnOk result (Appends (W.contents writer.old) (W.contents writer.new) (front.now ++ decimal number)) }
    ensures begun { Begins (W.contents writer.old) (W.contents writer.new) (front.now ++ decimal number) }
{
    let ones = b'0' + number % 10;
    let tens = b'0' + number / 10 % 10;
    if number < 10 {
        put_both(writer, front, &[ones])
    } else if number < 100 {
        put_both(writer, front, &[tens, ones])
    } else {
        put_both(writer, front, &[b'0' + number / 100, tens, ones])
    }
}
