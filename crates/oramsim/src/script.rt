//! Scripts and their runs.
ghost use Rattle.std.specs.Prelude.{◌≡◌, ◌⊎◌, [], ◌∷◌, true, false, None, IfOk, IfErr, OnOk, IfSome};
ghost use Rattle.std.specs.Io.BufRead.{strip_last};
ghost use Rattle.std.specs.Io.KnownBytes.{Appends, IsAtEnd};
ghost use Rattle.oramsim.specs.declared.script.SimFault.TheVariants.{OutOfMemory};
ghost use Rattle.oramsim.specs.Printer.{error_text};
ghost use Rattle.oramsim.specs.Lines.{line_of};
ghost use Rattle.oramsim.specs.Script.{Point, IsBad, IsHarmless, IsPassed, IsWithin};
ghost use Rattle.oramsim.specs.Correspondence.{AreWhole, GivesUpAt, HasEnded, HasGivenUp, IsGivingUp, RunsOnAt, IsFaithfulAt, IsPrintedInPart, StandsAt};

use crate::line::Line;
use crate::lines::{flush, next_line};
use crate::machine::{Machine, begin, put};
use crate::printer::ErrorText;
use oram_geometry::Device;
use std::alloc::{AllocError, AllocFailed, Global};
use std::io::{BufRead, Write};
use thiserror::Error;

/// How a script ended.
#[derive(Clone, Copy, Debug, PartialEq, Eq)]
pub enum Ending {
    /// All lines were run.
    End,
    /// The script can't have the line of this number where it is. Lines count from 1.
    BadLine(u64),
}

/// Why the run of a script was given up.
#[derive(Clone, Copy, Debug, PartialEq, Eq, Error)]
pub enum SimFault {
    #[error("out of memory")]
    OutOfMemory,
    #[error("the script could not be read")]
    Read,
    #[error("the output could not be written")]
    Write,
}

impl From<AllocError> for SimFault {
    ghost from_gives = { λ _ e. e ≡ OutOfMemory };

    fn from(_error: AllocError) -> SimFault {
        SimFault::OutOfMemory
    }
}

/// Returns a line without the byte 0A at its end.
fn without_end(line: &[u8]) -> &[u8]
    ensures { result.now ≡ strip_last 10 line.now }
{
    match line {
        [front @ .., b'\n'] => front,
        _ => line,
    }
}

/// Does what a line says. Returns false if the script can't have this line where it is.
fn pass<W: Write>(
    alloc: Global,
    writer: &mut W,
    machine: &mut Option<Machine>,
    bytes: &[u8],
) -> Result<bool, SimFault>
    requires { AreWhole machine.old }
    ensures whole { OnOk result (AreWhole machine.new) }
    ensures ok { (p : Point) → StandsAt p.stage machine.old → result ≡ Ok true → (q : Point) × IsPassed p bytes.now q
        × RunsOnAt p q machine.new (W.contents writer.old) (W.contents writer.new)
        × (IsHarmless (line_of bytes.now) → IsFaithfulAt p.stage machine.old → IsFaithfulAt q.stage machine.new) }
    ensures bad { (p : Point) → StandsAt p.stage machine.old → result ≡ Ok false → IsBad p.stage bytes.now × (W.contents writer.new ≡ W.contents writer.old) }
    ensures err { (p : Point) → StandsAt p.stage machine.old → IfErr result (λ e. GivesUpAt p (IsHarmless (line_of bytes.now) × IsFaithfulAt p.stage machine.old) (λ q. IsPassed p bytes.now q ⊎ IsWithin p (bytes.now ∷ []) q) e
        (W.contents writer.old) (W.contents writer.new)) }
{
    if bytes.is_empty() {
        return Ok(true);
    }
    let Some(line) = Line::read(alloc, bytes)? else {
        return Ok(false);
    };
    match machine {
        Some(machine) => machine.obey(alloc, writer, line),
        None => {
            let Line::Device {
                blocks,
                block_bytes,
                slots,
                top,
                lifetime,
            } = line
            else {
                return Ok(false);
            };
            let device = Device::new(blocks, block_bytes, slots, top, lifetime);
            *machine = begin(alloc, writer, device)?;
            Ok(true)
        }
    }
}

/// Prints the number of a line that the script can't have.
fn print_bad_line<W: Write>(alloc: Global, writer: &mut W, number: u64) -> Result<(), SimFault>
    ensures ok { OnOk result (Appends (W.contents writer.old) (W.contents writer.new) (error_text number)) }
    ensures err { IfErr result (λ e. IsPrintedInPart e (error_text number) (W.contents writer.old) (W.contents writer.new)) }
{
    let text = format!(in alloc; "{}", ErrorText(number))?;
    put(writer, text.as_bytes())
}

/// Runs the lines of a script, up to the first that it can't have. There is no machine yet, and `line` is room for a line. Both
/// are borrowed, so that no way out of the loop has to drop them: each such drop would need a proof of its own.
fn run_each<R: BufRead, W: Write>(
    alloc: Global,
    reader: &mut R,
    writer: &mut W,
    machine: &mut Option<Machine>,
    line: &mut Vec<u8>,
) -> Result<Ending, SimFault>
    requires { machine.old ≡ None }
    ensures ok { IfOk result (λ ending. HasEnded (R.remaining reader.old) (W.contents writer.old) (W.contents writer.new) ending) }
    ensures end { result ≡ Ok Ending.End → IfSome (R.remaining reader.old) (λ _. IsAtEnd (R.remaining reader.new)) }
    ensures err { IfErr result (λ e. IsGivingUp (R.remaining reader.old) (W.contents writer.old) (W.contents writer.new) e) }
{
    let mut held = 0;
    for number in 0..u64::MAX {
        if !next_line(reader, writer, &mut held, line)? {
            return Ok(Ending::End);
        }
        if !pass(alloc, writer, machine, without_end(line.as_slice()))? {
            print_bad_line(alloc, writer, number + 1)?;
            return Ok(Ending::BadLine(number + 1));
        }
    }
    Err(SimFault::Read)
}

/// Runs the lines of a script, and prints `out of memory` if memory runs out.
fn run_to_end<R: BufRead, W: Write>(
    alloc: Global,
    reader: &mut R,
    writer: &mut W,
) -> Result<Ending, SimFault>
    ensures ok { IfOk result (λ ending. HasEnded (R.remaining reader.old) (W.contents writer.old) (W.contents writer.new) ending) }
    ensures end { result ≡ Ok Ending.End → IfSome (R.remaining reader.old) (λ _. IsAtEnd (R.remaining reader.new)) }
    ensures err { IfErr result (λ e. HasGivenUp (R.remaining reader.old) (W.contents writer.old) (W.contents writer.new) e) }
{
    let mut line = Vec::new(alloc);
    match run_each(alloc, reader, writer, &mut None, &mut line) {
        Err(SimFault::OutOfMemory) => {
            put(writer, b"out of memory\n")?;
            Err(SimFault::OutOfMemory)
        }
        ended => ended,
    }
}

/// Runs a script and writes what it prints. If the run ends early because of a line that the script can't have or
/// because memory runs out, the last line that is written says so.
pub fn run_script<R: BufRead, W: Write>(
    alloc: Global,
    reader: &mut R,
    writer: &mut W,
) -> Result<Ending, SimFault>
    ensures ok { IfOk result (λ ending. HasEnded (R.remaining reader.old) (W.contents writer.old) (W.contents writer.new) ending) }
    ensures end { result ≡ Ok Ending.End → IfSome (R.remaining reader.old) (λ _. IsAtEnd (R.remaining reader.new)) }
    ensures err { IfErr result (λ e. HasGivenUp (R.remaining reader.old) (W.contents writer.old) (W.contents writer.new) e) }
{
    let ended = run_to_end(alloc, reader, writer);
    flush(writer)?;
    ended
}
