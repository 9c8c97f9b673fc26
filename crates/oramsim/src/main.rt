//! A program that runs scripts over the block store.
//!
//! A script is lines of text. They give a device's five numbers, submit commands of its sessions, and say what the host
//! answers and what happens to the messages on their way. The program prints what the device replies and sends, a line
//! each.
#![tactic(auto)]

ghost use Rattle.std.specs.Prelude.{◌≡◌};
ghost use Rattle.oramsim.specs.Script.{exit_status};

mod fields;
mod line;
mod lines;
mod machine;
mod printer;
mod script;

pub use script::{Ending, SimFault, run_script};
use std::io;
use std::io::{BufReader, BufWriter};
use std::process::ExitCode;

/// Returns the exit status of a run.
fn status(ended: Result<Ending, SimFault>) -> u8
    ensures { result ≡ exit_status ended }
{
    match ended {
        Ok(Ending::End) => 0,
        Ok(Ending::BadLine(_)) => 2,
        Err(SimFault::OutOfMemory) => 3,
        Err(SimFault::Read | SimFault::Write) => 4,
    }
}

/// Runs the script from standard input.
fn run(rt: &(impl Input + Print + AllocGlobal)) -> Result<Ending, SimFault> {
    let reader = BufReader::new(rt.alloc(), rt.reader());
    let writer = BufWriter::new(rt.alloc(), io::writer(rt));
    let (Ok(mut reader), Ok(mut writer)) = (reader, writer) else {
        machine::put(&mut io::writer(rt), b"out of memory\n")?;
        return Err(SimFault::OutOfMemory);
    };
    run_script(rt.alloc(), &mut reader, &mut writer)
}

fn main(rt: HostRuntime) -> ExitCode {
    ExitCode::from(status(run(&rt)))
}
