//! The block store as a daemon: a bucket host, the formatting of a device on it, and the proxy that answers the device's
//! sessions.
#![tactic(auto)]

mod command_line;
mod endings;
mod faults;
mod files;
mod formatted_state;
mod frame_loop;
mod loaders;
mod roles;
mod room;
mod settings_file;

pub use command_line::{HELP, Role, Subcommand, asks_for_help, read_command_line};
pub use endings::{after_serving, ending};
pub use faults::{Fault, report};
pub use formatted_state::{format_state, made_device};
pub use frame_loop::{answer_frames, bytes_of};
pub use loaders::{load_core, load_host};
pub use oram_cli::InputFault;
use oram_cli::{arguments, texts_of};
pub use settings_file::{Settings, read_settings};
use std::process::ExitCode;
use std::rt::Env;

/// Reads what the command line asks for. Returns `None` if that is help.
fn read_arguments<R: Env + AllocGlobal>(rt: &R) -> Result<Option<Subcommand>, InputFault> {
    let words = arguments(rt)?;
    let texts = texts_of(rt.alloc(), &words)?;
    if asks_for_help(&texts) {
        return Ok(None);
    }
    Ok(Some(read_command_line(rt.alloc(), &texts)?))
}

/// Does what the command line asks for.
fn run(rt: &HostRuntime) -> Result<(), Fault> {
    match read_arguments(rt) {
        Ok(Some(Subcommand::Run(role, name))) => roles::run(rt, role, name.as_str()),
        Ok(Some(Subcommand::Loop(digits))) => roles::loop_frames(rt, digits.as_str()),
        Ok(None) => {
            let _passed_over = rt.print(HELP);
            Ok(())
        }
        Err(InputFault::Bad) => Err(Fault::CommandLine),
        Err(InputFault::OutOfMemory) => Err(Fault::OutOfMemory),
    }
}

fn main(rt: HostRuntime) -> ExitCode {
    match run(&rt) {
        Ok(()) => ExitCode::SUCCESS,
        Err(fault) => ExitCode::from(report(&mut rt.stderr(), &fault)),
    }
}
