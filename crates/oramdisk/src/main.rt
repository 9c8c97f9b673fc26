//! A disk on a rented machine: the host that keeps its buckets in a file, and its client, which formats and serves it.
#![tactic(auto)]

mod clients;
mod serve_command;
mod watched_disk;

use oram_cli::{InputFault, arguments, texts_of};
use oram_disk_client::{check_host, export_image, format_disk, make_folder, print_status, retry};
use oram_disk_host::{Fault, FaultKind, host, report_fault};
use oram_settings::{NoRequest, Subcommand, read_command_line};
use std::process::ExitCode;
use std::rt::Env;

/// The complaint about a command line that isn't text.
const NO_TEXT: &str = "a word of the command line isn't text in UTF-8";

/// Reads what the command line asks for.
fn read_arguments<R: Env + AllocGlobal>(rt: &R) -> Result<Subcommand, NoRequest> {
    let alloc = rt.alloc();
    let words = match arguments(rt) {
        Ok(words) => words,
        Err(InputFault::Bad) => return Err(NoRequest::Mistake(String::from_str(alloc, NO_TEXT)?)),
        Err(InputFault::OutOfMemory) => return Err(NoRequest::OutOfMemory),
    };
    let texts = texts_of(alloc, &words)?;
    read_command_line(alloc, &texts)
}

/// Does what the command line asks for.
fn run(rt: &HostRuntime) -> Result<(), Fault> {
    match read_arguments(rt) {
        Ok(Subcommand::Host { settings, is_new }) => host(rt, settings, is_new),
        Ok(Subcommand::New { folder, size }) => make_folder(rt, folder, size.as_str()),
        Ok(Subcommand::Format(name)) => format_disk(rt, name),
        Ok(Subcommand::Serve(name)) => serve_command::serve_disk(rt, name),
        Ok(Subcommand::Status { settings, is_json }) => print_status(rt, settings, is_json),
        Ok(Subcommand::Retry(name)) => retry(rt, name),
        Ok(
            Subcommand::Check {
                settings,
                is_salvage,
            },
        ) => check_host(rt, settings, is_salvage),
        Ok(
            Subcommand::Export {
                settings,
                image,
                is_salvage,
            },
        ) => export_image(rt, settings, image, is_salvage),
        Err(NoRequest::Help(text)) => {
            let _passed_over = rt.print(text.as_str());
            Ok(())
        }
        Err(NoRequest::Mistake(text)) => Err(Fault::About(FaultKind::CommandLine, text)),
        Err(NoRequest::OutOfMemory) => Err(Fault::OutOfMemory),
    }
}

fn main(rt: HostRuntime) -> ExitCode {
    match run(&rt) {
        Ok(()) => ExitCode::SUCCESS,
        Err(fault) => ExitCode::from(report_fault(&mut rt.stderr(), &fault)),
    }
}
