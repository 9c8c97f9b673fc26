//! The command line.

ghost use Rattle.std.specs.Prelude.{◌≡◌, None, Some, false, IfOk, IsErrOf, IsTrue};
ghost use Rattle.clap.specs.Walk.{texts};
ghost use Rattle.clap.specs.Words.{app_of};
ghost use Rattle.oramd.specs.CommandLine.{IsHelp, program, request_in, request_of, request_for};

use clap::Command;
use oram_cli::{InputFault, read_named, word_taker};
use std::alloc::{AllocError, Global};

/// What the program prints if it is asked for help.
pub const HELP: &str = "oramd: an oblivious block store

  oramd host HOST.toml        keeps buckets for others
  oramd format FORMAT.toml    makes a device on a host, and its state file
  oramd proxy PROXY.toml      answers the device's sessions
  oramd loop HEX              answers session frames on a device of its own, over a socket to itself
  oramd -h                    shows this

docs/oramd.md describes the settings, and docs/formats.md the frames. For a disk that a system mounts, use oramdisk.
";

/// What the program does with its settings.
#[derive(Clone, Copy, Debug, PartialEq, Eq)]
pub enum Role {
    /// Keeps buckets for others.
    Host,
    /// Makes a device on a host.
    Format,
    /// Answers the sessions of a device.
    Proxy,
}

/// What a command line asks for.
#[derive(Debug, Drop)]
pub enum Subcommand {
    /// To take a role, with the name of its settings file.
    Run(Role, String),
    /// To answer the session frames in these hexadecimal digits.
    Loop(String),
}

/// Returns whether a word asks for help.
fn is_help(word: &str) -> bool
    ensures yes { IsTrue result → IsHelp word.now }
    ensures no { result ≡ false → ¬ IsHelp word.now }
{
    match word {
        "-h" | "--help" => true,
        _ => false,
    }
}

/// Returns whether the words of a command line ask for help and nothing else. The first word is the program's name.
pub fn asks_for_help(words: &[&str]) -> bool {
    match words {
        [_, word] => is_help(word),
        _ => false,
    }
}

/// Describes the command line to clap.
fn command<'a>(alloc: Global) -> Result<Command<'a>, AllocError>
    ensures { IfOk result (λ c. app_of c ≡ program) }
{
    Command::new(alloc, "oramd")
        .subcommand_required(true)
        .subcommand(word_taker(alloc, "host")?)?
        .subcommand(word_taker(alloc, "format")?)?
        .subcommand(word_taker(alloc, "proxy")?)?
        .subcommand(word_taker(alloc, "loop")?)
}

/// Returns what the subcommand `name` asks for with its word. Fails with `Bad` if there is no such subcommand.
fn subcommand_of(alloc: Global, name: &str, word: &str) -> Result<Subcommand, InputFault>
    ensures ok { IfOk result (λ w. request_of name.now word.now ≡ Some (request_for w)) }
    ensures bad { IsErrOf result InputFault.Bad → request_of name.now word.now ≡ None }
{
    let word = String::from_str(alloc, word)?;
    match name {
        "host" => Ok(Subcommand::Run(Role::Host, word)),
        "format" => Ok(Subcommand::Run(Role::Format, word)),
        "proxy" => Ok(Subcommand::Run(Role::Proxy, word)),
        "loop" => Ok(Subcommand::Loop(word)),
        _ => Err(InputFault::Bad),
    }
}

/// Reads the words of a command line, beginning with the program's name. Fails with `Bad` if they ask for nothing that
/// the program can do. A request for help does so too ([`asks_for_help`]).
pub fn read_command_line(alloc: Global, words: &[&str]) -> Result<Subcommand, InputFault>
    // It is what clap's matches of the words ask for.
    ensures ok { IfOk result (λ w. request_in (texts words.now) ≡ Some (request_for w)) }
    // `Bad` comes only if the words ask for nothing.
    ensures bad { IsErrOf result InputFault.Bad → request_in (texts words.now) ≡ None }
{
    let (name, word) = read_named(command(alloc)?, words)?;
    subcommand_of(alloc, name, word)
}
