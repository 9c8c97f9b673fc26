//! Command lines that name a subcommand and give it one word.

ghost use Rattle.std.specs.Prelude.{◌≡◌, ◌≢◌, None, Some, false, true, map, string_bytes, IfOk, IsErrOf};
ghost use Rattle.clap.specs.Faults.{is_simple_and_free};
ghost use Rattle.clap.specs.Walk.{texts};
ghost use Rattle.clap.specs.Words.{app_of, kind_of, shape_of};
ghost use Rattle.clap.specs.declared.builder.command.Command.TheViews.{out-Command as fields_of};
ghost use Rattle.oram_cli.specs.CommandLine.{named_in};
ghost use Rattle.oram_cli.specs.CommandLine as spec;

use crate::input::InputFault;
use clap::error::ErrorKind;
use clap::{Arg, Command, Error};
use std::alloc::{AllocError, Global};
use std::rt::Env;
use std::{env, io};

/// Returns the words that the program was started with. Fails with [`InputFault::Bad`] if one of them isn't text.
pub fn arguments<R: Env + AllocGlobal>(rt: &R) -> Result<Vec<String>, InputFault> {
    let args = match env::args(rt) {
        Ok(args) => args,
        Err(error) => {
            return Err(if error.kind() == io::ErrorKind::OutOfMemory {
                InputFault::OutOfMemory
            } else {
                InputFault::Bad
            });
        }
    };
    Ok(args.collect(rt.alloc())?)
}

/// Returns the text of each word.
pub fn texts_of<'a>(alloc: Global, words: &'a [String]) -> Result<Vec<&'a str>, AllocError>
    ensures { IfOk result (λ v. texts v.items ≡ map string_bytes words.now) }
{
    let mut texts = Vec::new(alloc);
    for word in words {
        texts.push(word.as_str())?;
    }
    Ok(texts)
}

/// Returns a subcommand that takes one word.
pub fn word_taker<'a>(alloc: Global, name: &'a str) -> Result<Command<'a>, AllocError>
    ensures local { IfOk result (λ c. (fields_of c).has_globals ≡ false) }
    ensures shape { IfOk result (λ c. shape_of c ≡ spec.word_taker name.entry.now) }
{
    Command::new(alloc, name).arg(Arg::new(alloc, "word").required(true))
}

/// Returns the program's fault for an error of clap.
fn input_fault(error: &Error) -> InputFault
    ensures { result ≡ InputFault.Bad → kind_of error.now ≢ ErrorKind.OutOfMemory }
{
    if error.kind() == ErrorKind::OutOfMemory {
        InputFault::OutOfMemory
    } else {
        InputFault::Bad
    }
}

/// Returns the subcommand that the words name, and the word that they give it. The first of `words` is the program's
/// name. A request for help is refused like any other words that name no subcommand.
pub fn read_named<'a>(
    command: Command<'a>,
    words: &'a [&'a str],
) -> Result<(&'a str, &'a str), InputFault>
    // clap's contracts say which words such a command takes.
    requires { is_simple_and_free (app_of command) ≡ true }
    ensures ok { IfOk result (λ p. named_in (app_of command.entry) (texts words.now) ≡ Some (p.0.now, p.1.now)) }
    // `Bad` comes only if the words name no subcommand, or give it no word or more than one.
    ensures bad { IsErrOf result InputFault.Bad → named_in (app_of command.entry) (texts words.now) ≡ None }
{
    let matches = match command.try_get_matches_from(words) {
        Ok(matches) => matches,
        Err(error) => return Err(input_fault(&error)),
    };
    let Some((name, inner)) = matches.subcommand() else {
        return Err(InputFault::Bad);
    };
    let Some(word) = inner.get_str("word") else {
        return Err(InputFault::Bad);
    };
    Ok((name, word))
}
