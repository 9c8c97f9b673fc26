//! The command line of `oramdisk`.

ghost use Rattle.std.specs.Prelude.{◌≡◌, ◌≢◌, [], None, Some, false, IfErr, IfOk, option_map};
ghost use Rattle.clap.specs.Faults.{fault_of};
ghost use Rattle.clap.specs.Walk.{texts};
ghost use Rattle.clap.specs.Words.{Shape, app_of, kind_of, rule_of, shape_of, with_rule, with_subcommand as subcommand_added};
ghost use Rattle.clap.specs.declared.builder.command.Command.TheViews.{out-Command as fields_of};
ghost use Rattle.oram_settings.specs.CommandLine as spec;
ghost use Rattle.oram_settings.specs.CommandLine.{AnswersFaults, AnswersFault, bare, program, request_in, request_of, request_for};

use crate::help;
use clap::error::ErrorKind;
use clap::{Arg, ArgAction, Command, Error};
use std::alloc::{AllocError, Global};

/// What the words of a command line ask for.
#[derive(Debug, Drop)]
pub enum Subcommand {
    /// To run a bucket host, with the settings in the file of this name, and with a new file of buckets if `is_new`.
    Host {
        settings: String,
        is_new: bool,
    },
    /// To make a folder of this name, with first settings for a disk of this size.
    New {
        folder: String,
        size: String,
    },
    /// To format the disk whose settings are in the file of this name.
    Format(String),
    /// To serve the disk whose settings are in the file of this name.
    Serve(String),
    /// To print the status of the disk whose settings are in the file of this name, in JSON if `is_json`.
    Status {
        settings: String,
        is_json: bool,
    },
    /// To try the disk whose settings are in the file of this name again after it has failed.
    Retry(String),
    /// To check all records at the host of the disk whose settings are in the file of this name, and to say what could be saved if
    /// `is_salvage`.
    Check {
        settings: String,
        is_salvage: bool,
    },
    /// To write what is in the disk whose settings are in the file of this name to the file `image`, and to leave out what is lost
    /// if `is_salvage`.
    Export {
        settings: String,
        image: String,
        is_salvage: bool,
    },
}

/// Why the words of a command line don't ask for a subcommand.
#[derive(Debug, PartialEq, Eq, Drop)]
pub enum NoRequest {
    /// They ask for help or for the version. This is the text to print.
    Help(String),
    /// They are wrong. The text says what is wrong, and how the program is used. It has no prefix, and no newline at
    /// its end.
    Mistake(String),
    OutOfMemory,
}

impl From<AllocError> for NoRequest {
    ghost use Rattle.oram_settings.specs.declared.command_line.NoRequest.TheVariants.{OutOfMemory};

    ghost from_gives = { λ _ why. why ≡ OutOfMemory };

    fn from(_error: AllocError) -> NoRequest {
        NoRequest::OutOfMemory
    }
}

/// Returns the word that a subcommand takes, with its name and its description, as help shows them.
fn word<'a>(alloc: Global, name: &'a str, help: &'a str) -> Arg<'a>
    ensures rule { rule_of result ≡ spec.word_rule }
    ensures local { result.global ≡ false }
{
    Arg::new(alloc, "word")
        .value_name(name)
        .help(help)
        .required(true)
}

/// Returns a subcommand with its word and one more argument.
fn with_args<'a>(
    command: Command<'a>,
    word: Arg<'a>,
    more: Arg<'a>,
) -> Result<Command<'a>, AllocError>
    requires word { word.global ≡ false }
    requires more { more.global ≡ false }
    requires local { (fields_of command).has_globals ≡ false }
    ensures local { IfOk result (λ c. (fields_of c).has_globals ≡ false) }
    ensures app { IfOk result (λ c. app_of c ≡ with_rule (with_rule (app_of command.entry) (rule_of word.entry)) (rule_of more.entry)) }
{
    command.arg(word)?.arg(more)
}

/// Returns the subcommand that makes a folder.
fn folder_maker<'a>(alloc: Global) -> Result<Command<'a>, AllocError>
    ensures local { IfOk result (λ c. (fields_of c).has_globals ≡ false) }
    ensures shape { IfOk result (λ c. shape_of c ≡ spec.folder_maker) }
{
    let size = Arg::new(alloc, "size")
        .long("size")
        .value_name("SIZE")
        .help(help::SIZE)
        .required(true);
    let new = Command::new(alloc, "new")
        .version(help::VERSION)
        .about(help::NEW)
        .after_help(help::NEW_MORE);
    with_args(new, word(alloc, "FOLDER", help::FOLDER), size)
}

/// Returns the subcommand that runs a host.
fn host_runner<'a>(alloc: Global) -> Result<Command<'a>, AllocError>
    ensures local { IfOk result (λ c. (fields_of c).has_globals ≡ false) }
    ensures shape { IfOk result (λ c. shape_of c ≡ spec.host_runner) }
{
    let new = Arg::new(alloc, "new")
        .long("new")
        .help(help::NEW_FILE)
        .action(ArgAction::SetTrue);
    let host = Command::new(alloc, "host")
        .version(help::VERSION)
        .about(help::HOST)
        .after_help(help::HOST_MORE);
    with_args(host, word(alloc, "SETTINGS", help::HOST_SETTINGS), new)
}

/// Returns the subcommand that prints the status of a disk.
fn status_printer<'a>(alloc: Global) -> Result<Command<'a>, AllocError>
    ensures local { IfOk result (λ c. (fields_of c).has_globals ≡ false) }
    ensures shape { IfOk result (λ c. shape_of c ≡ spec.status_printer) }
{
    let json = Arg::new(alloc, "json")
        .long("json")
        .help(help::JSON)
        .action(ArgAction::SetTrue);
    let status = Command::new(alloc, "status")
        .version(help::VERSION)
        .about(help::STATUS)
        .after_help(help::STATUS_MORE);
    with_args(status, word(alloc, "SETTINGS", help::DISK_SETTINGS), json)
}

/// Returns the flag for leaving out what is lost.
fn salvage_flag<'a>(alloc: Global) -> Arg<'a>
    ensures rule { rule_of result ≡ spec.salvage_rule }
    ensures local { result.global ≡ false }
{
    Arg::new(alloc, "salvage")
        .long("salvage")
        .help(help::SALVAGE)
        .action(ArgAction::SetTrue)
}

/// Returns the word that names an image.
fn image_word<'a>(alloc: Global) -> Arg<'a>
    ensures rule { rule_of result ≡ spec.image_rule }
    ensures local { result.global ≡ false }
{
    Arg::new(alloc, "image")
        .value_name("IMAGE")
        .help(help::IMAGE)
        .required(true)
}

/// Returns the subcommand that checks the records of a disk.
fn checker<'a>(alloc: Global) -> Result<Command<'a>, AllocError>
    ensures local { IfOk result (λ c. (fields_of c).has_globals ≡ false) }
    ensures shape { IfOk result (λ c. shape_of c ≡ spec.checker) }
{
    let check = Command::new(alloc, "check")
        .version(help::VERSION)
        .about(help::CHECK)
        .after_help(help::CHECK_MORE);
    let settings = word(alloc, "SETTINGS", help::DISK_SETTINGS);
    with_args(check, settings, salvage_flag(alloc))
}

/// Returns the subcommand that writes what is in a disk to an image.
fn exporter<'a>(alloc: Global) -> Result<Command<'a>, AllocError>
    ensures local { IfOk result (λ c. (fields_of c).has_globals ≡ false) }
    ensures shape { IfOk result (λ c. shape_of c ≡ spec.exporter) }
{
    let export = Command::new(alloc, "export")
        .version(help::VERSION)
        .about(help::EXPORT)
        .after_help(help::EXPORT_MORE);
    let settings = word(alloc, "SETTINGS", help::DISK_SETTINGS);
    with_args(export, settings, image_word(alloc))?.arg(salvage_flag(alloc))
}

/// Returns a subcommand that takes the name of a disk's settings file.
fn disk_command<'a>(
    alloc: Global,
    name: &'a str,
    about: &'a str,
    more: &'a str,
) -> Result<Command<'a>, AllocError>
    ensures local { IfOk result (λ c. (fields_of c).has_globals ≡ false) }
    ensures shape { IfOk result (λ c. shape_of c ≡ spec.disk_command name.entry.now) }
{
    Command::new(alloc, name)
        .version(help::VERSION)
        .about(about)
        .after_help(more)
        .arg(word(alloc, "SETTINGS", help::DISK_SETTINGS))
}

/// Returns the command without its subcommands.
fn bare_command<'a>(alloc: Global) -> Command<'a>
    ensures { app_of result ≡ bare }
{
    Command::new(alloc, "oramdisk")
        .version(help::VERSION)
        .about(help::PROGRAM)
        .after_help(help::PROGRAM_MORE)
        .subcommand_required(true)
}

/// Returns a command with one more subcommand, unless that couldn't be made.
fn with_subcommand<'a>(
    command: Command<'a>,
    made: Result<Command<'a>, AllocError>,
) -> Result<Command<'a>, AllocError>
    requires { IfOk made (λ s. (fields_of s).has_globals ≡ false) }
    ensures { (shape : Shape) → IfOk made.entry (λ s. shape_of s ≡ shape)
        → IfOk result (λ c. app_of c ≡ subcommand_added (app_of command.entry) shape) }
{
    command.subcommand(made?)
}

/// Returns the command line as clap needs it.
fn command<'a>(alloc: Global) -> Result<Command<'a>, AllocError>
    ensures { IfOk result (λ c. app_of c ≡ program) }
{
    let made = with_subcommand(bare_command(alloc), folder_maker(alloc))?;
    let made = with_subcommand(made, host_runner(alloc))?;
    let format = disk_command(alloc, "format", help::FORMAT, help::FORMAT_MORE);
    let made = with_subcommand(made, format)?;
    let serve = disk_command(alloc, "serve", help::SERVE, help::SERVE_MORE);
    let made = with_subcommand(made, serve)?;
    let made = with_subcommand(made, status_printer(alloc))?;
    let retry = disk_command(alloc, "retry", help::RETRY, help::RETRY_MORE);
    let made = with_subcommand(made, retry)?;
    let made = with_subcommand(made, checker(alloc))?;
    with_subcommand(made, exporter(alloc))
}

/// Returns whether a flag was given, by the text that clap has for it.
fn is_given(flag: Option<&str>) -> bool
    ensures { result ≡ spec.is_given (option_map (λ s. s.now) flag.entry) }
{
    match flag {
        Some(text) => text == "true",
        None => false,
    }
}

/// Returns what a subcommand asks for, by its word, whether the flags for a new file, for JSON and for leaving out what is lost were
/// given, and perhaps a size or the name of an image. Returns `None` if there is no such subcommand.
fn subcommand_of(
    alloc: Global,
    name: &str,
    word: &str,
    is_new: bool,
    is_json: bool,
    is_salvage: bool,
    size: Option<&str>,
    image: Option<&str>,
) -> Result<Option<Subcommand>, AllocError>
    ensures { IfOk result (λ w. request_of name.now word.now is_new is_json is_salvage (option_map (λ s. s.now) size.entry) (option_map (λ s. s.now) image.entry) ≡ option_map request_for w) }
{
    let word = String::from_str(alloc, word)?;
    match (size, image) {
        (None, None) => match name {
            "host" => Ok(Some(Subcommand::Host {
                settings: word,
                is_new,
            })),
            "format" => Ok(Some(Subcommand::Format(word))),
            "serve" => Ok(Some(Subcommand::Serve(word))),
            "status" => Ok(Some(Subcommand::Status {
                settings: word,
                is_json,
            })),
            "retry" => Ok(Some(Subcommand::Retry(word))),
            "check" => Ok(Some(Subcommand::Check {
                settings: word,
                is_salvage,
            })),
            _ => Ok(None),
        },
        (Some(size), None) => match name {
            "new" => Ok(Some(Subcommand::New {
                folder: word,
                size: String::from_str(alloc, size)?,
            })),
            _ => Ok(None),
        },
        (None, Some(image)) => match name {
            "export" => Ok(Some(Subcommand::Export {
                settings: word,
                image: String::from_str(alloc, image)?,
                is_salvage,
            })),
            _ => Ok(None),
        },
        _ => Ok(None),
    }
}

/// Returns the message in a text of clap, which begins with a prefix and ends with a newline.
fn message(alloc: Global, text: &str) -> Result<String, AllocError> {
    String::from_str(
        alloc,
        text.strip_prefix("error: ").unwrap_or(text).trim_end(),
    )
}

/// Returns what an error of clap is for the program: an answer to a request for help, or a mistake.
fn no_request_for(alloc: Global, error: &Error) -> Result<NoRequest, AllocError>
    ensures { IfOk result (λ why. AnswersFault (kind_of error.now) why) }
{
    if error.kind() == ErrorKind::OutOfMemory {
        return Ok(NoRequest::OutOfMemory);
    }
    let text = format!(in alloc; "{error}")?;
    if error.use_stderr() {
        Ok(NoRequest::Mistake(message(alloc, text.as_str())?))
    } else {
        Ok(NoRequest::Help(text))
    }
}

/// Returns the mistake for words that clap accepts, but that ask for nothing.
fn no_request(alloc: Global) -> NoRequest
    ensures { AnswersFaults [] result }
{
    match String::from_str(alloc, help::NO_REQUEST) {
        Ok(text) => NoRequest::Mistake(text),
        Err(_) => NoRequest::OutOfMemory,
    }
}

/// Reads the words of a command line. The first word is the program's name.
pub fn read_command_line(alloc: Global, words: &[&str]) -> Result<Subcommand, NoRequest>
    // The result is what clap's matches of the words ask for.
    ensures ok { IfOk result (λ w. request_in (texts words.now) ≡ Some (request_for w)) }
    // Help and mistakes come only if the words don't ask for a subcommand.
    ensures none { IfErr result (λ why. why ≢ NoRequest.OutOfMemory → request_in (texts words.now) ≡ None) }
    // Help comes only if the words ask for help or the version, and a mistake only if they don't ask for one of these
    // alone.
    ensures reason { IfErr result (AnswersFaults (fault_of program (texts words.now))) }
{
    let matches = match command(alloc)?.try_get_matches_from(words) {
        Ok(matches) => matches,
        Err(error) => return Err(no_request_for(alloc, &error)?),
    };
    let Some((name, inner)) = matches.subcommand() else {
        return Err(no_request(alloc));
    };
    let Some(word) = inner.get_str("word") else {
        return Err(no_request(alloc));
    };
    let is_new = is_given(inner.get_str("new"));
    let is_json = is_given(inner.get_str("json"));
    let is_salvage = is_given(inner.get_str("salvage"));
    let size = inner.get_str("size");
    let image = inner.get_str("image");
    match subcommand_of(alloc, name, word, is_new, is_json, is_salvage, size, image)? {
        Some(words) => Ok(words),
        None => Err(no_request(alloc)),
    }
}
