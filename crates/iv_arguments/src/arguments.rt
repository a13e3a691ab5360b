//! `settings`, `asked_for`: reads the words after the program's name, with help, version and errors.
//!
//! `settings` promises ranges alone, since clap's clauses say nothing of a subcommand's values: a body that answers
//! another number of the range, or an error, meets its contract. Words and texts are shown by tests. A word that is
//! not text is status 1, with a text of ours; `--help` is status 0 even if standard output is closed.

ghost use Rattle.std.specs.Prelude.{◌≤◌, IfOk, IfSome};
ghost use Rattle.iv_rows.specs.RowLimit.{IsRowLimit};
ghost use Rattle.iv_arguments.specs.Arguments.{InRange};

use crate::asked::Settings;
use clap::error::ErrorKind;
use clap::{Arg, ArgMatches, Command, Error, value_parser};
use std::alloc::{AllocError, Global};
use std::process::ExitCode;
use std::{env, io};

/// The program's version.
const VERSION: &str = "1.0.0";

/// What `--help` tells at its end: examples, what a status means, and who may connect.
const MORE: &str = "Examples:
  viewd replay < examples/first_change.jsonl    answers the lines of a file
  viewd serve --port 7171                       answers connections to 127.0.0.1:7171

Status:
  0  all was answered    1  other words    2  reading, writing, random bytes or the network failed    3  out of memory

Who may connect: every program on this machine that reaches 127.0.0.1, and it may act in any role. Tokens are the gateway's.";

/// An option of the command line that takes a number from 1 on, by default 1,000,000.
fn count<'a>(alloc: Global, name: &'a str, help: &'a str) -> Arg<'a> {
    Arg::new(alloc, name)
        .long(name)
        .value_name("N")
        .help(help)
        .value_parser(value_parser!(u32).range(1..))
        .default_value("1000000")
}

/// The option `--rows` of the command line, with its help, its range and its default.
fn rows<'a>(alloc: Global) -> Arg<'a> {
    Arg::new(alloc, "rows")
        .long("rows")
        .value_name("N")
        .help(
            "The number of different rows at most of a table, and of each step of a view that is read",
        )
        .value_parser(value_parser!(u32).range(1_024..=1_048_576))
        .default_value("65536")
}

/// The subcommand `replay` for clap, with its options for lines and rows.
fn replay<'a>(alloc: Global) -> Result<Command<'a>, AllocError> {
    Command::new(alloc, "replay")
        .about("Answers the request lines of standard input on standard output")
        .arg(count(alloc, "lines", "The number of lines to take at most"))?
        .arg(rows(alloc))
}

/// The subcommand `serve` for clap, with its options for the port, connections, lines and rows.
fn serve<'a>(alloc: Global) -> Result<Command<'a>, AllocError> {
    let port = Arg::new(alloc, "port")
        .long("port")
        .value_name("P")
        .help("The port on 127.0.0.1")
        .required(true)
        .value_parser(value_parser!(u16).range(1..));
    Command::new(alloc, "serve")
        .about("Answers the request lines of connections, one connection after another")
        .arg(port)?
        .arg(count(alloc, "connections", "The number of connections to take"))?
        .arg(count(
            alloc,
            "lines",
            "The number of lines to take at most of each connection",
        ))?
        .arg(rows(alloc))
}

/// The command for clap, with its name and version, before its subcommands are added.
fn plain<'a>(alloc: Global) -> Result<Command<'a>, AllocError> {
    let command = Command::new(alloc, "viewd").bin_name("viewd")?;
    Ok(
        command
            .version(VERSION)
            .about("Keeps tables, and tells subscribers what changes in them")
            .after_help(MORE)
            .no_binary_name(true)
            .subcommand_required(true)
            .disable_help_subcommand(true),
    )
}

/// The command with the subcommand `replay` alone, before `serve` is added.
fn with_replay<'a>(alloc: Global) -> Result<Command<'a>, AllocError> {
    let replay = replay(alloc)?;
    match plain(alloc) {
        Ok(command) => command.subcommand(replay),
        Err(refused) => {
            drop(replay);
            Err(refused)
        }
    }
}

/// The whole command, with `replay` and `serve`, by which clap reads the words.
fn command<'a>(alloc: Global) -> Result<Command<'a>, AllocError> {
    let serve = serve(alloc)?;
    match with_replay(alloc) {
        Ok(command) => command.subcommand(serve),
        Err(refused) => {
            drop(serve);
            Err(refused)
        }
    }
}

/// The number of lines or connections that the matched words give, if it is from 1 on.
fn count_of(matches: &ArgMatches<'_>, name: &str) -> Option<u32>
    ensures { IfSome result (λ n. 1 ≤ n) }
{
    let count = matches.get_one::<u32>(name)?;
    if count >= 1 { Some(count) } else { None }
}

/// The number at `--rows` of the matched words, if it is in the range of a row limit.
fn rows_of(matches: &ArgMatches<'_>) -> Option<u32>
    ensures { IfSome result IsRowLimit }
{
    let rows = matches.get_one::<u32>("rows")?;
    if rows >= 1_024 && rows <= 1_048_576 {
        Some(rows)
    } else {
        None
    }
}

/// The port at `--port` of the matched words, if it is from 1 on.
fn port_of(matches: &ArgMatches<'_>) -> Option<u16>
    ensures { IfSome result (λ n. 1 ≤ n) }
{
    let port = matches.get_one::<u16>("port")?;
    if port >= 1 { Some(port) } else { None }
}

/// The settings that the matched words ask for, if each number is in its range.
fn found(matches: &ArgMatches<'_>) -> Option<Settings>
    ensures { IfSome result InRange }
{
    match matches.subcommand() {
        Some(("replay", inner)) => {
            let lines = count_of(inner, "lines")?;
            let rows = rows_of(inner)?;
            Some(Settings::Replay { lines, rows })
        }
        Some(("serve", inner)) => {
            let port = port_of(inner)?;
            let connections = count_of(inner, "connections")?;
            let lines = count_of(inner, "lines")?;
            let rows = rows_of(inner)?;
            Some(Settings::Serve {
                port,
                connections,
                lines,
                rows,
            })
        }
        _ => None,
    }
}

/// The words after the program's name as clap matches them, or its error.
fn matches<'a>(alloc: Global, words: &'a [&'a str]) -> Result<ArgMatches<'a>, Error> {
    let mut command = command(alloc)?;
    let matches = command.try_get_matches_from_mut(words);
    drop(command);
    matches
}

/// The error of clap that a word of the command line is not valid, and why.
fn invalid(alloc: Global, why: &str) -> Error {
    match command(alloc) {
        Ok(mut command) => {
            let error = command.error(ErrorKind::InvalidValue, why);
            drop(command);
            match error {
                Ok(error) => error,
                Err(refused) => Error::from(refused),
            }
        }
        Err(refused) => Error::from(refused),
    }
}

/// Reads the words after the program's name: `replay` with `--lines N` and `--rows N`, or `serve`
/// with `--port P`, `--connections N`, `--lines N` and `--rows N`. P is from 1 to 65,535 and must be
/// given; the rows are from 1,024 to 1,048,576, by default 65,536, and each other N from 1 to
/// 4,294,967,295, by default 1,000,000. Other words, and a call for help, are an error whose text
/// is for the user. Want of memory is the kind `OutOfMemory`.
pub fn settings<'a>(alloc: Global, words: &'a [&'a str]) -> Result<Settings, Error>
    ensures { IfOk result InRange }
{
    let matches = matches(alloc, words)?;
    let found = found(&matches);
    drop(matches);
    match found {
        Some(settings) => Ok(settings),
        None => Err(invalid(alloc, "a number is out of range")),
    }
}

/// All words of the command line, the program's name first. A word that is not text is an error of
/// the kind `InvalidValue`, want of memory one of the kind `OutOfMemory`.
fn read_words(rt: &HostRuntime) -> Result<Vec<String>, Error> {
    let alloc = rt.alloc();
    match env::args(rt) {
        Ok(all) => Ok(all.collect(alloc)?),
        Err(error) => {
            if error.kind() == io::ErrorKind::OutOfMemory {
                return Err(Error::from(AllocError));
            }
            Err(invalid(alloc, "an argument is not text"))
        }
    }
}

/// What the words of the command line ask for, or the status to exit with once the text of the error is printed.
pub fn asked_for(rt: &HostRuntime) -> Result<Settings, ExitCode>
    ensures { IfOk result InRange }
{
    let alloc = rt.alloc();
    let error = match read_words(rt) {
        Ok(all) => match all.iter().skip(1).map(|word| word.as_str()).collect(alloc) {
            Ok(words) => {
                let words: Vec<&str> = words;
                match settings(alloc, words.as_slice()) {
                    Ok(settings) => return Ok(settings),
                    Err(error) => error,
                }
            }
            Err(AllocError) => Error::from(AllocError),
        },
        Err(error) => error,
    };
    let _ = error.print(rt);
    Err(if error.use_stderr() {
        ExitCode::FAILURE
    } else {
        ExitCode::SUCCESS
    })
}
