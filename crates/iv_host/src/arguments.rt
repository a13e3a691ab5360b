//! `asked_for`: the words after the program's name as settings, with help, version and errors.
//!
//! Ranges are promised, and the keeper of a log by its three options. Which words give which of the other settings is shown by tests.
ghost use Rattle.std.specs.Prelude.{◌≡◌, ◌≤◌, ℕ, IfOk, IfSome, None, Ok, Option, Some, codes, option_map, string_bytes};
ghost use Rattle.std.specs.Str.Parse.{ParsesUnsigned};
ghost use Rattle.clap.specs.Words.{first_value, found_of};
ghost use Rattle.iv_rows.specs.RowLimit.{IsRowLimit};
ghost use Rattle.iv_host.specs.Settings.{AreValid, IsKeeper};
ghost use Rattle.iv_host.specs.declared.arguments.KeeperAt.{KeeperAt};

use clap::error::ErrorKind;
use clap::{Arg, ArgMatches, Command, Error, value_parser};
use std::alloc::{AllocError, Global};
use std::net::{IpAddr, Ipv4Addr};
use std::process::ExitCode;
use std::{env, io};

/// The program's version, and the number of the protocol that it speaks.
const VERSION: &str = "1.0.0 (protocol 1)";

/// Where the keeper of a log is.
#[derive(Debug, Drop)]
pub enum KeeperAt {
    /// At standard input and output.
    Standard,
    /// At a port of 127.0.0.1, where it shows the secret in a file.
    Port(u16, String),
}

/// What the program is asked to do.
#[derive(Debug, Drop)]
pub struct Settings {
    /// The address that is listened on.
    pub host: IpAddr,
    /// The port that is listened on.
    pub port: u16,
    /// The file of accepted requests.
    pub journal: String,
    /// The file of tokens.
    pub tokens: String,
    /// The folder of pages, if there are any.
    pub pages: Option<String>,
    /// The file that a journal begins with that is missing.
    pub seed: Option<String>,
    /// The file with the secret that grants web tokens, if there is one.
    pub jwt_secret: Option<String>,
    /// The keeper of the log that is followed, if one is.
    pub keeper: Option<KeeperAt>,
    /// The number of different rows at most of a table, and of each step of a view that is read.
    pub rows: u32,
    /// The number of sockets at most.
    pub clients: u32,
}

/// An option that takes a text.
fn text<'a>(alloc: Global, name: &'a str, value: &'a str, help: &'a str) -> Arg<'a> {
    Arg::new(alloc, name)
        .long(name)
        .value_name(value)
        .help(help)
}

/// The option `--port`, with its range and its default.
fn port<'a>(alloc: Global) -> Arg<'a> {
    text(alloc, "port", "P", "The port")
        .value_parser(value_parser!(u16).range(1..))
        .default_value("8080")
}

/// The option `--rows`, with its range and its default.
fn rows<'a>(alloc: Global) -> Arg<'a> {
    text(
        alloc,
        "rows",
        "N",
        "The number of different rows at most of a table, and of each step of a view that is read",
    )
    .value_parser(value_parser!(u32).range(1_024..=1_048_576))
    .default_value("65536")
}

/// The option `--clients`, with its range and its default.
fn clients<'a>(alloc: Global) -> Arg<'a> {
    text(alloc, "clients", "N", "The number of sockets at most")
        .value_parser(value_parser!(u32).range(1..=1_000_000))
        .default_value("10000")
}

/// Adds the options of the network and of sizes.
fn with_numbers<'a>(alloc: Global, command: Command<'a>) -> Result<Command<'a>, AllocError> {
    let host = text(alloc, "host", "ADDRESS", "The address").default_value("127.0.0.1");
    command
        .arg(port(alloc))?
        .arg(host)?
        .arg(rows(alloc))?
        .arg(clients(alloc))
}

/// Adds the options of files.
fn with_files<'a>(alloc: Global, command: Command<'a>) -> Result<Command<'a>, AllocError> {
    let journal = text(
        alloc,
        "journal",
        "FILE",
        "The accepted requests. It is made where it is missing",
    );
    let tokens = text(
        alloc,
        "tokens",
        "FILE",
        "A line for each token: its SHA-256, and its role",
    );
    command
        .arg(journal.required(true))?
        .arg(tokens.required(true))?
        .arg(text(alloc, "pages", "FOLDER", "Pages for browsers"))?
        .arg(text(
            alloc,
            "seed",
            "FILE",
            "What a journal begins with that is missing",
        ))?
        .arg(text(
            alloc,
            "jwt-secret-file",
            "FILE",
            "The secret of web tokens (HS256), of 32 bytes or more",
        ))
}

/// Adds the options of a log.
fn with_log<'a>(alloc: Global, command: Command<'a>) -> Result<Command<'a>, AllocError> {
    command
        .arg(text(
            alloc,
            "log",
            "PORT",
            "Follow a log, whose keeper comes to this port of 127.0.0.1, or is at standard input and output (-)",
        ))?
        .arg(text(
            alloc,
            "log-secret-file",
            "FILE",
            "The secret that a keeper shows at the port, of 32 bytes or more",
        ))
}

/// The command, by which clap reads the words.
fn command<'a>(alloc: Global) -> Result<Command<'a>, AllocError> {
    let command = Command::new(alloc, "gateway")
        .version(VERSION)
        .about("Serves browsers by WebSocket, with a journal")
        .no_binary_name(true);
    let command = with_log(alloc, with_files(alloc, command)?)?;
    with_numbers(alloc, command)
}

/// The port of the matched words, if it is from 1 on.
fn port_of(matches: &ArgMatches<'_>) -> Option<u16>
    ensures { IfSome result (λ n. 1 ≤ n) }
{
    let port = matches.get_one::<u16>("port")?;
    if port >= 1 { Some(port) } else { None }
}

/// The rows of the matched words, if they are in the range of a row limit.
fn rows_of(matches: &ArgMatches<'_>) -> Option<u32>
    ensures { IfSome result IsRowLimit }
{
    let rows = matches.get_one::<u32>("rows")?;
    if rows >= 1_024 && rows <= 1_048_576 {
        Some(rows)
    } else {
        None
    }
}

/// The sockets of the matched words, if they are from 1 to 1,000,000.
fn clients_of(matches: &ArgMatches<'_>) -> Option<u32>
    ensures { IfSome result (λ n. (1 ≤ n) × (n ≤ 1000000)) }
{
    let clients = matches.get_one::<u32>("clients")?;
    if clients >= 1 && clients <= 1_000_000 {
        Some(clients)
    } else {
        None
    }
}

/// The address of the matched words, if it is one.
fn host_of(matches: &ArgMatches<'_>) -> Option<IpAddr> {
    match matches.get_str("host") {
        None => Some(IpAddr::V4(Ipv4Addr::LOCALHOST)),
        Some(text) => match text.parse::<IpAddr>() {
            Ok(host) => Some(host),
            Err(_) => None,
        },
    }
}

/// The text of an option, if it has one.
fn text_of(
    alloc: Global,
    matches: &ArgMatches<'_>,
    name: &str,
) -> Result<Option<String>, AllocError>
    ensures { IfOk result (λ o. option_map string_bytes o ≡ first_value (found_of matches.now) name.now) }
{
    match matches.get_str(name) {
        None => Ok(None),
        Some(text) => Ok(Some(String::from_str(alloc, text)?)),
    }
}

/// The port that a text writes, if it is from 1 on.
fn port_in(text: &str) -> Option<u16>
    ensures some { IfSome result (λ n. ParsesUnsigned {E = Unit {0}} 16 10 text.now (Ok n) × (1 ≤ n)) }
    ensures none { result ≡ None → (n : ℕ) → ParsesUnsigned {E = Unit {0}} 16 10 text.now (Ok n) → 1 ≤ n → ⊥ }
{
    match text.parse::<u16>() {
        Ok(number) => { if number >= 1 { Some(number) } else { None } }
        Err(_) => None,
    }
}

/// The keeper at a port, or at standard input and output.
fn keeper_by(log: &str, secret: Option<String>) -> Option<KeeperAt>
    ensures some { IfSome result (λ k. IsKeeper (Some log.now) (option_map string_bytes secret) None (Some k)) }
    ensures none { result ≡ None → (k : Option KeeperAt) → IsKeeper (Some log.now) (option_map string_bytes secret) None k → ⊥ }
{
    match secret {
        Some(file) => Some(KeeperAt::Port(port_in(log)?, file)),
        None => {
            if log == "-" {
                Some(KeeperAt::Standard)
            } else {
                None
            }
        }
    }
}

/// The keeper of a log by the texts of its options and whether there is a seed; none if these cannot be.
fn keeper_at(
    log: Option<String>,
    secret: Option<String>,
    seed: &Option<String>,
) -> Option<Option<KeeperAt>>
    ensures some { IfSome result (IsKeeper (option_map string_bytes log) (option_map string_bytes secret) (option_map string_bytes seed.now)) }
    ensures none { result ≡ None → (k : Option KeeperAt)
        → IsKeeper (option_map string_bytes log) (option_map string_bytes secret) (option_map string_bytes seed.now) k → ⊥ }
{
    match log {
        None => { if secret.is_none() { Some(None) } else { None } }
        Some(log) => {
            if seed.is_some() {
                return None;
            }
            Some(Some(keeper_by(log.as_str(), secret)?))
        }
    }
}

/// The keeper of a log by the matched words; none if these cannot be.
fn keeper_of(
    alloc: Global,
    matches: &ArgMatches<'_>,
    seed: &Option<String>,
) -> Result<Option<Option<KeeperAt>>, AllocError>
    ensures some { IfOk result (λ o. IfSome o (IsKeeper (first_value (found_of matches.now) (codes "log"))
        (first_value (found_of matches.now) (codes "log-secret-file")) (option_map string_bytes seed.now))) }
    ensures none { IfOk result (λ o. o ≡ None → (k : Option KeeperAt) → IsKeeper (first_value (found_of matches.now) (codes "log"))
        (first_value (found_of matches.now) (codes "log-secret-file")) (option_map string_bytes seed.now) k → ⊥) }
{
    let log = text_of(alloc, matches, "log")?;
    let secret = text_of(alloc, matches, "log-secret-file")?;
    Ok(keeper_at(log, secret, seed))
}

/// The numbers of settings.
#[derive(Clone, Copy)]
struct Numbers {
    host: IpAddr,
    port: u16,
    rows: u32,
    clients: u32,
}

/// The numbers of the matched words, if each is in its range.
fn numbers_of(matches: &ArgMatches<'_>) -> Option<Numbers>
    ensures { IfSome result (λ n. (1 ≤ n.port) × IsRowLimit n.rows × (1 ≤ n.clients) × (n.clients ≤ 1000000)) }
{
    let host = host_of(matches)?;
    let port = port_of(matches)?;
    let rows = rows_of(matches)?;
    let clients = clients_of(matches)?;
    Some(Numbers {
        host,
        port,
        rows,
        clients,
    })
}

/// The settings that the matched words ask for; none if a number, the address or the keeper is not valid.
fn found(alloc: Global, matches: &ArgMatches<'_>) -> Result<Option<Settings>, AllocError>
    ensures valid { IfOk result (λ o. IfSome o AreValid) }
    ensures keeper { IfOk result (λ o. IfSome o (λ s. IsKeeper (first_value (found_of matches.now) (codes "log"))
        (first_value (found_of matches.now) (codes "log-secret-file")) (first_value (found_of matches.now) (codes "seed")) s.keeper)) }
{
    let Some(numbers) = numbers_of(matches) else {
        return Ok(None);
    };
    let (Some(journal), Some(tokens)) = (
        text_of(alloc, matches, "journal")?,
        text_of(alloc, matches, "tokens")?,
    ) else {
        return Ok(None);
    };
    let seed = text_of(alloc, matches, "seed")?;
    let Some(keeper) = keeper_of(alloc, matches, &seed)? else {
        return Ok(None);
    };
    Ok(Some(Settings {
        host: numbers.host,
        port: numbers.port,
        journal,
        tokens,
        pages: text_of(alloc, matches, "pages")?,
        seed,
        jwt_secret: text_of(alloc, matches, "jwt-secret-file")?,
        keeper,
        rows: numbers.rows,
        clients: numbers.clients,
    }))
}

/// The words as clap matches them, or its error.
fn matches<'a>(alloc: Global, words: &'a [&'a str]) -> Result<ArgMatches<'a>, Error> {
    let mut command = command(alloc)?;
    let matches = command.try_get_matches_from_mut(words);
    drop(command);
    matches
}

/// The error of clap that a word of the command line is not valid, and why.
fn invalid(alloc: Global, why: &str) -> Error {
    match command(alloc) {
        Ok(mut command) => {
            let error = command.error(ErrorKind::InvalidValue, why);
            drop(command);
            match error {
                Ok(error) => error,
                Err(refused) => Error::from(refused),
            }
        }
        Err(refused) => Error::from(refused),
    }
}

/// The words after the program's name as settings.
fn settings_in<'a>(alloc: Global, words: &'a [&'a str]) -> Result<Settings, Error>
    ensures { IfOk result AreValid }
{
    let matches = matches(alloc, words)?;
    let found = found(alloc, &matches);
    drop(matches);
    match found {
        Ok(Some(settings)) => Ok(settings),
        Ok(None) => Err(invalid(alloc, "an option is not valid")),
        Err(refused) => Err(Error::from(refused)),
    }
}

/// All words of the command line, the program's name first.
fn read_words(rt: &HostRuntime) -> Result<Vec<String>, Error> {
    let alloc = rt.alloc();
    match env::args(rt) {
        Ok(all) => Ok(all.collect(alloc)?),
        Err(error) => {
            if error.kind() == io::ErrorKind::OutOfMemory {
                return Err(Error::from(AllocError));
            }
            Err(invalid(alloc, "an argument is not text"))
        }
    }
}

/// What the words of the command line ask for, or the status to exit with once the text of the error is printed.
pub fn asked_for(rt: &HostRuntime) -> Result<Settings, ExitCode>
    ensures { IfOk result AreValid }
{
    let alloc = rt.alloc();
    let error = match read_words(rt) {
        Ok(all) => match all.iter().skip(1).map(|word| word.as_str()).collect(alloc) {
            Ok(words) => {
                let words: Vec<&str> = words;
                match settings_in(alloc, words.as_slice()) {
                    Ok(settings) => return Ok(settings),
                    Err(error) => error,
                }
            }
            Err(AllocError) => Error::from(AllocError),
        },
        Err(error) => error,
    };
    let _ = error.print(rt);
    Err(if error.use_stderr() {
        ExitCode::FAILURE
    } else {
        ExitCode::SUCCESS
    })
}
