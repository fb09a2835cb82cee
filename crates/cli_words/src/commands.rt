//! The commands of both programs, and their words as `clap` reads them.

ghost use Rattle.std.specs.Prelude.{◌≡◌, IfOk};
ghost use Rattle.std.specs.List.{fold};
ghost use Rattle.clap.specs.Values.{kind_of};
ghost use Rattle.clap.specs.Simple.{app_of, new_rule, with_rule};
ghost use Rattle.cli_base.specs.Words.{texts};
ghost use Rattle.cli_words.specs.Line.{IsLine, server_names, client_names};
ghost use Rattle.cli_words.specs.Commands.{option_rule, bare_app, IsTaken};

use crate::line::Line;
use clap::error::ErrorKind;
use clap::{Arg, Command, Error};
use sec_base::NoMemory;
use std::alloc::Global;

/// The options of the server: each with its word, which is its id too, and its name, the word without `--`.
const SERVER_OPTIONS: [(&str, &str); 16] = [
    ("--keytab", "keytab"),
    ("--verifiers", "verifiers"),
    ("--name", "name"),
    ("--bind", "bind"),
    ("--offer", "offer"),
    ("--bare", "bare"),
    ("--window", "window"),
    ("--connections", "connections"),
    ("--contexts", "contexts"),
    ("--marks", "marks"),
    ("--log", "log"),
    ("--desks", "desks"),
    ("--idle", "idle"),
    ("--control", "control"),
    ("--journal", "journal"),
    ("--digest", "digest"),
];

/// The options of the client, each with its word and its name.
const CLIENT_OPTIONS: [(&str, &str); 10] = [
    ("--ccache", "ccache"),
    ("--server", "server"),
    ("--user", "user"),
    ("--password", "password"),
    ("--mechs", "mechs"),
    ("--bare", "bare"),
    ("--bind", "bind"),
    ("--service", "service"),
    ("--times", "times"),
    ("--first", "first"),
];

/// The command with places for plain words, of these ids.
fn with_places<'a>(
    alloc: Global,
    mut command: Command<'a>,
    ids: &[&'a str],
) -> Result<Command<'a>, NoMemory>
    ensures { IfOk result (λ more. app_of more
        ≡ fold (λ app id. with_rule app (new_rule id.now)) (app_of command.entry) ids.now) }
{
    for id in ids {
        command = command.arg(Arg::new(alloc, *id))?;
    }
    Ok(command)
}

/// The command with these options too: each with its word, which is its id, and its name.
fn with_options<'a>(
    alloc: Global,
    mut command: Command<'a>,
    options: &[(&'a str, &'a str)],
) -> Result<Command<'a>, NoMemory>
    ensures { IfOk result (λ more. app_of more
        ≡ fold (λ app option. with_rule app (option_rule option.0.now option.1.now))
        (app_of command.entry) options.now) }
{
    for option in options {
        let (word, name) = *option;
        command = command.arg(Arg::new(alloc, word).long(name))?;
    }
    Ok(command)
}

/// The command of this name, with these places and options; its words have no program's name before them.
pub(crate) fn command_of<'a>(
    alloc: Global,
    name: &'a str,
    places: &[&'a str],
    options: &[(&'a str, &'a str)],
) -> Result<Command<'a>, NoMemory>
    ensures { IfOk result (λ command. app_of command
        ≡ fold (λ app option. with_rule app (option_rule option.0.now option.1.now))
        (fold (λ app id. with_rule app (new_rule id.now)) (bare_app name.entry.now) places.now)
        options.now) }
{
    let command = Command::new(alloc, name).no_binary_name(true);
    let command = with_places(alloc, command, places)?;
    with_options(alloc, command, options)
}

/// The want of memory for which a parse failed.
fn memory_of(_error: Error) -> NoMemory
    requires { kind_of _error ≡ ErrorKind.OutOfMemory }
{
    NoMemory
}

/// The line of words that a command takes.
pub(crate) fn read<'a>(command: Command<'a>, words: &'a [&'a str]) -> Result<Line<'a>, NoMemory>
    requires { IsTaken (app_of command) (texts words.now) }
    ensures { IfOk result (λ line. line ≡ texts words.entry.now) }
{
    match command.try_get_matches_from(words) {
        Ok(matches) => Ok(Line { matches, words }),
        Err(error) => Err(memory_of(error)),
    }
}

/// The line of words that are in the server's command: an address, and options in full.
pub fn server_line<'a>(alloc: Global, words: &'a [&'a str]) -> Result<Line<'a>, NoMemory>
    requires { IsLine server_names 1 (texts words.now) }
    ensures { IfOk result (λ line. line ≡ texts words.entry.now) }
{
    let command = command_of(alloc, "gssrpcd", &["address"], &SERVER_OPTIONS)?;
    read(command, words)
}

/// The line of words that are in the client's command: an address, at most five plain words more, and options in full.
pub fn client_line<'a>(alloc: Global, words: &'a [&'a str]) -> Result<Line<'a>, NoMemory>
    requires { IsLine client_names 6 (texts words.now) }
    ensures { IfOk result (λ line. line ≡ texts words.entry.now) }
{
    let command = command_of(
        alloc,
        "gssrpc",
        &[
            "address", "command", "argument", "second", "third", "fourth",
        ],
        &CLIENT_OPTIONS,
    )?;
    read(command, words)
}
