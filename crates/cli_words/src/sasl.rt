//! The command of the program that speaks SASL, and its words as `clap` reads them.

ghost use Rattle.std.specs.Prelude.{◌≡◌, IfOk};
ghost use Rattle.cli_base.specs.Words.{texts};
ghost use Rattle.cli_words.specs.Line.{IsLine};
ghost use Rattle.cli_words.specs.Sasl.{sasl_names};

use crate::commands::{command_of, read};
use crate::line::Line;
use sec_base::NoMemory;
use std::alloc::Global;

/// The options, each with its word and its name.
const SASL_OPTIONS: [(&str, &str); 6] = [
    ("--keytab", "keytab"),
    ("--name", "name"),
    ("--ccache", "ccache"),
    ("--server", "server"),
    ("--layers", "layers"),
    ("--size", "size"),
];

/// The line of words that are in the command: a plain word, at most two plain words more, and options in full.
pub fn sasl_line<'a>(alloc: Global, words: &'a [&'a str]) -> Result<Line<'a>, NoMemory>
    requires { IsLine sasl_names 3 (texts words.now) }
    ensures { IfOk result (λ line. line ≡ texts words.entry.now) }
{
    let command = command_of(
        alloc,
        "gsssasl",
        &["address", "command", "argument"],
        &SASL_OPTIONS,
    )?;
    read(command, words)
}
