//! The words of the command line.

use sec_base::Text;
use std::alloc::Global;
use std::env;
use std::io::ErrorKind;
use std::rt::Env;

/// Why there are no words.
#[derive(Clone, Copy, Debug, PartialEq, Eq)]
pub enum WordsRefusal {
    /// One of them isn't text.
    NotText,
    /// There was no memory for them.
    NoMemory,
}

/// The words of the command line, without the program's name.
pub fn command_line<R: Env + Alloc<A = Global>>(rt: &R) -> Result<Vec<Text>, WordsRefusal> {
    let args = match env::args(rt) {
        Ok(args) => args,
        Err(error) => return Err(refusal_of(error.kind())),
    };
    let mut words = Vec::new(rt.alloc());
    for word in args.skip(1) {
        if words.push(Text::from_string(word)).is_err() {
            return Err(WordsRefusal::NoMemory);
        }
    }
    Ok(words)
}

/// What an error of this kind says of the words.
fn refusal_of(kind: ErrorKind) -> WordsRefusal {
    match kind {
        ErrorKind::OutOfMemory => WordsRefusal::NoMemory,
        _ => WordsRefusal::NotText,
    }
}
