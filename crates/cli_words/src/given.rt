//! What the options of a line give: numbers and bindings.

ghost use Rattle.std.specs.Prelude.{◌≡◌, ◌≤◌, IfOk, true, Some, codes};
ghost use Rattle.sec_base.specs.Answers.{Gives};
ghost use Rattle.cli_base.specs.Words.{is_dashed, value_of};
ghost use Rattle.cli_base.specs.Given.{number_given, data_given};

use crate::line::Line;
use cli_base::{WordsRefusal, number_in};
use gss_base::Bindings;
use sec_base::Octets;
use std::alloc::Global;

/// The most octets of application data.
const MOST_BOUND: usize = 32_768;

/// The number of the option `name`, from `least` to `most`, or the usual one without it.
pub fn number_given(
    line: &Line<'_>,
    name: &str,
    least: u32,
    most: u32,
    usual: u32,
) -> Result<u32, WordsRefusal>
    requires named { is_dashed name.now ≡ true }
    requires least { least ≤ usual }
    requires most { usual ≤ most }
    ensures value { result ≡ number_given least most usual (value_of name.now line.now) }
    ensures range { IfOk result (λ number. (least ≤ number) × (number ≤ most)) }
{
    match line.value(name) {
        None => Ok(usual),
        Some(text) => match number_in(text, least, most) {
            Some(number) => Ok(number),
            None => Err(WordsRefusal::Usage),
        },
    }
}

/// The bindings of this application data.
fn bindings_of(alloc: Global, text: &str) -> Result<Option<Bindings>, WordsRefusal>
    ensures { Gives WordsRefusal.NoMemory (λ b. b) result (data_given (Some text.now)) }
{
    if text.len() > MOST_BOUND {
        return Err(WordsRefusal::Usage);
    }
    let data = Octets::of(alloc, text.as_bytes())?;
    match Bindings::new(data) {
        Ok(bindings) => Ok(Some(bindings)),
        Err(_) => Err(WordsRefusal::Usage),
    }
}

/// The bindings that the option `--bind` asks for.
pub fn bindings_given(alloc: Global, line: &Line<'_>) -> Result<Option<Bindings>, WordsRefusal>
    ensures { Gives WordsRefusal.NoMemory (λ b. b) result
        (data_given (value_of (codes "--bind") line.now)) }
{
    match line.value("--bind") {
        None => Ok(None),
        Some(text) => bindings_of(alloc, text),
    }
}
