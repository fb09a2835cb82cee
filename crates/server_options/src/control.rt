//! The control address of a server: the word for it, what its peers ask for, and what they are answered.

ghost use Rattle.std.specs.Prelude.{◌≡◌};
ghost use Rattle.sec_base.specs.Answers.{Gives};
ghost use Rattle.server_options.specs.Control.{answer_line, control_of, order_of};

use crate::options::demand_form;
use cli_base::WordsRefusal;
use cli_words::{server_line, texts_of};
use sec_base::Text;
use std::alloc::Global;

/// What the octets of a peer ask for.
#[derive(Clone, Copy, Debug, PartialEq, Eq)]
pub enum Order {
    /// That the server ends its connections and its run.
    Stop,
    /// Nothing that the server knows.
    Unknown,
}

/// The line of a stop.
const STOP: &[u8] = b"stop\n";

/// What the first octets of a peer ask for: a stop, where they are its word and a line feed.
pub fn order_of(octets: &[u8]) -> Order
    ensures { result ≡ order_of octets.now }
{
    if octets.starts_with(STOP) {
        Order::Stop
    } else {
        Order::Unknown
    }
}

/// The line that a peer is answered: `done` once the run has ended, where it asked for that.
pub fn answer_to(order: Order) -> &'static str
    ensures { result.now ≡ answer_line order }
{
    match order {
        Order::Stop => "done\n",
        Order::Unknown => "refused: usage\n",
    }
}

/// The path of the control address that the words name, where they name one. It is what they say wherever they have the form of the
/// command, whatever the values of the other options.
pub fn read_control(alloc: Global, words: &[Text]) -> Result<Option<Text>, WordsRefusal>
    ensures { Gives WordsRefusal.NoMemory (λ path. path) result (control_of words.now) }
{
    demand_form(words)?;
    let texts = texts_of(alloc, words)?;
    let line = server_line(alloc, texts.as_slice())?;
    match line.value("--control") {
        None => Ok(None),
        Some(path) => Ok(Some(Text::of(alloc, path)?)),
    }
}
