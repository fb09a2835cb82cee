//! What words give a program before their options are read: its address, and why words are refused.

ghost use Rattle.std.specs.Prelude.{◌≡◌};
ghost use Rattle.std.specs.Option.{option_map};
ghost use Rattle.cli_base.specs.Given.{demanded};
ghost use Rattle.cli_base.specs.Words.{first_word};

use crate::words::first_word;
use sec_base::{NoMemory, Text};

/// Why words are refused.
#[derive(Clone, Copy, Debug, PartialEq, Eq)]
pub enum WordsRefusal {
    /// They aren't in the command.
    Usage,
    /// There was no memory for what they ask for.
    NoMemory,
}

impl From<NoMemory> for WordsRefusal {
    ghost use Rattle.cli_base.specs.declared.given.WordsRefusal.{WordsRefusal};

    ghost from_gives = { λ _ e. e ≡ WordsRefusal.NoMemory };

    fn from(_error: NoMemory) -> WordsRefusal {
        WordsRefusal::NoMemory
    }
}

/// The address that the words name: the first word, where it is there and doesn't begin with `-`.
pub fn address_of(words: &[Text]) -> Option<&str>
    ensures { option_map (λ word. word.now) result ≡ first_word words.now }
{
    first_word(words)
}

/// Refuses words of which this doesn't hold.
pub fn demand(holds: bool) -> Result<(), WordsRefusal>
    ensures { result ≡ demanded holds }
{
    if holds {
        Ok(())
    } else {
        Err(WordsRefusal::Usage)
    }
}
