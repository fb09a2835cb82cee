//! The words of a command line: options `--name VALUE`, and plain words.

ghost use Rattle.std.specs.Prelude.{◌≡◌, false, length, slice_get};
ghost use Rattle.std.specs.Option.{option_map};
ghost use Rattle.cli_base.specs.Words.{is_dashed, is_one_of, texts, has_value, is_option};
ghost use Rattle.cli_base.specs.Words.{may_stand, are_words, first_word, plain_of};

use sec_base::Text;

/// Whether a word begins with `-`.
fn is_dashed(word: &str) -> bool
    ensures { result ≡ is_dashed word.now }
{
    match word.as_bytes() {
        [first, ..] => *first == b'-',
        [] => false,
    }
}

/// Whether a word is one of these names.
fn is_name(word: &str, names: &[&str]) -> bool
    ensures { result ≡ is_one_of word.now (texts names.now) }
{
    for name in names {
        if *name == word {
            return true;
        }
    }
    false
}

/// Whether a word stands among others.
fn is_one_of(word: &str, words: &[Text]) -> bool
    ensures { result ≡ is_one_of word.now words.now }
{
    for one in words {
        if one.as_str() == word {
            return true;
        }
    }
    false
}

/// Whether a value stands first.
fn has_value(words: &[Text]) -> bool
    ensures { result ≡ has_value words.now }
{
    match words {
        [value, ..] => !is_dashed(value.as_str()),
        [] => false,
    }
}

/// Whether a word is an option: a name that doesn't come again, and its value behind it.
fn is_option(word: &str, behind: &[Text], names: &[&str]) -> bool
    ensures { result ≡ is_option (texts names.now) word.now behind.now }
{
    if !is_name(word, names) || !has_value(behind) {
        return false;
    }
    !is_one_of(word, behind)
}

/// Whether a word may stand before these: it doesn't begin with `-`, or is an option.
fn may_stand(word: &str, behind: &[Text], names: &[&str]) -> bool
    ensures { result ≡ may_stand (texts names.now) word.now behind.now }
{
    !is_dashed(word) || is_option(word, behind, names)
}

/// Whether each word that begins with `-` is one of these names, stands there once, and has a value behind it: a word that doesn't
/// begin with `-`.
pub fn are_words(words: &[Text], names: &[&str]) -> bool
    ensures { result ≡ are_words (texts names.now) words.now }
{
    for (at, word) in words.iter().enumerate() {
        if !may_stand(word.as_str(), &words[at + 1..], names) {
            return false;
        }
    }
    true
}

/// The first word, where it is there and doesn't begin with `-`.
pub fn first_word(words: &[Text]) -> Option<&str>
    ensures { option_map (λ word. word.now) result ≡ first_word words.now }
{
    match words {
        [first, ..] => {
            if is_dashed(first.as_str()) {
                return None;
            }
            Some(first.as_str())
        }
        [] => None,
    }
}

/// How many words are plain: they neither begin with `-` nor stand behind a word that does.
pub fn count_plain(words: &[Text]) -> usize
    ensures { result ≡ length (plain_of words.now) }
{
    let mut count = 0;
    let mut behind = false;
    for word in words {
        let dashed = is_dashed(word.as_str());
        if !behind && !dashed {
            count += 1;
        }
        behind = dashed;
    }
    count
}

/// The plain word of this number, counted from 0.
pub fn plain(words: &[Text], number: usize) -> Option<&str>
    ensures { option_map (λ word. word.now) result ≡ slice_get (plain_of words.now) number }
{
    let mut left = number;
    let mut behind = false;
    for word in words {
        let dashed = is_dashed(word.as_str());
        if !behind && !dashed {
            if left == 0 {
                return Some(word.as_str());
            }
            left -= 1;
        }
        behind = dashed;
    }
    None
}
