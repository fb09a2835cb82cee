//! The words of the program over datagrams.

ghost use Rattle.std.specs.Prelude.{◌≡◌, ◌+◌, ◌<◌, ◌≤◌, ◌++◌, IfOk, OnOk, length};
ghost use Rattle.std.specs.Option.{option_map};
ghost use Rattle.sec_base.specs.Answers.{Gives};
ghost use Rattle.server_options.specs.Options.{IsRanged};
ghost use Rattle.datagram_options.specs.Words.{place_of, without_option, with_name, is_served};
ghost use Rattle.datagram_options.specs.Words.{is_called, served, called, asked_of, tries_in};
ghost use Rattle.datagram_options.specs.Words.{server_by, called_with, is_within, address_in};
ghost use Rattle.datagram_options.specs.Words.{IsAsked};

pub use cli_base::WordsRefusal;
use cli_base::{are_words, demand, first_word, number_in};
use client_options::{ClientWords, read_words};
use sec_base::{NoMemory, Text};
use server_options::{Options, read_options};
use std::alloc::Global;

/// The most octets of a call's arguments: those of 7,900 octets as XDR spells them.
const MOST_ARGS: usize = 7_904;

/// The most octets of application data.
const MOST_BOUND: usize = 4_096;

/// How many contexts live at once, at most, and without the option.
const MOST_CONTEXTS: u32 = 64;

/// The greatest width of a window.
const MOST_WINDOW: u32 = 512;

/// The most times that a call is sent.
const MOST_TRIES: u32 = 16;

/// How often a call is sent at most, without the option.
const USUAL_TRIES: u32 = 4;

/// What the words ask for.
#[derive(Drop)]
pub enum Asked {
    /// A server's options, whose `connections` are how often it waits for a datagram.
    Serve(Options),
    /// A client's words, and how often each call is sent at most, from 1 to 16.
    Call { words: ClientWords, tries: u32 },
}

/// The place of the first word that is this name; the number of words where none is.
fn place_of(words: &[Text], name: &str) -> usize
    ensures value { result ≡ place_of name.now words.now }
    ensures most { result ≤ length words.now }
{
    for (at, word) in words.iter().enumerate() {
        if word.as_str() == name {
            return at;
        }
    }
    words.len()
}

/// Adds copies of words.
fn push_copies(alloc: Global, out: &mut Vec<Text>, words: &[Text]) -> Result<(), NoMemory>
    ensures { OnOk result (out.new.items ≡ out.old.items ++ words.now) }
{
    for word in words {
        let copy = Text::of(alloc, word.as_str())?;
        out.push(copy)?;
    }
    Ok(())
}

/// The words without the option at this place and the value behind it.
fn without_option(alloc: Global, words: &[Text], at: usize) -> Result<Vec<Text>, NoMemory>
    requires { at + 2 ≤ length words.now }
    ensures { IfOk result (λ rest. rest.items ≡ without_option at words.now) }
{
    let mut rest = Vec::new(alloc);
    push_copies(alloc, &mut rest, &words[..at])?;
    push_copies(alloc, &mut rest, &words[at + 2..])?;
    Ok(rest)
}

/// The words with this name in place of the one at this place.
fn with_name(alloc: Global, words: &[Text], at: usize, name: &str) -> Result<Vec<Text>, NoMemory>
    requires { at + 1 ≤ length words.now }
    ensures { IfOk result (λ more. more.items ≡ with_name name.now at words.now) }
{
    let mut more = Vec::new(alloc);
    push_copies(alloc, &mut more, &words[..at])?;
    let copy = Text::of(alloc, name)?;
    more.push(copy)?;
    push_copies(alloc, &mut more, &words[at + 1..])?;
    Ok(more)
}

/// Whether each word that begins with `-` is an option of `serve`, stands there once, and has a value behind it.
fn is_served(words: &[Text]) -> bool
    ensures { result ≡ is_served words.now }
{
    are_words(
        words,
        &[
            "--keytab",
            "--verifiers",
            "--name",
            "--bind",
            "--offer",
            "--bare",
            "--window",
            "--datagrams",
            "--contexts",
            "--marks",
            "--log",
        ],
    )
}

/// Whether each word that begins with `-` is an option of `call`, stands there once, and has a value behind it.
fn is_called(words: &[Text]) -> bool
    ensures { result ≡ is_called words.now }
{
    are_words(
        words,
        &[
            "--ccache",
            "--server",
            "--user",
            "--password",
            "--mechs",
            "--bare",
            "--bind",
            "--service",
            "--times",
            "--first",
            "--tries",
        ],
    )
}

/// The options of the server over connections that these words are.
fn server_by(alloc: Global, words: &[Text]) -> Result<Options, WordsRefusal>
    ensures value { Gives WordsRefusal.NoMemory (λ o. o) result (server_by words.now) }
    ensures range { IfOk result IsRanged }
{
    let at = place_of(words, "--datagrams");
    if at < words.len() {
        let renamed = with_name(alloc, words, at, "--connections")?;
        read_options(alloc, renamed.as_slice())
    } else {
        read_options(alloc, words)
    }
}

/// What the words behind `serve` ask for.
#[tactic(auto, unfolding(crate::specs::Words::served))]
fn served(alloc: Global, words: &[Text]) -> Result<Asked, WordsRefusal>
    ensures value { Gives WordsRefusal.NoMemory (λ a. a) result (served words.now) }
    ensures range { IfOk result IsAsked }
{
    demand(is_served(words))?;
    let mut options = server_by(alloc, words)?;
    if place_of(words, "--contexts") == words.len() {
        options.contexts = MOST_CONTEXTS;
    }
    demand(options.contexts <= MOST_CONTEXTS && options.window <= MOST_WINDOW)?;
    Ok(Asked::Serve(options))
}

/// How often a call is sent at most, by the words behind the option.
fn tries_in(words: &[Text]) -> Result<u32, WordsRefusal>
    ensures value { result ≡ tries_in words.now }
    ensures range { IfOk result (λ tries. (1 ≤ tries) × (tries ≤ 16)) }
    ensures some { IfOk result (λ tries. 0 < length words.now) }
{
    match words {
        [] => Err(WordsRefusal::Usage),
        [text, ..] => match number_in(text.as_str(), 1, MOST_TRIES) {
            Some(number) => Ok(number),
            None => Err(WordsRefusal::Usage),
        },
    }
}

/// Whether a client's words are within the limits of a datagram.
fn is_within(words: &ClientWords) -> bool
    ensures { result ≡ is_within words.now }
{
    let bound = match &words.plan.bindings {
        None => 0,
        Some(bindings) => bindings.application().len(),
    };
    words.plan.args.as_slice().len() <= MOST_ARGS && bound <= MOST_BOUND
}

/// What a client's words and tries ask for, within the limits.
fn called_with(alloc: Global, words: &[Text], tries: u32) -> Result<Asked, WordsRefusal>
    requires { 0 < tries }
    ensures value { Gives WordsRefusal.NoMemory (λ a. a) result (called_with tries words.now) }
    ensures range { IfOk result IsAsked }
{
    let words = read_words(alloc, words)?;
    demand(is_within(&words))?;
    Ok(Asked::Call { words, tries })
}

/// What the words behind `call` ask for.
#[tactic(auto, unfolding(crate::specs::Words::called))]
fn called(alloc: Global, words: &[Text]) -> Result<Asked, WordsRefusal>
    ensures value { Gives WordsRefusal.NoMemory (λ a. a) result (called words.now) }
    ensures range { IfOk result IsAsked }
{
    demand(is_called(words))?;
    let at = place_of(words, "--tries");
    if at < words.len() {
        let tries = tries_in(&words[at + 1..])?;
        let rest = without_option(alloc, words, at)?;
        called_with(alloc, rest.as_slice(), tries)
    } else {
        called_with(alloc, words, USUAL_TRIES)
    }
}

/// What the words ask for: those of `serve` or of `call`.
pub fn read_asked(alloc: Global, words: &[Text]) -> Result<Asked, WordsRefusal>
    ensures value { Gives WordsRefusal.NoMemory (λ a. a) result (asked_of words.now) }
    ensures range { IfOk result IsAsked }
{
    match words {
        [] => Err(WordsRefusal::Usage),
        [first, rest @ ..] => {
            if first.as_str() == "serve" {
                return served(alloc, rest);
            }
            if first.as_str() == "call" {
                return called(alloc, rest);
            }
            Err(WordsRefusal::Usage)
        }
    }
}

/// The address that the words name: the second word, where it is there and doesn't begin with `-`.
pub fn address_of(words: &[Text]) -> Option<&str>
    ensures { option_map (λ word. word.now) result ≡ address_in words.now }
{
    match words {
        [] => None,
        [_, rest @ ..] => first_word(rest),
    }
}
