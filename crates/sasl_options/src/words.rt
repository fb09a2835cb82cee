//! The words of the program.

ghost use Rattle.std.specs.Prelude.{◌≡◌, ◌≤◌, ◌&&◌, IfOk, true, Ok, codes, length, not};
ghost use Rattle.sec_base.specs.Answers.{Gives};
ghost use Rattle.gss_base.specs.Signs.{parsed};
ghost use Rattle.hex.specs.Hex.{decode_of};
ghost use Rattle.cli_base.specs.Words.{is_dashed, value_of, plain_of};
ghost use Rattle.sasl_options.specs.Words.{is_command, is_given, name_by, name_given, text_given};
ghost use Rattle.sasl_options.specs.Words.{data_by, octets_given, wished_in, serve_in, ask_in};
ghost use Rattle.sasl_options.specs.Words.{words_by, words_in, words_of, IsRanged, AreRanged};

pub use cli_base::WordsRefusal;
use cli_base::{are_words, count_plain, demand, first_word};
use cli_words::{Line, number_given, sasl_line, texts_of};
use gss_base::{NameRefusal, Principal};
use hex::FromHexError;
use sec_base::{Octets, Text};
use std::alloc::Global;

/// The most plain words: `ask`, the address, and the octets that are sent.
const MOST_PLAIN: usize = 3;

/// The layers that an end wishes, as a mask from 1 to 7, and its greatest token, from 64 to 16,777,215 octets.
#[derive(Clone, Copy)]
pub struct Wished {
    pub layers: u32,
    pub size: u32,
}

/// What `serve` is given.
#[derive(Drop)]
pub struct ServeWords {
    /// The file of the keytab.
    pub keytab: Text,
    /// The own name.
    pub name: Principal,
    pub wished: Wished,
}

/// What `ask` is given.
#[derive(Drop)]
pub struct AskWords {
    /// The file of the credential cache.
    pub ccache: Text,
    /// The name of the server.
    pub server: Principal,
    /// What is sent under the layer.
    pub octets: Octets,
    pub wished: Wished,
}

/// What the words of the program ask for.
#[derive(Drop)]
pub enum Words {
    Serve(ServeWords),
    Ask(AskWords),
}

/// Whether a word that is no option stands first, at most two such words follow, and each option has its value.
fn is_command(words: &[Text]) -> bool
    ensures { result ≡ is_command words.now }
{
    first_word(words).is_some()
        && are_words(
            words,
            &[
                "--keytab", "--name", "--ccache", "--server", "--layers", "--size",
            ],
        )
        && count_plain(words) <= MOST_PLAIN
}

/// Whether the words have the option `name`.
fn is_given(line: &Line<'_>, name: &str) -> bool
    requires { is_dashed name.now ≡ true }
    ensures { result ≡ is_given line.now name.now }
{
    line.value(name).is_some()
}

/// The principal of this text.
fn name_of(alloc: Global, text: &str) -> Result<Principal, WordsRefusal>
    ensures { Gives WordsRefusal.NoMemory (λ name. name) result (name_by (parsed text.now)) }
{
    match Principal::parse(alloc, text) {
        Ok(name) => Ok(name),
        Err(NameRefusal::NoMemory) => Err(WordsRefusal::NoMemory),
        Err(_) => Err(WordsRefusal::Usage),
    }
}

/// The principal that the option `option` names, which is required.
fn name_given(alloc: Global, line: &Line<'_>, option: &str) -> Result<Principal, WordsRefusal>
    requires { is_dashed option.now ≡ true }
    ensures { Gives WordsRefusal.NoMemory (λ name. name) result
        (name_given (value_of option.now line.now)) }
{
    match line.value(option) {
        None => Err(WordsRefusal::Usage),
        Some(text) => name_of(alloc, text),
    }
}

/// The text of the option `option`, which is required.
fn text_given(alloc: Global, line: &Line<'_>, option: &str) -> Result<Text, WordsRefusal>
    requires { is_dashed option.now ≡ true }
    ensures { Gives WordsRefusal.NoMemory (λ text. text) result
        (text_given (value_of option.now line.now)) }
{
    match line.value(option) {
        None => Err(WordsRefusal::Usage),
        Some(text) => {
            let text = Text::of(alloc, text)?;
            Ok(text)
        }
    }
}

/// The octets that a word has in hexadecimal.
fn data_of(alloc: Global, text: &str) -> Result<Octets, WordsRefusal>
    ensures { Gives WordsRefusal.NoMemory (λ o. o) result (data_by (decode_of text.now)) }
{
    match hex::decode(alloc, text) {
        Ok(octets) => Ok(Octets::from_vec(octets)),
        Err(FromHexError::OutOfMemory) => Err(WordsRefusal::NoMemory),
        Err(_) => Err(WordsRefusal::Usage),
    }
}

/// The octets that are sent: the third plain word.
fn octets_given(alloc: Global, line: &Line<'_>) -> Result<Octets, WordsRefusal>
    ensures { Gives WordsRefusal.NoMemory (λ o. o) result (octets_given (plain_of line.now)) }
{
    match line.plain(2) {
        Some(text) => data_of(alloc, text),
        None => Err(WordsRefusal::Usage),
    }
}

/// The layers and the size.
fn wished_in(line: &Line<'_>) -> Result<Wished, WordsRefusal>
    ensures value { result ≡ wished_in line.now }
    ensures range { IfOk result IsRanged }
{
    let layers = number_given(line, "--layers", 1, 7, 7)?;
    let size = number_given(line, "--size", 64, 16_777_215, 65_536)?;
    Ok(Wished { layers, size })
}

/// What `serve` is given.
#[tactic(auto, unfolding(crate::specs::Words::serve_in))]
fn serve_in(alloc: Global, line: &Line<'_>) -> Result<Words, WordsRefusal>
    ensures value { Gives WordsRefusal.NoMemory (λ w. w) result (serve_in line.now) }
    ensures range { IfOk result AreRanged }
{
    demand(line.count_plain() == 2 && !is_given(line, "--ccache") && !is_given(line, "--server"))?;
    let wished = wished_in(line)?;
    let name = name_given(alloc, line, "--name")?;
    let keytab = text_given(alloc, line, "--keytab")?;
    Ok(Words::Serve(ServeWords {
        keytab,
        name,
        wished,
    }))
}

/// What `ask` is given.
#[tactic(auto, unfolding(crate::specs::Words::ask_in))]
fn ask_in(alloc: Global, line: &Line<'_>) -> Result<Words, WordsRefusal>
    ensures value { Gives WordsRefusal.NoMemory (λ w. w) result (ask_in line.now) }
    ensures range { IfOk result AreRanged }
{
    demand(line.count_plain() == 3 && !is_given(line, "--keytab") && !is_given(line, "--name"))?;
    let wished = wished_in(line)?;
    let server = name_given(alloc, line, "--server")?;
    let ccache = text_given(alloc, line, "--ccache")?;
    let octets = octets_given(alloc, line)?;
    Ok(Words::Ask(AskWords {
        ccache,
        server,
        octets,
        wished,
    }))
}

/// What a line asks for whose first word is this one.
fn words_by(alloc: Global, line: &Line<'_>, word: &str) -> Result<Words, WordsRefusal>
    ensures value { Gives WordsRefusal.NoMemory (λ w. w) result (words_by line.now word.now) }
    ensures range { IfOk result AreRanged }
{
    if word == "serve" {
        return serve_in(alloc, line);
    }
    if word == "ask" {
        return ask_in(alloc, line);
    }
    Err(WordsRefusal::Usage)
}

/// What a line asks for.
fn words_in(alloc: Global, line: &Line<'_>) -> Result<Words, WordsRefusal>
    ensures value { Gives WordsRefusal.NoMemory (λ w. w) result (words_in line.now) }
    ensures range { IfOk result AreRanged }
{
    match line.plain(0) {
        Some(word) => words_by(alloc, line, word),
        None => Err(WordsRefusal::Usage),
    }
}

/// What words ask for that have the form of the command.
fn read_form(alloc: Global, words: &[Text]) -> Result<Words, WordsRefusal>
    requires { is_command words.now ≡ true }
    ensures value { Gives WordsRefusal.NoMemory (λ w. w) result (words_of words.now) }
    ensures range { IfOk result AreRanged }
{
    let texts = texts_of(alloc, words)?;
    let line = sasl_line(alloc, texts.as_slice())?;
    words_in(alloc, &line)
}

/// What the words ask for: `serve ADDRESS --keytab FILE --name PRINCIPAL [--layers M] [--size N]`, or
/// `ask ADDRESS HEX --ccache FILE --server PRINCIPAL [--layers M] [--size N]`, where M is a mask of the layers 1, 2 and 4 (7 without it),
/// and N the greatest token that the end takes (65,536 without it). They go to `clap` where they have the form of the command.
pub fn read_words(alloc: Global, words: &[Text]) -> Result<Words, WordsRefusal>
    ensures value { Gives WordsRefusal.NoMemory (λ w. w) result (words_of words.now) }
    ensures range { IfOk result AreRanged }
{
    if is_command(words) {
        read_form(alloc, words)
    } else {
        Err(WordsRefusal::Usage)
    }
}
