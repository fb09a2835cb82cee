//! The words of the server.

ghost use Rattle.std.specs.Prelude.{◌≡◌, ◌≤◌, Ok, Err, IfOk, IfSome, MatchResult, codes, true};
ghost use Rattle.sec_base.specs.Answers.{Gives};
ghost use Rattle.cli_base.specs.Words.{is_dashed, value_of};
ghost use Rattle.server_options.specs.Options.{is_command, formed, name_by, files_given};
ghost use Rattle.server_options.specs.Options.{name_given, offer_by, offer_given};
ghost use Rattle.server_options.specs.Options.{numbers_given, options_in, options_of};
ghost use Rattle.server_options.specs.Options.{limit_given, digest_given, bare_given};
ghost use Rattle.server_options.specs.Options.{AreRanged, IsRanged};
ghost use Rattle.gss_base.specs.Signs.{parsed};

pub use cli_base::{WordsRefusal, address_of};
use cli_base::{are_words, count_plain, demand, first_word};
use cli_words::{Line, bindings_given, number_given, server_line, texts_of};
use gss_base::{Bindings, MechKind, NameRefusal, Principal};
use sec_base::{Items, Text};
use std::alloc::Global;

/// The files of the server: those of its keys, and its journal.
#[derive(Drop)]
pub struct Files {
    pub keytab: Text,
    /// The users of SCRAM.
    pub verifiers: Text,
    /// The journal of the authenticators that were taken, where one is kept.
    pub journal: Option<Text>,
}

/// What the words of the server ask for.
#[derive(Drop)]
pub struct Options {
    pub files: Files,
    /// The own name.
    pub name: Principal,
    pub bindings: Option<Bindings>,
    /// The mechanisms that are offered, the preferred first. They are mechanisms and not object identifiers: if single identifiers were offered,
    /// an altered list and an altered `supportedMech` could complete a mechanism that isn't the best one.
    pub offer: Items<MechKind>,
    /// Whether a request of Kerberos that comes without negotiation is taken, where Kerberos is the first that is offered.
    pub bare: bool,
    /// The width of the windows, in numbers.
    pub window: u32,
    /// How many connections the run serves for each desk; None where they don't end it.
    pub connections: Option<u32>,
    /// How many contexts live at once.
    pub contexts: u32,
    /// How many marks of authenticators are held at once.
    pub marks: u32,
    /// How many entries the log may have, all of which are kept; None where none is kept.
    pub log: Option<u32>,
    /// How many desks an address has.
    pub desks: u32,
    /// For how many seconds a connection may be silent.
    pub idle: u32,
    /// Whether the log's digest is kept.
    pub digest: bool,
}

/// Whether the words are an address and options with their values.
fn is_command(words: &[Text]) -> bool
    ensures { result ≡ is_command words.now }
{
    let named = match first_word(words) {
        Some(address) => address != "drill",
        None => false,
    };
    named
        && count_plain(words) == 1
        && are_words(
            words,
            &[
                "--keytab",
                "--verifiers",
                "--name",
                "--bind",
                "--offer",
                "--bare",
                "--window",
                "--connections",
                "--contexts",
                "--marks",
                "--log",
                "--desks",
                "--idle",
                "--control",
                "--journal",
                "--digest",
            ],
        )
}

/// Refuses words that don't have the form of the command.
pub(crate) fn demand_form(words: &[Text]) -> Result<(), WordsRefusal>
    ensures { result ≡ formed words.now }
{
    demand(is_command(words))
}

/// The own name of this text.
fn name_of(alloc: Global, text: &str) -> Result<Principal, WordsRefusal>
    ensures { Gives WordsRefusal.NoMemory (λ name. name) result (name_by (parsed text.now)) }
{
    match Principal::parse(alloc, text) {
        Ok(name) => Ok(name),
        Err(NameRefusal::NoMemory) => Err(WordsRefusal::NoMemory),
        Err(_) => Err(WordsRefusal::Usage),
    }
}

/// The name of the journal, where one is kept.
fn journal_given(alloc: Global, line: &Line<'_>) -> Result<Option<Text>, WordsRefusal>
    ensures { Gives WordsRefusal.NoMemory (λ name. name) result
        (Ok (value_of (codes "--journal") line.now)) }
{
    match line.value("--journal") {
        None => Ok(None),
        Some(name) => Ok(Some(Text::of(alloc, name)?)),
    }
}

/// The files: those of the keys, both of which are required, and the journal.
fn files_given(alloc: Global, line: &Line<'_>) -> Result<Files, WordsRefusal>
    ensures { Gives WordsRefusal.NoMemory (λ files. files) result (files_given
        (value_of (codes "--keytab") line.now) (value_of (codes "--verifiers") line.now)
        (value_of (codes "--journal") line.now)) }
{
    match line.value("--keytab") {
        None => Err(WordsRefusal::Usage),
        Some(keytab) => match line.value("--verifiers") {
            None => Err(WordsRefusal::Usage),
            Some(verifiers) => {
                let keytab = Text::of(alloc, keytab)?;
                let verifiers = Text::of(alloc, verifiers)?;
                let journal = journal_given(alloc, line)?;
                Ok(Files {
                    keytab,
                    verifiers,
                    journal,
                })
            }
        },
    }
}

/// The own name, which is required.
fn name_given(alloc: Global, line: &Line<'_>) -> Result<Principal, WordsRefusal>
    ensures { Gives WordsRefusal.NoMemory (λ name. name) result
        (name_given (value_of (codes "--name") line.now)) }
{
    match line.value("--name") {
        None => Err(WordsRefusal::Usage),
        Some(name) => name_of(alloc, name),
    }
}

/// The mechanisms of this list, the preferred first.
fn offer_by(text: &str) -> Result<&'static [MechKind], WordsRefusal>
    ensures { MatchResult result (λ kinds. offer_by text.now ≡ Ok kinds.now)
        (λ refusal. offer_by text.now ≡ Err refusal) }
{
    if text == "krb5" {
        return Ok(&[MechKind::Kerberos]);
    }
    if text == "scram" {
        return Ok(&[MechKind::Scram]);
    }
    if text == "krb5,scram" {
        return Ok(&[MechKind::Kerberos, MechKind::Scram]);
    }
    if text == "scram,krb5" {
        return Ok(&[MechKind::Scram, MechKind::Kerberos]);
    }
    Err(WordsRefusal::Usage)
}

/// The mechanisms that are offered: those of the list, or both without it, Kerberos first.
fn mechs_given(line: &Line<'_>) -> Result<&'static [MechKind], WordsRefusal>
    ensures { MatchResult result
        (λ kinds. offer_given (value_of (codes "--offer") line.now) ≡ Ok kinds.now)
        (λ refusal. offer_given (value_of (codes "--offer") line.now) ≡ Err refusal) }
{
    match line.value("--offer") {
        None => Ok(&[MechKind::Kerberos, MechKind::Scram]),
        Some(text) => offer_by(text),
    }
}

/// The same, as a list that is kept.
fn offer_given(alloc: Global, line: &Line<'_>) -> Result<Items<MechKind>, WordsRefusal>
    ensures { Gives WordsRefusal.NoMemory (λ offer. offer) result
        (offer_given (value_of (codes "--offer") line.now)) }
{
    let kinds = mechs_given(line)?;
    match Vec::from_slice(alloc, kinds) {
        Ok(list) => Ok(Items::of(list)),
        Err(_) => Err(WordsRefusal::NoMemory),
    }
}

/// The number of the option `name`, from `least` to `most`, where it stands in the line.
fn limit_given(
    line: &Line<'_>,
    name: &str,
    least: u32,
    most: u32,
) -> Result<Option<u32>, WordsRefusal>
    requires named { is_dashed name.now ≡ true }
    requires most { least ≤ most }
    ensures value { result ≡ limit_given least most (value_of name.now line.now) }
    ensures range { IfOk result (λ limit. IfSome limit (λ number. number ≤ most)) }
{
    match line.value(name) {
        None => Ok(None),
        Some(_) => match number_given(line, name, least, most, most) {
            Ok(number) => Ok(Some(number)),
            Err(refusal) => Err(refusal),
        },
    }
}

/// Whether the log's digest is kept: where the option names its algorithm.
fn digest_given(line: &Line<'_>) -> Result<bool, WordsRefusal>
    ensures { result ≡ digest_given (value_of (codes "--digest") line.now) }
{
    match line.value("--digest") {
        None => Ok(false),
        Some(text) => {
            if text == "sha1" {
                Ok(true)
            } else {
                Err(WordsRefusal::Usage)
            }
        }
    }
}

/// Whether a request that comes without negotiation is taken: where the option names its mechanism.
fn bare_given(line: &Line<'_>) -> Result<bool, WordsRefusal>
    ensures { result ≡ bare_given (value_of (codes "--bare") line.now) }
{
    match line.value("--bare") {
        None => Ok(false),
        Some(text) => {
            if text == "krb5" {
                return Ok(true);
            }
            if text == "none" {
                return Ok(false);
            }
            Err(WordsRefusal::Usage)
        }
    }
}

/// The numbers of the options, whether the log's digest is kept, and whether a request without negotiation is taken.
#[derive(Clone, Copy)]
struct Numbers {
    window: u32,
    connections: Option<u32>,
    contexts: u32,
    marks: u32,
    log: Option<u32>,
    desks: u32,
    idle: u32,
    digest: bool,
    bare: bool,
}

/// The numbers that a line asks for, and its two choices.
fn numbers_given(line: &Line<'_>) -> Result<Numbers, WordsRefusal>
    ensures value { result ≡ numbers_given line.now }
    ensures range { IfOk result AreRanged }
{
    let window = number_given(line, "--window", 1, 1024, 128)?;
    let connections = limit_given(line, "--connections", 1, 1_000_000)?;
    let contexts = number_given(line, "--contexts", 1, 65536, 1024)?;
    let marks = number_given(line, "--marks", 1, 1_000_000, 65536)?;
    let log = limit_given(line, "--log", 16, 4_000_000)?;
    let desks = number_given(line, "--desks", 1, 1024, 64)?;
    let idle = number_given(line, "--idle", 1, 86_400, 60)?;
    let digest = digest_given(line)?;
    let bare = bare_given(line)?;
    Ok(Numbers {
        window,
        connections,
        contexts,
        marks,
        log,
        desks,
        idle,
        digest,
        bare,
    })
}

/// Both values, or the first refusal. So what waits while the next is read is let go here alone.
fn both<A: Drop, B: Drop>(
    first: Result<A, WordsRefusal>,
    second: Result<B, WordsRefusal>,
) -> Result<(A, B), WordsRefusal>
    ensures { MatchResult first
        (λ a. MatchResult second (λ b. result ≡ Ok (a, b)) (λ refusal. result ≡ Err refusal))
        (λ refusal. result ≡ Err refusal) }
{
    match first {
        Ok(one) => match second {
            Ok(other) => Ok((one, other)),
            Err(refusal) => Err(refusal),
        },
        Err(refusal) => Err(refusal),
    }
}

/// What owns memory among the options: the files and the own name, then the bindings and the mechanisms.
type Owned = ((Files, Principal), (Option<Bindings>, Items<MechKind>));

/// The options that these parts are.
fn options_by(parts: (Owned, Numbers)) -> Options
    ensures { result ≡ record {
      files = parts.0.0.0;
      name = parts.0.0.1;
      bindings = parts.0.1.0;
      offer = parts.0.1.1;
      bare = parts.1.bare;
      window = parts.1.window;
      connections = parts.1.connections;
      contexts = parts.1.contexts;
      marks = parts.1.marks;
      log = parts.1.log;
      desks = parts.1.desks;
      idle = parts.1.idle;
      digest = parts.1.digest;
    } }
{
    let (owned, numbers) = parts;
    let (keys, offered) = owned;
    let (files, name) = keys;
    let (bindings, offer) = offered;
    Options {
        files,
        name,
        bindings,
        offer,
        bare: numbers.bare,
        window: numbers.window,
        connections: numbers.connections,
        contexts: numbers.contexts,
        marks: numbers.marks,
        log: numbers.log,
        desks: numbers.desks,
        idle: numbers.idle,
        digest: numbers.digest,
    }
}

/// What a line's options ask for.
#[tactic(auto, unfolding(crate::specs::Options::options_in))]
fn options_in(alloc: Global, line: &Line<'_>) -> Result<Options, WordsRefusal>
    ensures value { Gives WordsRefusal.NoMemory (λ options. options) result (options_in line.now) }
    ensures range { IfOk result IsRanged }
{
    let keys = both(files_given(alloc, line), name_given(alloc, line));
    let offered = both(bindings_given(alloc, line), offer_given(alloc, line));
    match both(both(keys, offered), numbers_given(line)) {
        Ok(parts) => Ok(options_by(parts)),
        Err(refusal) => Err(refusal),
    }
}

/// What the words ask for. Those in the command are read by `clap`.
#[tactic(auto, unfolding(crate::specs::Options::options_of))]
pub fn read_options(alloc: Global, words: &[Text]) -> Result<Options, WordsRefusal>
    ensures value { Gives WordsRefusal.NoMemory (λ options. options) result (options_of words.now) }
    ensures range { IfOk result IsRanged }
{
    demand_form(words)?;
    let texts = texts_of(alloc, words)?;
    let line = server_line(alloc, texts.as_slice())?;
    options_in(alloc, &line)
}
