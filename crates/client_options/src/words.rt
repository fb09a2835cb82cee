//! The words of the client.

ghost use Rattle.std.specs.Prelude.{◌≡◌, ◌≤◌, IfOk, true, codes, length, slice_get};
ghost use Rattle.sec_base.specs.Answers.{Gives};
ghost use Rattle.gss_base.specs.Signs.{parsed};
ghost use Rattle.hex.specs.Hex.{decode_of};
ghost use Rattle.rpc_msgs.specs.Words.{opaque};
ghost use Rattle.cli_base.specs.Words.{is_dashed, value_of, plain_of};
ghost use Rattle.client_options.specs.Words.{is_command, is_line, bare, with_data, data_by};
ghost use Rattle.client_options.specs.Words.{served, word_given, args_given, numbered};
ghost use Rattle.client_options.specs.Words.{asked_by, asked_in};
ghost use Rattle.client_options.specs.Mechs.{is_list, mechs_given};
ghost use Rattle.client_options.specs.Words.{name_by, server_given, is_given, has_krb5, has_scram};
ghost use Rattle.client_options.specs.Words.{sources_of, service_by, service_given, plan_of};
ghost use Rattle.client_options.specs.Words.{negotiates_given, is_fit, joined};
ghost use Rattle.client_options.specs.Words.{words_of, AreOctets, IsRanged};

use crate::command::Command;
use crate::mechs::mechs_given;
pub use cli_base::{WordsRefusal, address_of};
use cli_base::{are_words, count_plain, demand, first_word, number_in};
use cli_words::{Line, bindings_given, client_line, number_given, texts_of};
use gss_base::{Bindings, KerberosName, MechName, NameRefusal, Principal};
use gss_client::{Service, Terms};
use hex::FromHexError;
use posts_client::Procedure;
use posts_program::numbers::{PROGRAM, VERSION};
use rpc_msgs::XdrWriter;
use sec_base::{Items, NoMemory, Octets, Text};
use std::alloc::Global;

/// The most octets of an argument.
const MOST_DATA: usize = 65_536;

/// The most plain words: the address, `call`, the program, its version, the procedure, and its arguments.
const MOST_PLAIN: usize = 6;

/// What is called, how often, and how the calls are protected.
#[derive(Drop)]
pub struct Plan {
    pub command: Command,
    /// The arguments, in XDR.
    pub args: Octets,
    pub bindings: Option<Bindings>,
    /// Whether a mechanism is negotiated; else the first token is Kerberos's own.
    pub negotiates: bool,
    /// The program, its version, and how the calls are protected.
    pub terms: Terms,
    /// How many calls are made, from 1 to 1,000.
    pub times: u32,
    /// The number of the first call, from 1 to 0x7fffffff.
    pub first: u32,
}

/// Where the credentials come from.
#[derive(Drop)]
pub struct Sources {
    /// The file of the credential cache.
    pub ccache: Option<Text>,
    /// The name of the server.
    pub server: Option<Principal>,
    /// The user of SCRAM.
    pub user: Option<Text>,
    /// The file of the user's password.
    pub password: Option<Text>,
    /// The mechanisms by which a context may be created, the preferred first: one to three names, no two of which are alike.
    pub mechs: Items<MechName>,
}

/// What the words of the client ask for.
#[derive(Drop)]
pub struct ClientWords {
    pub sources: Sources,
    pub plan: Plan,
}

/// What is called of which program, and the arguments in XDR.
#[derive(Drop)]
struct Asked {
    command: Command,
    program: u32,
    version: u32,
    args: Octets,
}

/// What is asked of the program that `gssrpcd` serves.
fn served(procedure: Procedure, args: Octets) -> Asked
    ensures { result ≡ served procedure args }
{
    Asked {
        command: Command::Served(procedure),
        program: PROGRAM,
        version: VERSION,
        args,
    }
}

/// Whether a word that is no option stands first, and each option has its value.
fn is_command(words: &[Text]) -> bool
    ensures { result ≡ is_command words.now }
{
    first_word(words).is_some()
        && are_words(
            words,
            &[
                "--ccache",
                "--server",
                "--user",
                "--password",
                "--mechs",
                "--bare",
                "--bind",
                "--service",
                "--times",
                "--first",
            ],
        )
}

/// Whether words are in the command, and none is left over behind the arguments.
fn is_line(words: &[Text]) -> bool
    ensures { result ≡ is_line words.now }
{
    is_command(words) && count_plain(words) <= MOST_PLAIN
}

/// The octets that a word has in hexadecimal.
fn data_of(alloc: Global, text: &str) -> Result<Octets, WordsRefusal>
    ensures value { Gives WordsRefusal.NoMemory (λ o. o) result (data_by (decode_of text.now)) }
    ensures size { IfOk result (λ o. length o ≤ 65536) }
{
    match hex::decode(alloc, text) {
        Ok(octets) => {
            if octets.len() > MOST_DATA {
                return Err(WordsRefusal::Usage);
            }
            Ok(Octets::from_vec(octets))
        }
        Err(FromHexError::OutOfMemory) => Err(WordsRefusal::NoMemory),
        Err(_) => Err(WordsRefusal::Usage),
    }
}

/// A procedure's argument, in XDR.
fn argument(alloc: Global, octets: &[u8]) -> Result<Octets, NoMemory>
    requires { length octets.now ≤ 65536 }
    ensures value { IfOk result (λ o. o ≡ opaque octets.now) }
    ensures size { IfOk result (λ o. length o ≤ 65540) }
{
    let mut out = XdrWriter::new(alloc);
    out.opaque(octets)?;
    Ok(out.finish())
}

/// What a command without an argument asks for.
#[tactic(auto, unfolding(crate::specs::Words::bare))]
fn bare(alloc: Global, line: &Line<'_>, procedure: Procedure) -> Result<Asked, WordsRefusal>
    ensures value { Gives WordsRefusal.NoMemory (λ a. a) result
        (bare (plain_of line.now) procedure) }
    ensures size { IfOk result (λ a. length a.args ≤ 65540) }
{
    demand(line.count_plain() == 2)?;
    Ok(served(procedure, Octets::from_vec(Vec::new(alloc))))
}

/// What a command with an argument asks for.
#[tactic(auto, unfolding(crate::specs::Words::with_data))]
fn with_data(alloc: Global, line: &Line<'_>, procedure: Procedure) -> Result<Asked, WordsRefusal>
    ensures value { Gives WordsRefusal.NoMemory (λ a. a) result
        (with_data (plain_of line.now) procedure) }
    ensures size { IfOk result (λ a. length a.args ≤ 65540) }
{
    demand(line.count_plain() == 3)?;
    match line.plain(2) {
        Some(text) => {
            let octets = data_of(alloc, text)?;
            let args = argument(alloc, octets.as_slice())?;
            Ok(served(procedure, args))
        }
        None => Err(WordsRefusal::Usage),
    }
}

/// The number that a plain word has, in decimal.
fn word_given(line: &Line<'_>, place: usize) -> Result<u32, WordsRefusal>
    ensures { result ≡ word_given (slice_get (plain_of line.now) place) }
{
    match line.plain(place) {
        Some(text) => match number_in(text, 0, 0xffff_ffff) {
            Some(number) => Ok(number),
            None => Err(WordsRefusal::Usage),
        },
        None => Err(WordsRefusal::Usage),
    }
}

/// The arguments of a procedure that is called by its number: the octets of the last word, or none.
fn args_given(alloc: Global, line: &Line<'_>) -> Result<Octets, WordsRefusal>
    ensures value { Gives WordsRefusal.NoMemory (λ o. o) result
        (args_given (slice_get (plain_of line.now) 5)) }
    ensures size { IfOk result (λ o. length o ≤ 65536) }
{
    match line.plain(5) {
        Some(text) => data_of(alloc, text),
        None => Ok(Octets::from_vec(Vec::new(alloc))),
    }
}

/// What `call` asks for.
#[tactic(auto, unfolding(crate::specs::Words::numbered))]
fn numbered(alloc: Global, line: &Line<'_>) -> Result<Asked, WordsRefusal>
    ensures value { Gives WordsRefusal.NoMemory (λ a. a) result (numbered (plain_of line.now)) }
    ensures size { IfOk result (λ a. length a.args ≤ 65540) }
{
    demand(line.count_plain() <= MOST_PLAIN)?;
    let program = word_given(line, 2)?;
    let version = word_given(line, 3)?;
    let procedure = word_given(line, 4)?;
    let args = args_given(alloc, line)?;
    Ok(Asked {
        command: Command::Numbered(procedure),
        program,
        version,
        args,
    })
}

/// What this command asks for.
fn asked_by(alloc: Global, line: &Line<'_>, command: &str) -> Result<Asked, WordsRefusal>
    ensures value { Gives WordsRefusal.NoMemory (λ a. a) result
        (asked_by (plain_of line.now) command.now) }
    ensures size { IfOk result (λ a. length a.args ≤ 65540) }
{
    if command == "null" {
        return bare(alloc, line, Procedure::Null);
    }
    if command == "echo" {
        return with_data(alloc, line, Procedure::Echo);
    }
    if command == "whoami" {
        return bare(alloc, line, Procedure::Whoami);
    }
    if command == "post" {
        return with_data(alloc, line, Procedure::Post);
    }
    if command == "count" {
        return bare(alloc, line, Procedure::Count);
    }
    if command == "call" {
        return numbered(alloc, line);
    }
    Err(WordsRefusal::Usage)
}

/// What the command of the words asks for.
#[tactic(auto, unfolding(crate::specs::Words::asked_in))]
fn asked_in(alloc: Global, line: &Line<'_>) -> Result<Asked, WordsRefusal>
    ensures value { Gives WordsRefusal.NoMemory (λ a. a) result (asked_in (plain_of line.now)) }
    ensures size { IfOk result (λ a. length a.args ≤ 65540) }
{
    match line.plain(1) {
        Some(command) => asked_by(alloc, line, command),
        None => Err(WordsRefusal::Usage),
    }
}

/// The value of the option `name`.
fn text_given(alloc: Global, line: &Line<'_>, name: &str) -> Result<Option<Text>, NoMemory>
    requires { is_dashed name.now ≡ true }
    ensures { IfOk result (λ text. text ≡ value_of name.now line.now) }
{
    match line.value(name) {
        None => Ok(None),
        Some(text) => {
            let text = Text::of(alloc, text)?;
            Ok(Some(text))
        }
    }
}

/// The server of this text.
fn server_of(alloc: Global, text: &str) -> Result<Option<Principal>, WordsRefusal>
    ensures { Gives WordsRefusal.NoMemory (λ name. name) result (name_by (parsed text.now)) }
{
    match Principal::parse(alloc, text) {
        Ok(name) => Ok(Some(name)),
        Err(NameRefusal::NoMemory) => Err(WordsRefusal::NoMemory),
        Err(_) => Err(WordsRefusal::Usage),
    }
}

/// The server that the words name.
fn server_given(alloc: Global, line: &Line<'_>) -> Result<Option<Principal>, WordsRefusal>
    ensures { Gives WordsRefusal.NoMemory (λ name. name) result
        (server_given (value_of (codes "--server") line.now)) }
{
    match line.value("--server") {
        None => Ok(None),
        Some(text) => server_of(alloc, text),
    }
}

/// Whether the words have the option `name`.
fn is_given(line: &Line<'_>, name: &str) -> bool
    requires { is_dashed name.now ≡ true }
    ensures { result ≡ is_given line.now name.now }
{
    line.value(name).is_some()
}

/// The mechanisms that the words ask for.
fn mechs_in(alloc: Global, line: &Line<'_>) -> Result<Items<MechName>, WordsRefusal>
    ensures value { Gives WordsRefusal.NoMemory (λ list. list) result
        (mechs_given (has_krb5 line.now) (has_scram line.now)
        (value_of (codes "--mechs") line.now)) }
    ensures list { IfOk result (λ list. is_list list ≡ true) }
{
    let krb5 = is_given(line, "--ccache") && is_given(line, "--server");
    let scram = is_given(line, "--user") && is_given(line, "--password");
    mechs_given(alloc, krb5, scram, line.value("--mechs"))
}

/// The texts that name the files, and the user.
#[derive(Drop)]
struct Texts {
    ccache: Option<Text>,
    user: Option<Text>,
    password: Option<Text>,
}

/// The texts that the words give.
fn texts_given(alloc: Global, line: &Line<'_>) -> Result<Texts, NoMemory>
    ensures ccache { IfOk result (λ t. t.ccache ≡ value_of (codes "--ccache") line.now) }
    ensures user { IfOk result (λ t. t.user ≡ value_of (codes "--user") line.now) }
    ensures password { IfOk result (λ t. t.password ≡ value_of (codes "--password") line.now) }
{
    let ccache = text_given(alloc, line, "--ccache")?;
    match text_given(alloc, line, "--user") {
        Ok(user) => match text_given(alloc, line, "--password") {
            Ok(password) => Ok(Texts {
                ccache,
                user,
                password,
            }),
            Err(NoMemory) => {
                drop(ccache);
                drop(user);
                Err(NoMemory)
            }
        },
        Err(NoMemory) => {
            drop(ccache);
            Err(NoMemory)
        }
    }
}

/// Where the credentials come from.
#[tactic(auto, unfolding(crate::specs::Words::sources_of))]
fn sources_of(alloc: Global, line: &Line<'_>) -> Result<Sources, WordsRefusal>
    ensures value { Gives WordsRefusal.NoMemory (λ s. s) result (sources_of line.now) }
    ensures list { IfOk result (λ s. is_list s.mechs ≡ true) }
{
    let server = server_given(alloc, line)?;
    match mechs_in(alloc, line) {
        Ok(mechs) => match texts_given(alloc, line) {
            Ok(texts) => Ok(Sources {
                ccache: texts.ccache,
                server,
                user: texts.user,
                password: texts.password,
                mechs,
            }),
            Err(NoMemory) => {
                drop(server);
                drop(mechs);
                Err(WordsRefusal::NoMemory)
            }
        },
        Err(refusal) => {
            drop(server);
            Err(refusal)
        }
    }
}

/// The service of this name.
fn service_by(text: &str) -> Result<Service, WordsRefusal>
    ensures { result ≡ service_by text.now }
{
    if text == "none" {
        return Ok(Service::None);
    }
    if text == "integrity" {
        return Ok(Service::Integrity);
    }
    if text == "privacy" {
        return Ok(Service::Privacy);
    }
    Err(WordsRefusal::Usage)
}

/// The service that the words ask for.
fn service_given(line: &Line<'_>) -> Result<Service, WordsRefusal>
    ensures { result ≡ service_given (value_of (codes "--service") line.now) }
{
    match line.value("--service") {
        None => Ok(Service::Integrity),
        Some(text) => service_by(text),
    }
}

/// Whether a mechanism is negotiated: unless the option names the one whose own token is sent.
fn negotiates_given(line: &Line<'_>) -> Result<bool, WordsRefusal>
    ensures { result ≡ negotiates_given (value_of (codes "--bare") line.now) }
{
    match line.value("--bare") {
        None => Ok(true),
        Some(text) => {
            if text == "krb5" {
                Ok(false)
            } else {
                Err(WordsRefusal::Usage)
            }
        }
    }
}

/// Whether a list is one for this way to begin: without negotiation it is Kerberos alone, under its own name.
fn is_fit(negotiates: bool, list: &[MechName]) -> bool
    ensures { result ≡ is_fit negotiates list.now }
{
    if negotiates {
        return true;
    }
    match list {
        [MechName::Kerberos(KerberosName::Standard)] => true,
        _ => false,
    }
}

/// Does nothing: these are octets.
fn tell_octets(octets: &[u8])
    ensures { AreOctets octets.now }
{
    let _count = octets.len();
}

/// What is called and how, by the command and its options.
#[tactic(auto, unfolding(crate::specs::Words::plan_of))]
fn plan_of(alloc: Global, line: &Line<'_>) -> Result<Plan, WordsRefusal>
    ensures value { Gives WordsRefusal.NoMemory (λ p. p) result (plan_of line.now) }
    ensures range { IfOk result IsRanged }
{
    let asked = asked_in(alloc, line)?;
    tell_octets(asked.args.as_slice());
    let bindings = bindings_given(alloc, line)?;
    let negotiates = negotiates_given(line)?;
    let service = service_given(line)?;
    let times = number_given(line, "--times", 1, 1000, 1)?;
    let first = number_given(line, "--first", 1, 0x7fff_ffff, 1)?;
    let terms = Terms {
        service,
        program: asked.program,
        version: asked.version,
    };
    Ok(Plan {
        command: asked.command,
        args: asked.args,
        bindings,
        negotiates,
        terms,
        times,
        first,
    })
}

/// The sources and the plan of words, where the list is one for the way to begin.
fn joined(sources: Sources, plan: Plan) -> Result<ClientWords, WordsRefusal>
    requires range { IsRanged plan }
    requires list { is_list sources.mechs ≡ true }
    ensures value { result ≡ joined sources plan }
    ensures range { IfOk result (λ w. IsRanged w.plan) }
    ensures list { IfOk result (λ w. is_list w.sources.mechs ≡ true) }
    ensures fit { IfOk result (λ w. is_fit w.plan.negotiates w.sources.mechs ≡ true) }
{
    if is_fit(plan.negotiates, sources.mechs.as_slice()) {
        Ok(ClientWords { sources, plan })
    } else {
        Err(WordsRefusal::Usage)
    }
}

/// What a line of the command asks for.
#[tactic(auto, unfolding(crate::specs::Words::words_of))]
fn read_line(alloc: Global, line: &Line<'_>) -> Result<ClientWords, WordsRefusal>
    requires { is_command line.now ≡ true }
    ensures value { Gives WordsRefusal.NoMemory (λ w. w) result (words_of line.now) }
    ensures range { IfOk result (λ w. IsRanged w.plan) }
    ensures list { IfOk result (λ w. is_list w.sources.mechs ≡ true) }
    ensures fit { IfOk result (λ w. is_fit w.plan.negotiates w.sources.mechs ≡ true) }
{
    let sources = sources_of(alloc, line)?;
    match plan_of(alloc, line) {
        Ok(plan) => joined(sources, plan),
        Err(refusal) => {
            drop(sources);
            Err(refusal)
        }
    }
}

/// What words ask for that have the form of the command.
fn read_form(alloc: Global, words: &[Text]) -> Result<ClientWords, WordsRefusal>
    requires { is_line words.now ≡ true }
    ensures value { Gives WordsRefusal.NoMemory (λ w. w) result (words_of words.now) }
    ensures range { IfOk result (λ w. IsRanged w.plan) }
    ensures list { IfOk result (λ w. is_list w.sources.mechs ≡ true) }
    ensures fit { IfOk result (λ w. is_fit w.plan.negotiates w.sources.mechs ≡ true) }
{
    let texts = texts_of(alloc, words)?;
    let line = client_line(alloc, texts.as_slice())?;
    read_line(alloc, &line)
}

/// What the words ask for. They go to `clap` where they have the form of the command.
pub fn read_words(alloc: Global, words: &[Text]) -> Result<ClientWords, WordsRefusal>
    ensures value { Gives WordsRefusal.NoMemory (λ w. w) result (words_of words.now) }
    ensures range { IfOk result (λ w. IsRanged w.plan) }
    ensures list { IfOk result (λ w. is_list w.sources.mechs ≡ true) }
    ensures fit { IfOk result (λ w. is_fit w.plan.negotiates w.sources.mechs ≡ true) }
{
    if is_line(words) {
        read_form(alloc, words)
    } else {
        Err(WordsRefusal::Usage)
    }
}
