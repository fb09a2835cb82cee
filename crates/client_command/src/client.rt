//! The run of the client.

ghost use Rattle.std.specs.Prelude.{◌≡◌, ◌≢◌, ◌≤◌, ◌⊎◌, [], List, false, true, IsTrue, IsOk, None};
ghost use Rattle.std.specs.Prelude.{Ok, Err, IfOk, IfErr, map};
ghost use Rattle.sec_base.specs.Answers.{Rose};
ghost use Rattle.spnego_core.specs.InitMech.{is_own_list, is_bare_list};
ghost use Rattle.spnego_core.specs.declared.setup.MechCred.{MechCred};
ghost use Rattle.init_ends.specs.Arming.{AreStandard};
ghost use Rattle.cli_base.specs.Lines.{SaysLine, Says};
ghost use Rattle.client_command.specs.Credentials.{creds_from, is_unloaded, Asks};
ghost use Rattle.client_options.specs.Endings.{end_of, end_of_words, is_begun, status_of, line_of};
ghost use Rattle.client_options.specs.Lines.{lines};
ghost use Rattle.client_command.specs.Loading.{CredsFrom, RunBegins, EndsBy};
ghost use Rattle.client_options.specs.Mechs.{is_list};
ghost use Rattle.client_command.specs.Runs.{text_or_none, server_text, names_in, names_of};
ghost use Rattle.client_command.specs.Runs.{command_of, Reports, Spoke, EndsSo};
ghost use Rattle.client_command.specs.Runs.{HasHeld, HasSpoken, IsSilent};
ghost use Rattle.client_options.specs.Words.{words_of, is_fit, IsRanged};

use crate::credential::creds_given;
use client_options::{
    ClientWords, Command, Names, Plan, RunEnd, Sources, WordsRefusal, end_of, lines_of, read_words,
    say_end,
};
use gss_base::{Label, Principal};
use gss_client::{ClientRefusal, Parting, Session, Start, Talk};
use init_ends::InitSetup;
use mech_objects::Mech;
use sec_base::{Clock, Draw, Items, Link, NoMemory, Octets, Shelf, Sink, Text};
use spnego_core::{InitFacts, MechCred, Outcome};
use std::alloc::Global;

/// What a run came to.
#[derive(Drop)]
pub struct ClientEnd {
    /// The exit status: 0 all calls were answered, 2 the words aren't in the command, 3 a file can't be loaded, 4 it isn't of its format,
    /// or the cache has no credential for the server, 5 the link failed, 6 a sink failed, 8 there was no memory, 9 the peer ended, 10 it refused,
    /// 11 the negotiation failed, 12 a reply or a result was none that may come, 13 the numbers of the context are spent.
    pub status: u8,
    /// How the run ended, before its line was written.
    pub end: RunEnd,
    /// What both ends agree on, once the context stood.
    pub outcome: Option<Outcome>,
    /// The results of the calls, in XDR, in order.
    pub results: Vec<Octets>,
}

/// What a session came to that had no memory to begin.
fn unbegun(alloc: Global) -> Talk
    ensures outcome { result.outcome ≡ None }
    ensures results { result.results.items ≡ [] }
    ensures parting { result.parting ≡ Parting.Refused ClientRefusal.NoMemory }
{
    Talk {
        outcome: None,
        results: Vec::new(alloc),
        parting: Parting::Refused(ClientRefusal::NoMemory),
    }
}

/// Holds the session of a plan: the clock's next moment is its stamp, the next 66 random octets are its own, and those behind them its
/// calls' confounders. Its mechanisms are the objects that got its credentials; where there is no memory to arm them, nothing is written.
fn speak<L: Link, C: Clock, D: Draw>(
    alloc: Global,
    plan: Plan,
    creds: Items<MechCred>,
    link: &mut L,
    clock: &mut C,
    draw: &mut D,
    mechs: Vec<Box<dyn Mech>>,
) -> Talk
    requires unclosed { L.closed link.old ≡ false }
    requires mechs { AreStandard (map meaning mechs.items) }
    requires list { is_own_list creds ≡ true }
    requires bare { plan.negotiates ≡ false → is_bare_list creds ≡ true }
    requires range { IsRanged plan }
    ensures told { IsTrue (L.tells link.old)
        → Spoke (C.tells clock.new) (C.given clock.old) (C.given clock.new) (D.tells draw.new)
        (D.given draw.old) (D.given draw.new) plan creds (L.wire link.old) (L.wire link.new)
        result.outcome result.results.items (end_of result.parting) }
    ensures fault { result.parting ≡ Parting.Refused ClientRefusal.LinkFault
        → Rose (L.faults link.old) (L.faults link.new) }
    ensures tells { L.tells link.new ≡ L.tells link.old }
    ensures unclosed { L.closed link.new ≡ false }
    ensures faults { L.faults link.old ≤ L.faults link.new }
{
    let stamp = clock.now();
    let mut draws = [0; 66];
    draw.fill(&mut draws);
    let Plan {
        command,
        args,
        bindings,
        negotiates,
        terms,
        times,
        first,
    } = plan;
    let facts = InitFacts {
        list: creds,
        bindings,
        stamp,
        draws,
        negotiates,
    };
    let Ok(setup) = InitSetup::armed(alloc, mechs, facts) else {
        drop(args);
        return unbegun(alloc);
    };
    let start = Start {
        setup,
        terms,
        first,
    };
    let talk = Session::hold(alloc, link, draw, start, &command, args.as_slice(), times);
    drop(args);
    talk
}

/// Says how a run ended that spoke to nobody.
fn unspoken<O: Sink>(alloc: Global, names: &Names<'_>, end: RunEnd, err: &mut O) -> ClientEnd
    ensures status { result.status ≢ 6 → result.status ≢ 8 → result.status ≡ status_of result.end }
    ensures sink_fault { result.status ≡ 6 → Rose (O.faults err.old) (O.faults err.new) }
    ensures said { IsTrue (O.tells err.old)
        → Says (O.written err.old) (O.written err.new) result.status (line_of names.now end) }
    ensures end { result.end ≡ end }
    ensures outcome { result.outcome ≡ None }
    ensures results { result.results.items ≡ [] }
{
    let status = say_end(alloc, err, names, end);
    ClientEnd {
        status,
        end,
        outcome: None,
        results: Vec::new(alloc),
    }
}

/// Writes what is printed of a session, and then the line of its end. Answers the run's status.
fn print<O: Sink>(
    alloc: Global,
    names: &Names<'_>,
    text: &[u8],
    end: RunEnd,
    out: &mut O,
    err: &mut O,
) -> u8
    ensures status { result ≢ 6 → result ≢ 8 → result ≡ status_of end }
    ensures sink_fault { result ≡ 6
        → Rose (O.faults out.old) (O.faults out.new) ⊎ Rose (O.faults err.old) (O.faults err.new) }
    ensures printed { IsTrue (O.tells out.old)
        → SaysLine (O.written out.old) (O.written out.new) result text.now }
    ensures said { IsTrue (O.tells err.old)
        → Says (O.written err.old) (O.written err.new) result (line_of names.now end) }
{
    match out.write(text) {
        Ok(()) => say_end(alloc, err, names, end),
        Err(_) => 6,
    }
}

/// Prints what a session came to, and says how it ended.
fn report<O: Sink>(
    alloc: Global,
    names: &Names<'_>,
    command: Command,
    talk: Talk,
    out: &mut O,
    err: &mut O,
) -> ClientEnd
    ensures status { result.status ≢ 6 → result.status ≢ 8 → result.status ≡ status_of result.end }
    ensures sink_fault { result.status ≡ 6
        → Rose (O.faults out.old) (O.faults out.new) ⊎ Rose (O.faults err.old) (O.faults err.new) }
    ensures printed { IsTrue (O.tells out.old) → SaysLine (O.written out.old) (O.written out.new)
        result.status (lines command result.outcome result.results.items) }
    ensures said { IsTrue (O.tells err.old) → Says (O.written err.old) (O.written err.new)
        result.status (line_of names.now result.end) }
    ensures kept { Reports talk.outcome talk.results.items talk.parting result.outcome
        result.results.items result.end }
{
    let Talk {
        outcome,
        results,
        parting,
    } = talk;
    match lines_of(alloc, command, &outcome, results.as_slice()) {
        Ok(text) => {
            let end = end_of(parting);
            let status = print(alloc, names, text.as_slice(), end, out, err);
            drop(text);
            ClientEnd {
                status,
                end,
                outcome,
                results,
            }
        }
        Err(NoMemory) => {
            drop(results);
            unspoken(alloc, names, RunEnd::NoMemory, err)
        }
    }
}

/// An option's text, empty without it.
fn text_or_none(text: &Option<Text>) -> &str
    ensures { result.now ≡ text_or_none text.now }
{
    match text {
        Some(text) => text.as_str(),
        None => "",
    }
}

/// A label's text, empty without it.
fn label_or_none(label: &Option<Label>) -> &str
    ensures { result.now ≡ text_or_none label.now }
{
    match label {
        Some(label) => label.text(),
        None => "",
    }
}

/// The text form of a server, where one is named.
pub fn server_label(server: &Option<Principal>) -> Option<Label>
    ensures { text_or_none result ≡ server_text server.now }
{
    match server {
        Some(server) => Some(server.label()),
        None => None,
    }
}

/// What the words name; the label is the server's.
pub fn names_in<'a>(sources: &'a Sources, label: &'a Option<Label>) -> Names<'a>
    ensures { text_or_none label.now ≡ server_text sources.now.server
        → result ≡ names_in sources.now }
{
    Names {
        ccache: text_or_none(&sources.ccache),
        password: text_or_none(&sources.password),
        server: label_or_none(label),
    }
}

/// Holds the session where there are credentials, and says how the run ended.
fn run_by<L: Link, C: Clock, D: Draw, O: Sink>(
    alloc: Global,
    sources: &Sources,
    plan: Plan,
    creds: Result<Items<MechCred>, RunEnd>,
    link: &mut L,
    clock: &mut C,
    draw: &mut D,
    mechs: Vec<Box<dyn Mech>>,
    out: &mut O,
    err: &mut O,
) -> ClientEnd
    requires unclosed { L.closed link.old ≡ false }
    requires mechs { AreStandard (map meaning mechs.items) }
    requires range { IsRanged plan }
    requires own { IfOk creds (λ list. is_own_list list ≡ true) }
    requires bare { plan.negotiates ≡ false → IfOk creds (λ list. is_bare_list list ≡ true) }
    requires unbegun { IfErr creds (λ end. is_begun end ≡ false) }
    ensures status { result.status ≢ 6 → result.status ≢ 8 → result.status ≡ status_of result.end }
    ensures sink_fault { result.status ≡ 6
        → Rose (O.faults out.old) (O.faults out.new) ⊎ Rose (O.faults err.old) (O.faults err.new) }
    ensures printed { IsTrue (O.tells out.old) → SaysLine (O.written out.old) (O.written out.new)
        result.status (lines plan.command result.outcome result.results.items) }
    ensures said { IsTrue (O.tells err.old) → Says (O.written err.old) (O.written err.new)
        result.status (line_of (names_in sources.now) result.end) }
    ensures ends { EndsBy creds result.end }
    ensures silent { IfErr creds (λ end. IsSilent (L.wire link.old) (L.wire link.new)
        result.outcome result.results.items) }
    ensures spoke { (list : List MechCred) → creds ≡ Ok list → IsTrue (L.tells link.old)
        → Spoke (C.tells clock.new) (C.given clock.old) (C.given clock.new) (D.tells draw.new)
        (D.given draw.old) (D.given draw.new) plan list (L.wire link.old) (L.wire link.new)
        result.outcome result.results.items result.end }
    ensures unloaded { is_unloaded result.end ≡ true → creds ≡ Err result.end }
    ensures link_fault { result.end ≡ RunEnd.LinkFault
        → Rose (L.faults link.old) (L.faults link.new) }
    ensures tells { L.tells link.new ≡ L.tells link.old }
    ensures unclosed { L.closed link.new ≡ false }
    ensures faults { L.faults link.old ≤ L.faults link.new }
{
    let label = server_label(&sources.server);
    let names = names_in(sources, &label);
    match creds {
        Ok(creds) => {
            let command = plan.command;
            let talk = speak(alloc, plan, creds, link, clock, draw, mechs);
            report(alloc, &names, command, talk, out, err)
        }
        Err(end) => {
            drop(plan);
            drop(mechs);
            unspoken(alloc, &names, end, err)
        }
    }
}

/// Runs the client with what its words ask for.
fn run_with<F: Shelf, L: Link, C: Clock, D: Draw, O: Sink>(
    alloc: Global,
    words: ClientWords,
    shelf: &mut F,
    link: &mut L,
    clock: &mut C,
    draw: &mut D,
    mechs: Vec<Box<dyn Mech>>,
    out: &mut O,
    err: &mut O,
) -> ClientEnd
    requires unclosed { L.closed link.old ≡ false }
    requires mechs { AreStandard (map meaning mechs.items) }
    requires range { IsRanged words.plan }
    requires list { is_list words.sources.mechs ≡ true }
    requires fit { is_fit words.plan.negotiates words.sources.mechs ≡ true }
    ensures status { result.status ≢ 6 → result.status ≢ 8 → result.status ≡ status_of result.end }
    ensures sink_fault { result.status ≡ 6
        → Rose (O.faults out.old) (O.faults out.new) ⊎ Rose (O.faults err.old) (O.faults err.new) }
    ensures printed { IsTrue (O.tells out.old) → SaysLine (O.written out.old) (O.written out.new)
        result.status (lines words.plan.command result.outcome result.results.items) }
    ensures said { IsTrue (O.tells err.old) → Says (O.written err.old) (O.written err.new)
        result.status (line_of (names_in words.sources) result.end) }
    ensures other { result.end ≢ RunEnd.Usage }
    ensures begins { RunBegins F.Shelf shelf.old shelf.new words.sources result.end }
    ensures load_fault { is_unloaded result.end ≡ true
        → Rose (F.faults shelf.old) (F.faults shelf.new) }
    ensures asked { IsTrue (F.tells shelf.old)
        → Asks (F.asked shelf.old) (F.asked shelf.new) words.sources result.end }
    ensures stops { IsTrue (F.tells shelf.old) → is_begun result.end ≡ false
        → is_unloaded result.end ≡ false → result.end ≢ RunEnd.NoMemory
        → creds_from (F.files shelf.old) words.sources ≡ Err result.end }
    ensures found { IsTrue (F.tells shelf.old) → is_begun result.end ≡ true
        → IsOk (creds_from (F.files shelf.old) words.sources) }
    ensures silent { is_begun result.end ≡ false → result.end ≢ RunEnd.NoMemory
        → IsSilent (L.wire link.old) (L.wire link.new) result.outcome result.results.items }
    ensures spoke { is_begun result.end ≡ true → IsTrue (L.tells link.old) → HasHeld
        words (CredsFrom F.Shelf shelf.old shelf.new) (F.tells shelf.old) (F.files shelf.old)
        (C.tells clock.new) (C.given clock.old) (C.given clock.new) (D.tells draw.new)
        (D.given draw.old) (D.given draw.new) (L.wire link.old) (L.wire link.new) result.outcome
        result.results.items result.end }
    ensures wanting { result.end ≡ RunEnd.NoMemory → IsTrue (L.tells link.old)
        → IsSilent (L.wire link.old) (L.wire link.new) result.outcome result.results.items ⊎ HasHeld
        words (CredsFrom F.Shelf shelf.old shelf.new) (F.tells shelf.old) (F.files shelf.old)
        (C.tells clock.new) (C.given clock.old) (C.given clock.new) (D.tells draw.new)
        (D.given draw.old) (D.given draw.new) (L.wire link.old) (L.wire link.new) result.outcome
        result.results.items result.end }
    ensures ends { (creds : List MechCred) (parting : Parting) → IsTrue (F.tells shelf.old)
        → creds_from (F.files shelf.old) words.sources ≡ Ok creds → IsTrue (L.tells link.old)
        → EndsSo (C.tells clock.new) (C.given clock.old) (C.given clock.new)
        (D.tells draw.new) (D.given draw.old) (D.given draw.new) words.plan creds (L.wire link.old)
        (L.wire link.new) parting → (Rose (F.faults shelf.old) (F.faults shelf.new) → ⊥)
        → (Rose (L.faults link.old) (L.faults link.new) → ⊥) → result.end ≢ RunEnd.NoMemory
        → result.end ≡ end_of parting }
    ensures link_fault { result.end ≡ RunEnd.LinkFault
        → Rose (L.faults link.old) (L.faults link.new) }
    ensures tells { L.tells link.new ≡ L.tells link.old }
    ensures unclosed { L.closed link.new ≡ false }
    ensures faults { L.faults link.old ≤ L.faults link.new }
{
    let ClientWords { sources, plan } = words;
    let creds = creds_given(alloc, shelf, &sources);
    let ended = run_by(
        alloc, &sources, plan, creds, link, clock, draw, mechs, out, err,
    );
    drop(sources);
    ended
}

/// How the run ends whose words were refused.
fn end_of_words(refusal: WordsRefusal) -> RunEnd
    ensures { result ≡ end_of_words refusal }
{
    match refusal {
        WordsRefusal::Usage => RunEnd::Usage,
        WordsRefusal::NoMemory => RunEnd::NoMemory,
    }
}

/// The names of words that aren't in the command.
pub(crate) const UNNAMED: Names<'static> = Names {
    ccache: "",
    password: "",
    server: "",
};

/// Runs the client over a link, and says on `err` how the run ended. The words are
/// `ADDRESS COMMAND [ARG ..] [--ccache FILE --server PRINCIPAL] [--user NAME --password FILE] [--mechs LIST] [--bare krb5] [--bind TEXT]
/// [--service none|integrity|privacy] [--times N] [--first N]`, where COMMAND is `null`, `echo`, `whoami`, `post`, `count` or `call`; `echo` and `post` have an ARG in hexadecimal, and `call`
/// has three numbers, of a program, its version and a procedure, and may have arguments in hexadecimal. LIST has
/// one to three of the words `krb5`, `ms-krb5` and `scram`, each at most once and in any order, with commas between them; `ms-krb5` is Kerberos under Microsoft's object
/// identifier. With `--bare krb5` nothing is negotiated: LIST is `krb5` then, or the words have the options of Kerberos alone. `mechs` has blank objects in any order, at least one under each name: Kerberos's own, Microsoft's, and SCRAM's. The session's mechanisms are those of them
/// that get a credential. What the session agreed on and was answered is printed on `out`.
pub fn run_client<F: Shelf, L: Link, C: Clock, D: Draw, O: Sink>(
    alloc: Global,
    words: &[Text],
    shelf: &mut F,
    link: &mut L,
    clock: &mut C,
    draw: &mut D,
    mechs: Vec<Box<dyn Mech>>,
    out: &mut O,
    err: &mut O,
) -> ClientEnd
    requires unclosed { L.closed link.old ≡ false }
    requires mechs { AreStandard (map meaning mechs.items) }
    // The status and the line on `err`: those of the end, unless there was no memory for the line, or a sink failed.
    ensures status { result.status ≢ 6 → result.status ≢ 8 → result.status ≡ status_of result.end }
    ensures sink_fault { result.status ≡ 6
        → Rose (O.faults out.old) (O.faults out.new) ⊎ Rose (O.faults err.old) (O.faults err.new) }
    ensures said { IsTrue (O.tells err.old) → Says (O.written err.old) (O.written err.new)
        result.status (line_of (names_of (words_of words.now)) result.end) }
    // What is printed on `out`: the lines of the outcome and the results that are returned.
    ensures printed { IsTrue (O.tells out.old)
        → SaysLine (O.written out.old) (O.written out.new) result.status
        (lines (command_of (words_of words.now)) result.outcome result.results.items) }
    // The words are refused exactly where they aren't in the command, want of memory aside.
    ensures usage { result.end ≡ RunEnd.Usage → words_of words.now ≡ Err WordsRefusal.Usage }
    ensures always_usage { words_of words.now ≡ Err WordsRefusal.Usage
        → result.end ≢ RunEnd.NoMemory → result.end ≡ RunEnd.Usage }
    ensures unloaded { words_of words.now ≡ Err WordsRefusal.Usage
        → F.asked shelf.new ≡ F.asked shelf.old }
    // Words in the command: their files are loaded, each once, and the run ends without a session exactly where a load was answered a fault, or what
    // was loaded can't be used or has no credential for their server, whatever the shelf tells of its files.
    ensures begins { (asked : ClientWords)
        → words_of words.now ≡ Ok asked → result.end ≢ RunEnd.NoMemory
        → RunBegins F.Shelf shelf.old shelf.new asked.sources result.end }
    // Over a shelf that tells its files, this is by what they hold.
    ensures asked { (asked : ClientWords)
        → words_of words.now ≡ Ok asked → IsTrue (F.tells shelf.old)
        → Asks (F.asked shelf.old) (F.asked shelf.new) asked.sources result.end }
    ensures load_fault { is_unloaded result.end ≡ true
        → Rose (F.faults shelf.old) (F.faults shelf.new) }
    ensures stops { (asked : ClientWords)
        → words_of words.now ≡ Ok asked → IsTrue (F.tells shelf.old) → is_begun result.end ≡ false
        → is_unloaded result.end ≡ false → result.end ≢ RunEnd.NoMemory
        → creds_from (F.files shelf.old) asked.sources ≡ Err result.end }
    ensures always_stops { (asked : ClientWords) (end : RunEnd) → words_of words.now ≡ Ok asked
        → IsTrue (F.tells shelf.old) → creds_from (F.files shelf.old) asked.sources ≡ Err end
        → (Rose (F.faults shelf.old) (F.faults shelf.new) → ⊥) → result.end ≢ RunEnd.NoMemory
        → result.end ≡ end }
    ensures found { (asked : ClientWords) → words_of words.now ≡ Ok asked
        → IsTrue (F.tells shelf.old) → is_begun result.end ≡ true
        → IsOk (creds_from (F.files shelf.old) asked.sources) }
    // Without a session nothing is written on the link.
    ensures silent { is_begun result.end ≡ false → result.end ≢ RunEnd.NoMemory
        → IsSilent (L.wire link.old) (L.wire link.new) result.outcome result.results.items }
    // With one, what is written, the outcome, the results and the end are those of its talk.
    ensures spoke { is_begun result.end ≡ true → IsTrue (L.tells link.old) → HasSpoken
        words.now (CredsFrom F.Shelf shelf.old shelf.new) (F.tells shelf.old) (F.files shelf.old)
        (C.tells clock.new) (C.given clock.old) (C.given clock.new) (D.tells draw.new)
        (D.given draw.old) (D.given draw.new) (L.wire link.old) (L.wire link.new) result.outcome
        result.results.items result.end }
    ensures wanting { result.end ≡ RunEnd.NoMemory → IsTrue (L.tells link.old)
        → IsSilent (L.wire link.old) (L.wire link.new) result.outcome result.results.items
        ⊎ HasSpoken words.now (CredsFrom F.Shelf shelf.old shelf.new) (F.tells shelf.old)
        (F.files shelf.old) (C.tells clock.new) (C.given clock.old) (C.given clock.new)
        (D.tells draw.new) (D.given draw.old) (D.given draw.new) (L.wire link.old)
        (L.wire link.new) result.outcome result.results.items result.end }
    ensures link_fault { result.end ≡ RunEnd.LinkFault
        → Rose (L.faults link.old) (L.faults link.new) }
    // With the credentials, and no count that rose, a session is held, and the run ends as its talk does, want of memory aside.
    ensures complete { (asked : ClientWords) (creds : List MechCred) → words_of words.now ≡ Ok asked
        → IsTrue (F.tells shelf.old) → creds_from (F.files shelf.old) asked.sources ≡ Ok creds
        → (Rose (F.faults shelf.old) (F.faults shelf.new) → ⊥)
        → (Rose (L.faults link.old) (L.faults link.new) → ⊥) → result.end ≢ RunEnd.NoMemory
        → (is_begun result.end ≡ true) × (result.end ≢ RunEnd.LinkFault) }
    ensures ends { (asked : ClientWords) (creds : List MechCred) (parting : Parting)
        → words_of words.now ≡ Ok asked → IsTrue (F.tells shelf.old)
        → creds_from (F.files shelf.old) asked.sources ≡ Ok creds → IsTrue (L.tells link.old)
        → EndsSo (C.tells clock.new) (C.given clock.old) (C.given clock.new)
        (D.tells draw.new) (D.given draw.old) (D.given draw.new) asked.plan creds (L.wire link.old)
        (L.wire link.new) parting → (Rose (F.faults shelf.old) (F.faults shelf.new) → ⊥)
        → (Rose (L.faults link.old) (L.faults link.new) → ⊥) → result.end ≢ RunEnd.NoMemory
        → result.end ≡ end_of parting }
    ensures tells { L.tells link.new ≡ L.tells link.old }
    ensures unclosed { L.closed link.new ≡ false }
    ensures faults { L.faults link.old ≤ L.faults link.new }
{
    match read_words(alloc, words) {
        Ok(words) => run_with(alloc, words, shelf, link, clock, draw, mechs, out, err),
        Err(refusal) => {
            drop(mechs);
            unspoken(alloc, &UNNAMED, end_of_words(refusal), err)
        }
    }
}
