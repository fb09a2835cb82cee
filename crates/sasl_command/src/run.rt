//! The run of the program.

ghost use Rattle.std.specs.Prelude.{◌≡◌, ◌≢◌, ◌≤◌, ◌⊎◌, false, map, IsTrue, IfOk, None};
ghost use Rattle.sec_base.specs.Answers.{Rose};
ghost use Rattle.cli_base.specs.Lines.{Says};
ghost use Rattle.gss_base.specs.declared.mech.KerberosName.TheVariants.{Standard};
ghost use Rattle.gss_base.specs.declared.mech.MechName.TheVariants.{Kerberos};
ghost use Rattle.mech_objects.specs.Standard.{blank_of};
ghost use Rattle.sasl_options.specs.Endings.{status_of, line_of};
ghost use Rattle.sasl_options.specs.Words.{words_of, IsRanged};
ghost use Rattle.sasl_options.specs.declared.words.Words.TheVariants as asked;
ghost use Rattle.sasl_command.specs.Turns.{seen};
ghost use Rattle.sasl_command.specs.Printing.{Prints, lines};
ghost use Rattle.sasl_command.specs.Serving.{IsSetup, IsWish, Served};
ghost use Rattle.sasl_command.specs.Runs.{IsBlank, armed_all, names_of, names_in};
ghost use Rattle.sasl_command.specs.Runs.{ServeRun, AskRun, SpokeBy, Ran};

use crate::asking::{Asked, ask, unlayered};
use crate::ending::Parted;
use crate::printing::lines_of;
use crate::serving::serve;
use gss_base::{KerberosName, Principal};
use init_ends::armed_with;
use krb_files::{Credential, Keytab};
use mech_objects::Mech;
use sasl_layer::{LayerFacts, Wish};
use sasl_options::{
    AskWords, Names, RunEnd, ServeWords, Wished, Words, credential_given, end_of_words,
    keytab_given, read_words, say_end,
};
use scram_mech::read_verifiers;
use sec_base::{Clock, Draw, Items, Link, NoMemory, Shelf, Sink, Text};
use spnego_core::{AcceptSetup, MechCred};
use std::alloc::Global;

/// What a run came to.
#[derive(Drop)]
pub struct SaslEnd {
    /// The exit status: 0 the echo was read, or all that came was echoed, 2 the words aren't in the command, 3 the file can't be loaded, 4 it isn't
    /// of its format, or has no key or credential for the name, 5 the link failed, 6 a sink failed, 8 there was no memory, 9 the peer ended, 11 the
    /// end or its layer refused.
    pub status: u8,
    /// How the run ended, before its line was written.
    pub end: RunEnd,
    /// What both ends agreed on, once the layer stood.
    pub facts: Option<LayerFacts>,
}

/// The wish of words.
fn wish_of(wished: Wished) -> Wish
    requires { IsRanged wished }
    ensures { IsWish result wished }
{
    match Wish::new(wished.layers as u8, wished.size) {
        Some(wish) => wish,
        None => unreachable!(),
    }
}

/// What a server judges requests by: this keytab and this own name. No mechanism is negotiated, so none is offered.
fn setup_of(alloc: Global, keytab: Keytab, own: Principal) -> Result<AcceptSetup, NoMemory>
    ensures { IfOk result (λ s. IsSetup s keytab own) }
{
    match read_verifiers(alloc, &[]) {
        Ok(verifiers) => Ok(AcceptSetup {
            own,
            keytab,
            verifiers,
            bindings: None,
            offer: Items::of(Vec::new(alloc)),
            bare: false,
        }),
        Err(_) => {
            drop(keytab);
            drop(own);
            Err(NoMemory)
        }
    }
}

/// Serves with this keytab.
fn serve_with<L: Link, C: Clock, D: Draw>(
    alloc: Global,
    keytab: Keytab,
    own: Principal,
    wished: Wished,
    link: &mut L,
    clock: &mut C,
    draw: &mut D,
) -> Parted
    requires unclosed { L.closed link.old ≡ false }
    requires range { IsRanged wished }
    ensures told { IsTrue (L.tells link.old) → Served keytab own wished
        (seen L.Link C.Clock D.Draw link.old clock.old draw.old)
        (seen L.Link C.Clock D.Draw link.new clock.new draw.new) result.facts result.end }
    ensures tells { L.tells link.new ≡ L.tells link.old }
    ensures unclosed { L.closed link.new ≡ false }
    ensures fault { result.end ≡ RunEnd.LinkFault → Rose (L.faults link.old) (L.faults link.new) }
    ensures faults { L.faults link.old ≤ L.faults link.new }
{
    let wish = wish_of(wished);
    match setup_of(alloc, keytab, own) {
        Ok(setup) => {
            let parted = serve(alloc, &setup, wish, link, clock, draw);
            drop(setup);
            parted
        }
        Err(NoMemory) => Parted {
            end: RunEnd::NoMemory,
            facts: None,
        },
    }
}

/// Says how a run ended.
fn told<O: Sink>(
    alloc: Global,
    names: &Names<'_>,
    end: RunEnd,
    facts: Option<LayerFacts>,
    err: &mut O,
) -> SaslEnd
    ensures status { result.status ≢ 6 → result.status ≢ 8 → result.status ≡ status_of result.end }
    ensures sink_fault { result.status ≡ 6 → Rose (O.faults err.old) (O.faults err.new) }
    ensures said { IsTrue (O.tells err.old)
        → Says (O.written err.old) (O.written err.new) result.status (line_of names.now end) }
    ensures end { result.end ≡ end }
    ensures facts { result.facts ≡ facts }
{
    let status = say_end(alloc, err, names, end);
    SaslEnd { status, end, facts }
}

/// Runs `serve`.
fn run_serve<F: Shelf, L: Link, C: Clock, D: Draw, O: Sink>(
    alloc: Global,
    words: ServeWords,
    shelf: &mut F,
    link: &mut L,
    clock: &mut C,
    draw: &mut D,
    err: &mut O,
) -> SaslEnd
    requires unclosed { L.closed link.old ≡ false }
    requires range { IsRanged words.wished }
    ensures status { result.status ≢ 6 → result.status ≢ 8 → result.status ≡ status_of result.end }
    ensures sink_fault { result.status ≡ 6 → Rose (O.faults err.old) (O.faults err.new) }
    ensures said { IsTrue (O.tells err.old) → Says (O.written err.old) (O.written err.new)
        result.status (line_of (names_in (asked.Serve words)) result.end) }
    ensures ran { ServeRun F.Shelf shelf.old shelf.new (L.tells link.old) words
        (seen L.Link C.Clock D.Draw link.old clock.old draw.old)
        (seen L.Link C.Clock D.Draw link.new clock.new draw.new) result.facts result.end }
    ensures tells { L.tells link.new ≡ L.tells link.old }
    ensures unclosed { L.closed link.new ≡ false }
    ensures fault { result.end ≡ RunEnd.LinkFault → Rose (L.faults link.old) (L.faults link.new) }
    ensures faults { L.faults link.old ≤ L.faults link.new }
{
    let ServeWords {
        keytab: file,
        name,
        wished,
    } = words;
    let label = name.label();
    let names = Names {
        file: file.as_str(),
        principal: label.text(),
    };
    match keytab_given(alloc, shelf, file.as_str(), &name) {
        Ok(keytab) => {
            let Parted { end, facts } = serve_with(alloc, keytab, name, wished, link, clock, draw);
            told(alloc, &names, end, facts, err)
        }
        Err(end) => {
            drop(name);
            told(alloc, &names, end, None, err)
        }
    }
}

/// The object with this credential.
fn armed(
    alloc: Global,
    mechs: Vec<Box<dyn Mech>>,
    credential: Credential,
) -> Result<Vec<Box<dyn Mech>>, NoMemory>
    requires { IsBlank (map meaning mechs.items) }
    ensures { IfOk result
        (λ v. map meaning v.items ≡ armed_all (map meaning mechs.items) credential) }
{
    let mut mechs = mechs;
    let object = mechs.remove(0);
    drop(mechs);
    let cred = MechCred::Kerberos {
        name: KerberosName::Standard,
        credential,
    };
    let object = armed_with(object, cred);
    let mut list = Vec::new(alloc);
    list.push(object)?;
    Ok(list)
}

/// Asks with this credential.
fn ask_with<L: Link, C: Clock, D: Draw>(
    alloc: Global,
    credential: Credential,
    wished: Wished,
    sending: &[u8],
    mechs: Vec<Box<dyn Mech>>,
    link: &mut L,
    clock: &mut C,
    draw: &mut D,
) -> Asked
    requires unclosed { L.closed link.old ≡ false }
    requires blank { IsBlank (map meaning mechs.items) }
    requires range { IsRanged wished }
    ensures told { IsTrue (L.tells link.old)
        → SpokeBy (armed_all (map meaning mechs.items) credential) wished sending.now
        (seen L.Link C.Clock D.Draw link.old clock.old draw.old)
        (seen L.Link C.Clock D.Draw link.new clock.new draw.new) result.facts result.echo
        result.end }
    ensures tells { L.tells link.new ≡ L.tells link.old }
    ensures unclosed { L.closed link.new ≡ false }
    ensures fault { result.end ≡ RunEnd.LinkFault → Rose (L.faults link.old) (L.faults link.new) }
    ensures faults { L.faults link.old ≤ L.faults link.new }
{
    let wish = wish_of(wished);
    match armed(alloc, mechs, credential) {
        Ok(mechs) => ask(alloc, wish, mechs, sending, link, clock, draw),
        Err(NoMemory) => unlayered(RunEnd::NoMemory),
    }
}

/// Prints what a client agreed on and read, and says how its run ended.
fn report<O: Sink>(
    alloc: Global,
    names: &Names<'_>,
    ran: Asked,
    out: &mut O,
    err: &mut O,
) -> SaslEnd
    ensures status { result.status ≢ 6 → result.status ≢ 8 → result.status ≡ status_of result.end }
    ensures sink_fault { result.status ≡ 6
        → Rose (O.faults out.old) (O.faults out.new) ⊎ Rose (O.faults err.old) (O.faults err.new) }
    ensures said { IsTrue (O.tells err.old) → Says (O.written err.old) (O.written err.new)
        result.status (line_of names.now result.end) }
    ensures printed { IsTrue (O.tells out.old) → Prints (O.written out.old) (O.written out.new)
        result.status (lines ran.facts ran.echo) }
    ensures ends { (result.end ≡ ran.end) ⊎ (result.end ≡ RunEnd.NoMemory) }
    ensures facts { result.facts ≡ ran.facts }
{
    let Asked { end, facts, echo } = ran;
    let made = lines_of(alloc, &facts, &echo);
    drop(echo);
    match made {
        Ok(text) => match out.write(text.as_slice()) {
            Ok(()) => told(alloc, names, end, facts, err),
            Err(_) => SaslEnd {
                status: 6,
                end,
                facts,
            },
        },
        Err(NoMemory) => told(alloc, names, RunEnd::NoMemory, facts, err),
    }
}

/// Runs `ask`.
fn run_ask<F: Shelf, L: Link, C: Clock, D: Draw, O: Sink>(
    alloc: Global,
    words: AskWords,
    shelf: &mut F,
    link: &mut L,
    clock: &mut C,
    draw: &mut D,
    mechs: Vec<Box<dyn Mech>>,
    out: &mut O,
    err: &mut O,
) -> SaslEnd
    requires unclosed { L.closed link.old ≡ false }
    requires blank { IsBlank (map meaning mechs.items) }
    requires range { IsRanged words.wished }
    ensures status { result.status ≢ 6 → result.status ≢ 8 → result.status ≡ status_of result.end }
    ensures sink_fault { result.status ≡ 6
        → Rose (O.faults out.old) (O.faults out.new) ⊎ Rose (O.faults err.old) (O.faults err.new) }
    ensures said { IsTrue (O.tells err.old) → Says (O.written err.old) (O.written err.new)
        result.status (line_of (names_in (asked.Ask words)) result.end) }
    ensures ran { AskRun F.Shelf O.Sink shelf.old shelf.new out.old out.new (L.tells link.old)
        words (map meaning mechs.items)
        (seen L.Link C.Clock D.Draw link.old clock.old draw.old)
        (seen L.Link C.Clock D.Draw link.new clock.new draw.new) result.status result.facts
        result.end }
    ensures tells { L.tells link.new ≡ L.tells link.old }
    ensures unclosed { L.closed link.new ≡ false }
    ensures fault { result.end ≡ RunEnd.LinkFault → Rose (L.faults link.old) (L.faults link.new) }
    ensures faults { L.faults link.old ≤ L.faults link.new }
{
    let AskWords {
        ccache: file,
        server,
        octets,
        wished,
    } = words;
    let label = server.label();
    let names = Names {
        file: file.as_str(),
        principal: label.text(),
    };
    match credential_given(alloc, shelf, file.as_str(), &server) {
        Ok(credential) => {
            let sending = octets.as_slice();
            let ran = ask_with(alloc, credential, wished, sending, mechs, link, clock, draw);
            report(alloc, &names, ran, out, err)
        }
        Err(end) => {
            drop(mechs);
            told(alloc, &names, end, None, err)
        }
    }
}

/// The names of words that aren't in the command.
pub(crate) const UNNAMED: Names<'static> = Names {
    file: "",
    principal: "",
};

/// Runs the program over a link, and says on `err` how the run ended. The words are `serve ADDRESS --keytab FILE --name PRINCIPAL [--layers M] [--size N]`
/// or `ask ADDRESS HEX --ccache FILE --server PRINCIPAL [--layers M] [--size N]`, where M is a mask of the layers 1 (none), 2 (integrity) and 4
/// (privacy), 7 without it, and N the greatest token that the end takes, 65,536 without it. `serve` sends each message back until the stream ends, at most
/// 65,536 messages; `ask` prints the layer and the echo of the octets on `out`. `mechs` is one blank object of Kerberos, under either name.
pub fn run_sasl<F: Shelf, L: Link, C: Clock, D: Draw, O: Sink>(
    alloc: Global,
    words: &[Text],
    shelf: &mut F,
    link: &mut L,
    clock: &mut C,
    draw: &mut D,
    mechs: Vec<Box<dyn Mech>>,
    out: &mut O,
    err: &mut O,
) -> SaslEnd
    requires unclosed { L.closed link.old ≡ false }
    requires blank { IsBlank (map meaning mechs.items) }
    // The status and the line on `err`: those of the end, unless there was no memory for the line, or a sink failed.
    ensures status { result.status ≢ 6 → result.status ≢ 8 → result.status ≡ status_of result.end }
    ensures sink_fault { result.status ≡ 6
        → Rose (O.faults out.old) (O.faults out.new) ⊎ Rose (O.faults err.old) (O.faults err.new) }
    ensures said { IsTrue (O.tells err.old) → Says (O.written err.old) (O.written err.new)
        result.status (line_of (names_of (words_of words.now)) result.end) }
    // What the words ask for was done, by what the file holds; words that aren't in the command are refused.
    ensures ran { Ran F.Shelf O.Sink shelf.old shelf.new out.old out.new (L.tells link.old)
        (map meaning mechs.items) (seen L.Link C.Clock D.Draw link.old clock.old draw.old)
        (seen L.Link C.Clock D.Draw link.new clock.new draw.new) result.status result.facts
        result.end (words_of words.now) }
    ensures fault { result.end ≡ RunEnd.LinkFault → Rose (L.faults link.old) (L.faults link.new) }
    ensures tells { L.tells link.new ≡ L.tells link.old }
    ensures unclosed { L.closed link.new ≡ false }
    ensures faults { L.faults link.old ≤ L.faults link.new }
{
    match read_words(alloc, words) {
        Ok(Words::Serve(words)) => {
            drop(mechs);
            run_serve(alloc, words, shelf, link, clock, draw, err)
        }
        Ok(Words::Ask(words)) => {
            run_ask(alloc, words, shelf, link, clock, draw, mechs, out, err)
        }
        Err(refusal) => {
            drop(mechs);
            told(alloc, &UNNAMED, end_of_words(refusal), None, err)
        }
    }
}

/// The object of Kerberos, as `run_sasl` takes it.
pub fn blank_mechs(alloc: Global, kerberos: Box<dyn Mech>) -> Result<Vec<Box<dyn Mech>>, NoMemory>
    requires { meaning kerberos ≡ blank_of (Kerberos Standard) }
    ensures { IfOk result (λ v. IsBlank (map meaning v.items)) }
{
    let mut list = Vec::new(alloc);
    list.push(kerberos)?;
    Ok(list)
}
