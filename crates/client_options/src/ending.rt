//! How a run of the client ends, and the line that says so.

ghost use Rattle.std.specs.Prelude.{◌≡◌, ◌≢◌, [], IsTrue, IfOk, string_bytes};
ghost use Rattle.sec_base.specs.Answers.{Rose};
ghost use Rattle.cli_base.specs.Lines.{Says};
ghost use Rattle.client_options.specs.Endings.{end_of, end_of_refusal, status_of, denial_line};
ghost use Rattle.client_options.specs.Endings.{name_in, line_of};

use cli_base::{FileStop, OUT_OF_MEMORY, say, say_made, say_stop};
use gss_client::{ClientRefusal, Denial, Parting, ReplyWhy};
use sec_base::Sink;
use spnego_core::NegRefusal;
use std::alloc::{AllocError, Global};
use std::marker::Model;

/// The line of status 2.
const USAGE: &str = "usage: gssrpc ADDRESS COMMAND [ARG ..] [options]\n";

/// A file that the words name.
#[derive(Clone, Copy)]
pub enum WordFile {
    /// The credential cache.
    Ccache,
    /// The password's file.
    Password,
}

/// How a run ended, before its line was written.
#[derive(Clone, Copy)]
pub enum RunEnd {
    /// The words aren't in the command.
    Usage,
    /// The file can't be loaded, and the shelf's count of faults rose.
    CannotLoad(WordFile),
    /// The file has too many octets, or isn't of its format from this place on.
    Bad { file: WordFile, at: usize },
    /// The credential cache has no credential for the server.
    NoCredential,
    /// There was no memory.
    NoMemory,
    /// The link failed, and its count of faults rose.
    LinkFault,
    /// The stream ended before a reply was whole.
    PeerEnded,
    /// The server denied what was asked.
    Refused(Denial),
    /// The negotiating end refused to start, or refused the server's token.
    Negotiation(NegRefusal),
    /// A reply is none that may come.
    BadReply(ReplyWhy),
    /// A result is none of the procedure's.
    Foreign,
    /// A call was due, and no number was left for it.
    Spent,
    /// All calls were answered.
    Finished,
}

/// How the run ends whose session was refused.
fn end_of_refusal(refusal: ClientRefusal) -> RunEnd
    ensures { result ≡ end_of_refusal refusal }
{
    match refusal {
        ClientRefusal::LinkFault => RunEnd::LinkFault,
        ClientRefusal::PeerEnded => RunEnd::PeerEnded,
        ClientRefusal::Refused(denial) => RunEnd::Refused(denial),
        ClientRefusal::Negotiation(refusal) => RunEnd::Negotiation(refusal),
        ClientRefusal::BadReply(why) => RunEnd::BadReply(why),
        ClientRefusal::NoMemory => RunEnd::NoMemory,
    }
}

/// How the run ends whose session parted so.
pub fn end_of(parting: Parting) -> RunEnd
    ensures { result ≡ end_of parting }
{
    match parting {
        Parting::Finished => RunEnd::Finished,
        Parting::Spent => RunEnd::Spent,
        Parting::Foreign => RunEnd::Foreign,
        Parting::Refused(refusal) => end_of_refusal(refusal),
    }
}

/// The line of what the server denied.
fn denial_text(alloc: Global, denial: Denial) -> Result<String, AllocError>
    ensures { IfOk result (λ made. string_bytes made ≡ denial_line denial) }
{
    match denial {
        Denial::Rpc { low, high } => format!(in alloc; "refused: rpc {low} {high}\n"),
        Denial::Auth { stat } => format!(in alloc; "refused: auth {stat}\n"),
        Denial::Accept { stat } => format!(in alloc; "refused: accept {stat}\n"),
        Denial::Gss { major, minor } => format!(in alloc; "refused: gss {major} {minor}\n"),
    }
}

/// Says what the server denied.
fn say_denied<O: Sink>(alloc: Global, err: &mut O, denial: Denial) -> u8
    ensures status { result ≢ 6 → result ≢ 8 → result ≡ 10 }
    ensures fault { result ≡ 6 → Rose (O.faults err.old) (O.faults err.new) }
    ensures said { IsTrue (O.tells err.old)
        → Says (O.written err.old) (O.written err.new) result (denial_line denial) }
{
    say_made(err, 10, denial_text(alloc, denial))
}

/// Says what the negotiating end refused.
fn say_negotiation<O: Sink>(alloc: Global, err: &mut O, refusal: NegRefusal) -> u8
    ensures status { result ≢ 6 → result ≢ 8 → result ≡ 11 }
    ensures fault { result ≡ 6 → Rose (O.faults err.old) (O.faults err.new) }
    ensures said { IsTrue (O.tells err.old)
        → Says (O.written err.old) (O.written err.new) result (line_of
        (record { ccache = []; password = []; server = [] }) (RunEnd.Negotiation refusal)) }
{
    let number = refusal.number();
    say_made(err, 11, format!(in alloc; "negotiation: {number}\n"))
}

/// Says that there is no credential for this server.
fn say_uncredited<O: Sink>(alloc: Global, err: &mut O, server: &str) -> u8
    ensures status { result ≢ 6 → result ≢ 8 → result ≡ 4 }
    ensures fault { result ≡ 6 → Rose (O.faults err.old) (O.faults err.new) }
    ensures said { IsTrue (O.tells err.old) → Says (O.written err.old) (O.written err.new) result
        (line_of (record { ccache = []; password = []; server = server.now }) RunEnd.NoCredential) }
{
    say_made(err, 4, format!(in alloc; "no credential for {server}\n"))
}

/// What the words of a run name, as its line says it: the files, and the server's text form. A name that the words don't have is empty.
#[derive(Drop)]
pub struct Names<'a> {
    pub ccache: &'a str,
    pub password: &'a str,
    pub server: &'a str,
}

impl<'a> Model for Names<'a> {
    ghost use Rattle.client_options.specs.Endings.{Named};

    ghost Value = { Named };

    ghost view = { λ n.
        record { ccache = n.ccache.now; password = n.password.now; server = n.server.now } };
}

impl<'a> Names<'a> {
    /// The name of a file.
    fn of(&self, file: WordFile) -> &'a str
        ensures { result.now ≡ name_in self.now file }
    {
        match file {
            WordFile::Ccache => self.ccache,
            WordFile::Password => self.password,
        }
    }
}

/// Writes the line of an end, and answers its status; 8 also where there was no memory for the line, and 6 where it can't be written.
pub fn say_end<O: Sink>(alloc: Global, err: &mut O, names: &Names<'_>, end: RunEnd) -> u8
    ensures status { result ≢ 6 → result ≢ 8 → result ≡ status_of end }
    ensures fault { result ≡ 6 → Rose (O.faults err.old) (O.faults err.new) }
    ensures said { IsTrue (O.tells err.old)
        → Says (O.written err.old) (O.written err.new) result (line_of names.now end) }
{
    match end {
        RunEnd::Usage => say(err, 2, USAGE),
        RunEnd::CannotLoad(file) => say_stop(alloc, err, names.of(file), FileStop::CannotLoad),
        RunEnd::Bad { file, at } => say_stop(alloc, err, names.of(file), FileStop::Bad { at }),
        RunEnd::NoCredential => say_uncredited(alloc, err, names.server),
        RunEnd::NoMemory => say(err, 8, OUT_OF_MEMORY),
        RunEnd::LinkFault => say(err, 5, "link fault\n"),
        RunEnd::PeerEnded => say(err, 9, "peer ended\n"),
        RunEnd::Refused(denial) => say_denied(alloc, err, denial),
        RunEnd::Negotiation(refusal) => say_negotiation(alloc, err, refusal),
        RunEnd::BadReply(_) => say(err, 12, "bad reply\n"),
        RunEnd::Foreign => say(err, 12, "bad reply\n"),
        RunEnd::Spent => say(err, 13, "spent\n"),
        RunEnd::Finished => 0,
    }
}
