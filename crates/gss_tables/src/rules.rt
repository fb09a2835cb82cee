//! The answer to one record, over a gate whose answers the line says.

ghost use Rattle.std.specs.Prelude.{◌≡◌, IfSome};
ghost use Rattle.gate_models.specs.Sizes.{outcome_size};

use crate::asking::Asking;
use crate::served::list_gate;
use accept_book::{AdmitRefusal, Admitted, EndCause, Entry, Lease, LookRefusal, Receipt};
use gate_models::{Call, GateAnswer};
use gss_base::{Label, MechKind};
use gss_server::{Reply, answer_record};
use krb_derive::Key;
use rpc_program::{Outcome as CallOutcome, Unserved};
use sec_base::Moment;
use spnego_core::Outcome;
use std::alloc::Global;
use table_rows::{Cells, Said};
use table_setting::say_list;

/// The outcome of a context with this key, of type 17, and this initiator.
fn outcome(key: [u8; 16], subkey: bool, initiator: &str) -> Option<Outcome> {
    Some(Outcome {
        mech: MechKind::Kerberos,
        initiator: Label::new(initiator)?,
        acceptor: Label::new("rpc/host@R")?,
        key: Key::Aes128(key),
        subkey,
        hash: [0; 16],
    })
}

/// The lease of a context: `id:key:subkey:initiator`.
fn lease(alloc: Global, shown: &str) -> Option<Lease> {
    let mut parts = Cells::new(alloc, shown, ':');
    let id = parts.number();
    let key = parts.exactly();
    let subkey = parts.is_yes();
    let initiator = parts.text();
    let ends = Moment::greatest();
    if !parts.are_well() {
        return None;
    }
    match outcome(key, subkey, initiator.as_str()) {
        Some(outcome) => Some(Lease { id, outcome, ends }),
        None => None,
    }
}

/// The receipt that such an answer has; no reply says anything of it.
fn receipt(id: u64) -> Receipt {
    let entry = Entry::Ended {
        id,
        cause: EndCause::Refused,
    };
    Receipt { place: 0, entry }
}

/// Why a number isn't admitted, by its name.
fn refused(name: &str) -> Option<AdmitRefusal> {
    match name {
        "Gone" => Some(AdmitRefusal::Gone),
        "AboveMax" => Some(AdmitRefusal::AboveMax),
        "Below" => Some(AdmitRefusal::Below { last: 0 }),
        "Repeat" => Some(AdmitRefusal::Repeat),
        "LogFull" => Some(AdmitRefusal::LogFull),
        _ => None,
    }
}

/// The answer to the end of a context.
fn ended(said: &str, id: u64) -> Option<Result<Receipt, AdmitRefusal>> {
    if said == "Ended" {
        return Some(Ok(receipt(id)));
    }
    Some(Err(refused(said)?))
}

/// What comes of a call, by its name; `Admitted:posts` is told by the program itself.
fn outcome_named(said: &str) -> Option<CallOutcome>
    ensures { IfSome result (λ outcome. outcome_size outcome ≡ 0) }
{
    match said {
        "RefusedProgram" => Some(CallOutcome::Refused(Unserved::Program)),
        "RefusedProcedure" => Some(CallOutcome::Refused(Unserved::Procedure)),
        "RefusedArguments" => Some(CallOutcome::Refused(Unserved::Arguments)),
        "RefusedSystem" => Some(CallOutcome::Refused(Unserved::System)),
        "Mismatch" => Some(CallOutcome::Mismatch { low: 2, high: 3 }),
        "Gone" => Some(CallOutcome::Gone),
        _ => None,
    }
}

/// The answer to a call: `Admitted:posts`, `Told:` and what comes of it, or a refusal.
fn admitted(said: &str, id: u64) -> Option<Call> {
    let receipt = receipt(id);
    if said.starts_with("Admitted:") {
        let outcome = CallOutcome::Args;
        return Some(Call {
            answer: Ok(Admitted { receipt, outcome }),
        });
    }
    match said.strip_prefix("Told:") {
        Some(name) => {
            let outcome = outcome_named(name)?;
            Some(Call {
                answer: Ok(Admitted { receipt, outcome }),
            })
        }
        None => Some(Call {
            answer: Err(refused(said)?),
        }),
    }
}

/// How many posts there were where a call is admitted, by the part `Admitted:posts` of a cell.
fn posts_of(cell: &str) -> Option<u64> {
    let (_shown, posts) = cell.split_once("Admitted:")?;
    posts.parse::<u64>().ok()
}

/// The answer to the question that follows a look, of an end where `ends`.
fn second(said: &str, id: u64, ends: bool) -> Option<GateAnswer> {
    if ends {
        return Some(GateAnswer::Ended(ended(said, id)?));
    }
    Some(GateAnswer::Admitted(admitted(said, id)?))
}

/// Why a context isn't shown, by its name.
fn unseen(name: &str) -> Option<LookRefusal> {
    match name {
        "NoContext" => Some(LookRefusal::NoContext),
        "NotReady" => Some(LookRefusal::NotReady),
        "Expired" => Some(LookRefusal::Expired),
        _ => None,
    }
}

/// Adds an answer, and answers whether it could.
fn is_put(answers: &mut Vec<GateAnswer>, answer: Option<GateAnswer>) -> bool {
    match answer {
        Some(answer) => answers.push(answer).is_ok(),
        None => false,
    }
}

/// Adds that a context is shown, `lease/answer to what follows`, and answers whether it could.
fn is_shown(alloc: Global, answers: &mut Vec<GateAnswer>, shown: &str, ends: bool) -> bool {
    let (shown, then) = shown.split_once('/').unwrap_or((shown, ""));
    match lease(alloc, shown) {
        Some(lease) => {
            let id = lease.id;
            let is_well = is_put(answers, Some(GateAnswer::Looked(Ok(lease))));
            is_put(answers, second(then, id, ends)) && is_well
        }
        None => false,
    }
}

/// Adds that a context isn't shown, and answers whether it could.
fn is_hidden(answers: &mut Vec<GateAnswer>, name: &str) -> bool {
    match unseen(name) {
        Some(refusal) => is_put(answers, Some(GateAnswer::Looked(Err(refusal)))),
        None => false,
    }
}

/// Adds the answers of a cell, and answers whether it could.
fn are_put(alloc: Global, answers: &mut Vec<GateAnswer>, said: &str, ends: bool) -> bool {
    if let Some(name) = said.strip_prefix("Looked:") {
        return is_hidden(answers, name);
    }
    match said.strip_prefix("LookedOk:") {
        Some(shown) => is_shown(alloc, answers, shown, ends),
        None => true,
    }
}

/// The answers of the gate, in order. What follows a look is an end where the questions that are wanted behind the cell have one.
pub fn answers(cells: &mut Cells<'_>, cell: &str) -> Vec<GateAnswer> {
    let alloc = cells.alloc();
    let mut answers = Vec::new(alloc);
    let ends = cells.rest().unwrap_or("").contains("end:");
    let are_well = are_put(alloc, &mut answers, cell, ends);
    cells.expect(are_well);
    answers
}

/// Says a reply, `none` where there is none.
pub fn say_reply(said: &mut Said, reply: &Reply) {
    match reply {
        Reply::Silent => said.word("none"),
        Reply::Bytes(octets) => said.octets(octets.as_slice()),
        Reply::Gone => said.word("gone"),
        Reply::NoMemory => said.starve(),
    }
}

/// A record, and what its answer goes by beside the gate.
#[derive(Drop)]
struct Asked {
    octets: Vec<u8>,
    now: Moment,
    draws: [u8; 82],
    width: u32,
}

/// The cells record, moment, random octets and width.
fn read_asked(cells: &mut Cells<'_>) -> Asked {
    Asked {
        octets: cells.octets(),
        now: cells.moment(),
        draws: cells.exactly(),
        width: cells.word_number(),
    }
}

/// Says the rule by which a record is answered, the reply and the questions.
fn say(alloc: Global, gate: &mut Asking, asked: &Asked, said: &mut Said) {
    let octets = asked.octets.as_slice();
    let answered = answer_record(alloc, gate, octets, asked.now, &asked.draws, asked.width);
    said.number(answered.rule as u64);
    say_reply(said, &answered.reply);
    say_list(said, &gate.questions);
}

/// By the cells record, moment, random octets, width and the gate's answers, the rule, the reply and the questions.
pub fn answer(cells: &mut Cells<'_>, said: &mut Said) {
    let alloc = cells.alloc();
    let asked = read_asked(cells);
    let cell = cells.word();
    match list_gate(alloc, answers(cells, cell)) {
        Ok(answers) => {
            let mut gate = Asking {
                answers,
                questions: Said::new(alloc),
                posts: posts_of(cell),
            };
            say(alloc, &mut gate, &asked, said);
        }
        Err(_) => said.starve(),
    }
}
