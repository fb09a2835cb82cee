//! The rules of data calls, RFC 2203 section 5.3: a call is judged, its number taken, and its result given.

ghost use Rattle.std.specs.Prelude.{◌≡◌, ◌≤◌, true, IfOk, length};
ghost use Rattle.sha1.specs.Sha1.{sha1};
ghost use Rattle.rpcsec_msgs.specs.Cred.{cred_value};
ghost use Rattle.rpc_program.specs.Programs.{IsShort};
ghost use Rattle.accept_book.specs.RecordShown.{is_verified, body_args, end_of};
ghost use Rattle.accept_book.specs.RecordRule.{unadmitted, admitted_ruling, ask_admit, args_ruling};
ghost use Rattle.accept_book.specs.RecordRule.{data_ruling, IsInContext};
ghost use Rattle.gss_server.specs.Answers.{IsSaid};
ghost use Rattle.gss_server.specs.Hearing.{shown};
ghost use Rattle.gss_server.specs.Ruled.{IsRuledInContext, IsScreened, unasked};

use crate::asks::Asks;
use crate::foresight::{SHORT, foresee_long, lend_long};
use crate::gate::{DataCall, Gate};
use crate::heard::Heard;
use crate::opening::open_body;
use crate::results::say_outcome;
use crate::saying::{Said, end_at, say_denied, say_mismatch, say_no_memory, say_nothing, say_stat};
use accept_book::{AdmitRefusal, Admitted, Lease, Rule};
use krb_tokens::LentKeys;
use rpc_msgs::numbers::{
    AUTH_TOOWEAK, GARBAGE_ARGS, PROC_UNAVAIL, PROG_UNAVAIL, RPCSEC_GSS, RPCSEC_GSS_CREDPROBLEM,
    RPCSEC_GSS_CTXPROBLEM, SYSTEM_ERR,
};
use rpc_program::limits::MOST;
use rpcsec_bodies::Service;
use rpcsec_msgs::GssCred;
use sec_base::Octets;
use sha1::Sha1;
use std::alloc::Global;

/// The number of a call wasn't taken.
pub(crate) fn say_unadmitted<G: Gate>(
    alloc: Global,
    heard: &Heard<'_>,
    cred: &GssCred<'_>,
    lease: &Lease,
    keys: &LentKeys<'_>,
    refusal: AdmitRefusal,
) -> Said
    ensures says { IsSaid result
        (unadmitted (shown G.program heard.entry.now) (cred_value cred.now) lease.now refusal) }
{
    match refusal {
        AdmitRefusal::Gone => say_denied::<G>(alloc, heard, Rule::Gone, RPCSEC_GSS_CREDPROBLEM),
        AdmitRefusal::AboveMax => say_denied::<G>(
            alloc,
            heard,
            Rule::AboveMax,
            RPCSEC_GSS_CTXPROBLEM,
        ),
        AdmitRefusal::Below { last: _ } => say_nothing(Rule::Below),
        AdmitRefusal::Repeat => say_nothing(Rule::Repeat),
        AdmitRefusal::LogFull => say_stat::<G>(
            alloc,
            heard,
            cred,
            lease,
            keys,
            Rule::LogFull,
            SYSTEM_ERR,
        ),
    }
}

/// Whether the verifier is a MIC of the other side over the call's header.
#[tactic(auto, unfolding(accept_book::specs::RecordShown::is_verified))]
fn verified<G: Gate>(heard: &Heard<'_>, lease: &Lease, keys: &LentKeys<'_>) -> bool
    ensures { result ≡ is_verified (shown G.program heard.entry.now) lease.now }
{
    let call = &heard.call;
    if call.verf.flavour != RPCSEC_GSS {
        return false;
    }
    let header = &heard.bytes[..call.header];
    end_at(lease)
        .check_mic_by(keys, call.verf.body, header)
        .is_ok()
}

/// What is said to a call of a context that was shown, where its verifier, its program or its
/// version refuses it.
pub(crate) fn screened<G: Gate>(
    alloc: Global,
    gate: &G,
    heard: &Heard<'_>,
    cred: &GssCred<'_>,
    lease: &Lease,
    keys: &LentKeys<'_>,
) -> Option<Said>
    ensures { IsScreened (shown G.program heard.entry.now) (cred_value cred.now) lease.now result }
{
    if !verified::<G>(heard, lease, keys) {
        return Some(say_denied::<G>(alloc, heard, Rule::Verifier, RPCSEC_GSS_CREDPROBLEM));
    }
    let id = gate.id();
    if heard.call.program != id.number {
        return Some(say_stat::<G>(alloc, heard, cred, lease, keys, Rule::Program, PROG_UNAVAIL));
    }
    if heard.call.version != id.version {
        let (rule, served) = (Rule::Version, id.version);
        return Some(say_mismatch::<G>(alloc, heard, cred, lease, keys, rule, served, served));
    }
    None
}

/// A call was admitted, or why it wasn't.
fn say_admitted<G: Gate>(
    alloc: Global,
    heard: &Heard<'_>,
    cred: &GssCred<'_>,
    lease: &Lease,
    keys: &LentKeys<'_>,
    args: &[u8],
    answer: &Result<Admitted, AdmitRefusal>,
) -> Said
    requires few { length args.now ≤ MOST }
    requires short { IfOk answer.now (λ admitted. IsShort admitted.outcome) }
    ensures says { IsSaid result (admitted_ruling (shown G.program heard.entry.now)
        (cred_value cred.now)
        lease.now args.now answer.now) }
{
    match answer {
        Ok(admitted) => {
            say_outcome::<G>(alloc, heard, cred, lease, keys, args, &admitted.outcome)
        }
        Err(refusal) => say_unadmitted::<G>(alloc, heard, cred, lease, keys, *refusal),
    }
}

/// The SHA-1 of no octets (FIPS 180-4 section 6.1).
const EMPTY_DIGEST: [u8; 20] = [
    0xda, 0x39, 0xa3, 0xee, 0x5e, 0x6b, 0x4b, 0x0d, 0x32, 0x55, 0xbf, 0xef, 0x95, 0x60, 0x18, 0x90,
    0xaf, 0xd8, 0x07, 0x09,
];

/// The SHA-1 of arguments, which most calls have none of.
fn digest_of(keys: &LentKeys<'_>, args: &[u8]) -> [u8; 20]
    ensures { result ≡ sha1 args.now }
{
    match args {
        [] => EMPTY_DIGEST,
        _ => match keys.known_digest(args) {
            Some(digest) => digest,
            None => Sha1::digest(args),
        },
    }
}

/// Asks for the admission of a call.
fn ask_admission<G: Gate>(
    alloc: Global,
    gate: &mut G,
    heard: &Heard<'_>,
    cred: &GssCred<'_>,
    lease: &Lease,
    keys: &LentKeys<'_>,
    args: &[u8],
    asks: &mut Asks,
) -> Said
    requires has { G.program.has heard.now.call.procedure ≡ true }
    requires takes { G.program.takes heard.now.call.procedure args.now ≡ true }
    requires few { length args.now ≤ MOST }
    requires unasked { asks.old ≡ unasked }
    ensures ruled { IsRuledInContext G.Gate gate.old gate.new asks.new result
        (ask_admit (shown G.program heard.entry.now) (cred_value cred.now) lease.now args.now
        asks.new.admitted) }
{
    let call = DataCall {
        seq: cred.seq,
        service: Service::of(cred.service),
        procedure: heard.call.procedure,
        args,
        digest: digest_of(keys, args),
    };
    let answer = gate.admit(alloc, lease, &call);
    let said = say_admitted::<G>(alloc, heard, cred, lease, keys, args, &answer);
    asks.admitted = Some(answer);
    said
}

/// Judges the arguments of a call, and asks for its admission.
fn say_args<G: Gate>(
    alloc: Global,
    gate: &mut G,
    heard: &Heard<'_>,
    cred: &GssCred<'_>,
    lease: &Lease,
    keys: &LentKeys<'_>,
    args: &Option<Octets>,
    asks: &mut Asks,
) -> Said
    requires has { G.program.has heard.now.call.procedure ≡ true }
    requires unasked { asks.old ≡ unasked }
    ensures ruled { IsRuledInContext G.Gate gate.old gate.new asks.new result
        (args_ruling (shown G.program heard.entry.now)
        (cred_value cred.now) lease.now asks.new.admitted
        args.now) }
{
    let Some(args) = args else {
        return say_stat::<G>(alloc, heard, cred, lease, keys, Rule::Body, GARBAGE_ARGS);
    };
    if !gate.takes(heard.call.procedure, args.as_slice()) {
        return say_stat::<G>(
            alloc,
            heard,
            cred,
            lease,
            keys,
            Rule::Arguments,
            GARBAGE_ARGS,
        );
    }
    ask_admission(alloc, gate, heard, cred, lease, keys, args.as_slice(), asks)
}

/// Answers a data call by the arguments that its body carries.
fn say_opened<G: Gate>(
    alloc: Global,
    gate: &mut G,
    heard: &Heard<'_>,
    cred: &GssCred<'_>,
    lease: &Lease,
    keys: &LentKeys<'_>,
    asks: &mut Asks,
) -> Said
    requires has { G.program.has heard.now.call.procedure ≡ true }
    requires unasked { asks.old ≡ unasked }
    ensures ruled { IsRuledInContext G.Gate gate.old gate.new asks.new result
        (args_ruling (shown G.program heard.entry.now)
        (cred_value cred.now) lease.now asks.new.admitted
        (body_args (end_of lease.now) (cred_value cred.now) heard.entry.now.call.args.now)) }
{
    match open_body(alloc, &end_at(lease), keys, cred, heard.call.args) {
        Ok(args) => say_args(alloc, gate, heard, cred, lease, keys, &args, asks),
        Err(_) => say_no_memory(),
    }
}

/// The same, with the checksums of a long call computed beforehand. Those of a short one were, before its header was verified.
fn say_body<G: Gate>(
    alloc: Global,
    gate: &mut G,
    heard: &Heard<'_>,
    cred: &GssCred<'_>,
    lease: &Lease,
    keys: &LentKeys<'_>,
    asks: &mut Asks,
) -> Said
    requires has { G.program.has heard.now.call.procedure ≡ true }
    requires unasked { asks.old ≡ unasked }
    ensures ruled { IsRuledInContext G.Gate gate.old gate.new asks.new result
        (args_ruling (shown G.program heard.entry.now)
        (cred_value cred.now) lease.now asks.new.admitted
        (body_args (end_of lease.now) (cred_value cred.now) heard.entry.now.call.args.now)) }
{
    if heard.call.args.len() <= SHORT {
        return say_opened(alloc, gate, heard, cred, lease, keys, asks);
    }
    let long = foresee_long(heard, cred, lease, keys.cache);
    match &long {
        Some(known) => {
            let lent = lend_long(keys.cache, known);
            say_opened(alloc, gate, heard, cred, lease, &lent, asks)
        }
        None => say_opened(alloc, gate, heard, cred, lease, keys, asks),
    }
}

/// Answers a data call whose verifier, program and version are right.
#[tactic(auto, unfolding(accept_book::specs::RecordRule::data_ruling))]
fn say_in_context<G: Gate>(
    alloc: Global,
    gate: &mut G,
    heard: &Heard<'_>,
    cred: &GssCred<'_>,
    lease: &Lease,
    keys: &LentKeys<'_>,
    asks: &mut Asks,
) -> Said
    requires right { IsInContext (shown G.program heard.now) lease.now }
    requires unasked { asks.old ≡ unasked }
    ensures ruled { IsRuledInContext G.Gate gate.old gate.new asks.new result
        (data_ruling (shown G.program heard.entry.now)
        (cred_value cred.now) lease.now asks.new.admitted) }
{
    let call = &heard.call;
    if !gate.has(call.procedure) {
        return say_stat::<G>(
            alloc,
            heard,
            cred,
            lease,
            keys,
            Rule::Procedure,
            PROC_UNAVAIL,
        );
    }
    if cred.service < gate.needs(call.procedure).number() {
        return say_denied::<G>(alloc, heard, Rule::Weak, AUTH_TOOWEAK);
    }
    say_body(alloc, gate, heard, cred, lease, keys, asks)
}

/// Answers a data call of a context that was shown.
pub(crate) fn say_data<G: Gate>(
    alloc: Global,
    gate: &mut G,
    heard: &Heard<'_>,
    cred: &GssCred<'_>,
    lease: &Lease,
    keys: &LentKeys<'_>,
    asks: &mut Asks,
) -> Said
    requires unasked { asks.old ≡ unasked }
    ensures ruled { IsRuledInContext G.Gate gate.old gate.new asks.new result
        (data_ruling (shown G.program heard.entry.now)
        (cred_value cred.now) lease.now asks.new.admitted) }
{
    match screened(alloc, gate, heard, cred, lease, keys) {
        None => say_in_context(alloc, gate, heard, cred, lease, keys, asks),
        Some(said) => said,
    }
}
