//! What the types of an initiator's parts say, and of what an acceptor draws.

ghost use Rattle.std.specs.Prelude.{◌≡◌, ℕ, ◌≤◌, true, is_ok, length, IfOk, Some, Ok, List};
ghost use Rattle.std.specs.Prelude.{slice_get, option_map};
ghost use Rattle.gss_base.specs.Principal.{is_named};
ghost use Rattle.ap_exchange.specs.Request.{request_of, RequestFits};
ghost use Rattle.spnego_core.specs.Ends.{setup_of};
ghost use Rattle.spnego_core.specs.InitMech.{is_own_list};
ghost use Rattle.spnego_core.specs.declared.setup.MechCred.{MechCred as MechCredIs};
ghost use Rattle.pair_laws.specs.Meeting.{AnswerTold, CredTold, IsDrawn, MeetLaw, TicketTold};
ghost use Rattle.pair_laws.specs.Meeting.{UserTold};

use ap_exchange::{ApInit, ApRefusal, Judged, nonce_of};
use gss_base::Bindings;
use krb_files::Credential;
use scram_mech::{ScramInit, ScramRefusal};
use sec_base::{Moment, NoMemory, Text};
use spnego_core::{InitFacts, MechCred};
use std::alloc::Global;

/// Does nothing that stays: a request with this credential fits, where its ticket is one.
fn tell_request(
    alloc: Global,
    credential: &Credential,
    stamp: Moment,
    draws: &[u8; 66],
    bindings: Option<&Bindings>,
) -> Result<(), NoMemory>
    ensures { let bound = option_map (λ b. b.now) bindings.entry in IfOk result
        (λ _. is_ok (request_of credential.now stamp draws.now bound) ≡ true
        → RequestFits credential.now stamp draws.now bound) }
{
    match ApInit::start(alloc, credential, stamp, draws, bindings) {
        Ok(_) => Ok(()),
        Err(ApRefusal::NoMemory) => Err(NoMemory),
        Err(_) => Ok(()),
    }
}

/// Does nothing that stays: an answer to a request with this credential and stamp fits.
fn tell_answer(
    alloc: Global,
    credential: &Credential,
    stamp: Moment,
    drawn: &[u8; 66],
) -> Result<(), NoMemory>
    ensures { IfOk result (λ _. AnswerTold stamp credential.now drawn.now) }
{
    let judged = Judged {
        session: credential.session,
        initiator: credential.client.label(),
        acceptor: credential.server.label(),
        stamp,
        hash: [0; 16],
        ends: stamp,
        first: 0,
    };
    let _answer = judged.answer(alloc, drawn)?;
    Ok(())
}

/// Does nothing that stays: the same of each of these draws.
fn tell_answers(
    alloc: Global,
    credential: &Credential,
    stamp: Moment,
    draws: &[[u8; 66]],
) -> Result<(), NoMemory>
    ensures { IfOk result (λ _. (i : ℕ) (drawn : List ℕ) → slice_get draws.now i ≡ Some drawn
        → AnswerTold stamp credential.now drawn) }
{
    for drawn in draws {
        tell_answer(alloc, credential, stamp, drawn)?;
    }
    Ok(())
}

/// Does nothing: these are 66 octets.
fn tell_size(drawn: &[u8; 66])
    ensures { IsDrawn drawn.now }
{
    let _first = drawn[0];
}

/// Does nothing: each of these are 66 octets.
fn tell_sizes(draws: &[[u8; 66]])
    ensures { (i : ℕ) (drawn : List ℕ) → slice_get draws.now i ≡ Some drawn → IsDrawn drawn }
{
    for drawn in draws {
        tell_size(drawn);
    }
}

/// Does nothing: a credential's ticket has at most 60,000 octets, and its client a name.
fn tell_names(credential: &Credential)
    ensures ticket { length credential.now.ticket ≤ 60000 }
    ensures named { is_named credential.now.client.realm credential.now.client.parts ≡ true }
{
    let _ticket = &credential.ticket;
    let _label = credential.client.label();
}

/// Does nothing that stays: what a credential of Kerberos tells.
fn tell_ticket(
    alloc: Global,
    own: &InitFacts,
    credential: &Credential,
    draws: &[[u8; 66]],
) -> Result<(), NoMemory>
    ensures { IfOk result (λ _. TicketTold (setup_of own.now) draws.now credential.now) }
{
    tell_request(
        alloc,
        credential,
        own.stamp,
        &own.draws,
        own.bindings.as_ref(),
    )?;
    tell_answers(alloc, credential, own.stamp, draws)?;
    tell_names(credential);
    Ok(())
}

/// Does nothing that stays: what a credential of SCRAM tells.
fn tell_user(alloc: Global, own: &InitFacts, user: &Text, password: &Text) -> Result<(), NoMemory>
    ensures { IfOk result (λ _. UserTold (setup_of own.now) user.now password.now) }
{
    let (user, password) = (user.as_str(), password.as_str());
    let nonce = nonce_of(&own.draws);
    match ScramInit::start(alloc, user, password, &nonce, own.bindings.as_ref()) {
        Ok(_) => Ok(()),
        Err(ScramRefusal::NoMemory) => Err(NoMemory),
        Err(_) => Ok(()),
    }
}

/// Does nothing that stays: what a credential tells.
fn tell_cred(
    alloc: Global,
    own: &InitFacts,
    cred: &MechCred,
    draws: &[[u8; 66]],
) -> Result<(), NoMemory>
    ensures { IfOk result (λ _. CredTold (setup_of own.now) draws.now cred.now) }
{
    match cred {
        MechCred::Kerberos { credential, .. } => tell_ticket(alloc, own, credential, draws),
        MechCred::Scram { user, password } => tell_user(alloc, own, user, password),
    }
}

/// Does nothing that stays: what each credential tells.
fn tell_creds(alloc: Global, own: &InitFacts, draws: &[[u8; 66]]) -> Result<(), NoMemory>
    ensures { IfOk result (λ _. (i : ℕ) (cred : MechCredIs)
        → slice_get own.now.list i ≡ Some cred → CredTold (setup_of own.now) draws.now cred) }
{
    for cred in own.list.as_slice() {
        tell_cred(alloc, own, cred, draws)?;
    }
    Ok(())
}

/// Does nothing that stays; its contract says, where there was memory, that an initiator with these facts and an acceptor that draws these octets are
/// an honest pair if their facts fit: what has a spelling, and how long tokens are, is found out here.
pub fn prove_meeting(alloc: Global, own: InitFacts, draws: &[[u8; 66]]) -> Result<(), NoMemory>
    requires { is_own_list own.list ≡ true }
    ensures { IfOk result (λ _. MeetLaw (setup_of own) draws.now) }
{
    tell_size(&own.draws);
    tell_sizes(draws);
    tell_creds(alloc, &own, draws)
}
