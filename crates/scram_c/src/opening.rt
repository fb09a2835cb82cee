//! An exchange begins, goes on, and ends.

ghost use Rattle.std.specs.Prelude.{◌≡◌, ◌≢◌, ◌≤◌, length, IfOk, option_map, None, Some, IsUtf8};
ghost use Rattle.scram_c.specs.Status.{status_number, no_memory};
ghost use Rattle.scram_c.specs.declared.status.Status.TheVariants as statuses;
ghost use Rattle.scram_c.specs.Answers.{Comes, given, begun, awaiting, step_answer};

use crate::exchange::{Exchange, Stage};
use crate::scram_handle::VmScram;
use crate::status::Status;
use crate::verifiers_handle::VmVerifiers;
use gss_base::Bindings;
use scram_bindings::bindings_of;
use scram_mech::{ScramInit, Verifiers};
use sec_base::{Moment, NoMemory, Octets};
use std::alloc::Global;

/// The most octets of channel bindings.
const MOST_BINDINGS: usize = 32_768;

/// Begins an exchange as an initiator, with 18 octets that were drawn for the nonce, and application data of channel bindings, of which empty
/// ones are none (RFC 5802 sections 5 and 6). What the handle held is freed. The first token is to be sent then.
#[unsafe(no_mangle)]
pub extern "C" fn vm_scram_init(
    alloc: Global,
    h: &mut VmScram,
    user: &[u8],
    password: &[u8],
    nonce: &[u8; 18],
    bindings: &[u8],
) -> u32
    // texts begin what the mechanism begins with them
    ensures texts { IsUtf8 user.now → IsUtf8 password.now → Comes result h.old.value h.new.value
        (begun h.old.value user.now password.now nonce.now bindings.now) }
    // a user or a password that is no text is refused, and nothing changes
    ensures other { ¬ (IsUtf8 user.now × IsUtf8 password.now)
        → result ≡ status_number statuses.NotText }
    ensures kept { ¬ (IsUtf8 user.now × IsUtf8 password.now) → h.new.value ≡ h.old.value }
{
    let Ok(user) = std::str::from_utf8(user) else {
        return Status::NotText.number();
    };
    let Ok(password) = std::str::from_utf8(password) else {
        return Status::NotText.number();
    };
    begin(alloc, h, user, password, nonce, bindings)
}

fn begin(
    alloc: Global,
    h: &mut VmScram,
    user: &str,
    password: &str,
    nonce: &[u8; 18],
    application: &[u8],
) -> u32
    ensures { Comes result h.old.value h.new.value
        (begun h.old.value user.now password.now nonce.now application.now) }
{
    if application.len() > MOST_BINDINGS {
        return Status::LongBindings.number();
    }
    let Ok(bindings) = bindings_given(alloc, application) else {
        return Status::NoMemory.number();
    };
    match ScramInit::start(alloc, user, password, nonce, bindings.as_ref()) {
        Ok((end, token)) => fill(
            alloc,
            h,
            Stage::First(end),
            bindings,
            Some(token),
            Status::More,
        ),
        Err(refusal) => {
            drop(bindings);
            Status::Scram(refusal).number()
        }
    }
}

/// Application data as bindings.
fn bindings_given(alloc: Global, application: &[u8]) -> Result<Option<Bindings>, NoMemory>
    requires { length application.now ≤ 32768 }
    ensures { IfOk result (λ b. b ≡ given application.now) }
{
    Ok(bindings_of(Octets::of(alloc, application)?))
}

/// Puts a new exchange into a handle.
fn fill(
    alloc: Global,
    h: &mut VmScram,
    stage: Stage,
    bindings: Option<Bindings>,
    token: Option<Octets>,
    status: Status,
) -> u32
    requires { status_number status ≢ no_memory }
    ensures { Comes result h.old.value h.new.value (record {
      status = status;
      held = Some (record { stage = stage; bindings = bindings; token = token });
    }) }
{
    let exchange = Exchange {
        stage,
        bindings,
        token,
    };
    match Box::new(alloc, exchange) {
        Ok(boxed) => {
            h.put(alloc, boxed);
            status.number()
        }
        Err(_) => Status::NoMemory.number(),
    }
}

/// Begins an exchange as an acceptor, to whom nothing came yet. An acceptor without bindings takes whatever data come. What the handle held is
/// freed.
#[unsafe(no_mangle)]
pub extern "C" fn vm_scram_accept(alloc: Global, h: &mut VmScram, bindings: &[u8]) -> u32
    ensures { Comes result h.old.value h.new.value (awaiting h.old.value bindings.now) }
{
    if bindings.len() > MOST_BINDINGS {
        return Status::LongBindings.number();
    }
    let Ok(bindings) = bindings_given(alloc, bindings) else {
        return Status::NoMemory.number();
    };
    fill(alloc, h, Stage::Due, bindings, None, Status::Done)
}

/// Takes a token of the other end. The verifiers and 18 drawn octets serve an acceptor's first step, the microseconds since 1970 its second;
/// an initiator looks at none of them.
#[unsafe(no_mangle)]
pub extern "C" fn vm_scram_step(
    alloc: Global,
    h: &mut VmScram,
    verifiers: &mut VmVerifiers,
    token: &[u8],
    now: u64,
    nonce: &[u8; 18],
) -> u32
    ensures step { Comes result h.old.value h.new.value
        (step_answer h.old.value verifiers.old.value token.now now nonce.now) }
    ensures verifiers { verifiers.new.value ≡ verifiers.old.value }
{
    match verifiers.take(alloc) {
        Some(users) => {
            let number = step_with(alloc, h, Some(&*users), token, now, nonce);
            verifiers.put(alloc, users);
            number
        }
        None => step_with(alloc, h, None, token, now, nonce),
    }
}

fn step_with(
    alloc: Global,
    h: &mut VmScram,
    users: Option<&Verifiers>,
    token: &[u8],
    now: u64,
    nonce: &[u8; 18],
) -> u32
    ensures { Comes result h.old.value h.new.value (step_answer
        h.old.value (option_map (λ v. v.now) users.entry) token.now now nonce.now) }
{
    let Some(mut held) = h.take(alloc) else {
        return Status::Empty.number();
    };
    match held.stepped(alloc, users, token, Moment::start().later(now), nonce) {
        Ok(went) => {
            let status = held.change(went);
            h.put(alloc, held);
            status.number()
        }
        Err(_) => {
            h.put(alloc, held);
            Status::NoMemory.number()
        }
    }
}

/// Frees what the handle holds, which is empty then.
#[unsafe(no_mangle)]
pub extern "C" fn vm_scram_free(alloc: Global, h: &mut VmScram)
    ensures { h.new.value ≡ None }
{
    drop(h.take(alloc));
}
