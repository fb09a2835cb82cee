//! Tokens of messages, of a context that stands.

ghost use Rattle.std.specs.Prelude.{◌≡◌, ◌≢◌};
ghost use Rattle.scram_c.specs.Status.{status_number, no_memory};
ghost use Rattle.scram_c.specs.Answers.{context_of, counted, counted_in, standing_status};
ghost use Rattle.scram_c.specs.Answers.{handed_status, handed_room, handed_count};
ghost use Rattle.scram_c.specs.Messages.{mic_made, mic_status, wrap_made, wrap_opened};
ghost use Rattle.scram_c.specs.Messages.{opened_status, opened_room, opened_count, opened_sealed};

use crate::exchange::{Exchange, Stage};
use crate::scram_handle::VmScram;
use crate::status::Status;
use crate::telling::{context_in, put_octets};
use krb_tokens::TokenRefusal;
use std::alloc::Global;

/// Counts a token that was made.
fn count_one(exchange: &mut Exchange)
    ensures { exchange.new ≡ record exchange.old { stage = counted_in exchange.old.stage } }
{
    match &mut exchange.stage {
        Stage::Stands(context) => context.number = context.number.wrapping_add(1),
        Stage::First(_) => {}
        Stage::Wait(_) => {}
        Stage::Due => {}
        Stage::Accept(_) => {}
        Stage::Over => {}
    }
}

/// Makes the MIC token of the next number over a message.
#[unsafe(no_mangle)]
pub extern "C" fn vm_scram_get_mic(
    alloc: Global,
    h: &mut VmScram,
    message: &[u8],
    mic: &mut [u8; 28],
) -> u32
    ensures status { result ≡ status_number
        (standing_status h.old.value (context_of h.old.value)) }
    ensures mic { mic.new ≡ mic_made mic.old message.now (context_of h.old.value) }
    ensures counted { h.new.value ≡ counted h.old.value }
{
    let Some(mut held) = h.take(alloc) else {
        return Status::Empty.number();
    };
    let status = match context_in(&held) {
        Some(context) => {
            *mic = context.end.make_mic(context.number, message);
            Status::Done
        }
        None => Status::NotDue,
    };
    count_one(&mut held);
    h.put(alloc, held);
    status.number()
}

/// Whether a MIC token is the other end's over a message. Its number isn't judged.
#[unsafe(no_mangle)]
pub extern "C" fn vm_scram_verify_mic(
    alloc: Global,
    h: &mut VmScram,
    message: &[u8],
    token: &[u8],
) -> u32
    ensures status { result ≡ status_number
        (mic_status h.old.value token.now message.now (context_of h.old.value)) }
    ensures kept { h.new.value ≡ h.old.value }
{
    let Some(held) = h.take(alloc) else {
        return Status::Empty.number();
    };
    let status = match context_in(&held) {
        Some(context) => match context.end.check_mic(token, message) {
            Ok(()) => Status::Done,
            Err(refusal) => Status::Token(refusal),
        },
        None => Status::NotDue,
    };
    h.put(alloc, held);
    status.number()
}

/// Makes the Wrap token of the next number of a message, sealed or signed, by 16 octets that were drawn for a confounder. The token's octets are
/// told also where the room is too little; its number is spent only where the token is handed out. 60 octets more than the message has are room
/// enough.
#[unsafe(no_mangle)]
pub extern "C" fn vm_scram_wrap(
    alloc: Global,
    h: &mut VmScram,
    sealed: bool,
    confounder: &[u8; 16],
    message: &[u8],
    room: &mut [u8],
    count: &mut usize,
) -> u32
    ensures status { result ≢ no_memory → result ≡ status_number (handed_status h.old.value room.old
        (wrap_made sealed confounder.now message.now (context_of h.old.value))) }
    ensures room { result ≢ no_memory → room.new ≡ handed_room room.old
        (wrap_made sealed confounder.now message.now (context_of h.old.value)) }
    ensures count { result ≢ no_memory → count.new ≡ handed_count count.old
        (wrap_made sealed confounder.now message.now (context_of h.old.value)) }
    ensures counted { result ≡ 0 → h.new.value ≡ counted h.old.value }
    ensures kept { result ≢ 0 → h.new.value ≡ h.old.value }
    ensures unwritten { result ≡ no_memory → room.new ≡ room.old }
    ensures uncounted { result ≡ no_memory → count.new ≡ count.old }
{
    let Some(mut held) = h.take(alloc) else {
        return Status::Empty.number();
    };
    let status = match context_in(&held) {
        Some(context) => {
            match context
                .end
                .wrap(alloc, context.number, sealed, confounder, message)
            {
                Ok(token) => {
                    *count = token.as_slice().len();
                    put_octets(room, token.as_slice())
                }
                Err(_) => Status::NoMemory,
            }
        }
        None => Status::NotDue,
    };
    if let Status::Done = status {
        count_one(&mut held);
    }
    h.put(alloc, held);
    status.number()
}

/// Takes out what the other end's Wrap token holds, and whether it was sealed. Its number isn't judged. The octets' count is told also where the
/// room is too little; as many as the token has are room enough.
#[unsafe(no_mangle)]
pub extern "C" fn vm_scram_unwrap(
    alloc: Global,
    h: &mut VmScram,
    token: &[u8],
    room: &mut [u8],
    count: &mut usize,
    sealed: &mut bool,
) -> u32
    ensures status { result ≢ no_memory → result ≡ status_number (opened_status h.old.value room.old
        (wrap_opened token.now (context_of h.old.value))) }
    ensures room { result ≢ no_memory → room.new
        ≡ opened_room room.old (wrap_opened token.now (context_of h.old.value)) }
    ensures count { result ≢ no_memory → count.new
        ≡ opened_count count.old (wrap_opened token.now (context_of h.old.value)) }
    ensures sealed { result ≢ no_memory → sealed.new
        ≡ opened_sealed sealed.old (wrap_opened token.now (context_of h.old.value)) }
    ensures kept { h.new.value ≡ h.old.value }
    ensures unwritten { result ≡ no_memory → room.new ≡ room.old }
    ensures uncounted { result ≡ no_memory → count.new ≡ count.old }
    ensures unsealed { result ≡ no_memory → sealed.new ≡ sealed.old }
{
    let Some(held) = h.take(alloc) else {
        return Status::Empty.number();
    };
    let status = match context_in(&held) {
        Some(context) => match context.end.unwrap(alloc, token) {
            Ok(opened) => {
                *count = opened.content.as_slice().len();
                *sealed = opened.sealed;
                put_octets(room, opened.content.as_slice())
            }
            Err(TokenRefusal::NoMemory) => Status::NoMemory,
            Err(refusal) => Status::Token(refusal),
        },
        None => Status::NotDue,
    };
    h.put(alloc, held);
    status.number()
}
