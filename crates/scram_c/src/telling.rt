//! What an exchange hands out: the token that is to be sent, and of a context that stands the initiator and the end.

ghost use Rattle.std.specs.Prelude.{◌≡◌, length, option_copied};
ghost use Rattle.scram_c.specs.Status.{status_number};
ghost use Rattle.scram_c.specs.declared.status.Status.TheVariants as statuses;
ghost use Rattle.scram_c.specs.Answers.{room_status, put_into, token_of, octets_in, context_in};
ghost use Rattle.scram_c.specs.Answers.{handed_status, handed_room, handed_count, standing_status};
ghost use Rattle.scram_c.specs.Answers.{initiator_of, context_of, ends_of};

use crate::exchange::{Exchange, Stage, Standing};
use crate::scram_handle::VmScram;
use crate::status::Status;
use std::alloc::Global;

/// Puts octets at the front of the room.
pub fn put_octets(room: &mut [u8], octets: &[u8]) -> Status
    ensures status { result ≡ room_status room.old octets.now }
    ensures room { room.new ≡ put_into room.old octets.now }
{
    if room.len() < octets.len() {
        return Status::NoRoom;
    }
    room[..octets.len()].copy_from_slice(octets);
    Status::Done
}

/// The token that is to be sent.
fn token_in(exchange: &Exchange) -> &[u8]
    ensures { result.now ≡ octets_in exchange.now.token }
{
    match &exchange.token {
        Some(token) => token.as_slice(),
        None => &[],
    }
}

/// The context, where one stands.
pub fn context_in(exchange: &Exchange) -> Option<&Standing>
    ensures { option_copied result ≡ context_in exchange.now.stage }
{
    match &exchange.stage {
        Stage::Stands(context) => Some(context),
        _ => None,
    }
}

/// How many octets the token has that is to be sent; 0 where none is.
#[unsafe(no_mangle)]
pub extern "C" fn vm_scram_token_len(alloc: Global, h: &mut VmScram) -> usize
    ensures count { result ≡ length (octets_in (token_of h.old.value)) }
    ensures kept { h.new.value ≡ h.old.value }
{
    let Some(held) = h.take(alloc) else {
        return 0;
    };
    let count = token_in(&held).len();
    h.put(alloc, held);
    count
}

/// Copies the token that is to be sent. None is one of no octets.
#[unsafe(no_mangle)]
pub extern "C" fn vm_scram_token(alloc: Global, h: &mut VmScram, room: &mut [u8]) -> u32
    ensures status { result ≡ status_number
        (room_status room.old (octets_in (token_of h.old.value))) }
    ensures room { room.new ≡ put_into room.old (octets_in (token_of h.old.value)) }
    ensures kept { h.new.value ≡ h.old.value }
{
    let Some(held) = h.take(alloc) else {
        return Status::Done.number();
    };
    let status = put_octets(room, token_in(&held));
    h.put(alloc, held);
    status.number()
}

/// Copies the initiator's name, of at most 255 octets, and tells its length. Where no context stands, neither is written.
#[unsafe(no_mangle)]
pub extern "C" fn vm_scram_initiator(
    alloc: Global,
    h: &mut VmScram,
    room: &mut [u8],
    count: &mut usize,
) -> u32
    ensures status { result ≡ status_number
        (handed_status h.old.value room.old (initiator_of (context_of h.old.value))) }
    ensures room { room.new ≡ handed_room room.old (initiator_of (context_of h.old.value)) }
    ensures count { count.new ≡ handed_count count.old (initiator_of (context_of h.old.value)) }
    ensures kept { h.new.value ≡ h.old.value }
{
    let Some(held) = h.take(alloc) else {
        return Status::Empty.number();
    };
    let status = match context_in(&held) {
        Some(context) => {
            let name = context.initiator.text().as_bytes();
            *count = name.len();
            put_octets(room, name)
        }
        None => Status::NotDue,
    };
    h.put(alloc, held);
    status.number()
}

/// Tells the microseconds since 1970 when the context ends; an initiator's doesn't end by itself. Where none stands, it isn't written.
#[unsafe(no_mangle)]
pub extern "C" fn vm_scram_ends(alloc: Global, h: &mut VmScram, ends: &mut u64) -> u32
    ensures status { result ≡ status_number
        (standing_status h.old.value (context_of h.old.value)) }
    ensures ends { ends.new ≡ ends_of ends.old (context_of h.old.value) }
    ensures kept { h.new.value ≡ h.old.value }
{
    let Some(held) = h.take(alloc) else {
        return Status::Empty.number();
    };
    let status = match context_in(&held) {
        Some(context) => {
            *ends = context.ends.total();
            Status::Done
        }
        None => Status::NotDue,
    };
    h.put(alloc, held);
    status.number()
}
