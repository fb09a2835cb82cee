//! The calls of a drill, as they are drawn.

ghost use Rattle.std.specs.Prelude.{◌≡◌, ◌≤◌, ◌%◌, length, IfOk, OnOk};
ghost use Rattle.rpc_msgs.specs.Words.{opaque};
ghost use Rattle.gss_client.specs.Conferring.{call_of, calls_of};
ghost use Rattle.posts_client.specs.Procedure.{query_of};
ghost use Rattle.drill_plan.specs.Generator.{stepped, top_of, octets_from, after_steps};
ghost use Rattle.drill_command.specs.Calls.{procedure_of, takes_octets, drawn_call, calls_from};
ghost use Rattle.drill_command.specs.Calls.{after_calls};

use drill_plan::Generator;
use gss_client::DueCall;
use posts_client::Procedure;
use posts_program::numbers::{ECHO, POST, WHOAMI};
use rpc_msgs::XdrWriter;
use rpc_msgs::numbers::NULL;
use sec_base::{NoMemory, Octets};
use std::alloc::Global;

/// So many octets, drawn one after the other.
fn draw_octets(alloc: Global, generator: &mut Generator, count: u8) -> Result<Vec<u8>, NoMemory>
    ensures value { IfOk result (λ o. o.items ≡ octets_from count generator.old.value) }
    ensures place { OnOk result (generator.new.value ≡ after_steps count generator.old.value) }
    ensures count { IfOk result (λ o. length o.items ≡ count) }
{
    let mut octets = Vec::new(alloc);
    for number in 0..count {
        let octet = generator.next();
        octets.push(octet)?;
    }
    Ok(octets)
}

/// A procedure's argument, in XDR.
fn argument(alloc: Global, octets: &[u8]) -> Result<Octets, NoMemory>
    requires { length octets.now ≤ 65536 }
    ensures value { IfOk result (λ o. o ≡ opaque octets.now) }
    ensures size { IfOk result (λ o. length o ≤ 65540) }
{
    let mut out = XdrWriter::new(alloc);
    out.opaque(octets)?;
    Ok(out.finish())
}

/// An argument of fewer than 64 octets. How many they are is drawn first.
fn draw_args(alloc: Global, generator: &mut Generator) -> Result<Octets, NoMemory>
    ensures value { IfOk result (λ o. o ≡ opaque (octets_from
        (top_of (stepped generator.old.value) % 64) (stepped generator.old.value))) }
    ensures place { OnOk result (generator.new.value ≡ after_steps
        (top_of (stepped generator.old.value) % 64) (stepped generator.old.value)) }
    ensures size { IfOk result (λ o. length o ≤ 65540) }
{
    let count = generator.next() % 64;
    let octets = draw_octets(alloc, generator, count)?;
    argument(alloc, octets.as_slice())
}

/// The procedure of a number, COUNT where none of the others has it.
fn procedure_of(number: u32) -> Procedure
    ensures { result ≡ procedure_of number }
{
    if number == NULL {
        Procedure::Null
    } else if number == ECHO {
        Procedure::Echo
    } else if number == WHOAMI {
        Procedure::Whoami
    } else if number == POST {
        Procedure::Post
    } else {
        Procedure::Count
    }
}

/// Whether a procedure's argument is octets; the others have none.
fn takes_octets(procedure: Procedure) -> bool
    ensures { result ≡ takes_octets procedure }
{
    match procedure {
        Procedure::Null => false,
        Procedure::Echo => true,
        Procedure::Whoami => false,
        Procedure::Post => true,
        Procedure::Count => false,
    }
}

/// The next call.
fn draw_call(alloc: Global, generator: &mut Generator) -> Result<DueCall<Procedure>, NoMemory>
    ensures value { IfOk result
        (λ call. call_of query_of call ≡ (drawn_call generator.old.value).call) }
    ensures place { OnOk result (generator.new.value ≡ (drawn_call generator.old.value).next) }
{
    let procedure = procedure_of((generator.next() % 5) as u32);
    if takes_octets(procedure) {
        let args = draw_args(alloc, generator)?;
        return Ok(DueCall::of(procedure, args));
    }
    Ok(DueCall::of(procedure, Octets::from_vec(Vec::new(alloc))))
}

/// So many calls, drawn one after the other.
pub fn draw_calls(
    alloc: Global,
    generator: &mut Generator,
    count: u32,
) -> Result<Vec<DueCall<Procedure>>, NoMemory>
    ensures value { IfOk result
        (λ calls. calls_of query_of calls.items ≡ calls_from count generator.old.value) }
    ensures place { OnOk result (generator.new.value ≡ after_calls count generator.old.value) }
{
    let mut calls = Vec::new(alloc);
    for number in 0..count {
        let call = draw_call(alloc, generator)?;
        calls.push(call)?;
    }
    Ok(calls)
}
