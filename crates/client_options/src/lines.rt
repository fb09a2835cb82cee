//! What is printed of a session.

ghost use Rattle.std.specs.Prelude.{◌≡◌, ◌++◌, IfOk, OnOk};
ghost use Rattle.rpc_msgs.specs.Xdr.{whole, word_at};
ghost use Rattle.rpc_msgs.specs.Opaque.{opaque_alone};
ghost use Rattle.client_options.specs.Lines.{mech_word, name_word, outcome_line, context_line};
ghost use Rattle.client_options.specs.Lines.{octets_line, hex_line, text_line, number_line};
ghost use Rattle.client_options.specs.Lines.{served_line, result_line, lines};

use crate::command::Command;
use gss_base::MechKind;
use posts_client::Procedure;
use rpc_msgs::{XdrReader, opaque_alone};
use sec_base::{NoMemory, Octets};
use spnego_core::Outcome;
use std::alloc::Global;

/// The most octets of an echo.
const MOST_ECHO: u32 = 65_536;

/// The most octets of a name.
const MOST_NAME: u32 = 1_024;

/// A mechanism as it is printed.
fn mech_word(mech: MechKind) -> &'static str
    ensures { result.now ≡ mech_word mech }
{
    match mech {
        MechKind::Kerberos => "krb5",
        MechKind::Scram => "scram",
    }
}

/// A name as it is printed.
fn name_word(name: &str) -> &str
    ensures { result.now ≡ name_word name.now }
{
    if name.is_empty() { "-" } else { name }
}

/// Adds the line of a context.
fn push_outcome(alloc: Global, out: &mut Vec<u8>, outcome: &Outcome) -> Result<(), NoMemory>
    ensures { OnOk result (out.new.items ≡ out.old.items ++ outcome_line outcome.now) }
{
    let mech = mech_word(outcome.mech);
    let initiator = name_word(outcome.initiator.text());
    let acceptor = name_word(outcome.acceptor.text());
    let line = format!(in alloc; "{mech} {initiator} {acceptor}\n")?;
    out.extend_from_slice(line.as_bytes())?;
    Ok(())
}

/// Adds the line of a context, where one stood.
fn push_context(alloc: Global, out: &mut Vec<u8>, outcome: &Option<Outcome>) -> Result<(), NoMemory>
    ensures { OnOk result (out.new.items ≡ out.old.items ++ context_line outcome.now) }
{
    match outcome {
        Some(outcome) => push_outcome(alloc, out, outcome),
        None => Ok(()),
    }
}

/// Adds the line of octets.
fn push_octets(alloc: Global, out: &mut Vec<u8>, octets: &[u8]) -> Result<(), NoMemory>
    ensures { OnOk result (out.new.items ≡ out.old.items ++ octets_line octets.now) }
{
    let line = hex::encode(alloc, octets)?;
    out.extend_from_slice(line.as_bytes())?;
    out.extend_from_slice(b"\n")?;
    Ok(())
}

/// Adds the line of an echo.
fn push_echo(alloc: Global, out: &mut Vec<u8>, octets: &[u8]) -> Result<(), NoMemory>
    ensures { OnOk result
        (out.new.items ≡ out.old.items ++ hex_line (opaque_alone 65536 octets.now)) }
{
    match opaque_alone(MOST_ECHO, octets) {
        Ok(echo) => push_octets(alloc, out, echo),
        Err(_) => Ok(()),
    }
}

/// Adds the line of a name.
fn push_name(out: &mut Vec<u8>, octets: &[u8]) -> Result<(), NoMemory>
    ensures { OnOk result
        (out.new.items ≡ out.old.items ++ text_line (opaque_alone 1024 octets.now)) }
{
    if let Ok(name) = opaque_alone(MOST_NAME, octets) {
        out.extend_from_slice(name)?;
        out.extend_from_slice(b"\n")?;
    }
    Ok(())
}

/// Adds the line of a number.
fn push_number(alloc: Global, out: &mut Vec<u8>, octets: &[u8]) -> Result<(), NoMemory>
    ensures { OnOk result
        (out.new.items ≡ out.old.items ++ number_line (word_at (whole octets.now))) }
{
    let mut reader = XdrReader::new(octets);
    if let Ok(number) = reader.word() {
        let line = format!(in alloc; "{number}\n")?;
        out.extend_from_slice(line.as_bytes())?;
    }
    Ok(())
}

/// Adds the line of a served procedure's result.
fn push_served(
    alloc: Global,
    out: &mut Vec<u8>,
    procedure: Procedure,
    octets: &[u8],
) -> Result<(), NoMemory>
    ensures { OnOk result (out.new.items ≡ out.old.items ++ served_line procedure octets.now) }
{
    match procedure {
        Procedure::Null => {
            out.extend_from_slice(b"ok\n")?;
            Ok(())
        }
        Procedure::Echo => push_echo(alloc, out, octets),
        Procedure::Whoami => push_name(out, octets),
        Procedure::Post => push_number(alloc, out, octets),
        Procedure::Count => push_number(alloc, out, octets),
    }
}

/// Adds the line of a result.
fn push_result(
    alloc: Global,
    out: &mut Vec<u8>,
    command: Command,
    octets: &[u8],
) -> Result<(), NoMemory>
    ensures { OnOk result (out.new.items ≡ out.old.items ++ result_line command octets.now) }
{
    match command {
        Command::Served(procedure) => push_served(alloc, out, procedure, octets),
        Command::Numbered(_) => push_octets(alloc, out, octets),
    }
}

/// The lines of a session with this outcome and these results of what was called.
pub fn lines_of(
    alloc: Global,
    command: Command,
    outcome: &Option<Outcome>,
    results: &[Octets],
) -> Result<Vec<u8>, NoMemory>
    ensures { IfOk result (λ text. text.items ≡ lines command outcome.now results.now) }
{
    let mut text = Vec::new(alloc);
    push_context(alloc, &mut text, outcome)?;
    for octets in results {
        push_result(alloc, &mut text, command, octets.as_slice())?;
    }
    Ok(text)
}
