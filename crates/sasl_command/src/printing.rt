//! What `ask` prints.

ghost use Rattle.std.specs.Prelude.{◌≡◌, ◌++◌, IfOk, OnOk};
ghost use Rattle.sasl_command.specs.Printing.{layer_line, echo_line, lines};

use sasl_layer::LayerFacts;
use sec_base::{NoMemory, Octets};
use std::alloc::Global;

/// Adds the line of the layer, where one stood.
fn push_layer(alloc: Global, out: &mut Vec<u8>, facts: &Option<LayerFacts>) -> Result<(), NoMemory>
    ensures { OnOk result (out.new.items ≡ out.old.items ++ layer_line facts.now) }
{
    if let Some(facts) = facts {
        let bit = facts.layer.bit();
        let line = format!(in alloc; "layer {bit}\n")?;
        out.extend_from_slice(line.as_bytes())?;
    }
    Ok(())
}

/// Adds the line of the echo, where one was read.
fn push_echo(alloc: Global, out: &mut Vec<u8>, echo: &Option<Octets>) -> Result<(), NoMemory>
    ensures { OnOk result (out.new.items ≡ out.old.items ++ echo_line echo.now) }
{
    if let Some(echo) = echo {
        let line = hex::encode(alloc, echo.as_slice())?;
        out.extend_from_slice(line.as_bytes())?;
        out.extend_from_slice(b"\n")?;
    }
    Ok(())
}

/// The lines of a run that agreed on this and read this echo.
pub fn lines_of(
    alloc: Global,
    facts: &Option<LayerFacts>,
    echo: &Option<Octets>,
) -> Result<Vec<u8>, NoMemory>
    ensures { IfOk result (λ text. text.items ≡ lines facts.now echo.now) }
{
    let mut text = Vec::new(alloc);
    push_layer(alloc, &mut text, facts)?;
    push_echo(alloc, &mut text, echo)?;
    Ok(text)
}
