//! Where a link in one thread begins.

ghost use Rattle.std.specs.Prelude.{ℕ, List};

use gss_server::OwnGate;
use rpc_program::{Program, Speller};
use std::marker::Brand;

/// What is known of the gate's state as a link in one thread takes it, the width of the windows, the
/// moment that the link's clock shows, in microseconds since 1970, and the octets that its draw gave
/// before. A link's type names all four.
pub trait Beginning<G> {
    ghost begins: { G → Type 0 };

    ghost width: { ℕ };

    ghost moment: { ℕ };

    ghost given: { List ℕ };
}

impl<P: Program, S: Speller<P::Ticket>> Beginning<OwnGate<P, S>> for Brand {
    ghost use Rattle.std.specs.Prelude.{[]};

    ghost begins = { λ _. Unit {0} };

    ghost width = { 0 };

    ghost moment = { 0 };

    ghost given = { [] };
}
