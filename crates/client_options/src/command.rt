//! What the client calls.

use gss_client::Query;
use posts_client::Procedure;

/// What the client calls.
#[derive(Clone, Copy)]
pub enum Command {
    /// A procedure of the program that `gssrpcd` serves.
    Served(Procedure),
    /// A procedure of some program, by its number (RFC 5531 section 9). Whatever octets it answers are its result.
    Numbered(u32),
}

impl Query for Command {
    ghost use Rattle.client_options.specs.Command.{called_by};

    ghost says = { called_by };

    fn number(&self) -> u32 {
        match self {
            Command::Served(procedure) => procedure.number(),
            Command::Numbered(number) => *number,
        }
    }

    fn is_result(&self, octets: &[u8]) -> bool {
        match self {
            Command::Served(procedure) => procedure.is_result(octets),
            Command::Numbered(_) => true,
        }
    }
}
