//! What becomes of an admitted call.

ghost use Rattle.std.specs.Prelude.{◌≡◌};
ghost use Rattle.rpc_program.specs.Programs.{stat_number};

use rpc_msgs::numbers::{GARBAGE_ARGS, PROC_UNAVAIL, PROG_UNAVAIL, SYSTEM_ERR};
use sec_base::Octets;

/// Why a program gives no result, RFC 5531 section 9.
#[derive(Clone, Copy, Debug, PartialEq, Eq)]
pub enum Unserved {
    /// The program isn't served.
    Program,
    /// It has no such procedure.
    Procedure,
    /// The arguments aren't the procedure's.
    Arguments,
    /// It lacks something that the call needs.
    System,
}

impl Unserved {
    /// Its number among the accept stats.
    pub fn number(self) -> u32
        ensures { result ≡ stat_number self }
    {
        match self {
            Unserved::Program => PROG_UNAVAIL,
            Unserved::Procedure => PROC_UNAVAIL,
            Unserved::Arguments => GARBAGE_ARGS,
            Unserved::System => SYSTEM_ERR,
        }
    }
}

/// What becomes of an admitted call.
#[derive(Drop)]
pub enum Outcome {
    /// Its result is the octets of its arguments.
    Args,
    /// Its result.
    Done(Octets),
    /// It has no result, and its caller is told why.
    Refused(Unserved),
    /// The program is served in these versions alone, the lowest and the highest (RFC 5531 section 9).
    Mismatch { low: u32, high: u32 },
    /// Whether it was done isn't known. No reply is due, and its connection ends, so that its caller
    /// takes no error for final.
    Gone,
    /// There was no memory to spell its result.
    NoMemory,
}
