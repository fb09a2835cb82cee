//! What became of a call, as it is kept.
ghost use Rattle.std.specs.Prelude.{◌≤◌, length};
ghost use Rattle.rpc_program.specs.declared.limits.TheConstants.{MOST};

use rpc_program::Unserved;
use sec_base::Octets;

/// The octets of a result, which fit into a reply by each service.
#[derive(Drop)]
pub struct KeptResult {
    pub octets: Octets,
    ghost short: { length octets ≤ MOST },
}

/// What became of a call that acted, as it is kept.
#[derive(Drop)]
pub enum KeptOutcome {
    /// Its result is the octets of its arguments; a call that is sent again has them too.
    Args,
    /// Its result.
    Done(KeptResult),
    /// It has no result, and its caller was told why.
    Refused(Unserved),
    /// The program is served in these versions alone, the lowest and the highest.
    Mismatch { low: u32, high: u32 },
    /// Whether it was done isn't known.
    Gone,
    /// There was no memory to spell its result, or to keep it.
    NoMemory,
    /// Its result has more octets than are kept of one.
    Long,
}
