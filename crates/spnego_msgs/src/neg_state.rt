//! The state of a negotiation, RFC 4178 section 4.2.2.

use crate::state_values::{put_state, read_state};
use der_core::{DerRefusal, Element, Reader, Writer};
use sec_base::NoMemory;
use std::alloc::Global;

/// What the acceptor says of the negotiation.
#[derive(Clone, Copy, Debug, PartialEq, Eq)]
pub enum NegState {
    /// accept-completed (0): nothing more is needed.
    Completed,
    /// accept-incomplete (1): the initiator is to send a further token.
    Incomplete,
    /// reject (2): none of the mechanisms will do.
    Reject,
    /// request-mic (3): as accept-incomplete, and the list's MIC must come.
    RequestMic,
}

/// ENUMERATED of these four.
impl Element for NegState {
    ghost use Rattle.std.specs.Prelude.{OnOk};
    ghost use Rattle.der_core.specs.Format.{Format, MayRead, Puts};
    ghost use Rattle.spnego_msgs.specs.NegResp.{neg_state};

    ghost format = { neg_state };

    fn read(_alloc: Global, reader: &mut Reader) -> Result<NegState, DerRefusal> {
        read_state(reader)
    }

    fn put(&self, _alloc: Global, out: &mut Writer) -> Result<(), NoMemory> {
        put_state(*self, out)
    }
}
