//! The state of a negotiation as an element.

ghost use Rattle.std.specs.Prelude.{◌≡◌, OnOk};
ghost use Rattle.der_core.specs.Format.{Answers, Reads, Puts, place};
ghost use Rattle.spnego_msgs.specs.NegResp.{state_named, state_of, neg_state};

use crate::NegState;
use der_core::{DerRefusal, DerWhy, Reader, Writer};
use sec_base::NoMemory;

/// Reads a state.
#[tactic(auto, unfolding(crate::specs::NegResp::neg_state))]
pub fn read_state(reader: &mut Reader) -> Result<NegState, DerRefusal>
    ensures { Reads (λ s. s) reader.new result (neg_state.read reader.old) }
{
    let content = reader.tlv(0x0a)?;
    state_value(content.place(), content.rest())
}

/// The state that all the octets are; they begin at this place.
fn state_value(at: usize, octets: &[u8]) -> Result<NegState, DerRefusal>
    ensures { Answers (λ s. s) result (state_of at octets.now) }
{
    match octets {
        [number] => named_state(at, *number),
        _ => Err(DerRefusal {
            at,
            why: DerWhy::Value,
        }),
    }
}

/// The state of this number.
fn named_state(at: usize, number: u8) -> Result<NegState, DerRefusal>
    ensures { Answers (λ s. s) result (state_named at number) }
{
    match number {
        0 => Ok(NegState::Completed),
        1 => Ok(NegState::Incomplete),
        2 => Ok(NegState::Reject),
        3 => Ok(NegState::RequestMic),
        _ => Err(DerRefusal {
            at,
            why: DerWhy::Value,
        }),
    }
}

/// Adds a state.
#[tactic(auto, unfolding(crate::specs::NegResp::neg_state))]
pub fn put_state(state: NegState, out: &mut Writer) -> Result<(), NoMemory>
    ensures { OnOk result (Puts neg_state state out.old out.new) }
{
    let number = match state {
        NegState::Completed => 0,
        NegState::Incomplete => 1,
        NegState::Reject => 2,
        NegState::RequestMic => 3,
    };
    out.put_tlv(0x0a, &[number])
}
