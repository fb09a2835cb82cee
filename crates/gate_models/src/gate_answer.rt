//! Answers that a gate may be given.

ghost use Rattle.std.specs.Prelude.{◌≡◌, ◌≤◌, IfOk};
ghost use Rattle.rpc_program.specs.Programs.{IsShort};
ghost use Rattle.rpc_program.specs.declared.limits.TheConstants.{MOST};
ghost use Rattle.gate_models.specs.Sizes.{admission_size};
ghost use Rattle.accept_book.specs.Booking.{token_size};

use accept_book::{AdmitRefusal, Admitted, Lease, LookRefusal, Negotiated, Receipt};

/// A step's answer whose token has at most 65,536 octets.
#[derive(Drop)]
pub struct Step {
    pub negotiated: Negotiated,
    ghost small: { token_size negotiated.answer ≤ 65536 },
}

/// An answer to an admission whose result, where it has one, fits into a reply.
#[derive(Drop)]
pub struct Call {
    pub answer: Result<Admitted, AdmitRefusal>,
    ghost short: { admission_size answer ≤ MOST },
}

/// An answer to one question.
#[derive(Drop)]
pub enum GateAnswer {
    Negotiated(Step),
    Looked(Result<Lease, LookRefusal>),
    Admitted(Call),
    Ended(Result<Receipt, AdmitRefusal>),
}

/// The answer of a step.
pub(crate) fn step_of(step: Step) -> Negotiated
    ensures value { result ≡ step.negotiated }
    ensures size { token_size result.answer ≤ 65536 }
{
    let Step { negotiated } = step;
    negotiated
}

/// The answer to an admission.
#[tactic(auto, using(crate::proofs::Shortness::short_of))]
pub(crate) fn call_of(call: Call) -> Result<Admitted, AdmitRefusal>
    ensures value { result ≡ call.answer }
    ensures short { IfOk result (λ admitted. IsShort admitted.outcome) }
{
    let Call { answer } = call;
    answer
}
