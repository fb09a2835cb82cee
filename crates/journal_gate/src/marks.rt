//! The authenticator that a step took.

ghost use Rattle.std.specs.Prelude.{◌≡◌, take};
ghost use Rattle.journal_gate.specs.Withheld.{auth_in, taken_in};

use accept_book::{Entry, NegAnswer, Negotiated, Receipt};
use gss_base::Mark;

/// The mark of the first receipt Auth among the first so many.
fn auth_in(receipts: &[Receipt], count: usize) -> Option<Mark>
    ensures { result ≡ auth_in (take count receipts.now) }
{
    match receipts {
        [first, rest @ ..] if count > 0 => match first.entry {
            Entry::Auth { id: _, mark, at: _ } => Some(mark),
            _ => auth_in(rest, count - 1),
        },
        _ => None,
    }
}

/// The mark of the authenticator that a step took, where its token goes on or completes its context.
pub(crate) fn taken_in(step: &Negotiated) -> Option<Mark>
    ensures { result ≡ taken_in step.now }
{
    let count = step.receipts.count as usize;
    match &step.answer {
        NegAnswer::Going { id: _, token: _ } => auth_in(&step.receipts.list, count),
        NegAnswer::Settled { lease: _, token: _ } => auth_in(&step.receipts.list, count),
        NegAnswer::Refused(_) => None,
        NegAnswer::NoMemory => None,
    }
}
