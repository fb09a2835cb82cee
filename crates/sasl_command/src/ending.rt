//! How a run ends that was refused, or couldn't read.

ghost use Rattle.std.specs.Prelude.{◌≡◌};
ghost use Rattle.sasl_command.specs.Turns.{end_of, end_of_read};

use sasl_frames::ReadEnd;
use sasl_layer::{LayerFacts, SaslRefusal};
use sasl_options::RunEnd;

/// How a run ended, and what both ends agreed on.
#[derive(Drop)]
pub struct Parted {
    pub end: RunEnd,
    pub facts: Option<LayerFacts>,
}

/// How a run ends that is refused so.
pub fn end_of(refusal: SaslRefusal) -> RunEnd
    ensures { result ≡ end_of refusal }
{
    match refusal {
        SaslRefusal::NoMemory => RunEnd::NoMemory,
        refusal => RunEnd::Refused(refusal),
    }
}

/// How a run ends that read no message; the end of the stream, where one was due, is `ended`.
pub fn end_of_read(read: ReadEnd, ended: RunEnd) -> RunEnd
    ensures { result ≡ end_of_read read ended }
{
    match read {
        ReadEnd::Ended => ended,
        ReadEnd::Torn => RunEnd::PeerEnded,
        ReadEnd::LinkFault => RunEnd::LinkFault,
        ReadEnd::NoMemory => RunEnd::NoMemory,
    }
}
