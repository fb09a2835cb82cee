//! What is told of the answers that were kept.

ghost use Rattle.std.specs.List.{AllByRecursion};
ghost use Rattle.accept_book.specs.Honest.{IsOctets};

use crate::told::tell_octets;
use gss_server::Kept;

/// Does nothing: what was drawn for each of these answers are octets.
pub fn tell_kept(kept: &[Kept])
    ensures { AllByRecursion (λ one. IsOctets one.draws) kept.now }
{
    for one in kept {
        tell_octets(&one.draws);
    }
}
