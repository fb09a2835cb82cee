//! What both ends are left with.

use spnego_core::Outcome;
use std::io;

/// Whether both ends are left with the same. The keys are compared octet by octet, and nowhere printed.
fn agree(one: &Outcome, other: &Outcome) -> bool {
    one.mech == other.mech
        && one.initiator == other.initiator
        && one.acceptor == other.acceptor
        && one.key.bytes() == other.key.bytes()
        && one.hash == other.hash
}

/// Says whom the acceptor knows by what, and whether the initiator is left with the same. The keys are compared, and nowhere printed.
pub fn report(rt: &impl Print, initiated: &Outcome, accepted: &Outcome) -> io::Result<()> {
    println!(rt;
        "the acceptor knows {} by {:?}",
        accepted.initiator.text(),
        accepted.mech
    )?;
    println!(rt; "both outcomes agree: {}", agree(initiated, accepted))
}
