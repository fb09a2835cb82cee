//! What the texts have in common.

ghost use Rattle.std.specs.Prelude.{◌≡◌, ◌++◌, IfOk, OnOk};
ghost use Rattle.scram_mech.specs.Formats.{is_mandatory};

use sec_base::NoMemory;

/// Whether a text begins with an extension that must be understood (RFC 5802 section 5.1).
pub fn is_mandatory(text: &[u8]) -> bool
    ensures { result ≡ is_mandatory text.now }
{
    match text {
        [first, second, ..] => *first == b'm' && *second == b'=',
        [..] => false,
    }
}

/// Adds octets to a text.
pub fn put(text: &mut Vec<u8>, octets: &[u8]) -> Result<(), NoMemory>
    ensures { OnOk result (text.new.items ≡ text.old.items ++ octets.now) }
{
    match text.extend_from_slice(octets) {
        Ok(()) => Ok(()),
        Err(_) => Err(NoMemory),
    }
}
