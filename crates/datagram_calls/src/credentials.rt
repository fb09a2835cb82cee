//! The credentials of a run whose creation has room in datagrams.

ghost use Rattle.std.specs.Prelude.{◌≡◌, false, true, IfOk, IfErr};
ghost use Rattle.client_options.specs.Endings.{is_begun};
ghost use Rattle.datagram_calls.specs.Credentials.{is_short, are_short, short_creds};
ghost use Rattle.spnego_core.specs.InitMech.{is_own_list, is_bare_list};

use client_options::RunEnd;
use sec_base::Items;
use spnego_core::MechCred;

/// The most octets of a ticket: its creation call has room in a datagram, beside application data of as many octets as may be.
const MOST_TICKET: usize = 7_000;

/// Whether a credential's ticket, where it has one, isn't too long for a datagram.
fn is_short(cred: &MechCred) -> bool
    ensures { result ≡ is_short cred.now }
{
    match cred {
        MechCred::Kerberos { credential, .. } => credential.ticket.as_slice().len() <= MOST_TICKET,
        MechCred::Scram { .. } => true,
    }
}

/// Whether no ticket is too long for a datagram.
fn are_short(creds: &[MechCred]) -> bool
    ensures { result ≡ are_short creds.now }
{
    for cred in creds {
        if !is_short(cred) {
            return false;
        }
    }
    true
}

/// The credentials of a run over datagrams: one whose ticket is too long counts as none.
pub(crate) fn short_creds(creds: Result<Items<MechCred>, RunEnd>) -> Result<Items<MechCred>, RunEnd>
    requires own { IfOk creds (λ list. is_own_list list ≡ true) }
    requires unbegun { IfErr creds (λ end. is_begun end ≡ false) }
    ensures value { result ≡ short_creds creds }
    ensures own { IfOk result (λ list. is_own_list list ≡ true) }
    ensures bare { IfOk creds (λ list. is_bare_list list ≡ true)
        → IfOk result (λ list. is_bare_list list ≡ true) }
    ensures unbegun { IfErr result (λ end. is_begun end ≡ false) }
{
    match creds {
        Ok(list) => {
            if are_short(list.as_slice()) {
                Ok(list)
            } else {
                drop(list);
                Err(RunEnd::NoCredential)
            }
        }
        Err(end) => Err(end),
    }
}
