//! What an end is begun with.

ghost use Rattle.std.specs.Prelude.{◌≡◌};
ghost use Rattle.spnego_core.specs.InitMech.{kind_of, name_of};

use gss_base::{Bindings, KerberosName, MechKind, MechName, Principal};
use krb_files::{Credential, Keytab};
use scram_mech::Verifiers;
use sec_base::{Items, Moment, Text};

/// A credential of a mechanism, and the name under which that stands in the list.
#[derive(Drop)]
pub enum MechCred {
    /// A ticket of Kerberos, and which of its two names the list has.
    Kerberos {
        name: KerberosName,
        credential: Credential,
    },
    /// A user of SCRAM and its password.
    Scram {
        user: Text,
        password: Text,
    },
}

impl MechCred {
    /// Its mechanism.
    pub fn kind(&self) -> MechKind
        ensures { result ≡ kind_of self.now }
    {
        match self {
            MechCred::Kerberos { .. } => MechKind::Kerberos,
            MechCred::Scram { .. } => MechKind::Scram,
        }
    }

    /// The name under which its mechanism stands in the list.
    pub fn name(&self) -> MechName
        ensures { result ≡ name_of self.now }
    {
        match self {
            MechCred::Kerberos { name, .. } => MechName::Kerberos(*name),
            MechCred::Scram { .. } => MechName::Scram,
        }
    }
}

/// What an initiator is begun with, by plain values.
#[derive(Drop)]
pub struct InitFacts {
    /// The mechanisms, the preferred first: one to three, with different object identifiers.
    pub list: Items<MechCred>,
    pub bindings: Option<Bindings>,
    /// The moment of the request, which no other request of this client may have.
    pub stamp: Moment,
    /// Random octets, used once.
    pub draws: [u8; 66],
    /// It negotiates; else its list is one credential of Kerberos under its own name, whose request is its first token as it stands.
    pub negotiates: bool,
}

/// What an acceptor is begun with.
#[derive(Drop)]
pub struct AcceptSetup {
    /// The own name.
    pub own: Principal,
    pub keytab: Keytab,
    /// The users of SCRAM.
    pub verifiers: Verifiers,
    pub bindings: Option<Bindings>,
    /// The mechanisms that are offered, the preferred first.
    pub offer: Items<MechKind>,
    /// A request of Kerberos that comes without negotiation is taken, where Kerberos is the first of the offer.
    pub bare: bool,
}
