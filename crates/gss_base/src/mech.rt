//! The mechanisms that contexts are made by, and their names.
ghost use Rattle.std.specs.Prelude.{◌≡◌, ◌≢◌, IfSome, None, true};
ghost use Rattle.sec_base.specs.Oid.{is_oid};
ghost use Rattle.gss_base.specs.declared.mech.MechKind.{MechKind};
ghost use Rattle.gss_base.specs.declared.mech.MechName.{MechName as MechNameIs};
ghost use Rattle.gss_base.specs.Mech.{oid_of, oid_named, kind_named, mech_of, HasName};

use sec_base::Oid;

/// The content of Kerberos V5's object identifier, 1.2.840.113554.1.2.2 (RFC 4121 section 1).
const KERBEROS: [u8; 9] = [0x2a, 0x86, 0x48, 0x86, 0xf7, 0x12, 0x01, 0x02, 0x02];

/// The content of the object identifier that Microsoft's clients put before Kerberos's own, 1.2.840.48018.1.2.2.
const MS_KERBEROS: [u8; 9] = [0x2a, 0x86, 0x48, 0x82, 0xf7, 0x12, 0x01, 0x02, 0x02];

/// The content of SCRAM-SHA-1's object identifier, 1.3.6.1.5.5.14 (RFC 5802 section 8).
const SCRAM: [u8; 6] = [0x2b, 0x06, 0x01, 0x05, 0x05, 0x0e];

/// A mechanism.
#[derive(Clone, Copy, Debug, PartialEq, Eq)]
pub enum MechKind {
    /// Kerberos V5, RFC 4121.
    Kerberos,
    /// SCRAM-SHA-1, RFC 5802.
    Scram,
}

/// Which of Kerberos's two object identifiers it has in a list.
#[derive(Clone, Copy, Debug, PartialEq, Eq)]
pub enum KerberosName {
    /// Its own, RFC 4121 section 1.
    Standard,
    /// Microsoft's.
    Microsoft,
}

/// A mechanism as a list names it.
#[derive(Clone, Copy, Debug, PartialEq, Eq)]
pub enum MechName {
    /// Kerberos, under one of its two names.
    Kerberos(KerberosName),
    /// SCRAM-SHA-1.
    Scram,
}

impl MechName {
    /// The mechanism that has this name.
    pub fn kind(self) -> MechKind
        ensures { result ≡ kind_named self }
    {
        match self {
            MechName::Kerberos(_) => MechKind::Kerberos,
            MechName::Scram => MechKind::Scram,
        }
    }

    /// The object identifier.
    pub fn oid(self) -> Oid
        ensures { result ≡ oid_named self }
    {
        match self {
            MechName::Kerberos(KerberosName::Standard) => known(&KERBEROS),
            MechName::Kerberos(KerberosName::Microsoft) => known(&MS_KERBEROS),
            MechName::Scram => known(&SCRAM),
        }
    }
}

impl MechKind {
    /// The object identifier that we write for it.
    pub fn oid(self) -> Oid
        ensures { result ≡ oid_of self }
    {
        match self {
            MechKind::Kerberos => known(&KERBEROS),
            MechKind::Scram => known(&SCRAM),
        }
    }

    /// The mechanism that has this object identifier under one of its names, None exactly where none has.
    pub fn of(oid: &Oid) -> Option<MechKind>
        ensures value { result ≡ mech_of oid.now }
        ensures own { IfSome result (λ kind. HasName kind oid.now) }
        ensures others { result ≡ None → (name : MechNameIs) → oid.now ≢ oid_named name }
    {
        if oid.content() == KERBEROS.as_slice() {
            Some(MechKind::Kerberos)
        } else if oid.content() == MS_KERBEROS.as_slice() {
            Some(MechKind::Kerberos)
        } else if oid.content() == SCRAM.as_slice() {
            Some(MechKind::Scram)
        } else {
            None
        }
    }
}

fn known(content: &[u8]) -> Oid
    requires { is_oid content.now ≡ true }
    ensures { result ≡ content.now }
{
    match Oid::new(content) {
        Some(oid) => oid,
        None => unreachable!(),
    }
}
