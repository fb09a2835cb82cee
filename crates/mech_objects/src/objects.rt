//! The objects of Kerberos and SCRAM.

ghost use Rattle.std.specs.Prelude.{◌≡◌};
ghost use Rattle.gss_base.specs.declared.mech.KerberosName.TheVariants.{Standard, Microsoft};
ghost use Rattle.gss_base.specs.declared.mech.MechName.TheVariants.{Kerberos, Scram};
ghost use Rattle.mech_objects.specs.Standard.{blank_of};
ghost use Rattle.mech_objects.specs.Objects.{kerberos_of, scram_of};

use crate::ask::{MechAsk, MechMove};
use crate::mech::Mech;
use crate::run::MechRun;
use gss_base::{KerberosName, MechKind, MechName};
use sec_base::{Octets, Oid};
use spnego_core::{MechCred, NegRefusal};
use std::alloc::Global;

/// Kerberos V5 at the initiator (RFC 4121), under one of its two names.
#[derive(Drop)]
pub struct KerberosMech {
    run: MechRun,
}

impl KerberosMech {
    /// One that has no credential, under Kerberos's own object identifier.
    pub fn new(alloc: Global) -> KerberosMech
        ensures { kerberos_of result ≡ blank_of (Kerberos Standard) }
    {
        KerberosMech {
            run: MechRun::new(alloc, MechName::Kerberos(KerberosName::Standard)),
        }
    }

    /// One that has no credential, under Microsoft's object identifier of Kerberos.
    pub fn new_ms(alloc: Global) -> KerberosMech
        ensures { kerberos_of result ≡ blank_of (Kerberos Microsoft) }
    {
        KerberosMech {
            run: MechRun::new(alloc, MechName::Kerberos(KerberosName::Microsoft)),
        }
    }
}

impl Mech for KerberosMech {
    ghost use Rattle.mech_objects.specs.Objects.{kerberos_of};

    ghost meaning = { kerberos_of };

    fn kind(&self) -> MechKind {
        self.run.kind()
    }

    fn oid(&self) -> Oid {
        self.run.oid()
    }

    fn arm(&mut self, cred: MechCred) {
        self.run.arm(cred);
    }

    fn start(&mut self, alloc: Global, ask: &MechAsk) -> Result<Octets, NegRefusal> {
        self.run.start(alloc, ask)
    }

    fn take(&mut self, alloc: Global, token: &[u8]) -> Result<MechMove, NegRefusal> {
        self.run.take(alloc, token)
    }
}

/// SCRAM-SHA-1 at the initiator (RFC 5802).
#[derive(Drop)]
pub struct ScramMech {
    run: MechRun,
}

impl ScramMech {
    /// One that has no credential.
    pub fn new(alloc: Global) -> ScramMech
        ensures { scram_of result ≡ blank_of Scram }
    {
        ScramMech {
            run: MechRun::new(alloc, MechName::Scram),
        }
    }
}

impl Mech for ScramMech {
    ghost use Rattle.mech_objects.specs.Objects.{scram_of};

    ghost meaning = { scram_of };

    fn kind(&self) -> MechKind {
        self.run.kind()
    }

    fn oid(&self) -> Oid {
        self.run.oid()
    }

    fn arm(&mut self, cred: MechCred) {
        self.run.arm(cred);
    }

    fn start(&mut self, alloc: Global, ask: &MechAsk) -> Result<Octets, NegRefusal> {
        self.run.start(alloc, ask)
    }

    fn take(&mut self, alloc: Global, token: &[u8]) -> Result<MechMove, NegRefusal> {
        self.run.take(alloc, token)
    }
}
