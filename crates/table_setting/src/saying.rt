//! Outcomes and refusals as the tables say them.

use ap_exchange::ApRefusal;
use gss_base::MechKind;
use scram_mech::ScramRefusal;
use spnego_core::{MechRefusal, NegRefusal, Outcome};
use table_rows::Said;

/// `mechanism:initiator:acceptor:type-key:subkey:hash`.
pub fn outcome(said: &mut Said, outcome: &Outcome) {
    said.word(match outcome.mech {
        MechKind::Kerberos => "krb5",
        MechKind::Scram => "scram",
    });
    said.join(":");
    said.octets(outcome.initiator.text().as_bytes());
    said.join(":");
    said.octets(outcome.acceptor.text().as_bytes());
    said.join(":");
    said.form(&outcome.key.etype().number());
    said.join("-");
    said.octets(outcome.key.bytes());
    said.join(":");
    said.yes(outcome.subkey);
    said.join(":");
    said.octets(&outcome.hash);
}

/// A refusal by name, with its place, and a mechanism's own.
pub fn refusal(said: &mut Said, refusal: NegRefusal) {
    match refusal {
        NegRefusal::Defective { at } => placed(said, "Defective", at),
        NegRefusal::Mech(MechRefusal::Ap(refusal)) => {
            said.word("Mech");
            said.join(":");
            kerberos(said, refusal);
        }
        NegRefusal::Mech(MechRefusal::Scram(refusal)) => {
            said.word("Mech");
            said.join(":");
            scram(said, refusal);
        }
        refusal => said.form(&refusal),
    }
}

/// A name and a place.
fn placed(said: &mut Said, name: &str, at: usize) {
    said.word(name);
    said.join(":");
    said.number(at as u64);
}

/// A refusal of SCRAM's exchange.
pub fn scram(said: &mut Said, refusal: ScramRefusal) {
    match refusal {
        ScramRefusal::Text { at } => placed(said, "Text", at),
        refusal => said.form(&refusal),
    }
}

/// A refusal of Kerberos's exchange.
pub fn kerberos(said: &mut Said, refusal: ApRefusal) {
    match refusal {
        ApRefusal::Der { part, at, why } => {
            said.word("Der");
            said.join(":");
            said.form(&part);
            said.join(":");
            said.number(at as u64);
            said.join(":");
            said.form(&why);
        }
        ApRefusal::PeerError { code } => {
            said.word("PeerError");
            said.join(":");
            said.form(&code);
        }
        refusal => said.form(&refusal),
    }
}
