//! Tokens of another implementation, under its own tickets.

use crate::kerberos::credential_in;
use crate::{accepting, initiating};
use krb_files::Credential;
use sec_base::Moment;
use spnego_core::AcceptSetup;
use table_rows::{Cells, Said};
use table_setting::{acceptor, initiator};

/// What an acceptor says to its first token, by the cells keytab, own name and moment.
pub fn accepted(cells: &mut Cells<'_>, said: &mut Said) {
    let keytab = cells.octets();
    let own = cells.text();
    let now = cells.moment();
    let setup = acceptor(cells.alloc(), own.as_str(), keytab.as_slice(), &[], "k");
    accepted_with(cells, said, setup, now);
}

/// The same by what it begins with, where that could be had.
fn accepted_with(cells: &mut Cells<'_>, said: &mut Said, setup: Option<AcceptSetup>, now: Moment) {
    match setup {
        Some(setup) => {
            accepting::talk(cells, said, &setup, now);
            drop(setup);
        }
        None => cells.expect(false),
    }
}

/// What an initiator says at first and to its first reply, by the cells of its credential and the moment.
pub fn begun(cells: &mut Cells<'_>, said: &mut Said) {
    let own = credential_in(cells);
    let stamp = cells.moment();
    match own {
        Some(own) => begun_with(cells, said, own, stamp),
        None => cells.expect(false),
    }
}

/// The same with this credential at this moment.
fn begun_with(cells: &mut Cells<'_>, said: &mut Said, own: Credential, stamp: Moment) {
    match initiator(cells.alloc(), own, stamp) {
        Some(facts) => initiating::talk(cells, said, facts),
        None => said.starve(),
    }
}
