//! The messages of the AP exchange.

use crate::parts::{
    key, maybe_addresses, maybe_authorization, maybe_key, maybe_number, maybe_octets, maybe_text,
    maybe_time, name, number, octets, pair, sealed, time,
};
use crate::values::{refused, written_as};
use crate::written;
use krb_msgs::{
    ApReq, Authenticator, EncApRepPart, EncTicketPart, KrbError, Ticket, read_ap_rep, read_ap_req,
    read_authenticator, read_enc_ap_rep_part, read_enc_ticket_part, read_krb_error, read_ticket,
};
use table_rows::{Cells, Said};

/// Says the fields of a request.
fn ap_req(said: &mut Said, message: &ApReq) {
    said.word("Ok");
    number(said, "ap_options", i64::from(message.ap_options));
    octets(said, "ticket", message.ticket.as_slice());
    sealed(said, "authenticator", &message.authenticator);
}

/// Says the fields of a ticket.
fn ticket(said: &mut Said, message: &Ticket) {
    octets(said, "realm", message.realm.as_str().as_bytes());
    name(said, "sname", &message.sname);
    sealed(said, "enc_part", &message.enc_part);
}

/// Says the fields of a reply's part.
fn enc_ap_rep_part(said: &mut Said, message: &EncApRepPart) {
    time(said, "ctime", message.ctime);
    number(said, "cusec", i64::from(message.cusec));
    maybe_key(said, "subkey", &message.subkey);
    maybe_number(said, "seq_number", message.seq_number);
}

/// Says the fields of an authenticator.
fn authenticator(said: &mut Said, message: &Authenticator) {
    octets(said, "crealm", message.crealm.as_str().as_bytes());
    name(said, "cname", &message.cname);
    if let Some(of) = &message.cksum {
        let (kind, content) = (("cksumtype", of.cksumtype), ("checksum", &of.checksum));
        pair(said, "cksum", kind, content);
    }
    number(said, "cusec", i64::from(message.cusec));
    time(said, "ctime", message.ctime);
    maybe_key(said, "subkey", &message.subkey);
    maybe_number(said, "seq_number", message.seq_number);
    maybe_authorization(said, &message.authorization_data);
}

/// Says the fields of a ticket's part.
fn enc_ticket_part(said: &mut Said, message: &EncTicketPart) {
    number(said, "flags", i64::from(message.flags));
    key(said, "key", &message.key);
    octets(said, "crealm", message.crealm.as_str().as_bytes());
    name(said, "cname", &message.cname);
    let transited = &message.transited;
    let (kind, content) = (
        ("tr_type", transited.tr_type),
        ("contents", &transited.contents),
    );
    pair(said, "transited", kind, content);
    time(said, "authtime", message.authtime);
    maybe_time(said, "starttime", message.starttime);
    time(said, "endtime", message.endtime);
    maybe_time(said, "renew_till", message.renew_till);
    maybe_addresses(said, &message.caddr);
    maybe_authorization(said, &message.authorization_data);
}

/// Says the fields of an error.
fn krb_error(said: &mut Said, message: &KrbError) {
    maybe_time(said, "ctime", message.ctime);
    maybe_number(said, "cusec", message.cusec);
    time(said, "stime", message.stime);
    number(said, "susec", i64::from(message.susec));
    number(said, "error_code", i64::from(message.error_code));
    maybe_text(said, "crealm", &message.crealm);
    if let Some(of) = &message.cname {
        name(said, "cname", of);
    }
    octets(said, "realm", message.realm.as_str().as_bytes());
    name(said, "sname", &message.sname);
    maybe_text(said, "e_text", &message.e_text);
    maybe_octets(said, "e_data", &message.e_data);
}

/// Says a request, or why octets are none.
fn read_request(said: &mut Said, octets: &[u8]) {
    match read_ap_req(said.alloc(), octets) {
        Ok(message) => ap_req(said, &message),
        Err(refusal) => refused(said, refusal),
    }
}

/// Says a ticket that is written as it stood, or why octets are none.
fn read_whole_ticket(said: &mut Said, octets: &[u8]) {
    match read_ticket(said.alloc(), octets) {
        Ok(message) => {
            let written = written::ticket(said.alloc(), &message);
            written_as(said, octets, written);
            ticket(said, &message);
        }
        Err(refusal) => refused(said, refusal),
    }
}

/// Says a reply that is written as it stood, or why octets are none.
fn read_reply(said: &mut Said, octets: &[u8]) {
    match read_ap_rep(said.alloc(), octets) {
        Ok(message) => {
            let written = written::ap_rep(said.alloc(), &message);
            written_as(said, octets, written);
            sealed(said, "enc_part", &message.enc_part);
        }
        Err(refusal) => refused(said, refusal),
    }
}

/// Says a reply's part that is written as it stood, or why octets are none.
fn read_reply_part(said: &mut Said, octets: &[u8]) {
    match read_enc_ap_rep_part(said.alloc(), octets) {
        Ok(message) => {
            let written = written::enc_ap_rep_part(said.alloc(), &message);
            written_as(said, octets, written);
            enc_ap_rep_part(said, &message);
        }
        Err(refusal) => refused(said, refusal),
    }
}

/// Says an authenticator that is written as it stood, or why octets are none.
fn read_proof(said: &mut Said, octets: &[u8]) {
    match read_authenticator(said.alloc(), octets) {
        Ok(message) => {
            let written = written::authenticator(said.alloc(), &message);
            written_as(said, octets, written);
            authenticator(said, &message);
        }
        Err(refusal) => refused(said, refusal),
    }
}

/// Says a ticket's part that is written as it stood, or why octets are none.
fn read_ticket_part(said: &mut Said, octets: &[u8]) {
    match read_enc_ticket_part(said.alloc(), octets) {
        Ok(message) => {
            let written = written::enc_ticket_part(said.alloc(), &message);
            written_as(said, octets, written);
            enc_ticket_part(said, &message);
        }
        Err(refusal) => refused(said, refusal),
    }
}

/// Says an error that is written as it stood, or why octets are none.
fn read_error(said: &mut Said, octets: &[u8]) {
    match read_krb_error(said.alloc(), octets) {
        Ok(message) => {
            let written = written::krb_error(said.alloc(), &message);
            written_as(said, octets, written);
            krb_error(said, &message);
        }
        Err(refusal) => refused(said, refusal),
    }
}

/// The cells kind and octets: the fields of the message, or the refusal.
pub fn read(cells: &mut Cells<'_>, said: &mut Said) {
    let (kind, octets) = (cells.word(), cells.octets());
    let octets = octets.as_slice();
    match kind {
        "ap_req" => read_request(said, octets),
        "ticket" => read_whole_ticket(said, octets),
        "ap_rep" => read_reply(said, octets),
        "enc_ap_rep_part" => read_reply_part(said, octets),
        "authenticator" => read_proof(said, octets),
        "enc_ticket_part" => read_ticket_part(said, octets),
        "krb_error" => read_error(said, octets),
        _ => cells.expect(false),
    }
}
