//! The parts of Kerberos messages, as the tables say them: `path=value` with semicolons between them.

use krb_msgs::{AuthorizationDatum, EncryptedData, EncryptionKey, HostAddress, PrincipalName};
use sec_base::{Items, Moment, Octets, Text};
use table_rows::Said;

/// Says a field that is a number.
pub fn number(said: &mut Said, path: &str, number: i64) {
    said.word(path);
    said.join("=");
    said.signed(number);
    said.join(";");
}

/// Says a number that may be there.
pub fn maybe_number(said: &mut Said, path: &str, of: Option<u32>) {
    if let Some(of) = of {
        number(said, path, i64::from(of));
    }
}

/// Says a field that is octets.
pub fn octets(said: &mut Said, path: &str, octets: &[u8]) {
    said.word(path);
    said.join("=");
    said.hex(octets);
    said.join(";");
}

/// Says octets that may be there.
pub fn maybe_octets(said: &mut Said, path: &str, of: &Option<Octets>) {
    if let Some(of) = of {
        octets(said, path, of.as_slice());
    }
}

/// Says a text that may be there.
pub fn maybe_text(said: &mut Said, path: &str, of: &Option<Text>) {
    if let Some(of) = of {
        octets(said, path, of.as_str().as_bytes());
    }
}

/// Says a moment in seconds.
pub fn time(said: &mut Said, path: &str, moment: Moment) {
    said.word(path);
    said.join("=");
    said.number(moment.secs());
    said.join(";");
}

/// Says a moment that may be there.
pub fn maybe_time(said: &mut Said, path: &str, of: Option<Moment>) {
    if let Some(of) = of {
        time(said, path, of);
    }
}

/// Says the front of the path of a part.
fn front(said: &mut Said, path: &str) {
    said.word(path);
    said.join(".");
}

/// Says the front of the path of a part of a list's item.
fn item(said: &mut Said, path: &str, at: usize) {
    front(said, path);
    said.number(at as u64);
    said.join(".");
}

/// Says how many items a list has.
fn count(said: &mut Said, path: &str, count: usize) {
    front(said, path);
    said.word("count");
    said.join("=");
    said.number(count as u64);
    said.join(";");
}

/// Says the type and the parts of a name.
pub fn name(said: &mut Said, path: &str, name: &PrincipalName) {
    front(said, path);
    number(said, "name_type", i64::from(name.name_type));
    front(said, path);
    count(said, "name_string", name.name_string.as_slice().len());
    for (at, text) in name.name_string.as_slice().iter().enumerate() {
        front(said, path);
        front(said, "name_string");
        said.number(at as u64);
        said.join("=");
        said.hex(text.as_str().as_bytes());
        said.join(";");
    }
}

/// Says a field of a number and octets, by the names of these.
pub fn pair(said: &mut Said, path: &str, kind: (&str, i32), content: (&str, &Octets)) {
    front(said, path);
    number(said, kind.0, i64::from(kind.1));
    front(said, path);
    octets(said, content.0, content.1.as_slice());
}

/// Says a key.
pub fn key(said: &mut Said, path: &str, key: &EncryptionKey) {
    let (kind, content) = (("keytype", key.keytype), ("keyvalue", &key.keyvalue));
    pair(said, path, kind, content);
}

/// Says a key that may be there.
pub fn maybe_key(said: &mut Said, path: &str, of: &Option<EncryptionKey>) {
    if let Some(of) = of {
        key(said, path, of);
    }
}

/// Says sealed data.
pub fn sealed(said: &mut Said, path: &str, of: &EncryptedData) {
    front(said, path);
    number(said, "etype", i64::from(of.etype));
    if let Some(kvno) = of.kvno {
        front(said, path);
        number(said, "kvno", i64::from(kvno));
    }
    front(said, path);
    octets(said, "cipher", of.cipher.as_slice());
}

/// Says the authorization data that may be there.
pub fn maybe_authorization(said: &mut Said, of: &Option<Items<AuthorizationDatum>>) {
    let Some(list) = of else {
        return;
    };
    count(said, "authorization_data", list.as_slice().len());
    for (at, datum) in list.as_slice().iter().enumerate() {
        item(said, "authorization_data", at);
        number(said, "ad_type", i64::from(datum.ad_type));
        item(said, "authorization_data", at);
        octets(said, "ad_data", datum.ad_data.as_slice());
    }
}

/// Says the addresses that may be there.
pub fn maybe_addresses(said: &mut Said, of: &Option<Items<HostAddress>>) {
    let Some(list) = of else {
        return;
    };
    count(said, "caddr", list.as_slice().len());
    for (at, address) in list.as_slice().iter().enumerate() {
        item(said, "caddr", at);
        number(said, "addr_type", i64::from(address.addr_type));
        item(said, "caddr", at);
        octets(said, "address", address.address.as_slice());
    }
}
