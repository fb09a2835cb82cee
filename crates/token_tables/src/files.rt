//! Keytabs and credential caches.

use crate::keys::etype;
use gss_base::Principal;
use krb_derive::Etype;
use krb_files::{Ccache, Credential, FileRefusal, Keytab, read_ccache, read_keytab};
use sha1::Sha1;
use table_rows::{Cells, Said};

/// The names that every file is asked for.
const NAMES: [&str; 3] = ["rpc/host@R", "alice@R", "a\\/b/c@R.ORG"];

/// The numbers that a keytab is asked for.
const NUMBERS: [Option<u32>; 4] = [None, Some(1), Some(3), Some(300)];

/// The types that a keytab is asked for.
const TYPES: [Etype; 2] = [Etype::Aes128, Etype::Aes256];

/// Says a refusal: why, and the place.
fn refused(said: &mut Said, refusal: FileRefusal) {
    said.form(&refusal.why);
    said.number(refusal.at as u64);
}

/// Says the text form of a name, in hexadecimal.
fn name(said: &mut Said, name: &Principal) {
    said.octets(name.label().text().as_bytes());
}

/// Says the key of a name, number and type as the item `at` of a list, where there is one, and answers how many items there are then.
fn key_found(
    said: &mut Said,
    keytab: &Keytab,
    server: &Principal,
    (kvno, etype): (Option<u32>, Etype),
    at: usize,
) -> usize {
    let Some(key) = keytab.find(server, kvno, etype) else {
        return at;
    };
    said.listed(at);
    name(said, server);
    said.join("/");
    match kvno {
        Some(kvno) => said.number(u64::from(kvno)),
        None => said.word("None"),
    }
    said.join("/");
    said.signed(i64::from(etype.number()));
    said.join("=");
    said.octets(key.bytes());
    at.saturating_add(1)
}

/// Says what a keytab has for a name, behind so many items of a list, and answers how many items there are then.
fn keys_found(said: &mut Said, keytab: &Keytab, server: &Principal, at: usize) -> usize {
    let mut at = at;
    for kvno in NUMBERS {
        for etype in TYPES {
            at = key_found(said, keytab, server, (kvno, etype), at);
        }
    }
    if keytab.serves(server) {
        said.listed(at);
        name(said, server);
        said.join("/");
        said.word("serves=1");
        at = at.saturating_add(1);
    }
    at
}

/// The same for the name of this text.
fn named_keys(said: &mut Said, keytab: &Keytab, text: &str, at: usize) -> usize {
    match Principal::parse(said.alloc(), text) {
        Ok(server) => {
            let at = keys_found(said, keytab, &server, at);
            drop(server);
            at
        }
        Err(_) => {
            said.starve();
            at
        }
    }
}

/// Says what a keytab has for all names.
fn keytab_said(said: &mut Said, keytab: &Keytab) {
    said.word("Ok");
    let mut at = 0usize;
    for text in NAMES {
        at = named_keys(said, keytab, text, at);
    }
    if at == 0 {
        said.word("-");
    }
}

/// The cell of a keytab: the keys of all names, numbers and types, and which names it serves, or the refusal.
pub fn keytab(cells: &mut Cells<'_>, said: &mut Said) {
    let octets = cells.octets();
    match read_keytab(cells.alloc(), octets.as_slice()) {
        Ok(keytab) => keytab_said(said, &keytab),
        Err(refusal) => refused(said, refusal),
    }
}

/// Says the key of a name by the parts number and type, where there is one.
fn key_asked(parts: &mut Cells<'_>, said: &mut Said, keytab: &Keytab, server: &Principal) {
    let word = parts.word();
    let kvno = word.parse::<u32>().ok();
    parts.expect(kvno.is_some() || word == "None");
    let key = match etype(parts) {
        Some(etype) => keytab.find(server, kvno, etype),
        None => None,
    };
    match key {
        Some(key) => said.octets(key.bytes()),
        None => said.word("none"),
    }
}

/// Says what a keytab has for a name by the parts `number/type`, or for `serves`.
fn name_asked(parts: &mut Cells<'_>, said: &mut Said, keytab: &Keytab, server: &Principal) {
    if parts.rest() == Some("serves") {
        said.word(if keytab.serves(server) { "yes" } else { "no" });
    } else {
        key_asked(parts, said, keytab, server);
    }
}

/// Says what a keytab has for a question `name/number/type`, or for `name/serves`, and answers whether it is in that form.
fn asked(said: &mut Said, keytab: &Keytab, question: &str) -> bool {
    let mut parts = Cells::new(said.alloc(), question, '/');
    let text = parts.text();
    match Principal::parse(said.alloc(), text.as_str()) {
        Ok(server) => {
            name_asked(&mut parts, said, keytab, &server);
            drop(server);
        }
        Err(_) => parts.expect(false),
    }
    parts.are_well()
}

/// Says what a keytab has for questions with commas between them.
fn all_asked(cells: &mut Cells<'_>, said: &mut Said, keytab: &Keytab, questions: &str) {
    for (at, question) in questions.split(',').enumerate() {
        said.listed(at);
        let is_asked = asked(said, keytab, question);
        cells.expect(is_asked);
    }
}

/// The cells of a keytab and questions with commas between them: the answers.
pub fn finds(cells: &mut Cells<'_>, said: &mut Said) {
    let (octets, questions) = (cells.octets(), cells.word());
    match read_keytab(cells.alloc(), octets.as_slice()) {
        Ok(keytab) => {
            all_asked(cells, said, &keytab, questions);
            drop(keytab);
        }
        Err(_) => cells.expect(false),
    }
}

/// Says a credential: client, type and octets of the session key, and SHA-1 of the ticket.
fn granted(said: &mut Said, credential: &Credential) {
    name(said, &credential.client);
    said.join(":");
    said.signed(i64::from(credential.session.etype().number()));
    said.join(":");
    said.octets(credential.session.bytes());
    said.join(":");
    let mut hasher = Sha1::new();
    hasher.update(credential.ticket.as_slice());
    said.octets(&hasher.finalize());
}

/// Says the credential for a server as the item `at` of a list, where there is one, and answers how many items there are then.
fn granted_found(said: &mut Said, cache: &Ccache, server: &Principal, at: usize) -> usize {
    match cache.find(server) {
        Some(credential) => {
            said.listed(at);
            name(said, &credential.server);
            said.join("=");
            granted(said, credential);
            at.saturating_add(1)
        }
        None => at,
    }
}

/// Says the owner of a cache and the credentials for all names.
fn cache_said(said: &mut Said, cache: &Ccache) {
    said.word("Ok");
    name(said, cache.owner());
    let mut at = 0usize;
    for text in NAMES {
        match Principal::parse(said.alloc(), text) {
            Ok(server) => at = granted_found(said, cache, &server, at),
            Err(_) => said.starve(),
        }
    }
    if at == 0 {
        said.word("-");
    }
}

/// The cell of a credential cache: its owner and the credentials for all names, or the refusal.
pub fn cache(cells: &mut Cells<'_>, said: &mut Said) {
    let octets = cells.octets();
    match read_ccache(cells.alloc(), octets.as_slice()) {
        Ok(cache) => cache_said(said, &cache),
        Err(refusal) => refused(said, refusal),
    }
}

/// Says the credential for a server, or that there is none.
fn granted_to(said: &mut Said, cache: &Ccache, server: &Principal) {
    match cache.find(server) {
        Some(credential) => granted(said, credential),
        None => said.word("none"),
    }
}

/// Says the owner of a cache and the credential for the server of this name.
fn found(cells: &mut Cells<'_>, said: &mut Said, cache: &Ccache, text: &str) {
    name(said, cache.owner());
    match Principal::parse(cells.alloc(), text) {
        Ok(server) => {
            granted_to(said, cache, &server);
            drop(server);
        }
        Err(_) => cells.expect(false),
    }
}

/// The cells of a credential cache and a server: the owner and the credential.
pub fn credential(cells: &mut Cells<'_>, said: &mut Said) {
    let (octets, text) = (cells.octets(), cells.text());
    match read_ccache(cells.alloc(), octets.as_slice()) {
        Ok(cache) => found(cells, said, &cache, text.as_str()),
        Err(_) => cells.expect(false),
    }
}
