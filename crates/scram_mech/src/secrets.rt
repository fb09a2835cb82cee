//! Keys, proofs and signatures (RFC 5802 sections 3 and 8.2).

ghost use Rattle.std.specs.Prelude.{◌≡◌, ◌≤◌, ◌++◌, length, codes, IfOk, OnOk};
ghost use Rattle.mac_sha1.specs.Mac.{hmac};
ghost use Rattle.scram_mech.specs.Secrets.{Secret, client_key, stored_key, server_key};
ghost use Rattle.scram_mech.specs.Secrets.{auth_message, masked, key_of_client};
ghost use Rattle.scram_mech.specs.Judging.{same};

use crate::texts::put;
use krb_derive::Key;
use mac_sha1::{Hmac, add_to, hi};
use sec_base::{NoMemory, Octets};
use sha1::Sha1;
use std::alloc::Global;

/// What a password gives with a salt and rounds.
#[derive(Clone, Copy)]
pub struct Secrets {
    pub client: [u8; 20],
    pub stored: [u8; 20],
    pub server: [u8; 20],
}

/// The code of a message under a key.
pub fn code_of(key: &[u8], message: &[u8]) -> [u8; 20]
    ensures { result ≡ hmac key.now message.now }
{
    let mut code = Hmac::new(key);
    code.update(message);
    code.finish()
}

impl Secrets {
    /// The keys of a password. This is where the time of the rounds is spent.
    #[tactic(auto, unfolding(crate::specs::Secrets::salted, crate::specs::Secrets::client_key, crate::specs::Secrets::stored_key, crate::specs::Secrets::server_key))]
    pub fn of(password: &[u8], salt: &[u8], rounds: u32) -> Secrets
        requires { 1 ≤ rounds }
        ensures client { result.client
            ≡ client_key (record { password = password.now; salt = salt.now; rounds = rounds }) }
        ensures stored { result.stored
            ≡ stored_key (record { password = password.now; salt = salt.now; rounds = rounds }) }
        ensures server { result.server
            ≡ server_key (record { password = password.now; salt = salt.now; rounds = rounds }) }
    {
        let salted = hi(password, salt, rounds);
        let client = code_of(&salted, b"Client Key");
        let stored = Sha1::digest(&client);
        let server = code_of(&salted, b"Server Key");
        Secrets {
            client,
            stored,
            server,
        }
    }
}

/// The AuthMessage of a first text, a second, and a third without its proof.
#[tactic(auto, unfolding(crate::specs::Secrets::auth_message))]
pub fn auth_message(
    alloc: Global,
    first: &[u8],
    second: &[u8],
    bare: &[u8],
) -> Result<Octets, NoMemory>
    ensures { IfOk result (λ o. o ≡ auth_message first.now second.now bare.now) }
{
    let mut message = Vec::new(alloc);
    put(&mut message, first)?;
    put_after_comma(&mut message, second)?;
    put_after_comma(&mut message, bare)?;
    Ok(Octets::from_vec(message))
}

/// Adds a comma and a text.
fn put_after_comma(message: &mut Vec<u8>, text: &[u8]) -> Result<(), NoMemory>
    ensures { OnOk result (message.new.items ≡ message.old.items ++ (codes "," ++ text.now)) }
{
    put(message, b",")?;
    put(message, text)
}

/// A key masked by the code of an AuthMessage under the stored key; a mask over a mask takes it off.
#[tactic(auto, unfolding(crate::specs::Secrets::masked))]
pub fn masked(stored: &[u8; 20], auth: &[u8], key: &[u8; 20]) -> [u8; 20]
    ensures { result ≡ masked stored.now auth.now key.now }
{
    let mut sums = *key;
    add_to(&mut sums, &code_of(stored, auth));
    sums
}

/// The key of the context.
#[tactic(auto, unfolding(crate::specs::Secrets::key_of_client))]
pub fn key_of_client(stored: &[u8; 20], client: &[u8; 20], auth: &[u8]) -> Key
    ensures { result ≡ key_of_client stored.now client.now auth.now }
{
    let mut code = Hmac::new(stored);
    code.update(b"GSS-API session key");
    code.update(client);
    code.update(auth);
    let octets = code.finish();
    let mut key = [0u8; 16];
    key.copy_from_slice(&octets[4..]);
    Key::Aes128(key)
}

/// Whether two rows of octets are the same.
pub fn same(a: &[u8], b: &[u8]) -> bool
    ensures { result ≡ same a.now b.now }
{
    a == b
}

/// The octets of a key, a proof or a signature.
pub fn twenty(octets: &[u8]) -> [u8; 20]
    requires { length octets.now ≡ 20 }
    ensures { result ≡ octets.now }
{
    let mut copy = [0u8; 20];
    copy.copy_from_slice(octets);
    copy
}
