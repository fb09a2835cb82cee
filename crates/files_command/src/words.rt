//! What the words of a command line ask for.

ghost use Rattle.std.specs.Prelude.{◌≡◌, ◌<◌, ◌+◌, length};
ghost use Rattle.sec_base.specs.Answers.{Gives};
ghost use Rattle.files_command.specs.Words.{is_command, principal_word, number_word, type_word};
ghost use Rattle.files_command.specs.Words.{octets_word, key_word, service_word, keytab_words};
ghost use Rattle.files_command.specs.Words.{ccache_words, verifier_words, order_of};

use crate::keytab_file::ServiceKey;
use crate::refusal::NoFile;
use cli_base::number_in;
use gss_base::{NameRefusal, Principal};
use hex::FromHexError;
use krb_derive::{Etype, Key};
use sec_base::{Octets, Text};
use std::alloc::Global;

/// A file that is asked for.
#[derive(Drop)]
pub enum Order {
    /// A keytab of this key.
    Keytab {
        service: ServiceKey,
    },
    /// A credential cache of this client with a ticket that is sealed under this key, for so many hours from now.
    Ccache {
        client: Principal,
        service: ServiceKey,
        hours: u32,
    },
    /// The line of a verifier file for this user.
    Verifier {
        user: Text,
        password: Text,
        salt: Octets,
        rounds: u32,
    },
}

/// Whether there are so many words, of which the first is this one.
fn is_command(words: &[Text], count: usize, name: &str) -> bool
    ensures { result ≡ is_command count name.now words.now }
{
    words.len() == count && count > 0 && words[0].as_str() == name
}

/// The principal of a word.
fn principal_word(alloc: Global, word: &str) -> Result<Principal, NoFile>
    ensures { Gives NoFile.NoMemory (λ p. p) result (principal_word word.now) }
{
    match Principal::parse(alloc, word) {
        Ok(principal) => Ok(principal),
        Err(NameRefusal::NoMemory) => Err(NoFile::NoMemory),
        Err(_) => Err(NoFile::Usage),
    }
}

/// The number of a word, from `least` to `most`.
fn number_word(word: &str, least: u32, most: u32) -> Result<u32, NoFile>
    ensures { Gives NoFile.NoMemory (λ n. n) result (number_word least most word.now) }
{
    match number_in(word, least, most) {
        Some(number) => Ok(number),
        None => Err(NoFile::Usage),
    }
}

/// The type of keys of a word, `17` or `18`.
fn type_word(word: &str) -> Result<Etype, NoFile>
    ensures { Gives NoFile.NoMemory (λ t. t) result (type_word word.now) }
{
    if word == "17" {
        return Ok(Etype::Aes128);
    }
    if word == "18" {
        return Ok(Etype::Aes256);
    }
    Err(NoFile::Usage)
}

/// The octets of a word in hexadecimal.
fn octets_word(alloc: Global, word: &str) -> Result<Octets, NoFile>
    ensures { Gives NoFile.NoMemory (λ o. o) result (octets_word word.now) }
{
    match hex::decode(alloc, word) {
        Ok(octets) => Ok(Octets::from_vec(octets)),
        Err(FromHexError::OutOfMemory) => Err(NoFile::NoMemory),
        Err(_) => Err(NoFile::Usage),
    }
}

/// The key of a type in one word and its octets in another.
fn key_word(alloc: Global, kind: &str, octets: &str) -> Result<Key, NoFile>
    ensures { Gives NoFile.NoMemory (λ k. k) result (key_word kind.now octets.now) }
{
    let etype = type_word(kind)?;
    let octets = octets_word(alloc, octets)?;
    match Key::new(etype, octets.as_slice()) {
        Some(key) => Ok(key),
        None => Err(NoFile::Usage),
    }
}

/// The key of a server in the words from this place on: the server, the key's number, its type, its octets.
#[tactic(auto, unfolding(crate::specs::Words::service_word))]
fn service_word(alloc: Global, words: &[Text], at: usize) -> Result<ServiceKey, NoFile>
    requires { at + 3 < length words.now }
    ensures { Gives NoFile.NoMemory (λ s. s) result (service_word at words.now) }
{
    let server = principal_word(alloc, words[at].as_str())?;
    let kvno = number_word(words[at + 1].as_str(), 1, u32::MAX)?;
    let key = key_word(alloc, words[at + 2].as_str(), words[at + 3].as_str())?;
    Ok(ServiceKey { server, kvno, key })
}

/// What `keytab PRINCIPAL KVNO TYPE KEYHEX` asks for.
#[tactic(auto, unfolding(crate::specs::Words::keytab_words))]
fn keytab_words(alloc: Global, words: &[Text]) -> Result<Order, NoFile>
    requires { length words.now ≡ 5 }
    ensures { Gives NoFile.NoMemory (λ o. o) result (keytab_words words.now) }
{
    let service = service_word(alloc, words, 1)?;
    Ok(Order::Keytab { service })
}

/// What `ccache CLIENT SERVER KVNO TYPE KEYHEX HOURS` asks for.
#[tactic(auto, unfolding(crate::specs::Words::ccache_words))]
fn ccache_words(alloc: Global, words: &[Text]) -> Result<Order, NoFile>
    requires { length words.now ≡ 7 }
    ensures { Gives NoFile.NoMemory (λ o. o) result (ccache_words words.now) }
{
    let client = principal_word(alloc, words[1].as_str())?;
    let service = service_word(alloc, words, 2)?;
    let hours = number_word(words[6].as_str(), 1, 87_600)?;
    Ok(Order::Ccache {
        client,
        service,
        hours,
    })
}

/// What `verifier USER PASSWORD SALTHEX ROUNDS` asks for.
#[tactic(auto, unfolding(crate::specs::Words::verifier_words))]
fn verifier_words(alloc: Global, words: &[Text]) -> Result<Order, NoFile>
    requires { length words.now ≡ 5 }
    ensures { Gives NoFile.NoMemory (λ o. o) result (verifier_words words.now) }
{
    let user = Text::of(alloc, words[1].as_str())?;
    let password = Text::of(alloc, words[2].as_str())?;
    let salt = octets_word(alloc, words[3].as_str())?;
    let rounds = number_word(words[4].as_str(), 4_096, 200_000)?;
    Ok(Order::Verifier {
        user,
        password,
        salt,
        rounds,
    })
}

/// What the words ask for.
pub fn read_order(alloc: Global, words: &[Text]) -> Result<Order, NoFile>
    ensures { Gives NoFile.NoMemory (λ o. o) result (order_of words.now) }
{
    if is_command(words, 5, "keytab") {
        return keytab_words(alloc, words);
    }
    if is_command(words, 7, "ccache") {
        return ccache_words(alloc, words);
    }
    if is_command(words, 5, "verifier") {
        return verifier_words(alloc, words);
    }
    Err(NoFile::Usage)
}
