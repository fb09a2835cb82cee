//! The mechanisms that the words of the client list.

ghost use Rattle.std.specs.Prelude.{◌≡◌, ◌∷◌, IfOk, true, not};
ghost use Rattle.std.specs.Option.{option_map, option_to_list};
ghost use Rattle.sec_base.specs.Answers.{Gives};
ghost use Rattle.gss_base.specs.Mech.{oid_named};
ghost use Rattle.spnego_core.specs.Choice.{is_same_oid};
ghost use Rattle.cli_base.specs.Words.{texts};
ghost use Rattle.client_options.specs.Mechs.{words_in, mechs_named, is_list};
ghost use Rattle.client_options.specs.Mechs.{mechs_by, is_equipped, are_equipped, equipped, usual};
ghost use Rattle.client_options.specs.Mechs.{mechs_given};

use cli_base::{WordsRefusal, demand};
use gss_base::{KerberosName, MechName};
use mech_words::mech_named;
use sec_base::{Items, NoMemory};
use std::alloc::Global;

/// The words between the commas of a text.
fn words_in(alloc: Global, text: &str) -> Result<Vec<&str>, NoMemory>
    ensures { IfOk result (λ words. texts words.items ≡ words_in text.now) }
{
    let words: Vec<&str> = text.split(',').collect(alloc)?;
    Ok(words)
}

/// The mechanism of each word, in their order.
fn mechs_named(alloc: Global, words: &[&str]) -> Result<Items<MechName>, WordsRefusal>
    ensures { Gives WordsRefusal.NoMemory (λ list. list) result (mechs_named (texts words.now)) }
{
    let mut list = Vec::new(alloc);
    for word in words {
        let name = mech_named(word)?;
        match list.push(name) {
            Ok(()) => {}
            Err(_) => return Err(WordsRefusal::NoMemory),
        }
    }
    Ok(Items::of(list))
}

/// Whether two names are of different object identifiers.
fn differ(a: MechName, b: MechName) -> bool
    ensures { result ≡ not (is_same_oid (oid_named a) (oid_named b)) }
{
    a.oid() != b.oid()
}

/// Whether these are one to three names, no two of which are alike.
fn is_list(list: &[MechName]) -> bool
    ensures { result ≡ is_list list.now }
{
    match list {
        [_] => true,
        [a, b] => differ(*a, *b),
        [a, b, c] => differ(*a, *b) && (differ(*a, *c) && differ(*b, *c)),
        _ => false,
    }
}

/// The mechanisms of a text, the preferred one first.
#[tactic(auto, unfolding(crate::specs::Mechs::mechs_by))]
fn mechs_by(alloc: Global, text: &str) -> Result<Items<MechName>, WordsRefusal>
    ensures value { Gives WordsRefusal.NoMemory (λ list. list) result (mechs_by text.now) }
    ensures list { IfOk result (λ list. is_list list ≡ true) }
{
    let words = words_in(alloc, text)?;
    let list = mechs_named(alloc, words.as_slice())?;
    demand(is_list(list.as_slice()))?;
    Ok(list)
}

/// Whether a mechanism has its two options.
fn is_equipped(krb5: bool, scram: bool, name: MechName) -> bool
    ensures { result ≡ is_equipped krb5 scram name }
{
    match name {
        MechName::Kerberos(_) => krb5,
        MechName::Scram => scram,
    }
}

/// Whether each mechanism of a list has its two options.
fn are_equipped(krb5: bool, scram: bool, list: &[MechName]) -> bool
    ensures { result ≡ are_equipped krb5 scram list.now }
{
    for name in list {
        if !is_equipped(krb5, scram, *name) {
            return false;
        }
    }
    true
}

/// The mechanisms of a text, where each of them has its two options.
#[tactic(auto, unfolding(crate::specs::Mechs::equipped))]
fn equipped(
    alloc: Global,
    krb5: bool,
    scram: bool,
    text: &str,
) -> Result<Items<MechName>, WordsRefusal>
    ensures value { Gives WordsRefusal.NoMemory (λ list. list) result
        (equipped krb5 scram text.now) }
    ensures list { IfOk result (λ list. is_list list ≡ true) }
{
    let list = mechs_by(alloc, text)?;
    demand(are_equipped(krb5, scram, list.as_slice()))?;
    Ok(list)
}

/// A list of one or two mechanisms.
fn list_of(
    alloc: Global,
    first: MechName,
    second: Option<MechName>,
) -> Result<Items<MechName>, NoMemory>
    ensures { IfOk result (λ list. list ≡ first ∷ option_to_list second) }
{
    let mut list = Vec::with_capacity(alloc, 2)?;
    list.push_reserved(first);
    if let Some(second) = second {
        list.push_reserved(second);
    }
    Ok(Items::of(list))
}

/// The mechanisms that have their two options, Kerberos first and under its own name.
fn usual(alloc: Global, krb5: bool, scram: bool) -> Result<Items<MechName>, WordsRefusal>
    ensures value { Gives WordsRefusal.NoMemory (λ list. list) result (usual krb5 scram) }
    ensures list { IfOk result (λ list. is_list list ≡ true) }
{
    let kerberos = MechName::Kerberos(KerberosName::Standard);
    match (krb5, scram) {
        (true, true) => Ok(list_of(alloc, kerberos, Some(MechName::Scram))?),
        (true, false) => Ok(list_of(alloc, kerberos, None)?),
        (false, true) => Ok(list_of(alloc, MechName::Scram, None)?),
        (false, false) => Err(WordsRefusal::Usage),
    }
}

/// The mechanisms by the text of the option, or the usual ones without it.
pub fn mechs_given(
    alloc: Global,
    krb5: bool,
    scram: bool,
    text: Option<&str>,
) -> Result<Items<MechName>, WordsRefusal>
    ensures value { Gives WordsRefusal.NoMemory (λ list. list) result
        (mechs_given krb5 scram (option_map (λ text. text.now) text.entry)) }
    ensures list { IfOk result (λ list. is_list list ≡ true) }
{
    match text {
        None => usual(alloc, krb5, scram),
        Some(text) => equipped(alloc, krb5, scram, text),
    }
}
