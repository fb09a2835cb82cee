//! Principals by their realm and parts, and their text form (RFC 1964 section 2.1.1).

ghost use Rattle.std.specs.Prelude.{◌≡◌, ℕ, List, Ok, ◌∷◌, ◌++◌, [], length, IfOk, OnOk};
ghost use Rattle.std.specs.Prelude.{if◌then◌else◌, Some, None, true, false, nat_eq, nat_le, not};
ghost use Rattle.std.specs.Prelude.{◌&&◌, IsUtf8, ◌<◌};
ghost use Rattle.std.specs.List.{AllByRecursion};
ghost use Rattle.sec_base.specs.Answers.{Gives};
ghost use Rattle.gss_base.specs.declared.principal.Sign.TheVariants.{Octet, Slash};
ghost use Rattle.gss_base.specs.Principal.{is_mark, quoted, text_form, zero_from, name_of};
ghost use Rattle.gss_base.specs.Principal.{is_named};
ghost use Rattle.gss_base.specs.SameName.{same_name, same_name_per};
ghost use Rattle.gss_base.specs.Signs.{signs_of, AreSigns, parts_from, realm_of, parsed};
ghost use Rattle.gss_base.specs.Signs.{turn_of, realm_behind, fault_at};

use crate::label::Label;
use sec_base::{Items, NoMemory, Text};
use std::alloc::{AllocError, AllocFailed, Global};
use std::marker::Model;
use std::{mem, str};

/// The most parts of a principal.
const MOST_PARTS: usize = 8;

/// What is wrong with a name, in the order in which it is judged.
#[derive(Clone, Copy, Debug, PartialEq, Eq)]
pub enum NameRefusal {
    /// The text is no text of a name, from the place `at` on: a `\` that stands before no `/`, `@` or `\`, a second bare `@`,
    /// or the text's end where there is no bare `@`.
    Form { at: usize },
    /// There is no part, or there are more than 8.
    PartCount,
    /// An octet 00 stands at the place `at` of the text, or of the text form where no text was given.
    Zero { at: usize },
    /// The text form has more than 255 octets.
    TooLong,
    /// No memory was to be had.
    NoMemory,
}

/// One sign of a text of a name.
#[derive(Clone, Copy, PartialEq, Eq)]
enum Sign {
    /// An octet of a part or of the realm.
    Octet(u8),
    /// The `/` between two parts.
    Slash,
    /// The `@` before the realm.
    At,
}

/// What one octet of a text of a name does.
#[derive(Clone, Copy)]
enum Turn {
    /// It stands for this sign.
    Stands(Sign),
    /// It is a `\` that quotes the next octet.
    Quotes,
    /// The text is refused, at this place.
    Faulty(usize),
}

fn is_mark_octet(octet: u8) -> bool
    ensures { result ≡ is_mark octet }
{
    octet == b'/' || octet == b'@' || octet == b'\\'
}

/// Writes a part or the realm, `\` before each mark.
fn push_quoted(out: &mut Vec<u8>, text: &str) -> Result<(), NoMemory>
    ensures quoted { OnOk result (out.new.items ≡ out.old.items ++ quoted text.now) }
    ensures utf8 { IsUtf8 out.old.items → OnOk result (IsUtf8 out.new.items) }
{
    for octet in text.as_bytes() {
        if is_mark_octet(*octet) {
            out.push(b'\\')?;
        }
        out.push(*octet)?;
    }
    Ok(())
}

/// Writes what stands before a part: nothing before the first.
fn push_between(out: &mut Vec<u8>, first: bool) -> Result<(), NoMemory>
    ensures between { OnOk result
        (out.new.items ≡ out.old.items ++ (if first then [] else 47 ∷ [])) }
    ensures utf8 { IsUtf8 out.old.items → OnOk result (IsUtf8 out.new.items) }
{
    if !first {
        out.push(b'/')?;
    }
    Ok(())
}

/// Writes the `@` before the realm.
fn push_at(out: &mut Vec<u8>) -> Result<(), NoMemory>
    ensures at { OnOk result (out.new.items ≡ out.old.items ++ 64 ∷ []) }
    ensures utf8 { IsUtf8 out.old.items → OnOk result (IsUtf8 out.new.items) }
{
    out.push(b'@')?;
    Ok(())
}

/// The place of the first octet 00.
fn zero_in(octets: &[u8]) -> Option<usize>
    ensures { result ≡ zero_from 0 octets.now }
{
    for (at, octet) in octets.iter().enumerate() {
        if *octet == 0 {
            return Some(at);
        }
    }
    None
}

impl From<AllocError> for NameRefusal {
    ghost use Rattle.gss_base.specs.declared.principal.NameRefusal.{NameRefusal};

    ghost from_gives = { λ _ e. e ≡ NameRefusal.NoMemory };

    fn from(_error: AllocError) -> NameRefusal {
        NameRefusal::NoMemory
    }
}

impl<T: Drop> From<AllocFailed<T>> for NameRefusal {
    ghost use Rattle.gss_base.specs.declared.principal.NameRefusal.{NameRefusal};

    ghost from_gives = { λ _ e. e ≡ NameRefusal.NoMemory };

    fn from(_failed: AllocFailed<T>) -> NameRefusal {
        NameRefusal::NoMemory
    }
}

impl From<NoMemory> for NameRefusal {
    ghost use Rattle.gss_base.specs.declared.principal.NameRefusal.{NameRefusal};

    ghost from_gives = { λ _ e. e ≡ NameRefusal.NoMemory };

    fn from(_error: NoMemory) -> NameRefusal {
        NameRefusal::NoMemory
    }
}

/// The text form of these parts and this realm.
fn written(alloc: Global, realm: &str, parts: &[Text]) -> Result<Vec<u8>, NoMemory>
    ensures form { IfOk result (λ text. text.items ≡ text_form realm.now parts.now) }
    ensures utf8 { IfOk result (λ text. IsUtf8 text.items) }
{
    let mut text = Vec::new(alloc);
    let mut first = true;
    for part in parts {
        push_between(&mut text, first)?;
        push_quoted(&mut text, part.as_str())?;
        first = false;
    }
    push_at(&mut text)?;
    push_quoted(&mut text, realm)?;
    Ok(text)
}

/// What an octet stands for that is neither quoted nor a `\` or `@`, by whether the `@` was there.
fn inner_sign(octet: u8, realm: bool) -> Sign
    ensures { result ≡ (if nat_eq octet 47 && not realm then Slash else Octet octet) }
{
    if octet == b'/' && !realm {
        Sign::Slash
    } else {
        Sign::Octet(octet)
    }
}

/// What the octet at the place `at` does.
/// `quotes` says that the octet before it quotes it, and `realm` that the bare `@` was there.
fn turn_at(at: usize, octet: u8, quotes: bool, realm: bool) -> Turn
    requires { quotes ≡ true → 0 < at }
    ensures { result ≡ turn_of quotes realm at octet }
{
    if quotes && !is_mark_octet(octet) {
        Turn::Faulty(at - 1)
    } else if quotes {
        Turn::Stands(Sign::Octet(octet))
    } else if octet == b'\\' {
        Turn::Quotes
    } else if octet != b'@' {
        Turn::Stands(inner_sign(octet, realm))
    } else if realm {
        Turn::Faulty(at)
    } else {
        Turn::Stands(Sign::At)
    }
}

/// Whether the bare `@` was there, once this sign was read.
fn realm_after(realm: bool, sign: Sign) -> bool
    ensures { result ≡ realm_behind realm sign }
{
    match sign {
        Sign::Octet(_) | Sign::Slash => realm,
        Sign::At => true,
    }
}

/// The place that is refused where a text ends at the place `at`: that of a `\` at its end, or the end where no bare `@` was.
fn fault_at_end(at: usize, quotes: bool, realm: bool) -> Option<usize>
    requires { quotes ≡ true → 0 < at }
    ensures { result ≡ fault_at quotes realm at }
{
    if quotes {
        Some(at - 1)
    } else if realm {
        None
    } else {
        Some(at)
    }
}

/// The signs of a text of a name.
fn signs_in(alloc: Global, text: &[u8]) -> Result<Vec<Sign>, NameRefusal>
    ensures { AreSigns result (signs_of false false 0 text.now) }
{
    let mut signs = Vec::new(alloc);
    let mut quotes = false;
    let mut realm = false;
    for (at, octet) in text.iter().enumerate() {
        match turn_at(at, *octet, quotes, realm) {
            Turn::Stands(sign) => {
                signs.push(sign)?;
                quotes = false;
                realm = realm_after(realm, sign);
            }
            Turn::Quotes => quotes = true,
            Turn::Faulty(at) => return Err(NameRefusal::Form { at }),
        }
    }
    match fault_at_end(text.len(), quotes, realm) {
        Some(at) => Err(NameRefusal::Form { at }),
        None => Ok(signs),
    }
}

/// A name: a realm and 1 to 8 parts, with a text form of at most 255 octets that has no octet 00 (RFC 4120 section 6.2, RFC
/// 1964 section 2.1.1). Contracts see a `Name`.
#[derive(Debug, Drop)]
pub struct Principal {
    realm: Text,
    parts: Items<Text>,
    label: Label,
}

impl Model for Principal {
    ghost use Rattle.gss_base.specs.Name.{Name};

    ghost Value = { Name };

    ghost use Rattle.gss_base.specs.Principal.{IsPrincipal};

    ghost view = { λ p. record { realm = p.realm; parts = p.parts } };

    ghost invariant = { λ p. IsPrincipal p.realm p.parts p.label };
}

impl Principal {
    /// The principal of this realm and these parts.
    pub fn new(alloc: Global, realm: &str, parts: &[Text]) -> Result<Principal, NameRefusal>
        ensures { Gives NameRefusal.NoMemory (λ p. p) result (name_of realm.now parts.now) }
    {
        if parts.is_empty() || parts.len() > MOST_PARTS {
            return Err(NameRefusal::PartCount);
        }
        let text = written(alloc, realm, parts)?;
        if let Some(at) = zero_in(text.as_slice()) {
            return Err(NameRefusal::Zero { at });
        }
        match label_of(text.as_slice()) {
            Some(label) => {
                let realm = Text::of(alloc, realm)?;
                let parts = Items::of(copies(alloc, parts)?);
                Ok(Principal {
                    realm,
                    parts,
                    label,
                })
            }
            None => Err(NameRefusal::TooLong),
        }
    }

    /// The principal that a text names: its parts with `/` between them, `@` and the realm, where a `\` stands before each
    /// `/`, `@` and `\` of a part and each `@` and `\` of the realm.
    pub fn parse(alloc: Global, text: &str) -> Result<Principal, NameRefusal>
        ensures exact { Gives NameRefusal.NoMemory (λ p. p) result (parsed text.now) }
        ensures again { (realm : List ℕ) (parts : List (List ℕ)) → is_named realm parts ≡ true
            → text.now ≡ text_form realm parts → Gives NameRefusal.NoMemory (λ p. p) result
            (Ok (record { realm = realm; parts = parts })) }
    {
        named_by(alloc, text)
    }

    /// A copy of it.
    pub fn copied(&self, alloc: Global) -> Result<Principal, NoMemory>
        ensures { IfOk result (λ copy. copy ≡ self.now) }
    {
        let label = self.label;
        let realm = Text::of(alloc, self.realm.as_str())?;
        let parts = Items::of(copies(alloc, self.parts.as_slice())?);
        Ok(Principal {
            realm,
            parts,
            label,
        })
    }

    /// The text form.
    pub fn label(&self) -> Label
        ensures value { result ≡ text_form self.now.realm self.now.parts }
        ensures named { is_named self.now.realm self.now.parts ≡ true }
    {
        self.label
    }

    /// The realm.
    pub fn realm(&self) -> &str
        ensures { result.now ≡ self.now.realm }
    {
        self.realm.as_str()
    }

    /// The parts, in order.
    pub fn parts(&self) -> &[Text]
        ensures { result.now ≡ self.now.parts }
    {
        self.parts.as_slice()
    }
}

impl PartialEq for Principal {
    ghost eq = { same_name };

    ghost laws = { same_name_per };

    fn eq(&self, other: &Principal) -> bool {
        self.realm == other.realm && self.parts == other.parts
    }
}

/// The principal that a text names.
/// It stands apart, so that the other clauses are proved from what is said here.
fn named_by(alloc: Global, text: &str) -> Result<Principal, NameRefusal>
    ensures exact { Gives NameRefusal.NoMemory (λ p. p) result (parsed text.now) }
{
    let signs = signs_in(alloc, text.as_bytes())?;
    let parts = parts_in(alloc, signs.as_slice())?;
    let realm = realm_in(alloc, signs.as_slice())?;
    if parts.len() > MOST_PARTS {
        return Err(NameRefusal::PartCount);
    }
    if let Some(at) = zero_in(text.as_bytes()) {
        return Err(NameRefusal::Zero { at });
    }
    Principal::new(alloc, realm.as_str(), parts.as_slice())
}

fn copies(alloc: Global, parts: &[Text]) -> Result<Vec<Text>, NoMemory>
    ensures { IfOk result (λ copies. copies.items ≡ parts.now) }
{
    let mut copies = Vec::new(alloc);
    for part in parts {
        let copy = Text::of(alloc, part.as_str())?;
        copies.push(copy)?;
    }
    Ok(copies)
}

/// The label of these octets, None where they are too many.
fn label_of(text: &[u8]) -> Option<Label>
    requires { IsUtf8 text.now }
    ensures { result ≡ (if nat_le (length text.now) 255 then Some text.now else None) }
{
    match str::from_utf8(text) {
        Ok(text) => Label::new(text),
        Err(_) => unreachable!(),
    }
}

/// These octets as a text.
fn text_of(octets: Vec<u8>) -> Text
    requires { IsUtf8 octets.items }
    ensures { result ≡ octets.items }
{
    match String::from_utf8(octets) {
        Ok(text) => Text::from_string(text),
        Err(_) => unreachable!(),
    }
}

/// The parts that the signs of a text name.
fn parts_in(alloc: Global, signs: &[Sign]) -> Result<Vec<Text>, NoMemory>
    requires { AllByRecursion IsUtf8 (parts_from [] signs.now) }
    ensures { IfOk result (λ parts. parts.items ≡ parts_from [] signs.now) }
{
    let mut parts = Vec::new(alloc);
    let mut part = Vec::new(alloc);
    for sign in signs {
        match sign {
            Sign::Octet(octet) => part.push(*octet)?,
            Sign::Slash => {
                let whole = mem::replace(&mut part, Vec::new(alloc));
                parts.push(text_of(whole))?;
            }
            Sign::At => {
                parts.push(text_of(part))?;
                return Ok(parts);
            }
        }
    }
    parts.push(text_of(part))?;
    Ok(parts)
}

/// The realm that the signs of a text name.
fn realm_in(alloc: Global, signs: &[Sign]) -> Result<Text, NoMemory>
    requires { IsUtf8 (realm_of signs.now) }
    ensures { IfOk result (λ realm. realm ≡ realm_of signs.now) }
{
    let mut realm = Vec::new(alloc);
    let mut behind = false;
    for sign in signs {
        match sign {
            Sign::Octet(octet) => {
                if behind {
                    realm.push(*octet)?;
                }
            }
            Sign::Slash => {}
            Sign::At => behind = true,
        }
    }
    Ok(text_of(realm))
}
