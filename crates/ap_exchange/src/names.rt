//! Names in messages.

ghost use Rattle.std.specs.Prelude.{◌≡◌, IfOk, true, false};
ghost use Rattle.gss_base.specs.SameName.{same_name};
ghost use Rattle.gss_base.specs.Principal.{is_named};
ghost use Rattle.der_core.specs.Values.{has_zero};
ghost use Rattle.krb_msgs.specs.PrincipalName.{IsName};
ghost use Rattle.ap_exchange.specs.Request.{name_value, label_of};
ghost use Rattle.ap_exchange.specs.Exchange.{name_in_realm};

use gss_base::{Label, NameRefusal, Principal};
use krb_msgs::PrincipalName;
use sec_base::{Items, NoMemory, Text};
use std::alloc::Global;

/// The type of a name that is written here: a principal (RFC 4120 section 6.2).
const PRINCIPAL: i32 = 1;

fn copies(alloc: Global, parts: &[Text]) -> Result<Vec<Text>, NoMemory>
    ensures { IfOk result (λ copies. copies.items ≡ parts.now) }
{
    let mut copies = Vec::new(alloc);
    for part in parts {
        let copy = Text::of(alloc, part.as_str())?;
        copies.push(copy)?;
    }
    Ok(copies)
}

/// A name as it is written here.
fn name_value(alloc: Global, name: &Principal) -> Result<PrincipalName, NoMemory>
    ensures { IfOk result (λ n. n ≡ name_value name.now) }
{
    let parts = copies(alloc, name.parts())?;
    Ok(PrincipalName {
        name_type: PRINCIPAL,
        name_string: Items::of(parts),
    })
}

/// A principal's realm and its name as they are written here.
pub fn names_of(alloc: Global, principal: &Principal) -> Result<(Text, PrincipalName), NoMemory>
    ensures value { IfOk result
        (λ n. (n.0 ≡ principal.now.realm) × (n.1 ≡ name_value principal.now)) }
    ensures realm { IfOk result (λ n. has_zero n.0 ≡ false) }
    ensures name { IfOk result (λ n. IsName n.0 n.1) }
{
    let _label = principal.label();
    let realm = Text::of(alloc, principal.realm())?;
    let name = name_value(alloc, principal)?;
    Ok((realm, name))
}

/// Whether a realm and a name in it are those of a principal.
pub fn is_principal(realm: &Text, name: &PrincipalName, principal: &Principal) -> bool
    ensures { result ≡ same_name (name_in_realm realm.now name.now) principal.now }
{
    realm.as_str().as_bytes() == principal.realm().as_bytes()
        && name.name_string.as_slice() == principal.parts()
}

/// Whether two names in their realms are the same.
pub fn same_principal(
    realm: &Text,
    name: &PrincipalName,
    other_realm: &Text,
    other: &PrincipalName,
) -> bool
    ensures { result
        ≡ same_name (name_in_realm realm.now name.now) (name_in_realm other_realm.now other.now) }
{
    let same_realm = *realm == *other_realm;
    same_realm && name.name_string == other.name_string
}

/// The text of a name in its realm.
pub fn label_in(alloc: Global, realm: &Text, name: &PrincipalName) -> Result<Label, NoMemory>
    requires { is_named realm.now name.now.name_string ≡ true }
    ensures { IfOk result (λ l. l ≡ label_of (name_in_realm realm.now name.now)) }
{
    match Principal::new(alloc, realm.as_str(), name.name_string.as_slice()) {
        Ok(principal) => Ok(principal.label()),
        Err(NameRefusal::NoMemory) => Err(NoMemory),
        Err(_) => unreachable!(),
    }
}
