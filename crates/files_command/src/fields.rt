//! Fields of keytabs and credential caches, written one behind the other.

ghost use Rattle.std.specs.Prelude.{◌≡◌, ◌<◌, ◌≤◌, ◌^◌, ◌++◌, true, length, OnOk};
ghost use Rattle.std.specs.List.{flat_map};
ghost use Rattle.krb_files.specs.Names.{are_texts};
ghost use Rattle.files_command.specs.Fields.{number, counted, principal, key_field, AreShort};
ghost use Rattle.files_command.specs.Fields.{IsTextName, IsSizedKey};

use gss_base::Principal;
use krb_derive::Key;
use sec_base::{NoMemory, Text};

/// Adds octets as they are.
pub fn put(out: &mut Vec<u8>, octets: &[u8]) -> Result<(), NoMemory>
    ensures { OnOk result (out.new.items ≡ out.old.items ++ octets.now) }
{
    out.extend_from_slice(octets)?;
    Ok(())
}

/// Adds a number in so many octets, at most four, most significant octet first.
#[tactic(auto, unfolding(crate::specs::Fields::number))]
pub fn put_number(out: &mut Vec<u8>, size: usize, value: u32) -> Result<(), NoMemory>
    requires { size ≤ 4 }
    ensures { OnOk result (out.new.items ≡ out.old.items ++ number size value) }
{
    put(out, &value.to_be_bytes()[4 - size..])
}

/// Adds octets behind their number, which has so many octets itself.
#[tactic(auto, unfolding(crate::specs::Fields::counted))]
pub fn put_counted(out: &mut Vec<u8>, size: usize, octets: &[u8]) -> Result<(), NoMemory>
    requires size { size ≤ 4 }
    requires length { length octets.now < 2 ^ 32 }
    ensures { OnOk result (out.new.items ≡ out.old.items ++ counted size octets.now) }
{
    put_number(out, size, octets.len() as u32)?;
    put(out, octets)
}

/// Adds the components of a principal, each behind its number.
fn put_parts(out: &mut Vec<u8>, size: usize, parts: &[Text]) -> Result<(), NoMemory>
    requires size { size ≤ 4 }
    requires short { AreShort parts.now }
    ensures written { OnOk result
        (out.new.items ≡ out.old.items ++ flat_map (counted size) parts.now) }
    ensures texts { OnOk result (are_texts parts.now ≡ true) }
{
    for part in parts {
        put_counted(out, size, part.as_str().as_bytes())?;
    }
    Ok(())
}

/// Adds a principal: how many components, the realm, the components.
#[tactic(auto, unfolding(crate::specs::Fields::principal))]
pub fn put_principal(out: &mut Vec<u8>, size: usize, name: &Principal) -> Result<(), NoMemory>
    requires { size ≤ 4 }
    ensures written { OnOk result (out.new.items ≡ out.old.items ++ principal size name.now) }
    ensures texts { OnOk result (IsTextName name.now) }
{
    let _label = name.label();
    let realm = name.realm();
    let parts = name.parts();
    put_number(out, size, parts.len() as u32)?;
    put_counted(out, size, realm.as_bytes())?;
    put_parts(out, size, parts)
}

/// Adds the number of a key's type and the key's octets.
fn put_typed<const N: usize>(
    out: &mut Vec<u8>,
    size: usize,
    kind: u32,
    octets: &[u8; N],
) -> Result<(), NoMemory>
    requires size { size ≤ 4 }
    requires length { N < 2 ^ 32 }
    ensures written { OnOk result
        (out.new.items ≡ out.old.items ++ (number 2 kind ++ counted size octets.now)) }
    ensures sized { length octets.now ≡ N }
{
    put_number(out, 2, kind)?;
    put_counted(out, size, octets.as_slice())
}

/// Adds a key: the number of its type, its octets.
#[tactic(auto, unfolding(crate::specs::Fields::key_field))]
pub fn put_key(out: &mut Vec<u8>, size: usize, key: &Key) -> Result<(), NoMemory>
    requires { size ≤ 4 }
    ensures written { OnOk result (out.new.items ≡ out.old.items ++ key_field size key.now) }
    ensures sized { IsSizedKey key.now }
{
    match key {
        Key::Aes128(octets) => put_typed(out, size, 17, octets),
        Key::Aes256(octets) => put_typed(out, size, 18, octets),
    }
}
