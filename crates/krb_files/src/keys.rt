//! Keys as both files hold them.

ghost use Rattle.std.specs.Prelude.{◌≡◌, ◌≤◌, pos};
ghost use Rattle.krb_derive.specs.Key.{etype_of};
ghost use Rattle.krb_files.specs.Fields.{Reads, Answers};
ghost use Rattle.krb_files.specs.Keys.{key_by, key_at};

use crate::fields::Fields;
use crate::{FileRefusal, FileWhy};
use krb_derive::{Etype, Key};

/// The type of a number.
fn etype_of_number(number: u32) -> Option<Etype>
    ensures { result ≡ etype_of (pos number) }
{
    match number {
        17 => Some(Etype::Aes128),
        18 => Some(Etype::Aes256),
        _ => None,
    }
}

/// The key of a type with these octets, whose length stands at this place.
fn key_with(at: usize, etype: Option<Etype>, octets: &[u8]) -> Result<Option<Key>, FileRefusal>
    ensures { Answers (λ k. k) result (key_by at etype octets.now) }
{
    let Some(etype) = etype else {
        return Ok(None);
    };
    match Key::new(etype, octets) {
        Some(key) => Ok(Some(key)),
        None => Err(FileRefusal {
            at,
            why: FileWhy::Length,
        }),
    }
}

/// A type's number and a key, behind a number of so many octets that counts its octets.
#[tactic(auto, unfolding(crate::specs::Keys::key_at))]
pub fn read_key(fields: &mut Fields, size: usize) -> Result<Option<Key>, FileRefusal>
    requires { size ≤ 4 }
    ensures { Reads (λ k. k) fields.new result (key_at size fields.old) }
{
    let number = fields.number(2)?;
    let at = fields.place();
    let octets = fields.counted(size)?;
    let key = key_with(at, etype_of_number(number), octets)?;
    Ok(key)
}
