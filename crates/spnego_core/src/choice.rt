//! Which mechanism is chosen, and whether the list's MIC must come: RFC 4178 sections 4.2.2 and 5.

ghost use Rattle.std.specs.Prelude.{◌≡◌};
ghost use Rattle.spnego_core.specs.Choice.{same_kind, is_among, is_first, is_kind, is_first_named};
ghost use Rattle.spnego_core.specs.Choice.{offered, best, listed_as, is_mic_due};

use gss_base::MechKind;
use sec_base::Oid;

/// Whether both are one mechanism.
pub fn same_kind(a: MechKind, b: MechKind) -> bool
    ensures { result ≡ same_kind a b }
{
    match a {
        MechKind::Kerberos => match b {
            MechKind::Kerberos => true,
            MechKind::Scram => false,
        },
        MechKind::Scram => match b {
            MechKind::Kerberos => false,
            MechKind::Scram => true,
        },
    }
}

fn is_among(kinds: &[MechKind], kind: MechKind) -> bool
    ensures { result ≡ is_among kinds.now kind }
{
    kinds.iter().any(|other| same_kind(*other, kind))
}

/// Whether the first of these mechanisms is this one.
pub fn is_first(kinds: &[MechKind], kind: MechKind) -> bool
    ensures { result ≡ is_first kinds.now kind }
{
    match kinds {
        [] => false,
        [first, ..] => same_kind(*first, kind),
    }
}

/// Whether an identifier's mechanism, if it has one, is this one.
pub fn is_kind(named: Option<MechKind>, kind: MechKind) -> bool
    ensures { result ≡ is_kind named kind }
{
    match named {
        None => false,
        Some(named) => same_kind(named, kind),
    }
}

/// Whether the first of these identifiers names this mechanism.
pub fn is_first_named(list: &[Oid], kind: MechKind) -> bool
    ensures { result ≡ is_first_named list.now kind }
{
    match list {
        [] => false,
        [first, ..] => is_kind(MechKind::of(first), kind),
    }
}

/// The mechanism, where the acceptor offers it.
fn offered(offer: &[MechKind], named: Option<MechKind>) -> Option<MechKind>
    ensures { result ≡ offered offer.now named }
{
    let kind = named?;
    if is_among(offer, kind) {
        Some(kind)
    } else {
        None
    }
}

/// The mechanism that an acceptor chooses: the first of the initiator's list that it offers.
pub fn best(offer: &[MechKind], list: &[Oid]) -> Option<MechKind>
    ensures { result ≡ best offer.now list.now }
{
    for oid in list {
        if let Some(kind) = offered(offer, MechKind::of(oid)) {
            return Some(kind);
        }
    }
    None
}

/// The chosen mechanism as the initiator's list has it: the first of its identifiers there.
pub fn listed_as(list: &[Oid], kind: MechKind) -> Oid
    ensures { result ≡ listed_as list.now kind }
{
    for oid in list {
        if is_kind(MechKind::of(oid), kind) {
            return *oid;
        }
    }
    kind.oid()
}

/// Whether the MIC must come: unless the chosen mechanism is the first choice of both.
pub fn is_mic_due(offer: &[MechKind], list: &[Oid], kind: MechKind) -> bool
    ensures { result ≡ is_mic_due offer.now list.now kind }
{
    !(is_first_named(list, kind) && is_first(offer, kind))
}
