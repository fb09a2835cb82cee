//! Digests of entries.
ghost use Rattle.std.specs.Prelude.{◌≡◌, ◌++◌, ◌∷◌, []};
ghost use Rattle.std.specs.Int.{w64, to_be_bytes};
ghost use Rattle.sha1.specs.Sha1.{sha1};
ghost use Rattle.accept_core.specs.Chains.{text_of, settled_tag};

use crate::entry::{EndCause, Entry};
use gss_base::{Mark, MechKind};
use sec_base::Moment;
use sha1::Sha1;

/// The digest of six parts.
fn hashed(
    digest: &[u8],
    tag: &[u8],
    id: &[u8],
    second: &[u8],
    third: &[u8],
    last: &[u8],
) -> [u8; 20]
    ensures { result ≡ sha1 (digest.now ++ tag.now ++ id.now ++ second.now ++ third.now
        ++ last.now) }
{
    let mut hasher = Sha1::new();
    hasher.update(digest);
    hasher.update(tag);
    hasher.update(id);
    hasher.update(second);
    hasher.update(third);
    hasher.update(last);
    hasher.finalize()
}

/// The tag of a settled context.
fn settled_tag(mech: MechKind) -> u8
    ensures { result ≡ settled_tag mech }
{
    match mech {
        MechKind::Kerberos => 3,
        MechKind::Scram => 4,
    }
}

/// The digest of a digest and the entry with this tag of a context at a moment.
fn chained_at(digest: &[u8; 20], tag: u8, id: u64, at: Moment) -> [u8; 20]
    ensures { result ≡ sha1 (digest.now ++ (tag ∷ []) ++ to_be_bytes w64 id ++ to_be_bytes w64 at
        ++ [] ++ []) }
{
    let at = at.total();
    hashed(
        digest,
        &[tag],
        &id.to_be_bytes(),
        &at.to_be_bytes(),
        &[],
        &[],
    )
}

/// The digest of a digest and the entry of an authenticator.
#[tactic(auto, unfolding(crate::specs::Chains::text_of))]
fn chained_auth(digest: &[u8; 20], id: u64, mark: &Mark, at: Moment) -> [u8; 20]
    ensures { result ≡ sha1 (text_of digest.now (Entry.Auth id mark.now at)) }
{
    let stamp = mark.at.total();
    let at = at.total();
    hashed(
        digest,
        &[1],
        &id.to_be_bytes(),
        &at.to_be_bytes(),
        &stamp.to_be_bytes(),
        &mark.who,
    )
}

/// The digest of a digest and the entry of a context that is complete.
#[tactic(auto, unfolding(crate::specs::Chains::text_of))]
fn chained_settled(
    digest: &[u8; 20],
    id: u64,
    mech: MechKind,
    names: &[u8; 20],
    ends: Moment,
    at: Moment,
) -> [u8; 20]
    ensures { result ≡ sha1 (text_of digest.now (Entry.Settled id mech names.now ends at)) }
{
    let ends = ends.total();
    let at = at.total();
    hashed(
        digest,
        &[settled_tag(mech)],
        &id.to_be_bytes(),
        &at.to_be_bytes(),
        &ends.to_be_bytes(),
        names,
    )
}

/// The digest of a digest and the entry of a context that ended.
#[tactic(auto, unfolding(crate::specs::Chains::text_of))]
fn chained_end(digest: &[u8; 20], id: u64, cause: &EndCause) -> [u8; 20]
    ensures { result ≡ sha1 (text_of digest.now (Entry.Ended id cause.now)) }
{
    let id = id.to_be_bytes();
    match cause {
        EndCause::Destroyed { seq } => { hashed(digest, &[6], &id, &seq.to_be_bytes(), &[], &[]) }
        EndCause::Refused => hashed(digest, &[7], &id, &[], &[], &[]),
        EndCause::Lapsed => hashed(digest, &[8], &id, &[], &[], &[]),
    }
}

/// The digest of a digest and an entry.
#[tactic(auto, unfolding(crate::specs::Chains::text_of))]
pub(crate) fn chained(digest: &[u8; 20], entry: &Entry) -> [u8; 20]
    ensures { result ≡ sha1 (text_of digest.now entry.now) }
{
    match entry {
        Entry::Opened { id, at } => chained_at(digest, 0, *id, *at),
        Entry::Auth { id, mark, at } => chained_auth(digest, *id, mark, *at),
        Entry::Went { id, at } => chained_at(digest, 2, *id, *at),
        Entry::Settled {
            id,
            mech,
            names,
            ends,
            at,
        } => chained_settled(digest, *id, *mech, names, *ends, *at),
        Entry::Call {
            id,
            seq,
            procedure,
            args,
        } => hashed(
            digest,
            &[5],
            &id.to_be_bytes(),
            &seq.to_be_bytes(),
            &procedure.to_be_bytes(),
            args,
        ),
        Entry::Ended { id, cause } => chained_end(digest, *id, cause),
    }
}
