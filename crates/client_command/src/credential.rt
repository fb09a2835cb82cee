//! The credentials of a run's mechanisms.

ghost use Rattle.std.specs.Prelude.{◌≡◌, ◌≢◌, IsTrue, IfOk, IfErr, true, false};
ghost use Rattle.sec_base.specs.Answers.{Gives, Rose};
ghost use Rattle.spnego_core.specs.InitMech.{is_own_list, is_bare_list};
ghost use Rattle.client_command.specs.Credentials.{ticket_for, login_of, cred_for, creds_with};
ghost use Rattle.client_command.specs.Credentials.{creds_from, is_unloaded, Finds, AsksFor};
ghost use Rattle.client_options.specs.Endings.{is_begun};
ghost use Rattle.client_command.specs.Loading.{CredsFrom};
ghost use Rattle.client_options.specs.Mechs.{is_list};
ghost use Rattle.client_options.specs.Words.{is_kerberos_alone};

use crate::files::{cache_given, password_given};
use client_options::{RunEnd, Sources};
use gss_base::{KerberosName, MechName, Principal};
use krb_files::Ccache;
use sec_base::{Items, NoMemory, Shelf, Text};
use spnego_core::MechCred;
use std::alloc::Global;

/// Kerberos's credential for this server in a cache, under a name of the mechanism.
fn ticket_in(
    alloc: Global,
    name: KerberosName,
    cache: &Ccache,
    server: &Principal,
) -> Result<MechCred, RunEnd>
    ensures value { Gives RunEnd.NoMemory (λ c. c) result
        (ticket_for name (Some cache.now) (Some server.now)) }
    ensures stop { IfErr result (λ end. end ≢ RunEnd.NoMemory → end ≡ RunEnd.NoCredential) }
{
    match cache.find(server) {
        Some(credential) => match credential.copied(alloc) {
            Ok(credential) => Ok(MechCred::Kerberos { name, credential }),
            Err(NoMemory) => Err(RunEnd::NoMemory),
        },
        None => Err(RunEnd::NoCredential),
    }
}

/// Kerberos's credential, under a name of the mechanism.
fn ticket_for(
    alloc: Global,
    name: KerberosName,
    cache: &Option<Ccache>,
    server: &Option<Principal>,
) -> Result<MechCred, RunEnd>
    ensures value { Gives RunEnd.NoMemory (λ c. c) result (ticket_for name cache.now server.now) }
    ensures stop { IfErr result (λ end. end ≢ RunEnd.NoMemory → end ≡ RunEnd.NoCredential) }
{
    match cache {
        Some(cache) => match server {
            Some(server) => ticket_in(alloc, name, cache, server),
            None => Err(RunEnd::NoCredential),
        },
        None => Err(RunEnd::NoCredential),
    }
}

/// A user of SCRAM with this password.
fn login(alloc: Global, user: &Text, password: &Text) -> Result<MechCred, NoMemory>
    ensures { IfOk result (λ c. c ≡ MechCred.Scram user.now password.now) }
{
    let user = Text::of(alloc, user.as_str())?;
    let password = Text::of(alloc, password.as_str())?;
    Ok(MechCred::Scram { user, password })
}

/// SCRAM's credential.
fn login_of(alloc: Global, user: &Option<Text>, password: &Option<Text>) -> Result<MechCred, RunEnd>
    ensures value { Gives RunEnd.NoMemory (λ c. c) result (login_of user.now password.now) }
    ensures stop { IfErr result (λ end. end ≢ RunEnd.NoMemory → end ≡ RunEnd.NoCredential) }
{
    match user {
        Some(user) => match password {
            Some(password) => match login(alloc, user, password) {
                Ok(cred) => Ok(cred),
                Err(NoMemory) => Err(RunEnd::NoMemory),
            },
            None => Err(RunEnd::NoCredential),
        },
        None => Err(RunEnd::NoCredential),
    }
}

/// The credential of a mechanism that is listed under this name.
fn cred_for(
    alloc: Global,
    sources: &Sources,
    cache: &Option<Ccache>,
    password: &Option<Text>,
    name: MechName,
) -> Result<MechCred, RunEnd>
    ensures value { Gives RunEnd.NoMemory (λ c. c) result
        (cred_for sources.now cache.now password.now name) }
    ensures stop { IfErr result (λ end. end ≢ RunEnd.NoMemory → end ≡ RunEnd.NoCredential) }
{
    match name {
        MechName::Kerberos(name) => ticket_for(alloc, name, cache, &sources.server),
        MechName::Scram => login_of(alloc, &sources.user, password),
    }
}

/// The credentials of the mechanisms that are listed, in their order.
fn creds_with(
    alloc: Global,
    sources: &Sources,
    cache: &Option<Ccache>,
    password: &Option<Text>,
) -> Result<Items<MechCred>, RunEnd>
    ensures value { Gives RunEnd.NoMemory (λ list. list) result
        (creds_with sources.now cache.now password.now) }
    ensures stop { IfErr result (λ end. end ≢ RunEnd.NoMemory → end ≡ RunEnd.NoCredential) }
{
    let names = sources.mechs.as_slice();
    let Ok(mut list) = Vec::with_capacity(alloc, names.len()) else {
        return Err(RunEnd::NoMemory);
    };
    for name in names {
        let cred = cred_for(alloc, sources, cache, password, *name)?;
        list.push_reserved(cred);
    }
    Ok(Items::of(list))
}

/// The credentials of a run.
pub fn creds_given<F: Shelf>(
    alloc: Global,
    shelf: &mut F,
    sources: &Sources,
) -> Result<Items<MechCred>, RunEnd>
    requires { is_list sources.now.mechs ≡ true }
    ensures read { CredsFrom F.Shelf shelf.old shelf.new sources.now result }
    ensures found { IsTrue (F.tells shelf.old)
        → Finds (creds_from (F.files shelf.old) sources.now) result }
    ensures asked { IsTrue (F.tells shelf.old)
        → AsksFor (F.asked shelf.old) (F.asked shelf.new) sources.now result }
    ensures fault { IfErr result
        (λ end. is_unloaded end ≡ true → Rose (F.faults shelf.old) (F.faults shelf.new)) }
    ensures own { IfOk result (λ list. is_own_list list ≡ true) }
    ensures bare { is_kerberos_alone sources.now.mechs ≡ true
        → IfOk result (λ list. is_bare_list list ≡ true) }
    ensures unbegun { IfErr result (λ end. is_begun end ≡ false) }
    ensures other { IfErr result (λ end. end ≢ RunEnd.Usage) }
{
    let cache = match cache_given(alloc, shelf, &sources.ccache) {
        Ok(cache) => cache,
        Err(end) => return Err(end),
    };
    let password = match password_given(alloc, shelf, &sources.password) {
        Ok(password) => password,
        Err(end) => return Err(end),
    };
    creds_with(alloc, sources, &cache, &password)
}
