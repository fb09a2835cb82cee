//! An exchange of both ends of SASL GSSAPI, one of whose messages is changed on its way.

ghost use Rattle.std.specs.Prelude.{◌≡◌, true};
ghost use Rattle.mech_objects.specs.declared.ask.Stage.TheVariants.{Fresh};
ghost use Rattle.sasl_gssapi.specs.Ends.{init_by, holds};

use crate::sasl_change::{Change, zeros};
use crate::sasl_ends::{client_ends, client_goes, refused, server_ends, server_goes, starts};
use gss_base::KerberosName;
use mech_objects::{KerberosMech, Mech, ScramMech};
use sasl_gssapi::{SaslAccept, SaslInit};
use sasl_layer::{LayerFacts, Layered, Wish};
use sec_base::{Octets, Text};
use spnego_core::{AcceptSetup, MechCred};
use table_rows::Said;
use table_setting::Setting;

/// What an exchange goes by.
#[derive(Clone, Copy)]
pub struct Plan {
    pub server: Wish,
    pub client: Wish,
    /// How many octets of data are sent behind it.
    pub count: u64,
}

/// Says what an end is left with: its layer, and how long messages may be.
fn facts(said: &mut Said, facts: &LayerFacts) {
    said.number(u64::from(facts.layer.bit()));
    said.number(u64::from(facts.outgoing));
    said.number(u64::from(facts.incoming));
}

/// An end reads a message.
fn reads(said: &mut Said, end: &mut Layered, message: &[u8]) {
    if !end.may_receive() {
        return said.word("spent");
    }
    match end.receive(said.alloc(), message) {
        Ok(octets) => said.number(octets.as_slice().len() as u64),
        Err(refusal) => refused(said, refusal),
    }
}

/// One end sends data, and the other reads it, twice where that is the change.
fn passes(
    said: &mut Said,
    from: &mut Layered,
    to: &mut Layered,
    change: &Change<'_>,
    octets: &[u8],
) {
    if !from.may_send() {
        return said.word("spent");
    }
    match from.send(said.alloc(), octets, &[7; 16]) {
        Ok(message) => {
            let message = change.of(said, 6, message);
            reads(said, to, message.as_slice());
            if change.how == "twice" {
                reads(said, to, message.as_slice());
            }
        }
        Err(refusal) => refused(said, refusal),
    }
}

/// The client sends data to the server, or the server to the client where that is the change.
fn data(
    said: &mut Said,
    client: &mut Layered,
    server: &mut Layered,
    change: &Change<'_>,
    count: u64,
) {
    facts(said, &client.facts());
    facts(said, &server.facts());
    let Some(octets) = zeros(said.alloc(), count) else {
        return said.starve();
    };
    if change.how == "back" {
        passes(said, server, client, change, octets.as_slice());
    } else {
        passes(said, client, server, change, octets.as_slice());
    }
}

/// The server takes the choice, and both ends are done.
fn chosen(
    said: &mut Said,
    client: &mut Layered,
    server: Option<Layered>,
    change: &Change<'_>,
    count: u64,
) {
    if let Some(mut server) = server {
        data(said, client, &mut server, change, count);
        drop(server);
    }
}

/// The offer and the choice.
fn agrees(
    said: &mut Said,
    end: SaslInit,
    host: SaslAccept,
    setup: &AcceptSetup,
    offer: &[u8],
    change: &Change<'_>,
    count: u64,
)
    requires { holds (init_by end meaning) ≡ true }
{
    if let Some((mut client, choice)) = client_ends(said, end, offer) {
        let choice = change.of_choice(said, choice, &host);
        let server = server_ends(said, host, setup, choice.as_slice());
        drop(choice);
        chosen(said, &mut client, server, change, count);
        drop(client);
    }
}

/// The exchange behind Kerberos's reply.
fn replied(
    said: &mut Said,
    end: SaslInit,
    host: SaslAccept,
    setup: &AcceptSetup,
    empty: Octets,
    change: &Change<'_>,
    count: u64,
)
    requires { holds (init_by end meaning) ≡ true }
{
    let empty = change.of(said, 3, empty);
    let answer = server_goes(said, host, setup, empty.as_slice());
    drop(empty);
    match answer {
        Some((host, offer)) => {
            let offer = change.of_offer(said, offer, &host);
            agrees(said, end, host, setup, offer.as_slice(), change, count);
            drop(offer);
        }
        None => drop(end),
    }
}

/// The exchange behind the request, whose answer is handed on.
fn asked(
    said: &mut Said,
    end: SaslInit,
    answer: (SaslAccept, Octets),
    setup: &AcceptSetup,
    change: &Change<'_>,
    count: u64,
)
    requires { holds (init_by end meaning) ≡ true }
{
    let (host, reply) = answer;
    let reply = change.of(said, 2, reply);
    let step = client_goes(said, end, reply.as_slice());
    drop(reply);
    if let Some((end, empty)) = step {
        replied(said, end, host, setup, empty, change, count);
    }
}

/// The exchange from the request on.
fn exchange(
    said: &mut Said,
    object: Box<dyn Mech>,
    setup: &AcceptSetup,
    plan: &Plan,
    change: &Change<'_>,
)
    requires { (meaning object).stage ≡ Fresh }
{
    if let Some((end, request)) = starts(said, object, plan.client) {
        let request = change.of(said, 1, request);
        let host = SaslAccept::new(plan.server);
        let answer = server_goes(said, host, setup, request.as_slice());
        drop(request);
        match answer {
            Some(answer) => asked(said, end, answer, setup, change, plan.count),
            None => drop(end),
        }
    }
}

/// The exchange with an object of Kerberos, by the setting's ticket.
fn by_ticket(
    said: &mut Said,
    setting: &Setting,
    setup: &AcceptSetup,
    plan: &Plan,
    change: &Change<'_>,
) {
    let alloc = said.alloc();
    let Some(credential) = setting.credential(alloc) else {
        return said.starve();
    };
    let mut mech = KerberosMech::new(alloc);
    mech.arm(MechCred::Kerberos {
        name: KerberosName::Standard,
        credential,
    });
    match Box::new(alloc, mech) {
        Ok(object) => exchange(said, object, setup, plan, change),
        Err(_) => said.starve(),
    }
}

/// The same with an object of SCRAM alone.
fn by_scram(said: &mut Said, setup: &AcceptSetup, plan: &Plan, change: &Change<'_>) {
    let alloc = said.alloc();
    let user = Text::of(alloc, "user").ok();
    let Some((user, password)) = user.zip(Text::of(alloc, "p").ok()) else {
        return said.starve();
    };
    let mut mech = ScramMech::new(alloc);
    mech.arm(MechCred::Scram { user, password });
    match Box::new(alloc, mech) {
        Ok(object) => exchange(said, object, setup, plan, change),
        Err(_) => said.starve(),
    }
}

/// Says what becomes of an exchange by the setting.
pub fn run(said: &mut Said, setting: &Setting, plan: &Plan, change: &Change<'_>) {
    let alloc = said.alloc();
    let Some(setup) = setting.acceptor(alloc, "k") else {
        return said.starve();
    };
    if change.how == "scram" {
        by_scram(said, &setup, plan, change);
    } else {
        by_ticket(said, setting, &setup, plan, change);
    }
    drop(setup);
}
