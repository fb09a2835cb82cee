//! Both ends, and an event at one of them.

ghost use Rattle.std.specs.Prelude.{◌≡◌, true, IfSome, Some, None};
ghost use Rattle.sasl_gssapi.specs.Ends.{init_by, holds};
ghost use Rattle.sasl_gssapi.specs.Initiating.{init_step};
ghost use Rattle.sasl_gssapi.specs.Accepting.{accept_step};
ghost use Rattle.sasl_pair.specs.Moves.{client_means, pair_means, may_go, Goes, Stands, Over};
ghost use Rattle.sasl_pair.specs.Moves.{Comes};
ghost use Rattle.sasl_pair.specs.Moves.{reads, gives, client_after, client_hears, client_gives};
ghost use Rattle.sasl_pair.specs.Moves.{server_after, server_hears, server_gives};
ghost use Rattle.sasl_pair.specs.Moving.{client_moved, server_moved, ComesOr, ServerComes};
ghost use Rattle.sasl_pair.specs.declared.event.PairHappened.{PairHappened as PairHappenedIs};

use crate::event::{PairEvent, PairHappened};
use crate::stage::{ClientStage, ServerStage};
use sasl_gssapi::{SaslAccept, SaslAnswer, SaslInit, SaslStep};
use sasl_layer::{Layered, SaslRefusal};
use sec_base::{Moment, Octets};
use spnego_core::AcceptSetup;
use std::alloc::Global;
use std::mem;

/// Both ends, over whatever octets come to them.
#[derive(Drop)]
pub struct Pair {
    pub(crate) client: ClientStage,
    pub(crate) server: ServerStage,
    pub(crate) setup: AcceptSetup,
}

/// Where the client is then, and what came of it.
#[derive(Drop)]
pub(crate) struct ClientMoves {
    pub stage: ClientStage,
    pub happened: PairHappened,
}

/// Where the server is then, and what came of it.
#[derive(Drop)]
pub(crate) struct ServerMoves {
    pub stage: ServerStage,
    pub happened: PairHappened,
}

/// An end under the layer reads a message; None for want of memory.
fn layer_reads(alloc: Global, end: &mut Layered, message: &[u8]) -> Option<PairHappened>
    ensures to { IfSome result (λ _. end.new ≡ (reads end.old message.now).to) }
    ensures says { IfSome result (λ happened. happened ≡ (reads end.old message.now).says) }
{
    if !end.may_receive() {
        return Some(PairHappened::Nothing);
    }
    match end.receive(alloc, message) {
        Ok(octets) => Some(PairHappened::Read(octets)),
        Err(SaslRefusal::NoMemory) => None,
        Err(_) => Some(PairHappened::Refused),
    }
}

/// An end under the layer sends octets; None for want of memory.
fn layer_gives(
    alloc: Global,
    end: &mut Layered,
    bytes: &[u8],
    confounder: &[u8; 16],
) -> Option<PairHappened>
    ensures to { IfSome result (λ _. end.new ≡ (gives end.old bytes.now confounder.now).to) }
    ensures says { IfSome result
        (λ happened. happened ≡ (gives end.old bytes.now confounder.now).says) }
{
    if !end.may_send() {
        return Some(PairHappened::Nothing);
    }
    match end.send(alloc, bytes, confounder) {
        Ok(message) => Some(PairHappened::Sent(message)),
        Err(SaslRefusal::NoMemory) => None,
        Err(_) => Some(PairHappened::Refused),
    }
}

/// The client is lost for want of memory.
fn client_lost() -> ClientMoves
    ensures { client_moved result meaning ≡ record { to = Over; says = PairHappened.Nothing } }
{
    ClientMoves {
        stage: ClientStage::Over,
        happened: PairHappened::Nothing,
    }
}

/// The server is.
fn server_lost() -> ServerMoves
    ensures { server_moved result
        ≡ record { to = ServerStage.Over; says = PairHappened.Nothing } }
{
    ServerMoves {
        stage: ServerStage::Over,
        happened: PairHappened::Nothing,
    }
}

/// The client behind an event under the layer; it is lost where nothing came of it.
fn client_stands(end: Layered, happened: Option<PairHappened>) -> ClientMoves
    ensures some { (came : PairHappenedIs) → happened ≡ Some came → client_moved result meaning
        ≡ record { to = Stands end; says = came } }
    ensures none { happened ≡ None → client_moved result meaning
        ≡ record { to = Over; says = PairHappened.Nothing } }
{
    match happened {
        Some(happened) => ClientMoves {
            stage: ClientStage::Stands(end),
            happened,
        },
        None => {
            drop(end);
            client_lost()
        }
    }
}

/// The server behind an event under the layer.
fn server_stands(end: Layered, happened: Option<PairHappened>) -> ServerMoves
    ensures some { (came : PairHappenedIs) → happened ≡ Some came → server_moved result
        ≡ record { to = ServerStage.Stands end; says = came } }
    ensures none { happened ≡ None → server_moved result
        ≡ record { to = ServerStage.Over; says = PairHappened.Nothing } }
{
    match happened {
        Some(happened) => ServerMoves {
            stage: ServerStage::Stands(end),
            happened,
        },
        None => {
            drop(end);
            server_lost()
        }
    }
}

/// The client before the layer gets a message.
fn client_steps(alloc: Global, end: SaslInit, message: &[u8]) -> ClientMoves
    requires { holds (init_by end meaning) ≡ true }
    ensures comes { ComesOr Over (client_after (init_step (init_by end meaning) message.now))
        (client_moved result meaning) }
    ensures held { may_go (client_moved result meaning).to ≡ true }
{
    match end.step(alloc, message) {
        Ok(SaslStep::More(end, octets)) => ClientMoves {
            stage: ClientStage::Goes(end),
            happened: PairHappened::Sent(octets),
        },
        Ok(SaslStep::Done(end, octets)) => {
            let facts = end.facts();
            ClientMoves {
                stage: ClientStage::Stands(end),
                happened: PairHappened::Completed(facts, octets),
            }
        }
        Err(SaslRefusal::NoMemory) => client_lost(),
        Err(_) => ClientMoves {
            stage: ClientStage::Over,
            happened: PairHappened::Refused,
        },
    }
}

/// The client gets a message.
fn client_hears(alloc: Global, stage: ClientStage, message: &[u8]) -> ClientMoves
    requires { may_go (client_means stage meaning) ≡ true }
    ensures comes { ComesOr Over (client_hears (client_means stage meaning) message.now)
        (client_moved result meaning) }
    ensures held { may_go (client_moved result meaning).to ≡ true }
{
    match stage {
        ClientStage::Goes(end) => client_steps(alloc, end, message),
        ClientStage::Stands(mut end) => {
            let happened = layer_reads(alloc, &mut end, message);
            client_stands(end, happened)
        }
        ClientStage::Over => client_lost(),
    }
}

/// The client is to send.
fn client_gives(
    alloc: Global,
    stage: ClientStage,
    bytes: &[u8],
    confounder: &[u8; 16],
) -> ClientMoves
    requires { may_go (client_means stage meaning) ≡ true }
    ensures comes { ComesOr Over
        (client_gives (client_means stage meaning) bytes.now confounder.now)
        (client_moved result meaning) }
    ensures held { may_go (client_moved result meaning).to ≡ true }
{
    match stage {
        ClientStage::Goes(end) => ClientMoves {
            stage: ClientStage::Goes(end),
            happened: PairHappened::Nothing,
        },
        ClientStage::Stands(mut end) => {
            let happened = layer_gives(alloc, &mut end, bytes, confounder);
            client_stands(end, happened)
        }
        ClientStage::Over => client_lost(),
    }
}

/// The server before the layer gets a message.
fn server_steps(
    alloc: Global,
    end: SaslAccept,
    setup: &AcceptSetup,
    message: &[u8],
    now: Moment,
    draws: &[u8; 66],
) -> ServerMoves
    ensures { ComesOr ServerStage.Over
        (server_after (accept_step setup.now end message.now now draws.now))
        (server_moved result) }
{
    match end.step(alloc, setup, message, now, draws) {
        Ok(SaslAnswer::More(end, octets)) => ServerMoves {
            stage: ServerStage::Goes(end),
            happened: PairHappened::Sent(octets),
        },
        Ok(SaslAnswer::Done(end)) => {
            let facts = end.facts();
            ServerMoves {
                stage: ServerStage::Stands(end),
                happened: PairHappened::Completed(facts, Octets::from_vec(Vec::new(alloc))),
            }
        }
        Err(SaslRefusal::NoMemory) => server_lost(),
        Err(_) => ServerMoves {
            stage: ServerStage::Over,
            happened: PairHappened::Refused,
        },
    }
}

/// The server gets a message.
fn server_hears(
    alloc: Global,
    stage: ServerStage,
    setup: &AcceptSetup,
    message: &[u8],
    now: Moment,
    draws: &[u8; 66],
) -> ServerMoves
    ensures { ComesOr ServerStage.Over
        (server_hears setup.now stage message.now now draws.now) (server_moved result) }
{
    match stage {
        ServerStage::Goes(end) => server_steps(alloc, end, setup, message, now, draws),
        ServerStage::Stands(mut end) => {
            let happened = layer_reads(alloc, &mut end, message);
            server_stands(end, happened)
        }
        ServerStage::Over => server_lost(),
    }
}

/// The server is to send.
fn server_gives(
    alloc: Global,
    stage: ServerStage,
    bytes: &[u8],
    confounder: &[u8; 16],
) -> ServerMoves
    ensures { ComesOr ServerStage.Over (server_gives stage bytes.now confounder.now)
        (server_moved result) }
{
    match stage {
        ServerStage::Goes(end) => ServerMoves {
            stage: ServerStage::Goes(end),
            happened: PairHappened::Nothing,
        },
        ServerStage::Stands(mut end) => {
            let happened = layer_gives(alloc, &mut end, bytes, confounder);
            server_stands(end, happened)
        }
        ServerStage::Over => server_lost(),
    }
}

impl Pair {
    /// Both ends before their first event: the client sent its first message, which the server waits for.
    pub fn new(client: SaslInit, server: SaslAccept, setup: AcceptSetup) -> Pair
        requires { holds (init_by client meaning) ≡ true }
        ensures begun { pair_means result meaning ≡ record {
          client = Goes (init_by client meaning);
          server = ServerStage.Goes server;
          setup = setup;
        } }
        ensures held { may_go (pair_means result meaning).client ≡ true }
    {
        Pair {
            client: ClientStage::Goes(client),
            server: ServerStage::Goes(server),
            setup,
        }
    }

    /// The client moves.
    fn put_client(&mut self, moves: ClientMoves) -> PairHappened
        ensures pair { pair_means self.new meaning
            ≡ record (pair_means self.old meaning) { client = (client_moved moves meaning).to } }
        ensures says { result ≡ (client_moved moves meaning).says }
    {
        let ClientMoves { stage, happened } = moves;
        drop(mem::replace(&mut self.client, stage));
        happened
    }

    /// The server moves.
    fn put_server(&mut self, moves: ServerMoves) -> PairHappened
        ensures pair { pair_means self.new meaning
            ≡ record (pair_means self.old meaning) { server = (server_moved moves).to } }
        ensures says { result ≡ (server_moved moves).says }
    {
        let ServerMoves { stage, happened } = moves;
        drop(mem::replace(&mut self.server, stage));
        happened
    }

    /// The server gets a message.
    fn to_accept(
        &mut self,
        alloc: Global,
        message: &[u8],
        now: Moment,
        draws: &[u8; 66],
    ) -> PairHappened
        ensures { ServerComes (pair_means self.old meaning)
            (server_hears self.old.setup self.old.server message.now now draws.now) result
            (pair_means self.new meaning) }
    {
        let stage = mem::replace(&mut self.server, ServerStage::Over);
        let moves = server_hears(alloc, stage, &self.setup, message, now, draws);
        self.put_server(moves)
    }

    /// One event.
    pub fn step(&mut self, alloc: Global, event: PairEvent) -> PairHappened
        requires { may_go (pair_means self.old meaning).client ≡ true }
        ensures comes { Comes (pair_means self.old meaning) event result
            (pair_means self.new meaning) }
        ensures held { may_go (pair_means self.new meaning).client ≡ true }
    {
        match event {
            PairEvent::ToInit { message } => {
                let stage = mem::replace(&mut self.client, ClientStage::Over);
                let moves = client_hears(alloc, stage, message.as_slice());
                drop(message);
                self.put_client(moves)
            }
            PairEvent::ToAccept {
                message,
                now,
                draws,
            } => {
                let happened = self.to_accept(alloc, message.as_slice(), now, &draws);
                drop(message);
                happened
            }
            PairEvent::SendInit { bytes, confounder } => {
                let stage = mem::replace(&mut self.client, ClientStage::Over);
                let moves = client_gives(alloc, stage, bytes.as_slice(), &confounder);
                drop(bytes);
                self.put_client(moves)
            }
            PairEvent::SendAccept { bytes, confounder } => {
                let stage = mem::replace(&mut self.server, ServerStage::Over);
                let moves = server_gives(alloc, stage, bytes.as_slice(), &confounder);
                drop(bytes);
                self.put_server(moves)
            }
        }
    }
}
