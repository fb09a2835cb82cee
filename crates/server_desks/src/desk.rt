//! A desk: a port, and who is given what its connections come to.

ghost use Rattle.std.specs.Prelude.{◌≡◌, ◌*◌, ◌<◌, ◌≤◌, false};
ghost use Rattle.server_desks.specs.Desks.{IsFresh, DeskServed, DeskAdds, is_starved};
ghost use Rattle.server_desks.specs.Desks.{with_speller};
ghost use Rattle.gss_server.specs.Hearing.{serving};

use gss_server::{ConnEnd, Gate, Keeper, Kept, Served, serve_link};
use sec_base::{Clock, Draw, Port};
use std::alloc::Global;

/// A port with the clock and the draw that serve its connections, who is given the answers to their
/// records, who is given the links that were served, who spells the results of its calls, and how many
/// connections and records it served.
#[derive(Drop)]
pub struct Desk<P, C, D, K, S, W> {
    pub port: P,
    pub clock: C,
    pub draw: D,
    /// Is given what is kept of each answer.
    pub keeper: K,
    /// Is given each link that was served, closed.
    pub links: S,
    /// Spells the results of the calls that its connections bring.
    pub speller: W,
    pub connections: u64,
    pub records: u128,
}

/// Stands in a desk for its speller, who is at its gate.
#[derive(Clone, Copy, Debug)]
pub struct AtGate;

/// Why a desk stopped.
#[derive(Clone, Copy, Debug, PartialEq, Eq)]
pub enum DeskEnd {
    /// Its port has no further link, or the stated number was served.
    Done,
    /// Its port failed, and the port's count of faults rose.
    PortFault,
    /// There was no memory.
    NoMemory,
}

impl<P, C, D, K, S, W> Desk<P, C, D, K, S, W> {
    /// A desk that has served nothing yet.
    pub fn new(
        port: P,
        clock: C,
        draw: D,
        keeper: K,
        links: S,
        speller: W,
    ) -> Desk<P, C, D, K, S, W>
        ensures fresh { IsFresh result }
        ensures port { result.port ≡ port }
        ensures clock { result.clock ≡ clock }
        ensures draw { result.draw ≡ draw }
        ensures keeper { result.keeper ≡ keeper }
        ensures links { result.links ≡ links }
        ensures speller { result.speller ≡ speller }
    {
        Desk {
            port,
            clock,
            draw,
            keeper,
            links,
            speller,
            connections: 0,
            records: 0,
        }
    }

    /// The desk without its speller, who goes to its gate, and the speller.
    pub fn part(self) -> (Desk<P, C, D, K, S, AtGate>, W)
        ensures desk { result.0 ≡ with_speller self result.0.speller }
        ensures speller { result.1 ≡ self.speller }
    {
        let Desk {
            port,
            clock,
            draw,
            keeper,
            links,
            speller,
            connections,
            records,
        } = self;
        let desk = Desk {
            port,
            clock,
            draw,
            keeper,
            links,
            speller: AtGate,
            connections,
            records,
        };
        (desk, speller)
    }

    /// The desk with this speller in the place of its own.
    pub fn with<V>(self, new: V) -> Desk<P, C, D, K, S, V>
    where
        W: Drop,
        ensures { result ≡ with_speller self new }
    {
        let Desk {
            port,
            clock,
            draw,
            keeper,
            links,
            speller: _,
            connections,
            records,
        } = self;
        Desk {
            port,
            clock,
            draw,
            keeper,
            links,
            speller: new,
            connections,
            records,
        }
    }
}

/// Serves the links of a desk's port, one after the other, at most `connections`, with windows of this width.
pub fn serve_desk<
    P: Port,
    G: Gate,
    C: Clock,
    D: Draw,
    K: Keeper<Kept>,
    S: Keeper<Served<P::Link>>,
    W,
>(
    alloc: Global,
    desk: &mut Desk<P, C, D, K, S, W>,
    gate: &mut G,
    connections: u64,
    width: u32,
) -> DeskEnd
where
    P::Link: Drop,
    requires { IsFresh desk.old }
    // It served the first links of its port, in order, each from the state of the gate that the one before left; the keepers were given
    // the answers and the links, and the clock and the draw gave what the answers hold, and nothing else. It stopped at the first fault of its port, and
    // at the first connection that ended for want of memory.
    ensures served { DeskServed G.answers (serving G.program width) connections P.Port P.Link.Link
        C.Clock D.Draw K.Keeper S.Keeper gate.old desk.old result desk.new gate.new }
    ensures faults { P.faults desk.old.port ≤ P.faults desk.new.port }
    ensures limits { G.limits gate.new ≡ G.limits gate.old }
{
    for number in 0..connections {
        if desk.links.make_room().is_err() {
            return DeskEnd::NoMemory;
        }
        match desk.port.accept() {
            Err(_) => return DeskEnd::PortFault,
            Ok(None) => return DeskEnd::Done,
            Ok(Some(link)) => {
                if is_starved(serve_next(alloc, desk, link, gate, width)) {
                    return DeskEnd::NoMemory;
                }
            }
        }
    }
    DeskEnd::Done
}

/// Whether a connection ended for want of memory.
fn is_starved(end: ConnEnd) -> bool
    ensures { result ≡ is_starved end }
{
    match end {
        ConnEnd::NoMemory => true,
        _ => false,
    }
}

/// Serves a link that the port gave, and counts it.
fn serve_next<P: Port, G: Gate, C: Clock, D: Draw, K: Keeper<Kept>, S: Keeper<Served<P::Link>>, W>(
    alloc: Global,
    desk: &mut Desk<P, C, D, K, S, W>,
    link: P::Link,
    gate: &mut G,
    width: u32,
) -> ConnEnd
where
    P::Link: Drop,
    requires unclosed { P.Link.closed link ≡ false }
    requires ready { S.ready desk.old.links }
    requires few { desk.old.connections < 18446744073709551615 }
    requires small { desk.old.records ≤ 65536 * desk.old.connections }
    ensures served { DeskAdds G.answers (serving G.program width) P.Link.Link C.Clock D.Draw
        K.Keeper S.Keeper gate.old desk.old link result desk.new gate.new }
    ensures port { desk.new.port ≡ desk.old.port }
    ensures small { desk.new.records ≤ 65536 * desk.new.connections }
    ensures limits { G.limits gate.new ≡ G.limits gate.old }
{
    let Desk {
        clock,
        draw,
        keeper,
        ..
    } = desk;
    let served = serve_link(alloc, link, keeper, gate, clock, draw, width);
    let end = served.end;
    desk.connections += 1;
    desk.records += served.records as u128;
    desk.links.keep(served);
    end
}
