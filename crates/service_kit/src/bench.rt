//! A bench: a program that is served in the thread of its callers, over a link in memory. Nothing of the system is used, and each run is the
//! same.

ghost use Rattle.std.specs.Prelude.{◌≡◌, ◌≢◌, List, [], ◌∷◌, IfOk, IfErr, IfSome, Ok, Err, false};
ghost use Rattle.std.specs.Prelude.{ℕ};
ghost use Rattle.gate_models.specs.LoopLink.{loop_gate, loop_draws};
ghost use Rattle.sec_base.specs.MemDraw.{stated_octets};
ghost use Rattle.scram_mech.specs.Verifiers.{verifiers_of};
ghost use Rattle.service_kit.specs.Bench.{IsBench, IsPlain, KnowsUser, bench_name, user_line};

use accept_book::{Keeping, Limits, OwnSeat};
use gate_models::{Beginning, LoopLink};
use gss_base::{MechKind, Principal};
use gss_server::OwnGate;
use krb_files::{Keytab, read_keytab};
use rpc_program::{Program, Speller};
use scram_mech::{ScramRefusal, Verifiers, make_verifier, read_verifiers};
use sec_base::{Draw, Items, Link, MemDraw, Moment};
use spnego_core::AcceptSetup;
use std::alloc::Global;

/// What the type of the link says of the server: nothing of its book, the width of its windows, that its clock stands at the start of 1970,
/// and that its draw gave nothing before.
#[derive(Drop)]
pub struct AtStart;

impl<V: Program, W: Speller<V::Ticket>> Beginning<OwnGate<V, W>> for AtStart {
    ghost begins = { λ _. Unit {0} };

    ghost width = { 8 };

    ghost moment = { 0 };

    ghost given = { [] };
}

/// A link to a server in the same thread, whose random octets come from memory.
pub type BenchLink<V, W> = LoopLink<OwnGate<V, W>, MemDraw, AtStart>;

/// The width of the windows of sequence numbers (RFC 2203 section 5.3.3.1).
const WIDTH: u32 = 8;

/// How many contexts and authenticators the server keeps, how many entries its log may have, of which
/// none stays in memory, and the width.
const LIMITS: Limits = Limits {
    contexts: 4,
    marks: 4,
    log: 1_024,
    width: WIDTH,
    keeping: Keeping {
        entries: false,
        digest: false,
    },
};

/// The salt and the count of rounds by which the user's verifier is made from the password (RFC 5802 section 2.2).
const SALT: [u8; 16] = *b"salt of example.";

const ROUNDS: u32 = 4_096;

/// What the server is called.
const SERVICE: &str = "rpc/localhost@REALM.TEST";

/// A keytab without keys, which has the number of its format alone: SCRAM needs none.
const NO_KEYS: [u8; 2] = [5, 2];

/// The user's verifier, which the server has in place of the password; or why they can't be a user's.
fn verifiers(alloc: Global, user: &str, password: &str) -> Result<Verifiers, ScramRefusal>
    ensures known { IfOk result (λ known. (line : List ℕ)
        × (user_line user.now password.now ≡ Ok line) × (verifiers_of line ≡ Ok known)) }
    ensures refused { IfErr result (λ why. why ≢ ScramRefusal.NoMemory
        → user_line user.now password.now ≡ Err why) }
{
    let line = make_verifier(alloc, user, password, &SALT, ROUNDS)?;
    match read_verifiers(alloc, line.as_slice()) {
        Ok(verifiers) => Ok(verifiers),
        // (a line that was made is one of the grammar)
        Err(_) => Err(ScramRefusal::NoMemory),
    }
}

/// The name of the server.
fn own_name(alloc: Global) -> Option<Principal>
    ensures { IfSome result (λ own. own ≡ bench_name) }
{
    Principal::parse(alloc, SERVICE).ok()
}

/// No keys.
#[tactic(auto, using(crate::proofs::NoKeys::no_keys))]
fn no_keys(alloc: Global) -> Option<Keytab>
    ensures { IfSome result (λ keytab. keytab ≡ []) }
{
    read_keytab(alloc, &NO_KEYS).ok()
}

/// The one mechanism on offer.
fn offer(alloc: Global) -> Option<Items<MechKind>>
    ensures { IfSome result (λ offer. offer ≡ MechKind.Scram ∷ []) }
{
    let offer = Vec::from_slice(alloc, &[MechKind::Scram]).ok()?;
    Some(Items::of(offer))
}

/// What the server begins with, by these verifiers: its name, and SCRAM alone on offer.
fn acceptor_with(alloc: Global, verifiers: Verifiers) -> Option<AcceptSetup>
    ensures verifiers { IfSome result (λ setup. setup.verifiers ≡ verifiers) }
    ensures others { IfSome result (λ setup. IsPlain setup) }
{
    let own = own_name(alloc)?;
    let keytab = no_keys(alloc)?;
    let offer = offer(alloc)?;
    Some(AcceptSetup {
        own,
        keytab,
        verifiers,
        bindings: None,
        offer,
        bare: false,
    })
}

/// What the server begins with: its name, the user's verifier, and SCRAM alone on offer.
fn acceptor(alloc: Global, user: &str, password: &str) -> Result<AcceptSetup, ScramRefusal>
    ensures known { IfOk result (λ setup. KnowsUser user.now password.now setup) }
    ensures refused { IfErr result (λ why. why ≢ ScramRefusal.NoMemory
        → user_line user.now password.now ≡ Err why) }
{
    let verifiers = verifiers(alloc, user, password)?;
    match acceptor_with(alloc, verifiers) {
        Some(setup) => Ok(setup),
        None => Err(ScramRefusal::NoMemory),
    }
}

/// A link to a server of this program that knows one user by a password (SCRAM); or why they can't be a user's. The server's clock stands at
/// the start of 1970, and its random octets count from 0 on. Nothing was sent yet.
pub fn link_in_memory<V: Program + Drop, W: Speller<V::Ticket> + Drop>(
    alloc: Global,
    program: V,
    speller: W,
    user: &str,
    password: &str,
) -> Result<BenchLink<V, W>, ScramRefusal>
    requires says { W.says ≡ V.says }
    // Who answers: this program, by this speller, for a book without contexts that knows the user, and nobody else.
    ensures program { IfOk result (λ link. (loop_gate link).program ≡ program) }
    ensures speller { IfOk result (λ link. (loop_gate link).speller ≡ speller) }
    ensures book { IfOk result (λ link. IsBench user.now password.now (loop_gate link).seat) }
    ensures stated { IfOk result (λ link. stated_octets (loop_draws link) ≡ []) }
    ensures drawn { IfOk result (λ link. ⟦<MemDraw as Draw>⟧.given (loop_draws link) ≡ []) }
    // The link is new.
    ensures wire { IfOk result (λ link. ⟦<BenchLink<V, W> as Link>⟧.wire link
        ≡ record { taken = []; coming = []; written = [] }) }
    ensures closed { IfOk result (λ link. ⟦<BenchLink<V, W> as Link>⟧.closed link ≡ false) }
    ensures faults { IfOk result (λ link. ⟦<BenchLink<V, W> as Link>⟧.faults link ≡ 0) }
    // Why there is none: user and password can't be a user's, so no line is made of them, want of memory aside.
    ensures refused { IfErr result (λ why. why ≢ ScramRefusal.NoMemory
        → user_line user.now password.now ≡ Err why) }
{
    let setup = acceptor(alloc, user, password)?;
    let book = OwnSeat::open(alloc, setup, LIMITS, Moment::start())?;
    let gate = OwnGate::new(book, program, speller);
    let draws = MemDraw::new(Vec::new(alloc));
    let link = LoopLink::new(alloc, gate, Moment::start(), draws, WIDTH)?;
    Ok(link)
}
