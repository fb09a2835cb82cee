//! What the objects of Kerberos and SCRAM share: what one was given and took, and its mechanism's state.

ghost use Rattle.std.specs.Prelude.{◌≡◌, ◌∷◌, ◌++◌, [], Some, Ok, IfOk, IfErr, IfSome};
ghost use Rattle.sec_base.specs.Answers.{Gives};
ghost use Rattle.spnego_core.specs.Sizes.{FitsBeside};
ghost use Rattle.mech_objects.specs.Meaning.{armed, starts, started, takes, took, FitsMove};
ghost use Rattle.mech_objects.specs.Standard.{blank_of, state_after, state_by};
ghost use Rattle.mech_objects.specs.States.{finished, goes_on, kept, mech_in, object_of};
ghost use Rattle.mech_objects.specs.declared.ask.Stage.TheVariants.{Blank, Fresh, Waiting, Over};

use crate::ask::{MechAsk, MechMove, Stage};
use crate::state::{MechState, StateAnswer};
use gss_base::{MechKind, MechName};
use sec_base::{NoMemory, Octets, Oid};
use spnego_core::{MechCred, NegRefusal};
use std::alloc::Global;
use std::marker::Model;
use std::mem::replace;

/// A list of a copy of this token alone; None where there is no memory.
fn alone(alloc: Global, token: &[u8]) -> Option<Vec<Octets>>
    ensures { IfSome result (λ list. list.items ≡ token.now ∷ []) }
{
    let copy = Octets::of(alloc, token).ok()?;
    let mut list = Vec::new(alloc);
    list.push(copy).ok()?;
    Some(list)
}

/// An object of Kerberos or SCRAM. Contracts see what it is.
///
/// What an object is names what it was asked with and each token that it sent and took, so copies of these are kept.
#[derive(Drop)]
pub struct MechRun {
    name: MechName,
    cred: Option<MechCred>,
    ask: Option<MechAsk>,
    sent: Vec<Octets>,
    taken: Vec<Octets>,
    stage: Stage,
    state: Option<MechState>,
}

impl Model for MechRun {
    ghost use Rattle.std.specs.Prelude.{◌≡◌, Some, true, is_some, option_map};
    ghost use Rattle.mech_objects.specs.Standard.{state_by};
    ghost use Rattle.mech_objects.specs.States.{Kept, mech_in};
    ghost use Rattle.mech_objects.specs.declared.ask.Stage.TheVariants.{Waiting};

    ghost Value = { Kept };

    ghost view = { λ r. record {
      name = r.name;
      cred = r.cred;
      ask = r.ask;
      sent = r.sent.items;
      taken = r.taken.items;
      stage = r.stage;
    } };

    ghost invariant = { λ r. r.stage ≡ Waiting → (is_some r.state ≡ true)
        × (option_map mech_in r.state ≡ state_by r.cred r.ask r.taken.items) };
}

impl MechRun {
    /// An object without a credential, under this name.
    pub fn new(alloc: Global, name: MechName) -> MechRun
        ensures { object_of result ≡ blank_of name }
    {
        MechRun {
            name,
            cred: None,
            ask: None,
            sent: Vec::new(alloc),
            taken: Vec::new(alloc),
            stage: Stage::Blank,
            state: None,
        }
    }

    /// Which mechanism it is.
    pub fn kind(&self) -> MechKind
        ensures { result ≡ (object_of self.now).kind }
    {
        self.name.kind()
    }

    /// The object identifier that its mechanism has under its name.
    pub fn oid(&self) -> Oid
        ensures { result ≡ (object_of self.now).oid }
    {
        self.name.oid()
    }

    /// Takes the credential.
    pub fn arm(&mut self, cred: MechCred)
        requires { self.old.stage ≡ Blank }
        ensures { object_of self.new ≡ armed (object_of self.old) cred }
    {
        self.cred = Some(cred);
        self.stage = Stage::Fresh;
    }

    /// What was begun is kept, and the object waits.
    fn begins(
        &mut self,
        alloc: Global,
        ask: MechAsk,
        state: MechState,
        sent: Vec<Octets>,
        token: Octets,
    ) -> Octets
        requires state { Some (mech_in state) ≡ state_by self.old.cred (Some ask) [] }
        requires sent { sent.items ≡ token ∷ [] }
        ensures after { object_of self.new ≡ started (object_of self.old) ask (Ok result) }
        ensures token { result ≡ token }
    {
        drop(self.ask.replace(ask));
        drop(replace(&mut self.sent, sent));
        drop(replace(&mut self.taken, Vec::new(alloc)));
        drop(self.state.replace(state));
        self.stage = Stage::Waiting;
        token
    }

    /// The first token.
    pub fn start(&mut self, alloc: Global, ask: &MechAsk) -> Result<Octets, NegRefusal>
        requires { self.old.stage ≡ Fresh }
        ensures exact { Gives NegRefusal.NoMemory (λ o. o) result
            (starts (object_of self.old) ask.now) }
        ensures after { object_of self.new ≡ started (object_of self.old) ask.now result }
        ensures short { IfOk result FitsBeside }
    {
        self.stage = Stage::Over;
        let Some(cred) = &self.cred else {
            return Err(NegRefusal::MechNotMine);
        };
        let (state, token) = MechState::begin(alloc, cred, ask)?;
        match alone(alloc, token.as_slice()).zip(ask.copied(alloc).ok()) {
            Some((sent, own)) => Ok(self.begins(alloc, own, state, sent, token)),
            None => {
                drop(state);
                drop(token);
                Err(NegRefusal::NoMemory)
            }
        }
    }

    /// A token that was taken and one that was sent are kept, or neither is.
    fn keeps(&mut self, taken: Octets, sent: Octets) -> Result<(), NoMemory>
        requires over { self.old.stage ≡ Over }
        ensures after { IfOk result (λ _. self.new ≡ kept self.old taken sent) }
        ensures lost { IfErr result (λ _. self.new ≡ self.old) }
    {
        if self.taken.push(taken).is_err() {
            drop(sent);
            return Err(NoMemory);
        }
        if self.sent.push(sent).is_err() {
            drop(self.taken.pop());
            return Err(NoMemory);
        }
        Ok(())
    }

    /// The tokens are kept, and the mechanism goes on in this state.
    #[tactic(auto, using(crate::proofs::Steps::by_more))]
    fn goes_on(&mut self, state: MechState, taken: Octets, sent: Octets) -> Result<(), NoMemory>
        requires state { Some (mech_in state)
            ≡ state_after (state_by self.old.cred self.old.ask self.old.taken) taken }
        requires over { self.old.stage ≡ Over }
        ensures after { IfOk result (λ _. self.new ≡ goes_on self.old taken sent) }
        ensures lost { IfErr result (λ _. self.new ≡ self.old) }
    {
        match self.keeps(taken, sent) {
            Ok(()) => {
                drop(self.state.replace(state));
                self.stage = Stage::Waiting;
                Ok(())
            }
            Err(refusal) => {
                drop(state);
                Err(refusal)
            }
        }
    }

    /// The last token is kept, and the mechanism is done.
    fn finishes(&mut self, taken: Octets) -> Result<(), NoMemory>
        requires over { self.old.stage ≡ Over }
        ensures after { IfOk result (λ _. self.new ≡ finished self.old taken) }
        ensures lost { IfErr result (λ _. self.new ≡ self.old) }
    {
        self.taken.push(taken)?;
        Ok(())
    }

    /// The state, which is handed out once.
    fn spent(&mut self) -> MechState
        requires { self.old.stage ≡ Waiting }
        ensures state { state_by self.old.cred self.old.ask self.old.taken
            ≡ Some (mech_in result) }
        ensures after { self.new ≡ record self.old { stage = Over } }
    {
        self.stage = Stage::Over;
        match self.state.take() {
            Some(state) => state,
            None => unreachable!(),
        }
    }

    /// The answer to a token.
    pub fn take(&mut self, alloc: Global, token: &[u8]) -> Result<MechMove, NegRefusal>
        requires { self.old.stage ≡ Waiting }
        ensures exact { Gives NegRefusal.NoMemory (λ a. a) result
            (takes (object_of self.old) token.now) }
        ensures after { object_of self.new ≡ took (object_of self.old) token.now result }
        ensures short { IfOk result FitsMove }
    {
        let before = self.spent();
        match before.take(alloc, token)? {
            StateAnswer::More(state, sent) => {
                self.says(alloc, token, state, sent.as_slice())?;
                Ok(MechMove::Token(sent))
            }
            StateAnswer::Done(made) => {
                let kept = Octets::of(alloc, token)?;
                self.finishes(kept)?;
                Ok(MechMove::Done(made))
            }
        }
    }

    /// Copies of both tokens are kept, and the mechanism goes on in this state.
    fn says(
        &mut self,
        alloc: Global,
        taken: &[u8],
        state: MechState,
        sent: &[u8],
    ) -> Result<(), NoMemory>
        requires state { Some (mech_in state)
            ≡ state_after (state_by self.old.cred self.old.ask self.old.taken) taken.now }
        requires over { self.old.stage ≡ Over }
        ensures after { IfOk result (λ _. self.new ≡ goes_on self.old taken.now sent.now) }
        ensures lost { IfErr result (λ _. self.new ≡ self.old) }
    {
        match Octets::of(alloc, taken)
            .ok()
            .zip(Octets::of(alloc, sent).ok())
        {
            Some((taken, sent)) => self.goes_on(state, taken, sent),
            None => {
                drop(state);
                Err(NoMemory)
            }
        }
    }
}
