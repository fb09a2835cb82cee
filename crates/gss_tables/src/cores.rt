//! The acceptance history over values that are known by a digest alone.

ghost use Rattle.std.specs.Prelude.{◌≡◌};

use crate::books::{say_ended, say_receipt};
use crate::connections::limits_of;
use crate::entries;
use accept_core::{Core, Entered, Named, Next};
use gss_base::MechKind;
use sec_base::Moment;
use std::alloc::Global;
use table_rows::{Cells, Said};

/// A value that is known by a mechanism and a digest.
#[derive(Drop)]
struct Plain {
    kind: MechKind,
    digest: [u8; 20],
}

impl Named for Plain {
    ghost mech_of = { λ v. v.kind };

    ghost names_of = { λ v. v.digest };

    fn mech(&self) -> MechKind {
        self.kind
    }

    fn names(&self) -> [u8; 20] {
        self.digest
    }
}

/// A history of such values.
type Plains = Core<u8, Plain>;

/// Says what a look shows, `id:moment`: the value's digest and the end in microseconds.
fn look(core: &mut Plains, parts: &mut Cells<'_>, said: &mut Said) {
    let (id, now) = (parts.number(), parts.moment());
    core.raise(now);
    match core.peek(id, now) {
        Ok((value, ends)) => {
            said.octets(&value.digest);
            said.join(":");
            said.number(ends.total());
        }
        Err(refusal) => said.form(&refusal),
    }
}

/// Says the id of a step that was taken, and its entries.
fn say_entered(said: &mut Said, entered: &Entered) {
    said.number(entered.id);
    for one in entered
        .receipts
        .list
        .iter()
        .take(entered.receipts.count as usize)
    {
        said.join(",");
        say_receipt(said, one);
    }
}

/// Says what comes of a context that is opened and settled, `digest:end`: its id, and the entries that it added.
fn settle(core: &mut Plains, parts: &mut Cells<'_>, said: &mut Said) {
    let digest = parts.exactly();
    let ends = parts.moment();
    match core.room(true) {
        Ok(()) => {}
        Err(_) => return parts.expect(false),
    }
    let step = Next::Settled {
        mech: MechKind::Scram,
        names: digest,
        value: Plain {
            kind: MechKind::Scram,
            digest,
        },
        ends,
    };
    match core.enter(None, None, step) {
        Ok(entered) => say_entered(said, &entered),
        Err(_) => parts.expect(false),
    }
}

/// Says what is answered to a call, `id:number:procedure:arguments`.
fn call(core: &mut Plains, parts: &mut Cells<'_>, said: &mut Said) {
    let id = parts.number();
    let (number, procedure) = (parts.word_number(), parts.word_number());
    let args = parts.exactly();
    say_ended(said, &core.admit(id, number, procedure, args));
}

/// Says what is answered to an end, `id:number`.
fn end(core: &mut Plains, parts: &mut Cells<'_>, said: &mut Said) {
    let (id, number) = (parts.number(), parts.word_number());
    say_ended(said, &core.end(id, number));
}

/// Says what is answered to a step.
fn step(core: &mut Plains, parts: &mut Cells<'_>, said: &mut Said) {
    match parts.word() {
        "settle" => settle(core, parts, said),
        "look" => look(core, parts, said),
        "call" => call(core, parts, said),
        "end" => end(core, parts, said),
        "log" => entries::logged(parts.alloc(), said, entries::entries_in(core.log()), ":"),
        _ => parts.expect(false),
    }
}

/// Says `step=answer` for each step of a line.
fn step_all(core: &mut Plains, cells: &mut Cells<'_>, said: &mut Said) {
    for part in cells.rest().unwrap_or("").split(' ') {
        let (asked, _answer) = part.split_once('=').unwrap_or((part, ""));
        said.word(asked);
        said.join("=");
        let mut parts = Cells::new(cells.alloc(), asked, ':');
        step(core, &mut parts, said);
        cells.expect(parts.are_well() && parts.rest().is_none());
    }
}

/// A history under these limits from this moment on.
fn core_of(alloc: Global, limits: &str, start: Moment) -> Option<Plains> {
    let limits = limits_of(alloc, limits)?;
    Core::new(alloc, limits, start).ok()
}

/// By the cells of the limits and the moment of the opening, `step=answer` for each step behind them.
pub fn answer(cells: &mut Cells<'_>, said: &mut Said) {
    let (limits, start) = (cells.word(), cells.moment());
    match core_of(cells.alloc(), limits, start) {
        Some(mut core) => step_all(&mut core, cells, said),
        None => cells.expect(false),
    }
}
