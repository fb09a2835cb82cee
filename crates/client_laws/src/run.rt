//! A run of the client against an honest server.

ghost use Rattle.std.specs.Prelude.{◌≡◌, ◌≢◌, ◌⊎◌, List, IsTrue, Option, Some, Ok, false, map};
ghost use Rattle.sec_base.specs.Answers.{Rose};
ghost use Rattle.cli_base.specs.Lines.{SaysLine, Says};
ghost use Rattle.spnego_core.specs.declared.setup.MechCred.{MechCred};
ghost use Rattle.spnego_core.specs.declared.outcome.Outcome.{Outcome as OutcomeIs};
ghost use Rattle.init_ends.specs.Arming.{AreStandard};
ghost use Rattle.client_command.specs.Credentials.{creds_from};
ghost use Rattle.client_options.specs.Endings.{status_of, line_of};
ghost use Rattle.client_options.specs.Lines.{lines};
ghost use Rattle.client_command.specs.Runs.{names_of, command_of};
ghost use Rattle.client_options.specs.Words.{words_of};
ghost use Rattle.client_options.specs.declared.words.ClientWords.{ClientWords as ClientWordsIs};
ghost use Rattle.pair_laws.specs.Running.{RunLaw};
ghost use Rattle.client_laws.specs.ClientRun.{Answers, Completed};

use client_command::{ClientEnd, RunEnd, run_client};
use mech_objects::Mech;
use pair_laws::prove_runs;
use sec_base::{Clock, Draw, Link, Shelf, Sink, Text};
use spnego_core::Outcome;
use std::alloc::Global;

/// Does nothing that stays: runs on the key of an outcome are complete, where there is one.
fn tell_outcome(outcome: &Option<Outcome>)
    ensures { (o : OutcomeIs) → outcome.now ≡ Some o → RunLaw o.key }
{
    if let Some(outcome) = outcome {
        prove_runs(&outcome.key);
    }
}

/// Runs the client, as `run_client` does; its contract says besides that the run is complete where an honest server answers it: over a link
/// and files that don't fail, want of memory aside, it ends with status 0, or 13 if the numbers are spent, and the context is destroyed.
pub fn complete_run<F: Shelf, L: Link, C: Clock, D: Draw, O: Sink>(
    alloc: Global,
    words: &[Text],
    shelf: &mut F,
    link: &mut L,
    clock: &mut C,
    draw: &mut D,
    mechs: Vec<Box<dyn Mech>>,
    out: &mut O,
    err: &mut O,
) -> ClientEnd
    requires unclosed { L.closed link.old ≡ false }
    requires mechs { AreStandard (map meaning mechs.items) }
    ensures completes { (asked : ClientWordsIs) (creds : List MechCred)
        → words_of words.now ≡ Ok asked
        → IsTrue (F.tells shelf.old) → creds_from (F.files shelf.old) asked.sources ≡ Ok creds
        → IsTrue (L.tells link.old)
        → (server : Answers (C.tells clock.new) (C.given clock.old) (C.given clock.new)
        (D.tells draw.new) (D.given draw.old) (D.given draw.new) asked.plan creds (L.wire link.old)
        (L.wire link.new)) → (Rose (F.faults shelf.old) (F.faults shelf.new) → ⊥)
        → (Rose (L.faults link.old) (L.faults link.new) → ⊥) → result.end ≢ RunEnd.NoMemory
        → Completed (C.tells clock.new) (C.given clock.old) (C.given clock.new)
        (D.tells draw.new) (D.given draw.old) (D.given draw.new) asked.plan creds (L.wire link.old)
        (L.wire link.new) server result.outcome result.results.items result.end }
    // The status, and what is printed, are those of the end, the outcome and the results.
    ensures status { result.status ≢ 6 → result.status ≢ 8 → result.status ≡ status_of result.end }
    ensures sink_fault { result.status ≡ 6
        → Rose (O.faults out.old) (O.faults out.new) ⊎ Rose (O.faults err.old) (O.faults err.new) }
    ensures printed { IsTrue (O.tells out.old)
        → SaysLine (O.written out.old) (O.written out.new) result.status
        (lines (command_of (words_of words.now)) result.outcome result.results.items) }
    ensures said { IsTrue (O.tells err.old) → Says (O.written err.old) (O.written err.new)
        result.status (line_of (names_of (words_of words.now)) result.end) }
{
    let end = run_client(alloc, words, shelf, link, clock, draw, mechs, out, err);
    tell_outcome(&end.outcome);
    end
}
