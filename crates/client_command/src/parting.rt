//! The end of a run's link.

ghost use Rattle.std.specs.Prelude.{◌≡◌, ◌≢◌, true, false, IsTrue};
ghost use Rattle.sec_base.specs.Answers.{Rose};
ghost use Rattle.sec_base.specs.Link.{HasWritten};
ghost use Rattle.cli_base.specs.Lines.{Says};
ghost use Rattle.client_options.specs.Endings.{status_of, line_of, Named};
ghost use Rattle.client_command.specs.Runs.{unnamed};
ghost use Rattle.stream_buffers.specs.Buffered.{link_below, written_behind};

use crate::client::{ClientEnd, UNNAMED};
use client_options::{RunEnd, say_end};
use sec_base::{Link, LinkFault, Sink};
use std::alloc::Global;
use stream_buffers::Buffered;

/// Says on `err` that the link failed. Answers the run's status.
fn say_fault<O: Sink>(alloc: Global, err: &mut O) -> u8
    ensures some { result ≢ 0 }
    ensures five { result ≢ 6 → result ≢ 8 → result ≡ status_of RunEnd.LinkFault }
    ensures sink_fault { result ≡ 6 → Rose (O.faults err.old) (O.faults err.new) }
    ensures said { IsTrue (O.tells err.old)
        → Says (O.written err.old) (O.written err.new) result (line_of unnamed RunEnd.LinkFault) }
{
    say_end(alloc, err, &UNNAMED, RunEnd::LinkFault)
}

/// A run whose last records weren't written.
fn unsent<O: Sink>(alloc: Global, run: ClientEnd, err: &mut O) -> ClientEnd
    ensures status { result.status ≢ run.status → run.status ≡ 0 }
    ensures some { result.status ≢ 0 }
    ensures end { result.status ≡ run.status → result.end ≡ run.end }
    ensures fault_end { result.status ≢ run.status → result.end ≡ RunEnd.LinkFault }
    ensures five { result.status ≢ run.status → result.status ≢ 6 → result.status ≢ 8
        → result.status ≡ status_of RunEnd.LinkFault }
    ensures sink_fault { result.status ≢ run.status → result.status ≡ 6
        → Rose (O.faults err.old) (O.faults err.new) }
    ensures silent { result.status ≡ run.status → O.written err.new ≡ O.written err.old }
    ensures said { result.status ≢ run.status → IsTrue (O.tells err.old)
        → Says (O.written err.old) (O.written err.new) result.status
        (line_of unnamed RunEnd.LinkFault) }
    ensures outcome { result.outcome ≡ run.outcome }
    ensures results { result.results.items ≡ run.results.items }
{
    if run.status != 0 {
        return run;
    }
    let ClientEnd {
        status: _,
        end: _,
        outcome,
        results,
    } = run;
    let status = say_fault(alloc, err);
    ClientEnd {
        status,
        end: RunEnd::LinkFault,
        outcome,
        results,
    }
}

/// Writes what waits for the link of a run, and closes it. A run that ended with status 0 keeps it only where that was written: else it
/// ends as one whose link failed, and says so on `err`. Any other run ends as it did.
pub fn end_link<L: Link, O: Sink>(
    alloc: Global,
    run: ClientEnd,
    link: &mut Buffered<L>,
    err: &mut O,
) -> ClientEnd
    requires unclosed { L.closed (link_below link.old) ≡ false }
    // Status 0 says that all that waited was written to the link below.
    ensures left { result.status ≡ 0 → HasWritten (L.tells (link_below link.old))
        (L.wire (link_below link.old)) (L.wire (link_below link.new)) (written_behind link.old) }
    // It is the run's own status, unless the link failed.
    ensures status { result.status ≢ run.status → run.status ≡ 0 }
    ensures link_fault { result.status ≢ run.status
        → Rose (L.faults (link_below link.old)) (L.faults (link_below link.new)) }
    ensures end { result.status ≡ run.status → result.end ≡ run.end }
    ensures fault_end { result.status ≢ run.status → result.end ≡ RunEnd.LinkFault }
    ensures five { result.status ≢ run.status → result.status ≢ 6 → result.status ≢ 8
        → result.status ≡ status_of RunEnd.LinkFault }
    ensures sink_fault { result.status ≢ run.status → result.status ≡ 6
        → Rose (O.faults err.old) (O.faults err.new) }
    ensures silent { result.status ≡ run.status → O.written err.new ≡ O.written err.old }
    ensures said { result.status ≢ run.status → IsTrue (O.tells err.old)
        → Says (O.written err.old) (O.written err.new) result.status
        (line_of unnamed RunEnd.LinkFault) }
    ensures outcome { result.outcome ≡ run.outcome }
    ensures results { result.results.items ≡ run.results.items }
    ensures closed { L.closed (link_below link.new) ≡ true }
{
    match link.end() {
        Ok(()) => run,
        Err(LinkFault) => unsent(alloc, run, err),
    }
}
