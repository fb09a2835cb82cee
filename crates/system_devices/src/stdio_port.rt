//! Standard input and output as one connection.

ghost use Rattle.std.specs.Prelude.{◌≡◌, ◌≤◌, true, false, Ok, None, IsTrue, IsSome, IsOkAnd, IfOk};
ghost use Rattle.std.specs.Prelude.{IfSome, OnOk, OnErr};
ghost use Rattle.sec_base.specs.Answers.{Rose};
ghost use Rattle.sec_base.specs.Port.{Accepts};
ghost use Rattle.system_devices.specs.Devices.{is_given};

use crate::again::{read_on, write_on};
use sec_base::{Link, LinkFault, Port, PortFault, Trail};
use std::io::{Stdin, Stdout};

/// The link over standard input and output. A call that a signal, a stop or a tracer broke off is made again. What it took and wrote is
/// what its calls answered; it tells nothing of octets to come.
#[derive(Drop)]
pub struct StdioLink {
    input: Stdin,
    output: Stdout,
    faults: u64,
    closed: bool,
    taken: Trail,
    written: Trail,
}

impl Link for StdioLink {
    ghost use Rattle.std.specs.Prelude.{false, []};

    ghost faults = { λ l. l.faults };

    ghost tells = { λ _. false };

    ghost wire = { λ l. record {
      taken = l.taken.octets;
      coming = [];
      written = l.written.octets;
    } };

    ghost closed = { λ l. l.closed };

    ghost closes = { λ old new. new.faults ≡ old.faults };

    fn read(&mut self, buf: &mut [u8]) -> Result<usize, LinkFault> {
        match read_on(&mut self.input, buf) {
            Some(count) => {
                self.taken = self.taken.then(&buf[..count]);
                Ok(count)
            }
            None => {
                self.faults = self.faults.saturating_add(1);
                Err(LinkFault)
            }
        }
    }

    fn write(&mut self, buf: &[u8]) -> Result<usize, LinkFault> {
        match write_on(&mut self.output, buf) {
            Some(count) => {
                self.written = self.written.then(&buf[..count]);
                Ok(count)
            }
            None => {
                self.faults = self.faults.saturating_add(1);
                Err(LinkFault)
            }
        }
    }

    fn close(&mut self) {
        self.closed = true;
    }
}

/// A port that gives one link, over standard input and output.
#[derive(Drop)]
pub struct StdioPort {
    input: Stdin,
    output: Stdout,
    given: bool,
}

impl StdioPort {
    /// The port whose link was not given yet.
    pub fn new(input: Stdin, output: Stdout) -> StdioPort
        ensures { is_given result ≡ false }
    {
        StdioPort {
            input,
            output,
            given: false,
        }
    }
}

impl Port for StdioPort {
    ghost use Rattle.std.specs.Prelude.{false, []};

    type Link = StdioLink;

    ghost faults = { λ _. 0 };

    ghost tells = { λ _. false };

    ghost links = { λ _. [] };

    fn accept(&mut self) -> Result<Option<StdioLink>, PortFault>
        ensures told { IsTrue (⟦<StdioPort as Port>⟧.tells self.old)
            → Accepts (⟦<StdioPort as Port>⟧.links self.old)
            (⟦<StdioPort as Port>⟧.links self.new) result }
        ensures tells { ⟦<StdioPort as Port>⟧.tells self.new
            ≡ ⟦<StdioPort as Port>⟧.tells self.old }
        ensures unclosed { IfOk result
            (λ next. IfSome next (λ link. ⟦<StdioLink as Link>⟧.closed link ≡ false)) }
        ensures fault { OnErr result
            (Rose (⟦<StdioPort as Port>⟧.faults self.old) (⟦<StdioPort as Port>⟧.faults self.new)) }
        ensures steady { OnOk result
            (⟦<StdioPort as Port>⟧.faults self.new ≡ ⟦<StdioPort as Port>⟧.faults self.old) }
        ensures faults { ⟦<StdioPort as Port>⟧.faults self.old
            ≤ ⟦<StdioPort as Port>⟧.faults self.new }
        // the one link is given once
        ensures one { is_given self.old ≡ false → IsOkAnd result (λ next. IsSome next) }
        ensures none { is_given self.old ≡ true → result ≡ Ok None }
        ensures given { is_given self.new ≡ true }
    {
        if self.given {
            return Ok(None);
        }
        self.given = true;
        Ok(Some(StdioLink {
            input: self.input,
            output: self.output,
            faults: 0,
            closed: false,
            taken: Trail::new(),
            written: Trail::new(),
        }))
    }
}
