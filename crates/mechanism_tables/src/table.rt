//! The tables, and the comparison of one with what the calls answer.

use crate::{
    accepting, initiating, kerberos, objects, peers, sasl, scram_exchanges, scram_initiator,
    scram_texts, stamps, third, tickets, verifiers,
};
use std::alloc::Global;
use table_rows::{Cells, Rows, Said};
use table_setting::Setting;

/// A table of outside values.
#[derive(Clone, Copy)]
pub enum Table {
    Requests,
    Replies,
    Faults,
    Tickets,
    Stamps,
    ScramExchanges,
    ScramInitiator,
    Objects,
    ScramTexts,
    Verifiers,
    MadeVerifiers,
    Initiating,
    Third,
    Accepting,
    FirstTokens,
    PeerReplies,
    PeerRequests,
    SaslExchanges,
    SaslAltered,
}

impl Table {
    /// Its file.
    pub fn file(self) -> &'static str {
        match self {
            Table::Requests => "requests.txt",
            Table::Replies => "replies.txt",
            Table::Faults => "faults.txt",
            Table::Tickets => "tickets.txt",
            Table::Stamps => "stamps.txt",
            Table::ScramExchanges => "scram_exchanges.txt",
            Table::ScramInitiator => "scram_initiator.txt",
            Table::Objects => "objects.txt",
            Table::ScramTexts => "scram_texts.txt",
            Table::Verifiers => "verifiers.txt",
            Table::MadeVerifiers => "made_verifiers.txt",
            Table::Initiating => "initiating.txt",
            Table::Third => "third.txt",
            Table::Accepting => "accepting.txt",
            Table::FirstTokens => "first_tokens.txt",
            Table::PeerReplies => "peer_replies.txt",
            Table::PeerRequests => "peer_requests.txt",
            Table::SaslExchanges => "sasl_exchanges.txt",
            Table::SaslAltered => "sasl_altered.txt",
        }
    }

    /// Whether its lines begin with a name.
    fn are_named(self) -> bool {
        matches!(
            self,
            Table::Faults
                | Table::Tickets
                | Table::Stamps
                | Table::ScramInitiator
                | Table::Objects
                | Table::Third
                | Table::FirstTokens
                | Table::SaslExchanges
                | Table::SaslAltered
        )
    }

    /// Reads the cells that are given in a row, and says what the calls answer.
    fn answer(self, setting: &Setting, cells: &mut Cells<'_>, said: &mut Said) {
        match self {
            Table::Requests | Table::Faults => kerberos::judged(cells, said),
            Table::Replies => kerberos::replied(cells, said),
            Table::Tickets => tickets::answer(cells, said),
            Table::Stamps => stamps::answer(cells, said),
            Table::ScramExchanges => scram_exchanges::answer(cells, said),
            Table::ScramInitiator => scram_initiator::answer(cells, said),
            Table::Objects => objects::answer(cells, said),
            Table::ScramTexts => scram_texts::answer(cells, said),
            Table::Verifiers => verifiers::read(cells, said),
            Table::MadeVerifiers => verifiers::made(cells, said),
            Table::Initiating => initiating::answer(setting, cells, said),
            Table::Third => third::answer(setting, cells, said),
            Table::Accepting => accepting::answer(setting, cells, said),
            Table::FirstTokens => initiating::first(setting, cells, said),
            Table::PeerReplies => peers::begun(cells, said),
            Table::PeerRequests => peers::accepted(cells, said),
            Table::SaslExchanges => sasl::exchanged(setting, cells, said),
            Table::SaslAltered => sasl::altered(setting, cells, said),
        }
    }
}

/// A table over its setting.
#[derive(Drop)]
struct Set<'a> {
    table: Table,
    setting: &'a Setting,
}

impl Rows for Set<'_> {
    fn are_named(&self) -> bool {
        self.table.are_named()
    }

    fn answer(&self, cells: &mut Cells<'_>, said: &mut Said) {
        self.table.answer(self.setting, cells, said);
    }
}

/// How many lines of a table, its comments aside, are as the calls answer them, or the first that isn't, counted from 1.
pub fn compared(alloc: Global, setting: &Setting, table: Table, text: &str) -> Option<String> {
    let rows = Set { table, setting };
    table_rows::compared(alloc, &rows, table.file(), text)
}
