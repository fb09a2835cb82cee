//! Compares tables of outside values with what the mechanisms' public calls answer, and says of each table how many lines agree, or which doesn't.
#![tactic(auto)]

mod accepting;
mod initiating;
mod kerberos;
mod objects;
mod peers;
mod sasl;
mod sasl_change;
mod sasl_ends;
mod sasl_exchange;
mod scram_exchanges;
mod scram_initiator;
mod scram_texts;
mod stamps;
mod table;
mod third;
mod tickets;
mod verifiers;

use std::{fs, io};
use table::{Table, compared};
use table_setting::Setting;

const TABLES: [Table; 19] = [
    Table::Requests,
    Table::Replies,
    Table::Faults,
    Table::Tickets,
    Table::Stamps,
    Table::ScramExchanges,
    Table::ScramInitiator,
    Table::Objects,
    Table::ScramTexts,
    Table::Verifiers,
    Table::MadeVerifiers,
    Table::Initiating,
    Table::Third,
    Table::Accepting,
    Table::FirstTokens,
    Table::PeerReplies,
    Table::PeerRequests,
    Table::SaslExchanges,
    Table::SaslAltered,
];

fn main(rt: HostRuntime) -> io::Result<()> {
    let text = fs::read_to_string(&rt, "setting.txt")?;
    let Some(setting) = Setting::read(rt.alloc(), text.as_str()) else {
        return println!(rt; "setting.txt: not in its form");
    };
    for table in TABLES {
        let text = fs::read_to_string(&rt, table.file())?;
        match compared(rt.alloc(), &setting, table, text.as_str()) {
            Some(line) => println!(rt; "{line}")?,
            None => println!(rt; "{}: no memory", table.file())?,
        }
    }
    Ok(())
}
