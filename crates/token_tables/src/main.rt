//! Compares tables of outside values with what the public calls of the ciphers, tokens, messages and files answer, and says of each
//! table how many rows agree, or which doesn't.
#![tactic(auto)]

mod ciphers;
mod fields;
mod files;
mod keys;
mod messages;
mod negotiation;
mod parts;
mod table;
mod tokens;
mod values;
mod written;

use std::{fs, io};
use table::{Table, compared};

const TABLES: [Table; 28] = [
    Table::Blocks,
    Table::Stealing,
    Table::Lanes,
    Table::Codes,
    Table::Sums,
    Table::Passwords,
    Table::Folds,
    Table::Keys,
    Table::Derived,
    Table::Sealed,
    Table::Opened,
    Table::Checksums,
    Table::Mics,
    Table::MicChecks,
    Table::MicCases,
    Table::Wraps,
    Table::Unwraps,
    Table::UnwrapCases,
    Table::Values,
    Table::Fields,
    Table::Messages,
    Table::MessageCases,
    Table::Negotiation,
    Table::NegotiationCases,
    Table::Keytabs,
    Table::Finds,
    Table::Caches,
    Table::Credentials,
];

fn main(rt: HostRuntime) -> io::Result<()> {
    for table in TABLES {
        let text = fs::read_to_string(&rt, table.file())?;
        match compared(rt.alloc(), table, text.as_str()) {
            Some(line) => println!(rt; "{line}")?,
            None => println!(rt; "{}: no memory", table.file())?,
        }
    }
    Ok(())
}
