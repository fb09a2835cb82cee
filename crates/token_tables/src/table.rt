//! The tables, and the comparison of one with what the calls answer.

use crate::{ciphers, fields, files, keys, messages, negotiation, tokens, values};
use std::alloc::Global;
use table_rows::{Cells, Rows, Said};

/// A table of outside values.
#[derive(Clone, Copy, Drop)]
pub enum Table {
    Blocks,
    Stealing,
    Lanes,
    Codes,
    Sums,
    Passwords,
    Folds,
    Keys,
    Derived,
    Sealed,
    Opened,
    Checksums,
    Mics,
    MicChecks,
    MicCases,
    Wraps,
    Unwraps,
    UnwrapCases,
    Values,
    Fields,
    Messages,
    MessageCases,
    Negotiation,
    NegotiationCases,
    Keytabs,
    Finds,
    Caches,
    Credentials,
}

impl Table {
    /// Its file.
    pub fn file(self) -> &'static str {
        match self {
            Table::Blocks => "blocks.txt",
            Table::Stealing => "stealing.txt",
            Table::Lanes => "lanes.txt",
            Table::Codes => "codes.txt",
            Table::Sums => "sums.txt",
            Table::Passwords => "passwords.txt",
            Table::Folds => "folds.txt",
            Table::Keys => "keys.txt",
            Table::Derived => "derived.txt",
            Table::Sealed => "sealed.txt",
            Table::Opened => "opened.txt",
            Table::Checksums => "checksums.txt",
            Table::Mics => "mics.txt",
            Table::MicChecks => "mic_checks.txt",
            Table::MicCases => "mic_cases.txt",
            Table::Wraps => "wraps.txt",
            Table::Unwraps => "unwraps.txt",
            Table::UnwrapCases => "unwrap_cases.txt",
            Table::Values => "values.txt",
            Table::Fields => "fields.txt",
            Table::Messages => "messages.txt",
            Table::MessageCases => "message_cases.txt",
            Table::Negotiation => "negotiation.txt",
            Table::NegotiationCases => "negotiation_cases.txt",
            Table::Keytabs => "keytabs.txt",
            Table::Finds => "finds.txt",
            Table::Caches => "caches.txt",
            Table::Credentials => "credentials.txt",
        }
    }
}

impl Rows for Table {
    fn are_named(&self) -> bool {
        match self {
            Table::Lanes | Table::Keys | Table::MicCases | Table::UnwrapCases => true,
            Table::Fields => true,
            Table::MessageCases | Table::NegotiationCases | Table::Finds => true,
            Table::Credentials => true,
            _ => false,
        }
    }

    fn answer(&self, cells: &mut Cells<'_>, said: &mut Said) {
        match *self {
            Table::Blocks => ciphers::block(cells, said),
            Table::Stealing => ciphers::stolen(cells, said),
            Table::Lanes => ciphers::digests(cells, said),
            Table::Codes => ciphers::code(cells, said),
            Table::Sums => ciphers::sum(cells, said),
            Table::Passwords => keys::of_password(cells, said),
            Table::Folds => keys::folded(cells, said),
            Table::Keys => keys::made(cells, said),
            Table::Derived => keys::derived(cells, said),
            Table::Sealed => keys::sealed(cells, said),
            Table::Opened => keys::opened(cells, said),
            Table::Checksums => keys::checked(cells, said),
            Table::Mics => tokens::mic(cells, said),
            Table::MicChecks | Table::MicCases => tokens::mic_check(cells, said),
            Table::Wraps => tokens::wrap(cells, said),
            Table::Unwraps | Table::UnwrapCases => tokens::unwrapped(cells, said),
            Table::Values => values::read(cells, said),
            Table::Fields => fields::read(cells, said),
            Table::Messages | Table::MessageCases => messages::read(cells, said),
            Table::Negotiation | Table::NegotiationCases => negotiation::read(cells, said),
            Table::Keytabs => files::keytab(cells, said),
            Table::Finds => files::finds(cells, said),
            Table::Caches => files::cache(cells, said),
            Table::Credentials => files::credential(cells, said),
        }
    }
}

/// How many rows of a table agree with what the calls answer, or the first that doesn't.
pub fn compared(alloc: Global, table: Table, text: &str) -> Option<String> {
    table_rows::compared(alloc, &table, table.file(), text)
}
