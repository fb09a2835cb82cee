//! What desks served together.

ghost use Rattle.std.specs.Prelude.{◌≡◌, ◌≤◌};
ghost use Rattle.std.specs.List.{AllByRecursion};
ghost use Rattle.server_desks.specs.Desks.{IsSmall, all_connections, all_records, run_limit};
ghost use Rattle.server_desks.specs.Desks.{greatest_count};

use crate::desk::Desk;

/// The greatest number of links that a desk may serve: at 10,000 a second it takes 446 years.
const GREATEST_COUNT: u128 = 140_737_488_355_328;

/// How many links each of so many desks may serve: as many as the run serves, `connections` for each desk, whichever desk they come to;
/// without a number as many as are counted at all.
pub fn run_limit(connections: Option<u32>, desks: usize) -> u64
    ensures value { result ≡ run_limit connections desks }
    ensures most { result ≤ greatest_count }
{
    match connections {
        None => GREATEST_COUNT as u64,
        Some(connections) => (connections as u128 * desks as u128).min(GREATEST_COUNT) as u64,
    }
}

/// How many connections the desks had.
pub fn count_connections<P, C, D, K, S, W>(desks: &[Desk<P, C, D, K, S, W>]) -> u128
    requires { AllByRecursion IsSmall desks.now }
    ensures { result ≡ all_connections desks.now }
{
    let mut connections = 0u128;
    for desk in desks {
        connections += desk.connections as u128;
    }
    connections
}

/// How many records the desks had.
pub fn count_records<P, C, D, K, S, W>(desks: &[Desk<P, C, D, K, S, W>]) -> u128
    requires { AllByRecursion IsSmall desks.now }
    ensures { result ≡ all_records desks.now }
{
    let mut records = 0u128;
    for desk in desks {
        records += desk.records;
    }
    records
}
