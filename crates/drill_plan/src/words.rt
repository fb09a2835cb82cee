//! The words of a drill.

ghost use Rattle.std.specs.Prelude.{◌≡◌, ◌≤◌, IfSome, Some, option_map};
ghost use Rattle.drill_plan.specs.Sessions.{session_count};
ghost use Rattle.drill_plan.specs.Words.{is_drill, plan_by, plan_of};

use crate::numbers::seed_in;
use cli_base::{number_in, plain};
use sec_base::Text;

/// The most calls of a drill.
const MOST_CALLS: u32 = 100_000;

/// The most calls of a session.
pub const SESSION_CALLS: u32 = 1_000;

/// What the words of a drill ask for.
#[derive(Clone, Copy)]
pub struct Plan {
    pub seed: u64,
    /// How many calls are made, from 1 to 100,000.
    pub calls: u32,
}

/// Whether the words ask for a drill, well or not: the first is `drill`.
pub fn is_drill(words: &[Text]) -> bool
    ensures { result ≡ is_drill words.now }
{
    match words {
        [first, ..] => first.as_str() == "drill",
        [] => false,
    }
}

/// The drill of these two words.
fn plan_by(seed: &str, calls: &str) -> Option<Plan>
    ensures value { result ≡ plan_by (Some seed.now) (Some calls.now) }
    ensures some { IfSome result (λ plan. 1 ≤ plan.calls) }
    ensures most { IfSome result (λ plan. plan.calls ≤ 100000) }
{
    match seed_in(seed) {
        Some(number) => match number_in(calls, 1, MOST_CALLS) {
            Some(count) => Some(Plan {
                seed: number,
                calls: count,
            }),
            None => None,
        },
        None => None,
    }
}

/// The drill that the words ask for: `drill SEED CALLS`.
pub fn read_plan(words: &[Text]) -> Option<Plan>
    ensures value { result ≡ plan_of words.now }
    ensures some { IfSome result (λ plan. 1 ≤ plan.calls) }
    ensures most { IfSome result (λ plan. plan.calls ≤ 100000) }
{
    if !is_drill(words) || words.len() != 3 {
        return None;
    }
    match plain(words, 1) {
        Some(seed) => match plain(words, 2) {
            Some(calls) => plan_by(seed, calls),
            None => None,
        },
        None => None,
    }
}

/// How many sessions make so many calls.
pub fn session_count(calls: u32) -> u32
    requires { calls ≤ 100000 }
    ensures { result ≡ session_count calls }
{
    (calls + (SESSION_CALLS - 1)) / SESSION_CALLS
}

/// How many sessions the drill has that the words ask for; None exactly where they ask for none.
pub fn drill_sessions(words: &[Text]) -> Option<u32>
    ensures { result ≡ option_map (λ plan. session_count plan.calls) (plan_of words.now) }
{
    match read_plan(words) {
        Some(plan) => Some(session_count(plan.calls)),
        None => None,
    }
}
