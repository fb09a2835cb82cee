//! The procedures of the program of posts, and how their results are spelled.

ghost use Rattle.std.specs.Prelude.{◌≡◌};
ghost use Rattle.std.specs.Str.{is_utf8};

use gss_client::Query;
use posts_program::numbers::{COUNT, ECHO, MOST_POSTED, POST, WHOAMI};
use rpc_msgs::numbers::NULL;
use rpc_msgs::opaque_alone;
use std::str::from_utf8;

/// A procedure of the program of posts.
///
/// | Number | Procedure | Argument | Result |
/// |---|---|---|---|
/// | 0 | nothing is done | none | none |
/// | 1 | an echo | octets, at most 65,536 | the same octets |
/// | 2 | the initiator's name | none | a text of at most 1,024 octets |
/// | 3 | a post | octets, at most 65,536 | how many posts there were, in a word |
/// | 4 | the count of posts | none | how many there were, in a word |
#[derive(Clone, Copy)]
pub enum Procedure {
    Null,
    Echo,
    Whoami,
    Post,
    Count,
}

impl Query for Procedure {
    ghost use Rattle.posts_client.specs.Procedure.{query_of};

    ghost says = { query_of };

    fn number(&self) -> u32 {
        match self {
            Procedure::Null => NULL,
            Procedure::Echo => ECHO,
            Procedure::Whoami => WHOAMI,
            Procedure::Post => POST,
            Procedure::Count => COUNT,
        }
    }

    #[tactic(auto, unfolding(crate::specs::Procedure::is_result))]
    fn is_result(&self, octets: &[u8]) -> bool {
        match self {
            Procedure::Null => octets.is_empty(),
            Procedure::Echo => opaque_alone(MOST_POSTED, octets).is_ok(),
            Procedure::Whoami => match opaque_alone(1_024, octets) {
                Ok(name) => is_text(name),
                Err(_) => false,
            },
            Procedure::Post => octets.len() == 4,
            Procedure::Count => octets.len() == 4,
        }
    }
}

/// Whether octets are UTF-8.
fn is_text(octets: &[u8]) -> bool
    ensures { result ≡ is_utf8 octets.now }
{
    match from_utf8(octets) {
        Ok(_) => true,
        Err(_) => false,
    }
}
