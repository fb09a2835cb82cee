//! The state of the program.

ghost use Rattle.std.specs.Prelude.{◌≡◌};
ghost use Rattle.posts_program.specs.Posts.{posts_after};

use crate::numbers::{MOST_POSTS, POST};
use rpc_program::{Caller, Fault, Program};

/// How many posts there were.
#[derive(Drop)]
pub struct Posts {
    pub posts: u64,
}

impl Posts {
    /// No post yet.
    pub fn new() -> Posts
        ensures { result.posts ≡ 0 }
    {
        Posts { posts: 0 }
    }
}

impl Program for Posts {
    ghost use Rattle.std.specs.Prelude.{◌≡◌, Ok};
    ghost use Rattle.posts_program.specs.Posts.{posts_says, posts_after};

    type Ticket = u64;

    ghost says = { posts_says };

    ghost enters = { λ old _ procedure _ entered new. (entered ≡ Ok new.posts)
        × (new.posts ≡ posts_after old.posts procedure) };

    fn enter(&mut self, caller: &Caller<'_>, procedure: u32, args: &[u8]) -> Result<u64, Fault> {
        self.posts = after(self.posts, procedure);
        Ok(self.posts)
    }
}

/// How many posts there are after a call.
fn after(posts: u64, procedure: u32) -> u64
    ensures { result ≡ posts_after posts procedure }
{
    if procedure == POST && posts < MOST_POSTS {
        return posts + 1;
    }
    posts
}
