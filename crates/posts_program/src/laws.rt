//! What the program of posts takes and answers is told apart from a call's header and from a list of mechanisms.

ghost use Rattle.std.specs.Prelude.{◌≡◌, ℕ, List, true};
ghost use Rattle.posts_program.specs.Posts.{are_args, posts_says, result_of};
ghost use Rattle.told_apart.specs.Apart.{IsApart, NoList};

use told_apart::prove_told_apart;

/// Does nothing; its contract holds what agreement and origin ask of a program: that its arguments aren't taken for a header or a list of
/// mechanisms, which are signed by the same key, nor the result of each call with such arguments for a list.
pub fn prove_apart()
    ensures arguments { IsApart posts_says }
    ensures results { (procedure : ℕ) (args name : List ℕ) (posts : ℕ)
        → are_args procedure args ≡ true → NoList (result_of procedure args name posts) }
{
    prove_told_apart();
}
