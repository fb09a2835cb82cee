//! The headline, of the server that serves the program of posts.

ghost use Rattle.told_apart.specs.Apart.{IsApart};
ghost use Rattle.server_laws.specs.Apart.{SpellsApart};
ghost use Rattle.server_laws.specs.ServerHeadline.{HeadlineOfRuns};

use crate::headline::prove_server_headline;
use gss_server::{Keeper, Kept, Served};
use posts_program::{Posts, PostsWords};
use rpc_program::{Program, Spelled, Speller};
use sec_base::{Clock, Draw, Port, Shelf};

/// Does nothing; its contract holds that the program of posts, which `gssrpcd` serves, is one that the server's headline speaks of: its arguments and
/// its results can't be taken for something else that is signed. So the headline holds of each log that a run with this program returns.
pub fn prove_posts_headline<
    F: Shelf,
    P: Port,
    C: Clock,
    D: Draw,
    K: Keeper<Kept>,
    S: Keeper<Served<P::Link>>,
>()
    ensures arguments { IsApart ⟦<Spelled<PostsWords> as Speller<u64>>⟧.says }
    ensures results { SpellsApart ⟦<Posts as Program>⟧.says
        ⟦<Spelled<PostsWords> as Speller<u64>>⟧ }
    ensures headline { HeadlineOfRuns F.Shelf ⟦<Posts as Program>⟧
        ⟦<Spelled<PostsWords> as Speller<u64>>⟧ P.Port P.Link.Link C.Clock D.Draw K.Keeper
        S.Keeper }
{
    prove_server_headline::<F, Posts, u64, Spelled<PostsWords>, P, C, D, K, S>();
}
