//! What serves a client over streams that it opens itself.

ghost use Rattle.std.specs.Prelude.{◌≡◌, ℕ, Bool, false};
ghost use Rattle.std.specs.Option.{is_some};
ghost use Rattle.history.specs.Tokens.{TokenRecord};
ghost use Rattle.stream_sessions.specs.OneRequest.{AreAlike};

use crate::acknowledges::{Acknowledges, Evidence};
use crate::told_with::ToldWith;
use row_store::Follower;
use ssb_clients::{Client, Server};
use std::alloc::Global;

/// What serves a client, and what it promises of that.
pub trait Speaker {
    /// What it leaves, as how many requests were answered, or why a stream failed.
    type Left;

    /// What it promises: of the client before and after, and of what it leaves.
    ghost spoken: { Self → TokenRecord → TokenRecord → Self.Left → Type 0 };

    /// Of how many commits it told its client.
    ghost told: { Self.Left → ℕ };

    /// Whether each of its sessions took refreshes.
    ghost took: { Self.Left → Bool };

    /// Of how many commits it told its client.
    fn commits_told(left: &Self::Left) -> u64
        ensures { result ≡ told left.now };

    /// Whether each of its sessions took refreshes.
    fn took_refreshes(left: &Self::Left) -> bool
        ensures { result ≡ took left.now };
}

/// Serves a client in the thread that is started for it: it opens the client's streams, serves one session over them or
/// several, by [`serve_session`](crate::serve_session) with this acknowledger, and gives the client back, which asks
/// nothing then. It tells its client of commits with this evidence, and hands back the evidence of as many as it told of:
/// a wire of another evidence leaves none.
pub trait Speaks<R, E: Evidence>: Speaker {
    fn speak<W: Follower + Drop, K: Acknowledges<E>>(
        self,
        rt: &R,
        alloc: Global,
        acknowledger: &K,
        server: &Server<W>,
        client: &mut Client<W>,
    ) -> (Self::Left, ToldWith<E>)
        requires table { client.old.table ≡ server.now }
        requires quiet { is_some client.old.asked ≡ false }
        ensures same { AreAlike client.old client.new }
        ensures spoken { Self.spoken self client.old client.new result.0 }
        ensures told { result.1 ≡ Self.told result.0 };
}
