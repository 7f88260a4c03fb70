//! What serves a client.

use row_store::Follower;
use ssb_clients::Server;
use std::alloc::Global;

/// What serves a client, whatever it asks and by which streams: a server, who gives the evidence of commits, what
/// waits, and memory.
#[derive(Drop)]
pub struct Service<'a, W: Follower + Drop, R, K> {
    pub rt: &'a R,
    pub alloc: Global,
    pub acknowledger: &'a K,
    pub server: &'a Server<W>,
}
