//! The parts that serve a connection.
use system_objects::{Book, Setup};
use wire_io::Pull;

/// The parts that serve a connection. All of them are lent, and the record owns no memory.
#[derive(Drop)]
pub struct Connection<'s, 'k, 'c, 'p, 'w, 'u, 'b, S, K, C, P, W> {
    /// Where the client's bytes come from.
    pub pull: Pull<'s, S>,
    /// Where the answers go.
    pub sink: &'k mut K,
    /// The clock that gives the moments of turns.
    pub clock: &'c mut C,
    /// Where turns are made.
    pub port: &'p mut P,
    /// Who does what calls ask for.
    pub worker: &'w mut W,
    /// The kinds of objects that can be called.
    pub book: &'b Book,
    /// The connection's settings, and the number of identifiers that were drawn.
    pub setup: &'u mut Setup,
}
