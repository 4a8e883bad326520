//! The host that the program runs on.

use conn_server::Report;
use wire_io::listener::Listener;
use wire_io::{Dialer, Halves};

/// Where the input, the moments and the connections come from, where the output and the lines on errors go, what identifiers are made from, and
/// what is left of the connections of `serve` and of those to servers. `H` is the hand that does a connection's calls.
#[derive(Drop)]
pub struct Host<I, O, E, T, L: Listener, D: Dialer, H> {
    /// The input, as standard input.
    pub input: I,
    /// The output, as standard output.
    pub output: O,
    /// Where the line goes that says how a run ended, as standard error.
    pub errors: E,
    /// The clock that gives the moments of turns, as the time of day.
    pub ticks: T,
    /// Where connections come from, as the network.
    pub listener: L,
    /// Makes connections to servers, as the network does.
    pub dialer: D,
    /// Four words by chance, from which identifiers are made that differ from those of other runs.
    pub seed: [u64; 4],
    /// A report of the links that the run served. It is `None` after another command, and where `serve` comes to no connections. A report
    /// that is here before is dropped.
    pub served: Option<Report<L::In, L::Out, L::Ticks, H>>,
    /// The halves of each connection that was made to a server, shut, in order. A run adds its own behind those that are here before.
    pub talked: Vec<Halves<D::In, D::Out>>,
}
