//! Connections that are accepted or dialled.
ghost use Rattle.std.specs.Prelude.{◌≤◌, length};
ghost use Rattle.mod_utf.specs.Utf.{utf};
ghost use Rattle.wire_io.specs.declared.limits.TheConstants.{MAX_HOST_BYTES};

use sequence::Units;

/// A connection with a peer: its two halves, the clock of its turns, and the host and port of the end that made it: the peer's where it was
/// accepted, and its own where it was dialled. The host takes at most [`MAX_HOST_BYTES`](crate::limits::MAX_HOST_BYTES) bytes as modified UTF.
#[derive(Drop)]
pub struct Link<I, O, T> {
    /// The half that the peer's bytes are read from.
    pub source: I,
    /// The half that bytes to the peer are written to.
    pub sink: O,
    /// The clock that gives the moments of this connection's turns.
    pub clock: T,
    /// The host of the end that made the connection, as a text.
    pub host: Units,
    /// The port of the end that made the connection.
    pub port: i32,
    ghost short: { length (utf host) ≤ MAX_HOST_BYTES },
}
