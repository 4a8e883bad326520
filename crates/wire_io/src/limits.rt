//! The limits of connections and of what comes over them.

/// The greatest moment, in milliseconds.
pub const LAST_MOMENT: u64 = (1 << 62) - 1;
/// The greatest position, in bytes: no byte is taken there.
pub const LAST_POSITION: u64 = 1 << 62;
/// The most bytes of a peer's host, as modified UTF.
pub const MAX_HOST_BYTES: u64 = 255;

/// The most seconds until the first byte of a connection over TCP comes.
pub const FIRST_BYTE_SECONDS: u64 = 60;
/// The most seconds until more bytes of a connection over TCP come, after the first ones.
pub const NEXT_BYTE_SECONDS: u64 = 7200;
/// The most seconds until a connection over TCP takes bytes that are written.
pub const WRITE_SECONDS: u64 = 60;
/// The most seconds until an address answers a dial over TCP.
pub const DIAL_SECONDS: u64 = 30;
/// The most seconds until bytes come for a read of a dialled connection, where its dialer says nothing else.
pub const REPLY_SECONDS: u64 = 60;
/// The most seconds that one wait for a connection takes.
pub const WAIT_SECONDS: u64 = 1;
/// The seconds after which a read of a link looks whether its listener was told to stop.
pub const LOOK_SECONDS: u64 = 5;
