//! The end of a connection.
ghost use Rattle.std.specs.Prelude.{◌≡◌};
ghost use Rattle.call_dispatch.specs.Progress.{end_from};

use jrmp_frames::fault::FrameFault;
use object_ids::ObjId;
use ser_read::{Large, StreamFault, StreamKind};
use std::alloc::AllocError;

/// The end of a connection. Positions count bytes from 0 at the connection's first byte.
#[derive(Clone, Copy, Debug, PartialEq, Eq)]
pub enum ConnEnd {
    /// The input ended where a message could begin, or the one message of single-op was served.
    Ended,
    /// The byte at this position is the first that differs from the header's.
    BadHeader { at: u64 },
    /// The header is followed by the byte of no protocol that is served, and the client was told so.
    UnknownProtocol { byte: u8 },
    /// The byte at this position, where a message's code is wanted, is none.
    BadMessage { byte: u8, at: u64 },
    /// The stream of a Call is none. The position is that of the construct's code, except where the kind says another.
    BadStream { kind: StreamKind, at: u64 },
    /// There is too much in a message: of bytes at the first one past its limit, of nodes and levels at the construct's code.
    TooLarge { what: Large, at: u64 },
    /// The input ended inside the opening or a message. The position is the input's length.
    Truncated { at: u64 },
    /// A Call named an object that is not exported, and the client was told so.
    NoSuchObject { id: ObjId },
    /// A Call named a method that its object's kind doesn't have, and the client was told so.
    NoSuchMethod { operation: i32, hash: i64 },
    /// There was no room for the call in the space's history, and the client was told so.
    SpaceFull,
    /// So many messages as one connection may have were served, and a further one began.
    MessageLimit,
    /// The source failed, and its count of faults rose.
    ReadFault,
    /// The sink failed after so many bytes of the connection, and its count of faults rose.
    WriteFault { sent: u64 },
    /// There was no memory, or a Call came behind more than 2^60 bytes that were taken or sent.
    OutOfMemory,
}

impl From<AllocError> for ConnEnd {
    ghost use Rattle.call_dispatch.specs.declared.end.ConnEnd.TheVariants.{OutOfMemory};

    ghost from_gives = { λ _ end. end ≡ OutOfMemory };

    fn from(_error: AllocError) -> ConnEnd {
        ConnEnd::OutOfMemory
    }
}

/// Returns the end that a fault in reading makes. A bad kind, which only a client reads, ends as a bad message.
pub fn end_of(fault: FrameFault) -> ConnEnd
    ensures { result ≡ end_from fault }
{
    match fault {
        FrameFault::BadHeader { at } => ConnEnd::BadHeader { at },
        FrameFault::UnknownProtocol { byte } => ConnEnd::UnknownProtocol { byte },
        FrameFault::BadMessage { byte, at } => ConnEnd::BadMessage { byte, at },
        FrameFault::BadKind { byte, at } => ConnEnd::BadMessage { byte, at },
        FrameFault::Stream(inside) => match inside {
            StreamFault::Bad { kind, at } => ConnEnd::BadStream { kind, at },
            StreamFault::TooLarge { what, at } => ConnEnd::TooLarge { what, at },
            StreamFault::Truncated { at } => ConnEnd::Truncated { at },
            StreamFault::ReadFault => ConnEnd::ReadFault,
            StreamFault::OutOfMemory => ConnEnd::OutOfMemory,
        },
    }
}
