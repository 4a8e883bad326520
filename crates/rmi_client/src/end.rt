//! Why a client has no answer.
ghost use Rattle.std.specs.Prelude.{◌≡◌};
ghost use Rattle.rmi_client.specs.Ends.{end_of, is_end};

use sequence::Units;
use ser_read::{Large, StreamFault, StreamKind};
use std::alloc::AllocError;

/// Why bytes are no reply of the kind that is read.
#[derive(Clone, Copy, Debug, PartialEq, Eq)]
pub enum ReplyKind {
    /// The first byte is none that begins the reply: `4E` or `4F` for an acknowledgement of the stream protocol, `53` for that of a Ping, `51`
    /// for a Return.
    NotReturn,
    /// The byte of a Return's kind is neither `01` nor `02`.
    BadReturnKind,
    /// The stream of a Return is none.
    Stream(StreamKind),
    /// The Return is an exception that has no part of class `java.lang.Throwable`.
    WrongShape,
}

/// Why a client has no answer. Positions count the bytes that the server sent, from 0.
#[derive(Debug)]
pub enum ClientEnd {
    /// The server does not speak the stream protocol: it answered `4F` to the header.
    Nack,
    /// The bytes are no reply. The position is that of the first byte for `NotReturn`, of the kind for `BadReturnKind`, and the one behind
    /// the Return for `WrongShape`; for `Stream` it is as at [`StreamFault`].
    BadReply {
        /// Why they are none.
        kind: ReplyKind,
        /// Where.
        at: u64,
    },
    /// There is too much in a reply: of bytes at the first one past its limit of 16,777,216, of nodes and levels at the construct's code.
    TooLarge {
        /// The quantity that is too great: bytes, nodes or levels.
        what: Large,
        /// Where.
        at: u64,
    },
    /// The input ends where a reply is wanted, or inside one.
    Truncated {
        /// The number of bytes that there were.
        at: u64,
    },
    /// The server answered an exception: the name of its class, and, where it has a message, a colon, a space and that.
    RemoteFault(Units),
    /// The source failed, and its count of faults rose.
    ReadFault,
    /// The sink failed, and its count of faults rose.
    WriteFault {
        /// The number of the call's bytes that the sink took: the first ones, and not all.
        sent: u64,
    },
    /// An earlier call of the session ended otherwise than with an answer or an exception. Nothing was sent or read.
    Over,
    /// There was no memory.
    OutOfMemory,
}

// Written out, so that whoever owns one has one call at each exit, and not the drop of each variant.
impl Drop for ClientEnd {
    fn drop(self) {
        match self {
            ClientEnd::RemoteFault(text) => drop(text),
            ClientEnd::Nack => {}
            ClientEnd::BadReply { kind: _, at: _ } => {}
            ClientEnd::TooLarge { what: _, at: _ } => {}
            ClientEnd::Truncated { at: _ } => {}
            ClientEnd::ReadFault => {}
            ClientEnd::WriteFault { sent: _ } => {}
            ClientEnd::Over => {}
            ClientEnd::OutOfMemory => {}
        }
    }
}

impl From<AllocError> for ClientEnd {
    ghost use Rattle.rmi_client.specs.declared.end.ClientEnd.TheVariants.{OutOfMemory};

    ghost from_gives = { λ _ end. end ≡ OutOfMemory };

    fn from(_refused: AllocError) -> ClientEnd {
        ClientEnd::OutOfMemory
    }
}

/// Returns the end for a fault in reading a stream, or a byte in front of one.
pub(crate) fn end_of(fault: StreamFault) -> ClientEnd
    ensures { result ≡ end_of fault }
{
    match fault {
        StreamFault::Bad { kind, at } => ClientEnd::BadReply {
            kind: ReplyKind::Stream(kind),
            at,
        },
        StreamFault::TooLarge { what, at } => ClientEnd::TooLarge { what, at },
        StreamFault::Truncated { at } => ClientEnd::Truncated { at },
        StreamFault::ReadFault => ClientEnd::ReadFault,
        StreamFault::OutOfMemory => ClientEnd::OutOfMemory,
    }
}

/// Returns the end where the byte at this position begins no reply.
pub(crate) fn not_return(at: u64) -> ClientEnd
    ensures { result ≡ ClientEnd.BadReply ReplyKind.NotReturn at }
{
    ClientEnd::BadReply {
        kind: ReplyKind::NotReturn,
        at,
    }
}

/// Returns whether a session is over after this.
pub(crate) fn is_end<T>(answered: &Result<T, ClientEnd>) -> bool
    ensures { result ≡ is_end answered.now }
{
    match answered {
        Ok(_) => false,
        Err(end) => match end {
            ClientEnd::RemoteFault(_) => false,
            _ => true,
        },
    }
}
