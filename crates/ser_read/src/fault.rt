//! Why a stream could not be read.
ghost use Rattle.std.specs.Prelude.{◌≡◌};
ghost use Rattle.ser_read.specs.declared.fault.StreamFault.TheVariants.{OutOfMemory};

use std::alloc::{AllocError, AllocFailed};
use wire_io::pull::PullEnd;

/// A way in which bytes break the grammar of streams (Java Object Serialization Specification, 6.4).
#[derive(Clone, Copy, Debug, PartialEq, Eq)]
pub enum StreamKind {
    /// The first byte that differs from `ACED0005`.
    BadMagic,
    /// A byte where a code is wanted that is none, or that is not admitted there.
    BadCode,
    /// `71` names a handle that was not given.
    BadHandle,
    /// `71` names a node of another kind than its place takes: a description, or a text.
    WrongHandleKind,
    /// A description breaks the rules of descriptions; or it is still being read where `71` names it; or the class of an
    /// object, an array or an enum constant is of another kind.
    BadDesc,
    /// The first byte of a text from which on no character is spelled in modified UTF.
    BadUtf,
    /// The first byte of a length or a count below 0, or of a count of fields above 32,767.
    NegativeLength,
    /// The first of the bytes that are left of a block where a reference or the end is wanted.
    BlockLeft,
    /// Block data is wanted where another code stands.
    MissingBlock,
    /// `79`, which would take all handles back.
    Reset,
    /// `7B`, which says that writing the stream failed.
    InnerException,
    /// The code of an object of an externalizable class that writes no block data.
    OldExternal,
}

/// A thing that there is too much of.
#[derive(Clone, Copy, Debug, PartialEq, Eq)]
pub enum Large {
    /// The message has as many bytes as it may have, and the input goes on.
    Bytes,
    /// There are 65,536 nodes, or there would be more than 2^20 parts: fields of descriptions, names of proxies' interfaces, parts of objects and
    /// their values, elements of arrays of references, and references among the items of annotations and of the stream. A reference that is one
    /// item too many is answered at its code, once it was read.
    Nodes,
    /// The construct would be 201 levels deep.
    Depth,
}

/// The reason why a stream could not be read. Positions are those of the `Pull` that is read from.
#[derive(Clone, Copy, Debug, PartialEq, Eq)]
pub enum StreamFault {
    /// The bytes are wrong at a position: that of a construct's code, except where the kind says another.
    Bad { kind: StreamKind, at: u64 },
    /// There is too much, of bytes at the first one that is not taken, of nodes and levels at the construct's code.
    TooLarge { what: Large, at: u64 },
    /// The input ends inside the stream, at this position.
    Truncated { at: u64 },
    /// The source failed, and its count of faults rose.
    ReadFault,
    /// There was no memory.
    OutOfMemory,
}

impl From<AllocError> for StreamFault {
    ghost from_gives = { λ _ fault. fault ≡ OutOfMemory };

    fn from(_error: AllocError) -> StreamFault {
        StreamFault::OutOfMemory
    }
}

impl<T: Drop> From<AllocFailed<T>> for StreamFault {
    ghost from_gives = { λ _ fault. fault ≡ OutOfMemory };

    fn from(_error: AllocFailed<T>) -> StreamFault {
        StreamFault::OutOfMemory
    }
}

/// Why a Pull gave no byte: the input ends, the message has as many bytes as it may have, the source failed, or there was no memory.
impl From<PullEnd> for StreamFault {
    ghost use Rattle.std.specs.Prelude.{◌≡◌};
    ghost use Rattle.ser_read.specs.Here.{fault_of};

    ghost from_gives = { λ end fault. fault ≡ fault_of end };

    fn from(end: PullEnd) -> StreamFault {
        match end {
            PullEnd::End { at } => StreamFault::Truncated { at },
            PullEnd::Limit { at } => StreamFault::TooLarge {
                what: Large::Bytes,
                at,
            },
            PullEnd::ReadFault => StreamFault::ReadFault,
            PullEnd::OutOfMemory => StreamFault::OutOfMemory,
        }
    }
}
