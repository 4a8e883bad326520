//! Why a part of the protocol could not be read.
ghost use Rattle.std.specs.Prelude.{◌≡◌};

use ser_read::StreamFault;
use wire_io::pull::PullEnd;

/// The reason why a part of the protocol could not be read. Positions count bytes from 0 at the connection's first byte.
#[derive(Clone, Copy, Debug, PartialEq, Eq)]
pub enum FrameFault {
    /// The byte at this position is the first that differs from the header's.
    BadHeader { at: u64 },
    /// The header is followed by the byte of no protocol that is served.
    UnknownProtocol { byte: u8 },
    /// The byte at this position begins no message.
    BadMessage { byte: u8, at: u64 },
    /// The byte at this position stands in the place of a return's kind, and is neither `01` nor `02`.
    BadKind { byte: u8, at: u64 },
    /// A stream could not be read, or no byte came where one was wanted.
    Stream(StreamFault),
}

impl From<StreamFault> for FrameFault {
    ghost use Rattle.jrmp_frames.specs.declared.fault.FrameFault.TheVariants.{Stream};

    ghost from_gives = { λ inside fault. fault ≡ Stream inside };

    fn from(fault: StreamFault) -> FrameFault {
        FrameFault::Stream(fault)
    }
}

impl From<PullEnd> for FrameFault {
    ghost use Rattle.ser_read.specs.Here.{fault_of};
    ghost use Rattle.jrmp_frames.specs.declared.fault.FrameFault.TheVariants.{Stream};

    ghost from_gives = { λ end fault. fault ≡ Stream (fault_of end) };

    fn from(end: PullEnd) -> FrameFault {
        FrameFault::Stream(end.into())
    }
}
