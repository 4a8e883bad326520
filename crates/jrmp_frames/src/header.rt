//! The header of a connection.
ghost use Rattle.std.specs.Prelude.{◌≡◌};
ghost use Rattle.wire_io.specs.Pulled.{pull_state};
ghost use Rattle.jrmp_frames.specs.Frames.{header};
ghost use Rattle.jrmp_frames.specs.Gives.{GivesHeader};

use crate::fault::FrameFault;
use wire_io::pull::Pull;
use wire_io::source::Source;

/// The way in which a client wants to speak (Java RMI Specification, 10.2).
#[derive(Clone, Copy, Debug, PartialEq, Eq)]
pub enum Protocol {
    /// `4B`: messages one after the other, once both sides have said who they are.
    Stream,
    /// `4C`: one message.
    SingleOp,
}

/// The bytes with which every header begins: `JRMI` and the version, which is 2.
const START: [u8; 6] = [0x4A, 0x52, 0x4D, 0x49, 0, 2];

/// Reads the header, which ends with the protocol that the client wants.
///
/// `BadHeader` comes exactly at the first byte that differs from `JRMI` and version 2, `UnknownProtocol` exactly where
/// the seventh byte is neither `4B` nor `4C`.
pub fn read_header<S: Source>(pull: &mut Pull<'_, S>) -> Result<Protocol, FrameFault>
    ensures gives { GivesHeader (pull_state S.half pull.old) (pull_state S.half pull.new) result }
    ensures lent { pull.new.source.ghost_name ≡ pull.old.source.ghost_name }
{
    for wanted in START {
        let at = pull.at;
        if pull.byte()? != wanted {
            return Err(FrameFault::BadHeader { at });
        }
    }
    match pull.byte()? {
        0x4B => Ok(Protocol::Stream),
        0x4C => Ok(Protocol::SingleOp),
        byte => Err(FrameFault::UnknownProtocol { byte }),
    }
}

/// The bytes with which a client begins a connection: `JRMI`, the version, which is 2, and the byte of the protocol that it wants.
/// It takes no memory.
pub fn header_bytes(protocol: Protocol) -> [u8; 7]
    ensures { result ≡ header protocol }
{
    match protocol {
        Protocol::Stream => [0x4A, 0x52, 0x4D, 0x49, 0, 2, 0x4B],
        Protocol::SingleOp => [0x4A, 0x52, 0x4D, 0x49, 0, 2, 0x4C],
    }
}
