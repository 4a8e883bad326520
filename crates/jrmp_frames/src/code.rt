//! The code that a message begins with.
ghost use Rattle.std.specs.Prelude.{◌≡◌};
ghost use Rattle.wire_io.specs.Pulled.{pull_state};
ghost use Rattle.jrmp_frames.specs.Gives.{GivesCode};

use crate::fault::FrameFault;
use wire_io::pull::{Pull, PullEnd};
use wire_io::source::Source;

/// The kind of a client's message (Java RMI Specification, 10.2).
#[derive(Clone, Copy, Debug, PartialEq, Eq)]
pub enum Code {
    /// `50`: a call of a method.
    Call,
    /// `52`: a question whether the server is there.
    Ping,
    /// `54`: the client has received the references in a result.
    DgcAck,
}

/// Reads the code of the next message.
///
/// None comes exactly at the end of input, `BadMessage` exactly at another byte than `50`, `52` and `54`.
pub fn read_code<S: Source>(pull: &mut Pull<'_, S>) -> Result<Option<Code>, FrameFault>
    ensures gives { GivesCode (pull_state S.half pull.old) (pull_state S.half pull.new) result }
    ensures lent { pull.new.source.ghost_name ≡ pull.old.source.ghost_name }
{
    let at = pull.at;
    match pull.byte() {
        Ok(0x50) => Ok(Some(Code::Call)),
        Ok(0x52) => Ok(Some(Code::Ping)),
        Ok(0x54) => Ok(Some(Code::DgcAck)),
        Ok(byte) => Err(FrameFault::BadMessage { byte, at }),
        Err(end) => match end {
            PullEnd::End { at: _ } => Ok(None),
            _ => Err(end.into()),
        },
    }
}
