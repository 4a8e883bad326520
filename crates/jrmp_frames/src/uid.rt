//! Identifiers on the wire.
ghost use Rattle.std.specs.Prelude.{◌≡◌};
ghost use Rattle.wire_io.specs.Pulled.{pull_state};
ghost use Rattle.jrmp_frames.specs.Frames.{dgc_ack};
ghost use Rattle.jrmp_frames.specs.Gives.{GivesUid};

use crate::fault::FrameFault;
use object_ids::{Uid, uid_bytes, uid_of};
use wire_io::pull::Pull;
use wire_io::source::Source;

/// Reads an identifier, as it stands in an acknowledgement of the collector: 14 bytes, whatever they are. It takes no memory.
pub fn read_uid<S: Source>(pull: &mut Pull<'_, S>) -> Result<Uid, FrameFault>
    ensures gives { GivesUid (pull_state S.half pull.old) (pull_state S.half pull.new) result }
    ensures lent { pull.new.source.ghost_name ≡ pull.old.source.ghost_name }
{
    let mut bytes = [0; 14];
    for i in 0..14 {
        let byte = pull.byte()?;
        bytes[i] = byte;
    }
    Ok(uid_of(bytes))
}

/// The acknowledgement of a Return (Java RMI Specification, 10.2): the code `54` and the Return's identifier. It takes no memory.
pub fn dgc_ack_bytes(uid: Uid) -> [u8; 15]
    ensures { result ≡ dgc_ack uid }
{
    let mut bytes = [0x54; 15];
    bytes[1..].copy_from_slice(&uid_bytes(uid));
    bytes
}
