//! The head of a call.
ghost use Rattle.std.specs.Prelude.{◌≡◌, length, IfOk, IfErr, None};
ghost use Rattle.std.specs.Int.{w32, w64};
ghost use Rattle.wire_io.specs.Pulled.{pull_state};
ghost use Rattle.object_ids.specs.Bytes.{signed_bytes};
ghost use Rattle.ser_read.specs.Wants.{WantStopsTaken, WantReadsTaken};
ghost use Rattle.jrmp_frames.specs.Messages.{head_bytes};
ghost use Rattle.jrmp_frames.specs.Calls.{head_at, ReadsHead, HasHead, BreaksIn, CausedIn, GivesIn};

use crate::fault::FrameFault;
use object_ids::{ObjId, objid_bytes, objid_of};
use ser_read::{Reader, StreamFault};
use std::alloc::Global;
use wire_io::pull::Pull;
use wire_io::source::Source;

/// The number of bytes of a call's head.
pub const HEAD_BYTES: usize = 34;

/// The head of a call: whose method is called, and which one (Java RMI Specification, 10.2).
#[derive(Clone, Copy, Debug, PartialEq, Eq)]
pub struct CallHead {
    /// The object that is called.
    pub id: ObjId,
    /// The number of the operation; -1 where the hash names the method.
    pub operation: i32,
    /// The method's hash; with the number of an operation, the hash of the interface.
    pub hash: i64,
}

impl CallHead {
    /// The bytes of a head: the object's identifier in bytes 0 to 21, the operation in bytes 22 to 25, the hash in bytes 26 to 33.
    #[tactic(auto, unfolding(crate::specs::Messages::head_bytes))]
    pub fn to_bytes(self) -> [u8; 34]
        ensures { result ≡ head_bytes self }
    {
        let mut bytes = [0; 34];
        bytes[..22].copy_from_slice(&objid_bytes(self.id));
        bytes[22..26].copy_from_slice(&self.operation.to_be_bytes());
        bytes[26..].copy_from_slice(&self.hash.to_be_bytes());
        bytes
    }

    /// The head that 34 bytes spell. Any bytes spell one.
    fn from_bytes(bytes: &[u8]) -> CallHead
        requires { length bytes.now ≡ 34 }
        ensures { head_bytes result ≡ bytes.now }
    {
        let mut id = [0; 22];
        id.copy_from_slice(&bytes[..22]);
        CallHead {
            id: objid_of(id),
            operation: i32_of(&bytes[22..26]),
            hash: i64_of(&bytes[26..]),
        }
    }
}

/// The number that four bytes spell.
fn i32_of(bytes: &[u8]) -> i32
    requires { length bytes.now ≡ 4 }
    ensures { signed_bytes w32 result ≡ bytes.now }
{
    i32::from_be_bytes([bytes[0], bytes[1], bytes[2], bytes[3]])
}

/// The number that eight bytes spell.
fn i64_of(bytes: &[u8]) -> i64
    requires { length bytes.now ≡ 8 }
    ensures { signed_bytes w64 result ≡ bytes.now }
{
    i64::from_be_bytes([
        bytes[0], bytes[1], bytes[2], bytes[3], bytes[4], bytes[5], bytes[6], bytes[7],
    ])
}

/// Reads the stream's magic number and version, and then the bytes of a head into `bytes`.
#[tactic(auto, unfolding(crate::specs::Calls::head_at))]
fn read_start<S: Source>(
    alloc: Global,
    pull: &mut Pull<'_, S>,
    bytes: &mut [u8],
) -> Result<Reader, StreamFault>
    requires { length bytes.old ≡ 34 }
    ensures lent { pull.new.source.ghost_name ≡ pull.old.source.ghost_name }
    ensures kept { IfOk result (λ reader. reader.refused ≡ None) }
    ensures reads { WantReadsTaken S.half pull.old pull.new result head_at
        (λ reader rest. (bytes.new, reader.stand, rest)) }
    ensures stops { WantStopsTaken S.half pull.old pull.new result head_at }
{
    let mut reader = Reader::start(alloc, pull)?;
    reader.bytes_into(alloc, pull, bytes)?;
    Ok(reader)
}

/// Reads the head of a call, which follows the code `50`, and answers with it the reader that stands behind it.
///
/// Each fault comes as at [`Reader::start`] and [`Reader::bytes_into`].
pub fn read_head<S: Source>(
    alloc: Global,
    pull: &mut Pull<'_, S>,
) -> Result<(CallHead, Reader), FrameFault>
    ensures reads { IfOk result
        (λ x. ReadsHead (pull_state S.half pull.old) (pull_state S.half pull.new) x.0 x.1.stand) }
    ensures ready { IfOk result (λ x. HasHead x.1) }
    ensures stops { IfErr result (λ fault.
        BreaksIn (pull_state S.half pull.old) (pull_state S.half pull.new) fault head_at) }
    ensures gives { GivesIn S.half pull.old pull.new result head_at
        (λ x rest. (head_bytes x.0, x.1.stand, rest)) }
    ensures cause { CausedIn (S.half pull.old.source.now).faults (S.half pull.new.source.now).faults
        result }
    ensures lent { pull.new.source.ghost_name ≡ pull.old.source.ghost_name }
{
    let mut bytes = [0; HEAD_BYTES];
    match read_start(alloc, pull, &mut bytes) {
        Ok(reader) => Ok((CallHead::from_bytes(&bytes), reader)),
        Err(fault) => Err(FrameFault::Stream(fault)),
    }
}
