//! Reading a reply from a source. A reply has at most 16,777,216 bytes.
ghost use Rattle.std.specs.Prelude.{◌≤◌};
ghost use Rattle.wire_io.specs.declared.limits.TheConstants.{LAST_POSITION};
ghost use Rattle.ser_values.specs.declared.limits.TheConstants.{MESSAGE_BYTES};
ghost use Rattle.rmi_client.specs.Replies.{HearsAck, HearsPing, HearsAnswer, reading};

use crate::end::ClientEnd;
use crate::reply::{Answer, read_ack, read_answer, read_ping_ack};
use class_desc::TypeCode;
use ser_values::limits::MESSAGE_BYTES;
use std::alloc::Global;
use wire_io::{LAST_POSITION, Pull, Source};

const _: () = prove!(MESSAGE_BYTES == 16_777_216);

/// Reads the server's answer to a connection's header, and sets the position behind what was taken (Java RMI Specification, 10.3,
/// ProtocolAck and ProtocolNotSupported). It takes `4E`, and the client's host and port as the server sees them.
///
/// `Nack` comes exactly at the answer `4F`, `BadReply` with `NotReturn` at any other first byte, and `Truncated` where the input ends before
/// or inside the acknowledgement.
pub fn hear_ack<S: Source>(source: &mut S, at: &mut u64) -> Result<(), ClientEnd>
    requires { at.old ≤ LAST_POSITION }
    ensures within { at.new ≤ LAST_POSITION }
    ensures hears { HearsAck (reading (S.half source.old) at.old at.old)
        (reading (S.half source.new) at.old at.new) result }
{
    let mut pull = Pull::resume(source, *at);
    pull.mark(MESSAGE_BYTES);
    let result = read_ack(&mut pull);
    *at = pull.at();
    result
}

/// Reads the server's answer to a Ping (Java RMI Specification, 10.3, PingAck) from this position on, and sets the position behind what was
/// taken: `53`.
///
/// `BadReply` with `NotReturn` comes at any other byte, and `Truncated` where the input ends before it.
pub fn hear_ping<S: Source>(source: &mut S, at: &mut u64) -> Result<(), ClientEnd>
    requires { at.old ≤ LAST_POSITION }
    ensures within { at.new ≤ LAST_POSITION }
    ensures hears { HearsPing (reading (S.half source.old) at.old at.old)
        (reading (S.half source.new) at.old at.new) result }
{
    let mut pull = Pull::resume(source, *at);
    pull.mark(MESSAGE_BYTES);
    let result = read_ping_ack(&mut pull);
    *at = pull.at();
    result
}

/// Reads the Return of a call, and sets the position behind what was taken (Java RMI Specification, 10.3, ReturnData). The method's
/// result has this type, or the method has none.
///
/// `RemoteFault` comes exactly where the Return is an exception with a part of class `java.lang.Throwable`; any other exception is
/// `BadReply` with `WrongShape`.
pub fn hear_answer<S: Source>(
    alloc: Global,
    source: &mut S,
    at: &mut u64,
    want: Option<TypeCode>,
) -> Result<Answer, ClientEnd>
    requires { at.old ≤ LAST_POSITION }
    ensures within { at.new ≤ LAST_POSITION }
    ensures hears { HearsAnswer (reading (S.half source.old) at.old at.old)
        (reading (S.half source.new) at.old at.new) want result }
{
    let mut pull = Pull::resume(source, *at);
    pull.mark(MESSAGE_BYTES);
    let result = read_answer(alloc, &mut pull, want);
    *at = pull.at();
    result
}
