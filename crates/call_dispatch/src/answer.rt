//! Writing an answer.
ghost use Rattle.std.specs.Prelude.{◌≡◌, ◌≤◌, ◌<◌, ◌+◌, ◌^◌, length, OnErr};
ghost use Rattle.wire_io.specs.Wire.{Rose};
ghost use Rattle.call_dispatch.specs.Progress.{Writes};

use crate::end::ConnEnd;
use wire_io::put::put_all;
use wire_io::sink::Sink;

/// Writes an answer after `sent` bytes of the connection. It answers how many were sent by then.
pub fn write_answer<K: Sink>(sink: &mut K, bytes: &[u8], sent: u64) -> Result<u64, ConnEnd>
    requires { sent + length bytes.now < 2 ^ 64 }
    ensures writes { Writes (K.half sink.old).held (K.half sink.new).held sent bytes.now result }
    ensures write_fault { OnErr result (Rose (K.half sink.old).faults (K.half sink.new).faults) }
    ensures sink_faults { (K.half sink.old).faults ≤ (K.half sink.new).faults }
    ensures sink_shut { (K.half sink.new).shut ≡ (K.half sink.old).shut }
{
    match put_all(sink, bytes) {
        Ok(()) => Ok(sent + bytes.len() as u64),
        Err(fault) => Err(ConnEnd::WriteFault {
            sent: sent + fault.sent as u64,
        }),
    }
}
