//! The opening of a connection.
ghost use Rattle.std.specs.Prelude.{◌≡◌, ◌≤◌, length, Err, IfOk};
ghost use Rattle.wire_io.specs.Wire.{Rose};
ghost use Rattle.wire_io.specs.declared.limits.TheConstants.{MAX_HOST_BYTES, LAST_POSITION};
ghost use Rattle.mod_utf.specs.Utf.{utf};
ghost use Rattle.jrmp_frames.specs.Frames.{protocol_ack};
ghost use Rattle.call_dispatch.specs.End.{IsWriteFault};
ghost use Rattle.call_dispatch.specs.Faults.{counts_of, BlamesIn, KeepsShut};
ghost use Rattle.call_dispatch.specs.ConnectionState.{state_of_connection, Stays, terms_in};
ghost use Rattle.call_dispatch.specs.Progress.{StandsOpened, OpensStream, Refuses};

use crate::answer::write_answer;
use crate::connection::Connection;
use crate::end::{ConnEnd, end_of};
use crate::worker::Worker;
use jrmp_frames::{FrameFault, Protocol, ack_bytes, read_header, skip_endpoint};
use ports::Port;
use sequence::ByteList;
use std::alloc::{AllocError, Global};
use system_objects::Setup;
use wire_io::{Clock, Sink, Source};

/// The outcome of a connection's opening.
#[derive(Clone, Copy)]
pub struct Opened {
    /// The protocol that the client asked for.
    pub protocol: Protocol,
    /// The number of bytes that were written.
    pub sent: u64,
}

/// Serves the opening: the header, and in the stream protocol the acknowledgement and the client's endpoint. An unknown
/// protocol is refused.
pub fn open_connection<S: Source, K: Sink, C: Clock, P: Port, W: Worker>(
    alloc: Global,
    connection: &mut Connection<S, K, C, P, W>,
) -> Result<Opened, ConnEnd>
    requires host { length (utf connection.old.setup.now.peer_host) ≤ MAX_HOST_BYTES }
    requires at { connection.old.pull.at ≡ 0 }
    requires stop { connection.old.pull.stop ≡ LAST_POSITION }
    ensures opens { StandsOpened W.may W.moves (terms_in connection.old)
        (state_of_connection S.half K.half C.given P.shown W.shown connection.old)
        (state_of_connection S.half K.half C.given P.shown W.shown connection.new)
        connection.new.pull.at result }
    ensures stays { Stays connection.old connection.new }
    ensures blames { BlamesIn (counts_of S.half K.half connection.old)
        (counts_of S.half K.half connection.new) result }
    ensures shut { KeepsShut S.half K.half connection.old connection.new }
{
    match read_header(&mut connection.pull) {
        Ok(Protocol::Stream) => open_stream(alloc, connection),
        Ok(Protocol::SingleOp) => Ok(Opened {
            protocol: Protocol::SingleOp,
            sent: 0,
        }),
        Err(fault) => match fault {
            FrameFault::UnknownProtocol { byte } => Err(refuse(connection.sink, byte)),
            _ => Err(end_of(fault)),
        },
    }
}

/// Serves the opening of the stream protocol after its header.
fn open_stream<S: Source, K: Sink, C: Clock, P: Port, W: Worker>(
    alloc: Global,
    connection: &mut Connection<S, K, C, P, W>,
) -> Result<Opened, ConnEnd>
    requires host { length (utf connection.old.setup.now.peer_host) ≤ MAX_HOST_BYTES }
    requires at { connection.old.pull.at ≡ 7 }
    requires stop { connection.old.pull.stop ≡ LAST_POSITION }
    ensures opens { OpensStream W.may W.moves (terms_in connection.old)
        (state_of_connection S.half K.half C.given P.shown W.shown connection.old)
        (state_of_connection S.half K.half C.given P.shown W.shown connection.new)
        connection.new.pull.at result }
    ensures stays { Stays connection.old connection.new }
    ensures blames { BlamesIn (counts_of S.half K.half connection.old)
        (counts_of S.half K.half connection.new) result }
    ensures shut { KeepsShut S.half K.half connection.old connection.new }
{
    let ack = acknowledgement(alloc, connection.setup)?;
    let sent = write_answer(connection.sink, ack.as_slice(), 0)?;
    match skip_endpoint(&mut connection.pull) {
        Ok(()) => Ok(Opened {
            protocol: Protocol::Stream,
            sent,
        }),
        Err(fault) => Err(end_of(fault)),
    }
}

/// The acknowledgement of a connection's opening.
fn acknowledgement(alloc: Global, setup: &Setup) -> Result<ByteList, AllocError>
    requires { length (utf setup.now.peer_host) ≤ MAX_HOST_BYTES }
    ensures { IfOk result (λ bytes. bytes ≡ protocol_ack setup.now.peer_host setup.now.peer_port) }
{
    ack_bytes(alloc, &setup.peer_host, setup.peer_port)
}

/// Tells the client that no protocol with this byte is served, and answers how the connection ended.
fn refuse<K: Sink>(sink: &mut K, byte: u8) -> ConnEnd
    ensures refuses { Refuses byte (K.half sink.old).held (K.half sink.new).held result }
    ensures write_fault { IsWriteFault result
        → Rose (K.half sink.old).faults (K.half sink.new).faults }
    ensures sink_faults { (K.half sink.old).faults ≤ (K.half sink.new).faults }
    ensures sink_shut { (K.half sink.new).shut ≡ (K.half sink.old).shut }
{
    match write_answer(sink, &[0x4F], 0) {
        Ok(_sent) => ConnEnd::UnknownProtocol { byte },
        Err(end) => end,
    }
}
