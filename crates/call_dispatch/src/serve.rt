//! Serving a connection from its opening to its end.
ghost use Rattle.std.specs.Prelude.{◌≡◌, ◌≤◌, ◌<◌, ◌++◌, ◌⊎◌, List, length};
ghost use Rattle.wire_io.specs.Wire.{Rose};
ghost use Rattle.wire_io.specs.declared.limits.TheConstants.{MAX_HOST_BYTES, LAST_POSITION};
ghost use Rattle.mod_utf.specs.Utf.{utf};
ghost use Rattle.ports.specs.Balance.{Balanced};
ghost use Rattle.space.specs.declared.asked.Asked.{Asked};
ghost use Rattle.call_dispatch.specs.Conditions.{CanServe, CanGoOn, IsOver};
ghost use Rattle.call_dispatch.specs.Complete.{NoFault, Completes};
ghost use Rattle.call_dispatch.specs.End.{IsSettled, IsWriteFault};
ghost use Rattle.call_dispatch.specs.Faults.{counts_of, Blames, KeepsShut};
ghost use Rattle.call_dispatch.specs.ConnectionState.{state_of, state_of_connection, terms_in};
ghost use Rattle.system_objects.specs.Terms.{terms_of};
ghost use Rattle.call_dispatch.specs.Progress.{Talked, IsServedFrom};
ghost use Rattle.call_dispatch.specs.Invoked.{InvokesEachOnce};

use crate::connection::Connection;
use crate::end::ConnEnd;
use crate::messages::serve_messages;
use crate::opening::open_connection;
use crate::worker::Worker;
use ports::Port;
use std::alloc::Global;
use system_objects::{Book, Setup};
use wire_io::{Clock, Pull, Sink, Source};

/// Serves a connection from the first byte of `source` to the connection's end, and answers it in `sink`. Turns are made at
/// `port` at the moments of `clock`, and calls are done by `worker`, of the kinds of objects in `book`.
///
/// Its conditions are those under which calls can be served. Both hosts take at most 255 bytes as modified UTF. The port is between two
/// calls, has room for 2^62 of them, and shows no call running. The worker was invoked fewer than 2^61 times. Fewer than 2^64 identifiers
/// were drawn, from a moment below 2^61 on.
///
/// No byte is taken but those of the dialogue. Each answer is written before the next message is taken: where a write fails, no byte behind the message that
/// it answers was taken. Each Call is invoked at most once, in its turn, with its own object and method and the graph that it spells, also where the
/// connection ends in it.
pub fn serve_connection<S: Source, K: Sink, C: Clock, P: Port, W: Worker>(
    alloc: Global,
    source: &mut S,
    sink: &mut K,
    clock: &mut C,
    port: &mut P,
    worker: &mut W,
    book: &Book,
    setup: &mut Setup,
) -> ConnEnd
    requires peer_host { length (utf setup.old.peer_host) ≤ MAX_HOST_BYTES }
    requires can { CanServe (P.ready port.old) (P.shown port.old) (W.shown worker.old) setup.old }

    // All that was taken, done, drawn and written is a dialogue with the end, and the only one of the input and of
    // what the outside answered, unless something outside failed.
    ensures dialogue { IsServedFrom W.may W.moves (terms_of book.now setup.old)
        (state_of (S.half source.old) (K.half sink.old) (C.given clock.old)
        (P.shown port.old) (W.shown worker.old) setup.old)
        (state_of (S.half source.new) (K.half sink.new) (C.given clock.new)
        (P.shown port.new) (W.shown worker.new) setup.new) result }

    // The worker's invocations are those of the Calls that were taken, in their order: of each Call one at most, of the object and the method
    // that it names, with the graph that its bytes spell. This holds of the message, too, in which the connection ended.
    ensures invoked { InvokesEachOnce (terms_of book.now setup.old)
        (state_of (S.half source.old) (K.half sink.old) (C.given clock.old)
        (P.shown port.old) (W.shown worker.old) setup.old)
        (state_of (S.half source.new) (K.half sink.new) (C.given clock.new)
        (P.shown port.new) (W.shown worker.new) setup.new) }

    // No call runs afterwards, and the port can be used on.
    ensures balanced { (more : List Asked)
        × ((P.shown port.new).asked ≡ (P.shown port.old).asked ++ more) × Balanced more }
    ensures ready { P.ready port.new }
    ensures leads { P.leads port.old port.new }
    ensures terms { terms_of book.now setup.new ≡ terms_of book.now setup.old }

    // The outside's failures.
    ensures read_fault { result ≡ ConnEnd.ReadFault
        → Rose (S.half source.old).faults (S.half source.new).faults }
    ensures write_fault { IsWriteFault result
        → Rose (K.half sink.old).faults (K.half sink.new).faults }
    ensures source_faults { (S.half source.old).faults ≤ (S.half source.new).faults }
    ensures sink_faults { (K.half sink.old).faults ≤ (K.half sink.new).faults }

    // Neither half is shut.
    ensures source_shut { (S.half source.new).shut ≡ (S.half source.old).shut }
    ensures sink_shut { (K.half sink.new).shut ≡ (K.half sink.old).shut }

    // Where neither half failed, the end is one that the bytes and the outside's answers show, or there was no memory.
    ensures settled { NoFault (S.half source.old) (S.half source.new) (K.half sink.old)
        (K.half sink.new) → IsSettled result ⊎ (result ≡ ConnEnd.OutOfMemory) }

    // Where neither half failed, an input of whole messages whose calls all found their objects is answered to its end, or there was no memory.
    ensures complete { NoFault (S.half source.old) (S.half source.new) (K.half sink.old)
        (K.half sink.new)
        → Completes W.may W.moves (terms_of book.now setup.old)
        (state_of (S.half source.old) (K.half sink.old) (C.given clock.old) (P.shown port.old)
        (W.shown worker.old) setup.old)
        (state_of (S.half source.new) (K.half sink.new) (C.given clock.new) (P.shown port.new)
        (W.shown worker.new) setup.new) result }
{
    let pull = Pull::new(source);
    let mut connection = Connection {
        pull,
        sink,
        clock,
        port,
        worker,
        book,
        setup,
    };
    talk(alloc, &mut connection)
}

/// Serves a connection from its first byte.
fn talk<S: Source, K: Sink, C: Clock, P: Port, W: Worker>(
    alloc: Global,
    connection: &mut Connection<S, K, C, P, W>,
) -> ConnEnd
    requires peer_host { length (utf connection.old.setup.now.peer_host) ≤ MAX_HOST_BYTES }
    requires can { CanGoOn P.ready P.shown W.shown connection.old }
    requires at { connection.old.pull.at ≡ 0 }
    requires stop { connection.old.pull.stop ≡ LAST_POSITION }
    ensures dialogue { Talked W.may W.moves (terms_in connection.old)
        (state_of_connection S.half K.half C.given P.shown W.shown connection.old)
        (state_of_connection S.half K.half C.given P.shown W.shown connection.new) result }
    ensures frame { IsOver P.ready P.shown P.leads connection.old connection.new }
    ensures blames { Blames (counts_of S.half K.half connection.old)
        (counts_of S.half K.half connection.new) result }
    ensures shut { KeepsShut S.half K.half connection.old connection.new }
{
    match open_connection(alloc, connection) {
        Ok(opened) => serve_messages(alloc, connection, opened),
        Err(end) => end,
    }
}
