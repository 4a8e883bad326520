//! The setups of connections that are served without the program, and the wires that they are served over.
ghost use Rattle.std.specs.Prelude.{◌≡◌, ◌≤◌, pos, length};
ghost use Rattle.mod_utf.specs.Utf.{utf};

use crate::hosts::{Outside, sink_of, source_of};
use call_dispatch::Setup;
use mod_utf::utf::{encoded_len, units_of_ascii};
use object_ids::UidDraw;
use sequence::{MomentList, Units};
use std::alloc::Global;
use std::process::Abort;
use wire_io::mem::{MemClock, MemSink, MemSource};

/// The wires that a connection is served over.
#[derive(Drop)]
pub(crate) struct Wires {
    pub source: MemSource,
    pub sink: MemSink,
    pub clock: MemClock,
}

/// Returns the wires of a client that sends these bytes, at the moment 0.
pub(crate) fn wires_of(rt: &impl Abort, alloc: Global, input: &[u8], outside: Outside) -> Wires {
    Wires {
        source: source_of(rt, alloc, input, outside),
        sink: sink_of(rt, alloc, outside.failing_writes),
        clock: MemClock::new(MomentList::new(alloc)),
    }
}

/// The text `127.0.0.1`, which has few enough bytes for a host.
fn this_host(rt: &impl Abort, alloc: Global) -> Units
    ensures { length (utf result) ≤ 255 }
{
    let host = units_of_ascii(alloc, b"127.0.0.1").expect(rt, "memory");
    assert!(rt; encoded_len(&host) <= 255, "a short host");
    host
}

/// Which connection this is, the ports of the server and of the client, and whether names may be bound.
#[derive(Clone, Copy)]
pub(crate) struct Numbers {
    pub by: u32,
    pub port: u32,
    pub peer_port: u32,
    pub binding: bool,
}

/// Returns the setup of a connection.
pub(crate) fn setup(rt: &impl Abort, alloc: Global, numbers: Numbers) -> Setup
    ensures draw { (result.draw.time ≡ pos 6) × (result.draw.drawn ≡ 0) }
    ensures peer_host { length (utf result.peer_host) ≤ 255 }
    ensures host { length (utf result.host) ≤ 255 }
{
    Setup {
        by: numbers.by,
        peer_host: this_host(rt, alloc),
        peer_port: numbers.peer_port.cast_signed(),
        host: this_host(rt, alloc),
        port: numbers.port.cast_signed(),
        binding: numbers.binding,
        draw: UidDraw::new(numbers.by.wrapping_add(5).cast_signed(), 6),
        mark: [0; 8],
    }
}
