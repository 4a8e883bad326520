//! `world` over the program's input and output.
ghost use Rattle.std.specs.Prelude.{◌≡◌, ◌≢◌};
ghost use Rattle.wire_io.specs.Wire.{wires};
ghost use Rattle.rmi_cli.specs.Line.{status_of_run};
ghost use Rattle.rmi_cli.specs.Worlds.{WorldEnds, end_of_fault};
ghost use Rattle.rmi_cli.specs.Told.{ReadFailed, StayOpen, WriteFailed};

use crate::end::RunEnd;
use crate::journal_input::JOURNAL_BYTES;
use lease_world::{WorldFault, run_world};
use std::alloc::Global;
use wire_io::put::put_all;
use wire_io::sink::Sink;
use wire_io::source::Source;
use wire_io::whole::{WholeEnd, take_whole};

/// Takes the whole input as a world's script, which has at most as many bytes as a journal, and writes the end of that world.
pub fn print_world<S: Source, K: Sink>(alloc: Global, source: &mut S, sink: &mut K) -> RunEnd
    ensures ends { WorldEnds (wires S.half K.half source.old sink.old)
        (wires S.half K.half source.new sink.new) result }
    ensures known { status_of_run result ≢ 1 }
    ensures read_fault { status_of_run result ≡ 3 → ReadFailed S.half source.old source.new }
    ensures write_fault { status_of_run result ≡ 4 → WriteFailed K.half sink.old sink.new }
    ensures open { StayOpen S.half K.half source.old sink.old source.new sink.new }
{
    let limit = JOURNAL_BYTES as u64;
    let input = match take_whole(alloc, source, JOURNAL_BYTES) {
        Ok(input) => input,
        Err(WholeEnd::TooLarge) => return RunEnd::TooLarge { limit },
        Err(WholeEnd::ReadFault) => return RunEnd::ReadFault,
        Err(WholeEnd::OutOfMemory) => return RunEnd::OutOfMemory,
    };
    let text = match run_world(alloc, input.as_slice()) {
        Ok(text) => text,
        Err(fault) => return end_of(fault),
    };
    match put_all(sink, text.as_slice()) {
        Ok(()) => RunEnd::Done,
        Err(_) => RunEnd::WriteFault,
    }
}

/// Returns how the run ends where a script has this fault. A script's bad step is a bad line.
fn end_of(fault: WorldFault) -> RunEnd
    ensures { result ≡ end_of_fault fault }
{
    match fault {
        WorldFault::BadLine { line } => RunEnd::BadLine { line },
        WorldFault::BadStep | WorldFault::SpaceRefused(_) | WorldFault::ClientRefused(_) => {
            RunEnd::Refused
        }
        WorldFault::OutOfMemory => RunEnd::OutOfMemory,
    }
}
