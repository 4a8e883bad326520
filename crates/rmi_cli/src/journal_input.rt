//! `replay` over the program's input and output.
ghost use Rattle.std.specs.Prelude.{◌≡◌, ◌≢◌};
ghost use Rattle.wire_io.specs.Wire.{wires};
ghost use Rattle.rmi_cli.specs.Line.{status_of_run};
ghost use Rattle.rmi_cli.specs.Replayed.{ReplayEnds};
ghost use Rattle.rmi_cli.specs.Told.{ReadFailed, StayOpen, WriteFailed};

use crate::end::RunEnd;
use crate::outlines::{ReplayFault, replay};
use std::alloc::Global;
use wire_io::put::put_all;
use wire_io::sink::Sink;
use wire_io::source::Source;
use wire_io::whole::{WholeEnd, take_whole};

/// The most bytes of a journal, or of a script of a world.
pub const JOURNAL_BYTES: usize = 268_435_456;

/// Takes the whole input as a journal, and writes the outline of the history that it spells.
pub fn replay_input<S: Source, K: Sink>(alloc: Global, source: &mut S, sink: &mut K) -> RunEnd
    ensures ends { ReplayEnds (wires S.half K.half source.old sink.old)
        (wires S.half K.half source.new sink.new) result }
    ensures known { status_of_run result ≢ 1 }
    ensures read_fault { status_of_run result ≡ 3 → ReadFailed S.half source.old source.new }
    ensures write_fault { status_of_run result ≡ 4 → WriteFailed K.half sink.old sink.new }
    ensures open { StayOpen S.half K.half source.old sink.old source.new sink.new }
{
    let input = match take_whole(alloc, source, JOURNAL_BYTES) {
        Ok(input) => input,
        Err(WholeEnd::TooLarge) => {
            return RunEnd::TooLarge {
                limit: JOURNAL_BYTES as u64,
            };
        }
        Err(WholeEnd::ReadFault) => return RunEnd::ReadFault,
        Err(WholeEnd::OutOfMemory) => return RunEnd::OutOfMemory,
    };
    let text = match replay(alloc, input.as_slice()) {
        Ok(text) => text,
        Err(ReplayFault::BadLine { line }) => return RunEnd::BadLine { line },
        Err(ReplayFault::Refused) => return RunEnd::Refused,
        Err(ReplayFault::OutOfMemory) => return RunEnd::OutOfMemory,
    };
    match put_all(sink, text.as_slice()) {
        Ok(()) => RunEnd::Done,
        Err(_) => RunEnd::WriteFault,
    }
}
