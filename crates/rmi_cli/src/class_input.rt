//! `suid`, `suidtext` and `describe` over the program's input and output.
ghost use Rattle.std.specs.Prelude.{◌≡◌, ◌≢◌};
ghost use Rattle.wire_io.specs.Wire.{wires};
ghost use Rattle.rmi_cli.specs.Line.{status_of_run};
ghost use Rattle.rmi_cli.specs.Printing.{PrintEnds};
ghost use Rattle.rmi_cli.specs.Told.{ReadFailed, StayOpen, WriteFailed};

use crate::class_output::{ClassFault, class_output};
use crate::end::RunEnd;
use rmi_words::ClassOutput;
use std::alloc::Global;
use wire_io::put::put_all;
use wire_io::sink::Sink;
use wire_io::source::Source;
use wire_io::whole::{WholeEnd, take_whole};

/// The greatest number of bytes of a class outline.
pub const OUTLINE_BYTES: usize = 1_048_576;

/// Takes the whole input as a class outline, and writes the class's number, its text or its description.
pub fn print_class<S: Source, K: Sink>(
    alloc: Global,
    source: &mut S,
    sink: &mut K,
    output: ClassOutput,
) -> RunEnd
    ensures ends { PrintEnds output (wires S.half K.half source.old sink.old)
        (wires S.half K.half source.new sink.new)
        (K.half sink.old).faults (K.half sink.new).faults result }
    ensures known { status_of_run result ≢ 1 }
    ensures read_fault { status_of_run result ≡ 3 → ReadFailed S.half source.old source.new }
    ensures write_fault { status_of_run result ≡ 4 → WriteFailed K.half sink.old sink.new }
    ensures open { StayOpen S.half K.half source.old sink.old source.new sink.new }
{
    let limit = OUTLINE_BYTES as u64;
    let input = match take_whole(alloc, source, OUTLINE_BYTES) {
        Ok(input) => input,
        Err(WholeEnd::TooLarge) => return RunEnd::TooLarge { limit },
        Err(WholeEnd::ReadFault) => return RunEnd::ReadFault,
        Err(WholeEnd::OutOfMemory) => return RunEnd::OutOfMemory,
    };
    let bytes = match class_output(alloc, input.as_slice(), output) {
        Ok(bytes) => bytes,
        Err(ClassFault::BadLine { line }) => return RunEnd::BadLine { line },
        Err(ClassFault::TooManyFields) => return RunEnd::Refused,
        Err(ClassFault::OutOfMemory) => return RunEnd::OutOfMemory,
    };
    match put_all(sink, bytes.as_slice()) {
        Ok(()) => RunEnd::Done,
        Err(_) => RunEnd::WriteFault,
    }
}
