//! `show` over the program's input and output.
ghost use Rattle.std.specs.Prelude.{◌≡◌, ◌≢◌, IfOk, IfErr};
ghost use Rattle.wire_io.specs.Wire.{wires};
ghost use Rattle.ser_read.specs.Here.{Caused};
ghost use Rattle.rmi_cli.specs.Line.{status_of_run};
ghost use Rattle.rmi_cli.specs.Shown.{TakesGraph, IsFaultOf, StopsAt, ShowEnds, EndsExactly};
ghost use Rattle.rmi_cli.specs.Told.{ReadFailed, StayOpen, WriteFailed};

use crate::end::RunEnd;
use graph_text::graph_text;
use ser_read::{StreamFault, read_to_end};
use ser_values::Graph;
use ser_values::limits::MESSAGE_BYTES;
use std::alloc::Global;
use wire_io::pull::Pull;
use wire_io::put::put_all;
use wire_io::sink::Sink;
use wire_io::source::Source;

/// The most bytes of a stream.
pub const STREAM_BYTES: u64 = MESSAGE_BYTES;

/// Takes the whole input as a stream, and writes the text of its graph.
pub fn show_input<S: Source, K: Sink>(alloc: Global, source: &mut S, sink: &mut K) -> RunEnd
    ensures ends { ShowEnds (wires S.half K.half source.old sink.old)
        (wires S.half K.half source.new sink.new) result }
    ensures exact { EndsExactly (wires S.half K.half source.old sink.old)
        (wires S.half K.half source.new sink.new) result }
    ensures known { status_of_run result ≢ 1 }
    ensures read_fault { status_of_run result ≡ 3 → ReadFailed S.half source.old source.new }
    ensures write_fault { status_of_run result ≡ 4 → WriteFailed K.half sink.old sink.new }
    ensures open { StayOpen S.half K.half source.old sink.old source.new sink.new }
{
    let graph = match read_input(alloc, source) {
        Ok(graph) => graph,
        Err(fault) => return RunEnd::NotShown(fault),
    };
    let text = match graph_text(alloc, &graph) {
        Ok(text) => text,
        Err(_) => return RunEnd::OutOfMemory,
    };
    match put_all(sink, text.as_slice()) {
        Ok(()) => RunEnd::Done,
        Err(_) => RunEnd::WriteFault,
    }
}

/// Reads the whole input as a stream of at most so many bytes.
fn read_input<S: Source>(alloc: Global, source: &mut S) -> Result<Graph, StreamFault>
    ensures cause { Caused (S.half source.old).faults (S.half source.new).faults result }
    ensures taken { IfOk result
        (λ graph. TakesGraph (S.half source.old).left (S.half source.new).left graph.nodes
        graph.items) }
    ensures fault { IfErr result (IsFaultOf (S.half source.old).left) }
    ensures stops { IfErr result (StopsAt (S.half source.old).left (S.half source.new).left) }
    ensures open { (S.half source.new).shut ≡ (S.half source.old).shut }
{
    let mut pull = Pull::new(source);
    read_marked(alloc, &mut pull)
}

/// Reads a stream of at most so many bytes from a Pull at its first byte.
fn read_marked<S: Source>(alloc: Global, pull: &mut Pull<'_, S>) -> Result<Graph, StreamFault>
    requires { pull.old.at ≡ 0 }
    ensures lent { pull.new.source.ghost_name ≡ pull.old.source.ghost_name }
    ensures cause { Caused (S.half pull.old.source.now).faults (S.half pull.new.source.now).faults
        result }
    ensures taken { IfOk result (λ graph. TakesGraph (S.half pull.old.source.now).left
        (S.half pull.new.source.now).left graph.nodes graph.items) }
    ensures fault { IfErr result (IsFaultOf (S.half pull.old.source.now).left) }
    ensures stops { IfErr result
        (StopsAt (S.half pull.old.source.now).left (S.half pull.new.source.now).left) }
    ensures open { (S.half pull.new.source.now).shut ≡ (S.half pull.old.source.now).shut }
{
    pull.mark(STREAM_BYTES);
    read_to_end(alloc, pull)
}
