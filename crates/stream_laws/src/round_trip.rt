//! The round trip of streams.
ghost use Rattle.std.specs.Prelude.{◌≤◌, length};
ghost use Rattle.wire_io.specs.declared.limits.TheConstants.{LAST_POSITION};
ghost use Rattle.ser_write.specs.Canonical.{canonical};
ghost use Rattle.ser_read.specs.Whole.{AnswersGraph};

use sequence::Kinds;
use ser_read::{StreamFault, read_to_end};
use ser_values::Graph;
use ser_write::write_stream;
use std::alloc::Global;
use wire_io::mem::MemSource;
use wire_io::pull::Pull;

/// Writes a graph as a stream, and reads the stream. What is read is the same graph, with all that is shared in it; a
/// refusal is none of the bytes': there was no memory, or a read failed.
pub fn read_back(alloc: Global, graph: &Graph) -> Result<Graph, StreamFault>
    ensures same { length (canonical graph.now.nodes graph.now.items) ≤ LAST_POSITION
        → ∥ AnswersGraph graph.now.nodes graph.now.items result ∥₁ }
{
    let written = write_stream(alloc, graph)?;
    let mut source = MemSource::new(written, Kinds::new(alloc), Kinds::new(alloc));
    let mut pull = Pull::new(&mut source);
    read_to_end(alloc, &mut pull)
}
