// SPDX-License-Identifier: Apache-2.0 OR MIT
//! Reads 25 streams as Java's own writer wrote them, whole and byte by byte. It prints the text or
//! the fault of each, and says if the graph is written back as the same bytes.
#![tactic(auto)]

use graph_text::graph_text;
use sequence::{ByteList, Kinds};
use ser_read::{StreamFault, read_to_end};
use ser_values::{Graph, same_graph};
use ser_write::write_stream;
use std::alloc::Global;
use std::io::Write;
use std::{fs, io};
use stream_laws::read_back;
use wire_io::mem::MemSource;
use wire_io::pull::Pull;

/// The streams, each a file in the program's directory.
const STREAMS: &str =
    "arraylist chain190 class cyclic deep250 descs dirty_call enum enumset exception externalizable_v1 hashmap innerexception ints longstring nested nulls proxy putfields reset rmi_objid strings_shared stub_unicastref sub treemap weird_string";

/// The graph of a stream that comes in pieces of these lengths, and then whole.
fn read(alloc: Global, bytes: &[u8], cuts: Kinds) -> io::Result<Result<Graph, StreamFault>> {
    let input = ByteList::from_slice(alloc, bytes)?;
    let mut source = MemSource::new(input, cuts, Kinds::new(alloc));
    let mut pull = Pull::new(&mut source);
    Ok(read_to_end(alloc, &mut pull))
}

/// The lengths of so many pieces of one byte.
fn single_bytes(alloc: Global, count: usize) -> io::Result<Kinds> {
    Ok(Kinds::from_vec(vec![in alloc; 1; count]?))
}

/// Returns words for the difference of the two readings of a stream, for whether its graph is read back, and for the
/// difference of its bytes from those that are written.
fn verdict(
    alloc: Global,
    bytes: &[u8],
    graph: &Graph,
    apart: &Result<Graph, StreamFault>,
) -> io::Result<&'static str> {
    let same = match apart {
        Ok(other) => same_graph(graph, other),
        Err(_) => false,
    };
    if !same {
        return Ok("read otherwise in single bytes");
    }
    match read_back(alloc, graph) {
        Ok(other) if same_graph(graph, &other) => {}
        _ => return Ok("read back otherwise"),
    }
    let written = write_stream(alloc, graph)?;
    if written.as_slice() == bytes {
        Ok("written back")
    } else {
        Ok("written otherwise")
    }
}

/// Prints what a stream reads as.
fn show<W: Write>(alloc: Global, out: &mut W, name: &str, bytes: &[u8]) -> io::Result<()> {
    writeln!(out, "{name}")?;
    let apart = read(alloc, bytes, single_bytes(alloc, bytes.len())?)?;
    match read(alloc, bytes, Kinds::new(alloc))? {
        Ok(graph) => {
            out.write_all(graph_text(alloc, &graph)?.as_slice())?;
            let verdict = verdict(alloc, bytes, &graph, &apart)?;
            writeln!(out, "{verdict}")
        }
        Err(fault) => match apart {
            Ok(_) => writeln!(out, "read in single bytes, and not whole"),
            Err(other) => writeln!(out, "{fault}; in single bytes {other}"),
        },
    }
}

fn main(rt: HostRuntime) -> io::Result<()> {
    let alloc = rt.alloc();
    let mut out = rt.stdout();
    for name in STREAMS.split(' ') {
        let path = format!(in alloc; "{name}.ser")?;
        let bytes = fs::read(&rt, path.as_str())?;
        show(alloc, &mut out, name, &bytes)?;
    }
    Ok(())
}
