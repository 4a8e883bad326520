//! The finishing and the writing of a graph.
use crate::sample::{sample_items, sample_nodes};
use crate::sizes::sizes_of;
use ser_write::write_stream;
use std::alloc::Global;
use std::io;
use std::process::ExitCode;
use std::time::{Clock, Instant};

/// Makes a graph of as many nodes as the first word says, with a byte array of as many bytes as the second word says,
/// finishes it and writes it. Standard output has how many nodes and bytes came of it, standard error how many
/// microseconds finishing and writing took.
pub(crate) fn time_graph(
    rt: &(impl Print + Eprint + Clock),
    alloc: Global,
    words: &[String],
) -> io::Result<ExitCode> {
    let asked = match words {
        [nodes, bytes] => sizes_of(nodes, bytes),
        _ => None,
    };
    let Some(sizes) = asked else {
        eprintln!(rt; "usage: bench_parts graphs NODES BYTES")?;
        return Ok(ExitCode::from(1));
    };
    let Ok(builder) = sample_nodes(alloc, sizes) else {
        return Ok(ExitCode::from(2));
    };
    let Ok(items) = sample_items(alloc, sizes.nodes) else {
        return Ok(ExitCode::from(2));
    };
    let start = Instant::now(rt)?;
    let Ok(graph) = builder.finish(items) else {
        return Ok(ExitCode::from(2));
    };
    let finished = start.elapsed(rt)?;
    let bytes = write_stream(alloc, &graph)?;
    let written = start.elapsed(rt)?;
    println!(rt; "{} nodes, {} bytes", graph.count(), bytes.len())?;
    eprintln!(rt;
        "{} {}",
        finished.as_micros(),
        written.saturating_sub(finished).as_micros()
    )?;
    Ok(ExitCode::from(0))
}
