//! The reading of a serialization stream.
use sequence::Kinds;
use ser_read::read_to_end;
use std::alloc::Global;
use std::io::{self, Read};
use std::process::ExitCode;
use std::time::{Clock, Instant};
use wire_io::mem::MemSource;
use wire_io::pull::Pull;
use wire_io::std_io::StdSource;
use wire_io::whole::take_whole;

/// The most bytes that are read.
const MOST_BYTES: usize = 0x1000_0000;

/// Reads the input as a serialization stream, after it stands whole in memory. Standard output has how many nodes and
/// items it has, or its fault; standard error how many microseconds reading took.
pub(crate) fn time_stream<I: Read + Drop>(
    rt: &(impl Print + Eprint + Clock),
    alloc: Global,
    input: I,
) -> io::Result<ExitCode> {
    let mut input = StdSource::new(alloc, input)?;
    let Ok(bytes) = take_whole(alloc, &mut input, MOST_BYTES) else {
        eprintln!(rt; "the input could not be read")?;
        return Ok(ExitCode::from(3));
    };
    let mut source = MemSource::new(bytes, Kinds::new(alloc), Kinds::new(alloc));
    let mut pull = Pull::new(&mut source);
    let start = Instant::now(rt)?;
    let answer = read_to_end(alloc, &mut pull);
    let spent = start.elapsed(rt)?;
    match answer {
        Ok(graph) => println!(rt; "{} nodes, {} items", graph.count(), graph.items().len())?,
        Err(fault) => println!(rt; "{fault}")?,
    }
    eprintln!(rt; "{}", spent.as_micros())?;
    Ok(ExitCode::from(0))
}
