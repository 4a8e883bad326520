//! The reading of a class outline, its number and its description.
use std::alloc::Global;
use std::io::{self, Read};
use std::process::ExitCode;
use std::time::{Clock, Instant};
use suid_calc::{describe, parse_outline, suid};
use wire_io::std_io::StdSource;
use wire_io::whole::take_whole;

/// The most bytes that are read.
const MOST_BYTES: usize = 0x1000_0000;

/// Reads the input as a class outline, after it stands whole in memory, and computes the class's number and description. Standard
/// output has how many members the class has, and its number; standard error how many microseconds reading, the number and the
/// description took.
pub(crate) fn time_class<I: Read + Drop>(
    rt: &(impl Print + Eprint + Clock),
    alloc: Global,
    input: I,
) -> io::Result<ExitCode> {
    let mut input = StdSource::new(alloc, input)?;
    let Ok(text) = take_whole(alloc, &mut input, MOST_BYTES) else {
        eprintln!(rt; "the input could not be read")?;
        return Ok(ExitCode::from(3));
    };
    let start = Instant::now(rt)?;
    let Ok(outline) = parse_outline(alloc, text.as_slice()) else {
        eprintln!(rt; "the input is no outline")?;
        return Ok(ExitCode::from(2));
    };
    let read = start.elapsed(rt)?;
    let number = suid(alloc, &outline)?;
    let numbered = start.elapsed(rt)?;
    let Ok(_graph) = describe(alloc, &outline) else {
        eprintln!(rt; "the class has too many fields")?;
        return Ok(ExitCode::from(2));
    };
    let described = start.elapsed(rt)?;
    println!(rt; "{} members, {number}", outline.members.len())?;
    eprintln!(rt;
        "{} {} {}",
        read.as_micros(),
        numbered.saturating_sub(read).as_micros(),
        described.saturating_sub(numbered).as_micros()
    )?;
    Ok(ExitCode::from(0))
}
