//! Many running calls: 60,000 connections run one each, and end them.
use history::{Ask, Refused};
use space::Space;
use std::alloc::Global;
use std::io;
use std::io::Write;
use test_support::spaces::{CONFIG, FIRST};

/// The number of connections that run a call.
const CONNECTIONS: u32 = 60_000;

/// Makes a turn of a connection, whose answer counts for nothing unless it is refused.
fn take(space: &mut Space, by: u32, ask: Ask) -> Result<(), Refused> {
    let _turn = space.turn(by, 0, ask)?;
    Ok(())
}

/// Exports an object, and has each connection begin a call of it.
fn begin(space: &mut Space) -> Result<(), Refused> {
    let pinned = true;
    take(space, 0, Ask::Open { kind: 1, pinned })?;
    for by in 0..CONNECTIONS {
        take(space, by, Ask::Begin { object: FIRST })?;
    }
    Ok(())
}

/// Ends the calls, the last begun first.
fn end(space: &mut Space) -> Result<(), Refused> {
    for k in 0..CONNECTIONS {
        let by = CONNECTIONS - 1 - k;
        take(space, by, Ask::Abandon { object: FIRST })?;
    }
    Ok(())
}

/// Returns the number of calls that run in all, one connection after another.
fn running(space: &Space) -> u64 {
    let mut running: u64 = 0;
    for by in 0..CONNECTIONS {
        running = running.saturating_add(u64::from(space.running(by, FIRST)));
    }
    running
}

/// Prints how many calls run once a step is taken, or why it is refused.
fn show<W: Write>(
    out: &mut W,
    what: &str,
    space: &Space,
    step: Result<(), Refused>,
) -> io::Result<()> {
    match step {
        Ok(()) => {
            let running = running(space);
            writeln!(out, "Calls {what}, running {running}")
        }
        Err(refused) => writeln!(out, "Calls {what} {refused:?}"),
    }
}

/// Has many calls begun, and ended, and prints how many run then.
pub(crate) fn many_calls<W: Write>(alloc: Global, out: &mut W) -> io::Result<()> {
    let mut space = Space::fresh(alloc, &CONFIG);
    let begun = begin(&mut space);
    show(out, "begun", &space, begun)?;
    let ended = end(&mut space);
    show(out, "ended", &space, ended)
}
