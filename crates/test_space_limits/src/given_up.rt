//! Running calls that are given up, of a space that keeps its events and of one that does not. What begins a call may find no memory; giving it
//! up takes none, so that as many calls are given up as were begun, whatever memory is refused.
use crate::{begin, fresh, object, open};
use space::Space;
use std::alloc::Global;
use std::io;
use std::io::Write;

/// The most calls that are begun.
const CALLS: u32 = 1_000;

/// Begins calls of the first object, up to the first that is refused, and answers how many were begun.
fn begin_some(space: &mut Space) -> u32 {
    for count in 0..CALLS {
        if begin(space).is_err() {
            return count;
        }
    }
    CALLS
}

/// Gives running calls of the first object up while there are any, and answers how many.
fn give_up(space: &mut Space) -> u32 {
    let object = object(0);
    for count in 0..CALLS {
        if space.running(1, object) == 0 {
            return count;
        }
        space.abandon(1, 0, object);
    }
    CALLS
}

/// Begins calls in a space, gives them up, and prints how many.
fn give_up_in<W: Write>(out: &mut W, space: &mut Space, what: &str) -> io::Result<()> {
    if open(space).is_err() {
        return writeln!(out, "{what}, no object");
    }
    let begun = begin_some(space);
    let ended = give_up(space);
    let running = space.running(1, object(0));
    writeln!(
        out,
        "{what}, begun {begun}, given up {ended}, running {running}"
    )
}

/// Gives calls up in both kinds of spaces.
pub(crate) fn given_up<W: Write>(alloc: Global, out: &mut W) -> io::Result<()> {
    give_up_in(out, &mut fresh(alloc, true), "Events kept")?;
    give_up_in(out, &mut fresh(alloc, false), "Events not kept")
}
