//! Spaces that don't keep their events: more turns than a stored history has units for, and as many running calls as there may be.
use crate::{abandon, begin, begin_calls, finish, fresh, numbered, show, tick, turn};
use history::{Ask, Refused};
use space::{Space, standing};
use std::alloc::Global;
use std::io;
use std::io::Write;

/// The number of rounds of three turns.
const ROUNDS: u32 = 1_200_000;

/// Runs a call that returns a new object, and acknowledges the return, by which the object goes.
fn round(alloc: Global, space: &mut Space) -> Result<(), Refused> {
    begin(space)?;
    finish(alloc, space, 1, 0, 1)?;
    let uid = numbered(1);
    turn(space, 1, Ask::Ack { uid })
}

/// Opens an object in a space without events, and makes the rounds.
fn rounds(alloc: Global, space: &mut Space) -> Result<(), Refused> {
    begin_calls(space, 0)?;
    for _ in 0..ROUNDS {
        round(alloc, space)?;
    }
    Ok(())
}

/// Makes many turns, and prints what stands then, and how many withdrawals the space keeps.
pub(crate) fn erased_turns<W: Write>(alloc: Global, out: &mut W) -> io::Result<()> {
    let mut space = fresh(alloc, false);
    if let Err(refused) = rounds(alloc, &mut space) {
        return writeln!(out, "erased turns {refused:?}");
    }
    out.write_all(standing(alloc, &space)?.as_slice())?;
    writeln!(out, "withdrawals kept {}", space.kept_withdrawals())
}

/// The last running call, one more, a turn that starts none, and a call that ends and makes room for another.
pub(crate) fn erased_calls<W: Write>(alloc: Global, out: &mut W) -> io::Result<()> {
    let mut space = fresh(alloc, false);
    if let Err(refused) = begin_calls(&mut space, 4_194_303) {
        return writeln!(out, "erased calls {refused:?}");
    }
    show(out, "Running 4194304", begin(&mut space))?;
    show(out, "Running 4194305", begin(&mut space))?;
    show(out, "Running, a tick", tick(&mut space))?;
    show(out, "Running, an abandon", abandon(&mut space))?;
    show(out, "Running 4194304", begin(&mut space))
}
