//! Scripts of worlds.
ghost use Rattle.std.specs.Prelude.{◌≡◌, ◌≢◌, ◌≤◌, ◌<◌, ◌+◌, ◌^◌, [], length, IfOk, IfErr, OnOk};
ghost use Rattle.lease_world.specs.Script.{IsPrinted, IsStopped, IsFaultAt, GoesOn, GoesToEnd, StopsIn};

use crate::fault::WorldFault;
use crate::reading::{read_step, read_world_line};
use crate::world::World;
use journal::split_line;
use sequence::ByteList;
use std::alloc::Global;

/// The most clients of a script's world.
pub const MAX_CLIENTS: u64 = 200;

/// Plays a script, and returns the outline of the server's space, and for each client the end of its time and its references, all after the last
/// step. Each line ends with LF. The first is `world LEASE ACK CLIENTS`, and each further one is a step.
///
/// BadLine names line 1 where that is no first line of a world, and else the first line that is no step or whose step is a BadStep.
/// SpaceRefused and ClientRefused come where the step of an earlier line is refused so. OutOfMemory may come in place of any other answer.
/// BadStep never comes.
pub fn run_world(alloc: Global, script: &[u8]) -> Result<ByteList, WorldFault>
    ensures printed { IfOk result (λ text. IsPrinted script.now text) }
    ensures stopped { IfErr result (λ fault. IsStopped script.now fault) }
{
    let Some((line, rest)) = split_line(script) else {
        return Err(WorldFault::BadLine { line: 1 });
    };
    let Some(first) = read_world_line(line) else {
        return Err(WorldFault::BadLine { line: 1 });
    };
    let mut world = World::fresh(alloc, first.lease_ms, first.ack_ms, first.clients)?;
    play(&mut world, rest)?;
    let text = world.print()?;
    Ok(text)
}

/// Takes the steps of lines, of which the first is the script's second.
fn play(world: &mut World, lines: &[u8]) -> Result<(), WorldFault>
    requires size { length lines.now + 2 < 2 ^ 64 }
    ensures goes { OnOk result (GoesToEnd world.old lines.now 2 world.new) }
    ensures stops { IfErr result (StopsIn world.old lines.now 2) }
{
    let mut rest = lines;
    let mut number: u64 = 2;
    while !rest.is_empty() {
        rest = play_line(world, rest, number)?;
        number += 1;
    }
    Ok(())
}

/// Takes the step of the first of some lines, which has this number, and returns the lines after it.
fn play_line<'a>(world: &mut World, lines: &'a [u8], number: u64) -> Result<&'a [u8], WorldFault>
    requires some { lines.now ≢ [] }
    ensures goes { IfOk result (λ more.
        GoesOn world.old lines.now number world.new more.now (number + 1)) }
    ensures stops { IfErr result (StopsIn world.old lines.now number) }
    ensures fewer { IfOk result (λ more. length more.now < length lines.now) }
{
    let Some((line, rest)) = split_line(lines) else {
        return Err(WorldFault::BadLine { line: number });
    };
    let Some(step) = read_step(line) else {
        return Err(WorldFault::BadLine { line: number });
    };
    match world.step(step) {
        Ok(_taken) => Ok(rest),
        Err(fault) => Err(fault_at(fault, number)),
    }
}

/// The fault of a script whose step in this line is refused for a fault.
fn fault_at(fault: WorldFault, number: u64) -> WorldFault
    ensures { IsFaultAt fault number result }
{
    match fault {
        WorldFault::BadStep => WorldFault::BadLine { line: number },
        _ => fault,
    }
}
