//! `replay`: the outline of the history that a journal spells.
ghost use Rattle.std.specs.Prelude.{◌≡◌, ◌≢◌, ◌<◌, ◌+◌, ◌^◌, [], IfOk, IfErr, OnOk, OnErr, Err, length};
ghost use Rattle.history.specs.declared.limits.TheConstants.{END_OF_TIME};
ghost use Rattle.rmi_cli.specs.Replay.{LinesGo, Replays};
ghost use Rattle.rmi_cli.specs.Taking.{TakesLine, WasBad, IsTakenTo, Halts, TakesTo, fault_of};

use history::{Event, Refused, SpaceConfig};
use journal::lines::{read_event, read_first_line, split_line};
use sequence::ByteList;
use space::{Space, outline};
use std::alloc::{AllocError, Global};

/// Why a journal has no outline.
#[derive(Clone, Copy, Debug, PartialEq, Eq)]
pub enum ReplayFault {
    /// The line of this number, from 1, is none of a journal.
    BadLine { line: u64 },
    /// A turn was refused at a limit.
    Refused,
    /// There was no memory.
    OutOfMemory,
}

impl From<AllocError> for ReplayFault {
    ghost use Rattle.rmi_cli.specs.declared.outlines.ReplayFault.TheVariants.{OutOfMemory};

    ghost from_gives = { λ _ fault. fault ≡ OutOfMemory };

    fn from(_refused: AllocError) -> ReplayFault {
        ReplayFault::OutOfMemory
    }
}

/// Makes the turns of a journal, line after line, and answers the outline of the history that they make.
///
/// The first bad line, or the first turn that is refused, is answered, whichever comes first.
pub fn replay(alloc: Global, input: &[u8]) -> Result<ByteList, ReplayFault>
    requires { length input.now < 2 ^ 32 }
    ensures { Replays input.now result }
{
    let Some((line, lines)) = split_line(input) else {
        return Err(ReplayFault::BadLine { line: 1 });
    };
    let Some(config) = read_first_line(line) else {
        return Err(ReplayFault::BadLine { line: 1 });
    };
    let mut space = Space::fresh(alloc, &config);
    take_lines(alloc, &mut space, &config, lines)?;
    Ok(outline(alloc, &space)?)
}

/// Makes the turns of lines, the first of which is the journal's second, up to the first that can't be taken.
fn take_lines(
    alloc: Global,
    space: &mut Space,
    config: &SpaceConfig,
    lines: &[u8],
) -> Result<(), ReplayFault>
    requires size { length lines.now < 2 ^ 32 }
    requires space { space.old.configuration ≡ config.now }
    ensures goes { LinesGo config.now space.old.events lines.now 2 result space.new.events }
    ensures config { space.new.configuration ≡ config.now }
{
    let mut rest = lines;
    let mut number: u64 = 2;
    while !rest.is_empty() {
        rest = take_line(alloc, space, config, rest, number)?;
        number += 1;
    }
    Ok(())
}

/// Makes the turn of the first of these lines, which has this number, and answers the lines after it.
fn take_line<'a>(
    alloc: Global,
    space: &mut Space,
    config: &SpaceConfig,
    lines: &'a [u8],
    number: u64,
) -> Result<&'a [u8], ReplayFault>
    requires some { lines.now ≢ [] }
    requires space { space.old.configuration ≡ config.now }
    ensures next { IfOk result
        (λ more. TakesTo config.now space.old.events lines.now number more.now
        (number + 1) space.new.events) }
    ensures stops { IfErr result (λ fault. LinesGo config.now space.old.events lines.now number
        (Err fault) space.new.events) }
    ensures fewer { IfOk result (λ more. length more.now < length lines.now) }
    ensures config { space.new.configuration ≡ config.now }
{
    match read_line(alloc, config, lines) {
        Ok((event, more)) => {
            make_turn(space, event)?;
            Ok(more)
        }
        Err(LineFault::Bad) => Err(ReplayFault::BadLine { line: number }),
        Err(LineFault::OutOfMemory) => Err(ReplayFault::OutOfMemory),
    }
}

/// Why a line gives no event.
#[derive(Clone, Copy)]
enum LineFault {
    /// It is none of a journal.
    Bad,
    /// There was no memory.
    OutOfMemory,
}

impl From<AllocError> for LineFault {
    ghost use Rattle.rmi_cli.specs.declared.outlines.LineFault.TheVariants.{OutOfMemory};

    ghost from_gives = { λ _ fault. fault ≡ OutOfMemory };

    fn from(_refused: AllocError) -> LineFault {
        LineFault::OutOfMemory
    }
}

/// The event of the first of these lines, and the lines after it.
fn read_line<'a>(
    alloc: Global,
    config: &SpaceConfig,
    lines: &'a [u8],
) -> Result<(Event, &'a [u8]), LineFault>
    ensures line { IfOk result (λ p. TakesLine config.now lines.now p.0 p.1.now) }
    ensures bad { IfErr result (λ fault. WasBad config.now lines.now fault) }
{
    let Some((line, more)) = split_line(lines) else {
        return Err(LineFault::Bad);
    };
    match read_event(alloc, config.uid, line)? {
        Some(event) => Ok((event, more)),
        None => Err(LineFault::Bad),
    }
}

/// Makes the turn of an event.
fn make_turn(space: &mut Space, event: Event) -> Result<(), ReplayFault>
    requires { event.moment < END_OF_TIME }
    ensures ok { OnOk result (IsTakenTo space.old.configuration space.old.events event
        space.new.events) }
    ensures halts { IfErr result
        (λ fault. Halts space.old.configuration space.old.events event fault) }
    ensures err { OnErr result (space.new ≡ space.old) }
    ensures config { space.new.configuration ≡ space.old.configuration }
{
    let Event { by, moment, ask } = event;
    match space.turn(by, moment, ask) {
        Ok(_turn) => Ok(()),
        Err(refused) => Err(fault_of(refused)),
    }
}

/// Returns the fault with which a refused turn ends a replay.
fn fault_of(refused: Refused) -> ReplayFault
    ensures { result ≡ fault_of refused }
{
    match refused {
        Refused::HistoryFull => ReplayFault::Refused,
        Refused::Full(_kind) => ReplayFault::Refused,
        Refused::OutOfMemory => ReplayFault::OutOfMemory,
    }
}
