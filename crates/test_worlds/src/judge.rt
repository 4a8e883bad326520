//! Judging a world by its definitions, step by step.
ghost use Rattle.std.specs.Prelude.{◌≤◌};
ghost use Rattle.history.specs.declared.limits.TheConstants.{MAX_DURATION_MS};

use crate::draws::Draws;
use crate::plain::Plain;
use crate::steps::drawn_step;
use crate::text::{defined_text, put_step};
use lease_world::{Step, World, WorldFault, run_world};
use std::alloc::{AllocError, Global};
use std::fmt::Write;

/// The beginning of a world: its durations in milliseconds, and its number of clients.
#[derive(Clone, Copy)]
pub(crate) struct Beginning {
    pub(crate) lease_ms: u64,
    pub(crate) ack_ms: u64,
    pub(crate) clients: u8,
}

/// The course of a world: the numbers of steps that it took and refused; and the script at whose end it differs, if it does.
#[derive(Drop)]
pub(crate) struct Seen {
    pub(crate) taken: u64,
    pub(crate) refused: u64,
    pub(crate) differs: Option<String>,
}

/// Returns whether a script ends so: its last line, of this number, is that of a BadStep, or its world prints what its definitions say.
fn is_end(
    alloc: Global,
    script: &str,
    line: u64,
    is_step: bool,
    plain: &Plain,
) -> Result<bool, AllocError> {
    let defined = defined_text(alloc, plain)?;
    Ok(match run_world(alloc, script.as_bytes()) {
        Ok(text) => is_step && text.as_slice() == defined.as_bytes(),
        Err(WorldFault::BadLine { line: bad }) => !is_step && bad == line,
        Err(_) => false,
    })
}

/// Returns whether a world answers a step as its definitions do: it takes it, or it is a BadStep.
fn is_answered(world: &mut World, step: Step, is_step: bool) -> bool {
    match world.step(step) {
        Ok(()) => is_step,
        Err(fault) => !is_step && fault == WorldFault::BadStep,
    }
}

/// Makes so many random steps in a world, and compares its answer to each, and what is printed after each that it takes.
pub(crate) fn judge_world(
    alloc: Global,
    draws: &mut Draws,
    begins: Beginning,
    plain: &mut Plain,
    steps: u64,
) -> Result<Seen, WorldFault>
    requires some_lease { 1 ≤ begins.lease_ms }
    requires short_lease { begins.lease_ms ≤ MAX_DURATION_MS }
    requires some_ack { 1 ≤ begins.ack_ms }
    requires short_ack { begins.ack_ms ≤ MAX_DURATION_MS }
{
    let Beginning {
        lease_ms,
        ack_ms,
        clients,
    } = begins;
    let mut world = World::fresh(alloc, lease_ms, ack_ms, clients)?;
    let mut script = format!(in alloc; "world {lease_ms} {ack_ms} {clients}\n")?;
    let mut seen = Seen {
        taken: 0,
        refused: 0,
        differs: None,
    };
    for _ in 0..steps {
        let step = drawn_step(draws, plain);
        let is_step = plain.take(alloc, step)?;
        let mut longer = script.clone()?;
        put_step(&mut longer, step)?;
        let line = seen.taken.saturating_add(2);
        let is_same = is_answered(&mut world, step, is_step);
        if !is_same || !is_end(alloc, &longer, line, is_step, plain)? {
            seen.differs = Some(longer);
            return Ok(seen);
        }
        if is_step {
            seen.taken = seen.taken.saturating_add(1);
            script = longer;
        } else {
            seen.refused = seen.refused.saturating_add(1);
        }
    }
    Ok(seen)
}
