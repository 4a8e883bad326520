//! Whole lists of events, as a space answers them.
ghost use Rattle.std.specs.Prelude.{◌≤◌, ◌<◌, IfOk, IfSome};
ghost use Rattle.std.specs.List.{AllByRecursion};
ghost use Rattle.history.specs.declared.limits.TheConstants.{END_OF_TIME, MAX_DURATION_MS};

use crate::judge::{are_same, is_early, is_outlined};
use history::{Event, Refused, SpaceConfig, Turn};
use sequence::{ByteList, Same};
use space::Space;
use std::alloc::{AllocError, Global};

/// A copy of some events; None where one of them is too late.
fn early(alloc: Global, events: &[Event]) -> Result<Option<Vec<Event>>, AllocError>
    ensures { IfOk result
        (λ found. IfSome found (λ list. AllByRecursion (λ e. e.moment < END_OF_TIME) list.items)) }
{
    match events {
        [] => Ok(Some(Vec::new(alloc))),
        [first, rest @ ..] => {
            if !is_early(first) {
                return Ok(None);
            }
            let Some(mut list) = early(alloc, rest)? else {
                return Ok(None);
            };
            list.insert(0, first.copy(alloc)?)?;
            Ok(Some(list))
        }
    }
}

/// Returns whether these are the turns of such answers, up to the first that is refused.
fn are_turns(turns: &[Turn], answers: &[Result<Turn, Refused>]) -> bool {
    for (place, turn) in turns.iter().enumerate() {
        match answers.get(place) {
            Some(Ok(answer)) => {
                if !turn.is_same(answer) {
                    return false;
                }
            }
            _ => return false,
        }
    }
    true
}

/// Returns whether a new space takes a list so, and has this outline then.
fn takes(
    alloc: Global,
    config: &SpaceConfig,
    events: &[Event],
    answers: &[Result<Turn, Refused>],
    defined: &ByteList,
) -> Result<bool, AllocError>
    requires lease { (1 ≤ config.now.lease_ms) × (config.now.lease_ms ≤ MAX_DURATION_MS) }
    requires ack { (1 ≤ config.now.ack_ms) × (config.now.ack_ms ≤ MAX_DURATION_MS) }
{
    let Some(list) = early(alloc, events)? else {
        return Ok(false);
    };
    let mut space = Space::fresh(alloc, config);
    let taken = space.turns(list)?;
    let turns = taken.turns.as_slice();
    let is_end = match (answers.get(turns.len()), taken.refused) {
        (None, None) => true,
        (Some(Err(answer)), Some(refused)) => *answer == refused,
        _ => false,
    };
    Ok(is_end && are_turns(turns, answers) && is_outlined(alloc, &space, defined)?)
}

/// Returns whether a new space answers a list so, and has this outline then.
fn answers_all(
    alloc: Global,
    config: &SpaceConfig,
    events: &[Event],
    answers: &[Result<Turn, Refused>],
    defined: &ByteList,
) -> Result<bool, AllocError>
    requires lease { (1 ≤ config.now.lease_ms) × (config.now.lease_ms ≤ MAX_DURATION_MS) }
    requires ack { (1 ≤ config.now.ack_ms) × (config.now.ack_ms ≤ MAX_DURATION_MS) }
{
    let Some(list) = early(alloc, events)? else {
        return Ok(false);
    };
    let mut space = Space::fresh(alloc, config);
    let given = space.answers(list)?;
    for (place, one) in given.iter().enumerate() {
        match answers.get(place) {
            Some(answer) => {
                if !are_same(one, answer) {
                    return Ok(false);
                }
            }
            None => return Ok(false),
        }
    }
    Ok(given.len() == answers.len() && is_outlined(alloc, &space, defined)?)
}

/// Returns whether new spaces answer some events so as one list, by `turns` and by `answers`, and have this outline
/// then.
pub(crate) fn are_answered(
    alloc: Global,
    config: &SpaceConfig,
    events: &[Event],
    answers: &[Result<Turn, Refused>],
    defined: &ByteList,
) -> Result<bool, AllocError>
    requires lease { (1 ≤ config.now.lease_ms) × (config.now.lease_ms ≤ MAX_DURATION_MS) }
    requires ack { (1 ≤ config.now.ack_ms) × (config.now.ack_ms ≤ MAX_DURATION_MS) }
{
    Ok(
        takes(alloc, config, events, answers, defined)?
            && answers_all(alloc, config, events, answers, defined)?,
    )
}
