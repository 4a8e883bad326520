//! Judging a space by the definitions.
ghost use Rattle.std.specs.Prelude.{◌≤◌, ◌<◌, IsTrue};
ghost use Rattle.history.specs.declared.limits.TheConstants.{END_OF_TIME, MAX_DURATION_MS};

use crate::course::Course;
use crate::defined::defined_outline;
use crate::listed::are_answered;
use history::limits::END_OF_TIME;
use history::{Ask, Event, Limits, Place, Refused, SpaceConfig, Turn};
use history_model::table::places;
use history_model::turns::answers;
use sequence::{ByteList, Same};
use space::{Space, outline, standing};
use std::alloc::{AllocError, Global};

/// The comparison of a space with the definitions for one history.
#[derive(Clone, Copy, Debug)]
pub(crate) enum Verdict {
    /// The same.
    Agree,
    /// Other answers to the event at this place.
    Answer(usize),
    /// Other answers to the events where they are one list.
    List,
    /// Other outlines at the end.
    Outline,
}

/// Returns whether a space may be asked an event: it is not too late.
pub(crate) fn is_early(event: &Event) -> bool
    ensures { IsTrue result → event.now.moment < END_OF_TIME }
{
    event.moment < END_OF_TIME
}

/// Returns whether a space answers an event so. `abandon`, which answers nothing, makes an abandon of a running call at
/// an even moment. `turns` takes each other event as a list where its moment is a multiple of 3.
fn is_answered(
    alloc: Global,
    space: &mut Space,
    event: &Event,
    answer: &Result<Turn, Refused>,
) -> Result<bool, AllocError> {
    if !is_early(event) {
        return Ok(false);
    }
    if let Ask::Abandon { object } = &event.ask {
        if event.moment % 2 == 0 && space.running(event.by, *object) > 0 {
            space.abandon(event.by, event.moment, *object);
            return Ok(answer.is_ok());
        }
    }
    if event.moment % 3 == 0 {
        return is_answered_in_a_list(alloc, space, event, answer);
    }
    let given = space.turn(event.by, event.moment, event.ask.copy(alloc)?);
    Ok(are_same(&given, answer))
}

/// Returns whether a space answers an event so where it is the one event of a list.
fn is_answered_in_a_list(
    alloc: Global,
    space: &mut Space,
    event: &Event,
    answer: &Result<Turn, Refused>,
) -> Result<bool, AllocError>
    requires { event.now.moment < END_OF_TIME }
{
    let mut events = Vec::with_capacity(alloc, 1)?;
    events.push(event.copy(alloc)?)?;
    let given = space.turns(events)?;
    Ok(match (given.turns.as_slice(), given.refused, answer) {
        ([turn], None, Ok(answer)) => turn.is_same(answer),
        ([], Some(refused), Err(answer)) => refused == *answer,
        _ => false,
    })
}

/// Returns whether two answers are the same.
pub(crate) fn are_same(a: &Result<Turn, Refused>, b: &Result<Turn, Refused>) -> bool {
    match (a, b) {
        (Ok(a), Ok(b)) => a.is_same(b),
        (Err(a), Err(b)) => *a == *b,
        _ => false,
    }
}

/// The place of the first of some events that a space answers otherwise, if there is one.
fn first_difference(
    alloc: Global,
    space: &mut Space,
    events: &[Event],
    answers: &[Result<Turn, Refused>],
) -> Result<Option<usize>, AllocError> {
    for (place, event) in events.iter().enumerate() {
        let same = match answers.get(place) {
            Some(answer) => is_answered(alloc, space, event, answer)?,
            None => false,
        };
        if !same {
            return Ok(Some(place));
        }
    }
    Ok(None)
}

/// Returns whether a space has this outline. A space that doesn't keep its events has this one but for its withdrawals.
pub(crate) fn is_outlined(
    alloc: Global,
    space: &Space,
    defined: &ByteList,
) -> Result<bool, AllocError> {
    if space.is_stored() {
        return Ok(outline(alloc, space)?.is_same(defined));
    }
    let stands = standing(alloc, space)?;
    Ok(is_without_withdrawals(stands.as_slice(), defined.as_slice()))
}

/// Returns whether these bytes are an outline up to its withdrawals.
fn is_without_withdrawals(stands: &[u8], outline: &[u8]) -> bool {
    match outline.strip_prefix(stands) {
        Some(rest) => rest.is_empty() || rest.starts_with(b"withdrawn "),
        None => false,
    }
}

/// Makes the turns of some events in a space without events, and compares each answer and the outline that they leave with those of the
/// definitions; and their answers where they are handed in as one list.
fn judge_space(
    alloc: Global,
    config: &SpaceConfig,
    events: &[Event],
    places: &[Place],
    answers: &[Result<Turn, Refused>],
) -> Result<Verdict, AllocError>
    requires lease { (1 ≤ config.now.lease_ms) × (config.now.lease_ms ≤ MAX_DURATION_MS) }
    requires ack { (1 ≤ config.now.ack_ms) × (config.now.ack_ms ≤ MAX_DURATION_MS) }
{
    let mut space = Space::fresh(alloc, config);
    if let Some(place) = first_difference(alloc, &mut space, events, answers)? {
        return Ok(Verdict::Answer(place));
    }
    let defined = defined_outline(alloc, config, places)?;
    if !are_answered(alloc, config, events, answers, &defined)? {
        return Ok(Verdict::List);
    }
    Ok(if is_outlined(alloc, &space, &defined)? {
        Verdict::Agree
    } else {
        Verdict::Outline
    })
}

/// Judges a space of this configuration by a course.
pub(crate) fn judge_course(
    alloc: Global,
    config: &SpaceConfig,
    course: &Course,
) -> Result<Verdict, AllocError>
    requires lease { (1 ≤ config.now.lease_ms) × (config.now.lease_ms ≤ MAX_DURATION_MS) }
    requires ack { (1 ≤ config.now.ack_ms) × (config.now.ack_ms ≤ MAX_DURATION_MS) }
{
    let events = course.events.as_slice();
    let answers = course.answers.as_slice();
    judge_space(alloc, config, events, course.places.as_slice(), answers)
}

/// Judges a space of this configuration by what the model makes of the whole of some events.
pub(crate) fn judge_plainly(
    alloc: Global,
    config: &SpaceConfig,
    events: &[Event],
) -> Result<Verdict, AllocError>
    requires lease { (1 ≤ config.now.lease_ms) × (config.now.lease_ms ≤ MAX_DURATION_MS) }
    requires ack { (1 ≤ config.now.ack_ms) × (config.now.ack_ms ≤ MAX_DURATION_MS) }
{
    let limits = Limits::of_space(config);
    let answers = answers(alloc, &limits, config, Vec::new(alloc), events)?;
    let places = places(alloc, config, events)?;
    judge_space(alloc, config, events, places.as_slice(), answers.as_slice())
}
