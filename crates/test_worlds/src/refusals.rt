//! Courses up to the limits of a client's table and of the server's space: steps that are refused, and what is taken after them.
use lease_world::{Step, World, WorldFault};
use std::alloc::{AllocError, Global};

/// Courses, each in a world of its own at moment 0. A line is a number of steps, the step's word, its client, its object, return, call or moment, and
/// the answer to each of these steps. `0+` stands for 0 and the numbers after it.
const COURSES: &str = "16384 register 0 0+ taken
1 register 0 16384 ClientRefused(FullRefs)
1 register 0 16383 taken
1 register 1 16384 taken
1 drop 0 7 taken
1 register 0 16384 taken
1 register 0 7 ClientRefused(FullRefs)
1 due 0 - taken
1 deliver - 1 taken
1 answer - 1 taken
1 register 0 7 ClientRefused(FullRefs)

16384 register 0 0+ taken
1 due 0 - taken
255 deliver - 0 taken
1 deliver - 0 SpaceRefused(HistoryFull)
16122 tick - - taken
1 make - - taken
1 tick - - taken
1 make - - SpaceRefused(HistoryFull)
1 tick - - SpaceRefused(HistoryFull)
1 answer - 0 taken
1 drop 0 16 taken
1 deliver - 1 SpaceRefused(HistoryFull)

65535 make - - taken
1 make - - SpaceRefused(Full(Exports))
1 tick - - taken
1 ack - 0 taken
1 make - - taken
1 make - - SpaceRefused(Full(Exports))
1 at - 50 taken
1 tick - - taken
65535 make - - taken
1 make - - SpaceRefused(Full(Exports))";

/// The longest lease of each course, in milliseconds.
const LEASE_MS: u64 = 100;
/// The time to acknowledge of each course, in milliseconds.
const ACK_MS: u64 = 50;
/// The number of clients of each course.
const CLIENTS: u8 = 2;

/// A line of a course.
#[derive(Drop)]
struct Line<'a> {
    count: i64,
    word: &'a str,
    client: u8,
    number: i64,
    is_rising: bool,
    answer: &'a str,
}

/// Returns the number of a word, 0 where it spells none.
fn number_in(word: &str) -> i64 {
    word.parse::<i64>().unwrap_or(0)
}

/// Returns the line of a text.
fn line_of(text: &str) -> Line<'_> {
    let mut words = text.split(' ');
    let count = number_in(words.next().unwrap_or(""));
    let word = words.next().unwrap_or("");
    let client = number_in(words.next().unwrap_or(""));
    let number = words.next().unwrap_or("");
    let first = number.strip_suffix("+");
    Line {
        count,
        word,
        client: u8::try_from(client).unwrap_or(u8::MAX),
        number: number_in(first.unwrap_or(number)),
        is_rising: first.is_some(),
        answer: words.next().unwrap_or(""),
    }
}

/// Returns a line's step of this number, from 0.
fn step_of(line: &Line<'_>, k: i64) -> Option<Step> {
    let client = line.client;
    let number = if line.is_rising {
        line.number.saturating_add(k)
    } else {
        line.number
    };
    let count = number.unsigned_abs();
    match line.word {
        "make" => Some(Step::Make),
        "tick" => Some(Step::Tick),
        "at" => Some(Step::At { moment: count }),
        "ack" => Some(Step::Ack { make: count }),
        "deliver" => Some(Step::Deliver { call: count }),
        "answer" => Some(Step::Answer { call: count }),
        "register" => Some(Step::Register { client, number }),
        "drop" => Some(Step::Release { client, number }),
        "due" => Some(Step::Due { client }),
        _ => None,
    }
}

/// Returns whether a world answers a step so.
fn is_answered(
    alloc: Global,
    world: &mut World,
    step: Step,
    answer: &str,
) -> Result<bool, AllocError> {
    match world.step(step) {
        Ok(()) => Ok(answer == "taken"),
        Err(fault) => {
            let told = format!(in alloc; "{fault:?}")?;
            Ok(told.as_str() == answer)
        }
    }
}

/// Returns whether a world answers each step of a line as that says.
fn is_line(alloc: Global, world: &mut World, line: &Line<'_>) -> Result<bool, AllocError> {
    for k in 0..line.count {
        let Some(step) = step_of(line, k) else {
            return Ok(false);
        };
        if !is_answered(alloc, world, step, line.answer)? {
            return Ok(false);
        }
    }
    Ok(true)
}

/// The first line of a course whose answers are others, if there is one.
fn first_other_line(
    alloc: Global,
    course: &'static str,
) -> Result<Option<&'static str>, WorldFault> {
    let mut world = World::fresh(alloc, LEASE_MS, ACK_MS, CLIENTS)?;
    for line in course.split('\n') {
        let parts = line_of(line);
        if !is_line(alloc, &mut world, &parts)? {
            return Ok(Some(line));
        }
    }
    Ok(None)
}

/// The first line of all courses whose answers are others, if there is one.
pub(crate) fn first_other_answer(alloc: Global) -> Result<Option<&'static str>, WorldFault> {
    for course in COURSES.split("\n\n") {
        let other = first_other_line(alloc, course)?;
        if other.is_some() {
            return Ok(other);
        }
    }
    Ok(None)
}
