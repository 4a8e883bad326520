//! The definitions of histories, computed: transcripts of the model, which answers all events at once, and who holds an object.
use crate::answers::put_answer;
use crate::scripts::{MEMORY, config_of, must, put_script_line};
use history::{EventList, Limits, Refused, SpaceConfig, Turn};
use history_model::leases::is_held;
use history_model::places::now;
use history_model::table::{lease_calls, places};
use history_model::turns::answers;
use journal::read_event;
use object_ids::{ObjId, Uid};
use sequence::ByteList;
use std::alloc::{AllocError, Global};
use std::process::Abort;

/// The events that the lines of a script spell.
fn events_of(rt: &impl Abort, alloc: Global, space: Uid, lines: &str) -> EventList {
    let mut events = EventList::new(alloc);
    for line in lines.split('\n') {
        if is_input(line) {
            let event = read_event(alloc, space, line.as_bytes()).expect(rt, MEMORY);
            events.push(event.expect(rt, line)).expect(rt, MEMORY);
        }
    }
    events
}

fn is_input(line: &str) -> bool {
    matches!(line.as_bytes().first(), Some(b'0'..=b'9'))
}

/// The answers to a script's events in a space whose history has at most so many units.
fn answered(
    rt: &impl Abort,
    alloc: Global,
    units: u64,
    config: &SpaceConfig,
    lines: &str,
) -> Vec<Result<Turn, Refused>> {
    let mut limits = Limits::of_space(config);
    limits.units = units;
    let events = events_of(rt, alloc, config.uid, lines);
    answers(alloc, &limits, config, Vec::new(alloc), events.as_slice()).expect(rt, MEMORY)
}

/// A transcript's events with these answers. Its outlines stand as they are.
pub(crate) fn defined(rt: &impl Abort, alloc: Global, units: u64, script: &str) -> ByteList {
    let (first, lines) = script.split_once('\n').expect(rt, "lines");
    let config = config_of(rt, first);
    let answers = answered(rt, alloc, units, &config, lines);
    let mut text = ByteList::new(alloc);
    put_script_line(&mut text, first).expect(rt, MEMORY);
    put_answered(&mut text, config.uid, lines, answers.as_slice()).expect(rt, MEMORY);
    text
}

/// Appends the lines of a transcript that no answers are, and after each event its answer of these.
fn put_answered(
    text: &mut ByteList,
    space: Uid,
    lines: &str,
    answers: &[Result<Turn, Refused>],
) -> Result<(), AllocError> {
    let mut next = answers;
    for line in lines.split('\n') {
        next = put_with_answer(text, space, line, next)?;
    }
    Ok(())
}

/// Appends a line of a transcript that no answer is, and after an event its answer, the first of some; answers the others.
fn put_with_answer<'a>(
    text: &mut ByteList,
    space: Uid,
    line: &str,
    answers: &'a [Result<Turn, Refused>],
) -> Result<&'a [Result<Turn, Refused>], AllocError> {
    if line.is_empty() || line.starts_with('>') {
        return Ok(answers);
    }
    put_script_line(text, line)?;
    match answers {
        [answer, others @ ..] if is_input(line) => {
            put_answer(text, space, answer)?;
            Ok(others)
        }
        _ => Ok(answers),
    }
}

/// A weak clean, a dirty that was sent before it, and the acknowledgement. The history has 11 units.
const LATE_DIRTY: &str = "space 600000 300000 7 9
0 0 open 2 pinned
> opened 16
1 0 begin 16
> started 2
1 0 finish 16 1 - 1/0/0
> finished 17
1 12 dirty aa@1/0/0 5 600000 17
> granted 600000
1 13 clean aa@1/0/0 7 weak 17
> done
1 14 dirty aa@1/0/0 6 600000 17
> granted 600000
1 15 ack 1/0/0
";

const UNACKNOWLEDGED: &str = "space 600000 300000 7 9
0 0 open 2 pinned
> opened 16
1 0 begin 16
> started 2
1 0 finish 16 1 - 1/0/0
> finished 17
1 299999 tick
> done
1 300000 tick
";

/// Rows of scripts: the most units of the history, the script, and the answers at its end.
const COMPUTED: [(u64, &str, &str); 3] = [
    (11, LATE_DIRTY, "> done\n> gone 17\n"),
    (10, LATE_DIRTY, "> history full\n"),
    (100, UNACKNOWLEDGED, "> done\n> gone 17\n"),
];

/// Returns whether a text is a script and its end.
fn ends_so(text: &ByteList, script: &str, end: &str) -> bool {
    text.as_slice().strip_prefix(script.as_bytes()) == Some(end.as_bytes())
}

#[test]
fn definitions_are_computed(rt: HostRuntime) {
    for (units, script, end) in COMPUTED {
        let text = defined(&rt, rt.alloc(), units, script);
        must(&rt, ends_so(&text, script, end), script);
    }
}

/// Returns whether a client holds object 16 after some events.
fn is_16_held(rt: &impl Abort, alloc: Global, lines: &str) -> bool {
    let config = config_of(rt, "space 600000 300000 7 9");
    let object = ObjId {
        number: 16,
        space: config.uid,
    };
    let events = events_of(rt, alloc, config.uid, lines);
    let history = places(alloc, &config, events.as_slice()).expect(rt, MEMORY);
    let calls = lease_calls(alloc, history.as_slice()).expect(rt, MEMORY);
    let at = now(history.as_slice());
    is_held(alloc, config.lease_ms, at, calls.as_slice(), object).expect(rt, MEMORY)
}

/// Calls of which each, with those before it, decides otherwise than the last whether the object is held.
const CALLS: [(&str, bool); 3] = [
    (
        "0 0 open 2 pinned
1 1 clean aa@1/0/0 9 strong 16
1 2 dirty aa@1/0/0 8 600000 16",
        false,
    ),
    (
        "0 0 open 2 pinned
1 1 clean aa@1/0/0 9 strong 16
1 2 dirty aa@1/0/0 8 600000 16
1 3 dirty aa@1/0/0 10 600000 16",
        true,
    ),
    (
        "0 0 open 2 pinned
1 1 clean aa@1/0/0 9 strong 16
1 2 dirty aa@1/0/0 8 600000 16
1 3 dirty aa@1/0/0 10 600000 16
1 4 clean aa@1/0/0 10 weak 16",
        false,
    ),
];

#[test]
fn the_highest_number_decides(rt: HostRuntime) {
    for (lines, held) in CALLS {
        must(&rt, is_16_held(&rt, rt.alloc(), lines) == held, lines);
    }
}
