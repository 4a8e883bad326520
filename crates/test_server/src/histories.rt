//! The history that a server leaves, as text.
use crate::defined::{Defined, Prefix};
use crate::outlines::outline_of;
use crate::servers::{CONFIG, SPACE};
use crate::texts::must;
use history::{Ask, Event, Limits, Refused, Turn};
use history_model::turns::answers;
use journal::{put_event_line, read_event};
use ports::PortEntries;
use sequence::{ByteList, Same};
use space::{Asked, AskedEnd, Space, outline};
use std::alloc::{AllocError, Global};
use std::process::Abort;

/// Returns whether the outline of a space begins with this text.
pub(crate) fn begins_so(alloc: Global, space: &Space, text: &str) -> bool {
    if !space.is_stored() {
        return false;
    }
    match outline(alloc, space) {
        Ok(told) => told.as_slice().starts_with(text.as_bytes()),
        Err(_) => false,
    }
}

/// Appends the line of the event of an entry, which connection `by` made. An entry that was refused has none.
pub(crate) fn put_entry(
    text: &mut ByteList,
    alloc: Global,
    by: u32,
    entry: &Asked,
) -> Result<(), AllocError> {
    if let AskedEnd::Refused(_) = entry.end {
        return Ok(());
    }
    let event = Event {
        by,
        moment: entry.moment,
        ask: entry.ask.copy(alloc)?,
    };
    put_event_line(text, SPACE, &event)
}

/// The lines of the events of a connection's entries.
fn lines_of(rt: &impl Abort, alloc: Global, by: u32, entries: &PortEntries) -> ByteList {
    let mut text = ByteList::new(alloc);
    for place in 0..entries.len() {
        match entries.get(place) {
            Some(view) => {
                let put = put_entry(&mut text, alloc, by, view.entry());
                must(rt, put.is_ok(), "memory");
            }
            None => must(rt, false, "an entry"),
        }
    }
    text
}

/// Returns whether a line of a journal is of an event of connection `by`.
pub(crate) fn is_of(line: &str, by: u32) -> bool {
    match line.split_once(' ') {
        Some((number, _rest)) => number.parse::<u32>().ok() == Some(by),
        None => false,
    }
}

/// The lines of a journal's events of connection `by`.
fn lines_by(rt: &impl Abort, alloc: Global, by: u32, text: &str) -> ByteList {
    let mut lines = ByteList::new(alloc);
    for line in text.split('\n').skip(1) {
        if is_of(line, by) {
            must(rt, lines.append(line.as_bytes()).is_ok(), "memory");
            must(rt, lines.push(b'\n').is_ok(), "memory");
        }
    }
    lines
}

/// Looks whether the events of connection `by` in a journal are those of its entries, in their order.
pub(crate) fn check_own(
    rt: &impl Abort,
    alloc: Global,
    by: u32,
    entries: &PortEntries,
    text: &str,
) {
    let own = lines_of(rt, alloc, by, entries);
    let told = lines_by(rt, alloc, by, text);
    must(rt, own.as_slice() == told.as_slice(), "events of a link");
}

/// Takes the event of a journal's line.
fn take_line(rt: &impl Abort, alloc: Global, space: &mut Space, line: &str) {
    match read_event(alloc, SPACE, line.as_bytes()) {
        Ok(Some(event)) => {
            let Event { by, moment, ask } = event;
            let taken = moment < 1 << 62 && space.turn(by, moment, ask).is_ok();
            must(rt, taken, line);
        }
        _ => must(rt, false, line),
    }
}

/// The space that takes the events of a journal, one after another.
fn space_of(rt: &impl Abort, alloc: Global, text: &str) -> Space {
    let mut space = Space::fresh(alloc, &CONFIG);
    for line in text.split('\n').skip(1) {
        if !line.is_empty() {
            take_line(rt, alloc, &mut space, line);
        }
    }
    space
}

/// Looks whether a space is the one that the events of its journal make, one after another.
pub(crate) fn check_replayed(rt: &impl Abort, alloc: Global, space: &Space, text: &str) {
    let again = space_of(rt, alloc, text);
    if !space.is_stored() || !again.is_stored() {
        must(rt, false, "stored events");
        return;
    }
    match (outline(alloc, space), outline(alloc, &again)) {
        (Ok(told), Ok(wanted)) => must(rt, told.as_slice() == wanted.as_slice(), "outline"),
        _ => must(rt, false, "memory"),
    }
}

/// Appends the event of a journal's line.
fn put_event(rt: &impl Abort, alloc: Global, events: &mut Vec<Event>, line: &str) {
    match read_event(alloc, SPACE, line.as_bytes()) {
        Ok(Some(event)) => must(rt, events.push(event).is_ok(), "memory"),
        _ => must(rt, false, line),
    }
}

/// The events of a journal.
pub(crate) fn events_of(rt: &impl Abort, alloc: Global, text: &str) -> Vec<Event> {
    let mut events = Vec::new(alloc);
    for line in text.split('\n').skip(1) {
        if !line.is_empty() {
            put_event(rt, alloc, &mut events, line);
        }
    }
    events
}

/// Takes events one after another, and gives what each is answered.
pub(crate) fn take_all(
    rt: &impl Abort,
    alloc: Global,
    prefix: &mut Prefix,
    events: &[Event],
) -> Vec<Turn> {
    let mut turns = Vec::new(alloc);
    for event in events {
        match prefix.take(alloc, event) {
            Ok(turn) => must(rt, turns.push(turn).is_ok(), "memory"),
            Err(_full) => must(rt, false, "memory"),
        }
    }
    turns
}

/// Returns whether an entry was answered as the definitions answer the event at its index. None was refused, for these histories are short.
/// An entry that ended a call without an answer has an index alone.
pub(crate) fn is_defined(entry: &Asked, answers: &[Turn]) -> bool {
    match &entry.end {
        AskedEnd::Turned(turn) => match answers.get(turn.place as usize) {
            Some(wanted) => turn.is_same(wanted),
            None => false,
        },
        AskedEnd::Abandoned(place) => *place < answers.len() as u64,
        AskedEnd::Refused(_) => false,
    }
}

/// Looks whether a connection's entries were answered as the definitions answer.
pub(crate) fn check_answers(rt: &impl Abort, entries: &PortEntries, answers: &[Turn]) {
    for place in 0..entries.len() {
        match entries.get(place) {
            Some(view) => must(rt, is_defined(view.entry(), answers), "an answer"),
            None => must(rt, false, "an entry"),
        }
    }
}

/// Returns whether the outline of a space is that of a history by the definitions.
pub(crate) fn is_outlined(alloc: Global, space: &Space, defined: &Defined) -> bool {
    if !space.is_stored() {
        return false;
    }
    match (outline(alloc, space), outline_of(alloc, defined)) {
        (Ok(told), Ok(wanted)) => told.as_slice() == wanted.as_slice(),
        _ => false,
    }
}

/// Takes a Tick in place of each acknowledgement. As many events are then left, with as many units.
pub(crate) fn lose_acks(events: &mut [Event]) {
    for event in events {
        if let Ask::Ack { .. } = event.ask {
            event.ask = Ask::Tick;
        }
    }
}

/// Returns whether `history_model` answers the same.
fn are_plain(answers: &[Result<Turn, Refused>], turns: &[Turn]) -> bool {
    for (place, answer) in answers.iter().enumerate() {
        let same = match (answer, turns.get(place)) {
            (Ok(wanted), Some(turn)) => turn.is_same(wanted),
            _ => false,
        };
        if !same {
            return false;
        }
    }
    answers.len() == turns.len()
}

/// Looks whether `history_model` alone answers the events of a short history the same, and gives a history with the same outline.
pub(crate) fn check_plain(
    rt: &impl Abort,
    alloc: Global,
    events: &[Event],
    space: &Space,
    turns: &[Turn],
) {
    let limits = Limits::of_space(&CONFIG);
    match answers(alloc, &limits, &CONFIG, Vec::new(alloc), events) {
        Ok(wanted) => must(rt, are_plain(wanted.as_slice(), turns), "plain answers"),
        Err(_full) => must(rt, false, "memory"),
    }
    match Defined::plainly(alloc, events) {
        Ok(defined) => must(rt, is_outlined(alloc, space, &defined), "plain outline"),
        Err(_full) => must(rt, false, "memory"),
    }
}
