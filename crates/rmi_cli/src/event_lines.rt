//! The lines of events, written to a sink.
ghost use Rattle.std.specs.Prelude.{◌≡◌, ◌++◌, ◌<◌, length, map, IfOk};
ghost use Rattle.std.specs.List.{flat_map};
ghost use Rattle.journal.specs.Written.{event_line};
ghost use Rattle.rmi_cli.specs.Sinks.{Goes};

use crate::sink_state::{SinkState, write_made};
use history::Event;
use journal::put_event_line;
use object_ids::Uid;
use sequence::ByteList;
use std::alloc::{AllocError, Global};
use wire_io::sink::Sink;

/// The most lines that are written at once. A part of a journal has no more, so one write takes all of it.
const LINES_AT_ONCE: usize = 4_096;

/// Writes the lines of events, in the journal of the space of this identifier, and returns the sink's state after them.
pub(crate) fn write_events<K: Sink>(
    alloc: Global,
    sink: &mut K,
    state: SinkState,
    space: Uid,
    events: &[Event],
) -> SinkState
    ensures { Goes (K.half sink.old) (K.half sink.new) (map (event_line space) events.now) state
        result }
{
    let mut state = state;
    let mut rest = events;
    while !rest.is_empty() {
        let (front, more) = split_front(rest);
        state = write_made(sink, state, lines_of(alloc, space, front));
        rest = more;
    }
    state
}

/// Returns the events that are written next, at least one, and those after them.
fn split_front(events: &[Event]) -> (&[Event], &[Event])
    requires some { 0 < length events.now }
    ensures parts { events.now ≡ result.0.now ++ result.1.now }
    ensures some_front { 0 < length result.0.now }
    ensures fewer { length result.1.now < length events.now }
{
    events.split_at(events.len().min(LINES_AT_ONCE))
}

/// Returns the lines of events.
fn lines_of(alloc: Global, space: Uid, events: &[Event]) -> Result<ByteList, AllocError>
    ensures { IfOk result (λ text. text ≡ flat_map (event_line space) events.now) }
{
    let mut text = ByteList::new(alloc);
    for event in events {
        put_event_line(&mut text, space, event)?;
    }
    Ok(text)
}
