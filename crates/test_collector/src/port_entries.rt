//! Ports, turns with their entries, and whole lists of events.
use crate::answers::{put_refusal, put_turn};
use crate::scripts::{MEMORY, config_of, must, must_be};
use crate::transcripts::spelled_event;
use history::Refused;
use journal::Word;
use journal::outline::put_line;
use ports::{DirectPort, Port};
use sequence::{ByteList, Same};
use space::{Ask, Asked, AskedEnd, AskedList, Reply, Space, Turn, Turns};
use std::alloc::{AllocError, Global};
use std::process::Abort;
use test_support::spaces::{FIRST, SPACE};

/// A pinned object of kind 3, exported.
fn opening() -> Ask {
    Ask::Open {
        kind: 3,
        pinned: true,
    }
}

/// Exports an object, and answers whether the turn was taken.
fn is_opened(space: &mut Space) -> bool {
    space.turn(0, 0, opening()).is_ok()
}

/// A space with one exported object, which is pinned.
fn space_of_one(rt: &impl Abort, alloc: Global) -> Space {
    let config = config_of(rt, "space 10 2 7 9");
    let mut space = Space::fresh(alloc, &config);
    must(rt, is_opened(&mut space), "opened");
    space
}

/// The entries of a port: of a call that begins and ends without an answer, of another one, and of a return that no table has room for.
fn entries(rt: &impl Abort, alloc: Global, space: &mut Space) -> AskedList {
    let many = spelled_event(rt, alloc, SPACE, "2 7 finish 16 1*65536 16 1/0/1");
    let mut port = DirectPort::new(alloc, space, 2);
    match port.turn(5, Ask::Begin { object: FIRST }) {
        Ok(begun) => match begun.reply {
            Reply::Started(_kind) => port.abandon(4, FIRST),
            _ => panic!(rt; "no call"),
        },
        Err(_refused) => panic!(rt; "refused"),
    }
    let again = port.turn(6, Ask::Begin { object: FIRST });
    must(rt, again.is_ok(), "again");
    let refused = port.turn(many.moment, many.ask);
    must(rt, refused.is_err(), "refused");
    port.into_asked().to_list(alloc).expect(rt, MEMORY)
}

/// Appends the moment of an entry, and how it ended.
fn put_entry(text: &mut ByteList, entry: &Asked) -> Result<(), AllocError> {
    put_line(text, &[Word::Text(b"at"), Word::Number(entry.moment)])?;
    match &entry.end {
        AskedEnd::Turned(turn) => put_turn(text, SPACE, turn),
        AskedEnd::Abandoned(place) => {
            put_line(text, &[Word::Text(b"> abandoned"), Word::Number(*place)])
        }
        AskedEnd::Refused(refused) => put_refusal(text, *refused),
    }
}

const ENTRIES: &str = "at 5
> started 3
at 4
> abandoned 2
at 6
> started 3
at 7
> exports full
";

#[test]
fn a_port_enters_its_turns(rt: HostRuntime) {
    let alloc = rt.alloc();
    let mut space = space_of_one(&rt, alloc);
    let entries = entries(&rt, alloc, &mut space);
    let mut text = ByteList::new(alloc);
    for entry in entries.as_slice() {
        put_entry(&mut text, entry).expect(&rt, MEMORY);
    }
    must_be(&rt, &text, ENTRIES);
    must(&rt, space.len() == 4, "events");
    must(&rt, space.running(2, FIRST) == 1, "running");
    let port = DirectPort::new(alloc, &mut space, 2);
    must(&rt, port.room() == u64::MAX, "room");
}

/// The space of three openings, and their turns.
fn three_turns(rt: &impl Abort, alloc: Global) -> Result<(Space, Turns), AllocError> {
    let config = config_of(rt, "space 10 2 7 9");
    let mut events = Vec::new(alloc);
    events.push(spelled_event(rt, alloc, SPACE, "0 1 open 3 pinned"))?;
    events.push(spelled_event(rt, alloc, SPACE, "0 1 open 4 free"))?;
    events.push(spelled_event(rt, alloc, SPACE, "0 1 open 5 pinned"))?;
    Space::of_events(alloc, &config, events)
}

#[test]
fn lists_of_events(rt: HostRuntime) {
    let (space, answered) = three_turns(&rt, rt.alloc()).expect(&rt, MEMORY);
    must(&rt, answered.turns.len() == 3, "turns");
    must(&rt, answered.refused.is_none(), "refused");
    let objects = space.exported_objects().expect(&rt, MEMORY);
    must(&rt, objects.len() == 2, "objects");
    let kind = objects.last().and_then(|last| space.kind_of(last.id));
    must(&rt, kind == Some(5), "the last");
}

/// Returns whether an answer is that of the entry of an opening at the moment 4.
fn is_entered(answer: &Result<Turn, Refused>, entry: &Asked) -> bool {
    match (answer, &entry.end) {
        (Ok(turn), AskedEnd::Turned(copy)) => {
            turn.is_same(copy) && entry.moment == 4 && entry.ask.is_same(&opening())
        }
        _ => false,
    }
}

/// Returns whether an opening at the moment 4 is answered as its entry says.
fn is_noted(space: &mut Space) -> bool {
    match space.turn_noted(2, 4, opening()) {
        Ok(noted) => is_entered(&noted.0, &noted.1),
        Err(_refused) => false,
    }
}

#[test]
fn turns_with_their_entries(rt: HostRuntime) {
    let mut space = space_of_one(&rt, rt.alloc());
    must(&rt, is_noted(&mut space), "entered");
}
