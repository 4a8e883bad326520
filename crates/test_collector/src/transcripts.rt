//! Transcripts of spaces: a journal's lines, each with what a space answers. Lines that begin with a digit are events, behind `*N` N times
//! the same, and those that begin with `!` are abandons that take no memory; a line `?` asks for the outline, `=` for the journal, and `#` for the summary. All else is
//! written by the space.
ghost use Rattle.std.specs.Prelude.{◌<◌};
ghost use Rattle.history.specs.declared.limits.TheConstants.{END_OF_TIME};

use crate::answers::put_answer;
use crate::scripts::{MEMORY, config_of, put_script_line};
use history::limits::END_OF_TIME;
use history::{Ask, Event};
use journal::read_event;
use object_ids::{ObjId, Uid};
use sequence::ByteList;
use space::{Space, journal, outline, summary};
use std::alloc::{AllocError, Global};
use std::process::Abort;

/// Returns the transcript of a space that takes the inputs of a transcript.
pub(crate) fn transcript(rt: &impl Abort, alloc: Global, script: &str) -> ByteList {
    let (first, lines) = script.split_once('\n').expect(rt, "lines");
    let config = config_of(rt, first);
    let mut space = Space::fresh(alloc, &config);
    let mut text = ByteList::new(alloc);
    put_script_line(&mut text, first).expect(rt, MEMORY);
    for line in lines.split('\n') {
        put_line_of(rt, alloc, &mut space, config.uid, line, &mut text);
    }
    text
}

/// Appends a line, if it is an input, and what comes of it.
fn put_line_of(
    rt: &impl Abort,
    alloc: Global,
    space: &mut Space,
    uid: Uid,
    line: &str,
    text: &mut ByteList,
) {
    let Some(first) = line.as_bytes().first() else {
        return;
    };
    if matches!(first, b'0'..=b'9' | b'*' | b'!' | b'?' | b'=' | b'#') {
        put_script_line(text, line).expect(rt, MEMORY);
    }
    match first {
        b'0'..=b'9' => put_turned(rt, alloc, space, uid, line, 1, text),
        b'*' => put_turns(rt, alloc, space, uid, line, text),
        b'!' => abandon(rt, alloc, space, uid, line),
        b'?' => put_of(rt, text, outline_of(rt, alloc, space)),
        b'=' => put_of(rt, text, journal_of(rt, alloc, space)),
        b'#' => put_of(rt, text, summary(alloc, space)),
        _ => {}
    }
}

/// The outline of a space, which keeps its events.
fn outline_of(rt: &impl Abort, alloc: Global, space: &Space) -> Result<ByteList, AllocError> {
    assert!(rt; space.is_stored(), "stored events");
    outline(alloc, space)
}

/// The journal of a space, which keeps its events.
fn journal_of(rt: &impl Abort, alloc: Global, space: &Space) -> Result<ByteList, AllocError> {
    assert!(rt; space.is_stored(), "stored events");
    journal(alloc, space)
}

/// Appends what a space tells of itself.
fn put_of(rt: &impl Abort, text: &mut ByteList, told: Result<ByteList, AllocError>) {
    let told = told.expect(rt, MEMORY);
    text.append(told.as_slice()).expect(rt, MEMORY);
}

/// Makes the turns of a line that begins with `*` and how many there are.
fn put_turns(
    rt: &impl Abort,
    alloc: Global,
    space: &mut Space,
    uid: Uid,
    line: &str,
    text: &mut ByteList,
) {
    let (count, line) = line.split_once(' ').expect(rt, "a count");
    let count = count.trim_start_matches('*').parse::<u32>();
    put_turned(
        rt,
        alloc,
        space,
        uid,
        line,
        count.expect(rt, "a count"),
        text,
    );
}

/// Makes the turn that a line spells so many times, and appends the answers.
fn put_turned(
    rt: &impl Abort,
    alloc: Global,
    space: &mut Space,
    uid: Uid,
    line: &str,
    count: u32,
    text: &mut ByteList,
) {
    let event = spelled_event(rt, alloc, uid, line);
    for _ in 0..count {
        let ask = event.ask.copy(alloc).expect(rt, MEMORY);
        let answer = space.turn(event.by, event.moment, ask);
        put_answer(text, uid, &answer).expect(rt, MEMORY);
    }
}

/// The event that a line spells. In a line, `N*K` stands for K numbers N, joined by commas.
pub(crate) fn spelled_event(rt: &impl Abort, alloc: Global, uid: Uid, line: &str) -> Event
    ensures moment { result.moment < END_OF_TIME }
{
    let line = in_full(rt, alloc, line);
    let event = read_event(alloc, uid, line.as_slice()).expect(rt, MEMORY);
    let event = event.expect(rt, "an event");
    assert!(rt; event.moment < END_OF_TIME, "a moment");
    event
}

/// A line with all its numbers.
fn in_full(rt: &impl Abort, alloc: Global, line: &str) -> ByteList {
    let mut text = ByteList::new(alloc);
    for word in line.split(' ') {
        put_word(&mut text, word).expect(rt, MEMORY);
    }
    text.truncate(text.len().saturating_sub(1));
    text
}

/// Appends a word with all its numbers, and a space.
fn put_word(text: &mut ByteList, word: &str) -> Result<(), AllocError> {
    let (number, times) = word.split_once('*').unwrap_or((word, "1"));
    for k in 0..times.parse::<u32>().unwrap_or(0) {
        if k > 0 {
            text.push(b',')?;
        }
        text.append(number.as_bytes())?;
    }
    text.push(b' ')
}

/// Ends the call of which a line, after a `!`, spells the abandon.
pub(crate) fn abandon(rt: &impl Abort, alloc: Global, space: &mut Space, uid: Uid, line: &str) {
    let line = line.strip_prefix("! ").expect(rt, "an abandon");
    let event = spelled_event(rt, alloc, uid, line);
    let object = abandoned(&event.ask).expect(rt, "an abandon");
    assert!(rt; space.running(event.by, object) > 0, "a running call");
    space.abandon(event.by, event.moment, object);
}

/// The object of which a call is abandoned.
fn abandoned(ask: &Ask) -> Option<ObjId> {
    match ask {
        Ask::Abandon { object } => Some(*object),
        _ => None,
    }
}
