//! Transcripts of a client's table: each line is a call, `>` and what it answers. `new N` begins with a table whose first number is N.
ghost use Rattle.std.specs.Prelude.{◌<◌, ◌≤◌};
ghost use Rattle.dgc_client.specs.declared.limits.TheConstants.{END_OF_TIME, MAX_GRANTED_MS};

use crate::answers::{numbered, put_bool, put_fault, put_moment, put_planned, put_ref};
use dgc_client::limits::END_OF_TIME;
use dgc_client::{ClientTable, MAX_GRANTED_MS};
use object_ids::{Uid, Vmid};
use sequence::ByteList;
use std::alloc::{AllocError, Global};
use std::process::Abort;

/// The message where a test finds no memory.
pub(crate) const MEMORY: &str = "memory";

/// The table of a client that has made no calls.
pub(crate) fn table_from(rt: &impl Abort, alloc: Global, first: i64) -> ClientTable {
    let uid = Uid {
        unique: 3,
        time: 4,
        count: 5,
    };
    let vmid = Vmid::new(ByteList::new(alloc), uid).expect(rt, "a client");
    ClientTable::new(alloc, vmid, first)
}

/// The number that a word spells.
fn number_in(rt: &impl Abort, word: Option<&str>) -> i64 {
    word.expect(rt, "a number")
        .parse::<i64>()
        .expect(rt, "a number")
}

/// The moment that a word spells.
fn moment_in(rt: &impl Abort, word: Option<&str>) -> u64
    ensures { result < END_OF_TIME }
{
    let moment = word
        .expect(rt, "a moment")
        .parse::<u64>()
        .expect(rt, "a moment");
    assert!(rt; moment < END_OF_TIME, "a moment");
    moment
}

/// The duration that a word spells.
fn duration_in(rt: &impl Abort, word: Option<&str>) -> u64
    ensures { result ≤ MAX_GRANTED_MS }
{
    let duration = word
        .expect(rt, "a duration")
        .parse::<u64>()
        .expect(rt, "a duration");
    assert!(rt; duration <= MAX_GRANTED_MS, "a duration");
    duration
}

/// Appends what is answered to a call that plans or registers something.
fn put_changed(
    rt: &impl Abort,
    alloc: Global,
    table: &mut ClientTable,
    call: &str,
    text: &mut ByteList,
) -> Result<(), AllocError> {
    let mut words = call.split(' ');
    match words.next() {
        Some("register") => match table.register(numbered(number_in(rt, words.next()))) {
            Ok(new) => put_bool(text, new),
            Err(fault) => put_fault(text, fault),
        },
        Some("drop") => {
            let object = numbered(number_in(rt, words.next()));
            let planned = table.drop_ref(object, moment_in(rt, words.next()));
            put_planned(alloc, text, planned)
        }
        Some("due") => {
            let planned = table.due(moment_in(rt, words.next()));
            put_planned(alloc, text, planned)
        }
        _ => put_asked(rt, alloc, table, call, text),
    }
}

/// Appends what is answered to any other call.
fn put_asked(
    rt: &impl Abort,
    alloc: Global,
    table: &mut ClientTable,
    call: &str,
    text: &mut ByteList,
) -> Result<(), AllocError> {
    let mut words = call.split(' ');
    match words.next() {
        Some("answered") => {
            let number = number_in(rt, words.next());
            let granted = duration_in(rt, words.next());
            put_bool(
                text,
                table.answered(number, granted, moment_in(rt, words.next())),
            )
        }
        Some("failed") => {
            table.failed(number_in(rt, words.next()));
            Ok(())
        }
        Some("usable") => {
            let object = numbered(number_in(rt, words.next()));
            put_bool(text, table.usable(object, moment_in(rt, words.next())))
        }
        _ => put_state(alloc, table, text),
    }
}

/// Appends the end of the client's time, and its references.
fn put_state(alloc: Global, table: &ClientTable, text: &mut ByteList) -> Result<(), AllocError> {
    put_moment(alloc, text, table.until())?;
    let list = table.refs().list(alloc)?;
    for reference in &list {
        put_ref(alloc, text, reference)?;
    }
    Ok(())
}

/// Makes the calls of a transcript, and compares what each answers.
fn play(rt: &impl Abort, alloc: Global, transcript: &str) {
    let mut table = table_from(rt, alloc, 0);
    for line in transcript.split('\n') {
        if let Some((call, wanted)) = line.split_once(" >") {
            let mut text = ByteList::new(alloc);
            put_changed(rt, alloc, &mut table, call, &mut text).expect(rt, MEMORY);
            assert!(rt; text.as_slice() == wanted.as_bytes(), "{line}");
        } else if let Some(first) = line.strip_prefix("new ") {
            table = table_from(rt, alloc, number_in(rt, Some(first)));
        }
    }
}

/// The numbers end before the greatest: a call that needs one is refused, and any other is not.
const SPENT: &str = "new 9223372036854775807
due 0 > none
register 17 > true
due 0 > spent
drop 17 0 > spent
drop 18 0 > none
register 17 > false
state > 0 / 17 9223372036854775807 unsure weak
new 9223372036854775806
register 17 > true
due 0 > dirty 9223372036854775806 17
due 0 > none
drop 17 0 > spent
failed 9223372036854775806 >
state > 0 / 17 9223372036854775806 unsure strong";

/// A lease is granted, renewed half of the time later, and goes to its end.
const RENEWED: &str = "new -5
state > 0
register 17 > true
register 18 > true
register 17 > false
usable 17 0 > false
due 10 > dirty -5 17 18
due 10 > none
register 19 > true
due 11 > dirty -4 19
answered -5 100 12 > true
state > 110 / 17 -5 sure weak / 18 -5 sure weak / 19 -4 unsure weak
usable 17 109 > true
usable 17 110 > false
usable 19 12 > false
answered -5 100 12 > false
answered -4 100 12 > true
due 60 > none
due 61 > dirty -3
due 200 > dirty -2 17 18 19
answered -3 100 160 > true
state > 161 / 17 -5 unsure weak / 18 -5 unsure weak / 19 -4 unsure weak
answered -2 10 209 > true
state > 210 / 17 -5 sure weak / 18 -5 sure weak / 19 -4 sure weak
drop 18 209 > weak -1 18
state > 210 / 17 -5 sure weak / 19 -4 sure weak
answered -1 0 209 > false
register 18 > true
state > 210 / 17 -5 sure weak / 19 -4 sure weak / 18 0 unsure weak";

/// An answer counts before the granted duration has passed since the call was planned, and not one millisecond later.
const LATE: &str = "new 1
register 17 > true
due 1000 > dirty 1 17
answered 1 600 1599 > true
state > 1600 / 17 1 sure weak
new 1
register 17 > true
due 1000 > dirty 1 17
answered 1 600 1600 > false
state > 0 / 17 1 unsure weak
due 1600 > dirty 2 17
answered 2 0 1600 > false
due 1700 > dirty 3 17
answered 3 1099511627776 1700 > true
state > 1099511629476 / 17 1 sure weak";

/// A failed dirty call makes all references strong that it names, and no other call does. An answer that comes after the client's time makes those unsure
/// that it does not name, and one to a call sent before the reference was registered does not confirm it.
const FAILED: &str = "new 1
register 17 > true
register 18 > true
due 0 > dirty 1 17 18
drop 17 1 > weak 2 17
register 17 > true
answered 1 100 2 > true
state > 100 / 18 1 sure weak / 17 3 unsure weak
due 3 > dirty 3 17
failed 3 >
state > 100 / 18 1 sure weak / 17 3 unsure strong
drop 17 4 > strong 4 17
failed 4 >
register 17 > true
due 5 > dirty 5 17
due 50 > none
answered 5 100 101 > true
state > 105 / 18 1 unsure weak / 17 5 sure weak
due 102 > dirty 6 18
drop 18 103 > weak 7 18
register 18 > true
failed 6 >
state > 105 / 17 5 sure weak / 18 8 unsure strong
answered 6 100 104 > false";

#[test]
fn calls_answer_as_their_transcripts_say(rt: HostRuntime) {
    for transcript in [SPENT, RENEWED, LATE, FAILED] {
        play(&rt, rt.alloc(), transcript);
    }
}
