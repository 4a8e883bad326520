//! Transcripts of lease tables: a journal's lines of lease calls, and of ticks, which let time pass. A line `? MOMENT` asks for the remembered
//! pairs, for the holders of objects 16 and 17, and for the clients with time left; `! NUMBER,..` drops objects. A line `# MOMENT` asks whether a
//! lease may end as time passes to that moment, and for the objects that some client holds and none holds then.
ghost use Rattle.std.specs.Prelude.{◌<◌};
ghost use Rattle.history.specs.declared.limits.TheConstants.{END_OF_TIME};

use crate::scripts::{MEMORY, must_be, put_script_line};
use crate::transcripts::spelled_event;
use dgc_server::Leases;
use history::Ask;
use journal::Word;
use journal::outline::{put_lease_line, put_line};
use object_ids::{ObjId, Uid};
use sequence::ByteList;
use std::alloc::{AllocError, Global};
use std::process::Abort;

const SPACE: Uid = Uid {
    unique: -1,
    time: -5,
    count: 0,
};

fn numbered(number: i64) -> ObjId {
    ObjId {
        number,
        space: SPACE,
    }
}

/// Appends a line, if it is an input, and what comes of it.
fn put_line_of(
    rt: &impl Abort,
    alloc: Global,
    leases: &mut Leases,
    line: &str,
    text: &mut ByteList,
) {
    if line.is_empty() || line.starts_with('>') {
        return;
    }
    put_script_line(text, line).expect(rt, MEMORY);
    if let Some(moment) = line.strip_prefix("? ") {
        let moment = moment.parse::<u64>().expect(rt, "a moment");
        put_table(alloc, leases, moment, text).expect(rt, MEMORY);
    } else if let Some(moment) = line.strip_prefix("# ") {
        let moment = moment.parse::<u64>().expect(rt, "a moment");
        put_ended(alloc, leases, moment, text).expect(rt, MEMORY);
    } else if let Some(numbers) = line.strip_prefix("! ") {
        drop_told(rt, alloc, leases, numbers);
    } else {
        put_told(rt, alloc, leases, line, text);
    }
}

/// Drops the objects of these numbers, between which commas stand.
fn drop_told(rt: &impl Abort, alloc: Global, leases: &mut Leases, numbers: &str) {
    let mut objects = Vec::new(alloc);
    for number in numbers.split(',') {
        let number = number.parse::<i64>().expect(rt, "a number");
        objects.push(numbered(number)).expect(rt, MEMORY);
    }
    leases.drop_objects(&objects);
}

/// Tells the table of the call that a line spells, and appends the answer.
fn put_told(rt: &impl Abort, alloc: Global, leases: &mut Leases, line: &str, text: &mut ByteList) {
    let event = spelled_event(rt, alloc, SPACE, line);
    tell(leases, event.moment, &event.ask, text).expect(rt, MEMORY);
}

/// Tells the table of a call, or that time has passed, and appends the answer.
fn tell(leases: &mut Leases, moment: u64, ask: &Ask, text: &mut ByteList) -> Result<(), AllocError>
    requires { moment < END_OF_TIME }
{
    match ask {
        Ask::Dirty {
            client,
            number,
            asked,
            objects,
        } => match leases.dirty(client, *number, *asked, objects, moment) {
            Ok(granted) => put_line(text, &[Word::Text(b"> granted"), Word::Number(granted)]),
            Err(_fault) => text.append(b"> refused\n"),
        },
        Ask::Clean {
            client,
            number,
            objects,
            strong,
        } => match leases.clean(client, *number, objects, *strong, moment) {
            Ok(()) => text.append(b"> done\n"),
            Err(_fault) => text.append(b"> refused\n"),
        },
        Ask::Tick => {
            leases.lapse(moment);
            Ok(())
        }
        _ => text.append(b"> no lease call\n"),
    }
}

/// Appends what a table answers of a moment.
fn put_table(
    alloc: Global,
    leases: &Leases,
    moment: u64,
    text: &mut ByteList,
) -> Result<(), AllocError> {
    let pairs = u64::from(leases.pairs(moment));
    put_line(text, &[Word::Text(b"> pairs"), Word::Number(pairs)])?;
    for number in [16, 17] {
        put_holders(leases, numbered(number), moment, text)?;
    }
    put_clients(alloc, leases, moment, text)
}

/// Appends the clients with time left.
fn put_clients(
    alloc: Global,
    leases: &Leases,
    moment: u64,
    text: &mut ByteList,
) -> Result<(), AllocError> {
    let rows = leases.clients(alloc, moment)?;
    for row in rows.as_slice() {
        text.append(b"> ")?;
        put_lease_line(text, &row.client, row.until)?;
    }
    Ok(())
}

fn put_holders(
    leases: &Leases,
    object: ObjId,
    moment: u64,
    text: &mut ByteList,
) -> Result<(), AllocError> {
    let state: &[u8] = if leases.is_held(object, moment) {
        b"held by"
    } else {
        b"free of"
    };
    let named = Word::Object {
        space: SPACE,
        object,
    };
    let holders = u64::from(leases.holders(object, moment));
    put_line(
        text,
        &[
            Word::Text(b">"),
            named,
            Word::Text(state),
            Word::Number(holders),
        ],
    )
}

/// Appends whether a lease may end as time passes to a moment, and the objects that are freed then.
fn put_ended(
    alloc: Global,
    leases: &Leases,
    moment: u64,
    text: &mut ByteList,
) -> Result<(), AllocError> {
    let due: &[u8] = if leases.is_due(moment) {
        b"due"
    } else {
        b"none due"
    };
    put_line(text, &[Word::Text(b">"), Word::Text(due)])?;
    let freed = freed_numbers(alloc, leases, moment)?;
    for number in freed.as_slice() {
        put_line(text, &[Word::Text(b"> freed"), Word::Signed(*number)])?;
    }
    Ok(())
}

/// The numbers of the objects that none holds any more once time has passed to a moment, in order, each once. A table may tell of more that
/// lose a holder: those that another client holds then are left out.
fn freed_numbers(alloc: Global, leases: &Leases, moment: u64) -> Result<Vec<i64>, AllocError> {
    let told = leases.freed_objects(alloc, moment)?;
    let mut numbers = Vec::new(alloc);
    for object in told.as_slice() {
        if !leases.is_held(*object, moment) {
            numbers.push(object.number)?;
        }
    }
    numbers.sort_unstable();
    numbers.dedup();
    Ok(numbers)
}

const LEASE_OF_100: &str = "1 70 dirty 00@3/4/5 1 100 16
> granted 100
? 0
> pairs 1
> 16 held by 1
> 17 free of 0
> lease 00@3/4/5 until 170
? 169
> pairs 1
> 16 held by 1
> 17 free of 0
> lease 00@3/4/5 until 170
? 170
> pairs 0
> 16 free of 0
> 17 free of 0
";

const STRONG_CLEAN: &str = "1 1 clean aa@3/4/5 -1 strong 16
> done
1 9 dirty aa@3/4/5 6 1 16
> granted 1
? 9
> pairs 1
> 16 held by 1
> 17 free of 0
> lease aa@3/4/5 until 10
1 10 tick
1 18 dirty aa@3/4/5 -9223372036854775808 1 16,17,16
> granted 1
? 18
> pairs 2
> 16 free of 0
> 17 held by 1
> lease aa@3/4/5 until 19
! 16
? 18
> pairs 1
> 16 free of 0
> 17 held by 1
> lease aa@3/4/5 until 19
1 18 dirty aa@3/4/5 0 1 16
> granted 1
? 18
> pairs 2
> 16 held by 1
> 17 held by 1
> lease aa@3/4/5 until 19
? 19
> pairs 0
> 16 free of 0
> 17 free of 0
";

const LATE_DIRTY: &str = "1 0 dirty 01@3/4/5 1 100 16,17
> granted 100
1 0 dirty -@3/4/5 1 100 16,17
> granted 100
1 1 clean 01@3/4/5 5 weak 16
> done
1 2 dirty 01@3/4/5 5 100 16,17
> granted 100
? 2
> pairs 4
> 16 held by 1
> 17 held by 2
> lease -@3/4/5 until 100
> lease 01@3/4/5 until 102
";

// Of the objects that go at once one is named twice, and one by no call.
const DROPPED_AT_ONCE: &str = "1 10 dirty 01@3/4/5 1 100 16,17,18,19,20,21,22
> granted 100
1 20 dirty 02@3/4/5 1 100 17,18,23
> granted 100
1 20 clean 03@3/4/5 1 strong 19,21
> done
! 18,17,19,20,20,99,21
? 20
> pairs 3
> 16 held by 1
> 17 free of 0
> lease 01@3/4/5 until 110
> lease 02@3/4/5 until 120
1 21 dirty 02@3/4/5 1 100 17
> granted 100
? 21
> pairs 4
> 16 held by 1
> 17 held by 1
> lease 01@3/4/5 until 110
> lease 02@3/4/5 until 121
# 121
> due
> freed 16
> freed 17
> freed 22
> freed 23
! 16,17,18,19,22,23
? 21
> pairs 0
> 16 free of 0
> 17 free of 0
> lease 01@3/4/5 until 110
> lease 02@3/4/5 until 121
";

// A client's objects are few, and more than eight from the second call on.
const FEW_AND_MANY: &str = "1 10 dirty 01@3/4/5 1 100 16,17,18,19,20,21,22,23
> granted 100
? 10
> pairs 8
> 16 held by 1
> 17 held by 1
> lease 01@3/4/5 until 110
1 20 dirty 01@3/4/5 2 100 24,17
> granted 100
? 20
> pairs 9
> 16 held by 1
> 17 held by 1
> lease 01@3/4/5 until 120
1 30 clean 01@3/4/5 3 weak 16
> done
1 31 clean 01@3/4/5 1 strong 17
> done
? 31
> pairs 9
> 16 free of 0
> 17 held by 1
> lease 01@3/4/5 until 120
! 18,24
? 31
> pairs 7
> 16 free of 0
> 17 held by 1
> lease 01@3/4/5 until 120
# 120
> due
> freed 17
> freed 19
> freed 20
> freed 21
> freed 22
> freed 23
1 120 tick
? 120
> pairs 1
> 16 free of 0
> 17 free of 0
1 130 dirty 01@3/4/5 1 100 17,25
> granted 100
? 130
> pairs 2
> 16 free of 0
> 17 free of 0
> lease 01@3/4/5 until 230
";

// A client names its objects again, some of them twice in one call: at the limit of a list, beyond it, and once the lease is over.
const NAMED_AGAIN: &str = "1 0 dirty 01@3/4/5 1 100 16
> granted 100
1 1 dirty 01@3/4/5 2 100 16
> granted 100
1 2 dirty 01@3/4/5 3 100 16,16,16
> granted 100
? 2
> pairs 1
> 16 held by 1
> 17 free of 0
> lease 01@3/4/5 until 102
1 3 dirty 01@3/4/5 4 100 16,17,18,19,20
> granted 100
1 4 dirty 01@3/4/5 5 100 20,19,18,17,16
> granted 100
1 5 dirty 01@3/4/5 6 100 21,22,16,22
> granted 100
? 5
> pairs 7
> 16 held by 1
> 17 held by 1
> lease 01@3/4/5 until 105
1 6 dirty 01@3/4/5 7 100 23
> granted 100
1 7 dirty 01@3/4/5 8 100 16,17,18,19,20,21,22,23,16,17
> granted 100
? 7
> pairs 8
> 16 held by 1
> 17 held by 1
> lease 01@3/4/5 until 107
1 8 clean 01@3/4/5 9 weak 17,17
> done
1 9 clean 01@3/4/5 10 strong 16
> done
? 9
> pairs 8
> 16 free of 0
> 17 free of 0
> lease 01@3/4/5 until 107
1 10 dirty 01@3/4/5 11 100 17,24,24
> granted 100
? 10
> pairs 9
> 16 free of 0
> 17 held by 1
> lease 01@3/4/5 until 110
1 200 dirty 01@3/4/5 12 100 16,17,17
> granted 100
? 200
> pairs 2
> 16 held by 1
> 17 held by 1
> lease 01@3/4/5 until 300
1 300 tick
? 300
> pairs 1
> 16 free of 0
> 17 free of 0
";

// Leases that end at 169, 170 and 171.
const ENDS: &str = "# 4611686018427387903
> none due
1 69 dirty 01@3/4/5 1 100 18
> granted 100
1 70 dirty 02@3/4/5 1 100 17
> granted 100
1 71 dirty 03@3/4/5 1 100 16
> granted 100
# 0
> none due
# 168
> none due
# 169
> due
> freed 18
# 170
> due
> freed 17
> freed 18
# 171
> due
> freed 16
> freed 17
> freed 18
1 170 tick
# 170
> none due
# 171
> due
> freed 16
";

const TWO_HOLDERS: &str = "1 10 dirty 01@3/4/5 1 100 16
> granted 100
1 20 dirty 02@3/4/5 1 100 17,16
> granted 100
# 109
> none due
# 110
> due
# 119
> due
# 120
> due
> freed 16
> freed 17
1 110 tick
# 119
> none due
# 120
> due
> freed 16
> freed 17
";

const HELD_AGAIN: &str = "1 0 dirty 01@3/4/5 1 100 16,17
> granted 100
# 99
> none due
# 100
> due
> freed 16
> freed 17
1 100 dirty 01@3/4/5 2 100 16
> granted 100
? 100
> pairs 1
> 16 held by 1
> 17 free of 0
> lease 01@3/4/5 until 200
# 199
> none due
# 200
> due
> freed 16
1 150 clean 01@3/4/5 3 weak 16
> done
# 200
> due
1 160 dirty 01@3/4/5 4 100 16,17
> granted 100
# 199
> none due
# 260
> due
> freed 16
> freed 17
";

const STRONG_CLEAN_LEFT: &str = "1 9 dirty aa@3/4/5 6 100 16,17
> granted 100
1 10 clean aa@3/4/5 7 strong 16
> done
# 108
> none due
# 109
> due
> freed 17
1 109 tick
? 109
> pairs 1
> 16 free of 0
> 17 free of 0
# 4611686018427387903
> none due
1 200 dirty aa@3/4/5 7 100 16,17
> granted 100
# 299
> none due
# 300
> due
> freed 17
1 201 dirty aa@3/4/5 8 100 16
> granted 100
# 301
> due
> freed 16
> freed 17
";

// The durations that dirties are granted. One that asks for 1 to the configured lease is granted what it asks for, any
// other the configured lease. A dirty that asks for less goes on with the tenure and leaves the end of the lease, and
// so does one without objects. One that comes when the lease has ended opens another tenure.
const GRANTED: &str = "1 0 dirty 01@3/4/5 1 50 16
> granted 50
1 20 dirty 01@3/4/5 2 10 17
> granted 10
? 20
> pairs 2
> 16 held by 1
> 17 held by 1
> lease 01@3/4/5 until 50
# 49
> none due
# 50
> due
> freed 16
> freed 17
1 30 dirty 01@3/4/5 3 20 -
> granted 20
? 30
> pairs 2
> 16 held by 1
> 17 held by 1
> lease 01@3/4/5 until 50
1 40 dirty 01@3/4/5 4 11 -
> granted 11
? 50
> pairs 2
> 16 held by 1
> 17 held by 1
> lease 01@3/4/5 until 51
1 51 dirty 01@3/4/5 5 1 17
> granted 1
? 51
> pairs 1
> 16 free of 0
> 17 held by 1
> lease 01@3/4/5 until 52
1 51 dirty 02@3/4/5 1 101 16
> granted 100
1 51 dirty 03@3/4/5 1 100 16
> granted 100
1 51 dirty 04@3/4/5 1 0 16
> granted 100
1 51 dirty 05@3/4/5 1 -9223372036854775808 16
> granted 100
1 51 dirty 06@3/4/5 1 9223372036854775807 16
> granted 100
1 51 dirty 07@3/4/5 1 99 16
> granted 99
? 52
> pairs 6
> 16 held by 6
> 17 free of 0
> lease 02@3/4/5 until 151
> lease 03@3/4/5 until 151
> lease 04@3/4/5 until 151
> lease 05@3/4/5 until 151
> lease 06@3/4/5 until 151
> lease 07@3/4/5 until 150
";

/// Returns the text that the lines of a script make of a table with this configured lease.
fn told(rt: &impl Abort, alloc: Global, lease: u64, script: &str) -> ByteList {
    assert!(rt; 1 <= lease && lease <= 100, "a duration");
    let mut leases = Leases::fresh(alloc, lease);
    let mut text = ByteList::new(alloc);
    for line in script.split('\n') {
        put_line_of(rt, alloc, &mut leases, line, &mut text);
    }
    text
}

#[test]
fn lease_tables_are_told(rt: HostRuntime) {
    for (lease, script) in [
        (100, LEASE_OF_100),
        (1, STRONG_CLEAN),
        (100, LATE_DIRTY),
        (100, DROPPED_AT_ONCE),
        (100, FEW_AND_MANY),
        (100, NAMED_AGAIN),
        (100, GRANTED),
    ] {
        let text = told(&rt, rt.alloc(), lease, script);
        must_be(&rt, &text, script);
    }
}

#[test]
fn freed_objects_are_told(rt: HostRuntime) {
    for script in [ENDS, TWO_HOLDERS, HELD_AGAIN, STRONG_CLEAN_LEFT] {
        let text = told(&rt, rt.alloc(), 100, script);
        must_be(&rt, &text, script);
    }
}
