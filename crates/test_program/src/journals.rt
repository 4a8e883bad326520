//! Lines of journals, written by hand: which are read, and how they are written.
use crate::hosts::{must, put};
use history::Name;
use journal::outline::{
    put_events_line, put_lease_line, put_name_line, put_object_line, put_withdrawal_line,
};
use journal::{ObjectRow, put_event_line, put_first_line, read_event, read_first_line};
use object_ids::{ObjId, Uid, Vmid};
use sequence::{ByteList, Units};
use std::alloc::{AllocError, Global};
use std::process::Abort;
use test_support::spaces::{CONFIG, SPACE};

/// Lines that spell an event.
const EVENTS: &str = r#"0 0 open 2 pinned
4294967295 4611686018427387903 open 4294967295 free
1 1 begin -9223372036854775808
1 1 begin 9223372036854775807:-2147483648/9223372036854775807/-32768
1 11 finish 16 1,0,1 16:7/9/1,-1 2147483647/-9223372036854775808/32767
1 11 finish 16 - - 1/0/0
1 11 abandon 16
1 12 dirty 0102030405060708@3/4/5 -9223372036854775808 600000 17
1 12 dirty -@0/0/0 1 -10 -
1 13 clean aa@3/4/5 7 weak 16,16
1 13 clean aa@3/4/5 7 strong 17
1 15 ack 1/0/0
4294967295 110 bind "\ud800\u0022a\u005c" 16
3 370 rebind "" 16
3 370 unbind "a/b"
4294967295 5 lookup "\u0000\u0020" 1/0/0
1 1 list
1 1 tick"#;

/// A line that names an object of the space in full.
const IN_FULL: &str = "1 1 begin 16:7/9/0";

/// Lines that spell none.
const NO_EVENTS: &str = "\n1 1\n1 1 tick \n 1 1 tick\n1  1 tick\n1 1 tick\r\n1\t1 tick\n1 1 TICK
4294967296 1 tick
1 4611686018427387904 tick
-1 1 tick
+1 1 tick
01 1 tick
1 1 open 4294967296 free
1 1 open 1 loose
1 1 open 1
1 1 begin -0
1 1 begin 00
1 1 begin 9223372036854775808
1 1 begin -9223372036854775809
1 1 ack 2147483648/0/0
1 1 ack 1/0/-32769
1 1 ack 1/0/0/0
1 1 finish 16 1, - 1/0/0
1 1 finish 16 -,1 - 1/0/0
1 1 dirty AA@3/4/5 1 1 16
1 1 dirty a@3/4/5 1 1 16
1 1 dirty @3/4/5 1 1 16
1 1 bind \"\\u0061\" 16
1 1 bind \"\\uD800\" 16
1 1 bind \"a b\" 16
1 1 bind a 16
1 1 unbind \"";

/// First lines that spell a configuration.
const FIRST_LINES: &str = "space 600000 300000 7 9
space 1 1099511627776 -2147483648 -9223372036854775808
space 1099511627776 1 2147483647 9223372036854775807";

/// First lines that spell none.
const NO_FIRST_LINES: &str = "space 1099511627777 1 7 9
space 1 1099511627777 7 9
space 0 1 7 9
space 1 0 7 9
space 1 1 2147483648 9
space 1 1 7 -0
space 1 1 7
space 1 1 7 9 0
Space 1 1 7 9";

/// A first line, and lines of an outline.
const OUTLINE: &str = r#"space 600000 300000 7 9
events 7 units 11 now 4611686018427387903
object 17 kind 4294967295 free running 1 awaiting 10 held 200 names 0
lease aa@7/9/5 until 600014
name "\ud800\u0022a" -16:7/9/1
withdrawn 17 place 6
"#;

/// Reads a line, which spells an event or none.
fn check_event(rt: &impl Abort, alloc: Global, line: &str, spelled: bool) {
    let event = read_event(alloc, SPACE, line.as_bytes()).expect(rt, "memory");
    must(rt, event.is_some() == spelled, line);
}

/// Reads lines, each of which spells an event or none.
fn check_events(rt: &impl Abort, alloc: Global, lines: &str, spelled: bool) {
    for line in lines.split('\n') {
        check_event(rt, alloc, line, spelled);
    }
}

#[test]
fn events_are_read(rt: HostRuntime) {
    check_events(&rt, rt.alloc(), EVENTS, true);
    check_events(&rt, rt.alloc(), IN_FULL, true);
    check_events(&rt, rt.alloc(), NO_EVENTS, false);
}

/// Appends what is written of the event of a line.
fn put_again(rt: &impl Abort, alloc: Global, written: &mut ByteList, line: &str) {
    let event = read_event(alloc, SPACE, line.as_bytes()).expect(rt, "memory");
    let event = event.expect(rt, line);
    put_event_line(written, SPACE, &event).expect(rt, "memory");
}

#[test]
fn events_are_written(rt: HostRuntime) {
    let mut written = ByteList::new(rt.alloc());
    for line in EVENTS.split('\n') {
        put_again(&rt, rt.alloc(), &mut written, line);
    }
    let lines = written.as_slice().strip_suffix(b"\n");
    must(&rt, lines == Some(EVENTS.as_bytes()), "events");
}

/// Reads first lines, each of which spells a configuration or none.
fn check_first_lines(rt: &impl Abort, lines: &str, spelled: bool) {
    for line in lines.split('\n') {
        let config = read_first_line(line.as_bytes());
        must(rt, config.is_some() == spelled, line);
    }
}

#[test]
fn first_lines_are_read(rt: HostRuntime) {
    check_first_lines(&rt, FIRST_LINES, true);
    check_first_lines(&rt, NO_FIRST_LINES, false);
}

fn object(number: i64, count: i16) -> ObjId {
    ObjId {
        number,
        space: Uid {
            unique: 7,
            time: 9,
            count,
        },
    }
}

/// An object of the space.
const ROW: ObjectRow = ObjectRow {
    object: ObjId {
        number: 17,
        space: SPACE,
    },
    kind: 4_294_967_295,
    pinned: false,
    running: 1,
    awaiting: 10,
    held: 200,
    names: 0,
};

/// Appends a first line, and lines of an outline.
fn put_outline(out: &mut ByteList, client: &Vmid, name: &Name) -> Result<(), AllocError> {
    put_first_line(out, &CONFIG)?;
    put_events_line(out, 7, 11, 4_611_686_018_427_387_903)?;
    put_object_line(out, CONFIG, &ROW)?;
    put_lease_line(out, client, 600_014)?;
    put_name_line(out, CONFIG, name, object(-16, 1))?;
    put_withdrawal_line(out, CONFIG, object(17, 0), 6)
}

/// The client of the outline.
fn client(rt: &impl Abort, alloc: Global) -> Vmid {
    let mut addr = ByteList::new(alloc);
    put(rt, &mut addr, &[0xAA]);
    Vmid::new(addr, object(1, 5).space).expect(rt, "a client")
}

/// The name of the outline.
fn name(rt: &impl Abort, alloc: Global) -> Name {
    let mut units = Units::new(alloc);
    must(rt, units.append(&[0xD800, 0x22, 0x61]).is_ok(), "memory");
    Name::new(units).expect(rt, "a name")
}

/// The outline, as it is written.
fn outline(rt: &impl Abort, alloc: Global, client: &Vmid, name: &Name) -> ByteList {
    let mut out = ByteList::new(alloc);
    put_outline(&mut out, client, name).expect(rt, "memory");
    out
}

#[test]
fn lines_are_written(rt: HostRuntime) {
    let client = client(&rt, rt.alloc());
    let name = name(&rt, rt.alloc());
    let out = outline(&rt, rt.alloc(), &client, &name);
    must(&rt, out.as_slice() == OUTLINE.as_bytes(), "lines");
}
