//! The names of a registry.
use crate::answers::put_names;
use crate::scripts::{MEMORY, must, must_be, put_script_line};
use history::{Ask, Name};
use journal::outline::put_line;
use journal::put::put_object;
use journal::{Word, read_event};
use object_ids::ObjId;
use rmi_registry::{NameFault, Names};
use sequence::{ByteList, Units};
use std::alloc::{AllocError, Global};
use std::process::Abort;
use test_support::spaces::SPACE;

fn numbered(number: i64) -> ObjId {
    ObjId {
        number,
        space: SPACE,
    }
}

/// Asks as in a journal, each with what a registry answers. A name is the empty one, one of the unit 0, or one of surrogates that are no pair.
const ROWS: &str = "0 0 list
> names
0 0 bind \"b\" 16
> bound
0 0 bind \"\" 17
> bound
0 0 bind \"b\" 18
> already bound
0 0 rebind \"b\" 18
> stood 16
0 0 rebind \"\\u0000\" 16
> new
0 0 bind \"\\udc00\\ud800\" 18
> bound
0 0 lookup \"b\" 1/0/0
> object 18
0 0 lookup \"\\ud800\\udc00\" 1/0/0
> not bound
0 0 list
> names \"b\" \"\" \"\\u0000\" \"\\udc00\\ud800\"
0 0 unbind \"\"
> object 17
0 0 unbind \"\"
> not bound
0 0 bind \"\" 17
> bound
0 0 list
> names \"b\" \"\\u0000\" \"\\udc00\\ud800\" \"\"
";

/// A script for a registry that has 4,095 other names, each of one unit with its own object. It binds two long names.
/// In a line `~` means 254 units. A line `? NUMBER` asks for the number of names that stand for an object, and for the
/// number of all names.
const FULL: &str = "0 0 bind \"~\\u0001\" 16
> bound
0 0 bind \"~\\u0002\" 17
> full
0 0 bind \"~\\u0001\" 17
> already bound
0 0 rebind \"~\\u0002\" 17
> full
0 0 rebind \"~\\u0001\" 5
> stood 16
? 5
> 2 of 4096
0 0 unbind \"~\\u0001\"
> object 5
? 5
> 1 of 4095
0 0 rebind \"~\\u0002\" 17
> new
? 5
> 1 of 4096
";

/// Binds so many names of one unit, each to its own object.
fn fill(rt: &impl Abort, alloc: Global, names: &mut Names, count: u16) {
    for unit in 0..count {
        let units = Units::from_slice(alloc, &[unit]).expect(rt, MEMORY);
        let name = Name::new(units).expect(rt, "a name");
        let answer = names.bind(name, numbered(i64::from(unit)));
        must(rt, answer == Ok(()), "bound");
    }
}

/// Returns the text that some lines make of a registry with so many names of one unit.
fn told(rt: &impl Abort, alloc: Global, count: u16, lines: &str) -> ByteList {
    let mut names = Names::fresh(alloc);
    fill(rt, alloc, &mut names, count);
    let mut text = ByteList::new(alloc);
    for line in lines.split('\n') {
        put_row(rt, alloc, &mut names, line, &mut text);
    }
    text
}

#[test]
fn registries_are_told(rt: HostRuntime) {
    for (count, lines) in [(0, ROWS), (4_095, FULL)] {
        let text = told(&rt, rt.alloc(), count, lines);
        must_be(&rt, &text, lines);
    }
}

/// Appends a line, if it is no answer, and what the registry answers.
fn put_row(rt: &impl Abort, alloc: Global, names: &mut Names, line: &str, text: &mut ByteList) {
    if line.is_empty() || line.starts_with('>') {
        return;
    }
    put_script_line(text, line).expect(rt, MEMORY);
    match line.strip_prefix("? ") {
        Some(number) => {
            let number = number.parse::<i64>().expect(rt, "a number");
            put_counts(alloc, names, numbered(number), text).expect(rt, MEMORY);
        }
        None => {
            text.append(b"> ").expect(rt, MEMORY);
            put_answer(alloc, names, ask_of(rt, alloc, line), text).expect(rt, MEMORY);
            text.push(b'\n').expect(rt, MEMORY);
        }
    }
}

/// Returns the request of a line.
fn ask_of(rt: &impl Abort, alloc: Global, line: &str) -> Ask {
    let line = in_full(alloc, line).expect(rt, MEMORY);
    let event = read_event(alloc, SPACE, line.as_slice()).expect(rt, MEMORY);
    event.expect(rt, "an event").ask
}

/// A line with all its units.
fn in_full(alloc: Global, line: &str) -> Result<ByteList, AllocError> {
    let mut text = ByteList::new(alloc);
    for (place, piece) in line.split('~').enumerate() {
        if place > 0 {
            put_units(&mut text)?;
        }
        text.append(piece.as_bytes())?;
    }
    Ok(text)
}

/// Appends 254 units.
fn put_units(text: &mut ByteList) -> Result<(), AllocError> {
    for _ in 0..254 {
        text.append(b"\\uffff")?;
    }
    Ok(())
}

/// Appends how many names stand for an object, and how many there are.
fn put_counts(
    alloc: Global,
    names: &Names,
    object: ObjId,
    text: &mut ByteList,
) -> Result<(), AllocError> {
    let bindings = names.bindings(alloc)?.len() as u64;
    let count = if bindings == u64::from(names.len()) {
        Word::Number(bindings)
    } else {
        Word::Text(b"other")
    };
    let bound = Word::Number(u64::from(names.binds(object)));
    put_line(text, &[Word::Text(b">"), bound, Word::Text(b"of"), count])
}

/// Appends what a registry answers.
fn put_answer(
    alloc: Global,
    names: &mut Names,
    ask: Ask,
    text: &mut ByteList,
) -> Result<(), AllocError> {
    match ask {
        Ask::Bind { name, object } => text.append(bound(names.bind(name, object))),
        Ask::Rebind { name, object } => put_stood(names.rebind(name, object), text),
        Ask::Unbind { name } => put_found(names.unbind(&name).ok(), text),
        Ask::Lookup { name, uid: _ } => put_found(names.lookup(&name).ok(), text),
        _ => put_names(text, &names.list(alloc)?),
    }
}

fn bound(answer: Result<(), NameFault>) -> &'static [u8] {
    match answer {
        Ok(()) => b"bound",
        Err(fault) => refusal(fault),
    }
}

fn refusal(fault: NameFault) -> &'static [u8] {
    match fault {
        NameFault::AlreadyBound => b"already bound",
        NameFault::Full(_names) => b"full",
        NameFault::OutOfMemory => b"out of memory",
    }
}

fn put_stood(
    answer: Result<Option<ObjId>, NameFault>,
    text: &mut ByteList,
) -> Result<(), AllocError> {
    match answer {
        Ok(Some(object)) => {
            text.append(b"stood ")?;
            put_object(text, SPACE, object)
        }
        Ok(None) => text.append(b"new"),
        Err(fault) => text.append(refusal(fault)),
    }
}

fn put_found(found: Option<ObjId>, text: &mut ByteList) -> Result<(), AllocError> {
    match found {
        Some(object) => {
            text.append(b"object ")?;
            put_object(text, SPACE, object)
        }
        None => text.append(b"not bound"),
    }
}
