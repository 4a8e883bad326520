//! Streams that are read want by want and whole, from sources that give all at once or single bytes.
use crate::text::{MEMORY, bytes_of, cut, decimal, must, repeated};
use sequence::Kinds;
use ser_read::{Reader, StreamFault, Want, read_to_end, read_wants};
use std::alloc::Global;
use std::process::Abort;
use wire_io::mem::MemSource;
use wire_io::pull::Pull;

/// Rows of readings: the wants (a digit: so many bytes; `r`: a reference; `*`: all to the end), the bytes of the
/// source, the most bytes of the message, and the answer.
const CASES: &str = "3rr : ACED0005 770109 7A000000020807 7700 74000161 71007E0000 70 : 99 : read
 : ACED0005 770109 : 99 : read
0 : ACED0005 770109 : 99 : read
0r : ACED0005 7700 7A00000000 70 : 99 : read
12 : ACED0005 77020908 7700 770107 : 99 : read
 : ACEC0005 : 99 : bad stream bad magic at 1
 : ACED : 99 : truncated at 2
1 : ACED0005 77020909 : 99 : bad stream block left at 7
1 : ACED0005 770209 : 99 : bad stream block left at 7
1r : ACED0005 770209 : 99 : bad stream block left at 7
1rr2 : ACED0005 770209 : 99 : bad stream block left at 7
r : ACED0005 7700 7703 : 99 : bad stream block left at 8
2 : ACED0005 77020909 : 7 : too large bytes at 7
2 : ACED0005 770209 : 99 : truncated at 7
2 : ACED0005 7AFFFFFFFF : 99 : bad stream negative length at 5
2 : ACED0005 7AFFFF : 99 : truncated at 7
r : ACED0005 71007E0000 : 99 : bad stream bad handle at 4
1 : ACED0005 70 : 99 : bad stream missing block at 4
2 : ACED0005 770109 7E : 99 : bad stream missing block at 7
1 : ACED0005 79 : 99 : bad stream reset at 4
1 : ACED0005 7B : 99 : bad stream inner exception at 4
1 : ACED0005 7F : 99 : bad stream bad code at 4
r : ACED0005 78 : 99 : bad stream bad code at 4
r : ACED0005 74000100 : 99 : bad stream bad utf at 7
r1 : ACED0005 79 770109 : 99 : bad stream reset at 4";

/// The same of each kind of fault, where one place or another of the grammar can have it.
const FAULTS: &str = "* : AC : 999999 : truncated at 1
* : 00ED0005 : 999999 : bad stream bad magic at 0
* : ACED0006 : 999999 : bad stream bad magic at 3
* : ACED0005 : 3 : too large bytes at 3
* : ACED0005 6F : 999999 : bad stream bad code at 4
* : ACED0005 7F : 999999 : bad stream bad code at 4
* : ACED0005 70 78 : 999999 : bad stream bad code at 5
* : ACED0005 73 70 : 999999 : bad stream bad code at 5
* : ACED0005 73 74 : 999999 : bad stream bad code at 5
* : ACED0005 7E 72 'E' 0000000000000000 12 0000 78 70 70 : 999999 : bad stream bad code at 22
* : ACED0005 73 72 'A' 0000000000000001 02 0001 4C 'a' 74 'LA;' 78 70 7700 : 999999 : bad stream bad code at 32
* : ACED0005 73 72 'A' 0000000000000001 02 0001 4C 'a' 70 : 999999 : bad stream bad code at 24
* : ACED0005 76 72 'A' 0000000000000001 02 0000 78 73 : 999999 : bad stream bad code at 21
* : ACED0005 79 : 999999 : bad stream reset at 4
* : ACED0005 73 79 : 999999 : bad stream reset at 5
r : ACED0005 7700 79 : 999999 : bad stream reset at 6
* : ACED0005 7B : 999999 : bad stream inner exception at 4
* : ACED0005 73 7B : 999999 : bad stream inner exception at 5
r : ACED0005 7B : 999999 : bad stream inner exception at 4
* : ACED0005 76 72 'A' 0000000000000001 02 0000 7B : 999999 : bad stream inner exception at 20
* : ACED0005 74 0000 71 007E0001 : 999999 : bad stream bad handle at 7
* : ACED0005 74 0000 71 00000000 : 999999 : bad stream bad handle at 7
r : ACED0005 71 80000000 : 999999 : bad stream bad handle at 4
* : ACED0005 74 0000 71 007E0000 : 999999 : read
* : ACED0005 74 0000 73 71 007E0000 : 999999 : bad stream wrong handle kind at 8
* : ACED0005 76 72 'A' 0000000000000001 02 0000 78 70 76 72 'B' 0000000000000001 02 0001 4C 'a' 71 007E0000 : 999999 : bad stream wrong handle kind at 42
* : ACED0005 76 72 'E' 0000000000000000 12 0000 78 70 7E 71 007E0000 71 007E0000 : 999999 : bad stream wrong handle kind at 28
* : ACED0005 76 72 'A' 0000000000000000 20 0000 78 70 : 999999 : bad stream bad desc at 5
* : ACED0005 76 72 'A' 0000000000000000 06 0000 78 70 : 999999 : bad stream bad desc at 5
* : ACED0005 76 72 'A' 0000000000000000 0A 0000 78 70 : 999999 : bad stream bad desc at 5
* : ACED0005 76 72 'A' 0000000000000000 01 0000 78 70 : 999999 : bad stream bad desc at 5
* : ACED0005 76 72 'A' 0000000000000000 10 0000 78 70 : 999999 : bad stream bad desc at 5
* : ACED0005 76 72 'A' 0000000000000000 13 0000 78 70 : 999999 : bad stream bad desc at 5
* : ACED0005 76 72 'A' 0000000000000001 12 0000 78 70 : 999999 : bad stream bad desc at 5
* : ACED0005 76 72 'A' 0000000000000001 02 0001 41 'a' 78 70 : 999999 : bad stream bad desc at 5
* : ACED0005 76 72 'A' 0000000000000001 02 0002 49 'b' 49 'a' 78 70 : 999999 : bad stream bad desc at 5
* : ACED0005 76 72 'A' 0000000000000001 02 0001 4C 'a' 74 'A' 78 70 : 999999 : bad stream bad desc at 5
* : ACED0005 76 72 'A' 0000000000000001 02 0001 5B 'a' 74 'LA;' 78 70 : 999999 : bad stream bad desc at 5
* : ACED0005 76 72 'A' 0000000000000001 02 0000 78 71 007E0000 : 999999 : bad stream bad desc at 21
* : ACED0005 76 72 'A' 0000000000000001 02 0000 76 71 007E0000 : 999999 : bad stream bad desc at 21
* : ACED0005 73 72 'A' 0000000000000001 00 0000 78 70 : 999999 : bad stream bad desc at 4
* : ACED0005 73 72 'E' 0000000000000000 12 0000 78 70 : 999999 : bad stream bad desc at 4
* : ACED0005 73 72 '[B' 0000000000000001 02 0000 78 70 : 999999 : bad stream bad desc at 4
* : ACED0005 75 72 'A' 0000000000000001 02 0000 78 70 : 999999 : bad stream bad desc at 4
* : ACED0005 75 7D 00000000 78 70 : 999999 : bad stream bad desc at 4
* : ACED0005 7E 72 'A' 0000000000000001 02 0000 78 70 : 999999 : bad stream bad desc at 4
* : ACED0005 73 72 'A' 0000000000000001 04 0000 78 70 : 999999 : bad stream old external at 4
* : ACED0005 74 0003 61 C041 : 999999 : bad stream bad utf at 8
* : ACED0005 7C 0000000000000001 00 : 999999 : bad stream bad utf at 13
* : ACED0005 76 72 0001 80 : 999999 : bad stream bad utf at 8
* : ACED0005 76 7D 00000001 0002 E080 : 999999 : bad stream bad utf at 12
* : ACED0005 76 72 'A' 0000000000000001 02 0001 49 0001 FF : 999999 : bad stream bad utf at 23
* : ACED0005 7A 80000000 : 999999 : bad stream negative length at 5
* : ACED0005 7C FFFFFFFFFFFFFFFF : 999999 : bad stream negative length at 5
* : ACED0005 75 72 '[B' 0000000000000001 02 0000 78 70 FFFFFFFF : 999999 : bad stream negative length at 23
* : ACED0005 76 72 'A' 0000000000000001 02 8000 : 999999 : bad stream negative length at 18
* : ACED0005 76 7D FFFFFFFF : 999999 : bad stream negative length at 6
1 : ACED0005 7700 74 : 999999 : bad stream missing block at 6
1 : ACED0005 78 : 999999 : bad stream missing block at 4
1 : ACED0005 71 : 999999 : bad stream missing block at 4
3r : ACED0005 77 04 000000 00 70 : 999999 : bad stream block left at 9
0r : ACED0005 77 01 00 : 999999 : bad stream block left at 6
1 : ACED0005 7A 00000003 00 0000 : 999999 : bad stream block left at 10
* : ACED0005 70 70 : 5 : too large bytes at 5
* : ACED0005 70 : 5 : read
r : ACED0005 74 0004 6161 6161 : 9 : too large bytes at 9
* : ACED0005 70 : 4 : too large bytes at 4
* : ACED0005 75 72 '[LA;' 0000000000000001 02 0000 78 70 00000001 (199 * 75 71007E0000 00000001) 70 : 999999 : read
* : ACED0005 75 72 '[LA;' 0000000000000001 02 0000 78 70 00000001 (199 * 75 71007E0000 00000001) 75 71007E0000 00000001 70 : 999999 : too large depth at 2019
* : ACED0005 76 (199 * 72 'A' 0000000000000001 02 0000 78) 70 : 999999 : read
* : ACED0005 76 (199 * 72 'A' 0000000000000001 02 0000 78) 72 'A' 0000000000000001 02 0000 78 70 : 999999 : too large depth at 3189
* : ACED0005 74 : 999999 : truncated at 5
* : ACED0005 74 00 : 999999 : truncated at 6
* : ACED0005 74 0002 61 : 999999 : truncated at 8
* : ACED0005 71 007E00 : 999999 : truncated at 8
* : ACED0005 72 : 999999 : truncated at 5
* : ACED0005 73 : 999999 : truncated at 5
* : ACED0005 76 72 'A' 0000 : 999999 : truncated at 11
* : ACED0005 76 72 'A' 0000000000000001 02 0000 78 : 999999 : truncated at 21
* : ACED0005 77 02 00 : 999999 : truncated at 7
* : ACED0005 7C 00000000 : 999999 : truncated at 9
* : ACED0005 7E : 999999 : truncated at 5
* : ACED0005 75 72 '[B' 0000000000000001 02 0000 78 70 00000002 01 : 999999 : truncated at 28";

/// The same of 65,536 nodes, and of a further one.
const NODES: &str = "* : ACED0005 (65536 * 740000) 70 71007E0000 : 999999 : read
* : ACED0005 (65536 * 740000) 740000 : 999999 : too large nodes at 196612";

/// The same of an object and an array whose class description is the last node. That there are too many comes before what is
/// wrong with the class.
const NODES_OF_CLASSES: &str =
    "* : ACED0005 (65535 * 740000) 73 72 'A' 0000000000000001 04 0000 78 70 : 999999 : too large nodes at 196609
* : ACED0005 (65535 * 740000) 75 72 'A' 0000000000000001 02 0000 78 70 : 999999 : too large nodes at 196609";

/// The same of as many parts as a message may have, and of a further one: nulls, and handles of one text.
const ITEMS: &str = "* : ACED0005 (1048576 * 70) : 9999999 : read
* : ACED0005 (1048577 * 70) : 9999999 : too large nodes at 1048580
* : ACED0005 740000 (1048575 * 71007E0000) : 9999999 : read
* : ACED0005 740000 (1048576 * 71007E0000) : 9999999 : too large nodes at 5242882";

/// The same of references of an annotation, whose description is an item itself, and of blocks and nulls by turns.
const NOTES: &str = "* : ACED0005 (1048576 * 770101 70) : 9999999 : read
* : ACED0005 (1048576 * 770101 70) 70 : 9999999 : too large nodes at 4194308
* : ACED0005 72 'A' 0000000000000001 02 0000 (1048575 * 70) 78 70 : 9999999 : read
* : ACED0005 72 'A' 0000000000000001 02 0000 (1048576 * 70) 78 70 : 9999999 : too large nodes at 4
* : ACED0005 72 'A' 0000000000000001 02 0000 (1048577 * 70) 78 70 : 9999999 : too large nodes at 1048595";

/// The same of elements of an array, and of names of a proxy's interfaces. Too many are refused before they are read.
const ELEMENTS: &str =
    "* : ACED0005 75 72 '[LA;' 0000000000000001 02 0000 78 70 000FFFFF (1048575 * 70) : 9999999 : read
* : ACED0005 75 72 '[LA;' 0000000000000001 02 0000 78 70 00100000 (1048576 * 70) : 9999999 : too large nodes at 4
* : ACED0005 75 72 '[LA;' 0000000000000001 02 0000 78 70 00100001 : 9999999 : too large nodes at 4
* : ACED0005 7D 000FFFFF (1048575 * 0000) 78 70 : 9999999 : read
* : ACED0005 7D 00100000 (1048576 * 0000) 78 70 : 9999999 : too large nodes at 4
* : ACED0005 7D 00100001 : 9999999 : too large nodes at 4";

/// The same of wanted references, of fields, and of an object's parts and values, behind elements that leave room for few.
const BEHIND: &str =
    "rr : ACED0005 75 72 '[LA;' 0000000000000001 02 0000 78 70 000FFFFE (1048574 * 70) 70 : 9999999 : read
rrr : ACED0005 75 72 '[LA;' 0000000000000001 02 0000 78 70 000FFFFE (1048574 * 70) 70 70 : 9999999 : too large nodes at 1048604
* : ACED0005 75 72 '[LA;' 0000000000000001 02 0000 78 70 000FFFFD (1048573 * 70) 72 'A' 0000000000000001 02 0001 49 'a' 78 70 : 9999999 : read
* : ACED0005 75 72 '[LA;' 0000000000000001 02 0000 78 70 000FFFFE (1048574 * 70) 72 'A' 0000000000000001 02 0002 : 9999999 : too large nodes at 1048603
* : ACED0005 75 72 '[LA;' 0000000000000001 02 0000 78 70 000FFFFB (1048571 * 70) 73 72 'A' 0000000000000001 02 0001 49 'a' 78 70 00000001 : 9999999 : read
* : ACED0005 75 72 '[LA;' 0000000000000001 02 0000 78 70 000FFFFD (1048573 * 70) 73 72 'A' 0000000000000001 02 0001 49 'a' 78 70 : 9999999 : too large nodes at 1048602";

/// Asks a reader for one thing. Its answer, or its refusal, is kept by the reader.
fn ask(alloc: Global, pull: &mut Pull<'_, MemSource>, reader: &mut Reader, want: u8) {
    if b'0' <= want && want <= b'9' {
        let _bytes = reader.bytes(alloc, pull, u32::from(want - b'0'));
    } else {
        let _slot = reader.slot(alloc, pull);
    }
}

/// Asks a reader for these wants, one after the other.
fn read_asked(
    alloc: Global,
    pull: &mut Pull<'_, MemSource>,
    wants: &str,
) -> Result<(), StreamFault> {
    let mut reader = Reader::start(alloc, pull)?;
    for want in wants.as_bytes() {
        ask(alloc, pull, &mut reader, *want);
    }
    let _graph = reader.close(pull)?;
    Ok(())
}

/// Returns the answer of reading these wants.
fn read(alloc: Global, pull: &mut Pull<'_, MemSource>, wants: &str) -> Result<(), StreamFault> {
    if wants != "*" {
        return read_asked(alloc, pull, wants);
    }
    let _graph = read_to_end(alloc, pull)?;
    Ok(())
}

/// A source of these bytes, of which it gives so many one by one.
fn source_of(rt: &impl Abort, alloc: Global, notation: &str, single: u64) -> MemSource {
    let cuts = repeated(alloc, 1, single).expect(rt, MEMORY);
    let bytes = bytes_of(alloc, notation).expect(rt, MEMORY);
    MemSource::new(bytes, cuts, Kinds::new(alloc))
}

/// The words of what reading these wants answers, where the message may have so many bytes.
fn answer_of(
    rt: &impl Abort,
    alloc: Global,
    source: &mut MemSource,
    limit: u64,
    wants: &str,
) -> String {
    let mut pull = Pull::new(source);
    pull.mark(limit);
    let words = match read(alloc, &mut pull, wants) {
        Ok(()) => format!(in alloc; "read"),
        Err(fault) => format!(in alloc; "{fault}"),
    };
    words.expect(rt, MEMORY)
}

/// Returns whether reading answers what a line says, of a source that gives so many bytes one by one.
fn is_answered(rt: &impl Abort, alloc: Global, line: &str, single: u64) -> bool {
    let (wants, rest) = cut(line, ':');
    let (bytes, rest) = cut(rest, ':');
    let (limit, expected) = cut(rest, ':');
    let mut source = source_of(rt, alloc, bytes, single);
    let answer = answer_of(rt, alloc, &mut source, decimal(limit), wants.trim());
    answer.as_str() == expected.trim()
}

/// Checks each line of a table, whole and with so many bytes one by one.
fn check(rt: &impl Abort, alloc: Global, table: &str, single: u64) {
    for line in table.split('\n') {
        must(rt, is_answered(rt, alloc, line, 0), line);
        must(rt, is_answered(rt, alloc, line, single), line);
    }
}

#[test]
fn wants_are_served(rt: HostRuntime) {
    check(&rt, rt.alloc(), CASES, 4000);
}

#[test]
fn each_kind_of_fault_is_answered(rt: HostRuntime) {
    check(&rt, rt.alloc(), FAULTS, 4000);
}

#[test]
fn nodes_are_at_most_65536(rt: HostRuntime) {
    check(&rt, rt.alloc(), NODES, 1000);
}

#[test]
fn classes_and_their_objects_are_at_most_65536(rt: HostRuntime) {
    check(&rt, rt.alloc(), NODES_OF_CLASSES, 1000);
}

/// Checks each line of a long table, whole.
fn check_whole(rt: &impl Abort, alloc: Global, table: &str) {
    for line in table.split('\n') {
        must(rt, is_answered(rt, alloc, line, 0), line);
    }
}

#[test]
fn items_are_at_most_1048576(rt: HostRuntime) {
    check_whole(&rt, rt.alloc(), ITEMS);
}

#[test]
fn blocks_and_items_of_annotations_are_at_most_1048576(rt: HostRuntime) {
    check_whole(&rt, rt.alloc(), NOTES);
}

#[test]
fn elements_and_names_are_at_most_1048576(rt: HostRuntime) {
    check_whole(&rt, rt.alloc(), ELEMENTS);
}

#[test]
fn wants_fields_and_values_are_at_most_1048576(rt: HostRuntime) {
    check_whole(&rt, rt.alloc(), BEHIND);
}

/// Returns the numbers of answers to a list of wants, of items and nodes of its graph, and of bytes that were taken.
fn counts_of_wants(
    rt: &impl Abort,
    alloc: Global,
    source: &mut MemSource,
    wants: &[Want],
) -> (usize, usize, u32, u64) {
    let mut pull = Pull::new(source);
    let (answers, graph) = read_wants(alloc, &mut pull, wants).expect(rt, "wants");
    (answers.len(), graph.items().len(), graph.count(), pull.at())
}

#[test]
fn a_list_of_wants_is_read(rt: HostRuntime) {
    let alloc = rt.alloc();
    let stream = "ACED0005 770109 7A000000020807 7700 74000161 71007E0000 70";
    let mut source = source_of(&rt, alloc, stream, 0);
    let wants = [Want::Bytes(3), Want::Slot, Want::Slot];
    let counts = counts_of_wants(&rt, alloc, &mut source, &wants);
    must(&rt, counts == (3, 3, 1, 25), stream);
}

/// Returns the numbers of a reader's answers to one list of wants and then to another, and of bytes that were taken.
fn counts_served(
    rt: &impl Abort,
    alloc: Global,
    source: &mut MemSource,
    first: &[Want],
    second: &[Want],
) -> (usize, usize, u64) {
    let mut pull = Pull::new(source);
    let mut reader = Reader::start(alloc, &mut pull).expect(rt, "start");
    let early = reader.serve(alloc, &mut pull, first).expect(rt, "first");
    let late = reader.serve(alloc, &mut pull, second).expect(rt, "second");
    (early.len(), late.len(), pull.at())
}

#[test]
fn a_reader_serves_lists_of_wants(rt: HostRuntime) {
    let alloc = rt.alloc();
    let stream = "ACED0005 770109 7A000000020807 7700 74000161 71007E0000 70";
    let mut source = source_of(&rt, alloc, stream, 0);
    let first = [Want::Bytes(3), Want::Slot];
    let second = [Want::Slot, Want::Slot];
    let counts = counts_served(&rt, alloc, &mut source, &first, &second);
    must(&rt, counts == (2, 2, 26), stream);
}
