//! Lists of items, and texts as modified UTF.
use crate::text::{MEMORY, bytes_of, cut, decimal, must, units_of};
use mod_utf::decode::decode;
use mod_utf::{UtfFault, decode_onto, encode, encoded_len};
use sequence::{BoolList, NameList, Same, Units};
use std::alloc::Global;
use std::process::Abort;

/// Units, and what Java's DataOutputStream.writeUTF writes of them after the length.
const SPELLINGS: &str = "=
0000 = C0 80
0061 0001 = 61 01
0000 0061 = C0 80 61
007F 0080 07FF 0800 FFFF = 7F C2 80 DF BF E0 A0 80 EF BF BF
D83D DE00 = ED A0 BD ED B8 80";

/// Returns whether these bytes spell a text, and no others do.
fn is_spelled(rt: &impl Abort, alloc: Global, units: &Units, bytes: &[u8]) -> bool {
    let written = encode(alloc, units).expect(rt, MEMORY);
    encoded_len(units) == bytes.len() as u64 && written.as_slice() == bytes
}

/// Returns whether a text is read of these bytes.
fn is_read(alloc: Global, units: &Units, bytes: &[u8]) -> bool {
    decode(alloc, bytes).is_ok_and(|text| text.as_slice() == units.as_slice())
}

#[test]
fn each_width_and_each_edge_is_spelled_and_read(rt: HostRuntime) {
    for line in SPELLINGS.split('\n') {
        let (text, spelling) = cut(line, '=');
        let bytes = bytes_of(rt.alloc(), spelling).expect(&rt, MEMORY);
        let units = units_of(rt.alloc(), text).expect(&rt, MEMORY);
        must(
            &rt,
            is_spelled(&rt, rt.alloc(), &units, bytes.as_slice()),
            line,
        );
        must(&rt, is_read(rt.alloc(), &units, bytes.as_slice()), line);
    }
}

/// Bytes of which Java's DataInputStream.readUTF takes none or other units, since each unit has one spelling, and the place
/// from where on they spell none.
const NO_SPELLINGS: &str = "00 = 0
C1 81 = 0
E0 80 80 = 0
61 C3 = 1
61 C2 80 F0 9F 98 80 = 3";

/// The place from where on these bytes spell no text, where the units stay as they were.
fn refused_at(rt: &impl Abort, alloc: Global, bytes: &[u8]) -> Option<usize> {
    let mut units = Units::from_slice(alloc, &[7]).expect(rt, MEMORY);
    let answer = decode_onto(&mut units, bytes);
    must(rt, units.as_slice() == [7].as_slice(), "the units stay");
    match answer {
        Err(UtfFault::BadUtf { at }) => Some(at),
        _ => None,
    }
}

#[test]
fn other_spellings_are_refused_and_leave_the_units(rt: HostRuntime) {
    for line in NO_SPELLINGS.split('\n') {
        let (spelling, place) = cut(line, '=');
        let bytes = bytes_of(rt.alloc(), spelling).expect(&rt, MEMORY);
        let refused = refused_at(&rt, rt.alloc(), bytes.as_slice());
        must(&rt, refused == Some(decimal(place) as usize), line);
    }
}

/// The list of the units 7, 8 and 9.
fn seven_to_nine(rt: &impl Abort, alloc: Global) -> Units {
    let mut units = Units::new(alloc);
    must(rt, units.is_empty() && units.last().is_none(), "new");
    units.reserve(2).expect(rt, MEMORY);
    units.push(7).expect(rt, MEMORY);
    units.append(&[8, 9]).expect(rt, MEMORY);
    units
}

/// Returns whether a list lends its items by their places and one by one, where they are 7, 8 and 9.
fn lends(units: &Units) -> bool {
    let mut digits: u64 = 0;
    for unit in units {
        digits = digits.wrapping_mul(10).wrapping_add(u64::from(*unit));
    }
    digits == 789
        && units.first() == Some(&7)
        && units.last() == Some(&9)
        && units.get(1) == Some(&8)
        && units.get(3).is_none()
        && units.len() == 3
        && units[2] == 9
}

#[test]
fn a_list_grows_and_lends_its_items(rt: HostRuntime) {
    let units = seven_to_nine(&rt, rt.alloc());
    must(&rt, lends(&units), "items");
    let vec = units.into_vec();
    must(&rt, vec.as_slice() == [7, 8, 9].as_slice(), "as a vector");
}

/// A list of a text, and what is left of it when its items were taken.
#[test]
fn a_list_of_lists_is_copied_compared_and_taken(rt: HostRuntime) {
    let alloc = rt.alloc();
    let mut names = NameList::new(alloc);
    let name = Units::from_vec(seven_to_nine(&rt, alloc).into_vec());
    names.push(name).expect(&rt, MEMORY);
    let copy = names.copy(alloc).expect(&rt, MEMORY);
    must(&rt, copy.is_same(&names), "a copy");
    must(&rt, !NameList::new(alloc).is_same(&names), "another");
    for name in names {
        must(&rt, name.as_slice() == [7, 8, 9].as_slice(), "its item");
    }
}

#[test]
fn truth_values_are_copied_and_compared(rt: HostRuntime) {
    let flags = BoolList::from_slice(rt.alloc(), &[true, false]).expect(&rt, MEMORY);
    let copy = flags.copy(rt.alloc()).expect(&rt, MEMORY);
    must(&rt, copy.is_same(&flags), "a copy");
    let other = BoolList::from_slice(rt.alloc(), &[true, true]).expect(&rt, MEMORY);
    must(&rt, !other.is_same(&flags), "another");
}
