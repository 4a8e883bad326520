//! Identifiers: bytes that Java wrote, drawing, and copies.
use crate::scripts::{MEMORY, must};
use object_ids::{ObjId, ObjIds, Uid, UidDraw, Vmid, objid_bytes, objid_of, uid_bytes, uid_of};
use sequence::{ByteList, Same};
use std::alloc::Global;
use std::process::Abort;

/// The bytes that Java 17 wrote of the object `[-5acef44f:1a21a8ded5b:-7fff, -4908260978223503560]`.
const WRITTEN: [u8; 22] = [
    0xBB, 0xE2, 0x5A, 0xA5, 0x38, 0x13, 0xA7, 0x38, 0xA5, 0x31, 0x0B, 0xB1, 0x00, 0x00, 0x01, 0xA2,
    0x1A, 0x8D, 0xED, 0x5B, 0x80, 0x01,
];

/// That object.
const OBJECT: ObjId = ObjId {
    number: -4_908_260_978_223_503_560,
    space: Uid {
        unique: -0x5ACE_F44F,
        time: 0x1A2_1A8D_ED5B,
        count: -0x7FFF,
    },
};

#[test]
fn bytes_are_big_endian(rt: HostRuntime) {
    must(&rt, objid_bytes(OBJECT) == WRITTEN, "written");
    must(&rt, objid_of(WRITTEN) == OBJECT, "read");
    must(
        &rt,
        uid_of(uid_bytes(OBJECT.space)) == OBJECT.space,
        "read back",
    );
}

/// Stops where the next identifier of a draw is not that of a moment and a count.
fn must_draw(rt: &impl Abort, draw: &mut UidDraw, time: i64, count: i16) {
    match draw.next() {
        Some(uid) => must(
            rt,
            uid.unique == 6 && uid.time == time && uid.count == count,
            "drawn otherwise",
        ),
        None => must(rt, false, "not drawn"),
    }
}

#[test]
fn draws_go_on_in_the_next_moment(rt: HostRuntime) {
    let mut draw = UidDraw::new(6, 6);
    must_draw(&rt, &mut draw, 6, -32_768);
    for _ in 1..65_535 {
        let _drawn = draw.next();
    }
    must_draw(&rt, &mut draw, 6, 32_767);
    must_draw(&rt, &mut draw, 7, -32_768);
}

/// Returns whether a copy of a machine's identifier is the same.
fn is_copied(rt: &impl Abort, alloc: Global, vmid: &Vmid) -> bool {
    vmid.copy(alloc).expect(rt, MEMORY).is_same(vmid)
}

/// Returns whether a copy of a list of objects is the same.
fn are_copied(rt: &impl Abort, alloc: Global, ids: &ObjIds) -> bool {
    ids.copy(alloc).expect(rt, MEMORY).is_same(ids)
}

#[test]
fn copies_succeed_with_ample_memory(rt: HostRuntime) {
    let addr = ByteList::from_slice(rt.alloc(), &[127, 0, 0, 1]).expect(&rt, MEMORY);
    let vmid = Vmid::new(addr, OBJECT.space).expect(&rt, "a short address");
    must(&rt, is_copied(&rt, rt.alloc(), &vmid), "a machine");
    let ids = ObjIds::from_slice(rt.alloc(), &[OBJECT]).expect(&rt, MEMORY);
    must(&rt, are_copied(&rt, rt.alloc(), &ids), "objects");
}
