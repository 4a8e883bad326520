//! A client with as many references as can be.
ghost use Rattle.std.specs.Prelude.{◌<◌};

use crate::answers::numbered;
use crate::transcripts::{MEMORY, table_from};
use dgc_client::{ClientFault, ClientTable, MAX_REFS, Plan};
use std::process::Abort;

/// Registers so many references, each of which is new.
fn register_all(rt: &impl Abort, table: &mut ClientTable, count: i64) {
    for number in 0..count {
        let new = table.register(numbered(number)) == Ok(true);
        assert!(rt; new, "a new reference");
    }
}

/// Drops the references of so many objects, each of which is there.
fn drop_all(rt: &impl Abort, table: &mut ClientTable, count: i64) {
    for number in 0..count {
        let clean = matches!(
            table.drop_ref(numbered(number), 3),
            Ok(Some(Plan::Clean { .. }))
        );
        assert!(rt; clean, "a clean call");
    }
}

/// Returns the number of objects that the due dirty call names, 0 where none is due. It stops the test where the call's
/// answer doesn't count.
fn renew(rt: &impl Abort, table: &mut ClientTable, now: u64) -> usize
    requires { now < 100 }
{
    match table.due(now) {
        Ok(Some(Plan::Dirty { number, ids })) => {
            let counts = table.answered(number, 2, now);
            assert!(rt; counts, "a good answer");
            ids.len()
        }
        _ => 0,
    }
}

#[test]
fn as_many_references_as_can_be_are_registered_renewed_and_dropped(rt: HostRuntime) {
    let mut table = table_from(&rt, rt.alloc(), 1);
    register_all(&rt, &mut table, 16384);
    let full = table.register(numbered(16384)) == Err(ClientFault::FullRefs);
    assert!(rt; full, "the limit");
    let again = table.register(numbered(0)) == Ok(false);
    assert!(rt; again, "one that is there");
    assert!(rt; renew(&rt, &mut table, 0) == MAX_REFS, "all of them");
    assert!(rt; renew(&rt, &mut table, 1) == 0, "a renewal");
    assert!(rt; table.usable(numbered(16383), 2), "usable");
    drop_all(&rt, &mut table, 16383);
    let left = table.refs().list(rt.alloc()).expect(&rt, MEMORY);
    assert!(rt; left.len() == 1, "one is left");
    assert!(rt; table.refs().find(&numbered(16383)).is_some(), "the last");
}
