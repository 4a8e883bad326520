//! Ticks of the root, which are wanted only where a wait has ended.
ghost use Rattle.std.specs.Prelude.{◌≡◌, ◌<◌, ◌^◌};
ghost use Rattle.turn_lock.specs.Handles.{IsRootOf};

use crate::crews::FIRST;
use crate::turns::{must, space_of_one};
use object_ids::{ObjId, ObjIds};
use sequence::Kinds;
use space::{Ask, Space};
use std::alloc::Global;
use std::sync::Wait;
use turn_lock::{Root, TurnLock};

/// A return with a reference to the first object, which then awaits its acknowledgement for 300,000 milliseconds.
fn return_of(alloc: Global) -> Option<Ask> {
    let mut listed: Vec<ObjId> = Vec::new(alloc);
    if listed.push(FIRST).is_err() {
        return None;
    }
    Some(Ask::Finish {
        object: FIRST,
        made: Kinds::new(alloc),
        listed: ObjIds::from_vec(listed),
        uid: FIRST.space,
    })
}

/// Begins a call of the first object and returns from it, both at moment 0. Says whether both were taken.
fn call_and_return<R: Wait>(rt: &R, alloc: Global, lock: &TurnLock, root: &mut Root) -> bool
    requires { IsRootOf lock.now root.old }
    ensures root { IsRootOf lock.now root.new }
    ensures out { root.new.out ≡ root.old.out }
{
    let Some(back) = return_of(alloc) else {
        return false;
    };
    let (begun, _entries) = root.turn(rt, alloc, lock, 0, Ask::Begin { object: FIRST });
    let (ended, _entries) = root.turn(rt, alloc, lock, 0, back);
    begun.is_ok() && ended.is_ok()
}

/// Makes a Tick at this moment if one would do anything. Returns whether it was made.
fn ticks_at<R: Wait>(rt: &R, alloc: Global, lock: &TurnLock, root: &mut Root, moment: u64) -> bool
    requires own { IsRootOf lock.now root.old }
    requires moment { moment < 2 ^ 61 }
    ensures root { IsRootOf lock.now root.new }
    ensures out { root.new.out ≡ root.old.out }
{
    if !root.wants_tick(rt, lock, moment) {
        return false;
    }
    let (answer, _entries) = root.turn(rt, alloc, lock, moment, Ask::Tick);
    answer.is_ok()
}

/// Whether Ticks were made before the wait ended, then, and after that; and the space.
fn quiet_seconds<R: Wait>(
    rt: &R,
    alloc: Global,
    space: Space,
) -> Option<(bool, bool, bool, Space)> {
    let Ok((lock, mut root)) = TurnLock::around(alloc, space) else {
        return None;
    };
    if !call_and_return(rt, alloc, &lock, &mut root) {
        return None;
    }
    let before = ticks_at(rt, alloc, &lock, &mut root, 299_999);
    let then = ticks_at(rt, alloc, &lock, &mut root, 300_000);
    let after = ticks_at(rt, alloc, &lock, &mut root, 900_000);
    Some((before, then, after, lock.close(root)))
}

#[test]
fn a_tick_comes_where_a_wait_has_ended(rt: HostRuntime) {
    let alloc = rt.alloc();
    match quiet_seconds(&rt, alloc, space_of_one(&rt, alloc)) {
        Some((before, then, after, space)) => {
            must(&rt, !before, "no Tick while the wait lasts");
            must(&rt, then, "a Tick where it has ended");
            must(&rt, !after, "no Tick later");
            must(&rt, space.len() == 4, "and one event of it");
        }
        None => must(&rt, false, "no memory"),
    }
}
