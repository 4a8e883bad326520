//! Passes and threads that take turns at one space.
ghost use Rattle.std.specs.Prelude.{◌≡◌, ◌+◌, ◌≤◌, IfSome};
ghost use Rattle.turn_lock.specs.Handles.{IsBranchOf, IsRootOf};

use crate::crews::{FIRST, crew, fresh, tick_pass, tick_pass_told};
use crate::journals::are_counted;
use object_ids::ObjIds;
use sequence::Kinds;
use space::{Ask, Space};
use std::alloc::Global;
use std::process::Abort;
use std::sync::Wait;
use std::thread::{Threads, join};
use turn_lock::{Pass, Root, TurnLock};

/// Stops where this does not hold.
pub(crate) fn must(rt: &impl Abort, holds: bool, what: &str) {
    assert!(rt; holds, "{what}");
}

/// A pass that is split off the root, if there is one more.
pub(crate) fn branch(root: &mut Root, lock: &TurnLock) -> Option<Pass>
    requires { IsRootOf lock.now root.old }
    ensures root { IsRootOf lock.now root.new }
    ensures pass { IfSome result (λ p. IsBranchOf lock.now p) }
    ensures out { IfSome result (λ _. root.new.out ≡ root.old.out + 1) }
{
    match root.split(lock) {
        Ok(pass) => Some(pass),
        Err(_fault) => None,
    }
}

/// Two passes with a thread each make so many ticks each; answers how many of them were refused.
fn tick_by_two<R: Threads + Wait + Sync>(
    rt: &R,
    alloc: Global,
    lock: &TurnLock,
    root: &mut Root,
    turns: u64,
) -> Option<u64>
    requires own { IsRootOf lock.now root.old }
    requires none { root.old.out ≡ 0 }
    requires few { turns ≤ 1000 }
    ensures root { IsRootOf lock.now root.new }
    ensures joined { IfSome result (λ _. root.new.out ≡ 0) }
{
    let one = branch(root, lock)?;
    let two = branch(root, lock)?;
    let ((one, first), (two, second)) = join(
        rt,
        move || -> (Pass, u64)
            requires { IsBranchOf lock.now one × (turns ≤ 1000) }
            ensures { IsBranchOf lock.entry.now result.0 }
        { tick_pass(rt, alloc, lock, one, turns) },
        move || -> (Pass, u64)
            requires { IsBranchOf lock.now two × (turns ≤ 1000) }
            ensures { IsBranchOf lock.entry.now result.0 }
        { tick_pass(rt, alloc, lock, two, turns) },
    );
    root.join(lock, two);
    root.join(lock, one);
    Some(first.wrapping_add(second))
}

/// The space after two passes with a thread each made so many ticks each, and how many of them were refused.
fn by_two<R: Threads + Wait + Sync>(
    rt: &R,
    alloc: Global,
    space: Space,
    turns: u64,
) -> Option<(Space, u64)>
    requires { turns ≤ 1000 }
{
    let Ok((lock, mut root)) = TurnLock::around(alloc, space) else {
        return None;
    };
    match tick_by_two(rt, alloc, &lock, &mut root, turns) {
        Some(refused) => Some((lock.close(root), refused)),
        None => None,
    }
}

/// Looks whether a space has so many events, and so many of each number in the order of their moments.
fn check_counts(rt: &impl Abort, alloc: Global, space: &Space, len: u64, wanted: &str) {
    must(rt, space.len() == len, "as many events");
    must(rt, are_counted(alloc, space, wanted), wanted);
}

#[test]
fn two_passes(rt: HostRuntime) {
    let alloc = rt.alloc();
    match by_two(&rt, alloc, fresh(alloc), 100) {
        Some((space, refused)) => {
            must(&rt, refused == 0, "none is refused");
            check_counts(&rt, alloc, &space, 200, "0 100 100 0 0 0 0 0 0 0");
        }
        None => must(&rt, false, "no memory"),
    }
}

/// Notes a return with many kinds, of a call that nobody ran, and answers whether there was memory.
fn note_many(alloc: Global, space: &mut Space) -> bool {
    let Ok(made) = vec![in alloc; 1u32; 4_194_290] else {
        return false;
    };
    let ask = Ask::Finish {
        object: FIRST,
        made: Kinds::from_vec(made),
        listed: ObjIds::new(alloc),
        uid: FIRST.space,
    };
    space.turn(0, 0, ask).is_ok()
}

/// The space with 13 units left.
fn nearly_full(rt: &impl Abort, alloc: Global) -> Space {
    let mut space = fresh(alloc);
    must(rt, note_many(alloc, &mut space), "noted");
    space
}

#[test]
fn a_full_history_refuses_while_others_wait(rt: HostRuntime) {
    let alloc = rt.alloc();
    match by_two(&rt, alloc, nearly_full(&rt, alloc), 10) {
        Some((space, refused)) => {
            must(&rt, refused == 7, "seven are refused");
            must(&rt, space.len() == 14, "and 13 are taken");
        }
        None => must(&rt, false, "no memory"),
    }
}

/// The space of one object, which is pinned.
pub(crate) fn space_of_one(rt: &impl Abort, alloc: Global) -> Space {
    let mut space = fresh(alloc);
    let pinned = true;
    let opened = space.turn(0, 0, Ask::Open { kind: 3, pinned });
    must(rt, opened.is_ok(), "opened");
    space
}

/// The space after eight passes with a thread each made 500 calls of its first object.
fn by_eight<R: Threads + Wait + Sync>(rt: &R, alloc: Global, space: Space) -> Option<Space> {
    let Ok((lock, root)) = TurnLock::around(alloc, space) else {
        return None;
    };
    let root = crew(rt, alloc, &lock, root, 8, 500, FIRST);
    Some(lock.close(root))
}

/// Returns whether no call of the first object runs.
fn is_idle(space: &Space) -> bool {
    for by in 1..9u32 {
        if space.running(by, FIRST) != 0 {
            return false;
        }
    }
    true
}

#[test]
fn eight_passes(rt: HostRuntime) {
    let alloc = rt.alloc();
    match by_eight(&rt, alloc, space_of_one(&rt, alloc)) {
        Some(space) => {
            let wanted = "1 1000 1000 1000 1000 1000 1000 1000 1000 0";
            check_counts(&rt, alloc, &space, 8001, wanted);
            must(&rt, is_idle(&space), "no call runs");
        }
        None => must(&rt, false, "no memory"),
    }
}

/// A further pass after so many ticks, of which its port kept nothing.
fn split_and_tick<R: Wait>(rt: &R, lock: &TurnLock, root: &mut Root, turns: u64) -> Option<Pass>
    requires own { IsRootOf lock.now root.old }
    requires few { turns ≤ 1000 }
    ensures root { IsRootOf lock.now root.new }
    ensures pass { IfSome result (λ p. IsBranchOf lock.now p × (root.new.out ≡ root.old.out + 1)) }
{
    match branch(root, lock) {
        Some(pass) => Some(tick_pass_told(rt, lock, pass, turns)),
        None => None,
    }
}

/// Makes three passes, uses them, and joins them in another order.
fn join_in_other_order<R: Wait>(rt: &R, lock: &TurnLock, root: &mut Root) -> Option<()>
    requires own { IsRootOf lock.now root.old }
    requires none { root.old.out ≡ 0 }
    ensures root { IsRootOf lock.now root.new }
    ensures joined { IfSome result (λ all. root.new.out ≡ 0) }
{
    let one = split_and_tick(rt, lock, root, 1)?;
    let two = split_and_tick(rt, lock, root, 2)?;
    let three = split_and_tick(rt, lock, root, 3)?;
    root.join(lock, two);
    root.join(lock, three);
    root.join(lock, one);
    Some(())
}

/// The space after three passes were joined in another order than they were made in, and the root made a turn.
fn in_other_order<R: Wait>(rt: &R, alloc: Global) -> Option<Space> {
    let Ok((lock, mut root)) = TurnLock::around(alloc, fresh(alloc)) else {
        return None;
    };
    match join_in_other_order(rt, &lock, &mut root) {
        Some(()) => {
            let (_answer, _asked) = root.turn(rt, alloc, &lock, 0, Ask::Tick);
            Some(lock.close(root))
        }
        None => None,
    }
}

#[test]
fn passes_are_joined_in_another_order(rt: HostRuntime) {
    let alloc = rt.alloc();
    match in_other_order(&rt, alloc) {
        Some(space) => check_counts(&rt, alloc, &space, 7, "1 1 2 3 0 0 0 0 0 0"),
        None => must(&rt, false, "no memory"),
    }
}
