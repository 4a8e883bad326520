//! A lock that keeps recent events, which the root hands out in parts while others take turns.
ghost use Rattle.std.specs.Prelude.{◌≡◌, ◌≤◌, ◌+◌, IfSome};
ghost use Rattle.turn_lock.specs.Handles.{IsBranchOf, IsRootOf};

use crate::crews::{fresh, tick_pass};
use crate::turns::{branch, must};
use history::{Event, EventList};
use space::{Ask, Space, journal};
use std::alloc::Global;
use std::sync::Wait;
use std::thread::{Threads, join};
use turn_lock::{Pass, Root, TurnLock};

/// The events that were handed out so far.
#[derive(Drop)]
struct Parts {
    events: Vec<Event>,
    /// How many parts had events.
    count: u32,
    /// False where a part was missed.
    whole: bool,
}

impl Parts {
    fn new(alloc: Global) -> Parts {
        Parts {
            events: Vec::new(alloc),
            count: 0,
            whole: true,
        }
    }

    /// Appends a part.
    fn put(&mut self, part: Option<EventList>) {
        let Some(part) = part else {
            self.whole = false;
            return;
        };
        if !part.is_empty() {
            self.count = self.count.wrapping_add(1);
        }
        for event in part {
            if self.events.push(event).is_err() {
                self.whole = false;
            }
        }
    }

    fn len(&self) -> u64 {
        self.events.len() as u64
    }
}

/// Makes a Tick of the root's and takes the recent events, so many times.
fn take_often<R: Wait>(
    rt: &R,
    alloc: Global,
    lock: &TurnLock,
    mut root: Root,
    times: u32,
) -> (Root, Parts)
    requires own { IsRootOf lock.now root }
    ensures own { IsRootOf lock.now result.0 }
    ensures out { result.0.out ≡ root.out }
{
    let mut parts = Parts::new(alloc);
    for _ in 0..times {
        let _answer = root.turn(rt, alloc, lock, 0, Ask::Tick);
        let part = root.take_recent(rt, lock, parts.len());
        parts.put(part.ok());
    }
    (root, parts)
}

/// The root and the events that it took, while another pass made so many ticks.
fn take_beside<R: Threads + Wait + Sync>(
    rt: &R,
    alloc: Global,
    lock: &TurnLock,
    mut root: Root,
) -> Option<(Root, Parts)>
    requires own { IsRootOf lock.now root }
    requires none { root.out ≡ 0 }
    ensures root { IfSome result (λ r. IsRootOf lock.now r.0 × (r.0.out ≡ 0)) }
{
    let pass = branch(&mut root, lock)?;
    let ((mut root, parts), pass) = join(
        rt,
        move || -> (Root, Parts)
            requires { IsRootOf lock.now root × (root.out ≡ 1) }
            ensures { IsRootOf lock.entry.now result.0 × (result.0.out ≡ 1) }
        { take_often(rt, alloc, lock, root, 100) },
        move || -> Pass
            requires { IsBranchOf lock.now pass }
            ensures { IsBranchOf lock.entry.now result }
        {
            let (pass, _refused) = tick_pass(rt, alloc, lock, pass, 400);
            pass
        },
    );
    root.join(lock, pass);
    Some((root, parts))
}

/// The space after two threads, and all its events as they were handed out.
fn record_two<R: Threads + Wait + Sync>(rt: &R, alloc: Global) -> Option<(Space, Parts)> {
    let Ok((lock, root)) = TurnLock::recording(alloc, fresh(alloc)) else {
        return None;
    };
    let (root, mut parts) = take_beside(rt, alloc, &lock, root)?;
    let (space, rest) = lock.close_recording(root, parts.len());
    parts.put(rest.ok());
    Some((space, parts))
}

/// The space that takes these events again.
fn replay(alloc: Global, events: Vec<Event>) -> Option<Space> {
    let mut space = fresh(alloc);
    for event in events {
        let Event { by, moment, ask } = event;
        if moment >= 1 << 61 || space.turn(by, moment, ask).is_err() {
            return None;
        }
    }
    Some(space)
}

/// Returns whether two spaces have one journal.
fn have_one_journal(alloc: Global, one: &Space, two: &Space) -> bool {
    if !one.is_stored() || !two.is_stored() {
        return false;
    }
    match (journal(alloc, one), journal(alloc, two)) {
        (Ok(first), Ok(second)) => first.as_slice() == second.as_slice(),
        _ => false,
    }
}

#[test]
fn parts_are_the_history(rt: HostRuntime) {
    let alloc = rt.alloc();
    let Some((space, parts)) = record_two(&rt, alloc) else {
        return must(&rt, false, "no memory");
    };
    must(&rt, space.len() == 500, "all ticks are taken");
    must(&rt, parts.whole, "no part is missed");
    must(
        &rt,
        parts.count >= 100,
        "each Tick of the root is in the next part",
    );
    match replay(alloc, parts.events) {
        Some(again) => must(&rt, have_one_journal(alloc, &space, &again), "one history"),
        None => must(&rt, false, "refused again"),
    }
}

/// Whether events came from a place that is wrong, and how many then came from the right one.
fn take_wrong<R: Wait>(
    rt: &R,
    alloc: Global,
    lock: &TurnLock,
    root: &mut Root,
) -> (bool, Option<usize>)
    requires own { IsRootOf lock.now root.old }
{
    let _answer = root.turn(rt, alloc, lock, 0, Ask::Tick);
    let wrong = root.take_recent(rt, lock, 1).is_ok();
    let right = match root.take_recent(rt, lock, 0) {
        Ok(part) => Some(part.len()),
        Err(_fault) => None,
    };
    (wrong, right)
}

/// The same of a lock that keeps events.
fn take_kept<R: Wait>(rt: &R, alloc: Global) -> Option<(bool, Option<usize>)> {
    let Ok((lock, mut root)) = TurnLock::recording(alloc, fresh(alloc)) else {
        return None;
    };
    Some(take_wrong(rt, alloc, &lock, &mut root))
}

/// The same of a lock that keeps none.
fn take_unkept<R: Wait>(rt: &R, alloc: Global) -> Option<(bool, Option<usize>)> {
    let Ok((lock, mut root)) = TurnLock::around(alloc, fresh(alloc)) else {
        return None;
    };
    Some(take_wrong(rt, alloc, &lock, &mut root))
}

#[test]
fn a_wrong_place_takes_nothing(rt: HostRuntime) {
    let alloc = rt.alloc();
    must(
        &rt,
        take_kept(&rt, alloc) == Some((false, Some(1))),
        "one event is kept",
    );
    must(
        &rt,
        take_unkept(&rt, alloc) == Some((false, None)),
        "none is kept",
    );
}
