//! A recording lock whose events are taken seldom, or not at all.
ghost use Rattle.std.specs.Prelude.{◌≡◌, ◌+◌, IfSome};
ghost use Rattle.std.specs.Thread.{IsSync};
ghost use Rattle.turn_lock.specs.Handles.{IsBranchOf, IsRootOf};

use crate::crews::{fresh, tick_pass, tick_pass_told};
use crate::turns::{branch, must};
use history::{Event, EventList};
use space::Ask;
use std::alloc::Global;
use std::sync::Wait;
use std::thread::{Threads, join, sleep};
use std::time::{Clock, Duration};
use turn_lock::{Pass, RecentFault, Root, TurnLock};

/// The number of kept events from which turns of passes wait.
const LIMIT: u64 = 16_384;

/// How many ticks each of two passes makes.
const TURNS: u64 = 50_000;

/// The events that were taken, counted by their numbers.
#[derive(Drop)]
struct Counted {
    /// How many events of the numbers 0, 1 and 2 were taken.
    counts: [u64; 3],
    /// How many events were taken in all.
    len: u64,
    /// How many events the longest part had.
    longest: u64,
    /// False where a part was refused, or the k-th event of a number, from 0, had another moment than k.
    whole: bool,
}

impl Counted {
    fn new() -> Counted {
        Counted {
            counts: [0; 3],
            len: 0,
            longest: 0,
            whole: true,
        }
    }

    fn count(&mut self, event: &Event) {
        match self.counts.get_mut(event.by as usize) {
            Some(count) => {
                if *count != event.moment {
                    self.whole = false;
                }
                *count = count.wrapping_add(1);
            }
            None => self.whole = false,
        }
    }

    fn put(&mut self, part: Result<EventList, RecentFault>) {
        let Ok(part) = part else {
            self.whole = false;
            return;
        };
        let len = part.len() as u64;
        for event in part.as_slice() {
            self.count(event);
        }
        self.len = self.len.wrapping_add(len);
        self.longest = self.longest.max(len);
    }
}

/// Takes events every two milliseconds, until so many were taken, or for a minute.
fn take_seldom<R: Wait + Clock>(
    rt: &R,
    lock: &TurnLock,
    mut root: Root,
    wanted: u64,
) -> (Root, Counted)
    requires own { IsRootOf lock.now root }
    ensures own { IsRootOf lock.now result.0 }
    ensures out { result.0.out ≡ root.out }
{
    let mut counted = Counted::new();
    for _ in 0..30_000u32 {
        if counted.len == wanted {
            break;
        }
        sleep(rt, Duration::from_millis(2));
        let part = root.take_recent(rt, lock, counted.len);
        counted.put(part);
    }
    (root, counted)
}

/// Two passes after `TURNS` ticks each, in a thread each.
fn tick_both<R: Threads + Wait + Sync>(
    rt: &R,
    alloc: Global,
    lock: &TurnLock,
    one: Pass,
    two: Pass,
) -> (Pass, Pass)
    requires own { IsBranchOf lock.now one × IsBranchOf lock.now two }
    ensures own { IsBranchOf lock.now result.0 × IsBranchOf lock.now result.1 }
{
    join(
        rt,
        move || -> Pass
            requires { IsBranchOf lock.now one }
            ensures { IsBranchOf lock.entry.now result }
        {
            let (pass, _refused) = tick_pass(rt, alloc, lock, one, TURNS);
            pass
        },
        move || -> Pass
            requires { IsBranchOf lock.now two }
            ensures { IsBranchOf lock.entry.now result }
        { tick_pass_told(rt, lock, two, TURNS) },
    )
}

/// The root, and the events that it took while two passes made ticks.
fn take_beside_two<R: Threads + Wait + Clock + Sync>(
    rt: &R,
    alloc: Global,
    lock: &TurnLock,
    mut root: Root,
) -> Option<Counted>
    requires own { IsRootOf lock.now root }
    requires none { root.out ≡ 0 }
{
    let one = branch(&mut root, lock)?;
    let two = branch(&mut root, lock)?;
    let ((_root, counted), (_one, _two)) = join(
        rt,
        move || -> (Root, Counted)
            requires { IsRootOf lock.now root }
            ensures { IsRootOf lock.entry.now result.0 }
        { take_seldom(rt, lock, root, 2 * TURNS) },
        move || -> (Pass, Pass)
            requires { IsSync R.row × IsBranchOf lock.now one × IsBranchOf lock.now two }
            ensures { IsBranchOf lock.entry.now result.0 × IsBranchOf lock.entry.now result.1 }
        { tick_both(rt, alloc, lock, one, two) },
    );
    Some(counted)
}

/// The events that were taken from a fresh space while two passes made ticks.
fn count_beside_two<R: Threads + Wait + Clock + Sync>(rt: &R, alloc: Global) -> Option<Counted> {
    match TurnLock::recording(alloc, fresh(alloc)) {
        Ok((lock, root)) => take_beside_two(rt, alloc, &lock, root),
        Err(_space) => None,
    }
}

#[test]
fn turns_wait_for_room(rt: HostRuntime) {
    let alloc = rt.alloc();
    let Some(counted) = count_beside_two(&rt, alloc) else {
        return must(&rt, false, "no memory");
    };
    must(&rt, counted.whole, "all parts come, in order");
    must(&rt, counted.counts == [0, TURNS, TURNS], "all events come");
    must(&rt, counted.longest <= LIMIT + 100, "few events are kept");
}

/// Makes a few more ticks of the root than there is room for events.
fn fill<R: Wait>(rt: &R, alloc: Global, lock: &TurnLock, root: &mut Root)
    requires own { IsRootOf lock.now root.old }
    ensures own { IsRootOf lock.now root.new }
    ensures out { root.new.out ≡ root.old.out }
{
    for _ in 0..LIMIT + 100 {
        let _answer = root.turn(rt, alloc, lock, 0, Ask::Tick);
    }
}

/// Whether the lock is crowded before and after the root's ticks; how many of two further ticks of a pass were refused; and whether it is crowded
/// after the events were taken.
fn turns_untaken<R: Wait>(
    rt: &R,
    alloc: Global,
    lock: &TurnLock,
    mut root: Root,
) -> Option<(bool, bool, u64, bool)>
    requires own { IsRootOf lock.now root }
{
    let before = lock.is_crowded();
    fill(rt, alloc, lock, &mut root);
    let after = lock.is_crowded();
    let pass = branch(&mut root, lock)?;
    let (pass, refused) = tick_pass(rt, alloc, lock, pass, 2);
    drop(pass);
    let _part = root.take_recent(rt, lock, 0);
    Some((before, after, refused, lock.is_crowded()))
}

/// The same of a fresh space, by a lock that records.
fn turns_recorded<R: Wait>(rt: &R, alloc: Global) -> Option<(bool, bool, u64, bool)> {
    match TurnLock::recording(alloc, fresh(alloc)) {
        Ok((lock, root)) => turns_untaken(rt, alloc, &lock, root),
        Err(_space) => None,
    }
}

/// The same, by a lock that doesn't record.
fn turns_unrecorded<R: Wait>(rt: &R, alloc: Global) -> Option<(bool, bool, u64, bool)> {
    match TurnLock::around(alloc, fresh(alloc)) {
        Ok((lock, root)) => turns_untaken(rt, alloc, &lock, root),
        Err(_space) => None,
    }
}

#[test]
fn turns_go_on_where_nobody_takes(rt: HostRuntime) {
    let alloc = rt.alloc();
    must(
        &rt,
        turns_recorded(&rt, alloc) == Some((false, true, 0, false)),
        "the root never waits, and a pass a second",
    );
    must(
        &rt,
        turns_unrecorded(&rt, alloc) == Some((false, false, 0, false)),
        "a lock that doesn't record is never crowded",
    );
}
