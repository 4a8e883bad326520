//! Threads that take turns at one lock.
ghost use Rattle.std.specs.Prelude.{◌≡◌, ◌≤◌, ◌<◌, ◌+◌, ◌*◌, ◌^◌};
ghost use Rattle.std.specs.Thread.{IsSync};
ghost use Rattle.test_lock.specs.Started.{AllEnded, started_by};
ghost use Rattle.ports.specs.Ports.{is_started};
ghost use Rattle.turn_lock.specs.Handles.{IsBranchOf, IsRootOf};

use object_ids::{ObjId, Uid};
use ports::Port;
use space::{Ask, Refused, Reply, Space, SpaceConfig, Turn};
use std::alloc::Global;
use std::sync::Wait;
use std::thread::{Threads, join};
use turn_lock::{Pass, PassPort, Root, SeatPort, TurnLock};

/// The identifier of the space.
const SPACE: Uid = Uid {
    unique: 7,
    time: 0,
    count: 0,
};

/// The first object of the space.
pub(crate) const FIRST: ObjId = ObjId {
    number: 16,
    space: SPACE,
};

/// The space without events.
pub(crate) fn fresh(alloc: Global) -> Space {
    let config = SpaceConfig {
        lease_ms: 600_000,
        ack_ms: 300_000,
        uid: SPACE,
        stored: true,
    };
    Space::fresh(alloc, &config)
}

/// Notes so many times that time has passed, and answers how many of these turns were refused.
fn ticks<P: Port>(port: &mut P, turns: u64) -> u64
    requires ready { P.ready port.old }
    requires room { turns ≤ (P.shown port.old).room }
    requires few { turns < 2 ^ 62 }
    ensures ready { P.ready port.new }
    ensures leads { P.leads port.old port.new }
{
    let mut refused = 0u64;
    for moment in 0..turns {
        if port.turn(moment, Ask::Tick).is_err() {
            refused = refused.wrapping_add(1);
        }
    }
    refused
}

/// A pass after so many ticks, and how many of them were refused.
pub(crate) fn tick_pass<R: Wait>(
    rt: &R,
    alloc: Global,
    lock: &TurnLock,
    mut pass: Pass,
    turns: u64,
) -> (Pass, u64)
    requires own { IsBranchOf lock.now pass }
    requires few { turns < 2 ^ 62 }
    ensures { IsBranchOf lock.now result.0 }
{
    let mut port = SeatPort::new(rt, alloc, lock, &mut pass);
    let refused = ticks(&mut port, turns);
    let _asked = port.into_asked();
    (pass, refused)
}

/// A pass after so many ticks, made by a port whose entries exist in proofs alone.
pub(crate) fn tick_pass_told<R: Wait>(rt: &R, lock: &TurnLock, mut pass: Pass, turns: u64) -> Pass
    requires own { IsBranchOf lock.now pass }
    requires few { turns < 2 ^ 62 }
    ensures { IsBranchOf lock.now result }
{
    let mut port = PassPort::new_told(rt, lock, &mut pass);
    let _refused = ticks(&mut port, turns);
    let _told = port.into_told();
    pass
}

/// Returns whether a call was begun.
fn is_started(answer: &Result<Turn, Refused>) -> bool
    ensures { result ≡ started_by answer.now }
{
    match answer {
        Ok(turn) => has_started(&turn.reply),
        Err(_refused) => false,
    }
}

fn has_started(reply: &Reply) -> bool
    ensures { result ≡ is_started reply.now }
{
    match reply {
        Reply::Started(_kind) => true,
        _ => false,
    }
}

/// Begins a call of an object, and ends it without an answer.
fn call<P: Port>(port: &mut P, moment: u64, object: ObjId)
    requires ready { P.ready port.old }
    requires room { 2 ≤ (P.shown port.old).room }
    requires moment { moment < 2 ^ 61 }
    requires ended { AllEnded (P.shown port.old).asked object }
    ensures ready { P.ready port.new }
    ensures leads { P.leads port.old port.new }
    ensures room { (P.shown port.old).room ≤ (P.shown port.new).room + 2 }
    ensures ended { AllEnded (P.shown port.new).asked object }
{
    let answer = port.turn(moment, Ask::Begin { object });
    if is_started(&answer) {
        port.abandon(moment + 1, object);
    }
}

/// So many calls of an object that are begun and ended.
fn calls<P: Port>(port: &mut P, count: u64, object: ObjId)
    requires ready { P.ready port.old }
    requires room { 2 * count ≤ (P.shown port.old).room }
    requires few { count < 2 ^ 31 }
    requires ended { AllEnded (P.shown port.old).asked object }
    ensures ready { P.ready port.new }
    ensures leads { P.leads port.old port.new }
{
    for k in 0..count {
        call(port, 2 * k, object);
    }
}

/// A pass after so many calls of an object.
pub(crate) fn call_as_pass<R: Wait>(
    rt: &R,
    alloc: Global,
    lock: &TurnLock,
    mut pass: Pass,
    count: u64,
    object: ObjId,
) -> Pass
    requires own { IsBranchOf lock.now pass }
    requires few { count ≤ 1000000 }
    ensures { IsBranchOf lock.now result }
{
    let mut port = SeatPort::new(rt, alloc, lock, &mut pass);
    calls(&mut port, count, object);
    let _asked = port.into_asked();
    pass
}

/// The root after so many further passes, each with a thread of its own, made so many calls of an object each.
pub(crate) fn crew<R: Threads + Wait + Sync>(
    rt: &R,
    alloc: Global,
    lock: &TurnLock,
    mut root: Root,
    passes: u32,
    count: u64,
    object: ObjId,
) -> Root
    requires own { IsRootOf lock.now root }
    requires few { count ≤ 1000000 }
    ensures own { IsRootOf lock.now result }
    ensures out { result.out ≡ root.out }
{
    if passes == 0 {
        return root;
    }
    let out = root.out();
    let left = passes - 1;
    let Ok(pass) = root.split(lock) else {
        return root;
    };
    let (mut root, pass) = join(
        rt,
        move || -> Root
            requires { IsSync R.row × IsRootOf lock.now root × (root.out ≡ out + 1) × (count ≤ 1000000) }
            ensures { IsRootOf lock.entry.now result × (result.out ≡ out + 1) }
        {
            let _out = out;
            crew(rt, alloc, lock, root, left, count, object)
        },
        move || -> Pass
            requires { IsSync R.row × IsBranchOf lock.now pass × (count ≤ 1000000) }
            ensures { IsBranchOf lock.entry.now result }
        { call_as_pass(rt, alloc, lock, pass, count, object) },
    );
    root.join(lock, pass);
    root
}
