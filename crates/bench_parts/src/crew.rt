//! Threads that take turns at one lock.
ghost use Rattle.std.specs.Prelude.{◌≡◌, ◌+◌, ◌≤◌, ◌<◌, ◌^◌};
ghost use Rattle.std.specs.Thread.{IsSync};
ghost use Rattle.turn_lock.specs.Handles.{IsBranchOf, IsRootOf};

use history::{Ask, SpaceConfig};
use object_ids::Uid;
use ports::Port;
use space::Space;
use std::alloc::Global;
use std::sync::Wait;
use std::thread::{Threads, join};
use turn_lock::{Pass, Root, SeatPort, TurnLock};

/// The space without events.
pub(crate) fn fresh(alloc: Global) -> Space {
    let config = SpaceConfig {
        lease_ms: 600_000,
        ack_ms: 300_000,
        uid: Uid {
            unique: 7,
            time: 0,
            count: 0,
        },
        stored: true,
    };
    Space::fresh(alloc, &config)
}

/// Notes so many times that time has passed.
fn ticks<P: Port>(port: &mut P, turns: u64)
    requires ready { P.ready port.old }
    requires room { turns ≤ (P.shown port.old).room }
    requires few { turns < 2 ^ 62 }
    ensures ready { P.ready port.new }
    ensures leads { P.leads port.old port.new }
{
    for moment in 0..turns {
        let _answer = port.turn(moment, Ask::Tick);
    }
}

/// A pass after so many turns.
fn work<R: Wait>(rt: &R, alloc: Global, lock: &TurnLock, mut pass: Pass, turns: u64) -> Pass
    requires own { IsBranchOf lock.now pass }
    requires few { turns ≤ 100000 }
    ensures { IsBranchOf lock.now result }
{
    let mut port = SeatPort::new(rt, alloc, lock, &mut pass);
    ticks(&mut port, turns);
    let _asked = port.into_asked();
    pass
}

/// The root after as many threads as there are passes to be made took so many turns each.
pub(crate) fn crew<R: Threads + Wait + Sync>(
    rt: &R,
    alloc: Global,
    lock: &TurnLock,
    mut root: Root,
    threads: u32,
    turns: u64,
) -> Root
    requires own { IsRootOf lock.now root }
    requires few { turns ≤ 100000 }
    ensures own { IsRootOf lock.now result }
    ensures out { result.out ≡ root.out }
{
    if threads == 0 {
        return root;
    }
    let out = root.out();
    let left = threads - 1;
    let Ok(pass) = root.split(lock) else {
        return root;
    };
    let (mut root, pass) = join(
        rt,
        move || -> Root
            requires { IsSync R.row × IsRootOf lock.now root × (root.out ≡ out + 1)
                × (turns ≤ 100000) }
            ensures { IsRootOf lock.entry.now result × (result.out ≡ out + 1) }
        {
            let _out = out;
            crew(rt, alloc, lock, root, left, turns)
        },
        move || -> Pass
            requires { IsSync R.row × IsBranchOf lock.now pass × (turns ≤ 100000) }
            ensures { IsBranchOf lock.entry.now result }
        { work(rt, alloc, lock, pass, turns) },
    );
    root.join(lock, pass);
    root
}
