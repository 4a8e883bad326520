//! Hands that keep their calls: each is the hand of one connection, and is told once what the Tick before that connection withdrew.
ghost use Rattle.std.specs.Prelude.{◌≤◌};

use crate::gates::{Gated, GatedSink, GatedSource};
use crate::servers::{CONFIG, SPACE, check_all, listener_of, plan_of, serve_over};
use crate::texts::must;
use call_dispatch::{Crew, Outcome, OutcomeList, Recorded, RecordingWorker};
use conn_server::{Report, ServePlan, Stop};
use object_ids::{ObjId, ObjIds, Uid};
use sample_app::sample_space;
use sequence::Kinds;
use ser_values::Value;
use space::{Ask, Space};
use std::alloc::{AllocError, Global};
use std::process::Abort;
use std::sync::Wait;
use std::thread::Threads;
use wire_io::MemClock;

/// Has hands that answer their connection's number to the first invocation, and keep their calls.
#[derive(Drop)]
pub(crate) struct Recorders {
    pub(crate) alloc: Global,
}

impl Crew for Recorders {
    type Hand = RecordingWorker;

    fn hand(&self, by: u32) -> Result<RecordingWorker, AllocError> {
        let mut outcomes = OutcomeList::new(self.alloc);
        outcomes.push(Outcome::Prim(Value::Long(i64::from(by))))?;
        Ok(RecordingWorker::of_connection(self.alloc, outcomes, by))
    }
}

/// A report of all links.
type Told = Report<GatedSource, GatedSink, MemClock, RecordingWorker>;

/// The object that is made beforehand. No client holds it.
pub(crate) const MADE: ObjId = ObjId {
    number: 19,
    space: SPACE,
};

/// The maker.
const MAKER: ObjId = ObjId {
    number: 18,
    space: SPACE,
};

/// Has the maker make a counter at the moment 0, which awaits its acknowledgement until the moment 300,000.
fn make(alloc: Global, space: &mut Space) -> bool {
    let mut made = Kinds::new(alloc);
    if made.push(1).is_err() {
        return false;
    }
    let uid = Uid {
        unique: 1,
        time: 1,
        count: 1,
    };
    let finish = Ask::Finish {
        object: MAKER,
        made,
        listed: ObjIds::new(alloc),
        uid,
    };
    space.turn(0, 0, Ask::Begin { object: MAKER }).is_ok() && space.turn(0, 0, finish).is_ok()
}

/// The sample's space, in which a counter was made; None where there is no memory.
pub(crate) fn space_with_made(alloc: Global) -> Option<Space> {
    let mut space = sample_space(alloc, &CONFIG).ok()?;
    if make(alloc, &mut space) {
        Some(space)
    } else {
        None
    }
}

/// Serves links with hands that keep their calls, after a counter was made; None where there is no memory.
fn serve_told<R: Threads + Wait + Sync>(
    rt: &R,
    alloc: Global,
    listener: &mut Gated,
    plan: &ServePlan,
) -> Option<Told>
    requires few { plan.now.count ≤ 65535 }
{
    let space = space_with_made(alloc)?;
    serve_over(rt, alloc, listener, &Recorders { alloc }, space, plan)
}

/// Two clients that each call a counter. The made one is gone at the first one's Tick.
const CALLING: &str =
    "0 | 1234 | 300000 | | opening add_one | ack number +5 first 00000000 +0 | Ended
0 | 1234 | 300001 | | opening add_one | ack number +5 first 00000000 +0 | Ended";

/// Returns whether the hands were told so: the first of the object that is gone, and each of its call.
fn are_told(first: &[Recorded], second: &[Recorded]) -> bool {
    match (first, second) {
        ([Recorded::Unreferenced(gone), Recorded::Invoked(_, _)], [Recorded::Invoked(_, _)]) =>
            gone.number == MADE.number,
        _ => false,
    }
}

/// Looks at what the hands of the two links were told.
fn check_told(rt: &impl Abort, report: &Told) {
    match report.links.as_slice() {
        [one, two] => {
            let told = are_told(one.hand.records(), two.hand.records());
            must(rt, told, "told");
        }
        _ => must(rt, false, "two links"),
    }
}

#[test]
fn a_hand_is_told_once_what_its_tick_withdrew(rt: HostRuntime) {
    let plan = plan_of(&rt, rt.alloc(), 2, 1099);
    match listener_of(&rt, rt.alloc(), CALLING) {
        Some(mut listener) => match serve_told(&rt, rt.alloc(), &mut listener, &plan) {
            Some(report) => {
                check_all(&rt, rt.alloc(), report.links.as_slice(), CALLING);
                must(&rt, report.stop == Stop::All, "stop");
                check_told(&rt, &report);
            }
            None => must(&rt, false, "memory"),
        },
        None => must(&rt, false, "memory"),
    }
}
