//! The sample's hands share what its objects have counted, and forget it once an object is no longer exported.
ghost use Rattle.std.specs.Prelude.{◌<◌, ◌^◌};

use crate::hosts::{Runs, must};
use crate::texts::{cut, number_of};
use call_dispatch::{Crew, Invocation, Outcome, Worker};
use class_desc::Items;
use jrmp_frames::{Arg, ArgList, Arguments};
use object_ids::{ObjId, Uid};
use sample_app::{SampleCrew, SampleHand, SampleWorker};
use ser_values::{Builder, Value};
use std::alloc::Global;
use std::process::Abort;

/// The acts of hands, each line with the hand's number. `add OBJECT NUMBER` and `get OBJECT` have what they give after `>`. `gone OBJECT`
/// tells the hand that the object is no longer exported.
const ACTS: &str = "1 add 17 5 > 5
2 get 17 > 5
2 add 17 4 > 9
2 add 19 7 > 7
1 gone 17
1 get 17 > 0
2 get 17 > 0
1 get 19 > 7
2 gone 19
2 gone 19
1 get 19 > 0
2 add 17 1 > 1
1 get 17 > 1";

/// The object that a number names.
fn object_of(rt: &impl Abort, number: &str) -> ObjId {
    let space = Uid {
        unique: 7,
        time: 9,
        count: 0,
    };
    ObjId {
        number: i64::from(number_of(rt, number)),
        space,
    }
}

/// A call of a counter's method with these arguments.
fn call_of(
    rt: &impl Abort,
    alloc: Global,
    object: ObjId,
    method: u32,
    values: ArgList,
) -> Invocation {
    let graph = Builder::new(alloc).finish(Items::new(alloc));
    let graph = graph.expect(rt, "a graph");
    Invocation {
        object,
        kind: 1,
        method,
        arguments: Arguments { graph, values },
    }
}

/// The call of `add` that words tell: the object and the number.
fn adding(rt: &impl Abort, alloc: Global, words: &str) -> Invocation {
    let (object, number) = cut(words, ' ');
    let number = Value::Long(i64::from(number_of(rt, number)));
    let mut values = ArgList::new(alloc);
    must(rt, values.push(Arg::Prim(number)).is_ok(), "memory");
    call_of(rt, alloc, object_of(rt, object), 0, values)
}

/// The call that words tell, of `add` or of `get`.
fn spelled_call(rt: &impl Abort, alloc: Global, words: &str) -> Invocation {
    match words.strip_prefix("add ") {
        Some(rest) => adding(rt, alloc, rest),
        None => {
            let (_get, object) = cut(words, ' ');
            call_of(rt, alloc, object_of(rt, object), 1, ArgList::new(alloc))
        }
    }
}

/// Returns whether a call gives this number.
fn gives(outcome: &Outcome, number: u32) -> bool {
    match outcome {
        Outcome::Prim(Value::Long(given)) => *given == i64::from(number),
        _ => false,
    }
}

/// Has a worker do what words tell, and looks at what that gives.
fn check_act<W: Worker>(rt: &impl Abort, alloc: Global, worker: &mut W, words: &str)
    requires { (W.shown worker.old).calls < 2 ^ 62 }
{
    let (act, wanted) = cut(words, '>');
    match act.strip_prefix("gone ") {
        Some(object) => worker.unreferenced(object_of(rt, object)),
        None => {
            let outcome = worker.invoke(spelled_call(rt, alloc, act));
            must(rt, gives(&outcome, number_of(rt, wanted)), words);
        }
    }
}

/// Has two hands do what the lines tell.
fn check_hands<R: Runs>(
    rt: &R,
    alloc: Global,
    first: &mut SampleHand<'_, R>,
    second: &mut SampleHand<'_, R>,
) {
    for line in ACTS.split('\n') {
        let (hand, act) = cut(line, ' ');
        assert!(rt; first.calls < 100, "few calls");
        assert!(rt; second.calls < 100, "few calls");
        match hand {
            "1" => check_act(rt, alloc, first, act),
            _ => check_act(rt, alloc, second, act),
        }
    }
}

#[test]
fn hands_forget_together_what_an_object_has_counted(rt: HostRuntime) {
    let crew = SampleCrew::new(&rt, rt.alloc()).expect(&rt, "memory");
    let mut first = crew.hand(1).expect(&rt, "memory");
    let mut second = crew.hand(2).expect(&rt, "memory");
    check_hands(&rt, rt.alloc(), &mut first, &mut second);
}

#[test]
fn a_worker_forgets_what_an_object_has_counted(rt: HostRuntime) {
    let mut worker = SampleWorker::new(rt.alloc());
    for line in ACTS.split('\n') {
        let (_hand, act) = cut(line, ' ');
        assert!(&rt; worker.calls < 100, "few calls");
        check_act(&rt, rt.alloc(), &mut worker, act);
    }
}
