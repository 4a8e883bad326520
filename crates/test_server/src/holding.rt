//! A call holds up no other link: the hand of the first link waits inside its invocation until the second link's call was answered.
use crate::gates::{Ended, are_ended};
use crate::servers::{check_all, listener_of, plan_of, serve_over};
use crate::texts::must;
use call_dispatch::{Crew, Invocation, Outcome, Worker};
use conn_server::Stop;
use object_ids::ObjId;
use sample_app::sample_space;
use ser_values::Value;
use std::alloc::{AllocError, Global};
use std::process::Abort;
use std::sync::{Arc, Wait};
use std::thread::Threads;
use test_support::spaces::CONFIG;

/// A hand that answers its connection's number. That of the first connection waits until another link was served to its end, or the listener was told to
/// stop, and answers nothing where neither was.
#[derive(Drop)]
pub(crate) struct HoldingHand {
    by: u32,
    ended: Ended,
    calls: u64,
}

impl Worker for HoldingHand {
    ghost use Rattle.std.specs.Prelude.{None};

    ghost shown = { λ hand. record { calls = hand.calls; seen = None; state = None; number = hand.by } };

    ghost may = { λ call outcome. Unit {0} };

    ghost moves = { λ before call after. Unit {0} };

    fn invoke(&mut self, _call: Invocation) -> Outcome {
        self.calls += 1;
        if self.by == 1 && !are_ended(&self.ended, 2) {
            return Outcome::Void;
        }
        Outcome::Prim(Value::Long(i64::from(self.by)))
    }

    fn unreferenced(&mut self, _object: ObjId) {}
}

/// Has such hands.
#[derive(Drop)]
pub(crate) struct Holding {
    pub(crate) ended: Ended,
}

impl Crew for Holding {
    type Hand = HoldingHand;

    fn hand(&self, by: u32) -> Result<HoldingHand, AllocError> {
        let ended = Arc::try_clone(&self.ended)?;
        Ok(HoldingHand {
            by,
            ended,
            calls: 0,
        })
    }
}

/// Has such a hand for the first connection, and no memory for further ones.
#[derive(Drop)]
pub(crate) struct First {
    pub(crate) crew: Holding,
}

impl Crew for First {
    type Hand = HoldingHand;

    fn hand(&self, by: u32) -> Result<HoldingHand, AllocError> {
        if by > 1 {
            return Err(AllocError);
        }
        self.crew.hand(by)
    }
}

/// Two clients that each call a counter, as in `rows`.
const CALLING: &str =
    "0 | 1234 | 0 | | opening add_one ping | ack number +5 first 00000000 +0 pong | Ended
0 | 1234 | 0 | | opening add_one ping | ack number +5 first 00000000 +0 pong | Ended";

/// Serves the two clients, and looks what each got; None where there is no memory.
fn check_held<R: Threads + Wait + Abort + Sync>(rt: &R, alloc: Global) -> Option<()> {
    let mut listener = listener_of(rt, alloc, CALLING)?;
    let crew = Holding {
        ended: listener.ended()?,
    };
    let plan = plan_of(rt, alloc, 2, 1099);
    let space = sample_space(alloc, &CONFIG).ok()?;
    let report = serve_over(rt, alloc, &mut listener, &crew, space, &plan)?;
    check_all(rt, alloc, report.links.as_slice(), CALLING);
    must(rt, report.stop == Stop::All, "stop");
    Some(())
}

#[test]
fn two_links_at_once(rt: HostRuntime) {
    must(&rt, check_held(&rt, rt.alloc()).is_some(), "memory");
}
