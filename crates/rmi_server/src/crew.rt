//! The hands that do a service's calls, one for each connection.
ghost use Rattle.std.specs.Prelude.{◌≡◌, ◌+◌, ◌<◌, ◌^◌, None, IfOk};
ghost use Rattle.rmi_server.specs.Fits.{FitsCall, IsAnswer, May};

use crate::call::Call;
use crate::fault::{CallFault, outcome_of_fault};
use crate::fitting::fit_outcome;
use crate::reply::outcome_of;
use crate::service::Service;
use call_dispatch::{Book, Crew, Invocation, Outcome, Worker};
use object_ids::ObjId;
use std::alloc::{AllocError, Global};
use std::sync::{Arc, Mutex, Wait};

/// The values that the hands of a server share: the kinds that it serves, and its service behind a lock.
#[derive(Drop)]
struct Shared<S: Drop> {
    book: Book,
    service: Mutex<S>,
}

/// Has hands that share one service behind a lock.
#[derive(Drop)]
pub struct ServiceCrew<'t, R: Wait + Sync, S: Service> {
    rt: &'t R,
    alloc: Global,
    shared: Arc<Shared<S>>,
}

/// Does the calls of one connection. Each waits until no other hand is at the service.
#[derive(Drop)]
pub struct ServiceHand<'t, R: Wait + Sync, S: Service> {
    rt: &'t R,
    alloc: Global,
    shared: Arc<Shared<S>>,
    /// The number of its connection.
    pub by: u32,
    /// The number of calls that it was given.
    pub calls: u64,
}

impl<S: Service> Shared<S> {
    /// Asks the service to do a call, once no other hand is at it. The outcome is that of its answer, if that fits the method.
    fn answer<R: Wait>(&self, rt: &R, alloc: Global, call: &Invocation) -> Outcome
        ensures fits { FitsCall self.now.book call.now result }
        ensures answers { IsAnswer S.may_answer self.now.book call.now result }
    {
        let Some(method) = self.book.method(call.kind, call.method) else {
            return outcome_of_fault(alloc, CallFault::UnknownMethod);
        };
        let asked = Call {
            alloc,
            invocation: call,
            method,
        };
        let answer = self.service.lock(rt).call(&asked);
        fit_outcome(alloc, &self.book, method.result, outcome_of(alloc, answer))
    }

    /// Tells the service that an object is no longer exported, once no other hand is at it.
    fn forget<R: Wait>(&self, rt: &R, object: ObjId) {
        self.service.lock(rt).unreferenced(object);
    }
}

impl<'t, R: Wait + Sync, S: Service> ServiceCrew<'t, R, S> {
    /// The crew of a service whose objects are of these kinds. It is refused only for want of memory.
    pub fn new(
        rt: &'t R,
        alloc: Global,
        book: Book,
        service: S,
    ) -> Result<ServiceCrew<'t, R, S>, AllocError>
        ensures { IfOk result (λ crew. crew.shared.value.book ≡ book) }
    {
        let shared = Shared {
            book,
            service: Mutex::new(service),
        };
        Ok(ServiceCrew {
            rt,
            alloc,
            shared: Arc::new(alloc, shared)?,
        })
    }

    /// The kinds of objects that clients may call.
    pub fn book(&self) -> &Book
        ensures { result.now ≡ self.now.shared.value.book }
    {
        &self.shared.book
    }
}

impl<'t, R: Wait + Sync, S: Service + Send> Crew for ServiceCrew<'t, R, S> {
    type Hand = ServiceHand<'t, R, S>;

    fn hand(&self, by: u32) -> Result<ServiceHand<'t, R, S>, AllocError> {
        Ok(ServiceHand {
            rt: self.rt,
            alloc: self.alloc,
            shared: Arc::try_clone(&self.shared)?,
            by,
            calls: 0,
        })
    }
}

/// A hand tells its connection's number, how many calls it was given, and which outcomes each may have. Each outcome is that of an answer that the
/// service gave to the call. Other hands use the service between two of its calls, so it tells neither what the service keeps nor its calls one by one.
impl<'t, R: Wait + Sync, S: Service> Worker for ServiceHand<'t, R, S> {
    ghost shown = { λ hand.
        record { calls = hand.calls; seen = None; state = None; number = hand.by } };

    ghost may = { May S.may_answer };

    ghost moves = { λ before call after. before ≡ after };

    /// Asks the service to do a call. The outcome is that of the service's answer to it. It fits the called method of the server's own kinds, or ends
    /// the call.
    fn invoke(&mut self, call: Invocation) -> Outcome
        requires { self.old.calls < 2 ^ 62 }
        ensures calls { self.new.calls ≡ self.old.calls + 1 }
        ensures number { self.new.by ≡ self.old.by }
        ensures may { May S.may_answer call result }
        ensures fits { FitsCall self.old.shared.value.book call result }
        ensures answers { IsAnswer S.may_answer self.old.shared.value.book call result }
    {
        self.calls += 1;
        self.shared.answer(self.rt, self.alloc, &call)
    }

    fn unreferenced(&mut self, object: ObjId) {
        self.shared.forget(self.rt, object);
    }
}
