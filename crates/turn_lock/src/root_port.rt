//! The root's own pass.
ghost use Rattle.std.specs.Prelude.{◌≡◌, ◌≢◌, ◌↔◌, ◌<◌, [], length, true, false, Err, MatchResult, IfOk};
ghost use Rattle.std.specs.Borrow.{sem};
ghost use Rattle.history.specs.declared.limits.TheConstants.{END_OF_TIME};
ghost use Rattle.ports.specs.Ties.{IsTied};
ghost use Rattle.ports.specs.Ports.{entries_of};
ghost use Rattle.turn_lock.specs.Handles.{IsPassOf, IsRootOf, opening_of, seen_space, view_of};
ghost use Rattle.turn_lock.specs.Lending.{LendsPass};
ghost use Rattle.turn_lock.specs.Orders.{TurnCollects};
ghost use Rattle.turn_lock.specs.PassPorts.{PassWent};
ghost use Rattle.turn_lock.specs.Recent.{IsRest};
ghost use Rattle.turn_lock.specs.Rule.{InOrder, TurnedWithEntry};

use crate::handles::{Pass, RecentFault, Root, TurnLock};
use crate::lock::recent_fault;
use crate::port::{PassPort, SeatPort};
use history::{Ask, EventList, Refused, Turn};
use ports::{Port, PortEntries};
use std::alloc::Global;
use std::sync::Wait;

impl Root {
    /// A port over the root's own pass, number 0.
    pub fn port<'a, R: Wait>(
        &'a mut self,
        rt: &'a R,
        alloc: Global,
        lock: &'a TurnLock,
    ) -> SeatPort<'a, R>
        requires own { IsRootOf lock.now self.old }
        ensures* writes_back { sem 𝓛 (LendsPass self.entry result.pass) }
        ensures values { (result.pass.now ≡ self.old.pass) × (result.lock.now ≡ lock.now)
            × (result.asked.items ≡ []) }
        ensures ready { IsTied (view_of result.pass.now).number
            (seen_space (view_of result.pass.now)) result.asked.items result.asked.capacity }
    {
        let pass = &mut self.pass;
        PassPort::new(rt, alloc, lock, pass)
    }

    /// The root's own pass, number 0.
    pub fn own(&mut self) -> &mut Pass
        ensures* writes_back { sem 𝓛 (LendsPass self.entry result) }
        ensures value { result.now ≡ self.old.pass }
    {
        &mut self.pass
    }

    /// One turn of the root's own pass, and its entries: one, or none where there was no memory.
    pub fn turn<R: Wait>(
        &mut self,
        rt: &R,
        alloc: Global,
        lock: &TurnLock,
        moment: u64,
        ask: Ask,
    ) -> (Result<Turn, Refused>, PortEntries)
        requires own { IsRootOf lock.now self.old }
        requires moment { moment < END_OF_TIME }
        ensures root { IsRootOf lock.now self.new }
        ensures counts { (self.new.made ≡ self.old.made) × (self.new.out ≡ self.old.out) }
        ensures kept { self.new.kept ≡ self.old.kept }
        ensures went { PassWent self.old.pass self.new.pass result.1 }
        ensures asked { result.1 ≡ entries_of moment ask result.0 }

        // The turn is at its place in the one history, which the root has then seen.
        ensures turned { TurnedWithEntry (view_of self.old.pass) self.old.pass.number moment ask
            result.0 (view_of self.new.pass) }
        ensures ordered { InOrder (opening_of lock.now) (view_of self.new.pass) }

        // The history's table keeps what there is a reason to keep at the turn's place, and the rest is withdrawn.
        ensures collector { IfOk result.0
            (λ _. TurnCollects (view_of self.old.pass) moment ask (view_of self.new.pass)) }
    {
        turn_of_pass(rt, alloc, lock, self.own(), moment, ask)
    }

    /// Hands out the events from this place on, and forgets them. It waits for its ticket, and makes no turn. After a refusal none is forgotten.
    ///
    /// NotRecorded comes exactly if the lock keeps no events, and Forgotten exactly if it does and the place isn't the one at which the kept events begin.
    pub fn take_recent<R: Wait>(
        &mut self,
        rt: &R,
        lock: &TurnLock,
        from: u64,
    ) -> Result<EventList, RecentFault>
        requires own { IsRootOf lock.now self.old }
        ensures root { IsRootOf lock.now self.new }
        ensures counts { (self.new.made ≡ self.old.made) × (self.new.out ≡ self.old.out) }

        // The root makes no turn, but sees a history that begins with what it had seen.
        ensures went { PassWent self.old.pass self.new.pass [] }
        ensures recent { IfOk result (λ part. IsRest from (view_of self.new.pass).seen part) }

        // The kept events begin behind those that were handed out.
        ensures kept { MatchResult result (λ _. self.new.kept ≡ length (view_of self.new.pass).seen)
            (λ _. self.new.kept ≡ self.old.kept) }
        ensures records { (result ≡ Err RecentFault.NotRecorded) ↔ (lock.now.records ≡ false) }
        ensures place { (result ≡ Err RecentFault.Forgotten)
            ↔ ((lock.now.records ≡ true) × (from ≢ self.old.kept)) }
        ensures ordered { InOrder (opening_of lock.now) (view_of self.new.pass) }
    {
        if let Some(fault) = recent_fault(lock.records, self.kept, from) {
            return Err(fault);
        }
        match self.pass.take_recent(rt, lock, from) {
            Some((part, end)) => {
                self.kept = end;
                lock.note_handed(end);
                Ok(part)
            }
            None => {
                lock.note_refused();
                Err(RecentFault::OutOfMemory)
            }
        }
    }
}

/// One turn of a pass, and its entries.
#[tactic(auto, using(crate::proofs::OrderLaws::turn_collects))]
fn turn_of_pass<R: Wait>(
    rt: &R,
    alloc: Global,
    lock: &TurnLock,
    pass: &mut Pass,
    moment: u64,
    ask: Ask,
) -> (Result<Turn, Refused>, PortEntries)
    requires own { IsPassOf lock.now pass.old }
    requires moment { moment < END_OF_TIME }
    ensures own { IsPassOf lock.now pass.new }
    ensures went { PassWent pass.old pass.new result.1 }
    ensures asked { result.1 ≡ entries_of moment ask result.0 }
    ensures turned { TurnedWithEntry (view_of pass.old) pass.old.number moment ask result.0
        (view_of pass.new) }
    ensures collector { IfOk result.0
        (λ _. TurnCollects (view_of pass.old) moment ask (view_of pass.new)) }
{
    let mut port = SeatPort::new(rt, alloc, lock, pass);
    let answer = port.turn(moment, ask);
    (answer, port.into_asked())
}
