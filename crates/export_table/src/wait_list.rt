//! The references that await their acknowledgement, with an index of them.
ghost use Rattle.std.specs.Prelude.{◌≡◌, ◌++◌, ◌∷◌, [], ◌+◌, ◌<◌, ◌≤◌, ◌^◌, length, filter, take, drop, not, false, IsTrue, IsOk, IfOk, OnOk, OnErr, ◌↔◌};
ghost use Rattle.std.specs.List.{list_any};
ghost use Rattle.history.specs.declared.limits.TheConstants.{MAX_AWAITING};
ghost use Rattle.export_table.specs.Waits.{is_wait_of, ends_between, goes_on, still_waiting, ended_waits, of_return, objects, is_waiting, is_awaited, awaiting_of, end_of_wait, with_listed, without_acknowledged};
ghost use Rattle.export_table.specs.WaitIndex.{stays};

use crate::counts::{Counts, References, count_of, has};
use crate::index;
use crate::returns::{self, Returns};
use crate::wait_queue::WaitQueue;
use crate::waits::{self, Stays, Wait};
use history::limits::MAX_AWAITING;
use object_ids::{ObjId, Uid};
use std::alloc::{AllocError, Global};
use std::marker::Model;

/// The references that await their acknowledgement, the last listed last. Contracts see it as a `WaitTable`.
pub struct WaitList {
    queue: WaitQueue,
    /// The number of waits of each object.
    counts: Counts,
    /// Which there are.
    references: References,
    /// The number of waits of each return.
    returns: Returns,
    /// So many more can be listed without memory.
    room: usize,
}

// Written out, so that whoever owns one has one call at each exit, and not the drop of each field.
impl Drop for WaitList {
    fn drop(self) {
        let WaitList {
            queue,
            counts,
            references,
            returns,
            room: _,
        } = self;
        drop(queue);
        drop(counts);
        drop(references);
        drop(returns);
    }
}

impl Model for WaitList {
    ghost use Rattle.export_table.specs.WaitTable.{WaitTable, IsIndexed};

    ghost Value = { WaitTable };

    ghost view = { λ l. record { waits = l.queue.waits; room = l.room } };

    ghost invariant = { λ l. IsIndexed l.queue l.counts l.references l.returns l.room };
}

impl WaitList {
    /// None awaits.
    pub fn new(alloc: Global) -> WaitList
        ensures { result ≡ record { waits = []; room = 0 } }
    {
        WaitList {
            queue: WaitQueue::new(alloc),
            counts: Counts::new(alloc),
            references: References::new(alloc),
            returns: Returns::new(alloc),
            room: 0,
        }
    }

    /// Makes room for so many more.
    pub fn reserve(&mut self, more: usize) -> Result<(), AllocError>
        ensures ok { OnOk result (more ≤ self.new.room) }
        ensures waits { self.new.waits ≡ self.old.waits }
        ensures room { self.old.room ≤ self.new.room }
        ensures succeeds { more ≤ self.old.room → IsOk result }
        ensures err { OnErr result (self.new ≡ self.old) }
    {
        if more > self.room {
            self.queue.reserve(more)?;
            self.counts.reserve(more)?;
            self.references.reserve(more)?;
            self.returns.reserve(more)?;
            self.room = more;
        }
        Ok(())
    }

    /// The number of references that await at a moment.
    pub fn count(&self, time: u64) -> usize
        ensures value { result ≡ length (still_waiting time self.now.waits) }
        ensures within { result ≤ length self.now.waits }
    {
        self.queue.waits().len() - waits::count_over(self.queue.due(time), time)
    }

    /// The number of references to an object that await at a moment.
    pub fn count_of(&self, object: &ObjId, time: u64) -> usize
        ensures value { result ≡ length (awaiting_of time object.now self.now.waits) }
        ensures within { result ≤ length self.now.waits }
    {
        let over = waits::count_over_of(self.queue.due(time), object, time);
        count_of(&self.counts, object) as usize - over
    }

    /// True where some reference to an object awaits at a moment.
    pub fn is_awaited(&self, object: &ObjId, time: u64) -> bool
        ensures { result ≡ is_awaited time object.now self.now.waits }
    {
        self.count_of(object, time) > 0
    }

    /// True where this reference awaits at a moment.
    pub fn is_waiting(&self, object: &ObjId, uid: &Uid, time: u64) -> bool
        ensures { result ≡ is_waiting time object.now uid.now self.now.waits }
    {
        has(&self.references, object, uid)
            && !waits::is_over(self.queue.due(time), object, uid, time)
    }

    /// True where as many references await at a moment as can be, and this one isn't among them.
    pub fn is_full(&self, object: &ObjId, uid: &Uid, time: u64) -> bool
        ensures { IsTrue result
            ↔ ((MAX_AWAITING ≤ length (still_waiting time self.now.waits))
            × (is_waiting time object.now uid.now self.now.waits ≡ false)) }
    {
        self.count(time) as u64 >= MAX_AWAITING && !self.is_waiting(object, uid, time)
    }

    /// The moment at which this reference ceases to wait, 0 where it is not listed.
    fn end_of_wait(&self, object: &ObjId, uid: &Uid) -> u64
        ensures { result ≡ end_of_wait object.now uid.now self.now.waits }
    {
        if has(&self.references, object, uid) {
            let part = self.part_of(uid);
            waits::end_of_wait(waits::behind(self.queue.waits(), part.0), object, uid)
        } else {
            0
        }
    }

    /// Lists a reference, for which there is room: it waits for `ack` from `now` on, and no shorter than before. Waits that
    /// ended are forgotten.
    pub fn list(&mut self, object: &ObjId, uid: &Uid, ack: u64, now: u64)
        requires room { 0 < self.old.room }
        requires early { now + ack < 2 ^ 64 }
        requires few { length self.old.waits ≤ MAX_AWAITING }
        ensures waits { self.new.waits ≡ with_listed ack now object.now uid.now self.old.waits }
        ensures room { self.new.room + 1 ≡ self.old.room }
    {
        let until = (now + ack).max(self.end_of_wait(object, uid));
        self.forget(now);
        self.drop_one(object, uid);
        let wait = Wait {
            object: *object,
            uid: *uid,
            until,
        };
        self.put(wait);
    }

    /// Forgets the waits that ended. Where none has, it looks at no wait; where the ends rise, at those that ended and at one more.
    pub fn forget(&mut self, now: u64)
        ensures waits { self.new.waits ≡ still_waiting now self.old.waits }
        ensures room { self.new.room ≡ self.old.room }
    {
        let upto = self.queue.due(now).len();
        index::keep(
            &mut self.counts,
            &mut self.references,
            &mut self.returns,
            self.queue.waits(),
            0,
            upto,
            &Stays::After(now),
        );
        self.queue.forget(now);
    }

    /// True where some wait has ended at a moment.
    pub fn has_ended(&self, time: u64) -> bool
        ensures { result ≡ list_any (λ w. not (goes_on time w)) self.now.waits }
    {
        waits::has_ended(self.queue.due(time), time)
    }

    /// Returns whether some wait ends after the moment `from` and no later than the moment `to`. Where none has ended by then, it looks at no wait.
    pub fn has_ended_since(&self, from: u64, to: u64) -> bool
        ensures { result ≡ list_any (ends_between from to) self.now.waits }
    {
        waits::has_ended_since(self.queue.due(to), from, to)
    }

    /// The objects of the waits that have ended at a moment. Where none has, it looks at no wait; where the ends rise, at those and at one more.
    pub fn ended_objects(&self, alloc: Global, time: u64) -> Result<Vec<ObjId>, AllocError>
        ensures { IfOk result (λ os. os.items ≡ objects (ended_waits time self.now.waits)) }
    {
        waits::objects_that_go(alloc, self.queue.due(time), &Stays::After(time))
    }

    /// The objects of the waits of a return. It looks at those that were listed since the first of them, or at those that were listed before the last of them.
    pub fn of_return(&self, alloc: Global, uid: &Uid) -> Result<Vec<ObjId>, AllocError>
        ensures { IfOk result (λ os. os.items ≡ objects (of_return uid.now self.now.waits)) }
    {
        let part = self.part_of(uid);
        waits::objects_that_go(
            alloc,
            &self.queue.waits()[part.0..part.1],
            &Stays::OtherReturns(*uid),
        )
    }

    /// A part of the waits that has all of a return, at the end or at the front of the list, whichever is found in fewer steps.
    fn part_of(&self, uid: &Uid) -> (usize, usize)
        ensures order { result.0 ≤ result.1 }
        ensures within { result.1 ≤ length self.now.waits }
        ensures before { of_return uid.now (take result.0 self.now.waits) ≡ [] }
        ensures after { of_return uid.now (drop result.1 self.now.waits) ≡ [] }
    {
        waits::part_of(
            self.queue.waits(),
            uid,
            returns::count_of(&self.returns, uid),
        )
    }

    /// Forgets the wait of this object and return, if it is listed.
    fn drop_one(&mut self, object: &ObjId, uid: &Uid)
        ensures waits { self.new.waits
            ≡ filter (λ w. not (is_wait_of object.now uid.now w)) self.old.waits }
        ensures room { self.new.room ≡ self.old.room }
    {
        if has(&self.references, object, uid) {
            let part = self.part_of(uid);
            self.keep(part.0, part.1, Stays::OtherReferences(*object, *uid));
        }
    }

    /// Forgets the waits of a return. It looks at those that were listed since the first of them, or at those that were listed before the last of them.
    pub fn acknowledge(&mut self, uid: &Uid)
        ensures waits { self.new.waits ≡ without_acknowledged uid.now self.old.waits }
        ensures room { self.new.room ≡ self.old.room }
    {
        let part = self.part_of(uid);
        self.keep(part.0, part.1, Stays::OtherReturns(*uid));
    }

    /// Keeps the waits that stay, as all before the place `first` do, and all from the place `upto` on.
    fn keep(&mut self, first: usize, upto: usize, which: Stays)
        requires order { first ≤ upto }
        requires within { upto ≤ length self.old.waits }
        requires before { filter (stays which) (take first self.old.waits)
            ≡ take first self.old.waits }
        requires after { filter (stays which) (drop upto self.old.waits)
            ≡ drop upto self.old.waits }
        ensures waits { self.new.waits ≡ filter (stays which) self.old.waits }
        ensures room { self.new.room ≡ self.old.room }
    {
        index::keep(
            &mut self.counts,
            &mut self.references,
            &mut self.returns,
            self.queue.waits(),
            first,
            upto,
            &which,
        );
        self.queue.keep(first, upto, &which);
    }

    /// Appends a wait of a reference that is not listed. There is room for it.
    fn put(&mut self, wait: Wait)
        requires room { 0 < self.old.room }
        requires few { length self.old.waits ≤ MAX_AWAITING }
        requires once { list_any (is_wait_of wait.object wait.uid) self.old.waits ≡ false }
        ensures waits { self.new.waits ≡ self.old.waits ++ wait ∷ [] }
        ensures room { self.new.room + 1 ≡ self.old.room }
    {
        index::add(
            &mut self.counts,
            &mut self.references,
            &mut self.returns,
            &wait,
        );
        self.queue.put(wait);
        self.room -= 1;
    }
}
