//! The waits of references in the order in which they were listed.
ghost use Rattle.std.specs.Prelude.{◌≡◌, ◌++◌, ◌∷◌, [], ◌+◌, ◌<◌, ◌≤◌, length, filter, take, drop, OnOk, OnErr, IsOk, if◌then◌else◌};
ghost use Rattle.export_table.specs.Waits.{still_waiting, ended_waits};
ghost use Rattle.export_table.specs.WaitIndex.{stays};

use crate::waits::{self, Stays, Wait};
use std::alloc::{AllocError, Global};
use std::marker::Model;

/// Waits, the last listed last. Where their ends rise, those that ended are at the front: there they are passed over, and none is moved; once more
/// than half of the list is gone so, the others are moved to the front. Contracts see it as a `WaitTable`.
pub struct WaitQueue {
    waits: Vec<Wait>,
    /// The number of waits at the front that are gone.
    gone: usize,
    /// None of the others ends before this moment.
    next: u64,
    /// True where none of the others ends before one that was listed earlier.
    rising: bool,
}

// Written out, so that whoever owns one has one call at each exit, and not the drop of each field.
impl Drop for WaitQueue {
    fn drop(self) {
        let WaitQueue {
            waits,
            gone: _,
            next: _,
            rising: _,
        } = self;
        drop(waits);
    }
}

impl Model for WaitQueue {
    ghost use Rattle.std.specs.Prelude.{◌-◌, drop, vec_len, vec_capacity};
    ghost use Rattle.export_table.specs.WaitTable.{WaitTable, IsQueue};

    ghost Value = { WaitTable };

    ghost view = { λ q. record
        { waits = drop q.gone q.waits.items; room = vec_capacity q.waits - vec_len q.waits } };

    ghost invariant = { λ q. IsQueue q.waits.items q.gone q.next q.rising };
}

impl WaitQueue {
    /// No wait is listed.
    pub fn new(alloc: Global) -> WaitQueue
        ensures { result ≡ record { waits = []; room = 0 } }
    {
        WaitQueue {
            waits: Vec::new(alloc),
            gone: 0,
            next: u64::MAX,
            rising: true,
        }
    }

    /// Makes room for so many more.
    pub fn reserve(&mut self, more: usize) -> Result<(), AllocError>
        ensures ok { OnOk result (more ≤ self.new.room) }
        ensures waits { self.new.waits ≡ self.old.waits }
        ensures room { self.old.room ≤ self.new.room }
        ensures succeeds { more ≤ self.old.room → IsOk result }
        ensures err { OnErr result (self.new ≡ self.old) }
    {
        self.waits.reserve(more)
    }

    /// The waits.
    pub fn waits(&self) -> &[Wait]
        ensures { result.now ≡ self.now.waits }
    {
        waits::behind(&self.waits, self.gone)
    }

    /// Waits at the front, among which are all that have ended at a moment: none where none has, and no others where the ends rise.
    pub fn due(&self, time: u64) -> &[Wait]
        ensures front { result.now ≡ take (length result.now) self.now.waits }
        ensures rest { still_waiting time (drop (length result.now) self.now.waits)
            ≡ drop (length result.now) self.now.waits }
        ensures over { ended_waits time result.now ≡ ended_waits time self.now.waits }
        ensures within { length result.now ≤ length self.now.waits }
    {
        let upto = self.due_upto(time);
        &self.waits()[..upto]
    }

    /// A place behind all waits that have ended at a moment.
    fn due_upto(&self, time: u64) -> usize
        ensures within { result ≤ length self.now.waits }
        ensures rest { still_waiting time (drop result self.now.waits)
            ≡ drop result self.now.waits }
    {
        if time < self.next {
            0
        } else if self.rising {
            waits::due_front(waits::behind(&self.waits, self.gone), time)
        } else {
            self.waits.len() - self.gone
        }
    }

    /// Lists a wait, for which there is room.
    pub fn put(&mut self, wait: Wait)
        requires { 0 < self.old.room }
        ensures waits { self.new.waits ≡ self.old.waits ++ wait ∷ [] }
        ensures room { self.new.room + 1 ≡ self.old.room }
    {
        self.rising = waits::rises_with(waits::behind(&self.waits, self.gone), self.rising, &wait);
        self.next = self.next.min(wait.until);
        waits::put(&mut self.waits, wait);
    }

    /// Keeps the waits that stay, as all before the place `first` do, and all from the place `upto` on. It moves only waits behind `first`, or, where that is 0,
    /// only waits before `upto`.
    pub fn keep(&mut self, first: usize, upto: usize, which: &Stays)
        requires within { upto ≤ length self.old.waits }
        requires order { first ≤ upto }
        requires before { filter (stays which.now) (take first self.old.waits)
            ≡ take first self.old.waits }
        requires after { filter (stays which.now) (drop upto self.old.waits)
            ≡ drop upto self.old.waits }
        ensures waits { self.new.waits ≡ filter (stays which.now) self.old.waits }
        ensures room { self.old.room ≤ self.new.room }
    {
        if first == 0 {
            self.keep_before(upto, which);
            self.close();
        } else {
            self.keep_behind(first, which);
        }
    }

    /// Keeps the waits that stay, as all from the place `upto` on do.
    fn keep_before(&mut self, upto: usize, which: &Stays)
        requires within { upto ≤ length self.old.waits }
        requires after { filter (stays which.now) (drop upto self.old.waits)
            ≡ drop upto self.old.waits }
        ensures waits { self.new.waits ≡ filter (stays which.now) self.old.waits }
        ensures room { self.new.room ≡ self.old.room }
    {
        self.gone = waits::keep_before(&mut self.waits, self.gone, upto, which);
    }

    /// Keeps the waits that stay, as all before the place `first` do.
    fn keep_behind(&mut self, first: usize, which: &Stays)
        requires within { first ≤ length self.old.waits }
        requires before { filter (stays which.now) (take first self.old.waits)
            ≡ take first self.old.waits }
        ensures waits { self.new.waits ≡ filter (stays which.now) self.old.waits }
        ensures room { self.old.room ≤ self.new.room }
    {
        waits::keep_behind(&mut self.waits, self.gone, first, which);
    }

    /// Forgets the waits that ended. Where none has, it looks at no wait.
    pub fn forget(&mut self, now: u64)
        ensures waits { self.new.waits ≡ still_waiting now self.old.waits }
        ensures room { self.old.room ≤ self.new.room }
    {
        if now < self.next {
            return;
        }
        if self.pass(now) {
            self.close();
        } else {
            self.keep_behind(0, &Stays::After(now));
            self.look();
        }
    }

    /// Passes over the waits that ended, where the ends rise, and answers whether they do. It looks at these and at one more.
    fn pass(&mut self, now: u64) -> bool
        ensures waits { self.new.waits
            ≡ (if result then still_waiting now self.old.waits else self.old.waits) }
        ensures room { self.new.room ≡ self.old.room }
    {
        if !self.rising {
            return false;
        }
        self.gone += waits::due_front(waits::behind(&self.waits, self.gone), now);
        self.next = waits::first_end(waits::behind(&self.waits, self.gone));
        true
    }

    /// Looks at all waits for the first end, and for whether the ends rise.
    fn look(&mut self)
        ensures { self.new ≡ self.old }
    {
        self.next = waits::least_end(waits::behind(&self.waits, self.gone));
        self.rising = waits::rise(waits::behind(&self.waits, self.gone));
    }

    /// Moves the waits to the front once more than half of the list is gone.
    fn close(&mut self)
        ensures waits { self.new.waits ≡ self.old.waits }
        ensures room { self.old.room ≤ self.new.room }
    {
        if self.gone > self.waits.len() / 2 {
            waits::drop_front(&mut self.waits, self.gone);
            self.gone = 0;
        }
    }
}
