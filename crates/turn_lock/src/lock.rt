//! The operations of a lock.
ghost use Rattle.std.specs.Prelude.{◌≡◌, ◌≢◌, ◌↔◌, ◌+◌, ◌<◌, [], length, true, false, MatchResult, Err, Some, IfOk, IfSome};
ghost use Rattle.history.specs.Running.{running_calls_by};
ghost use Rattle.history.specs.Table.{places};
ghost use Rattle.history.specs.declared.limits.TheConstants.{END_OF_TIME};
ghost use Rattle.space.specs.Entries.{entry_of};
ghost use Rattle.turn_lock.specs.PassPorts.{PassWent};
ghost use Rattle.turn_lock.specs.Recent.{IsRest};
ghost use Rattle.turn_lock.specs.Rule.{EndedBy, InOrder, TurnedBy, Settled, StartsWith, left_of, most_passes, right_of, joined_of};
ghost use Rattle.turn_lock.specs.Handles.{IsPassOf, IsBranchOf, IsFresh, IsRootOf, opening_of, view_of};

use crate::desk::DeskBox;
use crate::handles::{Pass, RecentFault, Root, SplitFault, TurnLock};
use crate::steps;
use crate::table::{Absorb, Parts, TICKET};
use atomic_table::{Refused as NoRoom, Table};
use history::{Ask, Event, EventList, Refused, Turn};
use object_ids::ObjId;
use space::{Asked, Space};
use std::alloc::{AllocError, AllocFailed, Global};
use std::sync::Wait;
use std::sync::atomic::AtomicU64;

/// The most passes that a lock makes, as many as there are numbers of connections. At 1,000 connections a second they
/// last for 49 days.
const MAX_PASSES: u32 = u32::MAX;

impl TurnLock {
    /// Makes a lock round a space, and its root. The lock keeps no events. If there is no memory, the space comes back.
    pub fn around(alloc: Global, space: Space) -> Result<(TurnLock, Root), Space>
        ensures fresh { MatchResult result (λ t. IsFresh t.0 t.1 × (opening_of t.0 ≡ space))
            (λ s. s ≡ space) }
        ensures ordered { IfOk result (λ t. InOrder space (view_of t.1.pass)) }
        ensures records { IfOk result (λ t. t.0.records ≡ false) }
    {
        match DeskBox::new(alloc, space, false) {
            Ok(desk) => around_desk(alloc, desk, false),
            Err(space) => Err(space),
        }
    }

    /// Makes a lock as `around` does, which keeps each further event until the root hands it out. If there is no memory for the event of a turn, the
    /// turn is refused with OutOfMemory. If there is none for the end of a call that ran already, no event is kept any more, and none is handed out.
    pub fn recording(alloc: Global, space: Space) -> Result<(TurnLock, Root), Space>
        ensures fresh { MatchResult result (λ t. IsFresh t.0 t.1 × (opening_of t.0 ≡ space))
            (λ s. s ≡ space) }
        ensures ordered { IfOk result (λ t. InOrder space (view_of t.1.pass)) }
        ensures records { IfOk result (λ t. (t.0.records ≡ true)
            × (t.1.kept ≡ length space.events)) }
    {
        match DeskBox::new(alloc, space, true) {
            Ok(desk) => around_desk(alloc, desk, true),
            Err(space) => Err(space),
        }
    }

    /// Returns the number of events that the space had when the lock was made.
    pub fn opening_len(&self) -> u64
        ensures { result ≡ length (opening_of self.now).events }
    {
        self.opened
    }

    /// The space, once all passes were joined: its history is legal and begins with the one that the lock was made with and with what the
    /// root has seen. Its further events are the root's own and those of the joined passes, each pass's in its order.
    pub fn close(self, root: Root) -> Space
        requires own { IsRootOf self root }
        requires all { root.out ≡ 0 }
        ensures settled { Settled (opening_of self) (view_of root.pass) result }
    {
        close_desk(self, root).into_space()
    }

    /// Gives the space as `close` does, with the events from this place on: those that the root did not hand out. OutOfMemory comes if no event is
    /// kept any more, since memory was lacking for one.
    pub fn close_recording(self, root: Root, from: u64) -> (Space, Result<EventList, RecentFault>)
        requires own { IsRootOf self root }
        requires all { root.out ≡ 0 }
        ensures settled { Settled (opening_of self) (view_of root.pass) result.0 }
        ensures recent { IfOk result.1 (λ part. IsRest from result.0.events part) }
        ensures records { (result.1 ≡ Err RecentFault.NotRecorded) ↔ (self.records ≡ false) }
        ensures place { (result.1 ≡ Err RecentFault.Forgotten)
            ↔ ((self.records ≡ true) × (from ≢ root.kept)) }
    {
        let fault = recent_fault(self.records, root.kept, from);
        let (space, part) = close_desk(self, root).into_parts(from);
        (space, part_unless(fault, part))
    }
}

/// Returns why a lock hands out no events from a place on, where it records or doesn't, and its kept events begin at this place.
pub(crate) fn recent_fault(records: bool, kept: u64, from: u64) -> Option<RecentFault>
    ensures records { (result ≡ Some RecentFault.NotRecorded) ↔ (records ≡ false) }
    ensures place { (result ≡ Some RecentFault.Forgotten) ↔ ((records ≡ true) × (from ≢ kept)) }
    ensures memory { result ≢ Some RecentFault.OutOfMemory }
{
    if !records {
        Some(RecentFault::NotRecorded)
    } else if from != kept {
        Some(RecentFault::Forgotten)
    } else {
        None
    }
}

/// Returns the events that were kept, unless there is a fault. If they aren't kept any more, it is OutOfMemory.
fn part_unless(
    fault: Option<RecentFault>,
    part: Option<EventList>,
) -> Result<EventList, RecentFault>
    ensures part { IfOk result (λ events. part ≡ Some events) }
    ensures records { (result ≡ Err RecentFault.NotRecorded)
        ↔ (fault ≡ Some RecentFault.NotRecorded) }
    ensures place { (result ≡ Err RecentFault.Forgotten) ↔ (fault ≡ Some RecentFault.Forgotten) }
{
    match fault {
        Some(fault) => Err(fault),
        None => part.ok_or(RecentFault::OutOfMemory),
    }
}

/// Makes a lock round the space of a desk, and its root. If there is no memory, the space comes back.
fn around_desk(alloc: Global, desk: DeskBox, records: bool) -> Result<(TurnLock, Root), Space>
    ensures fresh { MatchResult result (λ t. IsFresh t.0 t.1 × (opening_of t.0 ≡ desk))
        (λ s. s ≡ desk) }
    ensures ordered { IfOk result (λ t. InOrder desk (view_of t.1.pass)) }
    ensures records { IfOk result (λ t. (t.0.records ≡ records) × (t.1.kept ≡ length desk.events)) }
{
    let about = desk.snapshot();
    let opened = desk.len();
    let mut slots = Vec::new(alloc);
    if let Err(failed) = slots.push(Some(desk)) {
        let AllocFailed { value } = failed;
        return Err(value.unwrap().into_space());
    }
    match Table::new(alloc, &[0, 0, opened], slots, &about) {
        Ok((board, seat)) => {
            let pass = Pass { seat, number: 0 };
            let root = Root {
                pass,
                made: 0,
                out: 0,
                kept: opened,
            };
            let lock = TurnLock {
                board,
                opened,
                records,
                handed: AtomicU64::new(opened),
            };
            Ok((lock, root))
        }
        Err(NoRoom { mut slots }) => Err(slots.pop().unwrap().unwrap().into_space()),
    }
}

/// The desk of a lock, once all passes were joined.
fn close_desk(lock: TurnLock, root: Root) -> DeskBox
    requires own { IsRootOf lock root }
    requires all { root.out ≡ 0 }
    ensures settled { Settled (opening_of lock) (view_of root.pass) result }
{
    let TurnLock {
        board,
        opened: _,
        records: _,
        handed,
    } = lock;
    drop(handed);
    let Root {
        pass,
        made: _,
        out: _,
        kept: _,
    } = root;
    let Pass { seat, number: _ } = pass;
    let mut closed = board.close_with(seat);
    let desk = closed.take(0);
    closed.free();
    desk.unwrap()
}

impl Root {
    /// A pass with the next number, from 1 on, which has seen what the root has seen. TooManyPasses comes exactly where 2^32 - 1 passes were
    /// made. It takes no memory.
    pub fn split(&mut self, lock: &TurnLock) -> Result<Pass, SplitFault>
        requires own { IsRootOf lock.now self.old }
        ensures root { IsRootOf lock.now self.new }
        ensures pass { MatchResult result (λ p. IsBranchOf lock.now p
            × (view_of p ≡ right_of (view_of self.old.pass))
            × (view_of self.new.pass ≡ left_of (view_of self.old.pass))
            × (self.new.made ≡ self.old.made + 1) × (self.new.out ≡ self.old.out + 1))
            (λ fault. (self.old.made ≡ most_passes) × (self.new ≡ self.old)) }
        ensures kept { self.new.kept ≡ self.old.kept }
        ensures ordered { InOrder (opening_of lock.now) (view_of self.new.pass)
            × IfOk result (λ p. InOrder (opening_of lock.now) (view_of p)) }
    {
        if self.made == MAX_PASSES {
            return Err(SplitFault::TooManyPasses);
        }
        let mut seat = lock.board.shared.split_seat::<Parts>(&mut self.pass.seat);
        lock.board.shared.load::<Absorb>(&mut seat, TICKET);
        self.made += 1;
        self.out += 1;
        Ok(Pass {
            seat,
            number: self.made,
        })
    }

    /// Takes a pass back: the root has then seen what the pass has seen, and keeps the list of its events beside its number.
    pub fn join(&mut self, lock: &TurnLock, pass: Pass)
        requires own { IsRootOf lock.now self.old × IsBranchOf lock.now pass }
        ensures root { IsRootOf lock.now self.new × (self.new.out + 1 ≡ self.old.out) }
        ensures made { self.new.made ≡ self.old.made }
        ensures kept { self.new.kept ≡ self.old.kept }
        ensures view { view_of self.new.pass ≡ joined_of (view_of self.old.pass) (view_of pass) }
        ensures seen { StartsWith (view_of self.new.pass).seen (view_of self.old.pass).seen
            × StartsWith (view_of self.new.pass).seen (view_of pass).seen }
        ensures ordered { InOrder (opening_of lock.now) (view_of self.new.pass) }
    {
        let Pass { seat, number: _ } = pass;
        lock.board
            .shared
            .join_seat::<Parts>(&mut self.pass.seat, seat);
        lock.board
            .shared
            .load::<Absorb>(&mut self.pass.seat, TICKET);
        self.out -= 1;
    }

    /// Returns the number of passes that were split and not joined.
    pub fn out(&self) -> u32
        ensures { result ≡ self.now.out }
    {
        self.out
    }
}

impl Pass {
    /// One turn. A link's waits for room among the kept events, for a second at most. Then it waits for its ticket.
    pub(crate) fn turn<R: Wait>(
        &mut self,
        rt: &R,
        lock: &TurnLock,
        moment: u64,
        ask: Ask,
    ) -> Result<Turn, Refused>
        requires own { IsPassOf lock.now self.old }
        requires moment { moment < END_OF_TIME }
        ensures pass { IsPassOf lock.now self.new × (self.new.seat.id ≡ self.old.seat.id)
            × (self.new.number ≡ self.old.number) }
        ensures turned { TurnedBy (view_of self.old) self.old.number moment ask result
            (view_of self.new) }
        ensures ordered { InOrder (opening_of lock.now) (view_of self.new) }
    {
        lock.wait_for_room(rt, self.number);
        let event = Event {
            by: self.number,
            moment,
            ask,
        };
        steps::turn(rt, &lock.board.shared, &mut self.seat, event)
    }

    /// One turn, with its entry. It waits as `turn` does.
    pub(crate) fn turn_noted<R: Wait>(
        &mut self,
        rt: &R,
        lock: &TurnLock,
        moment: u64,
        ask: Ask,
    ) -> Result<(Result<Turn, Refused>, Asked), AllocError>
        requires own { IsPassOf lock.now self.old }
        requires moment { moment < END_OF_TIME }
        ensures pass { IsPassOf lock.now self.new × (self.new.seat.id ≡ self.old.seat.id)
            × (self.new.number ≡ self.old.number) }
        ensures turned { MatchResult result
            (λ x. TurnedBy (view_of self.old) self.old.number moment ask x.0 (view_of self.new))
            (λ refused. TurnedBy (view_of self.old) self.old.number moment ask
            (Err Refused.OutOfMemory) (view_of self.new)) }
        ensures noted { IfOk result (λ x. x.1 ≡ entry_of moment ask x.0) }
        ensures known { IfOk result (λ x. x.0 ≢ Err Refused.OutOfMemory) }
        ensures ordered { InOrder (opening_of lock.now) (view_of self.new) }
    {
        lock.wait_for_room(rt, self.number);
        let event = Event {
            by: self.number,
            moment,
            ask,
        };
        steps::turn_noted(rt, &lock.board.shared, &mut self.seat, event)
    }

    /// One turn that ends a call which the pass runs, without an answer, and the place of its event. It takes no memory.
    pub(crate) fn abandon<R: Wait>(
        &mut self,
        rt: &R,
        lock: &TurnLock,
        moment: u64,
        object: ObjId,
    ) -> u64
        requires own { IsPassOf lock.now self.old }
        requires moment { moment < END_OF_TIME }
        requires runs { 0 < running_calls_by
            (places (view_of self.old).config (view_of self.old).seen) self.old.number object }
        ensures pass { IsPassOf lock.now self.new × (self.new.seat.id ≡ self.old.seat.id)
            × (self.new.number ≡ self.old.number) }
        ensures turned { EndedBy (view_of self.old) self.old.number moment object result
            (view_of self.new) }
        ensures ordered { InOrder (opening_of lock.now) (view_of self.new) }
    {
        steps::abandon(
            rt,
            &lock.board.shared,
            &mut self.seat,
            self.number,
            moment,
            object,
        )
    }

    /// Hands out the recent events from this place on, with the place at which they end, and makes no turn. It waits for its ticket.
    pub(crate) fn take_recent<R: Wait>(
        &mut self,
        rt: &R,
        lock: &TurnLock,
        from: u64,
    ) -> Option<(EventList, u64)>
        requires own { IsPassOf lock.now self.old }
        ensures pass { IsPassOf lock.now self.new }
        ensures went { PassWent self.old self.new [] }
        ensures recent { IfSome result (λ x. IsRest from (view_of self.new).seen x.0) }
        ensures end { IfSome result (λ x. x.1 ≡ length (view_of self.new).seen) }
    {
        steps::take_recent(rt, &lock.board.shared, &mut self.seat, from)
    }
}
