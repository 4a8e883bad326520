//! Handing the events of the one history on to the taker.
ghost use Rattle.std.specs.Prelude.{◌≡◌, ◌+◌, ◌^◌, ◌<◌, ◌≤◌, ◌++◌, length, vec_len, IfSome, MatchBool, MatchOption, None, Some, true};
ghost use Rattle.turn_lock.specs.Handles.{IsRootOf, opening_of, view_of};
ghost use Rattle.turn_lock.specs.Recent.{IsRest};
ghost use Rattle.turn_lock.specs.Rule.{Settled, StartsWith};
ghost use Rattle.conn_server.specs.Accepts.{Follows, IsAccepting, shown_all};
ghost use Rattle.conn_server.specs.Taken.{Keeps, SameReports};
ghost use Rattle.conn_server.specs.Handed.{AreHanded};
ghost use Rattle.conn_server.specs.Made.{IsMadeFor};
ghost use Rattle.conn_server.specs.Talks.{TalksOver};
ghost use Rattle.conn_server.specs.declared.taker.TheConstants.{MAX_PART};

use crate::admission::Acceptor;
use crate::link_task::LinkReport;
use crate::shared::Shared;
use crate::taker::{MAX_PART, ReportTaker};
use call_dispatch::Worker;
use history::{Event, EventList};
use space::Space;
use std::sync::Wait;
use std::thread::Threads;
use turn_lock::{Root, TurnLock};
use wire_io::{Clock, Sink, Source};

/// The most times that a host waits for its last links, for 50 milliseconds at most each: so it waits for days.
const MAX_WAITS: u32 = 10_000_000;

/// Returns how many of so many events the next part has.
fn part_len(left: usize) -> usize
    ensures within { result ≤ left }
    ensures few { result ≤ MAX_PART }
    ensures some { 0 < left → 0 < result }
{
    if left > MAX_PART { MAX_PART } else { left }
}

/// Gives a taker these events, in parts.
pub fn record_parts<R, C: ReportTaker<R>>(taker: &mut C, events: &[Event])
    ensures keeps { Keeps C.holds C.stays taker.old taker.new }
    ensures events { (C.taken taker.new).events
        ≡ (C.taken taker.old).events ++ events.now }
    ensures ticks { (C.taken taker.new).ticks ≡ (C.taken taker.old).ticks }
    ensures reports { SameReports C.taken C.expects taker.old taker.new }
{
    let mut rest = events;
    while !rest.is_empty() {
        let (part, more) = rest.split_at(part_len(rest.len()));
        taker.record(part);
        rest = more;
    }
}

/// Returns the place of the first event that is handed on: the first after the opening's, or none where none are handed on.
pub fn first_place(lock: &TurnLock, records: bool) -> Option<u64>
    ensures place { IfSome result (λ n. n ≡ length (opening_of lock.now).events) }
    ensures recorded { MatchBool records
        (result ≡ Some (length (opening_of lock.now).events)) (result ≡ None) }
{
    if records {
        Some(lock.opening_len())
    } else {
        None
    }
}

/// Returns the place that is so many places behind this one, where a word holds it.
fn place_behind(from: u64, more: usize) -> Option<u64>
    ensures place { IfSome result (λ n. n ≡ from + more) }
    ensures all { from + more < 2 ^ 64 → result ≡ Some (from + more) }
{
    from.checked_add(more as u64)
}

/// Closes the lock, and gives the space with the events from this place on, where they are to be handed on and were all kept.
fn close_lock(lock: TurnLock, root: Root, handed: Option<u64>) -> (Space, Option<EventList>)
    requires own { IsRootOf lock root }
    requires all { root.out ≡ 0 }
    ensures settled { Settled (opening_of lock) (view_of root.pass) result.0 }
    ensures rest { MatchOption handed (result.1 ≡ None)
        (λ from. IfSome result.1 (λ part. IsRest from result.0.events part)) }
{
    match handed {
        Some(from) => {
            let (space, rest) = lock.close_recording(root, from);
            match rest {
                Ok(part) => (space, Some(part)),
                Err(_fault) => (space, None),
            }
        }
        None => (lock.close(root), None),
    }
}

/// Closes the lock, hands the last events on, and says whether all events were handed on.
pub fn close_recorded<R, C: ReportTaker<R>>(
    lock: TurnLock,
    root: Root,
    taker: &mut C,
    handed: Option<u64>,
) -> (Space, bool)
    requires own { IsRootOf lock root }
    requires all { root.out ≡ 0 }
    requires handed { AreHanded lock (view_of root.pass) (C.taken taker.old).events handed }
    ensures keeps { Keeps C.holds C.stays taker.old taker.new }
    ensures settled { Settled (opening_of lock) (view_of root.pass) result.0 }
    ensures handed { StartsWith result.0.events
        ((opening_of lock).events ++ (C.taken taker.new).events) }
    ensures whole { result.1 ≡ true → result.0.events
        ≡ (opening_of lock).events ++ (C.taken taker.new).events }
    ensures ticks { (C.taken taker.new).ticks ≡ (C.taken taker.old).ticks }
    ensures reports { SameReports C.taken C.expects taker.old taker.new }
{
    let (space, rest) = close_lock(lock, root, handed);
    match rest {
        Some(part) => {
            record_parts(taker, part.as_slice());
            (space, true)
        }
        None => (space, false),
    }
}

impl<
    I: Source + Drop,
    O: Sink + Drop,
    T: Clock + Drop,
    H: Worker + Drop,
    C: ReportTaker<LinkReport<I, O, T, H>>,
> Acceptor<I, O, T, H, C> {
    /// Hands the events on that the history has since the last time, where the taker is given events. Where there is no memory for that, they
    /// come the next time.
    pub fn hand_on<'s, R: Wait>(&mut self, shared: &Shared<'s, R>)
        requires accepting { IsAccepting
            (TalksOver I.half O.half T.given H.shown H.may H.moves shared.now.book.now)
            (IsMadeFor I.half O.half T.given H.shown H.moves shared.now.plan.now)
            H.shown C.taken C.expects shared.now.lock.now shared.now.book.now self.old }
        ensures keeps { Keeps C.holds C.stays self.old.taker self.new.taker }
        ensures accepting { IsAccepting
            (TalksOver I.half O.half T.given H.shown H.may H.moves shared.now.book.now)
            (IsMadeFor I.half O.half T.given H.shown H.moves shared.now.plan.now)
            H.shown C.taken C.expects shared.now.lock.now shared.now.book.now self.new }
        ensures follows { Follows self.old self.new }
        ensures ticks { (C.taken self.new.taker).ticks ≡ (C.taken self.old.taker).ticks }
        ensures all { self.new.all ≡ self.old.all }
        ensures begun { self.new.begun ≡ self.old.begun }
    {
        let Some(from) = self.handed else {
            return;
        };
        match self.root.take_recent(shared.rt, shared.lock, from) {
            Ok(part) => {
                record_parts(&mut self.taker, part.as_slice());
                self.handed = place_behind(from, part.len());
            }
            Err(_fault) => (),
        }
    }

    /// Waits for all links to end: as each ends, its report is handed on, and the events that the history has then.
    /// After `MAX_WAITS` waits the rest are joined, the last first.
    pub fn end_all<'s, R: Threads + Wait>(&mut self, shared: &Shared<'s, R>)
        requires accepting { IsAccepting
            (TalksOver I.half O.half T.given H.shown H.may H.moves shared.now.book.now)
            (IsMadeFor I.half O.half T.given H.shown H.moves shared.now.plan.now)
            H.shown C.taken C.expects shared.now.lock.now shared.now.book.now self.old }
        ensures keeps { Keeps C.holds C.stays self.old.taker self.new.taker }
        ensures accepting { IsAccepting
            (TalksOver I.half O.half T.given H.shown H.may H.moves shared.now.book.now)
            (IsMadeFor I.half O.half T.given H.shown H.moves shared.now.plan.now)
            H.shown C.taken C.expects shared.now.lock.now shared.now.book.now self.new }
        ensures none { vec_len self.new.live ≡ 0 }
        ensures follows { Follows self.old self.new }
        ensures ticks { (C.taken self.new.taker).ticks ≡ (C.taken self.old.taker).ticks }
        ensures links { shown_all I.half O.half T.given self.new.all
            ≡ shown_all I.half O.half T.given self.old.all }
        ensures begun { self.new.begun ≡ self.old.begun }
    {
        self.wait_for_ends(shared);
        self.join_all(shared);
    }

    /// Waits until all links that were begun have ended, `MAX_WAITS` times at most, and hands on what there is each
    /// time. It pauses only where no thread was joined.
    fn wait_for_ends<'s, R: Threads + Wait>(&mut self, shared: &Shared<'s, R>)
        requires accepting { IsAccepting
            (TalksOver I.half O.half T.given H.shown H.may H.moves shared.now.book.now)
            (IsMadeFor I.half O.half T.given H.shown H.moves shared.now.plan.now)
            H.shown C.taken C.expects shared.now.lock.now shared.now.book.now self.old }
        ensures keeps { Keeps C.holds C.stays self.old.taker self.new.taker }
        ensures accepting { IsAccepting
            (TalksOver I.half O.half T.given H.shown H.may H.moves shared.now.book.now)
            (IsMadeFor I.half O.half T.given H.shown H.moves shared.now.plan.now)
            H.shown C.taken C.expects shared.now.lock.now shared.now.book.now self.new }
        ensures follows { Follows self.old self.new }
        ensures ticks { (C.taken self.new.taker).ticks ≡ (C.taken self.old.taker).ticks }
        ensures links { shown_all I.half O.half T.given self.new.all
            ≡ shown_all I.half O.half T.given self.old.all }
        ensures begun { self.new.begun ≡ self.old.begun }
    {
        for _ in 0..MAX_WAITS {
            let seen = shared.ended.count();
            if seen >= u64::from(self.begun) {
                return;
            }
            let live = self.live.len();
            self.catch_up(shared);
            if self.live.len() == live {
                shared.ended.pause(shared.rt, seen);
            }
        }
    }

    /// Joins the threads of links that have ended, and hands their reports on, and then the events that the history has since the last time.
    pub fn catch_up<'s, R: Threads + Wait>(&mut self, shared: &Shared<'s, R>)
        requires accepting { IsAccepting
            (TalksOver I.half O.half T.given H.shown H.may H.moves shared.now.book.now)
            (IsMadeFor I.half O.half T.given H.shown H.moves shared.now.plan.now)
            H.shown C.taken C.expects shared.now.lock.now shared.now.book.now self.old }
        ensures keeps { Keeps C.holds C.stays self.old.taker self.new.taker }
        ensures accepting { IsAccepting
            (TalksOver I.half O.half T.given H.shown H.may H.moves shared.now.book.now)
            (IsMadeFor I.half O.half T.given H.shown H.moves shared.now.plan.now)
            H.shown C.taken C.expects shared.now.lock.now shared.now.book.now self.new }
        ensures follows { Follows self.old self.new }
        ensures ticks { (C.taken self.new.taker).ticks ≡ (C.taken self.old.taker).ticks }
        ensures links { shown_all I.half O.half T.given self.new.all
            ≡ shown_all I.half O.half T.given self.old.all }
        ensures begun { self.new.begun ≡ self.old.begun }
    {
        self.join_ended(shared);
        self.hand_on(shared);
    }
}
