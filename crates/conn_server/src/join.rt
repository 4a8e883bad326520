//! Joining the threads of links that have ended.
ghost use Rattle.std.specs.Prelude.{◌≡◌, ◌+◌, ◌<◌, List, [], length, vec_len, IfSome};
ghost use Rattle.conn_server.specs.Accepts.{Follows, IsAccepting, shown_all};
ghost use Rattle.conn_server.specs.Taken.{Keeps};
ghost use Rattle.conn_server.specs.Made.{IsMadeFor};
ghost use Rattle.conn_server.specs.Talks.{TalksOver};

use crate::admission::Acceptor;
use crate::link_task::LinkReport;
use crate::link_thread::{LinkState, StartedLink, finish};
use crate::shared::Shared;
use crate::taker::ReportTaker;
use call_dispatch::Worker;
use std::snapshot::Snapshot;
use std::sync::Wait;
use std::thread::Threads;
use wire_io::{Clock, Sink, Source};

/// The most threads that are joined before the next link is admitted. That link waits for these joins.
const MAX_JOINS: u32 = 64;

/// The place of link `by` among these, which stand in the order of their numbers.
fn place_of<I: Source, O: Sink, T: Clock, H: Worker>(
    live: &[StartedLink<I, O, T, H>],
    by: u32,
) -> Option<usize>
    ensures { IfSome result (λ place. place < length live.now) }
{
    match live.binary_search_by_key(&by, |link| link.by) {
        Ok(place) => Some(place),
        Err(_other) => None,
    }
}

impl<
    I: Source + Drop,
    O: Sink + Drop,
    T: Clock + Drop,
    H: Worker + Drop,
    C: ReportTaker<LinkReport<I, O, T, H>>,
> Acceptor<I, O, T, H, C> {
    /// Joins the thread of the live link at this place, and hands its report on.
    fn settle<'s, R: Threads>(&mut self, shared: &Shared<'s, R>, place: usize)
        requires accepting { IsAccepting
            (TalksOver I.half O.half T.given H.shown H.may H.moves shared.now.book.now)
            (IsMadeFor I.half O.half T.given H.shown H.moves shared.now.plan.now)
            H.shown C.taken C.expects shared.now.lock.now shared.now.book.now self.old }
        requires there { place < vec_len self.old.live }
        ensures keeps { Keeps C.holds C.stays self.old.taker self.new.taker }
        ensures accepting { IsAccepting
            (TalksOver I.half O.half T.given H.shown H.may H.moves shared.now.book.now)
            (IsMadeFor I.half O.half T.given H.shown H.moves shared.now.plan.now)
            H.shown C.taken C.expects shared.now.lock.now shared.now.book.now self.new }
        ensures follows { Follows self.old self.new }
        ensures ticks { (C.taken self.new.taker).ticks ≡ (C.taken self.old.taker).ticks }
        ensures links { shown_all I.half O.half T.given self.new.all
            ≡ shown_all I.half O.half T.given self.old.all }
        ensures begun { self.new.begun ≡ self.old.begun }
        ensures fewer { vec_len self.new.live + 1 ≡ vec_len self.old.live }
    {
        let StartedLink {
            by,
            task,
            link_state,
        } = self.live.remove(place);
        let report = finish(shared, &mut self.root, &task, link_state);
        let ended = StartedLink {
            by,
            task,
            link_state: LinkState::Ended(Snapshot::of(&report)),
        };
        self.all.put(u64::from(by) - 1, &ended);
        self.taker.ended(report);
    }

    /// Joins the thread of link `by`, if it hasn't been, and hands its report on.
    fn join_one<'s, R: Threads>(&mut self, shared: &Shared<'s, R>, by: u32)
        requires accepting { IsAccepting
            (TalksOver I.half O.half T.given H.shown H.may H.moves shared.now.book.now)
            (IsMadeFor I.half O.half T.given H.shown H.moves shared.now.plan.now)
            H.shown C.taken C.expects shared.now.lock.now shared.now.book.now self.old }
        ensures keeps { Keeps C.holds C.stays self.old.taker self.new.taker }
        ensures accepting { IsAccepting
            (TalksOver I.half O.half T.given H.shown H.may H.moves shared.now.book.now)
            (IsMadeFor I.half O.half T.given H.shown H.moves shared.now.plan.now)
            H.shown C.taken C.expects shared.now.lock.now shared.now.book.now self.new }
        ensures follows { Follows self.old self.new }
        ensures ticks { (C.taken self.new.taker).ticks ≡ (C.taken self.old.taker).ticks }
        ensures links { shown_all I.half O.half T.given self.new.all
            ≡ shown_all I.half O.half T.given self.old.all }
        ensures begun { self.new.begun ≡ self.old.begun }
    {
        let Some(place) = place_of(self.live.as_slice(), by) else {
            return;
        };
        self.settle(shared, place);
    }

    /// Joins the threads of links that have ended, and hands their reports on.
    pub fn join_ended<'s, R: Threads + Wait>(&mut self, shared: &Shared<'s, R>)
        requires accepting { IsAccepting
            (TalksOver I.half O.half T.given H.shown H.may H.moves shared.now.book.now)
            (IsMadeFor I.half O.half T.given H.shown H.moves shared.now.plan.now)
            H.shown C.taken C.expects shared.now.lock.now shared.now.book.now self.old }
        ensures keeps { Keeps C.holds C.stays self.old.taker self.new.taker }
        ensures accepting { IsAccepting
            (TalksOver I.half O.half T.given H.shown H.may H.moves shared.now.book.now)
            (IsMadeFor I.half O.half T.given H.shown H.moves shared.now.plan.now)
            H.shown C.taken C.expects shared.now.lock.now shared.now.book.now self.new }
        ensures follows { Follows self.old self.new }
        ensures ticks { (C.taken self.new.taker).ticks ≡ (C.taken self.old.taker).ticks }
        ensures links { shown_all I.half O.half T.given self.new.all
            ≡ shown_all I.half O.half T.given self.old.all }
        ensures begun { self.new.begun ≡ self.old.begun }
    {
        for _ in 0..MAX_JOINS {
            let Some(by) = shared.ended.next(shared.rt) else {
                return;
            };
            self.join_one(shared, by);
        }
    }

    /// Waits for each link that hasn't ended, the last first, and hands its report on.
    pub fn join_all<'s, R: Threads>(&mut self, shared: &Shared<'s, R>)
        requires accepting { IsAccepting
            (TalksOver I.half O.half T.given H.shown H.may H.moves shared.now.book.now)
            (IsMadeFor I.half O.half T.given H.shown H.moves shared.now.plan.now)
            H.shown C.taken C.expects shared.now.lock.now shared.now.book.now self.old }
        ensures keeps { Keeps C.holds C.stays self.old.taker self.new.taker }
        ensures accepting { IsAccepting
            (TalksOver I.half O.half T.given H.shown H.may H.moves shared.now.book.now)
            (IsMadeFor I.half O.half T.given H.shown H.moves shared.now.plan.now)
            H.shown C.taken C.expects shared.now.lock.now shared.now.book.now self.new }
        ensures none { vec_len self.new.live ≡ 0 }
        ensures follows { Follows self.old self.new }
        ensures ticks { (C.taken self.new.taker).ticks ≡ (C.taken self.old.taker).ticks }
        ensures links { shown_all I.half O.half T.given self.new.all
            ≡ shown_all I.half O.half T.given self.old.all }
        ensures begun { self.new.begun ≡ self.old.begun }
    {
        let live = self.live.len();
        for _ in 0..live {
            let last = self.live.len() - 1;
            self.settle(shared, last);
        }
    }
}
