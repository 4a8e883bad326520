//! Ticks where a lease or a wait has ended, in seconds without a link and while no link is accepted.
ghost use Rattle.std.specs.Prelude.{◌≡◌, ◌<◌, ◌+◌, List, length, MatchBool, MatchOption, IfSome, None, Option, ℕ};
ghost use Rattle.history.specs.declared.limits.TheConstants.{END_OF_TIME};
ghost use Rattle.space.specs.declared.asked.Asked.{Asked};
ghost use Rattle.turn_lock.specs.Handles.{opening_of, view_of};
ghost use Rattle.conn_server.specs.Accepts.{Follows, IsAccepting, IsSame};
ghost use Rattle.conn_server.specs.Taken.{Keeps};
ghost use Rattle.conn_server.specs.Made.{IsMadeFor};
ghost use Rattle.conn_server.specs.Quiet.{HasTold, HaveTold, MakesTick, TicksQuietly};
ghost use Rattle.conn_server.specs.Talks.{TalksOver};

use crate::admission::Acceptor;
use crate::link_task::LinkReport;
use crate::shared::Shared;
use crate::taker::ReportTaker;
use call_dispatch::{Crew, Worker};
use std::sync::Wait;
use wire_io::{Clock, Sink, Source};

/// The hand of number 0 of a host, and how many Ticks the host missed.
#[derive(Drop)]
pub struct OwnHand<H> {
    /// The hand, once a Tick was due at a look and there was memory for it.
    pub hand: Option<H>,
    /// The number of looks at the clock at which a Tick was due and there was no memory for the hand, for the entry or for the Tick.
    pub missed: u64,
}

impl<H> OwnHand<H> {
    /// No Tick was due yet.
    pub fn new() -> OwnHand<H>
        ensures hand { result.hand ≡ None }
        ensures missed { result.missed ≡ 0 }
    {
        OwnHand {
            hand: None,
            missed: 0,
        }
    }
}

/// The hand of number 0: the one that there is, or a new one. None where there is no memory for one.
fn own_hand<G: Crew>(crew: &G, own: &mut Option<G::Hand>) -> Option<G::Hand>
    ensures has { IfSome result (λ hand. (entries : List Asked)
        → HaveTold G.Hand.shown G.Hand.moves entries own.old
        → HasTold G.Hand.shown G.Hand.moves entries hand) }
    ensures none { MatchOption result (own.new ≡ own.old) (λ hand. Unit {0}) }
{
    match own.take() {
        Some(hand) => Some(hand),
        None => match crew.hand(0) {
            Ok(hand) => Some(hand),
            Err(_full) => None,
        },
    }
}

impl<
    I: Source + Drop,
    O: Sink + Drop,
    T: Clock + Drop,
    H: Worker + Drop,
    C: ReportTaker<LinkReport<I, O, T, H>>,
> Acceptor<I, O, T, H, C> {
    /// Takes room for the entry of one more Tick, and says whether there was memory.
    fn with_tick_room(&mut self) -> bool
        ensures keeps { Keeps C.holds C.stays self.old.taker self.new.taker }
        ensures same { IsSame C.taken C.expects self.old self.new }
        ensures room { MatchBool result
            (length (C.taken self.new.taker).ticks
            < (C.taken self.new.taker).tick_limit) (Unit {0}) }
    {
        let live = self.live.len();
        self.taker.reserve(live)
    }

    /// Makes a Tick at this moment, and tells the hand of number 0 what it withdraws. Returns whether it was made: there may
    /// be no memory for the hand, for the entry or for the Tick.
    fn make_tick<'s, R: Wait, G: Crew<Hand = H>>(
        &mut self,
        shared: &Shared<'s, R>,
        crew: &G,
        moment: u64,
        own: &mut Option<H>,
    ) -> bool
        requires accepting { IsAccepting
            (TalksOver I.half O.half T.given H.shown H.may H.moves shared.now.book.now)
            (IsMadeFor I.half O.half T.given H.shown H.moves shared.now.plan.now)
            H.shown C.taken C.expects shared.now.lock.now shared.now.book.now self.old }
        requires moment { moment < END_OF_TIME }
        ensures keeps { Keeps C.holds C.stays self.old.taker self.new.taker }
        ensures accepting { IsAccepting
            (TalksOver I.half O.half T.given H.shown H.may H.moves shared.now.book.now)
            (IsMadeFor I.half O.half T.given H.shown H.moves shared.now.plan.now)
            H.shown C.taken C.expects shared.now.lock.now shared.now.book.now self.new }
        ensures follows { Follows self.old self.new }
        ensures begun { self.new.begun ≡ self.old.begun }
        ensures all { self.new.all ≡ self.old.all }
        ensures made { MakesTick H.shown H.moves moment result
            (C.taken self.old.taker).ticks (C.taken self.new.taker).ticks own.old own.new }
    {
        if !self.with_tick_room() {
            return false;
        }
        let Some(mut hand) = own_hand(crew, own) else {
            return false;
        };
        let entry = self.with_tick(shared, moment, &mut hand);
        *own = Some(hand);
        entry.is_some()
    }

    /// Looks at the clock. Where a lease or a wait has ended by then, it makes a Tick, and tells the hand of number 0 what
    /// that withdraws. Where there is no memory for the hand, the entry or the Tick, none is made, and that is counted.
    pub fn tick_quietly<'s, R: Wait, Q: Clock, G: Crew<Hand = H>>(
        &mut self,
        shared: &Shared<'s, R>,
        crew: &G,
        clock: &mut Q,
        own: &mut OwnHand<H>,
    )
        requires accepting { IsAccepting
            (TalksOver I.half O.half T.given H.shown H.may H.moves shared.now.book.now)
            (IsMadeFor I.half O.half T.given H.shown H.moves shared.now.plan.now)
            H.shown C.taken C.expects shared.now.lock.now shared.now.book.now self.old }
        ensures keeps { Keeps C.holds C.stays self.old.taker self.new.taker }
        ensures accepting { IsAccepting
            (TalksOver I.half O.half T.given H.shown H.may H.moves shared.now.book.now)
            (IsMadeFor I.half O.half T.given H.shown H.moves shared.now.plan.now)
            H.shown C.taken C.expects shared.now.lock.now shared.now.book.now self.new }
        ensures follows { Follows self.old self.new }
        ensures begun { self.new.begun ≡ self.old.begun }
        ensures all { self.new.all ≡ self.old.all }
        ensures quiet { (gave_first : Option (List ℕ)) (quiets_first quiets_last : ℕ)
            (before_links : List Asked)
            → TicksQuietly H.shown H.moves
            (opening_of shared.now.lock.now) (view_of self.old.root.pass).seen own.old.missed
            gave_first (Q.given clock.old) quiets_first quiets_last
            before_links (C.taken self.old.taker).ticks own.old.hand
            → TicksQuietly H.shown H.moves
            (opening_of shared.now.lock.now) (view_of self.new.root.pass).seen own.new.missed
            gave_first (Q.given clock.new) quiets_first (quiets_last + 1)
            before_links (C.taken self.new.taker).ticks own.new.hand }
    {
        let moment = clock.now();
        if !self.root.wants_tick(shared.rt, shared.lock, moment) {
            return;
        }
        if !self.make_tick(shared, crew, moment, &mut own.hand) {
            own.missed = own.missed.saturating_add(1);
        }
    }
}
