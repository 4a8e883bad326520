//! Accepting links until the listener is told to stop.
ghost use Rattle.std.specs.Prelude.{◌≡◌, ◌≢◌, ◌≤◌, ◌<◌, ◌+◌, ℕ, List, [], length, vec_len, IfSome, Option, None, Ok, false, true};
ghost use Rattle.mod_utf.specs.Utf.{utf};
ghost use Rattle.wire_io.specs.Links.{Listening, Waits, IfCame, accepted_as};
ghost use Rattle.wire_io.specs.Wire.{AreNewHalves};
ghost use Rattle.wire_io.specs.declared.limits.TheConstants.{MAX_HOST_BYTES};
ghost use Rattle.wire_io.specs.declared.source.Failed.{Failed};
ghost use Rattle.conn_server.specs.Accepts.{IsAccepting};
ghost use Rattle.conn_server.specs.Taken.{Keeps};
ghost use Rattle.conn_server.specs.Hosts.{ClosedLast, FailedSince, GoesOn, IsHalted, IsHosting, IsLike};
ghost use Rattle.conn_server.specs.Made.{IsMadeFor};
ghost use Rattle.conn_server.specs.Talks.{TalksOver};
ghost use Rattle.conn_server.specs.declared.plan.TheConstants.{LAST_NUMBER};

use crate::accept_loop::Stop;
use crate::admission::{Acceptor, Keeping, LostLink};
use crate::link_task::LinkReport;
use crate::plan::ServePlan;
use crate::quiet_second::OwnHand;
use crate::shared::Shared;
use crate::taker::ReportTaker;
use call_dispatch::{Crew, Worker};
use std::alloc::Global;
use std::sync::Wait;
use std::thread::{Scope, Threads};
use turn_lock::Root;
use wire_io::{Clock, Link, Listener, Sink, Source, Waited};

/// The most links of a host that are live at once, where its beginning names no smaller number.
pub const MAX_LIVE: usize = 8_192;

/// The most times that a failing listener is asked again while no link is live. With a pause of 50 milliseconds each that takes three seconds.
pub const MAX_IDLE_TRIES: u32 = 60;

/// The most short rounds, of 10 milliseconds each, before the listener is asked to wait again.
const SHORT_ROUNDS: u32 = 100;

/// The least number of events of a short round after which another one follows.
const MANY_EVENTS: u64 = 80;

/// Why a host accepts no more links, and the link for which there was no memory, if that is why.
#[derive(Drop)]
pub struct Halt<I, O, T> {
    pub stop: Stop,
    pub lost: Option<LostLink<I, O, T>>,
}

/// Accepts links until the listener is told to stop.
#[derive(Drop)]
pub struct HostLoop<I: Source, O: Sink, T: Clock, H: Worker, C> {
    pub acceptor: Acceptor<I, O, T, H, C>,
    /// The hand of number 0, which quiet seconds have.
    pub own: OwnHand<H>,
    /// The number of times that the listener failed without a live link since it last answered a wait or a look.
    pub idle_tries: u32,
    /// The most links that are live at once.
    pub most_live: usize,
    /// The number of short rounds to come, in which events are handed on and the listener isn't asked to wait.
    pub short_rounds: u32,
}

/// Returns the number of events between two places.
fn events_between(from: Option<u64>, to: Option<u64>) -> u64 {
    match (from, to) {
        (Some(from), Some(to)) => to.saturating_sub(from),
        _ => 0,
    }
}

/// Returns how many short rounds come next. `rounds` were to come, and so many events were handed on. They begin where the lock is crowded, and end where
/// few events come.
fn rounds_after(rounds: u32, crowded: bool, events: u64) -> u32 {
    if rounds == 0 {
        return if crowded { SHORT_ROUNDS } else { 0 };
    }
    if events < MANY_EVENTS { 0 } else { rounds - 1 }
}

/// Returns the most links that are served.
fn count_of(plan: &ServePlan) -> u32
    ensures { result ≡ plan.now.count }
{
    plan.count
}

/// Waits for a link to end: 10 milliseconds at most in a short round, or 50.
fn pause_for<'s, R: Wait>(shared: &Shared<'s, R>, seen: u64, short: bool) {
    if short {
        shared.ended.pause_briefly(shared.rt, seen);
    } else {
        shared.ended.pause(shared.rt, seen);
    }
}

impl<
    I: Source + Drop,
    O: Sink + Drop,
    T: Clock + Drop,
    H: Worker + Drop,
    C: ReportTaker<LinkReport<I, O, T, H>>,
> HostLoop<I, O, T, H, C> {
    /// It has admitted no link yet. It hands the events from this place on to the taker, where there is one.
    pub fn new(
        alloc: Global,
        root: Root,
        taker: C,
        handed: Option<u64>,
        most_live: usize,
    ) -> HostLoop<I, O, T, H, C>
        ensures root { result.acceptor.root ≡ root }
        ensures begun { result.acceptor.begun ≡ 0 }
        ensures live { result.acceptor.live.items ≡ [] }
        ensures all { result.acceptor.all ≡ [] }
        ensures taker { result.acceptor.taker ≡ taker }
        ensures keeps { result.acceptor.keeps ≡ false }
        ensures handed { result.acceptor.handed ≡ handed }
        ensures hand { result.own.hand ≡ None }
        ensures missed { result.own.missed ≡ 0 }
        ensures idle_tries { result.idle_tries ≡ 0 }
    {
        let keeping = Keeping {
            entries: false,
            handed,
        };
        HostLoop {
            acceptor: Acceptor::new(alloc, root, taker, keeping),
            own: OwnHand::new(),
            idle_tries: 0,
            most_live,
            short_rounds: 0,
        }
    }

    /// Notes that the listener failed, and says whether it is given up. While a link is live it is not, and that failure isn't counted.
    fn gives_up(&mut self) -> bool
        ensures acceptor { self.new.acceptor ≡ self.old.acceptor }
        ensures own { self.new.own ≡ self.old.own }
        ensures raised { self.new.idle_tries ≤ self.old.idle_tries + 1 }
        ensures many { result ≡ true → MAX_IDLE_TRIES < self.new.idle_tries }
        ensures idle { result ≡ true → vec_len self.new.acceptor.live ≡ 0 }
        ensures busy { 0 < vec_len self.old.acceptor.live
            → self.new.idle_tries ≡ self.old.idle_tries }
    {
        if !self.acceptor.live.is_empty() {
            return false;
        }
        self.idle_tries = self.idle_tries.saturating_add(1);
        self.idle_tries > MAX_IDLE_TRIES
    }

    /// Does what is to be done after the listener answered: a link is admitted, a quiet second has its Tick, and a host that was told to stop stops.
    fn take_waited<'s, E, R: Threads + Wait + Sync, Q: Clock, G: Crew<Hand = H>>(
        &mut self,
        scope: &Scope<'s, E>,
        shared: &Shared<'s, R>,
        crew: &G,
        ticks: &mut Q,
        waited: Waited<Link<I, O, T>>,
    ) -> Option<Halt<I, O, T>>
    where
        I: Send + 's,
        O: Send + 's,
        T: Send + 's,
        H: Send + 's,
        requires host { length (utf shared.now.plan.now.host) ≤ MAX_HOST_BYTES }
        requires accepting { IsAccepting
            (TalksOver I.half O.half T.given H.shown H.may H.moves shared.now.book.now)
            (IsMadeFor I.half O.half T.given H.shown H.moves shared.now.plan.now)
            H.shown C.taken C.expects shared.now.lock.now shared.now.book.now self.old.acceptor }
        requires few { self.old.acceptor.begun < shared.now.plan.now.count }
        requires numbered { self.old.acceptor.begun < LAST_NUMBER }
        requires halves { IfCame waited (λ link. AreNewHalves (I.half link.source)
            (O.half link.sink)) }
        ensures keeps { Keeps C.holds C.stays self.old.acceptor.taker self.new.acceptor.taker }
        ensures goes_on { (l0 l1 l2 : Listening) (gave_first : Option (List ℕ))
            → IsHosting I.half O.half T.given H.shown H.may H.moves C.taken C.expects
            shared.now.lock.now shared.now.book.now shared.now.plan.now
            l0 l1 gave_first (Q.given ticks.old) self.old.acceptor self.old.own
            → Waits {E = Failed} (accepted_as I.half O.half T.given) l1 l2 (Ok waited)
            → l2.ports ≡ l1.ports
            → GoesOn I.half O.half T.given H.shown H.may H.moves C.taken C.expects
            shared.now.lock.now shared.now.book.now shared.now.plan.now
            l0 l2 gave_first (Q.given ticks.new) self.new.acceptor self.new.own result }
        ensures untried { self.new.idle_tries ≡ 0 }
        ensures other { IfSome result (λ halt. halt.stop ≢ Stop.AcceptFault) }
    {
        self.idle_tries = 0;
        let crowded = shared.lock.is_crowded();
        self.acceptor.catch_up(shared);
        self.short_rounds = rounds_after(0, crowded, 0);
        match waited {
            Waited::Came(link) => match self.acceptor.admit(scope, shared, crew, link) {
                Some(lost) => Some(Halt {
                    stop: Stop::OutOfMemory,
                    lost: Some(lost),
                }),
                None => None,
            },
            Waited::Quiet => {
                self.acceptor
                    .tick_quietly(shared, crew, ticks, &mut self.own);
                None
            }
            Waited::Told => Some(Halt {
                stop: Stop::Told,
                lost: None,
            }),
        }
    }

    /// Joins threads of links that have ended, hands events on, and makes a Tick where a lease or a wait has ended.
    /// Then it waits for a link to end, for 50 milliseconds at most, or for 10 in a short round; but not where a thread
    /// was joined.
    fn pass_time<'s, R: Threads + Wait + Sync, Q: Clock, G: Crew<Hand = H>>(
        &mut self,
        shared: &Shared<'s, R>,
        crew: &G,
        ticks: &mut Q,
    )
        requires accepting { IsAccepting
            (TalksOver I.half O.half T.given H.shown H.may H.moves shared.now.book.now)
            (IsMadeFor I.half O.half T.given H.shown H.moves shared.now.plan.now)
            H.shown C.taken C.expects shared.now.lock.now shared.now.book.now self.old.acceptor }
        ensures keeps { Keeps C.holds C.stays self.old.acceptor.taker self.new.acceptor.taker }
        ensures begun { self.new.acceptor.begun ≡ self.old.acceptor.begun }
        ensures idle_tries { self.new.idle_tries ≡ self.old.idle_tries }
        ensures goes_on { (l0 l1 l2 : Listening) (gave_first : Option (List ℕ))
            → IsHosting I.half O.half T.given H.shown H.may H.moves C.taken C.expects
            shared.now.lock.now shared.now.book.now shared.now.plan.now
            l0 l1 gave_first (Q.given ticks.old) self.old.acceptor self.old.own
            → IsLike l1 l2
            → IsHosting I.half O.half T.given H.shown H.may H.moves C.taken C.expects
            shared.now.lock.now shared.now.book.now shared.now.plan.now
            l0 l2 gave_first (Q.given ticks.new) self.new.acceptor self.new.own }
    {
        let seen = shared.ended.count();
        let live = self.acceptor.live.len();
        let crowded = shared.lock.is_crowded();
        let first = self.acceptor.handed;
        self.acceptor.catch_up(shared);
        let events = events_between(first, self.acceptor.handed);
        self.acceptor
            .tick_quietly(shared, crew, ticks, &mut self.own);
        if self.acceptor.live.len() == live {
            pause_for(shared, seen, self.short_rounds > 0);
        }
        self.short_rounds = rounds_after(self.short_rounds, crowded, events);
    }

    /// Returns whether as many links are live as may be, or a short round is due.
    fn holds_back(&self) -> bool {
        self.short_rounds > 0 || self.acceptor.live.len() >= self.most_live
    }

    /// Waits for the next link for a second at most, and does what is to be done then. Where as many links are live as
    /// may be, or many events are made, it looks whether the listener was told to stop, and passes time.
    fn step<
        's,
        E,
        R: Threads + Wait + Sync,
        L: Listener<In = I, Out = O, Ticks = T>,
        Q: Clock,
        G: Crew<Hand = H>,
    >(
        &mut self,
        scope: &Scope<'s, E>,
        shared: &Shared<'s, R>,
        crew: &G,
        listener: &mut L,
        ticks: &mut Q,
    ) -> Option<Halt<I, O, T>>
    where
        I: Send + 's,
        O: Send + 's,
        T: Send + 's,
        H: Send + 's,
        requires host { length (utf shared.now.plan.now.host) ≤ MAX_HOST_BYTES }
        requires accepting { IsAccepting
            (TalksOver I.half O.half T.given H.shown H.may H.moves shared.now.book.now)
            (IsMadeFor I.half O.half T.given H.shown H.moves shared.now.plan.now)
            H.shown C.taken C.expects shared.now.lock.now shared.now.book.now self.old.acceptor }
        ensures keeps { Keeps C.holds C.stays self.old.acceptor.taker self.new.acceptor.taker }
        ensures goes_on { (l0 : Listening) (gave_first : Option (List ℕ))
            → IsHosting I.half O.half T.given H.shown H.may H.moves C.taken C.expects
            shared.now.lock.now shared.now.book.now shared.now.plan.now
            l0 (L.listening listener.old) gave_first (Q.given ticks.old) self.old.acceptor
            self.old.own
            → GoesOn I.half O.half T.given H.shown H.may H.moves C.taken C.expects
            shared.now.lock.now shared.now.book.now shared.now.plan.now
            l0 (L.listening listener.new) gave_first (Q.given ticks.new) self.new.acceptor
            self.new.own result }

        // The failures are counted since the listener last answered, and are many where it is given up.
        ensures since { (first : Listening)
            → FailedSince L.listening self.old.idle_tries first (L.listening listener.old)
            → FailedSince L.listening self.new.idle_tries first (L.listening listener.new) }
        ensures given_up { IfSome result (λ halt. halt.stop ≡ Stop.AcceptFault
            → MAX_IDLE_TRIES < self.new.idle_tries) }
        ensures idle { IfSome result (λ halt. halt.stop ≡ Stop.AcceptFault
            → vec_len self.new.acceptor.live ≡ 0) }
        ensures busy { 0 < vec_len self.new.acceptor.live
            → self.new.idle_tries ≤ self.old.idle_tries }

        // It does not close the listener.
        ensures still_open { (L.listening listener.new).closed ≡ (L.listening listener.old).closed }
    {
        if self.acceptor.begun >= count_of(shared.plan) {
            return Some(Halt {
                stop: Stop::All,
                lost: None,
            });
        }
        if self.holds_back() {
            self.idle_tries = 0;
            if listener.is_told() {
                return Some(Halt {
                    stop: Stop::Told,
                    lost: None,
                });
            }
            self.pass_time(shared, crew, ticks);
            return None;
        }
        match listener.wait() {
            Ok(waited) => self.take_waited(scope, shared, crew, ticks, waited),
            Err(_failed) => {
                self.pass_time(shared, crew, ticks);
                if self.gives_up() {
                    return Some(Halt {
                        stop: Stop::AcceptFault,
                        lost: None,
                    });
                }
                None
            }
        }
    }

    /// Accepts links until the listener is told to stop, or another cause ends that. A thread of the scope serves each. Then
    /// the listener is closed, so that new clients are refused and live links are told to end.
    pub fn run<
        's,
        E,
        R: Threads + Wait + Sync,
        L: Listener<In = I, Out = O, Ticks = T>,
        Q: Clock,
        G: Crew<Hand = H>,
    >(
        &mut self,
        scope: &Scope<'s, E>,
        shared: &Shared<'s, R>,
        crew: &G,
        listener: &mut L,
        ticks: &mut Q,
    ) -> Halt<I, O, T>
    where
        I: Send + 's,
        O: Send + 's,
        T: Send + 's,
        H: Send + 's,
        requires host { length (utf shared.now.plan.now.host) ≤ MAX_HOST_BYTES }
        requires accepting { IsAccepting
            (TalksOver I.half O.half T.given H.shown H.may H.moves shared.now.book.now)
            (IsMadeFor I.half O.half T.given H.shown H.moves shared.now.plan.now)
            H.shown C.taken C.expects shared.now.lock.now shared.now.book.now self.old.acceptor }
        requires fresh { (self.old.acceptor.all ≡ [])
            × ((C.taken self.old.acceptor.taker).ticks ≡ []) }
        requires unused { (self.old.own.hand ≡ None) × (self.old.own.missed ≡ 0) }
        requires hosts { self.old.acceptor.keeps ≡ false }
        requires untried { self.old.idle_tries ≡ 0 }
        ensures keeps { Keeps C.holds C.stays self.old.acceptor.taker self.new.acceptor.taker }
        ensures halted { IsHalted I.half O.half T.given H.shown H.may H.moves C.taken C.expects
            shared.now.lock.now shared.now.book.now shared.now.plan.now
            (L.listening listener.old) (L.listening listener.new) (Q.given ticks.old)
            (Q.given ticks.new) self.new.acceptor self.new.own result }
        ensures closed { (L.listening listener.new).closed ≡ true }
        ensures closed_last { ClosedLast L.listening
            (L.listening listener.old) (L.listening listener.new) }
        ensures fault { result.stop ≡ Stop.AcceptFault
            → FailedSince L.listening (MAX_IDLE_TRIES + 1)
            (L.listening listener.old) (L.listening listener.new) }
        ensures idle { result.stop ≡ Stop.AcceptFault → vec_len self.new.acceptor.live ≡ 0 }
    {
        for _ in shared.rt.forever() {
            match self.step(scope, shared, crew, listener, ticks) {
                Some(halt) => {
                    listener.close();
                    return halt;
                }
                None => {}
            }
        }
        unreachable!()
    }
}
