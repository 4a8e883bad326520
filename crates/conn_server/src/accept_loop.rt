//! Accepting links.
ghost use Rattle.std.specs.Prelude.{◌≡◌, ◌≤◌, List, [], ◌++◌, length, IfOk};
ghost use Rattle.mod_utf.specs.Utf.{utf};
ghost use Rattle.wire_io.specs.Links.{Accepted, accepted_as};
ghost use Rattle.wire_io.specs.Wire.{AreNewHalves, Rose};
ghost use Rattle.wire_io.specs.declared.limits.TheConstants.{MAX_HOST_BYTES};
ghost use Rattle.conn_server.specs.Accepts.{AcceptsAtLast, IsAccepting, shown_all, links_of, ticks_of, with_all};
ghost use Rattle.conn_server.specs.Made.{IsMadeFor};
ghost use Rattle.conn_server.specs.Stops.{Stopped, AreGivenBack, IsLostLink};
ghost use Rattle.conn_server.specs.Talks.{TalksOver};
ghost use Rattle.conn_server.specs.declared.plan.TheConstants.{MAX_LINKS};

use crate::admission::{Acceptor, LostLink};
use crate::link_task::LinkReport;
use crate::shared::Shared;
use crate::taker::ReportTaker;
use call_dispatch::{Crew, Worker};
use std::sync::Wait;
use std::thread::{Scope, Threads};
use wire_io::{Failed, Link, Listener};

/// The most times that a failing listener is asked for the same link. So it is asked for days.
const MAX_ACCEPT_TRIES: u32 = 10_000_000;

/// The most times that it is asked again, after a pause each, where no link was served when it failed.
const MAX_IDLE_TRIES: u32 = 4;

/// Why no more links were accepted.
#[derive(Clone, Copy)]
pub enum Stop {
    /// As many were served as were to be.
    All,
    /// The listener failed, and failed again each further time that it was asked.
    AcceptFault,
    /// The listener was told to stop.
    Told,
    /// There was no memory for a link that was accepted. It is shut and given back, and not reported.
    OutOfMemory,
}

/// The listener's next link. Where it fails, threads of links that have ended are joined, and it is asked again, once a
/// link has ended or after a pause: as long as one of those that were begun is served, whose end gives back a
/// descriptor and memory, and then a few times more.
fn next_link<
    's,
    R: Threads + Wait,
    L: Listener,
    H: Worker + Drop,
    C: ReportTaker<LinkReport<L::In, L::Out, L::Ticks, H>>,
>(
    shared: &Shared<'s, R>,
    listener: &mut L,
    acceptor: &mut Acceptor<L::In, L::Out, L::Ticks, H, C>,
) -> Result<Link<L::In, L::Out, L::Ticks>, Failed>
    requires accepting { IsAccepting
        (TalksOver L.In.half L.Out.half L.Ticks.given H.shown H.may H.moves shared.now.book.now)
        (IsMadeFor L.In.half L.Out.half L.Ticks.given H.shown H.moves shared.now.plan.now)
        H.shown C.taken C.expects shared.now.lock.now shared.now.book.now acceptor.old }
    ensures accepting { IsAccepting
        (TalksOver L.In.half L.Out.half L.Ticks.given H.shown H.may H.moves shared.now.book.now)
        (IsMadeFor L.In.half L.Out.half L.Ticks.given H.shown H.moves shared.now.plan.now)
        H.shown C.taken C.expects shared.now.lock.now shared.now.book.now acceptor.new }
    ensures ticks { (C.taken acceptor.new.taker).ticks ≡ (C.taken acceptor.old.taker).ticks }
    ensures links { shown_all L.In.half L.Out.half L.Ticks.given acceptor.new.all
        ≡ shown_all L.In.half L.Out.half L.Ticks.given acceptor.old.all }
    ensures begun { acceptor.new.begun ≡ acceptor.old.begun }
    ensures accepts { AcceptsAtLast (accepted_as L.In.half L.Out.half L.Ticks.given)
        (L.listening listener.old) (L.listening listener.new) result }
    ensures halves { IfOk result (λ link. AreNewHalves (L.In.half link.source)
        (L.Out.half link.sink)) }
    ensures ports { (L.listening listener.new).ports ≡ (L.listening listener.old).ports }
{
    let mut idle_tries = 0u32;
    for _ in 1..MAX_ACCEPT_TRIES {
        let seen = shared.ended.count();
        if let Ok(link) = listener.accept() {
            return Ok(link);
        }
        acceptor.join_ended(shared);
        if seen >= u64::from(acceptor.begun) {
            idle_tries = idle_tries.saturating_add(1);
        }
        shared.ended.pause(shared.rt, seen);
        if idle_tries >= MAX_IDLE_TRIES {
            break;
        }
    }
    listener.accept()
}

/// Accepts so many links. A thread of the scope serves each. Before a link is admitted, threads of links that have
/// ended are joined. The link for which there was no memory, if any, is given back.
pub fn accept_links<
    's,
    E,
    R: Threads + Wait + Sync,
    L: Listener,
    G: Crew,
    C: ReportTaker<LinkReport<L::In, L::Out, L::Ticks, G::Hand>>,
>(
    scope: &Scope<'s, E>,
    shared: &Shared<'s, R>,
    listener: &mut L,
    crew: &G,
    acceptor: &mut Acceptor<L::In, L::Out, L::Ticks, G::Hand, C>,
) -> (Stop, Option<LostLink<L::In, L::Out, L::Ticks>>)
where
    L::In: 's,
    L::Out: 's,
    L::Ticks: 's,
    G::Hand: 's,
    requires host { length (utf shared.now.plan.now.host) ≤ MAX_HOST_BYTES }
    requires accepting { IsAccepting
        (TalksOver L.In.half L.Out.half L.Ticks.given G.Hand.shown G.Hand.may G.Hand.moves
        shared.now.book.now)
        (IsMadeFor L.In.half L.Out.half L.Ticks.given G.Hand.shown G.Hand.moves shared.now.plan.now)
        G.Hand.shown C.taken C.expects shared.now.lock.now shared.now.book.now acceptor.old }
    requires fresh { (acceptor.old.all ≡ []) × ((C.taken acceptor.old.taker).ticks ≡ []) }
    requires few { shared.now.plan.now.count ≤ MAX_LINKS }
    ensures accepting { IsAccepting
        (TalksOver L.In.half L.Out.half L.Ticks.given G.Hand.shown G.Hand.may G.Hand.moves
        shared.now.book.now)
        (IsMadeFor L.In.half L.Out.half L.Ticks.given G.Hand.shown G.Hand.moves shared.now.plan.now)
        G.Hand.shown C.taken C.expects shared.now.lock.now shared.now.book.now acceptor.new }
    ensures tied { (C.taken acceptor.new.taker).ticks ≡ ticks_of
        (shown_all L.In.half L.Out.half L.Ticks.given acceptor.new.all) }
    ensures links { (lost : List Accepted)
        × ((L.listening listener.new).accepted ≡ with_all (L.listening listener.old).accepted
        (links_of (shown_all L.In.half L.Out.half L.Ticks.given acceptor.new.all) ++ lost))
        × Stopped result.0 shared.now.plan.now.count acceptor.new.begun lost
        × AreGivenBack (IsLostLink L.In.half L.Out.half L.Ticks.given) lost result.1 }
    ensures fault { result.0 ≡ Stop.AcceptFault
        → Rose (L.listening listener.old).faults (L.listening listener.new).faults }
    ensures faults { (L.listening listener.old).faults ≤ (L.listening listener.new).faults }
    ensures ports { (L.listening listener.new).ports ≡ (L.listening listener.old).ports }
{
    for _ in 0..shared.plan.count {
        let Ok(link) = next_link(shared, listener, acceptor) else {
            return (Stop::AcceptFault, None);
        };
        acceptor.join_ended(shared);
        match acceptor.admit(scope, shared, crew, link) {
            Some(lost) => return (Stop::OutOfMemory, Some(lost)),
            None => {}
        }
    }
    (Stop::All, None)
}
