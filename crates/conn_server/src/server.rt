//! The server.
ghost use Rattle.std.specs.Prelude.{◌≡◌, ◌≤◌, ◌<◌, ◌+◌, ◌⊎◌, ◌↔◌, List, [], ◌++◌, length, IfSome, IsTrue, true, false};
ghost use Rattle.mod_utf.specs.Utf.{utf};
ghost use Rattle.wire_io.specs.Wire.{Rose};
ghost use Rattle.wire_io.specs.declared.limits.TheConstants.{MAX_HOST_BYTES};
ghost use Rattle.turn_lock.specs.Handles.{IsFresh, IsRootOf, opening_of, view_of};
ghost use Rattle.turn_lock.specs.Rule.{Settled, StartsWith};
ghost use Rattle.conn_server.specs.Begins.{LeavesHost, LeavesListener, MayHost, MayServe, RoseBetween};
ghost use Rattle.conn_server.specs.Taken.{IsEmpty, ExpectsLinks, Keeps, SameReports};
ghost use Rattle.conn_server.specs.Handed.{AreHanded};
ghost use Rattle.conn_server.specs.Hosts.{ClosedLast, FailedSince, HostsLinks, IsHosted};
ghost use Rattle.conn_server.specs.Reports.{GivesReports, IsLinkOf, IsServed, ServesLinks};
ghost use Rattle.conn_server.specs.Stops.{IsLostLink};
ghost use Rattle.conn_server.specs.declared.host_loop.TheConstants.{MAX_IDLE_TRIES};
ghost use Rattle.conn_server.specs.declared.plan.TheConstants.{MAX_LINKS};

use crate::accept_loop::{Stop, accept_links};
use crate::admission::{Acceptor, Keeping, LostLink};
use crate::ended_links::EndedLinks;
use crate::handing::{close_recorded, first_place};
use crate::host_loop::{Halt, HostLoop};
use crate::link_task::LinkReport;
use crate::plan::ServePlan;
use crate::quiet_second::OwnHand;
use crate::shared::Shared;
use crate::taker::{KeepsReports, ReportTaker};
use call_dispatch::{Book, Crew};
use sequence::Sequence;
use space::{AskedList, Space};
use std::alloc::Global;
use std::sync::Wait;
use std::thread;
use std::thread::{Scope, Threads};
use turn_lock::{Root, TurnLock};
use wire_io::{Clock, Listener};

/// The reports of several links.
pub type LinkReports<I, O, T, H> = Sequence<LinkReport<I, O, T, H>>;

/// The remains once all threads were joined.
#[derive(Drop)]
pub struct AllJoined<I, O, T, C> {
    pub root: Root,
    pub taker: C,
    pub stop: Stop,
    pub lost: Option<LostLink<I, O, T>>,
}

/// The outcome of serving links whose reports a taker was given.
#[derive(Drop)]
pub struct Served<I, O, T, C> {
    /// The taker, which was given the report of each link that was served, and the entries of the server's own turns, which are Ticks: one
    /// before each of these links.
    pub taker: C,
    /// Why no more links were accepted.
    pub stop: Stop,
    /// The link that was accepted and for which there was no memory, shut, where that is why no more were accepted.
    pub lost: Option<LostLink<I, O, T>>,
    /// The space that the lock was round.
    pub space: Space,
}

/// The remains once all threads of a host were joined.
#[derive(Drop)]
pub struct HostJoined<I, O, T, C, H> {
    pub root: Root,
    pub taker: C,
    pub stop: Stop,
    pub lost: Option<LostLink<I, O, T>>,
    pub own: OwnHand<H>,
    /// The place of the next event that the taker is to be given.
    pub handed: Option<u64>,
}

/// The outcome of serving links until the listener was told to stop, or until another cause ended that.
#[derive(Drop)]
pub struct Hosted<I, O, T, C, H> {
    /// The taker, which was given the report of each link that was served, and the entries of the server's own turns, which are Ticks: one
    /// before each of these links, and those at looks at the host's clock.
    pub taker: C,
    /// Why no more links were accepted.
    pub stop: Stop,
    /// The link that was accepted and for which there was no memory, shut, where that is why no more were accepted.
    pub lost: Option<LostLink<I, O, T>>,
    /// The space that the lock was round.
    pub space: Space,
    /// True where the taker was given all events of the space after the opening's. False means that there was no memory
    /// to hand them on, or that the host or its lock doesn't record.
    pub whole: bool,
    /// True where the beginning asked that the taker be given events.
    pub recorded: bool,
    /// The hand of number 0, which was told what the Ticks at looks at the host's clock withdrew, where there was one.
    pub hand: Option<H>,
    /// True where a Tick was due at a look at the host's clock, and there was no memory for it, for its entry or for that hand.
    pub tick_missed: bool,
    /// The number of looks at which that was so. It stands still at [`u64::MAX`].
    pub ticks_missed: u64,
}

/// A report of the links that a server served.
#[derive(Drop)]
pub struct Report<I, O, T, H> {
    /// A report of each link that was served, in the order of accepting.
    pub links: LinkReports<I, O, T, H>,
    /// The entries of the server's own turns, which are Ticks: one before each of these links.
    pub ticks: AskedList,
    /// Why no more links were accepted.
    pub stop: Stop,
    /// The link that was accepted and for which there was no memory, shut, where that is why no more were accepted.
    pub lost: Option<LostLink<I, O, T>>,
    /// The space that the lock was round.
    pub space: Space,
}

/// The root and the taker with which a server begins.
#[derive(Drop)]
pub struct Begin<C> {
    /// The root of the server's lock.
    pub root: Root,
    /// The taker of the reports, which was given no report and no entry yet.
    pub taker: C,
}

/// The root and the taker with which a host begins, and whether it hands events on.
#[derive(Drop)]
pub struct HostBegin<C> {
    /// The root of the server's lock.
    pub root: Root,
    /// The taker of the reports and the events, which was given nothing yet.
    pub taker: C,
    /// True where the taker is given the events of the space, as they are made. The lock has to be one that records (`TurnLock::recording`).
    pub record: bool,
    /// The most links that are live at once. [`MAX_LIVE`] is what a system with many descriptors bears.
    pub most_live: usize,
}

/// The root, the taker and the crew with which a host begins, the number of events of the opening, where it hands
/// further events on, and the most links that are live at once.
#[derive(Drop)]
struct HostStart<'c, C, G> {
    root: Root,
    taker: C,
    crew: &'c G,
    handed: Option<u64>,
    most_live: usize,
}

/// A server: what it runs on, who does the calls of its clients, and which objects they may call.
#[derive(Drop)]
pub struct Server<'s, R, G> {
    /// The runtime, which starts threads and waits.
    pub rt: &'s R,
    /// Where memory comes from.
    pub alloc: Global,
    /// Makes the hand of each connection.
    pub crew: &'s G,
    /// The kinds of objects that clients may call.
    pub book: &'s Book,
}

/// Accepts links, serves them by threads of the scope, and joins all of these.
fn serve_within<
    's,
    E,
    R: Threads + Wait + Sync,
    L: Listener,
    G: Crew,
    C: ReportTaker<LinkReport<L::In, L::Out, L::Ticks, G::Hand>>,
>(
    scope: &Scope<'s, E>,
    shared: &Shared<'s, R>,
    begin: Begin<C>,
    listener: &mut L,
    crew: &G,
) -> AllJoined<L::In, L::Out, L::Ticks, C>
where
    L::In: 's,
    L::Out: 's,
    L::Ticks: 's,
    G::Hand: 's,
    requires fresh { IsFresh shared.now.lock.now begin.root }
    requires few { shared.now.plan.now.count ≤ MAX_LINKS }
    requires host { length (utf shared.now.plan.now.host) ≤ MAX_HOST_BYTES }
    requires empty { IsEmpty (C.taken begin.taker) }
    requires expects { ExpectsLinks
        (IsLinkOf L.In.half L.Out.half L.Ticks.given G.Hand.shown G.Hand.may G.Hand.moves
        shared.now.book.now shared.now.plan.now)
        C.expects begin.taker }
    ensures served { IsServed
        (IsLinkOf L.In.half L.Out.half L.Ticks.given G.Hand.shown G.Hand.may G.Hand.moves
        shared.now.book.now shared.now.plan.now)
        (IsLostLink L.In.half L.Out.half L.Ticks.given)
        C.taken shared.now.lock.now shared.now.plan.now.count
        (L.listening listener.old).accepted (L.listening listener.new).accepted result }
    ensures fault { result.stop ≡ Stop.AcceptFault
        → Rose (L.listening listener.old).faults (L.listening listener.new).faults }
    ensures faults { (L.listening listener.old).faults ≤ (L.listening listener.new).faults }
    ensures ports { (L.listening listener.new).ports ≡ (L.listening listener.old).ports }
{
    let Begin { root, taker } = begin;
    let keeping = Keeping {
        entries: true,
        handed: None,
    };
    let mut acceptor = Acceptor::new(shared.alloc, root, taker, keeping);
    let (stop, lost) = accept_links(scope, shared, listener, crew, &mut acceptor);
    acceptor.join_all(shared);
    let Acceptor {
        root,
        begun: _begun,
        live: _live,
        all: _all,
        taker,
        keeps: _keeps,
        handed: _handed,
    } = acceptor;
    AllJoined {
        root,
        taker,
        stop,
        lost,
    }
}

/// Serves links by threads of a scope, and joins all of these.
fn serve_scoped<
    's,
    R: Threads + Wait + Sync,
    L: Listener,
    G: Crew,
    C: ReportTaker<LinkReport<L::In, L::Out, L::Ticks, G::Hand>>,
>(
    shared: Shared<'s, R>,
    begin: Begin<C>,
    listener: &mut L,
    crew: &G,
) -> AllJoined<L::In, L::Out, L::Ticks, C>
    requires may { MayServe
        (IsLinkOf L.In.half L.Out.half L.Ticks.given G.Hand.shown G.Hand.may G.Hand.moves
        shared.book.now shared.plan.now)
        C.taken C.expects shared.lock.now shared.plan.now begin.root begin.taker }
    ensures served { IsServed
        (IsLinkOf L.In.half L.Out.half L.Ticks.given G.Hand.shown G.Hand.may G.Hand.moves
        shared.entry.book.now shared.entry.plan.now)
        (IsLostLink L.In.half L.Out.half L.Ticks.given)
        C.taken shared.entry.lock.now shared.entry.plan.now.count
        (L.listening listener.old).accepted (L.listening listener.new).accepted result }
    ensures heard { LeavesListener RoseBetween result.stop
        (L.listening listener.old) (L.listening listener.new) }
{
    let rt = shared.rt;
    let (left, outcome) = thread::scope(
        thread::scope_env(),
        rt,
        move |scope| -> (&mut L, AllJoined<L::In, L::Out, L::Ticks, C>)
            requires { MayServe
                (IsLinkOf L.In.half L.Out.half L.Ticks.given
                G.Hand.shown G.Hand.may G.Hand.moves shared.book.now shared.plan.now)
                C.taken C.expects shared.lock.now shared.plan.now begin.root begin.taker }
            ensures left { (result.0.ghost_name ≡ listener.entry.ghost_name) }
            ensures served { IsServed
                (IsLinkOf L.In.half L.Out.half L.Ticks.given
                G.Hand.shown G.Hand.may G.Hand.moves
                shared.entry.book.now shared.entry.plan.now)
                (IsLostLink L.In.half L.Out.half L.Ticks.given)
                C.taken shared.entry.lock.now shared.entry.plan.now.count
                (L.listening listener.entry.now).accepted (L.listening result.0.now).accepted
                result.1 }
            ensures heard { LeavesListener RoseBetween result.1.stop
                (L.listening listener.entry.now) (L.listening result.0.now) }
        {
            let outcome = serve_within(scope, &shared, begin, listener, crew);
            (listener, outcome)
        },
    );
    let _ = left;
    outcome
}

/// Accepts links by threads of the scope until the listener is told to stop, and joins all of these.
fn host_within<
    'c,
    's,
    E,
    R: Threads + Wait + Sync,
    L: Listener,
    Q: Clock,
    G: Crew,
    C: ReportTaker<LinkReport<L::In, L::Out, L::Ticks, G::Hand>>,
>(
    scope: &Scope<'s, E>,
    shared: &Shared<'s, R>,
    listener: &mut L,
    ticks: &mut Q,
    begin: HostStart<'c, C, G>,
) -> HostJoined<L::In, L::Out, L::Ticks, C, G::Hand>
where
    L::In: 's,
    L::Out: 's,
    L::Ticks: 's,
    G::Hand: 's,
    requires fresh { IsFresh shared.now.lock.now begin.root }
    requires host { length (utf shared.now.plan.now.host) ≤ MAX_HOST_BYTES }
    requires empty { IsEmpty (C.taken begin.taker) }
    requires expects { ExpectsLinks
        (IsLinkOf L.In.half L.Out.half L.Ticks.given G.Hand.shown G.Hand.may G.Hand.moves
        shared.now.book.now shared.now.plan.now)
        C.expects begin.taker }
    requires no_event { (C.taken begin.taker).events ≡ [] }
    requires handed { IfSome begin.handed
        (λ n. n ≡ length (opening_of shared.now.lock.now).events) }
    ensures keeps { Keeps C.holds C.stays begin.entry.taker result.taker }
    ensures hosted { IsHosted
        (IsLinkOf L.In.half L.Out.half L.Ticks.given G.Hand.shown G.Hand.may G.Hand.moves
        shared.now.book.now shared.now.plan.now)
        (IsLostLink L.In.half L.Out.half L.Ticks.given) G.Hand.shown G.Hand.moves
        C.taken shared.now.lock.now shared.now.plan.now.count
        (L.listening listener.old) (L.listening listener.new)
        (Q.given ticks.old) (Q.given ticks.new) result }
    ensures fault { result.stop ≡ Stop.AcceptFault
        → FailedSince L.listening (MAX_IDLE_TRIES + 1)
        (L.listening listener.old) (L.listening listener.new) }
    ensures closed_last { ClosedLast L.listening
        (L.listening listener.old) (L.listening listener.new) }
    ensures faults { (L.listening listener.old).faults ≤ (L.listening listener.new).faults }
    ensures ports { (L.listening listener.new).ports ≡ (L.listening listener.old).ports }
{
    let HostStart {
        root,
        taker,
        crew,
        handed,
        most_live,
    } = begin;
    let mut host = HostLoop::new(shared.alloc, root, taker, handed, most_live);
    let Halt { stop, lost } = host.run(scope, shared, crew, listener, ticks);
    host.acceptor.end_all(shared);
    let HostLoop {
        acceptor,
        own,
        idle_tries: _idle_tries,
        most_live: _most_live,
        short_rounds: _short_rounds,
    } = host;
    let Acceptor {
        root,
        begun: _begun,
        live: _live,
        all: _all,
        taker,
        keeps: _keeps,
        handed,
    } = acceptor;
    HostJoined {
        root,
        taker,
        stop,
        lost,
        own,
        handed,
    }
}

/// Hosts links by threads of a scope, and joins all of these.
fn host_scoped<
    'c,
    's,
    R: Threads + Wait + Sync,
    L: Listener,
    Q: Clock,
    G: Crew,
    C: ReportTaker<LinkReport<L::In, L::Out, L::Ticks, G::Hand>>,
>(
    shared: Shared<'s, R>,
    listener: &mut L,
    ticks: &mut Q,
    begun: HostStart<'c, C, G>,
) -> HostJoined<L::In, L::Out, L::Ticks, C, G::Hand>
    requires may { MayHost
        (IsLinkOf L.In.half L.Out.half L.Ticks.given G.Hand.shown G.Hand.may G.Hand.moves
        shared.book.now shared.plan.now)
        C.taken C.expects shared.lock.now shared.plan.now begun.root begun.taker begun.handed }
    ensures keeps { Keeps C.holds C.stays begun.entry.taker result.taker }
    ensures hosted { IsHosted
        (IsLinkOf L.In.half L.Out.half L.Ticks.given G.Hand.shown G.Hand.may G.Hand.moves
        shared.entry.book.now shared.entry.plan.now)
        (IsLostLink L.In.half L.Out.half L.Ticks.given) G.Hand.shown G.Hand.moves
        C.taken shared.entry.lock.now shared.entry.plan.now.count
        (L.listening listener.old) (L.listening listener.new)
        (Q.given ticks.old) (Q.given ticks.new) result }
    ensures heard { LeavesHost L.listening (MAX_IDLE_TRIES + 1) result.stop
        (L.listening listener.old) (L.listening listener.new) }
{
    let rt = shared.rt;
    let (left, left_ticks, outcome) = thread::scope(
        thread::scope_env(),
        rt,
        move |scope| -> (
            &mut L,
            &mut Q,
            HostJoined<L::In, L::Out, L::Ticks, C, G::Hand>,
        )
            requires { MayHost
                (IsLinkOf L.In.half L.Out.half L.Ticks.given
                G.Hand.shown G.Hand.may G.Hand.moves shared.book.now shared.plan.now)
                C.taken C.expects shared.lock.now shared.plan.now
                begun.root begun.taker begun.handed }
            ensures left { (result.0.ghost_name ≡ listener.entry.ghost_name)
                × (result.1.ghost_name ≡ ticks.entry.ghost_name) }
            ensures keeps { Keeps C.holds C.stays begun.entry.taker result.2.taker }
            ensures hosted { IsHosted
                (IsLinkOf L.In.half L.Out.half L.Ticks.given
                G.Hand.shown G.Hand.may G.Hand.moves
                shared.entry.book.now shared.entry.plan.now)
                (IsLostLink L.In.half L.Out.half L.Ticks.given) G.Hand.shown G.Hand.moves
                C.taken shared.entry.lock.now shared.entry.plan.now.count
                (L.listening listener.entry.now) (L.listening result.0.now)
                (Q.given ticks.entry.now) (Q.given result.1.now) result.2 }
            ensures heard { LeavesHost L.listening (MAX_IDLE_TRIES + 1)
                result.2.stop (L.listening listener.entry.now) (L.listening result.0.now) }
        {
            let outcome = host_within(scope, &shared, listener, ticks, begun);
            (listener, ticks, outcome)
        },
    );
    let _ = left;
    let _ = left_ticks;
    outcome
}

/// Closes the lock of a host whose threads were joined, hands the last events on, and gives the host's outcome.
fn close_host<I, O, T, H, C: ReportTaker<LinkReport<I, O, T, H>>>(
    lock: TurnLock,
    joined: HostJoined<I, O, T, C, H>,
    records: bool,
) -> Hosted<I, O, T, C, H>
    requires own { IsRootOf lock joined.root }
    requires all { joined.root.out ≡ 0 }
    requires handed { AreHanded lock (view_of joined.root.pass)
        (C.taken joined.taker).events joined.handed }
    ensures keeps { Keeps C.holds C.stays joined.taker result.taker }
    ensures settled { Settled (opening_of lock) (view_of joined.root.pass) result.space }
    ensures handed { StartsWith result.space.events
        ((opening_of lock).events ++ (C.taken result.taker).events) }
    ensures whole { result.whole ≡ true → result.space.events
        ≡ (opening_of lock).events ++ (C.taken result.taker).events }
    ensures unrecorded { records ≡ false → result.whole ≡ false }
    ensures recorded { result.recorded ≡ records }
    ensures ticks { (C.taken result.taker).ticks ≡ (C.taken joined.taker).ticks }
    ensures reports { SameReports C.taken C.expects joined.taker result.taker }
    ensures stop { result.stop ≡ joined.stop }
    ensures lost { result.lost ≡ joined.lost }
    ensures hand { result.hand ≡ joined.own.hand }
    ensures missed { result.ticks_missed ≡ joined.own.missed }
    ensures any_missed { IsTrue result.tick_missed ↔ (0 < result.ticks_missed) }
{
    let HostJoined {
        root,
        mut taker,
        stop,
        lost,
        own,
        handed,
    } = joined;
    let (space, whole) = close_recorded(lock, root, &mut taker, handed);
    let OwnHand { hand, missed } = own;
    Hosted {
        taker,
        stop,
        lost,
        space,
        whole: records && whole,
        recorded: records,
        hand,
        tick_missed: missed > 0,
        ticks_missed: missed,
    }
}

impl<'s, R: Threads + Wait + Sync, G: Crew> Server<'s, R, G> {
    /// Accepts the plan's count of links, serves each in a thread of its own as the connection of the next number, joins all threads and closes
    /// the lock. Before each link it makes a Tick as connection 0, at a moment of the link's clock, and tells the link's hand what is
    /// gone; a Tick that is refused HistoryFull is passed over. A link whose thread could not be started is served here. Both halves of a link
    /// are shut when its connection ends. Before a link is admitted, threads of links that have ended are joined. A listener that fails is asked
    /// again, as long as a link is served, whose end gives back a descriptor and memory, and then a few times more.
    ///
    /// The stop is AcceptFault only where the listener's count of faults rose, and OutOfMemory where a hand, a Tick or the room of a report finds
    /// no memory; that link is shut and given back, and not reported. No more links are accepted then, and those that were are served to their
    /// ends.
    ///
    /// Its conditions: at most 65,535 links are to be accepted, the plan's host takes at most 255 bytes as modified UTF, and the root is the
    /// lock's, from which no pass was split and which made no turn.
    pub fn serve<L: Listener>(
        &self,
        listener: &mut L,
        lock: TurnLock,
        root: Root,
        plan: &ServePlan,
    ) -> Report<L::In, L::Out, L::Ticks, G::Hand>
        requires fresh { IsFresh lock root }
        requires few { plan.now.count ≤ MAX_LINKS }
        requires host { length (utf plan.now.host) ≤ MAX_HOST_BYTES }

        // The one history that is left is legal and goes on from the lock's, and the collector kept and withdrew at
        // each of its events as it is to. Each link that was accepted has its Tick and its report, but the one, if any,
        // for which there was no memory, which is given back; and there are no turns but these.
        ensures served { ServesLinks
            (IsLinkOf L.In.half L.Out.half L.Ticks.given
            G.Hand.shown G.Hand.may G.Hand.moves self.now.book.now plan.now)
            (IsLostLink L.In.half L.Out.half L.Ticks.given)
            (opening_of lock) plan.now.count (L.listening listener.old).accepted
            (L.listening listener.new).accepted result }

        // The listener.
        ensures fault { result.stop ≡ Stop.AcceptFault
            → Rose (L.listening listener.old).faults (L.listening listener.new).faults }
        ensures faults { (L.listening listener.old).faults ≤ (L.listening listener.new).faults }
        ensures ports { (L.listening listener.new).ports ≡ (L.listening listener.old).ports }
        ensures all { (¬ Rose (L.listening listener.old).faults (L.listening listener.new).faults)
            → (result.stop ≡ Stop.All) ⊎ (result.stop ≡ Stop.OutOfMemory) }
    {
        let kept: KeepsReports<L::In, L::Out, L::Ticks, G::Hand> = KeepsReports::new(self.alloc);
        let Served {
            taker,
            stop,
            lost,
            space,
        } = self.serve_with(listener, lock, Begin { root, taker: kept }, plan);
        let (links, ticks) = taker.in_order();
        Report {
            links: Sequence::from_vec(links),
            ticks: Sequence::from_vec(ticks),
            stop,
            lost,
            space,
        }
    }

    /// Serves links as [`Server::serve`] does, and hands the report of each to a taker as the link has ended, so that memory grows with the links
    /// that are being served alone.
    ///
    /// Its conditions: those of `serve`, and a taker that was given nothing yet and may be given the report of each link.
    pub fn serve_with<L: Listener, C: ReportTaker<LinkReport<L::In, L::Out, L::Ticks, G::Hand>>>(
        &self,
        listener: &mut L,
        lock: TurnLock,
        begin: Begin<C>,
        plan: &ServePlan,
    ) -> Served<L::In, L::Out, L::Ticks, C>
        requires fresh { IsFresh lock begin.root }
        requires few { plan.now.count ≤ MAX_LINKS }
        requires host { length (utf plan.now.host) ≤ MAX_HOST_BYTES }
        requires empty { IsEmpty (C.taken begin.taker) }
        requires expects { ExpectsLinks
            (IsLinkOf L.In.half L.Out.half L.Ticks.given G.Hand.shown G.Hand.may G.Hand.moves
            self.now.book.now plan.now)
            C.expects begin.taker }

        // As `serve`: the taker was given the report of each link once, and the entries of the server's own turns in their order.
        ensures given { GivesReports
            (IsLinkOf L.In.half L.Out.half L.Ticks.given G.Hand.shown G.Hand.may G.Hand.moves
            self.now.book.now plan.now)
            (IsLostLink L.In.half L.Out.half L.Ticks.given)
            C.taken (opening_of lock) plan.now.count
            (L.listening listener.old).accepted (L.listening listener.new).accepted result }

        // The listener.
        ensures fault { result.stop ≡ Stop.AcceptFault
            → Rose (L.listening listener.old).faults (L.listening listener.new).faults }
        ensures faults { (L.listening listener.old).faults ≤ (L.listening listener.new).faults }
        ensures ports { (L.listening listener.new).ports ≡ (L.listening listener.old).ports }
        ensures all { (¬ Rose (L.listening listener.old).faults (L.listening listener.new).faults)
            → (result.stop ≡ Stop.All) ⊎ (result.stop ≡ Stop.OutOfMemory) }
    {
        let AllJoined {
            root,
            taker,
            stop,
            lost,
        } = self.serve_links(listener, &lock, begin, plan);
        Served {
            taker,
            stop,
            lost,
            space: lock.close(root),
        }
    }

    /// Serves links at a lock by threads of a scope, and gives what remains once all of these were joined.
    fn serve_links<L: Listener, C: ReportTaker<LinkReport<L::In, L::Out, L::Ticks, G::Hand>>>(
        &self,
        listener: &mut L,
        lock: &TurnLock,
        begin: Begin<C>,
        plan: &ServePlan,
    ) -> AllJoined<L::In, L::Out, L::Ticks, C>
        requires fresh { IsFresh lock.now begin.root }
        requires few { plan.now.count ≤ MAX_LINKS }
        requires host { length (utf plan.now.host) ≤ MAX_HOST_BYTES }
        requires empty { IsEmpty (C.taken begin.taker) }
        requires expects { ExpectsLinks
            (IsLinkOf L.In.half L.Out.half L.Ticks.given G.Hand.shown G.Hand.may G.Hand.moves
            self.now.book.now plan.now)
            C.expects begin.taker }
        ensures served { IsServed
            (IsLinkOf L.In.half L.Out.half L.Ticks.given G.Hand.shown G.Hand.may G.Hand.moves
            self.now.book.now plan.now)
            (IsLostLink L.In.half L.Out.half L.Ticks.given)
            C.taken lock.now plan.now.count
            (L.listening listener.old).accepted (L.listening listener.new).accepted result }
        ensures fault { result.stop ≡ Stop.AcceptFault
            → Rose (L.listening listener.old).faults (L.listening listener.new).faults }
        ensures faults { (L.listening listener.old).faults ≤ (L.listening listener.new).faults }
        ensures ports { (L.listening listener.new).ports ≡ (L.listening listener.old).ports }
    {
        let noted = EndedLinks::new(self.alloc);
        let shared = Shared {
            rt: self.rt,
            alloc: self.alloc,
            lock,
            book: self.book,
            plan,
            ended: &noted,
        };
        serve_scoped(shared, begin, listener, self.crew)
    }

    /// Serves links until the listener is told to stop, each as [`Server::serve`] does, and hands the report of each to a taker as the link has
    /// ended. Links in all are at most the plan's count, and at most `most_live` of the beginning are live at once.
    ///
    /// In each second without a link, threads of links that have ended are joined. Where a lease or a wait for an acknowledgement has ended at a
    /// moment of `ticks`, a Tick is made as connection 0. The hand of number 0 is told of each object that it withdraws; it is made
    /// where the first of these Ticks is due. Where there is no memory for that hand, for the Tick or for its entry, none is made, and the result
    /// counts that.
    ///
    /// While as many links are live as may be, none is accepted. Every 50 milliseconds, or as a link ends, the host
    /// then looks whether the listener was told to stop, and does what it does in a second without a link. It does the
    /// same while the listener fails: it asks it again as long as a link is live, and 60 times more, which takes three
    /// seconds.
    ///
    /// Where the beginning says so, the taker is given the events of the space after the opening's, in their order and in parts of at most 4,096.
    /// It is given those that there are each time that the listener answers, which is at least once a second, and the rest after the last link. Where
    /// there is no memory to hand them out, they come with the next ones. Once the lock is crowded with events, they are handed on every 10
    /// milliseconds, for a second at most; then the listener is asked again.
    ///
    /// Where no thread can be started for a link, it tries again 60 times, each time once a link has ended or after 50
    /// milliseconds, and then the accepting thread serves that link. Meanwhile no events are handed on, and no stop is
    /// seen.
    ///
    /// The reports of links have the entries of their turns in proofs alone. So a link takes no more memory with each call.
    ///
    /// The stop is Told where the listener was told to. It is All where the plan's count of links was served,
    /// AcceptFault only where the listener failed more than 60 times since it last answered, and OutOfMemory as in `serve`. In
    /// each case the listener is closed (`Listener::close`), so that the system refuses new clients, and live links end
    /// soon where the listener can tell them to. Links are served to their ends, and all threads are joined.
    ///
    /// Its conditions: those of `serve_with`, but for the count, which may be any, and a taker that was given no event yet.
    pub fn host<
        L: Listener,
        Q: Clock,
        C: ReportTaker<LinkReport<L::In, L::Out, L::Ticks, G::Hand>>,
    >(
        &self,
        listener: &mut L,
        ticks: &mut Q,
        lock: TurnLock,
        begin: HostBegin<C>,
        plan: &ServePlan,
    ) -> Hosted<L::In, L::Out, L::Ticks, C, G::Hand>
        requires fresh { IsFresh lock begin.root }
        requires host { length (utf plan.now.host) ≤ MAX_HOST_BYTES }
        requires empty { IsEmpty (C.taken begin.taker) }
        requires no_event { (C.taken begin.taker).events ≡ [] }
        requires expects { ExpectsLinks
            (IsLinkOf L.In.half L.Out.half L.Ticks.given G.Hand.shown G.Hand.may G.Hand.moves
            self.now.book.now plan.now)
            C.expects begin.taker }

        // As `serve_with`, where the server's own turns are the Ticks before links and those at looks at `ticks`, whose
        // hand was told what they withdrew. A look has a Tick only where something had ended. It has none only where
        // nothing had ended, or where something had and the Tick was missed, which the result counts. There is a look for
        // each answer of the listener that no link came, or that it was not told to stop. Links came by `wait`, and none by
        // `accept`. The events that the taker was given are the first after the opening's, and all where the result says so.
        ensures hosts { HostsLinks
            (IsLinkOf L.In.half L.Out.half L.Ticks.given G.Hand.shown G.Hand.may G.Hand.moves
            self.now.book.now plan.now)
            (IsLostLink L.In.half L.Out.half L.Ticks.given) G.Hand.shown G.Hand.moves
            C.taken (opening_of lock) plan.now.count
            (L.listening listener.old) (L.listening listener.new)
            (Q.given ticks.old) (Q.given ticks.new) result }

        ensures keeps { Keeps C.holds C.stays begin.taker result.taker }
        ensures unrecorded { begin.record ≡ false → result.whole ≡ false }
        ensures recorded { result.recorded ≡ begin.record }

        // The listener.
        ensures fault { result.stop ≡ Stop.AcceptFault
            → FailedSince L.listening (MAX_IDLE_TRIES + 1)
            (L.listening listener.old) (L.listening listener.new) }
        ensures closed_last { ClosedLast L.listening
            (L.listening listener.old) (L.listening listener.new) }
        ensures faults { (L.listening listener.old).faults ≤ (L.listening listener.new).faults }
        ensures ports { (L.listening listener.new).ports ≡ (L.listening listener.old).ports }
        ensures all { (¬ Rose (L.listening listener.old).faults (L.listening listener.new).faults)
            → (result.stop ≡ Stop.Told) ⊎ ((result.stop ≡ Stop.All)
            ⊎ (result.stop ≡ Stop.OutOfMemory)) }
    {
        let HostBegin {
            root,
            taker,
            record,
            most_live,
        } = begin;
        let begun = HostStart {
            root,
            taker,
            crew: self.crew,
            handed: first_place(&lock, record),
            most_live,
        };
        let joined = self.host_links(listener, ticks, &lock, begun, plan);
        close_host(lock, joined, record)
    }

    /// Hosts links at a lock by threads of a scope, and gives what remains once all of these were joined.
    fn host_links<
        'c,
        L: Listener,
        Q: Clock,
        C: ReportTaker<LinkReport<L::In, L::Out, L::Ticks, G::Hand>>,
    >(
        &self,
        listener: &mut L,
        ticks: &mut Q,
        lock: &TurnLock,
        begun: HostStart<'c, C, G>,
        plan: &ServePlan,
    ) -> HostJoined<L::In, L::Out, L::Ticks, C, G::Hand>
        requires fresh { IsFresh lock.now begun.root }
        requires host { length (utf plan.now.host) ≤ MAX_HOST_BYTES }
        requires empty { IsEmpty (C.taken begun.taker) }
        requires no_event { (C.taken begun.taker).events ≡ [] }
        requires expects { ExpectsLinks
            (IsLinkOf L.In.half L.Out.half L.Ticks.given G.Hand.shown G.Hand.may G.Hand.moves
            self.now.book.now plan.now)
            C.expects begun.taker }
        requires handed { IfSome begun.handed (λ n. n ≡ length (opening_of lock.now).events) }
        ensures keeps { Keeps C.holds C.stays begun.entry.taker result.taker }
        ensures hosted { IsHosted
            (IsLinkOf L.In.half L.Out.half L.Ticks.given G.Hand.shown G.Hand.may G.Hand.moves
            self.now.book.now plan.now)
            (IsLostLink L.In.half L.Out.half L.Ticks.given) G.Hand.shown G.Hand.moves
            C.taken lock.now plan.now.count
            (L.listening listener.old) (L.listening listener.new)
            (Q.given ticks.old) (Q.given ticks.new) result }
        ensures fault { result.stop ≡ Stop.AcceptFault
            → FailedSince L.listening (MAX_IDLE_TRIES + 1)
            (L.listening listener.old) (L.listening listener.new) }
        ensures closed_last { ClosedLast L.listening
            (L.listening listener.old) (L.listening listener.new) }
        ensures faults { (L.listening listener.old).faults ≤ (L.listening listener.new).faults }
        ensures ports { (L.listening listener.new).ports ≡ (L.listening listener.old).ports }
    {
        let noted = EndedLinks::new(self.alloc);
        let shared = Shared {
            rt: self.rt,
            alloc: self.alloc,
            lock,
            book: self.book,
            plan,
            ended: &noted,
        };
        host_scoped(shared, listener, ticks, begun)
    }
}
