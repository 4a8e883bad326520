//! Admitting a link: a Tick before it, its hand and its setup, and its start.
ghost use Rattle.std.specs.Prelude.{◌≡◌, ◌<◌, ◌≤◌, ◌+◌, pos, ◌<ℤ◌, List, [], ◌∷◌, ◌++◌, map, length, vec_len, vec_capacity, ℕ, MatchBool, MatchOption, IfSome, Some, None, IfOk, IfErr, OnErr, option_to_list, Option};
ghost use Rattle.mod_utf.specs.Utf.{utf};
ghost use Rattle.wire_io.specs.Links.{accepted_as};
ghost use Rattle.wire_io.specs.Wire.{AreNewHalves, Gave, ShutsRead, ShutsWrite};
ghost use Rattle.wire_io.specs.declared.limits.TheConstants.{MAX_HOST_BYTES};
ghost use Rattle.history.specs.declared.asks.Ask.TheVariants.{Tick};
ghost use Rattle.history.specs.declared.limits.TheConstants.{END_OF_TIME};
ghost use Rattle.space.specs.Entries.{end_of};
ghost use Rattle.ports.specs.Ports.{entries_of};
ghost use Rattle.call_dispatch.specs.Acts.{unreferenced, TellsMore, LeadsStates};
ghost use Rattle.system_objects.specs.Terms.{terms_of};
ghost use Rattle.system_objects.specs.declared.book.Kind.{Kind};
ghost use Rattle.system_objects.specs.declared.setup.TheConstants.{DRAWS_BEGIN_BELOW};
ghost use Rattle.turn_lock.specs.Handles.{IsRootOf, view_of};
ghost use Rattle.turn_lock.specs.PassPorts.{PassWent};
ghost use Rattle.conn_server.specs.Accepts.{Follows, HasRoom, HasSameLinks, IsAccepting, IsNext, IsSame, TicksOn, shown_all, links_of, ticks_of};
ghost use Rattle.conn_server.specs.Taken.{Keeps, SameReports};
ghost use Rattle.call_dispatch.specs.Hands.{IsUntold, IsUncounted};
ghost use Rattle.conn_server.specs.Made.{gone_with, told_of, shown_admitted, IsMadeFor, IsHandFor, IsTakenBelow};
ghost use Rattle.conn_server.specs.Plans.{link_terms};
ghost use Rattle.conn_server.specs.Quiet.{IsTick};
ghost use Rattle.conn_server.specs.Stops.{IsLostLink};
ghost use Rattle.conn_server.specs.Talks.{TalksOver};
ghost use Rattle.conn_server.specs.declared.plan.TheConstants.{LAST_NUMBER};

use crate::link_task::{AdmittedLink, LinkReport, LinkTask, Peer};
use crate::link_thread::{StartedLink, start};
use crate::plan::{ServePlan, setup_for};
use crate::shared::Shared;
use crate::taker::ReportTaker;
use call_dispatch::{Book, Crew, Setup, Worker, notify_unreferenced};
use history::{Ask, Refused, Turn};
use past::Past;
use space::{Asked, AskedEnd};
use std::alloc::{AllocError, Global};
use std::snapshot::Snapshot;
use std::sync::Wait;
use std::thread::{Scope, Threads};
use turn_lock::Root;
use wire_io::{Clock, Link, Sink, Source};

/// Accepts links: it has those that haven't ended, and hands the report of each on as it ends. So its memory grows with the links that are being
/// served, and not with those that were.
#[derive(Drop)]
pub struct Acceptor<I: Source, O: Sink, T: Clock, H: Worker, C> {
    pub root: Root,
    /// The number of links that were begun.
    pub begun: u32,
    /// Those that haven't ended, in the order of their numbers.
    pub live: Vec<StartedLink<I, O, T, H>>,
    /// All that were begun, in that order. It exists in proofs alone.
    pub all: Past<StartedLink<I, O, T, H>>,
    /// Takes the reports of links, the entries of the root's own turns, and events.
    pub taker: C,
    /// True where the reports of links have the entries of their turns at run time, too. A host's have them in proofs alone.
    pub keeps: bool,
    /// The place of the next event of the history that the taker is to be given. None where it is given none.
    pub handed: Option<u64>,
}

/// Which entries and events a server keeps or hands on.
#[derive(Clone, Copy)]
pub struct Keeping {
    /// True where the reports of links have the entries of their turns at run time, too.
    pub entries: bool,
    /// The place of the first event of the history that the taker is to be given. None where it is given none.
    pub handed: Option<u64>,
}

/// A link that was accepted and isn't served, since there was no memory for it: its halves, which are shut, and its clock.
#[derive(Drop)]
pub struct LostLink<I, O, T> {
    /// Its source, of which no byte was taken.
    pub source: I,
    /// Its sink, to which no byte was written.
    pub sink: O,
    /// Its clock, which gave the moment of a Tick for which there was no memory, or none.
    pub clock: T,
}

/// Returns whether there is room for so many further items. It makes the room where there is memory.
fn has_room<X>(items: &mut Vec<X>, more: usize) -> bool
    ensures room { MatchBool result (vec_len items.new + more ≤ vec_capacity items.new) (Unit {0}) }
    ensures same { items.new.items ≡ items.old.items }
    ensures len { vec_len items.new ≡ vec_len items.old }
    ensures capacity { vec_capacity items.old ≤ vec_capacity items.new }
{
    match items.reserve(more) {
        Ok(()) => true,
        Err(_full) => false,
    }
}

/// Tells a hand what an answer tells as withdrawn.
fn tell_answer<H: Worker>(hand: &mut H, answer: &Result<Turn, Refused>)
    ensures seen { TellsMore (H.shown hand.old).seen
        (map unreferenced (gone_with (end_of answer.now))) (H.shown hand.new).seen }
    ensures state { LeadsStates H.moves (H.shown hand.old).state
        (map unreferenced (gone_with (end_of answer.now))) (H.shown hand.new).state }
    ensures calls { (H.shown hand.new).calls ≡ (H.shown hand.old).calls }
    ensures number { (H.shown hand.new).number ≡ (H.shown hand.old).number }
{
    match answer {
        Ok(turn) => notify_unreferenced(hand, turn.gone.as_slice()),
        Err(_refused) => (),
    }
}

/// The entry of a Tick that was made at this moment and answered so: none where there was no memory for the Tick.
fn tick_entry(moment: u64, answer: Result<Turn, Refused>) -> Option<Asked>
    ensures { option_to_list result ≡ entries_of moment Tick answer }
{
    match answer {
        Ok(turn) => Some(Asked {
            moment,
            ask: Ask::Tick,
            end: AskedEnd::Turned(turn),
        }),
        Err(Refused::OutOfMemory) => None,
        Err(refused) => Some(Asked {
            moment,
            ask: Ask::Tick,
            end: AskedEnd::Refused(refused),
        }),
    }
}

/// Makes a Tick at this moment, as connection 0, and tells the hand what is gone. Its entry is answered: none where there was no memory
/// for it.
fn tick_at<'s, R: Wait, H: Worker>(
    shared: &Shared<'s, R>,
    root: &mut Root,
    moment: u64,
    hand: &mut H,
) -> Option<Asked>
    requires own { IsRootOf shared.now.lock.now root.old }
    requires moment { moment < END_OF_TIME }
    ensures root { IsRootOf shared.now.lock.now root.new }
    ensures counts { (root.new.made ≡ root.old.made) × (root.new.out ≡ root.old.out) }
    ensures went { PassWent root.old.pass root.new.pass (option_to_list result) }
    ensures is_tick { IfSome result IsTick }
    ensures place { IfSome result (λ entry. IsTakenBelow (length (view_of root.new.pass).seen)
        entry.end) }
    ensures at_moment { IfSome result (λ entry. entry.moment ≡ moment) }

    // The hand is told what the Tick withdrew, and nothing where there is none.
    ensures seen { MatchOption result
        (TellsMore (H.shown hand.old).seen [] (H.shown hand.new).seen)
        (λ entry. TellsMore (H.shown hand.old).seen (told_of entry) (H.shown hand.new).seen) }
    ensures state { MatchOption result
        (LeadsStates H.moves (H.shown hand.old).state [] (H.shown hand.new).state)
        (λ entry. LeadsStates H.moves (H.shown hand.old).state (told_of entry)
        (H.shown hand.new).state) }
    ensures calls { (H.shown hand.new).calls ≡ (H.shown hand.old).calls }
    ensures number { (H.shown hand.new).number ≡ (H.shown hand.old).number }
{
    let (answer, _entries) = root.turn(shared.rt, shared.alloc, shared.lock, moment, Ask::Tick);
    tell_answer(hand, &answer);
    tick_entry(moment, answer)
}

/// The hand of a connection, and what the connection is told beforehand.
#[derive(Drop)]
struct HandAndSetup<H> {
    hand: H,
    setup: Setup,
}

/// The hand and the setup of connection `by`, which comes over this link.
fn hand_and_setup<G: Crew, I, O, T>(
    alloc: Global,
    crew: &G,
    plan: &ServePlan,
    by: u32,
    link: &Link<I, O, T>,
) -> Result<HandAndSetup<G::Hand>, AllocError>
    requires host { length (utf plan.now.host) ≤ MAX_HOST_BYTES }
    ensures calls { IfOk result (λ r. (G.Hand.shown r.hand).calls ≡ 0) }
    ensures untold { IfOk result (λ r. IsUntold (G.Hand.shown r.hand).seen) }
    ensures uncounted { IfOk result (λ r. IsUncounted (G.Hand.shown r.hand).state) }
    ensures number { IfOk result (λ r. (G.Hand.shown r.hand).number ≡ by) }
    ensures terms { IfOk result (λ r. (kinds : List Kind)
        → terms_of kinds r.setup ≡ link_terms kinds plan.now by link.now.host link.now.port) }
    ensures peer_host { IfOk result (λ r. length (utf r.setup.peer_host) ≤ MAX_HOST_BYTES) }
    ensures host { IfOk result (λ r. length (utf r.setup.host) ≤ MAX_HOST_BYTES) }
    ensures time { IfOk result (λ r. r.setup.draw.time <ℤ pos DRAWS_BEGIN_BELOW) }
    ensures drawn { IfOk result (λ r. r.setup.draw.drawn ≡ 0) }
{
    let setup = setup_for(alloc, plan, by, link)?;
    let hand = crew.hand(by)?;
    Ok(HandAndSetup { hand, setup })
}

/// Hands an entry on, if there is one.
fn hand_entry<R, C: ReportTaker<R>>(taker: &mut C, entry: Option<Asked>) -> Option<Snapshot<Asked>>
    requires { length (C.taken taker.old).ticks < (C.taken taker.old).tick_limit }
    ensures keeps { Keeps C.holds C.stays taker.old taker.new }
    ensures items { (C.taken taker.new).ticks
        ≡ (C.taken taker.old).ticks ++ option_to_list entry }
    ensures reports { SameReports C.taken C.expects taker.old taker.new }
    ensures events { (C.taken taker.new).events ≡ (C.taken taker.old).events }
    ensures known { MatchOption result (entry ≡ None) (λ known. entry ≡ Some known.value) }
{
    match entry {
        Some(entry) => {
            let known = Snapshot::of(&entry);
            taker.ticked(entry);
            Some(known)
        }
        None => None,
    }
}

/// The halves of a link that is not served, once they are shut, and its clock.
fn shut_link<I: Source, O: Sink, T: Clock>(
    mut source: I,
    mut sink: O,
    clock: T,
) -> LostLink<I, O, T>
    ensures source { ShutsRead (I.half source) (I.half result.source) }
    ensures sink { ShutsWrite (O.half sink) (O.half result.sink) }
    ensures clock { result.clock ≡ clock }
{
    source.shut();
    sink.shut();
    LostLink {
        source,
        sink,
        clock,
    }
}

/// The link, which is not served, once its halves are shut.
fn refuse<I: Source, O: Sink, T: Clock>(link: Link<I, O, T>) -> LostLink<I, O, T>
    requires { AreNewHalves (I.half link.source) (O.half link.sink) }
    ensures { IsLostLink I.half O.half T.given (accepted_as I.half O.half T.given link) result }
{
    let Link {
        source,
        sink,
        clock,
        host: _host,
        port: _port,
    } = link;
    shut_link(source, sink, clock)
}

impl<I: Source, O: Sink, T: Clock, H: Worker, C: ReportTaker<LinkReport<I, O, T, H>>> Acceptor<
    I,
    O,
    T,
    H,
    C,
> {
    /// It has admitted no link yet.
    pub fn new(alloc: Global, root: Root, taker: C, keeping: Keeping) -> Acceptor<I, O, T, H, C>
        ensures root { result.root ≡ root }
        ensures begun { result.begun ≡ 0 }
        ensures live { result.live.items ≡ [] }
        ensures all { result.all ≡ [] }
        ensures taker { result.taker ≡ taker }
        ensures keeps { result.keeps ≡ keeping.entries }
        ensures handed { result.handed ≡ keeping.handed }
    {
        Acceptor {
            root,
            begun: 0,
            live: Vec::new(alloc),
            all: Past::new(),
            taker,
            keeps: keeping.entries,
            handed: keeping.handed,
        }
    }

    /// Takes room for one more link, and says whether there was memory.
    fn with_room(&mut self) -> bool
        ensures keeps { Keeps C.holds C.stays self.old.taker self.new.taker }
        ensures same { IsSame C.taken C.expects self.old self.new }
        ensures room { MatchBool result (HasRoom C.taken self.new) (Unit {0}) }
    {
        if !has_room(&mut self.live, 1) {
            return false;
        }
        let count = self.live.len();
        self.taker.reserve(count + 1)
    }

    /// Makes a Tick at this moment, for whose entry there is room, and hands the entry on. None where there was no memory for the Tick.
    pub(crate) fn with_tick<'s, R: Wait>(
        &mut self,
        shared: &Shared<'s, R>,
        moment: u64,
        hand: &mut H,
    ) -> Option<Snapshot<Asked>>
        requires accepting { IsAccepting
            (TalksOver I.half O.half T.given H.shown H.may H.moves shared.now.book.now)
            (IsMadeFor I.half O.half T.given H.shown H.moves shared.now.plan.now)
            H.shown C.taken C.expects shared.now.lock.now shared.now.book.now self.old }
        requires room { length (C.taken self.old.taker).ticks
            < (C.taken self.old.taker).tick_limit }
        requires moment { moment < END_OF_TIME }
        ensures keeps { Keeps C.holds C.stays self.old.taker self.new.taker }
        ensures accepting { IsAccepting
            (TalksOver I.half O.half T.given H.shown H.may H.moves shared.now.book.now)
            (IsMadeFor I.half O.half T.given H.shown H.moves shared.now.plan.now)
            H.shown C.taken C.expects shared.now.lock.now shared.now.book.now self.new }
        ensures follows { Follows self.old self.new }
        ensures links { HasSameLinks C.taken self.old self.new }
        ensures ticks { MatchOption result
            ((C.taken self.new.taker).ticks ≡ (C.taken self.old.taker).ticks)
            (λ entry. (C.taken self.new.taker).ticks
            ≡ (C.taken self.old.taker).ticks ++ entry.value ∷ []) }
        ensures is_tick { IfSome result (λ entry. IsTick entry.value) }
        ensures place { IfSome result (λ entry. IsTakenBelow
            (length (view_of self.new.root.pass).seen) entry.value.end) }
        ensures at_moment { IfSome result (λ entry. entry.value.moment ≡ moment) }
        ensures seen { MatchOption result
            (TellsMore (H.shown hand.old).seen [] (H.shown hand.new).seen)
            (λ entry. TellsMore (H.shown hand.old).seen (told_of entry.value)
            (H.shown hand.new).seen) }
        ensures state { MatchOption result
            (LeadsStates H.moves (H.shown hand.old).state [] (H.shown hand.new).state)
            (λ entry. LeadsStates H.moves (H.shown hand.old).state (told_of entry.value)
            (H.shown hand.new).state) }
        ensures calls { (H.shown hand.new).calls ≡ (H.shown hand.old).calls }
        ensures number { (H.shown hand.new).number ≡ (H.shown hand.old).number }
    {
        let entry = tick_at(shared, &mut self.root, moment, hand);
        hand_entry(&mut self.taker, entry)
    }
}

impl<
    I: Source + Drop,
    O: Sink + Drop,
    T: Clock + Drop,
    H: Worker + Drop,
    C: ReportTaker<LinkReport<I, O, T, H>>,
> Acceptor<I, O, T, H, C> {
    /// Takes room for one more link and for its number once it ends, and makes what its connection begins with. None where there was no memory.
    fn reserve_link<'s, R: Wait, G: Crew<Hand = H>>(
        &mut self,
        shared: &Shared<'s, R>,
        crew: &G,
        link: &Link<I, O, T>,
    ) -> Option<HandAndSetup<H>>
        requires host { length (utf shared.now.plan.now.host) ≤ MAX_HOST_BYTES }
        requires few { self.old.begun < LAST_NUMBER }
        ensures keeps { Keeps C.holds C.stays self.old.taker self.new.taker }
        ensures same { IsSame C.taken C.expects self.old self.new }
        ensures room { IfSome result (λ r. HasRoom C.taken self.new) }
        ensures ready { IfSome result (λ r. IsHandFor H.shown shared.now.plan.now
            (self.old.begun + 1) link.now.host link.now.port r) }
    {
        if !self.with_room() {
            return None;
        }
        if !shared.ended.reserve(shared.rt, self.live.len()) {
            return None;
        }
        let by = self.begun + 1;
        match hand_and_setup(shared.alloc, crew, shared.plan, by, link) {
            Ok(ready) => Some(ready),
            Err(_full) => None,
        }
    }

    /// Makes a Tick before the link is served, and the admitted link; or the link itself, shut, where there was no memory for the Tick.
    fn prepare_link<'s, R: Wait>(
        &mut self,
        shared: &Shared<'s, R>,
        link: Link<I, O, T>,
        ready: HandAndSetup<H>,
    ) -> Result<AdmittedLink<I, O, T, H>, LostLink<I, O, T>>
        requires accepting { IsAccepting
            (TalksOver I.half O.half T.given H.shown H.may H.moves shared.now.book.now)
            (IsMadeFor I.half O.half T.given H.shown H.moves shared.now.plan.now)
            H.shown C.taken C.expects shared.now.lock.now shared.now.book.now self.old }
        requires few { self.old.begun < LAST_NUMBER }
        requires room { HasRoom C.taken self.old }
        requires halves { AreNewHalves (I.half link.source) (O.half link.sink) }
        requires ready { IsHandFor H.shown shared.now.plan.now (self.old.begun + 1) link.host
            link.port ready }
        ensures keeps { Keeps C.holds C.stays self.old.taker self.new.taker }
        ensures accepting { IsAccepting
            (TalksOver I.half O.half T.given H.shown H.may H.moves shared.now.book.now)
            (IsMadeFor I.half O.half T.given H.shown H.moves shared.now.plan.now)
            H.shown C.taken C.expects shared.now.lock.now shared.now.book.now self.new }
        ensures follows { Follows self.old self.new }
        ensures links { HasSameLinks C.taken self.old self.new }
        ensures ticks { IfOk result (λ admitted. (C.taken self.new.taker).ticks
            ≡ (C.taken self.old.taker).ticks ++ admitted.tick.value ∷ []) }
        ensures no_tick { OnErr result
            ((C.taken self.new.taker).ticks ≡ (C.taken self.old.taker).ticks) }
        ensures lost { IfErr result (λ lost. IsLostLink I.half O.half T.given
            (accepted_as I.half O.half T.given link) lost) }
        ensures first { IfOk result (λ admitted. admitted.first.value ≡ link) }
        ensures next { IfOk result (λ admitted. IsNext
            (TalksOver I.half O.half T.given H.shown H.may H.moves shared.now.book.now)
            (IsMadeFor I.half O.half T.given H.shown H.moves shared.now.plan.now)
            H.shown C.taken C.expects shared.now.lock.now shared.now.book.now self.new admitted) }
    {
        let first = Snapshot::of(&link);
        let Link {
            source,
            sink,
            mut clock,
            host,
            port,
        } = link;
        let peer = Peer { host, port };
        let HandAndSetup { mut hand, setup } = ready;
        let moment = clock.now();
        let entry = self.with_tick(shared, moment, &mut hand);
        let Some(tick) = entry else {
            return Err(shut_link(source, sink, clock));
        };
        Ok(AdmittedLink {
            source,
            sink,
            clock,
            peer,
            setup,
            hand,
            first,
            tick,
        })
    }

    /// Begins to serve the link as the next connection.
    fn start_link<'s, E, R: Threads + Wait + Sync>(
        &mut self,
        scope: &Scope<'s, E>,
        shared: &Shared<'s, R>,
        admitted: AdmittedLink<I, O, T, H>,
    )
    where
        I: Send + 's,
        O: Send + 's,
        T: Send + 's,
        H: Send + 's,
        requires { IsNext
            (TalksOver I.half O.half T.given H.shown H.may H.moves shared.now.book.now)
            (IsMadeFor I.half O.half T.given H.shown H.moves shared.now.plan.now)
            H.shown C.taken C.expects shared.now.lock.now shared.now.book.now self.old admitted }
        ensures keeps { Keeps C.holds C.stays self.old.taker self.new.taker }
        ensures accepting { IsAccepting
            (TalksOver I.half O.half T.given H.shown H.may H.moves shared.now.book.now)
            (IsMadeFor I.half O.half T.given H.shown H.moves shared.now.plan.now)
            H.shown C.taken C.expects shared.now.lock.now shared.now.book.now self.new }
        ensures follows { Follows self.old self.new }
        ensures ticks { (C.taken self.new.taker).ticks ≡ (C.taken self.old.taker).ticks }
        ensures links { shown_all I.half O.half T.given self.new.all
            ≡ shown_all I.half O.half T.given self.old.all ++ shown_admitted I.half O.half T.given
            admitted ∷ [] }
        ensures count { self.new.begun ≡ self.old.begun + 1 }
    {
        let by = self.begun + 1;
        let Ok(pass) = self.root.split(shared.lock) else {
            unreachable!()
        };
        let task = LinkTask {
            by,
            pass,
            keeps: self.keeps,
            admitted,
        };
        self.taker.began(by);
        let begun = start(scope, shared, task);
        self.begun = by;
        self.all.push(&begun);
        self.live.push_reserved(begun);
    }

    /// Makes a Tick, and begins to serve the link. Gives the link back, shut, where there was no memory for it.
    pub fn admit<'s, E, R: Threads + Wait + Sync, G: Crew<Hand = H>>(
        &mut self,
        scope: &Scope<'s, E>,
        shared: &Shared<'s, R>,
        crew: &G,
        link: Link<I, O, T>,
    ) -> Option<LostLink<I, O, T>>
    where
        I: Send + 's,
        O: Send + 's,
        T: Send + 's,
        H: Send + 's,
        requires host { length (utf shared.now.plan.now.host) ≤ MAX_HOST_BYTES }
        requires accepting { IsAccepting
            (TalksOver I.half O.half T.given H.shown H.may H.moves shared.now.book.now)
            (IsMadeFor I.half O.half T.given H.shown H.moves shared.now.plan.now)
            H.shown C.taken C.expects shared.now.lock.now shared.now.book.now self.old }
        requires few { self.old.begun < LAST_NUMBER }
        requires halves { AreNewHalves (I.half link.source) (O.half link.sink) }
        ensures keeps { Keeps C.holds C.stays self.old.taker self.new.taker }
        ensures accepting { IsAccepting
            (TalksOver I.half O.half T.given H.shown H.may H.moves shared.now.book.now)
            (IsMadeFor I.half O.half T.given H.shown H.moves shared.now.plan.now)
            H.shown C.taken C.expects shared.now.lock.now shared.now.book.now self.new }
        ensures follows { Follows self.old self.new }
        ensures tied { MatchOption result
            (TicksOn (C.taken self.old.taker).ticks (C.taken self.new.taker).ticks
            (ticks_of (shown_all I.half O.half T.given self.old.all))
            (ticks_of (shown_all I.half O.half T.given self.new.all)))
            (λ lost. ((C.taken self.new.taker).ticks ≡ (C.taken self.old.taker).ticks)
            × (ticks_of (shown_all I.half O.half T.given self.new.all)
            ≡ ticks_of (shown_all I.half O.half T.given self.old.all))) }
        ensures links { MatchOption result
            (links_of (shown_all I.half O.half T.given self.new.all) ≡ links_of
            (shown_all I.half O.half T.given self.old.all) ++ accepted_as I.half O.half T.given link
            ∷ [])
            (λ lost. links_of (shown_all I.half O.half T.given self.new.all) ≡ links_of
            (shown_all I.half O.half T.given self.old.all)) }
        ensures count { MatchOption result (self.new.begun ≡ self.old.begun + 1)
            (λ lost. self.new.begun ≡ self.old.begun) }
        ensures lost { IfSome result (λ lost. IsLostLink I.half O.half T.given
            (accepted_as I.half O.half T.given link) lost) }
    {
        let ready = self.reserve_link(shared, crew, &link);
        let Some(ready) = ready else {
            return Some(refuse(link));
        };
        match self.prepare_link(shared, link, ready) {
            Ok(admitted) => {
                self.start_link(scope, shared, admitted);
                None
            }
            Err(lost) => Some(lost),
        }
    }
}
