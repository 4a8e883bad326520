//! The content of a lock's slot: the space, and the recent events where the lock keeps them.
ghost use Rattle.std.specs.Prelude.{◌≡◌, ◌≢◌, ◌⊎◌, ◌≤◌, ◌<◌, ◌∷◌, ◌++◌, [], true, false, length, vec_capacity, Err, Ok, Some, IfOk, IfSome, MatchResult, OnOk, OnErr};
ghost use Rattle.history.specs.declared.asks.Ask.TheVariants.{Abandon};
ghost use Rattle.history.specs.Collector.{Collects};
ghost use Rattle.history.specs.Running.{running_calls_by};
ghost use Rattle.history.specs.Steps.{IsLegal, Step, turn_of};
ghost use Rattle.history.specs.Table.{places, table, with_event};
ghost use Rattle.history.specs.declared.limits.TheConstants.{END_OF_TIME};
ghost use Rattle.space.specs.Acts.{event_of};
ghost use Rattle.space.specs.Entries.{entry_of};
ghost use Rattle.space.specs.Idle.{SomethingEnds, TickChangesNothing, untold_of};
ghost use Rattle.space.specs.TurnAnswers.{IsAnswerTo};
ghost use Rattle.turn_lock.specs.Kept.{KeepsRecent};
ghost use Rattle.turn_lock.specs.Recent.{IsRest};

use crate::recent::Recent;
use history::{Ask, Event, EventList, Refused, Turn};
use object_ids::ObjId;
use space::{Asked, Space};
use std::alloc::{AllocError, AllocFailed, Global};
use std::marker::Model;
use std::snapshot::Snapshot;

/// A space, with its recent events where they are kept. Contracts see it as the space.
pub struct Desk {
    space: Space,
    recent: Option<Recent>,
}

// Written out, so that whoever owns one has one call at each exit, and not the drop of each field.
impl Drop for Desk {
    fn drop(self) {
        let Desk { space, recent } = self;
        drop(space);
        drop(recent);
    }
}

impl Model for Desk {
    ghost use Rattle.space.specs.Built.{SpaceHistory};
    ghost use Rattle.turn_lock.specs.Kept.{KeepsRecent};

    ghost Value = { SpaceHistory };

    ghost view = { λ d. d.space };

    ghost invariant = { λ d. KeepsRecent d.space.events d.recent };
}

/// A desk in a box, so that one pointer moves from a thread to the next one. Contracts see it as the space.
#[derive(Drop)]
pub struct DeskBox {
    /// The desk.
    pub(crate) kept: Box<Desk>,
}

impl Model for DeskBox {
    ghost use Rattle.std.specs.Box.{box_value};
    ghost use Rattle.space.specs.Built.{SpaceHistory};

    ghost Value = { SpaceHistory };

    ghost view = { λ b. box_value b.kept };
}

impl DeskBox {
    /// Puts a space into a box, without its recent events, or with those from here on. If there is no memory, the space comes back.
    pub(crate) fn new(alloc: Global, space: Space, records: bool) -> Result<DeskBox, Space>
        ensures { MatchResult result (λ b. b ≡ space) (λ s. s ≡ space) }
    {
        match Box::new(alloc, Desk::new(alloc, space, records)) {
            Ok(kept) => Ok(DeskBox { kept }),
            Err(failed) => {
                let AllocFailed { value } = failed;
                Err(value.into_space())
            }
        }
    }

    /// The space.
    pub(crate) fn into_space(self) -> Space
        ensures { result ≡ self }
    {
        let DeskBox { kept } = self;
        Box::into_inner(kept).into_space()
    }

    /// The space, with the events from this place on, where they are kept from there.
    pub(crate) fn into_parts(self, from: u64) -> (Space, Option<EventList>)
        ensures space { result.0 ≡ self }
        ensures recent { IfSome result.1 (λ part. IsRest from self.events part) }
    {
        let DeskBox { kept } = self;
        Box::into_inner(kept).into_parts(from)
    }

    /// The space as it is now, for proofs.
    pub(crate) fn snapshot(&self) -> Snapshot<Space>
        ensures { result.value ≡ self.now }
    {
        Snapshot::of(&self.kept.space)
    }

    /// Returns the number of events, as `Space::len` does.
    pub(crate) fn len(&self) -> u64
        ensures value { result ≡ length self.now.events }
        ensures legal { IsLegal self.now.configuration self.now.events }
        ensures rows { self.now.rows
            ≡ table self.now.configuration (places self.now.configuration self.now.events) }
    {
        self.kept.space.len()
    }
}

impl Desk {
    fn new(alloc: Global, space: Space, records: bool) -> Desk
        ensures { result ≡ space }
    {
        let from = space.len();
        let recent = if records {
            Some(Recent::new(alloc, from))
        } else {
            None
        };
        Desk { space, recent }
    }

    fn into_space(self) -> Space
        ensures { result ≡ self }
    {
        let Desk { space, recent } = self;
        drop(recent);
        space
    }

    fn into_parts(self, from: u64) -> (Space, Option<EventList>)
        ensures space { result.0 ≡ self }
        ensures recent { IfSome result.1 (λ part. IsRest from self.events part) }
    {
        let Desk { space, recent } = self;
        let part = match recent {
            Some(recent) => recent.into_part(from),
            None => None,
        };
        (space, part)
    }

    /// Does what `Space::turn` does. Where events are kept, and there is no memory for this one, it is refused before it is taken.
    pub(crate) fn turn(&mut self, by: u32, moment: u64, ask: Ask) -> Result<Turn, Refused>
        requires moment { moment < END_OF_TIME }
        ensures step { Step self.old.configuration self.old.events (event_of by moment ask) result
            self.new.events }
        ensures collector { OnOk result
            (Collects self.old.configuration self.old.events self.old.rows (event_of by moment ask)
            self.new.events self.new.rows) }
        ensures config { self.new.configuration ≡ self.old.configuration }
        ensures err { OnErr result (self.new ≡ self.old) }
        ensures row { IsAnswerTo
            (λ o. 0 < running_calls_by (places self.old.configuration self.old.events) by o) ask
            result }
    {
        match &mut self.recent {
            Some(recent) => turn_kept(&mut self.space, recent, by, moment, ask),
            None => self.space.turn(by, moment, ask),
        }
    }

    /// Does what `Space::turn_noted` does. Where events are kept, and there is no memory for this one, it is refused before it is taken.
    pub(crate) fn turn_noted(
        &mut self,
        by: u32,
        moment: u64,
        ask: Ask,
    ) -> Result<(Result<Turn, Refused>, Asked), AllocError>
        requires moment { moment < END_OF_TIME }
        ensures step { IfOk result (λ x. Step self.old.configuration self.old.events
            (event_of by moment ask) x.0 self.new.events) }
        ensures collector { IfOk result (λ x. OnOk x.0
            (Collects self.old.configuration self.old.events self.old.rows (event_of by moment ask)
            self.new.events self.new.rows)) }
        ensures noted { IfOk result (λ x. x.1 ≡ entry_of moment ask x.0) }
        ensures row { IfOk result (λ x. IsAnswerTo
            (λ o. 0 < running_calls_by (places self.old.configuration self.old.events) by o) ask
            x.0) }
        ensures known { IfOk result (λ x. x.0 ≢ Err Refused.OutOfMemory) }
        ensures refused { IfOk result (λ x. OnErr x.0 (self.new ≡ self.old)) }
        ensures config { self.new.configuration ≡ self.old.configuration }
        ensures err { OnErr result (self.new ≡ self.old) }
    {
        match &mut self.recent {
            Some(recent) => turn_noted_kept(&mut self.space, recent, by, moment, ask),
            None => self.space.turn_noted(by, moment, ask),
        }
    }

    /// Does what `Space::abandon` does. Where there is no room for the event among the kept ones, no events are kept any more.
    pub(crate) fn abandon(&mut self, by: u32, moment: u64, object: ObjId)
        requires moment { moment < END_OF_TIME }
        requires running { 0 < running_calls_by (places self.old.configuration self.old.events) by
            object }
        ensures events { self.new.events
            ≡ with_event self.old.events (event_of by moment (Abandon object)) }
        ensures config { self.new.configuration ≡ self.old.configuration }
        ensures collector { Collects self.old.configuration self.old.events self.old.rows
            (event_of by moment (Abandon object)) self.new.events self.new.rows }
        ensures step { let e = event_of by moment (Abandon object) in
            Step self.old.configuration self.old.events e
            (Ok (turn_of self.old.configuration self.old.events e)) self.new.events }
    {
        abandon_kept(&mut self.space, &mut self.recent, by, moment, object);
    }

    /// Returns whether a Tick at this moment would end a lease or a wait, or report objects as gone.
    pub(crate) fn wants_tick(&self, moment: u64) -> bool
        ensures due { result ≡ true → SomethingEnds self.now.configuration self.now.events moment
            ⊎ (0 < length (untold_of self.now.configuration self.now.events)) }
        ensures change { result ≡ false
            → TickChangesNothing self.now.configuration self.now.events moment }
        ensures reported { result ≡ false → untold_of self.now.configuration self.now.events ≡ [] }
    {
        self.space.has_ended(moment) || self.space.has_untold()
    }

    /// Hands out the events from this place on, and forgets them. The space is as it was. It returns None if they aren't kept from this place on,
    /// or if there is no memory. Then none is forgotten.
    pub(crate) fn take_recent(&mut self, from: u64) -> Option<EventList>
        ensures same { self.new ≡ self.old }
        ensures recent { IfSome result (λ part. IsRest from self.old.events part) }
    {
        let end = self.space.len();
        match &mut self.recent {
            Some(recent) => recent.take(from, end),
            None => None,
        }
    }
}

/// Does what `Space::turn` does, and keeps the event where it was taken. Where there is no memory for it, it is refused before it is taken.
fn turn_kept(
    space: &mut Space,
    recent: &mut Recent,
    by: u32,
    moment: u64,
    ask: Ask,
) -> Result<Turn, Refused>
    requires kept { IsRest recent.old.from space.old.events recent.old.events.items }
    requires moment { moment < END_OF_TIME }
    ensures kept { IsRest recent.new.from space.new.events recent.new.events.items }
    ensures step { Step space.old.configuration space.old.events (event_of by moment ask) result
        space.new.events }
    ensures collector { OnOk result
        (Collects space.old.configuration space.old.events space.old.rows (event_of by moment ask)
        space.new.events space.new.rows) }
    ensures config { space.new.configuration ≡ space.old.configuration }
    ensures err { OnErr result (space.new ≡ space.old) }
    ensures row { IsAnswerTo
        (λ o. 0 < running_calls_by (places space.old.configuration space.old.events) by o) ask
        result }
{
    match recent.prepare(by, moment, &ask) {
        Ok(event) => {
            let answer = space.turn(by, moment, ask);
            recent.put_answered(event, &answer);
            answer
        }
        Err(_refused) => {
            // By hand, so that it is dropped in one call and not field by field.
            drop(ask);
            Err(Refused::OutOfMemory)
        }
    }
}

/// Does what `Space::turn_noted` does, and keeps the event where it was taken. Where there is no memory for it, it is refused before it is taken.
fn turn_noted_kept(
    space: &mut Space,
    recent: &mut Recent,
    by: u32,
    moment: u64,
    ask: Ask,
) -> Result<(Result<Turn, Refused>, Asked), AllocError>
    requires kept { IsRest recent.old.from space.old.events recent.old.events.items }
    requires moment { moment < END_OF_TIME }
    ensures kept { IsRest recent.new.from space.new.events recent.new.events.items }
    ensures step { IfOk result (λ x. Step space.old.configuration space.old.events
        (event_of by moment ask) x.0 space.new.events) }
    ensures collector { IfOk result (λ x. OnOk x.0
        (Collects space.old.configuration space.old.events space.old.rows (event_of by moment ask)
        space.new.events space.new.rows)) }
    ensures noted { IfOk result (λ x. x.1 ≡ entry_of moment ask x.0) }
    ensures row { IfOk result (λ x. IsAnswerTo
        (λ o. 0 < running_calls_by (places space.old.configuration space.old.events) by o) ask
        x.0) }
    ensures known { IfOk result (λ x. x.0 ≢ Err Refused.OutOfMemory) }
    ensures refused { IfOk result (λ x. OnErr x.0 (space.new ≡ space.old)) }
    ensures config { space.new.configuration ≡ space.old.configuration }
    ensures err { OnErr result (space.new ≡ space.old) }
{
    match recent.prepare(by, moment, &ask) {
        Ok(event) => {
            let noted = space.turn_noted(by, moment, ask);
            recent.put_noted(event, &noted);
            noted
        }
        Err(refused) => {
            // By hand, so that it is dropped in one call and not field by field.
            drop(ask);
            Err(refused)
        }
    }
}

/// Does what `Space::abandon` does, and keeps the event where there is room for it. Where there is none, no events are kept any more.
fn abandon_kept(space: &mut Space, recent: &mut Option<Recent>, by: u32, moment: u64, object: ObjId)
    requires kept { KeepsRecent space.old.events recent.old }
    requires moment { moment < END_OF_TIME }
    requires running { 0 < running_calls_by (places space.old.configuration space.old.events) by
        object }
    ensures kept { KeepsRecent space.new.events recent.new }
    ensures events { space.new.events
        ≡ with_event space.old.events (event_of by moment (Abandon object)) }
    ensures config { space.new.configuration ≡ space.old.configuration }
    ensures collector { Collects space.old.configuration space.old.events space.old.rows
        (event_of by moment (Abandon object)) space.new.events space.new.rows }
    ensures step { let e = event_of by moment (Abandon object) in
        Step space.old.configuration space.old.events e
        (Ok (turn_of space.old.configuration space.old.events e)) space.new.events }
{
    space.abandon(by, moment, object);
    let ask = Ask::Abandon { object };
    let kept = match recent {
        Some(recent) => recent.put_end(Event { by, moment, ask }),
        None => true,
    };
    if !kept {
        *recent = None;
    }
}
