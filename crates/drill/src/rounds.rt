//! The rounds of a drill.
ghost use Rattle.std.specs.Prelude.{◌≡◌, ◌+◌, ◌<◌, ◌^◌, pos, ◌-ℤ◌, ◌∷◌, ◌++◌, [], map, IfOk, OnOk};
ghost use Rattle.std.specs.List.{AllByRecursion};
ghost use Rattle.history.specs.declared.asks.Ask.TheVariants.{Begin, Finish, Dirty, Clean};
ghost use Rattle.history.specs.declared.limits.TheConstants.{END_OF_TIME};
ghost use Rattle.drill.specs.Rounds.{uid_at, object_at, drill_config, opening, client_in, object_in, made_count_after, asks_by, event_asking, start, after_round, events_in};

use crate::generator::{Choice, Draws, draws_after};
use history::{Ask, Event, SpaceConfig};
use object_ids::{ObjId, ObjIds, Uid, Vmid};
use sequence::{ByteList, Kinds};
use std::alloc::{AllocError, Global};
use std::marker::Model;

/// The identifier of the space, and with other numbers in the place of its time those of clients and of returns.
fn uid_at(time: i64) -> Uid
    ensures { result ≡ uid_at time }
{
    Uid {
        unique: 0,
        time,
        count: 0,
    }
}

/// Returns the configuration of a drill's space: leases of ten minutes, and five minutes for an acknowledgement.
pub fn drill_config() -> SpaceConfig
    ensures { result ≡ drill_config }
{
    SpaceConfig {
        lease_ms: 600000,
        ack_ms: 300000,
        uid: uid_at(0),
        stored: true,
    }
}

fn object_at(number: u64) -> ObjId
    requires { number < 2 ^ 62 }
    ensures { result ≡ object_at number }
{
    ObjId {
        number: number as i64,
        space: uid_at(0),
    }
}

/// A client: one of eight, which take turns of 512 rounds each, and overlap.
fn client_in(alloc: Global, round: u64, drawn: u64) -> Result<Vmid, AllocError>
    requires drawn { drawn < 2 ^ 31 }
    requires round { round < 2 ^ 33 }
    ensures { IfOk result (λ client. client ≡ client_in round drawn) }
{
    let number = (round / 512 + drawn % 2) % 8;
    let addr = ByteList::from_slice(alloc, &[number as u8])?;
    match Vmid::new(addr, uid_at(0)) {
        Some(client) => Ok(client),
        None => unreachable!(),
    }
}

/// One of the last eight objects that were made; the first, where none was.
fn object_in(made: u64, drawn: u64) -> ObjId
    requires { made < 2 ^ 34 }
    ensures { result ≡ object_in made drawn }
{
    if made == 0 {
        object_at(17)
    } else {
        object_at(16 + made - drawn % made.min(8))
    }
}

/// A list of this object alone.
fn only(alloc: Global, object: ObjId) -> Result<ObjIds, AllocError>
    ensures { IfOk result (λ objects. objects ≡ object ∷ []) }
{
    ObjIds::from_slice(alloc, &[object])
}

/// So much less than a round's number.
fn late_by(round: u64, back: u64) -> i64
    requires round { round < 2 ^ 33 }
    requires back { back < 2 ^ 31 }
    ensures { result ≡ pos round -ℤ pos back }
{
    round as i64 - back as i64
}

/// Adds what connection 1 asks at a moment. A refusal, for want of memory, leaves the events as they were.
fn put(events: &mut Vec<Event>, moment: u64, ask: Ask) -> Result<(), AllocError>
    ensures put { OnOk result
        (events.new.items ≡ events.old.items ++ event_asking moment ask ∷ []) }
{
    events.push(Event { by: 1, moment, ask })?;
    Ok(())
}

/// Adds a call of the first object that makes another one.
fn put_make(
    alloc: Global,
    events: &mut Vec<Event>,
    moment: u64,
    round: u64,
) -> Result<(), AllocError>
    requires { round < 2 ^ 33 }
    ensures { OnOk result
        (events.new.items
        ≡ events.old.items
        ++ event_asking moment (Begin (object_at 16))
        ∷ event_asking moment (Finish (object_at 16) (1 ∷ []) [] (uid_at (pos round))) ∷ []) }
{
    let object = object_at(16);
    let made = Kinds::from_slice(alloc, &[1])?;
    put(events, moment, Ask::Begin { object })?;
    let ask = Ask::Finish {
        object,
        made,
        listed: ObjIds::new(alloc),
        uid: uid_at(round as i64),
    };
    put(events, moment, ask)
}

/// Adds a dirty call of a round's client that names some objects, and asks for a lease of ten minutes.
fn put_dirty(
    alloc: Global,
    events: &mut Vec<Event>,
    moment: u64,
    round: u64,
    drawn: u64,
    number: i64,
    objects: ObjIds,
) -> Result<(), AllocError>
    requires drawn { drawn < 2 ^ 31 }
    requires round { round < 2 ^ 33 }
    ensures { OnOk result
        (events.new.items
        ≡ events.old.items
        ++ event_asking moment (Dirty (client_in round drawn) number (pos 600000) objects) ∷ []) }
{
    let client = client_in(alloc, round, drawn)?;
    let ask = Ask::Dirty {
        client,
        number,
        asked: 600000,
        objects,
    };
    put(events, moment, ask)
}

/// Adds a clean call of a round's client that names some objects.
fn put_clean(
    alloc: Global,
    events: &mut Vec<Event>,
    moment: u64,
    round: u64,
    drawn: u64,
    number: i64,
    objects: ObjIds,
    strong: bool,
) -> Result<(), AllocError>
    requires drawn { drawn < 2 ^ 31 }
    requires round { round < 2 ^ 33 }
    ensures { OnOk result
        (events.new.items
        ≡ events.old.items
        ++ event_asking moment (Clean (client_in round drawn) number objects strong) ∷ []) }
{
    let client = client_in(alloc, round, drawn)?;
    let ask = Ask::Clean {
        client,
        number,
        objects,
        strong,
    };
    put(events, moment, ask)
}

/// Adds the events of a round of these draws, where so many objects were made.
fn put_round(
    alloc: Global,
    events: &mut Vec<Event>,
    moment: u64,
    round: u64,
    made: u64,
    draws: &Draws,
) -> Result<(), AllocError>
    requires round { round < 2 ^ 33 }
    requires made { made < 2 ^ 34 }
    requires client { draws.now.client < 2 ^ 31 }
    requires late { draws.now.late < 2 ^ 31 }
    ensures { OnOk result
        (events.new.items
        ≡ events.old.items
        ++ map (event_asking moment) (asks_by round made draws.now draws.now.choice)) }
{
    let number = round as i64;
    let client = draws.client;
    let objects = only(alloc, object_in(made, draws.object))?;
    match draws.choice {
        Choice::Make => put_make(alloc, events, moment, round),
        Choice::Hold => put_dirty(alloc, events, moment, round, client, number, objects),
        Choice::GiveUp => put_clean(alloc, events, moment, round, client, number, objects, false),
        Choice::GiveUpStrongly => {
            let number = late_by(round, draws.late % 4);
            put_clean(alloc, events, moment, round, client, number, objects, true)
        }
        Choice::Renew => {
            put_dirty(
                alloc,
                events,
                moment,
                round,
                client,
                number,
                ObjIds::new(alloc),
            )
        }
        Choice::Acknowledge => {
            let uid = uid_at((draws.late % (round + 1)) as i64);
            put(events, moment, Ask::Ack { uid })
        }
        Choice::HoldLate => {
            let number = late_by(round, draws.late % 16);
            put_dirty(alloc, events, moment, round, client, number, objects)
        }
        Choice::Pass => put(events, moment, Ask::Tick),
    }
}

/// Returns the number of objects that were made after a round.
fn made_count_after(made: u64, choice: Choice) -> u64
    requires { made < 2 ^ 34 }
    ensures { result ≡ made_count_after made choice }
{
    match choice {
        Choice::Make => made + 1,
        _ => made,
    }
}

/// A drill: it makes the events of one round after another. Contracts see which round comes next, and how far the drill has come.
#[derive(Debug, Drop)]
pub struct Drill {
    round: u64,
    state: u64,
    moment: u64,
    made: u64,
}

impl Model for Drill {
    ghost use Rattle.std.specs.Prelude.{◌≤◌, ◌*◌};
    ghost use Rattle.drill.specs.Rounds.{RoundToCome};

    ghost Value = { RoundToCome };

    ghost view = { λ d. record
        { round = d.round; stand = record { state = d.state; moment = d.moment; made = d.made } } };

    ghost invariant = { λ d. (d.moment ≤ 5999 * d.round) × (d.made ≤ d.round) };
}

impl Drill {
    /// A drill of this seed, before its first round.
    pub fn new(seed: u64) -> Drill
        ensures { result ≡ record { round = 0; stand = start seed } }
    {
        Drill {
            round: 0,
            state: seed,
            moment: 0,
            made: 0,
        }
    }

    /// The first event of every drill, which comes before the rounds: an object is exported, and kept.
    pub fn opening() -> Event
        ensures { result ≡ opening }
    {
        Event {
            by: 0,
            moment: 0,
            ask: Ask::Open {
                kind: 2,
                pinned: true,
            },
        }
    }

    /// The events of the next round, of which there are one or two. It is refused only for want of memory.
    #[tactic(auto, unfolding(crate::specs::Rounds::events_in))]
    pub fn round(&mut self, alloc: Global) -> Result<Vec<Event>, AllocError>
        requires { self.old.round < 2 ^ 32 }
        ensures events { IfOk result
            (λ events. events.items ≡ events_in self.old.round self.old.stand) }
        ensures moments { IfOk result
            (λ events. AllByRecursion (λ e. e.moment < END_OF_TIME) events.items) }
        ensures next { OnOk result
            (self.new ≡ record { round = self.old.round + 1; stand = after_round self.old.stand }) }
    {
        let draws = draws_after(self.state);
        let moment = self.moment + (1 + draws.steps % 5999);
        let mut events = Vec::new(alloc);
        put_round(alloc, &mut events, moment, self.round, self.made, &draws)?;
        self.round += 1;
        self.state = draws.state;
        self.moment = moment;
        self.made = made_count_after(self.made, draws.choice);
        Ok(events)
    }
}
