//! Events as a log keeps them.
ghost use Rattle.std.specs.Prelude.{◌≡◌, ◌↔◌, ◌<◌, ◌+◌, ℕ, List, [], ◌∷◌, ◌++◌, length, slice_get, Some, is_some, true, option_copied, IsTrue, IsSome, IfSome, IfOk, vec_capacity};
ghost use Rattle.history.specs.declared.asks.Ask.TheVariants.{Finish as FinishAsk, Dirty as DirtyAsk, Clean as CleanAsk, Lookup as LookupAsk};
ghost use Rattle.object_ids.specs.Client.{Client};
ghost use Rattle.event_log.specs.Rows.{IsPlain, IsOfFew, IsAmong, IsBare, IsKnown, IsLeaseCall, client_at, client_of, event_of, event_with, name_looked_up, name_at, objects_of};
ghost use Rattle.event_log.specs.Views.{event_viewed};

use crate::numbered::{Clients, Names};
use crate::view::EventView;
use history::{Ask, Event, Name};
use object_ids::{ObjId, ObjIds, Uid, Vmid};
use sequence::{Kinds, Same};
use std::alloc::{AllocError, Global};

/// The content of a row beside its connection and its moment.
#[derive(Drop)]
pub enum What {
    /// An Open.
    Opens {
        kind: u32,
        pinned: bool,
    },
    /// A Begin.
    Begins {
        object: ObjId,
    },
    /// A Finish that makes and lists nothing, of the log's own object of this number.
    Finishes {
        number: i64,
        uid: Uid,
    },
    /// An Abandon.
    Abandons {
        object: ObjId,
    },
    /// An Ack.
    Acks {
        uid: Uid,
    },
    /// A Dirty of the log's own object of this number, by the client of that number.
    Dirties {
        client: u32,
        number: i64,
        asked: i64,
        object: i64,
    },
    /// A Dirty without objects, by the client of that number.
    Renews {
        client: u32,
        number: i64,
        asked: i64,
    },
    /// A Clean of the log's own object of this number, by the client of that number.
    Cleans {
        client: u32,
        strong: bool,
        number: i64,
        object: i64,
    },
    /// A Clean without objects, by the client of that number.
    CleansNothing {
        client: u32,
        strong: bool,
        number: i64,
    },
    /// A Lookup of the name of that number.
    LooksUp {
        name: u32,
        uid: Uid,
    },
    /// A List.
    ListsNames,
    /// A Tick.
    Ticks,
    /// Any other event, whole. Its own connection and moment count, not those of the row.
    Whole(Box<Event>),
}

/// An event as a log keeps it.
#[derive(Drop)]
pub struct Row {
    /// The event's moment, in milliseconds.
    pub moment: u64,
    /// The number of the connection that asks.
    pub by: u32,
    /// The rest of the event.
    pub what: What,
}

// A row takes no more than 48 bytes.
const _: () = prove!(size_of::<Row>() <= 48);

/// Returns whether a request in a space is kept in its row alone.
pub(crate) fn is_plain(space: &Uid, ask: &Ask) -> bool
    ensures { IsTrue result ↔ IsPlain space.now ask.now }
{
    match ask {
        Ask::Finish {
            object,
            made,
            listed,
            uid: _,
        } => made.is_empty() && listed.is_empty() && object.space.is_same(space),
        Ask::Dirty { .. }
        | Ask::Clean { .. }
        | Ask::Bind { .. }
        | Ask::Rebind { .. }
        | Ask::Unbind { .. }
        | Ask::Lookup { .. } => false,
        Ask::Open { .. }
        | Ask::Begin { .. }
        | Ask::Abandon { .. }
        | Ask::Ack { .. }
        | Ask::List
        | Ask::Tick => true,
    }
}

/// Returns the content of the row of a request that is kept in its row alone.
fn plain_what(space: &Uid, ask: &Ask) -> What
    requires { IsPlain space.now ask.now }
    ensures row { (clients : List Client) → (names : List (List ℕ)) → (by moment : ℕ)
        → event_with space.now clients names by moment result
        ≡ record { by = by; moment = moment; ask = ask.now } }
    ensures known { (clients names : ℕ) → IsAmong clients names result }
{
    match ask {
        Ask::Open { kind, pinned } => What::Opens {
            kind: *kind,
            pinned: *pinned,
        },
        Ask::Begin { object } => What::Begins { object: *object },
        Ask::Finish {
            object,
            made: _,
            listed: _,
            uid,
        } => What::Finishes {
            number: object.number,
            uid: *uid,
        },
        Ask::Abandon { object } => What::Abandons { object: *object },
        Ask::Ack { uid } => What::Acks { uid: *uid },
        Ask::List => What::ListsNames,
        // a Tick: no other ask is plain
        _ => What::Ticks,
    }
}

/// The row of an event that is kept in it alone.
pub(crate) fn plain_row(space: &Uid, event: Event) -> Row
    requires { IsPlain space.now event.ask }
    ensures row { (clients : List Client) → (names : List (List ℕ))
        → event_of space.now clients names result ≡ event }
    ensures known { (clients names : ℕ) → IsKnown clients names result }
{
    Row {
        moment: event.moment,
        by: event.by,
        what: plain_what(space, &event.ask),
    }
}

/// The number of the object of a Dirty or a Clean of none or one of the space's own objects, if it has one; None for any other ask.
fn few_objects(space: &Uid, ask: &Ask) -> Option<Option<i64>>
    ensures call { IfSome result (λ object. IsOfFew space.now object ask.now) }
    ensures caller { IfSome result (λ object. IsSome (client_of ask.now)) }
{
    match ask {
        Ask::Dirty { objects, .. } => none_or_own(space, objects),
        Ask::Clean { objects, .. } => none_or_own(space, objects),
        _ => None,
    }
}

/// The number of a list's object, if it has one, where it has no more than one and that of the space; None for any other list.
fn none_or_own(space: &Uid, objects: &ObjIds) -> Option<Option<i64>>
    ensures { IfSome result (λ object. objects.now ≡ objects_of space.now object) }
{
    if objects.is_empty() {
        return Some(None);
    }
    match own_object(space, objects) {
        Some(object) => Some(Some(object)),
        None => None,
    }
}

/// The number of a list's only object, where it is of the space; None for any other list.
fn own_object(space: &Uid, objects: &ObjIds) -> Option<i64>
    ensures { IfSome result
        (λ object. objects.now ≡ record { number = object; space = space.now } ∷ []) }
{
    if objects.len() == 1 && objects[0].space.is_same(space) {
        Some(objects[0].number)
    } else {
        None
    }
}

/// The client whose call of the collector it is; None for any other ask.
fn client_of(ask: &Ask) -> Option<&Vmid>
    ensures { option_copied result ≡ client_of ask.now }
{
    match ask {
        Ask::Dirty { client, .. } => Some(client),
        Ask::Clean { client, .. } => Some(client),
        _ => None,
    }
}

/// The client whose call of the collector it is, moved out of the ask.
fn client_in(ask: Ask) -> Option<Vmid>
    ensures { result ≡ client_of ask }
{
    match ask {
        Ask::Dirty { client, .. } => Some(client),
        Ask::Clean { client, .. } => Some(client),
        _ => None,
    }
}

/// A number of the client whose call it is, if one is found.
fn number_of_client(clients: &Clients, ask: &Ask) -> Option<u32>
    ensures { IfSome result
        (λ number. slice_get clients.now.list.items number ≡ client_of ask.now) }
{
    match client_of(ask) {
        Some(client) => clients.find(client),
        None => None,
    }
}

/// Returns the content of the row of a Dirty. It names the space's object of the number `object`, or none. Its client has
/// the number `client`.
fn dirty_what(client: u32, number: i64, asked: i64, object: Option<i64>) -> What
    ensures row { (space : Uid) → (clients : List Client) → (names : List (List ℕ))
        → (by moment : ℕ)
        → event_with space clients names by moment result
        ≡ record {
          by = by;
          moment = moment;
          ask = DirtyAsk (client_at clients client) number asked (objects_of space object);
        } }
    ensures known { (clients names : ℕ) → client < clients → IsAmong clients names result }
{
    match object {
        Some(object) => What::Dirties {
            client,
            number,
            asked,
            object,
        },
        None => What::Renews {
            client,
            number,
            asked,
        },
    }
}

/// Returns the content of the row of a Clean. It names the space's object of the number `object`, or none. Its client has
/// the number `client`.
fn clean_what(client: u32, number: i64, strong: bool, object: Option<i64>) -> What
    ensures row { (space : Uid) → (clients : List Client) → (names : List (List ℕ))
        → (by moment : ℕ)
        → event_with space clients names by moment result
        ≡ record {
          by = by;
          moment = moment;
          ask = CleanAsk (client_at clients client) number (objects_of space object) strong;
        } }
    ensures known { (clients names : ℕ) → client < clients → IsAmong clients names result }
{
    match object {
        Some(object) => What::Cleans {
            client,
            strong,
            number,
            object,
        },
        None => What::CleansNothing {
            client,
            strong,
            number,
        },
    }
}

/// Returns the content of the row of a call of the collector. It names the space's object of the number `object`, or none.
/// Its client has the number `client`.
fn call_what(space: &Uid, client: u32, object: Option<i64>, ask: &Ask) -> What
    requires { IsOfFew space.now object ask.now }
    ensures row { (clients : List Client) → (names : List (List ℕ)) → (by moment : ℕ)
        → slice_get clients client ≡ client_of ask.now
        → event_with space.now clients names by moment result
        ≡ record { by = by; moment = moment; ask = ask.now } }
    ensures known { (clients names : ℕ) → client < clients → IsAmong clients names result }
{
    match ask {
        Ask::Dirty { number, asked, .. } => dirty_what(client, *number, *asked, object),
        Ask::Clean { number, strong, .. } => clean_what(client, *number, *strong, object),
        // no other ask is a call of the collector
        _ => What::Ticks,
    }
}

/// The row of a call of the collector of the space's object of this number, or of none, where its client has that number.
fn call_row(space: &Uid, client: u32, object: Option<i64>, event: &Event) -> Row
    requires { IsOfFew space.now object event.now.ask }
    ensures row { (clients : List Client) → (names : List (List ℕ))
        → slice_get clients client ≡ client_of event.now.ask
        → event_of space.now clients names result ≡ event.now }
    ensures known { (clients names : ℕ) → client < clients → IsKnown clients names result }
{
    Row {
        moment: event.moment,
        by: event.by,
        what: call_what(space, client, object, &event.ask),
    }
}

/// The row of an event that is kept whole, in a box that is there.
fn whole_row(room: Option<Box<Event>>, event: Event) -> Row
    requires { IsSome room }
    ensures row { (space : Uid) → (clients : List Client) → (names : List (List ℕ))
        → event_of space clients names result ≡ event }
    ensures known { (clients names : ℕ) → IsKnown clients names result }
{
    let moment = event.moment;
    let by = event.by;
    let Some(mut room) = room else { unreachable!() };
    *room = event;
    Row {
        moment,
        by,
        what: What::Whole(room),
    }
}

/// The row of an event that isn't plain. There is a box, and room for a client and for a name. A call of a client that has a number needs none
/// of these, nor does a Lookup of a name that has one. Where a client or a name gets a number, the box is given up, so that the next `reserve`
/// makes room for a further one. Any other event is put into the box.
pub(crate) fn row_of(
    clients: &mut Clients,
    names: &mut Names,
    spare: &mut Option<Box<Event>>,
    space: &Uid,
    event: Event,
) -> Row
    requires spare { is_some spare.old ≡ true }
    requires room { length clients.old.list.items < vec_capacity clients.old.list }
    requires name_room { length names.old.list.items < vec_capacity names.old.list }
    ensures row { event_of space.now clients.new.list.items names.new.list.items result ≡ event }
    ensures known { IsKnown (length clients.new.list.items) (length names.new.list.items) result }
    ensures clients { (more : List Client)
        × (clients.new.list.items ≡ clients.old.list.items ++ more) }
    ensures names { (more : List (List ℕ)) × (names.new.list.items ≡ names.old.list.items ++ more) }
    ensures room { is_some spare.new ≡ true
        → length clients.new.list.items < vec_capacity clients.new.list }
    ensures name_room { is_some spare.new ≡ true
        → length names.new.list.items < vec_capacity names.new.list }
{
    match few_objects(space, &event.ask) {
        Some(object) => caller_row(clients, spare, space, object, event),
        None => other_row(names, spare, event),
    }
}

/// The row of a call of the collector of the space's object of this number, or of none.
fn caller_row(
    clients: &mut Clients,
    spare: &mut Option<Box<Event>>,
    space: &Uid,
    object: Option<i64>,
    event: Event,
) -> Row
    requires call { IsOfFew space.now object event.ask }
    requires caller { IsSome (client_of event.ask) }
    requires spare { is_some spare.old ≡ true }
    requires room { length clients.old.list.items < vec_capacity clients.old.list }
    ensures row { (names : List (List ℕ))
        → event_of space.now clients.new.list.items names result ≡ event }
    ensures known { (names : ℕ) → IsKnown (length clients.new.list.items) names result }
    ensures clients { (more : List Client)
        × (clients.new.list.items ≡ clients.old.list.items ++ more) }
    ensures room { is_some spare.new ≡ true
        → length clients.new.list.items < vec_capacity clients.new.list }
{
    match number_of_client(clients, &event.ask) {
        Some(client) => call_row(space, client, object, &event),
        None => fresh_call(clients, spare, space, object, event),
    }
}

/// The row of a call of the collector of the space's object of this number, or of none, whose client gets a number, where there is one.
fn fresh_call(
    clients: &mut Clients,
    spare: &mut Option<Box<Event>>,
    space: &Uid,
    object: Option<i64>,
    event: Event,
) -> Row
    requires call { IsOfFew space.now object event.ask }
    requires caller { IsSome (client_of event.ask) }
    requires spare { is_some spare.old ≡ true }
    requires room { length clients.old.list.items < vec_capacity clients.old.list }
    ensures row { (names : List (List ℕ))
        → event_of space.now clients.new.list.items names result ≡ event }
    ensures known { (names : ℕ) → IsKnown (length clients.new.list.items) names result }
    ensures clients { (more : List Client)
        × (clients.new.list.items ≡ clients.old.list.items ++ more) }
    ensures room { is_some spare.new ≡ true
        → length clients.new.list.items < vec_capacity clients.new.list }
{
    let hand = spare.take();
    match clients.next() {
        Some(client) => {
            let row = call_row(space, client, object, &event);
            add_caller(clients, client, event.ask);
            row
        }
        None => whole_row(hand, event),
    }
}

/// Gives the client whose call it is a number, for which there is room.
fn add_caller(clients: &mut Clients, number: u32, ask: Ask)
    requires caller { IsSome (client_of ask) }
    requires room { length clients.old.list.items < vec_capacity clients.old.list }
    ensures caller { slice_get clients.new.list.items (length clients.old.list.items)
        ≡ client_of ask }
    ensures len { length clients.new.list.items ≡ length clients.old.list.items + 1 }
    ensures clients { (more : List Client)
        × (clients.new.list.items ≡ clients.old.list.items ++ more) }
{
    if let Some(client) = client_in(ask) {
        clients.add(number, client);
    }
}

/// Returns whether the request is a Lookup.
fn is_lookup(ask: &Ask) -> bool
    ensures { IsTrue result ↔ IsSome (name_looked_up ask.now) }
{
    matches!(ask, Ask::Lookup { .. })
}

/// A number of the name that is looked up, if one is found.
fn number_of_name(names: &Names, ask: &Ask) -> Option<u32>
    ensures name { IfSome result
        (λ number. slice_get names.now.list.items number ≡ name_looked_up ask.now) }
    ensures lookup { IfSome result (λ number. IsSome (name_looked_up ask.now)) }
{
    match ask {
        Ask::Lookup { name, uid: _ } => names.find(name),
        _ => None,
    }
}

/// The name that is looked up, moved out of the ask.
fn looked_up_in(ask: Ask) -> Option<Name>
    ensures { result ≡ name_looked_up ask }
{
    match ask {
        Ask::Lookup { name, uid: _ } => Some(name),
        _ => None,
    }
}

/// Returns the content of the row of a Lookup, where its name has the number `name`.
fn lookup_what(name: u32, ask: &Ask) -> What
    requires { IsSome (name_looked_up ask.now) }
    ensures row { (space : Uid) → (clients : List Client) → (names : List (List ℕ))
        → (by moment : ℕ) → slice_get names name ≡ name_looked_up ask.now
        → event_with space clients names by moment result
        ≡ record { by = by; moment = moment; ask = ask.now } }
    ensures known { (clients names : ℕ) → name < names → IsAmong clients names result }
{
    match ask {
        Ask::Lookup { name: _, uid } => What::LooksUp { name, uid: *uid },
        // no other ask is a Lookup
        _ => What::Ticks,
    }
}

/// The row of a Lookup, where its name has that number.
fn lookup_row(name: u32, event: &Event) -> Row
    requires { IsSome (name_looked_up event.now.ask) }
    ensures row { (space : Uid) → (clients : List Client) → (names : List (List ℕ))
        → slice_get names name ≡ name_looked_up event.now.ask
        → event_of space clients names result ≡ event.now }
    ensures known { (clients names : ℕ) → name < names → IsKnown clients names result }
{
    Row {
        moment: event.moment,
        by: event.by,
        what: lookup_what(name, &event.ask),
    }
}

/// The row of an event that is neither plain nor a call of the collector of none or one of the space's own objects.
fn other_row(names: &mut Names, spare: &mut Option<Box<Event>>, event: Event) -> Row
    requires spare { is_some spare.old ≡ true }
    requires room { length names.old.list.items < vec_capacity names.old.list }
    ensures row { (space : Uid) → (clients : List Client)
        → event_of space clients names.new.list.items result ≡ event }
    ensures known { (clients : ℕ) → IsKnown clients (length names.new.list.items) result }
    ensures names { (more : List (List ℕ)) × (names.new.list.items ≡ names.old.list.items ++ more) }
    ensures room { is_some spare.new ≡ true
        → length names.new.list.items < vec_capacity names.new.list }
{
    if !is_lookup(&event.ask) {
        return whole_row(spare.take(), event);
    }
    match number_of_name(names, &event.ask) {
        Some(name) => lookup_row(name, &event),
        None => fresh_lookup(names, spare, event),
    }
}

/// The row of a Lookup whose name gets a number, where there is one.
fn fresh_lookup(names: &mut Names, spare: &mut Option<Box<Event>>, event: Event) -> Row
    requires lookup { IsSome (name_looked_up event.ask) }
    requires spare { is_some spare.old ≡ true }
    requires room { length names.old.list.items < vec_capacity names.old.list }
    ensures row { (space : Uid) → (clients : List Client)
        → event_of space clients names.new.list.items result ≡ event }
    ensures known { (clients : ℕ) → IsKnown clients (length names.new.list.items) result }
    ensures names { (more : List (List ℕ)) × (names.new.list.items ≡ names.old.list.items ++ more) }
    ensures room { is_some spare.new ≡ true
        → length names.new.list.items < vec_capacity names.new.list }
{
    let hand = spare.take();
    match names.next() {
        Some(name) => {
            let row = lookup_row(name, &event);
            add_name(names, name, event.ask);
            row
        }
        None => whole_row(hand, event),
    }
}

/// Gives the name that is looked up a number, for which there is room.
fn add_name(names: &mut Names, number: u32, ask: Ask)
    requires lookup { IsSome (name_looked_up ask) }
    requires room { length names.old.list.items < vec_capacity names.old.list }
    ensures name { slice_get names.new.list.items (length names.old.list.items)
        ≡ name_looked_up ask }
    ensures len { length names.new.list.items ≡ length names.old.list.items + 1 }
    ensures names { (more : List (List ℕ)) × (names.new.list.items ≡ names.old.list.items ++ more) }
{
    if let Some(name) = looked_up_in(ask) {
        names.add(number, name);
    }
}

/// A Finish that makes and lists nothing.
fn finish(alloc: Global, space: Uid, number: i64, uid: Uid) -> Ask
    ensures { result ≡ FinishAsk (record { number = number; space = space }) [] [] uid }
{
    Ask::Finish {
        object: ObjId { number, space },
        made: Kinds::new(alloc),
        listed: ObjIds::new(alloc),
        uid,
    }
}

/// The client of this number.
#[tactic(auto, using(crate::proofs::RowLaws::client_there))]
fn client_numbered(clients: &[Vmid], number: u32) -> &Vmid
    requires { number < length clients.now }
    ensures { result.now ≡ client_at clients.now number }
{
    &clients[number as usize]
}

/// The name of this number.
#[tactic(auto, using(crate::proofs::RowLaws::name_there))]
fn name_numbered(names: &[Name], number: u32) -> &Name
    requires { number < length names.now }
    ensures { result.now ≡ name_at names.now number }
{
    &names[number as usize]
}

/// The list of the space's object of this number.
fn list_of(alloc: Global, space: Uid, number: i64) -> Result<ObjIds, AllocError>
    ensures { IfOk result (λ objects. objects ≡ objects_of space (Some number)) }
{
    ObjIds::from_slice(alloc, &[ObjId { number, space }])
}

/// A Dirty of these objects.
fn dirty<'a>(
    alloc: Global,
    row: &Row,
    client: &Vmid,
    number: i64,
    asked: i64,
    objects: ObjIds,
) -> Result<EventView<'a>, AllocError>
    ensures { IfOk result (λ view. event_viewed view
        ≡ record {
          by = row.now.by;
          moment = row.now.moment;
          ask = DirtyAsk client.now number asked objects;
        }) }
{
    let client = client.copy(alloc)?;
    let ask = Ask::Dirty {
        client,
        number,
        asked,
        objects,
    };
    Ok(EventView::Made(Event {
        by: row.by,
        moment: row.moment,
        ask,
    }))
}

/// A Clean of these objects.
fn clean<'a>(
    alloc: Global,
    row: &Row,
    client: &Vmid,
    number: i64,
    objects: ObjIds,
    strong: bool,
) -> Result<EventView<'a>, AllocError>
    ensures { IfOk result (λ view. event_viewed view
        ≡ record {
          by = row.now.by;
          moment = row.now.moment;
          ask = CleanAsk client.now number objects strong;
        }) }
{
    let client = client.copy(alloc)?;
    let ask = Ask::Clean {
        client,
        number,
        objects,
        strong,
    };
    Ok(EventView::Made(Event {
        by: row.by,
        moment: row.moment,
        ask,
    }))
}

/// A Lookup of this name.
fn lookup<'a>(alloc: Global, row: &Row, name: &Name, uid: Uid) -> Result<EventView<'a>, AllocError>
    ensures { IfOk result (λ view. event_viewed view
        ≡ record { by = row.now.by; moment = row.now.moment; ask = LookupAsk name.now uid }) }
{
    let name = name.copy(alloc)?;
    Ok(EventView::Made(Event {
        by: row.by,
        moment: row.moment,
        ask: Ask::Lookup { name, uid },
    }))
}

/// Returns the ask of a row that says it by itself.
fn bare_ask(alloc: Global, space: Uid, what: &What) -> Ask
    requires { IsBare what.now }
    ensures { (clients : List Client) (names : List (List ℕ)) (by moment : ℕ)
        → event_with space clients names by moment what.now
        ≡ record { by = by; moment = moment; ask = result } }
{
    match what {
        What::Opens { kind, pinned } => Ask::Open {
            kind: *kind,
            pinned: *pinned,
        },
        What::Begins { object } => Ask::Begin { object: *object },
        What::Finishes { number, uid } => finish(alloc, space, *number, *uid),
        What::Abandons { object } => Ask::Abandon { object: *object },
        What::Acks { uid } => Ask::Ack { uid: *uid },
        What::ListsNames => Ask::List,
        // no other row says its ask by itself
        _ => Ask::Tick,
    }
}

/// Returns the event of a row that is a call of the collector.
fn lease_call<'a>(
    alloc: Global,
    space: Uid,
    clients: &[Vmid],
    row: &Row,
) -> Result<EventView<'a>, AllocError>
    requires call { IsLeaseCall row.now.what }
    requires known { IsKnown (length clients.now) 0 row.now }
    ensures { IfOk result (λ view. (names : List (List ℕ))
        → event_viewed view ≡ event_of space clients.now names row.now) }
{
    match &row.what {
        What::Dirties {
            client,
            number,
            asked,
            object,
        } => {
            let client = client_numbered(clients, *client);
            let objects = list_of(alloc, space, *object)?;
            dirty(alloc, row, client, *number, *asked, objects)
        }
        What::Renews {
            client,
            number,
            asked,
        } => {
            let client = client_numbered(clients, *client);
            dirty(alloc, row, client, *number, *asked, ObjIds::new(alloc))
        }
        What::Cleans {
            client,
            strong,
            number,
            object,
        } => {
            let client = client_numbered(clients, *client);
            let objects = list_of(alloc, space, *object)?;
            clean(alloc, row, client, *number, objects, *strong)
        }
        What::CleansNothing {
            client,
            strong,
            number,
        } => {
            let client = client_numbered(clients, *client);
            clean(alloc, row, client, *number, ObjIds::new(alloc), *strong)
        }
        _ => unreachable!(),
    }
}

/// Returns the event of a row. It fails only if there is no memory.
pub(crate) fn view_of<'a>(
    alloc: Global,
    space: Uid,
    clients: &[Vmid],
    names: &[Name],
    row: &'a Row,
) -> Result<EventView<'a>, AllocError>
    requires { IsKnown (length clients.now) (length names.now) row.now }
    ensures { IfOk result (λ view.
        event_viewed view ≡ event_of space clients.now names.now row.now) }
{
    match &row.what {
        What::Whole(event) => Ok(EventView::Kept(event)),
        What::LooksUp { name, uid } => lookup(alloc, row, name_numbered(names, *name), *uid),
        What::Dirties { .. } => lease_call(alloc, space, clients, row),
        What::Renews { .. } => lease_call(alloc, space, clients, row),
        What::Cleans { .. } => lease_call(alloc, space, clients, row),
        What::CleansNothing { .. } => lease_call(alloc, space, clients, row),
        what => {
            let ask = bare_ask(alloc, space, what);
            Ok(EventView::Made(Event {
                by: row.by,
                moment: row.moment,
                ask,
            }))
        }
    }
}
