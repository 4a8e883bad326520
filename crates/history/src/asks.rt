//! The requests to a space.
ghost use Rattle.std.specs.Prelude.{◌≡◌, ◌≤◌, ◌^◌, ◌↔◌, false, IfOk, IsTrue};
ghost use Rattle.history.specs.Asks.{has_lists};
ghost use Rattle.history.specs.Limits as limit_words;
ghost use Rattle.history.specs.Replies as reply_words;

use crate::names::Name;
use object_ids::{ObjId, ObjIds, Uid, Vmid};
use sequence::{Kinds, Same, Sequence, TryCopy};
use std::alloc::{AllocError, Global};

/// The configuration that a space has from its first event on.
#[derive(Clone, Copy, Debug, PartialEq, Eq)]
pub struct SpaceConfig {
    /// The configured lease, from 1 to 2^40 milliseconds: the longest that is granted, and the one that is granted to a
    /// dirty call that asks for more or for less than 1.
    pub lease_ms: u64,
    /// The time for which a returned reference awaits its acknowledgement, from 1 to 2^40 milliseconds.
    pub ack_ms: u64,
    /// The identifier of the object space. Its objects have it beside their number.
    pub uid: Uid,
    /// True where the space keeps its events, so that its journal and its outline can be read. Otherwise they exist
    /// in proofs alone.
    pub stored: bool,
}

/// A request to a space.
#[derive(Debug, Drop)]
pub enum Ask {
    /// Export an object of this kind. A pinned one is kept for good.
    Open {
        kind: u32,
        pinned: bool,
    },
    /// Begin a call of an object.
    Begin {
        object: ObjId,
    },
    /// End a call of an object with its return. New objects of the kinds `made` are exported; these and
    /// the objects `listed` stand in the return, and await the acknowledgement of `uid`.
    Finish {
        object: ObjId,
        made: Kinds,
        listed: ObjIds,
        uid: Uid,
    },
    /// End a call of an object without a return.
    Abandon {
        object: ObjId,
    },
    /// A dirty call of the collector, which asks for a lease of `asked` milliseconds.
    Dirty {
        client: Vmid,
        number: i64,
        asked: i64,
        objects: ObjIds,
    },
    /// A clean call of the collector.
    Clean {
        client: Vmid,
        number: i64,
        objects: ObjIds,
        strong: bool,
    },
    /// Acknowledge a return: its references have arrived.
    Ack {
        uid: Uid,
    },
    /// Bind a name that stands for nothing.
    Bind {
        name: Name,
        object: ObjId,
    },
    /// Bind a name, whatever it stood for.
    Rebind {
        name: Name,
        object: ObjId,
    },
    /// Unbind a name.
    Unbind {
        name: Name,
    },
    /// Look up a name, in a return of this identifier.
    Lookup {
        name: Name,
        uid: Uid,
    },
    /// List the names.
    List,
    /// Note that time has passed.
    Tick,
}

/// An event of a history.
#[derive(Debug, Drop)]
pub struct Event {
    /// The number of the connection that asks.
    pub by: u32,
    /// The moment that was handed in, in milliseconds, below 2^62. It may lie before an earlier one.
    pub moment: u64,
    /// The request.
    pub ask: Ask,
}

/// A list of events.
pub type EventList = Sequence<Event>;

// ---- units, beginnings and ends

/// Returns the number of units of an event.
pub fn units_of(ask: &Ask) -> u64
    ensures value { result ≡ limit_words.units_of ask.now }
    ensures bound { result ≤ 2 ^ 63 }
{
    match ask {
        Ask::Finish {
            object: _,
            made,
            listed,
            uid: _,
        } => 1 + made.as_slice().len() as u64 + listed.as_slice().len() as u64,
        Ask::Dirty {
            client: _,
            number: _,
            asked: _,
            objects,
        } => 1 + objects.as_slice().len() as u64,
        Ask::Clean {
            client: _,
            number: _,
            objects,
            strong: _,
        } => 1 + objects.as_slice().len() as u64,
        _ => 1,
    }
}

/// Returns whether a request begins a call.
pub fn is_begin(ask: &Ask) -> bool
    ensures { result ≡ limit_words.is_begin ask.now }
{
    match ask {
        Ask::Begin { object: _ } => true,
        _ => false,
    }
}

/// Returns whether a request ends a call, by a return or without one.
pub fn is_end(ask: &Ask) -> bool
    ensures { result ≡ limit_words.is_end ask.now }
{
    match ask {
        Ask::Finish {
            object: _,
            made: _,
            listed: _,
            uid: _,
        } => true,
        Ask::Abandon { object: _ } => true,
        _ => false,
    }
}

/// Returns whether a request ends a call without a return.
pub fn is_abandon(ask: &Ask) -> bool
    ensures { result ≡ reply_words.is_abandon ask.now }
{
    match ask {
        Ask::Abandon { object: _ } => true,
        _ => false,
    }
}

// ---- copies of the asks with lists

fn finish_of(
    alloc: Global,
    object: ObjId,
    made: &Kinds,
    listed: &ObjIds,
    uid: Uid,
) -> Result<Ask, AllocError>
    ensures { IfOk result (λ copy. copy ≡ Ask.Finish object made.now listed.now uid) }
{
    let made = made.copy(alloc)?;
    let listed = listed.copy(alloc)?;
    Ok(Ask::Finish {
        object,
        made,
        listed,
        uid,
    })
}

fn dirty_of(
    alloc: Global,
    client: &Vmid,
    number: i64,
    asked: i64,
    objects: &ObjIds,
) -> Result<Ask, AllocError>
    ensures { IfOk result (λ copy. copy ≡ Ask.Dirty client.now number asked objects.now) }
{
    let client = client.copy(alloc)?;
    let objects = objects.copy(alloc)?;
    Ok(Ask::Dirty {
        client,
        number,
        asked,
        objects,
    })
}

fn clean_of(
    alloc: Global,
    client: &Vmid,
    number: i64,
    objects: &ObjIds,
    strong: bool,
) -> Result<Ask, AllocError>
    ensures { IfOk result (λ copy. copy ≡ Ask.Clean client.now number objects.now strong) }
{
    let client = client.copy(alloc)?;
    let objects = objects.copy(alloc)?;
    Ok(Ask::Clean {
        client,
        number,
        objects,
        strong,
    })
}

/// A copy of an ask without lists.
fn copy_without_lists(alloc: Global, ask: &Ask) -> Result<Ask, AllocError>
    requires { has_lists ask.now ≡ false }
    ensures { IfOk result (λ copy. copy ≡ ask.now) }
{
    Ok(match ask {
        Ask::Open { kind, pinned } => Ask::Open {
            kind: *kind,
            pinned: *pinned,
        },
        Ask::Begin { object } => Ask::Begin { object: *object },
        Ask::Abandon { object } => Ask::Abandon { object: *object },
        Ask::Ack { uid } => Ask::Ack { uid: *uid },
        Ask::Bind { name, object } => Ask::Bind {
            name: name.copy(alloc)?,
            object: *object,
        },
        Ask::Rebind { name, object } => Ask::Rebind {
            name: name.copy(alloc)?,
            object: *object,
        },
        Ask::Unbind { name } => Ask::Unbind {
            name: name.copy(alloc)?,
        },
        Ask::Lookup { name, uid } => Ask::Lookup {
            name: name.copy(alloc)?,
            uid: *uid,
        },
        Ask::List => Ask::List,
        // a Tick: no other ask is left
        _ => Ask::Tick,
    })
}

impl Ask {
    /// A copy, which equals its source. It is refused only for want of memory.
    pub fn copy(&self, alloc: Global) -> Result<Ask, AllocError>
        ensures { IfOk result (λ copy. copy ≡ self.now) }
    {
        match self {
            Ask::Finish {
                object,
                made,
                listed,
                uid,
            } => finish_of(alloc, *object, made, listed, *uid),
            Ask::Dirty {
                client,
                number,
                asked,
                objects,
            } => dirty_of(alloc, client, *number, *asked, objects),
            Ask::Clean {
                client,
                number,
                objects,
                strong,
            } => clean_of(alloc, client, *number, objects, *strong),
            _ => copy_without_lists(alloc, self),
        }
    }
}

impl TryCopy for Ask {
    fn try_copy(&self, alloc: Global) -> Result<Ask, AllocError> {
        self.copy(alloc)
    }
}

impl Event {
    /// A copy, which equals its source. It is refused only for want of memory.
    pub fn copy(&self, alloc: Global) -> Result<Event, AllocError>
        ensures { IfOk result (λ copy. copy ≡ self.now) }
    {
        Ok(Event {
            by: self.by,
            moment: self.moment,
            ask: self.ask.copy(alloc)?,
        })
    }
}

impl TryCopy for Event {
    fn try_copy(&self, alloc: Global) -> Result<Event, AllocError> {
        self.copy(alloc)
    }
}

// ---- comparisons

fn is_finish(ask: &Ask, object: &ObjId, made: &Kinds, listed: &ObjIds, uid: &Uid) -> bool
    ensures { IsTrue result ↔ (Ask.Finish object.now made.now listed.now uid.now ≡ ask.now) }
{
    match ask {
        Ask::Finish {
            object: o,
            made: m,
            listed: l,
            uid: u,
        } => object.is_same(o) && made.is_same(m) && listed.is_same(l) && uid.is_same(u),
        _ => false,
    }
}

fn is_dirty(ask: &Ask, client: &Vmid, number: i64, asked: i64, objects: &ObjIds) -> bool
    ensures { IsTrue result ↔ (Ask.Dirty client.now number asked objects.now ≡ ask.now) }
{
    match ask {
        Ask::Dirty {
            client: c,
            number: n,
            asked: a,
            objects: o,
        } => client.is_same(c) && number == *n && asked == *a && objects.is_same(o),
        _ => false,
    }
}

fn is_clean(ask: &Ask, client: &Vmid, number: i64, objects: &ObjIds, strong: bool) -> bool
    ensures { IsTrue result ↔ (Ask.Clean client.now number objects.now strong ≡ ask.now) }
{
    match ask {
        Ask::Clean {
            client: c,
            number: n,
            objects: o,
            strong: s,
        } => client.is_same(c) && number == *n && objects.is_same(o) && strong == *s,
        _ => false,
    }
}

/// Returns whether two requests without lists are the same.
fn same_without_lists(ask: &Ask, other: &Ask) -> bool
    requires { has_lists ask.now ≡ false }
    ensures { IsTrue result ↔ (ask.now ≡ other.now) }
{
    match (ask, other) {
        (Ask::Open { kind, pinned }, Ask::Open { kind: k, pinned: p }) => {
            *kind == *k && *pinned == *p
        }
        (Ask::Begin { object }, Ask::Begin { object: o }) => object.is_same(o),
        (Ask::Abandon { object }, Ask::Abandon { object: o }) => object.is_same(o),
        (Ask::Ack { uid }, Ask::Ack { uid: u }) => uid.is_same(u),
        (Ask::Bind { name, object }, Ask::Bind { name: n, object: o }) => {
            name.is_same(n) && object.is_same(o)
        }
        (Ask::Rebind { name, object }, Ask::Rebind { name: n, object: o }) => {
            name.is_same(n) && object.is_same(o)
        }
        (Ask::Unbind { name }, Ask::Unbind { name: n }) => name.is_same(n),
        (Ask::Lookup { name, uid }, Ask::Lookup { name: n, uid: u }) => {
            name.is_same(n) && uid.is_same(u)
        }
        (Ask::List, Ask::List) => true,
        (Ask::Tick, Ask::Tick) => true,
        _ => false,
    }
}

impl Same for Ask {
    fn is_same(&self, other: &Ask) -> bool {
        match self {
            Ask::Finish {
                object,
                made,
                listed,
                uid,
            } => is_finish(other, object, made, listed, uid),
            Ask::Dirty {
                client,
                number,
                asked,
                objects,
            } => is_dirty(other, client, *number, *asked, objects),
            Ask::Clean {
                client,
                number,
                objects,
                strong,
            } => is_clean(other, client, *number, objects, *strong),
            _ => same_without_lists(self, other),
        }
    }
}

impl Same for Event {
    fn is_same(&self, other: &Event) -> bool {
        self.by == other.by && self.moment == other.moment && self.ask.is_same(&other.ask)
    }
}
