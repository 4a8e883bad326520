//! The answers of a space.
ghost use Rattle.std.specs.Prelude.{◌≡◌, IfOk};

use object_ids::{FullKind, ObjId, ObjIds};
use sequence::{NameList, Same, TryCopy};
use std::alloc::{AllocError, AllocFailed, Global};

/// The reply to an event.
#[derive(Debug, Drop)]
pub enum Reply {
    /// To an Open: the new object.
    Opened(ObjId),
    /// To a Begin: the object's kind.
    Started(u32),
    /// To a Begin, a Bind or a Rebind: the object is not exported.
    NoObject,
    /// To a Finish: the new objects, in the order of `made`.
    Finished(ObjIds),
    /// To a Finish or an Abandon: the connection runs no call of the object.
    NotRunning,
    /// To a Dirty: the duration that is granted, in milliseconds.
    Granted(u64),
    /// To an Abandon, a Clean, an Ack or a Tick.
    Done,
    /// To a Bind or a Rebind.
    Bound,
    /// To a Bind: the name stands for something.
    AlreadyBound,
    /// To an Unbind.
    Unbound,
    /// To an Unbind or a Lookup: the name stands for nothing.
    NotBound,
    /// To a Lookup: the object for which the name stands, and its kind.
    Found(ObjId, u32),
    /// To a List: the names that stand for something, in the order in which they were first bound.
    Names(NameList),
}

/// The answer to an event that was taken.
#[derive(Debug, Drop)]
pub struct Turn {
    /// The event's place in the history, from 0.
    pub place: u64,
    /// The reply to the event.
    pub reply: Reply,
    /// The objects withdrawn after the last event that is no Abandon, this event included, in order of withdrawal.
    pub gone: ObjIds,
}

/// Why an event was not taken. The history is then as it was.
#[derive(Clone, Copy, Debug, PartialEq, Eq)]
pub enum Refused {
    /// The history's units would pass their limit.
    HistoryFull,
    /// A table's entries would pass their limit.
    Full(FullKind),
    /// There was no memory.
    OutOfMemory,
}

impl From<AllocError> for Refused {
    ghost use Rattle.history.specs.declared.replies.Refused.TheVariants.{OutOfMemory};

    ghost from_gives = { λ _ refused. refused ≡ OutOfMemory };

    fn from(_error: AllocError) -> Refused {
        Refused::OutOfMemory
    }
}

impl<T: Drop> From<AllocFailed<T>> for Refused {
    ghost use Rattle.history.specs.declared.replies.Refused.TheVariants.{OutOfMemory};

    ghost from_gives = { λ _ refused. refused ≡ OutOfMemory };

    fn from(_error: AllocFailed<T>) -> Refused {
        Refused::OutOfMemory
    }
}

impl Reply {
    /// A copy, which equals its source. It is refused only for want of memory.
    pub fn copy(&self, alloc: Global) -> Result<Reply, AllocError>
        ensures { IfOk result (λ copy. copy ≡ self.now) }
    {
        Ok(match self {
            Reply::Opened(object) => Reply::Opened(*object),
            Reply::Started(kind) => Reply::Started(*kind),
            Reply::NoObject => Reply::NoObject,
            Reply::Finished(objects) => Reply::Finished(objects.copy(alloc)?),
            Reply::NotRunning => Reply::NotRunning,
            Reply::Granted(duration) => Reply::Granted(*duration),
            Reply::Done => Reply::Done,
            Reply::Bound => Reply::Bound,
            Reply::AlreadyBound => Reply::AlreadyBound,
            Reply::Unbound => Reply::Unbound,
            Reply::NotBound => Reply::NotBound,
            Reply::Found(object, kind) => Reply::Found(*object, *kind),
            Reply::Names(names) => Reply::Names(names.copy(alloc)?),
        })
    }
}

impl TryCopy for Reply {
    fn try_copy(&self, alloc: Global) -> Result<Reply, AllocError> {
        self.copy(alloc)
    }
}

impl Turn {
    /// A copy, which equals its source. It is refused only for want of memory.
    pub fn copy(&self, alloc: Global) -> Result<Turn, AllocError>
        ensures { IfOk result (λ copy. copy ≡ self.now) }
    {
        Ok(Turn {
            place: self.place,
            reply: self.reply.copy(alloc)?,
            gone: self.gone.copy(alloc)?,
        })
    }
}

impl TryCopy for Turn {
    fn try_copy(&self, alloc: Global) -> Result<Turn, AllocError> {
        self.copy(alloc)
    }
}

impl Same for Reply {
    fn is_same(&self, other: &Reply) -> bool {
        match (self, other) {
            (Reply::Opened(a), Reply::Opened(b)) => a.is_same(b),
            (Reply::Started(a), Reply::Started(b)) => *a == *b,
            (Reply::NoObject, Reply::NoObject) => true,
            (Reply::Finished(a), Reply::Finished(b)) => a.is_same(b),
            (Reply::NotRunning, Reply::NotRunning) => true,
            (Reply::Granted(a), Reply::Granted(b)) => *a == *b,
            (Reply::Done, Reply::Done) => true,
            (Reply::Bound, Reply::Bound) => true,
            (Reply::AlreadyBound, Reply::AlreadyBound) => true,
            (Reply::Unbound, Reply::Unbound) => true,
            (Reply::NotBound, Reply::NotBound) => true,
            (Reply::Found(a, kind), Reply::Found(b, k)) => a.is_same(b) && *kind == *k,
            (Reply::Names(a), Reply::Names(b)) => a.is_same(b),
            _ => false,
        }
    }
}

impl Same for Turn {
    fn is_same(&self, other: &Turn) -> bool {
        self.place == other.place
            && self.reply.is_same(&other.reply)
            && self.gone.is_same(&other.gone)
    }
}
