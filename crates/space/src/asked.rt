//! Entries of turns.
use history::{Ask, Refused, Turn};
use sequence::{Sequence, TryCopy};
use std::alloc::{AllocError, Global};

/// The end of a turn.
#[derive(Debug, Drop)]
pub enum AskedEnd {
    /// The event was taken, and answered so.
    Turned(Turn),
    /// A call was ended without an answer, at this place of the history.
    Abandoned(u64),
    /// The event was refused.
    Refused(Refused),
}

/// The entry of a turn: what a connection asked at a moment, in milliseconds, and how that ended.
#[derive(Debug)]
pub struct Asked {
    /// The moment that was handed in.
    pub moment: u64,
    /// The request.
    pub ask: Ask,
    /// The end of the turn.
    pub end: AskedEnd,
}

// Written out, so that whoever owns one has one call at each exit, and not the drop of each field.
impl Drop for Asked {
    fn drop(self) {
        let Asked {
            moment: _,
            ask,
            end,
        } = self;
        drop(ask);
        drop(end);
    }
}

/// A list of entries.
pub type AskedList = Sequence<Asked>;

impl TryCopy for AskedEnd {
    fn try_copy(&self, alloc: Global) -> Result<AskedEnd, AllocError> {
        Ok(match self {
            AskedEnd::Turned(turn) => AskedEnd::Turned(turn.copy(alloc)?),
            AskedEnd::Abandoned(place) => AskedEnd::Abandoned(*place),
            AskedEnd::Refused(refused) => AskedEnd::Refused(*refused),
        })
    }
}

impl TryCopy for Asked {
    fn try_copy(&self, alloc: Global) -> Result<Asked, AllocError> {
        let ask = self.ask.copy(alloc)?;
        match self.end.try_copy(alloc) {
            Ok(end) => Ok(Asked {
                moment: self.moment,
                ask,
                end,
            }),
            Err(refused) => {
                // By hand, so that it is dropped in one call and not field by field.
                drop(ask);
                Err(refused)
            }
        }
    }
}
