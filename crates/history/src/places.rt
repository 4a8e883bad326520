//! Facts about the places of a history.
ghost use Rattle.std.specs.Prelude.{◌≡◌, ◌<◌};
ghost use Rattle.history.specs.Places as words;
ghost use Rattle.history.specs.declared.limits.TheConstants.{END_OF_OBJECT_COUNT};

use crate::asks::Event;
use object_ids::{ObjId, ObjIds, Uid};
use sequence::{Same, Sequence, TryCopy};
use std::alloc::{AllocError, Global};

/// An object of a space, as it was exported.
#[derive(Clone, Copy, Debug, PartialEq, Eq)]
pub struct Exported {
    /// Its identifier.
    pub id: ObjId,
    /// Its kind, a number of its maker's.
    pub kind: u32,
    /// True where the object was opened pinned.
    pub pinned: bool,
}

/// A list of exported objects.
pub type ExportedList = Sequence<Exported>;

impl TryCopy for Exported {
    fn try_copy(&self, _alloc: Global) -> Result<Exported, AllocError> {
        Ok(*self)
    }

    fn try_copy_all(alloc: Global, items: &[Exported]) -> Result<Vec<Exported>, AllocError> {
        Vec::from_slice(alloc, items)
    }
}

impl Same for Exported {
    fn is_same(&self, other: &Exported) -> bool {
        self.id.is_same(&other.id) && self.kind == other.kind && self.pinned == other.pinned
    }
}

/// The identifier of the k-th object, from 0, that a space exports.
pub fn id_at(space: Uid, k: u64) -> ObjId
    requires { k < END_OF_OBJECT_COUNT }
    ensures { result ≡ words.id_at space k }
{
    ObjId {
        number: (16 + k) as i64,
        space,
    }
}

/// A place of a history: its event, and what the events before it decide of it.
#[derive(Debug)]
pub struct Place {
    /// Its number, from 0.
    pub index: u64,
    /// The greatest moment up to and with this place, in milliseconds.
    pub moment: u64,
    /// Its event.
    pub event: Event,
    /// True where the event is effective.
    pub effective: bool,
    /// The objects of the table before it, by rising number.
    pub table_before: ExportedList,
    /// The object for which the name in its request stands before it.
    pub name_stood_for: Option<ObjId>,
    /// The objects that it exports, by rising number.
    pub exported_here: ExportedList,
    /// The objects that it returns, which await an acknowledgement.
    pub returned_here: ObjIds,
}

// Written out, so that whoever owns one has one call at each exit, and not the drop of each field.
impl Drop for Place {
    fn drop(self) {
        let Place {
            index: _,
            moment: _,
            event,
            effective: _,
            table_before,
            name_stood_for: _,
            exported_here,
            returned_here,
        } = self;
        drop(event);
        drop(table_before);
        drop(exported_here);
        drop(returned_here);
    }
}

/// A list of places.
pub type PlaceList = Sequence<Place>;

/// A returned reference: an object, and the identifier of the return in which it stood.
#[derive(Clone, Copy, Debug, PartialEq, Eq)]
pub struct Returned {
    pub object: ObjId,
    pub uid: Uid,
}

/// A list of returned references.
pub type ReturnedList = Sequence<Returned>;

impl Same for Returned {
    fn is_same(&self, other: &Returned) -> bool {
        self.object.is_same(&other.object) && self.uid.is_same(&other.uid)
    }
}

/// An object that left the table, and the place at which it did.
#[derive(Clone, Copy, Debug, PartialEq, Eq)]
pub struct Withdrawal {
    pub object: ObjId,
    pub place: u64,
}

/// A list of withdrawals.
pub type WithdrawalList = Sequence<Withdrawal>;
