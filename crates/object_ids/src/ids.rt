//! Identifiers as plain data, with their equality.
ghost use Rattle.std.specs.Prelude.{◌≡◌, ◌≤◌, ◌↔◌, length, IfOk, IsSome, IfSome};
ghost use Rattle.object_ids.specs.Client.{Client, client_cmp};
ghost use Rattle.object_ids.specs.declared.limits.TheConstants.{MAX_ADDRESS_BYTES};

use crate::limits::MAX_ADDRESS_BYTES;
use sequence::{ByteList, Same, Sequence, TryCopy};
use std::alloc::{AllocError, Global};
use std::cmp::Ordering;
use std::marker::Model;

/// An identifier that is unique on the machine that made it (`java.rmi.server.UID`).
#[derive(Clone, Copy, Debug, PartialEq, Eq, Hash)]
pub struct Uid {
    /// A moment at which that virtual machine ran, in milliseconds.
    pub time: i64,
    /// A number that tells apart the virtual machines that run at one time.
    pub unique: i32,
    /// The number among the identifiers of that moment.
    pub count: i16,
}

/// The identifier of an exported object (`java.rmi.server.ObjID`).
#[derive(Clone, Copy, Debug, PartialEq, Eq, Hash)]
pub struct ObjId {
    /// The object's number, from 0 to 15 for objects that are known to all.
    pub number: i64,
    /// The identifier of the object space that gave the number.
    pub space: Uid,
}

/// The identifier of a client's virtual machine (`java.rmi.dgc.VMID`). Contracts see it as a `Client`.
#[derive(Debug, Drop)]
pub struct Vmid {
    addr: ByteList,
    uid: Uid,
}

impl Model for Vmid {
    ghost use Rattle.std.specs.Prelude.{◌≤◌, length};
    ghost use Rattle.object_ids.specs.Client.{Client};
    ghost use Rattle.object_ids.specs.declared.limits.TheConstants.{MAX_ADDRESS_BYTES};

    ghost Value = { Client };

    ghost view = { λ v. record { addr = v.addr; uid = v.uid } };

    ghost invariant = { λ v. length v.addr ≤ MAX_ADDRESS_BYTES };
}

/// A list of object identifiers.
pub type ObjIds = Sequence<ObjId>;

/// The limit that is reached where a table refuses an entry.
#[derive(Clone, Copy, Debug, PartialEq, Eq)]
pub enum FullKind {
    /// Exported objects.
    Exports,
    /// References that await their acknowledgement.
    Awaiting,
    /// Clients with time left.
    Clients,
    /// Remembered pairs of a client and an object.
    Pairs,
    /// Bound names.
    Names,
}

impl TryCopy for Uid {
    fn try_copy(&self, _alloc: Global) -> Result<Uid, AllocError> {
        Ok(*self)
    }
}

impl Same for Uid {
    fn is_same(&self, other: &Uid) -> bool {
        self.unique == other.unique && self.time == other.time && self.count == other.count
    }
}

impl TryCopy for ObjId {
    fn try_copy(&self, _alloc: Global) -> Result<ObjId, AllocError> {
        Ok(*self)
    }

    fn try_copy_all(alloc: Global, items: &[ObjId]) -> Result<Vec<ObjId>, AllocError> {
        Vec::from_slice(alloc, items)
    }
}

impl Same for ObjId {
    fn is_same(&self, other: &ObjId) -> bool {
        self.number == other.number && self.space.is_same(&other.space)
    }
}

impl Vmid {
    /// The identifier of the machine at this address that has this identifier there. It is None
    /// exactly where the address is longer than 255 bytes.
    pub fn new(addr: ByteList, uid: Uid) -> Option<Vmid>
        ensures short { IsSome result ↔ (length addr ≤ MAX_ADDRESS_BYTES) }
        ensures value { IfSome result (λ vmid. vmid ≡ record { addr = addr; uid = uid }) }
    {
        if addr.len() <= MAX_ADDRESS_BYTES {
            Some(Vmid { addr, uid })
        } else {
            None
        }
    }

    /// A copy, which equals its source. It is refused only for want of memory.
    pub fn copy(&self, alloc: Global) -> Result<Vmid, AllocError>
        ensures { IfOk result (λ copy. copy ≡ self.now) }
    {
        Ok(Vmid {
            addr: self.addr.copy(alloc)?,
            uid: self.uid,
        })
    }

    /// The bytes of the machine's address, at most 255.
    pub fn addr(&self) -> &ByteList
        ensures value { result.now ≡ self.now.addr }
        ensures short { length result.now ≤ MAX_ADDRESS_BYTES }
    {
        &self.addr
    }

    /// The order of clients: by address as unsigned bytes, where the beginning of another comes first,
    /// then by the identifier's unique number, time and count as signed numbers.
    pub fn compare(&self, other: &Vmid) -> Ordering
        ensures { result ≡ client_cmp self.now other.now }
    {
        self.addr
            .as_slice()
            .cmp(other.addr.as_slice())
            .then(self.uid.unique.cmp(&other.uid.unique))
            .then(self.uid.time.cmp(&other.uid.time))
            .then(self.uid.count.cmp(&other.uid.count))
    }

    /// The identifier that is unique at that address.
    pub fn uid(&self) -> Uid
        ensures { result ≡ self.now.uid }
    {
        self.uid
    }
}

impl TryCopy for Vmid {
    fn try_copy(&self, alloc: Global) -> Result<Vmid, AllocError> {
        self.copy(alloc)
    }
}

impl Same for Vmid {
    fn is_same(&self, other: &Vmid) -> bool {
        self.addr.is_same(&other.addr) && self.uid.is_same(&other.uid)
    }
}
