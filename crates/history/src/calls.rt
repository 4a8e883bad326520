//! Lease calls: what clients send to the collector.
ghost use Rattle.std.specs.Prelude.{◌≡◌, ◌≤◌, IfOk};
ghost use Rattle.history.specs.Leases as words;

use object_ids::{ObjId, ObjIds, Vmid};
use sequence::{Same, Sequence, TryCopy};
use std::alloc::{AllocError, Global};

/// The kinds of lease calls (Java RMI Specification, chapter 9: `DGC.dirty` and `DGC.clean`).
#[derive(Clone, Copy, Debug, PartialEq, Eq)]
pub enum CallKind {
    /// A dirty call: the client asks for a lease, and holds the objects.
    Dirty,
    /// A clean call: the client lets go of the objects.
    Weak,
    /// A strong clean call, whose number is remembered for good.
    Strong,
}

/// A lease call, with the moment at which it was taken.
#[derive(Debug)]
pub struct Call {
    /// The greatest moment up to and with this call, in milliseconds.
    pub moment: u64,
    /// The client that sent it.
    pub client: Vmid,
    /// The sequence number by which late calls are told: the greater, the later it was sent.
    pub number: i64,
    /// The objects that it names after their export.
    pub objects: ObjIds,
    /// Its kind.
    pub kind: CallKind,
    /// The duration for which a dirty asks, in milliseconds; 0 at a clean.
    pub asked: i64,
}

// Written out, so that whoever owns one has one call at each exit, and not the drop of each field.
impl Drop for Call {
    fn drop(self) {
        let Call {
            moment: _,
            client,
            number: _,
            objects,
            kind: _,
            asked: _,
        } = self;
        drop(client);
        drop(objects);
    }
}

/// Returns the duration that a dirty which asks for `asked` milliseconds is granted, where the configured lease is
/// `lease_ms`: from 1 to the configured lease what it asks for, and the configured lease otherwise.
#[tactic(auto, unfolding(crate::specs::Leases::grant))]
pub fn grant(lease_ms: u64, asked: i64) -> u64
    ensures value { result ≡ words.grant lease_ms asked }
    ensures some { 1 ≤ lease_ms → 1 ≤ result }
    ensures within { result ≤ lease_ms }
{
    match u64::try_from(asked) {
        Ok(duration) if 0 < duration && duration <= lease_ms => duration,
        _ => lease_ms,
    }
}

/// A list of lease calls.
pub type CallList = Sequence<Call>;

impl Call {
    /// A copy, which equals its source. It is refused only for want of memory.
    pub fn copy(&self, alloc: Global) -> Result<Call, AllocError>
        ensures { IfOk result (λ copy. copy ≡ self.now) }
    {
        Ok(Call {
            moment: self.moment,
            client: self.client.copy(alloc)?,
            number: self.number,
            objects: self.objects.copy(alloc)?,
            kind: self.kind,
            asked: self.asked,
        })
    }
}

impl TryCopy for Call {
    fn try_copy(&self, alloc: Global) -> Result<Call, AllocError> {
        self.copy(alloc)
    }
}

/// A client with time left, and the moment at which its lease ends, in milliseconds.
#[derive(Debug, Drop)]
pub struct LeaseRow {
    pub client: Vmid,
    pub until: u64,
}

impl TryCopy for LeaseRow {
    fn try_copy(&self, alloc: Global) -> Result<LeaseRow, AllocError> {
        Ok(LeaseRow {
            client: self.client.copy(alloc)?,
            until: self.until,
        })
    }
}

/// A list of clients with the ends of their leases.
pub type LeaseList = Sequence<LeaseRow>;

/// A client, and an object that it named.
#[derive(Debug, Drop)]
pub struct Pair {
    pub client: Vmid,
    pub object: ObjId,
}

/// A list of pairs of a client and an object.
pub type PairList = Sequence<Pair>;

impl Same for Pair {
    fn is_same(&self, other: &Pair) -> bool {
        self.client.is_same(&other.client) && self.object.is_same(&other.object)
    }
}

impl Same for Call {
    fn is_same(&self, other: &Call) -> bool {
        self.moment == other.moment
            && self.client.is_same(&other.client)
            && self.number == other.number
            && self.objects.is_same(&other.objects)
            && self.kind == other.kind
            && self.asked == other.asked
    }
}
