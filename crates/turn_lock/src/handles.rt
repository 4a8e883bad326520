//! The handles of a lock's callers.
ghost use Rattle.std.specs.Prelude.{◌≡◌, length};

use crate::table::{LockSeat, LockTable};
use std::sync::atomic::AtomicU64;

/// A lock round a space, at which passes take turns in the order of their tickets.
#[derive(Drop)]
pub struct TurnLock {
    /// The tickets, and the slot with the space on its desk.
    pub(crate) board: LockTable,
    /// The number of events that the space had.
    pub(crate) opened: u64,
    /// True where each further event is kept until the root hands it out.
    pub(crate) records: bool,
    /// The place up to which events were handed out, where the lock keeps them. Links sleep on it.
    pub(crate) handed: AtomicU64,
    ghost counted: { opened ≡ length board.shared.key.value.events },
    ghost sized: { (board.shared.table_id.words ≡ 3) × (board.shared.table_id.slots ≡ 1) },
}

/// The right of one thread to make turns. Its number is the connection's number of its events.
#[derive(Drop)]
pub struct Pass {
    /// The seat with which it steps.
    pub(crate) seat: LockSeat,
    /// Its number.
    pub(crate) number: u32,
}

/// The pass with number 0, which makes the others and takes them back.
#[derive(Drop)]
pub struct Root {
    /// Its own pass.
    pub(crate) pass: Pass,
    /// The number of passes that it made.
    pub(crate) made: u32,
    /// The number of those that it did not take back yet.
    pub(crate) out: u32,
    /// The place of the first event that it did not hand out yet, where the lock keeps them.
    pub(crate) kept: u64,
}

/// Why no pass was made.
#[derive(Clone, Copy, Debug, PartialEq, Eq)]
pub enum SplitFault {
    /// 2^32 - 1 passes were made.
    TooManyPasses,
}

/// Why no events are handed out.
#[derive(Clone, Copy, Debug, PartialEq, Eq)]
pub enum RecentFault {
    /// The lock keeps no events.
    NotRecorded,
    /// The place isn't the one at which the kept events begin.
    Forgotten,
    /// There is no memory for the next events. Or there was none for the end of a call that ran when the lock was made: then no event is
    /// kept any more.
    OutOfMemory,
}
