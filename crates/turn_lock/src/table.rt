//! The words that threads step on, and the slot with the space on its desk. Word 0 is the ticket to be drawn next, word 1 the one that is served, both
//! modulo 2^64, and word 2 the length of the history. Each struct here names what one kind of step tells the seat that takes it.
use crate::desk::DeskBox;
use crate::view::View;
use atomic_table::{Join, Play, Seat, Shared, Split, Table, TableRule};
use space::Space;
use std::alloc::Global;
use std::marker::{Brand, PhantomData};
use std::snapshot::Snapshot;

/// The word with the ticket that is drawn next.
pub(crate) const TICKET: usize = 0;

/// The word with the ticket that is served.
pub(crate) const SERVING: usize = 1;

/// The word with the length of the history.
pub(crate) const LENGTH: usize = 2;

/// The rule of the table.
pub struct Law;

impl TableRule<Option<DeskBox>, View, Snapshot<Space>> for Law {
    ghost use Rattle.turn_lock.specs.Rule.{KeepsRule, root};

    ghost holds = { λ opening. KeepsRule opening.value };

    ghost first = { λ opening. root opening.value };
}

/// The table that a lock owns.
pub type LockTable = Table<Option<DeskBox>, View, Snapshot<Space>, Law, Global>;

/// The part of it that all threads share.
pub type SharedTable = Shared<Option<DeskBox>, View, Snapshot<Space>, Law>;

/// The seat with which a thread steps.
pub type LockSeat = Seat<Option<DeskBox>, View>;

/// The event that a step publishes.
pub trait Naming {
    ghost use Rattle.history.specs.declared.asks.Event.{Event};

    ghost event: { Event };
}

impl Naming for Brand {
    ghost use Rattle.turn_lock.specs.Rule.{some_event};

    ghost event = { some_event };
}

/// A ticket is drawn.
pub struct Draw;

impl Play<Option<DeskBox>, View> for Draw {
    ghost use Rattle.turn_lock.specs.Rule.{DrawsTicket};

    ghost then = { DrawsTicket };
}

/// The ticket that is served is looked at; where it is the seat's own, the slot goes to the seat.
pub struct Look;

impl Play<Option<DeskBox>, View> for Look {
    ghost use Rattle.turn_lock.specs.Rule.{LooksAtServing};

    ghost then = { LooksAtServing };
}

/// The length is published with an event.
pub struct Publish<N> {
    of: PhantomData<N>,
}

impl<N: Naming> Play<Option<DeskBox>, View> for Publish<N> {
    ghost use Rattle.turn_lock.specs.Rule.{PublishesEvent};

    ghost then = { PublishesEvent N.event };
}

/// The length is published as it was.
pub struct PassOver;

impl Play<Option<DeskBox>, View> for PassOver {
    ghost use Rattle.turn_lock.specs.Rule.{PassesOver};

    ghost then = { PassesOver };
}

/// The slot goes home, and the next ticket is served.
pub struct Advance;

impl Play<Option<DeskBox>, View> for Advance {
    ghost use Rattle.turn_lock.specs.Rule.{AdvancesServing};

    ghost then = { AdvancesServing };
}

/// The seat has seen what the seat that was joined last had seen.
pub struct Absorb;

impl Play<Option<DeskBox>, View> for Absorb {
    ghost use Rattle.turn_lock.specs.Rule.{AbsorbsSeen};

    ghost then = { AbsorbsSeen };
}

/// A seat is split, or joined.
pub struct Parts;

impl Split<View> for Parts {
    ghost use Rattle.turn_lock.specs.Rule.{left_of, right_of};

    ghost left = { left_of };

    ghost right = { right_of };
}

impl Join<View> for Parts {
    ghost use Rattle.turn_lock.specs.Rule.{both_of, spent_seat};

    ghost both = { both_of };

    ghost spent = { spent_seat };
}
