//! The facts of a pass that contracts know.
use history::{Event, SpaceConfig};
use std::collections::LinkedList;

/// The state of a seat.
pub enum SeatState {
    /// It makes no turn.
    Idle,
    /// It waits with this ticket's word.
    Drawn(u64),
    /// Its ticket is served: it has the slot, by the ticket of this word, and this history in hand.
    Called(u64, LinkedList<Event>),
}

/// The facts that a seat knows. No value of it is made: contracts speak of it.
pub struct View {
    /// The number of its pass, which its events have.
    pub number: u64,
    /// Its parts of the right to know that all passes have ended.
    pub parts: u64,
    /// The configuration of the space.
    pub config: SpaceConfig,
    /// The events that the space had when the lock was made.
    pub opening: LinkedList<Event>,
    /// The events that it has seen, from the first on.
    pub seen: LinkedList<Event>,
    /// The events that the pass that was joined last had seen.
    pub heard: LinkedList<Event>,
    /// Its own events, in order.
    pub own: LinkedList<Event>,
    /// Its state.
    pub state: SeatState,
    /// The number of passes that were made.
    pub made: u64,
    /// The number of each pass that was joined, and its events.
    pub ended: LinkedList<(u64, LinkedList<Event>)>,
}
