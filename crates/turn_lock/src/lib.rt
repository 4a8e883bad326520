// SPDX-License-Identifier: Apache-2.0 OR MIT
//! A lock around a space, so that threads take turns at one history (a ticket lock).
//!
//! `TurnLock::around` makes the lock and its `Root`. `split` gives a `Pass` for each thread, `join`
//! takes it back, `close` gives the space. A pass knows a prefix of the one history and its own
//! events there. `SeatPort` is the port of a pass; `ToldSeatPort` keeps no entries at run time. A
//! lock made by `recording` keeps each further event until `take_recent` of the root hands it out.
//! `wants_tick` says whether a Tick would do anything: whether a lease or a wait has ended, or
//! objects are still to be reported as gone.
//!
//! # What is proved
//!
//! - Each turn of a pass is answered as its event is at its place in the one history (`turned`).
//!   That history begins with what the pass had seen.
//! - Of the events after the opening, those of a pass's number are exactly its own, in order
//!   (`ordered`; `InOrder` in `specs/Rule`).
//! - `close` gives the space whose history has the opening's events, the root's, those of the
//!   joined passes, and no others (`settled`).
//! - All passes are ordered between any two steps of any threads (`passes_are_ordered`). The
//!   toolchain's table of atomic words keeps this rule.
//! - The entries of a port are what `Collects` says (`entries_collect`).
//! - `take_recent` and `close_recording` hand out exactly the next events of the one history, in
//!   order (`recent`). They refuse NotRecorded exactly if the lock was not made by `recording`, and
//!   Forgotten exactly if the place is another than that of the first event not handed out.
//!
//! # What is not
//!
//! Fairness and waiting times. `SeatPort::turn`, `SeatPort::abandon` and `Root::turn` wait for
//! their turn.
//!
//! That memory is really lacking where a turn, `take_recent` or `close_recording` answers
//! OutOfMemory. So a lock that records might keep no event, and say so whenever it is asked;
//! `test_lock` tests that it keeps them. That a lock which does not record keeps none: `bench/soak`
//! measures a host's memory. When `take_recent` hands an event out: it may lag behind the turns of
//! other passes, and `close_recording` gives the rest. What `is_crowded` answers.
//!
//! # Choices
//!
//! A thread draws a ticket once no other has one, or after 4,000 looks; after 500 looks it sleeps
//! between them. A lock makes 2^32 - 1 passes, as many as there are connection numbers. A pass
//! makes any number of turns.
//!
//! A lock that records keeps events until the root takes them. While 16,384 or more are kept, a
//! turn of a pass waits for `take_recent` before it draws its ticket, for one second at most. Then
//! it goes on, so nothing stands still for good if nobody takes events. The root's own turns and
//! the ends of calls do not wait. `is_crowded` tells the taker that half as many are kept.
//!
//! # Cost
//!
//! A turn takes 0.39 microseconds by one thread (`bench/lock`). By 2, 4 and 16 threads the rate is
//! 0.59, 0.47 and 0.47 of that.
#![tactic(auto)]

mod crowd;
mod desk;
mod handles;
pub mod laws;
mod lock;
mod port;
mod recent;
mod root_port;
mod steps;
mod table;
mod ticks;
mod view;
mod waiting;

pub use handles::{Pass, RecentFault, Root, SplitFault, TurnLock};
pub use port::{PassPort, SeatPort, ToldSeatPort};
