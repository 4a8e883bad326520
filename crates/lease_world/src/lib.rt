// SPDX-License-Identifier: Apache-2.0 OR MIT
//! A world of one server's space and many clients' tables, whose lease calls may be lost, late or
//! repeated (Java RMI Specification, chapter 9). `rmi world` plays scripts of its steps;
//! `docs/JOURNAL.md` explains them.
//!
//! `World::step` takes one step. A sent call may be delivered never, once or many times, in any
//! order, and its answer may come or not.
//!
//! # What is proved
//!
//! - `step` takes exactly the step that the definition takes (`ok`), or refuses it exactly where
//!   the definition does (`refused`). A refused step leaves the world as it was (`left`); a `Make`
//!   may have made its call and given it up.
//! - The promise (`promise` of `step`, `IsPromised` in `specs/World`): an object that a client may
//!   use is exported. Three things must hold. The client may use the reference now (`usable`). One
//!   dirty call of the client made it sure (`sure`). The object was exported when some delivery of
//!   that same call arrived (`met`).
//! - `what_is_promised_is_exported`: the same after any list of steps. For each of the three a
//!   worked world shows that it is needed (`proofs/Examples`).
//! - `run_world` prints the end of the world that the script makes, or stops at the first bad or
//!   refused line (`printed`, `stopped`).
//!
//! Both ends read one clock. Nothing is promised to a client whose clock is slower than the
//! server's.
//!
//! # Rules of a script
//!
//! - A dirty call is due if a reference is unsure or the client's lease is over. No call under way
//!   since its registration may name it. One is also due once half the lease has passed, if the
//!   client has references and no dirty call is under way.
//! - An answer to a dirty call counts if less time has passed since the sending than was granted. A
//!   late one ends the call, and gives no lease. An answer to a clean call, or to a call that has
//!   ended, changes nothing.
//! - The server's leases and waits end only at a turn: `make`, `ack`, `deliver` or `tick`.
//! - A reference is printed `unsure` if no dirty call since its registration was answered in time,
//!   or if a later `due` or good answer came after the client's lease was over. `lapsed` means that
//!   the client may not use it. `unsure` is always `lapsed`.
//! - The outline's `now` is the moment of the last turn. The clients' lines go by the script's
//!   moment.
//! - A line is also bad if C is no client, K was not sent or, at `answer`, never delivered, M goes
//!   back, or D is above 2^40.
//!
//! # Cost
//!
//! A script of a million lines takes 0.4 s. `bench/world` plays a million steps beside `rmi replay`
//! of the same events: 0.4 times the processor time for ticks, 0.8 to 1.2 times for other steps,
//! with up to 16,000 references at a client.
#![tactic(auto)]

mod client_steps;
mod fault;
mod ids;
pub mod laws;
mod letter;
mod member;
mod number;
mod opening;
mod reading;
mod script;
mod sent_call;
mod server_steps;
mod step;
mod text;
mod words;
mod world;

pub use fault::WorldFault;
pub use letter::Letter;
pub use member::Member;
pub use script::{MAX_CLIENTS, run_world};
pub use sent_call::SentCall;
pub use step::Step;
pub use world::World;
