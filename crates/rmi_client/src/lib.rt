// SPDX-License-Identifier: Apache-2.0 OR MIT
//! A client's end of a connection (Java RMI Specification, 10.2 and 10.3): the messages that it
//! sends and the replies that it reads.
//!
//! `Session::begin` opens the protocol over the two halves of a link. A session sends one message
//! at a time and reads its reply: `ping`, `call`, `ack`, `list`, `lookup`, `bind`, `unbind`, and
//! `renew` for lease calls. After the first end that is no exception of the server's, each call
//! answers `Over` and does nothing. `docs/CLIENT.md` shows a whole client.
//!
//! # What is proved
//!
//! - Each call sends one message (`asks`; for `ack`, which reads nothing, `tells`). If a reply was
//!   read, the sink took the whole message. At `WriteFault` it took its first `sent` bytes, at
//!   `OutOfMemory` nothing or the whole.
//! - Of the source exactly the reply's bytes were taken, and the answer is the one that these bytes
//!   give.
//! - `Nack` comes exactly at `4F` in place of the acknowledgement. `RemoteFault` comes exactly if
//!   the Return is an exception with a part of class `java.lang.Throwable`. `WrongShape` comes
//!   exactly if a normal Return has not the shape that the call reads.
//! - `renew` sends the dirty or clean call of a plan (`IsPlanCall`), and gives the granted lease,
//!   from 0 to 2^40 ms.
//! - After the end, nothing is sent or read (`over`).
//!
//! # What is not
//!
//! - Within one call, a half that failed might be used again. Tests refuse that
//!   (`test_client/src/faults.rt`).
//! - `IsPlanCall` leaves open which nodes the objects of a dirty call share. The call describes
//!   `java.rmi.server.UID` twice, where Java names the first description by its handle. Both are
//!   calls by the grammar.
//! - No clause says that a server does what it answers.
//!
//! A plan with too many identifiers for a graph is answered `OutOfMemory`.
#![tactic(auto)]

mod end;
mod hear;
mod lease_calls;
mod leases;
mod registry;
mod reply;
mod requests;
mod seen;
mod session;

pub use end::{ClientEnd, ReplyKind};
pub use hear::{hear_ack, hear_answer, hear_ping};
pub use leases::number_of_plan;
pub use reply::Answer;
pub use requests::sent_ref;
pub use session::{Refusal, Session};
