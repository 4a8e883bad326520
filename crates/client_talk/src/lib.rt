// SPDX-License-Identifier: Apache-2.0 OR MIT
//! The commands of a client, as talks over links that it dials: `list`, `look_up`, `bind`, `unbind`
//! and `call`.
//!
//! A command is a script: plain data that says what is dialled, sent and read next, as a function
//! of what came. A talk is the list of what was done. `call` looks a name up and dials the object's
//! server. There it takes a lease, acknowledges the lookup, and makes the call. It leases the
//! references in the result, and gives them all up.
//!
//! # What is proved
//!
//! - What was done is a talk by the script (`spoke`). If the link tells the bytes that the server
//!   sends, it is their only talk, unless something outside failed or memory lacked
//!   (`EndsExactly`).
//! - Nothing is sent after the first end. Of a reply that ends the command, the bytes were taken
//!   that decide the end, and none behind them (`StopsReading`).
//! - `DialFault`, `ReadFault` and `WriteFault` have their causes (`fault`).
//! - Each lease call of `call` is the one that `dgc_client`'s definitions plan for its table at the
//!   clock's moment. The clock gives one moment for each plan, one for the answer to each dirty
//!   call, and no other.
//! - The halves of each link are left in `talked`, in the order of dialling, shut. Nothing was
//!   taken or sent on a half after it was shut (`WentOn`, `IsLeft`).
//!
//! # What is not
//!
//! Tests look at these (`test_client/src`): the order of messages on two links; that a failed link
//! or dialer is not used again; when, between two messages, the clock was read; that halves are
//! shut at the command's end.
//!
//! # Choices
//!
//! - `call` gives its value once every step went well, the clean calls among them. It acknowledges
//!   a result that has a flagged reference anywhere in it.
//! - It renews no lease while it waits. If it ends early, it sends no further clean call, and
//!   leases run out by themselves.
//! - `bind` sends the reference as a `java.rmi.Remote` alone.
//! - A reference whose host takes more than 65,535 bytes is answered `OutOfMemory`.
#![tactic(auto)]

mod acknowledge;
mod binding;
mod calling;
mod contents;
mod end;
mod leases;
mod listing;
mod lookup;
mod opening;
mod place;
mod request;
mod unbinding;

pub use binding::{Binding, bind};
pub use calling::call;
pub use end::CommandEnd;
pub use listing::list;
pub use lookup::look_up;
pub use place::Place;
pub use request::{Caller, MethodCall, Request};
pub use unbinding::unbind;
