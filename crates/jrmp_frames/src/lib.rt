// SPDX-License-Identifier: Apache-2.0 OR MIT
//! The messages of the Java Remote Method Protocol (Java RMI Specification, 10.2): read from any
//! source, and written.
//!
//! `read_header` reads the opening, `read_code` a message's first byte. `read_head` and
//! `read_arguments` read a call, `read_return` a return, `read_uid` an acknowledgement.
//! `call_bytes` and `return_bytes` write messages.
//!
//! # What is proved
//!
//! - A call's bytes are exactly a head and arguments, whatever the blocks (`CallBytes` in
//!   `specs/Messages`). A return's are its kind, its identifier and its body (`ReturnBytes`).
//! - `call_bytes` and `return_bytes` give exactly the canonical bytes (`written`), and these spell
//!   the message (`spelled`).
//! - No call, and no return, is a proper prefix of another (`call_is_one`, `return_is_one`).
//! - `read_arguments` takes exactly the rest of a call (`call`). `read_return` takes exactly a
//!   return for a method of the given result type (`message`). Otherwise each names its stop
//!   (`stops`, `cause`).
//!
//! # Choices
//!
//! - A header is `4A 52 4D 49 00 02` and a protocol byte. No other version is accepted.
//! - A head may end inside a block: a message's first bytes and its arguments may share one.
//! - A returned number and the identifier before it are one block. Numbers that begin a call's
//!   arguments join its head.
#![tactic(auto)]

pub mod arguments;
pub mod code;
pub mod endpoint;
pub mod fault;
pub mod head;
pub mod header;
pub mod laws;
pub mod message;
pub mod returns;
pub mod uid;

pub use arguments::{Arg, ArgList, Arguments, read_arguments, read_parameters};
pub use code::{Code, read_code};
pub use endpoint::{ack_bytes, endpoint_bytes, skip_endpoint};
pub use fault::FrameFault;
pub use head::{CallHead, read_head};
pub use header::{Protocol, header_bytes, read_header};
pub use message::{Body, call_bytes, return_bytes};
pub use returns::read_return;
pub use uid::{dgc_ack_bytes, read_uid};
