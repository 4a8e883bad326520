// SPDX-License-Identifier: Apache-2.0 OR MIT
//! Sees the end of an input without waiting, and tells a listener to stop there.
//!
//! `rmi host` serves until its standard input ends. `StoppedByInput` wraps a listener and an input:
//! each `wait` first looks at the input. Once its end was seen, it closes the listener inside and
//! answers Told. `DrainedSource` reads and drops what the input holds. It reads only if a `Watch`
//! says that the read returns at once. `DescriptorWatch` asks the system by epoll, over the kit's
//! `mio`. No thread is started.
//!
//! # What is proved
//!
//! - A `StoppedByInput` shows what its listener shows (`listens`, `accepts`, `waits`). It answers
//!   Told where the end was seen (`ended`), and each `wait` looks exactly once (`looks_once`).
//! - `listen` makes the listener inside listen, and leaves the input alone (`inside`, `input`).
//! - A `DrainedSource` sees the end only if nothing is left, or if its watch says that the other
//!   end is gone (`looked`).
//! - An input that cannot be watched is never read, and its end is never seen.
//!
//! # What is not
//!
//! `test_input_end` tests these. The watch is asked before each read. A flag is set at the end that a
//! look sees. The system is asked, and its answers are true. The system refuses files and
//! `/dev/null`, so those never stop a server.
#![tactic(auto)]

mod descriptor;
mod drained;
mod end;
mod flagged;
mod optional;
mod stopped;
mod watch;

pub use descriptor::{DescriptorEnd, DescriptorWatch, descriptor_end};
pub use drained::{DrainedSource, MAX_PIECES, PIECE_BYTES};
pub use end::{InputEnd, MemInputEnd};
pub use flagged::FlaggedEnd;
pub use stopped::StoppedByInput;
pub use watch::{Readiness, Watch};
