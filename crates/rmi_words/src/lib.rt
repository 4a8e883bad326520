// SPDX-License-Identifier: Apache-2.0 OR MIT
//! The words of the program's command line, and the text that `help` prints.
//!
//! `Words::command` gives the command that the words ask for. The kit's `clap` reads them from one
//! table (`src/table.rt`), which also gives the text of `help_text`. The crate reads numbers and
//! their ranges by itself.
//!
//! # What is proved
//!
//! - The command is the one that the words ask for (`asked`; `AskFor` in `specs/Command`).
//! - `Usage` comes only if they ask for none (`refused`). `clap` takes memory, so such words may be
//!   answered `OutOfMemory`.
//! - `help_text` is the table's text.
//!
//! # Choices
//!
//! - A word that begins with `-` is no word of a command. `~` is the minus sign of `call`'s
//!   numbers.
//! - HOST, NAME and FROM have at most 255 UTF-16 units, as Java counts, and are read from UTF-8.
//! - A drill has a seed below 2^63 and 1 to 1,000,000 rounds.
#![tactic(auto)]

mod arguments;
mod call_words;
mod client;
mod command;
mod declared;
mod help;
mod host_words;
mod methods;
mod numbers;
mod options;
mod signed;
mod table;
mod words;

pub use call_words::{Argument, ArgumentList, CallWords};
pub use client::{ClientCommand, ServerAddress};
pub use command::{ClassOutput, Command, DrillText, HelpTopic, WordsFault};
pub use help::help_text;
pub use host_words::{Address, HostWords, Record};
pub use numbers::MAX_ROUNDS;
pub use options::{LeaseOptions, ServeWords};
pub use table::{CommandEntry, WordEntry, commands, commands_of};
pub use words::Words;
