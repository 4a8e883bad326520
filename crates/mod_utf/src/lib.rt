// SPDX-License-Identifier: Apache-2.0 OR MIT
//! Java's modified UTF: bytes to texts and back.
//!
//! A text is a list of 16-bit units, as Java counts them. Each unit has one spelling of 1 to 3
//! bytes. Unit 0 takes two bytes. A character beyond the basic plane is two units, and each is
//! spelled by itself.
//!
//! # What is proved
//!
//! - `encode` gives the one spelling of a text (`spelled`, `value`), and `encoded_len` its length.
//! - `decode` gives the text that bytes spell (`ok`), and no other text has that spelling
//!   (`alone`).
//! - `decode` refuses exactly the bytes that spell no text, with the index of the first byte of the
//!   bad spelling (`err`).
//! - `decode_onto` leaves its list as it was when it refuses (`unchanged`).
//!
//! The definition is `specs/Utf`.
#![tactic(auto)]

pub mod decode;
mod text;
pub mod utf;

pub use decode::{UtfFault, decode_onto};
pub use text::units_of_text;
pub use utf::{encode, encoded_len, units_of_ascii};
