// SPDX-License-Identifier: Apache-2.0 OR MIT
//! Method texts and the hashes by which a call names its method (Java RMI Specification, 8.3).
//!
//! A method text is a name and a descriptor, such as `add(J)J`; `javap -s` prints them.
//! `Method::parse` reads one. `hash` gives its number: the first eight bytes of the SHA-1 digest of
//! the text, lowest first.
//!
//! # What is proved
//!
//! - `Method::parse` accepts exactly the method texts (`ok`, `text`). Otherwise it gives the length
//!   of the longest prefix with which some method text begins (`err`).
//! - `hash` is the definition in `specs/Hash`.
//!
//! # Choices
//!
//! A class name is one or more visible bytes without `;`, `(`, `)` and `[`. It may have `/` and `.`
//! in it. A text may have 65,535 bytes. SHA-1 is the kit's `sha1`. `test_calls` compares 61 hashes
//! with Java's.
#![tactic(auto)]

mod digest;
mod method;
mod place;
mod system;

pub use digest::{fold_hash, hash, hash_text};
pub use method::{CodeList, Method, MethodFault, MethodList};
pub use place::is_class_byte;
pub use system::{CollectorMethod, RegistryMethod};
