// SPDX-License-Identifier: Apache-2.0 OR MIT
//! The names of a registry and the objects for which they stand (Java RMI Specification, chapter
//! 6).
//!
//! `Names` has `bind`, `rebind`, `unbind`, `lookup` and `list`. It holds at most 4,096 names of at
//! most 255 units.
//!
//! # What is proved
//!
//! - Contracts see the bindings as a list, the oldest first. Each call says what that list is
//!   afterwards.
//! - `AlreadyBound`, `Full` and `NotBound` come exactly where they should (`already`, `full`,
//!   `err`). A refusal changes nothing.
//! - The bindings are the names of a history (`bindings_are_the_names_of_a_history`).
//!
//! # Cost
//!
//! Names have a hash with a fixed seed, though peers choose them. So a lookup among colliding names
//! compares up to 4,096.
#![tactic(auto)]

mod binding;
mod binding_map;
pub mod laws;
mod names;

pub use binding::{Binding, BindingList};
pub use history::{Name, NameTooLong};
pub use names::{NameFault, Names, NotBound};
