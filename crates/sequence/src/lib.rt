// SPDX-License-Identifier: Apache-2.0 OR MIT
//! The lists and texts in which all other crates speak.
//!
//! `Sequence<T>` is the list type of the product. `ByteList`, `Units` (the 16-bit units of a Java
//! text) and the like are sequences. `push`, `append` and `copy` may return `AllocError`. A refused
//! call leaves the list as it was.
//!
//! - `TryCopy` stands in place of `Clone`, since a copy may find no memory.
//! - `Same` stands in place of `PartialEq`. Its `is_same` is tied to equality as contracts see it.
//! - A `Vec` is used where a contract speaks of its capacity, or where the list is only passed on.
//!
//! # What is proved
//!
//! Contracts see a sequence as the list of its items. Each call says what that list is afterwards
//! (`ok`, `err`, `value`, `item`).
//!
//! # What is not
//!
//! `reserve` has no clause about capacity.
#![tactic(auto)]

pub mod list;
pub mod number;

pub use list::{
    BoolList, ByteList, I16List, I32List, I64List, Kinds, MomentList, NameList, Same, Sequence,
    TryCopy, U16List, U32List, U64List, Units,
};
