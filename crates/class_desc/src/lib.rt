// SPDX-License-Identifier: Apache-2.0 OR MIT
//! Class descriptions of Java's serialization stream, and the rules on their flags, fields and type
//! texts (Java Object Serialization Specification, chapters 4 and 6).
//!
//! `check_desc` checks a description, and `check_type_text` one field's type. `known` gives the
//! contents of the classes that the runtime itself sends, such as `java.lang.Throwable`. `Slot` and
//! `Item` are what streams consist of: a reference, or block data.
//!
//! # What is proved
//!
//! - `check_desc` and `check_type_text` accept exactly what the rules allow (`ok`, `tested`), and
//!   name a broken rule otherwise (`err`).
//! - `element_code` and `TypeCode::from_letter` find a type exactly where there is one (`found`,
//!   `none`).
//! - `known` gives the descriptions of `specs/`. It refuses only for lack of memory.
#![tactic(auto)]

mod check;
mod copying;
mod desc;
mod equality;
mod field;
mod known_class;
mod slot;
mod type_text;

pub use check::{DescFault, check_desc, check_type_text, has_flag, lacks_flag};
pub use desc::{
    BLOCK_DATA, ClassDesc, ENUM, EXTERNALIZABLE, ProxyDesc, SERIALIZABLE, WRITE_METHOD,
};
pub use field::{FieldDesc, FieldList, TypeCode, is_primitive};
pub use known_class::{ClassParts, KnownClass, PartField, PartFields, known};
pub use slot::{Item, Items, Slot, SlotList};
pub use type_text::element_code;
