// SPDX-License-Identifier: Apache-2.0 OR MIT
//! The default serialVersionUID of a class, and its description, from an outline of the class as
//! text (Java Object Serialization Specification, 4.6). `rmi suid`, `suidtext` and `describe` read
//! such outlines.
//!
//! An outline is lines that end with a line feed. One blank separates words. The first line is
//! `class MODS NAME`. The others come in any order:
//!
//! | line | one for each |
//! |---|---|
//! | `interface NAME` | interface after `implements`, or after `extends` of an interface |
//! | `field MODS NAME TYPE` | field that the class declares, static ones too |
//! | `clinit` | class with a static initializer |
//! | `constructor MODS DESCRIPTOR` | constructor |
//! | `method MODS NAME DESCRIPTOR` | method that the class declares |
//!
//! - MODS is the decimal sum of public 1, private 2, protected 4, static 8, final 16, synchronized
//!   32, volatile 64, transient 128, native 256, interface 512, abstract 1024 and strict 2048. It
//!   is at most 65,535; other bits don't count.
//! - NAME has 1 to 255 bytes from 21 to 7E, with dots for packages.
//! - TYPE is as in class files, such as `[Ljava/lang/String;`, at most 65,535 bytes.
//! - DESCRIPTOR is `(`, the parameters' types, `)` and the result's type or `V`. It has at most 255
//!   parameters and 65,535 bytes. Java's constructors end with `V`; any result is accepted. A `/`
//!   in a class's name is hashed as it is.
//!
//! Members that the compiler adds count too, such as `this$0` of an inner class. No interface,
//! field name, `clinit`, constructor descriptor or method with its descriptor comes twice. An
//! outline has at most 1,048,576 bytes.
//!
//! # What is proved
//!
//! - `parse_outline` accepts exactly the outlines, or names the first bad line, from 1 (`ok`,
//!   `err`; `is_outline`).
//! - `suid_text` is the text that section 4.6 defines. `suid` is its SHA-1 digest, folded.
//! - The order of the lines after the first does not matter (`same`, `numbers` of `numbers_of`).
//! - `describe` gives the class's description, which passes the check of descriptions (`checked`).
//!   It refuses more than 32,767 fields.
//!
//! Numbers of Java's own classes are tested, not proved (`test_suid`; `interop/run` compares with
//! `serialver`).
//!
//! # When Java takes the description for its own class
//!
//! The class must not be an enum (its number is 0) or `Externalizable`. It has no `writeObject` and
//! no serializable superclass. It declares neither `serialVersionUID` nor `serialPersistentFields`.
#![tactic(auto)]

mod description;
mod laws;
mod limits;
mod lines;
mod number;
mod outline;
mod parse;
mod text;
mod types;
mod words;

pub use description::{DescribeFault, MAX_FIELDS, describe};
pub use laws::{is_outline, numbers_of};
pub use outline::{
    ClassOutline, MAX_MODIFIERS, MAX_PARAMETERS, Member, MemberList, NAME_BYTES, OutlineFault,
    TYPE_BYTES,
};
pub use parse::parse_outline;
pub use text::{suid, suid_text};
