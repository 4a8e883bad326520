// SPDX-License-Identifier: Apache-2.0 OR MIT
//! The identifiers of Java RMI: `Uid` (a UID), `ObjId` (an ObjID) and `Vmid` (a VMID).
//!
//! `UidDraw` draws new UIDs: 65,536 of one moment, then those of the next. `Vmid::compare` orders
//! clients by address, byte by byte, and then by the signed numbers of the UID. A `Uid` takes 16
//! bytes in memory and an `ObjId` 24, since the time comes first. On the wire the fields have
//! Java's order.
//!
//! # What is proved
//!
//! - `uid_bytes` and `uid_of`, `objid_bytes` and `objid_of` are inverse to each other (`inverse`).
//! - The identifiers that a `UidDraw` gives all differ (`fresh`). It ends exactly where the moment
//!   of the next reaches 2^62 (`none`).
//! - `Vmid::new` refuses exactly the addresses of more than 255 bytes (`short`).
#![tactic(auto)]

pub mod bytes;
pub mod draw;
pub mod ids;
pub mod limits;

pub use bytes::{objid_bytes, objid_of, uid_bytes, uid_of};
pub use draw::UidDraw;
pub use ids::{FullKind, ObjId, ObjIds, Uid, Vmid};
pub use limits::MAX_ADDRESS_BYTES;
