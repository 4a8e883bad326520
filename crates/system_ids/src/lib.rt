// SPDX-License-Identifier: Apache-2.0 OR MIT
//! The two objects that every server has of itself, the registry and the collector: identifiers,
//! methods, interface hashes.
//!
//! Servers and clients both use them. `is_system` tells these objects from exported ones. `hash_by`
//! and `params_of` give what a method's call is named by, and the types of its parameters.
//!
//! # What is proved
//!
//! `is_registry`, `is_system`, `hash_by` and `params_of` are their definitions. That the hashes are
//! Java's is tested (`test_calls`, `interop/run`).
#![tactic(auto)]

mod ids;
mod methods;

pub use ids::{COLLECTOR_ID, REGISTRY_ID, is_registry, is_system};
pub use methods::{COLLECTOR_INTERFACE, REGISTRY_INTERFACE, SystemMethod, hash_by, params_of};
