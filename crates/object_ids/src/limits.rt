//! The limits of identifiers.

/// The most bytes of a machine's address.
pub const MAX_ADDRESS_BYTES: usize = 255;
