//! The limits are what the documents say: a clause moves with its constant, and so these are pinned here.
use crate::outline::{MAX_MODIFIERS, MAX_PARAMETERS, NAME_BYTES, TYPE_BYTES};

const _: () = prove!(
    NAME_BYTES == 255 && TYPE_BYTES == 65_535 && MAX_PARAMETERS == 255 && MAX_MODIFIERS == 65_535
);
