//! Why a slot is not read.
ghost use Rattle.std.specs.Prelude.{◌≡◌};
ghost use Rattle.java_shapes.specs.declared.fault.ShapeFault.TheVariants.{OutOfMemory};

use std::alloc::AllocError;

/// The reason why a view of a slot refuses.
#[derive(Clone, Copy, Debug, PartialEq, Eq)]
pub enum ShapeFault {
    /// The slot does not have the shape.
    WrongShape,
    /// There is no memory.
    OutOfMemory,
}

impl From<AllocError> for ShapeFault {
    ghost from_gives = { λ _ fault. fault ≡ OutOfMemory };

    fn from(_error: AllocError) -> ShapeFault {
        ShapeFault::OutOfMemory
    }
}
