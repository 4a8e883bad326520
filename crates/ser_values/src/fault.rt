//! Why nodes don't become a graph.
ghost use Rattle.std.specs.Prelude.{◌≡◌};
ghost use Rattle.ser_values.specs.declared.fault.BuildFault.TheVariants.{OutOfMemory};

use std::alloc::AllocError;
use thiserror::Error;

/// The reason why a builder or a graph refuses.
#[derive(Clone, Copy, Debug, PartialEq, Eq, Error)]
pub enum BuildFault {
    /// A builder has 65,536 loose nodes.
    #[error("too many nodes")]
    TooManyNodes,
    /// The nodes break the rules of graphs.
    #[error("wrong shape")]
    WrongShape,
    /// The nodes keep the rules of graphs, but they are more than 200 levels deep.
    #[error("too deep")]
    TooDeep,
    /// There is no memory.
    #[error("out of memory")]
    OutOfMemory,
}

impl From<AllocError> for BuildFault {
    ghost from_gives = { λ _ fault. fault ≡ OutOfMemory };

    fn from(_error: AllocError) -> BuildFault {
        BuildFault::OutOfMemory
    }
}
