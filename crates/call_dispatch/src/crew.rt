//! Who does what the calls of all connections ask for.
ghost use Rattle.std.specs.Prelude.{◌≡◌, IfOk};
ghost use Rattle.call_dispatch.specs.Hands.{IsUntold, IsUncounted};

use crate::worker::Worker;
use std::alloc::AllocError;

/// Has a hand for each connection: a worker that goes into the connection's thread.
pub trait Crew: Sync {
    type Hand: Worker + Send + Drop;

    /// The hand of connection `by`, which has its number, was given no invocation yet and told of no object, and tells no object's number yet.
    /// It is refused only for want of memory.
    fn hand(&self, by: u32) -> Result<Self::Hand, AllocError>
        ensures calls { IfOk result (λ hand. (Self.Hand.shown hand).calls ≡ 0) }
        ensures untold { IfOk result (λ hand. IsUntold (Self.Hand.shown hand).seen) }
        ensures uncounted { IfOk result (λ hand. IsUncounted (Self.Hand.shown hand).state) }
        ensures number { IfOk result (λ hand. (Self.Hand.shown hand).number ≡ by) };
}
