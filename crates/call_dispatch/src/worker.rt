//! Who does what calls ask for.
ghost use Rattle.std.specs.Prelude.{◌≡◌, ◌+◌, ◌<◌, ◌^◌, [], ◌∷◌};
ghost use Rattle.call_dispatch.specs.Acts.{Call, WorkerState, invokes, unreferenced, States, TellsMore, LeadsStates};
ghost use Rattle.call_dispatch.specs.declared.outcome.Invocation.{Invocation};
ghost use Rattle.call_dispatch.specs.declared.outcome.Outcome.{Outcome};

use crate::outcome::{Invocation, Outcome};
use object_ids::ObjId;

/// Does what calls ask for.
pub trait Worker {
    // The number of invocations that it was given; its calls, in their order, where it tells them, which it may
    // cease to do; the numbers that it keeps of objects, where it tells them; and the number of the connection that
    // it was made for.
    ghost shown: { Self → WorkerState };

    // Which outcomes an invocation may have, whatever the worker's state.
    ghost may: { Invocation → Outcome → Type 0 };

    // The change that a call makes to the numbers.
    ghost moves: { States → Call → States → Type 0 };

    /// Does what a call asks for.
    fn invoke(&mut self, call: Invocation) -> Outcome
        requires { (shown self.old).calls < 2 ^ 62 }
        ensures calls { (shown self.new).calls ≡ (shown self.old).calls + 1 }
        ensures number { (shown self.new).number ≡ (shown self.old).number }
        ensures may { may call result }
        ensures seen { TellsMore (shown self.old).seen (invokes call result ∷ [])
            (shown self.new).seen }
        ensures state { LeadsStates moves (shown self.old).state (invokes call result ∷ [])
            (shown self.new).state };

    /// Is told that an object is no longer exported.
    fn unreferenced(&mut self, object: ObjId)
        ensures calls { (shown self.new).calls ≡ (shown self.old).calls }
        ensures number { (shown self.new).number ≡ (shown self.old).number }
        ensures seen { TellsMore (shown self.old).seen (unreferenced object ∷ [])
            (shown self.new).seen }
        ensures state { LeadsStates moves (shown self.old).state (unreferenced object ∷ [])
            (shown self.new).state };
}
