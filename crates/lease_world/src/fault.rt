//! Why a world refuses a step.
ghost use Rattle.std.specs.Prelude.{◌≡◌};
ghost use Rattle.lease_world.specs.Faults.{of_space, of_client};
ghost use Rattle.lease_world.specs.declared.fault.WorldFault.TheVariants as faults;

use dgc_client::ClientFault;
use history::Refused;
use std::alloc::AllocError;

/// The reason why a world refuses a step, or why a script is none.
#[derive(Clone, Copy, Debug, PartialEq, Eq)]
pub enum WorldFault {
    /// The step names no client, or no call that was sent, or no moment or number that it may name.
    BadStep,
    /// A script's line, from 1, is no step, or its step is a BadStep.
    BadLine {
        /// The line's number, from 1.
        line: u64,
    },
    /// The server's space refuses the turn.
    SpaceRefused(Refused),
    /// The client's table refuses the call.
    ClientRefused(ClientFault),
    /// There is no memory.
    OutOfMemory,
}

impl From<AllocError> for WorldFault {
    ghost from_gives = { λ _ fault. fault ≡ faults.OutOfMemory };

    fn from(_refused: AllocError) -> WorldFault {
        WorldFault::OutOfMemory
    }
}

impl From<Refused> for WorldFault {
    ghost from_gives = { λ refused fault. fault ≡ of_space refused };

    fn from(refused: Refused) -> WorldFault {
        match refused {
            Refused::OutOfMemory => WorldFault::OutOfMemory,
            _ => WorldFault::SpaceRefused(refused),
        }
    }
}

impl From<ClientFault> for WorldFault {
    ghost from_gives = { λ refused fault. fault ≡ of_client refused };

    fn from(refused: ClientFault) -> WorldFault {
        match refused {
            ClientFault::OutOfMemory => WorldFault::OutOfMemory,
            _ => WorldFault::ClientRefused(refused),
        }
    }
}
