//! The lease calls that a client is to send.
ghost use Rattle.std.specs.Prelude.{◌≡◌, IfOk};
ghost use Rattle.dgc_client.specs.declared.plan.ClientFault.TheVariants.{OutOfMemory};

use object_ids::ObjIds;
use std::alloc::{AllocError, Global};
use thiserror::Error;

/// A lease call that the client is to send (Java RMI Specification, section 9.1).
#[derive(Debug, Drop)]
pub enum Plan {
    /// A dirty call. It names the objects whose references the server is to note; one that names none renews the client's lease.
    Dirty {
        /// The call's sequence number.
        number: i64,
        /// The objects that it names.
        ids: ObjIds,
    },
    /// A clean call.
    Clean {
        /// The call's sequence number.
        number: i64,
        /// The object that it names.
        ids: ObjIds,
        /// True where the server is to remember the number, since a dirty call that named the object failed and may still come.
        strong: bool,
    },
}

impl Plan {
    /// A copy, which equals its source. It is refused only for want of memory.
    pub fn copy(&self, alloc: Global) -> Result<Plan, AllocError>
        ensures { IfOk result (λ copy. copy ≡ self.now) }
    {
        match self {
            Plan::Dirty { number, ids } => Ok(Plan::Dirty {
                number: *number,
                ids: ids.copy(alloc)?,
            }),
            Plan::Clean {
                number,
                ids,
                strong,
            } => Ok(Plan::Clean {
                number: *number,
                ids: ids.copy(alloc)?,
                strong: *strong,
            }),
        }
    }
}

/// Why a client's table refuses a call. The table is then as it was.
#[derive(Clone, Copy, Debug, PartialEq, Eq, Error)]
pub enum ClientFault {
    /// A call has to be sent, and the next number is the greatest one, which is never sent.
    #[error("no numbers are left")]
    NumbersSpent,
    /// The client holds 16,384 references.
    #[error("too many references")]
    FullRefs,
    /// There is no memory.
    #[error("out of memory")]
    OutOfMemory,
}

impl From<AllocError> for ClientFault {
    ghost from_gives = { λ _ fault. fault ≡ OutOfMemory };

    fn from(_refused: AllocError) -> ClientFault {
        ClientFault::OutOfMemory
    }
}
