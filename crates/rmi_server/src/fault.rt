//! The faults of calls.
ghost use Rattle.std.specs.Prelude.{◌≡◌, ◌⊎◌, IfOk};
ghost use Rattle.rmi_server.specs.Faults.{FaultGives, wrong_argument};
ghost use Rattle.rmi_server.specs.declared.fault.CallFault.TheVariants as faults;

use call_dispatch::Outcome;
use mod_utf::utf::units_of_ascii;
use sequence::Units;
use std::alloc::{AllocError, AllocFailed, Global};
use std::fmt;

/// The text of a call of a method that the service doesn't have.
const UNKNOWN_METHOD: &[u8] = b"java.rmi.UnmarshalException: no such method";

/// The type that a service reads an argument as.
#[derive(Clone, Copy, Debug, PartialEq, Eq)]
pub enum Wanted {
    /// A `boolean`.
    Boolean,
    /// A `byte`.
    Byte,
    /// A `char`.
    Char,
    /// A `short`.
    Short,
    /// An `int`.
    Int,
    /// A `long`.
    Long,
    /// A `String`.
    Text,
    /// A reference to a remote object.
    Reference,
    /// Any object.
    Object,
}

impl fmt::Display for Wanted {
    ghost use Rattle.std.specs.Prelude.{Some};
    ghost use Rattle.rmi_server.specs.Faults.{wanted_word};

    ghost output = { λ wanted. Some (wanted_word wanted) };

    fn fmt<W: fmt::Write>(&self, f: &mut fmt::Formatter<W>) -> fmt::Result {
        match *self {
            Wanted::Boolean => write!(f, "boolean"),
            Wanted::Byte => write!(f, "byte"),
            Wanted::Char => write!(f, "char"),
            Wanted::Short => write!(f, "short"),
            Wanted::Int => write!(f, "int"),
            Wanted::Long => write!(f, "long"),
            Wanted::Text => write!(f, "String"),
            Wanted::Reference => write!(f, "remote reference"),
            Wanted::Object => write!(f, "object"),
        }
    }
}

/// The reason why a call has no result. The client gets it as a `java.rmi.RemoteException` whose message begins with the named class.
#[derive(Debug, Drop)]
pub enum CallFault {
    /// The argument at a place is of another type, or there is none: `java.rmi.UnmarshalException`.
    WrongArgument {
        /// The argument's place, counted from 0.
        place: usize,
        /// The type that the service wanted.
        wanted: Wanted,
    },
    /// The service has no such method: `java.rmi.UnmarshalException`.
    UnknownMethod,
    /// An exception of the service's own: its class, a colon and a space, and its message.
    Exception(Units),
    /// There was no memory. The connection ends.
    OutOfMemory,
}

impl CallFault {
    /// The exception of this text: a class, a colon and a space, and a message, all in ASCII.
    pub fn exception(alloc: Global, text: &str) -> CallFault
        ensures { (result ≡ faults.Exception text.now) ⊎ (result ≡ faults.OutOfMemory) }
    {
        match units_of_ascii(alloc, text.as_bytes()) {
            Ok(text) => CallFault::Exception(text),
            Err(_refused) => CallFault::OutOfMemory,
        }
    }
}

impl From<AllocError> for CallFault {
    ghost use Rattle.rmi_server.specs.declared.fault.CallFault.TheVariants.{OutOfMemory};

    ghost from_gives = { λ _ fault. fault ≡ OutOfMemory };

    fn from(_error: AllocError) -> CallFault {
        CallFault::OutOfMemory
    }
}

impl<T: Drop> From<AllocFailed<T>> for CallFault {
    ghost use Rattle.rmi_server.specs.declared.fault.CallFault.TheVariants.{OutOfMemory};

    ghost from_gives = { λ _ fault. fault ≡ OutOfMemory };

    fn from(_error: AllocFailed<T>) -> CallFault {
        CallFault::OutOfMemory
    }
}

/// An argument that is of another type than this.
#[derive(Clone, Copy)]
struct WrongArgument {
    place: usize,
    wanted: Wanted,
}

impl fmt::Display for WrongArgument {
    ghost use Rattle.std.specs.Prelude.{Some};
    ghost use Rattle.rmi_server.specs.Faults.{wrong_words};

    ghost output = { λ wrong. Some (wrong_words wrong.place wrong.wanted) };

    fn fmt<W: fmt::Write>(&self, f: &mut fmt::Formatter<W>) -> fmt::Result {
        let WrongArgument { place, wanted } = *self;
        write!(f, "argument {place} is no {wanted}")
    }
}

/// The text of the exception that says so.
fn wrong_argument(alloc: Global, place: usize, wanted: Wanted) -> Result<Units, AllocError>
    ensures { IfOk result (λ text. text ≡ wrong_argument place wanted) }
{
    let words = WrongArgument { place, wanted }.to_string(alloc)?;
    let mut text = units_of_ascii(alloc, b"java.rmi.UnmarshalException: ")?;
    text.append(units_of_ascii(alloc, words.as_bytes())?.as_slice())?;
    Ok(text)
}

/// The outcome of a call with a fault.
pub(crate) fn outcome_of_fault(alloc: Global, fault: CallFault) -> Outcome
    ensures { FaultGives fault result }
{
    let text = match fault {
        CallFault::WrongArgument { place, wanted } => wrong_argument(alloc, place, wanted),
        CallFault::UnknownMethod => units_of_ascii(alloc, UNKNOWN_METHOD),
        CallFault::Exception(text) => Ok(text),
        CallFault::OutOfMemory => Err(AllocError),
    };
    match text {
        Ok(text) => Outcome::Fault(text),
        Err(_refused) => Outcome::OutOfMemory,
    }
}
