//! The reasons why a client's call has no result.
ghost use Rattle.std.specs.Prelude.{◌≡◌, ◌≢◌};
ghost use Rattle.rmi_caller.specs.Errors.{IsErrorOf, IsExceptionError};

use crate::exception::{RemoteException, exception_of};
use dgc_client::ClientFault;
use method_hash::MethodFault;
use rmi_client::ClientEnd;
use sequence::Units;
use ser_values::BuildFault;
use std::alloc::{AllocError, Global};
use std::error::Error;
use std::fmt;

/// The type that an author reads a result as.
#[derive(Clone, Copy, Debug, PartialEq, Eq)]
pub enum Wanted {
    /// No result.
    Nothing,
    /// A `boolean`.
    Boolean,
    /// A `byte`.
    Byte,
    /// A `char`.
    Char,
    /// A `short`.
    Short,
    /// An `int`.
    Int,
    /// A `long`.
    Long,
    /// A `String`.
    Text,
    /// A reference to a remote object.
    Reference,
}

/// The reason why a call, a lookup or a lease has no result.
#[derive(Debug)]
pub enum CallError {
    /// The method's text is none, as of this byte on, which is counted from 0. A text is a name and a descriptor, as `add(J)J`. Nothing was sent.
    BadMethod {
        /// The number of bytes before it with which some method's text begins.
        at: usize,
    },
    /// The method has so many parameters, and another number of arguments was given. Nothing was sent.
    ArgumentCount {
        /// The number of parameters.
        wanted: usize,
    },
    /// The argument at a place is of another type than the method's parameter. Nothing was sent.
    WrongArgument {
        /// The argument's place, counted from 0.
        place: usize,
    },
    /// A reference among the arguments has a host or an interface of more than 65,535 bytes, or there are too many of them. Nothing was sent.
    BadArguments,
    /// A name or a host is too long: a name has at most 255 characters. Nothing was sent.
    TooLong,
    /// The lease of the object ended by the clock, or was given up. Nothing was sent.
    Lapsed,
    /// The result is of another type.
    WrongAnswer {
        /// The type that the author wanted.
        wanted: Wanted,
    },
    /// The registry has no such name.
    NotBound,
    /// The server answered an exception.
    Exception(RemoteException),
    /// No server could be dialled at the host and port.
    DialFault,
    /// The connection has no answer. Its end says why.
    Link(ClientEnd),
    /// No number is left for a lease call.
    NumbersSpent,
    /// The system gives no random words.
    NoSeed,
    /// There was no memory.
    OutOfMemory,
}

// Written out, so that whoever owns one has one call at each exit, and not the drop of each variant.
impl Drop for CallError {
    fn drop(self) {
        match self {
            CallError::Exception(exception) => drop(exception),
            CallError::Link(end) => drop(end),
            CallError::BadMethod { at: _ } => {}
            CallError::ArgumentCount { wanted: _ } => {}
            CallError::WrongArgument { place: _ } => {}
            CallError::BadArguments => {}
            CallError::TooLong => {}
            CallError::Lapsed => {}
            CallError::WrongAnswer { wanted: _ } => {}
            CallError::NotBound => {}
            CallError::DialFault => {}
            CallError::NumbersSpent => {}
            CallError::NoSeed => {}
            CallError::OutOfMemory => {}
        }
    }
}

/// Returns the error for the end of a session's call.
pub(crate) fn error_of(alloc: Global, end: ClientEnd) -> CallError
    ensures is { IsErrorOf end result }
    ensures apart { result ≢ CallError.DialFault }
{
    match &end {
        ClientEnd::RemoteFault(text) => exception_error(alloc, text),
        ClientEnd::OutOfMemory => CallError::OutOfMemory,
        _ => CallError::Link(end),
    }
}

/// Returns the error for an exception of this text.
fn exception_error(alloc: Global, text: &Units) -> CallError
    ensures is { IsExceptionError text.now result }
    ensures apart { result ≢ CallError.DialFault }
{
    match exception_of(alloc, text.as_slice()) {
        Ok(exception) => CallError::Exception(exception),
        Err(_refused) => CallError::OutOfMemory,
    }
}

impl From<AllocError> for CallError {
    ghost use Rattle.rmi_caller.specs.declared.error.CallError.TheVariants.{OutOfMemory};

    ghost from_gives = { λ _ error. error ≡ OutOfMemory };

    fn from(_error: AllocError) -> CallError {
        CallError::OutOfMemory
    }
}

impl From<MethodFault> for CallError {
    ghost use Rattle.rmi_caller.specs.Errors.{method_error};

    ghost from_gives = { λ fault error. error ≡ method_error fault };

    fn from(fault: MethodFault) -> CallError {
        match fault {
            MethodFault::BadDescriptor { at } => CallError::BadMethod { at },
            MethodFault::OutOfMemory => CallError::OutOfMemory,
        }
    }
}

impl From<BuildFault> for CallError {
    ghost use Rattle.rmi_caller.specs.Errors.{build_error};

    ghost from_gives = { λ fault error. error ≡ build_error fault };

    fn from(fault: BuildFault) -> CallError {
        match fault {
            BuildFault::OutOfMemory => CallError::OutOfMemory,
            _ => CallError::BadArguments,
        }
    }
}

impl From<ClientFault> for CallError {
    ghost use Rattle.rmi_caller.specs.Errors.{table_error};

    ghost from_gives = { λ fault error. error ≡ table_error fault };

    fn from(fault: ClientFault) -> CallError {
        match fault {
            ClientFault::OutOfMemory => CallError::OutOfMemory,
            _ => CallError::NumbersSpent,
        }
    }
}

impl fmt::Display for Wanted {
    fn fmt<W: fmt::Write>(&self, f: &mut fmt::Formatter<W>) -> fmt::Result {
        match *self {
            Wanted::Nothing => write!(f, "void"),
            Wanted::Boolean => write!(f, "boolean"),
            Wanted::Byte => write!(f, "byte"),
            Wanted::Char => write!(f, "char"),
            Wanted::Short => write!(f, "short"),
            Wanted::Int => write!(f, "int"),
            Wanted::Long => write!(f, "long"),
            Wanted::Text => write!(f, "String"),
            Wanted::Reference => write!(f, "remote reference"),
        }
    }
}

/// Returns the words for the end of a session's call.
fn end_words(end: &ClientEnd) -> &'static str {
    match end {
        ClientEnd::Nack => "the server refuses the protocol",
        ClientEnd::BadReply { kind: _, at: _ } => "the server's reply is none",
        ClientEnd::TooLarge { what: _, at: _ } => "the server's reply is too large",
        ClientEnd::Truncated { at: _ } => "the server's reply ends early",
        ClientEnd::RemoteFault(_) => "the server answered an exception",
        ClientEnd::ReadFault => "reading failed",
        ClientEnd::WriteFault { sent: _ } => "writing failed",
        ClientEnd::Over => "the connection is over",
        ClientEnd::OutOfMemory => "out of memory",
    }
}

impl fmt::Display for CallError {
    fn fmt<W: fmt::Write>(&self, f: &mut fmt::Formatter<W>) -> fmt::Result {
        match self {
            CallError::BadMethod { at } => write!(f, "no method's text from byte {at} on"),
            CallError::ArgumentCount { wanted } => write!(f, "the method takes {wanted} arguments"),
            CallError::WrongArgument { place } => write!(f, "argument {place} is of another type"),
            CallError::BadArguments => write!(f, "too many or too long arguments"),
            CallError::TooLong => write!(f, "name too long"),
            CallError::Lapsed => write!(f, "the lease ended"),
            CallError::WrongAnswer { wanted } => write!(f, "the result is no {wanted}"),
            CallError::NotBound => write!(f, "name not bound"),
            CallError::Exception(exception) => write!(f, "{exception}"),
            CallError::DialFault => write!(f, "dialling failed"),
            CallError::Link(end) => f.write_str(end_words(end)),
            CallError::NumbersSpent => write!(f, "no numbers are left"),
            CallError::NoSeed => write!(f, "no random words"),
            CallError::OutOfMemory => write!(f, "out of memory"),
        }
    }
}

impl Error for CallError {}
