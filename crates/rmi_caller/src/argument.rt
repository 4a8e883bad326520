//! The arguments of a call, and whether they fit its method.
ghost use Rattle.std.specs.Prelude.{◌≡◌, ◌↔◌, IsTrue, IfOk, IfErr};
ghost use Rattle.rmi_caller.specs.Arguments.{code_of, Fits, AllFit, RefusesArguments};

use crate::error::CallError;
use class_desc::{TypeCode, is_primitive};
use java_shapes::LiveRef;

/// An argument of a call.
#[derive(Clone, Copy, Debug)]
pub enum Argument<'a> {
    /// A `boolean`.
    Boolean(bool),
    /// A `byte`, as its bits.
    Byte(u8),
    /// A `char`.
    Char(u16),
    /// A `short`.
    Short(i16),
    /// An `int`.
    Int(i32),
    /// A `long`.
    Long(i64),
    /// No object, for a parameter of any class, interface or array type.
    Null,
    /// A `String`.
    Text(&'a str),
    /// A reference to a remote object.
    Remote {
        /// The full name of the interface that the object has, as `example.Account`.
        interface: &'a str,
        /// The reference, as [`crate::Answer::reference`] gives it.
        reference: &'a LiveRef,
    },
}

/// The type of parameters that an argument is for; None where any type of objects is.
fn code_of(argument: &Argument<'_>) -> Option<TypeCode>
    ensures { result ≡ code_of argument.now }
{
    match *argument {
        Argument::Boolean(_) => Some(TypeCode::Boolean),
        Argument::Byte(_) => Some(TypeCode::Byte),
        Argument::Char(_) => Some(TypeCode::Char),
        Argument::Short(_) => Some(TypeCode::Short),
        Argument::Int(_) => Some(TypeCode::Int),
        Argument::Long(_) => Some(TypeCode::Long),
        Argument::Null => None,
        Argument::Text(_) => Some(TypeCode::Object),
        Argument::Remote {
            interface: _,
            reference: _,
        } => Some(TypeCode::Object),
    }
}

/// Returns true if an argument fits a parameter of this type.
fn fits(code: TypeCode, argument: &Argument<'_>) -> bool
    ensures { IsTrue result ↔ Fits code argument.now }
{
    match code_of(argument) {
        Some(own) => own == code,
        None => !is_primitive(code),
    }
}

/// Checks that the arguments fit parameters of these types, one each. ArgumentCount comes exactly where their numbers differ, and WrongArgument names
/// the first that does not fit.
pub(crate) fn check_arguments(
    codes: &[TypeCode],
    arguments: &[Argument<'_>],
) -> Result<(), CallError>
    ensures fit { IfOk result (λ _. AllFit codes.now arguments.now) }
    ensures refused { IfErr result (RefusesArguments codes.now arguments.now) }
{
    if codes.len() != arguments.len() {
        return Err(CallError::ArgumentCount {
            wanted: codes.len(),
        });
    }
    for (place, argument) in arguments.iter().enumerate() {
        if !fits(codes[place], argument) {
            return Err(CallError::WrongArgument { place });
        }
    }
    Ok(())
}
