//! The method that is called.
ghost use Rattle.std.specs.Prelude.{◌≡◌, ◌≢◌, ◌&&◌, option_map};
ghost use Rattle.std.specs.List.{list_all};
ghost use Rattle.method_hash.specs.declared.method.MethodFault.TheVariants as faults;
ghost use Rattle.rmi_words.specs.CallWords.{IsMethodIn, IsMethodOf, is_printed, is_said};
ghost use Rattle.rmi_words.specs.Clients.{Reads};
ghost use Rattle.rmi_words.specs.declared.command.WordsFault.TheVariants.{Usage};

use crate::command::WordsFault;
use class_desc::TypeCode;
use method_hash::{Method, MethodFault};
use std::alloc::Global;

/// Returns the method of which the word is the text. The fault is Usage only where it is none's that may be called, or is left out.
pub(crate) fn read_method(alloc: Global, word: Option<&str>) -> Result<Method, WordsFault>
    ensures { Reads IsMethodOf result (option_map (λ text. text.now) word.entry) }
{
    match word {
        Some(text) => parse_method(alloc, text.as_bytes()),
        None => Err(WordsFault::Usage),
    }
}

/// Returns the method of a text, where words can say its arguments and its result can be printed.
fn parse_method(alloc: Global, text: &[u8]) -> Result<Method, WordsFault>
    ensures { Reads IsMethodIn result text.now }
{
    let method = match Method::parse(alloc, text) {
        Ok(method) => method,
        Err(fault) => return Err(fault_of_method(fault)),
    };
    if can_be_called(&method) {
        Ok(method)
    } else {
        Err(WordsFault::Usage)
    }
}

/// Returns true if words can say the method's arguments and its result can be printed.
fn can_be_called(method: &Method) -> bool
    ensures { result ≡ list_all is_said method.now.params && is_printed method.now.result }
{
    are_said(method.params.as_slice()) && is_printed(method.result)
}

/// Returns OutOfMemory for want of memory, and Usage for a text that is no method's.
fn fault_of_method(fault: MethodFault) -> WordsFault
    ensures { result ≡ Usage → fault ≢ faults.OutOfMemory }
{
    match fault {
        MethodFault::OutOfMemory => WordsFault::OutOfMemory,
        MethodFault::BadDescriptor { at: _ } => WordsFault::Usage,
    }
}

/// Returns true if words can say an argument of each type.
fn are_said(codes: &[TypeCode]) -> bool
    ensures { result ≡ list_all is_said codes.now }
{
    codes.iter().all(|code| is_said(*code))
}

/// Returns true if a word can say an argument of the type.
fn is_said(code: TypeCode) -> bool
    ensures { result ≡ is_said code }
{
    match code {
        TypeCode::Float => false,
        TypeCode::Double => false,
        TypeCode::Array => false,
        _ => true,
    }
}

/// Returns true if a result of the type can be printed; None is that of a method that returns nothing.
fn is_printed(returned: Option<TypeCode>) -> bool
    ensures { result ≡ is_printed returned }
{
    match returned {
        Some(TypeCode::Float) => false,
        Some(TypeCode::Double) => false,
        _ => true,
    }
}
