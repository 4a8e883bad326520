//! The words of `call`.
ghost use Rattle.std.specs.Prelude.{codes, map};
ghost use Rattle.rmi_words.specs.CallWords.{AreArguments};
ghost use Rattle.rmi_words.specs.Clients.{Reads};
ghost use Rattle.rmi_words.specs.Values.{IsCommandOf, arguments_of, given_of};

use crate::arguments::read_arguments;
use crate::client::{ServerAddress, read_name, read_server};
use crate::command::{Command, WordsFault};
use crate::methods::read_method;
use clap::ArgMatches;
use class_desc::TypeCode;
use history::Name;
use method_hash::Method;
use sequence::{Sequence, Units};
use ser_values::Value;
use std::alloc::Global;

/// An argument of a call, as its word says it.
#[derive(Debug)]
pub enum Argument {
    /// A number, a character or a truth value. It is never a reference.
    Prim(Value),
    /// A string.
    Text(Units),
}

// Written out, so that whoever owns one has one call at each exit, and not the drop of each variant.
impl Drop for Argument {
    fn drop(self) {
        match self {
            Argument::Prim(_) => {}
            Argument::Text(units) => drop(units),
        }
    }
}

/// A list of arguments.
pub type ArgumentList = Sequence<Argument>;

/// A call of a method, as the words of `call` say it.
#[derive(Debug)]
pub struct CallWords {
    /// Where the registry is.
    pub server: ServerAddress,
    /// The name that the registry is asked for.
    pub name: Name,
    /// The method that is called. Its parameters are no arrays; it has no `float` or `double`, neither as a parameter nor as its result.
    pub method: Method,
    /// The arguments, one for each of the method's parameters, in order.
    pub arguments: ArgumentList,
}

// Written out, so that whoever owns one has one call at each exit, and not the drop of each field.
impl Drop for CallWords {
    fn drop(self) {
        let CallWords {
            server,
            name,
            method,
            arguments,
        } = self;
        drop(server);
        drop(name);
        drop(method);
        drop(arguments);
    }
}

/// Returns what `call` is told.
pub(crate) fn read_call(alloc: Global, values: &ArgMatches) -> Result<Command, WordsFault>
    ensures { Reads (IsCommandOf (codes "call")) result (given_of values.now) }
{
    let server = read_server(alloc, values)?;
    let name = read_name(alloc, values.get_str("NAME"))?;
    let method = read_method(alloc, values.get_str("METHOD"))?;
    let arguments = read_argument_words(alloc, method.params.as_slice(), values)?;
    Ok(Command::Call(CallWords {
        server,
        name,
        method,
        arguments,
    }))
}

/// Returns the arguments that the words ARG say, for parameters of these types. The fault is Usage only where they say none.
fn read_argument_words(
    alloc: Global,
    codes: &[TypeCode],
    values: &ArgMatches,
) -> Result<ArgumentList, WordsFault>
    ensures { Reads (AreArguments codes.now) result (arguments_of values.now) }
{
    match values.get_strs("ARG") {
        Some(words) => read_arguments(alloc, codes, words),
        None => read_arguments(alloc, codes, &[]),
    }
}
