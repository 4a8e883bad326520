//! A call that is ready to be sent.
ghost use Rattle.std.specs.Prelude.{◌≡◌, IfOk, IfErr};
ghost use Rattle.rmi_caller.specs.Calls.{IsPrepared, RefusesCall};

use crate::argument::{Argument, check_arguments};
use crate::arguments::arguments_graph;
use crate::error::CallError;
use class_desc::TypeCode;
use method_hash::{Method, hash};
use ser_values::Graph;
use std::alloc::Global;

/// A method of a remote object, and what it is called with.
pub(crate) struct Prepared {
    /// The method's hash.
    pub(crate) hash: i64,
    /// The arguments, which are the items of this graph.
    pub(crate) arguments: Graph,
    /// The type of the method's result; None where it has none.
    pub(crate) result: Option<TypeCode>,
}

// Written out, so that whoever owns one has one call at each exit, and not the drop of each field.
impl Drop for Prepared {
    fn drop(self) {
        let Prepared {
            hash: _,
            arguments,
            result: _,
        } = self;
        drop(arguments);
    }
}

/// Returns the call of the method of this text with these arguments, ready to be sent.
pub(crate) fn prepare(
    alloc: Global,
    text: &str,
    arguments: &[Argument<'_>],
) -> Result<Prepared, CallError>
    ensures ready { IfOk result (IsPrepared text.now arguments.now) }
    ensures refused { IfErr result (RefusesCall text.now arguments.now) }
{
    let method = Method::parse(alloc, text.as_bytes())?;
    check_arguments(method.params.as_slice(), arguments)?;
    let graph = arguments_graph(alloc, arguments)?;
    Ok(Prepared {
        hash: hash(&method),
        arguments: graph,
        result: method.result,
    })
}
