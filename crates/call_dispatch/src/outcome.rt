//! The calls that a worker gets, and their outcomes.
ghost use Rattle.std.specs.Prelude.{◌≡◌, IfOk};

use jrmp_frames::Arguments;
use object_ids::ObjId;
use sequence::{Sequence, TryCopy, Units};
use ser_values::{Graph, Value};
use std::alloc::{AllocError, Global};

/// A call of a method, as a worker gets it.
#[derive(Debug)]
pub struct Invocation {
    /// The object whose method is called.
    pub object: ObjId,
    /// The object's kind, a place in the list of kinds.
    pub kind: u32,
    /// The method, a place in the list of the kind's methods.
    pub method: u32,
    /// The arguments of the call.
    pub arguments: Arguments,
}

// Written out, so that whoever owns one has one call at each exit, and not the drop of each field.
impl Drop for Invocation {
    fn drop(self) {
        let Invocation {
            object: _,
            kind: _,
            method: _,
            arguments,
        } = self;
        drop(arguments);
    }
}

impl Invocation {
    /// The arguments. It takes no memory.
    pub fn into_arguments(self) -> Arguments
        ensures { result ≡ self.arguments }
    {
        let Invocation {
            object: _,
            kind: _,
            method: _,
            arguments,
        } = self;
        arguments
    }
}

/// The outcome of an invocation.
#[derive(Debug, Drop)]
pub enum Outcome {
    /// The method has no result.
    Void,
    /// A number, a character or a truth value.
    Prim(Value),
    /// A reference, as a graph whose one item it is. The server's own objects to which the graph refers are kept until the client has
    /// acknowledged the result, as far as they are exported.
    Tree(Graph),
    /// A reference to a new object of this kind, which is exported when the call is finished.
    NewRemote(u32),
    /// A reference to an object of the server, and its kind. It is kept until the client has acknowledged the result, if it is exported.
    OldRemote(ObjId, u32),
    /// An exception with this text.
    Fault(Units),
    /// There was no memory.
    OutOfMemory,
}

/// A list of outcomes.
pub type OutcomeList = Sequence<Outcome>;

/// A copy of a graph, which equals its source. It is refused only for want of memory.
fn copy_graph(alloc: Global, graph: &Graph) -> Result<Graph, AllocError>
    ensures { IfOk result (λ copy. copy ≡ graph.now) }
{
    graph.copy(alloc)
}

impl TryCopy for Outcome {
    fn try_copy(&self, alloc: Global) -> Result<Outcome, AllocError> {
        Ok(match self {
            Outcome::Void => Outcome::Void,
            Outcome::Prim(value) => Outcome::Prim(*value),
            Outcome::Tree(graph) => Outcome::Tree(copy_graph(alloc, graph)?),
            Outcome::NewRemote(kind) => Outcome::NewRemote(*kind),
            Outcome::OldRemote(object, kind) => Outcome::OldRemote(*object, *kind),
            Outcome::Fault(message) => Outcome::Fault(message.copy(alloc)?),
            Outcome::OutOfMemory => Outcome::OutOfMemory,
        })
    }
}
