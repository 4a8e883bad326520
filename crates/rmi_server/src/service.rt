//! The one trait that an author implements.
use crate::call::Call;
use crate::fault::CallFault;
use crate::reply::Reply;
use object_ids::ObjId;

/// Does the calls of the objects that a server has. Nothing has to be proved of it but that it is safe and returns.
pub trait Service: Drop {
    ghost use Rattle.std.specs.Prelude.{Result};
    ghost use Rattle.method_hash.specs.declared.method.Method.{Method};
    ghost use Rattle.call_dispatch.specs.declared.outcome.Invocation.{Invocation};
    ghost use Rattle.rmi_server.specs.declared.fault.CallFault.{CallFault};
    ghost use Rattle.rmi_server.specs.declared.reply.Reply.{Reply};

    /// The answers that the service may give to a call of a method. They are all answers, unless an author says which.
    ghost may_answer: { Invocation → Method → Result Reply CallFault → Type 0 } = { λ _ _ _.
        Unit {0} };

    /// Does a call of a method, and returns its result, or the fault that the client gets as an exception.
    fn call(&mut self, call: &Call<'_>) -> Result<Reply, CallFault>
        ensures answers { may_answer call.now.invocation.now call.now.method.now result };

    /// Is called once an object is no longer exported. A service that keeps something for each object forgets it here.
    fn unreferenced(&mut self, object: ObjId);
}
