//! One turn of a connection at a time.
ghost use Rattle.std.specs.Prelude.{◌≡◌, ◌<◌, ℕ, List, Option};
ghost use Rattle.object_ids.specs.declared.ids.ObjId.{ObjId};
ghost use Rattle.space.specs.TurnAnswers.{IsAnswerTo};
ghost use Rattle.ports.specs.Ports.{Shows};
ghost use Rattle.space.specs.declared.asked.Asked.{Asked};
ghost use Rattle.call_dispatch.specs.Conditions.{OnlyTurns};
ghost use Rattle.call_dispatch.specs.Acts.{Led, observed, tells_of, TakesTurn, GivesUp};
ghost use Rattle.call_dispatch.specs.ConnectionState.{observed_of};

use crate::connection::Connection;
use crate::worker::Worker;
use history::{Ask, Refused, Turn};
use object_ids::ObjId;
use ports::Port;
use wire_io::{Clock, Sink, Source};

/// Tells the worker of each object that it is no longer exported.
pub fn notify_unreferenced<W: Worker>(worker: &mut W, gone: &[ObjId])
    ensures led { (asked : List Asked) (given : Option (List ℕ)) → Led W.may W.moves
        (observed asked given (W.shown worker.old))
        (observed asked given (W.shown worker.new))
        (tells_of gone.now) }
    ensures calls { (W.shown worker.new).calls ≡ (W.shown worker.old).calls }
{
    for object in gone {
        worker.unreferenced(*object);
    }
}

/// Makes a turn at the clock's moment, which is read once, and tells the worker what is gone.
pub fn take_turn<S: Source, K: Sink, C: Clock, P: Port, W: Worker>(
    connection: &mut Connection<S, K, C, P, W>,
    ask: Ask,
) -> Result<Turn, Refused>
    requires ready { P.ready connection.old.port.now }
    requires room { 0 < (P.shown connection.old.port.now).room }
    ensures led { TakesTurn W.may W.moves
        (observed_of C.given P.shown W.shown connection.old)
        (observed_of C.given P.shown W.shown connection.new) ask result }
    ensures answers { IsAnswerTo (Shows (P.shown connection.old.port.now).asked) ask result }
    ensures frame { OnlyTurns P.ready P.shown P.leads W.shown 1 connection.old connection.new }
{
    let moment = connection.clock.now();
    let answer = connection.port.turn(moment, ask);
    if let Ok(turn) = &answer {
        notify_unreferenced(connection.worker, turn.gone.as_slice());
    }
    answer
}

/// Ends the call that runs of an object without an answer, at the clock's moment. It takes no memory.
pub fn give_up<S: Source, K: Sink, C: Clock, P: Port, W: Worker>(
    connection: &mut Connection<S, K, C, P, W>,
    object: ObjId,
)
    requires ready { P.ready connection.old.port.now }
    requires room { 0 < (P.shown connection.old.port.now).room }
    requires runs { Shows (P.shown connection.old.port.now).asked object }
    ensures led { GivesUp W.may W.moves
        (observed_of C.given P.shown W.shown connection.old)
        (observed_of C.given P.shown W.shown connection.new) object }
    ensures frame { OnlyTurns P.ready P.shown P.leads W.shown 1 connection.old connection.new }
    ensures worker { connection.new.worker ≡ connection.old.worker }
{
    let moment = connection.clock.now();
    connection.port.abandon(moment, object);
}
