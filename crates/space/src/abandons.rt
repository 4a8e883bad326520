//! Calls that end without an answer.
ghost use Rattle.std.specs.Prelude.{◌≡◌, ◌<◌, Ok};
ghost use Rattle.history.specs.declared.asks.Ask.TheVariants.{Abandon};
ghost use Rattle.history.specs.Collector.{Collects};
ghost use Rattle.history.specs.Running.{running_calls_by};
ghost use Rattle.history.specs.Steps.{Step, turn_of};
ghost use Rattle.history.specs.Table.{places, with_event};
ghost use Rattle.history.specs.declared.limits.TheConstants.{END_OF_TIME};
ghost use Rattle.space.specs.Acts.{event_of};

use crate::acts::put_event;
use crate::doubts::{Doubt, takes_time};
use crate::turns::Space;
use history::{Ask, Event};
use object_ids::ObjId;

impl Space {
    /// Ends a call of an object that connection `by` runs, at a moment, in milliseconds, without an answer. It
    /// takes no memory and is never refused. The objects that it withdraws are told by the next turn.
    pub fn abandon(&mut self, by: u32, moment: u64, object: ObjId)
        requires moment { moment < END_OF_TIME }
        requires running { 0 < running_calls_by (places self.old.configuration self.old.events) by
            object }
        ensures events { self.new.events
            ≡ with_event self.old.events (event_of by moment (Abandon object)) }
        ensures config { self.new.configuration ≡ self.old.configuration }

        // Of the objects that were exported the space keeps what there is a reason to keep, and the rest is withdrawn.
        ensures collector { Collects self.old.configuration self.old.events self.old.rows
            (event_of by moment (Abandon object)) self.new.events self.new.rows }

        // It is taken: no limit refuses it.
        ensures step { let e = event_of by moment (Abandon object) in
            Step self.old.configuration self.old.events e
            (Ok (turn_of self.old.configuration self.old.events e)) self.new.events }
    {
        let now = moment.max(self.tables.moment);
        let place = self.tables.events.len() as u64;
        let all = takes_time(&self.tables.exports, &self.tables.leases, now);
        self.tables.leases.lapse(now);
        self.tables.exports.end(object);
        self.tables.runs.end_one(by, &object);
        self.tables.withdrawn.withdraw(
            &mut self.tables.exports,
            &mut self.tables.leases,
            now,
            Doubt {
                all,
                objects: &[object],
            },
            place,
        );
        self.tables.units += 1;
        self.tables.moment = now;
        let ask = Ask::Abandon { object };
        put_event(&mut self.tables.events, Event { by, moment, ask });
    }
}
