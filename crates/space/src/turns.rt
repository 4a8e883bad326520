//! The space, turn by turn.
ghost use Rattle.std.specs.Prelude.{◌≡◌, ◌≤◌, ◌<◌, [], true, length, IfOk, OnOk, OnErr};
ghost use Rattle.history.specs.Collector.{Collects};
ghost use Rattle.history.specs.Places as place_words;
ghost use Rattle.history.specs.Running.{running_calls_by};
ghost use Rattle.history.specs.Steps.{Step, IsLegal};
ghost use Rattle.history.specs.Table.{places, table};
ghost use Rattle.history.specs.declared.limits.TheConstants.{END_OF_TIME, MAX_DURATION_MS};
ghost use Rattle.space.specs.Acts.{event_of};
ghost use Rattle.space.specs.Noted.{turn_answer};
ghost use Rattle.space.specs.TurnAnswers.{IsAnswerTo};

use crate::acts::put_event;
use crate::runs::Runs;
use crate::tables::Tables;
use crate::withdrawals::Withdrawals;
use dgc_server::Leases;
use event_log::SpaceEvents;
use export_table::Exports;
use history::{Ask, Event, Refused, SpaceConfig, Turn};
use object_ids::{ObjId, ObjIds};
use rmi_registry::Names;
use std::alloc::Global;
use std::fmt;
use std::marker::Model;

/// A space of exported objects. Contracts see it as a `SpaceHistory`: its configuration, the list of the events that it took, the oldest
/// first, and the rows of its export table, one for each exported object. All else that it answers follows from these.
pub struct Space {
    /// The tables that answer its turns.
    pub(crate) tables: Tables,
}

/// Written out: a function that owns a space then calls this at each of its exits, where a derived one would be the drops of all the
/// tables there.
impl Drop for Space {
    fn drop(self) {
        let Space { tables } = self;
        drop(tables);
    }
}

impl fmt::Debug for Space {
    fn fmt<W: fmt::Write>(&self, f: &mut fmt::Formatter<W>) -> fmt::Result {
        f.debug_struct("Space")
            .field("events", &self.tables.events.len())
            .finish_non_exhaustive()
    }
}

impl Model for Space {
    ghost use Rattle.space.specs.Built.{SpaceHistory, exported_rows};
    ghost use Rattle.space.specs.Whole.{IsWhole};

    ghost Value = { SpaceHistory };

    ghost view = { λ a. record {
      configuration = a.tables.config;
      events = a.tables.events.items;
      rows = exported_rows a.tables.exports.rows;
    } };

    ghost invariant = { λ a. IsWhole a.tables };
}

impl Space {
    /// Returns the space without events. Its leases and its times to acknowledge last from 1 to 2^40 milliseconds. The configuration's `stored` says
    /// whether the space keeps its events, and the withdrawals that it reported as gone. If not, they exist in proofs alone and take no memory.
    pub fn fresh(alloc: Global, config: &SpaceConfig) -> Space
        requires some_lease { 1 ≤ config.now.lease_ms }
        requires short_lease { config.now.lease_ms ≤ MAX_DURATION_MS }
        requires some_ack { 1 ≤ config.now.ack_ms }
        requires short_ack { config.now.ack_ms ≤ MAX_DURATION_MS }
        ensures { result ≡ record { configuration = config.now; events = []; rows = [] } }
    {
        Space {
            tables: Tables {
                alloc,
                config: *config,
                moment: 0,
                units: 0,
                leases: Leases::fresh(alloc, config.lease_ms),
                exports: Exports::fresh(alloc, config.uid, config.ack_ms),
                runs: Runs::new(alloc),
                events: SpaceEvents::new(alloc, config.uid, config.stored),
                withdrawn: Withdrawals::new(alloc),
                reported: 0,
                added: 0,
                names: Names::fresh(alloc),
            },
        }
    }

    /// Takes an event that connection `by` hands in at a moment, in milliseconds, and answers it; or refuses
    /// it, and is as it was, the present moment included. HistoryFull comes exactly where the events' units
    /// or the running calls would pass their limit; else Full(Exports), Full(Awaiting), Full(Clients), Full(Pairs) and Full(Names), in
    /// this order, exactly where the entries of these tables would. OutOfMemory may come in place of any answer.
    pub fn turn(&mut self, by: u32, moment: u64, ask: Ask) -> Result<Turn, Refused>
        requires moment { moment < END_OF_TIME }
        ensures step { Step self.old.configuration self.old.events
            (record { by = by; moment = moment; ask = ask }) result self.new.events }

        // Of the objects that were exported, and of those that the event exports, the space keeps what there is a reason to keep, and the
        // rest is withdrawn.
        ensures collector { OnOk result
            (Collects self.old.configuration self.old.events self.old.rows (event_of by moment ask)
            self.new.events self.new.rows) }
        ensures config { self.new.configuration ≡ self.old.configuration }
        ensures err { OnErr result (self.new ≡ self.old) }

        // The answer is one that its ask may have.
        ensures row { IsAnswerTo
            (λ o. 0 < running_calls_by (places self.old.configuration self.old.events) by o) ask
            result }
    {
        let _count = self.tables.names.len();
        match self.turn_with(by, moment, ask, false) {
            Ok((turn, _copy)) => Ok(turn),
            Err(refused) => Err(refused),
        }
    }

    /// Does what `turn` does, and returns its answer. Where the turn is `noted`, it also returns a copy of the
    /// objects that the turn reports as gone.
    pub(crate) fn turn_with(
        &mut self,
        by: u32,
        moment: u64,
        ask: Ask,
        noted: bool,
    ) -> Result<(Turn, ObjIds), Refused>
        requires moment { moment < END_OF_TIME }
        ensures step { Step self.old.configuration self.old.events (event_of by moment ask)
            (turn_answer result) self.new.events }
        ensures copy { IfOk result (λ x. noted ≡ true → x.1 ≡ x.0.gone) }
        ensures collector { OnOk result
            (Collects self.old.configuration self.old.events self.old.rows (event_of by moment ask)
            self.new.events self.new.rows) }
        ensures config { self.new.configuration ≡ self.old.configuration }
        ensures err { OnErr result (self.new ≡ self.old) }
    {
        let event = Event { by, moment, ask };
        match self.tables.turn(&event, noted) {
            Ok(turn) => {
                put_event(&mut self.tables.events, event);
                Ok(turn)
            }
            Err(refused) => {
                // By hand, so that it is dropped in one call and not field by field.
                drop(event);
                Err(refused)
            }
        }
    }

    /// Returns whether the space keeps its events, so that its journal and its outline can be read.
    pub fn is_stored(&self) -> bool
        ensures { result ≡ self.now.configuration.stored }
    {
        self.tables.config.stored
    }

    /// The greatest moment of the events, in milliseconds; 0 where there are none.
    pub fn now(&self) -> u64
        ensures { result ≡ place_words.now (places self.now.configuration self.now.events) }
    {
        self.tables.moment
    }

    /// Returns the number of calls of an object that a connection runs.
    pub fn running(&self, by: u32, object: ObjId) -> u32
        ensures { result ≡ running_calls_by (places self.now.configuration self.now.events) by
            object }
    {
        self.tables.runs.count(by, &object) as u32
    }

    /// Returns the number of events. They are a legal history, one that turns make of the empty one. None of them is
    /// of a later moment than 2^62 - 1. The rows are those of the history's table.
    pub fn len(&self) -> u64
        ensures value { result ≡ length self.now.events }
        ensures legal { IsLegal self.now.configuration self.now.events }
        ensures rows { self.now.rows
            ≡ table self.now.configuration (places self.now.configuration self.now.events) }
        ensures early { place_words.now (places self.now.configuration self.now.events)
            < END_OF_TIME }
    {
        self.tables.events.len() as u64
    }
}
