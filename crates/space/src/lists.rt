//! Whole lists of events, and what they leave exported.
ghost use Rattle.std.specs.Prelude.{◌≡◌, ◌≢◌, ◌≤◌, ◌<◌, [], length, map, take, Err, IfOk, OnErr};
ghost use Rattle.std.specs.List.{AllByRecursion};
ghost use Rattle.history.specs.Collector.{rows_after_each};
ghost use Rattle.history.specs.Steps.{Steps, IsLegal, answers as answers_to};
ghost use Rattle.history.specs.Limits.{limits};
ghost use Rattle.history.specs.Table.{places, table};
ghost use Rattle.history.specs.declared.limits.TheConstants.{END_OF_TIME, MAX_DURATION_MS};
ghost use Rattle.space.specs.EventLists.{CollectsEach, TakesFront, kind_among, with_kind, row_kind};

use crate::turns::Space;
use export_table::ExportRow;
use history::{Event, Refused, SpaceConfig, Turn};
use object_ids::ObjId;
use std::alloc::{AllocError, Global};

/// The answers to a list of events, up to the first that is refused.
#[derive(Debug, Drop)]
pub struct Turns {
    /// The turns of the events that were taken, in their order.
    pub turns: Vec<Turn>,
    /// Why the next event was refused; None where all were taken.
    pub refused: Option<Refused>,
}

/// An exported object.
#[derive(Clone, Copy, Debug, PartialEq, Eq)]
pub struct ObjectKind {
    /// Its identifier.
    pub id: ObjId,
    /// Its kind, a number of its maker's.
    pub kind: u32,
}

impl Space {
    /// The space that takes these events, the one after the other, up to the first that is refused, and what they
    /// are answered: the turns are those of the history that begins with the first of them.
    pub fn of_events(
        alloc: Global,
        config: &SpaceConfig,
        events: Vec<Event>,
    ) -> Result<(Space, Turns), AllocError>
        requires some_lease { 1 ≤ config.now.lease_ms }
        requires short_lease { config.now.lease_ms ≤ MAX_DURATION_MS }
        requires some_ack { 1 ≤ config.now.ack_ms }
        requires short_ack { config.now.ack_ms ≤ MAX_DURATION_MS }
        requires moments { AllByRecursion (λ e. e.moment < END_OF_TIME) events.items }
        ensures collector { IfOk result (λ p. CollectsEach config.now [] []
            (take (length p.1.turns.items) events.items) p.0.events p.0.rows) }
        ensures rows { IfOk result (λ p. p.0.rows ≡ rows_after_each config.now [] []
            (take (length p.1.turns.items) events.items)) }
        ensures taken { IfOk result
            (λ p. TakesFront config.now [] events.items p.1.turns.items p.1.refused p.0.events) }
        ensures config { IfOk result (λ p. p.0.configuration ≡ config.now) }
        ensures legal { IfOk result (λ p. IsLegal config.now p.0.events) }
    {
        let mut space = Space::fresh(alloc, config);
        match space.turns(events) {
            Ok(turns) => Ok((space, turns)),
            Err(refused) => Err(refused),
        }
    }

    /// Takes events, the one after the other, up to the first that is refused. It fails only where there is no
    /// memory for the list of the turns; then no event was taken.
    pub fn turns(&mut self, events: Vec<Event>) -> Result<Turns, AllocError>
        requires moments { AllByRecursion (λ e. e.moment < END_OF_TIME) events.items }
        ensures collector { IfOk result (λ t. CollectsEach self.old.configuration self.old.events
            self.old.rows (take (length t.turns.items) events.items) self.new.events
            self.new.rows) }
        ensures rows { IfOk result (λ t. self.new.rows
            ≡ rows_after_each self.old.configuration self.old.events self.old.rows
            (take (length t.turns.items) events.items)) }
        ensures taken { IfOk result (λ t. TakesFront self.old.configuration self.old.events
            events.items t.turns.items t.refused self.new.events) }
        ensures config { self.new.configuration ≡ self.old.configuration }
        ensures err { OnErr result (self.new ≡ self.old) }
    {
        let mut turns = Vec::with_capacity(self.tables.alloc, events.len())?;
        for event in events {
            let Event { by, moment, ask } = event;
            match self.turn(by, moment, ask) {
                Ok(turn) => turns.push_reserved(turn),
                Err(refused) => {
                    return Ok(Turns {
                        turns,
                        refused: Some(refused),
                    });
                }
            }
        }
        Ok(Turns {
            turns,
            refused: None,
        })
    }

    /// Asks events, the one after the other, also after one that is refused, and answers them in their order. It fails only where there is no
    /// memory for the list of the answers; then none was asked.
    pub fn answers(&mut self, events: Vec<Event>) -> Result<Vec<Result<Turn, Refused>>, AllocError>
        requires moments { AllByRecursion (λ e. e.moment < END_OF_TIME) events.items }
        ensures answered { IfOk result (λ answers. Steps self.old.configuration self.old.events
            events.items answers.items self.new.events) }

        // No memory wanting, there is one list of answers.
        ensures exact { IfOk result (λ answers. AllByRecursion (λ a. a ≢ Err Refused.OutOfMemory)
            answers.items
            → answers.items
            ≡ answers_to (limits self.old.configuration) self.old.configuration self.old.events
            events.items) }
        ensures config { self.new.configuration ≡ self.old.configuration }
        ensures err { OnErr result (self.new ≡ self.old) }
    {
        let mut answers = Vec::with_capacity(self.tables.alloc, events.len())?;
        for event in events {
            let Event { by, moment, ask } = event;
            answers.push_reserved(self.turn(by, moment, ask));
        }
        Ok(answers)
    }

    /// Returns the kind of an exported object; None where it isn't exported. It is told by the rows of the export table, which are those of the
    /// history's table.
    pub fn kind_of(&self, object: ObjId) -> Option<u32>
        ensures rows { result ≡ kind_among self.now.rows object }
        ensures table { result ≡ kind_among
            (table self.now.configuration (places self.now.configuration self.now.events)) object }
    {
        self.tables.exports.find(object)
    }

    /// Returns the exported objects, by rising number. They are the rows of the export table, which are those of the history's table. It is
    /// refused only for want of memory.
    pub fn exported_objects(&self) -> Result<Vec<ObjectKind>, AllocError>
        ensures rows { IfOk result (λ objects. objects.items ≡ map with_kind self.now.rows) }
        ensures table { IfOk result (λ objects. objects.items
            ≡ map with_kind
            (table self.now.configuration (places self.now.configuration self.now.events))) }
    {
        let rows = self
            .tables
            .exports
            .rows(self.tables.alloc, self.tables.moment)?;
        let objects = kinds(self.tables.alloc, rows.as_slice())?;
        Ok(objects)
    }
}

/// The objects of rows, each with its kind.
fn kinds(alloc: Global, rows: &[ExportRow]) -> Result<Vec<ObjectKind>, AllocError>
    ensures { IfOk result (λ objects. objects.items ≡ map row_kind rows.now) }
{
    rows.iter()
        .map(|row| ObjectKind {
            id: row.id,
            kind: row.kind,
        })
        .collect(alloc)
}
