//! The tables of a space, and the effects of a turn on them.
ghost use Rattle.std.specs.Prelude.{◌≡◌, ◌<◌, ◌++◌, ◌∷◌, [], true, Ok, Err, IfOk, IfErr, OnOk, OnErr};
ghost use Rattle.history.specs.Steps.{Step};
ghost use Rattle.history.specs.declared.limits.TheConstants.{END_OF_TIME};
ghost use Rattle.space.specs.Ready.{IsReady};
ghost use Rattle.space.specs.Whole.{IsWhole, IsWholeWith};

use crate::acts::act;
use crate::asks::reported_after;
use crate::doubts::{Doubt, withdraw};
use crate::prepared::{Admitted, Prepared, admit, prepare};
use crate::rooms::room_for_all;
use crate::runs::{Runs, act_on_runs};
use crate::withdrawals::{Withdrawals, forget_told};
use dgc_server::Leases;
use event_log::SpaceEvents;
use export_table::Exports;
use history::asks::units_of;
use history::{Event, Refused, SpaceConfig, Turn};
use object_ids::ObjIds;
use rmi_registry::Names;
use std::alloc::Global;

/// The record that a space keeps of the events that it took.
#[derive(Drop)]
pub struct Tables {
    /// Where it takes memory.
    pub alloc: Global,
    /// The configuration of the space.
    pub config: SpaceConfig,
    /// The greatest moment so far, in milliseconds.
    pub moment: u64,
    /// The units of the events.
    pub units: u64,
    /// The leases of clients.
    pub leases: Leases,
    /// The exported objects, and the references that await.
    pub exports: Exports,
    /// The names, each with the object for which it stands.
    pub names: Names,
    /// The calls that run.
    pub runs: Runs,
    /// The events.
    pub events: SpaceEvents,
    /// The withdrawals, in their order.
    pub withdrawn: Withdrawals,
    /// The number of withdrawals that were reported as gone.
    pub reported: usize,
    /// The number of objects that were ever exported.
    pub added: u64,
}

impl Tables {
    /// Does what a turn does but for the event itself, which the caller appends: there is room for it. Where the turn is `noted`, a copy of
    /// the objects that it tells as gone is beside it. A refused turn leaves more room at most.
    pub(crate) fn turn(&mut self, event: &Event, noted: bool) -> Result<(Turn, ObjIds), Refused>
        requires moment { event.now.moment < END_OF_TIME }
        requires whole { IsWhole self.old }
        ensures taken { IfOk result (λ x. Step self.old.config self.old.events.items event.now
            (Ok x.0) (self.old.events.items ++ event.now ∷ [])) }
        ensures copy { IfOk result (λ x. noted ≡ true → x.1 ≡ x.0.gone) }
        ensures refused { IfErr result (λ refused. Step self.old.config self.old.events.items
            event.now (Err refused) self.old.events.items) }
        ensures with_event { OnOk result
            (IsWholeWith self.new (self.new.events.items ++ event.now ∷ [])) }
        ensures whole { OnErr result (IsWhole self.new) }
        ensures events { self.new.events.items ≡ self.old.events.items }
        ensures spare { OnOk result (self.new.events.spare ≡ true) }
        ensures config { self.new.config ≡ self.old.config }
    {
        let admitted = admit(self, event.by, &event.ask)?;
        let now = event.moment.max(self.moment);
        let ready = prepare(self, admitted, now, noted, &event.ask)?;
        room_for_all(
            &mut self.events,
            &mut self.runs,
            &mut self.withdrawn,
            &mut self.exports,
            &ready,
        )?;
        self.settle(admitted.effective, now, &event.ask)?;
        Ok(self.take(event, admitted, ready, noted))
    }

    /// Takes a turn that nothing can refuse any more: the leases and the names know of it already, and there is room for all that it adds. What it
    /// answers, and the copy, are as `turn` says.
    fn take(
        &mut self,
        event: &Event,
        admitted: Admitted,
        mut ready: Prepared,
        noted: bool,
    ) -> (Turn, ObjIds)
        requires ready { IsReady self.old event.now admitted ready noted }
        ensures taken { Step self.old.config self.old.events.items event.now (Ok result.0)
            (self.old.events.items ++ event.now ∷ []) }
        ensures copy { noted ≡ true → result.1 ≡ result.0.gone }
        ensures with_event { IsWholeWith self.new (self.new.events.items ++ event.now ∷ []) }
        ensures events { self.new.events ≡ self.old.events }
        ensures config { self.new.config ≡ self.old.config }
    {
        let ask = &event.ask;
        let now = event.moment.max(self.moment);
        let place = self.events.len() as u64;
        act(
            &mut self.exports,
            admitted,
            now,
            &ready.listed.references,
            ask,
        );
        act_on_runs(&mut self.runs, admitted.effective, event.by, ask);
        let untold = ready.untold.gone.len();
        withdraw(
            &mut self.exports,
            &mut self.leases,
            now,
            Doubt {
                all: false,
                objects: &ready.listed.doubtful,
            },
            &mut ready.untold.gone,
        );
        self.withdrawn.note(&ready.untold.gone, untold, place);
        forget_told(&mut self.withdrawn, self.config.stored, ask);
        self.reported = reported_after(self.reported, self.withdrawn.len(), ask);
        self.added += ready.opened;
        self.units += units_of(ask);
        self.moment = now;
        ready.into_turn(self.alloc, place, noted)
    }
}
