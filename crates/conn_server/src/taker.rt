//! Who takes the report of each link as the link ends, and the events of the one history as they are handed on.
ghost use Rattle.std.specs.Prelude.{◌≡◌, ◌+◌, ◌<◌, ◌≤◌, List, [], ◌∷◌, ◌++◌, length, MatchBool};
ghost use Rattle.std.specs.List.Sorted.{IsNonDecreasingBy, IsPermutation};
ghost use Rattle.space.specs.declared.asked.Asked.{Asked};
ghost use Rattle.conn_server.specs.Taken.{Taken, Keeps, SameAll, SameReports};
ghost use Rattle.conn_server.specs.declared.taker.TheConstants.{MAX_PART};

use crate::link_task::LinkReport;
use history::Event;
use past::Past;
use space::Asked;
use std::alloc::Global;

/// The most events that a taker is given at once.
pub const MAX_PART: usize = 4_096;

/// Takes the reports of links, each when its link has ended, the entries of the server's own turns, and the events of the one history, where
/// the server hands them on.
pub trait ReportTaker<R>: Drop {
    // The reports, the entries and the events that it was given, each in the order of giving, and how many reports and
    // entries it has room for in all.
    ghost taken: { Self → Taken R };

    // Which reports it may be given.
    ghost expects: { Self → R → Type 0 };

    // The condition that holds between two calls.
    ghost holds: { Self → Type 0 };

    // The part of it that no call changes.
    ghost Stays: { Type 0 };

    ghost stays: { Self → Stays };

    /// Makes room for so many further reports and one further entry. False where there is no memory for that.
    fn reserve(&mut self, reports: usize) -> bool
        ensures reports { SameReports taken expects self.old self.new }
        ensures ticks { (taken self.new).ticks ≡ (taken self.old).ticks }
        ensures events { (taken self.new).events ≡ (taken self.old).events }
        ensures room { MatchBool result
            (length (taken self.new).reports + reports ≤ (taken self.new).report_limit)
            (Unit {0}) }
        ensures tick_room { MatchBool result
            (length (taken self.new).ticks < (taken self.new).tick_limit)
            (Unit {0}) }
        ensures keeps { Keeps holds stays self.old self.new };

    /// Is told that the link of this number begins. Its report comes once it has ended.
    fn began(&mut self, by: u32)
        ensures same { SameAll taken expects self.old self.new }
        ensures keeps { Keeps holds stays self.old self.new };

    /// Takes the report of a link that has ended.
    fn ended(&mut self, report: R)
        requires expected { expects self.old report }
        requires room { length (taken self.old).reports < (taken self.old).report_limit }
        ensures reports { (taken self.new).reports ≡ (taken self.old).reports ++ report ∷ [] }
        ensures ticks { (taken self.new).ticks ≡ (taken self.old).ticks }
        ensures events { (taken self.new).events ≡ (taken self.old).events }
        ensures room { (taken self.old).report_limit ≤ (taken self.new).report_limit }
        ensures expects { (other : R) → expects self.old other → expects self.new other }
        ensures keeps { Keeps holds stays self.old self.new };

    /// Takes the entry of a turn of the server's own.
    fn ticked(&mut self, entry: Asked)
        requires room { length (taken self.old).ticks < (taken self.old).tick_limit }
        ensures ticks { (taken self.new).ticks ≡ (taken self.old).ticks ++ entry ∷ [] }
        ensures events { (taken self.new).events ≡ (taken self.old).events }
        ensures reports { SameReports taken expects self.old self.new }
        ensures keeps { Keeps holds stays self.old self.new };

    /// Takes the next events of the one history, in their order.
    fn record(&mut self, part: &[Event])
        requires few { length part.now ≤ MAX_PART }
        ensures events { (taken self.new).events ≡ (taken self.old).events ++ part.now }
        ensures ticks { (taken self.new).ticks ≡ (taken self.old).ticks }
        ensures tick_room { (taken self.old).tick_limit ≤ (taken self.new).tick_limit }
        ensures reports { SameReports taken expects self.old self.new }
        ensures keeps { Keeps holds stays self.old self.new };
}

/// Keeps all reports and entries, and no event.
#[derive(Drop)]
pub struct KeepsReports<I, O, T, H> {
    reports: Vec<LinkReport<I, O, T, H>>,
    ticks: Vec<Asked>,
    // The events that it was given. They take no memory and exist in proofs alone.
    events: Past<Event>,
}

/// Keeps nothing: it drops each report and each entry, and keeps no event.
#[derive(Drop)]
pub struct DropsReports<R> {
    // The reports, the entries and the events that it was given. They take no memory and exist in proofs alone.
    reports: Past<R>,
    ticks: Past<Asked>,
    events: Past<Event>,
}

/// Appends the events of a part to a list that exists in proofs alone.
fn note_part(events: &mut Past<Event>, part: &[Event])
    ensures { events.new ≡ events.old ++ part.now }
{
    for event in part {
        events.push(event);
    }
}

impl<I: Drop, O: Drop, T: Drop, H: Drop> KeepsReports<I, O, T, H> {
    /// It was given nothing yet.
    pub fn new(alloc: Global) -> KeepsReports<I, O, T, H>
        ensures reports { result.reports.items ≡ [] }
        ensures ticks { result.ticks.items ≡ [] }
        ensures events { result.events ≡ [] }
    {
        KeepsReports {
            reports: Vec::new(alloc),
            ticks: Vec::new(alloc),
            events: Past::new(),
        }
    }

    /// The reports in the order of their numbers, and the entries in the order of giving.
    pub fn in_order(self) -> (Vec<LinkReport<I, O, T, H>>, Vec<Asked>)
        ensures reports { IsPermutation self.reports.items result.0.items }
        ensures order { IsNonDecreasingBy (λ report. report.by) result.0.items }
        ensures ticks { result.1.items ≡ self.ticks.items }
    {
        let KeepsReports {
            mut reports,
            ticks,
            events: _,
        } = self;
        reports.sort_unstable_by_key(|report| report.by);
        (reports, ticks)
    }
}

impl<I: Drop, O: Drop, T: Drop, H: Drop> ReportTaker<LinkReport<I, O, T, H>>
    for KeepsReports<I, O, T, H> {
    ghost use Rattle.std.specs.Prelude.{vec_capacity};

    ghost taken = { λ k. record {
      reports = k.reports.items;
      ticks = k.ticks.items;
      events = k.events;
      report_limit = vec_capacity k.reports;
      tick_limit = vec_capacity k.ticks;
    } };

    ghost expects = { λ k report. Unit {0} };

    ghost holds = { λ k. Unit {0} };

    ghost Stays = { Unit {0} };

    ghost stays = { λ k. tt };

    fn reserve(&mut self, reports: usize) -> bool {
        self.reports.reserve(reports).is_ok() && self.ticks.reserve(1).is_ok()
    }

    fn began(&mut self, _by: u32) {}

    fn ended(&mut self, report: LinkReport<I, O, T, H>) {
        self.reports.push_reserved(report);
    }

    fn ticked(&mut self, entry: Asked) {
        self.ticks.push_reserved(entry);
    }

    fn record(&mut self, part: &[Event]) {
        note_part(&mut self.events, part);
    }
}

impl<R: Drop> DropsReports<R> {
    /// It was given nothing yet.
    pub fn new() -> DropsReports<R>
        ensures reports { result.reports ≡ [] }
        ensures ticks { result.ticks ≡ [] }
        ensures events { result.events ≡ [] }
    {
        DropsReports {
            reports: Past::new(),
            ticks: Past::new(),
            events: Past::new(),
        }
    }
}

impl<R: Drop> ReportTaker<R> for DropsReports<R> {
    ghost use Rattle.std.specs.Prelude.{◌+◌, ◌^◌, length};

    ghost taken = { λ d. record {
      reports = d.reports;
      ticks = d.ticks;
      events = d.events;
      report_limit = length d.reports + 2 ^ 64;
      tick_limit = length d.ticks + 2 ^ 64;
    } };

    ghost expects = { λ d report. Unit {0} };

    ghost holds = { λ d. Unit {0} };

    ghost Stays = { Unit {0} };

    ghost stays = { λ d. tt };

    fn reserve(&mut self, _reports: usize) -> bool {
        true
    }

    fn began(&mut self, _by: u32) {}

    fn ended(&mut self, report: R) {
        self.reports.push(&report);
        drop(report);
    }

    fn ticked(&mut self, entry: Asked) {
        self.ticks.push(&entry);
        drop(entry);
    }

    fn record(&mut self, part: &[Event]) {
        note_part(&mut self.events, part);
    }
}
