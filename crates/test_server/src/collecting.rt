//! The reports of links go to a taker, each when its link has ended.
ghost use Rattle.std.specs.Prelude.{◌≡◌, ◌≤◌, ◌++◌, []};
ghost use Rattle.conn_server.specs.Taken.{IsEmpty};

use crate::gates::{Gated, GatedSink, GatedSource};
use crate::histories::begins_so;
use crate::servers::{CONFIG, is_short, listener_of, plan_of};
use crate::texts::must;
use conn_server::{Begin, DropsReports, LinkReport, ReportTaker, Served, Server, Stop};
use history::Event;
use past::Past;
use sample_app::{SampleCrew, SampleHand, sample_book, sample_space};
use sequence::Kinds;
use space::Asked;
use std::alloc::Global;
use std::process::Abort;
use std::sync::Wait;
use std::thread::Threads;
use turn_lock::TurnLock;
use wire_io::MemClock;

/// Appends the events of a part to a list that exists in proofs alone.
fn note_part(events: &mut Past<Event>, part: &[Event])
    ensures { events.new ≡ events.old ++ part.now }
{
    for event in part {
        events.push(event);
    }
}

/// Notes the numbers of links in the order in which their reports come, and drops the reports.
#[derive(Drop)]
struct NotesNumbers<R> {
    numbers: Kinds,
    reports: Past<R>,
    ticks: Past<Asked>,
    events: Past<Event>,
}

impl<I: Drop, O: Drop, T: Drop, H: Drop> ReportTaker<LinkReport<I, O, T, H>>
    for NotesNumbers<LinkReport<I, O, T, H>> {
    ghost use Rattle.std.specs.Prelude.{◌+◌, ◌^◌, length};

    ghost taken = { λ n. record {
      reports = n.reports;
      ticks = n.ticks;
      events = n.events;
      report_limit = length n.reports + 2 ^ 64;
      tick_limit = length n.ticks + 2 ^ 64;
    } };

    ghost expects = { λ n report. Unit {0} };

    ghost holds = { λ n. Unit {0} };

    ghost Stays = { Unit {0} };

    ghost stays = { λ n. tt };

    fn reserve(&mut self, _reports: usize) -> bool {
        true
    }

    fn began(&mut self, _by: u32) {}

    fn ended(&mut self, report: LinkReport<I, O, T, H>) {
        let _noted = self.numbers.push(report.by);
        self.reports.push(&report);
        drop(report);
    }

    fn ticked(&mut self, entry: Asked) {
        self.ticks.push(&entry);
        drop(entry);
    }

    fn record(&mut self, part: &[Event]) {
        note_part(&mut self.events, part);
    }
}

/// A client that sends nothing before the one that comes after it was served.
const AT_ONCE: &str =
    "1 | 1234 | 500 | | opening add_one ping | ack number +5 first 0000000000000002 pong | Ended
0 | 1234 | 400 | | opening add_one | ack number +5 first 0000000000000001 | Ended";

/// The result of the sample with a taker, over links in memory.
type ServedBy<C> = Served<GatedSource, GatedSink, MemClock, C>;

/// A report of a link of the sample.
type SampleReport<'t, R> = LinkReport<GatedSource, GatedSink, MemClock, SampleHand<'t, R>>;

/// Serves the two clients, and hands their reports to a taker that was given nothing yet and takes any; None where there is no memory.
fn serve_both<'t, R: Threads + Wait + Abort + Sync, C: ReportTaker<SampleReport<'t, R>>>(
    rt: &'t R,
    alloc: Global,
    taker: C,
) -> Option<ServedBy<C>>
    requires empty { IsEmpty (C.taken taker) }
    requires expects { (report : _) → C.expects taker report }
{
    let crew = SampleCrew::new(rt, alloc).ok()?;
    let book = sample_book(alloc).ok()?;
    let space = sample_space(alloc, &CONFIG).ok()?;
    let plan = plan_of(rt, alloc, 2, 1099);
    if !is_short(&plan.host) {
        return None;
    }
    let mut listener: Gated = listener_of(rt, alloc, AT_ONCE)?;
    match TurnLock::around(alloc, space) {
        Ok((lock, root)) => {
            let server = Server {
                rt,
                alloc,
                crew: &crew,
                book: &book,
            };
            Some(server.serve_with(&mut listener, lock, Begin { root, taker }, &plan))
        }
        Err(_space) => None,
    }
}

/// The beginning of the outline of the history that the two clients leave.
const FIRST: &str = "events 12 units 12 now 500\n";

#[test]
fn reports_come_as_links_end(rt: HostRuntime) {
    let notes = NotesNumbers {
        numbers: Kinds::new(rt.alloc()),
        reports: Past::new(),
        ticks: Past::new(),
        events: Past::new(),
    };
    match serve_both(&rt, rt.alloc(), notes) {
        Some(served) => {
            let numbers = served.taker.numbers.as_slice();
            must(&rt, numbers == [2, 1].as_slice(), "the last first");
            must(&rt, served.stop == Stop::All, "stop");
            must(&rt, begins_so(rt.alloc(), &served.space, FIRST), FIRST);
        }
        None => must(&rt, false, "memory"),
    }
}

#[test]
fn reports_may_be_dropped(rt: HostRuntime) {
    match serve_both(&rt, rt.alloc(), DropsReports::new()) {
        Some(served) => {
            must(&rt, served.stop == Stop::All, "stop");
            must(&rt, begins_so(rt.alloc(), &served.space, FIRST), FIRST);
        }
        None => must(&rt, false, "memory"),
    }
}
