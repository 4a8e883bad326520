//! The desk of `host`: it is given events and the reports of links, and writes their lines.
ghost use Rattle.std.specs.Prelude.{◌≡◌, ◌⊎◌, ◌∷◌, ◌++◌, [], None};
ghost use Rattle.wire_io.specs.Wire.{Gave};
ghost use Rattle.rmi_cli.specs.Desk.{TakesStart, ended_link, link_with, milliseconds};

use crate::event_lines::write_events;
use crate::link_line::EndedLink;
use crate::sink_state::{SinkState, write_made};
use conn_server::{LinkReport, ReportTaker};
use history::Event;
use object_ids::Uid;
use past::Past;
use rmi_words::Record;
use space::Asked;
use std::alloc::Global;
use std::snapshot::Snapshot;
use wire_io::clock::Clock;
use wire_io::sink::Sink;

/// The start of a link.
#[derive(Clone, Copy)]
pub struct LinkStart {
    /// The number of the link.
    pub number: u32,
    /// The moment of the turn before it.
    pub moment: u64,
}

/// The report of a link that has ended, and the moments between which the link took its time.
#[derive(Drop)]
pub struct TimedReport<R> {
    // The report as it was given, and as it was once its clock had given the last moment. They take no memory and exist in proofs alone.
    pub report: Snapshot<R>,
    pub left: Snapshot<R>,
    /// The moment of the server's own turn before its start. None where there was no memory to keep it.
    pub begun: Option<u64>,
    /// The moment that its clock gave when the report came, which is up to a second after its end.
    pub ended: u64,
}

/// The reports, the entries and the events that a desk was given. They take no memory and exist in proofs alone.
#[derive(Drop)]
pub struct Given<R> {
    pub reports: Past<TimedReport<R>>,
    pub ticks: Past<Asked>,
    pub events: Past<Event>,
}

impl<R> Given<R> {
    /// Nothing was given.
    pub(crate) fn nothing() -> Given<R>
        ensures reports { result.reports ≡ [] }
        ensures ticks { result.ticks ≡ [] }
        ensures events { result.events ≡ [] }
    {
        Given {
            reports: Past::new(),
            ticks: Past::new(),
            events: Past::new(),
        }
    }
}

/// Writes the lines of events on the output, where they are recorded, and the line of each link that has ended on the errors' sink. `S` is the list
/// of the links that have begun and not ended.
#[derive(Drop)]
pub struct HostDesk<'s, K, E, R, S> {
    pub output: &'s mut K,
    pub errors: &'s mut E,
    /// The state of the output.
    pub printed: SinkState,
    /// The state of the errors' sink.
    pub told: SinkState,
    pub alloc: Global,
    /// The choice of what `host` prints. The desk writes the lines of events only for `Record::Journal`.
    pub recording: Record,
    /// The identifier of the space of which events are recorded.
    pub space: Uid,
    /// The moment of the last turn of the server's own, once there was one.
    pub last: Option<u64>,
    pub starts: S,
    pub given: Given<R>,
    // The sinks and their states when the desk was made.
    pub first_output: Snapshot<K>,
    pub first_errors: Snapshot<E>,
    pub first_printed: SinkState,
    pub first_told: SinkState,
}

/// The states of the output and of the errors' sink.
#[derive(Clone, Copy)]
pub struct SinkStates {
    pub printed: SinkState,
    pub told: SinkState,
}

/// The output and the errors' sink, and their states.
#[derive(Drop)]
pub struct DeskSinks<'s, K, E> {
    pub output: &'s mut K,
    pub errors: &'s mut E,
    pub states: SinkStates,
}

/// The remains of a desk: what it was given, and the states of its sinks.
#[derive(Drop)]
pub struct DeskLeft<R> {
    pub given: Given<R>,
    pub states: SinkStates,
}

/// A desk whose list of links that have begun is a vector.
pub type Desk<'s, K, E, R> = HostDesk<'s, K, E, R, Vec<LinkStart>>;

impl<'s, K, E> DeskSinks<'s, K, E> {
    /// Returns a desk over the sinks, which was given nothing yet, for the space of this identifier.
    pub(crate) fn into_desk<R>(
        self,
        alloc: Global,
        recording: Record,
        space: Uid,
    ) -> Desk<'s, K, E, R>
        ensures same_output { result.output.ghost_name ≡ self.entry.output.ghost_name }
        ensures same_errors { result.errors.ghost_name ≡ self.entry.errors.ghost_name }
        ensures sinks { (result.output.now ≡ self.entry.output.now)
            × (result.errors.now ≡ self.entry.errors.now) }
        ensures first { (result.first_output.value ≡ self.entry.output.now)
            × (result.first_errors.value ≡ self.entry.errors.now) }
        ensures printed { (result.printed ≡ self.entry.states.printed)
            × (result.first_printed ≡ self.entry.states.printed) }
        ensures told { (result.told ≡ self.entry.states.told)
            × (result.first_told ≡ self.entry.states.told) }
        ensures words { (result.recording ≡ recording) × (result.space ≡ space) }
        ensures nothing { (result.given.reports ≡ []) × (result.given.ticks ≡ [])
            × (result.given.events ≡ []) }
        ensures times { (result.last ≡ None) × (result.starts.items ≡ []) }
    {
        let DeskSinks {
            output,
            errors,
            states,
        } = self;
        HostDesk {
            first_output: Snapshot::of(&*output),
            first_errors: Snapshot::of(&*errors),
            first_printed: states.printed,
            first_told: states.told,
            output,
            errors,
            printed: states.printed,
            told: states.told,
            alloc,
            recording,
            space,
            last: None,
            starts: Vec::new(alloc),
            given: Given::nothing(),
        }
    }
}

impl<'s, K, E, R, S: Drop> HostDesk<'s, K, E, R, S> {
    /// Returns the sinks, and what is left of the desk.
    pub(crate) fn into_parts(self) -> (&'s mut K, &'s mut E, DeskLeft<R>)
        ensures same_output { result.0.ghost_name ≡ self.entry.output.ghost_name }
        ensures same_errors { result.1.ghost_name ≡ self.entry.errors.ghost_name }
        ensures sinks { (result.0.now ≡ self.entry.output.now)
            × (result.1.now ≡ self.entry.errors.now) }
        ensures given { result.2.given ≡ self.entry.given }
        ensures printed { result.2.states.printed ≡ self.entry.printed }
        ensures told { result.2.states.told ≡ self.entry.told }
    {
        let HostDesk {
            output,
            errors,
            printed,
            told,
            alloc: _,
            recording: _,
            space: _,
            last: _,
            starts,
            given,
            first_output: _,
            first_errors: _,
            first_printed: _,
            first_told: _,
        } = self;
        drop(starts);
        let states = SinkStates { printed, told };
        (output, errors, DeskLeft { given, states })
    }
}

impl<'s, K: Sink, E: Sink, I: Drop, O: Drop, T: Clock + Drop, H: Drop> ReportTaker<
    LinkReport<I, O, T, H>,
> for HostDesk<'s, K, E, LinkReport<I, O, T, H>, Vec<LinkStart>> {
    ghost use Rattle.rmi_cli.specs.Desk.{AreTimed, DeskStays, taken_of, recorded_lines, told_lines};
    ghost use Rattle.rmi_cli.specs.Sinks.{Goes};

    ghost taken = { λ d. taken_of d.given };

    ghost expects = { λ d report. Unit {0} };

    ghost holds = { λ d.
        Goes (K.half d.first_output.value) (K.half d.output.now)
        (recorded_lines d.recording d.space d.given.events) d.first_printed d.printed
        × Goes (E.half d.first_errors.value) (E.half d.errors.now)
        (told_lines d.given.reports) d.first_told d.told
        × AreTimed T.given d.last d.starts.items d.given.ticks d.given.reports };

    ghost Stays = { DeskStays };

    ghost stays = { λ d. record {
      recording = d.recording;
      space = d.space;
      output = d.output.ghost_name;
      errors = d.errors.ghost_name;
      first_output = K.half d.first_output.value;
      first_errors = E.half d.first_errors.value;
      first_printed = d.first_printed;
      first_told = d.first_told;
    } };

    fn reserve(&mut self, _reports: usize) -> bool {
        self.starts.reserve(1).is_ok()
    }

    fn began(&mut self, by: u32) {
        if let Some(moment) = self.last {
            note_start(&mut self.starts, LinkStart { number: by, moment });
        }
    }

    fn ended(&mut self, report: LinkReport<I, O, T, H>) {
        let begun = take_start(&mut self.starts, report.by);
        let (link, timed) = time_link(report, begun);
        self.given.reports.push(&timed);
        self.told = write_made(self.errors, self.told, link.line(self.alloc));
    }

    fn ticked(&mut self, entry: Asked) {
        self.last = Some(entry.moment);
        self.given.ticks.push(&entry);
        drop(entry);
    }

    fn record(&mut self, part: &[Event]) {
        note_events(&mut self.given.events, part);
        match self.recording {
            Record::Silent => {}
            Record::Journal => {
                self.printed = write_events(
                    self.alloc,
                    self.output,
                    self.printed,
                    self.space,
                    part,
                );
            }
        }
    }
}

/// Appends events to a list that exists in proofs alone.
fn note_events(noted: &mut Past<Event>, events: &[Event])
    ensures { noted.new ≡ noted.old ++ events.now }
{
    for event in events {
        noted.push(event);
    }
}

/// Appends the start of a link, where there is memory for it.
fn note_start(starts: &mut Vec<LinkStart>, start: LinkStart)
    ensures { (starts.new.items ≡ starts.old.items ++ start ∷ [])
        ⊎ (starts.new.items ≡ starts.old.items) }
{
    let _ = starts.push(start);
}

/// Takes the start of a link out of the list, and returns its moment. None where it is not there, for want of memory.
fn take_start(starts: &mut Vec<LinkStart>, number: u32) -> Option<u64>
    ensures { TakesStart starts.old.items result starts.new.items }
{
    let place = starts.iter().position(|start| start.number == number)?;
    Some(starts.swap_remove(place).moment)
}

/// Reads the clock of a link that has ended once more. Returns what is told of the link, and its report with the moments of its time.
fn time_link<I: Drop, O: Drop, T: Clock + Drop, H: Drop>(
    report: LinkReport<I, O, T, H>,
    begun: Option<u64>,
) -> (EndedLink, TimedReport<LinkReport<I, O, T, H>>)
    ensures link { result.0 ≡ ended_link result.1 }
    ensures report { result.1.report.value ≡ report }
    ensures begun { result.1.begun ≡ begun }
    ensures gave { Gave (T.given report.clock) (T.given result.1.left.value.clock)
        (result.1.ended ∷ []) }
{
    let given = Snapshot::of(&report);
    let mut report = report;
    let ended = report.clock.now();
    let timed = TimedReport {
        report: given,
        left: Snapshot::of(&report),
        begun,
        ended,
    };
    (into_ended(report, milliseconds(begun, ended)), timed)
}

/// Returns the milliseconds from one moment to another. They are 0 where the first is not known, or is the later one.
fn milliseconds(begun: Option<u64>, ended: u64) -> u64
    ensures { result ≡ milliseconds begun ended }
{
    match begun {
        Some(begun) => ended.saturating_sub(begun),
        None => 0,
    }
}

/// Returns what is told of a link that has ended and took so many milliseconds.
fn into_ended<I: Drop, O: Drop, T: Drop, H: Drop>(
    report: LinkReport<I, O, T, H>,
    milliseconds: u64,
) -> EndedLink
    ensures { result ≡ link_with report milliseconds }
{
    let LinkReport {
        by,
        peer_host,
        peer_port,
        calls,
        end,
        source,
        sink,
        clock,
        asked,
        hand,
    } = report;
    drop(source);
    drop(sink);
    drop(clock);
    drop(asked);
    drop(hand);
    EndedLink {
        number: by,
        host: peer_host,
        port: peer_port,
        end,
        calls,
        milliseconds,
    }
}
