//! A taker that notes what it is given, beside another one.
ghost use Rattle.std.specs.Prelude.{◌≡◌, []};

use crate::gates::{Ended, is_told_to_stop};
use crate::servers::SPACE;
use conn_server::{MAX_PART, ReportTaker};
use history::Event;
use journal::put_event_line;
use sequence::{ByteList, Kinds};
use space::Asked;
use std::alloc::Global;

/// Notes the lines of the events that another taker is given, and the numbers of the links that begin and end.
#[derive(Drop)]
pub(crate) struct Noting<C> {
    pub(crate) inner: C,
    /// The lines of the events, as a journal has them.
    pub(crate) text: ByteList,
    /// The numbers of links, each as it begins and, with 1,000 added, as it ends.
    pub(crate) links: Kinds,
    /// False once there was no memory to note something.
    pub(crate) whole: bool,
    /// Says when the listener was told to stop.
    ended: Ended,
    /// True once an event was handed on before the listener was told to stop.
    pub(crate) early: bool,
}

impl<C> Noting<C> {
    /// It was given nothing yet but what the other taker was.
    pub(crate) fn new(alloc: Global, inner: C, ended: Ended) -> Noting<C>
        ensures { result.inner ≡ inner }
    {
        Noting {
            inner,
            text: ByteList::new(alloc),
            links: Kinds::new(alloc),
            whole: true,
            ended,
            early: false,
        }
    }

    /// Notes a number.
    fn note(&mut self, number: u32)
        ensures { self.new.inner ≡ self.old.inner }
    {
        if self.links.push(number).is_err() {
            self.whole = false;
        }
    }

    /// Notes the line of an event.
    fn note_event(&mut self, event: &Event)
        ensures { self.new.inner ≡ self.old.inner }
    {
        if put_event_line(&mut self.text, SPACE, event).is_err() {
            self.whole = false;
        }
    }

    /// Notes the lines of events.
    fn note_events(&mut self, part: &[Event])
        ensures { self.new.inner ≡ self.old.inner }
    {
        if part.len() > MAX_PART {
            self.whole = false;
        }
        if !part.is_empty() && !is_told_to_stop(&self.ended) {
            self.early = true;
        }
        for event in part {
            self.note_event(event);
        }
    }
}

/// The reports that have a number.
pub(crate) trait Numbered {
    fn by(&self) -> u32;
}

impl<I, O, T, H> Numbered for conn_server::LinkReport<I, O, T, H> {
    fn by(&self) -> u32 {
        self.by
    }
}

impl<R: Numbered, C: ReportTaker<R>> ReportTaker<R> for Noting<C> {
    ghost taken = { λ n. C.taken n.inner };

    ghost expects = { λ n report. C.expects n.inner report };

    ghost holds = { λ n. C.holds n.inner };

    ghost Stays = { C.Stays };

    ghost stays = { λ n. C.stays n.inner };

    fn reserve(&mut self, reports: usize) -> bool {
        self.inner.reserve(reports)
    }

    fn began(&mut self, by: u32) {
        self.note(by);
        self.inner.began(by);
    }

    fn ended(&mut self, report: R) {
        self.note(report.by().saturating_add(1_000));
        self.inner.ended(report);
    }

    fn ticked(&mut self, entry: Asked) {
        self.inner.ticked(entry);
    }

    fn record(&mut self, part: &[Event]) {
        self.note_events(part);
        self.inner.record(part);
    }
}
