//! The journal and the summary of a space.
ghost use Rattle.std.specs.Prelude.{◌≡◌, ◌<◌, ◌++◌, true, flat_map, length, pos, slice_get, Some, OnOk, IfOk};
ghost use Rattle.std.specs.List.{AllByRecursion};
ghost use Rattle.history.specs.Outline as lines;
ghost use Rattle.history.specs.declared.asks.Event.{Event};
ghost use Rattle.history.specs.declared.limits.TheConstants.{END_OF_TIME};
ghost use Rattle.journal.specs.Grammar.{JournalText};
ghost use Rattle.journal.specs.Written as written;
ghost use Rattle.space.specs.Summary.{counts_text};

use crate::turns::Space;
use event_log::SpaceEvents;
use journal::Word;
use journal::outline::{put_events_line, put_line};
use journal::write::{put_event_line, put_first_line};
use object_ids::Uid;
use sequence::ByteList;
use std::alloc::{AllocError, Global};

/// The journal of a space that keeps its events: a line of its configuration, then a line for each event that it took, in order. It spells
/// these events and this configuration, where its identifier's count is 0.
pub fn journal(alloc: Global, space: &Space) -> Result<ByteList, AllocError>
    requires stored { space.now.configuration.stored ≡ true }
    ensures text { IfOk result
        (λ text. text ≡ written.journal_text space.now.configuration space.now.events) }
    ensures spelled { IfOk result (λ text. space.now.configuration.uid.count ≡ pos 0
        → JournalText text space.now.configuration space.now.events) }
{
    let mut text = ByteList::new(alloc);
    put_first_line(&mut text, &space.tables.config)?;
    put_events(&mut text, space.tables.config.uid, &space.tables.events)?;
    Ok(text)
}

/// Appends the lines of events.
fn put_events(text: &mut ByteList, space: Uid, events: &SpaceEvents) -> Result<(), AllocError>
    requires { events.now.stored ≡ true }
    ensures text { OnOk result
        (text.new ≡ text.old ++ flat_map (written.event_line space) events.now.items) }
    ensures fits { OnOk result
        (AllByRecursion (λ e. e.moment < END_OF_TIME → written.EventFits e) events.now.items) }
{
    for place in 0..events.len() {
        put_line_at(text, space, events, place)?;
    }
    Ok(())
}

/// Appends the line of the event at a place.
fn put_line_at(
    text: &mut ByteList,
    space: Uid,
    events: &SpaceEvents,
    place: usize,
) -> Result<(), AllocError>
    requires stored { events.now.stored ≡ true }
    requires place { place < length events.now.items }
    ensures text { OnOk result
        ((e : Event) → slice_get events.now.items place ≡ Some e
        → text.new ≡ text.old ++ written.event_line space e) }
    ensures fits { OnOk result
        ((e : Event) → slice_get events.now.items place ≡ Some e → e.moment < END_OF_TIME
        → written.EventFits e) }
{
    let view = events.event(place)?;
    let put = put_event_line(text, space, view.event());
    // By hand, so that it is dropped in one call on every way out.
    drop(view);
    put
}

/// The numbers of entries in the tables of a space.
#[derive(Clone, Copy)]
struct Counts {
    objects: u64,
    clients: u64,
    pairs: u64,
    awaiting: u64,
    names: u64,
    withdrawn: u64,
}

/// The summary of a space: how many events it took, their units and its present moment; then how many objects are exported, how
/// many clients have time left, how many pairs are remembered, how many references await, how many names there are, and how
/// many objects were withdrawn.
pub fn summary(alloc: Global, space: &Space) -> Result<ByteList, AllocError>
    ensures { IfOk result (λ text. text ≡ lines.summary space.now.configuration space.now.events) }
{
    let mut text = ByteList::new(alloc);
    put_events_line(
        &mut text,
        space.tables.events.len() as u64,
        space.tables.units,
        space.tables.moment,
    )?;
    let clients = space.tables.leases.clients(alloc, space.tables.moment)?;
    let counts = Counts {
        objects: u64::from(space.tables.exports.count()),
        clients: clients.len() as u64,
        pairs: u64::from(space.tables.leases.pairs(space.tables.moment)),
        awaiting: u64::from(space.tables.exports.waiting_count(space.tables.moment)),
        names: u64::from(space.tables.names.len()),
        withdrawn: space.tables.withdrawn.len() as u64,
    };
    put_counts(&mut text, counts)?;
    Ok(text)
}

/// Appends the line of these counts.
fn put_counts(text: &mut ByteList, counts: Counts) -> Result<(), AllocError>
    ensures { OnOk result (text.new ≡ text.old ++ counts_text counts) }
{
    put_line(
        text,
        &[
            Word::Text(b"objects"),
            Word::Number(counts.objects),
            Word::Text(b"clients"),
            Word::Number(counts.clients),
            Word::Text(b"pairs"),
            Word::Number(counts.pairs),
            Word::Text(b"awaiting"),
            Word::Number(counts.awaiting),
            Word::Text(b"names"),
            Word::Number(counts.names),
            Word::Text(b"withdrawn"),
            Word::Number(counts.withdrawn),
        ],
    )
}
