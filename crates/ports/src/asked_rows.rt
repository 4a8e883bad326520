//! Entries of turns as a port keeps them.
ghost use Rattle.std.specs.Prelude.{◌≡◌, ◌↔◌, ◌<◌, ℕ, List, [], length, IsTrue};
ghost use Rattle.history.specs.declared.asks.Ask.TheVariants.{Finish as FinishAsk};
ghost use Rattle.history.specs.declared.replies.Reply.TheVariants.{Started, Finished, Done};
ghost use Rattle.history.specs.declared.replies.Turn.{Turn};
ghost use Rattle.space.specs.declared.asked.Asked.{Asked as Entry};
ghost use Rattle.space.specs.declared.asked.AskedEnd.TheVariants.{Turned, Abandoned};
ghost use Rattle.ports.specs.AskedRows.{IsStarted, IsPlainReply, IsPlainEnd, IsAbandon, IsAmongWhole, IsKnownRow, entry_of_row, entry_with, plain_turn, whole_at};
ghost use Rattle.ports.specs.AskedViews.{entry_of_view};
ghost use Rattle.ports.specs.Balance.{is_start};
ghost use Rattle.ports.specs.Ports.{is_started};

use crate::asked_view::AskedView;
use history::{Ask, Reply, Turn};
use object_ids::{ObjId, ObjIds, Uid};
use sequence::Kinds;
use space::{Asked, AskedEnd};
use std::alloc::Global;

/// The content of a row beside its moment: a request, its answer, and the place of its event. A row reports nothing
/// as gone.
#[derive(Drop)]
pub enum AskedWhat {
    /// A Begin that started a call of an object of this kind.
    Began {
        place: u64,
        object: ObjId,
        kind: u32,
    },
    /// A Finish that makes and lists nothing, and ended a call.
    Returned {
        place: u64,
        object: ObjId,
        uid: Uid,
    },
    /// A call that was ended without an answer.
    GivenUp {
        place: u64,
        object: ObjId,
    },
    /// An Ack.
    Acked {
        place: u64,
        uid: Uid,
    },
    /// Any other entry: the one with this number among those that are kept whole. Its own moment counts, not the row's.
    Whole(usize),
}

/// An entry as a port keeps it.
#[derive(Drop)]
pub struct AskedRow {
    /// The moment of the turn, in milliseconds.
    pub moment: u64,
    /// The request, its answer and its place.
    pub what: AskedWhat,
}

// ---- plain entries

/// Returns whether a reply is Done.
fn is_done(reply: &Reply) -> bool
    ensures { IsTrue result ↔ (reply.now ≡ Done) }
{
    matches!(reply, Reply::Done)
}

/// Returns whether a Finish made nothing.
fn is_finished(reply: &Reply) -> bool
    ensures { IsTrue result ↔ (reply.now ≡ Finished []) }
{
    match reply {
        Reply::Finished(objects) => objects.is_empty(),
        _ => false,
    }
}

fn is_plain_reply(ask: &Ask, reply: &Reply) -> bool
    ensures { IsTrue result ↔ IsPlainReply ask.now reply.now }
{
    match ask {
        Ask::Begin { .. } => is_started(reply),
        Ask::Finish { made, listed, .. } => {
            made.is_empty() && listed.is_empty() && is_finished(reply)
        }
        Ask::Ack { .. } => is_done(reply),
        Ask::Open { .. }
        | Ask::Abandon { .. }
        | Ask::Dirty { .. }
        | Ask::Clean { .. }
        | Ask::Bind { .. }
        | Ask::Rebind { .. }
        | Ask::Unbind { .. }
        | Ask::Lookup { .. }
        | Ask::List
        | Ask::Tick => false,
    }
}

fn is_abandon(ask: &Ask) -> bool
    ensures { IsTrue result ↔ IsAbandon ask.now }
{
    matches!(ask, Ask::Abandon { .. })
}

/// Returns whether an entry is kept in its row alone.
pub(crate) fn is_plain(ask: &Ask, end: &AskedEnd) -> bool
    ensures { IsTrue result ↔ IsPlainEnd ask.now end.now }
{
    match end {
        AskedEnd::Turned(turn) => turn.gone.is_empty() && is_plain_reply(ask, &turn.reply),
        AskedEnd::Abandoned(_) => is_abandon(ask),
        AskedEnd::Refused(_) => false,
    }
}

// ---- rows

fn kind_of(reply: &Reply) -> u32
    requires { IsStarted reply.now }
    ensures { reply.now ≡ Started result }
{
    match reply {
        Reply::Started(kind) => *kind,
        _ => 0,
    }
}

/// Returns the content of the row of a plain reply.
fn row_of_turn(place: u64, ask: &Ask, reply: &Reply) -> AskedWhat
    requires { IsPlainReply ask.now reply.now }
    ensures row { (wholes : List Entry) → (moment : ℕ)
        → entry_with wholes moment result
        ≡ record { moment = moment; ask = ask.now; end = Turned (plain_turn place reply.now) } }
    ensures known { (count : ℕ) → IsAmongWhole count result }
{
    match ask {
        Ask::Begin { object } => AskedWhat::Began {
            place,
            object: *object,
            kind: kind_of(reply),
        },
        Ask::Finish { object, uid, .. } => AskedWhat::Returned {
            place,
            object: *object,
            uid: *uid,
        },
        Ask::Ack { uid } => AskedWhat::Acked { place, uid: *uid },
        // no other reply is plain
        _ => AskedWhat::Acked {
            place,
            uid: Uid {
                time: 0,
                unique: 0,
                count: 0,
            },
        },
    }
}

/// Returns the content of the row of a call that ended without an answer.
fn row_of_abandon(place: u64, ask: &Ask) -> AskedWhat
    requires { IsAbandon ask.now }
    ensures row { (wholes : List Entry) → (moment : ℕ)
        → entry_with wholes moment result
        ≡ record { moment = moment; ask = ask.now; end = Abandoned place } }
    ensures known { (count : ℕ) → IsAmongWhole count result }
{
    let mut row = ObjId {
        number: 0,
        space: Uid {
            time: 0,
            unique: 0,
            count: 0,
        },
    };
    if let Ask::Abandon { object } = ask {
        row = *object;
    }
    AskedWhat::GivenUp { place, object: row }
}

fn plain_what(ask: &Ask, end: &AskedEnd) -> AskedWhat
    requires { IsPlainEnd ask.now end.now }
    ensures row { (wholes : List Entry) → (moment : ℕ)
        → entry_with wholes moment result
        ≡ record { moment = moment; ask = ask.now; end = end.now } }
    ensures known { (count : ℕ) → IsAmongWhole count result }
{
    match end {
        AskedEnd::Turned(turn) => row_of_turn(turn.place, ask, &turn.reply),
        AskedEnd::Abandoned(place) => row_of_abandon(*place, ask),
        AskedEnd::Refused(_) => row_of_abandon(0, ask),
    }
}

/// The row of an entry that is kept in it alone.
pub(crate) fn plain_row(entry: &Asked) -> AskedRow
    requires { IsPlainEnd entry.now.ask entry.now.end }
    ensures row { (wholes : List Entry) → entry_of_row wholes result ≡ entry.now }
    ensures known { (count : ℕ) → IsKnownRow count result }
{
    AskedRow {
        moment: entry.moment,
        what: plain_what(&entry.ask, &entry.end),
    }
}

/// The row of the entry of a moment that is kept whole under this number.
pub(crate) fn whole_row(moment: u64, number: usize) -> AskedRow
    ensures row { (wholes : List Entry) → entry_of_row wholes result ≡ whole_at wholes number }
    ensures known { (count : ℕ) → number < count → IsKnownRow count result }
{
    let what = AskedWhat::Whole(number);
    AskedRow { moment, what }
}

// ---- calls

/// Returns whether an entry that ends so began a call.
fn ends_as_start(end: &AskedEnd) -> bool
    ensures { result ≡ is_start end.now }
{
    match end {
        AskedEnd::Turned(turn) => is_started(&turn.reply),
        AskedEnd::Refused(_) | AskedEnd::Abandoned(_) => false,
    }
}

/// Returns whether a reply says that a call was begun.
pub(crate) fn is_started(reply: &Reply) -> bool
    ensures value { result ≡ is_started reply.now }
    ensures started { IsTrue result ↔ IsStarted reply.now }
{
    match reply {
        Reply::Started(_kind) => true,
        _ => false,
    }
}

/// Returns whether the entry that is kept whole under this number began a call.
fn is_whole_start(wholes: &[Asked], number: usize) -> bool
    ensures { result ≡ is_start (whole_at wholes.now number).end }
{
    match wholes.get(number) {
        Some(entry) => ends_as_start(&entry.end),
        None => false,
    }
}

/// Returns whether the entry of a row began a call, where these are kept whole.
pub(crate) fn is_start(wholes: &[Asked], row: &AskedRow) -> bool
    ensures { result ≡ is_start (entry_of_row wholes.now row.now).end }
{
    match &row.what {
        AskedWhat::Began { .. } => true,
        AskedWhat::Returned { .. } | AskedWhat::GivenUp { .. } | AskedWhat::Acked { .. } => false,
        AskedWhat::Whole(number) => is_whole_start(wholes, *number),
    }
}

// ---- reading

fn turn(alloc: Global, place: u64, reply: Reply) -> AskedEnd
    ensures { result ≡ Turned (plain_turn place reply) }
{
    AskedEnd::Turned(Turn {
        place,
        reply,
        gone: ObjIds::new(alloc),
    })
}

/// A Finish that makes and lists nothing.
fn finish(alloc: Global, object: &ObjId, uid: &Uid) -> Ask
    ensures { result ≡ FinishAsk object.now [] [] uid.now }
{
    Ask::Finish {
        object: *object,
        made: Kinds::new(alloc),
        listed: ObjIds::new(alloc),
        uid: *uid,
    }
}

/// The entry that is kept whole under this number.
#[tactic(auto, using(crate::proofs::AskedRowLaws::whole_there))]
fn whole_numbered(wholes: &[Asked], number: usize) -> &Asked
    requires { number < length wholes.now }
    ensures { result.now ≡ whole_at wholes.now number }
{
    &wholes[number]
}

/// The entry of a row, where these are kept whole.
pub(crate) fn view_of<'a>(alloc: Global, wholes: &'a [Asked], row: &AskedRow) -> AskedView<'a>
    requires { IsKnownRow (length wholes.now) row.now }
    ensures { entry_of_view result ≡ entry_of_row wholes.now row.now }
{
    let (ask, end) = match &row.what {
        AskedWhat::Whole(number) => return AskedView::Kept(whole_numbered(wholes, *number)),
        AskedWhat::Began {
            place,
            object,
            kind,
        } => (
            Ask::Begin { object: *object },
            turn(alloc, *place, Reply::Started(*kind)),
        ),
        AskedWhat::Returned { place, object, uid } => (
            finish(alloc, object, uid),
            turn(alloc, *place, Reply::Finished(ObjIds::new(alloc))),
        ),
        AskedWhat::GivenUp { place, object } => (
            Ask::Abandon { object: *object },
            AskedEnd::Abandoned(*place),
        ),
        AskedWhat::Acked { place, uid } => (
            Ask::Ack { uid: *uid },
            turn(alloc, *place, Reply::Done),
        ),
    };
    AskedView::Made(Asked {
        moment: row.moment,
        ask,
        end,
    })
}
