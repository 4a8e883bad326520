//! The requests to a space and the calls of a worker, as words.
use crate::texts::{bytes_from, cut, put};
use call_dispatch::Recorded;
use history::Refused;
use object_ids::{FullKind, ObjId, ObjIds};
use sequence::Kinds;
use space::{Ask, Asked, AskedEnd, Space, journal};
use std::alloc::Global;
use std::process::Abort;

/// Returns whether a word is a name and the number of this object.
fn is_numbered(object: &ObjId, name: &str, word: &str) -> bool {
    match word.strip_prefix(name) {
        Some(number) => number.parse::<i64>().ok() == Some(object.number),
        None => false,
    }
}

/// Returns whether a word tells the end of a call. The word is `made` and the number of new objects, or `listed` and
/// the object that the Return lists.
fn is_finish(made: &Kinds, listed: &ObjIds, word: &str) -> bool {
    match listed.first() {
        Some(object) => {
            made.is_empty() && listed.len() == 1 && is_numbered(object, "listed", word)
        }
        None => match word.strip_prefix("made") {
            Some(count) => count.parse::<usize>().ok() == Some(made.len()),
            None => word == "finish" && made.is_empty(),
        },
    }
}

/// Returns whether a word tells a request.
fn is_ask(ask: &Ask, word: &str) -> bool {
    match ask {
        Ask::Begin { .. } => word == "begin",
        Ask::Abandon { .. } => word == "abandon",
        Ask::Finish { made, listed, .. } => is_finish(made, listed, word),
        Ask::Dirty { .. } => word == "dirty",
        Ask::Clean { .. } => word == "clean",
        Ask::Ack { .. } => word == "ack",
        Ask::Bind { .. } => word == "bind",
        Ask::Rebind { .. } => word == "rebind",
        Ask::Unbind { .. } => word == "unbind",
        Ask::Lookup { .. } => word == "lookup",
        Ask::List => word == "list",
        _ => false,
    }
}

/// The word of a table.
fn table_of(kind: FullKind) -> &'static str {
    match kind {
        FullKind::Exports => "exports",
        FullKind::Awaiting => "awaiting",
        FullKind::Clients => "clients",
        FullKind::Pairs => "pairs",
        FullKind::Names => "names",
    }
}

/// Returns whether a word tells an entry. It tells the request, or the limit where the request was refused.
fn is_entry(entry: &Asked, word: &str) -> bool {
    match &entry.end {
        AskedEnd::Turned(_) => is_ask(&entry.ask, word),
        AskedEnd::Abandoned(_) => word == "abandon",
        AskedEnd::Refused(refused) => match refused {
            Refused::HistoryFull => word == "history",
            Refused::Full(kind) => word == table_of(*kind),
            Refused::OutOfMemory => false,
        },
    }
}

/// Returns whether these words tell the entries, one for each.
pub(crate) fn are_entries(asked: &[Asked], words: &str) -> bool {
    let mut left = words;
    for entry in asked {
        let (word, rest) = cut(left, ' ');
        if !is_entry(entry, word) {
            return false;
        }
        left = rest;
    }
    left.is_empty()
}

/// Returns whether a word tells a call of the worker. The word is the place of the method that was invoked, or `gone`
/// and the object that nobody refers to.
fn is_call(call: &Recorded, word: &str) -> bool {
    match call {
        Recorded::Invoked(call, _) => word.parse::<u32>().ok() == Some(call.method),
        Recorded::Unreferenced(object) => is_numbered(object, "gone", word),
    }
}

/// Returns whether these words tell the calls of the worker, one for each.
pub(crate) fn are_invoked(calls: &[Recorded], words: &str) -> bool {
    let mut left = words;
    for call in calls {
        let (word, rest) = cut(left, ' ');
        if !is_call(call, word) {
            return false;
        }
        left = rest;
    }
    left.is_empty()
}

/// The journal of the space of one object before any connection.
const OPENED: &str = "space 600000 300000 7 9
0 0 open 0 pinned
";

/// Returns whether these lines, separated by `;`, are the events of a space since it has its one object. No lines say
/// nothing of the events.
pub(crate) fn are_events(rt: &impl Abort, alloc: Global, space: &Space, lines: &str) -> bool {
    if lines.is_empty() {
        return true;
    }
    let mut wanted = bytes_from(rt, alloc, OPENED.as_bytes());
    for line in lines.split(';') {
        put(rt, &mut wanted, line.trim().as_bytes());
        put(rt, &mut wanted, b"\n");
    }
    if !space.is_stored() {
        return false;
    }
    match journal(alloc, space) {
        Ok(told) => told.as_slice() == wanted.as_slice(),
        Err(_) => false,
    }
}
