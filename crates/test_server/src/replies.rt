//! The turns of connections as lines: each event as a journal has it, then `>` and what it was answered.
use crate::histories::{check_own, is_of, put_entry};
use crate::texts::{cut, must};
use conn_server::LinkReport;
use history::Reply;
use object_ids::{ObjId, ObjIds};
use ports::PortEntries;
use sequence::ByteList;
use space::{Asked, AskedEnd, Space, journal};
use std::alloc::Global;
use std::process::Abort;
use std::str;

/// Returns whether a word is the number of this object.
fn is_object(object: &ObjId, word: &str) -> bool {
    word.parse::<i64>().ok() == Some(object.number)
}

/// Returns whether words are the numbers of these objects, none or one.
fn are_objects(objects: &ObjIds, words: &str) -> bool {
    match objects.first() {
        Some(object) => objects.len() == 1 && is_object(object, words),
        None => words.is_empty(),
    }
}

/// Returns whether words tell the object that a name stands for, and its kind: `16 kind 0`.
fn is_found(object: &ObjId, kind: u32, words: &str) -> bool {
    let (number, rest) = cut(words, ' ');
    let (word, of) = cut(rest, ' ');
    is_object(object, number) && word == "kind" && of.parse::<u32>().ok() == Some(kind)
}

/// Returns whether words tell a reply. They tell its name first. Then comes the kind of a called object; the new object of a Return, if
/// there is one; the duration of a lease; the object that a name stands for; or the number of names.
fn is_reply(reply: &Reply, words: &str) -> bool {
    let (name, rest) = cut(words, ' ');
    match reply {
        Reply::Started(kind) => name == "started" && rest.parse::<u32>().ok() == Some(*kind),
        Reply::Finished(objects) => name == "finished" && are_objects(objects, rest),
        Reply::Granted(duration) => name == "granted"
            && rest.parse::<u64>().ok() == Some(*duration),
        Reply::Found(object, kind) => name == "found" && is_found(object, *kind, rest),
        Reply::Names(names) => name == "names" && rest.parse::<usize>().ok() == Some(names.len()),
        Reply::NoObject => words == "no object",
        Reply::Done => words == "done",
        Reply::Bound => words == "bound",
        Reply::AlreadyBound => words == "already bound",
        Reply::Unbound => words == "unbound",
        Reply::NotBound => words == "not bound",
        Reply::Opened(_) | Reply::NotRunning => false,
    }
}

/// Returns whether words tell the end of an entry. A call that ended without an answer is done.
fn is_end(end: &AskedEnd, words: &str) -> bool {
    match end {
        AskedEnd::Turned(turn) => is_reply(&turn.reply, words),
        AskedEnd::Abandoned(_) => words == "done",
        AskedEnd::Refused(_) => false,
    }
}

/// Looks whether an entry of connection `by` is the one that a line tells.
fn check_entry(rt: &impl Abort, alloc: Global, by: u32, entry: &Asked, line: &str) {
    let (event, reply) = cut(line, '>');
    let mut told = ByteList::new(alloc);
    must(rt, put_entry(&mut told, alloc, by, entry).is_ok(), "memory");
    let spelled = told.as_slice().strip_suffix(b"\n");
    must(rt, spelled == Some(event.as_bytes()), line);
    must(rt, is_end(&entry.end, reply), line);
}

/// Looks whether the entries of connection `by` are those that the lines of its number tell.
fn check_entries(rt: &impl Abort, alloc: Global, by: u32, entries: &PortEntries, lines: &str) {
    let mut place = 0usize;
    for line in lines.split('\n') {
        if is_of(line, by) {
            match entries.get(place) {
                Some(view) => check_entry(rt, alloc, by, view.entry(), line),
                None => must(rt, false, line),
            }
            place = place.wrapping_add(1);
        }
    }
    must(rt, place == entries.len(), "as many turns");
}

/// Looks whether the turns of links are those that lines tell, and stand in a journal.
fn check_links<I, O, T, H>(
    rt: &impl Abort,
    alloc: Global,
    links: &[LinkReport<I, O, T, H>],
    lines: &str,
    text: &str,
) {
    for link in links {
        match link.asked.kept() {
            Some(entries) => {
                check_entries(rt, alloc, link.by, entries, lines);
                check_own(rt, alloc, link.by, entries, text);
            }
            None => must(rt, false, "kept entries"),
        }
    }
}

/// Looks whether the turns of links are those that lines tell, and stand in the journal of the space.
pub(crate) fn check_replies<I, O, T, H>(
    rt: &impl Abort,
    alloc: Global,
    links: &[LinkReport<I, O, T, H>],
    space: &Space,
    lines: &str,
) {
    if !space.is_stored() {
        must(rt, false, "stored events");
        return;
    }
    match journal(alloc, space) {
        Ok(told) => match str::from_utf8(told.as_slice()) {
            Ok(text) => check_links(rt, alloc, links, lines, text),
            Err(_) => must(rt, false, "a text"),
        },
        Err(_) => must(rt, false, "memory"),
    }
}
